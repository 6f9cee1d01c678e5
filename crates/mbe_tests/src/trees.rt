// Builds the trees of the tests, from tokens or from a text.
use crate::tokens::{at, byte, kind, leaf, token};
use mbe_text::lexer::{LexError, lex};
use mbe_tt::span::Span;
use mbe_tt::tt::{Delimiter, TopSubtree, TopSubtreeBuilder};
use std::alloc::{AllocError, Allocator, Global};
use test_rows::expand_repeats;

// Adds the token at the end of the innermost open group. A closing without an opening is skipped.
fn add(
    builder: &mut TopSubtreeBuilder,
    alloc: Global,
    (sort, text, span): (&str, &str, Span),
) -> Result<(), AllocError> {
    match sort {
        "open" => builder.open(kind(text), span),
        "close" => {
            if builder.open_kind().is_some() {
                builder.close(span);
            }
            Ok(())
        }
        _ => builder.push(leaf(alloc, sort, text, span)?),
    }
}

// Returns the trees, with each open group closed at this span.
#[tactic(auto, using(mbe_tt::proofs::Buffers::OpenGroups::closed_length))]
fn finish<A: Allocator>(mut builder: TopSubtreeBuilder<A>, end: Span) -> TopSubtree<A> {
    'groups: while builder.open_kind().is_some() {
        builder.close(end);
    }
    builder.build()
}

/// Builds the tokens of a row, one a line, in an invisible group with that span. Groups that are
/// open at the end are closed with it.
pub fn build_trees(alloc: Global, whole: Span, tokens: &str) -> Result<TopSubtree, AllocError> {
    let mut builder = TopSubtreeBuilder::new(alloc, Delimiter::invisible_spanned(whole))?;
    for row in tokens.lines() {
        add(&mut builder, alloc, token(row).ok_or(AllocError)?)?;
    }
    Ok(finish(builder, whole))
}

/// Lexes a text that has no fault.
pub fn lexed<A: Allocator + Copy>(
    alloc: A,
    file: u32,
    text: &str,
) -> Result<TopSubtree<A>, AllocError> {
    if text.len() > u32::MAX as usize {
        return Err(AllocError);
    }
    match lex(alloc, text, file) {
        Ok(tree) => Ok(tree),
        Err(LexError::OutOfMemory | LexError::Fault(_)) => Err(AllocError),
    }
}

/// Returns the trees of a row. A row is a text; or it is `tokens`, the byte at which they end, and
/// the tokens, if no text gives them.
pub fn read(alloc: Global, file: u32, trees: &str) -> Result<TopSubtree, AllocError> {
    match trees.strip_prefix("tokens ") {
        None => lexed(alloc, file, expand_repeats(alloc, trees)?.as_str()),
        Some(rest) => {
            let (end, tokens) = rest.split_once('\n').unwrap_or((rest, ""));
            build_trees(alloc, at(file, 0, byte(end)), tokens)
        }
    }
}
