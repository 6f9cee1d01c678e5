// Lists the locals of a text and where each of them is in scope.
use crate::captures::pattern_scope::{
    PatternScope, bound_tokens, function_scope, is_closing, scope_at,
};
use crate::captures::span_index::{Entry, SpanIndex, entry};
use crate::captures::{Token, tokens_of};
use mbe_tt::span::Span;
use mbe_tt::symbol::Symbol;
use mbe_tt::tt::{Ident, Leaf, TokenTreesView, TtElement};
use std::alloc::{AllocError, Allocator};

// The tokens of trees. Each has its span, and the number of the token that closes the group around
// it. Outside of any group that is the number of all tokens.
#[derive(Drop)]
pub(crate) struct SpannedTokens<'t, A: Allocator> {
    pub(crate) tokens: Vec<Token<'t, A>, A>,
    pub(crate) spans: Vec<Span, A>,
    ends: Vec<usize, A>,
}

// A local, by tokens: its name, the token that binds it, and the range in which it is in scope.
#[derive(Drop)]
#[derive_where(Clone, Copy)]
pub(crate) struct TokenScope<'t, A: Allocator> {
    pub(crate) name: &'t Ident<A>,
    pub(crate) bound: usize,
    pub(crate) from: usize,
    pub(crate) to: usize,
}

// A local, by spans.
#[derive(Drop)]
pub(crate) struct LocalScope<A: Allocator> {
    pub(crate) name: Symbol<A>,
    pub(crate) bound: Span,
    pub(crate) scope: Span,
}

// A pattern of a file, and the part of the file where its names are in scope.
#[derive(Drop)]
pub(crate) struct PatternPart {
    pub(crate) pattern: Span,
    pub(crate) scope: Span,
}

// Whether a span begins in another one.
pub(crate) fn begins_in(inner: Span, outer: Span) -> bool {
    inner.file == outer.file && outer.start <= inner.start && inner.start < outer.end
}

// Returns the spans of the tokens of trees.
fn spans_of<A: Allocator + Copy>(
    alloc: A,
    trees: TokenTreesView<'_, A>,
) -> Result<Vec<Span, A>, AllocError> {
    let mut spans = Vec::new(alloc);
    let mut closings: Vec<Span, A> = Vec::new(alloc);
    let mut last = Span::default();
    let mut cursor = trees.cursor();
    for _ in 0..trees.flat_len() {
        last = match cursor.token_tree() {
            Some(TtElement::Leaf(leaf)) => leaf.span(),
            Some(TtElement::Subtree(group, _)) => {
                closings.push(group.delimiter.close)?;
                group.delimiter.opening
            }
            None => closings.pop().unwrap_or(last),
        };
        spans.push(last)?;
        cursor.bump_or_end();
    }
    Ok(spans)
}

// Returns for each token the number of the token that closes the group around it.
fn group_ends<A: Allocator + Copy>(
    alloc: A,
    tokens: &[Token<'_, A>],
) -> Result<Vec<usize, A>, AllocError> {
    let mut ends = Vec::new(alloc);
    let mut closings: Vec<usize, A> = Vec::new(alloc);
    for at in (0..tokens.len()).rev() {
        if let Some(Token::Open(..)) = tokens.get(at) {
            closings.pop();
        }
        ends.push(closings.last().copied().unwrap_or(tokens.len()))?;
        if is_closing(tokens, at) {
            closings.push(at)?;
        }
    }
    ends.reverse();
    Ok(ends)
}

pub(crate) fn spanned_tokens<'t, A: Allocator + Copy>(
    alloc: A,
    trees: TokenTreesView<'t, A>,
) -> Result<SpannedTokens<'t, A>, AllocError> {
    let tokens = tokens_of(alloc, trees)?;
    let spans = spans_of(alloc, trees)?;
    let ends = group_ends(alloc, tokens.as_slice())?;
    Ok(SpannedTokens {
        tokens,
        spans,
        ends,
    })
}

// Returns the token that ends the scope of a pattern.
fn end_of_scope<A: Allocator>(texts: &SpannedTokens<'_, A>, pattern: PatternScope) -> usize {
    match pattern.scope_to {
        Some(end) => end,
        None if is_closing(texts.tokens.as_slice(), pattern.scope_from) => pattern.scope_from,
        None => texts
            .ends
            .get(pattern.scope_from)
            .copied()
            .unwrap_or(texts.tokens.len()),
    }
}

// Adds the locals that a pattern binds.
fn push_locals<'t, A: Allocator + Copy>(
    alloc: A,
    found: &mut Vec<TokenScope<'t, A>, A>,
    texts: &SpannedTokens<'t, A>,
    pattern: PatternScope,
) -> Result<(), AllocError> {
    let tokens = texts.tokens.as_slice();
    let to = end_of_scope(texts, pattern);
    for at in &bound_tokens(alloc, tokens, pattern)? {
        if let Some(Token::Name(name)) = tokens.get(*at) {
            found.push(TokenScope {
                name: *name,
                bound: *at,
                from: pattern.scope_from,
                to,
            })?;
        }
    }
    Ok(())
}

// Returns the patterns among tokens, and the parameters of functions.
fn pattern_scopes<A: Allocator + Copy>(
    alloc: A,
    texts: &SpannedTokens<'_, A>,
) -> Result<Vec<PatternScope, A>, AllocError> {
    let tokens = texts.tokens.as_slice();
    let mut found = Vec::new(alloc);
    for at in 0..tokens.len() {
        if let Some(pattern) = scope_at(tokens, at) {
            found.push(pattern)?;
        } else if let Some(pattern) = function_scope(tokens, at) {
            found.push(pattern)?;
        }
    }
    Ok(found)
}

// Returns the locals that tokens bind.
pub(crate) fn token_scopes<'t, A: Allocator + Copy>(
    alloc: A,
    texts: &SpannedTokens<'t, A>,
) -> Result<Vec<TokenScope<'t, A>, A>, AllocError> {
    let mut found = Vec::new(alloc);
    for pattern in &pattern_scopes(alloc, texts)? {
        push_locals(alloc, &mut found, texts, *pattern)?;
    }
    Ok(found)
}

// Returns the part of a file from one token up to another.
fn span_between<A: Allocator>(texts: &SpannedTokens<'_, A>, from: usize, to: usize) -> Span {
    let first = texts.spans.get(from).copied().unwrap_or_default();
    let end = texts
        .spans
        .get(to)
        .copied()
        .filter(|span: &Span| span.file == first.file)
        .map_or(u32::MAX, |span: Span| span.start);
    Span { end, ..first }
}

// Returns the locals of a file, in the order of its text.
pub(crate) fn local_scopes<A: Allocator + Copy>(
    alloc: A,
    texts: &SpannedTokens<'_, A>,
) -> Result<Vec<LocalScope<A>, A>, AllocError> {
    let mut locals = Vec::new(alloc);
    for local in &token_scopes(alloc, texts)? {
        locals.push(LocalScope {
            name: local.name.sym.clone()?,
            bound: local.name.span,
            scope: span_between(texts, local.from, local.to),
        })?;
    }
    Ok(locals)
}

// Returns the patterns of a file, in the order of its text.
pub(crate) fn pattern_parts<A: Allocator + Copy>(
    alloc: A,
    texts: &SpannedTokens<'_, A>,
) -> Result<Vec<PatternPart, A>, AllocError> {
    let mut patterns = Vec::new(alloc);
    for pattern in &pattern_scopes(alloc, texts)? {
        let to = end_of_scope(texts, *pattern);
        patterns.push(PatternPart {
            pattern: span_between(texts, pattern.from, pattern.to),
            scope: span_between(texts, pattern.scope_from, to),
        })?;
    }
    Ok(patterns)
}

// Returns the part of a file from the opening of a group up to its closing. `inside` is the number
// of tokens between them. `None` if the two are in different files.
fn group_span<A: Allocator>(
    texts: &SpannedTokens<'_, A>,
    at: usize,
    inside: usize,
) -> Option<Span> {
    let closing = at.saturating_add(inside).saturating_add(1);
    let (first, last) = (texts.spans.get(at)?, texts.spans.get(closing)?);
    if first.file != last.file {
        return None;
    }
    Some(Span {
        end: last.start,
        ..*first
    })
}

// Returns the index of the groups of a file. The item of a group is where its closing begins.
pub(crate) fn group_index<A: Allocator + Copy>(
    alloc: A,
    texts: &SpannedTokens<'_, A>,
) -> Result<SpanIndex<A>, AllocError> {
    let mut entries: Vec<Entry, A> = Vec::new(alloc);
    for (at, token) in texts.tokens.iter().enumerate() {
        if let Token::Open(_, inside) = token
            && let Some(group) = group_span(texts, at, *inside)
        {
            entries.push(entry(0, group, group.end as usize))?;
        }
    }
    SpanIndex::new(alloc, entries)
}
