// The limit of nested expansions that files set: `#![recursion_limit = "N"]`.
ghost use Rattle.std.specs.Prelude.{◌≡◌, map};
ghost use Rattle.mbe_tt.specs.Views.LeafViews.{leaf_of};
ghost use Rattle.mbe_tt.specs.Views.View.{trees};
ghost use Rattle.mbe_session.specs.FileViews.{source_of};
ghost use Rattle.mbe_session.specs.RecursionLimit as spec;

use crate::imports::after_word;
use crate::source_files::SourceFile;
use mbe_cfg::tree_front::{after_char, group_at};
use mbe_tt::tt::{DelimiterKind, Leaf, LitKind, TokenTreesView};
use std::alloc::Allocator;

/// Returns the recursion limit of the first file that sets one, among the first `root_count` files.
/// These are the roots of the crates, where rustc reads the attribute.
pub fn first_limit(files: &[SourceFile<'_>], root_count: usize) -> Option<u32>
    ensures { result ≡ spec.first_limit root_count 0 (map source_of files.now) }
{
    let mut index = 0usize;
    'files: while index < root_count {
        if let Some(limit) = limit_at_index(files, index) {
            return Some(limit);
        }
        index += 1;
    }
    None
}

// Returns the limit that the file of that index sets.
fn limit_at_index(files: &[SourceFile<'_>], index: usize) -> Option<u32>
    ensures { result ≡ spec.limit_at_index index (map source_of files.now) }
{
    limit_of(files.get(index)?)
}

// Returns the limit that a file sets.
fn limit_of(file: &SourceFile<'_>) -> Option<u32>
    ensures { result ≡ spec.limit_of (source_of file.now) }
{
    match &file.tree {
        Some(tree) => recursion_limit(tree.iter().remaining()),
        None => None,
    }
}

// Returns `N` of the last `#![recursion_limit = "N"]` among a file's trees, as in rustc.
fn recursion_limit<A: Allocator>(tokens: TokenTreesView<'_, A>) -> Option<u32>
    ensures { result ≡ spec.recursion_limit (trees tokens.entry) }
{
    let mut found = None;
    let mut rest = tokens.iter();
    'trees: loop {
        found = limit_at(rest.remaining()).or(found);
        match rest.next() {
            Some(_) => {}
            None => return found,
        }
    }
}

// Returns the limit, if such an attribute is at the front.
fn limit_at<A: Allocator>(tokens: TokenTreesView<'_, A>) -> Option<u32>
    ensures { result ≡ spec.limit_at (trees tokens.entry) }
{
    let after_hash = after_char(tokens, '#')?;
    let after_bang = after_char(after_hash, '!')?;
    let brackets = group_at(DelimiterKind::Bracket, after_bang)?;
    limit_inside(brackets.inside)
}

// Returns the limit, if `recursion_limit = "N"` is at the front.
fn limit_inside<A: Allocator>(tokens: TokenTreesView<'_, A>) -> Option<u32>
    ensures { result ≡ spec.limit_inside (trees tokens.entry) }
{
    let sign = after_word("recursion_limit", tokens)?;
    let value = after_char(sign, '=')?;
    number_in(value.iter().expect_literal().ok()?)
}

// Returns the number that a string is, as it is written.
fn number_in<A: Allocator>(leaf: &Leaf<A>) -> Option<u32>
    ensures { result ≡ spec.number_in (leaf_of leaf.now) }
{
    match leaf {
        Leaf::Literal(literal) => number_of_kind(literal.text_and_suffix.as_str(), literal.kind),
        Leaf::Ident(_) | Leaf::Punct(_) => None,
    }
}

fn number_of_kind(text: &str, kind: LitKind) -> Option<u32>
    ensures { result ≡ spec.number_of_kind text.now kind }
{
    match kind {
        LitKind::Str | LitKind::StrRaw(_) => number_of(text),
        _ => None,
    }
}

// Returns the number that decimal digits denote.
fn number_of(text: &str) -> Option<u32>
    ensures { result ≡ spec.number_of text.now }
{
    text.parse::<u32>().ok()
}
