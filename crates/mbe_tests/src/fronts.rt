// Fragments at the front of an iterator: what `expect_fragment` consumes, and what it reports.
use crate::errors::is_error;
use crate::grammar::grammar_of;
use crate::tokens::{at, byte};
use crate::trees::lexed;
use mbe::{ExpandResult, expect_fragment};
use mbe_tt::grammar::PrefixEntryPoint;
use mbe_tt::span::{DelimSpan, Span};
use mbe_tt::tt::TokenTreesView;
use std::alloc::{AllocError, Global};
use test_rows::{Fields, rows};

// The spans around the arguments of these tests.
fn around() -> DelimSpan {
    DelimSpan {
        opening: at(1, 90, 91),
        close: at(1, 98, 99),
    }
}

fn entry_of(name: &str) -> PrefixEntryPoint {
    match name.chars().next() {
        Some('V') => PrefixEntryPoint::Vis,
        Some('T') => PrefixEntryPoint::Ty,
        _ => PrefixEntryPoint::Expr,
    }
}

// Returns the span of the bytes in a row, if there are any.
fn span_of(bytes: &str) -> Option<Span> {
    let (start, end) = bytes.split_once(' ')?;
    Some(at(1, byte(start), byte(end)))
}

// Whether a fragment has that many trees and flat tokens, and that error.
fn is_front(
    alloc: Global,
    front: &ExpandResult<TokenTreesView<'_>>,
    size: &str,
    error: &str,
) -> Result<bool, AllocError> {
    let found = format!(in alloc; "{} {}", front.value.len(), front.value.flat_len())?;
    Ok(found.as_str() == size && is_error(alloc, front.err.as_ref(), error)?)
}

/// Whether a row passes.
pub fn passes(
    alloc: Global,
    [grammar, entry, text, size, next, error]: Fields,
) -> Result<bool, AllocError> {
    let argument = lexed(alloc, 1, text)?;
    let mut iter = argument.iter();
    let grammar = grammar_of(grammar);
    let front = expect_fragment(alloc, &grammar, &mut iter, entry_of(entry), around());
    if iter.next_span() != span_of(next) {
        return Ok(false);
    }
    match front {
        Ok(front) => is_front(alloc, &front, size, error),
        Err(AllocError) => Ok(size == "out of memory"),
    }
}

// Each row has, in this order:
//
// 1. How many flat tokens the grammar counts, and how it ends.
// 2. An entry point and a text.
// 3. The numbers of trees and of flat tokens of the fragment.
// 4. The bytes of the next tree.
// 5. The error with its file and its bytes.
pub const ROWS: &str = rows![
    // Whole trees.
    ("0", "Vis", "", "0 0", "", ""),
    ("0", "Vis", "x", "0 0", "0 1", ""),
    ("4", "Vis", "pub(crate) x", "2 4", "11 12", ""),
    ("7", "Ty", "&'a mut [u8] z", "5 7", "13 14", ""),
    ("4", "Expr", "(a b) c", "1 4", "6 7", ""),
    ("9", "Expr", "(a b) c", "2 5", "", ""),
    ("2", "Expr", "(a b) c", "1 4", "6 7", "expected Expr 1 0 1"),
    // A fragment that ends inside a group is extended to all of the group.
    ("2", "Ty", "x[a{b}()] z", "2 9", "10 11", "expected Ty 1 0 1"),
    ("3", "Ty", "x[a{b}()] z", "2 9", "10 11", "expected Ty 1 0 1"),
    ("4", "Ty", "x[a{b}()] z", "2 9", "10 11", "expected Ty 1 0 1"),
    ("5", "Ty", "x[a{b}()] z", "2 9", "10 11", "expected Ty 1 0 1"),
    ("6", "Ty", "x[a{b}()] z", "2 9", "10 11", "expected Ty 1 0 1"),
    ("7", "Ty", "x[a{b}()] z", "2 9", "10 11", "expected Ty 1 0 1"),
    ("8", "Ty", "x[a{b}()] z", "2 9", "10 11", "expected Ty 1 0 1"),
    ("9", "Ty", "x[a{b}()] z", "2 9", "10 11", ""),
    // A fault is reported by the name of its entry point. The other entry points are tested in
    // tests/mbex.
    ("0 fault", "Expr", "", "0 0", "", "expected Expr 1 98 99"),
    ("1 fault", "Expr", "a b", "1 1", "2 3", "expected Expr 1 0 1"),
    ("0 fault", "Ty", "", "0 0", "", "expected Ty 1 98 99"),
    ("1 fault", "Ty", "a b", "1 1", "2 3", "expected Ty 1 0 1"),
    ("0 fault", "Vis", "", "0 0", "", "expected Vis 1 98 99"),
    ("1 fault", "Vis", "a b", "1 1", "2 3", "expected Vis 1 0 1"),
    ("0 out", "Expr", "(a b) c", "out of memory", "0 1", ""),
];
