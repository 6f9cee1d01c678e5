// Calls of the marker: it is called once for each span that the template writes itself, each time
// it is written. `error_spans` tests for which spans.
use crate::grammar::NOTHING;
use crate::runs::defined;
use crate::tokens::{at, byte};
use crate::trees::lexed;
use mbe::{DeclarativeMacro, MacroCallStyle, ParseError};
use mbe_tt::span::Span;
use mbe_tt::tt::TopSubtree;
use std::alloc::{AllocError, Global};
use std::cell::Cell;
use test_rows::{Fields, rows};

// Each row: a definition, an argument, whether there is an error, and how often the marker is
// called.
pub const ROWS: &str = rows![
    ("(a) => {}", "a", false, 0),
    ("(a) => {X 1 + (Y)}", "a", false, 6),
    ("($x:ident) => {$x X}", "a", false, 1),
    ("($($x:ident)*) => {$($x X),*}", "a b c", false, 3),
    ("($x:ident) => {${concat(X, $x)} ${count($x)}}", "a", false, 1),
    // The marker is also called for what stands in place of a missing fragment.
    ("($x:ident) => {$x X}", "1", true, 2),
    ("(a) => {X}; (a 1 b) => {Y Z}", "a 1", true, 2),
    // Two rules are tried, and the first is recovered.
    ("(a) => {X $($y)+}; (a) => {Y Z $($y)+}", "a", true, 3),
];

// Returns whether there is an error, and how often the marker was called.
fn calls(alloc: Global, definition: &str, argument: &str) -> Result<(bool, u32), AllocError> {
    let rules = defined(alloc, definition)?;
    let argument = lexed(alloc, 1, argument)?;
    calls_of(alloc, &rules, &argument)
}

fn calls_of(
    alloc: Global,
    rules: &DeclarativeMacro,
    argument: &TopSubtree,
) -> Result<(bool, u32), AllocError> {
    if matches!(rules.err(), Some(ParseError::RepetitionEmptyTokenTree)) {
        return Err(AllocError);
    }
    let count = Cell::new(0u32);
    let marker = |span: Span| {
        count.set(count.get().saturating_add(1));
        span
    };
    let style = MacroCallStyle::FnLike;
    let call_site = at(2, 40, 44);
    let expansion = rules.expand(alloc, &NOTHING, argument, marker, style, call_site)?;
    Ok((expansion.err.is_some(), count.get()))
}

/// Whether a row passes.
pub fn passes(
    alloc: Global,
    [definition, argument, fails, count, ..]: Fields,
) -> Result<bool, AllocError> {
    Ok(calls(alloc, definition, argument)? == (fails == "true", byte(count)))
}
