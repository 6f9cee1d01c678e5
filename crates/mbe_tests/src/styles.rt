// Calls in the styles of attributes and derives.
use crate::definitions::defined_as;
use crate::runs::answers;
use mbe::{DeclarativeMacro, MacroCallStyle, ParseError};
use std::alloc::{AllocError, Global};
use test_rows::{Fields, rows};

// Each row has the kind of definition, the definition, and the argument of a call with its style.
// The index of a rule and the expansion follow, or the error if no rule has the style.
pub const ROWS: &str = rows![
    ("rules", "attr() () => {A}; () => {B}", "", "attribute", 0, "word A 0 14 15"),
    ("rules", "() => {A}; unsafe derive[x] () => {B}; derive() () => {C}", "", "derive", 1, "word B 0 35 36"),
    ("rules", "($t:tt) => {$t}", "a", "attribute", "", "no rule matches input tokens 1 0 1"),
    ("rules", "($t:tt) => {$t}", "a", "derive", "", "no rule matches input tokens 1 0 1"),
    ("rules", "attr() () => {A}; () => {B}", "", "derive", "", "no rule matches input tokens 1 0 0"),
    // The rules before a fault expand.
    ("rules", "(a) => {A}; ($x) => {}", "a", "function", 0, "word A 0 8 9"),
    // The rules of a body are tried in order; arguments and a body are one rule.
    ("body", "(a) => {A}, ($x:ident) => {B $x}; (b) => {C}", "b", "function", 1, "word B 0 27 28
word b 1 0 1"),
    ("attr $x:ident", "[$x] => {}", "attr b", "function", 0, "open [ 0 0 1
word b 1 5 6
close ) 0 3 4
joint = 0 5 6
alone > 0 6 7
open { 0 8 9
close ) 0 9 10"),
    ("attr $x:ident", "[$x] => {}", "attr b", "attribute", "", "no rule matches input tokens 1 0 6"),
];

fn style(name: &str) -> MacroCallStyle {
    match name.chars().next() {
        Some('a') => MacroCallStyle::Attr,
        Some('d') => MacroCallStyle::Derive,
        _ => MacroCallStyle::FnLike,
    }
}

/// Whether a row passes.
pub fn passes(
    alloc: Global,
    [sort, definition, argument, name, arm, end]: Fields,
) -> Result<bool, AllocError> {
    let rules = defined_as(alloc, sort, definition)?;
    if matches!(rules.err(), Some(ParseError::RepetitionEmptyTokenTree)) {
        return Err(AllocError);
    }
    let want = if arm.is_empty() {
        ["", "", end]
    } else {
        [arm, end, ""]
    };
    answers(alloc, &rules, argument, style(name), want)
}

/// Whether a call of a refused macro reports that no rule matches. The macro has no rule, so it can
/// be called.
pub fn has_no_rule(alloc: Global) -> Result<bool, AllocError> {
    let rules = DeclarativeMacro::from_err(alloc, ParseError::RepetitionEmptyTokenTree);
    let want = ["", "", "no rule matches input tokens 1 0 1"];
    answers(alloc, &rules, "a", MacroCallStyle::Attr, want)
}
