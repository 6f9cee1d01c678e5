// Verdicts: how each rule of a definition reads an argument.
use crate::grammar::{Counting, grammar_of};
use crate::runs::parsed;
use crate::trees::read;
use mbe::{DeclarativeMacro, ParseError, Verdict};
use mbe_tt::tt::TopSubtree;
use std::alloc::{AllocError, Global};
use test_rows::{Fields, rows};

// Returns the verdict of each rule on the argument, in order.
fn explained(
    alloc: Global,
    grammar: &Counting,
    rules: &DeclarativeMacro,
    argument: &TopSubtree,
) -> Result<Vec<Verdict>, AllocError> {
    if matches!(rules.err(), Some(ParseError::RepetitionEmptyTokenTree)) {
        return Err(AllocError);
    }
    let mut verdicts = Vec::new(alloc);
    for rule in 0..rules.num_rules() {
        verdicts.push(rules.explain(alloc, grammar, argument, rule)?)?;
    }
    Ok(verdicts)
}

// Each row: how many flat tokens the grammar counts, and how it ends, a definition, an argument,
// and the verdict of each rule.
pub const ROWS: &str = rows![
    // In `($(b $(')?)'a*) => {}` one thread goes on over the quote, another over the whole
    // separator.
    ("0 fault", "tokens 21
open ( 0 0 1
alone $ 0 1 2
open ( 0 2 3
word b 0 3 4
alone $ 0 5 6
open ( 0 6 7
joint ' 0 7 8
close ) 0 8 9
alone ? 0 9 10
close ) 0 10 11
joint ' 0 11 12
word a 0 12 13
alone * 0 13 14
close ) 0 14 15
joint = 0 16 17
alone > 0 17 18
open { 0 19 20
close } 0 20 21", "b 'a b", "[Ambiguous(1)]"),
    ("0 fault", "($e:expr) => {}", "a", "[Stuck(0)]"),
    ("0 out", "($e:expr) => {}", "a", "out of memory"),
    ("0 fault", "(a) => {} b", "a", "[OneReading]"),
    // The opening and the closing of an invisible group count too.
    ("0 fault", "(a) => {}; ($x:tt b) => {}; ($x:tt $y:tt) => {}", "tokens 4
open none 1 0 1
word a 1 1 2
close ) 1 2 3
word c 1 3 4", "[Stuck(0), Stuck(3), OneReading]"),
];

fn are_shown(alloc: Global, verdicts: &[Verdict], want: &str) -> Result<bool, AllocError> {
    Ok(format!(in alloc; "{verdicts:?}")?.as_str() == want)
}

/// Whether a row passes.
pub fn passes(
    alloc: Global,
    [grammar, definition, argument, want, ..]: Fields,
) -> Result<bool, AllocError> {
    let rules = parsed(alloc, &read(alloc, 0, definition)?)?;
    let argument = read(alloc, 1, argument)?;
    match explained(alloc, &grammar_of(grammar), &rules, &argument) {
        Ok(verdicts) => are_shown(alloc, verdicts.as_slice(), want),
        Err(AllocError) => Ok(want == "out of memory"),
    }
}
