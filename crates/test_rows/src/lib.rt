// Tests as tables. A table is one text with a row for each case. The macro `rows` joins it from
// literals. A test implements `RowTest` for what it checks of a row. `check_rows` or `all` runs it
// over all rows and names the row that fails.
#![tactic(auto)]

pub mod failing_allocator;

use crate::failing_allocator::FailingAllocator;
use std::alloc::{AllocError, Allocator, Global};

/// Joins rows into one text. A field ends in the character 1, a row in the character 2. A `static`
/// table instead of one text would make proofs much slower, because a proof sees each of its texts
/// by itself.
#[macro_export]
macro_rules! rows {
    ($(($($field:literal),+ $(,)?)),* $(,)?) => {
        concat!($($($field, "\u{1}",)+ "\u{2}"),*)
    };
}

/// The row by which a test fails.
#[derive(Clone, Copy, Debug, Drop)]
pub struct FailedRow(pub &'static str);

impl From<AllocError> for FailedRow {
    fn from(_error: AllocError) -> FailedRow {
        FailedRow("out of memory")
    }
}

/// The fields of a row. Those that the row doesn't have are empty.
pub type Fields = [&'static str; 6];

/// What a test checks of each row of a table.
pub trait RowTest {
    /// Returns whether a row with these fields passes.
    fn passes(&self, alloc: Global, fields: Fields) -> Result<bool, AllocError>;
}

// The first field, and the rest of a row.
fn split_field(row: &'static str) -> (&'static str, &'static str) {
    row.split_once('\u{1}').unwrap_or((row, ""))
}

/// The fields of a row.
pub fn fields(row: &'static str) -> Fields {
    let (first, row) = split_field(row);
    let (second, row) = split_field(row);
    let (third, row) = split_field(row);
    let (fourth, row) = split_field(row);
    let (fifth, row) = split_field(row);
    let (sixth, _) = split_field(row);
    [first, second, third, fourth, fifth, sixth]
}

// The first row that fails. Returns a row as well where there are more than `count` of them, and
// the text "fewer rows" where there are fewer.
fn first_failure<T: RowTest>(
    alloc: Global,
    test: &T,
    rows: &'static str,
    count: usize,
) -> Option<&'static str> {
    let mut remaining = count;
    for row in rows.split_terminator('\u{2}') {
        if remaining == 0 || !test.passes(alloc, fields(row)).unwrap_or(false) {
            return Some(row);
        }
        remaining = remaining.saturating_sub(1);
    }
    (remaining > 0).then_some("fewer rows")
}

/// Checks that there are `count` rows, and that each of them passes.
pub fn check_rows<T: RowTest>(
    alloc: Global,
    test: &T,
    rows: &'static str,
    count: usize,
) -> Result<(), FailedRow> {
    none(first_failure(alloc, test, rows, count))
}

/// Checks that each table has as many rows as it says, and that each row passes. One test of all
/// tables costs less than a test of each.
pub fn all<T: RowTest>(
    alloc: Global,
    tables: &[(T, &'static str, usize)],
) -> Result<(), FailedRow> {
    for (test, rows, count) in tables {
        check_rows(alloc, test, rows, *count)?;
    }
    Ok(())
}

/// What a test checks of each row of a table, with any allocator.
pub trait AllocRowTest {
    /// Returns whether a row with these fields passes.
    fn passes<A: Allocator + Copy>(&self, alloc: A, fields: Fields) -> Result<bool, AllocError>;
}

#[derive(Clone, Copy)]
struct WithGlobal<'t, T>(&'t T);

impl<T: AllocRowTest> RowTest for WithGlobal<'_, T> {
    fn passes(&self, alloc: Global, fields: Fields) -> Result<bool, AllocError> {
        self.0.passes(alloc, fields)
    }
}

/// Does the same as `check_rows`, for a test that works with any allocator.
pub fn check_rows_in<T: AllocRowTest + Copy>(
    alloc: Global,
    test: &T,
    rows: &'static str,
    count: usize,
) -> Result<(), FailedRow> {
    check_rows(alloc, &WithGlobal(test), rows, count)
}

#[derive(Clone, Copy)]
struct AllocFailureTest<'t, T> {
    test: &'t T,
    least: u64,
    may_succeed: bool,
}

impl<T: AllocRowTest> RowTest for AllocFailureTest<'_, T> {
    fn passes(&self, alloc: Global, fields: Fields) -> Result<bool, AllocError> {
        for request in 1..10_000u64 {
            match self.outcome(alloc, fields, request) {
                None => return Ok(false),
                Some(true) => return Ok(request > self.least),
                Some(false) => {}
            }
        }
        Ok(false)
    }
}

impl<T: AllocRowTest> AllocFailureTest<'_, T> {
    // Checks a row with an allocator that fails the request of this number. Returns `Some(true)` if
    // no request failed and the row passes. Returns `Some(false)` if the request failed, and the
    // row returned `AllocError` or, if `may_succeed`, passes. Returns `None` in all other cases.
    fn outcome(&self, alloc: Global, fields: Fields, request: u64) -> Option<bool> {
        let alloc = FailingAllocator::new(alloc, request);
        let passes = match self.test.passes(&alloc, fields) {
            Ok(passes) => passes && (self.may_succeed || !alloc.has_failed_once()),
            Err(AllocError) => alloc.has_failed_once(),
        };
        passes.then_some(!alloc.has_failed_once())
    }
}

/// Checks that there are as many rows as `rows` says, and tests each row with allocation failures.
/// In the first run the first request for memory fails, in the next run the second, and so on until
/// no request fails. A run with a failed request must return `AllocError` or, if `may_succeed`,
/// pass. The last run must pass, and at least `least` runs must come before it.
pub fn check_alloc_failures<T: AllocRowTest + Copy>(
    alloc: Global,
    test: &T,
    rows: (&'static str, usize),
    (least, may_succeed): (u64, bool),
) -> Result<(), FailedRow> {
    let refused = AllocFailureTest {
        test,
        least,
        may_succeed,
    };
    check_rows(alloc, &refused, rows.0, rows.1)
}

/// Fails with the row, if there is one.
pub fn none(wrong: Option<&'static str>) -> Result<(), FailedRow> {
    match wrong {
        None => Ok(()),
        Some(row) => Err(FailedRow(row)),
    }
}

/// Fails unless the result is true.
pub fn expect_true(passes: Result<bool, AllocError>) -> Result<(), FailedRow> {
    if passes.unwrap_or(false) {
        Ok(())
    } else {
        Err(FailedRow("something isn't so"))
    }
}

/// The number in a field, or the greatest number if the field isn't one.
pub fn number(field: &str) -> usize {
    field.parse::<usize>().unwrap_or(usize::MAX)
}

/// The first field of the row with this index, counted from 0.
pub fn nth(rows: &'static str, number: u64) -> &'static str {
    let row = rows.split_terminator('\u{2}').nth(number as usize);
    fields(row.unwrap_or(""))[0]
}

// Adds a part of a text that came after a `«`: a number, a space, the text to repeat that often, a
// `»`, and the rest. A part without a `»` is added unchanged.
fn push(expand_repeats: &mut String, part: &str) -> Result<(), AllocError> {
    let Some((repeated, rest)) = part.split_once('»') else {
        return expand_repeats.push_str(part);
    };
    let (count, text) = repeated.split_once(' ').unwrap_or(("0", ""));
    for _ in 0..number(count) {
        expand_repeats.push_str(text)?;
    }
    expand_repeats.push_str(rest)
}

/// Expands repetitions in a text: `«3 a»` becomes `aaa`.
pub fn expand_repeats(alloc: Global, text: &str) -> Result<String, AllocError> {
    let mut expand_repeats = String::new(alloc);
    for part in text.split('«') {
        push(&mut expand_repeats, part)?;
    }
    Ok(expand_repeats)
}
