// All tables of this folder, and what is tested once. The rows are in the modules of their
// subjects.
use crate::alloc_failures::{AllocScenario, FORMS};
use crate::{
    call_rows, copies, debug_texts, definitions, error_spans, errors, example, fronts,
    marker_calls, program_rows, runs, styles, verdicts, writers,
};
use std::alloc::{AllocError, Global};
use test_rows::{FailedRow, Fields, RowTest, all, check_alloc_failures, rows};

// What is tested of each row of a table, or once.
#[derive(Clone, Copy)]
enum Kind {
    Example,
    Definition,
    Call,
    Styled,
    Front,
    Place,
    Marking,
    Verdict,
    Copies,
    Once,
    Expanding,
    Linting,
}

impl RowTest for Kind {
    fn passes(&self, alloc: Global, fields: Fields) -> Result<bool, AllocError> {
        match self {
            Kind::Example => example::is_printed(alloc, fields),
            Kind::Definition => definitions::is_read(alloc, fields),
            Kind::Call => runs::passes(alloc, fields),
            Kind::Styled => styles::passes(alloc, fields),
            Kind::Front => fronts::passes(alloc, fields),
            Kind::Place => error_spans::passes(alloc, fields),
            Kind::Marking => marker_calls::passes(alloc, fields),
            Kind::Verdict => verdicts::passes(alloc, fields),
            Kind::Copies => copies::passes(alloc, fields[0], fields[1]),
            Kind::Once => are_so(alloc),
            Kind::Expanding => Ok(writers::fails_at_each_call(alloc, fields, false)),
            Kind::Linting => Ok(writers::fails_at_each_call(alloc, fields, true)),
        }
    }
}

// What is tested once.
fn are_so(alloc: Global) -> Result<bool, AllocError> {
    Ok(debug_texts::are_shown(alloc)? && errors::are_errors(alloc)? && styles::has_no_rule(alloc)?)
}

static TABLES: [(Kind, &str, usize); 12] = [
    (Kind::Example, example::PRINTED, 4),
    (Kind::Definition, definitions::ROWS, 82),
    (Kind::Call, call_rows::ROWS, 88),
    (Kind::Styled, styles::ROWS, 9),
    (Kind::Front, fronts::ROWS, 22),
    (Kind::Place, error_spans::ROWS, 24),
    (Kind::Marking, marker_calls::ROWS, 8),
    (Kind::Verdict, verdicts::ROWS, 5),
    (Kind::Copies, copies::ROWS, 23),
    (Kind::Once, rows![("errors, texts, and a refusal")], 1),
    (Kind::Expanding, program_rows::ROWS, 29),
    (Kind::Linting, program_rows::LINTS, 14),
];

#[test]
fn all_tables_pass(rt: HostRuntime) -> Result<(), FailedRow> {
    all(rt.alloc(), &TABLES)
}

#[test]
fn each_allocation_fails(rt: HostRuntime) -> Result<(), FailedRow> {
    let alloc = rt.alloc();
    check_alloc_failures(
        alloc,
        &AllocScenario::Expanding,
        (program_rows::ROWS, 29),
        (10, true),
    )?;
    check_alloc_failures(
        alloc,
        &AllocScenario::Reading,
        (program_rows::ROWS, 29),
        (6, true),
    )?;
    check_alloc_failures(alloc, &AllocScenario::Reading, (FORMS, 2), (24, true))?;
    check_alloc_failures(
        alloc,
        &AllocScenario::Arguments,
        (rows![("$($x);*")], 1),
        (4, true),
    )
}
