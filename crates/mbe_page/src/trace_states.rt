// Writes how the rules of a macro match a call, as JSON. A rule has what it expects at the states of
// its pattern, and the states that are reached at each offset of the argument.
use crate::call_view::CallView;
use crate::page_data::PageData;
use crate::rule_states::RuleStates;
use crate::trace_values::separator;
use mbe::Expected;
use mbe_diagnostics::rule_part::describe;
use mbe_markup::json::{Json, Piece};
use mbe_session::file_expander::call_steps::CallStep;
use std::alloc::{AllocError, Global};

// Writes what is expected at the states of a pattern, as texts. A state at which nothing is
// expected is `null`.
fn write_expected(
    alloc: Global,
    json: &mut Json,
    expected: &[Option<Expected<'_>>],
) -> Result<(), AllocError> {
    for (index, one) in expected.iter().enumerate() {
        json.write(alloc, &[separator(index)])?;
        match one {
            Some(part) => {
                let part = describe(alloc, *part)?;
                json.write(alloc, &[Piece::Text(part.text.as_str())])?;
            }
            None => json.write(alloc, &[Piece::Mark("null")])?,
        }
    }
    Ok(())
}

// Writes numbers.
fn write_numbers(alloc: Global, json: &mut Json, numbers: &[usize]) -> Result<(), AllocError> {
    for (index, number) in numbers.iter().enumerate() {
        json.write(alloc, &[separator(index), Piece::Number(*number)])?;
    }
    Ok(())
}

// Writes the numbers of the states that are reached at each offset, as lists.
fn write_reached(alloc: Global, json: &mut Json, offsets: &[Vec<usize>]) -> Result<(), AllocError> {
    for (index, numbers) in offsets.iter().enumerate() {
        json.write(alloc, &[separator(index), Piece::Mark("[")])?;
        write_numbers(alloc, json, numbers.as_slice())?;
        json.write(alloc, &[Piece::Mark("]")])?;
    }
    Ok(())
}

// Writes the states of a rule.
fn write_states(alloc: Global, json: &mut Json, states: &RuleStates<'_>) -> Result<(), AllocError> {
    json.write(alloc, &[Piece::Mark(",\"states\":[")])?;
    write_expected(alloc, json, states.expected.as_slice())?;
    json.write(alloc, &[Piece::Mark("],\"reached\":[")])?;
    write_reached(alloc, json, states.by_offset(alloc)?.as_slice())?;
    json.write(alloc, &[Piece::Mark("]")])
}

/// Writes the rules of the macro of a call, up to the rule that applies, each with its states. The
/// states of a long argument are left out. `AllocError` if out of memory.
pub fn write_rules(
    alloc: Global,
    json: &mut Json,
    shown: &PageData<'_>,
    step: &CallStep,
    view: &CallView<'_>,
) -> Result<(), AllocError> {
    json.write(alloc, &[Piece::Mark(",\"rules\":[")])?;
    if let Some(rules) = view.rules {
        for index in 0..view.tried() {
            json.write(
                alloc,
                &[
                    separator(index),
                    Piece::Mark("{\"rule\":"),
                    Piece::Number(index.saturating_add(1)),
                ],
            )?;
            if let Some(states) = RuleStates::new(alloc, &shown.grammar, rules, step, index)? {
                write_states(alloc, json, &states)?;
            }
            json.write(alloc, &[Piece::Mark("}")])?;
        }
    }
    json.write(alloc, &[Piece::Mark("]")])
}
