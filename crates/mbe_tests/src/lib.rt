// Tests of what a built program can't show and no contract says:
//
// - Trees that no text gives.
// - Grammars and markers that a caller supplies.
// - Rules that are kept beside a fault, and equality of macros.
// - `Debug` texts.
// - Allocation failures at any request, and writers that fail at any call.
//
// The tests call `mbe`, `mbe_tt` and `run` of `mbe_program`. `calling` has the examples of
// docs/RATTLE.md. `text` tests the crates of texts and of Rust files. What the programs print is
// tested by tests/mbex and tests/expandm.
#![tactic(auto)]

#[cfg(test)]
mod alloc_failures;
#[cfg(test)]
mod call_rows;
#[cfg(test)]
mod calling;
#[cfg(test)]
mod copies;
#[cfg(test)]
mod debug_texts;
#[cfg(test)]
mod definitions;
#[cfg(test)]
mod error_spans;
#[cfg(test)]
mod errors;
#[cfg(test)]
mod example;
#[cfg(test)]
mod fronts;
#[cfg(test)]
mod grammar;
#[cfg(test)]
mod marker_calls;
pub mod one_token;
#[cfg(test)]
mod program_rows;
#[cfg(test)]
mod runs;
#[cfg(test)]
mod styles;
#[cfg(test)]
mod tables;
#[cfg(test)]
mod text;
#[cfg(test)]
mod tokens;
#[cfg(test)]
mod trees;
#[cfg(test)]
mod verdicts;
#[cfg(test)]
mod writers;
