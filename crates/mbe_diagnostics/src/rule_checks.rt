// Checks of a macro definition alone, without a call: errors in a rule, variables without use, and
// rules that no call reaches.
mod equivalence;
pub mod findings;
pub mod fixed_repetitions;
pub mod follow_check;
mod infallibility;
pub mod optional_separators;
pub mod unreachable_rules;
pub mod variables;
pub mod words;
