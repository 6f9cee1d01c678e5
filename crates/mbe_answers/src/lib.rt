// Answers of a language server for macros: what a session found, as values of the protocol.
//
// Nothing here reads files or expands calls. `Findings` has what a session found in the crate of a
// document, as plain data, and the answers are made of it. The modules are:
//
// - `findings`: files, messages, expansions, definitions and calls; `expanded_calls`: what rules do
//   with calls.
// - `explained_call`, `bound_calls`: the rule that a call expands by, and what it binds.
// - `reports`: diagnostics.
// - `answers`, `variables`: hovers, jumps, symbols.
// - `tokens`, `rule_variables`, `macro_names`: tokens, and what the names among them are.
// - `renaming`, `structure`: references and new names; lines that fold, and selections.
// - `inlining`, `fixes`, `trailing_commas`: code actions.
// - `completion`, `overviews`: completion, signatures, numbers of calls.
// - `highlights`, `origins`: what tokens of calls are, and where tokens of expansions are from.
// - `shapes`: positions, ranges, locations and edits.
#![tactic(auto)]

pub mod answers;
pub mod bound_calls;
mod completion;
pub mod expanded_calls;
pub mod explained_call;
pub mod findings;
mod fixes;
pub mod highlights;
mod inlining;
mod macro_names;
mod origins;
mod overviews;
pub mod renaming;
pub mod reports;
mod rule_variables;
pub mod shapes;
mod structure;
mod tokens;
mod trailing_commas;
mod variables;
