// What the rules of a crate do with its calls, for the language server.
//
// A session of `mbe_session` records each call that it meets as a `CallStep`. The modules read
// these steps, and return plain data of `mbe_answers`:
//
// - `call_reader`: the rule that expands each call.
// - `argument_tokens`: what the tokens of an argument are to the rule.
// - `expansion_tokens`: where the tokens of a recursive expansion are from.
#![tactic(auto)]

mod argument_tokens;
pub mod call_reader;
mod expansion_tokens;
