// What macros by example mean. The specification is in `specs`: the grammar of definitions,
// matching, bindings, transcription, and which rule expands a call. The code here is only the small
// types that the specification and the other crates share. Callers use the crate `mbe`, which is
// built on this one.
#![tactic(auto)]

pub mod current_round;
pub mod fragment_kinds;
pub mod list_prefix;
pub mod macro_call_style;
