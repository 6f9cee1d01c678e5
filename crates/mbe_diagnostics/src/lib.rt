// Diagnostics for people, on calls and on macro definitions.
//
// On a call: why a rule doesn't match, at which token of the argument, and what the rule expected
// there, as text. On a definition alone, without a call: its errors, what has no use in it, and the
// rules that no call reaches. A diagnostic on a part of a file is rendered as rustc does, or
// written as JSON.
#![tactic(auto)]

pub mod diagnostic;
pub mod excerpt;
pub mod json;
pub mod line_limit;
pub mod lints;
pub mod message_kinds;
pub mod mismatch;
pub mod outcome;
pub mod renderer;
pub mod rule_checks;
pub mod rule_part;
pub mod span_at;
