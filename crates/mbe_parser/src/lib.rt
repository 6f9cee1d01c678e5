// The parser of definitions: token trees to rules. Its errors have offsets. It also refuses
// repetitions that can match no token. A layer of `mbe`: use that crate.
#![tactic(auto)]

mod empty_repetition;
pub mod equality;
pub mod located_fault;
pub mod parser;
pub mod refusal;
pub mod rules;
