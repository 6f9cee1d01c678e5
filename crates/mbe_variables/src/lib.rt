// The variables of a template. This crate looks up the binding of a variable in a round, counts the
// rounds of a repetition, and emits the trees of a fragment. It is a layer of `mbe`: use `mbe`.
#![tactic(auto)]

pub mod fragment_writer;
pub mod transcriber_fault;
pub mod variable_lookup;
pub mod whole_fragment;
