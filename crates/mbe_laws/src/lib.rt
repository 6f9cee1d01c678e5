// Laws of the specification in `mbe_semantics`. Each law is an empty function whose contract states
// it, so calling one does nothing.
//
// - `laws` and `callback_laws` hold laws of definitions, matching and expansion.
// - `bounded_closure` holds laws of the run that keeps at most two partial readings of each state.
// - `examples` holds worked examples.
//
// Callers use the crate `mbe`, which is built on this one.
#![tactic(auto)]

pub mod bounded_closure;
pub mod callback_laws;
pub mod examples;
pub mod laws;
