// The transcriber: emits the expansion of a template. A layer of `mbe`: use that crate.
#![tactic(auto)]

pub mod transcriber;
