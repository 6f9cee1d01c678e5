// Bindings, and how they are made from a log: `Bindings::build` replays the commands of a handle.
// `Compacted` is a smaller log with the entries that some handles need. A layer of `mbe`: use that
// crate.
#![tactic(auto)]

pub mod bindings;
mod chain_entries;
pub mod log_compaction;
mod replay;
mod value_count;

pub use crate::bindings::{Binding, Bindings};
