// The readings of an argument, as paths in a graph of states at offsets: which states partial
// readings reach, and where two readings diverge.
mod continuation;
pub mod divergence;
mod edges;
mod graph;
pub mod laws;
mod reachability;
pub mod reached_states;
mod state;
mod states;
mod step_table;
mod transitions;
