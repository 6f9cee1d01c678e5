// The threads of a match, and the argument that they run over.
//
// A thread is a state of the pattern, with the open groups and repetitions around it and what was
// bound so far, as in a Pike VM. This crate defines threads and their steps. A cursor gives the
// trees at each offset of the argument. The crate also decides where the threads stop, and takes
// fragments from the front of trees by a grammar. A layer of `mbe`: use that crate.
#![tactic(auto)]

pub mod fragment_front;
pub mod source;
pub mod stops;
pub mod thread;
pub mod visit_counts;
