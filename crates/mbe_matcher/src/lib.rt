// Matches arguments against patterns.
//
// The matcher is a Pike VM: it runs all readings of an argument at once, as threads over the states
// of the pattern. It returns the verdict (one reading, several, a local ambiguity, or stuck), what
// the only reading binds, and the error of a match that fails. Other modules tell what a pattern
// expects where a match stops, and where two readings diverge. A layer of `mbe`: use that crate.
#![tactic(auto)]

mod closure;
pub mod commitment;
mod compaction;
pub mod consumers;
mod empty_repetition;
pub mod expectations;
pub mod laws;
mod match_report;
pub mod matcher;
pub mod prefilter;
pub mod readings;
mod report_pass;
mod simulation;
mod steps;
mod token_widths;
mod visited_set;
