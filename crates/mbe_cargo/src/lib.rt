//! Plans the crates of a Cargo package: the root file, the edition, the features and the
//! dependencies of each.
//!
//! The library opens no file and starts no process. A `Planner` holds the texts of files that the
//! program read. `Planner::step` returns the files that it needs next. When it needs no more, it
//! returns a `Plan` for each target that was asked for. A plan holds the target's crate and all
//! crates that it depends on.
#![tactic(auto)]

pub mod cfg_expression;
mod checkouts;
mod cycles;
pub mod dependencies;
pub mod documents;
mod features;
pub mod least_set;
mod lockfile;
mod packages;
pub mod paths;
pub mod plan;
pub mod planner;
mod positions;
pub mod problem;
mod resolution;
mod settings;
mod sources;
pub mod targets;
mod workspaces;
