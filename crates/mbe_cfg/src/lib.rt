// Decides which parts of a crate are compiled.
//
// The crate evaluates `#[cfg(..)]` and `#[cfg_attr(..)]` under the options of a run, and strips
// disabled code from trees. It finds the files of modules, and puts the trees of a crate together.
// It also lists what a crate's root exports from other crates.
#![tactic(auto)]

pub mod attribute_target;
pub mod attributes;
pub mod cfg_fault;
pub mod cfg_options;
pub mod cfg_strip;
pub mod crates;
pub mod exports;
pub mod files;
pub mod predicate;
pub mod targets;
pub mod tree_front;
