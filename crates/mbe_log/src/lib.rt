// The log of bindings that the threads of a match share, and the fragments that variables are bound
// to. A layer of `mbe`: use that crate.
#![tactic(auto)]

pub mod chain;
pub mod fragment;
pub mod log;

pub use crate::fragment::{Fragment, TokensOrigin};
pub use crate::log::{BindingLog, Handle};
