// The ops that patterns and templates are parsed into, and the errors of definitions and
// expansions. `MetaTemplate` is a list of `Op`s: the parser makes it, the matcher and the
// transcriber walk it. This crate is a layer of `mbe`: use that crate.
#![tactic(auto)]

mod copies;
mod equality;
pub mod errors;
pub mod expression;
pub mod laws;
pub mod op_fields;
pub mod op_iter;
pub mod ops;

pub use crate::equality::same_templates;
