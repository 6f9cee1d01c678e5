// Re-exports: what a crate exports from another one.
use std::alloc::{Allocator, Global};

/// The macros of another crate that an export names.
#[derive(Drop)]
pub enum ExportedMacros<A: Allocator = Global> {
    /// All that the other crate offers.
    All,
    /// The other crate's macro of the first name, under the second name.
    One(String<A>, String<A>),
}

/// An export of a crate. Contracts see it by `export_of`.
#[derive(Drop)]
pub struct Export<A: Allocator = Global> {
    /// The crate that exports it.
    pub by: String<A>,
    /// The crate that it comes from.
    pub from: String<A>,
    pub exported_macros: ExportedMacros<A>,
}
