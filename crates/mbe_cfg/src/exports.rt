// Lists what a crate exports from other crates by the `pub use`s of its root.
pub mod crate_exports;
pub mod export;
pub mod use_paths;
