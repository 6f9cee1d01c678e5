// Rust's grammar of fragments, as a table for the parser in `tables`. The source of the table is
// `rust.peg`, beside the folder of this crate's code.
pub mod keywords;
pub mod nodes;
pub mod positions;
pub mod rust_rules;
