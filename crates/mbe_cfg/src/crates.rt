// Puts the trees of a crate together: each `mod name;` gets the trees of the file that holds the
// module.
pub mod expansion_modules;
pub mod file_lookup;
pub mod module_inliner;
pub mod module_items;
