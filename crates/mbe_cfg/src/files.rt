// Finds the file that `mod x;` names.
pub mod module_dir;
pub mod paths;
