// Errors of definitions and of expansions, and results that hold a value beside an error.
pub mod error;
pub mod laws;
pub mod value_result;
