// Users of the binding log, who see its contracts alone; a log with many lists; and equality and
// `Debug` texts of bindings.
pub mod many;
mod uses;
pub mod values;
