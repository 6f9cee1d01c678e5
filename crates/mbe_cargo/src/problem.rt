// Errors and notes on the files of a package.
use std::alloc::{AllocError, AllocFailed, Global};

/// An error or a note, with its position in a file. Lines and columns count from 1; line 0 stands
/// for the whole file.
#[derive(Drop)]
pub struct Problem {
    pub path: String,
    pub line: usize,
    pub column: usize,
    pub message: String,
}

/// Why a step of the plan stops.
#[derive(Drop)]
pub enum Stop {
    OutOfMemory,
    /// A file that the step needs isn't read yet.
    Unread,
    Refused(Problem),
}

impl From<AllocError> for Stop {
    fn from(_error: AllocError) -> Stop {
        Stop::OutOfMemory
    }
}

impl<T: Drop> From<AllocFailed<T>> for Stop {
    fn from(_error: AllocFailed<T>) -> Stop {
        Stop::OutOfMemory
    }
}

/// Returns a problem at that position of the file `path`.
pub fn problem_at(
    alloc: Global,
    path: &str,
    place: (usize, usize),
    message: String,
) -> Result<Problem, AllocError> {
    Ok(Problem {
        path: String::from_str(alloc, path)?,
        line: place.0,
        column: place.1,
        message,
    })
}

/// Adds a name to the end of an error, which lists the names that there are.
pub fn add_name(names: &mut String, name: &str) -> Result<(), AllocError> {
    let before = if names.is_empty() {
        "; it has `"
    } else {
        ", `"
    };
    names.push_str(before)?;
    names.push_str(name)?;
    names.push('`')?;
    Ok(())
}
