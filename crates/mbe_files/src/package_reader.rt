// Reads the files that the plan of a Cargo package needs.
use crate::file_reader::file_text;
use mbe_cargo::documents::Need;
use mbe_cargo::plan::Plan;
use mbe_cargo::planner::{Planner, Request, Step};
use mbe_cargo::problem::Problem;
use std::alloc::{AllocError, Global};
use std::rt::Files;
use std::{fs, io};

// The limit of steps in which files are read.
const MAX_STEPS: usize = 10_000;

/// Returns the path as seen from the folder, if it is below it.
pub fn shown_path<'p>(folder: &str, path: &'p str) -> &'p str {
    match path.strip_prefix(folder) {
        Some(rest) => rest.strip_prefix("/").unwrap_or(path),
        None => path,
    }
}

/// Returns a problem in one line: `PATH:LINE:COL: MESSAGE`.
pub fn problem_text(alloc: Global, folder: &str, problem: &Problem) -> Result<String, AllocError> {
    let path = shown_path(folder, problem.path.as_str());
    let (line, column, message) = (problem.line, problem.column, problem.message.as_str());
    if line == 0 {
        return format!(in alloc; "{path}: {message}");
    }
    format!(in alloc; "{path}:{line}:{column}: {message}")
}

// Returns the names in a folder, one a line.
fn names_in<R: Files + AllocGlobal + Clone + Drop>(rt: &R, path: &str) -> io::Result<String> {
    let mut names = String::new(rt.alloc());
    for entry in fs::read_dir(rt, path)? {
        let entry = entry?;
        names.push_str(entry.file_name())?;
        names.push('\n')?;
    }
    Ok(names)
}

// Reads what the planner needs; `None` if there is no such file.
fn read_need<R: Files + AllocGlobal + Clone + Drop>(
    rt: &R,
    need: &Need,
) -> io::Result<Option<String>> {
    let path = need.path.as_str();
    let text = if need.is_folder {
        names_in(rt, path)
    } else {
        file_text(rt, path)
    };
    match text {
        Ok(text) => Ok(Some(text)),
        Err(error) => match error.kind() {
            io::ErrorKind::NotFound | io::ErrorKind::NotADirectory => Ok(None),
            _ => Err(error),
        },
    }
}

// Adds the files that the planner needs. Returns the message of an error.
fn add_needs<R: Files + AllocGlobal + Clone + Drop>(
    rt: &R,
    planner: &mut Planner,
    needs: &[Need],
    folder: &str,
) -> io::Result<Option<String>> {
    for need in needs {
        let path = need.path.as_str();
        let text = match read_need(rt, need) {
            Ok(text) => text,
            Err(error) => {
                return Ok(Some(format!(in rt.alloc(); "couldn't read `{path}`: {error}")?));
            }
        };
        if let Some(problem) = planner.add(path, text)? {
            return Ok(Some(problem_text(rt.alloc(), folder, &problem)?));
        }
    }
    Ok(None)
}

/// Returns the plans that the request asks for. The inner error is a message, with paths as seen
/// from `folder`.
pub fn read_plans<R: Files + AllocGlobal + Clone + Drop>(
    rt: &R,
    request: Request<'_>,
    folder: &str,
) -> io::Result<Result<Vec<Plan>, String>> {
    let mut planner = Planner::new(rt.alloc());
    for _ in 0..MAX_STEPS {
        let needs = match planner.step(request)? {
            Step::Needs(needs) => needs,
            Step::Planned(plans) => return Ok(Ok(plans)),
            Step::Refused(problem) => {
                return Ok(Err(problem_text(rt.alloc(), folder, &problem)?));
            }
        };
        if let Some(message) = add_needs(rt, &mut planner, needs.as_slice(), folder)? {
            return Ok(Err(message));
        }
    }
    Ok(Err(String::from_str(rt.alloc(), "the package needs too many files")?))
}
