// The paths of expanded files and of pages, relative to the folder that they are written into.
use mbe_cfg::files::paths::folder_of;
use mbe_session::file_set::FileSet;
use std::alloc::{AllocError, Global};
use std::collections::BTreeSet;

// The name of the page that lists the pages of a folder.
const INDEX: &str = "index.html";

// Returns the path within a folder. `None` if the path isn't in that folder.
fn after_folder<'p>(folder: &str, path: &'p str) -> Option<&'p str> {
    if folder.is_empty() {
        return if path.starts_with('/') {
            None
        } else {
            Some(path)
        };
    }
    let rest = path.strip_prefix(folder)?;
    if folder.ends_with('/') {
        Some(rest)
    } else {
        rest.strip_prefix('/')
    }
}

// Returns the components of a path, without `.` and with each `..` resolved. `None` if a `..` leads
// out of where the path begins.
fn path_parts<'p>(alloc: Global, path: &'p str) -> Result<Option<Vec<&'p str>>, AllocError> {
    let mut parts = Vec::new(alloc);
    for part in path.split('/') {
        if part == ".." {
            if parts.pop().is_none() {
                return Ok(None);
            }
        } else if !part.is_empty() && part != "." {
            parts.push(part)?;
        }
    }
    Ok(Some(parts))
}

fn joined(alloc: Global, parts: &[&str]) -> Result<String, AllocError> {
    let mut path = String::new(alloc);
    for part in parts {
        if !path.is_empty() {
            path.push('/')?;
        }
        path.push_str(*part)?;
    }
    Ok(path)
}

/// Whether a path is below a folder. Both have no `.` and no `..`.
pub fn is_below(folder: &str, path: &str) -> bool {
    after_folder(folder, path).is_some()
}

// Returns the path of a file relative to a folder. `None` if the file isn't below it.
fn relative(alloc: Global, folder: &str, path: &str) -> Result<Option<String>, AllocError> {
    let Some(rest) = after_folder(folder, path) else {
        return Ok(None);
    };
    match path_parts(alloc, rest)? {
        Some(parts) => Ok(Some(joined(alloc, parts.as_slice())?)),
        None => Ok(None),
    }
}

/// Returns the last component of a path.
pub fn file_name(path: &str) -> &str {
    path.rsplit_once('/').map_or(path, |(_, last)| last)
}

// Returns where a file is written, relative to the folder of the output. A root, for which `root`
// is `None`, goes to its own name. A module's file keeps its path relative to the folder of its
// root. The inner error is the text of a message: the module's file isn't below that folder.
fn target(
    alloc: Global,
    path: &str,
    root: Option<&str>,
) -> Result<Result<String, String>, AllocError> {
    let Some(root) = root else {
        return Ok(Ok(String::from_str(alloc, file_name(path))?));
    };
    match relative(alloc, folder_of(root), path)? {
        Some(target) => Ok(Ok(target)),
        None => Ok(Err(format!(in alloc;
            "`{path}`, of a module, isn't below the folder of `{root}`"
        )?)),
    }
}

// Returns a target that two files have.
fn repeated_target(alloc: Global, targets: &[Option<String>]) -> Result<Option<&str>, AllocError> {
    let mut seen = BTreeSet::new(alloc);
    for target in targets {
        if let Some(target) = target
            && !seen.insert(target.as_str())?
        {
            return Ok(Some(target.as_str()));
        }
    }
    Ok(None)
}

/// Returns where each file is written, relative to the folder; `None` for the files of external
/// crates. The first `root_count` files are the roots of the session's own crates. The inner error
/// is the text of a message: a file has no such path, or two files have the same.
pub fn targets(
    alloc: Global,
    files: &FileSet,
    folder: &str,
    root_count: usize,
) -> Result<Result<Vec<Option<String>>, String>, AllocError> {
    let mut found: Vec<Option<String>> = Vec::new(alloc);
    for number in 0..files.texts.len() {
        if !files.is_local(number, root_count) {
            found.push(None)?;
            continue;
        }
        let (path, root) = files.path(number).unwrap_or(("", None));
        match target(alloc, path, root)? {
            Err(message) => return Ok(Err(message)),
            Ok(target) => found.push(Some(target))?,
        }
    }
    Ok(match conflict(alloc, folder, found.as_slice())? {
        Some(message) => Err(message),
        None => Ok(found),
    })
}

// Returns the text of an error if two files have the same target.
fn conflict(
    alloc: Global,
    folder: &str,
    targets: &[Option<String>],
) -> Result<Option<String>, AllocError> {
    match repeated_target(alloc, targets)? {
        Some(target) => Ok(Some(format!(in alloc;
            "two files would be written as `{folder}/{target}`"
        )?)),
        None => Ok(None),
    }
}

// Makes the target of each file the target of its page, and adds the target of the list of pages.
fn make_page_targets(alloc: Global, targets: &mut Vec<Option<String>>) -> Result<(), AllocError> {
    for target in targets.iter_mut() {
        if let Some(target) = target {
            target.push_str(".html")?;
        }
    }
    targets.push(Some(String::from_str(alloc, INDEX)?))?;
    Ok(())
}

/// Returns where the page of each file is written, as `targets` does, and then where the page that
/// lists them is written.
pub fn page_targets(
    alloc: Global,
    files: &FileSet,
    folder: &str,
    root_count: usize,
) -> Result<Result<Vec<Option<String>>, String>, AllocError> {
    let mut targets = match targets(alloc, files, folder, root_count)? {
        Ok(targets) => targets,
        Err(message) => return Ok(Err(message)),
    };
    make_page_targets(alloc, &mut targets)?;
    Ok(match conflict(alloc, folder, targets.as_slice())? {
        Some(message) => Err(message),
        None => Ok(targets),
    })
}
