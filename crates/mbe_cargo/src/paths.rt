// Paths as texts, with `/` between the parts.
use std::alloc::{AllocError, Global};

/// Returns the folder of a file: the path before its last `/`.
pub fn folder_of(path: &str) -> &str {
    match path.rsplit_once('/') {
        Some((folder, _)) => folder,
        None => ".",
    }
}

/// Returns `path` as seen from `folder`. A path that begins with `/` doesn't depend on the folder.
/// Parts `.` are left out, and `..` takes away the part before it.
pub fn join(alloc: Global, folder: &str, path: &str) -> Result<String, AllocError> {
    let is_absolute = path.starts_with('/');
    let folder = if is_absolute { "" } else { folder };
    let mut parts = Vec::new(alloc);
    add_parts(&mut parts, folder)?;
    add_parts(&mut parts, path)?;
    let mut joined = String::new(alloc);
    if is_absolute || folder.starts_with('/') {
        joined.push('/')?;
    }
    push_joined(&mut joined, &parts)?;
    Ok(joined)
}

// Adds parts to a text, with `/` between them.
fn push_joined(text: &mut String, parts: &[&str]) -> Result<(), AllocError> {
    for (number, part) in parts.iter().enumerate() {
        if number > 0 {
            text.push('/')?;
        }
        text.push_str(*part)?;
    }
    Ok(())
}

// Adds the parts of a path.
fn add_parts<'p>(parts: &mut Vec<&'p str>, path: &'p str) -> Result<(), AllocError> {
    for part in path.split('/') {
        add_part(parts, part)?;
    }
    Ok(())
}

// Whether the last part is one that `..` removes.
fn is_removable(parts: &[&str]) -> bool {
    match parts {
        [.., last] => *last != "..",
        [] => false,
    }
}

// Adds a part of a path; `..` removes the part before it.
fn add_part<'p>(parts: &mut Vec<&'p str>, part: &'p str) -> Result<(), AllocError> {
    if part.is_empty() || part == "." {
        return Ok(());
    }
    if part == ".." && is_removable(parts) {
        let _ = parts.pop();
        return Ok(());
    }
    parts.push(part)?;
    Ok(())
}

/// Returns the folder and the folders above it, the innermost first.
pub fn ancestors(alloc: Global, folder: &str) -> Result<Vec<String>, AllocError> {
    let mut found = Vec::new(alloc);
    let mut path = folder;
    for _ in 0..folder.len() {
        let Some((above, _)) = path.rsplit_once('/') else {
            break;
        };
        found.push(String::from_str(alloc, path)?)?;
        path = above;
    }
    found.push(String::from_str(alloc, path)?)?;
    Ok(found)
}

/// Whether the folder `inner` is `outer` or lies below it.
pub fn is_within(inner: &str, outer: &str) -> bool {
    match inner.strip_prefix(outer) {
        Some(rest) => rest.is_empty() || rest.starts_with('/'),
        None => false,
    }
}
