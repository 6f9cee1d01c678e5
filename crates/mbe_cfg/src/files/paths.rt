// Paths of files and folders. A `/` is between their parts.
ghost use Rattle.std.specs.Prelude.{◌≡◌, IfOk};
ghost use Rattle.std.specs.String.{string_bytes};
ghost use Rattle.mbe_cfg.specs.Files.Paths.{join, is_absolute, needs_separator, folder_of};

use std::alloc::{AllocError, Allocator};
use std::path::Path;

// Returns whether a path begins at the root.
fn is_absolute(path: &str) -> bool
    ensures { result ≡ is_absolute path.now }
{
    match path.as_bytes().first() {
        Some(byte) => *byte == 47,
        None => false,
    }
}

// Returns whether a `/` must follow before more parts.
fn needs_separator(folder: &str) -> bool
    ensures { result ≡ needs_separator folder.now }
{
    match folder.as_bytes().last() {
        Some(byte) => *byte != 47,
        None => false,
    }
}

/// Joins a folder and a path that is relative to it. An absolute path is unchanged. Returns
/// `AllocError` if memory runs out.
pub fn join<A: Allocator>(alloc: A, folder: &str, path: &str) -> Result<String<A>, AllocError>
    ensures { IfOk result (λ s. string_bytes s ≡ join folder.now path.now) }
{
    let mut joined = String::new(alloc);
    if !is_absolute(path) {
        joined.push_str(folder)?;
        if needs_separator(folder) {
            joined.push_str("/")?;
        }
    }
    joined.push_str(path)?;
    Ok(joined)
}

/// Returns the folder of a file. It is empty if the path has only one part.
pub fn folder_of(path: &str) -> &str
    ensures { result.now ≡ folder_of path.now }
{
    match Path::new(path).parent() {
        Some(folder) => folder.as_str(),
        None => "",
    }
}
