// Names of files: `file:///a/b.rs` is the file `/a/b.rs`.
use percent_encoding::{AsciiSet, NON_ALPHANUMERIC, percent_decode, utf8_percent_encode};
use std::alloc::{AllocError, Global};
use url::Url;

// Returns what is escaped in the path of a name.
fn escaped() -> AsciiSet {
    NON_ALPHANUMERIC
        .remove(b'/')
        .remove(b'-')
        .remove(b'.')
        .remove(b'_')
        .remove(b'~')
}

/// Returns the path of the file of that name. `None` if it names no file of this machine, or its
/// path isn't UTF-8.
pub fn path_of(alloc: Global, uri: &str) -> Option<String> {
    let url = Url::parse(alloc, uri).ok()?;
    if url.scheme() != "file" || url.host_str().is_some() {
        return None;
    }
    let mut bytes = Vec::new(alloc);
    percent_decode(url.path().as_bytes())
        .append_to(&mut bytes)
        .ok()?;
    let path = String::from_utf8(bytes).ok()?;
    path.as_str().starts_with('/').then_some(path)
}

/// Returns the name of the file at that path. `AllocError` if out of memory.
pub fn uri_of(alloc: Global, path: &str) -> Result<String, AllocError> {
    let mut uri = String::from_str(alloc, "file://")?;
    utf8_percent_encode(path, escaped()).append_to(&mut uri)?;
    Ok(uri)
}
