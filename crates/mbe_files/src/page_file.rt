// Writes the page of a run, or another text that it makes, to a file. No file that the run read is
// overwritten.
use crate::write_conflicts::{find_input, found, input_metadata};
use mbe_session::session::NamedText;
use std::rt::Files;
use std::{fs, io};

// Returns the name of the input that is the file at the path.
fn overwritten<'t, R: Files + AllocGlobal>(
    rt: &R,
    path: &str,
    texts: &'t [NamedText],
) -> io::Result<Option<&'t str>> {
    let Some(target) = found(fs::metadata(rt, path))? else {
        return Ok(None);
    };
    let read = input_metadata(rt, texts)?;
    Ok(find_input(texts, read.as_slice(), &target))
}

/// Whether a path after `--html` names a folder for pages. Else it names one page.
pub fn is_folder(path: &str) -> bool {
    !(path.is_empty() || path == "-" || path.ends_with(".html") || path.ends_with(".htm"))
}

/// Returns the text of an error if the file at a path must not be written. The reason is that it is
/// one of the inputs `texts`, or that its metadata can't be read. `option` names the path's option.
pub fn input_conflict<R: Files + AllocGlobal>(
    rt: &R,
    option: &str,
    path: &str,
    texts: &[NamedText],
) -> io::Result<Option<String>> {
    match overwritten(rt, path, texts) {
        Ok(Some(name)) => Ok(Some(format!(in rt.alloc();
            "`{option} {path}` would overwrite `{name}`, which this run reads"
        )?)),
        Ok(None) => Ok(None),
        Err(error) => Ok(Some(format!(in rt.alloc(); "couldn't write `{path}`: {error}")?)),
    }
}

/// Writes a text to the file of that path. Returns the text of an error if it can't be written.
pub fn write_text<R: Files + AllocGlobal>(
    rt: &R,
    path: &str,
    text: &str,
) -> io::Result<Option<String>> {
    match fs::write(rt, path, text.as_bytes()) {
        Ok(()) => Ok(None),
        Err(error) => Ok(Some(format!(in rt.alloc(); "couldn't write `{path}`: {error}")?)),
    }
}

/// Writes a page to the file of that path. Returns the text of an error if it can't be written, or
/// if it would overwrite one of the inputs `texts`.
pub fn write_page<R: Files + AllocGlobal>(
    rt: &R,
    path: &str,
    page: &str,
    texts: &[NamedText],
) -> io::Result<Option<String>> {
    let refused = input_conflict(rt, "--html", path, texts)?;
    if refused.is_some() {
        return Ok(refused);
    }
    write_text(rt, path, page)
}
