// Checks that a run which writes into a folder loses nothing. The run overwrites no file that it
// reads. Without `--force` it overwrites only files that an earlier run wrote. It follows no
// symbolic link below the folder.
use crate::file_reader::file_text;
use crate::output_paths::{is_below, page_targets, targets};
use crate::written_files::{LIST_NAME, listed_paths, path_set};
use mbe_session::file_set::FileSet;
use mbe_session::session::NamedText;
use std::alloc::{AllocError, Global};
use std::collections::BTreeSet;
use std::fs::{self, Metadata};
use std::io;
use std::os::unix::fs::MetadataExt;
use std::rt::Files;

/// The folder that expanded files are written into.
#[derive(Clone, Copy, Drop)]
pub struct OutputFolder<'w> {
    pub path: &'w str,
    /// Whether files are overwritten that no earlier run wrote.
    pub is_forced: bool,
    /// The option that names the folder.
    pub option: &'static str,
}

/// Where each file of a run is written.
#[derive(Drop)]
pub struct OutputPlan {
    /// The path of each file, relative to the folder; `None` for the files of external crates.
    pub targets: Vec<Option<String>>,
    /// What earlier runs wrote, a path in each line.
    pub listed: String,
}

// What is known of the folder before anything is written.
#[derive(Drop)]
struct Existing<'e, 'p> {
    folder: OutputFolder<'e>,
    texts: &'e [NamedText],
    // The metadata of each text; `None` for standard input, and for a file that is gone.
    read: &'e [Option<Metadata>],
    listed: &'e BTreeSet<&'p str>,
}

/// Returns the metadata of a path; `None` if nothing is there.
pub fn found(metadata: io::Result<Metadata>) -> io::Result<Option<Metadata>> {
    match metadata {
        Ok(metadata) => Ok(Some(metadata)),
        Err(error) if error.kind() == io::ErrorKind::NotFound => Ok(None),
        Err(error) => Err(error),
    }
}

// Whether two paths lead to one file: the same number on the same device.
fn is_same(one: &Metadata, other: &Metadata) -> bool {
    one.dev() == other.dev() && one.ino() == other.ino()
}

// Returns the metadata of each input file, in order. `None` for standard input, and for a file that
// is gone.
pub(crate) fn input_metadata<R: Files + AllocGlobal>(
    rt: &R,
    texts: &[NamedText],
) -> io::Result<Vec<Option<Metadata>>> {
    let mut all = Vec::new(rt.alloc());
    for named in texts {
        if named.name.as_str() == "-" {
            all.push(None)?;
        } else {
            all.push(found(fs::metadata(rt, named.name.as_str()))?)?;
        }
    }
    Ok(all)
}

// Returns the name of the input that is the same file as the target.
pub(crate) fn find_input<'t>(
    texts: &'t [NamedText],
    read: &[Option<Metadata>],
    target: &Metadata,
) -> Option<&'t str> {
    for (named, read) in texts.iter().zip(read.iter()) {
        if let Some(read) = read
            && is_same(read, target)
        {
            return Some(named.name.as_str());
        }
    }
    None
}

// Returns why an existing file can't be overwritten, as the text of an error. `path` has the folder
// before the target.
fn file_conflict(
    alloc: Global,
    known: &Existing<'_, '_>,
    target: &str,
    path: &str,
    there: &Metadata,
) -> Result<Option<String>, AllocError> {
    if !there.is_file() {
        return Ok(Some(format!(in alloc; "`{path}` is there, and isn't a file")?));
    }
    if let Some(name) = find_input(known.texts, known.read, there) {
        let (option, folder) = (known.folder.option, known.folder.path);
        return Ok(Some(format!(in alloc;
            "`{option} {folder}` would overwrite `{name}`, which this run reads"
        )?));
    }
    if known.folder.is_forced || known.listed.contains(target) {
        return Ok(None);
    }
    let hint = force_hint(known.folder.option);
    Ok(Some(format!(in alloc; "`{path}` is there, and no earlier run wrote it{hint}")?))
}

// Returns the end of the error of a file that no earlier run wrote. Only `--write` takes `--force`.
fn force_hint(option: &str) -> &'static str {
    if option == "--write" {
        ": `--force` overwrites it"
    } else {
        ""
    }
}

// Returns an error text if nothing can be written at the target. Either a symbolic link is on the
// path, or the file there can't be overwritten.
fn target_conflict<R: Files + AllocGlobal>(
    rt: &R,
    known: &Existing<'_, '_>,
    target: &str,
) -> io::Result<Option<String>> {
    if target == LIST_NAME {
        return Ok(Some(format!(in rt.alloc();
            "a file can't be written as `{target}`, which lists the files of `--write`"
        )?));
    }
    let mut path = String::from_str(rt.alloc(), known.folder.path)?;
    let mut last = None;
    for part in target.split('/') {
        path.push('/')?;
        path.push_str(part)?;
        last = found(fs::symlink_metadata(rt, path.as_str()))?;
        if let Some(there) = &last
            && there.is_symlink()
        {
            let option = known.folder.option;
            return Ok(Some(format!(in rt.alloc();
                "`{path}` is a symbolic link, and `{option}` follows none"
            )?));
        }
    }
    match &last {
        Some(there) => Ok(file_conflict(rt.alloc(), known, target, path.as_str(), there)?),
        None => Ok(None),
    }
}

// Returns an error text if a file that the run reads is in the folder.
fn folder_conflict<R: Files + AllocGlobal>(
    rt: &R,
    output: OutputFolder<'_>,
    texts: &[NamedText],
) -> io::Result<Option<String>> {
    let (option, folder) = (output.option, output.path);
    if found(fs::metadata(rt, folder))?.is_none() {
        return Ok(None);
    }
    let whole = fs::canonicalize(rt, folder)?;
    for named in texts {
        if let Ok(path) = fs::canonicalize(rt, named.name.as_str())
            && is_below(whole.as_str(), path.as_str())
        {
            let name = named.name.as_str();
            return Ok(Some(format!(in rt.alloc();
                "`{option} {folder}` would write beside `{name}`, which this run reads"
            )?));
        }
    }
    Ok(None)
}

// Returns the text of an error if nothing can be written into the folder.
fn write_conflict<R: Files + AllocGlobal>(
    rt: &R,
    known: &Existing<'_, '_>,
    targets: &[Option<String>],
) -> io::Result<Option<String>> {
    for target in targets {
        let Some(target) = target else {
            continue;
        };
        let refused = target_conflict(rt, known, target.as_str())?;
        if refused.is_some() {
            return Ok(refused);
        }
    }
    folder_conflict(rt, known.folder, known.texts)
}

// Returns the text of an error if nothing can be written into the folder, where earlier runs wrote
// the files of `listed`.
fn listed_conflict<R: Files + AllocGlobal>(
    rt: &R,
    texts: &[NamedText],
    folder: OutputFolder<'_>,
    listed: &str,
    targets: &[Option<String>],
) -> io::Result<Option<String>> {
    let read = input_metadata(rt, texts)?;
    let paths = path_set(rt.alloc(), listed)?;
    let known = Existing {
        folder,
        texts,
        read: read.as_slice(),
        listed: &paths,
    };
    write_conflict(rt, &known, targets)
}

// Returns the paths that the folder's list has. The inner error is the text of a message: what has
// the list's name isn't such a list.
fn read_list<R: Files + AllocGlobal>(rt: &R, folder: &str) -> io::Result<Result<String, String>> {
    let path = format!(in rt.alloc(); "{folder}/{LIST_NAME}")?;
    let Some(there) = found(fs::symlink_metadata(rt, path.as_str()))? else {
        return Ok(Ok(String::new(rt.alloc())));
    };
    if there.is_file() {
        let text = file_text(rt, path.as_str())?;
        if let Some(paths) = listed_paths(text.as_str()) {
            return Ok(Ok(String::from_str(rt.alloc(), paths)?));
        }
    }
    Ok(Err(format!(in rt.alloc(); "`{path}` is there, and doesn't list files that expandm wrote")?))
}

// Returns where the files are written, or the text of an error.
fn checked_plan<R: Files + AllocGlobal>(
    rt: &R,
    texts: &[NamedText],
    folder: OutputFolder<'_>,
    targets: Vec<Option<String>>,
) -> io::Result<Result<OutputPlan, String>> {
    let listed = match read_list(rt, folder.path)? {
        Ok(listed) => listed,
        Err(message) => return Ok(Err(message)),
    };
    match listed_conflict(rt, texts, folder, listed.as_str(), targets.as_slice())? {
        Some(message) => Ok(Err(message)),
        None => Ok(Ok(OutputPlan { targets, listed })),
    }
}

/// Returns where the files of a run are written. The first `root_count` files are the roots of its
/// own crates. Nothing is written yet.
///
/// The inner error is a message that says why nothing can be written. `targets` may have failed. A
/// file may have to remain as it is, or a folder on the way to it may be a symbolic link. The
/// folder may have files that the run reads, or it can't be read.
pub fn output_plan<R: Files + AllocGlobal>(
    rt: &R,
    files: &FileSet,
    folder: OutputFolder<'_>,
    root_count: usize,
) -> io::Result<Result<OutputPlan, String>> {
    let name = folder.path;
    if name.is_empty() {
        return Ok(Err(String::from_str(rt.alloc(), "the folder after `--write` is empty")?));
    }
    match targets(rt.alloc(), files, name, root_count)? {
        Ok(targets) => folder_plan(rt, files.texts.as_slice(), folder, targets),
        Err(message) => Ok(Err(message)),
    }
}

/// Returns where the pages of a run are written: one for each file of its own crates, and the page
/// that lists them. Nothing is written yet. The inner error is a message, as of `output_plan`.
pub fn page_plan<R: Files + AllocGlobal>(
    rt: &R,
    files: &FileSet,
    folder: OutputFolder<'_>,
    root_count: usize,
) -> io::Result<Result<OutputPlan, String>> {
    match page_targets(rt.alloc(), files, folder.path, root_count)? {
        Ok(targets) => folder_plan(rt, files.texts.as_slice(), folder, targets),
        Err(message) => Ok(Err(message)),
    }
}

// Returns where files are written, or the text of an error, also if the folder can't be read.
fn folder_plan<R: Files + AllocGlobal>(
    rt: &R,
    texts: &[NamedText],
    folder: OutputFolder<'_>,
    targets: Vec<Option<String>>,
) -> io::Result<Result<OutputPlan, String>> {
    match checked_plan(rt, texts, folder, targets) {
        Ok(planned) => Ok(planned),
        Err(error) if error.kind() == io::ErrorKind::OutOfMemory => Err(error),
        Err(error) => {
            let name = folder.path;
            Ok(Err(format!(in rt.alloc(); "couldn't write into `{name}`: {error}")?))
        }
    }
}
