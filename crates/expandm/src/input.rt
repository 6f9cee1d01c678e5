// Reads the files of a run: those that the arguments name, the roots of external crates, and the
// files of modules.
use crate::command_line::RunOutput;
use crate::progress::ProgressLine;
use mbe_files::file_reader::{FileReader, MAX_FILES, file_text, rounds_note};
use mbe_session::session_options::SessionOptions;
use std::io::{self, Read};
use std::rt::Files;

// Reads the file of that name, or standard input for `-`. A text of 2^32 bytes or more is an error.
fn read_input<R: Files + Input + AllocGlobal>(rt: &R, name: &str) -> io::Result<String> {
    if name != "-" {
        return file_text(rt, name);
    }
    let text = io::read_to_string(rt.alloc(), rt.reader().take(1 << 32))?;
    if text.len() > u32::MAX as usize {
        return Err(io::Error::from(io::ErrorKind::FileTooLarge));
    }
    Ok(text)
}

// Reads the files that the arguments name. Returns the message of one that can't be read.
fn read_roots<R: Files + Input + AllocGlobal>(
    rt: &R,
    options: &SessionOptions<'_>,
    reader: &mut FileReader,
) -> io::Result<Option<String>> {
    for name in &options.names {
        match read_input(rt, *name) {
            Ok(text) => reader.add_root(rt, options, *name, text)?,
            Err(error) => {
                return Ok(Some(format!(in rt.alloc(); "couldn't read `{name}`: {error}")?));
            }
        }
    }
    Ok(None)
}

// Reads the roots of the external crates. Returns the message of one that can't be read.
fn read_externs<R: Files + AllocGlobal>(
    rt: &R,
    options: &SessionOptions<'_>,
    reader: &mut FileReader,
) -> io::Result<Option<String>> {
    for one in &options.externs {
        if let Err(error) = reader.add_extern_root(rt, options, one.path) {
            let (name, path) = (one.name, one.path);
            return Ok(Some(format!(in rt.alloc();
                "couldn't read `{path}` for `{name}`: {error}"
            )?));
        }
    }
    Ok(None)
}

// Reads the files of modules, and of their modules in turn.
fn read_modules<R: Files + Eprint + AllocGlobal>(
    rt: &R,
    options: &SessionOptions<'_>,
    progress: ProgressLine,
    reader: &mut FileReader,
) -> io::Result<()> {
    for number in 0..MAX_FILES {
        if number >= reader.files.texts.len() {
            break;
        }
        reader.add_modules(rt, options, number)?;
        progress.show(rt, "files read", reader.files.texts.len())?;
    }
    progress.clear(rt)
}

// Reads the files of modules that calls become, and of their modules in turn.
fn follow_calls<R: Files + AllocGlobal>(
    rt: &R,
    options: &SessionOptions<'_>,
    reader: &mut FileReader,
) -> io::Result<()> {
    if !reader.follow_calls(rt, options)? {
        reader.notes.push(rounds_note(rt.alloc())?)?;
    }
    Ok(())
}

/// Reads the files that the arguments name, the roots of external crates, and the files of modules,
/// also of those that calls become. A run with `--lint` needs no external crates and expands no
/// calls. Returns the message of a root that can't be read.
pub fn read_files<R: Files + Input + Eprint + AllocGlobal>(
    rt: &R,
    options: &SessionOptions<'_>,
    output: &RunOutput<'_>,
    progress: ProgressLine,
    reader: &mut FileReader,
) -> io::Result<Option<String>> {
    let mut message = read_roots(rt, options, reader)?;
    if message.is_none() && !output.is_lint {
        message = read_externs(rt, options, reader)?;
    }
    if message.is_none() {
        read_modules(rt, options, progress, reader)?;
    }
    if message.is_none() && !output.is_lint {
        follow_calls(rt, options, reader)?;
    }
    Ok(message)
}
