// The messages of a run on standard error, and its exit status.
ghost use Rattle.std.specs.Prelude.{◌≡◌, ◌||◌, length};
ghost use Rattle.std.specs.List.{list_any};
ghost use Rattle.mbe_session.specs.NoteLevels.{is_error};
ghost use Rattle.expandm.specs.Statuses.{lint_status, status_of};

use crate::reporter::Reporter;
use mbe_session::emitter::{MessageFormat, error_text, note_text};
use mbe_session::linted_files::LintedFiles;
use mbe_session::session::Session;
use std::io;

/// Exit status: all is done, without an error.
pub const EXIT_OK: u8 = 0;

/// Exit status: some call isn't expanded, or some definition or file is refused.
pub const EXIT_ERRORS: u8 = 1;

/// Exit status: the command line is invalid, or a file can't be read or written.
pub const EXIT_FAILED: u8 = 2;

// Returns the exit status of a run that expands. `is_written` says whether the run wrote all of its
// output.
fn exit_status(session: &Session<'_>, is_written: bool) -> u8
    ensures { result ≡ status_of is_written (list_any is_error session.now.notes.items
        || list_any is_error session.now.expander.notes.items) }
{
    match is_written {
        false => EXIT_FAILED,
        true if session.has_errors() => EXIT_ERRORS,
        true => EXIT_OK,
    }
}

/// Returns the exit status of a run with `--lint`: 0 without notes and lints, else 1.
pub fn lint_exit_status(linted: &LintedFiles<'_>) -> u8
    ensures { result ≡ lint_status (length linted.now.notes.items) (length linted.now.lints.items) }
{
    if linted.notes.is_empty() && linted.lints.is_empty() {
        EXIT_OK
    } else {
        EXIT_ERRORS
    }
}

/// Writes an error that belongs to no file, and returns the exit status.
pub fn fail<R: Eprint + AllocGlobal>(
    rt: &R,
    form: Option<MessageFormat>,
    message: &str,
) -> io::Result<u8> {
    let text = error_text(rt.alloc(), form, message)?;
    eprint!(rt; "{text}")?;
    Ok(EXIT_FAILED)
}

/// Writes notes that belong to no file: on what the plan of a package leaves out.
pub fn emit_notes<R: Eprint + AllocGlobal>(
    rt: &R,
    form: Option<MessageFormat>,
    notes: &[String],
) -> io::Result<()> {
    for note in notes {
        let text = note_text(rt.alloc(), form, note.as_str())?;
        eprint!(rt; "{text}")?;
    }
    Ok(())
}

// Writes the notes of a session and the line that ends a run.
fn emit_session<R: Eprint + AllocGlobal>(
    rt: &R,
    form: Option<MessageFormat>,
    session: &Session<'_>,
) -> io::Result<()> {
    let text = session.notes_text(rt.alloc(), form)?;
    let summary = session.summary_text(rt.alloc(), form)?;
    eprint!(rt; "{text}{summary}")
}

/// Writes the notes of a session and the line that ends a run, and returns the exit status.
/// `is_written` says whether the run wrote all of its output.
pub fn finish<R: Eprint + AllocGlobal>(
    rt: &R,
    report: &mut Reporter,
    session: &Session<'_>,
    is_written: bool,
) -> io::Result<u8> {
    report.add_session(rt.alloc(), session)?;
    emit_session(rt, report.form, session)?;
    Ok(exit_status(session, is_written))
}

/// Writes the message of what couldn't be written, if there is one, and ends the run as `finish`
/// does.
pub fn finish_with<R: Eprint + AllocGlobal>(
    rt: &R,
    report: &mut Reporter,
    session: &Session<'_>,
    message: &Option<String>,
) -> io::Result<u8> {
    if let Some(message) = message {
        fail(rt, report.form, message.as_str())?;
    }
    finish(rt, report, session, message.is_none())
}
