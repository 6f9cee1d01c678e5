// What a run on files prints or writes: lints, the expansion of one file, or files in a folder.
use crate::call_output::show_calls;
use crate::command_line::RunOutput;
use crate::progress::ProgressLine;
use crate::reporter::Reporter;
use crate::reports::{EXIT_ERRORS, fail, finish, finish_with, lint_exit_status};
use mbe_files::file_writer::{differences, write_texts};
use mbe_files::output_paths::targets;
use mbe_files::write_conflicts::{OutputFolder, OutputPlan, output_plan};
use mbe_session::emitter::MessageFormat;
use mbe_session::file_set::FileSet;
use mbe_session::linted_files::{LintedFiles, lint};
use mbe_session::session::{Session, expand_files, write_expansion};
use mbe_session::session_options::SessionOptions;
use std::io;
use std::rt::Files;

/// Expands the files or lints their definitions, and prints or writes what is asked for. Returns
/// the exit status.
pub fn write_output<R: Files + Print + Eprint + AllocGlobal>(
    rt: &R,
    options: &SessionOptions<'_>,
    output: &RunOutput<'_>,
    report: &mut Reporter,
    progress: ProgressLine,
    files: &FileSet,
) -> io::Result<u8> {
    if output.is_lint {
        return lint_files(rt, options, report, files);
    }
    if output.calls.is_shown() {
        return show_calls(rt, options, output.calls, report, files);
    }
    match output.folder {
        None => print_file(rt, options, report, files),
        Some(folder) if output.is_check => check_files(rt, options, report, files, folder.path),
        Some(folder) => write_files(rt, options, report, progress, files, folder),
    }
}

// Writes the lints of the files' definitions and the line that ends a run, and returns the exit
// status.
fn lint_files<R: Eprint + AllocGlobal>(
    rt: &R,
    options: &SessionOptions<'_>,
    report: &mut Reporter,
    files: &FileSet,
) -> io::Result<u8> {
    let linted = lint(rt.alloc(), options, files.texts.as_slice())?;
    report.add_lints(rt.alloc(), &linted)?;
    emit_lints(rt, report.form, &linted)?;
    Ok(lint_exit_status(&linted))
}

// Writes lints and the line that ends a run.
fn emit_lints<R: Eprint + AllocGlobal>(
    rt: &R,
    form: Option<MessageFormat>,
    linted: &LintedFiles<'_>,
) -> io::Result<()> {
    let text = linted.notes_text(rt.alloc(), form)?;
    let summary = linted.summary_text(rt.alloc(), form)?;
    eprint!(rt; "{text}{summary}")
}

// Writes the expansion of the last file that the arguments name to standard output.
fn print_file<R: Print + Eprint + AllocGlobal>(
    rt: &R,
    options: &SessionOptions<'_>,
    report: &mut Reporter,
    files: &FileSet,
) -> io::Result<u8> {
    let out = &mut io::writer(rt);
    let texts = files.texts.as_slice();
    let (session, written) = write_expansion(rt.alloc(), options, &files.roots, texts, out)?;
    finish_printed(rt, report, &session, written)
}

// Ends the run if its output is printed, and else returns the error.
fn finish_printed<R: Eprint + AllocGlobal>(
    rt: &R,
    report: &mut Reporter,
    session: &Session<'_>,
    written: io::Result<()>,
) -> io::Result<u8> {
    written?;
    finish(rt, report, session, true)
}

// Writes the expansion of each file into the folder.
fn write_files<R: Files + Eprint + AllocGlobal>(
    rt: &R,
    options: &SessionOptions<'_>,
    report: &mut Reporter,
    progress: ProgressLine,
    files: &FileSet,
    folder: OutputFolder<'_>,
) -> io::Result<u8> {
    match output_plan(rt, files, folder, options.names.len())? {
        Ok(plan) => {
            progress.show(rt, "files to expand", files.texts.len())?;
            write_planned(rt, options, report, progress, files, folder.path, &plan)
        }
        Err(message) => fail(rt, report.form, message.as_str()),
    }
}

// Writes the expansion of each file to its path in the folder.
fn write_planned<R: Files + Eprint + AllocGlobal>(
    rt: &R,
    options: &SessionOptions<'_>,
    report: &mut Reporter,
    progress: ProgressLine,
    files: &FileSet,
    folder: &str,
    plan: &OutputPlan,
) -> io::Result<u8> {
    let texts = files.texts.as_slice();
    let (session, written) = expand_files(rt.alloc(), options, &files.roots, texts)?;
    progress.clear(rt)?;
    put_texts(rt, report, folder, plan, written.as_slice(), &session)
}

// Writes texts into a folder, and ends the run.
fn put_texts<R: Files + Eprint + AllocGlobal>(
    rt: &R,
    report: &mut Reporter,
    folder: &str,
    plan: &OutputPlan,
    texts: &[String],
    session: &Session<'_>,
) -> io::Result<u8> {
    let message = write_texts(rt, folder, plan, texts)?;
    finish_with(rt, report, session, &message)
}

// Compares the expansion of each file with the file in the folder, and writes no file. The status
// is that of a call with an error if a file differs.
fn check_files<R: Files + Eprint + AllocGlobal>(
    rt: &R,
    options: &SessionOptions<'_>,
    report: &mut Reporter,
    files: &FileSet,
    folder: &str,
) -> io::Result<u8> {
    if folder.is_empty() {
        return fail(rt, report.form, "the folder after `--write` is empty");
    }
    match targets(rt.alloc(), files, folder, options.names.len())? {
        Ok(targets) => check_targets(rt, options, report, files, folder, targets.as_slice()),
        Err(message) => fail(rt, report.form, message.as_str()),
    }
}

// Compares the expansion of each file with its target in the folder.
fn check_targets<R: Files + Eprint + AllocGlobal>(
    rt: &R,
    options: &SessionOptions<'_>,
    report: &mut Reporter,
    files: &FileSet,
    folder: &str,
    targets: &[Option<String>],
) -> io::Result<u8> {
    let texts = files.texts.as_slice();
    let (session, written) = expand_files(rt.alloc(), options, &files.roots, texts)?;
    let status = finish(rt, report, &session, true)?;
    check_texts(rt, report.form, folder, targets, written.as_slice(), status)
}

// Compares texts with their targets in the folder. Returns `status` if none differs.
fn check_texts<R: Files + Eprint + AllocGlobal>(
    rt: &R,
    form: Option<MessageFormat>,
    folder: &str,
    targets: &[Option<String>],
    texts: &[String],
    status: u8,
) -> io::Result<u8> {
    match differences(rt, folder, targets, texts)? {
        Ok(messages) => report_differences(rt, form, messages.as_slice(), status),
        Err(message) => fail(rt, form, message.as_str()),
    }
}

// Writes the message of each file that differs. Returns `status` if there is none.
fn report_differences<R: Eprint + AllocGlobal>(
    rt: &R,
    form: Option<MessageFormat>,
    messages: &[String],
    status: u8,
) -> io::Result<u8> {
    for message in messages {
        fail(rt, form, message.as_str())?;
    }
    Ok(if messages.is_empty() {
        status
    } else {
        EXIT_ERRORS
    })
}
