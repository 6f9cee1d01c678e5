// A run of the program: it parses the arguments, plans packages, and runs on the files of each.
ghost use Rattle.std.specs.Prelude.{◌≡◌};
ghost use Rattle.expandm.specs.MessageFormats.{format_for};

use crate::command_line::{Invocation, RunOptions, RunOutput, parse_arguments};
use crate::input::read_files;
use crate::output::write_output;
use crate::progress::ProgressLine;
use crate::reporter::{Reporter, log_conflict, write_collected};
use crate::reports::{EXIT_FAILED, EXIT_OK, emit_notes, fail};
use mbe_files::file_reader::{FileReader, limit_notes};
use mbe_files::output_paths::file_name;
use mbe_files::package::{PackagePlan, edition_notes, plan_packages};
use mbe_session::emitter::{MessageFormat, note_text};
use mbe_session::file_set::FileSet;
use mbe_session::session_options::SessionOptions;
use std::alloc::{AllocError, Global};
use std::rt::{Env, Files};
use std::{env, io};

/// Runs on the arguments of the program, and returns the exit status. `is_terminal` says whether
/// standard error is a terminal, and `is_output_terminal` whether standard output is one.
pub fn run_command<R: Env + Files + Input + Print + Eprint + AllocGlobal + Clone + Drop>(
    rt: &R,
    is_terminal: bool,
    is_output_terminal: bool,
) -> u8 {
    match run(rt, is_terminal, is_output_terminal) {
        Ok(status) => status,
        Err(error) => {
            let _ = eprintln!(rt; "error: {error}");
            EXIT_FAILED
        }
    }
}

// Returns the arguments. For `cargo-expandm`, the argument `expandm` that Cargo adds is left out.
fn arguments<R: Env + AllocGlobal>(rt: &R) -> io::Result<Vec<String>> {
    let mut argv: Vec<String> = Vec::new(rt.alloc());
    for (number, argument) in env::args(rt)?.enumerate() {
        let is_of_cargo = number == 1
            && argument.as_str() == "expandm"
            && match argv.as_slice() {
                [program] => file_name(program.as_str()) == "cargo-expandm",
                _ => false,
            };
        if !is_of_cargo {
            argv.push(argument)?;
        }
    }
    Ok(argv)
}

fn run<R: Env + Files + Input + Print + Eprint + AllocGlobal + Clone + Drop>(
    rt: &R,
    is_terminal: bool,
    is_output_terminal: bool,
) -> io::Result<u8> {
    let argv = arguments(rt)?;
    match parse_arguments(rt.alloc(), argv.as_slice())? {
        Invocation::Run(mut options) => {
            let is_colourless = is_colourless(rt);
            options.output.calls.is_coloured = is_output_terminal && !is_colourless;
            run_options(rt, &options, is_terminal, is_colourless)
        }
        Invocation::Text(text) => {
            print!(rt; "{text}")?;
            Ok(EXIT_OK)
        }
        Invocation::Refused(message) => {
            eprintln!(rt; "{message}")?;
            Ok(EXIT_FAILED)
        }
    }
}

// Runs on files or on a package, and writes what the run collected of them.
fn run_options<R: Env + Files + Input + Print + Eprint + AllocGlobal + Clone + Drop>(
    rt: &R,
    options: &RunOptions<'_>,
    is_terminal: bool,
    is_colourless: bool,
) -> io::Result<u8> {
    let output = &options.output;
    let is_brief = output.is_brief && !output.is_lint;
    let is_explained = options.session.explain.is_some() || output.is_lint;
    let form = choose_format(
        output.is_json,
        is_brief,
        is_explained,
        is_terminal,
        is_colourless,
    );
    let progress = ProgressLine::new(output, is_terminal);
    let mut report = Reporter::new(rt.alloc(), form, output.log.is_some());
    let status = run_targets(rt, options, progress, &mut report)?;
    write_collected(rt, output, &report, status)
}

// Runs on the files that the arguments name, or else on a package.
fn run_targets<R: Env + Files + Input + Print + Eprint + AllocGlobal + Clone + Drop>(
    rt: &R,
    options: &RunOptions<'_>,
    progress: ProgressLine,
    report: &mut Reporter,
) -> io::Result<u8> {
    if options.session.names.is_empty() {
        return run_package(rt, options, progress, report);
    }
    run_files(rt, &options.session, &options.output, progress, report)
}

// Whether `NO_COLOR` is set to a text that isn't empty.
fn is_colourless<R: Env + AllocGlobal>(rt: &R) -> bool {
    match env::var(rt, "NO_COLOR") {
        Ok(value) => !value.is_empty(),
        Err(_) => false,
    }
}

// Chooses the form of a run's diagnostics. It is JSON if that is asked for; else rustc's style in
// a terminal, and where calls are explained or definitions are linted. `is_brief` limits the lines
// of each diagnostic. `None` is the short form: `FILE:LINE:COL: LEVEL: MESSAGE`, the line and a
// caret.
fn choose_format(
    is_json: bool,
    is_brief: bool,
    is_explained: bool,
    is_terminal: bool,
    is_colourless: bool,
) -> Option<MessageFormat>
    ensures { result ≡ format_for is_json is_brief is_explained is_terminal is_colourless }
{
    match (is_json, is_terminal) {
        (true, _) => Some(MessageFormat::Json),
        (false, _) if is_brief => {
            let is_coloured = is_terminal && !is_colourless;
            Some(MessageFormat::Brief { is_coloured })
        }
        (false, true) if is_colourless => Some(MessageFormat::Text),
        (false, true) => Some(MessageFormat::Colours),
        (false, false) if is_explained => Some(MessageFormat::Text),
        (false, false) => None,
    }
}

// Notes that a package isn't compiled for release.
fn note_release<R: Eprint + AllocGlobal>(rt: &R, form: Option<MessageFormat>) -> io::Result<()> {
    let message = "with `--release`, `debug_assertions` stays set";
    let text = note_text(rt.alloc(), form, message)?;
    eprint!(rt; "{text}")
}

// Plans the packages of the run, and runs each plan. Returns the worst status.
fn run_package<R: Env + Files + Input + Print + Eprint + AllocGlobal + Clone + Drop>(
    rt: &R,
    options: &RunOptions<'_>,
    progress: ProgressLine,
    report: &mut Reporter,
) -> io::Result<u8> {
    let output = &options.output;
    let plans = match plan_packages(rt, &options.session, &options.package)? {
        Ok(plans) => plans,
        Err(message) => return fail(rt, report.form, message.as_str()),
    };
    if plans.len() > 1 && output.calls.page.is_some() {
        return fail(
            rt,
            report.form,
            "`--html` shows one target, and several are chosen",
        );
    }
    if output.is_release {
        note_release(rt, report.form)?;
    }
    run_plans(
        rt,
        plans.as_slice(),
        &options.session,
        output,
        progress,
        report,
    )
}

// Runs each of these plans. Returns the worst status.
fn run_plans<'w, R: Files + Input + Print + Eprint + AllocGlobal>(
    rt: &R,
    plans: &'w [PackagePlan],
    given: &SessionOptions<'w>,
    output: &RunOutput<'_>,
    progress: ProgressLine,
    report: &mut Reporter,
) -> io::Result<u8> {
    let mut worst = EXIT_OK;
    for (number, plan) in plans.iter().enumerate() {
        if plans.len() > 1 && output.has_headings() {
            print_heading(rt, plan, number)?;
        }
        let status = run_plan(rt, plan, given, output, progress, report)?;
        worst = worst.max(status);
    }
    Ok(worst)
}

// Prints the root file of one plan of several, in a comment, with an empty line before all but the
// first.
fn print_heading<R: Print + AllocGlobal>(
    rt: &R,
    plan: &PackagePlan,
    number: usize,
) -> io::Result<()> {
    if number > 0 {
        println!(rt; "")?;
    }
    let root = plan.root();
    println!(rt; "// {root}")
}

// Expands the crate of a planned package, or prints the plan.
fn run_plan<'w, R: Files + Input + Print + Eprint + AllocGlobal>(
    rt: &R,
    plan: &'w PackagePlan,
    given: &SessionOptions<'w>,
    output: &RunOutput<'_>,
    progress: ProgressLine,
    report: &mut Reporter,
) -> io::Result<u8> {
    if output.is_plan {
        emit_notes(rt, report.form, &plan.notes)?;
        let text = plan.text(rt.alloc())?;
        print!(rt; "{text}")?;
        return Ok(EXIT_OK);
    }
    let Some((options, notes)) = plan.options(rt.alloc(), given)? else {
        return fail(rt, report.form, "the edition of the package isn't known");
    };
    emit_notes(rt, report.form, &plan.notes)?;
    emit_notes(rt, report.form, &notes)?;
    let Some(folder) = &output.folder else {
        return run_files(rt, &options, output, progress, report);
    };
    let path = joined(rt.alloc(), folder.path, plan.root_folder())?;
    let output = output.with_folder(rt.alloc(), path.as_str(), folder.is_forced)?;
    run_files(rt, &options, &output, progress, report)
}

// Returns the path of a folder in a folder.
fn joined(alloc: Global, folder: &str, inner: &str) -> Result<String, AllocError> {
    if folder.is_empty() || inner.is_empty() {
        return String::from_str(alloc, folder);
    }
    format!(in alloc; "{folder}/{inner}")
}

// Reads the files, and runs on them.
fn run_files<R: Files + Input + Print + Eprint + AllocGlobal>(
    rt: &R,
    options: &SessionOptions<'_>,
    output: &RunOutput<'_>,
    progress: ProgressLine,
    report: &mut Reporter,
) -> io::Result<u8> {
    let mut reader = match FileReader::new(rt, &output.roots)? {
        Ok(reader) => reader,
        Err(message) => return fail(rt, report.form, message.as_str()),
    };
    match read_files(rt, options, output, progress, &mut reader)? {
        Some(message) => fail(rt, report.form, message.as_str()),
        None => run_reader(rt, options, output, progress, report, &reader),
    }
}

// Runs on the files that the reader has, unless the log would overwrite one of them.
fn run_reader<R: Files + Print + Eprint + AllocGlobal>(
    rt: &R,
    options: &SessionOptions<'_>,
    output: &RunOutput<'_>,
    progress: ProgressLine,
    report: &mut Reporter,
    reader: &FileReader,
) -> io::Result<u8> {
    if let Some(message) = log_conflict(rt, output.log, reader.files.texts.as_slice())? {
        return fail(rt, report.form, message.as_str());
    }
    emit_notes(rt, report.form, &reader.notes)?;
    emit_file_notes(rt, options, report.form, &reader.files)?;
    write_output(rt, options, output, report, progress, &reader.files)
}

// Writes the notes on files whose edition isn't known, and on files that aren't searched.
fn emit_file_notes<R: Eprint + AllocGlobal>(
    rt: &R,
    options: &SessionOptions<'_>,
    form: Option<MessageFormat>,
    files: &FileSet,
) -> io::Result<()> {
    let notes = edition_notes(rt.alloc(), options, files)?;
    emit_notes(rt, form, &notes)?;
    let notes = limit_notes(rt.alloc(), files)?;
    emit_notes(rt, form, &notes)
}
