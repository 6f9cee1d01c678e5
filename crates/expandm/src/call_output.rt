// What a run shows of each call, in place of an expansion: data, frames for a terminal, or pages.
// The calls of each rule are counted here too.
use crate::reporter::{CoverageForm, Reporter};
use crate::reports::{fail, finish, finish_with};
use mbe_files::file_writer::write_texts;
use mbe_files::page_file::{is_folder, write_page};
use mbe_files::write_conflicts::{OutputFolder, OutputPlan, page_plan};
use mbe_page::frames::frames_text;
use mbe_page::page::page_text;
use mbe_page::pages::page_texts;
use mbe_page::trace::trace_text;
use mbe_session::file_expander::call_steps::CallStep;
use mbe_session::file_set::FileSet;
use mbe_session::locations::CallPosition;
use mbe_session::session::Session;
use mbe_session::session_options::SessionOptions;
use std::alloc::{AllocError, Global};
use std::io;
use std::rt::Files;

/// What is shown of each call: nothing, if no field is set.
#[derive(Clone, Copy, Drop)]
pub struct CallOutput<'w> {
    /// Whether data on each call is printed.
    pub is_data: bool,
    /// The position of the calls whose steps are printed.
    pub step: Option<CallPosition>,
    /// Whether these steps are printed in colours.
    pub is_coloured: bool,
    /// The form in which the coverage of rules is printed, at the end of the run.
    pub coverage: Option<CoverageForm>,
    /// The page that is written, or the folder of pages. `-` is standard output.
    pub page: Option<&'w str>,
}

impl CallOutput<'_> {
    /// Whether anything is shown.
    pub fn is_shown(&self) -> bool {
        self.is_data || self.step.is_some() || self.coverage.is_some() || self.page.is_some()
    }
}

// The files of a run, and the options of its session.
#[derive(Clone, Copy, Drop)]
struct RunInput<'i, 'w> {
    options: &'i SessionOptions<'w>,
    files: &'i FileSet,
}

// A session whose calls are expanded, and its steps.
#[derive(Clone, Copy, Drop)]
struct ExpandedSession<'e, 'f> {
    session: &'e Session<'f>,
    steps: &'e [CallStep],
}

/// Expands the calls step by step, and shows the steps. Returns the exit status. If pages can't be
/// written into their folder, no call is expanded.
pub fn show_calls<R: Files + Print + Eprint + AllocGlobal>(
    rt: &R,
    options: &SessionOptions<'_>,
    output: CallOutput<'_>,
    report: &mut Reporter,
    files: &FileSet,
) -> io::Result<u8> {
    let input = RunInput { options, files };
    match output.page {
        Some(path) if is_folder(path) => show_planned(rt, input, output, report, path),
        Some(_) | None => show_session(rt, input, output, report, None),
    }
}

// Plans the pages in a folder, and shows the calls.
fn show_planned<R: Files + Print + Eprint + AllocGlobal>(
    rt: &R,
    input: RunInput<'_, '_>,
    output: CallOutput<'_>,
    report: &mut Reporter,
    path: &str,
) -> io::Result<u8> {
    let folder = OutputFolder {
        path,
        is_forced: false,
        option: "--html",
    };
    match page_plan(rt, input.files, folder, input.options.names.len())? {
        Ok(plan) => show_session(rt, input, output, report, Some(&plan)),
        Err(message) => fail(rt, report.form, message.as_str()),
    }
}

// Opens a session, and shows its calls.
fn show_session<R: Files + Print + Eprint + AllocGlobal>(
    rt: &R,
    input: RunInput<'_, '_>,
    output: CallOutput<'_>,
    report: &mut Reporter,
    plan: Option<&OutputPlan>,
) -> io::Result<u8> {
    let RunInput { options, files } = input;
    let texts = files.texts.as_slice();
    let mut session = Session::open(rt.alloc(), options, &files.roots, texts)?;
    expand_steps(rt, input, output, report, plan, &mut session)
}

// Expands the calls of a session, and shows them.
fn expand_steps<R: Files + Print + Eprint + AllocGlobal>(
    rt: &R,
    input: RunInput<'_, '_>,
    output: CallOutput<'_>,
    report: &mut Reporter,
    plan: Option<&OutputPlan>,
    session: &mut Session<'_>,
) -> io::Result<u8> {
    let steps = session.call_steps(rt.alloc(), input.options)?;
    let expanded = ExpandedSession {
        session: &*session,
        steps: steps.as_slice(),
    };
    show_expanded(rt, input, output, report, plan, expanded)
}

// Counts the calls that each rule expands, or shows the steps, and ends the run.
fn show_expanded<R: Files + Print + Eprint + AllocGlobal>(
    rt: &R,
    input: RunInput<'_, '_>,
    output: CallOutput<'_>,
    report: &mut Reporter,
    plan: Option<&OutputPlan>,
    expanded: ExpandedSession<'_, '_>,
) -> io::Result<u8> {
    if output.coverage.is_some() {
        add_coverage(rt.alloc(), input, report, expanded)?;
        return finish(rt, report, expanded.session, true);
    }
    let message = show_steps(rt, input, output, plan, expanded)?;
    finish_with(rt, report, expanded.session, &message)
}

// Counts the calls that each rule expands. The counts are printed at the end of the run.
fn add_coverage(
    alloc: Global,
    input: RunInput<'_, '_>,
    report: &mut Reporter,
    expanded: ExpandedSession<'_, '_>,
) -> Result<(), AllocError> {
    let (coverage, ExpandedSession { session, steps }) = (&mut report.coverage, expanded);
    coverage.add_session(alloc, input.options, input.files, session, steps)
}

// Prints or writes what is asked for. Returns the message of what can't be written.
fn show_steps<R: Files + Print + AllocGlobal>(
    rt: &R,
    input: RunInput<'_, '_>,
    output: CallOutput<'_>,
    plan: Option<&OutputPlan>,
    expanded: ExpandedSession<'_, '_>,
) -> io::Result<Option<String>> {
    match (output.step, output.page, plan) {
        (Some(position), _, _) => print_frames(rt, input, expanded, position, output.is_coloured),
        (None, None, _) => print_data(rt, input, expanded),
        (None, Some(path), Some(plan)) => write_pages(rt, input, expanded, path, plan),
        (None, Some(path), None) => write_one_page(rt, input, expanded, path),
    }
}

// Prints data on each call.
fn print_data<R: Print + AllocGlobal>(
    rt: &R,
    input: RunInput<'_, '_>,
    expanded: ExpandedSession<'_, '_>,
) -> io::Result<Option<String>> {
    let ExpandedSession { session, steps } = expanded;
    let text = trace_text(rt.alloc(), input.options, session, steps)?;
    print!(rt; "{text}")?;
    Ok(None)
}

// Prints the steps of the calls at a position of the last file.
fn print_frames<R: Print + AllocGlobal>(
    rt: &R,
    input: RunInput<'_, '_>,
    expanded: ExpandedSession<'_, '_>,
    position: CallPosition,
    is_coloured: bool,
) -> io::Result<Option<String>> {
    let ExpandedSession { session, steps } = expanded;
    let number = input.options.names.len().saturating_sub(1);
    let text = frames_text(
        rt.alloc(),
        input.options,
        session,
        steps,
        number,
        position,
        is_coloured,
    )?;
    print!(rt; "{text}")?;
    Ok(None)
}

// Writes the page of the last file that the arguments name.
fn write_one_page<R: Files + Print + AllocGlobal>(
    rt: &R,
    input: RunInput<'_, '_>,
    expanded: ExpandedSession<'_, '_>,
    path: &str,
) -> io::Result<Option<String>> {
    let ExpandedSession { session, steps } = expanded;
    let number = input.options.names.len().saturating_sub(1);
    match page_text(rt.alloc(), input.options, session, steps, number)? {
        Some(page) => put_page(rt, input.files, path, page.as_str()),
        None => Ok(None),
    }
}

// Writes a page to the file of that path, or to standard output for `-`. Returns the message of a
// file that can't be written.
fn put_page<R: Files + Print + AllocGlobal>(
    rt: &R,
    files: &FileSet,
    path: &str,
    page: &str,
) -> io::Result<Option<String>> {
    if path != "-" {
        return write_page(rt, path, page, files.texts.as_slice());
    }
    print!(rt; "{page}")?;
    Ok(None)
}

// Writes a page for each file to its path in a folder, and the page that lists them.
fn write_pages<R: Files + AllocGlobal>(
    rt: &R,
    input: RunInput<'_, '_>,
    expanded: ExpandedSession<'_, '_>,
    path: &str,
    plan: &OutputPlan,
) -> io::Result<Option<String>> {
    let ExpandedSession { session, steps } = expanded;
    let targets = plan.targets.as_slice();
    let pages = page_texts(rt.alloc(), input.options, session, steps, targets)?;
    write_texts(rt, path, plan, pages.as_slice())
}
