// What a run collects of its targets and writes at its end: the coverage of rules, and a log of
// diagnostics in SARIF.
use crate::command_line::{RunOutput, VERSION};
use crate::reports::{EXIT_FAILED, fail};
use mbe_files::page_file::{input_conflict, write_text};
use mbe_reports::coverage::Coverage;
use mbe_reports::coverage_json::coverage_json;
use mbe_reports::coverage_text::coverage_text;
use mbe_reports::lcov::lcov_text;
use mbe_reports::sarif::SarifLog;
use mbe_session::emitter::MessageFormat;
use mbe_session::linted_files::LintedFiles;
use mbe_session::session::{NamedText, Session};
use std::alloc::{AllocError, Global};
use std::io;
use std::rt::Files;

/// The form in which coverage is printed.
#[derive(Clone, Copy, Drop)]
pub enum CoverageForm {
    Text,
    Json,
    Lcov,
}

impl CoverageForm {
    /// Returns the form of that name; `None` for any other text.
    pub fn named(name: &str) -> Option<CoverageForm> {
        match name {
            "text" => Some(CoverageForm::Text),
            "json" => Some(CoverageForm::Json),
            "lcov" => Some(CoverageForm::Lcov),
            _ => None,
        }
    }

    // Returns the coverage in this form.
    fn text_of(self, alloc: Global, coverage: &Coverage) -> Result<String, AllocError> {
        match self {
            CoverageForm::Text => coverage_text(alloc, coverage),
            CoverageForm::Json => coverage_json(alloc, coverage),
            CoverageForm::Lcov => lcov_text(alloc, coverage),
        }
    }
}

/// The form of a run's diagnostics, and what the run collects of its targets.
#[derive(Drop)]
pub struct Reporter {
    pub form: Option<MessageFormat>,
    pub coverage: Coverage,
    /// The log of `--sarif`.
    log: Option<SarifLog>,
}

impl Reporter {
    /// Returns a reporter that has collected nothing. `is_logged` says whether there is a log.
    pub fn new(alloc: Global, form: Option<MessageFormat>, is_logged: bool) -> Reporter {
        let log = if is_logged {
            Some(SarifLog::new(alloc))
        } else {
            None
        };
        Reporter {
            form,
            coverage: Coverage::new(alloc),
            log,
        }
    }

    /// Adds the diagnostics of a session to the log, if there is one.
    pub fn add_session(&mut self, alloc: Global, session: &Session<'_>) -> Result<(), AllocError> {
        match &mut self.log {
            Some(log) => log.add_session(alloc, session),
            None => Ok(()),
        }
    }

    /// Adds the diagnostics of files that are linted to the log, if there is one.
    pub fn add_lints(&mut self, alloc: Global, linted: &LintedFiles<'_>) -> Result<(), AllocError> {
        match &mut self.log {
            Some(log) => log.add_lints(alloc, linted),
            None => Ok(()),
        }
    }
}

/// Returns the text of an error if the log would overwrite one of the inputs `texts`.
pub fn log_conflict<R: Files + AllocGlobal>(
    rt: &R,
    path: Option<&str>,
    texts: &[NamedText],
) -> io::Result<Option<String>> {
    match path {
        Some(path) if path != "-" => input_conflict(rt, "--sarif", path, texts),
        Some(_) | None => Ok(None),
    }
}

// Prints the coverage in that form, if there is one.
fn print_coverage<R: Print + AllocGlobal>(
    rt: &R,
    form: Option<CoverageForm>,
    coverage: &Coverage,
) -> io::Result<()> {
    let Some(form) = form else {
        return Ok(());
    };
    let text = form.text_of(rt.alloc(), coverage)?;
    print!(rt; "{text}")
}

// Writes the log to the file of that path, or to standard output for `-`. Returns the message of a
// file that can't be written.
fn write_log<R: Files + Print + AllocGlobal>(
    rt: &R,
    path: &str,
    log: &SarifLog,
) -> io::Result<Option<String>> {
    let text = log.text(rt.alloc(), VERSION)?;
    if path != "-" {
        return write_text(rt, path, text.as_str());
    }
    print!(rt; "{text}")?;
    Ok(None)
}

// Writes the log, if there is one. Returns the message of a file that can't be written.
fn write_known_log<R: Files + Print + AllocGlobal>(
    rt: &R,
    path: Option<&str>,
    log: Option<&SarifLog>,
) -> io::Result<Option<String>> {
    match (path, log) {
        (Some(path), Some(log)) => write_log(rt, path, log),
        (None, _) | (Some(_), None) => Ok(None),
    }
}

/// Writes what the run collected, unless a target failed. `status` is the status of the targets.
/// Returns the exit status of the run.
pub fn write_collected<R: Files + Print + Eprint + AllocGlobal>(
    rt: &R,
    output: &RunOutput<'_>,
    report: &Reporter,
    status: u8,
) -> io::Result<u8> {
    if status == EXIT_FAILED {
        return Ok(status);
    }
    print_coverage(rt, output.calls.coverage, &report.coverage)?;
    match write_known_log(rt, output.log, report.log.as_ref())? {
        Some(message) => fail(rt, report.form, message.as_str()),
        None => Ok(status),
    }
}
