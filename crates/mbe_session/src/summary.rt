// The line that ends a run: how many errors and warnings it has, and how many calls are expanded.
use crate::call_counts::CallCounts;
use crate::emitter::MessageFormat;
use crate::notes::{Level, Note};
use mbe_diagnostics::diagnostic;
use mbe_diagnostics::lints::lint::Lint;
use std::alloc::{AllocError, Global};

/// How many errors and warnings a run reports. Each stops at the largest `usize`.
#[derive(Clone, Copy, Drop)]
pub(crate) struct ReportCounts {
    errors: usize,
    warnings: usize,
}

impl ReportCounts {
    /// Nothing was reported yet.
    pub(crate) fn new() -> ReportCounts {
        ReportCounts {
            errors: 0,
            warnings: 0,
        }
    }

    /// Counts the errors among the notes.
    pub(crate) fn add_notes(&mut self, notes: &[Note]) {
        for note in notes {
            if matches!(note.level, Level::Error) {
                self.errors = self.errors.saturating_add(1);
            }
        }
    }

    /// Counts the errors and the warnings among the lints.
    pub(crate) fn add_lints(&mut self, lints: &[Lint]) {
        for lint in lints {
            match lint.level {
                diagnostic::Level::Error => {
                    self.errors = self.errors.saturating_add(1);
                }
                diagnostic::Level::Warning => {
                    self.warnings = self.warnings.saturating_add(1);
                }
                diagnostic::Level::Note | diagnostic::Level::Help => {}
            }
        }
    }
}

// Appends a number of things, such as `2 errors`, after that separator. Nothing is appended for 0.
fn add_count(
    alloc: Global,
    text: &mut String,
    separator: &str,
    count: usize,
    noun: &str,
) -> Result<(), AllocError> {
    if count == 0 {
        return Ok(());
    }
    let before = if text.is_empty() { "" } else { separator };
    let plural = if count == 1 { "" } else { "s" };
    let part = format!(in alloc; "{before}{count} {noun}{plural}")?;
    text.push_str(part.as_str())
}

// Appends how many calls are expanded, and how many are of unknown macros.
fn add_calls(alloc: Global, text: &mut String, counts: CallCounts) -> Result<(), AllocError> {
    let CallCounts {
        calls,
        expanded,
        unknown,
    } = counts;
    if calls > 0 {
        let plural = if calls == 1 { "" } else { "s" };
        let part = format!(in alloc; "; {expanded} of {calls} call{plural} expanded")?;
        text.push_str(part.as_str())?;
    }
    match unknown {
        0 => Ok(()),
        1 => text.push_str("; 1 call of an unknown macro"),
        _ => {
            let part = format!(in alloc; "; {unknown} calls of unknown macros")?;
            text.push_str(part.as_str())
        }
    }
}

/// Returns the line that ends a run, such as
/// `2 errors, 1 warning; 41 of 44 calls expanded; 2 calls of unknown macros`. A run that expands
/// nothing has no counts of calls. The text is empty if there is no error and no warning, and in
/// JSON. `AllocError` if out of memory.
pub(crate) fn summary_line(
    alloc: Global,
    form: Option<MessageFormat>,
    reports: ReportCounts,
    calls: Option<CallCounts>,
) -> Result<String, AllocError> {
    let mut text = String::new(alloc);
    if matches!(form, Some(MessageFormat::Json)) {
        return Ok(text);
    }
    add_count(alloc, &mut text, "", reports.errors, "error")?;
    add_count(alloc, &mut text, ", ", reports.warnings, "warning")?;
    if text.is_empty() {
        return Ok(text);
    }
    if let Some(counts) = calls {
        add_calls(alloc, &mut text, counts)?;
    }
    text.push_str("\n")?;
    Ok(text)
}
