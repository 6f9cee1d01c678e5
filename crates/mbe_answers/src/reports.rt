// Messages as diagnostics of the protocol.
//
// A child is information that is related to the last message before it that is none.
use crate::findings::{Extent, Finding, Findings, Severity};
use crate::shapes::{Writer, range};
use mbe_protocol::positions::LineTable;
use serde_json::{Value, json};
use std::alloc::{AllocError, Global};

// The number of a severity in the protocol.
fn number_of(severity: Severity) -> u64 {
    match severity {
        Severity::Error => 1,
        Severity::Warning => 2,
        Severity::Note => 3,
        Severity::Help => 4,
    }
}

// Whether a message is on code that has no use.
fn is_unnecessary(finding: &Finding) -> bool {
    let text = finding.message.as_str();
    text.starts_with("unused macro variable") || text.starts_with("unreachable rule")
}

/// Whether two messages have the same text and the same extent.
pub(crate) fn is_same(one: &Finding, other: &Finding) -> bool {
    one.file == other.file
        && one.extent.start == other.extent.start
        && one.extent.end == other.extent.end
        && one.message.as_str() == other.message.as_str()
}

/// The messages of a session, and how they are written.
#[derive(Clone, Copy, Drop)]
pub struct Report<'a> {
    pub writer: Writer<'a>,
    pub found: &'a Findings,
}

// The file whose diagnostics are written: its number, and its lines.
#[derive(Drop)]
struct ReportedFile<'a> {
    number: usize,
    lines: LineTable<'a>,
}

impl Report<'_> {
    // Returns where a message is, in the file that is reported or in another one.
    fn location(
        self,
        reported: &ReportedFile<'_>,
        file: usize,
        extent: Extent,
    ) -> Result<Value, AllocError> {
        if file != reported.number {
            return self.writer.location(self.found, file, extent);
        }
        let uri = self.writer.uri(self.found, file)?;
        let at = range(self.writer.alloc, &reported.lines, extent)?;
        json!(in self.writer.alloc; {"uri": uri, "range": at})
    }

    // Returns the related information of a message; `None` if it is on no file.
    fn information(
        self,
        reported: &ReportedFile<'_>,
        finding: &Finding,
    ) -> Result<Option<Value>, AllocError> {
        let Some(file) = finding.file else {
            return Ok(None);
        };
        let at = self.location(reported, file, finding.extent)?;
        let message = finding.message.as_str();
        Ok(Some(json!(in self.writer.alloc; {"location": at, "message": message})?))
    }

    // Returns the related information of the children at the front of these messages.
    fn related(
        self,
        reported: &ReportedFile<'_>,
        rest: &[Finding],
    ) -> Result<Vec<Value>, AllocError> {
        let mut related = Vec::new(self.writer.alloc);
        for finding in rest {
            if !finding.is_child {
                break;
            }
            if let Some(information) = self.information(reported, finding)? {
                related.push(information)?;
            }
        }
        Ok(related)
    }

    // Returns the diagnostic of a message, with its related information.
    fn diagnostic(
        self,
        reported: &ReportedFile<'_>,
        finding: &Finding,
        related: Vec<Value>,
    ) -> Result<Value, AllocError> {
        let at = range(self.writer.alloc, &reported.lines, finding.extent)?;
        let severity = number_of(finding.severity);
        let message = finding.message.as_str();
        let tags = if is_unnecessary(finding) {
            json!(in self.writer.alloc; [1])?
        } else {
            json!(in self.writer.alloc; [])?
        };
        let related = Value::Array(related);
        json!(in self.writer.alloc; {
            "range": at,
            "severity": severity,
            "source": "mbe",
            "message": message,
            "tags": tags,
            "relatedInformation": related
        })
    }

    // Adds the diagnostics of messages on the file, except those that `known` has. A child without
    // a message before it has a diagnostic of its own.
    fn add_all(
        self,
        reported: &ReportedFile<'_>,
        findings: &[Finding],
        known: &[Finding],
        diagnostics: &mut Vec<Value>,
    ) -> Result<(), AllocError> {
        for (at, finding) in findings.iter().enumerate() {
            let is_first = at == 0 || !finding.is_child;
            let is_here = finding.file == Some(reported.number);
            if is_here && is_first && !known.iter().any(|other| is_same(other, finding)) {
                let rest = findings.get(at.saturating_add(1)..).unwrap_or(&[]);
                let related = self.related(reported, rest)?;
                diagnostics.push(self.diagnostic(reported, finding, related)?)?;
            }
        }
        Ok(())
    }

    /// Returns the diagnostics of file `number`. They are the lints, and then the notes of the
    /// session, except notes that a lint repeats. `AllocError` if out of memory.
    pub fn diagnostics(self, number: usize) -> Result<Value, AllocError> {
        let writer = self.writer;
        let lines = LineTable::of(writer.alloc, self.found.text(number), writer.encoding)?;
        let reported = ReportedFile { number, lines };
        let (lints, notes) = (self.found.lints.as_slice(), self.found.notes.as_slice());
        let mut found = Vec::new(writer.alloc);
        self.add_all(&reported, lints, &[], &mut found)?;
        self.add_all(&reported, notes, lints, &mut found)?;
        Ok(Value::Array(found))
    }
}
