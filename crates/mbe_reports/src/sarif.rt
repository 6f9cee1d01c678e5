// A log of diagnostics in SARIF 2.1.0, the format that code hosts read.
//
// An error, a warning or a note is a result. Its children are its related locations.
use crate::messages::{Message, count_children, push_lints, push_notes};
use crate::regions::{Place, Region, region_of, uri_of};
use mbe_diagnostics::diagnostic::Level;
use mbe_diagnostics::message_kinds::{KINDS, MessageKind, kind_of};
use mbe_markup::json::{Json, Piece};
use mbe_session::linted_files::LintedFiles;
use mbe_session::session::Session;
use mbe_session::source_files::SourceFile;
use std::alloc::{AllocError, Global};
use std::collections::BTreeSet;

const SCHEMA: &str = "https://json.schemastore.org/sarif-2.1.0.json";

/// The results of the sessions of a run, each once.
#[derive(Drop)]
pub struct SarifLog {
    // The JSON of the results, with commas between them.
    results: String,
    // The JSON of each result.
    known: BTreeSet<String>,
}

// ---- locations

// Writes the start or the end of a region.
fn write_region_place(
    alloc: Global,
    json: &mut Json,
    lines: &'static str,
    columns: &'static str,
    place: Place,
) -> Result<(), AllocError> {
    json.write(
        alloc,
        &[
            Piece::Mark(lines),
            Piece::Number(place.line),
            Piece::Mark(columns),
            Piece::Number(place.column),
        ],
    )
}

// Writes a region.
fn write_region(alloc: Global, json: &mut Json, region: Region) -> Result<(), AllocError> {
    let Region { start, end } = region;
    write_region_place(alloc, json, "{\"startLine\":", ",\"startColumn\":", start)?;
    write_region_place(alloc, json, ",\"endLine\":", ",\"endColumn\":", end)?;
    json.write(alloc, &[Piece::Mark("}")])
}

// Writes the URI of a file.
fn write_uri(alloc: Global, json: &mut Json, name: &str) -> Result<(), AllocError> {
    let uri = uri_of(alloc, name)?;
    json.write(alloc, &[Piece::Text(uri.as_str())])
}

// Writes the file and the region of a message.
fn write_physical(
    alloc: Global,
    json: &mut Json,
    file: &SourceFile<'_>,
    message: Message<'_>,
) -> Result<(), AllocError> {
    json.write(
        alloc,
        &[Piece::Mark("{\"physicalLocation\":{\"artifactLocation\":{\"uri\":")],
    )?;
    write_uri(alloc, json, file.name)?;
    json.write(alloc, &[Piece::Mark("},\"region\":")])?;
    write_region(alloc, json, region_of(file, message.span))?;
    json.write(alloc, &[Piece::Mark("}")])
}

// Writes the text of a message.
fn write_message(alloc: Global, json: &mut Json, text: &str) -> Result<(), AllocError> {
    json.write(alloc, &[Piece::Mark(",\"message\":{\"text\":")])?;
    json.write(alloc, &[Piece::Text(text)])?;
    json.write(alloc, &[Piece::Mark("}")])
}

// Writes the location of a result. There is none if it belongs to no file.
fn write_location(
    alloc: Global,
    json: &mut Json,
    files: &[SourceFile<'_>],
    message: Message<'_>,
) -> Result<(), AllocError> {
    match files.get(message.span.file as usize) {
        Some(file) => {
            write_physical(alloc, json, file, message)?;
            json.write(alloc, &[Piece::Mark("}")])
        }
        None => Ok(()),
    }
}

// Writes the related location of that index, with its message.
fn write_related(
    alloc: Global,
    json: &mut Json,
    index: usize,
    file: &SourceFile<'_>,
    message: Message<'_>,
) -> Result<(), AllocError> {
    json.write(alloc, &[Piece::Mark(if index == 0 { "" } else { "," })])?;
    write_physical(alloc, json, file, message)?;
    write_message(alloc, json, message.text)?;
    json.write(alloc, &[Piece::Mark("}")])
}

// Writes the related locations of a result.
fn write_children(
    alloc: Global,
    json: &mut Json,
    files: &[SourceFile<'_>],
    children: &[Message<'_>],
) -> Result<(), AllocError> {
    let mut index = 0usize;
    for message in children {
        if let Some(file) = files.get(message.span.file as usize) {
            write_related(alloc, json, index, file, *message)?;
            index = index.saturating_add(1);
        }
    }
    Ok(())
}

// ---- results

// Writes the kind and the level of a result.
fn write_kind(
    alloc: Global,
    json: &mut Json,
    id: &'static str,
    level: &'static str,
) -> Result<(), AllocError> {
    json.write(
        alloc,
        &[
            Piece::Mark("{\"ruleId\":"),
            Piece::Text(id),
            Piece::Mark(",\"level\":"),
            Piece::Text(level),
        ],
    )
}

// Returns the name that a SARIF log has for a level.
fn level_name(level: Level) -> &'static str {
    match level {
        Level::Error => "error",
        Level::Warning => "warning",
        Level::Note | Level::Help => "note",
    }
}

// Writes a result.
fn write_result(
    alloc: Global,
    json: &mut Json,
    files: &[SourceFile<'_>],
    lead: Message<'_>,
    children: &[Message<'_>],
) -> Result<(), AllocError> {
    let (id, level) = (kind_of(lead.level, lead.text), level_name(lead.level));
    write_kind(alloc, json, id, level)?;
    write_message(alloc, json, lead.text)?;
    json.write(alloc, &[Piece::Mark(",\"locations\":[")])?;
    write_location(alloc, json, files, lead)?;
    json.write(alloc, &[Piece::Mark("],\"relatedLocations\":[")])?;
    write_children(alloc, json, files, children)?;
    json.write(alloc, &[Piece::Mark("]}")])
}

// Returns a result.
fn result_text(
    alloc: Global,
    files: &[SourceFile<'_>],
    lead: Message<'_>,
    children: &[Message<'_>],
) -> Result<String, AllocError> {
    let mut json = Json::new(alloc);
    write_result(alloc, &mut json, files, lead, children)?;
    Ok(json.into_text())
}

// ---- the log

// Writes what messages of a kind say. Code hosts ask for a short text, a full one, and a help.
fn write_about(alloc: Global, json: &mut Json, about: &'static str) -> Result<(), AllocError> {
    json.write(
        alloc,
        &[
            Piece::Mark(",\"shortDescription\":{\"text\":"),
            Piece::Text(about),
            Piece::Mark("},\"fullDescription\":{\"text\":"),
            Piece::Text(about),
            Piece::Mark("},\"help\":{\"text\":"),
            Piece::Text(about),
            Piece::Mark("}"),
        ],
    )
}

// Writes the kind of that index.
fn write_rule(
    alloc: Global,
    json: &mut Json,
    index: usize,
    kind: &'static MessageKind,
) -> Result<(), AllocError> {
    json.write(
        alloc,
        &[
            Piece::Mark(if index == 0 { "" } else { ",\n" }),
            Piece::Mark("{\"id\":"),
            Piece::Text(kind.id),
        ],
    )?;
    write_about(alloc, json, kind.about)?;
    write_level(alloc, json, kind.level)
}

// Writes the level that messages of a kind usually have.
fn write_level(alloc: Global, json: &mut Json, level: &'static str) -> Result<(), AllocError> {
    json.write(
        alloc,
        &[
            Piece::Mark(",\"defaultConfiguration\":{\"level\":"),
            Piece::Text(level),
            Piece::Mark("}}"),
        ],
    )
}

// Writes all kinds of messages.
fn write_rules(alloc: Global, json: &mut Json) -> Result<(), AllocError> {
    for (index, kind) in KINDS.iter().enumerate() {
        write_rule(alloc, json, index, kind)?;
    }
    Ok(())
}

// Writes what stands before the results: the format, and the program with the kinds of messages.
fn write_front(alloc: Global, json: &mut Json, version: &str) -> Result<(), AllocError> {
    json.write(
        alloc,
        &[
            Piece::Mark("{\"$schema\":"),
            Piece::Text(SCHEMA),
            Piece::Mark(",\"version\":\"2.1.0\",\"runs\":[{\"tool\":{\"driver\":"),
            Piece::Mark("{\"name\":\"expandm\",\"version\":"),
        ],
    )?;
    json.write(alloc, &[Piece::Text(version)])?;
    json.write(alloc, &[Piece::Mark(",\"rules\":[\n")])?;
    write_rules(alloc, json)?;
    json.write(
        alloc,
        &[Piece::Mark("]}},\"columnKind\":\"utf16CodeUnits\",\"results\":[\n")],
    )
}

impl SarifLog {
    /// Returns a log without results.
    pub fn new(alloc: Global) -> SarifLog {
        SarifLog {
            results: String::new(alloc),
            known: BTreeSet::new(alloc),
        }
    }

    // Adds the JSON of a result, unless it is there.
    fn push(&mut self, alloc: Global, text: &str) -> Result<(), AllocError> {
        if !self.known.insert(String::from_str(alloc, text)?)? {
            return Ok(());
        }
        let separator = if self.results.is_empty() { "" } else { ",\n" };
        self.results.push_str(separator)?;
        self.results.push_str(text)
    }

    // Adds the result of a message and of its children.
    fn add(
        &mut self,
        alloc: Global,
        files: &[SourceFile<'_>],
        lead: Message<'_>,
        children: &[Message<'_>],
    ) -> Result<(), AllocError> {
        let text = result_text(alloc, files, lead, children)?;
        self.push(alloc, text.as_str())
    }

    // Adds the results of messages.
    fn add_all(
        &mut self,
        alloc: Global,
        files: &[SourceFile<'_>],
        messages: &[Message<'_>],
    ) -> Result<(), AllocError> {
        let mut at = 0usize;
        for _ in 0..messages.len() {
            at = self.add_next(alloc, files, messages, at)?;
        }
        Ok(())
    }

    // Adds the result of the message of that index and of its children. Returns the index after
    // them.
    fn add_next(
        &mut self,
        alloc: Global,
        files: &[SourceFile<'_>],
        messages: &[Message<'_>],
        at: usize,
    ) -> Result<usize, AllocError> {
        let (_, rest) = messages.split_at(at.min(messages.len()));
        let [lead, after @ ..] = rest else {
            return Ok(at);
        };
        let count = count_children(after).min(after.len());
        let (children, _) = after.split_at(count);
        self.add(alloc, files, *lead, children)?;
        Ok(at.saturating_add(1).saturating_add(count))
    }

    /// Adds the diagnostics of a session, on files, definitions and calls. `AllocError` if out of
    /// memory.
    pub fn add_session(&mut self, alloc: Global, session: &Session<'_>) -> Result<(), AllocError> {
        let mut messages = Vec::new(alloc);
        push_notes(session.notes.as_slice(), &mut messages)?;
        push_notes(session.expander.notes.as_slice(), &mut messages)?;
        self.add_all(alloc, session.files.as_slice(), messages.as_slice())
    }

    /// Adds the diagnostics of files that are linted. `AllocError` if out of memory.
    pub fn add_lints(&mut self, alloc: Global, linted: &LintedFiles<'_>) -> Result<(), AllocError> {
        let mut messages = Vec::new(alloc);
        push_notes(linted.notes.as_slice(), &mut messages)?;
        push_lints(linted.lints.as_slice(), &mut messages)?;
        self.add_all(alloc, linted.files.as_slice(), messages.as_slice())
    }

    /// Returns the log as JSON. `version` is the version of the program. `AllocError` if out of
    /// memory.
    pub fn text(&self, alloc: Global, version: &str) -> Result<String, AllocError> {
        let mut json = Json::new(alloc);
        write_front(alloc, &mut json, version)?;
        let mut text = json.into_text();
        text.push_str(self.results.as_str())?;
        text.push_str("\n]}]}\n")?;
        Ok(text)
    }
}
