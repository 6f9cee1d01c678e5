// Writes diagnostics, as text in rustc's style or as JSON.
//
// A note or a lint becomes a `Diagnostic` on a file. `mbe_diagnostics` renders each diagnostic with
// the children after it.
ghost use Rattle.std.specs.Prelude.{◌≡◌, ◌≤◌, ◌++◌, true, IfOk, IfSome, OnOk, length, map};
ghost use Rattle.std.specs.Prelude.{slice_get};
ghost use Rattle.std.specs.String.{string_bytes};
ghost use Rattle.mbe_session.specs.Explanation.{note_seen};
ghost use Rattle.mbe_session.specs.EmittedNotes as spec;
ghost use Rattle.mbe_diagnostics.specs.Lints.Lint.{lint_seen};
ghost use Rattle.mbe_session.specs.EmittedNotes.{AreDiagnostics, AreLintDiagnostics};
ghost use Rattle.mbe_session.specs.EmittedNotes.{IsDiagnostic, IsPart, IsPlace};
ghost use Rattle.mbe_session.specs.EmittedNotes.{EmittedLints, EmittedNotes};
ghost use Rattle.mbe_session.specs.EmittedNotes.{error_written, level_shown, note_written};

use crate::locations::{CallPosition, Location};
use crate::note_lines::add_note_lines;
use crate::notes::{self, Note};
use crate::settings::ExplainFilter;
use crate::source_files::SourceFile;
use mbe_diagnostics::diagnostic::{Diagnostic, FilePart, Level, Point};
use mbe_diagnostics::json::{json_line, plain_line};
use mbe_diagnostics::line_limit::rendered_within;
use mbe_diagnostics::lints::lint::Lint;
use mbe_diagnostics::message_kinds::code_of;
use mbe_diagnostics::renderer::rendered;
use mbe_tt::span::Span;
use std::alloc::{AllocError, Global};

/// The form of diagnostics. Some functions take an optional form. `None` is the short form of
/// notes: `FILE:LINE:COL: LEVEL: MESSAGE`, the line, and a caret.
#[derive(Clone, Copy, Drop)]
pub enum MessageFormat {
    /// Text in rustc's style.
    Text,
    /// Text in rustc's style, in colours.
    Colours,
    /// Text in rustc's style. Each diagnostic has at most 60 lines, and the last one says how many
    /// others there are.
    Brief { is_coloured: bool },
    /// JSON as by rustc's `--error-format=json`, one object a line.
    Json,
}

// How many lines of a diagnostic the brief form shows.
const MOST_LINES: usize = 60;

/// Returns an error that belongs to no file. `AllocError` if out of memory.
pub fn error_text(
    alloc: Global,
    form: Option<MessageFormat>,
    message: &str,
) -> Result<String, AllocError>
    ensures { IfOk result (λ t. string_bytes t ≡ error_written form message.now) }
{
    match form {
        Some(MessageFormat::Json) => {
            let object = plain_line(alloc, Level::Error, message)?;
            format!(in alloc; "{object}\n")
        }
        Some(MessageFormat::Text | MessageFormat::Colours | MessageFormat::Brief { .. }) | None => {
            format!(in alloc; "error: {message}\n")
        }
    }
}

/// Returns a note that belongs to no file. `AllocError` if out of memory.
pub fn note_text(
    alloc: Global,
    form: Option<MessageFormat>,
    message: &str,
) -> Result<String, AllocError>
    ensures { IfOk result (λ t. string_bytes t ≡ note_written form message.now) }
{
    match form {
        Some(MessageFormat::Json) => {
            let object = plain_line(alloc, Level::Note, message)?;
            format!(in alloc; "{object}\n")
        }
        Some(MessageFormat::Text | MessageFormat::Colours | MessageFormat::Brief { .. }) | None => {
            format!(in alloc; "note: {message}\n")
        }
    }
}

/// Returns which calls are explained, among the first `root_count` files. With a position it is the
/// calls of the last of them that begin there; without a position, every call that no rule expands.
pub fn calls_to_explain(
    request: Option<Option<CallPosition>>,
    files: &[SourceFile<'_>],
    root_count: usize,
) -> ExplainFilter {
    let number = root_count.saturating_sub(1);
    match (request, files.get(number)) {
        (Some(None), _) => ExplainFilter::Failed,
        (Some(Some(position)), Some(file)) => {
            let (start, end) = position.bytes_in(file.lines.text.as_str());
            ExplainFilter::At {
                file: u32::try_from(number).unwrap_or(u32::MAX),
                start: u32::try_from(start).unwrap_or(u32::MAX),
                end: u32::try_from(end).unwrap_or(u32::MAX),
            }
        }
        (None, _) | (Some(Some(_)), None) => ExplainFilter::Nothing,
    }
}

// Splits a text before the character of that column, counted from 1.
fn split_at_column(text: &str, column: usize) -> (&str, &str) {
    match text.char_indices().nth(column.saturating_sub(1)) {
        Some((at, _)) => text.split_at_checked(at).unwrap_or((text, "")),
        None => (text, ""),
    }
}

// Returns the point of a byte of `lines`, at that line and column.
fn point(file: &SourceFile<'_>, place: Location<'_>, byte: usize) -> Point
    ensures line { result.line ≡ place.entry.line }
    ensures column { result.column ≡ place.entry.column }
{
    Point {
        byte: file.lines.place(byte),
        line: place.line,
        column: place.column,
    }
}

// Returns where a span ends, and what it covers of the rest of its first line. If it ends in
// another line, it ends where it starts.
fn end_of<'t>(
    file: &SourceFile<'_>,
    span: Span,
    place: Location<'_>,
    rest: &'t str,
) -> (Point, &'t str) {
    let end = file.lines.location_of(span.end as usize);
    if end.line != place.line || end.column < place.column {
        return (point(file, place, span.start as usize), "");
    }
    let (part, _) = split_at_column(rest, (end.column - place.column).saturating_add(1));
    (point(file, end, span.end as usize), part)
}

// Returns the part of a file at a span.
fn part_of<'t>(file: &'t SourceFile<'t>, span: Span) -> FilePart<'t>
    ensures { IsPart file.now span result }
{
    let place = file.lines.location_of(span.start as usize);
    let (before, rest) = split_at_column(place.text, place.column);
    let (end, part) = end_of(file, span, place, rest);
    FilePart {
        file: file.name,
        start: point(file, place, span.start as usize),
        end,
        line: place.text,
        before,
        part,
    }
}

// Returns the part of a file at a span, if there is such a file.
fn place_of<'t>(files: &'t [SourceFile<'t>], span: Span) -> Option<FilePart<'t>>
    ensures { IsPlace (slice_get files.now span.file) span result }
{
    match files.get(span.file as usize) {
        Some(file) => Some(part_of(file, span)),
        None => None,
    }
}

fn level_of(level: notes::Level) -> Level
    ensures { result ≡ level_shown level }
{
    match level {
        notes::Level::Error => Level::Error,
        notes::Level::Note => Level::Note,
        notes::Level::Help => Level::Help,
    }
}

// Returns a diagnostic on a span, in its file if there is one.
fn diagnostic<'t>(
    files: &'t [SourceFile<'t>],
    level: Level,
    span: Span,
    message: &'t str,
    is_child: bool,
) -> Diagnostic<'t>
    ensures { IsDiagnostic files.now level span message.now is_child result }
{
    let code = if is_child {
        ""
    } else {
        code_of(level, message)
    };
    Diagnostic {
        level,
        message,
        code,
        is_child,
        place: place_of(files, span),
    }
}

// Renders a diagnostic with its children in that form.
fn written(
    alloc: Global,
    form: MessageFormat,
    diag: &Diagnostic<'_>,
    children: &[Diagnostic<'_>],
) -> Result<String, AllocError>
    ensures { IfOk result (λ t. string_bytes t ≡ spec.written form diag.now children.now) }
{
    match form {
        MessageFormat::Text => rendered(alloc, diag, children, false),
        MessageFormat::Colours => rendered(alloc, diag, children, true),
        MessageFormat::Brief { is_coloured } => {
            let hint = "`--explain=all` shows them";
            rendered_within(alloc, MOST_LINES, hint, diag, children, is_coloured)
        }
        MessageFormat::Json => {
            let object = json_line(alloc, diag, children)?;
            format!(in alloc; "{object}\n")
        }
    }
}

// Returns how many children are at the front of diagnostics.
fn child_count(diagnostics: &[Diagnostic<'_>]) -> usize
    ensures count { result ≡ spec.child_count diagnostics.now }
    ensures few { result ≤ length diagnostics.now }
{
    let mut count = 0usize;
    for diag in diagnostics {
        if !diag.is_child {
            return count;
        }
        count += 1;
    }
    count
}

// Returns the children at the front of diagnostics.
fn children<'d, 't>(diagnostics: &'d [Diagnostic<'t>]) -> &'d [Diagnostic<'t>]
    ensures { result.now ≡ spec.children diagnostics.now }
{
    let (children, _others) = diagnostics.split_at(child_count(diagnostics));
    children
}

// Appends the first of these diagnostics with its children, unless it is a child itself. A child
// without a diagnostic before it (`is_first`) is appended as if it were none.
fn add_first(
    alloc: Global,
    form: MessageFormat,
    is_first: bool,
    diagnostics: &[Diagnostic<'_>],
    text: &mut String,
) -> Result<(), AllocError>
    ensures { OnOk result (string_bytes text.new
        ≡ string_bytes text.old ++ spec.first_written form is_first diagnostics.now) }
{
    let [diag, others @ ..] = diagnostics else {
        return Ok(());
    };
    if diag.is_child && !is_first {
        return Ok(());
    }
    let report = written(alloc, form, diag, children(others))?;
    text.push_str(report.as_str())
}

// Appends diagnostics, each with its children.
fn add_all(
    alloc: Global,
    form: MessageFormat,
    diagnostics: &[Diagnostic<'_>],
    text: &mut String,
) -> Result<(), AllocError>
    ensures { OnOk result (string_bytes text.new
        ≡ string_bytes text.old ++ spec.all_written form true diagnostics.now) }
{
    for at in 0..diagnostics.len() {
        let (_before, rest) = diagnostics.split_at(at);
        add_first(alloc, form, at == 0, rest, text)?;
    }
    Ok(())
}

/// Appends the diagnostics of notes on these files to a list. `AllocError` if out of memory.
pub fn push_diagnostics<'t>(
    files: &'t [SourceFile<'t>],
    notes: &'t [Note],
    diagnostics: &mut Vec<Diagnostic<'t>>,
) -> Result<(), AllocError>
    ensures { OnOk result (AreDiagnostics files.now (map note_seen notes.now)
        diagnostics.old.items diagnostics.new.items) }
{
    for note in notes {
        let level = level_of(note.level);
        let message = note.message.as_str();
        let diag = diagnostic(files, level, note.span, message, note.is_child);
        diagnostics.push(diag)?;
    }
    Ok(())
}

/// Appends the diagnostics of notes on these files to a text, each with its children. `AllocError`
/// if out of memory.
pub fn add_diagnostics(
    alloc: Global,
    form: MessageFormat,
    files: &[SourceFile<'_>],
    notes: &[Note],
    text: &mut String,
) -> Result<(), AllocError>
    ensures { OnOk result (EmittedNotes form files.now (map note_seen notes.now)
        (string_bytes text.old) (string_bytes text.new)) }
{
    let mut diagnostics = Vec::new(alloc);
    push_diagnostics(&*files, &*notes, &mut diagnostics)?;
    add_all(alloc, form, diagnostics.as_slice(), text)?;
    Ok(())
}

/// Appends the notes on these files to a text, in that form. `None` is the short form. `AllocError`
/// if out of memory.
pub fn add_notes(
    alloc: Global,
    form: Option<MessageFormat>,
    files: &[SourceFile<'_>],
    notes: &[Note],
    text: &mut String,
) -> Result<(), AllocError>
    ensures { OnOk result (IfSome form (λ form. EmittedNotes form files.now
        (map note_seen notes.now) (string_bytes text.old) (string_bytes text.new))) }
{
    match form {
        Some(form) => add_diagnostics(alloc, form, files, notes, text),
        None => add_note_lines(alloc, files, notes, text),
    }
}

// Appends the diagnostics of lints on these files to a list.
fn push_lint_diagnostics<'t>(
    files: &'t [SourceFile<'t>],
    lints: &'t [Lint],
    diagnostics: &mut Vec<Diagnostic<'t>>,
) -> Result<(), AllocError>
    ensures { OnOk result (AreLintDiagnostics files.now (map lint_seen lints.now)
        diagnostics.old.items diagnostics.new.items) }
{
    for lint in lints {
        let is_child = lint.is_child();
        let diag = diagnostic(
            files,
            lint.level,
            lint.span,
            lint.message.as_str(),
            is_child,
        );
        diagnostics.push(diag)?;
    }
    Ok(())
}

/// Appends the diagnostics of lints on these files to a text, each with its children. `AllocError`
/// if out of memory.
pub fn add_lints(
    alloc: Global,
    form: MessageFormat,
    files: &[SourceFile<'_>],
    lints: &[Lint],
    text: &mut String,
) -> Result<(), AllocError>
    ensures { OnOk result (EmittedLints form files.now (map lint_seen lints.now)
        (string_bytes text.old) (string_bytes text.new)) }
{
    let mut diagnostics = Vec::new(alloc);
    push_lint_diagnostics(&*files, &*lints, &mut diagnostics)?;
    add_all(alloc, form, diagnostics.as_slice(), text)?;
    Ok(())
}
