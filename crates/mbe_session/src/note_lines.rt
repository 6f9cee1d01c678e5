// The short form of notes: `FILE:LINE:COL: LEVEL: MESSAGE`, then the line, then a caret under the
// column.
use crate::locations::{Location, NOWHERE};
use crate::notes::{Level, Note};
use crate::source_files::SourceFile;
use mbe_diagnostics::renderer::visible;
use std::alloc::{AllocError, Allocator, Global};

// Returns white space as wide as the first `count` characters of a line. Tabs are kept.
fn margin<A: Allocator + Copy>(
    alloc: A,
    line: &str,
    count: usize,
) -> Result<String<A>, AllocError> {
    let mut margin = String::new(alloc);
    for char in line.chars().take(count) {
        margin.push(if char == '\t' { '\t' } else { ' ' })?;
    }
    Ok(margin)
}

// Returns the text with a visible character for each one that a terminal would obey.
fn shown<A: Allocator + Copy>(alloc: A, text: &str) -> Result<String<A>, AllocError> {
    let mut shown = String::new(alloc);
    for char in text.chars() {
        shown.push(visible(char))?;
    }
    Ok(shown)
}

// Returns the text of a note on a position in the file of that name. `AllocError` if out of
// memory.
fn message<A: Allocator + Copy>(
    alloc: A,
    note: &Note<A>,
    name: &str,
    place: Location<'_>,
) -> Result<String<A>, AllocError> {
    let (number, column) = (place.line, place.column);
    let level = match note.level {
        Level::Error => "error",
        Level::Note => "note",
        Level::Help => "help",
    };
    let margin = margin(alloc, place.text, column.saturating_sub(1))?;
    let message = shown(alloc, note.message.as_str())?;
    let line = shown(alloc, place.text)?;
    format!(in alloc;
        "{name}:{number}:{column}: {level}: {message}\n{number:5} | {line}\n      | {margin}^\n"
    )
}

/// Appends the short form of notes on these files to a text. `AllocError` if out of memory.
pub fn add_note_lines(
    alloc: Global,
    files: &[SourceFile<'_>],
    notes: &[Note],
    text: &mut String,
) -> Result<(), AllocError> {
    for note in notes {
        let (name, place) = match files.get(note.span.file as usize) {
            Some(file) => (file.name, file.lines.location_of(note.span.start as usize)),
            None => ("", NOWHERE),
        };
        let lines = message(alloc, note, name, place)?;
        text.push_str(lines.as_str())?;
    }
    Ok(())
}
