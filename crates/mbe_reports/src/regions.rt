// The location of a message: the URI of its file, and a region in lines and columns.
use mbe_session::source_files::SourceFile;
use mbe_tt::span::Span;
use percent_encoding::{AsciiSet, NON_ALPHANUMERIC, utf8_percent_encode};
use std::alloc::{AllocError, Global};

/// A line and a column, both counted from 1. A column counts code units of UTF-16.
#[derive(Clone, Copy, Drop)]
pub struct Place {
    pub line: usize,
    pub column: usize,
}

/// A part of a file. `end` is after its last character.
#[derive(Clone, Copy, Drop)]
pub struct Region {
    pub start: Place,
    pub end: Place,
}

// Returns the column of the character of a line that has that number, from 1.
fn utf16_column(line: &str, number: usize) -> usize {
    let mut column = 1usize;
    for char in line.chars().take(number.saturating_sub(1)) {
        column = column.saturating_add(char.len_utf16());
    }
    column
}

// Returns the line and the column of a byte.
fn place_of(file: &SourceFile<'_>, byte: u32) -> Place {
    let found = file.lines.location_of(byte as usize);
    Place {
        line: found.line,
        column: utf16_column(found.text, found.column),
    }
}

/// Returns the region of a span of that file.
pub fn region_of(file: &SourceFile<'_>, span: Span) -> Region {
    Region {
        start: place_of(file, span.start),
        end: place_of(file, span.end.max(span.start)),
    }
}

// Returns what is escaped in a path.
fn escaped() -> AsciiSet {
    NON_ALPHANUMERIC
        .remove(b'/')
        .remove(b'-')
        .remove(b'.')
        .remove(b'_')
        .remove(b'~')
}

// Adds a part of a path. A `.` is left out, and a `..` removes the part before it.
fn push_part<'p>(part: &'p str, parts: &mut Vec<&'p str>) -> Result<(), AllocError> {
    if part.is_empty() || part == "." {
        return Ok(());
    }
    let is_above = match parts.last() {
        Some(last) => *last == "..",
        None => true,
    };
    if part == ".." && !is_above {
        let _removed = parts.pop();
        return Ok(());
    }
    parts.push(part)?;
    Ok(())
}

// Returns the parts of a path.
fn parts_of<'p>(alloc: Global, path: &'p str) -> Result<Vec<&'p str>, AllocError> {
    let mut parts = Vec::new(alloc);
    for part in path.split('/') {
        push_part(part, &mut parts)?;
    }
    Ok(parts)
}

// Writes the parts of a path.
fn push_parts(parts: &[&str], path: &mut String) -> Result<(), AllocError> {
    for (index, part) in parts.iter().enumerate() {
        path.push_str(if index == 0 { "" } else { "/" })?;
        path.push_str(*part)?;
    }
    Ok(())
}

// Returns the shortest path that means the same, if no folder is a symbolic link.
fn shortened(alloc: Global, path: &str) -> Result<String, AllocError> {
    let mut short = String::from_str(alloc, if path.starts_with('/') { "/" } else { "" })?;
    let parts = parts_of(alloc, path)?;
    push_parts(parts.as_slice(), &mut short)?;
    Ok(short)
}

/// Returns the URI of the file of that name. It is relative, unless the name begins with a `/`.
/// `AllocError` if out of memory.
pub fn uri_of(alloc: Global, name: &str) -> Result<String, AllocError> {
    let path = shortened(alloc, name)?;
    let scheme = if name.starts_with('/') { "file://" } else { "" };
    let mut uri = String::from_str(alloc, scheme)?;
    utf8_percent_encode(path.as_str(), escaped()).append_to(&mut uri)?;
    Ok(uri)
}
