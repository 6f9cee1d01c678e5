// Positions of editors: a line and a column, both counted from 0.
//
// A column counts code units of the encoding that the editor and the server agree on. A line ends
// with a line feed, a carriage return, or both.
ghost use Rattle.std.specs.Prelude.{◌≤◌, length};

use std::alloc::{AllocError, Global};

/// What a column counts.
#[derive(Clone, Copy, Drop)]
pub enum PositionEncoding {
    /// Bytes.
    Utf8,
    /// Units of 16 bits, as in UTF-16.
    Utf16,
}

/// A position in a text.
#[derive(Clone, Copy, Drop)]
pub struct Position {
    pub line: usize,
    pub column: usize,
}

/// The part of a text from one position up to another.
#[derive(Clone, Copy, Drop)]
pub struct PositionRange {
    pub start: Position,
    pub end: Position,
}

/// The lines of a text, for positions in it.
#[derive(Drop)]
pub struct LineTable<'t> {
    text: &'t str,
    encoding: PositionEncoding,
    // The byte at which each line starts, ascending.
    starts: Vec<usize>,
}

impl PositionEncoding {
    /// Returns the name of the encoding in messages.
    pub fn name(self) -> &'static str {
        match self {
            PositionEncoding::Utf8 => "utf-8",
            PositionEncoding::Utf16 => "utf-16",
        }
    }

    // Returns how many units a character takes.
    fn width(self, char: char) -> usize {
        match self {
            PositionEncoding::Utf8 => char.len_utf8(),
            PositionEncoding::Utf16 => char.len_utf16(),
        }
    }
}

// Whether a line ends with this byte.
fn is_end(byte: u8, next: Option<&u8>) -> bool {
    byte == b'\n' || byte == b'\r' && next != Some(&b'\n')
}

// Returns where each line of a text starts.
fn line_starts(alloc: Global, text: &str) -> Result<Vec<usize>, AllocError> {
    let bytes = text.as_bytes();
    let mut starts = vec![in alloc; 0usize]?;
    for (at, byte) in bytes.iter().enumerate() {
        let after = at.saturating_add(1);
        if is_end(*byte, bytes.get(after)) {
            starts.push(after)?;
        }
    }
    Ok(starts)
}

// Returns the text without its line end.
fn without_end(line: &str) -> &str {
    let line = line.strip_suffix('\n').unwrap_or(line);
    line.strip_suffix('\r').unwrap_or(line)
}

impl<'t> LineTable<'t> {
    /// Finds the lines of a text. `AllocError` if out of memory.
    pub fn of(
        alloc: Global,
        text: &'t str,
        encoding: PositionEncoding,
    ) -> Result<LineTable<'t>, AllocError> {
        Ok(LineTable {
            text,
            encoding,
            starts: line_starts(alloc, text)?,
        })
    }

    /// Returns the position of a byte. A byte inside a character counts as its first byte, and a
    /// byte beyond the end as the end.
    pub fn position(&self, byte: usize) -> Position {
        let after = self
            .starts
            .as_slice()
            .partition_point(|start: &usize| -> bool { *start <= byte });
        let line = after.saturating_sub(1);
        let start = self.starts.get(line).copied().unwrap_or(0);
        let rest = self.text.get(start..).unwrap_or("");
        let mut column = 0usize;
        for (at, char) in rest.char_indices() {
            if start.saturating_add(at).saturating_add(char.len_utf8()) > byte {
                break;
            }
            column = column.saturating_add(self.encoding.width(char));
        }
        Position { line, column }
    }

    /// Returns the range of the bytes from `start` up to `end`.
    pub fn range(&self, start: usize, end: usize) -> PositionRange {
        PositionRange {
            start: self.position(start),
            end: self.position(end),
        }
    }

    // Returns the text of a line with its end, and where it starts. A line beyond the end is empty,
    // at the end.
    fn line(&self, line: usize) -> (usize, &'t str) {
        let end = self.text.len();
        let start = self.starts.get(line).copied().unwrap_or(end);
        let next = self
            .starts
            .get(line.saturating_add(1))
            .copied()
            .unwrap_or(end);
        (start, self.text.get(start..next).unwrap_or(""))
    }

    /// Returns the byte at a position: the first byte of a character. A column beyond the line's
    /// end counts as that end, and a line beyond the text's end as the end of the text.
    pub fn byte(&self, position: Position) -> usize
        ensures { result ≤ length self.now.text.now }
    {
        let (start, line) = self.line(position.line);
        let mut column = 0usize;
        let mut byte = start;
        for char in without_end(line).chars() {
            column = column.saturating_add(self.encoding.width(char));
            if column > position.column {
                break;
            }
            byte = byte.saturating_add(char.len_utf8());
        }
        byte.min(self.text.len())
    }

    /// Returns the position at the end of the text.
    pub fn end(&self) -> Position {
        self.position(self.text.len())
    }
}
