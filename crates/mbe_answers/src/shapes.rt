// Values of the protocol that many answers have: positions, ranges, locations, edits.
use crate::findings::{Extent, Findings};
use mbe_protocol::documents::Documents;
use mbe_protocol::positions::{LineTable, Position, PositionEncoding, PositionRange};
use mbe_protocol::uris::uri_of;
use serde_json::{Value, json};
use std::alloc::{AllocError, Global};

/// Returns a number as it is in messages.
pub(crate) fn number(count: usize) -> u64 {
    u64::try_from(count).unwrap_or(u64::MAX)
}

fn position_value(alloc: Global, at: Position) -> Result<Value, AllocError> {
    let (line, column) = (number(at.line), number(at.column));
    json!(in alloc; {"line": line, "character": column})
}

/// Returns the range of these bytes. `AllocError` if out of memory.
pub fn range(alloc: Global, lines: &LineTable<'_>, extent: Extent) -> Result<Value, AllocError> {
    let found = lines.range(extent.start, extent.end);
    let (start, end) = (
        position_value(alloc, found.start)?,
        position_value(alloc, found.end)?,
    );
    json!(in alloc; {"start": start, "end": end})
}

/// Returns the name of the file at that path: that of its document, if it is open. `AllocError` if
/// out of memory.
pub fn name_of(alloc: Global, documents: &Documents, path: &str) -> Result<String, AllocError> {
    match documents.at_path(path) {
        Some(document) => document.uri.clone(),
        None => uri_of(alloc, path),
    }
}

/// How the files of findings are written: by the names of open documents, in an encoding.
#[derive(Clone, Copy, Drop)]
pub struct Writer<'a> {
    pub alloc: Global,
    pub documents: &'a Documents,
    pub encoding: PositionEncoding,
}

impl Writer<'_> {
    /// Returns the name of file `number`. `AllocError` if out of memory.
    pub fn uri(self, found: &Findings, number: usize) -> Result<String, AllocError> {
        name_of(self.alloc, self.documents, found.path(number))
    }

    /// Returns the location of these bytes of file `number`. `AllocError` if out of memory.
    pub fn location(
        self,
        found: &Findings,
        number: usize,
        extent: Extent,
    ) -> Result<Value, AllocError> {
        let uri = self.uri(found, number)?;
        let lines = LineTable::of(self.alloc, found.text(number), self.encoding)?;
        let at = range(self.alloc, &lines, extent)?;
        json!(in self.alloc; {"uri": uri, "range": at})
    }
}

/// Returns the edit that replaces these bytes of a file. `AllocError` if out of memory.
pub fn text_edit(
    alloc: Global,
    lines: &LineTable<'_>,
    extent: Extent,
    text: &str,
) -> Result<Value, AllocError> {
    let at = range(alloc, lines, extent)?;
    json!(in alloc; {"range": at, "newText": text})
}

/// Returns the change of files that these edits of one file make. `AllocError` if out of memory.
pub fn change_of_file(alloc: Global, uri: String, edits: Vec<Value>) -> Result<Value, AllocError> {
    let mut changes = serde_json::Map::new(alloc);
    changes.insert(uri, Value::Array(edits))?;
    let changes = Value::Object(changes);
    json!(in alloc; {"changes": changes})
}

// Reads a number that is at least 0.
fn read_number(value: &Value, name: &str) -> Option<usize> {
    usize::try_from(value.get(name)?.as_u64()?).ok()
}

/// Reads a position.
pub fn read_position(value: &Value) -> Option<Position> {
    Some(Position {
        line: read_number(value, "line")?,
        column: read_number(value, "character")?,
    })
}

/// Reads a range.
pub fn read_range(value: &Value) -> Option<PositionRange> {
    Some(PositionRange {
        start: read_position(value.get("start")?)?,
        end: read_position(value.get("end")?)?,
    })
}

/// Returns the name of the document that parameters are about.
pub fn document_name(params: &Value) -> Option<&str> {
    params.get("textDocument")?.get("uri")?.as_str()
}
