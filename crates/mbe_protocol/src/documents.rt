// The documents that an editor has open, with their texts, also those that aren't saved.
ghost use Rattle.std.specs.Prelude.{◌≡◌, ◌++◌, drop, take, IfOk, IfSome};
ghost use Rattle.std.specs.String.{string_bytes};

use crate::positions::{LineTable, PositionEncoding, PositionRange};
use std::alloc::{AllocError, Global};

/// A document.
#[derive(Drop)]
pub struct Document {
    /// Its name, as the editor wrote it.
    pub uri: String,
    /// The path of its file, or the name if it is of no file.
    pub path: String,
    pub version: i64,
    pub text: String,
    /// The paths of the files that its diagnostics were made of; none before the first time.
    pub files: Vec<String>,
}

/// A change of a document.
#[derive(Drop)]
pub struct TextChange<'m> {
    /// The part that is replaced; `None` is the whole text.
    pub range: Option<PositionRange>,
    pub text: &'m str,
}

/// The open documents.
#[derive(Drop)]
pub struct Documents {
    pub list: Vec<Document>,
}

// Returns the text with the bytes from `start` up to `end` replaced. `None` if they aren't a part
// of it.
fn replaced(
    alloc: Global,
    text: &str,
    start: usize,
    end: usize,
    new: &str,
) -> Result<Option<String>, AllocError>
    ensures { IfOk result (λ o. IfSome o (λ s. string_bytes s
        ≡ take start text.now ++ new.now ++ drop end text.now)) }
{
    let (Some(before), Some(after)) = (text.get(..start), text.get(end..)) else {
        return Ok(None);
    };
    let mut whole = String::from_str(alloc, before)?;
    whole.push_str(new)?;
    whole.push_str(after)?;
    Ok(Some(whole))
}

/// Returns the text after a change. A range that ends before its start is empty. `AllocError` if
/// out of memory.
pub fn changed(
    alloc: Global,
    text: &str,
    encoding: PositionEncoding,
    change: &TextChange<'_>,
) -> Result<String, AllocError> {
    let Some(range) = change.range else {
        return String::from_str(alloc, change.text);
    };
    let lines = LineTable::of(alloc, text, encoding)?;
    let start = lines.byte(range.start);
    let end = lines.byte(range.end).max(start);
    match replaced(alloc, text, start, end, change.text)? {
        Some(whole) => Ok(whole),
        None => String::from_str(alloc, text),
    }
}

impl Document {
    /// Whether the document's diagnostics were made of the file at that path.
    pub fn has_file(&self, path: &str) -> bool {
        self.files.iter().any(|file| file.as_str() == path)
    }
}

impl Documents {
    /// Returns the set without a document.
    pub fn new(alloc: Global) -> Documents {
        Documents {
            list: Vec::new(alloc),
        }
    }

    /// Returns the document of that name.
    pub fn get(&self, uri: &str) -> Option<&Document> {
        self.list.iter().find(|it| it.uri.as_str() == uri)
    }

    /// Returns the document of the file at that path.
    pub fn at_path(&self, path: &str) -> Option<&Document> {
        self.list.iter().find(|it| it.path.as_str() == path)
    }

    /// Opens a document. It replaces an open document of that name. `AllocError` if out of memory.
    pub fn open(
        &mut self,
        alloc: Global,
        uri: &str,
        path: String,
        version: i64,
        text: &str,
    ) -> Result<(), AllocError> {
        self.close(uri);
        self.list.push(Document {
            uri: String::from_str(alloc, uri)?,
            path,
            version,
            text: String::from_str(alloc, text)?,
            files: Vec::new(alloc),
        })?;
        Ok(())
    }

    /// Changes the text of a document. If the document isn't open, nothing changes. `AllocError` if
    /// out of memory.
    pub fn change(
        &mut self,
        alloc: Global,
        uri: &str,
        version: i64,
        encoding: PositionEncoding,
        changes: &[TextChange<'_>],
    ) -> Result<(), AllocError> {
        let Some(at) = self.list.iter().position(|it| it.uri.as_str() == uri) else {
            return Ok(());
        };
        let Some(document) = self.list.get_mut(at) else {
            return Ok(());
        };
        for change in changes {
            document.text = changed(alloc, document.text.as_str(), encoding, change)?;
        }
        document.version = version;
        Ok(())
    }

    /// Sets the files that a document's diagnostics were made of.
    pub fn set_files(&mut self, uri: &str, files: Vec<String>) {
        let Some(at) = self.list.iter().position(|it| it.uri.as_str() == uri) else {
            return;
        };
        if let Some(document) = self.list.get_mut(at) {
            document.files = files;
        }
    }

    /// Closes a document.
    pub fn close(&mut self, uri: &str) {
        self.list.retain(|it| it.uri.as_str() != uri);
    }
}
