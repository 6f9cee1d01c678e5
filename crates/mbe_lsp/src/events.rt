// Notifications on documents and files, and the diagnostics that are published after them.
use crate::server::{Server, reply};
use crate::workspace::absolute;
use mbe_answers::findings::Findings;
use mbe_answers::reports::Report;
use mbe_answers::shapes::{document_name, read_range};
use mbe_protocol::documents::TextChange;
use mbe_protocol::messages::notification;
use mbe_protocol::uris::path_of;
use serde_json::{Value, json};
use std::alloc::{AllocError, Global};
use std::rt::{Env, Files};

// The method of a notification with diagnostics.
const PUBLISH: &str = "textDocument/publishDiagnostics";

/// What changed since diagnostics were published.
#[derive(Drop)]
pub enum Change {
    /// The text of the document at that path.
    Text(String),
    /// Which documents are open, or which files there are; or the texts of several documents.
    Files,
}

// Whether two changes are of the text of one document.
fn is_same(one: &Change, other: &Change) -> bool {
    match (one, other) {
        (Change::Text(path), Change::Text(later)) => path.as_str() == later.as_str(),
        (Change::Files, _) | (Change::Text(_), Change::Files) => false,
    }
}

// Returns the change that two changes make.
fn both(earlier: Option<Change>, later: Change) -> Change {
    match earlier {
        None => later,
        Some(change) if is_same(&change, &later) => later,
        Some(_) => Change::Files,
    }
}

// Reads the changes of a document.
fn read_changes<'v>(
    alloc: Global,
    values: &'v [Value],
) -> Result<Option<Vec<TextChange<'v>>>, AllocError> {
    let mut changes = Vec::new(alloc);
    for value in values {
        let Some(text) = value.get("text").and_then(Value::as_str) else {
            return Ok(None);
        };
        let range = match value.get("range") {
            None | Some(Value::Null) => None,
            Some(range) => match read_range(range) {
                Some(range) => Some(range),
                None => return Ok(None),
            },
        };
        changes.push(TextChange { range, text })?;
    }
    Ok(Some(changes))
}

// Returns the paths of the files.
fn paths_of(alloc: Global, found: &Findings) -> Result<Vec<String>, AllocError> {
    let mut paths = Vec::new(alloc);
    for file in found.files.iter() {
        paths.push(file.path.clone()?)?;
    }
    Ok(paths)
}

impl Server {
    // Takes a notification on documents and files.
    pub(crate) fn take_event(
        &mut self,
        method: &str,
        params: &Value,
        replies: &mut Vec<String>,
    ) -> Result<(), AllocError> {
        let change = match method {
            "textDocument/didOpen" => self.open(params)?,
            "textDocument/didChange" => self.edit(params)?,
            "textDocument/didClose" => self.close(params, replies)?,
            "textDocument/didSave" | "workspace/didChangeWatchedFiles" => Some(Change::Files),
            _ => None,
        };
        if let Some(change) = change {
            self.kept = None;
            self.change = Some(both(self.change.take(), change));
        }
        Ok(())
    }

    // Opens a document. `None` if the parameters are not those of a document.
    fn open(&mut self, params: &Value) -> Result<Option<Change>, AllocError> {
        let Some(item) = params.get("textDocument") else {
            return Ok(None);
        };
        let (Some(uri), Some(text)) = (
            item.get("uri").and_then(Value::as_str),
            item.get("text").and_then(Value::as_str),
        ) else {
            return Ok(None);
        };
        let version = item.get("version").and_then(Value::as_i64).unwrap_or(0);
        let path = match path_of(self.alloc, uri) {
            Some(path) => absolute(self.alloc, self.texts(), path.as_str())?,
            None => String::from_str(self.alloc, uri)?,
        };
        self.documents.open(self.alloc, uri, path, version, text)?;
        Ok(Some(Change::Files))
    }

    // Changes the text of a document. `None` if the parameters are not those of a change of an open
    // document.
    fn edit(&mut self, params: &Value) -> Result<Option<Change>, AllocError> {
        let (Some(uri), Some(values)) = (
            document_name(params),
            params.get("contentChanges").and_then(Value::as_array),
        ) else {
            return Ok(None);
        };
        let version = params
            .pointer("/textDocument/version")
            .and_then(Value::as_i64);
        let Some(changes) = read_changes(self.alloc, values.as_slice())? else {
            return Ok(None);
        };
        self.documents.change(
            self.alloc,
            uri,
            version.unwrap_or(0),
            self.encoding,
            changes.as_slice(),
        )?;
        match self.documents.get(uri) {
            Some(document) => Ok(Some(Change::Text(document.path.clone()?))),
            None => Ok(None),
        }
    }

    // Closes a document, whose diagnostics vanish. `None` if the parameters are not those of an open
    // document.
    fn close(
        &mut self,
        params: &Value,
        replies: &mut Vec<String>,
    ) -> Result<Option<Change>, AllocError> {
        let Some(uri) = document_name(params) else {
            return Ok(None);
        };
        if self.documents.get(uri).is_none() {
            return Ok(None);
        }
        self.documents.close(uri);
        if !self.is_pulled {
            let params = json!(in self.alloc; {"uri": uri, "diagnostics": []})?;
            let message = notification(self.alloc, PUBLISH, params)?;
            reply(self.alloc, replies, message)?;
        }
        Ok(Some(Change::Files))
    }

    // Publishes the diagnostics that changes may have changed, unless the client asks for them.
    // The document that changed comes last, so that its analysis is kept.
    pub(crate) fn publish_changes<R: Env + Files + AllocGlobal + Clone + Drop>(
        &mut self,
        rt: &R,
        replies: &mut Vec<String>,
    ) -> Result<(), AllocError> {
        let Some(change) = self.change.take() else {
            return Ok(());
        };
        if self.is_pulled {
            return Ok(());
        }
        for uri in self.concerned(&change)? {
            self.publish(rt, uri.as_str(), replies)?;
        }
        Ok(())
    }

    // Returns the names of the documents that a change concerns.
    fn concerned(&self, change: &Change) -> Result<Vec<String>, AllocError> {
        let mut names = Vec::new(self.alloc);
        let mut last = None;
        for document in self.documents.list.iter() {
            match change {
                Change::Text(path) if document.path.as_str() == path.as_str() => {
                    last = Some(document.uri.clone()?);
                }
                Change::Text(path) if !document.has_file(path.as_str()) => {}
                Change::Text(_) | Change::Files => names.push(document.uri.clone()?)?,
            }
        }
        if let Some(uri) = last {
            names.push(uri)?;
        }
        Ok(names)
    }

    // Publishes the diagnostics of a document.
    fn publish<R: Env + Files + AllocGlobal + Clone + Drop>(
        &mut self,
        rt: &R,
        uri: &str,
        replies: &mut Vec<String>,
    ) -> Result<(), AllocError> {
        self.keep(rt, uri)?;
        let (Some(document), Some(kept)) = (self.documents.get(uri), &self.kept) else {
            return Ok(());
        };
        let found = &kept.analysis.found;
        let report = Report {
            writer: self.writer(),
            found,
        };
        let diagnostics = report.diagnostics(found.number)?;
        let version = document.version;
        let params = json!(in self.alloc; {
            "uri": uri,
            "version": version,
            "diagnostics": diagnostics
        })?;
        let files = paths_of(self.alloc, found)?;
        self.documents.set_files(uri, files);
        let message = notification(self.alloc, PUBLISH, params)?;
        reply(self.alloc, replies, message)
    }
}
