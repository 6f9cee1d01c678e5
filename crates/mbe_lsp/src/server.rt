// The state of a server, and its answers to messages.
use crate::analysis::{Analysis, RULES, WHOLE, analysed};
use crate::events::Change;
use crate::workspace::{Texts, current_folder, manifest_of};
use mbe_answers::expanded_calls::ExpandedCalls;
use mbe_answers::highlights::LEGEND;
use mbe_answers::shapes::Writer;
use mbe_protocol::documents::Documents;
use mbe_protocol::frames::Frame;
use mbe_protocol::messages::{Call, Message, Refusal, cancels, read_message, refused, response};
use mbe_protocol::positions::PositionEncoding;
use serde_json::{Map, Value, json};
use std::alloc::{AllocError, Global};
use std::rt::{Env, Files};

/// The version of the server.
pub const VERSION: &str = "0.1.0";

/// Where a session of the protocol is.
#[derive(Clone, Copy, Drop)]
pub enum Phase {
    /// Before the request `initialize`.
    New,
    Running,
    /// After the request `shutdown`.
    ShutDown,
    /// After the notification `exit`. It says whether `shutdown` came before.
    Exited { is_orderly: bool },
}

// What a session found in the crate of a document, until a document changes.
#[derive(Drop)]
pub(crate) struct KeptFindings {
    pub(crate) path: String,
    pub(crate) analysis: Analysis,
}

/// A server: the open documents, and where its session is.
#[derive(Drop)]
pub struct Server {
    pub phase: Phase,
    pub(crate) alloc: Global,
    pub(crate) encoding: PositionEncoding,
    // Whether the client asks for diagnostics, so none are published.
    pub(crate) is_pulled: bool,
    // The folder that relative paths begin at.
    folder: String,
    pub(crate) documents: Documents,
    pub(crate) kept: Option<KeptFindings>,
    // What changed since diagnostics were published.
    pub(crate) change: Option<Change>,
}

// Why a request has no result.
#[derive(Clone, Copy, Drop)]
pub(crate) enum Fault {
    /// The request isn't valid.
    Refused(Refusal),
    /// The request is valid, and can't be done. The text says why.
    Failed(&'static str),
}

// The outcome of a request: a result, or why there is none.
pub(crate) type Outcome = Result<Value, Fault>;

// The number of the protocol's error `RequestFailed`.
const REQUEST_FAILED: i64 = -32803;

// Reads the encoding that the client prefers among those that the server knows.
fn encoding_of(params: Option<&Value>) -> PositionEncoding {
    let offered = params
        .and_then(|it| it.pointer("/capabilities/general/positionEncodings"))
        .and_then(Value::as_array);
    if let Some(names) = offered {
        for name in names.iter() {
            match name.as_str() {
                Some("utf-8") => return PositionEncoding::Utf8,
                Some("utf-16") => return PositionEncoding::Utf16,
                Some(_) | None => {}
            }
        }
    }
    PositionEncoding::Utf16
}

// Reads whether the client can ask for diagnostics.
fn is_pulled(params: Option<&Value>) -> bool {
    let Some(params) = params else {
        return false;
    };
    match params.pointer("/capabilities/textDocument/diagnostic") {
        Some(ability) => ability.is_object(),
        None => false,
    }
}

// What the server can do without options.
const PROVIDERS: &[&str] = &[
    "hoverProvider",
    "definitionProvider",
    "referencesProvider",
    "documentSymbolProvider",
    "foldingRangeProvider",
    "selectionRangeProvider",
];

// Adds what the server can do without options.
fn add_providers(alloc: Global, abilities: &mut Map<String, Value>) -> Result<(), AllocError> {
    for name in PROVIDERS {
        abilities.insert(String::from_str(alloc, *name)?, Value::Bool(true))?;
    }
    Ok(())
}

// Adds an ability with its options.
fn add_ability(
    alloc: Global,
    abilities: &mut Map<String, Value>,
    name: &str,
    options: Value,
) -> Result<(), AllocError> {
    abilities.insert(String::from_str(alloc, name)?, options)?;
    Ok(())
}

// Adds the abilities that have the characters after which an editor asks, or kinds.
fn add_lists(alloc: Global, abilities: &mut Map<String, Value>) -> Result<(), AllocError> {
    let typed = json!(in alloc; {"triggerCharacters": [":", "$", "{"]})?;
    add_ability(alloc, abilities, "completionProvider", typed)?;
    let typed = json!(in alloc; {"triggerCharacters": ["(", "[", "{"]})?;
    add_ability(alloc, abilities, "signatureHelpProvider", typed)?;
    let kinds = json!(in alloc; {"codeActionKinds": ["refactor.inline", "quickfix"]})?;
    add_ability(alloc, abilities, "codeActionProvider", kinds)
}

// Returns the names of the types of tokens.
fn legend_names(alloc: Global) -> Result<Vec<Value>, AllocError> {
    let mut names = Vec::new(alloc);
    for name in LEGEND {
        names.push(json!(in alloc; *name)?)?;
    }
    Ok(names)
}

// Adds the ability to say what tokens are, with the names of their types.
fn add_legend(alloc: Global, abilities: &mut Map<String, Value>) -> Result<(), AllocError> {
    let names = Value::Array(legend_names(alloc)?);
    let options = json!(in alloc; {
        "legend": {"tokenTypes": names, "tokenModifiers": []}, "full": true, "range": true
    })?;
    add_ability(alloc, abilities, "semanticTokensProvider", options)
}

// Adds the other abilities that have options.
fn add_options(alloc: Global, abilities: &mut Map<String, Value>) -> Result<(), AllocError> {
    let texts = json!(in alloc; {"openClose": true, "change": 2, "save": true})?;
    add_ability(alloc, abilities, "textDocumentSync", texts)?;
    let renaming = json!(in alloc; {"prepareProvider": true})?;
    add_ability(alloc, abilities, "renameProvider", renaming)?;
    let lenses = json!(in alloc; {})?;
    add_ability(alloc, abilities, "codeLensProvider", lenses)?;
    let diagnostics = json!(in alloc; {
        "identifier": "mbe", "interFileDependencies": true, "workspaceDiagnostics": false
    })?;
    add_ability(alloc, abilities, "diagnosticProvider", diagnostics)
}

// Adds all abilities.
fn add_abilities(
    alloc: Global,
    abilities: &mut Map<String, Value>,
    encoding: PositionEncoding,
) -> Result<(), AllocError> {
    let encoding = Value::String(String::from_str(alloc, encoding.name())?);
    add_ability(alloc, abilities, "positionEncoding", encoding)?;
    add_providers(alloc, abilities)?;
    add_lists(alloc, abilities)?;
    add_options(alloc, abilities)?;
    add_legend(alloc, abilities)
}

// Returns the result of `initialize`.
fn abilities(alloc: Global, encoding: PositionEncoding) -> Result<Value, AllocError> {
    let mut abilities = Map::new(alloc);
    add_abilities(alloc, &mut abilities, encoding)?;
    let abilities = Value::Object(abilities);
    json!(in alloc; {
        "capabilities": abilities,
        "serverInfo": {"name": "mbe-lsp", "version": VERSION}
    })
}

// Returns the response to a request that can't be done.
fn failed(alloc: Global, id: &Value, why: &str) -> Result<Value, AllocError> {
    let error = json!(in alloc; {"code": REQUEST_FAILED, "message": why})?;
    json!(in alloc; {"jsonrpc": "2.0", "id": id, "error": error})
}

// Adds a value to the replies, as text.
pub(crate) fn reply(
    alloc: Global,
    replies: &mut Vec<String>,
    value: Value,
) -> Result<(), AllocError> {
    replies.push(value.to_string(alloc)?)?;
    Ok(())
}

// Whether one of the messages cancels the request with that identifier.
fn is_cancelled(messages: &[Option<Value>], id: &Value) -> bool {
    for message in messages {
        if let Some(value) = message
            && cancels(value, id)
        {
            return true;
        }
    }
    false
}

impl Server {
    /// Returns a server without a document. `AllocError` if out of memory.
    pub fn new<R: Env + AllocGlobal>(rt: &R) -> Result<Server, AllocError> {
        Ok(Server {
            phase: Phase::New,
            alloc: rt.alloc(),
            encoding: PositionEncoding::Utf16,
            is_pulled: false,
            folder: current_folder(rt)?,
            documents: Documents::new(rt.alloc()),
            kept: None,
            change: None,
        })
    }

    /// Reads a message; `None` if it is malformed. `AllocError` if out of memory.
    pub fn read(&self, frame: &Frame) -> Result<Option<Value>, AllocError> {
        let Frame::Content(content) = frame else {
            return Ok(None);
        };
        let Ok(text) = str::from_utf8(content.as_slice()) else {
            return Ok(None);
        };
        match Value::from_str(self.alloc, text) {
            Ok(value) => Ok(Some(value)),
            Err(error) if error.is_memory() => Err(AllocError),
            Err(_) => Ok(None),
        }
    }

    /// Answers a message that is read, and returns the messages to send: a response to a request,
    /// and notifications. `later` are the messages after it that are read already: a request that
    /// one of them cancels is refused. `AllocError` if out of memory.
    pub fn answer<R: Env + Files + AllocGlobal + Clone + Drop>(
        &mut self,
        rt: &R,
        message: &Option<Value>,
        later: &[Option<Value>],
    ) -> Result<Vec<String>, AllocError> {
        let mut replies = Vec::new(self.alloc);
        match message {
            Some(value) => self.answer_value(rt, value, later, &mut replies)?,
            None => self.refuse(None, Refusal::Parse, &mut replies)?,
        }
        Ok(replies)
    }

    /// Returns the messages to send once the client says nothing more for now: diagnostics of what
    /// changed. `AllocError` if out of memory.
    pub fn settle<R: Env + Files + AllocGlobal + Clone + Drop>(
        &mut self,
        rt: &R,
    ) -> Result<Vec<String>, AllocError> {
        let mut replies = Vec::new(self.alloc);
        self.publish_changes(rt, &mut replies)?;
        Ok(replies)
    }

    // Adds the response that refuses a message.
    fn refuse(
        &self,
        id: Option<&Value>,
        why: Refusal,
        replies: &mut Vec<String>,
    ) -> Result<(), AllocError> {
        reply(self.alloc, replies, refused(self.alloc, id, why)?)
    }

    fn answer_value<R: Env + Files + AllocGlobal + Clone + Drop>(
        &mut self,
        rt: &R,
        value: &Value,
        later: &[Option<Value>],
        replies: &mut Vec<String>,
    ) -> Result<(), AllocError> {
        match read_message(value) {
            Message::Request(id, call) if self.may_cancel(call) && is_cancelled(later, id) => {
                self.refuse(Some(id), Refusal::Cancelled, replies)
            }
            Message::Request(id, call) => {
                self.publish_changes(rt, replies)?;
                let outcome = self.answer_request(rt, call)?;
                self.respond(id, outcome, replies)
            }
            Message::Notification(call) => self.take(call, replies),
            Message::Response => Ok(()),
            Message::Invalid(id) => self.refuse(id, Refusal::InvalidRequest, replies),
        }
    }

    // Adds the response to a request.
    fn respond(
        &self,
        id: &Value,
        outcome: Outcome,
        replies: &mut Vec<String>,
    ) -> Result<(), AllocError> {
        match outcome {
            Ok(found) => reply(self.alloc, replies, response(self.alloc, id, found)?),
            Err(Fault::Refused(why)) => self.refuse(Some(id), why, replies),
            Err(Fault::Failed(why)) => reply(self.alloc, replies, failed(self.alloc, id, why)?),
        }
    }

    // Whether a request may be cancelled: it changes nothing.
    fn may_cancel(&self, call: Call<'_>) -> bool {
        matches!(self.phase, Phase::Running) && call.method != "shutdown"
    }

    // Answers a request.
    fn answer_request<R: Env + Files + AllocGlobal + Clone + Drop>(
        &mut self,
        rt: &R,
        call: Call<'_>,
    ) -> Result<Outcome, AllocError> {
        match (self.phase, call.method) {
            (Phase::New, "initialize") => {
                self.phase = Phase::Running;
                self.encoding = encoding_of(call.params);
                self.is_pulled = is_pulled(call.params);
                Ok(Ok(abilities(self.alloc, self.encoding)?))
            }
            (Phase::New, _) => Ok(Err(Fault::Refused(Refusal::NotInitialized))),
            (Phase::Running, "shutdown") => {
                self.phase = Phase::ShutDown;
                Ok(Ok(Value::Null))
            }
            (Phase::Running, "initialize") | (Phase::ShutDown | Phase::Exited { .. }, _) => {
                Ok(Err(Fault::Refused(Refusal::InvalidRequest)))
            }
            (Phase::Running, _) => self.answer_on_document(rt, call),
        }
    }

    // Returns the number of the document at that path, if the kept analysis is also its own. Then
    // it is a file of the same crate of a package.
    fn kept_number<R: Files + AllocGlobal>(
        &self,
        rt: &R,
        path: &str,
    ) -> Result<Option<usize>, AllocError> {
        let Some(kept) = &self.kept else {
            return Ok(None);
        };
        let (Some(manifest), Some(number)) = (
            &kept.analysis.manifest,
            kept.analysis.found.own_number(path),
        ) else {
            return Ok(None);
        };
        match manifest_of(rt, path)? {
            Some(own) if own.as_str() == manifest.as_str() => Ok(Some(number)),
            Some(_) | None => Ok(None),
        }
    }

    // Keeps what a session finds in the crate of a document, if it isn't kept already.
    pub(crate) fn keep<R: Env + Files + AllocGlobal + Clone + Drop>(
        &mut self,
        rt: &R,
        uri: &str,
    ) -> Result<(), AllocError> {
        let Some(document) = self.documents.get(uri) else {
            return Ok(());
        };
        if let Some(kept) = &self.kept
            && kept.path.as_str() == document.path.as_str()
        {
            return Ok(());
        }
        let path = document.path.clone()?;
        let number = self.kept_number(rt, path.as_str())?;
        match (self.kept.take(), number) {
            (Some(kept), Some(number)) => self.keep_as(kept.analysis, number, path),
            _ => {
                let analysis = analysed(rt, self.texts(), path.as_str(), WHOLE)?;
                self.kept = Some(KeptFindings { path, analysis });
            }
        }
        Ok(())
    }

    // Keeps what rules do with the calls of the crate whose analysis is kept, if that isn't kept
    // already.
    pub(crate) fn keep_rules<R: Env + Files + AllocGlobal + Clone + Drop>(
        &mut self,
        rt: &R,
    ) -> Result<(), AllocError> {
        let Some(kept) = &self.kept else {
            return Ok(());
        };
        if kept.analysis.found.expanded.is_some() {
            return Ok(());
        }
        let Analysis { found, .. } = analysed(rt, self.texts(), kept.path.as_str(), RULES)?;
        self.keep_expanded(found.expanded);
        Ok(())
    }

    // Keeps these results of the rules beside the kept analysis.
    fn keep_expanded(&mut self, expanded: Option<ExpandedCalls>) {
        if let Some(kept) = self.kept.take() {
            let KeptFindings { path, analysis } = kept;
            let Analysis {
                mut found,
                manifest,
            } = analysis;
            found.expanded = expanded;
            self.kept = Some(KeptFindings {
                path,
                analysis: Analysis { found, manifest },
            });
        }
    }

    // Keeps what was found as what is found for file `number`, which has that path.
    fn keep_as(&mut self, mut analysis: Analysis, number: usize, path: String) {
        analysis.found.number = number;
        self.kept = Some(KeptFindings { path, analysis });
    }

    pub(crate) fn writer(&self) -> Writer<'_> {
        Writer {
            alloc: self.alloc,
            documents: &self.documents,
            encoding: self.encoding,
        }
    }

    pub(crate) fn texts(&self) -> Texts<'_> {
        Texts {
            documents: &self.documents,
            folder: self.folder.as_str(),
        }
    }

    // Takes a notification.
    fn take(&mut self, call: Call<'_>, replies: &mut Vec<String>) -> Result<(), AllocError> {
        match (self.phase, call.method) {
            (phase, "exit") => {
                self.phase = Phase::Exited {
                    is_orderly: matches!(phase, Phase::ShutDown),
                };
                Ok(())
            }
            (Phase::Running, _) => match call.params {
                Some(params) => self.take_event(call.method, params, replies),
                None => Ok(()),
            },
            (Phase::New | Phase::ShutDown | Phase::Exited { .. }, _) => Ok(()),
        }
    }
}
