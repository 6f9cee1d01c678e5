// Requests on documents.
use crate::analysis::{Analysis, ONE_STEP, Query, Subject, WHOLE, analysed};
use crate::server::{Fault, Outcome, Server};
use mbe_answers::answers::View;
use mbe_answers::bound_calls::MOST_EXPLAINED;
use mbe_answers::explained_call::line_and_column;
use mbe_answers::findings::{CallSite, Extent, Findings};
use mbe_answers::renaming::Checked;
use mbe_answers::reports::Report;
use mbe_answers::shapes::{document_name, read_position, read_range};
use mbe_protocol::documents::Document;
use mbe_protocol::messages::{Call, Refusal};
use mbe_protocol::positions::{LineTable, Position};
use mbe_session::locations::CallPosition;
use serde_json::{Value, json};
use std::alloc::AllocError;
use std::rt::{Env, Files};

// What a request on a document asks.
#[derive(Clone, Copy, Drop)]
enum Question {
    Hover,
    Definition,
    References,
    Symbols,
    Actions,
    Completion,
    Expansion,
    Preview,
    RenameCheck,
    Rename,
    Folds,
    Selections,
    Signatures,
    Lenses,
    Tokens,
    TokensOfPart,
    Diagnostics,
}

impl Question {
    // Returns what a method asks.
    fn of(method: &str) -> Option<Question> {
        match method {
            "textDocument/hover" => Some(Question::Hover),
            "textDocument/definition" => Some(Question::Definition),
            "textDocument/references" => Some(Question::References),
            "textDocument/documentSymbol" => Some(Question::Symbols),
            "textDocument/codeAction" => Some(Question::Actions),
            "textDocument/completion" => Some(Question::Completion),
            "rust-analyzer/expandMacro" => Some(Question::Expansion),
            "mbe/expansion" => Some(Question::Preview),
            "textDocument/prepareRename" => Some(Question::RenameCheck),
            "textDocument/rename" => Some(Question::Rename),
            "textDocument/foldingRange" => Some(Question::Folds),
            "textDocument/selectionRange" => Some(Question::Selections),
            "textDocument/signatureHelp" => Some(Question::Signatures),
            "textDocument/codeLens" => Some(Question::Lenses),
            "textDocument/semanticTokens/full" => Some(Question::Tokens),
            "textDocument/semanticTokens/range" => Some(Question::TokensOfPart),
            "textDocument/diagnostic" => Some(Question::Diagnostics),
            _ => None,
        }
    }

    // Whether the answer depends on what rules do with calls.
    fn is_on_rules(self) -> bool {
        matches!(
            self,
            Question::Lenses | Question::Tokens | Question::TokensOfPart
        )
    }
}

// The outcome of a request whose parameters aren't those of its method.
const INVALID: Fault = Fault::Refused(Refusal::InvalidParams);

// The kinds of the code actions.
const INLINING: &str = "refactor.inline";

const FIX: &str = "quickfix";

// Whether a kind of code actions is the other, or has it below it.
fn has_kind(kind: &str, other: &str) -> bool {
    match other.strip_prefix(kind) {
        Some(rest) => kind.is_empty() || rest.is_empty() || rest.starts_with('.'),
        None => false,
    }
}

// Whether parameters ask for code actions of a kind.
fn wants(params: &Value, kind: &str) -> bool {
    let Some(kinds) = params.pointer("/context/only").and_then(Value::as_array) else {
        return true;
    };
    for asked in kinds.iter() {
        if let Some(name) = asked.as_str()
            && has_kind(name, kind)
        {
            return true;
        }
    }
    false
}

// Whether parameters ask for the definition beside the references.
fn wants_definition(params: &Value) -> bool {
    params
        .pointer("/context/includeDeclaration")
        .and_then(Value::as_bool)
        .unwrap_or(false)
}

// Whether parameters ask for the origins of the tokens of an expansion.
fn wants_origins(params: &Value) -> bool {
    params
        .get("origins")
        .and_then(Value::as_bool)
        .unwrap_or(false)
}

// Returns all bytes of a document.
fn whole_of(document: &Document) -> Extent {
    Extent {
        start: 0,
        end: document.text.len(),
    }
}

// Adds the quick fixes on a part of a document.
fn add_fixes(view: View<'_>, part: Extent, actions: &mut Vec<Value>) -> Result<(), AllocError> {
    view.add_fixes(part, actions)?;
    match view.found.call_at(part.start) {
        Some(call) => view.add_commas(call, actions),
        None => Ok(()),
    }
}

// Returns the outcome of a request that may fail.
fn outcome(found: Checked) -> Outcome {
    match found {
        Ok(value) => Ok(value),
        Err(why) => Err(Fault::Failed(why)),
    }
}

impl Server {
    // Answers a request on a document. On a document that isn't open the result is null.
    pub(crate) fn answer_on_document<R: Env + Files + AllocGlobal + Clone + Drop>(
        &mut self,
        rt: &R,
        call: Call<'_>,
    ) -> Result<Outcome, AllocError> {
        let Some(question) = Question::of(call.method) else {
            return Ok(Err(Fault::Refused(Refusal::UnknownMethod)));
        };
        let Some(params) = call.params else {
            return Ok(Err(INVALID));
        };
        let Some(uri) = document_name(params) else {
            return Ok(Err(INVALID));
        };
        self.keep(rt, uri)?;
        if question.is_on_rules() {
            self.keep_rules(rt)?;
        }
        self.answer_question(rt, question, uri, params)
    }

    // Answers a question on a document, whose crate's findings are kept.
    fn answer_question<R: Env + Files + AllocGlobal + Clone + Drop>(
        &self,
        rt: &R,
        question: Question,
        uri: &str,
        params: &Value,
    ) -> Result<Outcome, AllocError> {
        let (Some(document), Some(kept)) = (self.documents.get(uri), &self.kept) else {
            return Ok(Ok(self.answer_on_none(question)?));
        };
        let view = View {
            writer: self.writer(),
            document,
            found: &kept.analysis.found,
        };
        match question {
            Question::Symbols => Ok(Ok(view.symbols()?)),
            Question::Lenses => Ok(Ok(view.lenses()?)),
            Question::Folds => Ok(Ok(view.folds()?)),
            Question::Diagnostics => Ok(Ok(self.diagnostic_report(view.found)?)),
            Question::Selections => self.answer_on_places(view, params),
            Question::Actions => self.answer_on_part(rt, view, params),
            Question::Tokens => Ok(Ok(view.highlights(whole_of(document))?)),
            Question::TokensOfPart => self.answer_on_tokens(view, params),
            _ => match self.byte_of(document, params)? {
                Some(byte) => self.answer_with(rt, view, question, byte, params),
                None => Ok(Err(INVALID)),
            },
        }
    }

    // Answers what the tokens of a part of a document are.
    fn answer_on_tokens(&self, view: View<'_>, params: &Value) -> Result<Outcome, AllocError> {
        match self.part_of(view.document, params)? {
            Some(part) => Ok(Ok(view.highlights(part)?)),
            None => Ok(Err(INVALID)),
        }
    }

    // Answers which selections are around positions of a document.
    fn answer_on_places(&self, view: View<'_>, params: &Value) -> Result<Outcome, AllocError> {
        let Some(places) = params.get("positions").and_then(Value::as_array) else {
            return Ok(Err(INVALID));
        };
        let mut positions = Vec::new(self.alloc);
        for place in places.iter() {
            match read_position(place) {
                Some(position) => positions.push(position)?,
                None => return Ok(Err(INVALID)),
            }
        }
        let bytes = self.bytes_of(view.document, positions.as_slice())?;
        Ok(Ok(view.selection_ranges(bytes.as_slice())?))
    }

    // Answers which code actions there are on a part of a document.
    fn answer_on_part<R: Env + Files + AllocGlobal + Clone + Drop>(
        &self,
        rt: &R,
        view: View<'_>,
        params: &Value,
    ) -> Result<Outcome, AllocError> {
        let Some(part) = self.part_of(view.document, params)? else {
            return Ok(Err(INVALID));
        };
        let mut actions = Vec::new(self.alloc);
        if wants(params, FIX) {
            add_fixes(view, part, &mut actions)?;
        }
        if wants(params, INLINING)
            && let Some(call) = view.found.call_at(part.start)
        {
            let path = view.document.path.as_str();
            let stepped = analysed(rt, self.texts(), path, ONE_STEP)?;
            view.add_inlinings(call, &stepped.found, &mut actions)?;
        }
        Ok(Ok(Value::Array(actions)))
    }

    // Answers a question at a byte of a document, with the other parameters.
    fn answer_with<R: Env + Files + AllocGlobal + Clone + Drop>(
        &self,
        rt: &R,
        view: View<'_>,
        question: Question,
        byte: usize,
        params: &Value,
    ) -> Result<Outcome, AllocError> {
        match question {
            Question::RenameCheck => Ok(outcome(view.rename_check(byte)?)),
            Question::Rename => match params.get("newName").and_then(Value::as_str) {
                Some(name) => Ok(outcome(view.rename(byte, name)?)),
                None => Ok(Err(INVALID)),
            },
            Question::References => { Ok(Ok(view.references(byte, wants_definition(params))?)) }
            Question::Preview if wants_origins(params) => {
                Ok(Ok(self.preview_with_origins(rt, view, byte)?))
            }
            _ => Ok(Ok(self.answer_at(rt, view, question, byte)?)),
        }
    }

    // Answers a question on a document that isn't open.
    fn answer_on_none(&self, question: Question) -> Result<Value, AllocError> {
        match question {
            Question::Diagnostics => json!(in self.alloc; {"kind": "full", "items": []}),
            _ => Ok(Value::Null),
        }
    }

    // Returns the report of all diagnostics of the document.
    fn diagnostic_report(&self, found: &Findings) -> Result<Value, AllocError> {
        let report = Report {
            writer: self.writer(),
            found,
        };
        let items = report.diagnostics(found.number)?;
        json!(in self.alloc; {"kind": "full", "items": items})
    }

    // Answers a question at a byte of a document.
    fn answer_at<R: Env + Files + AllocGlobal + Clone + Drop>(
        &self,
        rt: &R,
        view: View<'_>,
        question: Question,
        byte: usize,
    ) -> Result<Value, AllocError> {
        match question {
            Question::Completion => view.completion(byte),
            Question::Expansion => view.expansion(byte),
            Question::Preview => view.preview(byte),
            Question::Signatures => view.signatures(byte),
            Question::Hover | Question::Definition => match view.found.call_at(byte) {
                Some(call) => self.answer_on_call(rt, view, question, call),
                None if matches!(question, Question::Hover) => {
                    view.hover_in_rule(byte, self.bound_text(rt, view, byte)?.as_str())
                }
                None => view.definition_in_rule(byte),
            },
            _ => Ok(Value::Null),
        }
    }

    // Answers a question on a call, by what another session finds that explains the call.
    fn answer_on_call<R: Env + Files + AllocGlobal + Clone + Drop>(
        &self,
        rt: &R,
        view: View<'_>,
        question: Question,
        call: &CallSite,
    ) -> Result<Value, AllocError> {
        let analysis = self.explained(rt, view.found, call)?;
        match question {
            Question::Definition => view.definition(call, &analysis.found),
            _ => view.hover(call, &analysis.found),
        }
    }

    // Asks a session that explains a call.
    fn explained<R: Env + Files + AllocGlobal + Clone + Drop>(
        &self,
        rt: &R,
        found: &Findings,
        call: &CallSite,
    ) -> Result<Analysis, AllocError> {
        let (line, column) = line_and_column(found.text(call.file), call.whole.start);
        let explained = Some(CallPosition {
            line,
            column: Some(column),
        });
        let query = Query { explained, ..WHOLE };
        analysed(rt, self.texts(), found.path(call.file), query)
    }

    // Answers what the call at a byte of a document expands to, and where the tokens are from.
    fn preview_with_origins<R: Env + Files + AllocGlobal + Clone + Drop>(
        &self,
        rt: &R,
        view: View<'_>,
        byte: usize,
    ) -> Result<Value, AllocError> {
        let Some(call) = view.found.call_at(byte) else {
            return Ok(Value::Null);
        };
        let query = Query {
            subject: Subject::Origins(call.whole.start),
            ..WHOLE
        };
        let asked = analysed(rt, self.texts(), view.document.path.as_str(), query)?;
        match &asked.found.expanded {
            Some(expanded) => view.preview_with_origins(call, expanded),
            None => Ok(Value::Null),
        }
    }

    // Returns what the first calls bind a variable to: the variable at the cursor.
    fn bound_text<R: Env + Files + AllocGlobal + Clone + Drop>(
        &self,
        rt: &R,
        view: View<'_>,
        byte: usize,
    ) -> Result<String, AllocError> {
        let mut text = String::new(self.alloc);
        let Some(asked) = view.asked_variable(byte) else {
            return Ok(text);
        };
        let found = view.found;
        let named = found
            .calls
            .iter()
            .filter(|it| it.name.as_str() == asked.macro_name);
        for call in named.take(MOST_EXPLAINED) {
            let explains = self.explained(rt, found, call)?.found;
            asked.add_binding(self.alloc, found, call, &explains, &mut text)?;
        }
        Ok(text)
    }

    // Returns the bytes at positions of a document.
    fn bytes_of(
        &self,
        document: &Document,
        positions: &[Position],
    ) -> Result<Vec<usize>, AllocError> {
        let lines = LineTable::of(self.alloc, document.text.as_str(), self.encoding)?;
        let mut bytes = Vec::new(self.alloc);
        for position in positions {
            bytes.push(lines.byte(*position))?;
        }
        Ok(bytes)
    }

    // Returns the byte of a document that parameters are about.
    fn byte_of(&self, document: &Document, params: &Value) -> Result<Option<usize>, AllocError> {
        let Some(position) = params.get("position").and_then(read_position) else {
            return Ok(None);
        };
        let lines = LineTable::of(self.alloc, document.text.as_str(), self.encoding)?;
        Ok(Some(lines.byte(position)))
    }

    // Returns the part of a document that parameters are about.
    fn part_of(&self, document: &Document, params: &Value) -> Result<Option<Extent>, AllocError> {
        let Some(range) = params.get("range").and_then(read_range) else {
            return Ok(None);
        };
        let lines = LineTable::of(self.alloc, document.text.as_str(), self.encoding)?;
        let start = lines.byte(range.start);
        let end = lines.byte(range.end).max(start);
        Ok(Some(Extent { start, end }))
    }
}
