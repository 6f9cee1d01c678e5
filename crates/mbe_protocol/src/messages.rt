// Messages of JSON-RPC 2.0: requests, notifications and responses.
ghost use Rattle.std.specs.Prelude.{◌≡◌, codes, Some, IfOk};
ghost use Rattle.serde_json.specs.Find.{get};
ghost use Rattle.serde_json.specs.View.{view};

use serde_json::{Value, json};
use std::alloc::{AllocError, Global};

/// Why a message is refused, with the number that JSON-RPC or the protocol gives it.
#[derive(Clone, Copy, Drop)]
pub enum Refusal {
    /// The content is no JSON.
    Parse,
    /// The content is JSON, but no request.
    InvalidRequest,
    UnknownMethod,
    InvalidParams,
    NotInitialized,
    /// The client cancelled the request.
    Cancelled,
}

/// A message.
#[derive(Drop)]
pub enum Message<'v> {
    /// A message that asks for a response.
    Request(&'v Value, Call<'v>),
    Notification(Call<'v>),
    /// A response to a request of the server.
    Response,
    /// None of these. The response has the identifier, if there is one.
    Invalid(Option<&'v Value>),
}

/// The method of a message, and its parameters.
#[derive(Clone, Copy, Drop)]
pub struct Call<'v> {
    pub method: &'v str,
    pub params: Option<&'v Value>,
}

impl Refusal {
    /// Returns the number of the refusal.
    pub fn code(self) -> i64 {
        match self {
            Refusal::Parse => -32700,
            Refusal::InvalidRequest => -32600,
            Refusal::UnknownMethod => -32601,
            Refusal::InvalidParams => -32602,
            Refusal::NotInitialized => -32002,
            Refusal::Cancelled => -32800,
        }
    }

    /// Returns the text of the refusal.
    pub fn text(self) -> &'static str {
        match self {
            Refusal::Parse => "the content isn't JSON",
            Refusal::InvalidRequest => "this isn't a valid request now",
            Refusal::UnknownMethod => "the method isn't known",
            Refusal::InvalidParams => "the parameters aren't those of the method",
            Refusal::NotInitialized => "the server isn't initialized",
            Refusal::Cancelled => "the client cancelled the request",
        }
    }
}

// Whether a value may be the identifier of a request.
fn is_identifier(value: &Value) -> bool {
    match value {
        Value::String(_) => true,
        Value::Number(number) => number.is_i64() || number.is_u64(),
        Value::Null | Value::Bool(_) | Value::Array(_) | Value::Object(_) => false,
    }
}

// Whether two identifiers are the same text or number.
fn is_same_identifier(one: &Value, other: &Value) -> bool {
    match (one.as_str(), other.as_str()) {
        (Some(text), Some(same)) => text == same,
        (None, None) => one.as_i64().is_some() && one.as_i64() == other.as_i64(),
        (Some(_), None) | (None, Some(_)) => false,
    }
}

/// Whether a value is the notification that cancels the request with that identifier.
pub fn cancels(value: &Value, id: &Value) -> bool {
    let is_cancellation = value.get("method").and_then(Value::as_str) == Some("$/cancelRequest");
    match value.pointer("/params/id") {
        Some(cancelled) => is_cancellation && is_same_identifier(cancelled, id),
        None => false,
    }
}

/// Reads what message a value is.
pub fn read_message(value: &Value) -> Message<'_> {
    let id = value.get("id");
    let known = id.filter(|id| is_identifier(*id));
    if value.get("jsonrpc").and_then(Value::as_str) != Some("2.0") {
        return Message::Invalid(known);
    }
    let Some(method) = value.get("method") else {
        let is_response = value.get("result").is_some() || value.get("error").is_some();
        return if is_response {
            Message::Response
        } else {
            Message::Invalid(known)
        };
    };
    let Some(method) = method.as_str() else {
        return Message::Invalid(known);
    };
    let call = Call {
        method,
        params: value.get("params"),
    };
    match (id, known) {
        (None, _) => Message::Notification(call),
        (Some(_), Some(id)) => Message::Request(id, call),
        (Some(_), None) => Message::Invalid(None),
    }
}

/// Returns the response to the request with that identifier. `AllocError` if out of memory.
pub fn response(alloc: Global, id: &Value, outcome: Value) -> Result<Value, AllocError>
    ensures { IfOk result (λ v. get (codes "id") (view v) ≡ Some (view id.now)) }
{
    json!(in alloc; {"jsonrpc": "2.0", "id": id, "result": outcome})
}

/// Returns the response that refuses a request. Without an identifier it has `null`. `AllocError`
/// if out of memory.
pub fn refused(alloc: Global, id: Option<&Value>, why: Refusal) -> Result<Value, AllocError> {
    let (code, text) = (why.code(), why.text());
    let error = json!(in alloc; {"code": code, "message": text})?;
    match id {
        Some(id) => json!(in alloc; {"jsonrpc": "2.0", "id": id, "error": error}),
        None => json!(in alloc; {"jsonrpc": "2.0", "id": null, "error": error}),
    }
}

/// Returns a notification. `AllocError` if out of memory.
pub fn notification(alloc: Global, method: &str, params: Value) -> Result<Value, AllocError> {
    json!(in alloc; {"jsonrpc": "2.0", "method": method, "params": params})
}
