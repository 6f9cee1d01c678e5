// Writes a diagnostic and its children as a JSON object, in the form of rustc's
// `--error-format=json`.
ghost use Rattle.std.specs.Prelude.{◌≡◌, ◌++◌, [], IfOk, OnOk, true, false};
ghost use Rattle.std.specs.String.{string_bytes};
ghost use Rattle.serde_json.specs.Data.{string};
ghost use Rattle.serde_json.specs.Written.{compact_text};
ghost use Rattle.mbe_diagnostics.specs.Diagnostics.{text, word};
ghost use Rattle.mbe_diagnostics.specs.Json as spec;

use crate::diagnostic::{Diagnostic, FilePart, Level, Point};
use crate::renderer::rendered;
use serde_json::Value;
use std::alloc::{AllocError, Global};

// Returns the text as a JSON string.
fn text_json(alloc: Global, text: &str) -> Result<String, AllocError>
    ensures { IfOk result (λ t. string_bytes t ≡ spec.text_json text.now) }
{
    let value = Value::String(String::from_str(alloc, text)?);
    value.to_string(alloc)
}

// Returns the object of a line: its text, and the columns of the part in it.
fn line_json(alloc: Global, line: &str, start: usize, end: usize) -> Result<String, AllocError>
    ensures { IfOk result (λ t. string_bytes t ≡ spec.line_json line.now start end) }
{
    let line = text_json(alloc, line)?;
    format!(in alloc; "{{\"text\":{line},\"highlight_start\":{start},\"highlight_end\":{end}}}")
}

// Returns the members for the start and the end of a part, in one measure: `byte`, `line` or
// `column`.
#[tactic(auto, unfolding(crate::specs::Json::bounds_json))]
fn bounds_json(alloc: Global, measure: &str, start: usize, end: usize) -> Result<String, AllocError>
    ensures { IfOk result (λ t. string_bytes t ≡ spec.bounds_json measure.now start end) }
{
    format!(in alloc; "\"{measure}_start\":{start},\"{measure}_end\":{end}")
}

// Returns the members for the start and the end of a part, in bytes, lines and columns.
fn range_json(alloc: Global, start: Point, end: Point) -> Result<String, AllocError>
    ensures { IfOk result (λ t. string_bytes t ≡ spec.range_json start end) }
{
    let bytes = bounds_json(alloc, "byte", start.byte, end.byte)?;
    let lines = bounds_json(alloc, "line", start.line, end.line)?;
    let columns = bounds_json(alloc, "column", start.column, end.column)?;
    format!(in alloc; "{bytes},{lines},{columns}")
}

// Returns the object of a part of a file: its file, its range and its line.
fn span_json(alloc: Global, part: &FilePart<'_>) -> Result<String, AllocError>
    ensures { IfOk result (λ t. string_bytes t ≡ spec.span_json part.now) }
{
    let file = text_json(alloc, part.file)?;
    let range = range_json(alloc, part.start, part.end)?;
    let line = line_json(alloc, part.line, part.start.column, part.end.column)?;
    format!(in alloc;
        "{{\"file_name\":{file},{range},\"is_primary\":true,\"text\":[{line}],\"label\":null,\
            \"suggested_replacement\":null,\"suggestion_applicability\":null,\"expansion\":null}}"
    )
}

// Returns the spans of a diagnostic: one, or none without a file.
fn spans_json(alloc: Global, place: &Option<FilePart<'_>>) -> Result<String, AllocError>
    ensures { IfOk result (λ t. string_bytes t ≡ spec.spans_json place.now) }
{
    match place {
        Some(part) => span_json(alloc, part),
        None => Ok(String::new(alloc)),
    }
}

// Returns the object of a code, which has no explanation. An empty code is null.
#[tactic(auto, unfolding(crate::specs::Json::code_json))]
fn code_json(alloc: Global, code: &str) -> Result<String, AllocError>
    ensures { IfOk result (λ t. string_bytes t ≡ spec.code_json code.now) }
{
    if code.is_empty() {
        return String::from_str(alloc, "null");
    }
    let code = text_json(alloc, code)?;
    format!(in alloc; "{{\"code\":{code},\"explanation\":null}}")
}

// Returns the members of a diagnostic or a child, up to its children: the message, the code, the
// level and the spans. Code and spans are given as JSON.
#[tactic(auto, unfolding(crate::specs::Json::members_json))]
fn members_json(
    alloc: Global,
    level: &str,
    message: &str,
    code: &str,
    spans: &str,
) -> Result<String, AllocError>
    ensures { IfOk result (λ t. string_bytes t
        ≡ spec.members_json level.now message.now code.now spans.now) }
{
    let message = text_json(alloc, message)?;
    format!(in alloc;
        "\"message\":{message},\"code\":{code},\"level\":\"{level}\",\"spans\":[{spans}],\
            \"children\":["
    )
}

// Returns the members of a diagnostic or a child, up to its children.
fn front_json(alloc: Global, diag: &Diagnostic<'_>) -> Result<String, AllocError>
    ensures { IfOk result (λ t. string_bytes t ≡ spec.front_json diag.now) }
{
    let code = code_json(alloc, diag.code)?;
    let spans = spans_json(alloc, &diag.place)?;
    members_json(
        alloc,
        diag.level.word(),
        diag.message,
        code.as_str(),
        spans.as_str(),
    )
}

// Returns the object of a child. As in rustc, only its parent has the text as people read it.
#[tactic(auto, unfolding(crate::specs::Json::child_json))]
fn child_json(alloc: Global, child: &Diagnostic<'_>) -> Result<String, AllocError>
    ensures { IfOk result (λ t. string_bytes t ≡ spec.child_json child.now) }
{
    let front = front_json(alloc, child)?;
    format!(in alloc; "{{{front}],\"rendered\":null}}")
}

// Appends the object of a child, after a comma if it isn't the first one.
fn push_child(
    alloc: Global,
    is_first: bool,
    child: &Diagnostic<'_>,
    text: &mut String,
) -> Result<(), AllocError>
    ensures { OnOk result (string_bytes text.new ≡ string_bytes text.old
        ++ spec.listed is_first child.now) }
{
    text.push_str(if is_first { "" } else { "," })?;
    let object = child_json(alloc, child)?;
    text.push_str(object.as_str())
}

// Appends the objects of the children of a diagnostic.
fn push_children(
    alloc: Global,
    children: &[Diagnostic<'_>],
    text: &mut String,
) -> Result<(), AllocError>
    ensures { OnOk result (string_bytes text.new ≡ string_bytes text.old
        ++ spec.children_json true children.now) }
{
    let mut is_first = true;
    for child in children {
        push_child(alloc, is_first, child, text)?;
        is_first = false;
    }
    Ok(())
}

// Returns the objects of the children of a diagnostic, with commas between them.
fn children_json(alloc: Global, children: &[Diagnostic<'_>]) -> Result<String, AllocError>
    ensures { IfOk result (λ t. string_bytes t ≡ spec.children_json true children.now) }
{
    let mut text = String::new(alloc);
    push_children(alloc, children, &mut text)?;
    Ok(text)
}

// Returns the object of a diagnostic, from its first members, the objects of its children, and the
// text as people read it.
#[tactic(auto, unfolding(crate::specs::Json::object_json))]
fn object_json(
    alloc: Global,
    front: &str,
    children: &str,
    rendered: &str,
) -> Result<String, AllocError>
    ensures { IfOk result (λ t. string_bytes t
        ≡ spec.object_json front.now children.now rendered.now) }
{
    let rendered = text_json(alloc, rendered)?;
    format!(in alloc;
        "{{\"$message_type\":\"diagnostic\",{front}{children}],\"rendered\":{rendered}}}"
    )
}

/// Returns the object of a diagnostic with its children, in one line. `AllocError` if out of
/// memory.
pub fn json_line(
    alloc: Global,
    diag: &Diagnostic<'_>,
    children: &[Diagnostic<'_>],
) -> Result<String, AllocError>
    ensures { IfOk result (λ t. string_bytes t ≡ spec.json_line diag.now children.now) }
{
    let rendered = rendered(alloc, diag, children, false)?;
    let front = front_json(alloc, diag)?;
    let children = children_json(alloc, children)?;
    object_json(alloc, front.as_str(), children.as_str(), rendered.as_str())
}

/// Returns the object of a diagnostic without a code, a span and children, in one line.
/// `AllocError` if out of memory.
pub fn plain_line(alloc: Global, level: Level, message: &str) -> Result<String, AllocError>
    ensures { IfOk result (λ t. string_bytes t ≡ spec.plain_line level message.now) }
{
    let word = level.word();
    let rendered = format!(in alloc; "{word}: {message}\n\n")?;
    let front = members_json(alloc, word, message, "null", "")?;
    object_json(alloc, front.as_str(), "", rendered.as_str())
}
