// Writes the values of a trace as JSON: each `place`, variables with what they are bound to, and
// tokens with their origins.
use crate::call_view::CallView;
use crate::page_data::PageData;
use mbe::Binding;
use mbe_diagnostics::rule_checks::variables::PatternVariable;
use mbe_markup::fragments::{TokenOrigin, fragment_trees};
use mbe_markup::json::{Json, Piece};
use mbe_markup::token_text::{TextToken, TokenText, source_tokens, token_text};
use mbe_tt::span::Span;
use mbe_tt::symbol::Symbol;
use mbe_tt::tt::TokenTreesView;
use std::alloc::{AllocError, Global};

/// The greatest depth to which nested rounds are written.
const LEVELS: u32 = 64;

/// Returns what separates an item of a list from the item before it.
pub fn separator(index: usize) -> Piece<'static> {
    Piece::Mark(if index == 0 { "" } else { "," })
}

/// Writes a number, or `null`. `AllocError` if out of memory.
pub fn write_number(
    alloc: Global,
    json: &mut Json,
    number: Option<usize>,
) -> Result<(), AllocError> {
    match number {
        Some(number) => json.write(alloc, &[Piece::Number(number)]),
        None => json.write(alloc, &[Piece::Mark("null")]),
    }
}

/// Writes a `place`: the number of a file, and in that file the first byte and the byte after it.
/// `AllocError` if out of memory.
pub fn write_place(
    alloc: Global,
    json: &mut Json,
    shown: &PageData<'_>,
    span: Span,
) -> Result<(), AllocError> {
    json.write(
        alloc,
        &[
            Piece::Mark("["),
            Piece::Number(span.file as usize),
            Piece::Mark(","),
            Piece::Number(shown.place(span.file, span.start)),
            Piece::Mark(","),
            Piece::Number(shown.place(span.file, span.end)),
            Piece::Mark("]"),
        ],
    )
}

/// Writes a `place`, or `null`. `AllocError` if out of memory.
pub fn write_known_place(
    alloc: Global,
    json: &mut Json,
    shown: &PageData<'_>,
    span: Option<Span>,
) -> Result<(), AllocError> {
    match span {
        Some(span) => write_place(alloc, json, shown, span),
        None => json.write(alloc, &[Piece::Mark("null")]),
    }
}

// ---- variables

// Returns the span from the first token to the last one. If the last one is from elsewhere, it is
// the span of the first token alone.
fn whole_span(tokens: &[TextToken]) -> Option<Span> {
    let (Some(first), Some(last)) = (tokens.first(), tokens.last()) else {
        return None;
    };
    let (first, last) = (first.span, last.span);
    if first.file != last.file || last.end < first.start {
        return Some(first);
    }
    Some(Span {
        end: last.end,
        ..first
    })
}

// Writes a fragment: its text, and where it is from. A fragment without a text is `null`.
fn write_fragment(
    alloc: Global,
    json: &mut Json,
    shown: &PageData<'_>,
    trees: TokenTreesView<'_>,
) -> Result<(), AllocError> {
    let TokenText { text, .. } = token_text(alloc, trees)?;
    if text.is_empty() {
        return json.write(alloc, &[Piece::Mark("null")]);
    }
    json.write(
        alloc,
        &[
            Piece::Mark("{\"text\":"),
            Piece::Text(text.as_str()),
            Piece::Mark(",\"place\":"),
        ],
    )?;
    let span = whole_span(source_tokens(alloc, trees)?.as_slice());
    write_known_place(alloc, json, shown, span)?;
    json.write(alloc, &[Piece::Mark("}")])
}

// Writes what a variable is bound to. Rounds are a list.
fn write_bound(
    alloc: Global,
    json: &mut Json,
    shown: &PageData<'_>,
    binding: &Binding<'_>,
    levels: u32,
) -> Result<(), AllocError> {
    if let Some(trees) = fragment_trees(binding) {
        return write_fragment(alloc, json, shown, trees);
    }
    let Binding::Nested(rounds) = binding else {
        return write_no_fragment(alloc, json, binding);
    };
    if levels == 0 {
        return json.write(alloc, &[Piece::Mark("null")]);
    }
    json.write(alloc, &[Piece::Mark("[")])?;
    for (index, inner) in rounds.iter().enumerate() {
        json.write(alloc, &[separator(index)])?;
        write_bound(alloc, json, shown, inner, levels - 1)?;
    }
    json.write(alloc, &[Piece::Mark("]")])
}

// Writes what a variable without a fragment is bound to: no round, or nothing.
fn write_no_fragment(
    alloc: Global,
    json: &mut Json,
    binding: &Binding<'_>,
) -> Result<(), AllocError> {
    match binding {
        Binding::Empty => json.write(alloc, &[Piece::Mark("[]")]),
        Binding::Fragment(_) | Binding::Nested(_) | Binding::Missing(_) => {
            json.write(alloc, &[Piece::Mark("null")])
        }
    }
}

// Writes what the variable of that name is bound to.
fn write_binding(
    alloc: Global,
    json: &mut Json,
    shown: &PageData<'_>,
    view: &CallView<'_>,
    name: &str,
) -> Result<(), AllocError> {
    let name = Symbol::intern(alloc, name)?;
    if let Some(bindings) = &view.bindings
        && let Some(binding) = bindings.get(&name)
    {
        return write_bound(alloc, json, shown, binding, LEVELS);
    }
    json.write(alloc, &[Piece::Mark("null")])
}

// Writes a variable of the rule that applies.
fn write_variable(
    alloc: Global,
    json: &mut Json,
    shown: &PageData<'_>,
    view: &CallView<'_>,
    variable: PatternVariable<'_>,
) -> Result<(), AllocError> {
    json.write(
        alloc,
        &[Piece::Mark("{\"name\":"), Piece::Text(variable.name)],
    )?;
    if let Some(kind) = variable.kind {
        json.write(
            alloc,
            &[Piece::Mark(",\"kind\":"), Piece::Text(kind.specifier())],
        )?;
    }
    json.write(alloc, &[Piece::Mark(",\"bound\":")])?;
    write_binding(alloc, json, shown, view, variable.name)?;
    json.write(alloc, &[Piece::Mark("}")])
}

/// Writes the variables of the rule that applies, as a list. `AllocError` if out of memory.
pub fn write_variables(
    alloc: Global,
    json: &mut Json,
    shown: &PageData<'_>,
    view: &CallView<'_>,
) -> Result<(), AllocError> {
    json.write(alloc, &[Piece::Mark("[")])?;
    for (index, variable) in view.variables.iter().enumerate() {
        json.write(alloc, &[separator(index)])?;
        write_variable(alloc, json, shown, view, *variable)?;
    }
    json.write(alloc, &[Piece::Mark("]")])
}

// ---- tokens

// Returns the name of an origin.
fn origin_name(origin: TokenOrigin<'_>) -> &'static str {
    match origin {
        TokenOrigin::Template => "\"template\"",
        TokenOrigin::Variable { .. } => "\"variable\"",
        TokenOrigin::Argument => "\"argument\"",
        TokenOrigin::Added => "\"added\"",
    }
}

// Writes the variable that a token is of, and the round that begins with it.
fn write_origin_variable(
    alloc: Global,
    json: &mut Json,
    view: &CallView<'_>,
    origin: TokenOrigin<'_>,
) -> Result<(), AllocError> {
    let TokenOrigin::Variable { variable, round } = origin else {
        return Ok(());
    };
    if let Some(found) = view.variables.get(variable) {
        json.write(
            alloc,
            &[Piece::Mark(",\"variable\":"), Piece::Text(found.name)],
        )?;
    }
    if round.is_empty() {
        return Ok(());
    }
    json.write(alloc, &[Piece::Mark(",\"round\":"), Piece::Text(round)])
}

// Writes a token: its text, its origin, and the `place` that it comes from.
fn write_token(
    alloc: Global,
    json: &mut Json,
    shown: &PageData<'_>,
    view: &CallView<'_>,
    origin: TokenOrigin<'_>,
    text: &str,
    span: Span,
) -> Result<(), AllocError> {
    json.write(
        alloc,
        &[
            Piece::Mark("{\"text\":"),
            Piece::Text(text),
            Piece::Mark(",\"origin\":"),
            Piece::Mark(origin_name(origin)),
        ],
    )?;
    write_origin_variable(alloc, json, view, origin)?;
    json.write(alloc, &[Piece::Mark(",\"place\":")])?;
    match origin {
        TokenOrigin::Added => json.write(alloc, &[Piece::Mark("null}")]),
        TokenOrigin::Template | TokenOrigin::Variable { .. } | TokenOrigin::Argument => {
            write_place(alloc, json, shown, span)?;
            json.write(alloc, &[Piece::Mark("}")])
        }
    }
}

/// Writes the tokens of an expansion that have a text, as a list. `contexts` are the syntax
/// contexts of the template's tokens. `AllocError` if out of memory.
pub fn write_tokens(
    alloc: Global,
    json: &mut Json,
    shown: &PageData<'_>,
    view: &CallView<'_>,
    contexts: (u32, u32),
    written: &TokenText,
) -> Result<(), AllocError> {
    let mut count = 0usize;
    json.write(alloc, &[Piece::Mark("[")])?;
    for token in &written.tokens {
        let word = written.text.get(token.start..token.end).unwrap_or("");
        if !word.is_empty() {
            json.write(alloc, &[separator(count)])?;
            count = count.saturating_add(1);
            let origin = view.origin_of(contexts, token.span, word);
            write_token(alloc, json, shown, view, origin, word, token.span)?;
        }
    }
    json.write(alloc, &[Piece::Mark("]")])
}
