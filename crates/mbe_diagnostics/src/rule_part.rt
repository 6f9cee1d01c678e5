// Describes what a pattern expects: its text for messages, and its span in the rule.
ghost use Rattle.std.specs.Prelude.{◌≡◌, IfOk};
ghost use Rattle.std.specs.String.{string_bytes};
ghost use Rattle.mbe_matcher.specs.Expected.{expected_seen};
ghost use Rattle.mbe_ops.specs.Views.{op_of, separator_seen};
ghost use Rattle.mbe_semantics.specs.Expansion.MatchError.{puncts_text};
ghost use Rattle.mbe_diagnostics.specs.Outcome as spec;
ghost use Rattle.mbe_diagnostics.specs.Outcome.{part_of, part_seen, quoted};

use mbe_matcher::expectations::Expected;
use mbe_ops::ops::{Op, Separator};
use mbe_semantics::fragment_kinds::MetaVarKind;
use mbe_tt::span::Span;
use mbe_tt::tt::{DelimiterKind, Punct};
use std::alloc::{AllocError, Allocator, Global};

/// A part of a rule, for messages. Clauses see it by `part_seen`.
#[derive(Drop)]
pub struct RulePart<A: Allocator = Global> {
    /// A token in backquotes, a variable with its kind, an opening delimiter, or an end.
    pub text: String<A>,
    /// The span of the variable's name, of the token or of the opening delimiter. An end has none.
    pub span: Option<Span>,
}

pub(crate) fn opening_of(kind: DelimiterKind) -> &'static str
    ensures { result.now ≡ spec.opening kind }
{
    match kind {
        DelimiterKind::Parenthesis => "`(`",
        DelimiterKind::Brace => "`{`",
        DelimiterKind::Bracket => "`[`",
        DelimiterKind::Invisible => "an invisible group",
    }
}

// Returns the characters of the puncts.
fn chars_of<A: Allocator>(alloc: A, puncts: &[Punct]) -> Result<String<A>, AllocError>
    ensures { IfOk result (λ text. string_bytes text ≡ puncts_text puncts.now) }
{
    let mut text = String::new(alloc);
    for punct in puncts {
        text.push(punct.char)?;
    }
    Ok(text)
}

pub(crate) fn puncts_quoted<A: Allocator + Copy>(
    alloc: A,
    puncts: &[Punct],
) -> Result<String<A>, AllocError>
    ensures { IfOk result (λ text. string_bytes text ≡ quoted (puncts_text puncts.now)) }
{
    let chars = chars_of(alloc, puncts)?;
    format!(in alloc; "`{chars}`")
}

/// Returns a variable of a pattern in backquotes, such as `$x:expr`. An unknown specifier becomes
/// `?`. `AllocError` if out of memory.
pub fn variable_text<A: Allocator>(
    alloc: A,
    name: &str,
    kind: Option<MetaVarKind>,
) -> Result<String<A>, AllocError>
    ensures { IfOk result (λ text. string_bytes text ≡ spec.variable_text name.now kind) }
{
    match kind {
        None => format!(in alloc; "`${name}:?`"),
        Some(kind) => {
            let specifier = kind.specifier();
            format!(in alloc; "`${name}:{specifier}`")
        }
    }
}

#[tactic(auto, using(mbe_ops::proofs::OpViews::views))]
fn op_text<A: Allocator + Copy>(alloc: A, op: &Op<A>) -> Result<String<A>, AllocError>
    ensures { IfOk result (λ text. string_bytes text ≡ spec.op_text (op_of op.now)) }
{
    match op {
        Op::Var { name, kind, .. } => variable_text(alloc, name.as_str(), *kind),
        Op::Subtree { delimiter, .. } => String::from_str(alloc, opening_of(delimiter.get().kind)),
        Op::Literal(literal) => format!(in alloc; "`{literal}`"),
        Op::Ident(ident) => format!(in alloc; "`{ident}`"),
        Op::Punct(puncts) => puncts_quoted(alloc, puncts.as_slice()),
        Op::Repeat { .. } => Ok(String::new(alloc)),
        Op::Expression(_) => Ok(String::new(alloc)),
    }
}

fn separator_text<A: Allocator + Copy>(
    alloc: A,
    separator: &Separator<A>,
) -> Result<String<A>, AllocError>
    ensures { IfOk result (λ text. string_bytes text
        ≡ spec.separator_text (separator_seen separator.now)) }
{
    match separator {
        Separator::Literal(literal) => format!(in alloc; "`{literal}`"),
        Separator::Ident(ident) => format!(in alloc; "`{ident}`"),
        Separator::Puncts(puncts) => puncts_quoted(alloc, puncts.as_slice()),
        Separator::Lifetime(_, ident) => format!(in alloc; "`'{ident}`"),
    }
}

fn text_of<A: Allocator + Copy>(
    alloc: A,
    expected: Expected<'_, A>,
) -> Result<String<A>, AllocError>
    ensures { IfOk result (λ text. string_bytes text
        ≡ spec.text_of (expected_seen expected.entry)) }
{
    match expected {
        Expected::End => String::from_str(alloc, "the end of the call"),
        Expected::Closing => String::from_str(alloc, "the end of the group"),
        Expected::Separator(separator) => separator_text(alloc, separator),
        Expected::Op(op) => op_text(alloc, op),
    }
}

fn first_span(puncts: &[Punct]) -> Option<Span>
    ensures { result ≡ spec.first_place puncts.now }
{
    match puncts {
        [] => None,
        [first, ..] => Some(first.span),
    }
}

// Returns the span of the separator's first token.
pub(crate) fn separator_span<A: Allocator>(separator: &Separator<A>) -> Option<Span>
    ensures { result ≡ spec.separator_place (separator_seen separator.now) }
{
    match separator {
        Separator::Literal(literal) => Some(literal.span),
        Separator::Ident(ident) => Some(ident.span),
        Separator::Puncts(puncts) => first_span(puncts.as_slice()),
        Separator::Lifetime(quote, _) => Some(quote.span),
    }
}

// Returns the span of the op's first token. A repetition or an expression has none.
#[tactic(auto, using(mbe_ops::proofs::OpViews::views))]
pub(crate) fn op_span<A: Allocator>(op: &Op<A>) -> Option<Span>
    ensures { result ≡ spec.op_place (op_of op.now) }
{
    match op {
        Op::Var { id, .. } => Some(*id),
        Op::Subtree { delimiter, .. } => Some(delimiter.get().opening),
        Op::Literal(literal) => Some(literal.span),
        Op::Ident(ident) => Some(ident.span),
        Op::Punct(puncts) => first_span(puncts.as_slice()),
        Op::Repeat { .. } => None,
        Op::Expression(_) => None,
    }
}

fn span_of<A: Allocator>(expected: Expected<'_, A>) -> Option<Span>
    ensures { result ≡ spec.place_of (expected_seen expected.entry) }
{
    match expected {
        Expected::End | Expected::Closing => None,
        Expected::Separator(separator) => separator_span(separator),
        Expected::Op(op) => op_span(op),
    }
}

/// Returns what is expected as a part of the rule: its text and its span. `AllocError` if out of
/// memory.
pub fn describe<A: Allocator + Copy>(
    alloc: A,
    expected: Expected<'_, A>,
) -> Result<RulePart<A>, AllocError>
    ensures { IfOk result (λ part. part_seen part ≡ part_of (expected_seen expected.entry)) }
{
    Ok(RulePart {
        text: text_of(alloc, expected)?,
        span: span_of(expected),
    })
}
