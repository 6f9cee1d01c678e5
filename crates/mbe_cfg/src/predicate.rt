// Evaluates predicates of `cfg`, as the Reference defines them: a name, a name with a value,
// `true`, `false`, and `all`, `any` and `not` of predicates.
ghost use Rattle.std.specs.Prelude.{◌≡◌};
ghost use Rattle.std.specs.Result.{result_map_both};
ghost use Rattle.mbe_tt.specs.Trees.Tree.{flat_len};
ghost use Rattle.mbe_tt.specs.Views.View.{trees};
ghost use Rattle.mbe_tt.specs.Views.LeafViews.{ident_of, literal_of};
ghost use Rattle.mbe_cfg.specs.Predicates as spec;
ghost use Rattle.mbe_cfg.specs.Predicates.{predicate, items, item, one};
ghost use Rattle.mbe_cfg.specs.CfgViews.{predicate_value_shown, view_shown, group_shown};

use crate::cfg_fault::{CfgFault, CfgFaultKind};
use crate::cfg_options::CfgOptions;
use crate::tree_front::{Group, after_char, group_at, is_empty, start_span};
use mbe_tt::span::Span;
use mbe_tt::tt::{
    DelimiterKind, Ident, IdentIsRaw, Leaf, LitKind, Literal, TokenTreesView, TtElement,
};
use std::alloc::{Allocator, Global};

/// The maximum nesting of predicates, and of attributes in `cfg_attr`. Deeper nesting is a fault.
pub const DEPTH: u32 = 128;

/// Whether the predicate or the attributes at the front hold, and the trees after them.
#[derive(Drop)]
pub struct PredicateValue<'t, A: Allocator = Global> {
    pub holds: bool,
    pub rest: TokenTreesView<'t, A>,
}

/// The meaning of a name before parentheses.
#[derive(Drop)]
pub enum PredicateOperator {
    All,
    Any,
    Not,
    Unstable,
    Unknown,
}

// Returns the fault of that kind at `at`.
fn fault(fault_kind: CfgFaultKind, at: Span) -> CfgFault
    ensures { result ≡ record { fault_kind = fault_kind; at = at } }
{
    CfgFault { fault_kind, at }
}

fn operator_of(name: &str) -> PredicateOperator
    ensures { result ≡ spec.operator_of name.now }
{
    if name == "all" {
        PredicateOperator::All
    } else if name == "any" {
        PredicateOperator::Any
    } else if name == "not" {
        PredicateOperator::Not
    } else if name == "version" || name == "target" {
        PredicateOperator::Unstable
    } else {
        PredicateOperator::Unknown
    }
}

// Returns what `true` or `false` means. A raw identifier is a name.
fn constant(is_raw: IdentIsRaw, name: &str) -> Option<bool>
    ensures { result ≡ spec.constant is_raw name.now }
{
    match is_raw {
        IdentIsRaw::Yes => None,
        IdentIsRaw::No => constant_of_word(name),
    }
}

fn constant_of_word(name: &str) -> Option<bool>
    ensures { result ≡ spec.constant_of_word name.now }
{
    if name == "true" {
        Some(true)
    } else if name == "false" {
        Some(false)
    } else {
        None
    }
}

// Returns the trees after the comma at the front, or no trees at the end.
fn after_separator<'t, A: Allocator>(
    close: Span,
    tokens: TokenTreesView<'t, A>,
) -> Result<TokenTreesView<'t, A>, CfgFault>
    ensures { view_shown result ≡ spec.after_separator close (trees tokens.entry) }
{
    if is_empty(tokens) {
        return Ok(tokens);
    }
    match after_char(tokens, ',') {
        Some(rest) => Ok(rest),
        None => Err(fault(CfgFaultKind::NoComma, start_span(close, tokens))),
    }
}

// Returns whether the text has a backslash.
fn has_escape(text: &str) -> bool
    ensures { result ≡ spec.has_escape text.now }
{
    text.as_bytes().iter().any(|b| *b == 92)
}

// Returns the text of a string as it is written, if it means that text. Any other literal is a
// fault.
fn plain_text<'t, A: Allocator>(literal: &'t Literal<A>) -> Result<&'t str, CfgFault>
    ensures { result_map_both (λ t. t.now) (λ e. e) result
        ≡ spec.plain_text (literal_of literal.now) }
{
    if literal.suffix_len > 0 {
        return Err(fault(CfgFaultKind::Suffix, literal.span));
    }
    match literal.kind {
        LitKind::StrRaw(_) => Ok(literal.text_and_suffix.as_str()),
        LitKind::Str if has_escape(literal.text_and_suffix.as_str()) => {
            Err(fault(CfgFaultKind::Escape, literal.span))
        }
        LitKind::Str => Ok(literal.text_and_suffix.as_str()),
        _ => Err(fault(CfgFaultKind::NoString, literal.span)),
    }
}

// Returns the text of the string at the front.
fn text_at<'t, A: Allocator>(
    close: Span,
    tokens: TokenTreesView<'t, A>,
) -> Result<&'t str, CfgFault>
    ensures { result_map_both (λ t. t.now) (λ e. e) result
        ≡ spec.text_at close (trees tokens.entry) }
{
    match tokens.iter().next() {
        Some(TtElement::Leaf(Leaf::Literal(literal))) => plain_text(literal),
        _ => Err(fault(CfgFaultKind::NoString, start_span(close, tokens))),
    }
}

// Returns the trees after the first one.
fn after_one<'t, A: Allocator>(tokens: TokenTreesView<'t, A>) -> TokenTreesView<'t, A>
    ensures { trees result ≡ spec.after_one (trees tokens.entry) }
{
    let mut iter = tokens.iter();
    let _first = iter.next();
    iter.remaining()
}

// Returns whether that name has the value at the front.
fn name_with_value<'t, A: Allocator>(
    settings: &CfgOptions<'_>,
    close: Span,
    name: &str,
    tokens: TokenTreesView<'t, A>,
) -> Result<PredicateValue<'t, A>, CfgFault>
    ensures { predicate_value_shown result
        ≡ spec.name_with_value settings.now close name.now (trees tokens.entry) }
{
    match text_at(close, tokens) {
        Ok(value) => Ok(PredicateValue {
            holds: settings.has_pair(name, value),
            rest: after_one(tokens),
        }),
        Err(fault_kind) => Err(fault_kind),
    }
}

// Returns whether a name without parentheses holds, with the value that may follow it.
fn name_alone<'t, A: Allocator>(
    settings: &CfgOptions<'_>,
    close: Span,
    name: &Ident<A>,
    tokens: TokenTreesView<'t, A>,
) -> Result<PredicateValue<'t, A>, CfgFault>
    ensures { predicate_value_shown result
        ≡ spec.name_alone settings.now close (ident_of name.now) (trees tokens.entry) }
{
    if let Some(value) = after_char(tokens, '=') {
        return name_with_value(settings, close, name.sym.as_str(), value);
    }
    if after_char(tokens, ':').is_some() {
        return Err(fault(CfgFaultKind::Path, name.span));
    }
    Ok(PredicateValue {
        holds: settings.has_name(name.sym.as_str()),
        rest: tokens,
    })
}

/// Returns whether the predicate at the front holds, and the trees after it. `close` is the span at
/// which the trees end. Predicates may be nested `depth` deep. Returns the fault if the predicate
/// has one.
#[cycle(predicate)]
pub fn predicate<'t, A: Allocator>(
    settings: &CfgOptions<'_>,
    depth: u32,
    close: Span,
    tokens: TokenTreesView<'t, A>,
) -> Result<PredicateValue<'t, A>, CfgFault>
    ensures { predicate_value_shown result
        ≡ predicate settings.now depth close (trees tokens.entry) }
{
    if depth == 0 {
        return Err(fault(CfgFaultKind::TooDeep, start_span(close, tokens)));
    }
    let mut iter = tokens.iter();
    match iter.expect_ident() {
        Ok(name) => named_predicate(settings, depth - 1, close, name, iter.remaining()),
        Err(()) => Err(fault(CfgFaultKind::NoName, start_span(close, tokens))),
    }
}

// Evaluates the predicate that begins with that name.
#[cycle(predicate)]
fn named_predicate<'t, A: Allocator>(
    settings: &CfgOptions<'_>,
    depth: u32,
    close: Span,
    name: &Ident<A>,
    tokens: TokenTreesView<'t, A>,
) -> Result<PredicateValue<'t, A>, CfgFault>
    ensures { predicate_value_shown result
        ≡ spec.named_predicate settings.now (predicate settings.now depth) close
        (ident_of name.now) (trees tokens.entry) }
{
    if let Some(holds) = constant(name.is_raw, name.sym.as_str()) {
        return Ok(PredicateValue {
            holds,
            rest: tokens,
        });
    }
    match group_at(DelimiterKind::Parenthesis, tokens) {
        Some(group) => operator_predicate(settings, depth, name, group),
        None => name_alone(settings, close, name, tokens),
    }
}

// Evaluates the predicate of that name and that group.
#[cycle(predicate)]
fn operator_predicate<'t, A: Allocator>(
    settings: &CfgOptions<'_>,
    depth: u32,
    name: &Ident<A>,
    group: Group<'t, A>,
) -> Result<PredicateValue<'t, A>, CfgFault>
    ensures { predicate_value_shown result
        ≡ spec.operator_predicate (predicate settings.now depth) (ident_of name.now)
        (group_shown group.entry) }
{
    let holds = match operator_of(name.sym.as_str()) {
        PredicateOperator::All => items(settings, depth, true, group.close, group.inside)?,
        PredicateOperator::Any => items(settings, depth, false, group.close, group.inside)?,
        PredicateOperator::Not => !one(settings, depth, group.close, group.inside)?,
        PredicateOperator::Unstable => return Err(fault(CfgFaultKind::Unstable, name.span)),
        PredicateOperator::Unknown => return Err(fault(CfgFaultKind::Invalid, name.span)),
    };
    Ok(PredicateValue {
        holds,
        rest: group.rest,
    })
}

// Returns whether both hold, or with `every` false, whether one of the two does.
fn combined(every: bool, one: bool, other: bool) -> bool
    ensures { result ≡ spec.combined every one other }
{
    if every { one && other } else { one || other }
}

// Returns what holds so far with the predicate at the front, and the trees after that predicate and
// its comma.
#[cycle(predicate)]
fn item<'t, A: Allocator>(
    settings: &CfgOptions<'_>,
    depth: u32,
    every: bool,
    close: Span,
    so_far: bool,
    tokens: TokenTreesView<'t, A>,
) -> Result<PredicateValue<'t, A>, CfgFault>
    ensures { predicate_value_shown result
        ≡ item (predicate settings.now depth close) every close so_far
        (trees tokens.entry) }
{
    let predicate_value = predicate(settings, depth, close, tokens)?;
    let rest = after_separator(close, predicate_value.rest)?;
    Ok(PredicateValue {
        holds: combined(every, so_far, predicate_value.holds),
        rest,
    })
}

// Returns whether all of these predicates hold, or with `every` false, whether one of them does.
#[cycle(predicate)]
fn items<A: Allocator>(
    settings: &CfgOptions<'_>,
    depth: u32,
    every: bool,
    close: Span,
    tokens: TokenTreesView<'_, A>,
) -> Result<bool, CfgFault>
    ensures { result ≡ items (predicate settings.now depth close) every close
        (flat_len (trees tokens.entry)) every (trees tokens.entry) }
{
    let mut predicate_value = PredicateValue {
        holds: every,
        rest: tokens,
    };
    let mut left = tokens.flat_len();
    'items: while left > 0 {
        left -= 1;
        if is_empty(predicate_value.rest) {
            return Ok(predicate_value.holds);
        }
        predicate_value = item(
            settings,
            depth,
            every,
            close,
            predicate_value.holds,
            predicate_value.rest,
        )?;
    }
    Ok(predicate_value.holds)
}

// Returns whether the one predicate in these trees holds. Only a comma may follow it.
#[cycle(predicate)]
fn one<A: Allocator>(
    settings: &CfgOptions<'_>,
    depth: u32,
    close: Span,
    tokens: TokenTreesView<'_, A>,
) -> Result<bool, CfgFault>
    ensures { result ≡ one (predicate settings.now depth close) close (trees tokens.entry) }
{
    if is_empty(tokens) {
        return Err(fault(CfgFaultKind::NotOne, close));
    }
    let predicate_value = predicate(settings, depth, close, tokens)?;
    let rest = after_separator(close, predicate_value.rest)?;
    if is_empty(rest) {
        Ok(predicate_value.holds)
    } else {
        Err(fault(CfgFaultKind::NotOne, start_span(close, rest)))
    }
}

/// Returns whether the predicate in the parentheses of a `cfg` holds. `close` is the span at which
/// they close. Returns the fault if the predicate has one.
pub fn holds<A: Allocator>(
    settings: &CfgOptions<'_>,
    close: Span,
    tokens: TokenTreesView<'_, A>,
) -> Result<bool, CfgFault>
    ensures { result ≡ spec.holds settings.now close (trees tokens.entry) }
{
    one(settings, DEPTH, close, tokens)
}
