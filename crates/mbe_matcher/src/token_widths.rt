// Whether a token, a separator or an opening of the pattern fits the trees in front, and how many
// flat tokens it consumes there (its width).
ghost use Rattle.std.specs.Prelude.{◌≡◌, ◌-◌, ◌↔◌, if◌then◌else◌, Some, None, option_map, IsTrue};
ghost use Rattle.mbe_tt.specs.Trees.Glue.{chars_of};
ghost use Rattle.mbe_tt.specs.Trees.Tree.{flat_len};
ghost use Rattle.mbe_tt.specs.Views.LeafViews.{leaf_of};
ghost use Rattle.mbe_semantics.specs.Readings.Fit.{literal_text_front, ident_text_front};
ghost use Rattle.mbe_semantics.specs.Readings.Fit.{puncts_front, lifetime_text_front};
ghost use Rattle.mbe_semantics.specs.Readings.Fit.{literal_separator_front, separator_front};
ghost use Rattle.mbe_semantics.specs.Readings.Fit.{between_front, separator_front_in};
ghost use Rattle.mbe_semantics.specs.Readings.Fit.{is_as_raw, is_same_literal, is_other_literal};
ghost use Rattle.mbe_semantics.specs.Readings.Fit.{differs_in_rawness, second_differs_in_rawness};
ghost use Rattle.mbe_semantics.specs.Readings.Fit.{is_other_separator};
ghost use Rattle.mbe_semantics.specs.Readings.Input.{length_of, is_opening, is_opening_in};
ghost use Rattle.mbe_semantics.specs.Readings.Input.{never_opens};
ghost use Rattle.mbe_matcher.specs.Fronts.{has_text, if_again, op_width, width_by_text};
ghost use Rattle.mbe_matcher.specs.Fronts.{is_other_op};
ghost use Rattle.mbe_tt.specs.Views.LeafViews.{literal_of};
ghost use Rattle.mbe_tt.specs.declared.grammar.Dialect.TheVariants.{Rustc};
ghost use Rattle.mbe_matcher.specs.Fronts.{HasPassed};
ghost use Rattle.mbe_ops.specs.Views.{op_of, separator_seen};

use crate::consumers::{eat_ident, eat_literal, eat_puncts};
use mbe_ops::ops::{Op, Separator};
use mbe_semantics::fragment_kinds::RepeatKind;
use mbe_tt::grammar::Dialect;
use mbe_tt::symbol::Symbol;
use mbe_tt::tt::{DelimiterKind, Ident, IdentIsRaw, Leaf, Literal, Punct, TtElement, TtIter};
use std::alloc::Allocator;

// Returns the number of flat tokens from `before` to `after`, if `passed` says that they were
// consumed.
#[inline(always)]
fn width_to<A: Allocator>(
    passed: bool,
    before: &TtIter<'_, A>,
    after: &TtIter<'_, A>,
) -> Option<usize>
    ensures { result ≡ (if passed then Some (flat_len before.now - flat_len after.now) else None) }
{
    if !passed {
        return None;
    }
    let left = after.remaining().flat_len();
    Some(before.remaining().flat_len().saturating_sub(left))
}

/// Returns the width of an op that is a token of the dialect. `None` if it doesn't fit, or is no
/// token.
#[inline(always)]
pub(crate) fn token_width<A: Allocator>(
    dialect: Dialect,
    op: &Op<A>,
    src: &TtIter<'_, A>,
) -> Option<usize>
    ensures { result ≡ op_width dialect (op_of op.now) src.now }
{
    match dialect {
        Dialect::RustAnalyzer => width_by_text(op, src),
        Dialect::Rustc => exact_width(op, src),
    }
}

// Returns the width of an op that is a token, as rustc compares it.
fn exact_width<A: Allocator>(op: &Op<A>, src: &TtIter<'_, A>) -> Option<usize>
    ensures { result ≡ op_width Rustc (op_of op.now) src.now }
{
    if is_other_token(op, src) {
        return None;
    }
    width_by_text(op, src)
}

// Returns the width of an op that is a token, as rust-analyzer compares it.
#[tactic(auto, using(mbe_ops::proofs::OpViews::views))]
#[inline(always)]
fn width_by_text<A: Allocator>(op: &Op<A>, src: &TtIter<'_, A>) -> Option<usize>
    ensures { result ≡ width_by_text (op_of op.now) src.now }
{
    match op {
        Op::Literal(literal) => literal_width(literal, src),
        Op::Ident(ident) => ident_width(ident, src),
        Op::Punct(puncts) => puncts_width(puncts.as_slice(), src),
        Op::Var { .. } | Op::Subtree { .. } | Op::Repeat { .. } => None,
        Op::Expression(_) => None,
    }
}

// Returns the width of a literal with the same text and suffix.
#[inline(always)]
fn literal_width<A: Allocator>(literal: &Literal<A>, src: &TtIter<'_, A>) -> Option<usize>
    ensures { result ≡ length_of (literal_text_front literal.now.text_and_suffix src.now) }
{
    let mut ahead = src.fork();
    let passed = eat_literal(literal, &mut ahead);
    width_to(passed, src, &ahead)
}

// Returns the width of an identifier with the same text.
#[inline(always)]
fn ident_width<A: Allocator>(ident: &Ident<A>, src: &TtIter<'_, A>) -> Option<usize>
    ensures { result ≡ length_of (ident_text_front ident.now.sym src.now) }
{
    let mut ahead = src.fork();
    let passed = eat_ident(ident, &mut ahead);
    width_to(passed, src, &ahead)
}

// Returns the width of joined puncts with exactly these chars.
#[inline(always)]
fn puncts_width<A: Allocator>(puncts: &[Punct], src: &TtIter<'_, A>) -> Option<usize>
    ensures { result ≡ length_of (puncts_front (chars_of puncts.now) src.now) }
{
    let mut ahead = src.fork();
    let passed = eat_puncts(puncts, &mut ahead);
    width_to(passed, src, &ahead)
}

// Returns the width of a separator of the dialect.
#[inline(always)]
fn separator_width<A: Allocator>(
    dialect: Dialect,
    separator: &Separator<A>,
    src: &TtIter<'_, A>,
) -> Option<usize>
    ensures { result ≡ length_of
        (separator_front_in dialect (separator_seen separator.now) src.now) }
{
    match dialect {
        Dialect::RustAnalyzer => separator_width_by_text(separator, src),
        Dialect::Rustc => exact_separator_width(separator, src),
    }
}

// Returns the width of a separator, as rustc compares it.
fn exact_separator_width<A: Allocator>(
    separator: &Separator<A>,
    src: &TtIter<'_, A>,
) -> Option<usize>
    ensures { result ≡ length_of
        (separator_front_in Rustc (separator_seen separator.now) src.now) }
{
    if is_other_separator(separator, src) {
        return None;
    }
    separator_width_by_text(separator, src)
}

// Returns the width of a separator, as rust-analyzer compares it.
#[inline(always)]
fn separator_width_by_text<A: Allocator>(
    separator: &Separator<A>,
    src: &TtIter<'_, A>,
) -> Option<usize>
    ensures { result ≡ length_of (separator_front (separator_seen separator.now) src.now) }
{
    let mut ahead = src.fork();
    let passed = eat_separator(separator, &mut ahead);
    width_to(passed, src, &ahead)
}

// Whether the first tree is a literal other than this one, spans apart.
fn is_other_literal<A: Allocator>(literal: &Literal<A>, src: &TtIter<'_, A>) -> bool
    ensures { result ≡ is_other_literal (literal_of literal.now) src.now }
{
    match src.peek() {
        Some(TtElement::Leaf(Leaf::Literal(found))) => !is_same_literal(literal, found),
        _ => false,
    }
}

// Whether the literals are equal, spans apart.
fn is_same_literal<A: Allocator>(one: &Literal<A>, two: &Literal<A>) -> bool
    ensures { result ≡ is_same_literal (literal_of one.now) (literal_of two.now) }
{
    has_same_parts(one, two)
}

fn has_same_parts<A: Allocator>(one: &Literal<A>, two: &Literal<A>) -> bool
    ensures { IsTrue result ↔ (record (literal_of one.now) { span = (literal_of two.now).span }
        ≡ literal_of two.now) }
{
    one.text_and_suffix == two.text_and_suffix
        && one.suffix_len == two.suffix_len
        && one.kind == two.kind
}

// Whether the first tree is an identifier that is raw although the other isn't, or the other way
// round.
fn differs_in_rawness<A: Allocator>(is_raw: IdentIsRaw, src: &TtIter<'_, A>) -> bool
    ensures { result ≡ differs_in_rawness is_raw src.now }
{
    match src.peek() {
        Some(TtElement::Leaf(Leaf::Ident(found))) => !is_as_raw(is_raw, found.is_raw),
        _ => false,
    }
}

fn is_as_raw(one: IdentIsRaw, two: IdentIsRaw) -> bool
    ensures { result ≡ is_as_raw one two }
{
    match (one, two) {
        (IdentIsRaw::No, IdentIsRaw::No) | (IdentIsRaw::Yes, IdentIsRaw::Yes) => true,
        (IdentIsRaw::No, IdentIsRaw::Yes) | (IdentIsRaw::Yes, IdentIsRaw::No) => false,
    }
}

// The same for the second tree, after a first leaf.
fn second_differs_in_rawness<A: Allocator>(is_raw: IdentIsRaw, src: &TtIter<'_, A>) -> bool
    ensures { result ≡ second_differs_in_rawness is_raw src.now }
{
    let mut ahead = src.fork();
    ahead.expect_leaf().is_ok() && differs_in_rawness(is_raw, &ahead)
}

// Whether the first trees differ from the token in what rustc alone compares.
#[tactic(auto, using(mbe_ops::proofs::OpViews::views))]
fn is_other_token<A: Allocator>(op: &Op<A>, src: &TtIter<'_, A>) -> bool
    ensures { result ≡ is_other_op (op_of op.now) src.now }
{
    match op {
        Op::Literal(literal) => is_other_literal(literal, src),
        Op::Ident(ident) => differs_in_rawness(ident.is_raw, src),
        Op::Punct(_) | Op::Var { .. } | Op::Subtree { .. } | Op::Repeat { .. } => false,
        Op::Expression(_) => false,
    }
}

// Whether the first trees differ from the separator in what rustc alone compares.
fn is_other_separator<A: Allocator>(separator: &Separator<A>, src: &TtIter<'_, A>) -> bool
    ensures { result ≡ is_other_separator Rustc (separator_seen separator.now) src.now }
{
    match separator {
        Separator::Literal(literal) => is_other_literal(literal, src),
        Separator::Ident(ident) => differs_in_rawness(ident.is_raw, src),
        Separator::Puncts(_) => false,
        Separator::Lifetime(_, ident) => second_differs_in_rawness(ident.is_raw, src),
    }
}

// Consumes a separator. Returns whether it is there.
#[inline(always)]
fn eat_separator<A: Allocator>(separator: &Separator<A>, src: &mut TtIter<'_, A>) -> bool
    ensures { HasPassed result (separator_front (separator_seen separator.now) src.old) src.new }
{
    match separator {
        Separator::Literal(literal) => eat_literal_separator(literal, src),
        Separator::Ident(ident) => eat_ident(ident, src),
        Separator::Puncts(puncts) => eat_puncts(puncts.as_slice(), src),
        Separator::Lifetime(_, ident) => eat_lifetime_of(ident, src),
    }
}

// Consumes a literal with the same text, or the identifier `true` or `false` if that is the text.
fn eat_literal_separator<A: Allocator>(literal: &Literal<A>, src: &mut TtIter<'_, A>) -> bool
    ensures { HasPassed result
        (literal_separator_front literal.now.text_and_suffix src.old) src.new }
{
    match src.expect_literal() {
        Ok(leaf) => has_text(leaf, &literal.text_and_suffix),
        Err(()) => false,
    }
}

// Whether the leaf has this text. Puncts have none.
fn has_text<A: Allocator>(leaf: &Leaf<A>, text: &Symbol<A>) -> bool
    ensures { result ≡ has_text (leaf_of leaf.now) text.now }
{
    match leaf {
        Leaf::Literal(found) => found.text_and_suffix == *text,
        Leaf::Ident(found) => found.sym == *text,
        Leaf::Punct(_) => false,
    }
}

// Consumes `'` and an identifier with the same text.
fn eat_lifetime_of<A: Allocator>(ident: &Ident<A>, src: &mut TtIter<'_, A>) -> bool
    ensures { HasPassed result (lifetime_text_front ident.now.sym src.old) src.new }
{
    if src.expect_char('\'').is_err() {
        return false;
    }
    eat_ident(ident, src)
}

/// Whether the first tree is a group that a group of the kind in a pattern matches.
#[inline(always)]
pub(crate) fn opens<A: Allocator>(
    dialect: Dialect,
    kind: DelimiterKind,
    src: &TtIter<'_, A>,
) -> bool
    ensures { result ≡ is_opening_in dialect kind src.now }
{
    !never_opens(dialect, kind) && is_opening(kind, src)
}

// Whether a group of the kind in a pattern matches no group.
fn never_opens(dialect: Dialect, kind: DelimiterKind) -> bool
    ensures { result ≡ never_opens dialect kind }
{
    match dialect {
        Dialect::RustAnalyzer => false,
        Dialect::Rustc => match kind {
            DelimiterKind::Invisible => true,
            DelimiterKind::Parenthesis | DelimiterKind::Brace | DelimiterKind::Bracket => false,
        },
    }
}

// Whether the first tree is a group of the kind.
#[inline(always)]
fn is_opening<A: Allocator>(kind: DelimiterKind, src: &TtIter<'_, A>) -> bool
    ensures { result ≡ is_opening kind src.now }
{
    let mut ahead = src.fork();
    match ahead.expect_subtree() {
        Ok((subtree, _)) => subtree.delimiter.kind == kind,
        Err(()) => false,
    }
}

/// Returns the width of what stands between two rounds: of the separator, or 0 without one. `None`
/// if no other round may begin here.
#[inline(always)]
pub(crate) fn between_width<A: Allocator>(
    dialect: Dialect,
    kind: RepeatKind,
    separator: Option<&Separator<A>>,
    src: &TtIter<'_, A>,
) -> Option<usize>
    ensures { result ≡ if_again kind
        (length_of (between_front dialect
        (option_map (λ s. separator_seen s.now) separator.entry) src.now)) }
{
    if kind == RepeatKind::ZeroOrOne {
        return None;
    }
    match separator {
        None => Some(0),
        Some(separator) => separator_width(dialect, separator, src),
    }
}
