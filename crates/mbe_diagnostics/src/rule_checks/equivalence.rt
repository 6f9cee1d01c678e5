// Equivalence of patterns. Equivalent patterns differ at most in the names of their variables and
// in their spans.
ghost use Rattle.std.specs.Prelude.{◌≡◌, option_map};
ghost use Rattle.mbe_ops.specs.Views.{op_of, ops_of, separator_seen};
ghost use Rattle.mbe_diagnostics.specs.RuleChecks.Equivalence as spec;

use mbe_ops::op_fields::{OpDelimiter, OpSeparator};
use mbe_ops::ops::{Op, Separator, same_chars};
use mbe_semantics::fragment_kinds::{ExprKind, MetaVarKind, RepeatKind};
use mbe_tt::tt::DelimiterKind;
use std::alloc::Allocator;

fn kind_number(kind: Option<MetaVarKind>) -> u8
    ensures { result ≡ spec.kind_number kind }
{
    match kind {
        None => 0,
        Some(MetaVarKind::Path) => 1,
        Some(MetaVarKind::Ty) => 2,
        Some(MetaVarKind::Pat) => 3,
        Some(MetaVarKind::PatParam) => 4,
        Some(MetaVarKind::Stmt) => 5,
        Some(MetaVarKind::Block) => 6,
        Some(MetaVarKind::Meta) => 7,
        Some(MetaVarKind::Item) => 8,
        Some(MetaVarKind::Vis) => 9,
        Some(MetaVarKind::Expr(ExprKind::Expr)) => 10,
        Some(MetaVarKind::Expr(ExprKind::Expr2021)) => 11,
        Some(MetaVarKind::Ident) => 12,
        Some(MetaVarKind::Tt) => 13,
        Some(MetaVarKind::Lifetime) => 14,
        Some(MetaVarKind::Literal) => 15,
    }
}

fn repeat_number(kind: RepeatKind) -> u8
    ensures { result ≡ spec.repeat_number kind }
{
    match kind {
        RepeatKind::ZeroOrMore => 0,
        RepeatKind::OneOrMore => 1,
        RepeatKind::ZeroOrOne => 2,
    }
}

fn delimiter_number(kind: DelimiterKind) -> u8
    ensures { result ≡ spec.delimiter_number kind }
{
    match kind {
        DelimiterKind::Parenthesis => 0,
        DelimiterKind::Brace => 1,
        DelimiterKind::Bracket => 2,
        DelimiterKind::Invisible => 3,
    }
}

fn same_delimiter_kind<A: Allocator>(one: &OpDelimiter<A>, other: &OpDelimiter<A>) -> bool
    ensures { result ≡ spec.same_delimiter_kind one.now other.now }
{
    delimiter_number(one.get().kind) == delimiter_number(other.get().kind)
}

fn is_equivalent_separator<A: Allocator>(one: &Separator<A>, other: &Separator<A>) -> bool
    ensures { result ≡ spec.is_equivalent_separator (separator_seen one.now)
        (separator_seen other.now) }
{
    match (one, other) {
        (Separator::Literal(one), Separator::Literal(other)) => {
            one.text_and_suffix.as_str() == other.text_and_suffix.as_str()
        }
        (Separator::Ident(one), Separator::Ident(other)) => one.sym.as_str() == other.sym.as_str(),
        (Separator::Puncts(one), Separator::Puncts(other)) => {
            same_chars(one.as_slice(), other.as_slice())
        }
        (Separator::Lifetime(_, one), Separator::Lifetime(_, other)) => {
            one.sym.as_str() == other.sym.as_str()
        }
        _ => false,
    }
}

fn is_equivalent_between<A: Allocator>(one: &OpSeparator<A>, other: &OpSeparator<A>) -> bool
    ensures { result ≡ spec.is_equivalent_between (option_map separator_seen one.now)
        (option_map separator_seen other.now) }
{
    match (one.as_ref(), other.as_ref()) {
        (Some(one), Some(other)) => is_equivalent_separator(one, other),
        (None, None) => true,
        _ => false,
    }
}

// Whether two repetitions have equivalent separators and the same operator.
fn repeats_equivalently<A: Allocator>(
    one: &OpSeparator<A>,
    kind: RepeatKind,
    other: &OpSeparator<A>,
    other_kind: RepeatKind,
) -> bool
    ensures { result ≡ spec.repeats_equivalently (option_map separator_seen one.now) kind
        (option_map separator_seen other.now) other_kind }
{
    is_equivalent_between(one, other) && repeat_number(kind) == repeat_number(other_kind)
}

#[cycle(alike)]
#[tactic(auto, using(mbe_ops::proofs::OpViews::views))]
fn is_equivalent<A: Allocator>(one: &Op<A>, other: &Op<A>) -> bool
    ensures { result ≡ spec.is_equivalent (op_of one.now) (op_of other.now) }
{
    match (one, other) {
        (Op::Var { kind, .. }, Op::Var { kind: k, .. }) => kind_number(*kind) == kind_number(*k),
        (
            Op::Repeat {
                tokens,
                kind,
                separator,
            },
            Op::Repeat {
                tokens: ts,
                kind: k,
                separator: s,
            },
        ) => repeats_equivalently(separator, *kind, s, *k) && are_equivalent(&tokens.0, &ts.0),
        (
            Op::Subtree { tokens, delimiter },
            Op::Subtree {
                tokens: ts,
                delimiter: d,
            },
        ) => same_delimiter_kind(delimiter, d) && are_equivalent(&tokens.0, &ts.0),
        (Op::Literal(one), Op::Literal(two)) => {
            one.text_and_suffix.as_str() == two.text_and_suffix.as_str()
        }
        (Op::Punct(one), Op::Punct(two)) => same_chars(one.as_slice(), two.as_slice()),
        (Op::Ident(one), Op::Ident(two)) => one.sym.as_str() == two.sym.as_str(),
        _ => false,
    }
}

/// Whether two patterns are equivalent: they differ at most in the names of their variables and in
/// their spans.
#[cycle(alike)]
pub fn are_equivalent<A: Allocator>(one: &[Op<A>], other: &[Op<A>]) -> bool
    ensures { result ≡ spec.are_equivalent (ops_of one.now) (ops_of other.now) }
{
    match (one.split_first(), other.split_first()) {
        (Some((op, ops)), Some((p, ps))) => is_equivalent(op, p) && are_equivalent(ops, ps),
        (None, None) => true,
        _ => false,
    }
}
