// Equality of patterns and templates. Separators are compared by their texts alone (as in
// rust-analyzer), everything else with its spans.
ghost use Rattle.std.specs.Prelude.{◌≡◌, ◌↔◌, IsTrue, option_map};
ghost use Rattle.mbe_tt.specs.Views.LeafViews.{ident_of, literal_of};
ghost use Rattle.mbe_ops.specs.Equality.{AreSameSeparators, IsSameOp, AreSameOps};
ghost use Rattle.mbe_ops.specs.Views.{separator_seen, op_of, ops_of, template_of};

use crate::expression::same_expression;
use crate::op_fields::{OpDelimiter, OpSeparator};
use crate::ops::{MetaTemplate, Op, same_separator};
use mbe_semantics::fragment_kinds::RepeatKind;
use mbe_tt::tt::{Ident, Literal, Punct};
use std::alloc::Allocator;

/// Returns whether the two patterns or templates are the same.
pub fn same_templates<A: Allocator>(one: &MetaTemplate<A>, two: &MetaTemplate<A>) -> bool
    ensures { IsTrue result ↔ AreSameOps (template_of one.now) (template_of two.now) }
{
    same_ops(&one.0, &two.0)
}

#[cycle(equal)]
fn same_ops<A: Allocator>(one: &[Op<A>], two: &[Op<A>]) -> bool
    ensures { IsTrue result ↔ AreSameOps (ops_of one.now) (ops_of two.now) }
{
    let mut rest = two;
    for op in one {
        let Some((other, others)) = rest.split_first() else {
            return false;
        };
        if !same_op(op, other) {
            return false;
        }
        rest = others;
    }
    rest.is_empty()
}

#[cycle(equal)]
#[tactic(auto, using(crate::proofs::OpViews::views))]
fn same_op<A: Allocator>(one: &Op<A>, two: &Op<A>) -> bool
    ensures { IsTrue result ↔ IsSameOp (op_of one.now) (op_of two.now) }
{
    match (one, two) {
        (
            Op::Var { name, kind, id },
            Op::Var {
                name: n,
                kind: k,
                id: i,
            },
        ) => name == n && kind == k && id == i,
        (Op::Expression(one), Op::Expression(two)) => same_expression(one, two),
        (
            Op::Repeat {
                tokens,
                kind,
                separator,
            },
            Op::Repeat {
                tokens: ts,
                kind: k,
                separator: s,
            },
        ) => same_suffix(separator, *kind, s, *k) && same_ops(&tokens.0, &ts.0),
        (
            Op::Subtree { tokens, delimiter },
            Op::Subtree {
                tokens: ts,
                delimiter: d,
            },
        ) => same_delimiter(delimiter, d) && same_ops(&tokens.0, &ts.0),
        (Op::Literal(one), Op::Literal(two)) => same_literal(one, two),
        (Op::Punct(one), Op::Punct(two)) => same_puncts(one.as_slice(), two.as_slice()),
        (Op::Ident(one), Op::Ident(two)) => same_ident(one, two),
        _ => false,
    }
}

// Returns whether two repetitions have the same separator and the same kind.
fn same_suffix<A: Allocator>(
    separator: &OpSeparator<A>,
    kind: RepeatKind,
    other: &OpSeparator<A>,
    other_kind: RepeatKind,
) -> bool
    ensures { let one = option_map separator_seen separator.now in
        let two = option_map separator_seen other.now in
        IsTrue result ↔ (AreSameSeparators one two × (kind ≡ other_kind)) }
{
    same_separators(separator, other) && kind == other_kind
}

fn same_delimiter<A: Allocator>(one: &OpDelimiter<A>, two: &OpDelimiter<A>) -> bool
    ensures { IsTrue result ↔ (one.now ≡ two.now) }
{
    one.get() == two.get()
}

// Returns whether both have no separator, or both have the same one.
fn same_separators<A: Allocator>(one: &OpSeparator<A>, two: &OpSeparator<A>) -> bool
    ensures { IsTrue result
        ↔ AreSameSeparators (option_map separator_seen one.now) (option_map separator_seen two.now) }
{
    match (one.as_ref(), two.as_ref()) {
        (Some(one), Some(two)) => same_separator(one, two),
        (None, None) => true,
        _ => false,
    }
}

pub(crate) fn same_literal<A: Allocator>(one: &Literal<A>, two: &Literal<A>) -> bool
    ensures { IsTrue result ↔ (literal_of one.now ≡ literal_of two.now) }
{
    one == two
}

pub(crate) fn same_ident<A: Allocator>(one: &Ident<A>, two: &Ident<A>) -> bool
    ensures { IsTrue result ↔ (ident_of one.now ≡ ident_of two.now) }
{
    one == two
}

fn same_puncts(one: &[Punct], two: &[Punct]) -> bool
    ensures { IsTrue result ↔ (one.now ≡ two.now) }
{
    match (one.split_first(), two.split_first()) {
        (Some((a, one)), Some((b, two))) => a == b && same_puncts(one, two),
        (None, None) => true,
        _ => false,
    }
}
