// The ops of patterns and templates. A `MetaTemplate` is a list of `Op`s: tokens, variables,
// groups, repetitions and metavariable expressions. Patterns and templates have the same type. A
// pattern has specifiers and no expressions.
ghost use Rattle.std.specs.Prelude.{◌≡◌, ◌↔◌, IsTrue};
ghost use Rattle.mbe_tt.specs.Trees.Glue.{chars_of};
ghost use Rattle.std.specs.Str.{bytes_eq};
ghost use Rattle.mbe_ops.specs.Equality.{IsSameSeparator};
ghost use Rattle.mbe_ops.specs.Views.{separator_seen};

use crate::expression::Expression;
use crate::op_fields::{OpDelimiter, OpSeparator, Puncts};
use arrayvec::ArrayVec;
use mbe_semantics::fragment_kinds::{MetaVarKind, RepeatKind};
use mbe_tt::span::Span;
use mbe_tt::symbol::Symbol;
use mbe_tt::tt::{Ident, Literal, Punct};
use std::alloc::{Allocator, Global};

/// The separator of a repetition: it stands between two rounds.
#[derive(Drop)]
#[derive_where(Debug)]
pub enum Separator<A: Allocator = Global> {
    Literal(Literal<A>),
    Ident(Ident<A>),
    Puncts(ArrayVec<Punct, 3>),
    /// The punct `'` and a name.
    Lifetime(Punct, Ident<A>),
}

impl<A: Allocator> PartialEq for Separator<A> {
    ghost use Rattle.mbe_ops.specs.Equality.{separator_eq, separator_eq_laws};
    ghost use Rattle.std.specs.Cmp.{partial_equiv_from_equiv};

    ghost eq = { separator_eq };

    ghost laws = { partial_equiv_from_equiv separator_eq_laws };

    fn eq(&self, other: &Separator<A>) -> bool {
        same_separator(self, other)
    }
}

impl<A: Allocator> Eq for Separator<A> {
    ghost use Rattle.mbe_ops.specs.Equality.{separator_eq_laws};

    ghost laws = { separator_eq_laws };
}

// Compares separators. Two of one kind are the same if their texts are (as in rust-analyzer).
pub(crate) fn same_separator<A: Allocator>(one: &Separator<A>, two: &Separator<A>) -> bool
    ensures { IsTrue result ↔ IsSameSeparator (separator_seen one.now) (separator_seen two.now) }
{
    match (one, two) {
        (Separator::Literal(one), Separator::Literal(two)) => {
            one.text_and_suffix == two.text_and_suffix
        }
        (Separator::Ident(one), Separator::Ident(two)) => one.sym == two.sym,
        (Separator::Puncts(one), Separator::Puncts(two)) => {
            same_chars(one.as_slice(), two.as_slice())
        }
        (Separator::Lifetime(_, one), Separator::Lifetime(_, two)) => one.sym == two.sym,
        _ => false,
    }
}

/// Returns whether the puncts have the same chars. Spacing and spans don't count.
pub fn same_chars(one: &[Punct], two: &[Punct]) -> bool
    ensures { result ≡ bytes_eq (chars_of one.now) (chars_of two.now) }
{
    match (one.split_first(), two.split_first()) {
        (Some((a, one)), Some((b, two))) => a.char == b.char && same_chars(one, two),
        (None, None) => true,
        _ => false,
    }
}

/// A pattern or a template: a list of ops.
#[cycle(ops)]
#[derive(Drop)]
#[derive_where(Debug)]
pub struct MetaTemplate<A: Allocator = Global>(pub Vec<Op<A>, A>);

/// An element of a pattern or a template.
#[cycle(ops)]
#[derive(Drop)]
#[derive_where(Debug)]
pub enum Op<A: Allocator = Global> {
    Var {
        name: Symbol<A>,
        id: Span,
        kind: Option<MetaVarKind>,
    },
    /// A metavariable expression. Only templates have them.
    Expression(Expression<A>),
    Repeat {
        tokens: MetaTemplate<A>,
        kind: RepeatKind,
        separator: OpSeparator<A>,
    },
    Subtree {
        tokens: MetaTemplate<A>,
        delimiter: OpDelimiter<A>,
    },
    Literal(Literal<A>),
    Punct(Puncts<A>),
    Ident(Ident<A>),
}
