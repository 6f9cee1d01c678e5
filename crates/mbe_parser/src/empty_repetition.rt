// The first refused repetition of ops: one that has no separator and whose body can match no token.
// Such a repetition could have endlessly many empty rounds. The parser looks for it while it parses,
// from the inside out.
ghost use Rattle.std.specs.Prelude.{◌≡◌, ◌+◌, ◌<◌, ◌^◌, option_map, IfSome};
ghost use Rattle.mbe_semantics.specs.Syntax.Nullable.{is_vis, may_skip, is_nullable_op};
ghost use Rattle.mbe_semantics.specs.Syntax.Nullable.{is_nullable};
ghost use Rattle.mbe_ops.specs.Views.{op_of, ops_of, separator_seen};
ghost use Rattle.mbe_parser.specs.RefusedRepetitions.{first_in_repetition, first_offset};

use mbe_ops::ops::{Op, Separator};
use mbe_semantics::fragment_kinds::{MetaVarKind, RepeatKind};
use std::alloc::Allocator;

// Returns the offset of the first refused repetition, in trees that begin with the `$` of this
// repetition. `inside` is the offset of the first one in the body, whose ops are `body`.
pub(crate) fn first_in_repetition<A: Allocator>(
    separator: &Option<Separator<A>>,
    body: &[Op<A>],
    inside: Option<usize>,
) -> Option<usize>
    requires { IfSome inside (λ n. 2 + n < 2 ^ 64) }
    ensures { result ≡ first_in_repetition (option_map separator_seen separator.now)
        (ops_of body.now) inside }
{
    if separator.is_none() && ops_are_nullable(body) {
        return Some(1);
    }
    shift_offset(inside, 2)
}

// Returns the first of two offsets. `next` is in trees that have `before` more flat tokens in front.
pub(crate) fn first_offset(
    first: Option<usize>,
    next: Option<usize>,
    before: usize,
) -> Option<usize>
    requires { IfSome next (λ n. before + n < 2 ^ 64) }
    ensures { result ≡ first_offset first next before }
{
    match first {
        Some(first) => Some(first),
        None => shift_offset(next, before),
    }
}

// Moves an offset: adds the number of flat tokens before the trees.
pub(crate) fn shift_offset(offset: Option<usize>, before: usize) -> Option<usize>
    requires { IfSome offset (λ n. before + n < 2 ^ 64) }
    ensures { result ≡ option_map (λ n. before + n) offset }
{
    let offset = offset?;
    Some(before + offset)
}

// Returns whether all the ops together can match no token.
#[cycle(nullable)]
fn ops_are_nullable<A: Allocator>(ops: &[Op<A>]) -> bool
    ensures { result ≡ is_nullable (ops_of ops.now) }
{
    let mut rest = ops;
    'ops: while let Some((op, others)) = rest.split_first() {
        if !op_is_nullable(op) {
            return false;
        }
        rest = others;
    }
    true
}

// Returns whether the op can match no token.
#[cycle(nullable)]
#[tactic(auto, using(mbe_ops::proofs::OpViews::views))]
fn op_is_nullable<A: Allocator>(op: &Op<A>) -> bool
    ensures { result ≡ is_nullable_op (op_of op.now) }
{
    match op {
        Op::Var { kind, .. } => is_vis(*kind),
        Op::Repeat { tokens, kind, .. } => match kind {
            RepeatKind::OneOrMore => ops_are_nullable(&tokens.0),
            RepeatKind::ZeroOrMore | RepeatKind::ZeroOrOne => true,
        },
        Op::Subtree { .. } | Op::Literal(_) | Op::Punct(_) | Op::Ident(_) => false,
        Op::Expression(_) => false,
    }
}

fn is_vis(kind: Option<MetaVarKind>) -> bool
    ensures { result ≡ is_vis kind }
{
    matches!(kind, Some(MetaVarKind::Vis))
}
