// Repetitions without rounds: binds their variables to nothing, and counts their states.
ghost use Rattle.std.specs.Prelude.{◌≡◌, [], IsTrue, OnOk, IfOk, IfSome};
ghost use Rattle.mbe_semantics.specs.Bindings.Account.{HasEntriesOf};
ghost use Rattle.mbe_semantics.specs.Syntax.Op.{names_of, names_of_op};
ghost use Rattle.mbe_semantics.specs.Matching.States.{state_count, op_state_count};
ghost use Rattle.mbe_semantics.specs.Matching.ThreadModel.{skipped};
ghost use Rattle.mbe_ops.specs.Views.{op_of, ops_of};
ghost use Rattle.mbe_matcher.specs.Rewrites.{IsRewritten};

use mbe_log::log::{BindingLog, Handle};
use mbe_ops::op_iter::{OpDelimited, OpDelimitedIter};
use mbe_ops::ops::Op;
use std::alloc::{AllocError, Allocator};

// Binds all variables in the ops to nothing, and returns the number of states in the ops. One walk
// does both, since a repetition may be skipped at each token. `AllocError` if out of memory, or if
// no `usize` holds the number.
#[cycle(skipping)]
pub(crate) fn skip_ops<A: Allocator + Copy>(
    log: &mut BindingLog<'_, A>,
    ops: &[Op<A>],
    handle: &mut Handle,
) -> Result<usize, AllocError>
    requires { HasEntriesOf log.old handle.old }
    ensures names { OnOk result (IsRewritten log.old log.new handle.old handle.new
        (skipped (names_of (ops_of ops.now)))) }
    ensures state_count { IfOk result (λ n. n ≡ state_count (ops_of ops.now)) }
{
    let mut count = ops.len().checked_add(1).ok_or(AllocError)?;
    let mut left = ops;
    'ops: while let Some((op, rest)) = left.split_first() {
        if !is_leaf(op) {
            let inside = skip_op(log, op, handle)?;
            count = count.checked_add(inside).ok_or(AllocError)?;
        }
        left = rest;
    }
    Ok(count)
}

// Whether the op is a token. A token has no variables and no states inside. Most ops are tokens.
#[inline(always)]
#[tactic(auto, using(mbe_ops::proofs::OpViews::views))]
fn is_leaf<A: Allocator>(op: &Op<A>) -> bool
    ensures { IsTrue result → (names_of_op (op_of op.now) ≡ [])
        × (op_state_count (op_of op.now) ≡ 0) }
{
    matches!(op, Op::Ident(_) | Op::Literal(_) | Op::Punct(_))
}

// Binds the variables in the op to nothing, and returns the number of states inside the op.
#[cycle(skipping)]
#[tactic(auto, using(mbe_ops::proofs::OpViews::views))]
fn skip_op<A: Allocator + Copy>(
    log: &mut BindingLog<'_, A>,
    op: &Op<A>,
    handle: &mut Handle,
) -> Result<usize, AllocError>
    requires { HasEntriesOf log.old handle.old }
    ensures names { OnOk result (IsRewritten log.old log.new handle.old handle.new
        (skipped (names_of_op (op_of op.now)))) }
    ensures state_count { IfOk result (λ n. n ≡ op_state_count (op_of op.now)) }
{
    match op {
        Op::Var { name, .. } => {
            log.push_empty(handle, name)?;
            Ok(0)
        }
        Op::Subtree { tokens, .. } => skip_ops(log, &tokens.0, handle),
        Op::Repeat { tokens, .. } => skip_ops(log, &tokens.0, handle),
        Op::Literal(_) | Op::Ident(_) | Op::Punct(_) => Ok(0),
        Op::Expression(_) => Ok(0),
    }
}

// Returns the number of states in the ops. `None` if no `usize` holds it.
#[cycle(counting)]
pub(crate) fn count_states<A: Allocator>(ops: &[Op<A>]) -> Option<usize>
    ensures { IfSome result (λ n. n ≡ state_count (ops_of ops.now)) }
{
    let mut count = 1usize;
    for stop in OpDelimitedIter::new(ops) {
        count = match stop {
            OpDelimited::Op(op) => count.checked_add(1)?.checked_add(count_op_states(op)?)?,
            OpDelimited::Open(_) | OpDelimited::Close(_) => count,
        };
    }
    Some(count)
}

/// Returns the number of states inside the op. `None` if no `usize` holds it.
#[cycle(counting)]
#[tactic(auto, using(mbe_ops::proofs::OpViews::views))]
pub(crate) fn count_op_states<A: Allocator>(op: &Op<A>) -> Option<usize>
    ensures { IfSome result (λ n. n ≡ op_state_count (op_of op.now)) }
{
    match op {
        Op::Subtree { tokens, .. } => count_states(&tokens.0),
        Op::Repeat { tokens, .. } => count_states(&tokens.0),
        Op::Var { .. } | Op::Literal(_) | Op::Ident(_) | Op::Punct(_) => Some(0),
        Op::Expression(_) => Some(0),
    }
}
