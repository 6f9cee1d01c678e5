// The states of a pattern, in order, each with what stands there. A state's number says how many
// states there are from it to the pattern's end.
ghost use Rattle.std.specs.Prelude.{◌≡◌, ◌++◌, map, option_map, IfOk, OnOk};
ghost use Rattle.mbe_semantics.specs.Matching.States.{op_state_count};
ghost use Rattle.mbe_ops.specs.Views.{op_of, ops_of, template_of};
ghost use Rattle.mbe_matcher.specs.Readings.States.{ending, inside_of, states, op_states};
ghost use Rattle.mbe_matcher.specs.Readings.Views.{state_seen};

use crate::empty_repetition::count_op_states;
use crate::readings::state::PatternState;
use mbe_ops::op_iter::{OpDelimited, OpDelimitedIter};
use mbe_ops::ops::{MetaTemplate, Op};
use std::alloc::{AllocError, Allocator};

// Pushes the states of the ops. `end` stands at their end.
#[cycle(spotting)]
fn push_states<'a, A: Allocator + Copy>(
    ops: &'a [Op<A>],
    end: PatternState<'a, A>,
    all: &mut Vec<PatternState<'a, A>, A>,
) -> Result<(), AllocError>
    ensures { OnOk result (map state_seen all.new.items
        ≡ map state_seen all.old.items ++ states (ops_of ops.now) (state_seen end.entry)) }
{
    for stop in OpDelimitedIter::new(ops) {
        match stop {
            OpDelimited::Op(op) => push_op(op, all)?,
            OpDelimited::Open(_) | OpDelimited::Close(_) => {}
        }
    }
    all.push(end)?;
    Ok(())
}

// Pushes the state before the op, and the states inside it.
#[cycle(spotting)]
fn push_op<'a, A: Allocator + Copy>(
    op: &'a Op<A>,
    all: &mut Vec<PatternState<'a, A>, A>,
) -> Result<(), AllocError>
    ensures { OnOk result (map state_seen all.new.items
        ≡ map state_seen all.old.items ++ op_states (op_of op.now)) }
{
    let state_count = count_op_states(op).ok_or(AllocError)?;
    all.push(PatternState::Before { op, state_count })?;
    match inside(op, state_count) {
        Some((ops, end)) => push_states(ops, end, all),
        None => Ok(()),
    }
}

// Returns the ops inside an op, and what stands at their end. The op has `state_count` states
// inside.
#[tactic(auto, using(mbe_ops::proofs::OpViews::views))]
fn inside<A: Allocator>(op: &Op<A>, state_count: usize) -> Option<(&[Op<A>], PatternState<'_, A>)>
    requires { state_count ≡ op_state_count (op_of op.now) }
    ensures { option_map (λ p. (ops_of p.0.now, state_seen p.1)) result ≡ inside_of (op_of op.now) }
{
    match op {
        Op::Subtree { tokens, .. } => Some((&tokens.0, PatternState::Closing)),
        Op::Repeat {
            tokens,
            kind,
            separator,
        } => {
            let end = PatternState::RoundEnd {
                separator: separator.as_ref(),
                kind: *kind,
                state_count,
            };
            Some((&tokens.0, end))
        }
        Op::Var { .. } | Op::Literal(_) | Op::Ident(_) | Op::Punct(_) => None,
        Op::Expression(_) => None,
    }
}

// Returns the states of a pattern.
pub(crate) fn states_of_pattern<'a, A: Allocator + Copy>(
    alloc: A,
    pattern: &'a MetaTemplate<A>,
) -> Result<Vec<PatternState<'a, A>, A>, AllocError>
    ensures { IfOk result (λ all. map state_seen all.items
        ≡ states (template_of pattern.now) ending) }
{
    let mut all = Vec::new(alloc);
    push_states(&pattern.0, PatternState::End, &mut all)?;
    Ok(all)
}
