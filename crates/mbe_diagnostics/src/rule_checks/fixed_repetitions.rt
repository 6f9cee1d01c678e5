// Finds repetitions of a template that have no variable that repeats there.
ghost use Rattle.std.specs.Prelude.{◌≡◌, ◌++◌, map, IfOk, OnOk};
ghost use Rattle.mbe_ops.specs.Views.{op_of, ops_of, template_of};
ghost use Rattle.mbe_diagnostics.specs.RuleChecks.Variables.{variable_seen, use_seen};
ghost use Rattle.mbe_diagnostics.specs.RuleChecks.FixedRepetitions as spec;

use crate::rule_checks::findings::first_of_name;
use crate::rule_checks::infallibility::still_repeats;
use crate::rule_checks::variables::{
    PatternVariable, VariableUse, one_deeper, uses_in_ops, variables_in,
};
use crate::rule_part::op_span;
use mbe_ops::ops::{MetaTemplate, Op};
use mbe_tt::span::Span;
use std::alloc::{AllocError, Allocator};

/// A repetition of a template that has no variable that repeats there.
#[derive(Clone, Copy, Drop)]
pub struct FixedRepetition {
    /// How many repetitions are around it.
    pub depth: usize,
    /// The span of the first token or variable name in it, if it has one.
    pub place: Option<Span>,
}

fn is_any_repeating(bound: &[PatternVariable<'_>], depth: usize, used: &[VariableUse<'_>]) -> bool
    ensures { result ≡ spec.is_any_repeating (map variable_seen bound.now) depth
        (map use_seen used.now) }
{
    for one in used {
        if still_repeats(depth, first_of_name(one.name, bound)) {
            return true;
        }
    }
    false
}

#[cycle(first)]
#[tactic(auto, using(mbe_ops::proofs::OpViews::views))]
fn first_span_op<A: Allocator>(op: &Op<A>) -> Option<Span>
    ensures { result ≡ spec.first_span_op (op_of op.now) }
{
    match op {
        Op::Repeat { tokens, .. } => first_span(&tokens.0),
        Op::Subtree { .. } => op_span(op),
        Op::Var { .. } => op_span(op),
        Op::Literal(_) => op_span(op),
        Op::Punct(_) => op_span(op),
        Op::Ident(_) => op_span(op),
        Op::Expression(_) => op_span(op),
    }
}

#[cycle(first)]
fn first_span<A: Allocator>(ops: &[Op<A>]) -> Option<Span>
    ensures { result ≡ spec.first_span (ops_of ops.now) }
{
    let Some((op, rest)) = ops.split_first() else {
        return None;
    };
    match first_span_op(op) {
        Some(span) => Some(span),
        None => first_span(rest),
    }
}

// Whether one of the variables in the body of a repetition still repeats there.
fn repeats<A: Allocator + Copy>(
    alloc: A,
    bound: &[PatternVariable<'_>],
    depth: usize,
    body: &[Op<A>],
) -> Result<bool, AllocError>
    ensures { IfOk result (λ repeats. repeats
        ≡ spec.repeats (map variable_seen bound.now) depth (ops_of body.now)) }
{
    let used = uses_in_ops(alloc, body)?;
    Ok(is_any_repeating(bound, depth, used.as_slice()))
}

// Adds a repetition with that body.
fn push_one<A: Allocator>(
    found: &mut Vec<FixedRepetition, A>,
    depth: usize,
    body: &[Op<A>],
) -> Result<(), AllocError>
    ensures { OnOk result (found.new.items ≡ found.old.items ++ spec.one depth (ops_of body.now)) }
{
    let place = first_span(body);
    found.push(FixedRepetition { depth, place })?;
    Ok(())
}

#[cycle(fixed)]
fn push_fixed<A: Allocator + Copy>(
    alloc: A,
    found: &mut Vec<FixedRepetition, A>,
    bound: &[PatternVariable<'_>],
    depth: usize,
    ops: &[Op<A>],
) -> Result<(), AllocError>
    ensures { OnOk result (found.new.items ≡ found.old.items
        ++ spec.fixed_in (map variable_seen bound.now) depth (ops_of ops.now)) }
{
    let mut rest = ops;
    'ops: while let Some((op, others)) = rest.split_first() {
        push_fixed_op(alloc, found, bound, depth, op)?;
        rest = others;
    }
    Ok(())
}

#[cycle(fixed)]
#[tactic(auto, using(mbe_ops::proofs::OpViews::views))]
fn push_fixed_op<A: Allocator + Copy>(
    alloc: A,
    found: &mut Vec<FixedRepetition, A>,
    bound: &[PatternVariable<'_>],
    depth: usize,
    op: &Op<A>,
) -> Result<(), AllocError>
    ensures { OnOk result (found.new.items ≡ found.old.items
        ++ spec.fixed_in_op (map variable_seen bound.now) depth (op_of op.now)) }
{
    match op {
        Op::Subtree { tokens, .. } => push_fixed(alloc, found, bound, depth, &tokens.0),
        Op::Repeat { tokens, .. } => {
            let round = repeats(alloc, bound, depth, &tokens.0)?;
            if !round {
                return push_one(found, depth, &tokens.0);
            }
            let deeper = one_deeper(depth)?;
            push_fixed(alloc, found, bound, deeper, &tokens.0)
        }
        Op::Var { .. } => Ok(()),
        Op::Literal(_) | Op::Punct(_) | Op::Ident(_) => Ok(()),
        Op::Expression(_) => Ok(()),
    }
}

/// Returns the repetitions of a template in which no variable of the pattern repeats, in the order
/// of the text. rustc refuses each call that expands one. A repetition in another one of them is
/// left out. `AllocError` if out of memory, or if 2^64 repetitions are nested.
pub fn fixed_repetitions<A: Allocator + Copy>(
    alloc: A,
    pattern: &MetaTemplate<A>,
    template: &MetaTemplate<A>,
) -> Result<Vec<FixedRepetition, A>, AllocError>
    ensures { IfOk result (λ found. found.items
        ≡ spec.fixed_repetitions (template_of pattern.now) (template_of template.now)) }
{
    let bound = variables_in(alloc, pattern)?;
    let mut found = Vec::new(alloc);
    push_fixed(alloc, &mut found, bound.as_slice(), 0, &template.0)?;
    Ok(found)
}
