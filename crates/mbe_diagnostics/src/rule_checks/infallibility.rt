// Finds templates that fail under no match of their pattern.
ghost use Rattle.std.specs.Prelude.{◌≡◌, map, option_map, IfOk};
ghost use Rattle.mbe_ops.specs.Views.{op_of, ops_of, template_of};
ghost use Rattle.mbe_diagnostics.specs.RuleChecks.Variables.{variable_seen};
ghost use Rattle.mbe_diagnostics.specs.RuleChecks.Infallibility as spec;

use crate::rule_checks::findings::first_of_name;
use crate::rule_checks::variables::{PatternVariable, one_deeper, variables_in};
use mbe_ops::ops::{MetaTemplate, Op};
use mbe_semantics::fragment_kinds::RepeatKind;
use std::alloc::{AllocError, Allocator};

fn are_distinct(bound: &[PatternVariable<'_>]) -> bool
    ensures { result ≡ spec.are_distinct (map variable_seen bound.now) }
{
    let Some((first, rest)) = bound.split_first() else {
        return true;
    };
    first_of_name(first.name, rest).is_none() && are_distinct(rest)
}

fn is_single(depth: usize, bound: Option<PatternVariable<'_>>) -> bool
    ensures { result ≡ spec.is_single depth (option_map variable_seen bound.entry) }
{
    match bound {
        None => true,
        Some(bound) => bound.depth <= depth,
    }
}

// Whether the variable still repeats in that many repetitions.
pub(crate) fn still_repeats(depth: usize, bound: Option<PatternVariable<'_>>) -> bool
    ensures { result ≡ spec.still_repeats depth (option_map variable_seen bound.entry) }
{
    match bound {
        None => false,
        Some(bound) => depth < bound.depth,
    }
}

fn allows_zero_rounds(kind: RepeatKind) -> bool
    ensures { result ≡ spec.allows_zero_rounds kind }
{
    match kind {
        RepeatKind::OneOrMore => false,
        RepeatKind::ZeroOrMore | RepeatKind::ZeroOrOne => true,
    }
}

#[cycle(rounds)]
#[tactic(auto, using(mbe_ops::proofs::OpViews::views))]
fn has_repeating_variable_op<A: Allocator>(
    bound: &[PatternVariable<'_>],
    depth: usize,
    op: &Op<A>,
) -> bool
    ensures { result ≡ spec.has_repeating_variable_op (map variable_seen bound.now) depth
        (op_of op.now) }
{
    match op {
        Op::Var { name, .. } => still_repeats(depth, first_of_name(name.as_str(), bound)),
        Op::Subtree { tokens, .. } => has_repeating_variable(bound, depth, &tokens.0),
        Op::Repeat { tokens, .. } => has_repeating_variable(bound, depth, &tokens.0),
        Op::Literal(_) | Op::Punct(_) | Op::Ident(_) => false,
        Op::Expression(_) => false,
    }
}

#[cycle(rounds)]
fn has_repeating_variable<A: Allocator>(
    bound: &[PatternVariable<'_>],
    depth: usize,
    ops: &[Op<A>],
) -> bool
    ensures { result ≡ spec.has_repeating_variable (map variable_seen bound.now) depth
        (ops_of ops.now) }
{
    let Some((op, rest)) = ops.split_first() else {
        return false;
    };
    has_repeating_variable_op(bound, depth, op) || has_repeating_variable(bound, depth, rest)
}

// Whether a repetition may have no round, and has the rounds of a variable in it.
fn repeats_with_variable<A: Allocator>(
    bound: &[PatternVariable<'_>],
    depth: usize,
    kind: RepeatKind,
    body: &[Op<A>],
) -> bool
    ensures { result ≡ spec.repeats_with_variable (map variable_seen bound.now) depth kind
        (ops_of body.now) }
{
    allows_zero_rounds(kind) && has_repeating_variable(bound, depth, body)
}

#[cycle(sure)]
#[tactic(auto, using(mbe_ops::proofs::OpViews::views))]
fn is_infallible_op<A: Allocator>(
    bound: &[PatternVariable<'_>],
    depth: usize,
    op: &Op<A>,
) -> Result<bool, AllocError>
    ensures { IfOk result (λ sure. sure
        ≡ spec.is_infallible_op (map variable_seen bound.now) depth (op_of op.now)) }
{
    match op {
        Op::Var { name, .. } => Ok(is_single(depth, first_of_name(name.as_str(), bound))),
        Op::Subtree { tokens, .. } => are_infallible(bound, depth, &tokens.0),
        Op::Repeat { tokens, kind, .. } => {
            if !repeats_with_variable(bound, depth, *kind, &tokens.0) {
                return Ok(false);
            }
            let deeper = one_deeper(depth)?;
            are_infallible(bound, deeper, &tokens.0)
        }
        Op::Literal(_) | Op::Punct(_) | Op::Ident(_) => Ok(true),
        Op::Expression(_) => Ok(false),
    }
}

#[cycle(sure)]
fn are_infallible<A: Allocator>(
    bound: &[PatternVariable<'_>],
    depth: usize,
    ops: &[Op<A>],
) -> Result<bool, AllocError>
    ensures { IfOk result (λ sure. sure
        ≡ spec.are_infallible (map variable_seen bound.now) depth (ops_of ops.now)) }
{
    let Some((op, rest)) = ops.split_first() else {
        return Ok(true);
    };
    if !is_infallible_op(bound, depth, op)? {
        return Ok(false);
    }
    are_infallible(bound, depth, rest)
}

/// Whether a template can be transcribed without a fault, whatever the variables of its pattern are
/// bound to. Each variable must be one fragment where it is used, and each repetition must have the
/// rounds of a variable in it. This holds if there are fewer than 65536 rounds. `AllocError` if out
/// of memory, or if 2^64 repetitions are nested.
pub fn is_infallible<A: Allocator + Copy>(
    alloc: A,
    pattern: &MetaTemplate<A>,
    template: &MetaTemplate<A>,
) -> Result<bool, AllocError>
    ensures { IfOk result (λ sure. sure
        ≡ spec.is_infallible (template_of pattern.now) (template_of template.now)) }
{
    let bound = variables_in(alloc, pattern)?;
    if !are_distinct(bound.as_slice()) {
        return Ok(false);
    }
    are_infallible(bound.as_slice(), 0, &template.0)
}
