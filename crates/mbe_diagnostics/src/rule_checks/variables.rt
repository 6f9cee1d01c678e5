// Collects the variables of a pattern, and their uses in a template.
ghost use Rattle.std.specs.Prelude.{◌≡◌, ◌+◌, ◌++◌, [], ◌∷◌, map, Some, None, OnOk, IfOk};
ghost use Rattle.mbe_ops.specs.Expressions.{expression_seen};
ghost use Rattle.mbe_ops.specs.Views.{op_of, ops_of, template_of};
ghost use Rattle.mbe_diagnostics.specs.RuleChecks.Variables as spec;
ghost use Rattle.mbe_diagnostics.specs.RuleChecks.Variables.{variable_seen, use_seen};

use mbe_ops::expression::Expression;
use mbe_ops::ops::{MetaTemplate, Op};
use mbe_semantics::fragment_kinds::MetaVarKind;
use mbe_tt::span::Span;
use std::alloc::{AllocError, Allocator};

/// A variable of a pattern. Clauses see it by `variable_seen`.
#[derive(Clone, Copy, Drop)]
pub struct PatternVariable<'a> {
    pub name: &'a str,
    /// None where the specifier is unknown.
    pub kind: Option<MetaVarKind>,
    /// How many repetitions are around it.
    pub depth: usize,
    /// The span of its name.
    pub place: Span,
}

/// A use of a name in a template. Clauses see it by `use_seen`.
#[derive(Clone, Copy, Drop)]
pub struct VariableUse<'a> {
    pub name: &'a str,
    /// How many repetitions are around it.
    pub depth: usize,
    /// The span of the use, if the template emits the variable's fragment there. `None` in
    /// `${ignore(..)}` and `${count(..)}`, which emit nothing of it.
    pub place: Option<Span>,
}

/// Returns the depth plus one. `AllocError` if that is 2^64.
pub fn one_deeper(depth: usize) -> Result<usize, AllocError>
    ensures { IfOk result (λ deeper. deeper ≡ depth + 1) }
{
    depth.checked_add(1).ok_or(AllocError)
}

#[cycle(bound)]
fn push_bound<'a, A: Allocator>(
    bound: &mut Vec<PatternVariable<'a>, A>,
    ops: &'a [Op<A>],
    depth: usize,
) -> Result<(), AllocError>
    ensures { OnOk result (map variable_seen bound.new.items
        ≡ map variable_seen bound.old.items ++ spec.variables_in depth (ops_of ops.now)) }
{
    let mut rest = ops;
    'ops: while let Some((op, others)) = rest.split_first() {
        push_bound_op(bound, op, depth)?;
        rest = others;
    }
    Ok(())
}

#[cycle(bound)]
#[tactic(auto, using(mbe_ops::proofs::OpViews::views))]
fn push_bound_op<'a, A: Allocator>(
    bound: &mut Vec<PatternVariable<'a>, A>,
    op: &'a Op<A>,
    depth: usize,
) -> Result<(), AllocError>
    ensures { OnOk result (map variable_seen bound.new.items
        ≡ map variable_seen bound.old.items ++ spec.variables_in_op depth (op_of op.now)) }
{
    match op {
        Op::Var { name, kind, id } => {
            bound.push(PatternVariable {
                name: name.as_str(),
                kind: *kind,
                depth,
                place: *id,
            })?;
            Ok(())
        }
        Op::Subtree { tokens, .. } => push_bound(bound, &tokens.0, depth),
        Op::Repeat { tokens, .. } => {
            let deeper = one_deeper(depth)?;
            push_bound(bound, &tokens.0, deeper)
        }
        Op::Literal(_) | Op::Punct(_) | Op::Ident(_) => Ok(()),
        Op::Expression(_) => Ok(()),
    }
}

fn push_used_expression<'a, A: Allocator>(
    used: &mut Vec<VariableUse<'a>, A>,
    expression: &'a Expression<A>,
    depth: usize,
) -> Result<(), AllocError>
    ensures { OnOk result (map use_seen used.new.items ≡ map use_seen used.old.items
        ++ spec.uses_in_expression depth (expression_seen expression.now)) }
{
    for mention in expression.mentions() {
        used.push(VariableUse {
            name: mention.name.as_str(),
            depth,
            place: mention.place,
        })?;
    }
    Ok(())
}

#[cycle(used)]
fn push_used<'a, A: Allocator>(
    used: &mut Vec<VariableUse<'a>, A>,
    ops: &'a [Op<A>],
    depth: usize,
) -> Result<(), AllocError>
    ensures { OnOk result (map use_seen used.new.items
        ≡ map use_seen used.old.items ++ spec.uses_in depth (ops_of ops.now)) }
{
    let mut rest = ops;
    'ops: while let Some((op, others)) = rest.split_first() {
        push_used_op(used, op, depth)?;
        rest = others;
    }
    Ok(())
}

#[cycle(used)]
#[tactic(auto, using(mbe_ops::proofs::OpViews::views))]
fn push_used_op<'a, A: Allocator>(
    used: &mut Vec<VariableUse<'a>, A>,
    op: &'a Op<A>,
    depth: usize,
) -> Result<(), AllocError>
    ensures { OnOk result (map use_seen used.new.items
        ≡ map use_seen used.old.items ++ spec.uses_in_op depth (op_of op.now)) }
{
    match op {
        Op::Var { name, id, .. } => {
            used.push(VariableUse {
                name: name.as_str(),
                depth,
                place: Some(*id),
            })?;
            Ok(())
        }
        Op::Expression(expression) => push_used_expression(used, expression, depth),
        Op::Subtree { tokens, .. } => push_used(used, &tokens.0, depth),
        Op::Repeat { tokens, .. } => {
            let deeper = one_deeper(depth)?;
            push_used(used, &tokens.0, deeper)
        }
        Op::Literal(_) | Op::Punct(_) | Op::Ident(_) => Ok(()),
    }
}

/// Returns the variables of a pattern, at any depth, in the order of the text. `AllocError` if out
/// of memory.
pub fn variables_in<'a, A: Allocator + Copy>(
    alloc: A,
    pattern: &'a MetaTemplate<A>,
) -> Result<Vec<PatternVariable<'a>, A>, AllocError>
    ensures { IfOk result (λ bound. map variable_seen bound.items
        ≡ spec.variables_in 0 (template_of pattern.now)) }
{
    let mut bound = Vec::new(alloc);
    push_bound(&mut bound, &pattern.0, 0)?;
    Ok(bound)
}

// Returns the uses of names in these ops, at any depth. `AllocError` if out of memory.
pub(crate) fn uses_in_ops<'a, A: Allocator + Copy>(
    alloc: A,
    ops: &'a [Op<A>],
) -> Result<Vec<VariableUse<'a>, A>, AllocError>
    ensures { IfOk result (λ used. map use_seen used.items ≡ spec.uses_in 0 (ops_of ops.now)) }
{
    let mut used = Vec::new(alloc);
    push_used(&mut used, ops, 0)?;
    Ok(used)
}

/// Returns the uses of names in a template, at any depth, in the order of the text. `AllocError` if
/// out of memory.
pub fn uses_in<'a, A: Allocator + Copy>(
    alloc: A,
    template: &'a MetaTemplate<A>,
) -> Result<Vec<VariableUse<'a>, A>, AllocError>
    ensures { IfOk result (λ used. map use_seen used.items
        ≡ spec.uses_in 0 (template_of template.now)) }
{
    let mut used = Vec::new(alloc);
    push_used(&mut used, &template.0, 0)?;
    Ok(used)
}
