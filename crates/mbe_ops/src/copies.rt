// Copies of patterns and templates. Each copy can fail, since it takes memory.
ghost use Rattle.std.specs.Prelude.{◌≡◌, IfOk, option_map};
ghost use Rattle.mbe_ops.specs.Views.{separator_seen, op_of, ops_of, template_of};

use crate::expression::clone_expression;
use crate::op_fields::OpSeparator;
use crate::ops::{MetaTemplate, Op, Separator};
use arrayvec::ArrayVec;
use mbe_tt::tt::Punct;
use std::alloc::{AllocError, Allocator};

impl<A: Allocator + Copy> MetaTemplate<A> {
    /// Returns an equal copy. `AllocError` if out of memory.
    pub fn try_clone(&self, alloc: A) -> Result<MetaTemplate<A>, AllocError>
        ensures { IfOk result (λ copy. template_of copy ≡ template_of self.now) }
    {
        Ok(MetaTemplate(clone_ops(alloc, &self.0)?))
    }
}

#[cycle(copies)]
fn clone_ops<A: Allocator + Copy>(alloc: A, ops: &[Op<A>]) -> Result<Vec<Op<A>, A>, AllocError>
    ensures { IfOk result (λ copy. ops_of copy.items ≡ ops_of ops.now) }
{
    let mut copy = Vec::new(alloc);
    for op in ops {
        let op = clone_op(alloc, op)?;
        copy.push(op)?;
    }
    Ok(copy)
}

#[cycle(copies)]
#[tactic(auto, using(crate::proofs::OpViews::views))]
fn clone_op<A: Allocator + Copy>(alloc: A, op: &Op<A>) -> Result<Op<A>, AllocError>
    ensures { IfOk result (λ copy. op_of copy ≡ op_of op.now) }
{
    match op {
        Op::Var { name, kind, id } => Ok(Op::Var {
            name: name.clone()?,
            kind: *kind,
            id: *id,
        }),
        Op::Expression(expression) => Ok(Op::Expression(clone_expression(expression)?)),
        Op::Repeat {
            tokens,
            kind,
            separator,
        } => Ok(Op::Repeat {
            tokens: MetaTemplate(clone_ops(alloc, &tokens.0)?),
            kind: *kind,
            separator: clone_separator(alloc, separator)?,
        }),
        Op::Subtree { tokens, delimiter } => {
            let delimiter = delimiter.try_clone(alloc)?;
            let tokens = MetaTemplate(clone_ops(alloc, &tokens.0)?);
            Ok(Op::Subtree { tokens, delimiter })
        }
        Op::Literal(literal) => Ok(Op::Literal(literal.clone()?)),
        Op::Punct(puncts) => Ok(Op::Punct(puncts.try_clone(alloc)?)),
        Op::Ident(ident) => Ok(Op::Ident(ident.clone()?)),
    }
}

fn clone_separator<A: Allocator>(
    alloc: A,
    separator: &OpSeparator<A>,
) -> Result<OpSeparator<A>, AllocError>
    ensures { IfOk result
        (λ copy. option_map separator_seen copy ≡ option_map separator_seen separator.now) }
{
    let Some(separator) = separator.as_ref() else {
        return OpSeparator::new(alloc, None);
    };
    let copy = match separator {
        Separator::Literal(literal) => Separator::Literal(literal.clone()?),
        Separator::Ident(ident) => Separator::Ident(ident.clone()?),
        Separator::Puncts(puncts) => Separator::Puncts(clone_puncts(puncts)?),
        Separator::Lifetime(quote, ident) => Separator::Lifetime(*quote, ident.clone()?),
    };
    OpSeparator::new(alloc, Some(copy))
}

pub(crate) fn clone_puncts(puncts: &ArrayVec<Punct, 3>) -> Result<ArrayVec<Punct, 3>, AllocError>
    ensures { IfOk result (λ copy. copy.items ≡ puncts.now.items) }
{
    puncts.clone()
}
