// Finds separators of repetitions with `?`.
ghost use Rattle.std.specs.Prelude.{◌≡◌, ◌++◌, map, option_map, OnOk};
ghost use Rattle.mbe_ops.specs.Views.{op_of, ops_of, separator_seen, template_of};
ghost use Rattle.mbe_diagnostics.specs.RuleChecks.OptionalSeparators as spec;

use mbe_ops::op_fields::OpSeparator;
use mbe_ops::ops::{MetaTemplate, Op, Separator};
use mbe_semantics::fragment_kinds::RepeatKind;
use std::alloc::{AllocError, Allocator};

fn push_if_optional<'a, A: Allocator>(
    found: &mut Vec<&'a Separator<A>, A>,
    kind: RepeatKind,
    separator: &'a OpSeparator<A>,
) -> Result<(), AllocError>
    ensures { OnOk result (map (λ s. separator_seen s.now) found.new.items
        ≡ map (λ s. separator_seen s.now) found.old.items
        ++ spec.if_optional kind (option_map separator_seen separator.now)) }
{
    match kind {
        RepeatKind::ZeroOrOne => {
            if let Some(separator) = separator.as_ref() {
                found.push(separator)?;
            }
            Ok(())
        }
        RepeatKind::ZeroOrMore | RepeatKind::OneOrMore => Ok(()),
    }
}

#[cycle(optional)]
fn push_optional<'a, A: Allocator>(
    found: &mut Vec<&'a Separator<A>, A>,
    ops: &'a [Op<A>],
) -> Result<(), AllocError>
    ensures { OnOk result (map (λ s. separator_seen s.now) found.new.items
        ≡ map (λ s. separator_seen s.now) found.old.items
        ++ spec.optional_separators (ops_of ops.now)) }
{
    let mut rest = ops;
    'ops: while let Some((op, others)) = rest.split_first() {
        push_optional_op(found, op)?;
        rest = others;
    }
    Ok(())
}

#[cycle(optional)]
#[tactic(auto, using(mbe_ops::proofs::OpViews::views))]
fn push_optional_op<'a, A: Allocator>(
    found: &mut Vec<&'a Separator<A>, A>,
    op: &'a Op<A>,
) -> Result<(), AllocError>
    ensures { OnOk result (map (λ s. separator_seen s.now) found.new.items
        ≡ map (λ s. separator_seen s.now) found.old.items
        ++ spec.optional_separators_op (op_of op.now)) }
{
    match op {
        Op::Subtree { tokens, .. } => push_optional(found, &tokens.0),
        Op::Repeat {
            tokens,
            kind,
            separator,
        } => {
            push_if_optional(found, *kind, separator)?;
            push_optional(found, &tokens.0)
        }
        Op::Var { .. } => Ok(()),
        Op::Literal(_) | Op::Punct(_) | Op::Ident(_) => Ok(()),
        Op::Expression(_) => Ok(()),
    }
}

/// Adds the separators of the repetitions with `?` in a pattern or a template, at any depth, in the
/// order of the text. `AllocError` if out of memory.
pub fn push_optional_separators<'a, A: Allocator>(
    found: &mut Vec<&'a Separator<A>, A>,
    ops: &'a MetaTemplate<A>,
) -> Result<(), AllocError>
    ensures { OnOk result (map (λ s. separator_seen s.now) found.new.items
        ≡ map (λ s. separator_seen s.now) found.old.items
        ++ spec.optional_separators (template_of ops.now)) }
{
    push_optional(found, &ops.0)
}
