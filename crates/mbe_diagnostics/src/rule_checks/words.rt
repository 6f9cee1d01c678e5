// Finds identifiers of a template that aren't variables.
ghost use Rattle.std.specs.Prelude.{◌≡◌};
ghost use Rattle.mbe_ops.specs.Views.{op_of, ops_of, template_of};
ghost use Rattle.mbe_diagnostics.specs.RuleChecks.Words as spec;

use mbe_ops::ops::{MetaTemplate, Op};
use std::alloc::Allocator;

#[cycle(word)]
#[tactic(auto, using(mbe_ops::proofs::OpViews::views))]
fn has_word_op<A: Allocator>(name: &str, op: &Op<A>) -> bool
    ensures { result ≡ spec.has_word_op name.now (op_of op.now) }
{
    match op {
        Op::Ident(ident) => ident.sym.as_str() == name,
        Op::Subtree { tokens, .. } => has_word_in(name, &tokens.0),
        Op::Repeat { tokens, .. } => has_word_in(name, &tokens.0),
        Op::Var { .. } => false,
        Op::Literal(_) | Op::Punct(_) => false,
        Op::Expression(_) => false,
    }
}

#[cycle(word)]
fn has_word_in<A: Allocator>(name: &str, ops: &[Op<A>]) -> bool
    ensures { result ≡ spec.has_word name.now (ops_of ops.now) }
{
    let Some((op, rest)) = ops.split_first() else {
        return false;
    };
    has_word_op(name, op) || has_word_in(name, rest)
}

/// Returns whether a template has that identifier, at any depth, and not as a variable.
pub fn has_word<A: Allocator>(name: &str, template: &MetaTemplate<A>) -> bool
    ensures { result ≡ spec.has_word name.now (template_of template.now) }
{
    has_word_in(name, &template.0)
}

/// Returns whether the template may define a macro: it has the identifier `macro_rules` or `macro`.
pub fn holds_definition<A: Allocator>(template: &MetaTemplate<A>) -> bool
    ensures { result ≡ spec.holds_definition (template_of template.now) }
{
    has_word("macro_rules", template) || has_word("macro", template)
}
