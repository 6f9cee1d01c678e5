// Equality and copies of rules.
ghost use Rattle.std.specs.Prelude.{◌≡◌, ◌↔◌, IsTrue, IfOk};
ghost use Rattle.mbe_ops.specs.Equality.{AreSameOps, AreSameRules};
ghost use Rattle.mbe_ops.specs.Views.{template_of};
ghost use Rattle.mbe_parser.specs.RuleViews.{rule_of, rules_seen};

use crate::rules::Rule;
use mbe_ops::same_templates;
use std::alloc::{AllocError, Allocator};

/// Returns whether the rules are the same, one by one. Separators are compared by their texts
/// alone.
pub fn same_rules<A: Allocator>(one: &[Rule<A>], two: &[Rule<A>]) -> bool
    ensures { IsTrue result ↔ AreSameRules (rules_seen one.now) (rules_seen two.now) }
{
    let mut rest = two;
    for rule in one {
        let Some((other, others)) = rest.split_first() else {
            return false;
        };
        if !same_rule(rule, other) {
            return false;
        }
        rest = others;
    }
    rest.is_empty()
}

fn same_rule<A: Allocator>(one: &Rule<A>, two: &Rule<A>) -> bool
    ensures { IsTrue result ↔ ((one.now.style ≡ two.now.style)
        × AreSameOps (template_of one.now.lhs) (template_of two.now.lhs)
        × AreSameOps (template_of one.now.rhs) (template_of two.now.rhs)) }
{
    one.style == two.style
        && same_templates(&one.lhs, &two.lhs)
        && same_templates(&one.rhs, &two.rhs)
}

/// Returns equal copies of the rules. `AllocError` if out of memory.
pub fn clone_rules<A: Allocator + Copy>(
    alloc: A,
    rules: &[Rule<A>],
) -> Result<Vec<Rule<A>, A>, AllocError>
    ensures { IfOk result (λ copy. rules_seen copy.items ≡ rules_seen rules.now) }
{
    let mut copy = Vec::new(alloc);
    for rule in rules {
        let rule = rule.try_clone(alloc)?;
        copy.push(rule)?;
    }
    Ok(copy)
}

impl<A: Allocator + Copy> Rule<A> {
    /// Returns an equal copy. `AllocError` if out of memory.
    pub fn try_clone(&self, alloc: A) -> Result<Rule<A>, AllocError>
        ensures { IfOk result (λ copy. rule_of copy ≡ rule_of self.now) }
    {
        Ok(Rule {
            style: self.style,
            lhs: self.lhs.try_clone(alloc)?,
            rhs: self.rhs.try_clone(alloc)?,
        })
    }
}
