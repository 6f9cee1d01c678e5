// Finds errors in a rule, and unused variables. The findings hold for every call.
ghost use Rattle.std.specs.Prelude.{◌≡◌, ◌++◌, [], map, option_map, IfOk, OnOk};
ghost use Rattle.mbe_ops.specs.Views.{separator_seen, template_of};
ghost use Rattle.mbe_diagnostics.specs.RuleChecks.Variables.{variable_seen, use_seen};
ghost use Rattle.mbe_diagnostics.specs.RuleChecks.FollowCheck.{violation_seen};
ghost use Rattle.mbe_diagnostics.specs.RuleChecks.Findings as spec;
ghost use Rattle.mbe_diagnostics.specs.RuleChecks.Findings.{finding_seen};

use crate::lints::similar_specifier::similar_name;
use crate::rule_checks::follow_check::{FollowViolation, forbidden};
use crate::rule_checks::optional_separators::push_optional_separators;
use crate::rule_checks::variables::{PatternVariable, VariableUse, uses_in, variables_in};
use crate::rule_checks::words::{has_word, holds_definition};
use mbe_ops::ops::{MetaTemplate, Separator};
use std::alloc::{AllocError, Allocator, Global};

/// A finding in a rule. Clauses see it by `finding_seen`.
#[derive(Drop)]
pub enum Finding<'a, A: Allocator = Global> {
    /// A variable of the pattern, and a later one with the same name. rustc refuses the rule.
    BoundTwice(PatternVariable<'a>, PatternVariable<'a>),
    /// A variable whose specifier is unknown. rustc refuses the rule.
    UnknownSpecifier(PatternVariable<'a>),
    /// A separator of a repetition with `?`, which has at most one round. rustc refuses the rule.
    SeparatedOptional(&'a Separator<A>),
    /// A use of a name that no variable of the pattern has, and the variable's name that is
    /// similar, if there is one. The template emits the `$` and the name as they are.
    UnknownVariable(VariableUse<'a>, Option<&'a str>),
    /// A variable that the template doesn't name, where a mistake is likely.
    NeverUsed(PatternVariable<'a>),
    /// A variable, and a use of it in fewer repetitions than it is bound in: it still repeats
    /// there. rustc refuses each call that expands the use.
    StillRepeats(PatternVariable<'a>, VariableUse<'a>),
    /// A fragment, and something that may follow it in the pattern though the language forbids
    /// that. rustc refuses the rule.
    Forbidden(FollowViolation<'a, A>),
}

/// Returns the first variable of that name.
pub fn first_of_name<'a>(name: &str, bound: &[PatternVariable<'a>]) -> Option<PatternVariable<'a>>
    ensures { option_map variable_seen result
        ≡ spec.first_of_name name.now (map variable_seen bound.now) }
{
    for one in bound {
        if one.name == name {
            return Some(*one);
        }
    }
    None
}

fn push_if_duplicate<'a, A: Allocator>(
    found: &mut Vec<Finding<'a, A>, A>,
    first: Option<PatternVariable<'a>>,
    one: PatternVariable<'a>,
) -> Result<(), AllocError>
    ensures { OnOk result (map finding_seen found.new.items ≡ map finding_seen found.old.items
        ++ spec.if_duplicate (option_map variable_seen first.entry) (variable_seen one.entry)) }
{
    if let Some(first) = first {
        found.push(Finding::BoundTwice(first, one))?;
    }
    Ok(())
}

fn push_duplicates<'a, A: Allocator>(
    found: &mut Vec<Finding<'a, A>, A>,
    bound: &[PatternVariable<'a>],
) -> Result<(), AllocError>
    ensures { OnOk result (map finding_seen found.new.items ≡ map finding_seen found.old.items
        ++ spec.duplicates [] (map variable_seen bound.now)) }
{
    for (index, one) in bound.iter().enumerate() {
        let first = first_of_name(one.name, &bound[..index]);
        push_if_duplicate(found, first, *one)?;
    }
    Ok(())
}

fn push_if_unknown<'a, A: Allocator>(
    found: &mut Vec<Finding<'a, A>, A>,
    one: PatternVariable<'a>,
) -> Result<(), AllocError>
    ensures { OnOk result (map finding_seen found.new.items ≡ map finding_seen found.old.items
        ++ spec.if_unknown one.entry.kind (variable_seen one.entry)) }
{
    if one.kind.is_none() {
        found.push(Finding::UnknownSpecifier(one))?;
    }
    Ok(())
}

fn push_unknown<'a, A: Allocator>(
    found: &mut Vec<Finding<'a, A>, A>,
    bound: &[PatternVariable<'a>],
) -> Result<(), AllocError>
    ensures { OnOk result (map finding_seen found.new.items ≡ map finding_seen found.old.items
        ++ spec.unknown (map variable_seen bound.now)) }
{
    for one in bound {
        push_if_unknown(found, *one)?;
    }
    Ok(())
}

fn push_separated<'a, A: Allocator>(
    found: &mut Vec<Finding<'a, A>, A>,
    all: &[&'a Separator<A>],
) -> Result<(), AllocError>
    ensures { OnOk result (map finding_seen found.new.items ≡ map finding_seen found.old.items
        ++ map spec.separated_optional (map (λ s. separator_seen s.now) all.now)) }
{
    for one in all {
        found.push(Finding::SeparatedOptional(*one))?;
    }
    Ok(())
}

fn is_unbound(bound: &[PatternVariable<'_>], one: VariableUse<'_>) -> bool
    ensures { result ≡ spec.is_unbound (map variable_seen bound.now) (use_seen one.entry) }
{
    one.place.is_some() && first_of_name(one.name, bound).is_none()
}

fn has_unbound(bound: &[PatternVariable<'_>], used: &[VariableUse<'_>]) -> bool
    ensures { result ≡ spec.has_unbound (map variable_seen bound.now) (map use_seen used.now) }
{
    for one in used {
        if is_unbound(bound, *one) {
            return true;
        }
    }
    false
}

// Whether the template has a name that isn't bound. `holds` says whether it may define a macro.
fn is_misspelt(holds: bool, bound: &[PatternVariable<'_>], used: &[VariableUse<'_>]) -> bool
    ensures { result ≡ spec.is_misspelt holds (map variable_seen bound.now)
        (map use_seen used.now) }
{
    !holds && has_unbound(bound, used)
}

fn names_of<'a, A: Allocator>(
    alloc: A,
    bound: &[PatternVariable<'a>],
) -> Result<Vec<&'a str, A>, AllocError>
    ensures { IfOk result (λ names. map (λ s. s.now) names.items
        ≡ spec.names_of_variables (map variable_seen bound.now)) }
{
    let mut names = Vec::new(alloc);
    for one in bound {
        names.push(one.name)?;
    }
    Ok(names)
}

fn push_if_unbound<'a, A: Allocator + Copy>(
    alloc: A,
    found: &mut Vec<Finding<'a, A>, A>,
    bound: &[PatternVariable<'a>],
    one: VariableUse<'a>,
) -> Result<(), AllocError>
    ensures { OnOk result (map finding_seen found.new.items ≡ map finding_seen found.old.items
        ++ spec.if_unbound (map variable_seen bound.now) (use_seen one.entry)) }
{
    if !is_unbound(bound, one) {
        return Ok(());
    }
    let names = names_of(alloc, bound)?;
    let similar = similar_name(alloc, one.name, names.as_slice())?;
    found.push(Finding::UnknownVariable(one, similar))?;
    Ok(())
}

fn push_unbound<'a, A: Allocator + Copy>(
    alloc: A,
    found: &mut Vec<Finding<'a, A>, A>,
    bound: &[PatternVariable<'a>],
    used: &[VariableUse<'a>],
) -> Result<(), AllocError>
    ensures { OnOk result (map finding_seen found.new.items ≡ map finding_seen found.old.items
        ++ spec.unbound (map variable_seen bound.now) (map use_seen used.now)) }
{
    for one in used {
        push_if_unbound(alloc, found, bound, *one)?;
    }
    Ok(())
}

fn push_unbound_unless<'a, A: Allocator + Copy>(
    alloc: A,
    found: &mut Vec<Finding<'a, A>, A>,
    holds: bool,
    bound: &[PatternVariable<'a>],
    used: &[VariableUse<'a>],
) -> Result<(), AllocError>
    ensures { OnOk result (map finding_seen found.new.items ≡ map finding_seen found.old.items
        ++ spec.unbound_unless holds (map variable_seen bound.now) (map use_seen used.now)) }
{
    if holds {
        return Ok(());
    }
    push_unbound(alloc, found, bound, used)
}

fn begins_with_underscore(name: &str) -> bool
    ensures { result ≡ spec.begins_with_underscore name.now }
{
    match name.as_bytes() {
        [] => false,
        [first, ..] => *first == b'_',
    }
}

fn is_named(name: &str, used: &[VariableUse<'_>]) -> bool
    ensures { result ≡ spec.is_named name.now (map use_seen used.now) }
{
    for one in used {
        if one.name == name {
            return true;
        }
    }
    false
}

// Whether the variable's name may be misspelt in the template.
fn is_suspicious<A: Allocator>(misspelt: bool, template: &MetaTemplate<A>, name: &str) -> bool
    ensures { result ≡ spec.is_suspicious misspelt (template_of template.now) name.now }
{
    misspelt || has_word(name, template)
}

fn push_if_unused<'a, A: Allocator>(
    found: &mut Vec<Finding<'a, A>, A>,
    misspelt: bool,
    template: &MetaTemplate<A>,
    used: &[VariableUse<'a>],
    one: PatternVariable<'a>,
) -> Result<(), AllocError>
    ensures { OnOk result (map finding_seen found.new.items ≡ map finding_seen found.old.items
        ++ spec.if_unused misspelt (template_of template.now) (map use_seen used.now)
        (variable_seen one.entry)) }
{
    if !(begins_with_underscore(one.name)
        || is_named(one.name, used)
        || !is_suspicious(misspelt, template, one.name))
    {
        found.push(Finding::NeverUsed(one))?;
    }
    Ok(())
}

fn push_unused<'a, A: Allocator>(
    found: &mut Vec<Finding<'a, A>, A>,
    misspelt: bool,
    template: &MetaTemplate<A>,
    used: &[VariableUse<'a>],
    bound: &[PatternVariable<'a>],
) -> Result<(), AllocError>
    ensures { OnOk result (map finding_seen found.new.items ≡ map finding_seen found.old.items
        ++ spec.unused misspelt (template_of template.now) (map use_seen used.now)
        (map variable_seen bound.now)) }
{
    for one in bound {
        push_if_unused(found, misspelt, template, used, *one)?;
    }
    Ok(())
}

fn push_if_repeating<'a, A: Allocator>(
    found: &mut Vec<Finding<'a, A>, A>,
    bound: Option<PatternVariable<'a>>,
    one: VariableUse<'a>,
) -> Result<(), AllocError>
    ensures { OnOk result (map finding_seen found.new.items ≡ map finding_seen found.old.items
        ++ spec.if_repeating (option_map variable_seen bound.entry) (use_seen one.entry)) }
{
    if let Some(bound) = bound
        && one.place.is_some()
        && one.depth < bound.depth
    {
        found.push(Finding::StillRepeats(bound, one))?;
    }
    Ok(())
}

fn push_repeating<'a, A: Allocator>(
    found: &mut Vec<Finding<'a, A>, A>,
    bound: &[PatternVariable<'a>],
    used: &[VariableUse<'a>],
) -> Result<(), AllocError>
    ensures { OnOk result (map finding_seen found.new.items ≡ map finding_seen found.old.items
        ++ spec.repeating (map variable_seen bound.now) (map use_seen used.now)) }
{
    for one in used {
        push_if_repeating(found, first_of_name(one.name, bound), *one)?;
    }
    Ok(())
}

fn push_forbidden<'a, A: Allocator>(
    found: &mut Vec<Finding<'a, A>, A>,
    all: &[FollowViolation<'a, A>],
) -> Result<(), AllocError>
    ensures { OnOk result (map finding_seen found.new.items ≡ map finding_seen found.old.items
        ++ map spec.forbidden (map violation_seen all.now)) }
{
    for one in all {
        found.push(Finding::Forbidden(*one))?;
    }
    Ok(())
}

/// Returns the findings in a rule with this pattern and this template. They are, in this order:
///
/// 1. Names that are bound twice.
/// 2. Unknown specifiers.
/// 3. Separators of repetitions with `?`, first in the pattern, then in the template.
/// 4. Uses of names that no variable has, unless the template may define a macro.
/// 5. Variables that the template doesn't name, unless their name begins with `_`. They are only
///    found where a mistake is likely: 4 found something, or the template has the name without `$`.
/// 6. Uses of a variable in fewer repetitions than it is bound in.
/// 7. Fragments that something may follow which the Rust Reference forbids there ("Follow-set
///    Ambiguity Restrictions"), as rustc 1.95 checks it.
///
/// The findings of each kind are in the order of the text. If a name is bound twice, the first
/// variable counts. `AllocError` if out of memory, or if 2^64 repetitions are nested.
pub fn findings<'a, A: Allocator + Copy>(
    alloc: A,
    pattern: &'a MetaTemplate<A>,
    template: &'a MetaTemplate<A>,
) -> Result<Vec<Finding<'a, A>, A>, AllocError>
    ensures { IfOk result (λ found. map finding_seen found.items
        ≡ spec.findings (template_of pattern.now) (template_of template.now)) }
{
    let bound = variables_in(alloc, pattern)?;
    let used = uses_in(alloc, template)?;
    let followed = forbidden(alloc, pattern)?;
    let mut separators = Vec::new(alloc);
    push_optional_separators(&mut separators, pattern)?;
    push_optional_separators(&mut separators, template)?;
    let holds = holds_definition(template);
    let misspelt = is_misspelt(holds, bound.as_slice(), used.as_slice());
    let mut found = Vec::new(alloc);
    push_duplicates(&mut found, bound.as_slice())?;
    push_unknown(&mut found, bound.as_slice())?;
    push_separated(&mut found, separators.as_slice())?;
    push_unbound_unless(alloc, &mut found, holds, bound.as_slice(), used.as_slice())?;
    push_unused(
        &mut found,
        misspelt,
        template,
        used.as_slice(),
        bound.as_slice(),
    )?;
    push_repeating(&mut found, bound.as_slice(), used.as_slice())?;
    push_forbidden(&mut found, followed.as_slice())?;
    Ok(found)
}
