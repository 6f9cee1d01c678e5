// The messages of findings, in rustc's words where it has some.
ghost use Rattle.std.specs.Prelude.{◌≡◌, ◌++◌, map, option_map, IfOk, OnOk};
ghost use Rattle.std.specs.String.{string_bytes};
ghost use Rattle.mbe_rewriter.specs.MacroItemViews.{macro_definition_shown};
ghost use Rattle.mbe_diagnostics.specs.Outcome.{part_seen};
ghost use Rattle.mbe_diagnostics.specs.RuleChecks.FollowCheck.{follower_seen, violation_seen};
ghost use Rattle.mbe_diagnostics.specs.RuleChecks.Variables.{variable_seen, use_seen};
ghost use Rattle.mbe_diagnostics.specs.RuleChecks.Findings.{finding_seen};
ghost use Rattle.mbe_diagnostics.specs.Lints.Lint.{lint_seen};
ghost use Rattle.mbe_diagnostics.specs.Lints.VariableDisplay.{display_seen, variable_text};
ghost use Rattle.mbe_ops.specs.Views.{op_of, separator_seen};
ghost use Rattle.mbe_diagnostics.specs.Lints.FindingMessages as spec;

use crate::diagnostic::Level;
use crate::lints::lint::{Lint, push, push_text};
use crate::lints::similar_specifier::similar_specifier;
use crate::lints::variable_display::{VariableDisplay, display_variable};
use crate::rule_checks::findings::Finding;
use crate::rule_checks::follow_check::{FollowViolation, Follower, needs_pat_param};
use crate::rule_checks::variables::{PatternVariable, VariableUse};
use crate::rule_part::{RulePart, describe, separator_span};
use mbe_matcher::expectations::Expected;
use mbe_ops::ops::{Op, Separator};
use mbe_rewriter::macro_items::MacroDefinition;
use mbe_semantics::fragment_kinds::{FollowSet, MetaVarKind};
use mbe_tt::span::Span;
use std::alloc::{AllocError, Allocator};

#[tactic(auto, unfolding(crate::specs::Lints::FindingMessages::duplicate_text))]
fn duplicate_text() -> &'static str
    ensures { result.now ≡ spec.duplicate_text }
{
    "duplicate matcher binding"
}

#[tactic(auto, unfolding(crate::specs::Lints::FindingMessages::earlier_text))]
fn earlier_text() -> &'static str
    ensures { result.now ≡ spec.earlier_text }
{
    "previous binding"
}

fn push_duplicate<A: Allocator + Copy>(
    alloc: A,
    lints: &mut Vec<Lint<A>, A>,
    first: VariableDisplay<'_>,
    later: VariableDisplay<'_>,
) -> Result<(), AllocError>
    ensures { OnOk result (map lint_seen lints.new.items ≡ map lint_seen lints.old.items
        ++ spec.duplicate_lints (display_seen first.entry) (display_seen later.entry)) }
{
    push_text(
        alloc,
        lints,
        Level::Error,
        later.full_span,
        duplicate_text(),
    )?;
    push_text(alloc, lints, Level::Note, first.full_span, earlier_text())
}

#[tactic(auto, unfolding(crate::specs::Lints::FindingMessages::similar_text))]
fn similar_text<A: Allocator>(alloc: A, name: &str) -> Result<String<A>, AllocError>
    ensures { IfOk result (λ text. string_bytes text ≡ spec.similar_text name.now) }
{
    format!(in alloc; "a fragment specifier with a similar name exists: `{name}`")
}

fn push_similar<A: Allocator + Copy>(
    alloc: A,
    lints: &mut Vec<Lint<A>, A>,
    place: Span,
    similar: Option<&str>,
) -> Result<(), AllocError>
    ensures { OnOk result (map lint_seen lints.new.items ≡ map lint_seen lints.old.items
        ++ spec.similar_lints place (option_map (λ s. s.now) similar.entry)) }
{
    if let Some(name) = similar {
        let message = similar_text(alloc, name)?;
        push(lints, Level::Help, place, message)?;
    }
    Ok(())
}

// Returns the help that lists all fragment specifiers.
#[tactic(auto, unfolding(crate::specs::Lints::FindingMessages::valid_text))]
fn valid_text<A: Allocator>(alloc: A) -> Result<String<A>, AllocError>
    ensures { IfOk result (λ text. string_bytes text ≡ spec.valid_text) }
{
    let mut text = String::from_str(
        alloc,
        "valid fragment specifiers are `ident`, `block`, `stmt`, `expr`, `pat`, `ty`, `lifetime`, `literal`, `path`, ",
    )?;
    text.push_str(
        "`meta`, `tt`, `item` and `vis`, along with `expr_2021` and `pat_param` for edition compatibility",
    )?;
    Ok(text)
}

#[tactic(auto, unfolding(crate::specs::Lints::FindingMessages::unknown_text))]
fn unknown_text<A: Allocator>(alloc: A, specifier: &str) -> Result<String<A>, AllocError>
    ensures { IfOk result (λ text. string_bytes text ≡ spec.unknown_text specifier.now) }
{
    format!(in alloc; "invalid fragment specifier `{specifier}`")
}

fn push_unknown<A: Allocator + Copy>(
    alloc: A,
    lints: &mut Vec<Lint<A>, A>,
    variable: VariableDisplay<'_>,
) -> Result<(), AllocError>
    ensures { OnOk result (map lint_seen lints.new.items ≡ map lint_seen lints.old.items
        ++ spec.unknown_lints (display_seen variable.entry)) }
{
    let message = unknown_text(alloc, variable.specifier)?;
    push(lints, Level::Error, variable.full_span, message)?;
    let similar = similar_specifier(alloc, variable.specifier)?;
    push_similar(alloc, lints, variable.specifier_span, similar)?;
    let message = valid_text(alloc)?;
    push(lints, Level::Help, variable.specifier_span, message)
}

#[tactic(auto, unfolding(crate::specs::Lints::FindingMessages::separator_text))]
fn separator_text() -> &'static str
    ensures { result.now ≡ spec.separator_text }
{
    "the `?` macro repetition operator does not take a separator"
}

// Adds the error on the separator of a repetition with `?`.
fn push_separated<A: Allocator + Copy>(
    alloc: A,
    lints: &mut Vec<Lint<A>, A>,
    defined: MacroDefinition<'_, A>,
    separator: &Separator<A>,
) -> Result<(), AllocError>
    ensures { OnOk result (map lint_seen lints.new.items ≡ map lint_seen lints.old.items
        ++ spec.separated_lints (macro_definition_shown defined.entry)
        (separator_seen separator.now)) }
{
    let place = separator_span(separator).unwrap_or(defined.name.span);
    push_text(alloc, lints, Level::Error, place, separator_text())
}

#[tactic(auto, unfolding(crate::specs::Lints::FindingMessages::unbound_text))]
fn unbound_text<A: Allocator>(alloc: A, name: &str) -> Result<String<A>, AllocError>
    ensures { IfOk result (λ text. string_bytes text ≡ spec.unbound_text name.now) }
{
    format!(in alloc; "unknown macro variable `{name}`")
}

#[tactic(auto, unfolding(crate::specs::Lints::FindingMessages::similar_variable_text))]
fn similar_variable_text<A: Allocator>(alloc: A, name: &str) -> Result<String<A>, AllocError>
    ensures { IfOk result (λ text. string_bytes text ≡ spec.similar_variable_text name.now) }
{
    format!(in alloc; "there's a macro metavariable with a similar name: `${name}`")
}

fn push_similar_variable<A: Allocator + Copy>(
    alloc: A,
    lints: &mut Vec<Lint<A>, A>,
    place: Span,
    similar: Option<&str>,
) -> Result<(), AllocError>
    ensures { OnOk result (map lint_seen lints.new.items ≡ map lint_seen lints.old.items
        ++ spec.similar_variable_lints place (option_map (λ s. s.now) similar.entry)) }
{
    if let Some(name) = similar {
        let message = similar_variable_text(alloc, name)?;
        push(lints, Level::Help, place, message)?;
    }
    Ok(())
}

// Adds the warning on a use of a name that no variable of the pattern has.
fn push_unbound<A: Allocator + Copy>(
    alloc: A,
    lints: &mut Vec<Lint<A>, A>,
    name: &str,
    similar: Option<&str>,
    at: VariableDisplay<'_>,
) -> Result<(), AllocError>
    ensures { OnOk result (map lint_seen lints.new.items ≡ map lint_seen lints.old.items
        ++ spec.unbound_lints name.now (option_map (λ s. s.now) similar.entry)
        (display_seen at.entry)) }
{
    let message = unbound_text(alloc, name)?;
    push(lints, Level::Warning, at.name_span, message)?;
    push_similar_variable(alloc, lints, at.name_span, similar)
}

#[tactic(auto, unfolding(crate::specs::Lints::FindingMessages::unused_text))]
fn unused_text<A: Allocator>(alloc: A, name: &str) -> Result<String<A>, AllocError>
    ensures { IfOk result (λ text. string_bytes text ≡ spec.unused_text name.now) }
{
    format!(in alloc; "unused macro variable: `${name}`")
}

#[tactic(auto, unfolding(crate::specs::Lints::FindingMessages::underscore_text))]
fn underscore_text<A: Allocator>(alloc: A, name: &str) -> Result<String<A>, AllocError>
    ensures { IfOk result (λ text. string_bytes text ≡ spec.underscore_text name.now) }
{
    format!(in alloc; "if this is intentional, prefix it with an underscore: `$_{name}`")
}

fn push_unused<A: Allocator + Copy>(
    alloc: A,
    lints: &mut Vec<Lint<A>, A>,
    name: &str,
    variable: VariableDisplay<'_>,
) -> Result<(), AllocError>
    ensures { OnOk result (map lint_seen lints.new.items ≡ map lint_seen lints.old.items
        ++ spec.unused_lints name.now (display_seen variable.entry)) }
{
    let message = unused_text(alloc, name)?;
    push(lints, Level::Warning, variable.full_span, message)?;
    let message = underscore_text(alloc, name)?;
    push(lints, Level::Help, variable.full_span, message)
}

#[tactic(auto, unfolding(crate::specs::Lints::FindingMessages::repeats_text))]
fn repeats_text<A: Allocator>(alloc: A, name: &str) -> Result<String<A>, AllocError>
    ensures { IfOk result (λ text. string_bytes text ≡ spec.repeats_text name.now) }
{
    format!(in alloc; "variable `{name}` is still repeating at this depth")
}

#[tactic(auto, unfolding(crate::specs::Lints::FindingMessages::depths_text))]
fn depths_text<A: Allocator>(alloc: A, bound: usize, used: usize) -> Result<String<A>, AllocError>
    ensures { IfOk result (λ text. string_bytes text ≡ spec.depths_text bound used) }
{
    format!(in alloc; "bound at depth {bound}, and used at depth {used}")
}

// Adds the error on a variable that is used in fewer repetitions than it is bound in.
fn push_repeating<A: Allocator + Copy>(
    alloc: A,
    lints: &mut Vec<Lint<A>, A>,
    bound: PatternVariable<'_>,
    used: VariableUse<'_>,
    variable: VariableDisplay<'_>,
    at: VariableDisplay<'_>,
) -> Result<(), AllocError>
    ensures { OnOk result (map lint_seen lints.new.items ≡ map lint_seen lints.old.items
        ++ spec.repeating_lints bound.entry.name.now bound.entry.depth used.entry.depth
        (display_seen variable.entry) (display_seen at.entry)) }
{
    let message = repeats_text(alloc, bound.name)?;
    push(lints, Level::Error, at.name_span, message)?;
    let message = depths_text(alloc, bound.depth, used.depth)?;
    push(lints, Level::Note, variable.full_span, message)
}

// Returns the note that says what may follow a fragment of that kind.
fn allowed_text(kind: Option<MetaVarKind>) -> &'static str
    ensures { result.now ≡ spec.allowed_text kind }
{
    let Some(kind) = kind else {
        return "anything is allowed there";
    };
    match kind.follow_set() {
        FollowSet::Anything => "anything is allowed there",
        FollowSet::AfterExpression => "allowed there are: `=>`, `,` or `;`",
        FollowSet::AfterPattern => "allowed there are: `=>`, `,`, `=`, `if` or `in`",
        FollowSet::AfterAlternative => "allowed there are: `=>`, `,`, `=`, `|`, `if` or `in`",
        FollowSet::AfterType => {
            "allowed there are: `{`, `[`, `=>`, `,`, `>`, `=`, `:`, `;`, `|`, `as` or `where`"
        }
        FollowSet::AfterVisibility => "allowed there are: `,`, an ident or a type",
    }
}

fn variable_text<A: Allocator>(
    alloc: A,
    name: &str,
    specifier: &str,
) -> Result<String<A>, AllocError>
    ensures { IfOk result (λ text. string_bytes text ≡ variable_text name.now specifier.now) }
{
    format!(in alloc; "`${name}:{specifier}`")
}

// Describes a variable as it is written.
fn variable_part<A: Allocator>(
    alloc: A,
    name: &str,
    variable: VariableDisplay<'_>,
) -> Result<RulePart<A>, AllocError>
    ensures { IfOk result (λ part. part_seen part
        ≡ spec.variable_part name.now (display_seen variable.entry)) }
{
    Ok(RulePart {
        text: variable_text(alloc, name, variable.specifier)?,
        span: Some(variable.full_span),
    })
}

#[tactic(auto, using(mbe_ops::proofs::OpViews::views))]
fn op_part<A: Allocator + Copy>(
    alloc: A,
    defined: MacroDefinition<'_, A>,
    op: &Op<A>,
) -> Result<RulePart<A>, AllocError>
    ensures { IfOk result (λ part. part_seen part
        ≡ spec.op_part (macro_definition_shown defined.entry) (op_of op.now)) }
{
    match op {
        Op::Var { name, kind, id } => {
            variable_part(alloc, name.as_str(), display_variable(defined, *id, *kind))
        }
        Op::Subtree { .. } => describe(alloc, Expected::Op(op)),
        Op::Literal(_) => describe(alloc, Expected::Op(op)),
        Op::Ident(_) => describe(alloc, Expected::Op(op)),
        Op::Punct(_) => describe(alloc, Expected::Op(op)),
        Op::Repeat { .. } => describe(alloc, Expected::Op(op)),
        Op::Expression(_) => describe(alloc, Expected::Op(op)),
    }
}

// Describes what may come next in a pattern.
fn follower_part<A: Allocator + Copy>(
    alloc: A,
    defined: MacroDefinition<'_, A>,
    next: Follower<'_, A>,
) -> Result<RulePart<A>, AllocError>
    ensures { IfOk result (λ part. part_seen part
        ≡ spec.follower_part (macro_definition_shown defined.entry) (follower_seen next.entry)) }
{
    match next {
        Follower::Separator(separator) => describe(alloc, Expected::Separator(separator)),
        Follower::Op(op) => op_part(alloc, defined, op),
        Follower::Closing => Ok(RulePart {
            text: String::from_str(alloc, "the end of the group")?,
            span: None,
        }),
    }
}

fn followed_text(alone: bool) -> &'static str
    ensures { result.now ≡ spec.followed_text alone }
{
    if alone {
        "is followed by"
    } else {
        "may be followed by"
    }
}

#[tactic(auto, unfolding(crate::specs::Lints::FindingMessages::forbidden_text))]
fn forbidden_text<A: Allocator + Copy>(
    alloc: A,
    name: &str,
    specifier: &str,
    alone: bool,
    next: &str,
) -> Result<String<A>, AllocError>
    ensures { IfOk result (λ text. string_bytes text
        ≡ spec.forbidden_text name.now specifier.now alone next.now) }
{
    let variable = variable_text(alloc, name, specifier)?;
    let followed = followed_text(alone);
    format!(in alloc;
        "{variable} {followed} {next}, which is not allowed for `{specifier}` fragments"
    )
}

#[tactic(auto, unfolding(crate::specs::Lints::FindingMessages::pat_param_text))]
fn pat_param_text<A: Allocator>(alloc: A, name: &str) -> Result<String<A>, AllocError>
    ensures { IfOk result (λ text. string_bytes text ≡ spec.pat_param_text name.now) }
{
    format!(in alloc; "try a `pat_param` fragment specifier instead: `${name}:pat_param`")
}

// Adds the help for a `pat` that a `|` follows.
fn push_pat_param<A: Allocator + Copy>(
    alloc: A,
    lints: &mut Vec<Lint<A>, A>,
    followed: FollowViolation<'_, A>,
    place: Span,
) -> Result<(), AllocError>
    ensures { OnOk result (map lint_seen lints.new.items ≡ map lint_seen lints.old.items
        ++ spec.pat_param_lints (violation_seen followed.entry) place) }
{
    if needs_pat_param(followed) {
        let message = pat_param_text(alloc, followed.name)?;
        push(lints, Level::Help, place, message)?;
    }
    Ok(())
}

// Adds the error on a fragment that something may follow which is forbidden there.
fn push_violation<A: Allocator + Copy>(
    alloc: A,
    lints: &mut Vec<Lint<A>, A>,
    followed: FollowViolation<'_, A>,
    variable: VariableDisplay<'_>,
    next: RulePart<A>,
) -> Result<(), AllocError>
    ensures { OnOk result (map lint_seen lints.new.items ≡ map lint_seen lints.old.items
        ++ spec.violation_lints (violation_seen followed.entry) (display_seen variable.entry)
        (part_seen next)) }
{
    let place = next.span.unwrap_or(variable.full_span);
    let text = next.text.as_str();
    let message = forbidden_text(
        alloc,
        followed.name,
        variable.specifier,
        followed.alone,
        text,
    )?;
    push(lints, Level::Error, place, message)?;
    push_text(
        alloc,
        lints,
        Level::Note,
        variable.full_span,
        allowed_text(followed.kind),
    )?;
    push_pat_param(alloc, lints, followed, variable.full_span)
}

// Returns how to display a variable of the definition.
fn bound_display<'t, A: Allocator>(
    defined: MacroDefinition<'t, A>,
    bound: PatternVariable<'_>,
) -> VariableDisplay<'t>
    ensures { display_seen result ≡ spec.bound_display (macro_definition_shown defined.entry)
        (variable_seen bound.entry) }
{
    display_variable(defined, bound.place, bound.kind)
}

// Returns how to display the variable at a use of it.
fn use_display<'t, A: Allocator>(
    defined: MacroDefinition<'t, A>,
    used: VariableUse<'_>,
) -> VariableDisplay<'t>
    ensures { display_seen result ≡ spec.use_display (macro_definition_shown defined.entry)
        (use_seen used.entry) }
{
    display_variable(defined, used.place.unwrap_or(defined.name.span), None)
}

// Adds the error on a fragment of the definition that something forbidden may follow.
fn push_forbidden<A: Allocator + Copy>(
    alloc: A,
    lints: &mut Vec<Lint<A>, A>,
    defined: MacroDefinition<'_, A>,
    followed: FollowViolation<'_, A>,
) -> Result<(), AllocError>
    ensures { OnOk result (map lint_seen lints.new.items ≡ map lint_seen lints.old.items
        ++ spec.forbidden_lints (macro_definition_shown defined.entry)
        (violation_seen followed.entry)) }
{
    let next = follower_part(alloc, defined, followed.next)?;
    let variable = display_variable(defined, followed.place, followed.kind);
    push_violation(alloc, lints, followed, variable, next)
}

/// Adds the lints of a finding in that definition. `AllocError` if out of memory.
pub fn push_finding<A: Allocator + Copy>(
    alloc: A,
    lints: &mut Vec<Lint<A>, A>,
    defined: MacroDefinition<'_, A>,
    finding: &Finding<'_, A>,
) -> Result<(), AllocError>
    ensures { OnOk result (map lint_seen lints.new.items ≡ map lint_seen lints.old.items
        ++ spec.finding_lints (macro_definition_shown defined.entry) (finding_seen finding.now)) }
{
    match finding {
        Finding::BoundTwice(first, later) => {
            let first = bound_display(defined, *first);
            push_duplicate(alloc, lints, first, bound_display(defined, *later))
        }
        Finding::UnknownSpecifier(bound) => {
            push_unknown(alloc, lints, bound_display(defined, *bound))
        }
        Finding::SeparatedOptional(separator) => push_separated(alloc, lints, defined, separator),
        Finding::UnknownVariable(used, similar) => {
            let at = use_display(defined, *used);
            push_unbound(alloc, lints, used.name, *similar, at)
        }
        Finding::NeverUsed(bound) => {
            push_unused(alloc, lints, bound.name, bound_display(defined, *bound))
        }
        Finding::StillRepeats(bound, used) => {
            let at = display_variable(defined, used.place.unwrap_or(bound.place), None);
            let variable = bound_display(defined, *bound);
            push_repeating(alloc, lints, *bound, *used, variable, at)
        }
        Finding::Forbidden(followed) => push_forbidden(alloc, lints, defined, *followed),
    }
}
