// Describes, as text, what each variable of a matching rule is bound to.
ghost use Rattle.std.specs.Prelude.{◌≡◌, ◌++◌, ◌<◌, IfOk, OnOk, length, map, option_map};
ghost use Rattle.std.specs.String.{string_bytes};
ghost use Rattle.mbe_semantics.specs.Expansion.Macro.{IsChecked};
ghost use Rattle.mbe_log.specs.FragmentViews.{fragment_seen};
ghost use Rattle.mbe_bindings.specs.BindingViews.{env_of, value_seen, values_seen};
ghost use Rattle.mbe_ops.specs.Views.{template_of};
ghost use Rattle.mbe.specs.MacroViews.{macro_of};
ghost use Rattle.mbe_diagnostics.specs.RuleChecks.Variables.{variable_seen};
ghost use Rattle.mbe_diagnostics.specs.RuleChecks.Variables as variables;
ghost use Rattle.mbe_session.specs.BindingText as spec;
ghost use Rattle.mbe_session.specs.BindingText.{HasBindingTexts, binding_text_seen};

use crate::file_expander::text_of;
use mbe::{Binding, Bindings, DeclarativeMacro, Fragment};
use mbe_diagnostics::excerpt::excerpt;
use mbe_diagnostics::rule_checks::variables::{PatternVariable, variables_in};
use mbe_diagnostics::rule_part::{RulePart, variable_text};
use mbe_ops::ops::MetaTemplate;
use mbe_tt::grammar::FragmentGrammar;
use mbe_tt::symbol::Symbol;
use mbe_tt::tt::TopSubtree;
use std::alloc::{AllocError, Allocator, Global};

/// The largest number of rounds of a repetition that is shown.
const MAX_ROUNDS: usize = 16;

/// A variable of a rule, and the text of its fragments. Clauses see it by
/// `binding_text_seen`.
#[derive(Drop)]
pub struct BindingText<A: Allocator = Global> {
    /// The variable as it is in the rule, and its span there.
    pub variable: RulePart<A>,
    /// The tokens in backquotes, or `nothing`. For a variable in a repetition, the tokens of each
    /// round, and the number of rounds.
    pub text: String<A>,
}

fn tokens_text<A: Allocator + Copy>(alloc: A, tokens: &str) -> Result<String<A>, AllocError>
    ensures { IfOk result (λ text. string_bytes text ≡ spec.tokens_text tokens.now) }
{
    if tokens.is_empty() {
        return String::from_str(alloc, "nothing");
    }
    let shown = excerpt(alloc, tokens)?;
    format!(in alloc; "`{shown}`")
}

fn trees_text<A: Allocator + Copy>(
    alloc: A,
    fragment: &Fragment<'_, A>,
) -> Result<String<A>, AllocError>
    ensures { IfOk result (λ text. string_bytes text
        ≡ spec.trees_text (fragment_seen fragment.now)) }
{
    match fragment {
        Fragment::Empty => Ok(String::new(alloc)),
        Fragment::Tokens { tree, .. } => text_of(alloc, *tree, 0),
        Fragment::Expr(tree) | Fragment::Path(tree) => text_of(alloc, *tree, 0),
        Fragment::TokensOwned(tree) => text_of(alloc, tree.view(), 0),
        Fragment::Whole { tree, .. } => text_of(alloc, *tree, 0),
    }
}

fn fragment_text<A: Allocator + Copy>(
    alloc: A,
    fragment: &Fragment<'_, A>,
) -> Result<String<A>, AllocError>
    ensures { IfOk result (λ text. string_bytes text
        ≡ spec.fragment_text (fragment_seen fragment.now)) }
{
    let tokens = trees_text(alloc, fragment)?;
    tokens_text(alloc, tokens.as_str())
}

#[cycle(values)]
#[tactic(auto, using(mbe_bindings::proofs::BindingLemmas::seen))]
fn push_value<A: Allocator + Copy>(
    alloc: A,
    text: &mut String<A>,
    binding: &Binding<'_, A>,
) -> Result<(), AllocError>
    ensures { OnOk result (string_bytes text.new
        ≡ string_bytes text.old ++ spec.value_text (value_seen binding.now)) }
{
    match binding {
        Binding::Fragment(fragment) => text.push_str(fragment_text(alloc, fragment)?.as_str()),
        Binding::Empty | Binding::Missing(_) => text.push_str("nothing"),
        Binding::Nested(rounds) => {
            text.push_str("(")?;
            push_values(alloc, text, rounds, MAX_ROUNDS)?;
            text.push_str(")")
        }
    }
}

#[cycle(values)]
fn push_values<A: Allocator + Copy>(
    alloc: A,
    text: &mut String<A>,
    rounds: &[Binding<'_, A>],
    room: usize,
) -> Result<(), AllocError>
    ensures { OnOk result (string_bytes text.new
        ≡ string_bytes text.old ++ spec.values_text room (values_seen rounds.now)) }
{
    let Some((first, rest)) = rounds.split_first() else {
        return Ok(());
    };
    if room == 0 {
        return text.push('…');
    }
    push_value(alloc, text, first)?;
    text.push_str(between(rest))?;
    push_values(alloc, text, rest, room - 1)
}

fn between<A: Allocator>(rounds: &[Binding<'_, A>]) -> &'static str
    ensures { result.now ≡ spec.between (values_seen rounds.now) }
{
    match rounds.split_first() {
        None => "",
        Some(_) => ", ",
    }
}

fn rounds_text<A: Allocator>(alloc: A, rounds: usize) -> Result<String<A>, AllocError>
    ensures { IfOk result (λ text. string_bytes text ≡ spec.rounds_text rounds) }
{
    match rounds {
        1 => String::from_str(alloc, " (1 round)"),
        _ => format!(in alloc; " ({rounds} rounds)"),
    }
}

#[tactic(auto, using(crate::proofs::BindingTextLemmas::count_seen))]
fn list_text<A: Allocator + Copy>(
    alloc: A,
    rounds: &[Binding<'_, A>],
) -> Result<String<A>, AllocError>
    ensures { IfOk result (λ text. string_bytes text ≡ spec.list_text (values_seen rounds.now)) }
{
    let mut text = String::new(alloc);
    push_values(alloc, &mut text, rounds, MAX_ROUNDS)?;
    let count = rounds_text(alloc, rounds.len())?;
    text.push_str(count.as_str())?;
    Ok(text)
}

fn value_text<A: Allocator + Copy>(
    alloc: A,
    binding: &Binding<'_, A>,
) -> Result<String<A>, AllocError>
    ensures { IfOk result (λ text. string_bytes text ≡ spec.value_text (value_seen binding.now)) }
{
    let mut text = String::new(alloc);
    push_value(alloc, &mut text, binding)?;
    Ok(text)
}

#[tactic(auto, using(mbe_bindings::proofs::BindingLemmas::seen))]
fn bound_text<A: Allocator + Copy>(
    alloc: A,
    binding: &Binding<'_, A>,
) -> Result<String<A>, AllocError>
    ensures { IfOk result (λ text. string_bytes text ≡ spec.bound_text (value_seen binding.now)) }
{
    match binding {
        Binding::Nested(rounds) => list_text(alloc, rounds),
        Binding::Fragment(_) => value_text(alloc, binding),
        Binding::Empty => value_text(alloc, binding),
        Binding::Missing(_) => value_text(alloc, binding),
    }
}

fn value_text_or_nothing<A: Allocator + Copy>(
    alloc: A,
    binding: Option<&Binding<'_, A>>,
) -> Result<String<A>, AllocError>
    ensures { IfOk result (λ text. string_bytes text
        ≡ spec.value_text_or_nothing (option_map (λ b. value_seen b.now) binding.entry)) }
{
    match binding {
        None => String::from_str(alloc, "nothing"),
        Some(binding) => bound_text(alloc, binding),
    }
}

// Describes what a variable is bound to, by the bindings of its rule.
fn describe_binding<A: Allocator + Copy>(
    alloc: A,
    bindings: &Bindings<'_, A>,
    variable: PatternVariable<'_>,
) -> Result<BindingText<A>, AllocError>
    ensures { IfOk result (λ t. binding_text_seen t
        ≡ spec.binding_text_of (env_of bindings.now) (variable_seen variable.entry)) }
{
    let name = Symbol::intern(alloc, variable.name)?;
    let text = value_text_or_nothing(alloc, bindings.get(&name))?;
    Ok(BindingText {
        variable: RulePart {
            text: variable_text(alloc, variable.name, variable.kind)?,
            span: Some(variable.place),
        },
        text,
    })
}

// Describes what each variable of a pattern is bound to.
fn all_binding_texts<A: Allocator + Copy>(
    alloc: A,
    bindings: &Bindings<'_, A>,
    pattern: &MetaTemplate<A>,
) -> Result<Vec<BindingText<A>, A>, AllocError>
    ensures { IfOk result (λ v. map binding_text_seen v.items
        ≡ map (spec.binding_text_of (env_of bindings.now))
        (variables.variables_in 0 (template_of pattern.now))) }
{
    let mut all = Vec::new(alloc);
    let bound = variables_in(alloc, pattern)?;
    for variable in &bound {
        all.push(describe_binding(alloc, bindings, *variable)?)?;
    }
    Ok(all)
}

/// Describes what each variable of the rule with this index is bound to by an argument, in the
/// order of the pattern. The list is empty if the rule doesn't match. `AllocError` if out of
/// memory.
pub fn rule_binding_texts<A: Allocator + Copy, G: FragmentGrammar>(
    alloc: A,
    grammar: &G,
    rules: &DeclarativeMacro<A>,
    argument: &TopSubtree<A>,
    index: usize,
) -> Result<Vec<BindingText<A>, A>, AllocError>
    requires checked { IsChecked (macro_of rules.now) }
    requires rule { index < length (macro_of rules.now).rules }
    ensures takes { IfOk result (λ v. HasBindingTexts (G.grammar grammar.now)
        (macro_of rules.now).rules
        argument.now.1 index (map binding_text_seen v.items)) }
{
    let bindings = rules.bindings(alloc, grammar, argument, index)?;
    match bindings {
        None => Ok(Vec::new(alloc)),
        Some(bindings) => all_binding_texts(alloc, &bindings, rules.pattern(index)),
    }
}
