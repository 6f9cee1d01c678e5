// Explains a call: for each rule of its macro, where the match stops and what the rule expects
// there, or what its variables are bound to.
//
// For a call that isn't expanded, the closest rule comes first. It is the first rule that reaches
// the furthest token that any rule reaches.
ghost use Rattle.std.specs.Prelude.{◌≡◌, ◌++◌, ◌<◌, IfOk, OnOk, length, map, max, nat_lt, not};
ghost use Rattle.std.specs.Prelude.{if◌then◌else◌};
ghost use Rattle.std.specs.String.{string_bytes};
ghost use Rattle.mbe_semantics.specs.Expansion.Macro.{IsChecked};
ghost use Rattle.mbe.specs.MacroViews.{macro_of};
ghost use Rattle.mbe_rewriter.specs.MacroItemViews.{call_shown};
ghost use Rattle.mbe_diagnostics.specs.Outcome.{part_seen, outcome_seen};
ghost use Rattle.mbe_semantics.specs.Readings.Verdict.{many_readings};
ghost use Rattle.mbe.specs.RuleExplanation.{Explains};
ghost use Rattle.mbe_matcher.specs.MatchResults.{verdict_seen};
ghost use Rattle.mbe_matcher.specs.Readings.Views.{divergence_seen};
ghost use Rattle.mbe_session.specs.Explanation as spec;
ghost use Rattle.mbe_session.specs.Explanation.{NotesRules, ExplainsRules, HasOutcome};
ghost use Rattle.mbe_session.specs.Explanation.{DivergesThere, selects};
ghost use Rattle.mbe_session.specs.Explanation.{note_seen, explanation_seen};
ghost use Rattle.mbe_session.specs.SessionViews.{setting_of, state_of};
ghost use Rattle.mbe_session.specs.BindingText.{binding_text_seen};

use crate::binding_text::{BindingText, rule_binding_texts};
use crate::file_expander::FileExpander;
use crate::notes::{Level, Note};
use mbe::DeclarativeMacro;
use mbe_diagnostics::outcome::{
    MatchOutcome, diverging_outcome, match_outcome, message, message_parts,
};
use mbe_diagnostics::rule_part::RulePart;
use mbe_matcher::matcher::Verdict;
use mbe_matcher::readings::divergence::{Divergence, first_divergence};
use mbe_rewriter::macro_items::MacroCall;
use mbe_tt::grammar::FragmentGrammar;
use mbe_tt::tt::TopSubtree;
use std::alloc::{AllocError, Allocator, Global};

/// The explanation of a call by one rule. Clauses see it by `explanation_seen`.
#[derive(Drop)]
pub struct RuleExplanation<A: Allocator = Global> {
    pub outcome: MatchOutcome<A>,
    /// The variables of the rule and the texts of their fragments, if it matches.
    pub matched: Vec<BindingText<A>, A>,
}

/// The rules that are noted, by their numbers.
#[derive(Clone, Copy, Drop)]
pub enum NotedRules {
    /// The rule with that number.
    Only(usize),
    /// All rules except that one.
    Except(usize),
}

// Returns where two readings of an argument by the rule with this index first diverge, and by what
// they go on.
fn divergence_of<'a, A: Allocator + Copy, G: FragmentGrammar>(
    alloc: A,
    grammar: &G,
    rules: &'a DeclarativeMacro<A>,
    argument: &'a TopSubtree<A>,
    index: usize,
) -> Result<Divergence<'a, A>, AllocError>
    requires rule { index < length (macro_of rules.now).rules }
    requires several { Explains (G.grammar grammar.now) (macro_of rules.now).rules argument.now.1
        index many_readings }
    ensures { IfOk result (λ p. DivergesThere (G.grammar grammar.now) (macro_of rules.now).rules
        argument.now.1 index (divergence_seen p)) }
{
    let pattern = rules.pattern(index);
    let tokens = argument.iter().remaining();
    let Some(divergence) = first_divergence(alloc, grammar, pattern, tokens)? else {
        unreachable!()
    };
    Ok(divergence)
}

/// Returns the outcome of the rule with this index on an argument: the verdict, the token where the
/// match stops, and all that the rule expects there. For a local ambiguity it has two parts by
/// which the match could go on. For several readings it has the token where two of them first
/// diverge, and the two parts by which they go on there. `AllocError` if out of memory.
pub fn outcome_of_rule<A: Allocator + Copy, G: FragmentGrammar>(
    alloc: A,
    grammar: &G,
    rules: &DeclarativeMacro<A>,
    argument: &TopSubtree<A>,
    index: usize,
) -> Result<MatchOutcome<A>, AllocError>
    requires checked { IsChecked (macro_of rules.now) }
    requires rule { index < length (macro_of rules.now).rules }
    ensures match_outcome { IfOk result
        (λ outcome. HasOutcome (G.grammar grammar.now) (macro_of rules.now).rules
        argument.now index (outcome_seen outcome)) }
{
    let expectations = rules.expectations(alloc, grammar, argument, index)?;
    let close = argument.top_subtree().delimiter.close;
    let tokens = argument.iter().remaining();
    match expectations.verdict {
        Verdict::ManyReadings => {
            let divergence = divergence_of(alloc, grammar, rules, argument, index)?;
            let two = (divergence.one, divergence.other);
            diverging_outcome(alloc, &expectations, divergence.offset, two, tokens, close)
        }
        Verdict::OneReading | Verdict::Ambiguous(_) | Verdict::Stuck(_) => {
            match_outcome(alloc, &expectations, tokens, close)
        }
    }
}

// Returns the name of a rule in messages.
fn rule_name<A: Allocator>(alloc: A, number: usize, name: &str) -> Result<String<A>, AllocError>
    ensures { IfOk result (λ text. string_bytes text ≡ spec.rule_name number name.now) }
{
    format!(in alloc; "rule {number} of `{name}!`")
}

// Notes where a part of a rule is, if it has a span.
fn note_part<A: Allocator + Copy>(
    alloc: A,
    notes: &mut Vec<Note<A>, A>,
    rule: &str,
    part: &RulePart<A>,
) -> Result<(), AllocError>
    ensures { OnOk result (let part = part_seen part.now in map note_seen notes.new.items
        ≡ map note_seen notes.old.items ++ spec.part_note rule.now part.text part.place) }
{
    let Some(span) = part.span else {
        return Ok(());
    };
    let expected = part.text.as_str();
    notes.push(Note {
        level: Level::Note,
        span,
        message: format!(in alloc; "{expected} in {rule}")?,
        is_child: true,
    })?;
    Ok(())
}

// Notes where the parts of a rule are.
fn note_parts<A: Allocator + Copy>(
    alloc: A,
    notes: &mut Vec<Note<A>, A>,
    rule: &str,
    parts: &[&RulePart<A>],
) -> Result<(), AllocError>
    ensures { OnOk result (map note_seen notes.new.items ≡ map note_seen notes.old.items
        ++ spec.part_notes rule.now (map (λ p. part_seen p.now) parts.now)) }
{
    for part in parts {
        note_part(alloc, notes, rule, part)?;
    }
    Ok(())
}

// Returns the text about what a variable of a rule is bound to.
#[tactic(auto, unfolding(crate::specs::Explanation::bound_text))]
fn bound_text<A: Allocator>(
    alloc: A,
    rule: &str,
    variable: &str,
    text: &str,
) -> Result<String<A>, AllocError>
    ensures { IfOk result (λ t. string_bytes t
        ≡ spec.bound_text rule.now variable.now text.now) }
{
    format!(in alloc; "{variable} in {rule} is bound to {text}")
}

// Notes what a variable of a rule is bound to.
fn note_binding<A: Allocator + Copy>(
    alloc: A,
    notes: &mut Vec<Note<A>, A>,
    rule: &str,
    matched: &BindingText<A>,
) -> Result<(), AllocError>
    ensures { OnOk result (let matched = binding_text_seen matched.now in map note_seen
        notes.new.items
        ≡ map note_seen notes.old.items
        ++ spec.binding_note rule.now matched.variable.text matched.text matched.variable.place) }
{
    let Some(span) = matched.variable.span else {
        return Ok(());
    };
    let variable = matched.variable.text.as_str();
    let text = matched.text.as_str();
    notes.push(Note {
        level: Level::Note,
        span,
        message: bound_text(alloc, rule, variable, text)?,
        is_child: true,
    })?;
    Ok(())
}

// Notes what the variables of a rule are bound to.
fn note_bindings<A: Allocator + Copy>(
    alloc: A,
    notes: &mut Vec<Note<A>, A>,
    rule: &str,
    matched: &[BindingText<A>],
) -> Result<(), AllocError>
    ensures { OnOk result (map note_seen notes.new.items ≡ map note_seen notes.old.items
        ++ spec.binding_notes rule.now (map binding_text_seen matched.now)) }
{
    for one in matched {
        note_binding(alloc, notes, rule, one)?;
    }
    Ok(())
}

// Notes the outcome of a rule, and where the parts of the rule are that its message names. The
// notes on the parts are children.
#[tactic(auto, unfolding(crate::specs::Explanation::outcome_text))]
fn note_outcome<A: Allocator + Copy>(
    alloc: A,
    notes: &mut Vec<Note<A>, A>,
    rule: &str,
    is_child: bool,
    outcome: &MatchOutcome<A>,
) -> Result<(), AllocError>
    ensures { OnOk result (map note_seen notes.new.items
        ≡ map note_seen notes.old.items
        ++ spec.outcome_notes rule.now is_child (outcome_seen outcome.now)) }
{
    notes.push(Note {
        level: Level::Note,
        span: outcome.span,
        message: message(alloc, rule, outcome)?,
        is_child,
    })?;
    let parts = message_parts(alloc, outcome)?;
    note_parts(alloc, notes, rule, parts.as_slice())
}

// Notes the outcome of a rule, and what its variables are bound to.
fn note_rule<A: Allocator + Copy>(
    alloc: A,
    notes: &mut Vec<Note<A>, A>,
    rule: &str,
    is_child: bool,
    match_outcome: &RuleExplanation<A>,
) -> Result<(), AllocError>
    ensures { OnOk result (map note_seen notes.new.items
        ≡ map note_seen notes.old.items
        ++ spec.rule_notes rule.now is_child (explanation_seen match_outcome.now)) }
{
    note_outcome(alloc, notes, rule, is_child, &match_outcome.outcome)?;
    note_bindings(alloc, notes, rule, match_outcome.matched.as_slice())
}

// Whether the rule with that number is chosen.
fn is_chosen(chosen: NotedRules, number: usize) -> bool
    ensures { result ≡ spec.is_chosen chosen number }
{
    match chosen {
        NotedRules::Only(rule) => number == rule,
        NotedRules::Except(rule) => number != rule,
    }
}

// Notes the explanation of the rule with that number, if it is chosen.
fn note_chosen<A: Allocator + Copy>(
    alloc: A,
    notes: &mut Vec<Note<A>, A>,
    name: &str,
    is_child: bool,
    chosen: NotedRules,
    number: usize,
    explanation: &RuleExplanation<A>,
) -> Result<(), AllocError>
    ensures { OnOk result (map note_seen notes.new.items ≡ map note_seen notes.old.items
        ++ spec.chosen_notes name.now is_child chosen number (explanation_seen explanation.now)) }
{
    if !is_chosen(chosen, number) {
        return Ok(());
    }
    let rule = rule_name(alloc, number, name)?;
    note_rule(alloc, notes, rule.as_str(), is_child, explanation)
}

// Notes the explanations of the chosen rules. The first rule has that number. `is_child` says
// whether the notes on rules are children. Those on their parts always are.
fn note_rules<A: Allocator + Copy>(
    alloc: A,
    notes: &mut Vec<Note<A>, A>,
    name: &str,
    is_child: bool,
    chosen: NotedRules,
    number: usize,
    explanations: &[RuleExplanation<A>],
) -> Result<(), AllocError>
    ensures { OnOk result (map note_seen notes.new.items ≡ map note_seen notes.old.items
        ++ spec.rules_notes name.now is_child chosen number
        (map explanation_seen explanations.now)) }
{
    let mut number = number;
    for explanation in explanations {
        note_chosen(alloc, notes, name, is_child, chosen, number, explanation)?;
        number = number.saturating_add(1);
    }
    Ok(())
}

// Returns how far a rule reaches: the offset where it stops. A rule that matches reaches furthest.
fn reach(verdict: Verdict) -> usize
    ensures { result ≡ spec.reach (verdict_seen verdict) }
{
    match verdict {
        Verdict::OneReading | Verdict::ManyReadings => usize::MAX,
        Verdict::Ambiguous(offset) | Verdict::Stuck(offset) => offset,
    }
}

// Returns `number` if it reaches further than rule `closest`, and else `closest`.
fn closer(closest: usize, furthest: usize, number: usize, reached: usize) -> usize
    ensures { result ≡ (if nat_lt furthest reached then number else closest) }
{
    if furthest < reached {
        return number;
    }
    closest
}

fn further(one: usize, other: usize) -> usize
    ensures { result ≡ max one other }
{
    if one < other {
        return other;
    }
    one
}

// Returns the number of the closest rule: the first one that reaches furthest.
fn closest_rule<A: Allocator>(explanations: &[RuleExplanation<A>]) -> usize
    ensures { result ≡ spec.closest_rule (map explanation_seen explanations.now) }
{
    let mut number = 1usize;
    let mut closest = 1usize;
    let mut furthest = 0usize;
    for explanation in explanations {
        let reached = reach(explanation.outcome.verdict);
        closest = closer(closest, furthest, number, reached);
        furthest = further(furthest, reached);
        number = number.saturating_add(1);
    }
    closest
}

// Returns the number of the rule whose notes are first. It is 0 if the rules are in order.
fn first_rule<A: Allocator>(is_child: bool, explanations: &[RuleExplanation<A>]) -> usize
    ensures { result ≡ (if is_child
        then spec.closest_rule (map explanation_seen explanations.now) else 0) }
{
    if is_child {
        return closest_rule(explanations);
    }
    0
}

// Notes the explanations of the rules of a macro. If the notes on rules are children, the closest
// rule is the first one.
fn note_explanations<A: Allocator + Copy>(
    alloc: A,
    notes: &mut Vec<Note<A>, A>,
    name: &str,
    is_child: bool,
    explanations: &[RuleExplanation<A>],
) -> Result<(), AllocError>
    ensures { OnOk result (map note_seen notes.new.items ≡ map note_seen notes.old.items
        ++ spec.explanation_notes name.now is_child (map explanation_seen explanations.now)) }
{
    let first = first_rule(is_child, explanations);
    let only = NotedRules::Only(first);
    note_rules(alloc, notes, name, is_child, only, 1, explanations)?;
    let others = NotedRules::Except(first);
    note_rules(alloc, notes, name, is_child, others, 1, explanations)
}

impl<'g, A: Allocator + Copy> FileExpander<'g, A> {
    // Notes the explanations of a call by the rules of its macro, if the settings ask for it. For a
    // call that isn't expanded, an error is the last note, and the explanations are its children.
    // The closest rule is the first of them.
    pub(crate) fn explain(
        &mut self,
        call: MacroCall<'_, A>,
        argument: &TopSubtree<A>,
        is_expanded: bool,
    ) -> Result<(), AllocError>
        ensures setting { OnOk result (setting_of self.new ≡ setting_of self.old) }
        ensures state { OnOk result (state_of self.new ≡ state_of self.old) }
        ensures notes { OnOk result (NotesRules (setting_of self.old) (call_shown call.entry)
            (state_of self.old) argument.now (not is_expanded)
            (selects self.old.settings.explain call.entry.start is_expanded)
            (map note_seen self.old.notes.items) (map note_seen self.new.notes.items)) }
    {
        if !self.settings.explain.selects(call.start, is_expanded) {
            return Ok(());
        }
        let explanations = self.rule_explanations(call, argument)?;
        let name = call.name.sym.as_str();
        note_explanations(
            self.alloc,
            &mut self.notes,
            name,
            !is_expanded,
            explanations.as_slice(),
        )?;
        Ok(())
    }

    // Returns the explanation of a call by each rule of its macro. The list is empty if the macro
    // has an error.
    fn rule_explanations(
        &self,
        call: MacroCall<'_, A>,
        argument: &TopSubtree<A>,
    ) -> Result<Vec<RuleExplanation<A>, A>, AllocError>
        ensures { IfOk result (λ v. ExplainsRules (setting_of self.now) (call_shown call.entry)
            (state_of self.now) argument.now (map explanation_seen v.items)) }
    {
        let mut all = Vec::new(self.alloc);
        let Some(rules) = self.rules(call) else {
            return Ok(all);
        };
        if rules.err().is_some() {
            return Ok(all);
        }
        for index in 0..rules.num_rules() {
            all.push(RuleExplanation {
                outcome: outcome_of_rule(self.alloc, &self.grammar, rules, argument, index)?,
                matched: rule_binding_texts(self.alloc, &self.grammar, rules, argument, index)?,
            })?;
        }
        Ok(all)
    }
}
