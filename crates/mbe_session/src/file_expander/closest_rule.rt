// Notes what the closest rule of a macro expects where its match stops. The words are rustc's:
// "while trying to match `;` in rule 2 of `m!`".
//
// The closest rule is the first rule that stops at the furthest token that any rule reaches.
ghost use Rattle.std.specs.Prelude.{◌≡◌, OnOk};
ghost use Rattle.mbe_semantics.specs.Expansion.Macro.{IsChecked};
ghost use Rattle.mbe.specs.MacroViews.{macro_of};
ghost use Rattle.mbe_session.specs.SessionViews.{setting_of, state_of};

use crate::call_failure::CallFailure;
use crate::explanation::outcome_of_rule;
use crate::file_expander::FileExpander;
use crate::notes::{Level, Note};
use mbe::DeclarativeMacro;
use mbe_diagnostics::outcome::{MatchOutcome, message_parts};
use mbe_diagnostics::rule_part::RulePart;
use mbe_matcher::matcher::Verdict;
use mbe_rewriter::macro_items::MacroCall;
use mbe_tt::grammar::FragmentGrammar;
use mbe_tt::span::Span;
use mbe_tt::tt::TopSubtree;
use std::alloc::{AllocError, Allocator, Global};

// A rule that stops at a token of a call.
#[derive(Drop)]
struct ClosestRule<A: Allocator = Global> {
    // The number of the rule. The first one is 1.
    number: usize,
    outcome: MatchOutcome<A>,
}

// Returns the first rule that stops at that offset of the argument.
fn rule_that_stops_at<A: Allocator + Copy, G: FragmentGrammar>(
    alloc: A,
    grammar: &G,
    rules: &DeclarativeMacro<A>,
    argument: &TopSubtree<A>,
    offset: usize,
) -> Result<Option<ClosestRule<A>>, AllocError>
    requires checked { IsChecked (macro_of rules.now) }
{
    for index in 0..rules.num_rules() {
        let outcome = outcome_of_rule(alloc, grammar, rules, argument, index)?;
        if let Verdict::Stuck(stop) = outcome.verdict
            && stop == offset
        {
            let number = index.saturating_add(1);
            return Ok(Some(ClosestRule { number, outcome }));
        }
    }
    Ok(None)
}

// Whether the text of a part is that of a variable with its kind.
fn is_variable(text: &str) -> bool {
    text.starts_with("`$") && text.contains(":")
}

// Appends the text of a part to a list. The part has that index among `count` parts.
fn push_part<A: Allocator>(
    text: &mut String<A>,
    part: &RulePart<A>,
    index: usize,
    count: usize,
) -> Result<(), AllocError> {
    let is_last = index.saturating_add(1) == count;
    if index > 0 {
        text.push_str(if is_last { " or " } else { ", " })?;
    }
    if is_variable(part.text.as_str()) {
        text.push_str("meta-variable ")?;
    }
    text.push_str(part.text.as_str())
}

// Returns the texts of the parts as a list.
fn parts_text<A: Allocator + Copy>(
    alloc: A,
    parts: &[&RulePart<A>],
) -> Result<String<A>, AllocError> {
    let mut text = String::new(alloc);
    for (index, part) in parts.iter().enumerate() {
        push_part(&mut text, part, index, parts.len())?;
    }
    Ok(text)
}

// Returns the span of a part. For a variable it begins at the `$`, as in rustc.
fn span_of_part<A: Allocator>(part: &RulePart<A>) -> Option<Span> {
    let span = part.span?;
    if !is_variable(part.text.as_str()) {
        return Some(span);
    }
    Some(Span {
        start: span.start.saturating_sub(1),
        ..span
    })
}

// Returns the span of a note on these parts: the span of the first part that has one.
fn first_place<A: Allocator>(parts: &[&RulePart<A>]) -> Option<Span> {
    parts.iter().find_map(|part| span_of_part(*part))
}

impl<A: Allocator + Copy> FileExpander<'_, A> {
    // Returns the closest rule, if no rule of the macro that a call names matches.
    fn closest_rule(
        &self,
        call: MacroCall<'_, A>,
        argument: &TopSubtree<A>,
    ) -> Result<Option<ClosestRule<A>>, AllocError> {
        let CallFailure::Mismatch(furthest) = self.failure_of(call, argument)? else {
            return Ok(None);
        };
        let Some(rules) = self.rules(call) else {
            return Ok(None);
        };
        if rules.err().is_some() {
            return Ok(None);
        }
        rule_that_stops_at(self.alloc, &self.grammar, rules, argument, furthest)
    }

    // Notes what the closest rule was to match where it stops, and where the macro is defined. The
    // last note is the call's error, and these notes are its children. Nothing is noted of a call
    // that is explained, since all its rules are.
    pub(crate) fn note_closest_rule(
        &mut self,
        call: MacroCall<'_, A>,
        argument: &TopSubtree<A>,
    ) -> Result<(), AllocError>
        ensures setting { OnOk result (setting_of self.new ≡ setting_of self.old) }
        ensures state { OnOk result (state_of self.new ≡ state_of self.old) }
    {
        if self.settings.explain.selects(call.start, false) {
            return Ok(());
        }
        let Some(closest) = self.closest_rule(call, argument)? else {
            return Ok(());
        };
        let ClosestRule { number, outcome } = closest;
        let parts = message_parts(self.alloc, &outcome)?;
        let expected = parts_text(self.alloc, parts.as_slice())?;
        let name = call.name.sym.as_str();
        let message = format!(in self.alloc;
            "while trying to match {expected} in rule {number} of `{name}!`"
        )?;
        let place = first_place(parts.as_slice()).unwrap_or(outcome.span);
        self.note_child(Level::Note, place, message)?;
        self.note_calling(call)
    }

    // Notes where the macro of a call is defined, as rustc does.
    fn note_calling(&mut self, call: MacroCall<'_, A>) -> Result<(), AllocError>
        ensures setting { OnOk result (setting_of self.new ≡ setting_of self.old) }
        ensures state { OnOk result (state_of self.new ≡ state_of self.old) }
    {
        let Some(place) = self.scope.place_of_macro(call) else {
            return Ok(());
        };
        let message = String::from_str(self.alloc, "when calling this macro")?;
        self.note_child(Level::Note, place, message)
    }
}
