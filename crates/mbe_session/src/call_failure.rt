// Finds why no rule of a macro expands a call, and notes it as rustc does.
//
// The rules are tried in order. If none matches, the error is at the furthest token that a rule
// reaches. Take the rules `(a b c)` and `(a d)`, and the argument `a b e`. Rule 1 stops at `e` and
// rule 2 at `b`, so the error is "no rules expected `e`".
//
// Each of these rules ends the search, and is the reason for the failure:
//
// - An ambiguous rule.
// - A rule that matches. Then its template is at fault.
// - In rustc's dialect, a rule with a fragment that begins and has a fault inside.
ghost use Rattle.std.specs.Prelude.{◌≡◌, IfOk, OnOk, map, max, option_map};
ghost use Rattle.std.specs.String.{string_bytes};
ghost use Rattle.mbe_semantics.specs.Expansion.Macro.{IsChecked};
ghost use Rattle.mbe_tt.specs.Views.View.{trees};
ghost use Rattle.mbe.specs.MacroViews.{macro_of};
ghost use Rattle.mbe_rewriter.specs.MacroItemViews.{call_shown};
ghost use Rattle.mbe_session.specs.CallFailure as spec;
ghost use Rattle.mbe_session.specs.CallFailure.{CallFails, MacroFails, NotesFailure};
ghost use Rattle.mbe_session.specs.Explanation.{note_seen};
ghost use Rattle.mbe_session.specs.Faults.{error_at};
ghost use Rattle.mbe_session.specs.SessionViews.{setting_of, state_of};

use crate::file_expander::FileExpander;
use crate::notes::Level;
use mbe::{DeclarativeMacro, ExpandError};
use mbe_diagnostics::mismatch::mismatch_message;
use mbe_diagnostics::span_at::span_at;
use mbe_matcher::matcher::Verdict;
use mbe_rewriter::macro_items::MacroCall;
use mbe_tt::grammar::FragmentGrammar;
use mbe_tt::span::Span;
use mbe_tt::tt::{TokenTreesView, TopSubtree};
use std::alloc::{AllocError, Allocator};

/// Why no rule of a macro expands a call. Offsets are numbers of flat tokens of the argument.
#[derive(Clone, Copy, Drop)]
pub enum CallFailure {
    /// No rule matches. This is the furthest offset that a rule reaches.
    Mismatch(usize),
    /// A rule has a local ambiguity at this offset, and no rule before it matches.
    Ambiguity(usize),
    /// A rule has several readings, and no rule before it matches.
    ManyReadings,
    /// A rule matches, so its template is at fault.
    TemplateFault,
    /// A fragment of a rule begins and has a fault inside, and no rule before it matches.
    FragmentFault,
}

// Returns why no rule expands this argument.
fn call_failure<A: Allocator + Copy, G: FragmentGrammar>(
    alloc: A,
    grammar: &G,
    rules: &DeclarativeMacro<A>,
    argument: &TopSubtree<A>,
) -> Result<CallFailure, AllocError>
    requires checked { IsChecked (macro_of rules.now) }
    ensures { IfOk result (λ why. CallFails (G.grammar grammar.now) (macro_of rules.now).rules
        argument.now.1 why) }
{
    let mut furthest = 0;
    for index in 0..rules.num_rules() {
        match rules.explain(alloc, grammar, argument, index)? {
            Verdict::Stuck(offset) => {
                let is_committed = rules.commits(alloc, grammar, argument, index)?;
                if is_committed {
                    return Ok(CallFailure::FragmentFault);
                }
                furthest = later(furthest, offset);
            }
            Verdict::Ambiguous(offset) => return Ok(CallFailure::Ambiguity(offset)),
            Verdict::ManyReadings => return Ok(CallFailure::ManyReadings),
            Verdict::OneReading => return Ok(CallFailure::TemplateFault),
        }
    }
    Ok(CallFailure::Mismatch(furthest))
}

fn later(one: usize, other: usize) -> usize
    ensures { result ≡ max one other }
{
    if one < other {
        return other;
    }
    one
}

// Returns the span of the token at an offset, or of the closing of the call. A call without an
// argument is marked at its name.
fn place_at<A: Allocator>(call: MacroCall<'_, A>, argument: &TopSubtree<A>, offset: usize) -> Span
    ensures { result ≡ spec.place_at (call_shown call.entry) argument.now offset }
{
    let tokens = argument.iter();
    if tokens.peek().is_none() {
        return call.name.span;
    }
    let close = argument.top_subtree().delimiter.close;
    span_at(tokens.remaining(), close, offset)
}

#[tactic(auto, unfolding(crate::specs::CallFailure::ambiguity_text))]
fn ambiguity_text<A: Allocator>(alloc: A, name: &str) -> Result<String<A>, AllocError>
    ensures { IfOk result (λ t. string_bytes t ≡ spec.ambiguity_text name.now) }
{
    format!(in alloc; "local ambiguity when calling macro `{name}`: multiple parsing options")
}

// Returns the message of a failure. It is `None` if a template or a fragment is at fault.
fn failure_note<A: Allocator + Copy>(
    alloc: A,
    call: MacroCall<'_, A>,
    argument: &TopSubtree<A>,
    failure: CallFailure,
) -> Result<Option<(Span, String<A>)>, AllocError>
    ensures { IfOk result (λ note. option_map (λ p. error_at p.0 (string_bytes p.1)) note
        ≡ spec.failure_note (call_shown call.entry) argument.now failure) }
{
    let name = call.name.sym.as_str();
    match failure {
        CallFailure::Mismatch(offset) => {
            let tokens = argument.iter().remaining();
            let message = mismatch_message(alloc, tokens, offset)?;
            Ok(Some((place_at(call, argument, offset), message)))
        }
        CallFailure::Ambiguity(offset) => {
            let message = ambiguity_text(alloc, name)?;
            Ok(Some((place_at(call, argument, offset), message)))
        }
        CallFailure::ManyReadings => {
            let message = String::from_str(alloc, "ambiguity: multiple successful parses")?;
            Ok(Some((place_at(call, argument, 0), message)))
        }
        CallFailure::TemplateFault | CallFailure::FragmentFault => Ok(None),
    }
}

impl<'g, A: Allocator + Copy> FileExpander<'g, A> {
    // Returns why no rule of the macro that a call names expands it.
    pub(crate) fn failure_of(
        &self,
        call: MacroCall<'_, A>,
        argument: &TopSubtree<A>,
    ) -> Result<CallFailure, AllocError>
        ensures { IfOk result (λ why. MacroFails (setting_of self.now) (call_shown call.entry)
            (state_of self.now) argument.now.1 why) }
    {
        let Some(rules) = self.rules(call) else {
            return Ok(CallFailure::TemplateFault);
        };
        if rules.err().is_some() {
            return Ok(CallFailure::TemplateFault);
        }
        call_failure(self.alloc, &self.grammar, rules, argument)
    }

    // Notes why a call has no expansion. The error is the expander's.
    pub(crate) fn note_failure(
        &mut self,
        call: MacroCall<'_, A>,
        argument: &TopSubtree<A>,
        error: &ExpandError<A>,
    ) -> Result<(), AllocError>
        ensures setting { OnOk result (setting_of self.new ≡ setting_of self.old) }
        ensures state { OnOk result (state_of self.new ≡ state_of self.old) }
        ensures notes { OnOk result (NotesFailure (setting_of self.old) (call_shown call.entry)
            (state_of self.old) argument.now
            (map note_seen self.old.notes.items) (map note_seen self.new.notes.items)) }
    {
        let failure = self.failure_of(call, argument)?;
        if let Some((span, message)) = failure_note(self.alloc, call, argument, failure)? {
            return self.note(Level::Error, span, message);
        }
        self.note_expand_error(call, error)
    }

    // Notes the expander's error, which is that of a template or of a fragment.
    fn note_expand_error(
        &mut self,
        call: MacroCall<'_, A>,
        error: &ExpandError<A>,
    ) -> Result<(), AllocError>
        ensures setting { OnOk result (setting_of self.new ≡ setting_of self.old) }
        ensures state { OnOk result (state_of self.new ≡ state_of self.old) }
        ensures notes { OnOk result (spec.NotesError None (map note_seen self.old.notes.items)
            (map note_seen self.new.notes.items)) }
    {
        let name = call.name.sym.as_str();
        let (span, kind) = &*error.inner;
        let message = format!(in self.alloc; "{kind} in the call of `{name}!`")?;
        self.note(Level::Error, *span, message)
    }
}
