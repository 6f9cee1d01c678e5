// The report of a match that fails, as in rust-analyzer: the first error that a thread noted, and
// what the last thread that failed had bound.
ghost use Rattle.std.specs.Prelude.{ℕ, List, ◌≡◌, [], ◌++◌, if◌then◌else◌, IfOk, IfSome, IsTrue};
ghost use Rattle.std.specs.Prelude.{OnOk, Some, false, option_map};
ghost use Rattle.std.specs.String.{string_bytes};
ghost use Rattle.mbe_tt.specs.declared.span.Span.{Span};
ghost use Rattle.mbe_semantics.specs.Bindings.Account.{Account, IsAccount, HasEntriesOf, pushed};
ghost use Rattle.mbe_semantics.specs.Expansion.Error.{binding_error, unexpected_token};
ghost use Rattle.mbe_semantics.specs.Expansion.MatchError.{error_at, leaf_mismatch};
ghost use Rattle.mbe_semantics.specs.Expansion.MatchError.{puncts_mismatch, puncts_text};
ghost use Rattle.mbe_semantics.specs.Expansion.MatchError.{front_match_error, variable_match_error};
ghost use Rattle.mbe_semantics.specs.Expansion.MatchError.{match_error, bound_if_some, bad_front};
ghost use Rattle.mbe_semantics.specs.Expansion.MatchError.{failed_command};
ghost use Rattle.mbe_ops.specs.Errors.ErrorViews.{error_of, errors_of, kind_of};
ghost use Rattle.mbe_ops.specs.Views.{op_of};
ghost use Rattle.mbe_matcher.specs.Rewrites.{IsRewritten};
ghost use Rattle.mbe_matcher.specs.Failures.{reports_error};
ghost use Rattle.mbe_matcher.specs.Compaction.{CarriesReport};

use crate::consumers::is_refused;
use mbe_bindings::log_compaction::HandleMap;
use mbe_log::fragment::fragment_of_kind;
use mbe_log::log::{BindingLog, Handle, again};
use mbe_ops::errors::error::{ExpandError, ExpandErrorKind};
use mbe_ops::ops::Op;
use mbe_semantics::fragment_kinds::MetaVarKind;
use mbe_threads::fragment_front::{eat_front, expect_fragment};
use mbe_threads::source::Source;
use mbe_tt::grammar::{FragmentGrammar, PrefixEntryPoint};
use mbe_tt::span::DelimSpan;
use mbe_tt::symbol::Symbol;
use mbe_tt::tt::{Leaf, Punct, TtElement, TtIter};
use std::alloc::{AllocError, Allocator, Global};

// Returns an error at the first tree, or at the closing delimiter if there is no tree.
fn error_at<A: Allocator>(
    alloc: A,
    kind: ExpandErrorKind<A>,
    here: &TtIter<'_, A>,
    around: DelimSpan,
) -> Result<ExpandError<A>, AllocError>
    ensures { IfOk result (λ e. error_of e ≡ error_at (kind_of kind) here.now around) }
{
    let span = here.next_span().unwrap_or(around.close);
    ExpandError::new(alloc, span, kind)
}

// Whether the error for a missing literal or identifier says what was expected.
fn names_expected<A: Allocator>(here: &TtIter<'_, A>) -> bool
    ensures { (text : List ℕ) → leaf_mismatch text here.now
        ≡ (if result then binding_error text else unexpected_token) }
{
    !matches!(here.peek(), Some(TtElement::Leaf(_)))
}

// Whether the error for missing puncts says what was expected.
fn names_expected_puncts<A: Allocator>(here: &TtIter<'_, A>) -> bool
    ensures { (text : List ℕ) → puncts_mismatch text here.now
        ≡ (if result then binding_error text else unexpected_token) }
{
    matches!(here.peek(), Some(TtElement::Leaf(Leaf::Punct(punct))) if punct.char != '\'')
}

// Returns the chars of the puncts as a text.
fn puncts_text<A: Allocator>(alloc: A, puncts: &[Punct]) -> Result<String<A>, AllocError>
    ensures { IfOk result (λ text. string_bytes text ≡ puncts_text puncts.now) }
{
    let mut text = String::new(alloc);
    for punct in puncts {
        text.push(punct.char)?;
    }
    Ok(text)
}

// Returns the error of a variable of the kind that matches nothing here.
fn variable_error<A: Allocator + Copy, G: FragmentGrammar>(
    alloc: A,
    grammar: &G,
    kind: MetaVarKind,
    here: &TtIter<'_, A>,
    around: DelimSpan,
) -> Result<Option<ExpandError<A>>, AllocError>
    ensures { IfOk result (λ e. errors_of e
        ≡ variable_match_error (G.grammar grammar.now) (Some kind) here.now around) }
{
    if is_refused(kind, here) {
        let error = error_at(alloc, ExpandErrorKind::NoMatchingRule, here, around)?;
        return Ok(Some(error));
    }
    let Some(entry) = kind.fragment_parser().entry() else {
        let text = String::from_str(alloc, kind.fragment_parser().expected())?;
        let error = error_at(alloc, ExpandErrorKind::BindingError(text), here, around)?;
        return Ok(Some(error));
    };
    let mut ahead = here.fork();
    Ok(expect_fragment(alloc, grammar, &mut ahead, entry, around)?.err)
}

// Returns the error of an op that doesn't fit the trees in front. `None` if the op notes no error.
#[tactic(auto, using(mbe_ops::proofs::OpViews::views))]
pub(crate) fn match_error<A: Allocator + Copy, G: FragmentGrammar>(
    alloc: A,
    grammar: &G,
    op: &Op<A>,
    here: &TtIter<'_, A>,
    around: DelimSpan,
) -> Result<Option<ExpandError<A>>, AllocError>
    ensures { IfOk result (λ e. errors_of e
        ≡ match_error (G.grammar grammar.now) (op_of op.now) here.now around) }
{
    match op {
        Op::Literal(literal) => {
            let kind = if names_expected(here) {
                ExpandErrorKind::BindingError(format!(in alloc; "expected literal: `{literal}`")?)
            } else {
                ExpandErrorKind::UnexpectedToken
            };
            Ok(Some(error_at(alloc, kind, here, around)?))
        }
        Op::Ident(ident) => {
            let kind = if names_expected(here) {
                ExpandErrorKind::BindingError(format!(in alloc; "expected ident: `{ident}`")?)
            } else {
                ExpandErrorKind::UnexpectedToken
            };
            Ok(Some(error_at(alloc, kind, here, around)?))
        }
        Op::Punct(puncts) => {
            let kind = if names_expected_puncts(here) {
                let chars = puncts_text(alloc, puncts.as_slice())?;
                ExpandErrorKind::BindingError(format!(in alloc; "expected punct: `{chars}`")?)
            } else {
                ExpandErrorKind::UnexpectedToken
            };
            Ok(Some(error_at(alloc, kind, here, around)?))
        }
        Op::Var {
            kind: Some(kind),
            ..
        } => variable_error(alloc, grammar, *kind, here, around),
        _ => Ok(None),
    }
}

// Binds a variable of the kind that matches nothing here: to the fragment that the grammar faults,
// or as missing.
pub(crate) fn bind_failing<'a, A: Allocator + Copy, G: FragmentGrammar>(
    grammar: &G,
    log: &mut BindingLog<'a, A>,
    handle: &mut Handle,
    name: &Symbol<A>,
    kind: MetaVarKind,
    here: &TtIter<'a, A>,
) -> Result<(), AllocError>
    requires { HasEntriesOf log.old handle.old }
    ensures { OnOk result (IsRewritten log.old log.new handle.old handle.new
        (pushed (failed_command (G.grammar grammar.now) name.now kind here.now))) }
{
    if is_refused(kind, here) {
        return log.push_missing(handle, name, kind);
    }
    let Some(entry) = kind.fragment_parser().entry() else {
        return log.push_missing(handle, name, kind);
    };
    let mut ahead = here.fork();
    let counted = eat_front(grammar, entry, &mut ahead)?;
    if counted.whole.iter().is_empty() {
        return log.push_missing(handle, name, kind);
    }
    let fragment = fragment_of_kind(grammar.dialect(), Some(kind), counted.whole);
    log.push_fragment(handle, name, fragment)
}

// An op, and the trees in front that it doesn't fit.
#[derive(Drop)]
struct Mismatch<'a, A: Allocator = Global> {
    op: &'a Op<A>,
    here: TtIter<'a, A>,
}

// The thread that the bindings of a report come from.
#[derive(Drop)]
struct ReportedThread<'a, A: Allocator = Global> {
    handle: Handle,
    // The op that doesn't fit. `None` if the thread is at the pattern's end.
    mismatch: Option<Mismatch<'a, A>>,
}

// What the threads reported so far.
#[derive(Drop)]
pub(crate) struct MatchReport<'a, A: Allocator = Global> {
    // The first op that didn't fit.
    first: Option<Mismatch<'a, A>>,
    // The last thread that failed; or, at an offset where none failed, the first thread at the
    // pattern's end.
    last: Option<ReportedThread<'a, A>>,
    // Whether a thread failed at this offset.
    failed_here: bool,
}

// Whether the op notes an error if it doesn't fit. A group and a variable of an unknown kind don't.
#[tactic(auto, using(mbe_ops::proofs::OpViews::views))]
#[inline(always)]
pub(crate) fn reports_error<A: Allocator>(op: &Op<A>) -> bool
    ensures { result ≡ reports_error (op_of op.now) }
{
    matches!(
        op,
        Op::Literal(_) | Op::Ident(_) | Op::Punct(_) | Op::Var { kind: Some(_), .. }
    )
}

impl<'a, A: Allocator> MatchReport<'a, A> {
    ghost use Rattle.std.specs.Prelude.{List, option_to_list};
    ghost use Rattle.mbe_tt.specs.Trees.Tree.{Forest};
    ghost use Rattle.mbe_tt.specs.Views.View.{trees};
    ghost use Rattle.mbe_semantics.specs.Bindings.Account.{Log, Commands};
    ghost use Rattle.mbe_semantics.specs.Matching.ThreadModel.{ThreadModel};
    ghost use Rattle.mbe_ops.specs.Views.{ops_of};
    ghost use Rattle.mbe_matcher.specs.Threads.{Each, Holds};
    ghost use Rattle.mbe_matcher.specs.Failures.{Mismatch as Misfits, Notes, no_notes, noted_with};
    ghost use Rattle.mbe_matcher.specs.Failures.{mismatch_unless, remaining_ops, bound_by};
    ghost use Rattle.mbe_matcher.specs.Reports.{IsReportOf};

    // Returns an empty report.
    pub(crate) fn new() -> MatchReport<'a, A>
        ensures { (log : Log) (f : Forest) → IsReportOf log f result [] no_notes }
    {
        MatchReport {
            first: None,
            last: None,
            failed_here: false,
        }
    }

    // Notes a thread before these ops. The thread failed if it has no step at the offset.
    #[inline(always)]
    pub(crate) fn note_thread(
        &mut self,
        source: &Source<'a, A>,
        tail: &'a [Op<A>],
        handle: Handle,
        has_step: bool,
    )
        ensures { (log : Log) (o : ThreadModel) (ms : List Misfits) (before : Notes)
            → ops_of tail.now ≡ remaining_ops o → Holds log handle (bound_by o)
            → IsReportOf log (trees source.now.whole) self.old ms before
            → IsReportOf log (trees source.now.whole) self.new
            (ms ++ option_to_list (mismatch_unless has_step source.now.offset o)) before }
    {
        let Some((op, _rest)) = tail.split_first() else {
            return;
        };
        if has_step || !reports_error(op) {
            return;
        }
        if self.first.is_none() {
            self.first = Some(Mismatch {
                op,
                here: source.here(),
            });
        }
        let mismatch = Some(Mismatch {
            op,
            here: source.here(),
        });
        self.last = Some(ReportedThread { handle, mismatch });
        self.failed_here = true;
    }

    // Ends an offset: all its threads were noted. `ends` is what the threads at the pattern's end
    // have bound.
    pub(crate) fn finish_offset(&mut self, ends: &[Handle])
        ensures { (log : Log) (f : Forest) (ms : List Misfits) (cs : List Commands)
            (before : Notes) → Each (Holds log) ends.now cs → IsReportOf log f self.old ms before
            → IsReportOf log f self.new [] (noted_with ms cs before) }
    {
        if self.failed_here {
            self.failed_here = false;
            return;
        }
        let Some(end) = ends.first() else {
            return;
        };
        self.last = Some(ReportedThread {
            handle: again(end),
            mismatch: None,
        });
    }

    // Returns the handle of the thread that the bindings come from, if there is one.
    pub(crate) fn last_handle(&self) -> Option<Handle>
        ensures { result ≡ option_map (λ l. l.handle) self.now.last }
    {
        let last = self.last.as_ref()?;
        Some(again(&last.handle))
    }

    // Moves the report to another log. Returns false and changes nothing if that log doesn't have
    // the report's bindings.
    pub(crate) fn relocate(&mut self, moves: &HandleMap<A>) -> bool
        ensures carries { IsTrue result → CarriesReport moves.now self.old self.new }
        ensures still { result ≡ false → self.new ≡ self.old }
    {
        let Some(last) = self.last.take() else {
            return true;
        };
        let Some(handle) = moves.get(&last.handle) else {
            self.last = Some(last);
            return false;
        };
        self.last = Some(ReportedThread {
            handle,
            mismatch: last.mismatch,
        });
        true
    }
}

impl<'a, A: Allocator + Copy> MatchReport<'a, A> {
    ghost use Rattle.mbe_tt.specs.Trees.Tree.{Forest};
    ghost use Rattle.mbe_semantics.specs.Bindings.Account.{Log};
    ghost use Rattle.mbe_log.specs.HandleChanges.{KeepsHandles};
    ghost use Rattle.mbe_matcher.specs.Threads.{Holds};
    ghost use Rattle.mbe_matcher.specs.Failures.{Notes, noted_error, error_of_notes};
    ghost use Rattle.mbe_matcher.specs.Failures.{commands_of_notes};
    ghost use Rattle.mbe_matcher.specs.Reports.{IsReport, IsReportOf};

    // Returns the first error that was noted.
    fn first_error<G: FragmentGrammar>(
        &self,
        alloc: A,
        grammar: &G,
        around: DelimSpan,
    ) -> Result<Option<ExpandError<A>>, AllocError>
        ensures { (log : Log) (f : Forest) (notes : Notes) → IsReportOf log f self.now [] notes
            → IfOk result (λ e. errors_of e
            ≡ noted_error (G.grammar grammar.now) f around notes.first) }
    {
        let Some(mismatch) = &self.first else {
            return Ok(None);
        };
        match_error(alloc, grammar, mismatch.op, &mismatch.here, around)
    }

    // Returns the first error that was noted. If there is none, returns the error of the stop, at
    // the argument's opening.
    pub(crate) fn error<G: FragmentGrammar>(
        &self,
        alloc: A,
        grammar: &G,
        around: DelimSpan,
        is_at_end: bool,
    ) -> Result<ExpandError<A>, AllocError>
        ensures { (log : Log) (f : Forest) (notes : Notes) → IsReportOf log f self.now [] notes
            → IfOk result (λ e. error_of e
            ≡ error_of_notes (G.grammar grammar.now) f around is_at_end notes) }
    {
        if let Some(error) = self.first_error(alloc, grammar, around)? {
            return Ok(error);
        }
        let kind = if is_at_end {
            ExpandErrorKind::UnexpectedToken
        } else {
            ExpandErrorKind::LeftoverTokens
        };
        ExpandError::new(alloc, around.opening, kind)
    }

    // Returns what the last reported thread had bound. A variable that doesn't fit is bound too.
    pub(crate) fn bindings<G: FragmentGrammar>(
        self,
        grammar: &G,
        log: &mut BindingLog<'a, A>,
    ) -> Result<Handle, AllocError>
        requires { IsReport log.old self }
        ensures entries { IfOk result (λ h. HasEntriesOf log.new h) }
        ensures kept { OnOk result (KeepsHandles log.old log.new) }
        ensures notes { (f : Forest) (notes : Notes) → IsReportOf log.old f self.entry [] notes
            → IfOk result (λ h. Holds log.new h
            (commands_of_notes (G.grammar grammar.now) f notes.last)) }
    {
        let Some(last) = self.last else {
            return log.alloc();
        };
        let ReportedThread {
            mut handle,
            mismatch,
        } = last;
        let Some(mismatch) = mismatch else {
            return Ok(handle);
        };
        let Op::Var {
            name,
            kind: Some(kind),
            ..
        } = mismatch.op
        else {
            return Ok(handle);
        };
        bind_failing(grammar, log, &mut handle, name, *kind, &mismatch.here)?;
        Ok(handle)
    }
}
