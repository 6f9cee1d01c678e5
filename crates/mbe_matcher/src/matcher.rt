// Matches an argument against a pattern, all readings at once.
//
// A state is a point in a pattern: before the first op, or after an op. The bodies of groups and
// repetitions have states too. A state's number says how many states there are from it to the
// pattern's end. A thread is a state, the open groups and repetitions around it, and what was bound
// so far. All threads run over the argument together, from offset to offset. An offset is the
// number of flat tokens consumed.
//
// At an offset the matcher pops threads off a stack until it is empty. It follows the epsilon steps
// of each thread, and pushes the threads after them:
//
// - Before a repetition, a thread goes past it or into its body.
// - At a round's end, a thread leaves the repetition. Without a separator, it also goes into
//   another round.
//
// A thread has a step over tokens if what it stands before fits the next tokens: a token, an
// opening, a closing, a separator or a variable. The matcher collects these steps, each with its
// number of flat tokens. It drops a thread that has no step. Then one of three cases holds:
//
// - Two steps consume different numbers of tokens, or one of several consumes a fragment. This is a
//   local ambiguity, and the match stops.
// - There is no step. The match is stuck.
// - All steps consume the same number of tokens. The threads after them are the stack at the next
//   offset, in the order of the steps.
//
// At the argument's end, each thread at the pattern's end is a reading: there is one, several or
// none. If there is one thread, and its only step consumes tokens, the thread takes the step at
// once (`step_alone`). Most threads do.
//
// The future of a thread depends on its state alone. So at each offset the matcher follows two
// threads of a state, and drops any more. The first thread shows that the state is reached. The
// second shows that there are two readings. The number of states bounds the work at an offset, so a
// match is linear in the argument.
//
// The report of a match that fails is about all threads. If the first pass dropped a thread, a
// second pass makes the report (`report_up_to`).
//
// In `$($x:ident),* ;` the states are 5 before the repetition, 4 before `$x`, 3 after it, 2 before
// `;` and 1 at the end. A match of `p, q ;` follows these threads:
//
//     offset  next token  states   steps over tokens
//          0           p  5  4  2  4: `p`, a fragment
//          1           ,     3  2  3: the separator
//          2           q        4  4: `q`, a fragment
//          3           ;     3  2  2: `;`
//          4                    1  none: the pattern and the argument end, so there is one reading
ghost use Rattle.std.specs.Prelude.{◌≡◌, ◌↔◌, IsNone, IsSome, IfOk, IfSome, OnOk};
ghost use Rattle.mbe_tt.specs.Trees.Tree.{Forest, flat_len};
ghost use Rattle.mbe_tt.specs.Views.View.{trees};
ghost use Rattle.mbe_semantics.specs.Syntax.Op.{Ops};
ghost use Rattle.mbe_semantics.specs.Syntax.Nullable.{Checked};
ghost use Rattle.mbe_semantics.specs.Readings.Verdict.{IsVerdict, stop_of, unmatched, one_reading};
ghost use Rattle.mbe_semantics.specs.Bindings.Account.{Log, HasEntriesOf};
ghost use Rattle.mbe_ops.specs.Errors.ErrorViews.{errors_of};
ghost use Rattle.mbe_log.specs.HandleChanges.{KeepsHandles};
ghost use Rattle.mbe_ops.specs.Views.{template_of};
ghost use Rattle.mbe_matcher.specs.MatchResults.{verdict_seen, Binds};
ghost use Rattle.mbe_threads.specs.Stops.{verdict_in};
ghost use Rattle.mbe_matcher.specs.Reports.{IsReport, IsFullReport, IsReportIn, IsReported};

use crate::prefilter::run_first_pass;
use crate::report_pass::report_up_to;
use crate::simulation::FirstPassResult;
use mbe_log::log::{BindingLog, Handle, again};
use mbe_ops::errors::error::ExpandError;
use mbe_ops::ops::MetaTemplate;
use mbe_threads::stops::Stop;
use mbe_tt::grammar::FragmentGrammar;
use mbe_tt::span::DelimSpan;
use mbe_tt::tt::TokenTreesView;
use std::alloc::{AllocError, Allocator, Global};

/// How a pattern reads an argument. The numbers are offsets: flat tokens consumed.
#[derive(Clone, Copy, Debug, PartialEq, Eq)]
pub enum Verdict {
    OneReading,
    ManyReadings,
    /// A local ambiguity at the offset: two threads have steps, and one step consumes a fragment,
    /// or the steps consume different numbers of tokens.
    Ambiguous(usize),
    /// No thread has a step at the offset.
    Stuck(usize),
}

/// The result of a match.
#[derive(Drop)]
pub struct Match<A: Allocator = Global> {
    pub verdict: Verdict,
    /// How many trees of the current group remain where the match stopped.
    pub unmatched: usize,
    /// What the only reading binds, if there is exactly one. Otherwise, what the last thread that
    /// failed had bound. If no thread failed at the last such offset, what the first thread at
    /// the pattern's end had bound.
    pub bindings: Handle,
    /// Why there isn't exactly one reading: the first error that a thread noted, or the error of
    /// the offset where the match stopped. `None` if there is one reading.
    pub err: Option<ExpandError<A>>,
}

/// Matches the whole argument against a checked pattern, and writes what the readings bind into the
/// log. `around` are the spans of the argument's delimiters. `AllocError` if out of memory.
pub fn match_argument<'a, A: Allocator + Copy, G: FragmentGrammar>(
    alloc: A,
    grammar: &G,
    pattern: &'a MetaTemplate<A>,
    argument: TokenTreesView<'a, A>,
    around: DelimSpan,
    log: &mut BindingLog<'a, A>,
) -> Result<Match<A>, AllocError>
    requires { Checked (template_of pattern.now) }
    ensures verdict { IfOk result (λ m. IsVerdict (G.grammar grammar.now) (template_of pattern.now)
        (trees argument.entry) (verdict_seen m.verdict)) }
    ensures unmatched { IfOk result (λ m. m.unmatched
        ≡ unmatched (trees argument.entry) (verdict_seen m.verdict)) }
    ensures binds { IfOk result (λ m. verdict_seen m.verdict ≡ one_reading
        → Binds (G.grammar grammar.now) (template_of pattern.now) (trees argument.entry)
        log.new m.bindings) }
    ensures entries { IfOk result (λ m. HasEntriesOf log.new m.bindings) }
    ensures err { IfOk result (λ m. IsNone (errors_of m.err)
        ↔ (verdict_seen m.verdict ≡ one_reading)) }
    ensures reports { IfOk result (λ m. IfSome (errors_of m.err)
        (λ e. IsReported (G.grammar grammar.now) (template_of pattern.now) (trees argument.entry)
        around log.new (verdict_seen m.verdict) e m.bindings)) }
    ensures kept { OnOk result (KeepsHandles log.old log.new) }
{
    let reached = run_first_pass(alloc, grammar, pattern, argument, log)?;
    if let Stop::OneReading(bindings) = &reached.stop {
        return Ok(Match {
            verdict: Verdict::OneReading,
            unmatched: reached.unmatched,
            bindings: again(bindings),
            err: None,
        });
    }
    let reached = with_all_reported(alloc, grammar, pattern, argument, reached, log)?;
    failed(alloc, grammar, reached, argument.flat_len(), around, log)
}

pub(crate) fn verdict_of(stop: &Stop) -> Verdict
    ensures { verdict_seen result ≡ verdict_in stop.now }
{
    match stop {
        Stop::OneReading(_) => Verdict::OneReading,
        Stop::ManyReadings => Verdict::ManyReadings,
        Stop::Ambiguous(offset) => Verdict::Ambiguous(*offset),
        Stop::Stuck(offset) => Verdict::Stuck(*offset),
    }
}

// Returns the offset where the threads stop, in an argument of `length` flat tokens.
fn offset_of(stop: &Stop, length: usize) -> usize
    ensures { (f : Forest) → flat_len f ≡ length → result ≡ stop_of f (verdict_in stop.now) }
{
    match stop {
        Stop::OneReading(_) | Stop::ManyReadings => length,
        Stop::Ambiguous(offset) | Stop::Stuck(offset) => *offset,
    }
}

// Returns the result of the first pass, with the report of all threads. If the first pass dropped a
// thread, a second pass makes the report.
fn with_all_reported<'a, A: Allocator + Copy, G: FragmentGrammar>(
    alloc: A,
    grammar: &G,
    pattern: &'a MetaTemplate<A>,
    argument: TokenTreesView<'a, A>,
    reached: FirstPassResult<'a, A>,
    log: &mut BindingLog<'a, A>,
) -> Result<FirstPassResult<'a, A>, AllocError>
    requires checked { Checked (template_of pattern.now) }
    requires verdict { IsVerdict (G.grammar grammar.now) (template_of pattern.now)
        (trees argument) (verdict_in reached.stop) }
    requires notes { IsReportIn (G.grammar grammar.now) (template_of pattern.now)
        (trees argument) log.old reached }
    ensures stop { IfOk result (λ r. r.stop ≡ reached.entry.stop) }
    ensures unmatched { IfOk result (λ r. r.unmatched ≡ reached.entry.unmatched) }
    ensures report { IfOk result (λ r. IsFullReport (G.grammar grammar.now)
        (template_of pattern.now) (trees argument.entry) log.new
        (stop_of (trees argument.entry) (verdict_in r.stop)) r.report) }
    ensures kept { OnOk result (KeepsHandles log.old log.new) }
{
    if !reached.has_dropped {
        return Ok(reached);
    }
    let stop = offset_of(&reached.stop, argument.flat_len());
    let report = report_up_to(alloc, grammar, pattern, argument, stop, log)?;
    let mut reached = reached;
    reached.report = report;
    Ok(reached)
}

// Returns the result of a match that fails. The argument has `length` flat tokens.
fn failed<'a, A: Allocator + Copy, G: FragmentGrammar>(
    alloc: A,
    grammar: &G,
    reached: FirstPassResult<'a, A>,
    length: usize,
    around: DelimSpan,
    log: &mut BindingLog<'a, A>,
) -> Result<Match<A>, AllocError>
    requires { IsReport log.old reached.report }
    ensures verdict { IfOk result (λ m. verdict_seen m.verdict ≡ verdict_in reached.entry.stop) }
    ensures unmatched { IfOk result (λ m. m.unmatched ≡ reached.entry.unmatched) }
    ensures entries { IfOk result (λ m. HasEntriesOf log.new m.bindings) }
    ensures err { IfOk result (λ m. IsSome (errors_of m.err)) }
    ensures kept { (first : Log) → KeepsHandles first log.old
        → OnOk result (KeepsHandles first log.new) }
    ensures reports { (pattern : Ops) (f : Forest) → flat_len f ≡ length
        → IsFullReport (G.grammar grammar.now) pattern f log.old
        (stop_of f (verdict_in reached.entry.stop)) reached.entry.report
        → IfOk result (λ m. IfSome (errors_of m.err) (λ e. IsReported (G.grammar grammar.now)
        pattern f around log.new (verdict_in reached.entry.stop) e m.bindings)) }
{
    let FirstPassResult {
        stop,
        unmatched,
        report,
        has_dropped: _,
    } = reached;
    let is_at_end = offset_of(&stop, length) == length;
    let err = report.error(alloc, grammar, around, is_at_end)?;
    let bindings = report.bindings(grammar, log)?;
    Ok(Match {
        verdict: verdict_of(&stop),
        unmatched,
        bindings,
        err: Some(err),
    })
}
