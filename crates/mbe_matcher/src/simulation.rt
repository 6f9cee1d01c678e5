// The first pass of a match: runs the threads from offset to offset until they stop.
ghost use Rattle.std.specs.Prelude.{◌≡◌, ◌≤◌, ◌+◌, ◌++◌, ◌∷◌, [], IfOk, OnOk, IfSome, length, map};
ghost use Rattle.std.specs.Prelude.{take};
ghost use Rattle.mbe_tt.specs.Trees.Tree.{flat_len, rest_at};
ghost use Rattle.mbe_tt.specs.Views.View.{trees};
ghost use Rattle.mbe_semantics.specs.Syntax.Nullable.{Checked};
ghost use Rattle.mbe_semantics.specs.Readings.Verdict.{IsVerdict, unmatched};
ghost use Rattle.mbe_semantics.specs.Matching.States.{state_count};
ghost use Rattle.mbe_log.specs.HandleChanges.{KeepsHandles};
ghost use Rattle.mbe_ops.specs.Views.{template_of};
ghost use Rattle.mbe_threads.specs.Remainder.{IsRemainder};
ghost use Rattle.mbe_threads.specs.Stops.{thread_after, verdict_in, reading_in};
ghost use Rattle.mbe_matcher.specs.Compaction.{ThreadsStay, ReportStays, StartStays};
ghost use Rattle.mbe_matcher.specs.Reports.{IsFresh, IsReportAt, IsReportIn};
ghost use Rattle.mbe_matcher.specs.MatchResults.{IsAtStart, Binds};
ghost use Rattle.mbe_matcher.specs.Threads.{IsBelow, open_items};

use crate::closure::{Frontier, MatchState, follow_epsilons};
use crate::compaction::{CompactionBudget, compact_if_due};
use crate::empty_repetition::count_states;
use crate::match_report::MatchReport;
use crate::steps::step_alone;
use mbe_log::log::BindingLog;
use mbe_ops::ops::MetaTemplate;
use mbe_threads::source::Source;
use mbe_threads::stops::{Stop, after_step, push_next, stop_reason};
use mbe_threads::thread::{Thread, ThreadFrame, ThreadStack, TokenStep};
use mbe_tt::grammar::FragmentGrammar;
use mbe_tt::tt::TokenTreesView;
use std::alloc::{AllocError, Allocator, Global};

// The result of the first pass: where the threads stop, how many trees of the current group remain
// there, and what the threads reported so far.
#[derive(Drop)]
pub(crate) struct FirstPassResult<'a, A: Allocator = Global> {
    pub(crate) stop: Stop,
    pub(crate) unmatched: usize,
    pub(crate) report: MatchReport<'a, A>,
    // Whether the pass dropped a third thread of a state. Then the report may be incomplete.
    pub(crate) has_dropped: bool,
}

// Returns the thread before the first op of a pattern with `number` states.
pub(crate) fn at_start<'a, A: Allocator + Copy>(
    pattern: &'a MetaTemplate<A>,
    number: usize,
    log: &mut BindingLog<'a, A>,
) -> Result<Thread<'a, A>, AllocError>
    requires { number ≡ state_count (template_of pattern.now) }
    ensures start { IfOk result (IsAtStart log.new (template_of pattern.now)) }
    ensures kept { OnOk result (KeepsHandles log.old log.new) }
{
    let handle = log.alloc()?;
    Ok(Thread {
        tail: &pattern.0,
        number,
        up: None,
        handle,
    })
}

// Replaces the stack by one thread, after its step. Drops the open items that the thread can't
// reach any more.
#[inline(always)]
fn push_only<'a, A: Allocator + Copy>(
    after: Thread<'a, A>,
    frames: &mut Vec<ThreadFrame<'a, A>, A>,
    todo: &mut ThreadStack<'a, '_, A>,
) -> Result<(), AllocError>
    requires within { IsBelow after.up (length frames.old.items) }
    ensures frames { OnOk result
        (frames.new.items ≡ take (open_items after.entry.up) frames.old.items) }
    ensures todo { OnOk result (todo.new.items ≡ after.entry ∷ []) }
{
    let open = match after.up {
        None => 0,
        Some(open) => open + 1,
    };
    frames.truncate(open);
    todo.clear();
    todo.push(after)?;
    Ok(())
}

// Moves a thread that is alone over its step, to the next offset.
#[inline(always)]
fn advance_only<'a, A: Allocator + Copy>(
    source: Source<'a, A>,
    next: TokenStep<'a, A>,
    frames: &mut Vec<ThreadFrame<'a, A>, A>,
    todo: &mut ThreadStack<'a, '_, A>,
) -> Result<Source<'a, A>, AllocError>
    requires fits { source.offset + next.width ≤ flat_len (trees source.whole) }
    requires left { IsRemainder (rest_at (trees source.whole) source.offset) next.width next.beyond }
    requires within { IsBelow next.after.up (length frames.old.items) }
    ensures whole { IfOk result (λ s. s.whole ≡ source.entry.whole) }
    ensures offset { IfOk result (λ s. s.offset ≡ source.entry.offset + next.entry.width) }
    ensures frames { OnOk result
        (frames.new.items ≡ take (open_items next.entry.after.up) frames.old.items) }
    ensures todo { OnOk result (todo.new.items ≡ next.entry.after ∷ []) }
{
    let source = after_step(source, &next)?;
    push_only(next.after, frames, todo)?;
    Ok(source)
}

// Moves all threads over their steps, to the next offset. `step` is one of the steps: all have the
// same width. Then it compacts the match, if enough threads were followed.
#[inline(always)]
pub(crate) fn advance_all<'a, A: Allocator + Copy>(
    alloc: A,
    source: Source<'a, A>,
    step: &TokenStep<'a, A>,
    token_steps: &[TokenStep<'a, A>],
    log: &mut BindingLog<'a, A>,
    state: &mut MatchState<'a, A>,
    todo: &mut ThreadStack<'a, '_, A>,
    room: &mut CompactionBudget,
) -> Result<Source<'a, A>, AllocError>
    requires fits { source.offset + step.now.width ≤ flat_len (trees source.whole) }
    requires left { IsRemainder (rest_at (trees source.whole) source.offset)
        step.now.width step.now.beyond }
    ensures whole { IfOk result (λ s. s.whole ≡ source.entry.whole) }
    ensures offset { IfOk result (λ s. s.offset ≡ source.entry.offset + step.now.width) }
    ensures threads { OnOk result (ThreadsStay log.old log.new state.old.frames.items
        state.new.frames.items (todo.old.items ++ map thread_after token_steps.now) todo.new.items) }
    ensures report { OnOk result (ReportStays log.old log.new state.old.report state.new.report) }
    ensures start { OnOk result (StartStays room.old.extent log.old log.new) }
    ensures extent { OnOk result (room.new.extent ≡ room.old.extent) }
    ensures counts { OnOk result (state.new.counts ≡ state.old.counts) }
    ensures dropped { OnOk result (state.new.has_dropped ≡ state.old.has_dropped) }
{
    let source = after_step(source, step)?;
    push_next(token_steps, todo)?;
    compact_if_due(alloc, log, state, todo, room)?;
    Ok(source)
}

// Runs the pattern's threads from offset to offset until they stop. Returns where they stop, and
// how many trees of the current group remain there. The caller owns all memory, so an allocation
// failure has nothing to drop here.
fn walk<'a, A: Allocator + Copy, G: FragmentGrammar>(
    alloc: A,
    grammar: &G,
    pattern: &'a MetaTemplate<A>,
    argument: TokenTreesView<'a, A>,
    log: &mut BindingLog<'a, A>,
    state: &mut MatchState<'a, A>,
    todo: &mut ThreadStack<'a, '_, A>,
    frontier: &mut Frontier<'a, '_, A>,
) -> Result<(Stop, usize), AllocError>
    requires checked { Checked (template_of pattern.now) }
    requires fresh { IsFresh (state_count (template_of pattern.now)) state.old todo.old.items }
    ensures verdict { IfOk result (λ r. IsVerdict (G.grammar grammar.now) (template_of pattern.now)
        (trees argument.entry) (verdict_in r.0)) }
    ensures unmatched { IfOk result (λ r. r.1 ≡ unmatched (trees argument.entry) (verdict_in r.0)) }
    ensures binds { IfOk result (λ r. IfSome (reading_in r.0)
        (Binds (G.grammar grammar.now) (template_of pattern.now) (trees argument.entry) log.new)) }
    ensures kept { OnOk result (KeepsHandles log.old log.new) }
    ensures notes { IfOk result (λ r. IsReportAt (G.grammar grammar.now) (template_of pattern.now)
        (trees argument.entry) log.new r.0 state.new) }
{
    let mut room = CompactionBudget::new(log);
    let thread = at_start(pattern, state.counts.marks.len(), log)?;
    todo.push(thread)?;
    let mut source = Source::new(alloc, argument);
    'offsets: loop {
        let alone = step_alone(grammar, &source, log, &mut state.frames, todo.as_slice())?;
        if let Some(next) = alone {
            source = advance_only(source, next, &mut state.frames, todo)?;
            continue;
        }
        follow_epsilons(grammar, &source, log, state, todo, frontier)?;
        if let Some(stop) = stop_reason(&source, &frontier.token_steps, &frontier.ends) {
            return Ok((stop, source.remaining_trees()));
        }
        let step = &frontier.token_steps[0];
        let token_steps = &frontier.token_steps;
        source = advance_all(
            alloc,
            source,
            step,
            token_steps,
            log,
            state,
            todo,
            &mut room,
        )?;
    }
}

// Runs the first pass of a match. `AllocError` if out of memory.
pub(crate) fn run_threads<'a, A: Allocator + Copy, G: FragmentGrammar>(
    alloc: A,
    grammar: &G,
    pattern: &'a MetaTemplate<A>,
    argument: TokenTreesView<'a, A>,
    log: &mut BindingLog<'a, A>,
) -> Result<FirstPassResult<'a, A>, AllocError>
    requires { Checked (template_of pattern.now) }
    ensures verdict { IfOk result (λ r. IsVerdict (G.grammar grammar.now) (template_of pattern.now)
        (trees argument.entry) (verdict_in r.stop)) }
    ensures unmatched { IfOk result (λ r. r.unmatched
        ≡ unmatched (trees argument.entry) (verdict_in r.stop)) }
    ensures binds { IfOk result (λ r. IfSome (reading_in r.stop)
        (Binds (G.grammar grammar.now) (template_of pattern.now) (trees argument.entry) log.new)) }
    ensures kept { OnOk result (KeepsHandles log.old log.new) }
    ensures notes { IfOk result (IsReportIn (G.grammar grammar.now) (template_of pattern.now)
        (trees argument.entry) log.new) }
{
    let state_count = count_states(&pattern.0).ok_or(AllocError)?;
    let mut state = MatchState::new(alloc, state_count)?;
    let mut todo = ThreadStack::new(&alloc);
    let mut frontier = Frontier::new(&alloc);
    let (stop, unmatched) = walk(
        alloc,
        grammar,
        pattern,
        argument,
        log,
        &mut state,
        &mut todo,
        &mut frontier,
    )?;
    Ok(FirstPassResult {
        stop,
        unmatched,
        report: state.report,
        has_dropped: state.has_dropped,
    })
}
