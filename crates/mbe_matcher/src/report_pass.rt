// The second pass over the argument, which makes the report of a match that fails.
//
// The first pass follows two threads of each state, which is enough for the verdict. The report is
// about all threads, in the order in which they are followed. It has the first error that a thread
// noted. It also has the bindings of the last thread that failed, at the last offset where one did.
// If none failed there, it has the bindings of the first thread at the pattern's end.
//
// The future of a thread depends on its state alone. So at each offset, the first thread that fails
// is the first of its state, and the last thread that fails is the last of its state. The pass
// follows both, up to the offset where the first pass stopped:
//
// - The first thread of each state, in order. It uses a stack, as the first pass does, and follows
//   each state once.
// - The last thread of each state, the last first. It takes the same steps in reverse order. It
//   enters a thread by popping it. Then it pushes the thread again, to leave it later, and on top
//   of it the thread's steps, the last on top. It leaves a thread after everything that the thread
//   leads to, and notes it then. It enters each state once.
//
// The order of the threads is reversed at the next offset. So the first threads there come from the
// last ones here, and the last ones there from the first ones here: the two lists change roles.
//
// The pattern `$(a)* $(a)* c` has eight states. State 8 is before everything. States 7 and 6 are in
// the first repetition, and 5 is after it. States 4 and 3 are in the second one. State 2 is before
// `c`, and 1 is at the end. A match of `a a`:
//
//     offset  first of each state  steps  last of each state, the last first  steps
//          0            8 7 5 4 2    7 4                           2 4 5 7 8    4 7
//          1          3 4 2 6 7 5    4 7                         2 4 5 7 6 3    4 7
//          2          3 4 2 6 7 5                                2 4 3 5 7 6
//
// At offset 2 there are three threads of state 4, and three of state 2. The first thread of state 4
// fails first, and the last thread of state 2 fails last.
ghost use Rattle.std.specs.Prelude.{ℕ, ◌≡◌, ◌++◌, [], map, reverse, length, option_to_list, IfOk};
ghost use Rattle.std.specs.Prelude.{IfSome, OnOk};
ghost use Rattle.mbe_tt.specs.Grammars.Grammar.{Grammar};
ghost use Rattle.mbe_tt.specs.Views.View.{trees};
ghost use Rattle.mbe_semantics.specs.Syntax.Nullable.{Checked};
ghost use Rattle.mbe_log.specs.HandleChanges.{KeepsHandles};
ghost use Rattle.mbe_matcher.specs.VisitedSet.{AreUnvisitedFrom};
ghost use Rattle.mbe_matcher.specs.Threads.{IsThread, Holds, Each};
ghost use Rattle.mbe_matcher.specs.Compaction.{CarriesVisit, ThreadsStay, VisitsStay, ReportStays};
ghost use Rattle.mbe_matcher.specs.Compaction.{StartStays};
ghost use Rattle.mbe_threads.specs.Stops.{thread_after};
ghost use Rattle.mbe_semantics.specs.Bindings.Account.{Log};
ghost use Rattle.mbe_semantics.specs.Matching.ThreadModel.{ThreadModel};
ghost use Rattle.mbe_ops.specs.Views.{ops_of, template_of};
ghost use Rattle.mbe_matcher.specs.Failures.{remaining_ops, bound_by};
ghost use Rattle.mbe_matcher.specs.Reports.{IsFullReport};
ghost use Rattle.mbe_matcher.specs.ReportPass.{IsFirstStackAt, AreFirstsAt, NotesFirsts, FailsBy};
ghost use Rattle.mbe_matcher.specs.ReportPass.{GivesEntered, to_enter, FirstFails, IsStop};
ghost use Rattle.mbe_matcher.specs.ReportPass.{IsLastStackAt, AreLastsAt, visit_after};
ghost use Rattle.mbe_matcher.specs.ReportPass.{AreUnvisitedAfter, AreAsMany, PassKeeps};

use crate::compaction::{CompactedThreads, CompactionBudget, LiveThreads};
use crate::empty_repetition::count_states;
use crate::match_report::{MatchReport, reports_error};
use crate::simulation::at_start;
use crate::steps::{push_some, steps};
use crate::visited_set::VisitedSet;
use mbe_log::log::{BindingLog, Handle, LogSize, again};
use mbe_ops::ops::{MetaTemplate, Op};
use mbe_threads::source::Source;
use mbe_threads::stops::after_step;
use mbe_threads::thread::{Thread, ThreadFrame, TokenStep};
use mbe_tt::grammar::FragmentGrammar;
use mbe_tt::tt::TokenTreesView;
use std::alloc::{AllocError, Allocator, Global};

// A thread that failed: its remaining ops, and what it had bound.
#[derive(Drop)]
struct FailedThread<'a, A: Allocator = Global> {
    tail: &'a [Op<A>],
    handle: Handle,
}

// What remains of a thread after its epsilon steps: its step over tokens, and the thread itself if
// it failed.
#[derive(Drop)]
struct ThreadExit<'a, A: Allocator = Global> {
    next: Option<TokenStep<'a, A>>,
    failed: Option<FailedThread<'a, A>>,
}

#[derive(Drop)]
enum Visit<'a, A: Allocator = Global> {
    Enter(Thread<'a, A>),
    Leave(ThreadExit<'a, A>),
}

// What the first thread of each state leads to.
#[derive(Drop)]
struct FirstThreads<'a, A: Allocator = Global> {
    token_steps: Vec<TokenStep<'a, A>, A>,
    // What the threads at the pattern's end have bound.
    ends: Vec<Handle, A>,
}

// What the last thread of each state leads to, the last first.
#[derive(Drop)]
struct LastThreads<'a, A: Allocator = Global> {
    token_steps: Vec<TokenStep<'a, A>, A>,
    // The last thread that failed.
    failed: Option<FailedThread<'a, A>>,
}

// What the pass keeps from offset to offset, beside the log and its lists.
#[derive(Drop)]
struct ReportPass<'a, A: Allocator = Global> {
    frames: Vec<ThreadFrame<'a, A>, A>,
    first_visited: VisitedSet<A>,
    last_visited: VisitedSet<A>,
    report: MatchReport<'a, A>,
    // How many threads were followed since the pass last tried to compact.
    followed: usize,
}

impl<'a, A: Allocator + Copy> ReportPass<'a, A> {
    ghost use Rattle.std.specs.Prelude.{List};
    ghost use Rattle.std.specs.List.{filter_map};
    ghost use Rattle.mbe_tt.specs.Trees.Tree.{Forest};
    ghost use Rattle.mbe_semantics.specs.Readings.Input.{Input};
    ghost use Rattle.mbe_semantics.specs.Bindings.Account.{Commands};
    ghost use Rattle.mbe_matcher.specs.Failures.{Mismatch as Misfits, Notes, no_notes, mismatch};
    ghost use Rattle.mbe_matcher.specs.Failures.{noted_with};
    ghost use Rattle.mbe_matcher.specs.Reports.{IsReportOf};
    ghost use Rattle.mbe_matcher.specs.FirstAndLast.{only_first};

    // Returns the pass at the start of a pattern with `state_count` states.
    fn new(alloc: A, state_count: usize) -> Result<ReportPass<'a, A>, AllocError>
        ensures first_size { IfOk result (λ p. length p.first_visited.offsets.items ≡ state_count) }
        ensures last_size { IfOk result (λ p. length p.last_visited.offsets.items ≡ state_count) }
        ensures first_unvisited { IfOk result
            (λ p. AreUnvisitedFrom p.first_visited.offsets.items 0) }
        ensures last_unvisited { IfOk result (λ p. AreUnvisitedFrom p.last_visited.offsets.items 0) }
        ensures notes { (log : Log) (f : Forest)
            → IfOk result (λ p. IsReportOf log f p.report [] no_notes) }
    {
        Ok(ReportPass {
            frames: Vec::new(alloc),
            first_visited: VisitedSet::new(alloc, state_count)?,
            last_visited: VisitedSet::new(alloc, state_count)?,
            report: MatchReport::new(),
            followed: 0,
        })
    }

    // Ends an offset. The last thread that failed there is noted after the first ones.
    fn finish_offset(
        &mut self,
        source: &Source<'a, A>,
        last: Option<FailedThread<'a, A>>,
        ends: &[Handle],
    )
        ensures notes { (i : Input) (log : Log) (ms : List Misfits) (os : List ThreadModel)
            (cs : List Commands) (before : Notes)
            → FirstFails i source.now.offset log last.entry os → Each (Holds log) ends.now cs
            → IsReportOf log (trees source.now.whole) self.old.report ms before
            → IsReportOf log (trees source.now.whole) self.new.report [] (noted_with
            (ms ++ only_first (filter_map (mismatch i source.now.offset) os)) cs before) }
        ensures frames { self.new.frames ≡ self.old.frames }
        ensures first_visited { self.new.first_visited ≡ self.old.first_visited }
        ensures last_visited { self.new.last_visited ≡ self.old.last_visited }
    {
        if let Some(failed) = last {
            self.report
                .note_thread(source, failed.tail, failed.handle, false);
        }
        self.report.finish_offset(ends);
    }
}

impl<'a, A: Allocator + Copy> FirstThreads<'a, A> {
    // Returns an empty result.
    fn new(alloc: A) -> FirstThreads<'a, A>
        ensures token_steps { result.token_steps.items ≡ [] }
        ensures ends { result.ends.items ≡ [] }
    {
        FirstThreads {
            token_steps: Vec::new(alloc),
            ends: Vec::new(alloc),
        }
    }
}

// Follows the first thread of each state. The result overwrites the previous offset's result.
fn follow_firsts<'a, A: Allocator + Copy, G: FragmentGrammar>(
    grammar: &G,
    source: &Source<'a, A>,
    log: &mut BindingLog<'a, A>,
    pass: &mut ReportPass<'a, A>,
    todo: &mut Vec<Thread<'a, A>, A>,
    firsts: &mut FirstThreads<'a, A>,
) -> Result<(), AllocError>
    requires stack { IsFirstStackAt (G.grammar grammar.now) source.now
        log.old pass.old todo.old.items }
    requires unvisited { AreUnvisitedFrom pass.old.first_visited.offsets.items source.now.offset }
    ensures firsts { (s : IsFirstStackAt (G.grammar grammar.now) source.now
        log.old pass.old todo.old.items) → OnOk result (AreFirstsAt (G.grammar grammar.now)
        source.now s.pattern s.models log.new pass.new firsts.new) }
    ensures notes { (s : IsFirstStackAt (G.grammar grammar.now) source.now
        log.old pass.old todo.old.items) → OnOk result
        (NotesFirsts (G.grammar grammar.now) source.now s.pattern s.models
        log.old log.new pass.old pass.new) }
    ensures kept { OnOk result (PassKeeps log.old log.new pass.old pass.new) }
    ensures unvisited { OnOk result (AreUnvisitedAfter pass.new.first_visited source.now.offset) }
    ensures size { OnOk result (AreAsMany pass.new.first_visited pass.old.first_visited) }
    ensures other { OnOk result (pass.new.last_visited ≡ pass.old.last_visited) }
    ensures done { OnOk result (todo.new.items ≡ []) }
{
    firsts.token_steps.clear();
    firsts.ends.clear();
    while let Some(thread) = todo.pop() {
        if !pass.first_visited.try_visit(thread.number, source.offset) {
            continue;
        }
        pass.followed = pass.followed.saturating_add(1);
        let tail = thread.tail;
        let handle = again(&thread.handle);
        let found = steps(grammar, source, log, &mut pass.frames, thread)?;
        pass.report
            .note_thread(source, tail, handle, found.is_some());
        push_some(todo, found.second)?;
        push_some(todo, found.first)?;
        push_some(&mut firsts.token_steps, found.next)?;
        push_some(&mut firsts.ends, found.done)?;
    }
    Ok(())
}

// Returns the thread, if it fails.
#[inline(always)]
fn if_failed<'a, A: Allocator>(
    tail: &'a [Op<A>],
    handle: Handle,
    has_step: bool,
) -> Option<FailedThread<'a, A>>
    ensures { (log : Log) (q : ℕ) (o : ThreadModel) → ops_of tail.now ≡ remaining_ops o
        → Holds log handle (bound_by o) → FailsBy has_step q log result o }
{
    let Some((op, _rest)) = tail.split_first() else {
        return None;
    };
    if has_step || !reports_error(op) {
        return None;
    }
    Some(FailedThread { tail, handle })
}

// Pushes the thread, to be entered, if there is one.
#[inline(always)]
fn push_entered<'a, A: Allocator + Copy>(
    todo: &mut Vec<Visit<'a, A>, A>,
    thread: Option<Thread<'a, A>>,
) -> Result<(), AllocError>
    ensures { OnOk result (todo.new.items
        ≡ todo.old.items ++ map to_enter (option_to_list thread.entry)) }
{
    let Some(thread) = thread else {
        return Ok(());
    };
    todo.push(Visit::Enter(thread))?;
    Ok(())
}

// Enters a thread. Pushes what remains of the thread, and on top of it the threads after its
// epsilon steps, the last on top.
#[inline(always)]
fn enter<'a, A: Allocator + Copy, G: FragmentGrammar>(
    grammar: &G,
    source: &Source<'a, A>,
    log: &mut BindingLog<'a, A>,
    frames: &mut Vec<ThreadFrame<'a, A>, A>,
    thread: Thread<'a, A>,
    todo: &mut Vec<Visit<'a, A>, A>,
) -> Result<(), AllocError>
    requires { IsThread log.old frames.old.items thread }
    ensures { OnOk result (GivesEntered (G.grammar grammar.now) source.now log.old log.new
        frames.old.items frames.new.items thread.entry todo.old.items todo.new.items) }
{
    let tail = thread.tail;
    let handle = again(&thread.handle);
    let found = steps(grammar, source, log, frames, thread)?;
    let left = ThreadExit {
        failed: if_failed(tail, handle, found.is_some()),
        next: found.next,
    };
    todo.push(Visit::Leave(left))?;
    push_entered(todo, found.first)?;
    push_entered(todo, found.second)?;
    Ok(())
}

impl<'a, A: Allocator + Copy> LastThreads<'a, A> {
    ghost use Rattle.std.specs.Prelude.{None};
    ghost use Rattle.std.specs.Option.{option_or};

    // Returns an empty result.
    fn new(alloc: A) -> LastThreads<'a, A>
        ensures token_steps { result.token_steps.items ≡ [] }
        ensures failed { result.failed ≡ None }
    {
        LastThreads {
            token_steps: Vec::new(alloc),
            failed: None,
        }
    }

    // Leaves a thread, after everything that it leads to.
    #[inline(always)]
    fn leave(&mut self, left: ThreadExit<'a, A>) -> Result<(), AllocError>
        ensures token_steps { OnOk result (self.new.token_steps.items
            ≡ self.old.token_steps.items ++ option_to_list left.entry.next) }
        ensures failed { OnOk result (self.new.failed
            ≡ option_or self.old.failed left.entry.failed) }
    {
        push_some(&mut self.token_steps, left.next)?;
        if self.failed.is_none() {
            self.failed = left.failed;
        }
        Ok(())
    }
}

// Follows the last thread of each state, the last first. The result overwrites the one of the
// previous offset.
fn follow_lasts<'a, A: Allocator + Copy, G: FragmentGrammar>(
    grammar: &G,
    source: &Source<'a, A>,
    log: &mut BindingLog<'a, A>,
    pass: &mut ReportPass<'a, A>,
    todo: &mut Vec<Visit<'a, A>, A>,
    lasts: &mut LastThreads<'a, A>,
) -> Result<(), AllocError>
    requires stack { IsLastStackAt (G.grammar grammar.now) source.now
        log.old pass.old todo.old.items }
    requires unvisited { AreUnvisitedFrom pass.old.last_visited.offsets.items source.now.offset }
    ensures lasts { (s : IsLastStackAt (G.grammar grammar.now) source.now
        log.old pass.old todo.old.items) → OnOk result (AreLastsAt (G.grammar grammar.now)
        source.now s.pattern s.models log.new pass.new lasts.new) }
    ensures kept { OnOk result (PassKeeps log.old log.new pass.old pass.new) }
    ensures unvisited { OnOk result (AreUnvisitedAfter pass.new.last_visited source.now.offset) }
    ensures size { OnOk result (AreAsMany pass.new.last_visited pass.old.last_visited) }
    ensures other { OnOk result (pass.new.first_visited ≡ pass.old.first_visited) }
    ensures report { OnOk result (pass.new.report ≡ pass.old.report) }
    ensures done { OnOk result (todo.new.items ≡ []) }
{
    lasts.token_steps.clear();
    lasts.failed = None;
    while let Some(visit) = todo.pop() {
        let thread = match visit {
            Visit::Enter(thread) => thread,
            Visit::Leave(left) => {
                lasts.leave(left)?;
                continue;
            }
        };
        if !pass.last_visited.try_visit(thread.number, source.offset) {
            continue;
        }
        pass.followed = pass.followed.saturating_add(1);
        enter(grammar, source, log, &mut pass.frames, thread, todo)?;
    }
    Ok(())
}

// Pushes the threads after the steps, the first on top. Empties the list of steps.
fn push_firsts<'a, A: Allocator>(
    token_steps: &mut Vec<TokenStep<'a, A>, A>,
    stack: &mut Vec<Thread<'a, A>, A>,
) -> Result<(), AllocError>
    ensures { OnOk result (stack.new.items
        ≡ stack.old.items ++ reverse (map thread_after token_steps.old.items)) }
{
    while let Some(step) = token_steps.pop() {
        stack.push(step.after)?;
    }
    Ok(())
}

// Pushes the threads after the steps, to be entered, the first on top. Empties the list of steps.
fn push_lasts<'a, A: Allocator>(
    token_steps: &mut Vec<TokenStep<'a, A>, A>,
    stack: &mut Vec<Visit<'a, A>, A>,
) -> Result<(), AllocError>
    ensures { OnOk result (stack.new.items
        ≡ stack.old.items ++ reverse (map visit_after token_steps.old.items)) }
{
    while let Some(step) = token_steps.pop() {
        stack.push(Visit::Enter(step.after))?;
    }
    Ok(())
}

// Collects what the threads on the stack use. All of them are to be entered.
fn live_visits<A: Allocator + Copy>(
    visits: &[Visit<'_, A>],
    live: &mut LiveThreads<A>,
) -> Result<(), AllocError> {
    for visit in visits {
        match visit {
            Visit::Enter(thread) => live.thread(thread)?,
            Visit::Leave(_) => {}
        }
    }
    Ok(())
}

// Returns the stack in another log. `None` if that log lacks something that a thread uses.
fn moved_visits<'a, A: Allocator + Copy>(
    alloc: A,
    moved: &CompactedThreads<'a, A>,
    visits: &[Visit<'a, A>],
) -> Result<Option<Vec<Visit<'a, A>, A>>, AllocError>
    ensures { IfOk result (λ m. IfSome m (λ vs.
        Each (CarriesVisit moved.now) visits.now vs.items)) }
{
    let mut entered = Vec::new(alloc);
    for visit in visits {
        let Visit::Enter(thread) = visit else {
            return Ok(None);
        };
        let Some(next) = moved.thread(thread) else {
            return Ok(None);
        };
        entered.push(Visit::Enter(next))?;
    }
    Ok(Some(entered))
}

impl<'a, A: Allocator + Copy> ReportPass<'a, A> {
    // Returns what is live, if these threads are still to be followed.
    fn live(
        &self,
        alloc: A,
        firsts: &[Thread<'a, A>],
        lasts: &[Visit<'a, A>],
    ) -> Result<LiveThreads<A>, AllocError> {
        let mut live = LiveThreads::new(alloc, self.frames.len())?;
        live.threads(firsts)?;
        live_visits(lasts, &mut live)?;
        live.rest(&self.frames, &self.report)?;
        Ok(live)
    }

    // Replaces the log and the open items by what is live, if that is much less.
    #[inline(never)]
    fn compact(
        &mut self,
        alloc: A,
        log: &mut BindingLog<'a, A>,
        firsts: &mut Vec<Thread<'a, A>, A>,
        lasts: &mut Vec<Visit<'a, A>, A>,
        extent: LogSize,
    ) -> Result<(), AllocError>
        ensures firsts { OnOk result (ThreadsStay log.old log.new self.old.frames.items
            self.new.frames.items firsts.old.items firsts.new.items) }
        ensures lasts { OnOk result (VisitsStay log.old log.new self.old.frames.items
            self.new.frames.items lasts.old.items lasts.new.items) }
        ensures report { OnOk result (ReportStays log.old log.new self.old.report self.new.report) }
        ensures start { OnOk result (StartStays extent log.old log.new) }
        ensures first_visited { OnOk result (self.new.first_visited ≡ self.old.first_visited) }
        ensures last_visited { OnOk result (self.new.last_visited ≡ self.old.last_visited) }
    {
        let live = self.live(alloc, firsts, lasts)?;
        let Some(moved) = CompactedThreads::new(alloc, log, &self.frames, extent, &live)? else {
            return Ok(());
        };
        let Some(first) = moved.threads(alloc, firsts)? else {
            return Ok(());
        };
        let Some(last) = moved_visits(alloc, &moved, lasts)? else {
            return Ok(());
        };
        if !self.report.relocate(&moved.moves) {
            return Ok(());
        }
        *firsts = first;
        *lasts = last;
        self.frames = moved.frames;
        *log = moved.log;
        Ok(())
    }

    // Compacts the pass after an offset, if enough threads were followed.
    #[inline(always)]
    fn compact_if_due(
        &mut self,
        alloc: A,
        log: &mut BindingLog<'a, A>,
        firsts: &mut Vec<Thread<'a, A>, A>,
        lasts: &mut Vec<Visit<'a, A>, A>,
        room: &mut CompactionBudget,
    ) -> Result<(), AllocError>
        ensures firsts { OnOk result (ThreadsStay log.old log.new self.old.frames.items
            self.new.frames.items firsts.old.items firsts.new.items) }
        ensures lasts { OnOk result (VisitsStay log.old log.new self.old.frames.items
            self.new.frames.items lasts.old.items lasts.new.items) }
        ensures report { OnOk result (ReportStays log.old log.new self.old.report self.new.report) }
        ensures start { OnOk result (StartStays room.old.extent log.old log.new) }
        ensures extent { OnOk result (room.new.extent ≡ room.old.extent) }
        ensures first_visited { OnOk result (self.new.first_visited ≡ self.old.first_visited) }
        ensures last_visited { OnOk result (self.new.last_visited ≡ self.old.last_visited) }
    {
        if room.is_over(self.followed) {
            self.compact(alloc, log, firsts, lasts, room.extent)?;
            self.followed = 0;
            room.grow(log, &self.frames);
        }
        Ok(())
    }
}

// Returns the report of all threads, up to the offset where the match stops. `AllocError` if out of
// memory.
pub(crate) fn report_up_to<'a, A: Allocator + Copy, G: FragmentGrammar>(
    alloc: A,
    grammar: &G,
    pattern: &'a MetaTemplate<A>,
    argument: TokenTreesView<'a, A>,
    stop: usize,
    log: &mut BindingLog<'a, A>,
) -> Result<MatchReport<'a, A>, AllocError>
    requires checked { Checked (template_of pattern.now) }
    requires stop { IsStop (G.grammar grammar.now) (template_of pattern.now)
        (trees argument) stop }
    ensures report { IfOk result (IsFullReport (G.grammar grammar.now) (template_of pattern.now)
        (trees argument.entry) log.new stop) }
    ensures kept { OnOk result (KeepsHandles log.old log.new) }
{
    let state_count = count_states(&pattern.0).ok_or(AllocError)?;
    let mut room = CompactionBudget::new(log);
    let mut pass = ReportPass::new(alloc, state_count)?;
    let thread = at_start(pattern, state_count, log)?;
    let mut firsts = Vec::new(alloc);
    firsts.push(thread.again())?;
    let mut lasts = Vec::new(alloc);
    lasts.push(Visit::Enter(thread))?;
    let mut first = FirstThreads::new(alloc);
    let mut last = LastThreads::new(alloc);
    let mut source = Source::new(alloc, argument);
    loop {
        follow_firsts(grammar, &source, log, &mut pass, &mut firsts, &mut first)?;
        follow_lasts(grammar, &source, log, &mut pass, &mut lasts, &mut last)?;
        pass.finish_offset(&source, last.failed.take(), &first.ends);
        if source.offset == stop {
            return Ok(pass.report);
        }
        source = after_step(source, &first.token_steps[0])?;
        push_firsts(&mut last.token_steps, &mut firsts)?;
        push_lasts(&mut first.token_steps, &mut lasts)?;
        pass.compact_if_due(alloc, log, &mut firsts, &mut lasts, &mut room)?;
    }
}
