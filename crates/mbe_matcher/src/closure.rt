// The epsilon closure of the threads at one offset.
ghost use Rattle.std.specs.Prelude.{◌≡◌, ◌+◌, ◌++◌, ◌≤◌, [], false, length, option_to_list, IfOk};
ghost use Rattle.std.specs.Prelude.{OnOk};
ghost use Rattle.mbe_semantics.specs.Bindings.Account.{Log};
ghost use Rattle.mbe_threads.specs.VisitCounts.{NoVisitsFrom};
ghost use Rattle.mbe_matcher.specs.MatchState.{KeepsMatchState};
ghost use Rattle.mbe_matcher.specs.MatchResults.{IsStackAt, states_in};
ghost use Rattle.mbe_matcher.specs.Reports.{IsReportOf, MakesFrontier};
ghost use Rattle.mbe_matcher.specs.Failures.{no_notes};
ghost use Rattle.mbe_tt.specs.Trees.Tree.{Forest};

use crate::match_report::MatchReport;
use crate::steps::steps;
use mbe_log::log::{BindingLog, Handle, again};
use mbe_threads::source::Source;
use mbe_threads::thread::{ThreadFrame, ThreadStack, TokenStep};
use mbe_threads::visit_counts::VisitCounts;
use mbe_tt::grammar::FragmentGrammar;
use smallvec::SmallVec;
use std::alloc::{AllocError, Allocator, Global};
use std::default::MadeWith;

// The closure's result: how its threads go on from the offset.
#[derive(Drop)]
pub(crate) struct Frontier<'a, 's, A: Allocator = Global> {
    // The steps over tokens, in the order in which the threads were followed.
    pub(crate) token_steps: SmallVec<TokenStep<'a, A>, 2, &'s A>,
    // What the threads at the pattern's end have bound.
    pub(crate) ends: SmallVec<Handle, 2, &'s A>,
}

impl<'a, 's, A: Allocator> Frontier<'a, 's, A> {
    // Returns an empty result.
    pub(crate) fn new(alloc: &'s A) -> Frontier<'a, 's, A>
        ensures token_steps { result.token_steps.items ≡ [] }
        ensures ends { result.ends.items ≡ [] }
    {
        Frontier {
            token_steps: SmallVec::new(alloc),
            ends: SmallVec::new(alloc),
        }
    }
}

// What a match keeps from offset to offset, beside the log.
#[derive(Drop)]
pub(crate) struct MatchState<'a, A: Allocator = Global> {
    // The open groups and repetitions around the threads.
    pub(crate) frames: Vec<ThreadFrame<'a, A>, A>,
    pub(crate) counts: VisitCounts<A>,
    pub(crate) report: MatchReport<'a, A>,
    // Whether a third thread of a state was dropped at some offset. While this is false, the match
    // follows all threads.
    pub(crate) has_dropped: bool,
    // How many threads were followed since the match last tried to compact.
    pub(crate) followed: usize,
}

impl<'a, A: Allocator + Copy> MatchState<'a, A> {
    // Returns the state at the start of a match, for a pattern with `state_count` states.
    pub(crate) fn new(alloc: A, state_count: usize) -> Result<MatchState<'a, A>, AllocError>
        ensures size { IfOk result (λ s. states_in s ≡ state_count) }
        ensures no_visits { IfOk result (λ s. NoVisitsFrom s.counts.marks.items 0) }
        ensures notes { (log : Log) (f : Forest)
            → IfOk result (λ s. IsReportOf log f s.report [] no_notes) }
        ensures dropped { IfOk result (λ s. s.has_dropped ≡ false) }
    {
        Ok(MatchState {
            frames: Vec::new(alloc),
            counts: VisitCounts::new(alloc, state_count)?,
            report: MatchReport::new(),
            has_dropped: false,
            followed: 0,
        })
    }
}

// Pushes the value, if there is one.
#[inline(always)]
fn push_some<T: MadeWith<A> + Drop, const N: usize, A: Allocator + Copy>(
    values: &mut SmallVec<T, N, A>,
    value: Option<T>,
) -> Result<(), AllocError>
    ensures { OnOk result (values.new.items ≡ values.old.items ++ option_to_list value) }
{
    let Some(value) = value else {
        return Ok(());
    };
    values.push(value)?;
    Ok(())
}

// Follows all epsilon steps of the threads, the last thread first. It empties the stack. It follows
// at most two threads of a state: a third one leads to no other verdict. The result overwrites the
// previous one, and so uses its memory again.
pub(crate) fn follow_epsilons<'a, A: Allocator + Copy, G: FragmentGrammar>(
    grammar: &G,
    source: &Source<'a, A>,
    log: &mut BindingLog<'a, A>,
    state: &mut MatchState<'a, A>,
    todo: &mut ThreadStack<'a, '_, A>,
    frontier: &mut Frontier<'a, '_, A>,
) -> Result<(), AllocError>
    requires stack { IsStackAt (G.grammar grammar.now) source.now log.old state.old todo.old.items }
    requires no_visits { NoVisitsFrom state.old.counts.marks.items source.now.offset }
    ensures frontier { (s : IsStackAt (G.grammar grammar.now) source.now
        log.old state.old todo.old.items) → OnOk result (MakesFrontier (G.grammar grammar.now)
        source.now s.pattern s.thread_stack log.old log.new state.old state.new frontier.new) }
    ensures few { OnOk result (length frontier.new.token_steps.items + length
        frontier.new.ends.items
        ≤ states_in state.old + states_in state.old) }
    ensures kept { OnOk result (KeepsMatchState log.old log.new state.old state.new) }
    ensures no_visits { OnOk result
        (NoVisitsFrom state.new.counts.marks.items (source.now.offset + 1)) }
    ensures size { OnOk result (states_in state.new ≡ states_in state.old) }
    ensures done { OnOk result (todo.new.items ≡ []) }
{
    frontier.token_steps.clear();
    frontier.ends.clear();
    while let Some(thread) = todo.pop() {
        if !state.counts.try_visit(thread.number, source.offset) {
            state.has_dropped = true;
            continue;
        }
        state.followed = state.followed.saturating_add(1);
        let tail = thread.tail;
        let handle = again(&thread.handle);
        let found = steps(grammar, source, log, &mut state.frames, thread)?;
        state
            .report
            .note_thread(source, tail, handle, found.is_some());
        push_some(todo, found.second)?;
        push_some(todo, found.first)?;
        push_some(&mut frontier.token_steps, found.next)?;
        push_some(&mut frontier.ends, found.done)?;
    }
    state.report.finish_offset(&frontier.ends);
    Ok(())
}
