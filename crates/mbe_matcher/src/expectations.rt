// What a pattern expects at the offset where a match stops.
//
// The threads run from offset to offset, as in the first pass. At the offset where they stop, this
// module follows them once more, two of each state, and collects what each one expects next. Every
// state that a partial reading has at the offset is among them, so the list is complete. There are
// two threads of a state if there are two partial readings, so the list also has both steps of a
// local ambiguity.
ghost use Rattle.std.specs.Prelude.{◌≡◌, map, option_map, is_some, IfOk, OnOk};
ghost use Rattle.mbe_tt.specs.Views.View.{trees};
ghost use Rattle.mbe_semantics.specs.Bindings.Account.{Log};
ghost use Rattle.mbe_semantics.specs.Syntax.Nullable.{Checked};
ghost use Rattle.mbe_semantics.specs.Readings.Input.{input_of};
ghost use Rattle.mbe_semantics.specs.Readings.Verdict.{IsVerdict, stop_of};
ghost use Rattle.mbe_semantics.specs.Syntax.Op.{no_ops};
ghost use Rattle.mbe_semantics.specs.Matching.States.{state_count};
ghost use Rattle.mbe_semantics.specs.Matching.ThreadModel.{ThreadModel};
ghost use Rattle.mbe_log.specs.HandleChanges.{KeepsHandles};
ghost use Rattle.mbe_ops.specs.Views.{op_of, ops_of, separator_seen, template_of};
ghost use Rattle.mbe_matcher.specs.Threads.{IsThread, Shows};
ghost use Rattle.mbe_matcher.specs.MatchResults.{IsStack, verdict_seen};
ghost use Rattle.mbe_matcher.specs.Reports.{IsFresh};
ghost use Rattle.mbe_threads.specs.Stops.{verdict_in};
ghost use Rattle.mbe_matcher.specs.Expected.{AreContinuations, AreContinuationsAt, AreExpected};
ghost use Rattle.mbe_matcher.specs.Expected.{HasAmbiguousPair, expected_seen, pair_seen};
ghost use Rattle.mbe_matcher.specs.Expected.{next_step_seen, thread_expects, read_next};
ghost use Rattle.mbe_matcher.specs.Expected.{before_round, are_ambiguous, ambiguous_with};
ghost use Rattle.mbe_matcher.specs.Expected.{first_ambiguity, next_in};

use crate::closure::{Frontier, MatchState, follow_epsilons};
use crate::compaction::CompactionBudget;
use crate::empty_repetition::count_states;
use crate::matcher::{Verdict, verdict_of};
use crate::simulation::{advance_all, at_start};
use crate::steps::{push_some, steps};
use mbe_log::log::BindingLog;
use mbe_ops::ops::{MetaTemplate, Op, Separator};
use mbe_semantics::fragment_kinds::RepeatKind;
use mbe_threads::source::Source;
use mbe_threads::stops::{Stop, stop_reason};
use mbe_threads::thread::{Thread, ThreadFrame, ThreadStack, TokenStep};
use mbe_threads::visit_counts::VisitCounts;
use mbe_tt::grammar::FragmentGrammar;
use mbe_tt::tt::TokenTreesView;
use std::alloc::{AllocError, Allocator, Global};

/// What a pattern expects after a partial reading. Clauses see it by `expected_seen`.
#[derive_where(Clone, Copy, Debug)]
pub enum Expected<'a, A: Allocator = Global> {
    /// The argument's end.
    End,
    /// The end of a group.
    Closing,
    /// A separator, and another round of its repetition.
    Separator(&'a Separator<A>),
    /// A token, a variable or a group.
    Op(&'a Op<A>),
}

/// What a pattern expects where a match of an argument stops.
#[derive(Drop)]
pub struct Expectations<'a, A: Allocator = Global> {
    /// The verdict, as a match returns it.
    pub verdict: Verdict,
    /// What is expected after the partial readings that end at the verdict's offset. An item may be
    /// listed twice.
    pub expected: Vec<Expected<'a, A>, A>,
    /// The two items of a local ambiguity. `None` for the other verdicts.
    pub ambiguity: Option<(Expected<'a, A>, Expected<'a, A>)>,
}

// A step over tokens.
#[derive(Clone, Copy)]
struct StepWidth {
    width: usize,
    by_fragment: bool,
}

// How a thread continues: what it expects next, and its step over tokens, if it has one.
#[derive(Drop)]
struct NextStep<'a, A: Allocator = Global> {
    next: Option<Expected<'a, A>>,
    step: Option<StepWidth>,
}

// The stop of the threads, and the next step of each thread of the closure there.
#[derive(Drop)]
struct StopContinuations<'a, A: Allocator = Global> {
    stop: Stop,
    next_steps: Vec<NextStep<'a, A>, A>,
}

/// Returns the op as an expected item. `None` for a repetition, which a thread goes into or past.
#[tactic(auto, using(mbe_ops::proofs::OpViews::views))]
pub(crate) fn op_next<A: Allocator>(op: &Op<A>) -> Option<Expected<'_, A>>
    ensures { option_map expected_seen result ≡ read_next (op_of op.now) }
{
    match op {
        Op::Var { .. } | Op::Subtree { .. } => Some(Expected::Op(op)),
        Op::Literal(_) | Op::Ident(_) | Op::Punct(_) => Some(Expected::Op(op)),
        Op::Repeat { .. } => None,
        Op::Expression(_) => None,
    }
}

/// Returns the separator that is expected after a round. `None` without a separator, or if no other
/// round may follow.
pub(crate) fn round_next<A: Allocator>(
    kind: RepeatKind,
    separator: Option<&Separator<A>>,
) -> Option<Expected<'_, A>>
    ensures { option_map expected_seen result
        ≡ before_round kind (option_map (λ s. separator_seen s.now) separator.entry) }
{
    match (kind, separator) {
        (RepeatKind::ZeroOrOne, _) | (_, None) => None,
        (_, Some(separator)) => Some(Expected::Separator(separator)),
    }
}

// Returns what is expected at the end of a body: the pattern's, a group's or a repetition's.
fn end_next<'a, A: Allocator>(
    thread: &Thread<'a, A>,
    frames: &[ThreadFrame<'a, A>],
) -> Option<Expected<'a, A>>
    requires placed { (log : Log) × IsThread log frames.now thread.now }
    requires tail { ops_of thread.now.tail.now ≡ no_ops }
    ensures { (log : Log) (o : ThreadModel) → Shows log frames.now thread.now o
        → option_map expected_seen result ≡ thread_expects o }
{
    let Some(open) = thread.up else {
        return Some(Expected::End);
    };
    let frame = &frames[open];
    match &frame.rounds {
        None => Some(Expected::Closing),
        Some(rounds) => round_next(rounds.kind, rounds.separator),
    }
}

// Returns what a thread expects next.
fn next_after<'a, A: Allocator>(
    thread: &Thread<'a, A>,
    frames: &[ThreadFrame<'a, A>],
) -> Option<Expected<'a, A>>
    requires { (log : Log) × IsThread log frames.now thread.now }
    ensures { (log : Log) (o : ThreadModel) → Shows log frames.now thread.now o
        → option_map expected_seen result ≡ thread_expects o }
{
    match thread.tail {
        [] => end_next(thread, frames),
        [op, ..] => op_next(op),
    }
}

// Returns a step's width, and whether it consumes a fragment.
fn step_of<A: Allocator>(token_steps: Option<&TokenStep<'_, A>>) -> Option<StepWidth>
    ensures { result ≡ option_map (λ w. record {
      width = w.now.width;
      by_fragment = is_some w.now.beyond;
    }) token_steps.entry }
{
    let token_steps = token_steps?;
    Some(StepWidth {
        width: token_steps.width,
        by_fragment: token_steps.beyond.is_some(),
    })
}

// Returns how the threads of the closure go on at the offset: two of each state. `todo` are the
// threads that came to the offset.
fn continuations_at<'a, A: Allocator + Copy, G: FragmentGrammar>(
    alloc: A,
    grammar: &G,
    source: &Source<'a, A>,
    log: &mut BindingLog<'a, A>,
    frames: &mut Vec<ThreadFrame<'a, A>, A>,
    number: usize,
    todo: &mut Vec<Thread<'a, A>, A>,
) -> Result<Vec<NextStep<'a, A>, A>, AllocError>
    requires { IsStack (input_of (G.grammar grammar.now) (trees source.now.whole)) source.now.offset
        number log.old frames.old.items todo.old.items }
    ensures next_steps { (s : IsStack (input_of (G.grammar grammar.now) (trees source.now.whole))
        source.now.offset number log.old frames.old.items todo.old.items)
        → IfOk result (λ next_steps. AreContinuationsAt (input_of (G.grammar grammar.now)
        (trees source.now.whole)) source.now.offset s next_steps.items) }
    ensures kept { OnOk result (KeepsHandles log.old log.new) }
{
    let mut counts = VisitCounts::new(alloc, number)?;
    let mut next_steps = Vec::new(alloc);
    while let Some(thread) = todo.pop() {
        if !counts.try_visit(thread.number, source.offset) {
            continue;
        }
        let next = next_after(&thread, frames);
        let found = steps(grammar, source, log, frames, thread)?;
        next_steps.push(NextStep {
            next,
            step: step_of(found.next.as_ref()),
        })?;
        push_some(todo, found.second)?;
        push_some(todo, found.first)?;
    }
    Ok(next_steps)
}

// Returns a copy of the stack.
fn copy_stack<'a, A: Allocator + Copy>(
    alloc: A,
    stack: &[Thread<'a, A>],
) -> Result<Vec<Thread<'a, A>, A>, AllocError>
    ensures { IfOk result (λ copy. copy.items ≡ stack.now) }
{
    let mut copy = Vec::new(alloc);
    for thread in stack {
        copy.push(thread.again())?;
    }
    Ok(copy)
}

// Runs the pattern's threads from offset to offset until they stop. Returns where they stop, and
// how they go on there. The caller owns all memory, so an allocation failure has nothing to drop.
fn run_to_stop<'a, A: Allocator + Copy, G: FragmentGrammar>(
    alloc: A,
    grammar: &G,
    pattern: &'a MetaTemplate<A>,
    argument: TokenTreesView<'a, A>,
    log: &mut BindingLog<'a, A>,
    state: &mut MatchState<'a, A>,
    todo: &mut ThreadStack<'a, '_, A>,
    frontier: &mut Frontier<'a, '_, A>,
) -> Result<StopContinuations<'a, A>, AllocError>
    requires checked { Checked (template_of pattern.now) }
    requires fresh { IsFresh (state_count (template_of pattern.now)) state.old todo.old.items }
    ensures verdict { IfOk result (λ r. IsVerdict (G.grammar grammar.now) (template_of pattern.now)
        (trees argument.entry) (verdict_in r.stop)) }
    ensures next_steps { IfOk result
        (λ r. AreContinuations (input_of (G.grammar grammar.now) (trees argument.entry))
        (template_of pattern.now) (stop_of (trees argument.entry) (verdict_in r.stop))
        (verdict_in r.stop) r.next_steps.items) }
{
    let mut room = CompactionBudget::new(log);
    let number = state.counts.marks.len();
    let thread = at_start(pattern, number, log)?;
    todo.push(thread)?;
    let mut source = Source::new(alloc, argument);
    loop {
        let mut stack = copy_stack(alloc, todo.as_slice())?;
        follow_epsilons(grammar, &source, log, state, todo, frontier)?;
        if let Some(stop) = stop_reason(&source, &frontier.token_steps, &frontier.ends) {
            let frames = &mut state.frames;
            let next_steps = continuations_at(
                alloc, grammar, &source, log, frames, number, &mut stack,
            )?;
            return Ok(StopContinuations { stop, next_steps });
        }
        let step = &frontier.token_steps[0];
        let token_steps = &frontier.token_steps;
        source = advance_all(
            alloc,
            source,
            step,
            token_steps,
            log,
            state,
            todo,
            &mut room,
        )?;
    }
}

// Returns where the match stops, and how the threads go on there. `AllocError` if out of memory.
fn continuations_at_stop<'a, A: Allocator + Copy, G: FragmentGrammar>(
    alloc: A,
    grammar: &G,
    pattern: &'a MetaTemplate<A>,
    argument: TokenTreesView<'a, A>,
    log: &mut BindingLog<'a, A>,
) -> Result<StopContinuations<'a, A>, AllocError>
    requires { Checked (template_of pattern.now) }
    ensures verdict { IfOk result (λ r. IsVerdict (G.grammar grammar.now) (template_of pattern.now)
        (trees argument.entry) (verdict_in r.stop)) }
    ensures next_steps { IfOk result
        (λ r. AreContinuations (input_of (G.grammar grammar.now) (trees argument.entry))
        (template_of pattern.now) (stop_of (trees argument.entry) (verdict_in r.stop))
        (verdict_in r.stop) r.next_steps.items) }
{
    let number = count_states(&pattern.0).ok_or(AllocError)?;
    let mut state = MatchState::new(alloc, number)?;
    let mut todo = ThreadStack::new(&alloc);
    let mut frontier = Frontier::new(&alloc);
    run_to_stop(
        alloc,
        grammar,
        pattern,
        argument,
        log,
        &mut state,
        &mut todo,
        &mut frontier,
    )
}

// Whether two steps are a local ambiguity. They aren't if there is no second step.
fn are_ambiguous(step: StepWidth, other: Option<StepWidth>) -> bool
    ensures { result ≡ are_ambiguous step other }
{
    match other {
        None => false,
        Some(other) => step.by_fragment || other.by_fragment || step.width != other.width,
    }
}

// Returns this step's item, and the item of the first other step that makes a local ambiguity with
// it. `next` is this step's item.
fn ambiguous_with<'a, A: Allocator>(
    step: StepWidth,
    next: Option<Expected<'a, A>>,
    others: &[NextStep<'a, A>],
) -> Option<(Expected<'a, A>, Expected<'a, A>)>
    ensures { option_map pair_seen result
        ≡ ambiguous_with step (option_map expected_seen next.entry) (map next_step_seen others.now) }
{
    for other in others {
        if are_ambiguous(step, other.step) {
            return next.zip(other.next);
        }
    }
    None
}

// Returns the items of two steps that are a local ambiguity, if there is one.
fn first_ambiguity<'a, A: Allocator>(
    next_steps: &[NextStep<'a, A>],
) -> Option<(Expected<'a, A>, Expected<'a, A>)>
    ensures { option_map pair_seen result ≡ first_ambiguity (map next_step_seen next_steps.now) }
{
    let (next_step, rest) = next_steps.split_first()?;
    match next_step.step {
        Some(step) => ambiguous_with(step, next_step.next, rest),
        None => first_ambiguity(rest),
    }
}

// Returns all expected items.
fn next_in<'a, A: Allocator + Copy>(
    alloc: A,
    next_steps: &[NextStep<'a, A>],
) -> Result<Vec<Expected<'a, A>, A>, AllocError>
    ensures { IfOk result (λ ws. map expected_seen ws.items
        ≡ next_in (map next_step_seen next_steps.now)) }
{
    let mut expected = Vec::new(alloc);
    for next_step in next_steps {
        push_some(&mut expected, next_step.next)?;
    }
    Ok(expected)
}

/// Returns what a checked pattern expects where a match of the whole argument stops. `AllocError`
/// if out of memory.
///
/// The match stops at a local ambiguity, where it is stuck, or at the argument's end. `expected`
/// has
/// everything that a partial reading expects there, and nothing else. `ambiguity` has the two items
/// of
/// a local ambiguity.
pub fn expectations_of<'a, A: Allocator + Copy, G: FragmentGrammar>(
    alloc: A,
    grammar: &G,
    pattern: &'a MetaTemplate<A>,
    argument: TokenTreesView<'a, A>,
    log: &mut BindingLog<'a, A>,
) -> Result<Expectations<'a, A>, AllocError>
    requires { Checked (template_of pattern.now) }
    ensures verdict { IfOk result (λ w. IsVerdict (G.grammar grammar.now) (template_of pattern.now)
        (trees argument.entry) (verdict_seen w.verdict)) }
    ensures expected { IfOk result
        (λ w. AreExpected (G.grammar grammar.now) (template_of pattern.now)
        (trees argument.entry) (verdict_seen w.verdict) (map expected_seen w.expected.items)) }
    ensures ambiguity { IfOk result
        (λ w. HasAmbiguousPair (G.grammar grammar.now) (template_of pattern.now)
        (trees argument.entry) (verdict_seen w.verdict) (option_map pair_seen w.ambiguity)) }
{
    let at_stop = continuations_at_stop(alloc, grammar, pattern, argument, log)?;
    Ok(Expectations {
        verdict: verdict_of(&at_stop.stop),
        expected: next_in(alloc, &at_stop.next_steps)?,
        ambiguity: first_ambiguity(&at_stop.next_steps),
    })
}
