// The steps of a thread at one offset.
ghost use Rattle.std.specs.Prelude.{ℕ, ◌≡◌, ◌≤◌, ◌<◌, ◌+◌, ◌++◌, List, IfOk, OnOk, IsSome, IfSome};
ghost use Rattle.std.specs.Prelude.{Some, None, option_map, option_to_list};
ghost use Rattle.mbe_tt.specs.Trees.Tree.{flat_len};
ghost use Rattle.mbe_tt.specs.Views.View.{trees};
ghost use Rattle.mbe_semantics.specs.Bindings.Account.{Log, Account, IsAccount, HasEntriesOf};
ghost use Rattle.mbe_semantics.specs.Syntax.Op.{op as op_then, group, variable, repetition, no_ops};
ghost use Rattle.mbe_semantics.specs.Matching.States.{state_count};
ghost use Rattle.mbe_tt.specs.declared.span.Span.{Span};
ghost use Rattle.mbe_tt.specs.Grammars.Grammar.{Grammar};
ghost use Rattle.mbe_ops.specs.Views.{op_of, ops_of, separator_seen};
ghost use Rattle.mbe_threads.specs.declared.thread.ThreadFrame.{ThreadFrame};
ghost use Rattle.mbe_matcher.specs.MatchResults.{IsStackOf};
ghost use Rattle.mbe_matcher.specs.Threads.{IsThread, IsPlain, Keeps, GivesSteps, GivesStepsIn};
ghost use Rattle.mbe_matcher.specs.Threads.{GivesStepsOver, GivesStepsFor, GivesRoundSteps};
ghost use Rattle.mbe_matcher.specs.Threads.{GivesClosingSteps, GivesAlone, AreStepsOf};
ghost use Rattle.mbe_matcher.specs.Threads.{IsAtMostOver, IsSkip, over_steps};
ghost use Rattle.mbe_matcher.specs.Reports.{StepsAlone};

use crate::consumers::eat_fragment;
use crate::empty_repetition::skip_ops;
use crate::token_widths::{between_width, opens, token_width};
use mbe_log::fragment::fragment_of_kind;
use mbe_log::log::{BindingLog, again, empty_handle};
use mbe_ops::ops::{Op, Separator};
use mbe_semantics::fragment_kinds::{MetaVarKind, RepeatKind};
use mbe_threads::source::Source;
use mbe_threads::thread::{OpenRepetition, Steps, Thread, ThreadFrame, TokenStep};
use mbe_tt::grammar::{Dialect, FragmentGrammar};
use mbe_tt::symbol::Symbol;
use mbe_tt::tt::{Delimiter, TtIter};
use std::alloc::{AllocError, Allocator};

// Returns all steps of the thread at the source's offset. `AllocError` if out of memory.
#[inline(always)]
pub(crate) fn steps<'a, A: Allocator + Copy, G: FragmentGrammar>(
    grammar: &G,
    source: &Source<'a, A>,
    log: &mut BindingLog<'a, A>,
    frames: &mut Vec<ThreadFrame<'a, A>, A>,
    thread: Thread<'a, A>,
) -> Result<Steps<'a, A>, AllocError>
    requires { IsThread log.old frames.old.items thread }
    ensures { GivesSteps (G.grammar grammar.now) source.now log.old log.new
        frames.old.items frames.new.items thread.entry result }
{
    match thread.tail {
        [] => end_steps(grammar.dialect(), source, log, frames, thread),
        [op, rest @ ..] => op_steps(grammar, source, log, frames, op, rest, thread),
    }
}

// Returns the steps of a thread before an op. `rest` are the ops after it.
#[tactic(auto, using(mbe_ops::proofs::OpViews::views))]
#[inline(always)]
fn op_steps<'a, A: Allocator + Copy, G: FragmentGrammar>(
    grammar: &G,
    source: &Source<'a, A>,
    log: &mut BindingLog<'a, A>,
    frames: &mut Vec<ThreadFrame<'a, A>, A>,
    op: &'a Op<A>,
    rest: &'a [Op<A>],
    thread: Thread<'a, A>,
) -> Result<Steps<'a, A>, AllocError>
    requires placed { IsThread log.old frames.old.items thread }
    requires tail { ops_of thread.tail.now ≡ op_then (op_of op.now) (ops_of rest.now) }
    ensures { GivesSteps (G.grammar grammar.now) source.now log.old log.new
        frames.old.items frames.new.items thread.entry result }
{
    match op {
        Op::Var { name, kind, .. } => {
            variable_steps(grammar, source, log, name, *kind, rest, thread)
        }
        Op::Subtree { tokens, delimiter } => {
            let dialect = grammar.dialect();
            group_steps(
                dialect,
                source,
                frames,
                delimiter.get(),
                &tokens.0,
                rest,
                thread,
            )
        }
        Op::Repeat {
            tokens,
            kind,
            separator,
        } => {
            let separator = separator.as_ref();
            repetition_steps(log, frames, &tokens.0, separator, *kind, rest, thread)
        }
        Op::Literal(_) | Op::Ident(_) | Op::Punct(_) => {
            Ok(plain_steps(grammar.dialect(), source, op, rest, thread))
        }
        // No metavariable expression is in a pattern.
        Op::Expression(_) => Ok(plain_steps(grammar.dialect(), source, op, rest, thread)),
    }
}

#[inline(always)]
fn no_steps<'a, A: Allocator>() -> Steps<'a, A>
    ensures { result ≡ record { first = None; second = None; next = None; done = None } }
{
    Steps {
        first: None,
        second: None,
        next: None,
        done: None,
    }
}

// Returns epsilon steps alone.
#[inline(always)]
fn epsilons<'a, A: Allocator>(
    first: Option<Thread<'a, A>>,
    second: Option<Thread<'a, A>>,
) -> Steps<'a, A>
    ensures { result
        ≡ record { first = first.entry; second = second.entry; next = None; done = None } }
{
    Steps {
        first,
        second,
        next: None,
        done: None,
    }
}

// Returns one step over `width` flat tokens: an epsilon step if there are none. If the tokens are a
// fragment, `beyond` is the rest of the innermost group after them.
#[inline(always)]
fn over<'a, A: Allocator>(
    width: usize,
    beyond: Option<TtIter<'a, A>>,
    after: Thread<'a, A>,
) -> Steps<'a, A>
    ensures { result ≡ over_steps width beyond.entry after.entry }
{
    if width == 0 {
        return Steps {
            first: Some(after),
            second: None,
            next: None,
            done: None,
        };
    }
    let next = TokenStep {
        width,
        beyond,
        after,
    };
    Steps {
        first: None,
        second: None,
        next: Some(next),
        done: None,
    }
}

// Returns the step over a token of the pattern.
#[inline(always)]
fn plain_steps<'a, A: Allocator>(
    dialect: Dialect,
    source: &Source<'a, A>,
    op: &Op<A>,
    rest: &'a [Op<A>],
    thread: Thread<'a, A>,
) -> Steps<'a, A>
    requires plain { IsPlain (op_of op.now) }
    requires tail { ops_of thread.tail.now ≡ op_then (op_of op.now) (ops_of rest.now) }
    requires number { 1 ≤ thread.number }
    ensures steps { AreStepsOf dialect source.now thread.entry result }
    ensures over { IsAtMostOver result }
{
    let Some(width) = token_width(dialect, op, &source.here()) else {
        return no_steps();
    };
    let after = Thread {
        tail: rest,
        number: thread.number - 1,
        up: thread.up,
        handle: thread.handle,
    };
    over(width, None, after)
}

// Returns the step of the only thread, if that is its only step and consumes tokens. Then the
// closure has nothing else to do at this offset, and nothing is to be noted. `None` otherwise.
#[inline(always)]
pub(crate) fn step_alone<'a, A: Allocator + Copy, G: FragmentGrammar>(
    grammar: &G,
    source: &Source<'a, A>,
    log: &mut BindingLog<'a, A>,
    frames: &mut Vec<ThreadFrame<'a, A>, A>,
    todo: &[Thread<'a, A>],
) -> Result<Option<TokenStep<'a, A>>, AllocError>
    requires stack { (size : ℕ) × IsStackOf (G.grammar grammar.now) source.now size
        log.old frames.old.items todo.now }
    ensures within { IfOk result (λ n. IsSome n
        → source.now.offset < flat_len (trees source.now.whole)) }
    ensures alone { IfOk result (λ n. IfSome n (StepsAlone (G.grammar grammar.now) source.now
        log.old log.new frames.old.items frames.new.items todo.now)) }
    ensures kept { OnOk result (Keeps log.old log.new frames.old.items frames.new.items) }
{
    let [thread] = todo else {
        return Ok(None);
    };
    if source.is_at_end() {
        return Ok(None);
    }
    match thread.tail {
        [] => Ok(end_alone(source, frames, thread.again())),
        [op, rest @ ..] => op_alone(grammar, source, log, frames, op, rest, thread.again()),
    }
}

// Returns the step over an op. A `vis` may match no token, so the closure handles it.
#[tactic(auto, using(mbe_ops::proofs::OpViews::views))]
#[inline(always)]
fn op_alone<'a, A: Allocator + Copy, G: FragmentGrammar>(
    grammar: &G,
    source: &Source<'a, A>,
    log: &mut BindingLog<'a, A>,
    frames: &mut Vec<ThreadFrame<'a, A>, A>,
    op: &'a Op<A>,
    rest: &'a [Op<A>],
    thread: Thread<'a, A>,
) -> Result<Option<TokenStep<'a, A>>, AllocError>
    requires placed { IsThread log.old frames.old.items thread }
    requires tail { ops_of thread.tail.now ≡ op_then (op_of op.now) (ops_of rest.now) }
    ensures { GivesAlone (G.grammar grammar.now) source.now log.old log.new
        frames.old.items frames.new.items thread.entry result }
{
    match op {
        Op::Literal(_) | Op::Ident(_) | Op::Punct(_) => {
            Ok(plain_steps(grammar.dialect(), source, op, rest, thread).next)
        }
        Op::Var {
            kind: Some(MetaVarKind::Vis),
            ..
        } => Ok(None),
        Op::Var { name, kind, .. } => {
            Ok(variable_steps(grammar, source, log, name, *kind, rest, thread)?.next)
        }
        Op::Subtree { tokens, delimiter } => {
            let dialect = grammar.dialect();
            let group = delimiter.get();
            Ok(group_steps(dialect, source, frames, group, &tokens.0, rest, thread)?.next)
        }
        Op::Repeat { .. } | Op::Expression(_) => Ok(None),
    }
}

// Returns the step out of a group.
#[inline(always)]
fn end_alone<'a, A: Allocator>(
    source: &Source<'a, A>,
    frames: &[ThreadFrame<'a, A>],
    thread: Thread<'a, A>,
) -> Option<TokenStep<'a, A>>
    requires placed { (log : Log) × IsThread log frames.now thread }
    requires tail { ops_of thread.tail.now ≡ no_ops }
    ensures { (g : Grammar) (log : Log) → GivesAlone g source.now log log
        frames.now frames.now thread.entry (Ok result) }
{
    let Some(open) = thread.up else {
        return None;
    };
    let frame = &frames[open];
    if frame.rounds.is_some() {
        return None;
    }
    closing_steps(source, frame, thread).next
}

// Returns the step into a group.
#[inline(always)]
fn group_steps<'a, A: Allocator + Copy>(
    dialect: Dialect,
    source: &Source<'a, A>,
    frames: &mut Vec<ThreadFrame<'a, A>, A>,
    delimiter: Delimiter,
    body: &'a [Op<A>],
    rest: &'a [Op<A>],
    thread: Thread<'a, A>,
) -> Result<Steps<'a, A>, AllocError>
    requires tail { ops_of thread.tail.now
        ≡ op_then (group delimiter (ops_of body.now)) (ops_of rest.now) }
    requires number { 1 ≤ thread.number }
    ensures steps { GivesStepsOver dialect source.now
        frames.old.items frames.new.items thread.entry result }
    ensures over { IfOk result IsAtMostOver }
{
    if !opens(dialect, delimiter.kind, &source.here()) {
        return Ok(no_steps());
    }
    let up = Some(frames.len());
    frames.push(ThreadFrame {
        rounds: None,
        rest,
        up: thread.up,
    })?;
    let after = Thread {
        tail: body,
        number: thread.number - 1,
        up,
        handle: thread.handle,
    };
    Ok(over(1, None, after))
}

// Returns the step over the fragment that a variable of the kind matches.
#[inline(always)]
fn variable_steps<'a, A: Allocator + Copy, G: FragmentGrammar>(
    grammar: &G,
    source: &Source<'a, A>,
    log: &mut BindingLog<'a, A>,
    name: &Symbol<A>,
    kind: Option<MetaVarKind>,
    rest: &'a [Op<A>],
    thread: Thread<'a, A>,
) -> Result<Steps<'a, A>, AllocError>
    requires entries { HasEntriesOf log.old thread.handle }
    requires tail { (span : Span) × (ops_of thread.tail.now
        ≡ op_then (variable name.now kind span) (ops_of rest.now)) }
    requires number { 1 ≤ thread.number }
    ensures steps { GivesStepsIn (G.grammar grammar.now) source.now
        log.old log.new thread.entry result }
    ensures over { IfOk result IsAtMostOver }
{
    let mut beyond = source.here();
    let Some(tree) = eat_fragment(grammar, kind, &mut beyond)? else {
        return Ok(no_steps());
    };
    let mut handle = thread.handle;
    let fragment = fragment_of_kind(grammar.dialect(), kind, tree);
    log.push_fragment(&mut handle, name, fragment)?;
    let after = Thread {
        tail: rest,
        number: thread.number - 1,
        up: thread.up,
        handle,
    };
    Ok(over(tree.flat_len(), Some(beyond), after))
}

// Returns the epsilon steps into a repetition and past it.
#[inline(always)]
fn repetition_steps<'a, A: Allocator + Copy>(
    log: &mut BindingLog<'a, A>,
    frames: &mut Vec<ThreadFrame<'a, A>, A>,
    body: &'a [Op<A>],
    separator: Option<&'a Separator<A>>,
    kind: RepeatKind,
    rest: &'a [Op<A>],
    thread: Thread<'a, A>,
) -> Result<Steps<'a, A>, AllocError>
    requires entries { HasEntriesOf log.old thread.handle }
    requires tail { ops_of thread.tail.now ≡ op_then (repetition (ops_of body.now)
        (option_map (λ s. separator_seen s.now) separator) kind) (ops_of rest.now) }
    requires number { 1 + state_count (ops_of body.now) ≤ thread.number }
    ensures { GivesStepsFor log.old log.new
        frames.old.items frames.new.items thread.entry result }
{
    let second = skipped(log, body, kind, rest, &thread)?;
    let handle = empty_handle(&thread.handle);
    let front = thread.number - 1;
    let rounds = OpenRepetition {
        body,
        separator,
        kind,
        front,
        outside: thread.handle,
    };
    let first = Thread {
        tail: body,
        number: front,
        up: Some(frames.len()),
        handle,
    };
    frames.push(ThreadFrame {
        rounds: Some(rounds),
        rest,
        up: thread.up,
    })?;
    Ok(epsilons(Some(first), second))
}

// Returns the thread after a repetition without rounds. `None` if the repetition needs a round.
#[inline(always)]
fn skipped<'a, A: Allocator + Copy>(
    log: &mut BindingLog<'a, A>,
    body: &'a [Op<A>],
    kind: RepeatKind,
    rest: &'a [Op<A>],
    before: &Thread<'a, A>,
) -> Result<Option<Thread<'a, A>>, AllocError>
    requires entries { HasEntriesOf log.old before.now.handle }
    requires number { 1 + state_count (ops_of body.now) ≤ before.now.number }
    ensures { IfOk result (IsSkip kind (ops_of body.now) (ops_of rest.now)
        log.old log.new before.now) }
{
    if let RepeatKind::OneOrMore = kind {
        return Ok(None);
    }
    let mut handle = again(&before.handle);
    let inside = skip_ops(log, body, &mut handle)?;
    Ok(Some(Thread {
        tail: rest,
        number: before.number - 1 - inside,
        up: before.up,
        handle,
    }))
}

// Returns the steps at the end of a group's or a repetition's body, or at the pattern's end.
#[inline(always)]
fn end_steps<'a, A: Allocator + Copy>(
    dialect: Dialect,
    source: &Source<'a, A>,
    log: &mut BindingLog<'a, A>,
    frames: &[ThreadFrame<'a, A>],
    thread: Thread<'a, A>,
) -> Result<Steps<'a, A>, AllocError>
    requires placed { IsThread log.old frames.now thread }
    requires tail { ops_of thread.tail.now ≡ no_ops }
    ensures { (g : Grammar) → g.dialect ≡ dialect → GivesSteps g source.now log.old log.new
        frames.now frames.now thread.entry result }
{
    let Some(open) = thread.up else {
        return Ok(Steps {
            first: None,
            second: None,
            next: None,
            done: Some(thread.handle),
        });
    };
    let frame = &frames[open];
    if let Some(rounds) = &frame.rounds {
        return round_steps(dialect, source, log, frame, rounds, thread);
    }
    Ok(closing_steps(source, frame, thread))
}

// Returns the step out of a group, if the argument's group ends here too.
#[inline(always)]
fn closing_steps<'a, A: Allocator>(
    source: &Source<'a, A>,
    frame: &ThreadFrame<'a, A>,
    thread: Thread<'a, A>,
) -> Steps<'a, A>
    requires group { frame.now.rounds ≡ None }
    requires tail { ops_of thread.tail.now ≡ no_ops }
    requires number { 1 ≤ thread.number }
    ensures steps { GivesClosingSteps source.now frame.now thread.entry result }
    ensures over { IsAtMostOver result }
{
    if !source.is_at_group_end() {
        return no_steps();
    }
    let after = Thread {
        tail: frame.rest,
        number: thread.number - 1,
        up: frame.up,
        handle: thread.handle,
    };
    over(1, None, after)
}

// Returns the steps out of a repetition and into another round.
#[inline(always)]
fn round_steps<'a, A: Allocator + Copy>(
    dialect: Dialect,
    source: &Source<'a, A>,
    log: &mut BindingLog<'a, A>,
    frame: &ThreadFrame<'a, A>,
    rounds: &OpenRepetition<'a, A>,
    thread: Thread<'a, A>,
) -> Result<Steps<'a, A>, AllocError>
    requires account { (a : Account) × IsAccount log.old thread.handle a }
    requires outside { HasEntriesOf log.old rounds.now.outside }
    requires tail { ops_of thread.tail.now ≡ no_ops }
    requires number { 1 ≤ thread.number }
    ensures { GivesRoundSteps dialect source.now log.old log.new
        frame.now rounds.now thread.entry result }
{
    let mut outside = again(&rounds.outside);
    log.push_nested(&mut outside, &thread.handle)?;
    let second = Some(Thread {
        tail: frame.rest,
        number: thread.number - 1,
        up: frame.up,
        handle: outside,
    });
    let here = source.here();
    let Some(width) = between_width(dialect, rounds.kind, rounds.separator, &here) else {
        return Ok(epsilons(None, second));
    };
    let mut handle = thread.handle;
    log.push_default(&mut handle)?;
    let again = Thread {
        tail: rounds.body,
        number: rounds.front,
        up: thread.up,
        handle,
    };
    Ok(Steps {
        second,
        ..over(width, None, again)
    })
}

// Pushes the value, if there is one.
#[inline(always)]
pub(crate) fn push_some<T: Drop, A: Allocator + Copy>(
    values: &mut Vec<T, A>,
    value: Option<T>,
) -> Result<(), AllocError>
    ensures { OnOk result (values.new.items ≡ values.old.items ++ option_to_list value) }
{
    let Some(value) = value else {
        return Ok(());
    };
    values.push(value)?;
    Ok(())
}
