// Decides whether the threads of a match stop, and moves them from one offset to the next.
//
// After the epsilon steps, some threads have a step that consumes tokens, and some are at the
// pattern's end. The threads stop at the argument's end, at a local ambiguity, or where no thread
// has a step. Otherwise all steps consume the same number of tokens, and the threads go on
// together.
ghost use Rattle.std.specs.Prelude.{◌≡◌, ◌+◌, ◌≤◌, ◌∷◌, ◌++◌, ◌||◌, [], map, not, nat_eq, is_some};
ghost use Rattle.std.specs.Prelude.{option_map, IfOk, OnOk, IfSome};
ghost use Rattle.mbe_tt.specs.Trees.Tree.{flat_len, rest_at};
ghost use Rattle.mbe_tt.specs.Views.View.{trees};
ghost use Rattle.mbe_threads.specs.Remainder.{IsRemainder};
ghost use Rattle.mbe_threads.specs.Stops.{is_ambiguity, is_ambiguous_with, thread_after};
ghost use Rattle.mbe_threads.specs.Stops.{verdict_at_end, stop_at, verdict_in, reading_in};

use crate::source::Source;
use crate::thread::{ThreadStack, TokenStep};
use mbe_log::log::{Handle, again};
use std::alloc::{AllocError, Allocator};

/// Why the threads stop. The numbers are the offsets where they stop.
#[derive(Drop)]
pub enum Stop {
    /// The argument has one reading, which binds this.
    OneReading(Handle),
    /// The argument has several readings.
    ManyReadings,
    /// A local ambiguity: two threads have steps, and one step consumes a fragment, or the steps
    /// consume different numbers of flat tokens.
    Ambiguous(usize),
    /// No thread has a step.
    Stuck(usize),
}

// Whether a step and another one are a local ambiguity: one of them consumes a fragment, or they
// consume different numbers of flat tokens.
#[inline(always)]
fn differs<A: Allocator>(width: usize, by_fragment: bool, other: &TokenStep<'_, A>) -> bool
    ensures { result ≡ (by_fragment || is_some other.now.beyond
        || not (nat_eq width other.now.width)) }
{
    by_fragment || other.beyond.is_some() || width != other.width
}

#[inline(always)]
fn is_ambiguous_with<A: Allocator>(
    width: usize,
    by_fragment: bool,
    others: &[TokenStep<'_, A>],
) -> bool
    ensures { result ≡ is_ambiguous_with width by_fragment others.now }
{
    for other in others {
        if differs(width, by_fragment, other) {
            return true;
        }
    }
    false
}

// Whether two of the steps are a local ambiguity.
#[inline(always)]
fn is_ambiguous<A: Allocator>(token_steps: &[TokenStep<'_, A>]) -> bool
    ensures { result ≡ is_ambiguity token_steps.now }
{
    match token_steps {
        [] => false,
        [first, rest @ ..] => is_ambiguous_with(first.width, first.beyond.is_some(), rest),
    }
}

/// Moves the cursor over a step. A fragment is crossed at once. `AllocError` if out of memory.
#[inline(always)]
pub fn after_step<'a, A: Allocator>(
    source: Source<'a, A>,
    step: &TokenStep<'a, A>,
) -> Result<Source<'a, A>, AllocError>
    requires fits { source.offset + step.now.width ≤ flat_len (trees source.whole) }
    requires left { IsRemainder (rest_at (trees source.whole) source.offset)
        step.now.width step.now.beyond }
    ensures whole { IfOk result (λ s. s.whole ≡ source.entry.whole) }
    ensures offset { IfOk result (λ s. s.offset ≡ source.entry.offset + step.now.width) }
{
    let Some(beyond) = &step.beyond else {
        return source.passed(step.width);
    };
    Ok(source.jumped(step.width, beyond.fork()))
}

/// Pushes the threads after their steps, in the same order. They are the stack at the next offset.
/// `AllocError` if out of memory.
#[inline(always)]
pub fn push_next<'a, A: Allocator>(
    token_steps: &[TokenStep<'a, A>],
    todo: &mut ThreadStack<'a, '_, A>,
) -> Result<(), AllocError>
    ensures { OnOk result (todo.new.items ≡ todo.old.items ++ map thread_after token_steps.now) }
{
    for thread in token_steps {
        todo.push(thread.after.again())?;
    }
    Ok(())
}

// Returns the stop at the argument's end. `ends` are the handles of the threads at the pattern's
// end.
fn at_end(offset: usize, ends: &[Handle]) -> Stop
    ensures verdict { verdict_in result ≡ verdict_at_end offset ends.now }
    ensures reading { IfSome (reading_in result) (λ h. ends.now ≡ h ∷ []) }
{
    match ends {
        [] => Stop::Stuck(offset),
        [only] => Stop::OneReading(again(only)),
        [_, _, ..] => Stop::ManyReadings,
    }
}

/// Returns why the threads stop here, if they do: the argument ends, two steps are a local
/// ambiguity, or no thread has a step.
#[inline(always)]
pub fn stop_reason<A: Allocator>(
    source: &Source<'_, A>,
    token_steps: &[TokenStep<'_, A>],
    ends: &[Handle],
) -> Option<Stop>
    ensures stop { option_map verdict_in result
        ≡ stop_at source.now.offset (flat_len (trees source.now.whole)) token_steps.now ends.now }
    ensures reading { IfSome result (λ s. IfSome (reading_in s) (λ h. ends.now ≡ h ∷ [])) }
{
    if source.is_at_end() {
        return Some(at_end(source.offset, ends));
    }
    if is_ambiguous(token_steps) {
        return Some(Stop::Ambiguous(source.offset));
    }
    if token_steps.is_empty() {
        return Some(Stop::Stuck(source.offset));
    }
    None
}
