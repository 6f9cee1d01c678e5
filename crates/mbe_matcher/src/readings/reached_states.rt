// The states of a pattern that partial readings of an argument reach.
//
// A partial reading consumes the tokens before an offset, and stands at a state. So the module
// lists the nodes of the graph that are reachable from the start. In the pattern `$($x:ident),* ;`
// the states are 5 before the repetition, 4 before `$x`, 3 after it, 2 before `;` and 1 at the end.
// The argument `p ;` reaches these:
//
//     offset  next token  states
//          0           p   5 4 2
//          1           ;     3 2
//          2               1
ghost use Rattle.std.specs.Prelude.{◌≡◌, IfOk, map, option_map};
ghost use Rattle.mbe_tt.specs.Views.View.{trees};
ghost use Rattle.mbe_ops.specs.Views.{template_of};
ghost use Rattle.mbe_matcher.specs.Expected.{expected_seen};
ghost use Rattle.mbe_matcher.specs.Readings.Continuation.{expected_at};
ghost use Rattle.mbe_matcher.specs.Readings.States.{ending, states};
ghost use Rattle.mbe_matcher.specs.Readings.Views.{state_seen};
ghost use Rattle.mbe_matcher.specs.Readings.ReachedStates.{state_in, reached_in, AreReachedStates};

use crate::expectations::Expected;
use crate::readings::continuation::expected_at;
use crate::readings::edges::NodeSteps;
use crate::readings::graph::graph_of;
use crate::readings::reachability::is_marked;
use crate::readings::state::PatternState;
use crate::readings::states::states_of_pattern;
use mbe_ops::ops::MetaTemplate;
use mbe_tt::grammar::FragmentGrammar;
use mbe_tt::tt::TokenTreesView;
use std::alloc::{AllocError, Allocator};

/// A state of a pattern at an offset of an argument.
#[derive(Clone, Copy, Drop)]
pub struct ReachedState {
    /// The offset in the argument, in flat tokens.
    pub offset: usize,
    /// The number of the state: how many states there are from it to the pattern's end.
    pub number: usize,
}

fn state_in(step: &NodeSteps) -> ReachedState
    ensures { result ≡ state_in step.now }
{
    ReachedState {
        offset: step.offset,
        number: step.number,
    }
}

// Returns the states whose nodes are marked.
fn reached_in<A: Allocator + Copy>(
    alloc: A,
    marks: &[bool],
    steps: &[NodeSteps],
) -> Result<Vec<ReachedState, A>, AllocError>
    ensures { IfOk result (λ found. found.items ≡ reached_in marks.now steps.now) }
{
    let mut found = Vec::new(alloc);
    for step in steps {
        if is_marked(marks, step.source) {
            found.push(state_in(step))?;
        }
    }
    Ok(found)
}

/// Returns the states that partial readings of the argument reach, each with the offset up to which
/// the reading has consumed tokens. They are in the order of the offsets, and at one offset in the
/// order of the pattern. The states at an offset say what the matcher expects there. `AllocError`
/// if out of memory.
///
/// The function looks at each state of the pattern at each offset. It takes longer than a match, so
/// use it to explain one.
pub fn reached_states<'a, A: Allocator + Copy, G: FragmentGrammar>(
    alloc: A,
    grammar: &G,
    pattern: &'a MetaTemplate<A>,
    argument: TokenTreesView<'a, A>,
) -> Result<Vec<ReachedState, A>, AllocError>
    ensures { IfOk result (λ found. AreReachedStates (G.grammar grammar.now)
        (template_of pattern.now) (trees argument.entry) found.items) }
{
    let graph = graph_of(alloc, grammar, pattern, argument)?;
    reached_in(alloc, &graph.reached, &graph.steps)
}

// Returns what is expected at each of these states.
fn expected_in<'a, A: Allocator + Copy>(
    alloc: A,
    states: &[PatternState<'a, A>],
) -> Result<Vec<Option<Expected<'a, A>>, A>, AllocError>
    ensures { IfOk result (λ all. map (option_map expected_seen) all.items
        ≡ map expected_at (map state_seen states.now)) }
{
    let mut all = Vec::new(alloc);
    for state in states {
        all.push(expected_at(state))?;
    }
    Ok(all)
}

/// Returns what is expected next at each state of a pattern, in the order of the pattern: a token,
/// a variable, a group, a separator, or an end. So of `n` states the one with the number `k` is at
/// the index `n - k`. `None` if a partial reading goes on from the state without a token.
/// `AllocError` if out of memory.
pub fn expected_at_states<'a, A: Allocator + Copy>(
    alloc: A,
    pattern: &'a MetaTemplate<A>,
) -> Result<Vec<Option<Expected<'a, A>>, A>, AllocError>
    ensures { IfOk result (λ all. map (option_map expected_seen) all.items
        ≡ map expected_at (states (template_of pattern.now) ending)) }
{
    let states = states_of_pattern(alloc, pattern)?;
    expected_in(alloc, &states)
}
