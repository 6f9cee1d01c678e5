// What a reading consumes next after a node. The reading goes along edges between nodes of one
// offset. It stops at a node with a step over tokens, or at the argument's end.
ghost use Rattle.std.specs.Prelude.{◌≡◌, ◌<◌, nat_lt, length, map, option_map, IfOk};
ghost use Rattle.mbe_tt.specs.Views.View.{trees};
ghost use Rattle.mbe_semantics.specs.Readings.Input.{input_of};
ghost use Rattle.mbe_matcher.specs.Expected.{expected_seen};
ghost use Rattle.mbe_matcher.specs.Readings.Views.{state_seen};
ghost use Rattle.mbe_matcher.specs.Readings.Continuation.{expected_at, leads_to_live, live_edges};
ghost use Rattle.mbe_matcher.specs.Readings.Continuation.{is_beyond, continues, next_at};
ghost use Rattle.mbe_matcher.specs.Readings.Continuation.{next_at_offset, AreAhead};

use crate::expectations::{Expected, op_next, round_next};
use crate::readings::edges::{Edge, NodeSteps};
use crate::readings::reachability::{is_marked, reached_from};
use crate::readings::state::PatternState;
use crate::readings::transitions::step_at;
use mbe_threads::source::Source;
use mbe_tt::grammar::FragmentGrammar;
use std::alloc::{AllocError, Allocator};

// The live nodes, from which the end is reachable; the end's node; and the last node of the offset.
#[derive(Clone, Copy)]
pub(crate) struct LiveNodes<'n> {
    pub(crate) live: &'n [bool],
    pub(crate) end: usize,
    pub(crate) last: usize,
}

// Returns what is expected at a state.
pub(crate) fn expected_at<'a, A: Allocator>(state: &PatternState<'a, A>) -> Option<Expected<'a, A>>
    ensures { option_map expected_seen result ≡ expected_at (state_seen state.now) }
{
    match state {
        PatternState::End => Some(Expected::End),
        PatternState::Closing => Some(Expected::Closing),
        PatternState::RoundEnd {
            separator,
            kind,
            ..
        } => round_next(*kind, *separator),
        PatternState::Before { op, .. } => op_next(op),
    }
}

// Whether the edge leads to a live node of the same offset, or of an earlier one.
fn leads_to_live(edge: &Edge, live: &[bool], last: usize) -> bool
    ensures { result ≡ leads_to_live live.now last edge.now }
{
    edge.target <= last && is_marked(live, edge.target)
}

// Returns the edges for which `leads_to_live` holds.
pub(crate) fn live_edges<A: Allocator + Copy>(
    alloc: A,
    edges: &[Edge],
    live: &[bool],
    last: usize,
) -> Result<Vec<Edge, A>, AllocError>
    ensures { IfOk result (λ kept. kept.items ≡ live_edges live.now last edges.now) }
{
    let mut kept = Vec::new(alloc);
    for edge in edges {
        if leads_to_live(edge, live, last) {
            kept.push(*edge)?;
        }
    }
    Ok(kept)
}

// Whether the node is live and belongs to a later offset.
fn is_beyond(live: &[bool], last: usize, node: Option<usize>) -> bool
    ensures { result ≡ is_beyond live.now last node }
{
    match node {
        None => false,
        Some(node) => last < node && is_marked(live, node),
    }
}

// Whether a reading at this node consumes tokens next, or ends.
fn continues(step: &NodeSteps, bounds: LiveNodes<'_>) -> bool
    ensures { result ≡ continues bounds.entry.live.now bounds.entry.end bounds.entry.last step.now }
{
    step.source == bounds.end
        || is_beyond(bounds.live, bounds.last, step.one)
        || is_beyond(bounds.live, bounds.last, step.other)
}

// Returns what is expected at the node, if it is marked and a reading goes on from it.
fn next_at<'a, A: Allocator>(
    step: &NodeSteps,
    state: &PatternState<'a, A>,
    marks: &[bool],
    bounds: LiveNodes<'_>,
) -> Option<Expected<'a, A>>
    ensures { option_map expected_seen result
        ≡ next_at marks.now bounds.entry.live.now bounds.entry.end bounds.entry.last step.now
        (state_seen state.now) }
{
    if is_marked(marks, step.source) && continues(step, bounds) {
        expected_at(state)
    } else {
        None
    }
}

// Returns what is expected at the first state for which `next_at` finds something, at the source's
// offset.
pub(crate) fn next_at_offset<'a, A: Allocator + Copy, G: FragmentGrammar>(
    grammar: &G,
    source: &Source<'a, A>,
    states: &[PatternState<'a, A>],
    marks: &[bool],
    bounds: LiveNodes<'_>,
) -> Result<Option<Expected<'a, A>>, AllocError>
    ensures { IfOk result (λ w. option_map expected_seen w
        ≡ next_at_offset (input_of (G.grammar grammar.now) (trees source.now.whole))
        (length states.now) source.now.offset marks.now bounds.entry.live.now bounds.entry.end bounds.entry.last
        (map state_seen states.now)) }
{
    let size = states.len();
    for (passed, state) in states.iter().enumerate() {
        let step = step_at(grammar, source, size, state, size - passed)?;
        if let Some(next) = next_at(&step, state, marks, bounds) {
            return Ok(Some(next));
        }
    }
    Ok(None)
}

// Marks the nodes that are ahead after a step: those reachable from its target. If the target
// belongs to a later offset, marks the source alone.
pub(crate) fn ahead<A: Allocator + Copy>(
    alloc: A,
    edges: &[Edge],
    last: usize,
    source: usize,
    target: usize,
    count: usize,
) -> Result<Vec<bool, A>, AllocError>
    requires source { source < count }
    requires target { target < count }
    ensures { IfOk result (λ marks. AreAhead (nat_lt last target) edges.now source target count
        marks.items) }
{
    if last < target {
        reached_from(alloc, &[], source, count)
    } else {
        reached_from(alloc, edges, target, count)
    }
}
