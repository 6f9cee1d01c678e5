// Where two readings of an argument diverge.
//
// The future of a partial reading depends on its state alone. So the module makes a graph: a node
// is a state at an offset, and an edge is a step. Two readings diverge at a node that is reachable
// from the start, if the end is reachable along two of the node's edges.
ghost use Rattle.std.specs.Prelude.{◌≡◌, ◌<◌, ◌≤◌, option_map, IfOk};
ghost use Rattle.mbe_tt.specs.Trees.Tree.{flat_len};
ghost use Rattle.mbe_tt.specs.Views.View.{trees};
ghost use Rattle.mbe_semantics.specs.Readings.Input.{input_of};
ghost use Rattle.mbe_ops.specs.Views.{template_of};
ghost use Rattle.mbe_matcher.specs.Expected.{expected_seen};
ghost use Rattle.mbe_matcher.specs.Readings.Divergence.{IsDivergence, DivergeBy};
ghost use Rattle.mbe_matcher.specs.Readings.Continuation.{IsGraph, IsContinuation, IsDivergentStep};
ghost use Rattle.mbe_matcher.specs.Readings.Views.{divergence_seen};

use crate::expectations::Expected;
use crate::readings::continuation::{LiveNodes, ahead, live_edges, next_at_offset};
use crate::readings::edges::{Edge, NodeSteps};
use crate::readings::graph::{Graph, graph_of};
use crate::readings::reachability::first_divergence as first_of;
use crate::readings::transitions::node;
use mbe_ops::ops::MetaTemplate;
use mbe_threads::source::Source;
use mbe_tt::grammar::FragmentGrammar;
use mbe_tt::tt::TokenTreesView;
use std::alloc::{AllocError, Allocator, Global};

/// The offset at which two readings diverge, and what each of them consumes next there. Clauses see
/// it by `divergence_seen`.
#[derive(Drop)]
pub struct Divergence<'a, A: Allocator = Global> {
    /// The offset in the argument, in flat tokens.
    pub offset: usize,
    /// What one reading consumes next: a token, a variable, a group, a separator, or an end.
    pub one: Expected<'a, A>,
    /// What the other reading consumes next.
    pub other: Expected<'a, A>,
}

// Returns what a reading consumes next after a step to the target.
fn continuation_after<'a, A: Allocator + Copy, G: FragmentGrammar>(
    alloc: A,
    grammar: &G,
    graph: &Graph<'a, A>,
    step: NodeSteps,
    last: usize,
    edges: &[Edge],
    target: usize,
) -> Result<Option<Expected<'a, A>>, AllocError>
    requires offset { step.offset ≤ flat_len (trees graph.now.argument) }
    requires source { step.source < graph.now.count }
    requires target { target < graph.now.count }
    ensures { IfOk result (λ w. IsContinuation (G.grammar grammar.now) graph.now step.offset last
        step.source target edges.now (option_map expected_seen w)) }
{
    let marks = ahead(alloc, edges, last, step.source, target, graph.count)?;
    let source = Source::new(alloc, graph.argument).passed(step.offset)?;
    let bounds = LiveNodes {
        live: graph.live.as_slice(),
        end: graph.end,
        last,
    };
    next_at_offset(grammar, &source, &graph.states, &marks, bounds)
}

// Returns what two readings consume next that diverge at the step.
fn continuations<'a, A: Allocator + Copy, G: FragmentGrammar>(
    alloc: A,
    grammar: &G,
    graph: &Graph<'a, A>,
    step: NodeSteps,
) -> Result<(Expected<'a, A>, Expected<'a, A>), AllocError>
    requires { IsDivergentStep (G.grammar grammar.now) graph.now step }
    ensures { IfOk result (λ r. DivergeBy
        (input_of (G.grammar grammar.now) (trees graph.now.argument))
        (template_of graph.now.pattern.now) (flat_len (trees graph.now.argument)) step.offset
        (expected_seen r.0) (expected_seen r.1)) }
{
    let (Some(one), Some(other)) = (step.one, step.other) else {
        unreachable!()
    };
    let size = graph.states.len();
    let last = node(size, step.offset, size).ok_or(AllocError)?;
    let edges = live_edges(alloc, &graph.edges, &graph.live, last)?;
    let one = continuation_after(alloc, grammar, graph, step, last, &edges, one)?;
    let other = continuation_after(alloc, grammar, graph, step, last, &edges, other)?;
    let (Some(one), Some(other)) = (one, other) else {
        unreachable!()
    };
    Ok((one, other))
}

/// Returns the first offset where two readings of the whole argument diverge. Both have the same
/// partial reading up to there. Then they take different steps, such as into a repetition and past
/// it, and both reach the pattern's end at the argument's end. `None` if there aren't two readings.
/// `AllocError` if out of memory.
///
/// The function looks at each state of the pattern at each offset. It takes longer than a match, so
/// use it to explain one.
pub fn first_divergence<'a, A: Allocator + Copy, G: FragmentGrammar>(
    alloc: A,
    grammar: &G,
    pattern: &'a MetaTemplate<A>,
    argument: TokenTreesView<'a, A>,
) -> Result<Option<Divergence<'a, A>>, AllocError>
    ensures { IfOk result (λ p. IsDivergence (G.grammar grammar.now) (template_of pattern.now)
        (trees argument.entry) (option_map divergence_seen p)) }
{
    let graph = graph_of(alloc, grammar, pattern, argument)?;
    let Some(step) = first_of(&graph.reached, &graph.live, &graph.steps) else {
        return Ok(None);
    };
    let (one, other) = continuations(alloc, grammar, &graph, step)?;
    let offset = step.offset;
    Ok(Some(Divergence { offset, one, other }))
}
