// Reachability: which nodes edges lead to.
ghost use Rattle.std.specs.Prelude.{◌≡◌, ℕ, ◌<◌, true, false, map, length, option_to_list, IfOk};
ghost use Rattle.std.specs.Prelude.{OnOk, ◌++◌};
ghost use Rattle.mbe_matcher.specs.Readings.Graph.{is_marked, AreFrom, AreClosed, AreReached};
ghost use Rattle.mbe_matcher.specs.Readings.Graph.{unmarked, edge, edges_of, edges_in, turned};
ghost use Rattle.mbe_matcher.specs.Readings.Graph.{flipped, is_live, diverges, first_divergence};

use crate::readings::edges::{Edge, NodeSteps};
use std::alloc::{AllocError, Allocator};

pub(crate) fn is_marked(marks: &[bool], node: usize) -> bool
    ensures { result ≡ is_marked marks.now node }
{
    node < marks.len() && marks[node]
}

// Whether the edge leads from a marked node to one that isn't.
fn leads_on(edge: &Edge, marks: &[bool]) -> bool
    ensures on { result ≡ true → (is_marked marks.now edge.now.source ≡ true)
        × ((edge.now.target < length marks.now)
        × (is_marked marks.now edge.now.target ≡ false)) }
    ensures not { result ≡ false → is_marked marks.now edge.now.source ≡ true
        → edge.now.target < length marks.now → is_marked marks.now edge.now.target ≡ true }
{
    is_marked(marks, edge.source) && edge.target < marks.len() && !is_marked(marks, edge.target)
}

// Goes along each edge once, and marks its target if its source is marked. Returns whether it
// marked a node.
fn sweep(edges: &[Edge], marks: &mut [bool]) -> bool
    ensures size { length marks.new ≡ length marks.old }
    ensures kept { (n : ℕ) → is_marked marks.old n ≡ true → is_marked marks.new n ≡ true }
    ensures from { (start : ℕ) → AreFrom edges.now start marks.old
        → AreFrom edges.now start marks.new }
    ensures closed { result ≡ false → AreClosed edges.now marks.new }
    ensures fewer { result ≡ true → unmarked marks.new < unmarked marks.old }
{
    let mut grew = false;
    for edge in edges {
        if !leads_on(edge, marks) {
            continue;
        }
        marks[edge.target] = true;
        grew = true;
    }
    grew
}

// Marks the nodes that are reachable from the start. There are `count` nodes.
pub(crate) fn reached_from<A: Allocator + Copy>(
    alloc: A,
    edges: &[Edge],
    start: usize,
    count: usize,
) -> Result<Vec<bool, A>, AllocError>
    requires { start < count }
    ensures { IfOk result (λ marks. AreReached edges.now start count marks.items) }
{
    let mut marks = vec![in alloc; false; count]?;
    marks[start] = true;
    'sweeps: while sweep(edges, &mut marks) {}
    Ok(marks)
}

// Returns the edges of the steps.
pub(crate) fn edges_in<A: Allocator + Copy>(
    alloc: A,
    steps: &[NodeSteps],
) -> Result<Vec<Edge, A>, AllocError>
    ensures { IfOk result (λ edges. edges.items ≡ edges_in steps.now) }
{
    let mut edges = Vec::new(alloc);
    for step in steps {
        push_edge(&mut edges, step.source, step.one)?;
        push_edge(&mut edges, step.source, step.other)?;
    }
    Ok(edges)
}

fn push_edge<A: Allocator + Copy>(
    edges: &mut Vec<Edge, A>,
    source: usize,
    target: Option<usize>,
) -> Result<(), AllocError>
    ensures { OnOk result (edges.new.items ≡ edges.old.items
        ++ map (edge source) (option_to_list target)) }
{
    let Some(target) = target else {
        return Ok(());
    };
    edges.push(Edge { source, target })?;
    Ok(())
}

// Returns the reversed edge.
fn turned(edge: Edge) -> Edge
    ensures { result ≡ turned edge }
{
    Edge {
        source: edge.target,
        target: edge.source,
    }
}

// Returns all edges reversed, the last first.
pub(crate) fn flipped<A: Allocator + Copy>(
    alloc: A,
    edges: &[Edge],
) -> Result<Vec<Edge, A>, AllocError>
    ensures { IfOk result (λ back. back.items ≡ flipped edges.now) }
{
    edges.iter().rev().map(|edge| turned(*edge)).collect(alloc)
}

fn is_live(live: &[bool], node: Option<usize>) -> bool
    ensures { result ≡ is_live live.now node }
{
    match node {
        None => false,
        Some(node) => is_marked(live, node),
    }
}

// Whether the node is reachable from the start, and the end is reachable after both of its steps.
fn diverges(reached: &[bool], live: &[bool], step: &NodeSteps) -> bool
    ensures { result ≡ diverges reached.now live.now step.now }
{
    is_marked(reached, step.source) && is_live(live, step.one) && is_live(live, step.other)
}

// Returns the first node's steps for which `diverges` holds.
pub(crate) fn first_divergence(
    reached: &[bool],
    live: &[bool],
    steps: &[NodeSteps],
) -> Option<NodeSteps>
    ensures { result ≡ first_divergence reached.now live.now steps.now }
{
    for step in steps {
        if diverges(reached, live, step) {
            return Some(*step);
        }
    }
    None
}
