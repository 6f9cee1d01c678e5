// The graph of a pattern and an argument. A node is a state at an offset, and an edge is a step.
ghost use Rattle.std.specs.Prelude.{◌≡◌, IfOk};
ghost use Rattle.mbe_matcher.specs.Readings.Continuation.{IsGraph};

use crate::readings::edges::{Edge, NodeSteps};
use crate::readings::reachability::{edges_in, flipped, reached_from};
use crate::readings::state::PatternState;
use crate::readings::states::states_of_pattern;
use crate::readings::step_table::all_steps;
use crate::readings::transitions::node;
use mbe_ops::ops::MetaTemplate;
use mbe_tt::grammar::FragmentGrammar;
use mbe_tt::tt::TokenTreesView;
use std::alloc::{AllocError, Allocator, Global};

// Clauses see it by `IsGraph`.
#[derive(Drop)]
pub(crate) struct Graph<'a, A: Allocator = Global> {
    pub(crate) pattern: &'a MetaTemplate<A>,
    pub(crate) argument: TokenTreesView<'a, A>,
    pub(crate) states: Vec<PatternState<'a, A>, A>,
    pub(crate) steps: Vec<NodeSteps, A>,
    pub(crate) edges: Vec<Edge, A>,
    // Whether each node is reachable from the start.
    pub(crate) reached: Vec<bool, A>,
    // Whether the end is reachable from each node.
    pub(crate) live: Vec<bool, A>,
    // The node of the pattern's end at the argument's end.
    pub(crate) end: usize,
    // An upper bound of the number of nodes.
    pub(crate) count: usize,
}

pub(crate) fn graph_of<'a, A: Allocator + Copy, G: FragmentGrammar>(
    alloc: A,
    grammar: &G,
    pattern: &'a MetaTemplate<A>,
    argument: TokenTreesView<'a, A>,
) -> Result<Graph<'a, A>, AllocError>
    ensures pattern { IfOk result (λ x. x.pattern ≡ pattern.entry) }
    ensures argument { IfOk result (λ x. x.argument ≡ argument.entry) }
    ensures graph { IfOk result (λ x. IsGraph (G.grammar grammar.now) x) }
{
    let states = states_of_pattern(alloc, pattern)?;
    let steps = all_steps(alloc, grammar, &states, argument)?;
    let size = states.len();
    let length = argument.flat_len();
    let end = node(size, length, 1).ok_or(AllocError)?;
    let most = node(size, length, size).ok_or(AllocError)?;
    let count = most.checked_add(1).ok_or(AllocError)?;
    let edges = edges_in(alloc, &steps)?;
    let reached = reached_from(alloc, &edges, size, count)?;
    let back = flipped(alloc, &edges)?;
    let live = reached_from(alloc, &back, end, count)?;
    Ok(Graph {
        pattern,
        argument,
        states,
        steps,
        edges,
        reached,
        live,
        end,
        count,
    })
}
