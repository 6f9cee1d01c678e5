// The transitions of a state at an offset of the argument.
ghost use Rattle.std.specs.Prelude.{◌≡◌, ◌-◌, ◌+◌, ◌*◌, ◌≤◌, option_map, Some, None, IfOk, IfSome};
ghost use Rattle.mbe_tt.specs.Views.View.{trees};
ghost use Rattle.mbe_tt.specs.Grammars.Grammar.{Grammar};
ghost use Rattle.mbe_semantics.specs.Readings.Input.{input_of};
ghost use Rattle.mbe_ops.specs.Views.{op_of, separator_seen};
ghost use Rattle.mbe_matcher.specs.Readings.States.{over, over_one, over_fragment, again, past};
ghost use Rattle.mbe_matcher.specs.Readings.States.{round_transitions, op_transitions, transitions};
ghost use Rattle.mbe_matcher.specs.Readings.States.{between_at};
ghost use Rattle.mbe_matcher.specs.Readings.Views.{state_seen, transition_seen, transitions_seen};
ghost use Rattle.mbe_matcher.specs.Readings.Graph.{node, target, step_at};

use crate::consumers::eat_fragment;
use crate::readings::edges::NodeSteps;
use crate::readings::state::{PatternState, Transition, Transitions};
use crate::token_widths::{between_width, opens, token_width};
use mbe_ops::ops::{Op, Separator};
use mbe_semantics::fragment_kinds::{MetaVarKind, RepeatKind};
use mbe_threads::source::Source;
use mbe_tt::grammar::{Dialect, FragmentGrammar};
use std::alloc::{AllocError, Allocator};

fn only(one: Option<Transition>) -> Transitions
    ensures { result ≡ record { one = one; other = None } }
{
    Transitions { one, other: None }
}

// Returns a transition to the state `number`, if there is a width.
fn over(number: usize, width: Option<usize>) -> Option<Transition>
    ensures { option_map transition_seen result ≡ over number width }
{
    match width {
        None => None,
        Some(width) => Some(Transition { number, width }),
    }
}

fn over_one(number: usize, is_there: bool) -> Option<Transition>
    ensures { option_map transition_seen result ≡ over_one number is_there }
{
    if is_there {
        Some(Transition { number, width: 1 })
    } else {
        None
    }
}

// Returns the transition over the fragment that a variable of the kind matches.
fn over_fragment<'a, A: Allocator, G: FragmentGrammar>(
    grammar: &G,
    source: &Source<'a, A>,
    kind: Option<MetaVarKind>,
    number: usize,
) -> Result<Option<Transition>, AllocError>
    ensures { IfOk result (λ w. option_map transition_seen w ≡ over_fragment number
        ((input_of (G.grammar grammar.now) (trees source.now.whole)).fragment_at kind
        source.now.offset)) }
{
    let mut beyond = source.here();
    let Some(tree) = eat_fragment(grammar, kind, &mut beyond)? else {
        return Ok(None);
    };
    let width = tree.flat_len();
    Ok(Some(Transition { number, width }))
}

// Returns the transition into another round, to the state before the body.
fn again<'a, A: Allocator>(
    dialect: Dialect,
    source: &Source<'a, A>,
    separator: Option<&Separator<A>>,
    kind: RepeatKind,
    number: usize,
) -> Option<Transition>
    ensures { (g : Grammar) → g.dialect ≡ dialect → option_map transition_seen result
        ≡ again kind (over number (between_at
        (input_of g (trees source.now.whole)) source.now.offset
        (option_map (λ s. separator_seen s.now) separator.entry))) }
{
    over(
        number,
        between_width(dialect, kind, separator, &source.here()),
    )
}

// Returns the transitions at the end of a round: out of the repetition, and into another round.
fn round_transitions<'a, A: Allocator>(
    dialect: Dialect,
    source: &Source<'a, A>,
    separator: Option<&Separator<A>>,
    kind: RepeatKind,
    state_count: usize,
    front: usize,
) -> Result<Transitions, AllocError>
    ensures { (g : Grammar) → g.dialect ≡ dialect → IfOk result (λ w. transitions_seen w
        ≡ round_transitions (input_of g (trees source.now.whole)) source.now.offset
        (option_map (λ s. separator_seen s.now) separator.entry) kind state_count front) }
{
    let number = front.checked_add(state_count).ok_or(AllocError)?;
    let again = again(dialect, source, separator, kind, number);
    let out = Some(Transition {
        number: front,
        width: 0,
    });
    match separator {
        None => Ok(Transitions {
            one: again,
            other: out,
        }),
        Some(_) => Ok(Transitions {
            one: out,
            other: again,
        }),
    }
}

// Returns the transitions before a repetition: into it, and past it.
fn repetition_transitions(kind: RepeatKind, state_count: usize, front: usize) -> Transitions
    ensures { transitions_seen result
        ≡ (Some (front, 0), past kind (Some (front - state_count, 0))) }
{
    let one = Some(Transition {
        number: front,
        width: 0,
    });
    match kind {
        RepeatKind::OneOrMore => only(one),
        RepeatKind::ZeroOrMore | RepeatKind::ZeroOrOne => Transitions {
            one,
            other: Some(Transition {
                number: front.saturating_sub(state_count),
                width: 0,
            }),
        },
    }
}

// Returns the transitions before an op.
#[tactic(auto, using(mbe_ops::proofs::OpViews::views))]
fn op_transitions<'a, A: Allocator, G: FragmentGrammar>(
    grammar: &G,
    source: &Source<'a, A>,
    op: &Op<A>,
    state_count: usize,
    front: usize,
) -> Result<Transitions, AllocError>
    ensures { IfOk result (λ w. transitions_seen w
        ≡ op_transitions (input_of (G.grammar grammar.now) (trees source.now.whole))
        source.now.offset
        (op_of op.now) state_count front) }
{
    match op {
        Op::Var { kind, .. } => Ok(only(over_fragment(grammar, source, *kind, front)?)),
        Op::Subtree { delimiter, .. } => {
            let opens = opens(grammar.dialect(), delimiter.get().kind, &source.here());
            Ok(only(over_one(front, opens)))
        }
        Op::Repeat { kind, .. } => Ok(repetition_transitions(*kind, state_count, front)),
        Op::Literal(_) | Op::Ident(_) | Op::Punct(_) => {
            let width = token_width(grammar.dialect(), op, &source.here());
            Ok(only(over(front, width)))
        }
        Op::Expression(_) => Ok(only(None)),
    }
}

// Returns the transitions of a state. `front` states follow it.
#[tactic(auto, unfolding(crate::specs::Readings::States::transitions))]
fn transitions<'a, A: Allocator, G: FragmentGrammar>(
    grammar: &G,
    source: &Source<'a, A>,
    state: &PatternState<'a, A>,
    front: usize,
) -> Result<Transitions, AllocError>
    ensures { IfOk result (λ w. transitions_seen w
        ≡ transitions (input_of (G.grammar grammar.now) (trees source.now.whole)) source.now.offset
        (state_seen state.now) front) }
{
    match state {
        PatternState::End => Ok(only(None)),
        PatternState::Closing => Ok(only(over_one(front, source.is_at_group_end()))),
        PatternState::RoundEnd {
            separator,
            kind,
            state_count,
        } => round_transitions(
            grammar.dialect(),
            source,
            *separator,
            *kind,
            *state_count,
            front,
        ),
        PatternState::Before { op, state_count } => op_transitions(
            grammar,
            source,
            op,
            *state_count,
            front,
        ),
    }
}

// Returns the node of a state at an offset. `size` is the number of states. `None` if no `usize`
// holds the node.
pub(crate) fn node(size: usize, offset: usize, number: usize) -> Option<usize>
    ensures { IfSome result (λ n. n ≡ node size offset number) }
{
    offset.checked_mul(size)?.checked_add(number)
}

// Returns the node that a transition leads to.
fn target(
    size: usize,
    offset: usize,
    transition: Option<Transition>,
) -> Result<Option<usize>, AllocError>
    ensures { IfOk result (λ n. n
        ≡ option_map (target size offset) (option_map transition_seen transition)) }
{
    let Some(transition) = transition else {
        return Ok(None);
    };
    let there = offset.checked_add(transition.width).ok_or(AllocError)?;
    let node = node(size, there, transition.number).ok_or(AllocError)?;
    Ok(Some(node))
}

// Returns the steps of a state at the source's offset. `size` is the number of states.
#[tactic(auto, unfolding(crate::specs::Readings::Graph::step_at))]
pub(crate) fn step_at<'a, A: Allocator, G: FragmentGrammar>(
    grammar: &G,
    source: &Source<'a, A>,
    size: usize,
    state: &PatternState<'a, A>,
    number: usize,
) -> Result<NodeSteps, AllocError>
    requires { 1 ≤ number }
    ensures { IfOk result (λ s. s
        ≡ step_at (input_of (G.grammar grammar.now) (trees source.now.whole)) size
        source.now.offset number (state_seen state.now)) }
{
    let offset = source.offset;
    let transitions = transitions(grammar, source, state, number - 1)?;
    Ok(NodeSteps {
        offset,
        number,
        source: node(size, offset, number).ok_or(AllocError)?,
        one: target(size, offset, transitions.one)?,
        other: target(size, offset, transitions.other)?,
    })
}
