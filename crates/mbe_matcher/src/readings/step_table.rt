// The steps of all states at all offsets.
ghost use Rattle.std.specs.Prelude.{◌≡◌, ◌++◌, ◌+◌, map, length, IfOk, OnOk};
ghost use Rattle.mbe_tt.specs.Trees.Tree.{flat_len};
ghost use Rattle.mbe_tt.specs.Views.View.{trees};
ghost use Rattle.mbe_semantics.specs.Readings.Input.{input_of};
ghost use Rattle.mbe_matcher.specs.Readings.Graph.{steps_there, steps_before};
ghost use Rattle.mbe_matcher.specs.Readings.Views.{state_seen};

use crate::readings::edges::NodeSteps;
use crate::readings::state::PatternState;
use crate::readings::transitions::step_at;
use mbe_threads::source::Source;
use mbe_tt::grammar::FragmentGrammar;
use mbe_tt::tt::TokenTreesView;
use std::alloc::{AllocError, Allocator};

// Appends the steps of all states at the source's offset.
fn push_steps<'a, A: Allocator + Copy, G: FragmentGrammar>(
    grammar: &G,
    source: &Source<'a, A>,
    states: &[PatternState<'a, A>],
    steps: &mut Vec<NodeSteps, A>,
) -> Result<(), AllocError>
    ensures { OnOk result (steps.new.items ≡ steps.old.items
        ++ steps_there (input_of (G.grammar grammar.now) (trees source.now.whole))
        (length states.now) source.now.offset (map state_seen states.now)) }
{
    let size = states.len();
    for (passed, state) in states.iter().enumerate() {
        let step = step_at(grammar, source, size, state, size - passed)?;
        steps.push(step)?;
    }
    Ok(())
}

// Returns the steps of all states at all offsets.
pub(crate) fn all_steps<'a, A: Allocator + Copy, G: FragmentGrammar>(
    alloc: A,
    grammar: &G,
    states: &[PatternState<'a, A>],
    argument: TokenTreesView<'a, A>,
) -> Result<Vec<NodeSteps, A>, AllocError>
    ensures { IfOk result (λ steps. steps.items
        ≡ steps_before (input_of (G.grammar grammar.now) (trees argument.entry))
        (length states.now) (map state_seen states.now) (flat_len (trees argument.entry) + 1)) }
{
    let mut steps = Vec::new(alloc);
    let mut source = Source::new(alloc, argument);
    loop {
        push_steps(grammar, &source, states, &mut steps)?;
        if source.is_at_end() {
            return Ok(steps);
        }
        source = source.passed(1)?;
    }
}
