// The states of a rule's pattern at each offset of a call's argument.
//
// The states are counted in the order of the pattern, from 0, as for the boxes of a drawing. States
// at which nothing is expected are left out. The pattern `$($x:ident),* ;` has state 0 before the
// repetition, state 1 before `$x`, state 2 after it, state 3 before `;`, and state 4 at the end. A
// match of `p ;` reaches the states 1 and 3 at offset 0, the states 2 and 3 at offset 1, and state 4
// at offset 2.
//
// In a page, the states are a text: `1 3|2 3|4`. The script has a slider over the tokens of the
// argument, and marks the states at the slider's offset.
use mbe::{DeclarativeMacro, Expected};
use mbe_matcher::readings::reached_states::{ReachedState, expected_at_states, reached_states};
use mbe_session::file_expander::call_steps::CallStep;
use mbe_tt::grammar::FragmentGrammar;
use std::alloc::{AllocError, Global};

/// The greatest number of tokens of an argument whose states are shown. There may be as many
/// fragments to parse as the product of tokens and states.
const TOKENS: usize = 400;

/// Whether the states are shown at the offsets of an argument with that many tokens.
pub fn are_shown(tokens: usize) -> bool {
    tokens <= TOKENS
}

/// The states of a rule's pattern, and which of them are reached.
#[derive(Drop)]
pub struct RuleStates<'r> {
    /// What is expected at each state, in the order of the pattern.
    pub expected: Vec<Option<Expected<'r>>>,
    reached: Vec<ReachedState>,
}

// Adds empty lists for the offsets up to that one.
fn push_offsets(
    alloc: Global,
    offsets: &mut Vec<Vec<usize>>,
    last: usize,
) -> Result<(), AllocError> {
    for _ in offsets.len()..last.saturating_add(1) {
        offsets.push(Vec::new(alloc))?;
    }
    Ok(())
}

impl<'r> RuleStates<'r> {
    /// Returns the states of the rule with that index. `None` if the argument is too long.
    /// `AllocError` if out of memory.
    pub fn new<G: FragmentGrammar>(
        alloc: Global,
        grammar: &G,
        rules: &'r DeclarativeMacro,
        step: &'r CallStep,
        index: usize,
    ) -> Result<Option<RuleStates<'r>>, AllocError> {
        let argument = step.argument.iter().remaining();
        if !are_shown(argument.flat_len()) || index >= rules.num_rules() {
            return Ok(None);
        }
        let pattern = rules.pattern(index);
        Ok(Some(RuleStates {
            expected: expected_at_states(alloc, pattern)?,
            reached: reached_states(alloc, grammar, pattern, argument)?,
        }))
    }

    // Adds a state to the list of its offset, if something is expected there.
    fn add(&self, offsets: &mut Vec<Vec<usize>>, state: ReachedState) -> Result<(), AllocError> {
        let number = self.expected.len().saturating_sub(state.number);
        if let Some(Some(_)) = self.expected.get(number)
            && let Some(numbers) = offsets.get_mut(state.offset)
        {
            numbers.push(number)?;
        }
        Ok(())
    }

    /// Returns the numbers of the states that are reached at each offset, up to the last offset
    /// that a partial reading reaches. `AllocError` if out of memory.
    pub fn by_offset(&self, alloc: Global) -> Result<Vec<Vec<usize>>, AllocError> {
        let mut offsets = Vec::new(alloc);
        for state in &self.reached {
            push_offsets(alloc, &mut offsets, state.offset)?;
            self.add(&mut offsets, *state)?;
        }
        Ok(offsets)
    }
}

// Adds numbers to a text, with a space between two of them.
fn push_numbers(alloc: Global, text: &mut String, numbers: &[usize]) -> Result<(), AllocError> {
    for (index, number) in numbers.iter().enumerate() {
        text.push_str(if index == 0 { "" } else { " " })?;
        let digits = format!(in alloc; "{number}")?;
        text.push_str(digits.as_str())?;
    }
    Ok(())
}

/// Returns the text with the states of a rule at each offset of the argument. It is empty if the
/// argument is too long. `AllocError` if out of memory.
pub fn states_text<G: FragmentGrammar>(
    alloc: Global,
    grammar: &G,
    rules: &DeclarativeMacro,
    step: &CallStep,
    index: usize,
) -> Result<String, AllocError> {
    let mut text = String::new(alloc);
    let Some(states) = RuleStates::new(alloc, grammar, rules, step, index)? else {
        return Ok(text);
    };
    for (offset, numbers) in states.by_offset(alloc)?.iter().enumerate() {
        text.push_str(if offset == 0 { "" } else { "|" })?;
        push_numbers(alloc, &mut text, numbers.as_slice())?;
    }
    Ok(text)
}
