// What stands at the states of a pattern, and the transitions between states.
use mbe_ops::ops::{Op, Separator};
use mbe_semantics::fragment_kinds::RepeatKind;
use std::alloc::{Allocator, Global};

#[derive(Drop)]
pub(crate) enum PatternState<'a, A: Allocator = Global> {
    // The pattern's end.
    End,
    // A group's end.
    Closing,
    // The end of a repetition's body, which has `state_count` states.
    RoundEnd {
        separator: Option<&'a Separator<A>>,
        kind: RepeatKind,
        state_count: usize,
    },
    // An op, with `state_count` states inside.
    Before {
        op: &'a Op<A>,
        state_count: usize,
    },
}

// A transition to the state `number`, which consumes `width` flat tokens.
#[derive(Drop)]
pub(crate) struct Transition {
    pub(crate) number: usize,
    pub(crate) width: usize,
}

// The transitions of a state: two at most.
#[derive(Drop)]
pub(crate) struct Transitions {
    pub(crate) one: Option<Transition>,
    pub(crate) other: Option<Transition>,
}
