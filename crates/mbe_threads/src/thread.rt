// Threads, the open items that they share, and their steps at one offset.
//
// A state is a point in a pattern: before the first op of a body, or after one of its ops. States
// are numbered from the pattern's end, which is state 1.
ghost use Rattle.std.specs.Prelude.{◌≡◌, ◌||◌, is_some};

use mbe_log::log::{Handle, again};
use mbe_ops::ops::{Op, Separator};
use mbe_semantics::fragment_kinds::RepeatKind;
use mbe_tt::tt::TtIter;
use smallvec::SmallVec;
use std::alloc::{Allocator, Global};
use std::default::MadeWith;

/// A thread: a state of a pattern, the open items around it, and what was bound so far.
#[derive(Drop)]
pub struct Thread<'a, A: Allocator = Global> {
    /// The remaining ops of the innermost open group or repetition.
    pub tail: &'a [Op<A>],
    /// The state's number: how many states there are from here to the pattern's end.
    pub number: usize,
    /// The index of the innermost open item. `None` outside all groups and repetitions.
    pub up: Option<usize>,
    /// What was bound so far, as a list of the log.
    pub handle: Handle,
}

impl<'a, A: Allocator> Thread<'a, A> {
    /// Returns a copy of this thread.
    #[inline(always)]
    pub fn again(&self) -> Thread<'a, A>
        ensures { result ≡ self.now }
    {
        Thread {
            tail: self.tail,
            number: self.number,
            up: self.up,
            handle: again(&self.handle),
        }
    }
}

// A thread before no op. It fills the unused slots of a `SmallVec`.
impl<'a, A: Allocator, B: Copy> MadeWith<B> for Thread<'a, A> {
    fn made_with(alloc: B) -> Thread<'a, A> {
        Thread {
            tail: &[],
            number: 0,
            up: None,
            handle: Handle::made_with(alloc),
        }
    }
}

/// The stack of threads that are still to be followed at an offset. The last one is on top.
///
/// The allocator is borrowed: its size is unknown, so no proof could show that a list with the
/// allocator inside fits in memory.
pub type ThreadStack<'a, 's, A> = SmallVec<Thread<'a, A>, 4, &'s A>;

/// An open group or repetition. Threads share it, and it never changes.
#[derive(Drop)]
pub struct ThreadFrame<'a, A: Allocator = Global> {
    /// The open repetition. `None` for a group.
    pub rounds: Option<OpenRepetition<'a, A>>,
    /// The ops after the group or repetition.
    pub rest: &'a [Op<A>],
    /// The index of the open item around this one.
    pub up: Option<usize>,
}

/// An open repetition.
#[derive(Drop)]
pub struct OpenRepetition<'a, A: Allocator = Global> {
    pub body: &'a [Op<A>],
    pub separator: Option<&'a Separator<A>>,
    pub kind: RepeatKind,
    /// The number of the state before the body.
    pub front: usize,
    /// What was bound before the repetition.
    pub outside: Handle,
}

/// A step that consumes tokens, and the thread after it.
#[derive(Drop)]
pub struct TokenStep<'a, A: Allocator = Global> {
    /// How many flat tokens the step consumes.
    pub width: usize,
    /// If the step consumes a fragment, the rest of the argument's innermost group after it.
    pub beyond: Option<TtIter<'a, A>>,
    /// The thread after the step.
    pub after: Thread<'a, A>,
}

impl<'a, A: Allocator, B: Copy> MadeWith<B> for TokenStep<'a, A> {
    fn made_with(alloc: B) -> TokenStep<'a, A> {
        TokenStep {
            width: 0,
            beyond: None,
            after: Thread::made_with(alloc),
        }
    }
}

/// The steps of a thread at one offset.
#[derive(Drop)]
pub struct Steps<'a, A: Allocator = Global> {
    /// The threads after the epsilon steps, in the order in which they are followed.
    pub first: Option<Thread<'a, A>>,
    pub second: Option<Thread<'a, A>>,
    /// The step that consumes tokens.
    pub next: Option<TokenStep<'a, A>>,
    /// What is bound, if the thread is at the pattern's end.
    pub done: Option<Handle>,
}

impl<'a, A: Allocator> Steps<'a, A> {
    /// Whether the thread has a step, or is at the pattern's end.
    #[inline(always)]
    pub fn is_some(&self) -> bool
        ensures { result ≡ (is_some self.now.first || (is_some self.now.second
            || (is_some self.now.next || is_some self.now.done))) }
    {
        self.first.is_some() || self.second.is_some() || self.next.is_some() || self.done.is_some()
    }
}
