// Iterators over ops. `OpDelimitedIter` yields the ops of a pattern, a template or a repetition's
// body. For a group it also yields the opening and the closing. The names follow rust-analyzer's.
ghost use Rattle.std.specs.Prelude.{◌≡◌, Some, None};
ghost use Rattle.std.specs.Iterator.{YieldsFirstBy, item_count};
ghost use Rattle.mbe_ops.specs.Views.{ops_of, template_of};
ghost use Rattle.mbe_ops.specs.OpIter.{op_events, events_left};

use crate::ops::{MetaTemplate, Op};
use mbe_tt::tt::Delimiter;
use std::alloc::{Allocator, Global};

/// An item of the iterator. Clauses see it by `event_of`.
#[derive_where(Clone, Copy, Debug)]
pub enum OpDelimited<'a, A: Allocator = Global> {
    Open(Delimiter),
    Op(&'a Op<A>),
    Close(Delimiter),
}

/// An iterator over ops. The ops of a group are yielded between its opening and its closing; an
/// invisible group has them too. A copy of the iterator yields the same rest. Clauses see that rest
/// by `events_left`.
#[derive_where(Clone, Copy, Debug)]
pub struct OpDelimitedIter<'a, A: Allocator = Global> {
    opening: Option<Delimiter>,
    ops: &'a [Op<A>],
    closing: Option<Delimiter>,
}

impl<'a, A: Allocator> OpDelimitedIter<'a, A> {
    /// Makes an iterator over the ops alone.
    pub fn new(ops: &'a [Op<A>]) -> OpDelimitedIter<'a, A>
        ensures { events_left result ≡ op_events None (ops_of ops.now) }
    {
        OpDelimitedIter {
            opening: None,
            ops,
            closing: None,
        }
    }
}

impl<A: Allocator> MetaTemplate<A> {
    /// Returns an iterator over the ops of a whole pattern or template, or of a repetition's body.
    pub fn iter(&self) -> OpDelimitedIter<'_, A>
        ensures { events_left result ≡ op_events None (template_of self.now) }
    {
        OpDelimitedIter::new(&self.0)
    }

    /// Returns an iterator over the ops of a group, between the group's opening and closing.
    pub fn iter_delimited(&self, delimiter: Delimiter) -> OpDelimitedIter<'_, A>
        ensures { events_left result ≡ op_events (Some delimiter) (template_of self.now) }
    {
        OpDelimitedIter {
            opening: Some(delimiter),
            ops: &self.0,
            closing: Some(delimiter),
        }
    }
}

/// Yields the opening if there is one, then each op once, in order, then the closing if there is
/// one. Then the iterator ends.
impl<'a, A: Allocator> Iterator for OpDelimitedIter<'a, A> {
    ghost use Rattle.mbe_ops.specs.OpIter.{event_of};

    type Item = OpDelimited<'a, A>;

    ghost next_gives = { YieldsFirstBy event_of events_left };

    ghost remaining = { item_count events_left };

    fn next(&mut self) -> Option<OpDelimited<'a, A>> {
        if let Some(delimiter) = self.opening.take() {
            return Some(OpDelimited::Open(delimiter));
        }
        if let Some((op, rest)) = self.ops.split_first() {
            self.ops = rest;
            return Some(OpDelimited::Op(op));
        }
        Some(OpDelimited::Close(self.closing.take()?))
    }
}
