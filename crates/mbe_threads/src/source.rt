// A cursor over the argument of a match.
//
// The cursor counts flat tokens: leaves, openings and closings. It keeps what is left of each group
// around its offset, so that it can leave a group without a search.
ghost use Rattle.std.specs.Prelude.{◌≡◌, ◌↔◌, IsTrue, ◌+◌, ◌<◌, ◌≤◌, ◌&&◌, nat_lt, IfOk, reverse};
ghost use Rattle.mbe_tt.specs.Trees.Tree.{Forest, flat_len, tree_count, rest_at};
ghost use Rattle.mbe_tt.specs.Views.View.{trees};
ghost use Rattle.mbe_tt.specs.Buffers.Offsets.{rests};
ghost use Rattle.mbe_semantics.specs.Readings.Input.{is_none};
ghost use Rattle.mbe_threads.specs.Remainder.{IsAfter};

use mbe_tt::tt::{TokenTreesView, TtElement, TtIter};
use std::alloc::{AllocError, Allocator, Global};

/// An argument and an offset in it, in flat tokens. It holds the rest of each group around the
/// offset, the innermost last.
#[derive(Drop)]
pub struct Source<'a, A: Allocator = Global> {
    pub whole: TokenTreesView<'a, A>,
    pub offset: usize,
    here: TtIter<'a, A>,
    around: Vec<TtIter<'a, A>, A>,
    ghost placed: { rests (trees whole) offset ≡ (here, reverse around.items) },
    pub ghost within: { offset ≤ flat_len (trees whole) },
}

impl<'a, A: Allocator> Source<'a, A> {
    /// Returns a cursor at the start of the argument.
    pub fn new(alloc: A, whole: TokenTreesView<'a, A>) -> Source<'a, A>
        ensures whole { result.whole ≡ whole.entry }
        ensures offset { result.offset ≡ 0 }
    {
        Source {
            whole,
            offset: 0,
            here: whole.iter(),
            around: Vec::new(alloc),
        }
    }

    /// Returns the trees from the offset to the end of the innermost group.
    #[inline(always)]
    pub fn here(&self) -> TtIter<'a, A>
        ensures { result ≡ rest_at (trees self.now.whole) self.now.offset }
    {
        self.here.fork()
    }

    /// Returns how many trees remain in the innermost group.
    pub fn remaining_trees(&self) -> usize
        ensures { result ≡ tree_count (rest_at (trees self.now.whole) self.now.offset) }
    {
        self.here().remaining().len()
    }

    /// Whether the cursor is at the end of the argument.
    #[inline(always)]
    pub fn is_at_end(&self) -> bool
        ensures { IsTrue result ↔ (self.now.offset ≡ flat_len (trees self.now.whole)) }
    {
        self.offset == self.whole.flat_len()
    }

    /// Whether the next flat token closes a group of the argument.
    #[inline(always)]
    pub fn is_at_group_end(&self) -> bool
        ensures { result ≡ nat_lt self.now.offset (flat_len (trees self.now.whole))
            && is_none (rest_at (trees self.now.whole) self.now.offset) }
    {
        self.offset < self.whole.flat_len() && self.here.is_empty()
    }

    // Returns a cursor at this offset, with the rest of each group around it.
    fn at(
        whole: TokenTreesView<'a, A>,
        offset: usize,
        here: TtIter<'a, A>,
        around: Vec<TtIter<'a, A>, A>,
    ) -> Source<'a, A>
        requires placed { rests (trees whole) offset ≡ (here, reverse around.items) }
        requires within { offset ≤ flat_len (trees whole) }
        ensures whole { result.whole ≡ whole.entry }
        ensures offset { result.offset ≡ offset }
    {
        Source {
            whole,
            offset,
            here,
            around,
        }
    }

    // Moves over one flat token: a leaf, an opening or a closing.
    #[inline(always)]
    fn bumped(self) -> Result<Source<'a, A>, AllocError>
        requires { self.offset < flat_len (trees self.whole) }
        ensures whole { IfOk result (λ s. s.whole ≡ self.entry.whole) }
        ensures offset { IfOk result (λ s. s.offset ≡ self.entry.offset + 1) }
    {
        let Source {
            whole,
            offset,
            mut here,
            mut around,
        } = self;
        let _most = whole.flat_len();
        let offset = offset + 1;
        let Some(tree) = here.next() else {
            let Some(here) = around.pop() else {
                return Ok(Source::at(whole, offset, here, around));
            };
            return Ok(Source::at(whole, offset, here, around));
        };
        match tree {
            TtElement::Leaf(_) => Ok(Source::at(whole, offset, here, around)),
            TtElement::Subtree(_, inside) => {
                around.push(here)?;
                Ok(Source::at(whole, offset, inside, around))
            }
        }
    }

    /// Moves over `width` flat tokens, one by one. `AllocError` if out of memory.
    #[inline(always)]
    pub fn passed(self, width: usize) -> Result<Source<'a, A>, AllocError>
        requires { self.offset + width ≤ flat_len (trees self.whole) }
        ensures whole { IfOk result (λ s. s.whole ≡ self.entry.whole) }
        ensures offset { IfOk result (λ s. s.offset ≡ self.entry.offset + width) }
    {
        let mut source = self;
        for _passed in 0..width {
            source = source.bumped()?;
        }
        Ok(source)
    }

    /// Moves over whole trees of `width` flat tokens at once. `beyond` is the rest of the innermost
    /// group after these trees.
    #[inline(always)]
    pub fn jumped(self, width: usize, beyond: TtIter<'a, A>) -> Source<'a, A>
        requires fits { self.offset + width ≤ flat_len (trees self.whole) }
        requires beyond { IsAfter (rest_at (trees self.whole) self.offset) width beyond }
        ensures whole { result.whole ≡ self.entry.whole }
        ensures offset { result.offset ≡ self.entry.offset + width }
    {
        let Source {
            whole,
            offset,
            here: _,
            around,
        } = self;
        let _most = whole.flat_len();
        Source {
            whole,
            offset: offset + width,
            here: beyond,
            around,
        }
    }
}
