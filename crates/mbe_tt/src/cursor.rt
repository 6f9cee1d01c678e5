// A cursor over the flat tokens of a view.
//
// A cursor moves one flat token at a time, into groups and out of them. The names follow
// rust-analyzer's `tt`; the contracts are the project's own.
ghost use Rattle.std.specs.Prelude.{◌≡◌, ◌↔◌, ℕ, ◌+◌, min, [], IsTrue, length, option_map, ◌<◌};
ghost use Rattle.std.specs.Prelude.{◌^◌};
ghost use Rattle.mbe_tt.specs.Trees.Tree.{Forest, append, first, flat_len, rest_at};
ghost use Rattle.mbe_tt.specs.Views.Element.{element_tree};
ghost use Rattle.mbe_tt.specs.Views.LeafViews.{entries_of, entry_of};
ghost use Rattle.mbe_tt.specs.Buffers.Offsets.{Rests, spell_rests, DepthAfter, cursor_trees};
ghost use Rattle.mbe_tt.specs.Buffers.Offsets.{offset_of};
ghost use Rattle.mbe_tt.specs.Buffers.Offsets.{rest_at_cursor, IsAtRoot};

use crate::entry::Entry;
use crate::iter::{TtElement, TtIter};
use crate::view::TokenTreesView;
use std::alloc::{Allocator, Global};
use std::marker::Model;

/// An offset in a view, counted in flat tokens: leaves, openings and closings. Clauses see the
/// view's trees and the offset.
#[derive(Drop)]
#[derive_where(Clone, Debug)]
pub struct Cursor<'a, A: Allocator = Global> {
    entries: &'a [Entry<A>],
    offset: usize,
    // The number of groups around the offset.
    depth: usize,
}

impl<'a, A: Allocator> Model for Cursor<'a, A> {
    ghost use Rattle.mbe_tt.specs.Views.BufferEntries.{forest_of};
    ghost use Rattle.mbe_tt.specs.Views.LeafViews.{entries_of};
    ghost use Rattle.mbe_tt.specs.Buffers.Offsets.{CursorValue, cursor_code, IsCursor};

    ghost Value = { CursorValue };

    ghost coded = { cursor_code };

    ghost view = { λ a. (forest_of (entries_of a.entries.now), a.offset) };

    ghost invariant = { λ a. IsCursor (entries_of a.entries.now) a.offset a.depth };
}

impl<'a, A: Allocator> TokenTreesView<'a, A> {
    ghost use Rattle.mbe_tt.specs.Views.View.{trees};

    /// Returns a cursor before the first tree.
    pub fn cursor(&self) -> Cursor<'a, A>
        ensures { result ≡ (trees self.now, 0) }
    {
        Cursor {
            entries: self.entries,
            offset: 0,
            depth: 0,
        }
    }
}

impl<'a, A: Allocator> Cursor<'a, A> {
    ghost use Rattle.mbe_tt.specs.Views.View.{trees};

    /// Returns whether the cursor is in no group of the view.
    pub fn is_root(&self) -> bool
        ensures { IsTrue result ↔ IsAtRoot self.now }
    {
        self.depth == 0
    }

    /// Moves past one flat token: a leaf, an opening (into the group) or a closing (out of it).
    /// Does nothing at the view's end.
    pub fn bump_or_end(&mut self)
        ensures { self.new ≡ (
          cursor_trees self.old,
          min (offset_of self.old + 1)
              (flat_len (cursor_trees self.old)),
        ) }
    {
        let (_passed, left) = self.entries.split_at(self.offset);
        if let Some((entry, _rest)) = left.split_first() {
            self.depth = depth_after(entry, self.depth);
            self.offset += 1;
        }
    }

    /// Returns the tree that begins at the cursor. Returns `None` at the end of a group and at the
    /// view's end.
    pub fn token_tree(&self) -> Option<TtElement<'a, A>>
        ensures { option_map element_tree result ≡ first (rest_at_cursor self.now) }
    {
        let (_passed, left) = self.entries.split_at(self.offset);
        first_tree(left)
    }

    /// Returns the trees from the view's start to the cursor. The cursor must be in no group of the
    /// view.
    pub fn crossed(&self) -> TokenTreesView<'a, A>
        requires { IsAtRoot self.now }
        ensures all { append (trees result) (rest_at_cursor self.now) ≡ cursor_trees self.now }
        ensures len { flat_len (trees result) ≡ offset_of self.now }
    {
        let (passed, _left) = self.entries.split_at(self.offset);
        TokenTreesView { entries: passed }
    }
}

impl<'a, A: Allocator> TtIter<'a, A> {
    /// Moves to the cursor's offset. The cursor must be over this iterator's `remaining()`, and in
    /// no group of it.
    pub fn flat_advance_to(&mut self, cursor: &Cursor<'a, A>)
        requires same { cursor_trees cursor.now ≡ self.old }
        requires root { IsAtRoot cursor.now }
        ensures { self.new ≡ rest_at self.old (offset_of cursor.now) }
    {
        let (_passed, left) = cursor.entries.split_at(cursor.offset);
        self.entries = left;
    }
}

// Returns the first tree of a rest of a view.
fn first_tree<'a, A: Allocator>(left: &'a [Entry<A>]) -> Option<TtElement<'a, A>>
    requires { (r : Rests) × (entries_of left.now ≡ spell_rests r) }
    ensures { (r : Rests) → entries_of left.now ≡ spell_rests r
        → option_map element_tree result ≡ first r.0 }
{
    let (entry, rest) = left.split_first()?;
    match entry {
        Entry::Leaf(leaf) => Some(TtElement::Leaf(leaf)),
        Entry::Open(subtree, len) => {
            let (content, _closing) = rest.split_at(*len);
            Some(TtElement::Subtree(subtree, TtIter { entries: content }))
        }
        Entry::Close(_) => None,
    }
}

// Returns the number of groups around the offset after an entry, given the number before it.
fn depth_after<A: Allocator>(entry: &Entry<A>, depth: usize) -> usize
    requires { (after : ℕ) × DepthAfter (entry_of entry.now) depth after × (after < 2 ^ 64) }
    ensures { DepthAfter (entry_of entry.now) depth result }
{
    match entry {
        Entry::Leaf(_) => depth,
        Entry::Open(_, _) => depth + 1,
        Entry::Close(_) => depth - 1,
    }
}
