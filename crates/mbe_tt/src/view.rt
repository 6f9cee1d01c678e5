// Views: trees that stand side by side in a buffer, or one group of it.
//
// The names follow rust-analyzer's `tt`; the contracts are the project's own.
ghost use Rattle.std.specs.Prelude.{◌≡◌, IfOk, option_map, ⊤};
ghost use Rattle.mbe_tt.specs.Views.BufferEntries.{Spelled, Spelled-prop};
ghost use Rattle.std.specs.Prelude.{IsTrue, ◌↔◌};
ghost use Rattle.mbe_tt.specs.Views.LeafViews.{entries_of};
ghost use Rattle.std.specs.Cmp.{partial_equiv_from_equiv};
ghost use Rattle.mbe_tt.specs.Trees.Tree.{tree_count, flat_len, strip_invisible, one_group};

use crate::buffer::TopSubtree;
use crate::builder::TopSubtreeBuilder;
use crate::entry::{Entry, same_entries};
use crate::iter::{TtElement, TtIter};
use crate::tt::{Delimiter, DelimiterKind, Subtree};
use std::alloc::{AllocError, Allocator, Global};

/// Trees that stand side by side in a buffer, borrowed from it. Clauses see them by `trees`.
///
/// Two views are equal if their trees are, spans and spacing included.
#[derive_where(Debug)]
pub struct TokenTreesView<'a, A: Allocator = Global> {
    pub(crate) entries: &'a [Entry<A>],
    ghost spelled: { Spelled (entries_of entries.now) } by { Spelled-prop (entries_of entries.now) },
}

impl<'a, A: Allocator> Copy for TokenTreesView<'a, A> {}

impl<'a, A: Allocator> Clone for TokenTreesView<'a, A> {
    ghost is_clone = { λ x y. y ≡ x };

    ghost is_infallible = { λ _. ⊤ };

    fn clone(&self) -> Result<TokenTreesView<'a, A>, AllocError> {
        Ok(*self)
    }
}

impl<'a, A: Allocator> TokenTreesView<'a, A> {
    ghost use Rattle.mbe_tt.specs.Views.View.{trees, group_of};

    /// Returns an iterator over the trees.
    pub fn iter(&self) -> TtIter<'a, A>
        ensures { result ≡ trees self.now }
    {
        TtIter {
            entries: self.entries,
        }
    }

    /// Returns the number of flat tokens: leaves, openings and closings.
    pub fn flat_len(&self) -> usize
        ensures { result ≡ flat_len (trees self.now) }
    {
        self.entries.len()
    }

    /// Returns the number of trees.
    pub fn len(&self) -> usize
        ensures { result ≡ tree_count (trees self.now) }
    {
        let _most = self.flat_len();
        let mut iter = self.iter();
        let mut n = 0;
        while let Some(_tree) = iter.next() {
            n += 1;
        }
        n
    }

    /// Returns the content if the view is exactly one invisible group, and the view itself
    /// otherwise. Opens only one level.
    pub fn strip_invisible(self) -> TokenTreesView<'a, A>
        ensures { trees result ≡ strip_invisible (trees self.entry) }
    {
        let mut iter = self.iter();
        if let Some(TtElement::Subtree(subtree, inside)) = iter.next()
            && iter.is_empty()
            && subtree.delimiter.kind == DelimiterKind::Invisible
        {
            return inside.remaining();
        }
        self
    }

    /// Returns the group if the view is exactly one group, and `None` otherwise.
    pub fn try_into_subtree(self) -> Option<SubtreeView<'a, A>>
        ensures { option_map group_of result ≡ one_group (trees self.entry) }
    {
        let mut iter = self.iter();
        if let Some(TtElement::Subtree(subtree, inside)) = iter.next()
            && iter.is_empty()
        {
            return Some(SubtreeView {
                subtree,
                inside: inside.remaining(),
            });
        }
        None
    }
}

impl<'a, A: Allocator + Copy> TokenTreesView<'a, A> {
    ghost use Rattle.mbe_tt.specs.Views.View.{trees};

    /// Copies the trees into a new buffer, inside that delimiter. Returns `AllocError` if out of
    /// memory.
    pub fn try_to_buffer(self, alloc: A, delimiter: Delimiter) -> Result<TopSubtree<A>, AllocError>
        ensures { IfOk result (λ t. t ≡ (delimiter, trees self.entry)) }
    {
        let mut builder = TopSubtreeBuilder::new(alloc, delimiter)?;
        builder.extend_with_tt(self)?;
        Ok(builder.build())
    }
}

/// One group of a buffer, borrowed from it. Clauses see its delimiter and its content by
/// `group_of`.
#[derive_where(Clone, Copy, Debug)]
pub struct SubtreeView<'a, A: Allocator = Global> {
    subtree: &'a Subtree,
    inside: TokenTreesView<'a, A>,
}

impl<'a, A: Allocator> SubtreeView<'a, A> {
    ghost use Rattle.mbe_tt.specs.Views.View.{group_of};
    ghost use Rattle.mbe_tt.specs.Trees.Top.{delimiter_of, inside};

    /// Returns the group without its content.
    pub fn top_subtree(&self) -> &'a Subtree
        ensures { result.now.delimiter ≡ delimiter_of (group_of self.now) }
    {
        self.subtree
    }

    /// Returns an iterator over the trees inside.
    pub fn iter(&self) -> TtIter<'a, A>
        ensures { result ≡ inside (group_of self.now) }
    {
        self.inside.iter()
    }
}

impl<'a, A: Allocator + Copy> SubtreeView<'a, A> {
    ghost use Rattle.mbe_tt.specs.Views.View.{group_of};

    /// Copies the group into a new buffer. Returns `AllocError` if out of memory.
    pub fn try_to_buffer(self, alloc: A) -> Result<TopSubtree<A>, AllocError>
        ensures { IfOk result (λ t. t ≡ group_of self.entry) }
    {
        self.inside.try_to_buffer(alloc, self.subtree.delimiter)
    }
}

impl<'a, A: Allocator> PartialEq for TokenTreesView<'a, A> {
    ghost use Rattle.mbe_tt.specs.Views.View.{view_eq, view_eq_laws};

    ghost eq = { view_eq };

    ghost laws = { partial_equiv_from_equiv view_eq_laws };

    fn eq(&self, other: &TokenTreesView<'a, A>) -> bool {
        same_entries(self.entries, other.entries)
    }
}

impl<'a, A: Allocator> Eq for TokenTreesView<'a, A> {
    ghost use Rattle.mbe_tt.specs.Views.View.{view_eq_laws};

    ghost laws = { view_eq_laws };
}

impl<'a, A: Allocator> PartialEq for SubtreeView<'a, A> {
    ghost use Rattle.mbe_tt.specs.Views.View.{subtree_view_eq, subtree_view_eq_laws};

    ghost eq = { subtree_view_eq };

    ghost laws = { partial_equiv_from_equiv subtree_view_eq_laws };

    fn eq(&self, other: &SubtreeView<'a, A>) -> bool {
        self.is_same(other)
    }
}

impl<'a, A: Allocator> Eq for SubtreeView<'a, A> {
    ghost use Rattle.mbe_tt.specs.Views.View.{subtree_view_eq_laws};

    ghost laws = { subtree_view_eq_laws };
}

impl<'a, A: Allocator> SubtreeView<'a, A> {
    ghost use Rattle.mbe_tt.specs.Views.View.{group_of};

    // Returns whether the delimiters and the contents are the same.
    fn is_same(&self, other: &SubtreeView<'a, A>) -> bool
        ensures { IsTrue result ↔ (group_of self.now ≡ group_of other.now) }
    {
        same_delimiter(&self.subtree.delimiter, &other.subtree.delimiter)
            && self.inside == other.inside
    }
}

fn same_delimiter(one: &Delimiter, two: &Delimiter) -> bool
    ensures { IsTrue result ↔ (one.now ≡ two.now) }
{
    one == two
}
