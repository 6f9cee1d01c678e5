// A flat buffer that holds one group of trees.
//
// The names follow rust-analyzer's `tt`; the contracts are the project's own.
ghost use Rattle.std.specs.Prelude.{◌≡◌, IfOk};
ghost use Rattle.mbe_tt.specs.Trees.Tree.{none};
ghost use Rattle.mbe_tt.specs.Trees.Top.{top_code};
ghost use Rattle.mbe_tt.specs.Laws.CodeEquality.{same, same_equiv};
ghost use Rattle.std.specs.Cmp.{partial_equiv_from_equiv};

use crate::builder::TopSubtreeBuilder;
use crate::entry::{Entry, same_entries};
use crate::iter::TtIter;
use crate::span::DelimSpan;
use crate::tt::{Delimiter, DelimiterKind, Subtree};
use crate::view::TokenTreesView;
use std::alloc::{AllocError, Allocator, Global};
use std::marker::Model;

/// One group with its content. Clauses see its delimiter and the trees inside.
///
/// Two buffers are equal if their groups are, spans and spacing included.
#[derive(Drop)]
#[derive_where(Debug)]
pub struct TopSubtree<A: Allocator = Global> {
    pub(crate) entries: Vec<Entry<A>, A>,
}

impl<A: Allocator> Model for TopSubtree<A> {
    ghost use Rattle.std.specs.Prelude.{◌≡◌};
    ghost use Rattle.mbe_tt.specs.Views.BufferEntries.{forest_of, spell};
    ghost use Rattle.mbe_tt.specs.Views.LeafViews.{entries_of};
    ghost use Rattle.mbe_tt.specs.Trees.Top.{Top, top_of, top_group, top_code};

    ghost Value = { Top };

    ghost coded = { top_code };

    ghost view = { λ a. top_of (forest_of (entries_of a.entries.items)) };

    ghost invariant = { λ a. entries_of a.entries.items
        ≡ spell (top_group (top_of (forest_of (entries_of a.entries.items)))) };
}

impl<A: Allocator> TopSubtree<A> {
    ghost use Rattle.mbe_tt.specs.Views.View.{trees};
    ghost use Rattle.mbe_tt.specs.Trees.Top.{top_group, delimiter_of, inside};
    ghost use Rattle.mbe_tt.specs.declared.tt.DelimiterKind.TheVariants.{Invisible};

    /// Returns an empty invisible group with those spans. Returns `AllocError` if out of memory.
    pub fn empty(alloc: A, span: DelimSpan) -> Result<TopSubtree<A>, AllocError>
        ensures { IfOk result
            (λ t. t ≡ (
              record { opening = span.opening; close = span.close; kind = Invisible },
              none,
            )) }
    {
        let delimiter = Delimiter {
            opening: span.opening,
            close: span.close,
            kind: DelimiterKind::Invisible,
        };
        Ok(TopSubtreeBuilder::new(alloc, delimiter)?.build())
    }

    /// Returns a view of one tree: the whole group.
    pub fn view(&self) -> TokenTreesView<'_, A>
        ensures { trees result ≡ top_group self.now }
    {
        TokenTreesView {
            entries: self.entries.as_slice(),
        }
    }

    /// Returns the group without its content.
    pub fn top_subtree(&self) -> &Subtree
        ensures { result.now.delimiter ≡ delimiter_of self.now }
    {
        let Entry::Open(subtree, _) = &self.entries[0] else {
            unreachable!()
        };
        subtree
    }

    /// Returns an iterator over the trees inside.
    pub fn iter(&self) -> TtIter<'_, A>
        ensures { result ≡ inside self.now }
    {
        let mut iter = self.view().iter();
        let Ok((_subtree, inside)) = iter.expect_subtree() else {
            unreachable!()
        };
        inside
    }
}

impl<A: Allocator + Copy> TopSubtree<A> {
    /// Returns an equal copy in memory of the same allocator. Returns `AllocError` if out of
    /// memory.
    pub fn try_clone(&self) -> Result<TopSubtree<A>, AllocError>
        ensures { IfOk result (λ t. t ≡ self.now) }
    {
        let entries = self.entries.clone()?;
        Ok(TopSubtree { entries })
    }
}

impl<A: Allocator> PartialEq for TopSubtree<A> {
    ghost eq = { same top_code };

    ghost laws = { partial_equiv_from_equiv (same_equiv top_code) };

    fn eq(&self, other: &TopSubtree<A>) -> bool {
        same_entries(&self.entries, &other.entries)
    }
}

impl<A: Allocator> Eq for TopSubtree<A> {
    ghost laws = { same_equiv top_code };
}
