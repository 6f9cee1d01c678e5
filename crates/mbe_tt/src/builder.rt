// A builder of buffers. It writes leaves, and opens and closes groups.
//
// While a group is open, its opening holds the index of the opening around it. When the group is
// closed, its opening and its closing get the length of its content. The names follow
// rust-analyzer's `tt`; the contracts are the project's own.
ghost use Rattle.std.specs.Prelude.{◌≡◌, ℕ, ◌+◌, ◌<◌, ◌≤◌, List, [], ◌∷◌, ◌++◌, length, slice_set};
ghost use Rattle.std.specs.Prelude.{vec_capacity, vec_len, IfOk, IfSome, IfNone, OnOk, OnErr};
ghost use Rattle.mbe_tt.specs.Buffers.OpensAt.{OpensAt};
ghost use Rattle.mbe_tt.specs.Views.BufferEntry.{Entry as FlatEntry, Open, Close};
ghost use Rattle.mbe_tt.specs.Views.LeafViews.{entries_of, entry_of, leaf_of, leaves_of};
ghost use Rattle.mbe_tt.specs.declared.tt.Subtree.{Subtree};
ghost use Rattle.mbe_tt.specs.Trees.Tree.{Forest, none, one_leaf, alone};
ghost use Rattle.mbe_tt.specs.Trees.Tree as spec;
ghost use Rattle.mbe_tt.specs.Views.BufferEntry as flat;
ghost use Rattle.mbe_tt.specs.Views.BufferEntries.{Spelled, forest_of};
ghost use Rattle.mbe_tt.specs.Views.Element.{element_tree};
ghost use Rattle.std.specs.Iterator.{Drains, IsFinite};
ghost use Rattle.std.specs.Prelude.{take, drop, ◌-◌, Some, None, if◌then◌else◌};

use crate::buffer::TopSubtree;
use crate::entry::Entry;
use crate::iter::{TtElement, TtIter};
use crate::span::Span;
use crate::tt::{Delimiter, DelimiterKind, Leaf, Punct, Spacing, Subtree};
use crate::view::TokenTreesView;
use std::alloc::{AllocError, Allocator, Global};
use std::marker::Model;

/// A buffer that is being written. Clauses see the open groups, innermost first, each with its
/// trees so far.
///
/// After an `AllocError` the builder holds what it held before the call. It allocates with the
/// allocator that `new` was given.
#[derive(Drop)]
#[derive_where(Debug)]
pub struct TopSubtreeBuilder<A: Allocator = Global> {
    entries: Vec<Entry<A>, A>,
    // The index of the innermost open group's opening. Until the group is closed, that entry holds
    // the index of the opening around it.
    at: usize,
    // The number of open groups. The buffer has room for a closing of each.
    depth: usize,
}

impl<A: Allocator> Model for TopSubtreeBuilder<A> {
    ghost use Rattle.std.specs.Prelude.{vec_capacity};
    ghost use Rattle.mbe_tt.specs.Buffers.GroupStack.{GroupStack, stack_of, stack_code, IsBuilder};
    ghost use Rattle.mbe_tt.specs.Views.LeafViews.{entries_of};

    ghost Value = { GroupStack };

    ghost coded = { stack_code };

    ghost view = { λ b. stack_of (entries_of b.entries.items) };

    ghost invariant = { λ b.
        IsBuilder (entries_of b.entries.items) (vec_capacity b.entries) b.at b.depth };
}

impl<A: Allocator> TopSubtreeBuilder<A> {
    ghost use Rattle.mbe_tt.specs.Buffers.GroupStack.{GroupStack, innermost_kind, put, closed};
    ghost use Rattle.mbe_tt.specs.Buffers.GroupStack.{flat_written, unwrap_last, IsEarlier};
    ghost use Rattle.mbe_tt.specs.Views.View.{trees};

    /// Returns a builder with one open group, the outermost one. Returns `AllocError` if out of
    /// memory.
    pub fn new(alloc: A, delimiter: Delimiter) -> Result<TopSubtreeBuilder<A>, AllocError>
        ensures { IfOk result (λ b. b ≡ (delimiter, none) ∷ []) }
    {
        let mut entries = Vec::with_capacity(alloc, 2)?;
        entries.push(Entry::Open(Subtree { delimiter }, 0))?;
        Ok(TopSubtreeBuilder {
            entries,
            at: 0,
            depth: 1,
        })
    }

    /// Reserves room for so many more flat tokens. Returns `AllocError` if out of memory.
    pub fn reserve(&mut self, more: usize) -> Result<(), AllocError>
        ensures { self.new ≡ self.old }
    {
        self.entries.reserve(more.saturating_add(self.depth))
    }

    /// Writes a leaf at the end of the innermost open group. Returns `AllocError` if out of
    /// memory.
    #[inline(always)]
    pub fn push(&mut self, leaf: Leaf<A>) -> Result<(), AllocError>
        ensures ok { OnOk result (self.new ≡ put (one_leaf (leaf_of leaf)) self.old) }
        ensures err { OnErr result (self.new ≡ self.old) }
    {
        reserve(&mut self.entries, self.depth + 1)?;
        self.entries.push_reserved(Entry::Leaf(leaf));
        Ok(())
    }

    /// Opens a group at the end of the innermost open one, and reserves room for its closing.
    /// Until the group is closed, its closing span equals its opening span. Returns `AllocError`
    /// if out of memory.
    #[inline(always)]
    pub fn open(&mut self, kind: DelimiterKind, span: Span) -> Result<(), AllocError>
        ensures ok { OnOk result
            (self.new ≡ (record { opening = span; close = span; kind = kind }, none) ∷ self.old) }
        ensures err { OnErr result (self.new ≡ self.old) }
    {
        reserve(&mut self.entries, self.depth + 2)?;
        let begin = self.entries.len();
        let delimiter = Delimiter {
            opening: span,
            close: span,
            kind,
        };
        self.entries
            .push_reserved(Entry::Open(Subtree { delimiter }, self.at));
        self.at = begin;
        self.depth += 1;
        Ok(())
    }

    /// Returns the kind of the innermost open group, or `None` if only the outermost group is
    /// open. A caller learns from it whether it may call `close`, and whether a closing matches.
    /// The call is the project's own.
    #[inline(always)]
    pub fn open_kind(&self) -> Option<DelimiterKind>
        ensures kind { result ≡ innermost_kind self.now }
        ensures inside { IfSome result (λ _. 1 < length self.now) }
        ensures whole { IfNone result (length self.now ≡ 1) }
    {
        if self.depth == 1 {
            return None;
        }
        let (subtree, _around) = opening_at(&self.entries, self.at);
        Some(subtree.delimiter.kind)
    }

    /// Closes the innermost open group with that span. A group other than the outermost must be
    /// open. Allocates nothing.
    #[inline(always)]
    pub fn close(&mut self, span: Span)
        requires { 1 < length self.old }
        ensures { self.new ≡ closed span self.old }
    {
        let (mut subtree, around) = opening_at(&self.entries, self.at);
        subtree.delimiter.close = span;
        close_at(&mut self.entries, self.at, subtree);
        self.at = around;
        self.depth -= 1;
    }

    /// Writes copies of the view's trees at the end of the innermost open group. Returns
    /// `AllocError` if out of memory.
    pub fn extend_with_tt(&mut self, view: TokenTreesView<'_, A>) -> Result<(), AllocError>
        ensures ok { OnOk result (self.new ≡ put (trees view.entry) self.old) }
        ensures err { OnErr result (self.new ≡ self.old) }
    {
        self.entries
            .reserve(view.entries.len().saturating_add(self.depth))?;
        self.entries.extend_from_slice(view.entries)?;
        Ok(())
    }

    /// Does the same, but writes the last of these trees as `Alone` if it is a punct. Puncts
    /// inside groups keep their spacing.
    pub fn extend_with_tt_alone(&mut self, view: TokenTreesView<'_, A>) -> Result<(), AllocError>
        ensures ok { OnOk result (self.new ≡ put (alone (trees view.entry)) self.old) }
        ensures err { OnErr result (self.new ≡ self.old) }
    {
        let Some((last, front)) = view.entries.split_last() else {
            return self.extend_with_tt(view);
        };
        let Some(punct) = entry_punct(last) else {
            return self.extend_with_tt(view);
        };
        self.entries
            .reserve(view.entries.len().saturating_add(self.depth))?;
        self.entries.extend_from_slice(front)?;
        let alone = Punct {
            char: punct.char,
            spacing: Spacing::Alone,
            span: punct.span,
        };
        let Ok(()) = self.entries.push(Entry::Leaf(Leaf::Punct(alone))) else {
            unreachable!()
        };
        Ok(())
    }

    /// Replaces the last tree of the innermost open group by its content, if that tree is an
    /// invisible group. Otherwise it does nothing. Allocates nothing.
    pub fn remove_last_subtree_if_invisible(&mut self)
        ensures { self.new ≡ unwrap_last self.old }
    {
        let (_before, trees) = self.entries.split_at(self.at + 1);
        if let Some(offset) = last_invisible(trees) {
            unwrap_at(&mut self.entries, self.at + 1 + offset);
        }
    }

    /// Writes the leaves one after another at the end of the innermost open group. The iterator of
    /// leaves must end. On `AllocError` none of them is written.
    pub fn extend<I: IntoIterator<Item = Leaf<A>>>(&mut self, leaves: I) -> Result<(), AllocError>
        requires { (s : I.IntoIter) → I.into_iter_gives leaves s → I.IntoIter.can_next s
            × IsFinite (I.IntoIter.remaining s) }
        ensures ok { OnOk result ((s : I.IntoIter) × (xs : List (Leaf A))
            × I.into_iter_gives leaves s × Drains I.IntoIter.next_gives s xs
            × (self.new ≡ put (leaves_of xs) self.old)) }
        ensures err { OnErr result (self.new ≡ self.old) }
    {
        let point = self.restore_point();
        for leaf in leaves {
            if let Err(error) = self.push(leaf) {
                self.restore(point);
                return Err(error);
            }
        }
        Ok(())
    }

    /// Returns the number of flat tokens written so far, without the opening of the outermost
    /// group.
    pub fn restore_point(&self) -> usize
        ensures { result ≡ flat_written self.now }
    {
        self.entries.len() - 1
    }

    /// Keeps the first `point` flat tokens and removes the rest. There must be so many, and the
    /// groups that are open after the last of them must be those that are open now. Allocates
    /// nothing.
    pub fn restore(&mut self, point: usize)
        requires { (kept : GroupStack) × IsEarlier self.old point kept }
        ensures { (kept : GroupStack) (since : Forest) → self.old ≡ put since kept
            → flat_written kept ≡ point → self.new ≡ kept }
    {
        self.entries.truncate(point + 1);
    }

    /// Closes the outermost group and returns the buffer. No other group may be open. Allocates
    /// nothing.
    pub fn build(self) -> TopSubtree<A>
        requires { length self ≡ 1 }
        ensures { self ≡ result ∷ [] }
    {
        let TopSubtreeBuilder { mut entries, .. } = self;
        let (subtree, _around) = opening_at(&entries, 0);
        close_at(&mut entries, 0, subtree);
        TopSubtree { entries }
    }
}

// Reserves room for so many more entries. The allocation is a call of its own, so that a push is
// short if there is room.
#[inline(always)]
fn reserve<A: Allocator>(entries: &mut Vec<Entry<A>, A>, more: usize) -> Result<(), AllocError>
    ensures items { entries.new.items ≡ entries.old.items }
    ensures len { vec_len entries.new ≡ vec_len entries.old }
    ensures ok { OnOk result (vec_len entries.new + more ≤ vec_capacity entries.new) }
    ensures capacity { vec_capacity entries.old ≤ vec_capacity entries.new }
{
    if more <= entries.capacity() - entries.len() {
        return Ok(());
    }
    grow(entries, more)
}

#[inline(never)]
fn grow<A: Allocator>(entries: &mut Vec<Entry<A>, A>, more: usize) -> Result<(), AllocError>
    ensures items { entries.new.items ≡ entries.old.items }
    ensures len { vec_len entries.new ≡ vec_len entries.old }
    ensures ok { OnOk result (vec_len entries.new + more ≤ vec_capacity entries.new) }
    ensures capacity { vec_capacity entries.old ≤ vec_capacity entries.new }
{
    entries.reserve(more)
}

fn entry_punct<A: Allocator>(entry: &Entry<A>) -> Option<Punct>
    ensures { result ≡ flat.entry_punct (entry_of entry.now) }
{
    match entry {
        Entry::Leaf(Leaf::Punct(punct)) => Some(*punct),
        _ => None,
    }
}

// Returns the index of the last tree, if that is an invisible group. The closing says where the
// group begins, so the time doesn't depend on the number of trees before it.
fn last_invisible<A: Allocator>(entries: &[Entry<A>]) -> Option<usize>
    requires { Spelled (entries_of entries.now) }
    ensures { result ≡ spec.last_invisible (forest_of (entries_of entries.now)) }
{
    let (last, front) = entries.split_last()?;
    let Entry::Close(len) = last else {
        return None;
    };
    if let Some(offset) = front.len().checked_sub(len.saturating_add(1)) {
        let (_before, group) = entries.split_at(offset);
        if let Some((Entry::Open(subtree, inside), _content)) = group.split_first()
            && inside == len
        {
            return match subtree.delimiter.kind {
                DelimiterKind::Invisible => Some(offset),
                _ => None,
            };
        }
    }
    find_last_invisible(entries)
}

// Does the same tree by tree, for a closing that its opening doesn't agree with.
fn find_last_invisible<A: Allocator>(entries: &[Entry<A>]) -> Option<usize>
    requires { Spelled (entries_of entries.now) }
    ensures { result ≡ spec.last_invisible (forest_of (entries_of entries.now)) }
{
    let mut iter = TtIter { entries };
    let mut offset = 0;
    while let Some(tree) = iter.next() {
        if iter.is_empty() {
            return if is_invisible(&tree) {
                Some(offset)
            } else {
                None
            };
        }
        offset = entries.len() - iter.remaining().flat_len();
    }
    None
}

fn is_invisible<A: Allocator>(tree: &TtElement<'_, A>) -> bool
    ensures { (if result then Some 0 else None)
        ≡ spec.last_invisible (spec.tree (element_tree tree.now) none) }
{
    match tree {
        TtElement::Leaf(_) => false,
        TtElement::Subtree(subtree, _) => subtree.delimiter.kind == DelimiterKind::Invisible,
    }
}

// Removes the opening at that index, and the closing at the end.
fn unwrap_at<A: Allocator>(entries: &mut Vec<Entry<A>, A>, offset: usize)
    requires { offset + 1 < length entries.old.items }
    ensures items { entries_of entries.new.items
        ≡ take offset (take (length entries.old.items - 1) (entries_of entries.old.items))
        ++ drop (offset + 1) (take (length entries.old.items - 1) (entries_of entries.old.items)) }
    ensures capacity { vec_capacity entries.new ≡ vec_capacity entries.old }
{
    let _closing = entries.pop();
    let _opening = entries.remove(offset);
}

// Returns the group and the number that the opening at that index holds.
#[inline(always)]
fn opening_at<A: Allocator>(entries: &Vec<Entry<A>, A>, at: usize) -> (Subtree, usize)
    requires { (s : Subtree) × (n : ℕ) × OpensAt (entries_of entries.now.items) at s n }
    ensures { OpensAt (entries_of entries.now.items) at result.0 result.1 }
{
    if let Entry::Open(subtree, around) = &entries[at] {
        (*subtree, *around)
    } else {
        unreachable!()
    }
}

// Closes the group whose opening is at that index. The closing goes to the end, where there must
// be room.
#[inline(always)]
fn close_at<A: Allocator>(entries: &mut Vec<Entry<A>, A>, at: usize, subtree: Subtree)
    requires opens { (s : Subtree) × (n : ℕ) × OpensAt (entries_of entries.old.items) at s n }
    requires room { length entries.old.items < vec_capacity entries.old }
    ensures items { (before after : List FlatEntry) (s : Subtree) (n : ℕ)
        → entries_of entries.old.items ≡ before ++ Open s n ∷ after → at ≡ length before
        → entries_of entries.new.items
        ≡ before ++ Open subtree (length after) ∷ (after ++ Close ∷ []) }
    ensures capacity { vec_capacity entries.old ≤ vec_capacity entries.new }
{
    let len = entries.len() - at - 1;
    set_entry(entries, at, Entry::Open(subtree, len));
    entries.push_reserved(Entry::Close(len));
}

#[inline(always)]
fn set_entry<A: Allocator>(entries: &mut Vec<Entry<A>, A>, at: usize, entry: Entry<A>)
    requires { at < length entries.old.items }
    ensures items { entries_of entries.new.items
        ≡ slice_set (entries_of entries.old.items) at (entry_of entry) }
    ensures capacity { vec_capacity entries.new ≡ vec_capacity entries.old }
{
    entries[at] = entry;
}
