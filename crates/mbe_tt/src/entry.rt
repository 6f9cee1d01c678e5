// The entries of a flat buffer. Each entry is one flat token: a leaf, an opening or a closing.
ghost use Rattle.std.specs.Prelude.{◌≡◌, ◌↔◌, IsTrue};
ghost use Rattle.mbe_tt.specs.Views.LeafViews.{entry_of, entries_of};
ghost use Rattle.std.specs.Cmp.{partial_equiv_from_equiv};

use crate::tt::{Leaf, Subtree, same_leaf};
use std::alloc::{AllocError, Allocator, Global};

// A group is its opening, its content and its closing. The opening and the closing both hold the
// number of entries of the content, so that a reader skips the group from either end in one step.
// Clauses see the opening's number alone. A reader that uses the closing's number checks that the
// opening agrees.
#[derive(Drop)]
#[derive_where(Debug)]
pub(crate) enum Entry<A: Allocator = Global> {
    Leaf(Leaf<A>),
    Open(Subtree, usize),
    Close(usize),
}

impl<A: Allocator> Clone for Entry<A> {
    ghost is_clone = { λ x y. y ≡ x };

    fn clone(&self) -> Result<Entry<A>, AllocError> {
        Ok(match self {
            Entry::Leaf(leaf) => Entry::Leaf(leaf.clone()?),
            Entry::Open(subtree, len) => Entry::Open(*subtree, *len),
            Entry::Close(len) => Entry::Close(*len),
        })
    }
}

impl<A: Allocator> PartialEq for Entry<A> {
    ghost use Rattle.mbe_tt.specs.Views.LeafViews.{entry_eq, entry_eq_laws};

    ghost eq = { entry_eq };

    ghost laws = { partial_equiv_from_equiv entry_eq_laws };

    fn eq(&self, other: &Entry<A>) -> bool {
        same_entry(self, other)
    }
}

impl<A: Allocator> Eq for Entry<A> {
    ghost use Rattle.mbe_tt.specs.Views.LeafViews.{entry_eq_laws};

    ghost laws = { entry_eq_laws };
}

fn same_entry<A: Allocator>(one: &Entry<A>, two: &Entry<A>) -> bool
    ensures { IsTrue result ↔ (entry_of one.now ≡ entry_of two.now) }
{
    match (one, two) {
        (Entry::Leaf(one), Entry::Leaf(two)) => same_leaf(one, two),
        (Entry::Open(one, n), Entry::Open(two, m)) => one == two && n == m,
        (Entry::Close(_), Entry::Close(_)) => true,
        _ => false,
    }
}

// Returns whether the entries are equal, in clauses' view of them.
pub(crate) fn same_entries<A: Allocator>(one: &[Entry<A>], two: &[Entry<A>]) -> bool
    ensures { IsTrue result ↔ (entries_of one.now ≡ entries_of two.now) }
{
    one == two
}
