// The entries of a part of a list, through its links. A slot is a list and an index among the
// list's own entries: `slots` returns the slot of each entry. `single_entry`, `two` and
// `unlinked_entries` answer
// the common cases without a list of slots.
ghost use Rattle.std.specs.Prelude.{◌≡◌, [], ◌∷◌, ◌++◌, ◌≤◌, length, take, IfOk, OnOk, IfSome};
ghost use Rattle.mbe_log.specs.Chain.{IsChained, IsWithin};
ghost use Rattle.mbe_bindings.specs.FlatEntries.{AreSlots, Flat, slots_down};

use mbe_log::chain::ChainList;
use mbe_semantics::list_prefix::ListPrefix;
use std::alloc::{AllocError, Allocator};

/// Returns the entry of a part that has exactly one entry and no link.
pub(crate) fn single_entry<T, A: Allocator>(
    lists: &[ChainList<T, A>],
    part: ListPrefix,
) -> Option<&T>
    requires { IsWithin lists.now part }
    ensures { IfSome result (λ entry. Flat lists.now part (entry.now ∷ [])) }
{
    let list = &lists[part.list];
    match list.prefix(part.first) {
        (None, 1) => Some(list.own_at(0)),
        _ => None,
    }
}

/// Returns the entries of a part that has exactly two entries and no link.
#[inline(always)]
pub(crate) fn two<T, A: Allocator>(lists: &[ChainList<T, A>], part: ListPrefix) -> Option<(&T, &T)>
    requires { IsWithin lists.now part }
    ensures { IfSome result (λ p. Flat lists.now part (p.0.now ∷ (p.1.now ∷ []))) }
{
    let list = &lists[part.list];
    match list.prefix(part.first) {
        (None, 2) => {
            let first = list.own_at(0);
            let second = list.own_at(1);
            Some((first, second))
        }
        _ => None,
    }
}

/// Returns the list of a part without a link, and how many of its first entries are the part's.
#[inline(always)]
pub(crate) fn unlinked_entries<T, A: Allocator>(
    lists: &[ChainList<T, A>],
    part: ListPrefix,
) -> Option<(&ChainList<T, A>, usize)>
    requires { IsWithin lists.now part }
    ensures { IfSome result (λ p. (p.1 ≤ length p.0.now.own)
        × Flat lists.now part (take p.1 p.0.now.own)) }
{
    let list = &lists[part.list];
    match list.prefix(part.first) {
        (None, count) => Some((list, count)),
        _ => None,
    }
}

/// Returns the slots of a part's entries, in order. Each link is replaced by the entries that it
/// stands for.
pub(crate) fn slots<T, A: Allocator + Copy>(
    alloc: A,
    lists: &[ChainList<T, A>],
    part: ListPrefix,
) -> Result<Vec<ListPrefix, A>, AllocError>
    requires chained { IsChained lists.now }
    requires within { IsWithin lists.now part }
    ensures { IfOk result (λ v. AreSlots lists.now part v.items) }
{
    let mut slots = Vec::new(alloc);
    let mut next = Some(part);
    while let Some(part) = next {
        let (link, own) = lists[part.list].prefix(part.first);
        push_slots(&mut slots, part.list, own)?;
        next = link;
    }
    slots.reverse();
    Ok(slots)
}

// Pushes the slots of a list's first own entries, last first.
fn push_slots<A: Allocator>(
    slots: &mut Vec<ListPrefix, A>,
    list: usize,
    count: usize,
) -> Result<(), AllocError>
    ensures { OnOk result (slots.new.items ≡ slots.old.items ++ slots_down list count) }
{
    let mut first = count;
    while first > 0 {
        first -= 1;
        slots.push(ListPrefix { list, first })?;
    }
    Ok(())
}
