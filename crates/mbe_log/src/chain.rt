// Lists that share a prefix. A list may begin with a link: the link stands for the first entries of
// another list. A `ListPrefix` names a list and how many of its first entries are meant. `extend`
// adds an
// entry to a part and leaves every other part as it is.
ghost use Rattle.std.specs.Prelude.{◌≡◌, ◌↔◌, IsTrue, ◌<◌, [], ◌∷◌, ◌++◌, length, slice_get, Some};
ghost use Rattle.std.specs.Prelude.{None, IfOk, OnOk, OnErr};
ghost use Rattle.mbe_log.specs.Chain.{chain_len, link_to, link_in, own_in, IsWithin, IsExtended};

use mbe_semantics::list_prefix::ListPrefix;
use std::alloc::{AllocError, Allocator, Global};
use std::marker::Model;

/// A list: a link, if there is one, and the list's own entries after it. The link counts as one
/// entry.
#[derive(Drop)]
pub struct ChainList<T, A: Allocator = Global> {
    link: Option<ListPrefix>,
    // Most lists have one entry of their own. It is kept here and takes no further memory.
    first: Option<T>,
    // The own entries after the first.
    more: Vec<T, A>,
}

impl<T, A: Allocator> Model for ChainList<T, A> {
    ghost use Rattle.std.specs.Prelude.{◌+◌, ◌<◌, ◌^◌, length};
    ghost use Rattle.mbe_log.specs.Chain.{Chain, chain_code, own_entries, AreAfter};

    ghost Value = { Chain T };

    ghost coded = { chain_code T.code };

    ghost view = { λ l. record { link = l.link; own = own_entries l.first l.more.items } };

    ghost invariant = { λ l. (length l.more.items + 2 < 2 ^ 64) × AreAfter l.first l.more.items };
}

impl<T, A: Allocator> ChainList<T, A> {
    /// Makes a list that begins with this link, if there is one, and has no entry of its own.
    #[inline(always)]
    pub fn from_link(alloc: A, link: Option<ListPrefix>) -> ChainList<T, A>
        ensures { result ≡ record { link = link; own = [] } }
    {
        ChainList {
            link,
            first: None,
            more: Vec::new(alloc),
        }
    }

    /// Returns the link that stands for a part of this list. A part without an own entry is
    /// replaced by the link that it consists of, if there is one.
    #[inline(always)]
    pub fn link_to(&self, part: ListPrefix) -> Option<ListPrefix>
        ensures { result ≡ link_to part self.now }
    {
        let (link, own) = self.prefix(part.first);
        if own == 0 { link } else { Some(part) }
    }

    /// Returns the number of entries. A link counts as one.
    #[inline(always)]
    pub fn len(&self) -> usize
        ensures { result ≡ chain_len self.now }
    {
        match self.link {
            Some(_) => self.own_len() + 1,
            None => self.own_len(),
        }
    }

    /// Returns the number of the list's own entries.
    #[inline(always)]
    pub fn own_len(&self) -> usize
        ensures { result ≡ length self.now.own }
    {
        match self.first {
            Some(_) => self.more.len() + 1,
            None => 0,
        }
    }

    /// Splits the first entries into the link, if it is among them, and the number of own entries.
    #[inline(always)]
    pub fn prefix(&self, first: usize) -> (Option<ListPrefix>, usize)
        ensures link { result.0 ≡ link_in self.now.link first }
        ensures own { result.1 ≡ own_in self.now.link first }
    {
        match self.link {
            Some(link) if first > 0 => (Some(link), first - 1),
            Some(_) => (None, 0),
            None => (None, first),
        }
    }

    /// Returns the own entry at the index.
    #[inline(always)]
    pub fn own_at(&self, index: usize) -> &T
        requires { index < length self.now.own }
        ensures { slice_get self.now.own index ≡ Some result.now }
    {
        match &self.first {
            Some(first) if index == 0 => first,
            _ => &self.more[index - 1],
        }
    }
}

impl<T: Drop, A: Allocator> ChainList<T, A> {
    /// Adds an entry at the end. `AllocError` if out of memory.
    #[inline(always)]
    pub fn push(&mut self, entry: T) -> Result<(), AllocError>
        ensures ok { OnOk result (self.new ≡ record self.old { own = self.old.own ++ entry ∷ [] }) }
        ensures err { OnErr result (self.new ≡ self.old) }
    {
        if self.first.is_none() {
            self.first = Some(entry);
            return Ok(());
        }
        if self.more.len() >= usize::MAX - 2 {
            return Err(AllocError);
        }
        // Few lists get a third entry, so the second takes room for one entry.
        if self.more.is_empty() {
            self.more.reserve_exact(1)?;
        }
        self.more.push(entry)?;
        Ok(())
    }
}

/// Returns whether the part's list exists and has that many entries.
pub fn is_within<T, A: Allocator>(lists: &[ChainList<T, A>], part: ListPrefix) -> bool
    ensures { IsTrue result ↔ IsWithin lists.now part }
{
    part.list < lists.len() && part.first <= lists[part.list].len()
}

/// Adds an entry to the part and returns the longer part. The entry goes into the same list if the
/// part ends where the list ends, and else into a new list that links to the part. `AllocError` if
/// out of memory.
#[inline]
pub fn extend<T: Drop, A: Allocator + Copy>(
    alloc: A,
    lists: &mut Vec<ChainList<T, A>, A>,
    part: ListPrefix,
    entry: T,
) -> Result<ListPrefix, AllocError>
    requires { IsWithin lists.old.items part }
    ensures ok { IfOk result (λ longer.
        IsExtended lists.old.items lists.new.items part longer entry) }
    ensures err { OnErr result (lists.new.items ≡ lists.old.items) }
{
    if part.first < lists[part.list].len() {
        let mut list = ChainList::from_link(alloc, lists[part.list].link_to(part));
        list.push(entry)?;
        let longer = ListPrefix {
            list: lists.len(),
            first: list.len(),
        };
        lists.push(list)?;
        return Ok(longer);
    }
    lists[part.list].push(entry)?;
    let first = lists[part.list].len();
    Ok(ListPrefix {
        list: part.list,
        first,
    })
}
