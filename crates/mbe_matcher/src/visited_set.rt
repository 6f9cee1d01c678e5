// The set of states that were visited at an offset.
ghost use Rattle.std.specs.Prelude.{◌≡◌, ℕ, ◌+◌, ◌<◌, ◌≤◌, List, [], length, IfOk, true, false};
ghost use Rattle.std.specs.Prelude.{nat_lt};
ghost use Rattle.mbe_laws.specs.Bounded.ClosureTwoEach.{times, cons_if};
ghost use Rattle.mbe_matcher.specs.VisitedSet.{is_visited, AreVisited, AreUnvisitedFrom, unvisited};

use std::alloc::{AllocError, Allocator, Global};

// The offset of each state's last visit. The index is the state's number less one. A visit counts
// at its own offset alone, so nothing has to be cleared between offsets.
#[derive(Drop)]
pub(crate) struct VisitedSet<A: Allocator = Global> {
    offsets: Vec<Option<usize>, A>,
}

#[inline(always)]
fn is_visited(last: Option<usize>, offset: usize) -> bool
    ensures { result ≡ is_visited offset last }
{
    match last {
        None => false,
        Some(visited) => visited == offset,
    }
}

impl<A: Allocator> VisitedSet<A> {
    // Returns the set for a pattern with `state_count` states, none of which was visited.
    pub(crate) fn new(alloc: A, state_count: usize) -> Result<VisitedSet<A>, AllocError>
        ensures size { IfOk result (λ m. length m.offsets.items ≡ state_count) }
        ensures unvisited { IfOk result (λ m. AreUnvisitedFrom m.offsets.items 0) }
    {
        let nowhere: Option<usize> = None;
        let offsets = vec![in alloc; nowhere; state_count]?;
        Ok(VisitedSet { offsets })
    }

    // Visits the state at the offset. Returns whether this is its first visit there.
    #[inline(always)]
    pub(crate) fn try_visit(&mut self, number: usize, offset: usize) -> bool
        requires some { 0 < number }
        requires within { number ≤ length self.old.offsets.items }
        ensures counted { (visited : List ℕ) → AreVisited self.old.offsets.items offset visited
            → (result ≡ nat_lt (times number visited) 1)
            × AreVisited self.new.offsets.items offset (cons_if result number visited) }
        ensures unvisited { AreUnvisitedFrom self.old.offsets.items (offset + 1)
            → AreUnvisitedFrom self.new.offsets.items (offset + 1) }
        ensures size { length self.new.offsets.items ≡ length self.old.offsets.items }
        ensures falls { result ≡ true
            → unvisited offset self.new.offsets.items < unvisited offset self.old.offsets.items }
        ensures stays { result ≡ false → self.new ≡ self.old }
    {
        let index = number - 1;
        if is_visited(self.offsets[index], offset) {
            return false;
        }
        self.offsets[index] = Some(offset);
        true
    }
}
