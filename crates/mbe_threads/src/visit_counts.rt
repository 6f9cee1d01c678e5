// How often each state of a pattern was visited at an offset.
ghost use Rattle.std.specs.Prelude.{◌≡◌, ℕ, ◌+◌, ◌<◌, ◌≤◌, List, [], length, IfOk, true, false};
ghost use Rattle.std.specs.Prelude.{nat_lt};
ghost use Rattle.mbe_laws.specs.Bounded.ClosureTwoEach.{times, cons_if};
ghost use Rattle.mbe_threads.specs.VisitCounts.{count_at, AreCounted, NoVisitsFrom, vacancies};

use std::alloc::{AllocError, Allocator, Global};

/// How often a state was visited at the offset of its last visit.
#[derive(Clone, Copy)]
pub struct Mark {
    offset: usize,
    count: u8,
}

impl Mark {
    fn at(self, offset: usize) -> u8
        ensures { result ≡ count_at offset self }
    {
        if self.offset != offset {
            return 0;
        }
        self.count
    }
}

/// A mark for each state. The index is the state's number less one. A mark counts visits at its own
/// offset alone, so nothing has to be cleared between offsets.
#[derive(Drop)]
pub struct VisitCounts<A: Allocator = Global> {
    pub marks: Vec<Mark, A>,
}

impl<A: Allocator> VisitCounts<A> {
    /// Returns the counts for a pattern with `state_count` states, none of which was visited.
    /// `AllocError`
    /// if out of memory.
    pub fn new(alloc: A, state_count: usize) -> Result<VisitCounts<A>, AllocError>
        ensures size { IfOk result (λ c. length c.marks.items ≡ state_count) }
        ensures no_visits { IfOk result (λ c. NoVisitsFrom c.marks.items 0) }
    {
        let unvisited = Mark {
            offset: 0,
            count: 0,
        };
        let marks = vec![in alloc; unvisited; state_count]?;
        Ok(VisitCounts { marks })
    }

    /// Counts a visit of the state at the offset, and returns `true`. Returns `false` and counts
    /// nothing if there were two visits already.
    #[inline(always)]
    pub fn try_visit(&mut self, number: usize, offset: usize) -> bool
        requires some { 0 < number }
        requires within { number ≤ length self.old.marks.items }
        ensures counted { (visited : List ℕ) → AreCounted self.old.marks.items offset visited
            → (result ≡ nat_lt (times number visited) 2)
            × AreCounted self.new.marks.items offset (cons_if result number visited) }
        ensures no_visits { NoVisitsFrom self.old.marks.items (offset + 1)
            → NoVisitsFrom self.new.marks.items (offset + 1) }
        ensures size { length self.new.marks.items ≡ length self.old.marks.items }
        ensures falls { result ≡ true
            → vacancies offset self.new.marks.items < vacancies offset self.old.marks.items }
        ensures stays { result ≡ false → self.new ≡ self.old }
    {
        let index = number - 1;
        let count = self.marks[index].at(offset);
        if count >= 2 {
            return false;
        }
        self.marks[index] = Mark {
            offset,
            count: count + 1,
        };
        true
    }
}
