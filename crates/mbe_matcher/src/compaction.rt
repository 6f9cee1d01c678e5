// Compaction: a match that has written much keeps only what its threads still use.
//
// On `$(a $x:ident)? $(b $y:ident)? ..` each offset makes an open item and lists of the log for
// each repetition. The threads of the next offset use few of them. So the match compacts now and
// then, after an offset:
//
// 1. It collects what is live. It marks the open items of the threads, and the items around them.
//    It collects the handles of these items, of the threads and of the report.
// 2. It makes a new log with what these handles stand for.
// 3. It rebuilds the marked open items, the threads and the report, with handles of the new log and
//    indices of the new items.
// 4. It switches to the new log only if it could rebuild everything.
//
// Step 1 has no proof. If it misses something, step 3 fails, and the match keeps the old log. The
// match also keeps the old log if compaction would free less than half of the log and of the open
// items.
ghost use Rattle.std.specs.Prelude.{ℕ, ◌≡◌, ◌++◌, ◌∷◌, [], length, option_map, option_to_list};
ghost use Rattle.std.specs.Prelude.{IfOk, OnOk, IfSome, Some};
ghost use Rattle.mbe_semantics.specs.Bindings.Account.{Log};
ghost use Rattle.mbe_bindings.specs.LogCompaction.{HasAtMost};
ghost use Rattle.mbe_matcher.specs.Threads.{Each};
ghost use Rattle.mbe_matcher.specs.Compaction.{IsNumbered, IsCarried, AreCarried, AreHandles};
ghost use Rattle.mbe_matcher.specs.Compaction.{Carries, CarriesThread, ThreadsStay, ReportStays};
ghost use Rattle.mbe_matcher.specs.Compaction.{StartStays};

use crate::closure::MatchState;
use crate::match_report::MatchReport;
use mbe_bindings::log_compaction::{CompactedLog, HandleMap};
use mbe_log::log::{BindingLog, Handle, LogSize, again};
use mbe_threads::thread::{OpenRepetition, Thread, ThreadFrame, ThreadStack};
use std::alloc::{AllocError, Allocator, Global};

// How many threads a match follows before it first tries to compact. Most matches follow fewer.
// Each thread makes an open item or two lists of the log at most: some 200 bytes.
const MIN_BUDGET: usize = 524_288;

// How far a match may go before it tries to compact.
#[derive(Drop)]
pub(crate) struct CompactionBudget {
    // The lists that were in the log at the start of the match. Compaction keeps them.
    pub(crate) extent: LogSize,
    // How many threads may be followed before the next try.
    most: usize,
}

// Returns the number of lists of commands and open items.
#[inline(always)]
fn allocated<A: Allocator + Copy>(log: &BindingLog<'_, A>, frames: &[ThreadFrame<'_, A>]) -> usize {
    log.extent().commands.saturating_add(frames.len())
}

impl CompactionBudget {
    // Returns the budget at the start of a match.
    pub(crate) fn new<A: Allocator + Copy>(log: &BindingLog<'_, A>) -> CompactionBudget
        ensures { HasAtMost result.extent log.now }
    {
        CompactionBudget {
            extent: log.extent(),
            most: MIN_BUDGET,
        }
    }

    // Whether it is time to compact, after `followed` threads.
    #[inline(always)]
    pub(crate) fn is_over(&self, followed: usize) -> bool {
        followed > self.most
    }

    // Sets the next limit, after compaction: twice the number of lists and open items that are
    // there now.
    pub(crate) fn grow<A: Allocator + Copy>(
        &mut self,
        log: &BindingLog<'_, A>,
        frames: &[ThreadFrame<'_, A>],
    )
        ensures { self.new.extent ≡ self.old.extent }
    {
        let twice = allocated(log, frames).saturating_mul(2);
        self.most = if twice < MIN_BUDGET {
            MIN_BUDGET
        } else {
            twice
        };
    }
}

// What the threads of a match still use.
#[derive(Drop)]
pub(crate) struct LiveThreads<A: Allocator = Global> {
    handles: Vec<Handle, A>,
    // Whether each open item is in use, by its index.
    marks: Vec<bool, A>,
}

impl<A: Allocator + Copy> LiveThreads<A> {
    // Returns an empty collection, for a match with `items` open items.
    pub(crate) fn new(alloc: A, items: usize) -> Result<LiveThreads<A>, AllocError> {
        let unmarked = false;
        Ok(LiveThreads {
            handles: Vec::new(alloc),
            marks: vec![in alloc; unmarked; items]?,
        })
    }

    fn mark(&mut self, open: Option<usize>) {
        let Some(open) = open else {
            return;
        };
        if let Some(mark) = self.marks.get_mut(open) {
            *mark = true;
        }
    }

    pub(crate) fn thread(&mut self, thread: &Thread<'_, A>) -> Result<(), AllocError> {
        self.mark(thread.up);
        self.handles.push(again(&thread.handle))?;
        Ok(())
    }

    pub(crate) fn threads(&mut self, threads: &[Thread<'_, A>]) -> Result<(), AllocError> {
        for thread in threads {
            self.thread(thread)?;
        }
        Ok(())
    }

    fn frame(&mut self, frame: &ThreadFrame<'_, A>) -> Result<(), AllocError> {
        self.mark(frame.up);
        if let Some(rounds) = &frame.rounds {
            self.handles.push(again(&rounds.outside))?;
        }
        Ok(())
    }

    // Collects what the marked open items use, the last first: an item comes after the one around
    // it.
    fn frames(&mut self, frames: &[ThreadFrame<'_, A>]) -> Result<(), AllocError> {
        let mut left = frames.len();
        while left > 0 {
            left -= 1;
            if self.is_marked(left) {
                self.frame(&frames[left])?;
            }
        }
        Ok(())
    }

    fn report(&mut self, report: &MatchReport<'_, A>) -> Result<(), AllocError> {
        if let Some(handle) = report.last_handle() {
            self.handles.push(handle)?;
        }
        Ok(())
    }

    // Collects what the open items and the report use. Call this after the threads are collected.
    pub(crate) fn rest(
        &mut self,
        frames: &[ThreadFrame<'_, A>],
        report: &MatchReport<'_, A>,
    ) -> Result<(), AllocError> {
        self.frames(frames)?;
        self.report(report)
    }

    // Whether compaction frees at least half of the open items, and the log has no more lists than
    // there are open items.
    fn is_mostly_dropped(&self, log: &BindingLog<'_, A>) -> bool {
        self.count_marked() <= self.marks.len() / 2 && log.extent().commands <= self.marks.len()
    }

    fn count_marked(&self) -> usize {
        let mut count: usize = 0;
        for mark in &self.marks {
            if *mark {
                count = count.saturating_add(1);
            }
        }
        count
    }

    fn is_marked(&self, item: usize) -> bool {
        match self.marks.get(item) {
            None => false,
            Some(mark) => *mark,
        }
    }
}

// The result of compaction: a new log and new open items, and how the old ones map to them.
#[derive(Drop)]
pub(crate) struct CompactedThreads<'a, A: Allocator = Global> {
    pub(crate) log: BindingLog<'a, A>,
    pub(crate) moves: HandleMap<A>,
    pub(crate) frames: Vec<ThreadFrame<'a, A>, A>,
    // The index of the new open item by the index of the old one. `None` if it was dropped.
    numbers: Vec<Option<usize>, A>,
}

impl<'a, A: Allocator + Copy> CompactedThreads<'a, A> {
    // Compacts a log and open items to what is live. `None` if less than half would be freed.
    pub(crate) fn new(
        alloc: A,
        log: &BindingLog<'a, A>,
        frames: &[ThreadFrame<'a, A>],
        extent: LogSize,
        live: &LiveThreads<A>,
    ) -> Result<Option<CompactedThreads<'a, A>>, AllocError>
        ensures carries { IfOk result (λ m. IfSome m (Carries log.now frames.now)) }
        ensures start { IfOk result (λ m. IfSome m (λ m. StartStays extent log.now m.log)) }
    {
        let anyway = live.is_mostly_dropped(log);
        let Some(compacted) = CompactedLog::from_log(log, extent, &live.handles, anyway)? else {
            return Ok(None);
        };
        let CompactedLog { log, moves } = compacted;
        let mut moved = CompactedThreads {
            log,
            moves,
            frames: Vec::new(alloc),
            numbers: Vec::new(alloc),
        };
        moved.take_outers(frames, live)?;
        Ok(Some(moved))
    }

    // Returns the index of the new open item for an old one. `None` if it was dropped.
    #[inline(always)]
    fn number(&self, up: Option<usize>) -> Option<Option<usize>>
        ensures { IfSome result (IsNumbered self.now.numbers.items up) }
    {
        let Some(open) = up else {
            return Some(None);
        };
        let number = self.numbers.get(open)?;
        match number {
            None => None,
            Some(number) => Some(Some(*number)),
        }
    }

    fn frame(&self, frame: &ThreadFrame<'a, A>) -> Option<ThreadFrame<'a, A>>
        ensures { IfSome result
            (IsCarried self.now.moves self.now.numbers.items frame.now) }
    {
        let up = self.number(frame.up)?;
        let rounds = match &frame.rounds {
            None => None,
            Some(rounds) => Some(OpenRepetition {
                body: rounds.body,
                separator: rounds.separator,
                kind: rounds.kind,
                front: rounds.front,
                outside: self.moves.get(&rounds.outside)?,
            }),
        };
        Some(ThreadFrame {
            rounds,
            rest: frame.rest,
            up,
        })
    }

    // Rebuilds the next open item, if it is marked.
    fn next(&self, frame: &ThreadFrame<'a, A>, live: &LiveThreads<A>) -> Option<ThreadFrame<'a, A>>
        ensures { IfSome result
            (IsCarried self.now.moves self.now.numbers.items frame.now) }
    {
        if !live.is_marked(self.numbers.len()) {
            return None;
        }
        self.frame(frame)
    }

    // Adds the next open item, or notes that it was dropped.
    fn push(&mut self, frame: Option<ThreadFrame<'a, A>>) -> Result<(), AllocError>
        ensures frames { OnOk result (self.new.frames.items
            ≡ self.old.frames.items ++ option_to_list frame.entry) }
        ensures numbers { OnOk result (self.new.numbers.items ≡ self.old.numbers.items
            ++ option_map (λ _. length self.old.frames.items) frame.entry ∷ []) }
        ensures log { self.new.log ≡ self.old.log }
        ensures moves { self.new.moves ≡ self.old.moves }
    {
        let Some(frame) = frame else {
            self.numbers.push(None)?;
            return Ok(());
        };
        self.numbers.push(Some(self.frames.len()))?;
        self.frames.push(frame)?;
        Ok(())
    }

    // Rebuilds the marked open items, each after the one around it.
    fn take_outers(
        &mut self,
        frames: &[ThreadFrame<'a, A>],
        live: &LiveThreads<A>,
    ) -> Result<(), AllocError>
        requires frames { self.old.frames.items ≡ [] }
        requires numbers { self.old.numbers.items ≡ [] }
        ensures carries { (old : Log) → AreHandles self.old.moves old self.old.log
            → OnOk result (Carries old frames.now self.new) }
        ensures log { self.new.log ≡ self.old.log }
    {
        for frame in frames {
            let next = self.next(frame, live);
            self.push(next)?;
        }
        Ok(())
    }

    // Returns the thread in the new log. `None` if the log lacks something that the thread uses.
    pub(crate) fn thread(&self, thread: &Thread<'a, A>) -> Option<Thread<'a, A>>
        ensures { IfSome result (CarriesThread self.now thread.now) }
    {
        let up = self.number(thread.up)?;
        let handle = self.moves.get(&thread.handle)?;
        Some(Thread {
            tail: thread.tail,
            number: thread.number,
            up,
            handle,
        })
    }

    pub(crate) fn threads(
        &self,
        alloc: A,
        threads: &[Thread<'a, A>],
    ) -> Result<Option<Vec<Thread<'a, A>, A>>, AllocError>
        ensures { IfOk result (λ m. IfSome m (λ ps.
            Each (CarriesThread self.now) threads.now ps.items)) }
    {
        let mut moved = Vec::new(alloc);
        for thread in threads {
            let Some(next) = self.thread(thread) else {
                return Ok(None);
            };
            moved.push(next)?;
        }
        Ok(Some(moved))
    }
}

// Makes these threads the stack.
fn replace_stack<'a, A: Allocator>(
    threads: &[Thread<'a, A>],
    todo: &mut ThreadStack<'a, '_, A>,
) -> Result<(), AllocError>
    ensures { OnOk result (todo.new.items ≡ threads.now) }
{
    todo.clear();
    for thread in threads {
        todo.push(thread.again())?;
    }
    Ok(())
}

// Replaces the log and the open items by what is live, if that is much less.
#[inline(never)]
fn compact<'a, A: Allocator + Copy>(
    alloc: A,
    log: &mut BindingLog<'a, A>,
    state: &mut MatchState<'a, A>,
    todo: &mut ThreadStack<'a, '_, A>,
    extent: LogSize,
) -> Result<(), AllocError>
    ensures threads { OnOk result (ThreadsStay log.old log.new state.old.frames.items
        state.new.frames.items todo.old.items todo.new.items) }
    ensures report { OnOk result (ReportStays log.old log.new state.old.report state.new.report) }
    ensures start { OnOk result (StartStays extent log.old log.new) }
    ensures counts { OnOk result (state.new.counts ≡ state.old.counts) }
    ensures dropped { OnOk result (state.new.has_dropped ≡ state.old.has_dropped) }
{
    let mut live = LiveThreads::new(alloc, state.frames.len())?;
    live.threads(todo.as_slice())?;
    live.rest(&state.frames, &state.report)?;
    let Some(moved) = CompactedThreads::new(alloc, log, &state.frames, extent, &live)? else {
        return Ok(());
    };
    let Some(threads) = moved.threads(alloc, todo.as_slice())? else {
        return Ok(());
    };
    if !state.report.relocate(&moved.moves) {
        return Ok(());
    }
    replace_stack(&threads, todo)?;
    state.frames = moved.frames;
    *log = moved.log;
    Ok(())
}

// Compacts the match after an offset, if enough threads were followed.
#[inline(always)]
pub(crate) fn compact_if_due<'a, A: Allocator + Copy>(
    alloc: A,
    log: &mut BindingLog<'a, A>,
    state: &mut MatchState<'a, A>,
    todo: &mut ThreadStack<'a, '_, A>,
    room: &mut CompactionBudget,
) -> Result<(), AllocError>
    ensures threads { OnOk result (ThreadsStay log.old log.new state.old.frames.items
        state.new.frames.items todo.old.items todo.new.items) }
    ensures report { OnOk result (ReportStays log.old log.new state.old.report state.new.report) }
    ensures start { OnOk result (StartStays room.old.extent log.old log.new) }
    ensures extent { OnOk result (room.new.extent ≡ room.old.extent) }
    ensures counts { OnOk result (state.new.counts ≡ state.old.counts) }
    ensures dropped { OnOk result (state.new.has_dropped ≡ state.old.has_dropped) }
{
    if room.is_over(state.followed) {
        compact(alloc, log, state, todo, room.extent)?;
        state.followed = 0;
        room.grow(log, &state.frames);
    }
    Ok(())
}
