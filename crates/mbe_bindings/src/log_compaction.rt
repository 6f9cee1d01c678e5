// Compaction of logs: makes a log with the entries that some handles need. It is a garbage
// collection by copying.
//
// A match follows several threads, and most of them fail. Their entries remain in the log, since a
// log only grows. With n optional parts in a pattern, n threads write n lists at each of n offsets,
// and n of those lists are needed at the next offset. So a match makes a compacted log from time to
// time and drops the old one.
//
// The search (`find_live`) marks how many of the first entries of each list are needed. It starts
// with the entries of the handles. For each marked entry, it marks the entries that this one refers
// to. Lists keep their order, and get new numbers from 0 on. Here is an example with lists of
// commands alone and one handle, where `0,1` is the first entry of list 0:
//
//     lists                        handle   marks    tables        new lists            handle
//     0: x y   1: ->0,1 z w   2: v  1,2      1 2 -   0,1 1,2 -     0: x   1: ->0,1 z     1,2
//
// Nothing is proved of the search. Its result is checked before it is used. Everything that a kept
// entry refers to must be kept (`are_kept`). The lists of the extent must be unchanged, with their
// numbers (`are_unmoved`).
ghost use Rattle.std.specs.Prelude.{◌≡◌, IfOk, IfSome, IsTrue, option_map, slice_get};
ghost use Rattle.mbe_semantics.specs.Bindings.Account.{Handle as HandleSpec, Log};
ghost use Rattle.mbe_log.specs.HandleChanges.{KeepsHandles};
ghost use Rattle.mbe_bindings.specs.LogCompaction.{Maps, IsMoved, HasAtMost, IsKeptIn, kept_of};
ghost use Rattle.mbe_bindings.specs.LogCompaction.{moved};
ghost use Rattle.mbe_bindings.specs.KeptLists.{cut_list, cut_at, IsListKept};
ghost use Rattle.mbe_bindings.specs.KeptLists.{IsSoundCompaction, IsLinkKept, IsCutKept};
ghost use Rattle.mbe_bindings.specs.KeptLists.{kept_lists, AreCutKept, IsNumbered, AreUnmoved};

use mbe_log::chain::ChainList;
use mbe_log::log::{
    BindingLog, Command, Handle, LogLists, LogSize, handle_from_parts, handle_parts,
};
use mbe_semantics::list_prefix::ListPrefix;
use std::alloc::{AllocError, Allocator, Global};

/// A map from the entries of a log to those of a compacted one.
#[derive(Drop)]
pub struct HandleMap<A: Allocator = Global> {
    pub(crate) commands: Vec<Option<ListPrefix>, A>,
    pub(crate) rounds: Vec<Option<ListPrefix>, A>,
}

/// A compacted log, with the map to it.
pub struct CompactedLog<'a, A: Allocator = Global> {
    pub log: BindingLog<'a, A>,
    pub moves: HandleMap<A>,
}

// Returns the part of this list that is kept, with the list's new number.
fn kept_of(table: &[Option<ListPrefix>], index: usize) -> Option<ListPrefix>
    ensures { result ≡ kept_of (slice_get table.now index) }
{
    match table.get(index) {
        Some(kept) => *kept,
        None => None,
    }
}

// Returns whether the entries of the part are kept.
fn is_kept(table: &[Option<ListPrefix>], part: ListPrefix) -> bool
    ensures { IsTrue result → IsKeptIn table.now part }
{
    match table.get(part.list) {
        Some(Some(kept)) => part.first <= kept.first,
        _ => false,
    }
}

// Returns the same entries in the new list.
fn moved(table: &[Option<ListPrefix>], part: ListPrefix) -> ListPrefix
    ensures { result ≡ moved table.now part }
{
    match table.get(part.list) {
        Some(Some(kept)) => ListPrefix {
            list: kept.list,
            first: part.first,
        },
        _ => ListPrefix {
            list: 0,
            first: part.first,
        },
    }
}

impl<A: Allocator> HandleMap<A> {
    /// Returns the handle in the new log. `None` if its entries weren't kept.
    pub fn get(&self, handle: &Handle) -> Option<Handle>
        ensures { IfSome result (Maps self.now handle.now) }
    {
        let (current, finished) = handle_parts(handle);
        if !is_kept(&self.commands, current) {
            return None;
        }
        if !is_kept(&self.rounds, finished) {
            return None;
        }
        Some(handle_from_parts(
            moved(&self.commands, current),
            moved(&self.rounds, finished),
        ))
    }
}

// A part that is needed.
#[derive(Clone, Copy, Drop)]
pub(crate) enum LivePart {
    Commands(ListPrefix),
    Rounds(ListPrefix),
}

/// An entry of a list: a command, or a finished round, which is a part of a list of commands.
pub(crate) trait LogEntry<A: Allocator>: Drop + Sized {
    ghost use Rattle.mbe_bindings.specs.declared.log_compaction.HandleMap.{HandleMap};
    ghost use Rattle.mbe_bindings.specs.LogCompaction.{Table};

    ghost table: { HandleMap A → Table };

    ghost moved: { HandleMap A → Self → Self };

    ghost refers: { HandleMap A → Self → Type 0 };

    /// Returns the table of the lists that have such entries.
    fn table(moves: &HandleMap<A>) -> &[Option<ListPrefix>]
        ensures { result.now ≡ table moves.now };

    /// Returns whether everything that the entry stands for is kept.
    fn refers_to_kept(&self, moves: &HandleMap<A>) -> bool
        ensures { IsTrue result → refers moves.now self.now };

    /// Returns the entry with the numbers of the new lists. `AllocError` if out of memory.
    fn moved(&self, moves: &HandleMap<A>) -> Result<Self, AllocError>
        ensures { IfOk result (λ x. x ≡ moved moves.now self.now) };

    /// Makes a needed part of a list that has such entries.
    fn live_part(part: ListPrefix) -> LivePart;

    /// Pushes the parts that the entry stands for. `AllocError` if out of memory.
    fn push_live_parts(&self, todo: &mut Vec<LivePart, A>) -> Result<(), AllocError>;
}

impl<'a, A: Allocator + Copy> LogEntry<A> for Command<'a, A> {
    ghost use Rattle.mbe_bindings.specs.KeptLists.{moved_command, CommandRefersToKept};

    ghost table = { λ m. m.commands.items };

    ghost moved = { λ m. moved_command m.commands.items m.rounds.items };

    ghost refers = { λ m. CommandRefersToKept m.commands.items m.rounds.items };

    fn table(moves: &HandleMap<A>) -> &[Option<ListPrefix>] {
        &moves.commands
    }

    fn refers_to_kept(&self, moves: &HandleMap<A>) -> bool {
        match self {
            Command::Nested { finished, current } => {
                is_kept(&moves.rounds, *finished) && is_kept(&moves.commands, *current)
            }
            Command::Fragment(_, _) | Command::Missing(_, _) => true,
            Command::Optional(_) | Command::Empty(_) => true,
        }
    }

    fn moved(&self, moves: &HandleMap<A>) -> Result<Command<'a, A>, AllocError> {
        match self {
            Command::Fragment(name, fragment) => {
                Ok(Command::Fragment(name.clone()?, fragment.try_clone()?))
            }
            Command::Optional(name) => Ok(Command::Optional(name.clone()?)),
            Command::Empty(name) => Ok(Command::Empty(name.clone()?)),
            Command::Missing(name, kind) => Ok(Command::Missing(name.clone()?, *kind)),
            Command::Nested { finished, current } => Ok(Command::Nested {
                finished: moved(&moves.rounds, *finished),
                current: moved(&moves.commands, *current),
            }),
        }
    }

    fn live_part(part: ListPrefix) -> LivePart {
        LivePart::Commands(part)
    }

    fn push_live_parts(&self, todo: &mut Vec<LivePart, A>) -> Result<(), AllocError> {
        let Command::Nested { finished, current } = self else {
            return Ok(());
        };
        todo.push(LivePart::Rounds(*finished))?;
        todo.push(LivePart::Commands(*current))?;
        Ok(())
    }
}

impl<A: Allocator> LogEntry<A> for ListPrefix {
    ghost use Rattle.mbe_bindings.specs.LogCompaction.{moved, IsKeptIn};

    ghost table = { λ m. m.rounds.items };

    ghost moved = { λ m. moved m.commands.items };

    ghost refers = { λ m. IsKeptIn m.commands.items };

    fn table(moves: &HandleMap<A>) -> &[Option<ListPrefix>] {
        &moves.rounds
    }

    fn refers_to_kept(&self, moves: &HandleMap<A>) -> bool {
        is_kept(&moves.commands, *self)
    }

    fn moved(&self, moves: &HandleMap<A>) -> Result<ListPrefix, AllocError> {
        Ok(moved(&moves.commands, *self))
    }

    fn live_part(part: ListPrefix) -> LivePart {
        LivePart::Rounds(part)
    }

    fn push_live_parts(&self, todo: &mut Vec<LivePart, A>) -> Result<(), AllocError> {
        todo.push(LivePart::Commands(*self))?;
        Ok(())
    }
}

// ---- the check

// Returns whether the list has at least `first` entries, and a link among them is kept.
fn is_link_kept<T, A: Allocator>(
    table: &[Option<ListPrefix>],
    list: &ChainList<T, A>,
    first: usize,
) -> bool
    ensures { IsTrue result → IsLinkKept table.now first list.now }
{
    if list.len() < first {
        return false;
    }
    let (link, _own) = list.prefix(first);
    match link {
        Some(link) => is_kept(table, link),
        None => true,
    }
}

// Returns whether the list has at least `first` entries, and everything that these stand for is
// kept.
fn is_cut_kept<E: LogEntry<A>, A: Allocator>(
    list: &ChainList<E, A>,
    first: usize,
    moves: &HandleMap<A>,
) -> bool
    ensures { IsTrue result → IsCutKept (E.table moves.now) (E.refers moves.now) first list.now }
{
    if !is_link_kept(E::table(moves), list, first) {
        return false;
    }
    let (_link, own) = list.prefix(first);
    for index in 0..own {
        if !list.own_at(index).refers_to_kept(moves) {
            return false;
        }
    }
    true
}

// Returns whether this list exists and everything that its kept entries stand for is kept. A list
// that isn't kept passes.
fn is_list_kept<E: LogEntry<A>, A: Allocator>(
    lists: &[ChainList<E, A>],
    moves: &HandleMap<A>,
    index: usize,
) -> bool
    ensures { IsTrue result
        → IsListKept (E.table moves.now) (E.refers moves.now) lists.now index }
{
    let Some(part) = kept_of(E::table(moves), index) else {
        return true;
    };
    match lists.get(index) {
        Some(list) => is_cut_kept(list, part.first, moves),
        None => false,
    }
}

// Returns whether each kept list exists and everything that its kept entries stand for is kept.
fn are_kept<E: LogEntry<A>, A: Allocator>(lists: &[ChainList<E, A>], moves: &HandleMap<A>) -> bool
    ensures { IsTrue result → AreCutKept (E.table moves.now) (E.refers moves.now) lists.now }
{
    for index in 0..E::table(moves).len() {
        if !is_list_kept(lists, moves, index) {
            return false;
        }
    }
    true
}

// Returns whether the first `count` lists are kept as they are, with their numbers.
fn are_unmoved<T, A: Allocator>(
    lists: &[ChainList<T, A>],
    table: &[Option<ListPrefix>],
    count: usize,
) -> bool
    ensures { IsTrue result → AreUnmoved table.now lists.now count }
{
    for index in 0..count {
        let Some(list) = lists.get(index) else {
            return false;
        };
        let Some(Some(part)) = table.get(index) else {
            return false;
        };
        if part.list != index || part.first != list.len() {
            return false;
        }
    }
    true
}

// ---- the copy

// Returns the link in the new lists.
fn moved_link(table: &[Option<ListPrefix>], link: Option<ListPrefix>) -> Option<ListPrefix>
    ensures { result ≡ option_map (moved table.now) link }
{
    match link {
        Some(link) => Some(moved(table, link)),
        None => None,
    }
}

// Returns the first entries of the list, moved. `AllocError` if out of memory.
fn cut_list<E: LogEntry<A>, A: Allocator + Copy>(
    alloc: A,
    list: &ChainList<E, A>,
    first: usize,
    moves: &HandleMap<A>,
) -> Result<ChainList<E, A>, AllocError>
    ensures { IfOk result (λ l. l
        ≡ cut_list (E.table moves.now) (E.moved moves.now) first list.now) }
{
    let (link, own) = list.prefix(first);
    let mut prefix = ChainList::from_link(alloc, moved_link(E::table(moves), link));
    for index in 0..own.min(list.own_len()) {
        prefix.push(list.own_at(index).moved(moves)?)?;
    }
    Ok(prefix)
}

// Returns the kept entries of this list, moved. `None` if none is kept. `AllocError` if out of
// memory.
fn cut_at<E: LogEntry<A>, A: Allocator + Copy>(
    alloc: A,
    lists: &[ChainList<E, A>],
    moves: &HandleMap<A>,
    index: usize,
) -> Result<Option<ChainList<E, A>>, AllocError>
    ensures { IfOk result (λ l. l ≡ cut_at (E.table moves.now) (E.moved moves.now)
        (kept_of (slice_get (E.table moves.now) index)) (slice_get lists.now index)) }
{
    let Some(part) = kept_of(E::table(moves), index) else {
        return Ok(None);
    };
    match lists.get(index) {
        Some(list) => Ok(Some(cut_list(alloc, list, part.first, moves)?)),
        None => Ok(None),
    }
}

// Returns the kept lists, moved. `AllocError` if out of memory.
fn kept_lists<E: LogEntry<A>, A: Allocator + Copy>(
    alloc: A,
    lists: &[ChainList<E, A>],
    moves: &HandleMap<A>,
) -> Result<Vec<ChainList<E, A>, A>, AllocError>
    ensures { IfOk result (λ kept. kept.items
        ≡ kept_lists (E.table moves.now) (E.moved moves.now) (E.table moves.now) lists.now) }
{
    let mut kept = Vec::new(alloc);
    for index in 0..E::table(moves).len() {
        let Some(list) = cut_at(alloc, lists, moves, index)? else {
            continue;
        };
        kept.push(list)?;
    }
    Ok(kept)
}

// ---- the search

// The state of the search: how many of the first entries of each list are needed so far, and the
// parts to visit.
#[derive(Drop)]
struct Search<A: Allocator = Global> {
    commands: Vec<Option<usize>, A>,
    rounds: Vec<Option<usize>, A>,
    todo: Vec<LivePart, A>,
}

// Marks the part. Returns how many first entries were marked before, or `None` if the part isn't
// longer.
fn mark_part(marks: &mut [Option<usize>], part: ListPrefix) -> Option<usize> {
    if part.list >= marks.len() {
        return None;
    }
    let before = marks[part.list];
    if let Some(first) = before
        && part.first <= first
    {
        return None;
    }
    marks[part.list] = Some(part.first);
    Some(before.unwrap_or(0))
}

// Marks the part as needed, and pushes what its new entries stand for.
fn mark_live<E: LogEntry<A>, A: Allocator + Copy>(
    lists: &[ChainList<E, A>],
    marks: &mut [Option<usize>],
    part: ListPrefix,
    todo: &mut Vec<LivePart, A>,
) -> Result<(), AllocError> {
    let (Some(list), Some(from)) = (lists.get(part.list), mark_part(marks, part)) else {
        return Ok(());
    };
    let (link, own) = list.prefix(part.first);
    if let Some(link) = link {
        todo.push(E::live_part(link))?;
    }
    let (_link, start) = list.prefix(from);
    for index in start..own.min(list.own_len()) {
        list.own_at(index).push_live_parts(todo)?;
    }
    Ok(())
}

impl<A: Allocator + Copy> Search<A> {
    // Visits all parts that wait, and those that these push. Each entry is visited once.
    fn run(
        &mut self,
        commands: &[ChainList<Command<'_, A>, A>],
        rounds: &[ChainList<ListPrefix, A>],
    ) -> Result<(), AllocError> {
        for _step in 0..usize::MAX {
            match self.todo.pop() {
                Some(LivePart::Commands(part)) => {
                    mark_live(commands, &mut self.commands, part, &mut self.todo)?
                }
                Some(LivePart::Rounds(part)) => {
                    mark_live(rounds, &mut self.rounds, part, &mut self.todo)?
                }
                None => return Ok(()),
            }
        }
        Ok(())
    }
}

// Pushes the lists of the extent as they are.
fn push_extent<E: LogEntry<A>, A: Allocator + Copy>(
    lists: &[ChainList<E, A>],
    count: usize,
    todo: &mut Vec<LivePart, A>,
) -> Result<(), AllocError> {
    for (list, entries) in lists.iter().take(count).enumerate() {
        let part = ListPrefix {
            list,
            first: entries.len(),
        };
        todo.push(E::live_part(part))?;
    }
    Ok(())
}

fn push_handles<A: Allocator + Copy>(
    handles: &[Handle],
    todo: &mut Vec<LivePart, A>,
) -> Result<(), AllocError> {
    for handle in handles {
        let (current, finished) = handle_parts(handle);
        todo.push(LivePart::Commands(current))?;
        todo.push(LivePart::Rounds(finished))?;
    }
    Ok(())
}

// Gives new numbers to the lists that are marked.
fn number_lists<A: Allocator + Copy>(
    alloc: A,
    marks: &[Option<usize>],
) -> Result<Vec<Option<ListPrefix>, A>, AllocError>
    ensures { IfOk result (λ table. IsNumbered 0 table.items) }
{
    let mut table = Vec::new(alloc);
    let mut list: usize = 0;
    for mark in marks {
        match mark {
            Some(first) => {
                table.push(Some(ListPrefix {
                    list,
                    first: *first,
                }))?;
                list = list.checked_add(1).ok_or(AllocError)?;
            }
            None => table.push(None)?,
        }
    }
    Ok(table)
}

// Finds the entries that the handles and the extent need. `AllocError` if out of memory.
fn find_live<A: Allocator + Copy>(
    alloc: A,
    commands: &[ChainList<Command<'_, A>, A>],
    rounds: &[ChainList<ListPrefix, A>],
    extent: LogSize,
    handles: &[Handle],
) -> Result<HandleMap<A>, AllocError>
    ensures commands { IfOk result (λ m. IsNumbered 0 m.commands.items) }
    ensures rounds { IfOk result (λ m. IsNumbered 0 m.rounds.items) }
{
    let unmarked: Option<usize> = None;
    let mut search = Search {
        commands: vec![in alloc; unmarked; commands.len()]?,
        rounds: vec![in alloc; unmarked; rounds.len()]?,
        todo: Vec::new(alloc),
    };
    push_extent(commands, extent.commands, &mut search.todo)?;
    push_extent(rounds, extent.rounds, &mut search.todo)?;
    push_handles(handles, &mut search.todo)?;
    search.run(commands, rounds)?;
    Ok(HandleMap {
        commands: number_lists(alloc, &search.commands)?,
        rounds: number_lists(alloc, &search.rounds)?,
    })
}

// Returns whether the result may be used: everything that a kept entry stands for is kept, and the
// lists of the extent are unchanged.
fn is_sound<A: Allocator + Copy>(
    commands: &[ChainList<Command<'_, A>, A>],
    rounds: &[ChainList<ListPrefix, A>],
    extent: LogSize,
    moves: &HandleMap<A>,
) -> bool
    ensures { IsTrue result → IsSoundCompaction commands.now rounds.now extent moves.now }
{
    if !are_unmoved(commands, &moves.commands, extent.commands) {
        return false;
    }
    if !are_unmoved(rounds, &moves.rounds, extent.rounds) {
        return false;
    }
    if !are_kept(commands, moves) {
        return false;
    }
    are_kept(rounds, moves)
}

// Returns the number of kept entries.
fn count_kept(table: &[Option<ListPrefix>]) -> usize {
    let mut count: usize = 0;
    for part in table.iter().flatten() {
        count = count.saturating_add(part.first);
    }
    count
}

// Returns the number of entries of the lists.
fn count_all<T, A: Allocator>(lists: &[ChainList<T, A>]) -> usize {
    let mut count: usize = 0;
    for list in lists {
        count = count.saturating_add(list.len());
    }
    count
}

// Returns whether at most half of the commands are kept.
fn is_worthwhile<A: Allocator>(
    commands: &[ChainList<Command<'_, A>, A>],
    moves: &HandleMap<A>,
) -> bool {
    count_kept(&moves.commands) <= count_all(commands) / 2
}

// ---- the call

impl<'a, A: Allocator + Copy> CompactedLog<'a, A> {
    /// Makes a log with what the handles stand for and the lists of that extent as they are. The
    /// result is `None` if more than half of the commands would be kept (unless `anyway`), and for
    /// handles of another log. `AllocError` if out of memory.
    pub fn from_log(
        log: &BindingLog<'a, A>,
        extent: LogSize,
        handles: &[Handle],
        anyway: bool,
    ) -> Result<Option<CompactedLog<'a, A>>, AllocError>
        ensures moved { IfOk result (λ c. IfSome c (λ c. (h k : HandleSpec) → Maps c.moves h k
            → IsMoved log.now c.log h k)) }
        ensures kept { (first : Log) → KeepsHandles first log.now → HasAtMost extent first
            → IfOk result (λ c. IfSome c (λ c. KeepsHandles first c.log)) }
    {
        let LogLists {
            alloc,
            commands,
            rounds,
            nested,
        } = log.lists();
        let moves = find_live(alloc, commands, rounds, extent, handles)?;
        if !anyway && !is_worthwhile(commands, &moves) {
            return Ok(None);
        }
        if !is_sound(commands, rounds, extent, &moves) {
            return Ok(None);
        }
        let commands = kept_lists(alloc, commands, &moves)?;
        let rounds = kept_lists(alloc, rounds, &moves)?;
        let log = BindingLog::from_lists(alloc, commands, rounds, nested);
        Ok(Some(CompactedLog { log, moves }))
    }
}
