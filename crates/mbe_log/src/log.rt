// The log of bindings that the threads of a match share. Its structure follows rust-analyzer's
// `BindingsBuilder`. Two things are this project's own. A finished round and a handle have a
// length, as links do. A list without an entry of its own passes its link on.
//
// Why a log: while an argument is matched, several threads may be possible at once, and each has
// bound some names. A copy of all bindings for each thread would cost their number at every token.
// So all threads write into one log, and each has a handle that says which entries are its own.
// Only the thread that the match ends with is built into bindings.
//
// A log holds lists of commands and lists of finished rounds. A handle names one list of each sort,
// and how many of its first entries are the handle's. A push adds to the same list if the handle's
// entries end that list. Else it begins a new list that links to them. So what a handle stands for
// never changes. Here is an example with lists of commands alone, where `0,1` is the first entry of
// list 0:
//
//     push x to h    h = 0,1            0: x
//     c = copy h     h = 0,1  c = 1,1   0: x    1: ->0,1
//     push y to h    h = 0,2  c = 1,1   0: x y  1: ->0,1
//     push z to c    h = 0,2  c = 1,2   0: x y  1: ->0,1 z
//     k = again h    k = 0,2
//     push v to h    h = 0,3            0: x y v
//     push w to k    k = 2,2            0: x y v  2: ->0,2 w
//
// `mbe_bindings` builds the bindings of a handle.
ghost use Rattle.std.specs.Prelude.{◌≡◌, ◌↔◌, ◌≤◌, length, IsTrue, IfOk, OnOk, OnErr};
ghost use Rattle.mbe_semantics.specs.Bindings.Account.{Account, IsLive, HasEntriesOf, Order};
ghost use Rattle.mbe_semantics.specs.Bindings.Account.{IsOrdered, IsAccount, no_account, no_lists};
ghost use Rattle.mbe_semantics.specs.Bindings.Account.{pushed, pushed_nested, pushed_default};
ghost use Rattle.mbe_semantics.specs.Bindings.Account.{Command as Written, HasOneListMore};
ghost use Rattle.mbe_log.specs.HandleChanges.{IsNewHandle, IsUpdatedHandle, IsAtEnd, WritesOne};
ghost use Rattle.mbe_log.specs.HandleChanges.{WritesRound};
ghost use Rattle.mbe_log.specs.HandleChanges.{current_len, finished_len, IsPlain, IsEmptied};
ghost use Rattle.mbe_log.specs.Chain.{with_link, last_part};
ghost use Rattle.mbe_log.specs.LogEntries.{entry_seen, log_of};
ghost use Rattle.mbe_log.specs.Sound.{GivesCommand, IsSound};
ghost use Rattle.mbe_log.specs.FragmentViews.{fragment_seen};

use crate::chain::{ChainList, extend, is_within};
use crate::fragment::Fragment;
use mbe_semantics::fragment_kinds::MetaVarKind;
use mbe_semantics::list_prefix::ListPrefix;
use mbe_tt::symbol::Symbol;
use std::alloc::{AllocError, Allocator, Global};
use std::default::MadeWith;
use std::fmt;
use std::marker::Model;

/// The entries of a log that belong to one thread: the first entries of a list of commands and of a
/// list of finished rounds. A push returns a longer handle through `&mut`. What the old handle
/// stood for doesn't change, so several holders may share one handle by `&Handle`.
#[derive(Debug, Drop, PartialEq, Eq)]
pub struct Handle {
    pub(crate) current: ListPrefix,
    pub(crate) finished: ListPrefix,
}

impl Model for Handle {
    ghost use Rattle.mbe_semantics.specs.Bindings.Account as account;
    ghost use Rattle.mbe_log.specs.LogEntries.{handle_code};

    ghost Value = { account.Handle };

    ghost coded = { handle_code };

    ghost view = { λ h. record { current = h.current; finished = h.finished } };

    ghost inverse = { λ h. record { current = h.current; finished = h.finished } };
}

/// A handle that belongs to no log. A `SmallVec` needs it for its unused slots.
impl<A: Copy> MadeWith<A> for Handle {
    fn made_with(_alloc: A) -> Handle {
        let nothing = ListPrefix { list: 0, first: 0 };
        Handle {
            current: nothing,
            finished: nothing,
        }
    }
}

/// Returns a second handle of the same entries. A push to one of them doesn't change the other.
#[inline(always)]
pub fn again(handle: &Handle) -> Handle
    ensures { result ≡ handle.now }
{
    Handle {
        current: handle.current,
        finished: handle.finished,
    }
}

/// Returns the parts of a handle: of its list of commands, and of its list of finished rounds.
#[inline(always)]
pub fn handle_parts(handle: &Handle) -> (ListPrefix, ListPrefix)
    ensures current { result.0 ≡ handle.now.current }
    ensures finished { result.1 ≡ handle.now.finished }
{
    (handle.current, handle.finished)
}

/// Makes the handle of these parts.
#[inline(always)]
pub fn handle_from_parts(current: ListPrefix, finished: ListPrefix) -> Handle
    ensures { result ≡ record { current = current; finished = finished } }
{
    Handle { current, finished }
}

/// Returns a handle of no entries, in the same lists. It binds nothing and takes no memory.
#[inline(always)]
pub fn empty_handle(handle: &Handle) -> Handle
    ensures { IsEmptied handle.now result }
{
    Handle {
        current: ListPrefix {
            list: handle.current.list,
            first: 0,
        },
        finished: ListPrefix {
            list: handle.finished.list,
            first: 0,
        },
    }
}

/// An entry of a list of commands.
#[derive(Drop)]
pub enum Command<'a, A: Allocator = Global> {
    Fragment(Symbol<A>, Fragment<'a, A>),
    Optional(Symbol<A>),
    Empty(Symbol<A>),
    Missing(Symbol<A>, MetaVarKind),
    Nested {
        finished: ListPrefix,
        current: ListPrefix,
    },
}

/// The number of lists in a log, by sort.
#[derive(Clone, Copy, Debug, Drop, PartialEq, Eq)]
pub struct LogSize {
    pub commands: usize,
    pub rounds: usize,
}

/// The contents of a log, for code that builds bindings from it or makes another log.
pub struct LogLists<'l, 'a, A: Allocator = Global> {
    pub alloc: A,
    pub commands: &'l [ChainList<Command<'a, A>, A>],
    pub rounds: &'l [ChainList<ListPrefix, A>],
    /// The number of nested commands that were written. Commands nest at most that deep.
    pub nested: usize,
}

/// A log of bindings. Each thread has a handle of it.
pub struct BindingLog<'a, A: Allocator = Global> {
    alloc: A,
    commands: Vec<ChainList<Command<'a, A>, A>, A>,
    rounds: Vec<ChainList<ListPrefix, A>, A>,
    // The number of nested commands that were written. Commands nest at most that deep.
    nested: usize,
}

impl<'a, A: Allocator> Model for BindingLog<'a, A> {
    ghost use Rattle.mbe_semantics.specs.Bindings.Account.{Log};
    ghost use Rattle.mbe_log.specs.LogEntries.{log_code, log_of};
    ghost use Rattle.mbe_log.specs.Sound.{IsSound};

    ghost Value = { Log };

    ghost coded = { log_code };

    ghost view = { λ b. log_of b.commands.items b.rounds.items };

    ghost invariant = { λ b. IsSound b.commands.items b.rounds.items b.nested };
}

impl<A: Allocator> Drop for BindingLog<'_, A> {
    fn drop(self) {
        let BindingLog {
            alloc: _,
            commands,
            rounds,
            nested: _,
        } = self;
        drop_lists(commands);
        drop_lists(rounds);
    }
}

/// Prints the number of lists of each sort. Their contents are only seen by handles.
impl<A: Allocator> fmt::Debug for BindingLog<'_, A> {
    ghost use Rattle.std.specs.Prelude.{Some};
    ghost use Rattle.mbe_log.specs.DebugText.{log_text};

    ghost debug_output = { λ log. Some (log_text log) };

    fn fmt<W: fmt::Write>(&self, f: &mut fmt::Formatter<W>) -> fmt::Result {
        let commands = self.commands.len();
        let rounds = self.rounds.len();
        write!(f, "BindingLog {{ commands: {commands}, rounds: {rounds} }}")
    }
}

impl<'a, A: Allocator + Copy> BindingLog<'a, A> {
    /// Makes a log without lists.
    pub fn new(alloc: A) -> BindingLog<'a, A>
        ensures { result ≡ no_lists }
    {
        BindingLog {
            alloc,
            commands: Vec::new(alloc),
            rounds: Vec::new(alloc),
            nested: 0,
        }
    }

    /// Returns a new handle with an empty account. `AllocError` if out of memory.
    #[inline]
    pub fn alloc(&mut self) -> Result<Handle, AllocError>
        ensures given { IfOk result (λ h. IsNewHandle self.old self.new h) }
        ensures account { IfOk result (λ h. IsAccount self.new h no_account) }
        ensures empty { IfOk result (λ h. h.current.first ≡ 0 × h.finished.first ≡ 0) }
        ensures err { OnErr result (self.new ≡ self.old) }
    {
        let handle = new_handle(self.alloc, &mut self.commands, &mut self.rounds, None, None)?;
        Ok(handle)
    }

    /// Returns a new handle with an equal account. `AllocError` if out of memory.
    pub fn copy(&mut self, handle: &Handle) -> Result<Handle, AllocError>
        requires { HasEntriesOf self.old handle.now }
        ensures given { IfOk result (λ h. IsNewHandle self.old self.new h) }
        ensures account { IfOk result (λ h. (a : Account)
            → IsAccount self.old handle.now a → IsAccount self.new h a) }
        ensures commands { OnOk result (HasOneListMore self.old.commands self.new.commands) }
        ensures rounds { OnOk result (HasOneListMore self.old.rounds self.new.rounds) }
        ensures few { IfOk result (λ h. h.current.first ≤ 3 × h.finished.first ≤ 3) }
        ensures err { OnErr result (self.new ≡ self.old) }
    {
        let link = self.commands[handle.current.list].link_to(handle.current);
        let round_link = self.rounds[handle.finished.list].link_to(handle.finished);
        let given = new_handle(
            self.alloc,
            &mut self.commands,
            &mut self.rounds,
            link,
            round_link,
        )?;
        Ok(given)
    }

    /// Binds the name to the fragment. `AllocError` if out of memory.
    #[inline(always)]
    pub fn push_fragment(
        &mut self,
        handle: &mut Handle,
        name: &Symbol<A>,
        fragment: Fragment<'a, A>,
    ) -> Result<(), AllocError>
        requires { HasEntriesOf self.old handle.old }
        ensures ok { OnOk result (IsUpdatedHandle self.old self.new handle.old handle.new
            (pushed (Written.binds name.now (fragment_seen fragment.entry)))) }
        ensures written { OnOk result (WritesOne self.old handle.old handle.new) }
        ensures err { OnErr result (self.new ≡ self.old × handle.new ≡ handle.old) }
    {
        self.push(handle, Command::Fragment(name.clone()?, fragment))?;
        Ok(())
    }

    /// Binds the name to a fragment without tokens. `AllocError` if out of memory.
    #[inline(always)]
    pub fn push_optional(&mut self, handle: &mut Handle, name: &Symbol<A>) -> Result<(), AllocError>
        requires { HasEntriesOf self.old handle.old }
        ensures ok { OnOk result (IsUpdatedHandle self.old self.new handle.old handle.new
            (pushed (Written.binds_nothing name.now))) }
        ensures written { OnOk result (WritesOne self.old handle.old handle.new) }
        ensures err { OnErr result (self.new ≡ self.old × handle.new ≡ handle.old) }
    {
        self.push(handle, Command::Optional(name.clone()?))?;
        Ok(())
    }

    /// Notes that the name is in a repetition without rounds. `AllocError` if out of memory.
    #[inline(always)]
    pub fn push_empty(&mut self, handle: &mut Handle, name: &Symbol<A>) -> Result<(), AllocError>
        requires { HasEntriesOf self.old handle.old }
        ensures ok { OnOk result (IsUpdatedHandle self.old self.new handle.old handle.new
            (pushed (Written.skips name.now))) }
        ensures written { OnOk result (WritesOne self.old handle.old handle.new) }
        ensures err { OnErr result (self.new ≡ self.old × handle.new ≡ handle.old) }
    {
        self.push(handle, Command::Empty(name.clone()?))?;
        Ok(())
    }

    /// Notes that the match failed at the name: nothing there fits its kind. `AllocError` if out of
    /// memory.
    #[inline(always)]
    pub fn push_missing(
        &mut self,
        handle: &mut Handle,
        name: &Symbol<A>,
        kind: MetaVarKind,
    ) -> Result<(), AllocError>
        requires { HasEntriesOf self.old handle.old }
        ensures ok { OnOk result (IsUpdatedHandle self.old self.new handle.old handle.new
            (pushed (Written.misses name.now kind))) }
        ensures written { OnOk result (WritesOne self.old handle.old handle.new) }
        ensures err { OnErr result (self.new ≡ self.old × handle.new ≡ handle.old) }
    {
        self.push(handle, Command::Missing(name.clone()?, kind))?;
        Ok(())
    }

    // Adds a command after the handle's current ones. The command isn't nested.
    #[inline(always)]
    fn push(&mut self, handle: &mut Handle, command: Command<'a, A>) -> Result<(), AllocError>
        requires entries { HasEntriesOf self.old handle.old }
        requires plain { IsPlain (entry_seen command) }
        ensures ok { OnOk result ((c : Written) → GivesCommand self.old (entry_seen command.entry) c
            → IsUpdatedHandle self.old self.new handle.old handle.new (pushed c)) }
        ensures written { OnOk result (WritesOne self.old handle.old handle.new) }
        ensures err { OnErr result (self.new ≡ self.old × handle.new ≡ handle.old) }
    {
        let current = extend(self.alloc, &mut self.commands, handle.current, command)?;
        handle.current = current;
        Ok(())
    }

    /// Adds one command to the parent: the child's finished rounds, with the child's current
    /// commands as the last round. It holds them as they are now. `AllocError` if out of memory.
    #[inline]
    pub fn push_nested(&mut self, parent: &mut Handle, child: &Handle) -> Result<(), AllocError>
        requires parent { HasEntriesOf self.old parent.old }
        requires child { HasEntriesOf self.old child.now }
        ensures ok { OnOk result ((b : Account) → IsAccount self.old child.now b
            → IsUpdatedHandle self.old self.new parent.old parent.new (λ a. pushed_nested a b)) }
        ensures written { OnOk result (WritesOne self.old parent.old parent.new) }
        ensures err { OnErr result (self.new ≡ self.old × parent.new ≡ parent.old) }
    {
        let nested = self.nested.checked_add(1).ok_or(AllocError)?;
        let finished = child.finished;
        let current = child.current;
        let longer = extend(
            self.alloc,
            &mut self.commands,
            parent.current,
            Command::Nested { finished, current },
        )?;
        parent.current = longer;
        self.nested = nested;
        Ok(())
    }

    /// Makes the current commands a finished round and begins an empty list. `AllocError` if out of
    /// memory.
    #[inline]
    pub fn push_default(&mut self, handle: &mut Handle) -> Result<(), AllocError>
        requires { HasEntriesOf self.old handle.old }
        ensures ok { OnOk result (IsUpdatedHandle self.old self.new handle.old handle.new
            pushed_default) }
        ensures written { OnOk result (WritesRound self.old handle.old handle.new) }
        ensures err { OnErr result (self.new ≡ self.old × handle.new ≡ handle.old) }
    {
        let round = handle.current;
        self.commands.reserve(1)?;
        let finished = extend(self.alloc, &mut self.rounds, handle.finished, round)?;
        handle.finished = finished;
        let list = self.commands.len();
        self.commands
            .push_reserved(ChainList::from_link(self.alloc, None));
        handle.current = ListPrefix { list, first: 0 };
        Ok(())
    }

    /// Returns the contents of the log.
    #[inline(always)]
    pub fn lists(&self) -> LogLists<'_, 'a, A>
        ensures seen { log_of result.commands.now result.rounds.now ≡ self.now }
        ensures sound { IsSound result.commands.now result.rounds.now result.nested }
    {
        LogLists {
            alloc: self.alloc,
            commands: &self.commands,
            rounds: &self.rounds,
            nested: self.nested,
        }
    }

    /// Makes a log of these contents.
    pub fn from_lists(
        alloc: A,
        commands: Vec<ChainList<Command<'a, A>, A>, A>,
        rounds: Vec<ChainList<ListPrefix, A>, A>,
        nested: usize,
    ) -> BindingLog<'a, A>
        requires { IsSound commands.items rounds.items nested }
        ensures { result ≡ log_of commands.entry.items rounds.items }
    {
        BindingLog {
            alloc,
            commands,
            rounds,
            nested,
        }
    }
}

impl<'a, A: Allocator> BindingLog<'a, A> {
    /// Returns whether both lists of the handle exist in this log.
    pub fn is_live(&self, handle: &Handle) -> bool
        ensures { IsTrue result ↔ IsLive self.now handle.now }
    {
        handle.current.list < self.commands.len() && handle.finished.list < self.rounds.len()
    }

    /// Returns whether both lists of the handle exist in this log and have as many entries as the
    /// handle says. `copy`, the pushes, `build` and `entries_of` require this. Every handle of this
    /// log has it.
    pub fn has_entries_of(&self, handle: &Handle) -> bool
        ensures { IsTrue result ↔ HasEntriesOf self.now handle.now }
    {
        is_within(&self.commands, handle.current) && is_within(&self.rounds, handle.finished)
    }

    /// A law that runs nothing: the entries of a log have an order of writing, in which each entry
    /// stands for earlier ones alone.
    pub fn keeps_order(&self)
        ensures { (order : Order) × IsOrdered self.now order }
    {
        let _ = &self.alloc;
    }

    /// Returns the number of lists of each sort.
    #[inline(always)]
    pub fn extent(&self) -> LogSize
        ensures { result ≡ record {
          commands = length self.now.commands;
          rounds = length self.now.rounds;
        } }
    {
        LogSize {
            commands: self.commands.len(),
            rounds: self.rounds.len(),
        }
    }

    /// Returns how many entries of the current list are the handle's, and how many of the list of
    /// finished rounds. These are all entries of the lists if nothing else was pushed there.
    pub fn entries_of(&self, handle: &Handle) -> (usize, usize)
        requires { HasEntriesOf self.now handle.now }
        ensures current { result.0 ≡ handle.now.current.first }
        ensures finished { result.1 ≡ handle.now.finished.first }
        ensures lengths { IsAtEnd self.now handle.now
            → (result.0 ≡ current_len self.now handle.now)
            × (result.1 ≡ finished_len self.now handle.now) }
        ensures account { (a : Account) × IsAccount self.now handle.now a }
    {
        let _ = &self.alloc;
        (handle.current.first, handle.finished.first)
    }
}

// Makes a handle of two new lists, which have only these links. `AllocError` if out of memory.
#[inline(always)]
fn new_handle<'a, A: Allocator + Copy>(
    alloc: A,
    commands: &mut Vec<ChainList<Command<'a, A>, A>, A>,
    rounds: &mut Vec<ChainList<ListPrefix, A>, A>,
    link: Option<ListPrefix>,
    round_link: Option<ListPrefix>,
) -> Result<Handle, AllocError>
    ensures commands { OnOk result (commands.new.items ≡ with_link commands.old.items link) }
    ensures rounds { OnOk result (rounds.new.items ≡ with_link rounds.old.items round_link) }
    ensures handle { IfOk result (λ h. h ≡ record {
      current = last_part commands.old.items link;
      finished = last_part rounds.old.items round_link;
    }) }
    ensures err { OnErr result ((commands.new.items ≡ commands.old.items)
        × (rounds.new.items ≡ rounds.old.items)) }
{
    commands.reserve(1)?;
    rounds.reserve(1)?;
    let current = ChainList::from_link(alloc, link);
    let finished = ChainList::from_link(alloc, round_link);
    let handle = Handle {
        current: ListPrefix {
            list: commands.len(),
            first: current.len(),
        },
        finished: ListPrefix {
            list: rounds.len(),
            first: finished.len(),
        },
    };
    commands.push_reserved(current);
    rounds.push_reserved(finished);
    Ok(handle)
}

fn drop_lists<T: Drop, A: Allocator>(lists: Vec<ChainList<T, A>, A>) {
    let _lists = lists;
}
