// Builds bindings: replays the commands of a handle in the order of writing. A loop follows the
// links of a list. Only nested commands recurse, and each recursion is one repetition deeper.
ghost use Rattle.std.specs.Prelude.{◌≡◌, ◌≤◌, [], length, take, option_map, IsTrue, IfOk, OnOk};
ghost use Rattle.mbe_semantics.specs.Bindings.Account.{Account, Commands, CommandRounds};
ghost use Rattle.mbe_semantics.specs.Bindings.Account.{HasEntriesOf, IsAccount, run};
ghost use Rattle.mbe_semantics.specs.Bindings.Account.{add_round_in, run_command, run_rounds};
ghost use Rattle.mbe_semantics.specs.Bindings.Account.{no_commands};
ghost use Rattle.mbe_semantics.specs.Bindings.Account.{no_command_rounds, command_round, PartGives};
ghost use Rattle.mbe_semantics.specs.Bindings.Account.{PartGivesRounds, Command as Written};
ghost use Rattle.mbe_semantics.specs.Bindings.Environment.{fragment};
ghost use Rattle.mbe_log.specs.Chain.{IsChained};
ghost use Rattle.mbe_log.specs.LogEntries.{entry_seen, log_of};
ghost use Rattle.mbe_log.specs.FragmentViews.{fragment_seen};
ghost use Rattle.mbe_log.specs.Sound.{GivesCommand};
ghost use Rattle.mbe_bindings.specs.BindingViews.{env_of};
ghost use Rattle.mbe_bindings.specs.Replay.{BindsRound, IsPartGrounded, IsCommandGrounded};
ghost use Rattle.mbe_bindings.specs.Replay.{AreRoundsGrounded};
ghost use Rattle.mbe_bindings.specs.ListGrowth.{grown};
ghost use Rattle.mbe_bindings.specs.PlainCommands.{entry_name, entry_row, entry_rows, names_of};
ghost use Rattle.mbe_bindings.specs.PlainCommands.{BindsNameAt, BindDistinctNames};

use crate::bindings::{Binding, Bindings};
use crate::chain_entries::{single_entry, slots, two, unlinked_entries};
use mbe_log::chain::ChainList;
use mbe_log::fragment::Fragment;
use mbe_log::log::{BindingLog, Command, Handle, LogLists, handle_parts};
use mbe_semantics::list_prefix::ListPrefix;
use mbe_tt::symbol::Symbol;
use std::alloc::{AllocError, Allocator};

impl<'a, A: Allocator + Copy> Bindings<'a, A> {
    /// Returns what the current commands of a handle bind. `AllocError` if out of memory.
    pub fn build(log: &BindingLog<'a, A>, handle: &Handle) -> Result<Bindings<'a, A>, AllocError>
        requires { HasEntriesOf log.now handle.now }
        ensures { IfOk result (λ b. (a : Account)
            → IsAccount log.now handle.now a → env_of b ≡ run a.current []) }
    {
        let LogLists {
            alloc,
            commands,
            rounds,
            nested,
        } = log.lists();
        let (current, _finished) = handle_parts(handle);
        build_part(alloc, commands, rounds, current, nested)
    }
}

// Returns the name that the command binds, if the command isn't nested.
#[inline(always)]
fn bound_name<'c, A: Allocator>(command: &'c Command<'_, A>) -> Option<&'c Symbol<A>>
    ensures { option_map (λ x. x.now) result ≡ entry_name command.now }
{
    match command {
        Command::Fragment(name, _) => Some(name),
        Command::Optional(name) => Some(name),
        Command::Empty(name) => Some(name),
        Command::Missing(name, _) => Some(name),
        Command::Nested { .. } => None,
    }
}

// Returns whether the command binds the name at this index. A nested command binds none by itself.
#[inline(always)]
fn binds_name_at<A: Allocator>(
    command: &Command<'_, A>,
    bindings: &Bindings<'_, A>,
    index: usize,
) -> bool
    ensures { IsTrue result → BindsNameAt command.now (names_of (env_of bindings.now)) index }
{
    match bound_name(command) {
        Some(name) => bindings.has_name_at(index, name),
        None => false,
    }
}

// Returns whether the first `count` commands bind the names from index `start` on, one each, in
// order.
fn bind_names_from<A: Allocator>(
    list: &ChainList<Command<'_, A>, A>,
    count: usize,
    bindings: &Bindings<'_, A>,
    start: usize,
) -> bool
    requires { count ≤ length list.now.own }
    ensures { IsTrue result → BindDistinctNames (take count list.now.own) }
{
    if !bindings.has_names(start, count) {
        return false;
    }
    for index in 0..count {
        if !binds_name_at(list.own_at(index), bindings, start + index) {
            return false;
        }
    }
    true
}

// Adds a copy of the fragment to the name's list. It is fast if the name is the one at this index.
#[inline(always)]
fn grow_by_fragment<'a, A: Allocator + Copy>(
    alloc: A,
    number: usize,
    index: usize,
    name: &Symbol<A>,
    value: &Fragment<'a, A>,
    bindings: &mut Bindings<'a, A>,
) -> Result<(), AllocError>
    ensures { OnOk result (env_of bindings.new
        ≡ grown number (env_of bindings.old) name.now (fragment (fragment_seen value.now))) }
{
    let copy = Binding::Fragment(value.try_clone()?);
    bindings.grow_at(alloc, number, index, name, copy)
}

// Adds what the command binds to the list of its name. It is fast if the name is the one at this
// index. A nested command adds nothing.
fn grow_by_command<'a, A: Allocator + Copy>(
    alloc: A,
    command: &Command<'a, A>,
    number: usize,
    index: usize,
    bindings: &mut Bindings<'a, A>,
) -> Result<(), AllocError>
    ensures { OnOk result (env_of bindings.new
        ≡ add_round_in number (entry_row command.now) (env_of bindings.old)) }
{
    match command {
        Command::Fragment(name, fragment) => {
            grow_by_fragment(alloc, number, index, name, fragment, bindings)
        }
        Command::Optional(name) => bindings.grow_at(
            alloc,
            number,
            index,
            name,
            Binding::Fragment(Fragment::Empty),
        ),
        Command::Empty(name) => bindings.grow_at(alloc, number, index, name, Binding::Empty),
        Command::Missing(name, kind) => bindings.grow_at(
            alloc,
            number,
            index,
            name,
            Binding::Missing(*kind),
        ),
        Command::Nested { .. } => Ok(()),
    }
}

// Does the same for the first `count` commands of the list.
fn grow_by_commands<'a, A: Allocator + Copy>(
    alloc: A,
    list: &ChainList<Command<'a, A>, A>,
    count: usize,
    number: usize,
    start: usize,
    bindings: &mut Bindings<'a, A>,
) -> Result<(), AllocError>
    requires { count ≤ length list.now.own }
    ensures { OnOk result (env_of bindings.new
        ≡ add_round_in number (entry_rows (take count list.now.own)) (env_of bindings.old)) }
{
    for index in 0..count {
        grow_by_command(
            alloc,
            list.own_at(index),
            number,
            start.saturating_add(index),
            bindings,
        )?;
    }
    Ok(())
}

// Returns what the commands of a part bind. They nest at most `depth` deep.
#[cycle(building)]
fn build_part<'a, A: Allocator + Copy>(
    alloc: A,
    commands: &[ChainList<Command<'a, A>, A>],
    rounds: &[ChainList<ListPrefix, A>],
    part: ListPrefix,
    depth: usize,
) -> Result<Bindings<'a, A>, AllocError>
    requires links { IsChained commands.now }
    requires round_links { IsChained rounds.now }
    requires grounded { IsPartGrounded (log_of commands.now rounds.now) part depth }
    ensures { IfOk result (λ b. (cs : Commands)
        → PartGives (log_of commands.now rounds.now) no_commands part cs → env_of b ≡ run cs []) }
{
    let found = slots(alloc, commands, part)?;
    let mut bindings = Bindings::with_room(alloc, found.len())?;
    for slot in &found {
        let command = commands[slot.list].own_at(slot.first);
        bind_command(alloc, commands, rounds, command, depth, &mut bindings)?;
    }
    Ok(bindings)
}

// Applies one command to the bindings.
#[cycle(building)]
fn bind_command<'a, A: Allocator + Copy>(
    alloc: A,
    commands: &[ChainList<Command<'a, A>, A>],
    rounds: &[ChainList<ListPrefix, A>],
    command: &Command<'a, A>,
    depth: usize,
    bindings: &mut Bindings<'a, A>,
) -> Result<(), AllocError>
    requires links { IsChained commands.now }
    requires round_links { IsChained rounds.now }
    requires grounded { IsCommandGrounded (log_of commands.now rounds.now)
        (entry_seen command.now) depth }
    ensures { OnOk result ((c : Written)
        → GivesCommand (log_of commands.now rounds.now) (entry_seen command.now) c
        → env_of bindings.new ≡ run_command c (env_of bindings.old)) }
{
    match command {
        Command::Fragment(name, fragment) => {
            bindings.insert(name, Binding::Fragment(fragment.try_clone()?))
        }
        Command::Optional(name) => { bindings.insert(name, Binding::Fragment(Fragment::Empty)) }
        Command::Empty(name) => bindings.insert(name, Binding::Empty),
        Command::Missing(name, kind) => bindings.insert(name, Binding::Missing(*kind)),
        Command::Nested { finished, current } => {
            bind_rounds(
                alloc,
                commands,
                rounds,
                *finished,
                *current,
                depth - 1,
                bindings,
            )
        }
    }
}

// Applies the rounds of a nested command, each by itself.
#[cycle(building)]
fn bind_rounds<'a, A: Allocator + Copy>(
    alloc: A,
    commands: &[ChainList<Command<'a, A>, A>],
    rounds: &[ChainList<ListPrefix, A>],
    finished: ListPrefix,
    last: ListPrefix,
    depth: usize,
    bindings: &mut Bindings<'a, A>,
) -> Result<(), AllocError>
    requires links { IsChained commands.now }
    requires round_links { IsChained rounds.now }
    requires grounded { AreRoundsGrounded (log_of commands.now rounds.now) finished last depth }
    ensures { OnOk result ((rs : CommandRounds) (ds : Commands)
        → PartGivesRounds (log_of commands.now rounds.now) no_command_rounds finished rs
        → PartGives (log_of commands.now rounds.now) no_commands last ds
        → env_of bindings.new ≡ run_rounds (command_round rs ds) (env_of bindings.old)) }
{
    let found = slots(alloc, rounds, finished)?;
    let start = bindings.len();
    for (number, slot) in found.iter().enumerate() {
        let part = *rounds[slot.list].own_at(slot.first);
        bind_round(
            alloc, commands, rounds, part, depth, number, start, bindings,
        )?;
    }
    bind_round(
        alloc,
        commands,
        rounds,
        last,
        depth,
        found.len(),
        start,
        bindings,
    )?;
    Ok(())
}

// Adds what the round of this number binds to the lists of its names.
#[cycle(building)]
fn bind_round<'a, A: Allocator + Copy>(
    alloc: A,
    commands: &[ChainList<Command<'a, A>, A>],
    rounds: &[ChainList<ListPrefix, A>],
    part: ListPrefix,
    depth: usize,
    number: usize,
    start: usize,
    bindings: &mut Bindings<'a, A>,
) -> Result<(), AllocError>
    requires links { IsChained commands.now }
    requires round_links { IsChained rounds.now }
    requires grounded { IsPartGrounded (log_of commands.now rounds.now) part depth }
    ensures { OnOk result (BindsRound commands.now rounds.now part number
        (env_of bindings.old) (env_of bindings.new)) }
{
    // Most rounds bind one variable. Such a round needs no map of its own.
    if let Some(Command::Fragment(name, fragment)) = single_entry(commands, part) {
        grow_by_fragment(alloc, number, start, name, fragment, bindings)?;
        return Ok(());
    }
    // Many rounds bind two different names.
    if let Some((Command::Fragment(name, one), Command::Fragment(other, two))) = two(commands, part)
        && name != other
    {
        grow_by_fragment(alloc, number, start, name, one, bindings)?;
        grow_by_fragment(alloc, number, start.saturating_add(1), other, two, bindings)?;
        return Ok(());
    }
    // Most rounds bind the same names as the round before, in the same order.
    if let Some((list, count)) = unlinked_entries(commands, part)
        && bind_names_from(list, count, bindings, start)
    {
        grow_by_commands(alloc, list, count, number, start, bindings)?;
        return Ok(());
    }
    let round = build_part(alloc, commands, rounds, part, depth)?;
    bindings.add_round(alloc, number, round)?;
    Ok(())
}
