// How a caller uses a log: two threads that part from one, one of them nested in a third.
ghost use Rattle.std.specs.Prelude.{◌≡◌, IfOk, OnOk};
ghost use Rattle.mbe_semantics.specs.Bindings.Account.{environment_of_account, no_account, pushed};
ghost use Rattle.mbe_semantics.specs.Bindings.Account.{pushed_nested};
ghost use Rattle.mbe_semantics.specs.Bindings.Account.{Command as Written};
ghost use Rattle.mbe_log.specs.Accounts.{HandleAccounts, HasAccounts};
ghost use Rattle.mbe_bindings.specs.BindingViews.{env_of as bound_in};

use mbe_bindings::bindings::Bindings;
use mbe_log::log::BindingLog;
use mbe_tt::symbol::Symbol;
use std::alloc::{AllocError, Allocator};

/// What the third handle binds. It doesn't see what the first handle pushes after the copy, nor
/// what the second pushes later. The accounts of other handles are unchanged.
pub fn split<'a, A: Allocator + Copy>(
    log: &mut BindingLog<'a, A>,
    name: &Symbol<A>,
    other: &Symbol<A>,
) -> Result<Bindings<'a, A>, AllocError>
    ensures binds { IfOk result (λ b. bound_in b ≡ environment_of_account (pushed_nested no_account
        (pushed (Written.binds_nothing other.now) (pushed (Written.skips name.now) no_account)))) }
    ensures others { OnOk result
        ((closure : HandleAccounts) → HasAccounts log.old closure → HasAccounts log.new closure) }
{
    let mut first = log.alloc()?;
    log.push_empty(&mut first, name)?;
    let mut second = log.copy(&first)?;
    log.push_empty(&mut first, other)?;
    log.push_optional(&mut second, other)?;
    let mut outer = log.alloc()?;
    log.push_nested(&mut outer, &second)?;
    log.push_empty(&mut second, name)?;
    let bindings = Bindings::build(log, &outer)?;
    Ok(bindings)
}

/// What the numbers of a handle are after three pushes, and once that round is finished.
pub fn numbers<A: Allocator + Copy>(
    log: &mut BindingLog<'_, A>,
    name: &Symbol<A>,
) -> Result<((usize, usize), (usize, usize)), AllocError>
    ensures pushed { IfOk result (λ r. r.0.0 ≡ 3 × r.0.1 ≡ 0) }
    ensures finished { IfOk result (λ r. r.1.0 ≡ 0 × r.1.1 ≡ 1) }
{
    let mut handle = log.alloc()?;
    log.push_empty(&mut handle, name)?;
    log.push_optional(&mut handle, name)?;
    log.push_empty(&mut handle, name)?;
    let before = log.entries_of(&handle);
    log.push_default(&mut handle)?;
    let after = log.entries_of(&handle);
    Ok((before, after))
}
