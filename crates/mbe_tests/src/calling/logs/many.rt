// A log with many lists.
use mbe_log::log::BindingLog;
use mbe_tt::symbol::Symbol;
use std::alloc::{AllocError, Global};

/// Makes `count` handles, each of which binds a name. Returns whether the last has no entry and one
/// round.
pub fn is_last_of_many(alloc: Global, count: usize) -> Result<bool, AllocError> {
    let name = Symbol::intern(alloc, "x")?;
    let mut log = BindingLog::new(alloc);
    for _handle in 0..count {
        let mut handle = log.alloc()?;
        log.push_empty(&mut handle, &name)?;
    }
    let mut last = log.alloc()?;
    log.push_empty(&mut last, &name)?;
    log.push_default(&mut last)?;
    Ok(log.entries_of(&last) == (0, 1))
}
