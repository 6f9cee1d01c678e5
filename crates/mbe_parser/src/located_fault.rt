// The faults of a definition with their offsets.
ghost use Rattle.std.specs.Prelude.{◌≡◌, ◌+◌, ◌<◌, ◌^◌, IfOk};
ghost use Rattle.mbe_parser.specs.LocatedErrors.{FailsAt, shifted};

use mbe_ops::errors::error::{ReadError, SyntaxFault};
use std::alloc::{AllocError, AllocFailed};

/// A fault with its offset.
#[derive(Drop)]
pub struct LocatedFault {
    pub fault: SyntaxFault,
    /// The number of flat tokens before the token that is refused.
    pub offset: usize,
}

/// Why parsing stopped: out of memory, or a fault with its offset in the trees that are parsed.
#[derive(Drop)]
pub enum LocatedError {
    Memory,
    Fault(LocatedFault),
}

impl LocatedError {
    ghost use Rattle.mbe_parser.specs.declared.located_fault.LocatedError.TheVariants as variants;

    /// Returns the fault. `AllocError` if parsing was out of memory.
    pub fn fault(self) -> Result<LocatedFault, AllocError>
        ensures { IfOk result (λ found. self ≡ variants.Fault found) }
    {
        match self {
            LocatedError::Memory => Err(AllocError),
            LocatedError::Fault(found) => Ok(found),
        }
    }

    // Makes the error of one op, whose fault is at its first token.
    pub(crate) fn at_start(fault: SyntaxFault) -> LocatedError
        ensures { result ≡ variants.Fault (record { fault = fault; offset = 0 }) }
    {
        LocatedError::Fault(LocatedFault { fault, offset: 0 })
    }

    // Returns the same error, in trees that have `before` more flat tokens in front.
    pub(crate) fn shifted(self, before: usize) -> LocatedError
        requires { FailsAt self (λ f n. before + n < 2 ^ 64) }
        ensures { result ≡ shifted before self }
    {
        match self {
            LocatedError::Memory => LocatedError::Memory,
            LocatedError::Fault(found) => LocatedError::Fault(LocatedFault {
                fault: found.fault,
                offset: before + found.offset,
            }),
        }
    }
}

impl From<AllocError> for LocatedError {
    ghost use Rattle.std.specs.Prelude.{◌≡◌};
    ghost use Rattle.mbe_parser.specs.declared.located_fault.LocatedError.TheVariants.{Memory};

    ghost from_gives = { λ _ e. e ≡ Memory };

    fn from(_error: AllocError) -> LocatedError {
        LocatedError::Memory
    }
}

impl<T: Drop> From<AllocFailed<T>> for LocatedError {
    ghost use Rattle.std.specs.Prelude.{◌≡◌};
    ghost use Rattle.mbe_parser.specs.declared.located_fault.LocatedError.TheVariants.{Memory};

    ghost from_gives = { λ _ e. e ≡ Memory };

    fn from(_error: AllocFailed<T>) -> LocatedError {
        LocatedError::Memory
    }
}

/// The error of one op, in trees that begin with the op: the offset of its fault is 0.
impl From<ReadError> for LocatedError {
    ghost use Rattle.std.specs.Prelude.{◌≡◌};
    ghost use Rattle.mbe_parser.specs.LocatedErrors.{at_start};

    ghost from_gives = { λ error e. e ≡ at_start error };

    fn from(error: ReadError) -> LocatedError {
        match error {
            ReadError::Memory => LocatedError::Memory,
            ReadError::Fault(fault) => LocatedError::Fault(LocatedFault { fault, offset: 0 }),
        }
    }
}
