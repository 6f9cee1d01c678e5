// The line on standard error of a run that failed.
ghost use Rattle.std.specs.Prelude.{◌≡◌, IfSome, IsNone, ◌↔◌, ◌≤◌};
ghost use Rattle.mbe_program.specs.Outcomes.{IsFailureOf, failure_status, status_of};

use crate::options::Options;
use crate::program::Outcome;
use mbe::ParseError;
use std::alloc::Allocator;
use std::fmt;

/// A line on standard error.
#[derive(Drop)]
pub enum Failure<'a, A: Allocator> {
    /// The arguments are invalid.
    Usage,
    /// The file of this name can't be read, isn't UTF-8, or has 2^32 bytes or more.
    CannotRead(&'a str),
    Refused(&'a ParseError<A>),
    CannotLex { name: &'a str, offset: u32 },
    CannotWrite,
    OutOfMemory,
}

impl<'a, A: Allocator> Failure<'a, A> {
    /// The exit status of a program that prints this line.
    pub fn status(&self) -> u8
        ensures { result ≡ failure_status self.now }
    {
        match self {
            Failure::Refused(_) => 2,
            Failure::Usage | Failure::CannotRead(_) | Failure::CannotWrite => 3,
            Failure::CannotLex { .. } => 4,
            Failure::OutOfMemory => 5,
        }
    }
}

impl<'a, A: Allocator> fmt::Display for Failure<'a, A> {
    ghost use Rattle.std.specs.Prelude.{Some};
    ghost use Rattle.mbe_program.specs.Outcomes.{failure_text};

    ghost output = { λ r. Some (failure_text r) };

    fn fmt<W: fmt::Write>(&self, f: &mut fmt::Formatter<W>) -> fmt::Result {
        match self {
            Failure::Usage => write!(f, "usage: mbex [--lint] DEF-FILE ARG-FILE [EDITION]"),
            Failure::CannotRead(name) => write!(f, "cannot read {name}"),
            Failure::Refused(error) => write!(f, "definition refused: {error}"),
            Failure::CannotLex { name, offset } => write!(f, "cannot lex {name} at {offset}"),
            Failure::CannotWrite => write!(f, "cannot write"),
            Failure::OutOfMemory => write!(f, "out of memory"),
        }
    }
}

impl<A: Allocator> Outcome<A> {
    /// Returns the line of a run with these options. `None` if the run wrote an expansion or
    /// verdicts.
    pub fn failure<'a>(&'a self, options: &Options<'a>) -> Option<Failure<'a, A>>
        ensures silent { IsNone result ↔ (status_of self.now ≤ 1) }
        ensures status { IfSome result (λ r. failure_status r ≡ status_of self.now) }
        ensures tells { IfSome result (IsFailureOf options.now self.now) }
    {
        match self {
            Outcome::Expanded | Outcome::Linted | Outcome::Faulted => None,
            Outcome::Refused(error) => Some(Failure::Refused(error)),
            Outcome::CannotLex { file, offset } => Some(Failure::CannotLex {
                name: options.name_of(*file),
                offset: *offset,
            }),
            Outcome::CannotWrite => Some(Failure::CannotWrite),
            Outcome::OutOfMemory => Some(Failure::OutOfMemory),
        }
    }
}
