// The errors of a grammar's text: what is wrong, its line and column, and the message.
ghost use Rattle.std.specs.Prelude.{◌≡◌, Some};

use std::alloc::AllocError;
use std::error::Error;
use std::fmt::{self, Display, Formatter};

/// A location in a text. Lines and columns count from 1. A column is a character.
#[derive(Clone, Copy, Debug, Drop, PartialEq, Eq)]
pub struct PegLocation {
    pub line: usize,
    pub column: usize,
}

/// What is wrong in a grammar's text.
#[derive(Clone, Copy, Debug, Drop, PartialEq, Eq)]
pub enum PegErrorKind<'t> {
    /// No token begins here.
    InvalidToken,
    /// A text in quotes, a `(` or a `[` isn't closed.
    Unclosed,
    /// A text in quotes is empty.
    Empty,
    /// A "`" isn't followed by one character and a "`".
    ExpectedSign,
    /// A `)` or a `]` has no opening.
    Unopened,
    /// Something comes before the first rule.
    ExpectedDefinition,
    /// A rule, an alternative or a group is empty, or nothing comes after a `&` or `~`.
    ExpectedRule,
    /// A `?`, `*`, `+` or `!` has nothing before it to apply to.
    NothingToRepeat,
    /// A list of keywords has something other than a word.
    ExpectedKeyword,
    /// No rule and no terminal has this name.
    Unknown(&'t str),
    /// An earlier rule has this name.
    Duplicate(&'t str),
}

/// Why a grammar couldn't be read.
#[derive(Clone, Copy, Debug, Drop, PartialEq, Eq)]
pub enum PegError<'t> {
    /// The text has an error at this location.
    At(PegLocation, PegErrorKind<'t>),
    OutOfMemory,
}

impl Display for PegErrorKind<'_> {
    ghost use Rattle.mbe_grammar.specs.Peg.ErrorTexts.{reason_text};

    ghost output = { λ reason. Some (reason_text reason) };

    fn fmt<W: fmt::Write>(&self, f: &mut Formatter<W>) -> fmt::Result {
        match self {
            PegErrorKind::InvalidToken => f.write_str("no word of a grammar begins here"),
            PegErrorKind::Unclosed => f.write_str("nothing closes this"),
            PegErrorKind::Empty => f.write_str("an empty text"),
            PegErrorKind::ExpectedSign => f.write_str("one character and a \"`\" have to follow"),
            PegErrorKind::Unopened => f.write_str("nothing opens this"),
            PegErrorKind::ExpectedDefinition => f.write_str(
                "a name and a `=` have to come before this",
            ),
            PegErrorKind::ExpectedRule => f.write_str("a rule is missing here"),
            PegErrorKind::NothingToRepeat => f.write_str("no rule is before this"),
            PegErrorKind::ExpectedKeyword => f.write_str("keywords are words in `\"`"),
            PegErrorKind::Unknown(name) => write!(f, "no rule is named \"{name}\""),
            PegErrorKind::Duplicate(name) => write!(f, "a rule before is named \"{name}\""),
        }
    }
}

/// Writes line, column and reason: `3:7: no rule is named "type"`.
impl Display for PegError<'_> {
    ghost use Rattle.mbe_grammar.specs.Peg.ErrorTexts.{fault_text};

    ghost output = { λ fault. Some (fault_text fault) };

    fn fmt<W: fmt::Write>(&self, f: &mut Formatter<W>) -> fmt::Result {
        match self {
            PegError::At(location, reason) => {
                let PegLocation { line, column } = location;
                write!(f, "{line}:{column}: {reason}")
            }
            PegError::OutOfMemory => f.write_str("out of memory"),
        }
    }
}

impl Error for PegError<'_> {}

impl From<AllocError> for PegError<'_> {
    ghost use Rattle.mbe_grammar.specs.declared.peg.peg_error.PegError.TheVariants.{OutOfMemory};

    ghost from_gives = { λ _ fault. fault ≡ OutOfMemory };

    fn from(_error: AllocError) -> Self {
        PegError::OutOfMemory
    }
}
