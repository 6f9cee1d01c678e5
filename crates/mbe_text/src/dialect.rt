// Dialects: which tokens a text has.
ghost use Rattle.std.specs.Prelude.{◌≡◌};
ghost use Rattle.mbe_text.specs.Whitespace as spec;
ghost use Rattle.mbe_text.specs.LexedTrees.{closes_groups};

use crate::characters::CharClass;
use mbe_tt::span::Edition;

/// The dialect of a text: which tokens it has.
#[derive(Clone, Copy, Debug, PartialEq, Eq)]
pub enum Dialect {
    /// The sample dialect, the project's own choice near to Rust. Doc comments are comments.
    /// Prefixed strings, raw strings and byte literals are faults.
    Sample,
    /// The whole of Rust in that edition, as rustc reads it. Lines must end with a line feed
    /// alone; rustc too replaces other line ends before it looks for tokens. Identifiers are kept
    /// as they are spelled.
    Rust(Edition),
}

impl Dialect {
    // Returns the class of white space.
    pub(crate) fn whitespace_class(self) -> CharClass
        ensures { result ≡ spec.whitespace_class self }
    {
        match self {
            Dialect::Sample => CharClass::Blank,
            Dialect::Rust(_) => CharClass::Space,
        }
    }

    // Returns whether each group must be closed before the end of the text.
    pub(crate) fn closes_groups(self) -> bool
        ensures { result ≡ closes_groups self }
    {
        match self {
            Dialect::Sample => false,
            Dialect::Rust(_) => true,
        }
    }
}
