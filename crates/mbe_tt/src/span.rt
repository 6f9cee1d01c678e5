// Spans in a source text, syntax contexts, and editions of Rust.
//
// The definitions are the project's own. The names follow rust-analyzer.
ghost use Rattle.std.specs.Prelude.{◌≡◌};

/// The number of a syntax context. The caller decides what it means.
#[derive(Clone, Copy, Debug, Default, Drop, PartialEq, Eq, Hash)]
pub struct SyntaxContext(pub u32);

/// Where a token is in a source text.
///
/// `file` and `ast` name a text and an item in it; the caller decides how. `start` and `end` are
/// byte offsets in that text. This crate doesn't require that `start` is at most `end`. `ctx` is
/// the syntax context.
#[derive(Clone, Copy, Debug, Default, Drop, PartialEq, Eq, Hash)]
pub struct Span {
    pub file: u32,
    pub ast: u32,
    pub start: u32,
    pub end: u32,
    pub ctx: SyntaxContext,
}

/// Where a group opens and where it closes.
#[derive(Clone, Copy, Debug, Default, Drop, PartialEq, Eq, Hash)]
pub struct DelimSpan {
    pub opening: Span,
    pub close: Span,
}

impl DelimSpan {
    /// Returns that span for both sides.
    pub fn from_single(span: Span) -> DelimSpan
        ensures { result ≡ record { opening = span; close = span } }
    {
        DelimSpan {
            opening: span,
            close: span,
        }
    }
}

/// An edition of Rust.
#[derive(Clone, Copy, Debug, Drop, PartialEq, Eq, Hash)]
pub enum Edition {
    Edition2015,
    Edition2018,
    Edition2021,
    Edition2024,
}

impl Edition {
    ghost use Rattle.mbe_tt.specs.Trees.Editions as spec;

    /// Returns whether the edition is 2021 or later.
    pub fn at_least_2021(self) -> bool
        ensures { result ≡ spec.at_least_2021 self }
    {
        match self {
            Edition::Edition2015 | Edition::Edition2018 => false,
            Edition::Edition2021 | Edition::Edition2024 => true,
        }
    }

    /// Returns whether the edition is 2024 or later.
    pub fn at_least_2024(self) -> bool
        ensures { result ≡ spec.at_least_2024 self }
    {
        self == Edition::Edition2024
    }
}
