// Faults of `cfg` and `cfg_attr` attributes.
ghost use Rattle.std.specs.Prelude.{◌≡◌};
ghost use Rattle.mbe_cfg.specs.CfgFaults.{message};

use mbe_tt::span::Span;

/// The kinds of faults of a `cfg` or `cfg_attr` attribute.
#[derive(Clone, Copy, Drop, PartialEq, Eq)]
pub enum CfgFaultKind {
    /// No parentheses follow `cfg` or `cfg_attr`.
    Malformed,
    /// `cfg` and `not` take just one predicate.
    NotOne,
    /// Only `all`, `any` and `not` take predicates.
    Invalid,
    /// `version(..)` and `target(..)` are features of the compiler.
    Unstable,
    /// A name is expected.
    NoName,
    /// A path isn't a name.
    Path,
    /// A value has to be a string.
    NoString,
    /// A string with a suffix.
    Suffix,
    /// A string with an escape, which isn't supported in a value.
    Escape,
    /// A comma is expected.
    NoComma,
    /// More than `DEPTH` predicates or attributes in one another.
    TooDeep,
}

/// A fault of an attribute, and its span.
#[derive(Drop)]
pub struct CfgFault {
    pub fault_kind: CfgFaultKind,
    pub at: Span,
}

impl CfgFaultKind {
    /// The message, in the words of rustc where it has some.
    pub fn message(self) -> &'static str
        ensures { result.now ≡ message self }
    {
        match self {
            CfgFaultKind::Malformed => "malformed attribute input: expected parentheses",
            CfgFaultKind::NotOne => "expected exactly one predicate",
            CfgFaultKind::Invalid => "invalid predicate",
            CfgFaultKind::Unstable => "this predicate is experimental",
            CfgFaultKind::NoName => "expected identifier",
            CfgFaultKind::Path => "expected an identifier, found a path",
            CfgFaultKind::NoString => "literal in `cfg` predicate value must be a string",
            CfgFaultKind::Suffix => "suffixes on string literals are invalid",
            CfgFaultKind::Escape => "escapes in the value of a `cfg` predicate aren't supported",
            CfgFaultKind::NoComma => "expected `,`",
            CfgFaultKind::TooDeep => "predicates are nested too deep",
        }
    }
}
