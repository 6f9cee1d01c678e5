// Errors of definitions (`ParseError`) and of expansions (`ExpandError`). `SyntaxFault` is a fault
// of a definition without a text: it takes no memory, and `ParseError` is made of it at the end.
ghost use Rattle.std.specs.Prelude.{◌≡◌, Some, IfOk};
ghost use Rattle.mbe_semantics.specs.Syntax.Template.{expected as expected_fault};
ghost use Rattle.mbe_semantics.specs.Syntax.Template.{unexpected_token as unexpected_fault};
ghost use Rattle.mbe_semantics.specs.Expansion.Error.{text_of_fault, text_of_kind};
ghost use Rattle.mbe_ops.specs.Errors.ErrorViews.{fault_of};
ghost use Rattle.mbe_ops.specs.Errors.ErrorViews.{parse_error_of, kind_of, error_of};
ghost use Rattle.mbe_ops.specs.Errors.ErrorViews.{count_error_text};

use mbe_tt::span::Span;
use std::alloc::{AllocError, AllocFailed, Allocator, Global};
use std::error::Error;
use std::fmt;
use std::rc::Rc;

/// Why a definition is refused, or the part of it after the rules that were kept (as in
/// rust-analyzer).
#[derive(Drop)]
#[derive_where(Debug, PartialEq, Eq)]
pub enum ParseError<A: Allocator = Global> {
    /// A token isn't allowed here, or a variable has no specifier. The text says which.
    UnexpectedToken(String<A>),
    /// Something else is expected here. The text says what.
    Expected(String<A>),
    /// A repetition isn't followed by a separator and one of `*`, `+`, `?`.
    InvalidRepeat,
    /// A repetition has no separator, and its body can match no token.
    RepetitionEmptyTokenTree,
}

/// The error of an expansion, with its span (as in rust-analyzer). A clone shares the memory.
#[derive(Drop)]
#[derive_where(Clone, Debug, PartialEq, Eq, Hash)]
pub struct ExpandError<A: Allocator = Global> {
    /// The span and the kind.
    pub inner: Rc<(Span, ExpandErrorKind<A>), A>,
}

/// The kind of an expansion's error (as in rust-analyzer).
#[derive(Drop)]
#[derive_where(Debug, PartialEq, Eq, Hash)]
pub enum ExpandErrorKind<A: Allocator = Global> {
    /// A variable's binding can't be written here, or a fragment is expected here. The text says
    /// which.
    BindingError(String<A>),
    /// A metavariable expression names a variable that isn't bound. The text is the name.
    UnresolvedBinding(String<A>),
    /// The argument has more tokens than the pattern matches.
    LeftoverTokens,
    /// A repetition has no end, or 65536 rounds or more; or a number doesn't fit 64 bits.
    LimitExceeded,
    /// No rule matches.
    NoMatchingRule,
    /// A token of the argument isn't the one that the pattern has.
    UnexpectedToken,
}

/// Errors of `${count(..)}` (as in rust-analyzer). No call returns one.
#[derive(Clone, Copy, Debug, Drop, PartialEq, Eq, Hash)]
pub enum CountError {
    OutOfBounds,
    Misplaced,
}

/// The first fault of a definition, without a text. It takes no memory.
#[derive(Clone, Copy, Debug, PartialEq, Eq)]
pub enum SyntaxFault {
    ExpectedSubtree,
    ExpectedEquals,
    ExpectedGreater,
    ExpectedParentheses,
    ExpectedSemicolon,
    ExpectedSeparator,
    ExpectedIdent,
    ExpectedRepetition,
    ExpressionInPattern,
    DollarInPattern,
    MissingSpecifier,
    InvalidExpression,
    InvalidRepeat,
}

/// Why parsing stopped: out of memory, or a fault.
#[derive(Clone, Copy, Debug, PartialEq, Eq)]
pub enum ReadError {
    Memory,
    Fault(SyntaxFault),
}

impl ReadError {
    ghost use Rattle.mbe_ops.specs.declared.errors.error.ReadError.TheVariants as variants;

    /// Returns the fault. `AllocError` if parsing was out of memory.
    pub fn fault(self) -> Result<SyntaxFault, AllocError>
        ensures { IfOk result (λ fault. self ≡ variants.Fault fault) }
    {
        match self {
            ReadError::Memory => Err(AllocError),
            ReadError::Fault(fault) => Ok(fault),
        }
    }
}

impl From<AllocError> for ReadError {
    ghost use Rattle.std.specs.Prelude.{◌≡◌};
    ghost use Rattle.mbe_ops.specs.declared.errors.error.ReadError.TheVariants.{Memory};

    ghost from_gives = { λ _ e. e ≡ Memory };

    fn from(_error: AllocError) -> ReadError {
        ReadError::Memory
    }
}

impl From<SyntaxFault> for ReadError {
    ghost use Rattle.std.specs.Prelude.{◌≡◌};
    ghost use Rattle.mbe_ops.specs.declared.errors.error.ReadError.TheVariants as variants;

    ghost from_gives = { λ fault e. e ≡ variants.Fault fault };

    fn from(fault: SyntaxFault) -> ReadError {
        ReadError::Fault(fault)
    }
}

impl<T: Drop> From<AllocFailed<T>> for ReadError {
    ghost use Rattle.std.specs.Prelude.{◌≡◌};
    ghost use Rattle.mbe_ops.specs.declared.errors.error.ReadError.TheVariants.{Memory};

    ghost from_gives = { λ _ e. e ≡ Memory };

    fn from(_error: AllocFailed<T>) -> ReadError {
        ReadError::Memory
    }
}

impl<A: Allocator + Copy> ParseError<A> {
    /// Returns an equal copy. `AllocError` if out of memory.
    pub fn try_clone(&self, alloc: A) -> Result<ParseError<A>, AllocError>
        ensures { IfOk result (λ copy. parse_error_of copy ≡ parse_error_of self.now) }
    {
        Ok(match self {
            ParseError::UnexpectedToken(text) => {
                ParseError::UnexpectedToken(String::from_str(alloc, text.as_str())?)
            }
            ParseError::Expected(text) => {
                ParseError::Expected(String::from_str(alloc, text.as_str())?)
            }
            ParseError::InvalidRepeat => ParseError::InvalidRepeat,
            ParseError::RepetitionEmptyTokenTree => ParseError::RepetitionEmptyTokenTree,
        })
    }

    fn expected(alloc: A, text: &str) -> Result<ParseError<A>, AllocError>
        ensures { IfOk result (λ e. parse_error_of e ≡ expected_fault text.now) }
    {
        Ok(ParseError::Expected(String::from_str(alloc, text)?))
    }

    fn unexpected(alloc: A, text: &str) -> Result<ParseError<A>, AllocError>
        ensures { IfOk result (λ e. parse_error_of e ≡ unexpected_fault text.now) }
    {
        Ok(ParseError::UnexpectedToken(String::from_str(alloc, text)?))
    }

    /// Makes the error that reports a fault, with a text in memory of `alloc`. `AllocError` if out
    /// of memory.
    pub fn from_fault(alloc: A, fault: SyntaxFault) -> Result<ParseError<A>, AllocError>
        ensures { IfOk result (λ e. parse_error_of e ≡ fault_of fault) }
    {
        match fault {
            SyntaxFault::ExpectedSubtree => ParseError::expected(alloc, "expected subtree"),
            SyntaxFault::ExpectedEquals => ParseError::expected(alloc, "expected `=`"),
            SyntaxFault::ExpectedGreater => ParseError::expected(alloc, "expected `>`"),
            SyntaxFault::ExpectedParentheses => ParseError::expected(alloc, "expected `()`"),
            SyntaxFault::ExpectedSemicolon => ParseError::expected(alloc, "expected `;`"),
            SyntaxFault::ExpectedSeparator => {
                ParseError::expected(alloc, "expected `;` or `,` to delimit rules")
            }
            SyntaxFault::ExpectedIdent => ParseError::expected(alloc, "expected ident"),
            SyntaxFault::ExpectedRepetition => {
                ParseError::expected(alloc, "expected `$()` repetition or `${}` expression")
            }
            SyntaxFault::ExpressionInPattern => ParseError::unexpected(
                alloc,
                "`${}` metavariable expressions are not allowed in matchers",
            ),
            SyntaxFault::DollarInPattern => {
                ParseError::unexpected(alloc, "`$$` is not allowed on the pattern side")
            }
            SyntaxFault::MissingSpecifier => ParseError::unexpected(
                alloc,
                "missing fragment specifier",
            ),
            SyntaxFault::InvalidExpression => {
                ParseError::unexpected(alloc, "invalid metavariable expression")
            }
            SyntaxFault::InvalidRepeat => Ok(ParseError::InvalidRepeat),
        }
    }
}

impl<A: Allocator> fmt::Display for ParseError<A> {
    ghost output = { λ e. Some (text_of_fault (parse_error_of e)) };

    fn fmt<W: fmt::Write>(&self, f: &mut fmt::Formatter<W>) -> fmt::Result {
        match self {
            ParseError::UnexpectedToken(text) => f.write_str(text.as_str()),
            ParseError::Expected(text) => f.write_str(text.as_str()),
            ParseError::InvalidRepeat => f.write_str("invalid repeat"),
            ParseError::RepetitionEmptyTokenTree => {
                f.write_str("empty token tree in repetition")
            }
        }
    }
}

impl<A: Allocator + Copy> ExpandErrorKind<A> {
    /// Returns an equal copy. `AllocError` if out of memory.
    pub fn try_clone(&self, alloc: A) -> Result<ExpandErrorKind<A>, AllocError>
        ensures { IfOk result (λ copy. kind_of copy ≡ kind_of self.now) }
    {
        Ok(match self {
            ExpandErrorKind::BindingError(text) => {
                ExpandErrorKind::BindingError(String::from_str(alloc, text.as_str())?)
            }
            ExpandErrorKind::UnresolvedBinding(name) => {
                ExpandErrorKind::UnresolvedBinding(String::from_str(alloc, name.as_str())?)
            }
            ExpandErrorKind::LeftoverTokens => ExpandErrorKind::LeftoverTokens,
            ExpandErrorKind::LimitExceeded => ExpandErrorKind::LimitExceeded,
            ExpandErrorKind::NoMatchingRule => ExpandErrorKind::NoMatchingRule,
            ExpandErrorKind::UnexpectedToken => ExpandErrorKind::UnexpectedToken,
        })
    }
}

impl<A: Allocator> ExpandError<A> {
    /// Makes an error of this kind at this span, in memory of `alloc`. `AllocError` if out of
    /// memory.
    pub fn new(alloc: A, span: Span, kind: ExpandErrorKind<A>) -> Result<ExpandError<A>, AllocError>
        ensures { IfOk result (λ e. error_of e ≡ record { span = span; kind = kind_of kind }) }
    {
        Ok(ExpandError {
            inner: Rc::new(alloc, (span, kind))?,
        })
    }
}

impl<A: Allocator> fmt::Display for ExpandErrorKind<A> {
    ghost output = { λ kind. Some (text_of_kind (kind_of kind)) };

    fn fmt<W: fmt::Write>(&self, f: &mut fmt::Formatter<W>) -> fmt::Result {
        match self {
            ExpandErrorKind::BindingError(text) => f.write_str(text.as_str()),
            ExpandErrorKind::UnresolvedBinding(name) => {
                f.write_str("could not find binding ")?;
                f.write_str(name.as_str())
            }
            ExpandErrorKind::LeftoverTokens => f.write_str("leftover tokens"),
            ExpandErrorKind::LimitExceeded => f.write_str("Expand exceed limit"),
            ExpandErrorKind::NoMatchingRule => f.write_str("no rule matches input tokens"),
            ExpandErrorKind::UnexpectedToken => f.write_str("unexpected token in input"),
        }
    }
}

impl<A: Allocator> fmt::Display for ExpandError<A> {
    ghost output = { λ e. Some (text_of_kind (error_of e).kind) };

    fn fmt<W: fmt::Write>(&self, f: &mut fmt::Formatter<W>) -> fmt::Result {
        let kind: &ExpandErrorKind<A> = &self.inner.1;
        fmt::Display::fmt(kind, f)
    }
}

impl fmt::Display for CountError {
    ghost output = { λ e. Some (count_error_text e) };

    fn fmt<W: fmt::Write>(&self, f: &mut fmt::Formatter<W>) -> fmt::Result {
        match self {
            CountError::OutOfBounds => f.write_str("${count} out of bounds"),
            CountError::Misplaced => f.write_str("${count} misplaced"),
        }
    }
}

impl<A: Allocator> Error for ParseError<A> {}

impl<A: Allocator> Error for ExpandError<A> {}

impl<A: Allocator> Error for ExpandErrorKind<A> {}

impl Error for CountError {}
