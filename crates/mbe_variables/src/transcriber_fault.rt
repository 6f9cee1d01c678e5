// Faults of templates. A fault borrows the name that it is about and takes no memory.
// `TranscriberFault::error` makes the error with its text.
ghost use Rattle.std.specs.Prelude.{◌≡◌, IfOk};
ghost use Rattle.mbe_ops.specs.Errors.ErrorViews.{error_of, kind_of as kind_seen};
ghost use Rattle.mbe_semantics.specs.Expansion.Error.{binding_error};
ghost use Rattle.mbe_variables.specs.FaultViews.{about_binding, kind_of_fault, error_of_fault};

use mbe_ops::errors::error::{ExpandError, ExpandErrorKind};
use mbe_tt::span::Span;
use mbe_tt::symbol::Symbol;
use std::alloc::{AllocError, Allocator};

/// A fault of a template, and the span at which it is reported.
#[derive(Drop)]
pub struct TranscriberFault<'t, A: Allocator> {
    pub span: Span,
    pub kind: TranscriberFaultKind<'t, A>,
}

/// The kind of a fault. The symbol is the name of the variable.
#[derive(Drop)]
pub enum TranscriberFaultKind<'t, A: Allocator> {
    /// The name isn't bound.
    Unresolved(&'t Symbol<A>),
    /// After all rounds of the path the binding is still a list.
    Nested(&'t Symbol<A>),
    /// After all rounds of the path the binding is a skipped repetition.
    Empty(&'t Symbol<A>),
    /// The binding is a skipped repetition before the path of rounds ends.
    EmptyInside(&'t Symbol<A>),
    /// The binding is a list without a value for a round of the path.
    NoValue(&'t Symbol<A>),
    /// The binding of a variable of `${concat(..)}` is no part of an identifier.
    NoText,
    /// The joined text of `${concat(..)}` is no identifier.
    NoIdentifier,
    /// A repetition has no end or too many rounds, or a number doesn't fit 64 bits.
    Limit,
    /// A repetition with `+` has no round.
    NoRound,
}

impl<A: Allocator + Copy> TranscriberFault<'_, A> {
    /// Makes the error with its text. `AllocError` if out of memory.
    pub fn error(self, alloc: A) -> Result<ExpandError<A>, AllocError>
        ensures { IfOk result (λ e. error_of e ≡ error_of_fault self.entry) }
    {
        ExpandError::new(alloc, self.span, kind_of(alloc, self.kind)?)
    }
}

fn kind_of<A: Allocator + Copy>(
    alloc: A,
    kind: TranscriberFaultKind<'_, A>,
) -> Result<ExpandErrorKind<A>, AllocError>
    ensures { IfOk result (λ k. kind_seen k ≡ kind_of_fault kind.entry) }
{
    match kind {
        TranscriberFaultKind::Unresolved(name) => Ok(ExpandErrorKind::UnresolvedBinding(
            String::from_str(alloc, name.as_str())?,
        )),
        TranscriberFaultKind::Nested(name) => error_with_name(
            alloc,
            "expected simple binding, found nested",
            name,
        ),
        TranscriberFaultKind::Empty(name) => error_with_name(
            alloc,
            "expected simple binding, found empty",
            name,
        ),
        TranscriberFaultKind::EmptyInside(name) => error_with_name(
            alloc,
            "could not find empty",
            name,
        ),
        TranscriberFaultKind::NoValue(name) => error_with_name(
            alloc,
            "could not find nested",
            name,
        ),
        TranscriberFaultKind::NoText => error_with_text(
            alloc,
            "metavariables of `${concat(..)}` must be of type `ident`, `literal` or `tt`",
        ),
        TranscriberFaultKind::NoIdentifier => error_with_text(
            alloc,
            "`${concat(..)}` is not generating a valid identifier",
        ),
        TranscriberFaultKind::Limit => Ok(ExpandErrorKind::LimitExceeded),
        TranscriberFaultKind::NoRound => Ok(ExpandErrorKind::UnexpectedToken),
    }
}

fn error_with_text<A: Allocator + Copy>(
    alloc: A,
    text: &str,
) -> Result<ExpandErrorKind<A>, AllocError>
    ensures { IfOk result (λ k. kind_seen k ≡ binding_error text.now) }
{
    Ok(ExpandErrorKind::BindingError(String::from_str(alloc, text)?))
}

// Makes an error about the binding of a name: the words, and then the name.
fn error_with_name<A: Allocator + Copy>(
    alloc: A,
    words: &str,
    name: &Symbol<A>,
) -> Result<ExpandErrorKind<A>, AllocError>
    ensures { IfOk result (λ k. kind_seen k ≡ about_binding words.now name.now) }
{
    let name = name.as_str();
    let mut text = String::from_str(alloc, words)?;
    text.push_str(" binding `")?;
    text.push_str(name)?;
    text.push_str("`")?;
    Ok(ExpandErrorKind::BindingError(text))
}
