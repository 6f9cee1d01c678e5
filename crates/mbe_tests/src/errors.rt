// Errors with their spans, and messages that no program shows. The other errors are tested in
// tests/mbex.
use crate::tokens::at;
use mbe::{CountError, ExpandError, ExpandErrorKind, ParseError};
use mbe_tt::span::Span;
use std::alloc::{AllocError, Global};
use std::error::Error;

/// Whether the error has that text, file and bytes. An empty `want` means no error.
pub fn is_error(
    alloc: Global,
    error: Option<&ExpandError>,
    want: &str,
) -> Result<bool, AllocError> {
    let Some(error) = error else {
        return Ok(want.is_empty());
    };
    let Span {
        file,
        start,
        end,
        ..
    } = error.inner.0;
    let shown = format!(in alloc; "{error} {file} {start} {end}")?;
    Ok(shown.as_str() == want && error.inner.0 == at(file, start, end))
}

// Whether an error of the standard library's kind has that text.
fn is_shown<E: Error>(alloc: Global, error: &E, want: &str) -> Result<bool, AllocError> {
    let text = format!(in alloc; "{error}")?;
    Ok(text.as_str() == want)
}

// Whether an expansion's error and its clone have these texts.
fn is_cloned(alloc: Global) -> Result<bool, AllocError> {
    let error: ExpandError = ExpandError::new(alloc, at(1, 1, 9), ExpandErrorKind::LimitExceeded)?;
    Ok(is_shown(alloc, &error.clone()?, "Expand exceed limit")? && error.clone()? == error)
}

/// Whether each error is one of the standard library's kind, with its text.
pub fn are_errors(alloc: Global) -> Result<bool, AllocError> {
    let parse: ParseError = ParseError::InvalidRepeat;
    let kind: ExpandErrorKind = ExpandErrorKind::LeftoverTokens;
    Ok(
        is_shown(alloc, &CountError::OutOfBounds, "${count} out of bounds")?
            && is_shown(alloc, &CountError::Misplaced, "${count} misplaced")?
            && is_shown(alloc, &parse, "invalid repeat")?
            && is_shown(alloc, &kind, "leftover tokens")?
            && is_cloned(alloc)?,
    )
}
