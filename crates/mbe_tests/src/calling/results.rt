// A value beside an error, and errors of a caller's own.
use crate::calling::expansions::Expansion;
use mbe::{ExpandError, ExpandErrorKind, ExpandResult, ValueResult, expect_fragment};
use mbe_grammar::SampleGrammar;
use mbe_tt::grammar::PrefixEntryPoint;
use mbe_tt::span::{DelimSpan, Span};
use mbe_tt::tt::{TokenTreesView, TtIter};
use std::alloc::{AllocError, Global};

/// What a tool shows of an expansion: how many trees there are, and where it went wrong.
pub fn summary(expansion: Expansion<Global>) -> ValueResult<usize, Span> {
    expansion
        .map(|(tree, _rule)| tree.iter().remaining().len())
        .map_err(|error| error.inner.0)
}

/// Both counts, beside the error of the first.
pub fn paired(first: ValueResult<usize, Span>, second: usize) -> ValueResult<(usize, usize), Span> {
    first.zip_val(second)
}

/// The count, or 0 beside the span of the error.
pub fn or_nothing(counted: Result<usize, Span>) -> ValueResult<usize, Span> {
    ValueResult::from(counted)
}

/// An error of a caller's own, with a text of its own.
pub fn too_deep(alloc: Global, span: Span) -> Result<ExpandError, AllocError> {
    let text = String::from_str(alloc, "the expansion is too deep")?;
    ExpandError::new(alloc, span, ExpandErrorKind::BindingError(text))
}

/// The type that comes first, as the sample grammar finds it. The iterator is left after it.
pub fn leading_type<'a>(
    alloc: Global,
    iter: &mut TtIter<'a>,
    around: DelimSpan,
) -> Result<ExpandResult<TokenTreesView<'a>>, AllocError> {
    expect_fragment(alloc, &SampleGrammar, iter, PrefixEntryPoint::Ty, around)
}

pub mod tests {
    use super::{leading_type, or_nothing, paired, summary, too_deep};
    use crate::calling::expansions::tests::expansion_of;
    use mbe::{ExpandErrorKind, ValueResult};
    use mbe_text::lexer::lex;
    use mbe_tt::span::{DelimSpan, Span};
    use mbe_tt::tt::TtIter;
    use std::alloc::Global;

    // Whether there are three trees beside the error at byte 2, and the number that is paired with
    // them.
    pub fn is_call_changed(alloc: Global) -> Option<bool> {
        let expansion = expansion_of(alloc, "(a b) => {x y z}", "a c")?;
        let counts = paired(summary(expansion), 7);
        Some(counts.value == (3, 7) && counts.err?.start == 2)
    }

    // Whether the error has its text, and is of no other kind.
    fn is_too_deep(alloc: Global, span: Span) -> Option<bool> {
        let error = too_deep(alloc, span).ok()?;
        let text = format!(in alloc; "{error}").ok()?;
        let is_other = error.inner.1 == ExpandErrorKind::LimitExceeded;
        Some(!is_other && text.as_str() == "the expansion is too deep")
    }

    pub fn are_made(alloc: Global) -> Option<bool> {
        let span = Span::default();
        Some(
            or_nothing(Ok(3)) == ValueResult::ok(3)
                && or_nothing(Err(span)) == ValueResult::only_err(span)
                && ValueResult::new(3, span).result() == Err(span)
                && is_too_deep(alloc, span)?,
        )
    }

    // Returns how many trees the type has that comes first. `None` if there is no type.
    fn type_len(alloc: Global, iter: &mut TtIter<'_>) -> Option<usize> {
        let found = leading_type(alloc, iter, DelimSpan::default()).ok()?;
        found.err.is_none().then_some(found.value.len())
    }

    // Whether a type of four trees comes first, and then none.
    pub fn is_type_found(alloc: Global) -> Option<bool> {
        let tree = lex(alloc, "Vec<u8> = 1", 1).ok()?;
        let mut iter = tree.iter();
        let first = type_len(alloc, &mut iter);
        let after = leading_type(alloc, &mut iter, DelimSpan::default()).ok()?;
        Some(first == Some(4) && after.err.is_some())
    }
}
