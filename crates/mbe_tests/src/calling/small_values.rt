// Calls on small values: spans, editions, styles, results and handles.
use bitflags::Flags;
use mbe::{BindingLog, Bindings, Handle, MacroCallStyles, ValueResult};
use mbe_text::scanner::file_span;
use mbe_tt::span::{DelimSpan, Edition, Span};
use mbe_tt::tt::{Ident, TopSubtree, TtIter};
use std::alloc::{AllocError, Allocator, Global};

/// The sides of a buffer's group.
pub fn sides<A: Allocator>(tree: &TopSubtree<A>) -> DelimSpan {
    tree.top_subtree().delimiter.delim_span()
}

/// The first so many bytes of a file.
pub fn head(file: u32, bytes: u32) -> Span {
    file_span(file, 0, bytes)
}

/// What `$x:pat` takes in an edition: whether alternatives, and whether `$x:expr` takes `const`
/// blocks.
pub fn takes_more(edition: Edition) -> (bool, bool) {
    (edition.at_least_2021(), edition.at_least_2024())
}

/// Attributes and derives, which are written outside of expressions, as bits.
pub fn outside_bits() -> u8 {
    MacroCallStyles::ATTR.union(MacroCallStyles::DERIVE).bits()
}

/// An identifier as it is written, from a clone of it.
pub fn written(alloc: Global, ident: &Ident) -> Result<String, AllocError> {
    let copy = ident.clone()?;
    format!(in alloc; "{copy}")
}

/// Whether no tree is left, seen on a copy of the iterator.
pub fn is_done(iter: &TtIter<'_>) -> Result<bool, AllocError> {
    let same = iter.clone()?;
    Ok(same.is_empty())
}

/// The default beside this error, and how its value is read by reference.
pub fn failed(error: u32) -> Result<usize, AllocError> {
    let failed: ValueResult<usize, u32> = ValueResult::only_err(error);
    let by_ref = failed.as_ref()?;
    Ok(*by_ref.value)
}

/// What a handle of any log has bound; nothing if the handle isn't of this one.
pub fn bound_in<'a>(
    log: &BindingLog<'a>,
    handle: &Handle,
) -> Result<Option<Bindings<'a>>, AllocError> {
    if !log.has_entries_of(handle) {
        return Ok(None);
    }
    let bindings = Bindings::build(log, handle)?;
    Ok(Some(bindings))
}

pub mod tests {
    use super::{bound_in, failed, head, is_done, outside_bits, sides, takes_more, written};
    use mbe::BindingLog;
    use mbe_text::lexer::lex;
    use mbe_tt::span::Edition;
    use mbe_tt::tt::TtIter;
    use std::alloc::Global;

    // Whether there is one word, which is written so.
    fn is_one_word(alloc: Global, mut iter: TtIter<'_>, word: &str) -> Option<bool> {
        let was_done = is_done(&iter).ok()?;
        let ident = iter.expect_ident().ok()?;
        let is_only = !was_done && is_done(&iter).ok()?;
        Some(is_only && written(alloc, ident).ok()?.as_str() == word)
    }

    fn is_raw_word(alloc: Global) -> Option<bool> {
        let tree = lex(alloc, "r#a", 7).ok()?;
        let is_at = sides(&tree).opening == head(7, 3);
        Some(is_at && is_one_word(alloc, tree.iter(), "r#a")?)
    }

    pub fn are_read(alloc: Global) -> Option<bool> {
        Some(
            takes_more(Edition::Edition2021) == (true, false)
                && outside_bits() == 6
                && failed(1) == Ok(0)
                && is_raw_word(alloc)?,
        )
    }

    pub fn is_bound_in_one(alloc: Global) -> Option<bool> {
        let mut log = BindingLog::new(alloc);
        let handle = log.alloc().ok()?;
        let other = BindingLog::new(alloc);
        let is_bound = bound_in(&log, &handle).ok()?.is_some();
        Some(is_bound && bound_in(&other, &handle).ok()?.is_none())
    }
}
