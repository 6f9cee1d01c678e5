// Lines of a text, and the mapping from the text without carriage returns back to the original.
//
// Before it lexes, rustc reads a carriage return and a line feed as one line feed. `Lines` does the
// same. It keeps the text with each `\r\n` as `\n`, and the offsets of the carriage returns. Spans
// count the bytes of that text. A replacement is mapped back to the original before it is spliced.
ghost use Rattle.std.specs.Prelude.{◌≡◌, ◌≤◌, ◌<◌, ◌+◌, IfOk, drop, length, count_by, map, min};
ghost use Rattle.std.specs.List.{slice_index};
ghost use Rattle.std.specs.String.{string_bytes};
ghost use Rattle.mbe_rewriter.specs.ReplacementViews.{part_of};
ghost use Rattle.mbe_session.specs.Locations.{AreBefore, IsLocation, begins_character};
ghost use Rattle.mbe_session.specs.Locations.{end_of, feeds_from, start_of};
ghost use Rattle.mbe_session.specs.LineEndings.{IsAscending, with_endings_of, is_crlf};
ghost use Rattle.mbe_session.specs.LineEndings.{original_offset, original_part, normalized};
ghost use Rattle.mbe_session.specs.LineEndings.{returns};

use crate::locations::Location;
use mbe_rewriter::splice::Replacement;
use std::alloc::{AllocError, Allocator, Global};

/// A text whose lines end with a line feed alone.
#[derive(Drop)]
pub struct Lines<A: Allocator = Global> {
    pub text: String<A>,
    // The line feeds that had a carriage return before them, as offsets of bytes in `text`,
    // ascending.
    returns: Vec<usize, A>,
    // All line feeds, as offsets of bytes in `text`, ascending.
    feeds: Vec<usize, A>,
    ghost table: { feeds.items ≡ feeds_from 0 (string_bytes text) },
    ghost ascending: { IsAscending returns.items },
}

// Returns the offset of each line feed.
#[tactic(auto, using(crate::proofs::FeedLemmas::one_more, crate::proofs::FeedLemmas::none_more, crate::proofs::FeedLemmas::feeds_none))]
fn feeds_of<A: Allocator>(alloc: A, text: &str) -> Result<Vec<usize, A>, AllocError>
    ensures { IfOk result (λ v. v.items ≡ feeds_from 0 text.now) }
{
    let mut feeds = Vec::new(alloc);
    for (at, byte) in text.as_bytes().iter().enumerate() {
        if *byte == b'\n' {
            feeds.push(at)?;
        }
    }
    Ok(feeds)
}

// Counts the characters that begin in these bytes.
fn count_chars(bytes: &[u8]) -> usize
    ensures { result ≡ count_by begins_character bytes.now }
{
    bytes
        .iter()
        .filter(|byte| **byte < 128 || **byte >= 192)
        .count()
}

// Whether the byte at `at` is a carriage return with a line feed right after it.
fn is_before_feed(bytes: &[u8], at: usize) -> bool
    requires { at < length bytes.now }
    ensures { result ≡ is_crlf (slice_index bytes.now at) (drop (at + 1) bytes.now) }
{
    bytes[at] == b'\r' && bytes.get(at + 1) == Some(&b'\n')
}

// Returns the offsets of the line feeds that have a carriage return before them. The offsets count
// the text without these carriage returns.
#[tactic(auto, using(crate::proofs::ReturnLemmas::one_return, crate::proofs::ReturnLemmas::no_return, crate::proofs::ReturnLemmas::all_returns))]
fn returns_of<A: Allocator>(alloc: A, text: &str) -> Result<Vec<usize, A>, AllocError>
    ensures { IfOk result (λ v. v.items ≡ returns text.now) }
{
    let mut returns = Vec::new(alloc);
    for at in 0..text.len() {
        if is_before_feed(text.as_bytes(), at) {
            returns.push(at - returns.len())?;
        }
    }
    Ok(returns)
}

impl<A: Allocator + Copy> Lines<A> {
    /// Splits a text into lines. `AllocError` if out of memory.
    pub fn of(alloc: A, text: &str) -> Result<Lines<A>, AllocError>
        ensures text { IfOk result (λ lines. string_bytes lines.text ≡ normalized text.now) }
        ensures returns { IfOk result (λ lines. lines.returns.items ≡ returns text.now) }
    {
        let returns = returns_of(alloc, text)?;
        let text = text.replace(alloc, "\r\n", "\n")?;
        let feeds = feeds_of(alloc, text.as_str())?;
        Ok(Lines {
            text,
            returns,
            feeds,
        })
    }

    /// Maps an offset in `text` to the offset in the original. The end of a line maps to before its
    /// carriage return.
    pub fn place(&self, at: usize) -> usize
        ensures { result ≡ original_offset self.now.returns.items at }
    {
        let before = self
            .returns
            .as_slice()
            .partition_point(|end: &usize| -> bool { *end < at });
        at.saturating_add(before)
    }

    // Returns a text with the line endings of the original.
    fn restore_endings(&self, alloc: A, text: &str) -> Result<String<A>, AllocError>
        ensures { IfOk result (λ s. string_bytes s
            ≡ with_endings_of self.now.returns.items text.now) }
    {
        if self.returns.is_empty() {
            String::from_str(alloc, text)
        } else {
            text.replace(alloc, "\n", "\r\n")
        }
    }

    // Maps a replacement to one of the original.
    fn original_one(
        &self,
        alloc: A,
        replacement: &Replacement<A>,
    ) -> Result<Replacement<A>, AllocError>
        ensures { IfOk result (λ r. part_of r
            ≡ original_part self.now.returns.items (part_of replacement.now)) }
    {
        Ok(Replacement {
            file: replacement.file,
            start: self.place(replacement.start),
            end: self.place(replacement.end),
            text: self.restore_endings(alloc, replacement.text.as_str())?,
        })
    }

    /// Maps replacements in `text` to replacements in the original. Their texts get the line
    /// endings of the original.
    pub fn original_parts(
        &self,
        alloc: A,
        replacements: &[Replacement<A>],
    ) -> Result<Vec<Replacement<A>, A>, AllocError>
        ensures { IfOk result (λ v. map part_of v.items
            ≡ map (original_part self.now.returns.items) (map part_of replacements.now)) }
    {
        let mut original_parts = Vec::new(alloc);
        for replacement in replacements {
            original_parts.push(self.original_one(alloc, replacement)?)?;
        }
        Ok(original_parts)
    }

    // Counts the line feeds before a byte.
    fn before(&self, at: usize) -> usize
        ensures { AreBefore self.now.feeds.items at result }
    {
        self.feeds
            .as_slice()
            .partition_point(|feed: &usize| -> bool { *feed < at })
    }

    // Returns where the line begins that has `before` line feeds before it.
    fn start(&self, before: usize) -> usize
        requires { before ≤ length self.now.feeds.items }
        ensures { result ≡ start_of self.now.feeds.items before }
    {
        match before {
            0 => 0,
            _ => self.feeds[before - 1] + 1,
        }
    }

    // Returns where the line ends that has `before` line feeds before it.
    fn end(&self, before: usize) -> usize
        ensures { let text = string_bytes self.now.text in
            result ≡ end_of self.now.feeds.items before (length text) }
    {
        self.feeds.get(before).copied().unwrap_or(self.text.len())
    }

    /// Returns the line and the column of a byte of `text`. A byte beyond the end counts as the
    /// end.
    pub fn location_of(&self, offset: usize) -> Location<'_>
        ensures { let text = string_bytes self.now.text in
            IsLocation text (min offset (length text)) result.line result.column result.text.now }
    {
        let text = self.text.as_str();
        let at = offset.min(text.len());
        let before = self.before(at);
        let start = self.start(before);
        let end = self.end(before);
        Location {
            line: before + 1,
            column: count_chars(&text.as_bytes()[start..at]) + 1,
            text: &text[start..end],
        }
    }
}
