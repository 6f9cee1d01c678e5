// An index of spans. It finds the spans around an offset without a look at all of them.
//
// The spans are sorted by their first offset. Each span knows the nearest span before it that ends
// later. A search begins with the last span that begins at the offset or before it. If that span
// ends before the offset, the search goes on with the nearest span that ends later.
//
// Take the spans 0..100, 10..20 and 30..40 of one file. The search around 35 begins with 30..40,
// which is the answer. The search around 50 begins with 30..40 too. This span ends before 50, so
// the search goes on with 0..100, which is the answer. It never looks at 10..20.
use mbe_tt::span::Span;
use std::alloc::{AllocError, Allocator};

// Returns a number for where a token begins: its file and its byte.
pub(crate) fn span_key(span: Span) -> u64 {
    (span.file as u64) << 32 | span.start as u64
}

// Returns a number for where a token ends: its file and its byte.
fn end_key(span: Span) -> u64 {
    (span.file as u64) << 32 | span.end as u64
}

// A span of a group: the group, the numbers of the span's start and of its end, and an item of the
// caller. Spans of one group are searched together.
pub(crate) type Entry = (usize, u64, u64, usize);

// Returns the entry of a span.
pub(crate) fn entry(group: usize, span: Span, item: usize) -> Entry {
    (group, span_key(span), end_key(span), item)
}

// Returns the nearest of the first `at` entries that is of the same group and ends later than entry
// `at`. `outer` has this number for each entry before.
fn nearest_longer(entries: &[Entry], outer: &[Option<usize>], at: usize) -> Option<usize> {
    let one = entries.get(at)?;
    let end = (one.0, one.2);
    let mut before = at.checked_sub(1);
    for _ in 0..at {
        let number = before?;
        let other = entries.get(number)?;
        if end < (other.0, other.2) {
            return Some(number);
        }
        before = match outer.get(number) {
            Some(next) => *next,
            None => None,
        };
    }
    None
}

// Spans in groups, each with an item of the caller. The spans are sorted by their groups and by
// where they begin. `outer` has the number of the nearest span before each that ends later.
#[derive(Drop)]
pub(crate) struct SpanIndex<A: Allocator> {
    entries: Vec<Entry, A>,
    outer: Vec<Option<usize>, A>,
}

impl<A: Allocator + Copy> SpanIndex<A> {
    // Returns the index of these spans.
    pub(crate) fn new(alloc: A, mut entries: Vec<Entry, A>) -> Result<SpanIndex<A>, AllocError> {
        entries.sort_unstable();
        let mut outer = Vec::new(alloc);
        for at in 0..entries.len() {
            let number = nearest_longer(entries.as_slice(), outer.as_slice(), at);
            outer.push(number)?;
        }
        Ok(SpanIndex { entries, outer })
    }

    // Returns the index of no span.
    pub(crate) fn empty(alloc: A) -> SpanIndex<A> {
        SpanIndex {
            entries: Vec::new(alloc),
            outer: Vec::new(alloc),
        }
    }
}

impl<A: Allocator> SpanIndex<A> {
    // Returns the last span of the group that is around the offset, among those up to a number.
    fn around(&self, group: usize, at: u64, from: Option<usize>) -> Option<usize> {
        let mut next = from;
        for _ in 0..self.entries.len() {
            let number = next?;
            let one = self.entries.get(number)?;
            if one.0 != group {
                return None;
            }
            if at < one.2 {
                return Some(number);
            }
            next = match self.outer.get(number) {
                Some(outer) => *outer,
                None => None,
            };
        }
        None
    }

    // Returns the last span of the group that is around the start of a token.
    pub(crate) fn last_around(&self, group: usize, token: Span) -> Option<usize> {
        let at = span_key(token);
        let key = (group, at);
        let after = self
            .entries
            .as_slice()
            .partition_point(|one| (one.0, one.1) <= key);
        self.around(group, at, after.checked_sub(1))
    }

    // Returns the last span of the group that is around the start of a token and comes before span
    // `number`.
    pub(crate) fn next_around(&self, group: usize, token: Span, number: usize) -> Option<usize> {
        self.around(group, span_key(token), number.checked_sub(1))
    }

    // Returns the item of span `number`.
    pub(crate) fn item(&self, number: usize) -> Option<usize> {
        let one = self.entries.get(number)?;
        Some(one.3)
    }

    // Whether a span of the group is around the start of a token.
    pub(crate) fn is_any_around(&self, group: usize, token: Span) -> bool {
        self.last_around(group, token).is_some()
    }

    // Returns the item of the last span of the group that is around the start of a token.
    pub(crate) fn item_around(&self, group: usize, token: Span) -> Option<usize> {
        self.item(self.last_around(group, token)?)
    }
}
