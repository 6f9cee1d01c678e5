// Sorts words into buckets by their syntax context. A search for the words that matter to a local
// visits one bucket, and not all words.
ghost use Rattle.std.specs.Prelude.{◌≡◌, ◌++◌, IfOk, OnOk, map};
ghost use Rattle.mbe_rewriter.specs.Hygiene.EventViews.{word_of};
ghost use Rattle.mbe_rewriter.specs.Hygiene.Buckets as spec;
ghost use Rattle.mbe_rewriter.specs.Hygiene.LocalNames.{undecided_uses, has_undecided_use};
ghost use Rattle.mbe_rewriter.specs.declared.hygiene.local_names.BindingState.TheVariants.{Unbound};

use crate::hygiene::local_names::{Word, is_edge};
use std::alloc::{AllocError, Allocator};

// ---- by contexts

// Returns the number of a context's bucket.
fn bucket_of(context: u32) -> usize
    ensures { result ≡ spec.bucket_of context }
{
    context as usize % 64
}

fn is_in_bucket(number: usize, word: Word<'_>) -> bool
    ensures { result ≡ spec.is_in_bucket number (word_of word.entry) }
{
    bucket_of(word.span.ctx.0) == number || is_edge(word.role)
}

fn push_to_bucket<'t, A: Allocator>(
    found: &mut Vec<Word<'t>, A>,
    number: usize,
    word: Word<'t>,
) -> Result<(), AllocError>
    ensures { OnOk result (map word_of found.new.items
        ≡ map word_of found.old.items ++ spec.bucket_word number (word_of word.entry)) }
{
    if is_in_bucket(number, word) {
        found.push(word)?;
    }
    Ok(())
}

fn bucket<'t, A: Allocator + Copy>(
    alloc: A,
    number: usize,
    words: &[Word<'t>],
) -> Result<Vec<Word<'t>, A>, AllocError>
    ensures { IfOk result (λ v. map word_of v.items ≡ spec.bucket number (map word_of words.now)) }
{
    let mut found = Vec::new(alloc);
    for word in words {
        push_to_bucket(&mut found, number, *word)?;
    }
    Ok(found)
}

fn buckets<'t, A: Allocator + Copy>(
    alloc: A,
    words: &[Word<'t>],
) -> Result<Vec<Vec<Word<'t>, A>, A>, AllocError>
    ensures { IfOk result (λ v. spec.buckets_of v.items ≡ spec.buckets (map word_of words.now) 64) }
{
    let mut found = Vec::new(alloc);
    for number in 0..64 {
        found.push(bucket(alloc, number, words)?)?;
    }
    Ok(found)
}

/// Returns the buckets of words. If few locals are bound there are none, since all words are then
/// looked at sooner.
pub(crate) fn buckets_for<'t, A: Allocator + Copy>(
    alloc: A,
    words: &[Word<'t>],
    locals: usize,
) -> Result<Vec<Vec<Word<'t>, A>, A>, AllocError>
    ensures { IfOk result (λ v. spec.AreBuckets (map word_of words.now) (spec.buckets_of v.items)) }
{
    if locals < 16 {
        Ok(Vec::new(alloc))
    } else {
        buckets(alloc, words)
    }
}

/// Returns the words that may matter to a local: the bucket of its context, or all words if there
/// are no buckets.
pub(crate) fn relevant_words<'w, 't, A: Allocator>(
    words: &'w [Word<'t>],
    buckets: &'w [Vec<Word<'t>, A>],
    local: Word<'_>,
) -> &'w [Word<'t>]
    requires buckets { spec.AreBuckets (map word_of words.now) (spec.buckets_of buckets.now) }
    ensures undecided_uses { undecided_uses (word_of local.entry) Unbound (map word_of result.now)
        ≡ undecided_uses (word_of local.entry) Unbound (map word_of words.now) }
    ensures doubted { has_undecided_use (word_of local.entry) Unbound (map word_of result.now)
        ≡ has_undecided_use (word_of local.entry) Unbound (map word_of words.now) }
{
    match buckets.get(bucket_of(local.span.ctx.0)) {
        Some(list) => list.as_slice(),
        None => words,
    }
}

// ---- by their last byte

fn ends_in_digit(text: &str) -> bool
    ensures { result ≡ spec.ends_in_digit text.now }
{
    match text.as_bytes() {
        [.., last] => b'0' <= *last && *last <= b'9',
        [] => false,
    }
}

fn push_numbered<'t, A: Allocator>(
    found: &mut Vec<Word<'t>, A>,
    word: Word<'t>,
) -> Result<(), AllocError>
    ensures { OnOk result (map word_of found.new.items
        ≡ map word_of found.old.items ++ spec.numbered_word (word_of word.entry)) }
{
    if ends_in_digit(word.text) {
        found.push(word)?;
    }
    Ok(())
}

/// Returns the words that may be names such as `a_1`.
pub(crate) fn numbered_words<'t, A: Allocator + Copy>(
    alloc: A,
    words: &[Word<'t>],
) -> Result<Vec<Word<'t>, A>, AllocError>
    ensures { IfOk result (λ v. map word_of v.items ≡ spec.numbered_words (map word_of words.now)) }
{
    let mut found = Vec::new(alloc);
    for word in words {
        push_numbered(&mut found, *word)?;
    }
    Ok(found)
}
