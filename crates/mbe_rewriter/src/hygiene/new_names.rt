// Chooses the new names of locals and labels.
//
// The new name of `a` is the first unused one of `a_1`, `a_2` and so on. A name is used if a word
// of the trees, a name around them or another local has it.
ghost use Rattle.std.specs.Prelude.{◌≡◌, ◌≤◌, [], IfOk, OnOk, length, map, option_map};
ghost use Rattle.mbe_rewriter.specs.Hygiene.EventViews.{word_of, naming_of};
ghost use Rattle.mbe_rewriter.specs.Hygiene.Buckets.{AreBuckets, buckets_of, numbered_words};
ghost use Rattle.mbe_rewriter.specs.Hygiene.LocalNames as spec;

use crate::hygiene::buckets::{numbered_words, relevant_words};
use crate::hygiene::local_names::{
    Naming, Word, contains_name, has_undecided_use, is_same, is_shared, is_written,
};
use mbe_tt::symbol::Symbol;
use std::alloc::{AllocError, Allocator};

fn is_word(words: &[Word<'_>], text: &str) -> bool
    ensures { result ≡ spec.is_word (map word_of words.now) text.now }
{
    for word in words {
        if is_written(*word, text) {
            return true;
        }
    }
    false
}

fn is_given<A: Allocator>(given: &[Naming<'_, A>], text: &str) -> bool
    ensures { result ≡ spec.is_given (map naming_of given.now) text.now }
{
    for one in given {
        if one.name.as_str() == text {
            return true;
        }
    }
    false
}

fn is_taken<A: Allocator>(
    words: &[Word<'_>],
    names: &[Symbol<A>],
    given: &[Naming<'_, A>],
    text: &str,
) -> bool
    ensures { result ≡ spec.is_taken (map word_of words.now) names.now (map naming_of given.now)
        text.now }
{
    is_word(words, text) || contains_name(names, text) || is_given(given, text)
}

fn numbered<A: Allocator + Copy>(alloc: A, text: &str, number: u64) -> Result<Symbol<A>, AllocError>
    ensures { IfOk result (λ s. s ≡ spec.numbered text.now number) }
{
    let name = format!(in alloc; "{text}_{number}")?;
    Symbol::intern(alloc, name.as_str())
}

// Returns how many of these locals had that name.
fn count_named<A: Allocator>(given: &[Naming<'_, A>], text: &str) -> u64
    ensures count { result ≡ spec.count_named (map naming_of given.now) text.now }
    ensures few { result ≤ length given.now }
{
    let mut count = 0u64;
    for one in given {
        if one.local.text == text {
            count += 1;
        }
    }
    count
}

// Returns the first of `a_1`, `a_2` and so on that isn't taken. As many of these as locals had the
// name before are taken, so the search skips them.
fn fresh<A: Allocator + Copy>(
    alloc: A,
    words: &[Word<'_>],
    names: &[Symbol<A>],
    given: &[Naming<'_, A>],
    text: &str,
) -> Result<Symbol<A>, AllocError>
    requires taken { spec.AreTaken (map word_of words.now) names.now (map naming_of given.now) }
    ensures { IfOk result (λ s. s ≡ spec.fresh (map word_of words.now) names.now
        (map naming_of given.now) text.now) }
{
    let mut number = 1 + count_named(given, text);
    'numbers: while number < u64::MAX {
        let name = numbered(alloc, text, number)?;
        if is_taken(words, names, given, name.as_str()) {
            number += 1;
        } else {
            return Ok(name);
        }
    }
    numbered(alloc, text, number)
}

fn is_renamed<A: Allocator>(
    words: &[Word<'_>],
    buckets: &[Vec<Word<'_>, A>],
    names: &[Symbol<A>],
    local: Word<'_>,
) -> bool
    requires buckets { AreBuckets (map word_of words.now) (buckets_of buckets.now) }
    ensures { result ≡ spec.is_renamed (map word_of words.now) names.now (word_of local.entry) }
{
    is_shared(words, names, local)
        && !has_undecided_use(local, relevant_words(words, buckets, local))
}

fn push_name<'t, A: Allocator + Copy>(
    alloc: A,
    given: &mut Vec<Naming<'t, A>, A>,
    words: &[Word<'_>],
    buckets: &[Vec<Word<'_>, A>],
    numbered: &[Word<'_>],
    names: &[Symbol<A>],
    local: Word<'t>,
) -> Result<(), AllocError>
    requires buckets { AreBuckets (map word_of words.now) (buckets_of buckets.now) }
    requires numbered { map word_of numbered.now ≡ numbered_words (map word_of words.now) }
    requires taken { spec.AreTaken (map word_of words.now) names.now
        (map naming_of given.now.items) }
    ensures given { OnOk result (map naming_of given.new.items ≡ spec.with_name
        (map word_of words.now) names.now (map naming_of given.old.items) (word_of local.entry)) }
    ensures taken { OnOk result (spec.AreTaken (map word_of words.now) names.now
        (map naming_of given.new.items)) }
{
    if is_renamed(words, buckets, names, local) {
        let name = fresh(alloc, numbered, names, given.as_slice(), local.text)?;
        given.push(Naming { local, name })?;
    }
    Ok(())
}

/// Returns the locals that are renamed, with their new names. Returns `AllocError` if memory runs
/// out.
pub(crate) fn namings<'t, A: Allocator + Copy>(
    alloc: A,
    words: &[Word<'_>],
    buckets: &[Vec<Word<'_>, A>],
    names: &[Symbol<A>],
    locals: &[Word<'t>],
) -> Result<Vec<Naming<'t, A>, A>, AllocError>
    requires buckets { AreBuckets (map word_of words.now) (buckets_of buckets.now) }
    ensures { IfOk result (λ v. map naming_of v.items ≡ spec.names_from (map word_of words.now)
        names.now [] (map word_of locals.now)) }
{
    let found = numbered_words(alloc, words)?;
    let numbered = found.as_slice();
    let mut given = Vec::new(alloc);
    for local in locals {
        push_name(alloc, &mut given, words, buckets, numbered, names, *local)?;
    }
    Ok(given)
}

/// Returns the new name of a word, if it gets one.
pub(crate) fn name_in<'s, A: Allocator>(
    given: &'s [Naming<'_, A>],
    word: Word<'_>,
) -> Option<&'s Symbol<A>>
    ensures { option_map (λ s. s.now) result
        ≡ spec.name_in (map naming_of given.now) (word_of word.entry) }
{
    for one in given {
        if is_same(one.local, word) {
            return Some(&one.name);
        }
    }
    None
}
