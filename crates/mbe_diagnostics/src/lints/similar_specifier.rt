// Finds the name, or the fragment specifier, that is most similar to an unknown one.
ghost use Rattle.std.specs.Prelude.{◌≡◌, None, map, option_map, IfOk};
ghost use Rattle.mbe_diagnostics.specs.Lints.SimilarSpecifier as spec;

use std::alloc::{AllocError, Allocator};
use strsim::osa_distance;

/// All fragment specifiers, in rustc's order.
const SPECIFIERS: &[&str] = &[
    "ident",
    "block",
    "stmt",
    "expr",
    "pat",
    "ty",
    "lifetime",
    "literal",
    "path",
    "meta",
    "tt",
    "item",
    "vis",
    "expr_2021",
    "pat_param",
];

// Returns the smallest number of edits that is too many.
fn edit_limit(name: &str) -> usize
    ensures { result ≡ spec.edit_limit name.now }
{
    name.len().max(3) / 3 + 1
}

#[tactic(auto, unfolding(crate::specs::Lints::SimilarSpecifier::has_same_letters))]
fn has_same_letters(one: &str, other: &str) -> bool
    ensures { result ≡ spec.has_same_letters one.now other.now }
{
    one.eq_ignore_ascii_case(other)
}

fn find_same_letters<'s>(name: &str, all: &[&'s str]) -> Option<&'s str>
    ensures { option_map (λ s. s.now) result
        ≡ spec.find_same_letters name.now (map (λ s. s.now) all.now) }
{
    for one in all {
        if has_same_letters(name, one) {
            return Some(*one);
        }
    }
    None
}

fn fewest_edits<'s, A: Allocator + Copy>(
    alloc: A,
    name: &str,
    all: &[&'s str],
) -> Result<Option<&'s str>, AllocError>
    ensures { IfOk result (λ found. option_map (λ s. s.now) found
        ≡ spec.fewest name.now (spec.edit_limit name.now) None (map (λ s. s.now) all.now)) }
{
    let mut bound = edit_limit(name);
    let mut found = None;
    for one in all {
        let edits = osa_distance(alloc, name, one)?;
        if edits < bound {
            bound = edits;
            found = Some(*one);
        }
    }
    Ok(found)
}

/// Returns the name among `all` that is most similar to `name`, if one is similar, as rustc does. A
/// name that differs only in case comes first. Else it is the first name with the fewest edits.
/// The edits are at most a third of the name's bytes, but one is always allowed. An edit inserts,
/// removes or replaces a character, or swaps two. `AllocError` if out of memory.
#[tactic(auto, unfolding(crate::specs::Lints::SimilarSpecifier::similar_name))]
pub fn similar_name<'s, A: Allocator + Copy>(
    alloc: A,
    name: &str,
    all: &[&'s str],
) -> Result<Option<&'s str>, AllocError>
    ensures { IfOk result (λ found. option_map (λ s. s.now) found
        ≡ spec.similar_name name.now (map (λ s. s.now) all.now)) }
{
    match find_same_letters(name, all) {
        Some(found) => Ok(Some(found)),
        None => fewest_edits(alloc, name, all),
    }
}

/// Returns the fragment specifier that is most similar to a name, if one is similar (see
/// `similar_name`). `AllocError` if out of memory.
pub fn similar_specifier<A: Allocator + Copy>(
    alloc: A,
    name: &str,
) -> Result<Option<&'static str>, AllocError>
    ensures { IfOk result (λ found. option_map (λ s. s.now) found
        ≡ spec.similar_specifier name.now) }
{
    similar_name(alloc, name, SPECIFIERS)
}
