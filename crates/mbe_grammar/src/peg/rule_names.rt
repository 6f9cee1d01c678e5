// The names of a grammar's rules, each with its index. They are collected before the rules are
// read, so that a rule may name a later one.
ghost use Rattle.std.specs.Prelude.{◌≡◌, map, OnOk};
ghost use Rattle.mbe_grammar.specs.Peg.Grammar as spec;
ghost use Rattle.mbe_grammar.specs.Peg.Views.{IsRead, names_model, plain_token, plain_word};

use crate::peg::peg_error::{PegError, PegErrorKind, PegLocation};
use crate::peg::peg_token::PegToken;
use mbe_tt::span::Edition;
use std::alloc::{AllocError, Allocator};
use std::collections::BTreeMap;

/// The indices of rules by their names.
pub type RuleNames<'t, A> = BTreeMap<&'t str, usize, A>;

/// The edition of a list of keywords, by the name of the list. Returns `None` for any other name.
pub fn edition_of(name: &str) -> Option<Edition>
    ensures { result ≡ spec.edition_named name.now }
{
    match name {
        "KEYWORDS_2015" => Some(Edition::Edition2015),
        "KEYWORDS_2018" => Some(Edition::Edition2018),
        "KEYWORDS_2021" => Some(Edition::Edition2021),
        "KEYWORDS_2024" => Some(Edition::Edition2024),
        _ => None,
    }
}

// Gives a new name the next index.
fn add_name<'t, A: Allocator + Copy>(
    names: &mut RuleNames<'t, A>,
    name: &'t str,
) -> Result<(), AllocError>
    requires { (names_model names.old).position name.now ≡ None }
    ensures { OnOk result (names_model names.new
        ≡ spec.with_name name.now (names_model names.old)) }
{
    let position = names.len();
    names.insert(name, position)?;
    Ok(())
}

// Adds the name of the rule that a token defines. Does nothing for other tokens, and for lists of
// keywords. Faults if the name is there already.
fn add_definition<'t, A: Allocator + Copy>(
    names: &mut RuleNames<'t, A>,
    location: PegLocation,
    token: PegToken<'t>,
) -> Result<(), PegError<'t>>
    ensures { IsRead (λ _. names_model names.new) result
        (spec.named_by location (plain_token token.entry) (names_model names.old)) }
{
    let PegToken::Define(name) = token else {
        return Ok(());
    };
    if edition_of(name).is_some() {
        return Ok(());
    }
    if names.get(&name).is_some() {
        return Err(PegError::At(location, PegErrorKind::Duplicate(name)));
    }
    Ok(add_name(names, name)?)
}

/// The names of all rules, each with its index: rules are numbered in the order of the text.
pub fn names_in<'t, A: Allocator + Copy>(
    alloc: A,
    words: &[(PegLocation, PegToken<'t>)],
) -> Result<RuleNames<'t, A>, PegError<'t>>
    ensures { IsRead (λ names. names_model names) result
        (spec.names_in (map plain_word words.now) spec.no_names) }
{
    let mut names = BTreeMap::new(alloc);
    for (location, token) in words {
        add_definition(&mut names, *location, *token)?;
    }
    Ok(names)
}
