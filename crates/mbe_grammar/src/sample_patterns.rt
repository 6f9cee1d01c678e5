// Patterns of the sample grammar. Each function parses what its comment says and returns the trees
// after it.
ghost use Rattle.std.specs.Prelude.{◌≡◌};
ghost use Rattle.mbe_tt.specs.Views.View.{trees};
ghost use Rattle.mbe_grammar.specs.Rule.{in_turn, meaning};
ghost use Rattle.mbe_grammar.specs.SampleGrammar.{takes, mut_reference, SignedLiteral, BindingMode};
ghost use Rattle.mbe_grammar.specs.SampleGrammar.{PathPat, Pat, Alternative, PatTop};
ghost use Rattle.mbe_grammar.specs.Chains.{direct_pattern};
ghost use Rattle.mbe_grammar.specs.Tables.ParseResult.{result_model};

use crate::sample_tokens::puncts;
use crate::sample_types::{PathStyle, path};
use crate::tables::parse_result::{ParseFailure, ParseResult, either, maybe, needed};
use crate::tables::terminals::{group, literal, sign, word};
use mbe_tt::tt::{DelimiterKind, TokenTreesView};
use std::alloc::Allocator;

// `[-]` and a literal.
#[tactic(auto, using(crate::proofs::Parts::signed_literal_is))]
fn signed_literal<'t, A: Allocator>(tokens: TokenTreesView<'t, A>) -> ParseResult<'t, A>
    ensures { result_model result ≡ takes SignedLiteral (trees tokens.entry) }
{
    literal(maybe(puncts(tokens, &['-']), tokens)?)
}

/// `& [mut]`.
pub fn mut_reference<'t, A: Allocator>(tokens: TokenTreesView<'t, A>) -> ParseResult<'t, A>
    ensures { result_model result ≡ meaning takes mut_reference (trees tokens.entry) }
{
    let rest = sign(tokens, '&')?;
    maybe(word(rest, &["mut"]), rest)
}

// `& [mut]`, `ref` or `mut`.
#[tactic(auto, using(crate::proofs::Parts::binding_mode_is))]
fn binding_mode<'t, A: Allocator>(tokens: TokenTreesView<'t, A>) -> ParseResult<'t, A>
    ensures { result_model result ≡ takes BindingMode (trees tokens.entry) }
{
    first_of!(mut_reference(tokens), word(tokens, &["ref", "mut"]))
}

// A path, and the group of fields after it, if there is one.
#[tactic(auto, using(crate::proofs::Parts::path_pat_is))]
fn path_pat<'t, A: Allocator>(tokens: TokenTreesView<'t, A>) -> ParseResult<'t, A>
    ensures { result_model result ≡ takes PathPat (trees tokens.entry) }
{
    let rest = path(tokens, PathStyle::Plain)?;
    let kinds = [DelimiterKind::Parenthesis, DelimiterKind::Brace];
    maybe(group(rest, &kinds), rest)
}

// A pattern that doesn't begin with a binding mode.
fn direct_pat<'t, A: Allocator>(tokens: TokenTreesView<'t, A>) -> ParseResult<'t, A>
    ensures { result_model result ≡ meaning takes direct_pattern (trees tokens.entry) }
{
    first_of!(
        word(tokens, &["_"]),
        signed_literal(tokens),
        group(
            tokens,
            &[DelimiterKind::Parenthesis, DelimiterKind::Bracket]
        ),
        path_pat(tokens)
    )
}

/// A pattern without alternatives. The word of a binding mode may be a path itself if no pattern
/// follows it.
#[tactic(auto, using(crate::proofs::PatternChains::modes))]
pub fn pat<'t, A: Allocator>(tokens: TokenTreesView<'t, A>) -> ParseResult<'t, A>
    ensures { result_model result ≡ takes Pat (trees tokens.entry) }
{
    let mut rest = tokens;
    let mut otherwise = Err(ParseFailure::NoMatch);
    'modes: loop {
        match binding_mode(rest) {
            Ok(next) => {
                otherwise = either(path_pat(rest), otherwise);
                rest = next;
            }
            Err(ParseFailure::NoMatch) => return either(direct_pat(rest), otherwise),
            Err(ParseFailure::Fault) => return Err(ParseFailure::Fault),
        }
    }
}

// `|`, which a pattern must follow.
#[tactic(auto, using(crate::proofs::Parts::alternative_is))]
fn alternative<'t, A: Allocator>(tokens: TokenTreesView<'t, A>) -> ParseResult<'t, A>
    ensures { result_model result ≡ takes Alternative (trees tokens.entry) }
{
    needed(pat(puncts(tokens, &['|'])?))
}

// Alternatives after the first, as many as there are.
#[tactic(auto, using(crate::proofs::Parts::turns))]
fn alternatives<'t, A: Allocator>(tokens: TokenTreesView<'t, A>) -> ParseResult<'t, A>
    ensures { result_model result ≡ in_turn (takes Alternative) (trees tokens.entry) }
{
    let mut rest = tokens;
    'alternatives: loop {
        match alternative(rest) {
            Ok(next) => rest = next,
            Err(ParseFailure::NoMatch) => return Ok(rest),
            Err(ParseFailure::Fault) => return Err(ParseFailure::Fault),
        }
    }
}

/// A pattern with its alternatives.
#[tactic(auto, using(crate::proofs::Parts::pat_top_is))]
pub fn pat_top<'t, A: Allocator>(tokens: TokenTreesView<'t, A>) -> ParseResult<'t, A>
    ensures { result_model result ≡ takes PatTop (trees tokens.entry) }
{
    alternatives(first_of!(alternative(tokens), pat(tokens))?)
}
