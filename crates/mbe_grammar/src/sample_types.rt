// Paths and types of the sample grammar. Each function parses what its comment says and returns the
// trees after it.
ghost use Rattle.std.specs.Prelude.{◌≡◌};
ghost use Rattle.mbe_tt.specs.Views.View.{trees};
ghost use Rattle.mbe_grammar.specs.Rule.{in_turn, meaning};
ghost use Rattle.mbe_grammar.specs.SampleGrammar.{takes, reference_sign, pointer_sign, Lifetime};
ghost use Rattle.mbe_grammar.specs.SampleGrammar.{Angle, Turbofish, Colons, Segment, NextSegment};
ghost use Rattle.mbe_grammar.specs.SampleGrammar.{Path, Indirection, Ty};
ghost use Rattle.mbe_grammar.specs.Chains.{direct_type};
ghost use Rattle.mbe_grammar.specs.Tables.ParseResult.{result_model};

use crate::sample_tokens::{closing, name, puncts};
use crate::tables::parse_result::{ParseFailure, ParseResult, ahead, maybe, needed};
use crate::tables::terminals::{group, identifier, sign, word};
use mbe_tt::tt::{DelimiterKind, TokenTreesView};
use std::alloc::Allocator;

/// Where generic arguments may be in a path.
#[derive(Clone, Copy, Debug, PartialEq, Eq)]
pub enum PathStyle {
    /// After a name, or after a name and `::`.
    Plain,
    /// Only after a name and `::`, because a `<` alone is a comparison.
    Expression,
}

/// `'` and an identifier.
#[tactic(auto, using(crate::proofs::Parts::lifetime_is))]
pub fn lifetime<'t, A: Allocator>(tokens: TokenTreesView<'t, A>) -> ParseResult<'t, A>
    ensures { result_model result ≡ takes Lifetime (trees tokens.entry) }
{
    identifier(puncts(tokens, &['\''])?)
}

// `<` and all trees up to the `>` that closes it.
#[tactic(auto, using(crate::proofs::Parts::angle_is))]
fn angle<'t, A: Allocator>(tokens: TokenTreesView<'t, A>) -> ParseResult<'t, A>
    ensures { result_model result ≡ takes Angle (trees tokens.entry) }
{
    closing(sign(tokens, '<')?)
}

/// `::` and generic arguments.
#[tactic(auto, using(crate::proofs::Parts::turbofish_is))]
pub fn turbofish<'t, A: Allocator>(tokens: TokenTreesView<'t, A>) -> ParseResult<'t, A>
    ensures { result_model result ≡ takes Turbofish (trees tokens.entry) }
{
    angle(puncts(tokens, &[':', ':'])?)
}

// `::`, which a name or generic arguments must follow.
#[tactic(auto, using(crate::proofs::Parts::colons_is))]
fn colons<'t, A: Allocator>(tokens: TokenTreesView<'t, A>) -> ParseResult<'t, A>
    ensures { result_model result ≡ takes Colons (trees tokens.entry) }
{
    let rest = puncts(tokens, &[':', ':'])?;
    needed(ahead(first_of!(name(rest), angle(rest)), rest))
}

// A name, and generic arguments after it.
#[tactic(auto, using(crate::proofs::Parts::segment_is))]
fn segment<'t, A: Allocator>(tokens: TokenTreesView<'t, A>, style: PathStyle) -> ParseResult<'t, A>
    ensures { result_model result ≡ takes (Segment style) (trees tokens.entry) }
{
    let rest = name(tokens)?;
    match style {
        PathStyle::Plain => {
            let start = maybe(puncts(rest, &[':', ':']), rest)?;
            maybe(angle(start), rest)
        }
        PathStyle::Expression => maybe(turbofish(rest), rest),
    }
}

// `::` and a segment.
#[tactic(auto, using(crate::proofs::Parts::next_segment_is))]
fn next_segment<'t, A: Allocator>(
    tokens: TokenTreesView<'t, A>,
    style: PathStyle,
) -> ParseResult<'t, A>
    ensures { result_model result ≡ takes (NextSegment style) (trees tokens.entry) }
{
    segment(colons(tokens)?, style)
}

// Further segments, as many as there are.
#[tactic(auto, using(crate::proofs::Parts::turns))]
fn next_segments<'t, A: Allocator>(
    tokens: TokenTreesView<'t, A>,
    style: PathStyle,
) -> ParseResult<'t, A>
    ensures { result_model result ≡ in_turn (takes (NextSegment style)) (trees tokens.entry) }
{
    let mut rest = tokens;
    'segments: loop {
        match next_segment(rest, style) {
            Ok(next) => rest = next,
            Err(ParseFailure::NoMatch) => return Ok(rest),
            Err(ParseFailure::Fault) => return Err(ParseFailure::Fault),
        }
    }
}

/// Segments with `::` between them. A path may begin with `::`.
#[tactic(auto, using(crate::proofs::Parts::path_is))]
pub fn path<'t, A: Allocator>(tokens: TokenTreesView<'t, A>, style: PathStyle) -> ParseResult<'t, A>
    ensures { result_model result ≡ takes (Path style) (trees tokens.entry) }
{
    let start = maybe(colons(tokens), tokens)?;
    next_segments(segment(start, style)?, style)
}

// `& [LIFETIME] [mut]`, `* const` or `* mut`.
#[tactic(auto, using(crate::proofs::Parts::indirection_is))]
fn indirection<'t, A: Allocator>(tokens: TokenTreesView<'t, A>) -> ParseResult<'t, A>
    ensures { result_model result ≡ takes Indirection (trees tokens.entry) }
{
    first_of!(reference(tokens), pointer(tokens))
}

// `& [LIFETIME] [mut]`.
fn reference<'t, A: Allocator>(tokens: TokenTreesView<'t, A>) -> ParseResult<'t, A>
    ensures { result_model result ≡ meaning takes reference_sign (trees tokens.entry) }
{
    let rest = sign(tokens, '&')?;
    let rest = maybe(lifetime(rest), rest)?;
    maybe(word(rest, &["mut"]), rest)
}

// `* const` or `* mut`.
fn pointer<'t, A: Allocator>(tokens: TokenTreesView<'t, A>) -> ParseResult<'t, A>
    ensures { result_model result ≡ meaning takes pointer_sign (trees tokens.entry) }
{
    word(sign(tokens, '*')?, &["const", "mut"])
}

// Indirections, as many as there are.
#[tactic(auto, using(crate::proofs::Parts::turns))]
fn indirections<'t, A: Allocator>(tokens: TokenTreesView<'t, A>) -> ParseResult<'t, A>
    ensures { result_model result ≡ in_turn (takes Indirection) (trees tokens.entry) }
{
    let mut rest = tokens;
    'indirections: loop {
        match indirection(rest) {
            Ok(next) => rest = next,
            Err(ParseFailure::NoMatch) => return Ok(rest),
            Err(ParseFailure::Fault) => return Err(ParseFailure::Fault),
        }
    }
}

// A type that doesn't begin with an indirection.
fn direct_ty<'t, A: Allocator>(tokens: TokenTreesView<'t, A>) -> ParseResult<'t, A>
    ensures { result_model result ≡ meaning takes direct_type (trees tokens.entry) }
{
    first_of!(
        word(tokens, &["_"]),
        puncts(tokens, &['!']),
        group(
            tokens,
            &[DelimiterKind::Parenthesis, DelimiterKind::Bracket]
        ),
        path(tokens, PathStyle::Plain)
    )
}

/// A type.
#[tactic(auto, using(crate::proofs::TypeChains::ty_is))]
pub fn ty<'t, A: Allocator>(tokens: TokenTreesView<'t, A>) -> ParseResult<'t, A>
    ensures { result_model result ≡ takes Ty (trees tokens.entry) }
{
    direct_ty(indirections(tokens)?)
}
