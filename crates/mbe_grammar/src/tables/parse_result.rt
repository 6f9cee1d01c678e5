// The result of a rule, and the functions that combine results: an optional rule, an alternative, a
// group, a required rule and lookahead.
ghost use Rattle.std.specs.Prelude.{◌≡◌, Ok};
ghost use Rattle.mbe_tt.specs.Views.View.{trees};
ghost use Rattle.mbe_grammar.specs.Tables.Rule.{or_else, require_empty, require_match, if_match};
ghost use Rattle.mbe_grammar.specs.Tables.Rule.{unless_match};
ghost use Rattle.mbe_grammar.specs.Tables.ParseResult.{result_model};

use mbe_tt::tt::TokenTreesView;
use std::alloc::Allocator;

/// Why a rule doesn't match.
#[derive(Clone, Copy, Debug, PartialEq, Eq)]
pub enum ParseFailure {
    /// It doesn't match, and the next alternative is tried.
    NoMatch,
    /// The whole fragment faults, and no alternative is tried.
    Fault,
}

/// The trees after those that a rule consumes, or why it doesn't match.
pub type ParseResult<'t, A> = Result<TokenTreesView<'t, A>, ParseFailure>;

/// The result of an optional rule. `tokens` are the trees where the rule was tried: it consumes
/// nothing if it doesn't match.
pub fn maybe<'t, A: Allocator>(
    step: ParseResult<'t, A>,
    tokens: TokenTreesView<'t, A>,
) -> ParseResult<'t, A>
    ensures { result_model result ≡ or_else (result_model step.entry) (Ok (trees tokens.entry)) }
{
    match step {
        Err(ParseFailure::NoMatch) => Ok(tokens),
        taken => taken,
    }
}

/// The result of a rule, or that of another rule if the first doesn't match.
pub fn either<'t, A: Allocator>(
    step: ParseResult<'t, A>,
    other: ParseResult<'t, A>,
) -> ParseResult<'t, A>
    ensures { result_model result ≡ or_else (result_model step.entry) (result_model other.entry) }
{
    match step {
        Err(ParseFailure::NoMatch) => other,
        taken => taken,
    }
}

/// The result of a group. `inside` is the result of the rule for its content, which must consume
/// all of it, and `rest` are the trees after the group.
pub fn require_empty<'t, A: Allocator>(
    inside: ParseResult<'t, A>,
    rest: TokenTreesView<'t, A>,
) -> ParseResult<'t, A>
    ensures { result_model result ≡ require_empty (result_model inside.entry) (trees rest.entry) }
{
    match inside {
        Ok(left) if left.iter().is_empty() => Ok(rest),
        Ok(_left) => Err(ParseFailure::NoMatch),
        missed => missed,
    }
}

/// The result of a required rule: it faults if it doesn't match.
pub fn needed<'t, A: Allocator>(step: ParseResult<'t, A>) -> ParseResult<'t, A>
    ensures { result_model result ≡ require_match (result_model step.entry) }
{
    match step {
        Ok(rest) => Ok(rest),
        Err(_) => Err(ParseFailure::Fault),
    }
}

/// The result of a positive lookahead: it consumes nothing, and matches if the rule does.
pub fn ahead<'t, A: Allocator>(
    step: ParseResult<'t, A>,
    tokens: TokenTreesView<'t, A>,
) -> ParseResult<'t, A>
    ensures { result_model result ≡ if_match (result_model step.entry) (trees tokens.entry) }
{
    match step {
        Ok(_rest) => Ok(tokens),
        missed => missed,
    }
}

/// The result of a negative lookahead: it consumes nothing, and matches if the rule doesn't.
pub fn not_ahead<'t, A: Allocator>(
    step: ParseResult<'t, A>,
    tokens: TokenTreesView<'t, A>,
) -> ParseResult<'t, A>
    ensures { result_model result ≡ unless_match (result_model step.entry) (trees tokens.entry) }
{
    match step {
        Ok(_rest) => Err(ParseFailure::NoMatch),
        Err(ParseFailure::NoMatch) => Ok(tokens),
        faulted => faulted,
    }
}
