// Expressions of the sample grammar: operands with prefixes and postfixes, joined by operators. An
// expression is parsed by a loop over links, not by recursion. A link is an operand with the
// operator after it, or a jump such as `return` before its value.
ghost use Rattle.std.specs.Prelude.{◌≡◌};
ghost use Rattle.std.specs.List.{list_any};
ghost use Rattle.std.specs.Str.{bytes_eq};
ghost use Rattle.std.specs.Prelude.{map, codes, [], ◌∷◌};
ghost use Rattle.mbe_tt.specs.Trees.Glue.{chars_of};
ghost use Rattle.mbe_tt.specs.Trees.Tree.{flat_len};
ghost use Rattle.mbe_tt.specs.Views.View.{trees};
ghost use Rattle.mbe_grammar.specs.Rule.{in_turn, meaning};
ghost use Rattle.mbe_grammar.specs.SampleGrammar.{takes, macro_argument, method, any_group};
ghost use Rattle.mbe_grammar.specs.SampleGrammar.{operators, mut_reference, expr_start, Operator};
ghost use Rattle.mbe_grammar.specs.SampleGrammar.{Operation, Expr, Prefix, KeywordBlock, JumpWord};
ghost use Rattle.mbe_grammar.specs.SampleGrammar.{PathExpr, Field, Post};
ghost use Rattle.mbe_grammar.specs.Chains.{jump_to_value, plain_primary, plain_operand};
ghost use Rattle.mbe_grammar.specs.Tables.ParseResult.{result_model};
ghost use Rattle.mbe_grammar.specs.Links.{whole, ContinuesWithin};

use crate::sample_patterns::mut_reference;
use crate::sample_tokens::{name, not_punct, puncts};
use crate::sample_types::{PathStyle, lifetime, path, turbofish};
use crate::tables::parse_result::{ParseFailure, ParseResult, ahead, maybe, not_ahead};
use crate::tables::terminals::{group, literal, sign, word};
use mbe_tt::tt::{DelimiterKind, Leaf, Punct, TokenTreesView, TtElement};
use std::alloc::Allocator;

/// The kinds of groups that aren't invisible.
pub const VISIBLE: [DelimiterKind; 3] = [
    DelimiterKind::Parenthesis,
    DelimiterKind::Brace,
    DelimiterKind::Bracket,
];

fn is_operator_of_one(a: char) -> bool
    ensures { result ≡ list_any (bytes_eq (a ∷ [])) (map codes operators) }
{
    matches!(
        a,
        '+' | '-' | '*' | '/' | '%' | '^' | '&' | '|' | '<' | '>' | '='
    )
}

fn is_operator_of_two(a: char, b: char) -> bool
    ensures { result ≡ list_any (bytes_eq (a ∷ b ∷ [])) (map codes operators) }
{
    match b {
        '=' => matches!(
            a,
            '=' | '!' | '<' | '>' | '+' | '-' | '*' | '/' | '%' | '^' | '&' | '|'
        ),
        '&' | '|' | '<' | '>' => a == b,
        _ => false,
    }
}

fn is_operator_of_three(a: char, b: char, c: char) -> bool
    ensures { result ≡ list_any (bytes_eq (a ∷ b ∷ c ∷ [])) (map codes operators) }
{
    matches!((a, b, c), ('<', '<', '=') | ('>', '>', '='))
}

fn is_operator(puncts: &[Punct]) -> bool
    ensures { result ≡ list_any (bytes_eq (chars_of puncts.now)) (map codes operators) }
{
    match puncts {
        [a] => is_operator_of_one(a.char),
        [a, b] => is_operator_of_two(a.char, b.char),
        [a, b, c] => is_operator_of_three(a.char, b.char, c.char),
        _ => false,
    }
}

// An operator between two operands.
#[tactic(auto, using(crate::proofs::Parts::operator_is))]
fn operator<'t, A: Allocator>(tokens: TokenTreesView<'t, A>) -> ParseResult<'t, A>
    ensures { result_model result ≡ takes Operator (trees tokens.entry) }
{
    let mut iter = tokens.iter();
    let Some(TtElement::Leaf(Leaf::Punct(_))) = iter.peek() else {
        return Err(ParseFailure::NoMatch);
    };
    match iter.expect_glued_punct() {
        Ok(glued) if is_operator(glued.as_slice()) => Ok(iter.remaining()),
        _ => Err(ParseFailure::NoMatch),
    }
}

// `-`, `!`, `*` or `& [mut]`.
#[tactic(auto, using(crate::proofs::Parts::prefix_is))]
fn prefix<'t, A: Allocator>(tokens: TokenTreesView<'t, A>) -> ParseResult<'t, A>
    ensures { result_model result ≡ takes Prefix (trees tokens.entry) }
{
    first_of!(
        puncts(tokens, &['-']),
        puncts(tokens, &['!']),
        sign(tokens, '*'),
        mut_reference(tokens)
    )
}

// Prefixes, as many as there are.
#[tactic(auto, using(crate::proofs::Parts::turns))]
fn prefixes<'t, A: Allocator>(tokens: TokenTreesView<'t, A>) -> ParseResult<'t, A>
    ensures { result_model result ≡ in_turn (takes Prefix) (trees tokens.entry) }
{
    let mut rest = tokens;
    'prefixes: loop {
        match prefix(rest) {
            Ok(next) => rest = next,
            Err(ParseFailure::NoMatch) => return Ok(rest),
            Err(ParseFailure::Fault) => return Err(ParseFailure::Fault),
        }
    }
}

// `const` or `unsafe`, and a block.
#[tactic(auto, using(crate::proofs::Parts::keyword_block_is))]
fn keyword_block<'t, A: Allocator>(tokens: TokenTreesView<'t, A>) -> ParseResult<'t, A>
    ensures { result_model result ≡ takes KeywordBlock (trees tokens.entry) }
{
    group(word(tokens, &["const", "unsafe"])?, &[DelimiterKind::Brace])
}

// `break`, `return` or `continue`, and a lifetime after it.
#[tactic(auto, using(crate::proofs::Parts::jump_word_is))]
fn jump_word<'t, A: Allocator>(tokens: TokenTreesView<'t, A>) -> ParseResult<'t, A>
    ensures { result_model result ≡ takes JumpWord (trees tokens.entry) }
{
    let rest = word(tokens, &["break", "return", "continue"])?;
    maybe(lifetime(rest), rest)
}

// The front of anything that may begin an expression.
fn expr_start<'t, A: Allocator>(tokens: TokenTreesView<'t, A>) -> ParseResult<'t, A>
    ensures { result_model result ≡ meaning takes expr_start (trees tokens.entry) }
{
    first_of!(
        not_punct(tokens),
        puncts(tokens, &[':', ':']),
        puncts(tokens, &['-']),
        puncts(tokens, &['!']),
        sign(tokens, '*'),
        sign(tokens, '&')
    )
}

// A jump that has a value, without the value.
fn jump_to_value<'t, A: Allocator>(tokens: TokenTreesView<'t, A>) -> ParseResult<'t, A>
    ensures { result_model result ≡ meaning takes jump_to_value (trees tokens.entry) }
{
    let value = jump_word(tokens)?;
    ahead(expr_start(value), value)
}

// `!` and a group that isn't invisible.
fn macro_argument<'t, A: Allocator>(tokens: TokenTreesView<'t, A>) -> ParseResult<'t, A>
    ensures { result_model result ≡ meaning takes macro_argument (trees tokens.entry) }
{
    group(puncts(tokens, &['!'])?, &VISIBLE)
}

// A path, and the argument of a macro after it.
#[tactic(auto, using(crate::proofs::Parts::path_expr_is))]
fn path_expr<'t, A: Allocator>(tokens: TokenTreesView<'t, A>) -> ParseResult<'t, A>
    ensures { result_model result ≡ takes PathExpr (trees tokens.entry) }
{
    let rest = path(tokens, PathStyle::Expression)?;
    maybe(macro_argument(rest), rest)
}

// Any group.
fn any_group<'t, A: Allocator>(tokens: TokenTreesView<'t, A>) -> ParseResult<'t, A>
    ensures { result_model result ≡ meaning takes any_group (trees tokens.entry) }
{
    group(
        tokens,
        &[
            DelimiterKind::Parenthesis,
            DelimiterKind::Brace,
            DelimiterKind::Bracket,
            DelimiterKind::Invisible,
        ],
    )
}

// An operand without prefixes and postfixes. For a jump it is the jump's word alone. The word `let`
// doesn't begin an operand.
fn primary<'t, A: Allocator>(tokens: TokenTreesView<'t, A>) -> ParseResult<'t, A>
    ensures { result_model result ≡ meaning takes plain_primary (trees tokens.entry) }
{
    let tokens = not_ahead(word(tokens, &["let"]), tokens)?;
    first_of!(
        word(tokens, &["_", "true", "false"]),
        literal(tokens),
        keyword_block(tokens),
        jump_word(tokens),
        any_group(tokens),
        path_expr(tokens)
    )
}

// A name, and generic arguments after it.
fn method<'t, A: Allocator>(tokens: TokenTreesView<'t, A>) -> ParseResult<'t, A>
    ensures { result_model result ≡ meaning takes method (trees tokens.entry) }
{
    let rest = name(tokens)?;
    maybe(turbofish(rest), rest)
}

// `.`, and a field or a method.
#[tactic(auto, using(crate::proofs::Parts::field_is))]
fn field<'t, A: Allocator>(tokens: TokenTreesView<'t, A>) -> ParseResult<'t, A>
    ensures { result_model result ≡ takes Field (trees tokens.entry) }
{
    let rest = puncts(tokens, &['.'])?;
    first_of!(literal(rest), method(rest))
}

// `?`, a field, or a group in parentheses or brackets.
#[tactic(auto, using(crate::proofs::Parts::post_is))]
fn post<'t, A: Allocator>(tokens: TokenTreesView<'t, A>) -> ParseResult<'t, A>
    ensures { result_model result ≡ takes Post (trees tokens.entry) }
{
    first_of!(
        puncts(tokens, &['?']),
        field(tokens),
        group(
            tokens,
            &[DelimiterKind::Parenthesis, DelimiterKind::Bracket]
        )
    )
}

// Postfixes, as many as there are.
#[tactic(auto, using(crate::proofs::Parts::turns))]
fn posts<'t, A: Allocator>(tokens: TokenTreesView<'t, A>) -> ParseResult<'t, A>
    ensures { result_model result ≡ in_turn (takes Post) (trees tokens.entry) }
{
    let mut rest = tokens;
    'posts: loop {
        match post(rest) {
            Ok(next) => rest = next,
            Err(ParseFailure::NoMatch) => return Ok(rest),
            Err(ParseFailure::Fault) => return Err(ParseFailure::Fault),
        }
    }
}

// An operand and its postfixes. The operand isn't a jump with a value.
fn operand<'t, A: Allocator>(tokens: TokenTreesView<'t, A>) -> ParseResult<'t, A>
    ensures { result_model result ≡ meaning takes plain_operand (trees tokens.entry) }
{
    posts(primary(tokens)?)
}

// What comes after a link of an expression.
#[derive_where(Clone, Copy)]
enum Link<'t, A: Allocator> {
    // The expression ends before these trees.
    End(TokenTreesView<'t, A>),
    // The expression goes on: these trees must begin with the rest, which is an expression too.
    Continues(TokenTreesView<'t, A>),
}

// Parses what follows an operand: an operator, or the end of the expression.
#[tactic(auto, using(crate::proofs::ExpressionChains::operators))]
fn operation<'t, A: Allocator>(tokens: TokenTreesView<'t, A>) -> Result<Link<'t, A>, ParseFailure>
    ensures taken { whole result ≡ in_turn (takes Operation) (trees tokens.entry) }
    ensures shorter { ContinuesWithin (flat_len (trees tokens.entry)) result }
{
    match operator(tokens) {
        Ok(rest) => Ok(Link::Continues(rest)),
        Err(ParseFailure::NoMatch) => Ok(Link::End(tokens)),
        Err(ParseFailure::Fault) => Err(ParseFailure::Fault),
    }
}

// The next link of an expression: an operand with its operator, or a jump without its value. The
// value may be parsed as the rest of the whole expression: neither a postfix nor an operator
// consumes what the value leaves.
#[tactic(auto, using(crate::proofs::ExpressionChains::links))]
fn next_link<'t, A: Allocator>(tokens: TokenTreesView<'t, A>) -> Result<Link<'t, A>, ParseFailure>
    ensures taken { whole result ≡ takes Expr (trees tokens.entry) }
    ensures shorter { ContinuesWithin (flat_len (trees tokens.entry)) result }
{
    let start = prefixes(tokens)?;
    match jump_to_value(start) {
        Ok(value) => Ok(Link::Continues(value)),
        Err(ParseFailure::NoMatch) => operation(operand(start)?),
        Err(ParseFailure::Fault) => Err(ParseFailure::Fault),
    }
}

/// An expression.
pub fn expr<'t, A: Allocator>(tokens: TokenTreesView<'t, A>) -> ParseResult<'t, A>
    ensures { result_model result ≡ takes Expr (trees tokens.entry) }
{
    let mut rest = tokens;
    let mut otherwise = ParseFailure::NoMatch;
    'links: loop {
        match next_link(rest) {
            Ok(Link::Continues(next)) => {
                rest = next;
                otherwise = ParseFailure::Fault;
            }
            Ok(Link::End(end)) => return Ok(end),
            Err(ParseFailure::NoMatch) => return Err(otherwise),
            Err(ParseFailure::Fault) => return Err(ParseFailure::Fault),
        }
    }
}
