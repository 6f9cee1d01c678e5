// The terminals of the sample grammar that tables don't have: names without regard to keywords,
// trees that aren't puncts, operators, and everything up to a closing `>`.
ghost use Rattle.std.specs.Prelude.{◌≡◌, [], ◌∷◌, false};
ghost use Rattle.std.specs.Str.{bytes_eq};
ghost use Rattle.mbe_tt.specs.Trees.Glue.{chars_of};
ghost use Rattle.mbe_tt.specs.Trees.Tree.{flat_len};
ghost use Rattle.mbe_tt.specs.Views.View.{trees};
ghost use Rattle.mbe_grammar.specs.Rule.{or_fault, after_angle, may_begin};
ghost use Rattle.mbe_grammar.specs.Tables.Terminals.{or_no_match, after_one, after_operator};
ghost use Rattle.mbe_grammar.specs.SingleTrees.{is_name, is_not_punct};
ghost use Rattle.mbe_grammar.specs.Tables.ParseResult.{result_model};

use crate::tables::parse_result::{ParseFailure, ParseResult};
use mbe_tt::tt::{Leaf, Punct, Spacing, TokenTreesView, TtElement};
use std::alloc::Allocator;

/// The trees after an identifier other than `_`.
pub fn name<'t, A: Allocator>(tokens: TokenTreesView<'t, A>) -> ParseResult<'t, A>
    ensures { result_model result ≡ or_no_match (after_one is_name (trees tokens.entry)) }
{
    let mut iter = tokens.iter();
    match iter.expect_ident() {
        Ok(_ident) => Ok(iter.remaining()),
        Err(()) => Err(ParseFailure::NoMatch),
    }
}

/// The trees after the first tree, which must not be a punct.
pub fn not_punct<'t, A: Allocator>(tokens: TokenTreesView<'t, A>) -> ParseResult<'t, A>
    ensures { result_model result ≡ or_no_match (after_one is_not_punct (trees tokens.entry)) }
{
    let mut iter = tokens.iter();
    match iter.next() {
        None | Some(TtElement::Leaf(Leaf::Punct(_))) => Err(ParseFailure::NoMatch),
        Some(_) => Ok(iter.remaining()),
    }
}

/// The trees after an operator with these chars.
#[tactic(auto, using(crate::proofs::Fronts::absent_unless))]
pub fn puncts<'t, A: Allocator>(tokens: TokenTreesView<'t, A>, chars: &[char]) -> ParseResult<'t, A>
    ensures { result_model result
        ≡ or_no_match (after_operator (chars.now ∷ []) (trees tokens.entry)) }
{
    if !may_begin(tokens, chars) {
        return Err(ParseFailure::NoMatch);
    }
    let mut iter = tokens.iter();
    match iter.expect_glued_punct() {
        Ok(glued) if have_chars(glued.as_slice(), chars) => Ok(iter.remaining()),
        _ => Err(ParseFailure::NoMatch),
    }
}

// Whether the first tree is a punct with the first of these chars. True if there are no chars. This
// test mostly fails, and is cheaper than to join puncts.
fn may_begin<A: Allocator>(tokens: TokenTreesView<'_, A>, chars: &[char]) -> bool
    ensures { result ≡ may_begin chars.now (trees tokens.entry) }
{
    let Some(char) = chars.first() else {
        return true;
    };
    match tokens.iter().peek() {
        Some(TtElement::Leaf(Leaf::Punct(punct))) => punct.char == *char,
        _ => false,
    }
}

fn have_chars(puncts: &[Punct], chars: &[char]) -> bool
    ensures { result ≡ bytes_eq (chars_of puncts.now) chars.now }
{
    match (puncts.split_first(), chars.split_first()) {
        (Some((punct, puncts)), Some((char, chars))) => {
            punct.char == *char && have_chars(puncts, chars)
        }
        (None, None) => true,
        _ => false,
    }
}

/// The trees after the `>` that closes a `<` before `tokens`. All trees before the `>` are
/// consumed.
pub fn closing<'t, A: Allocator>(tokens: TokenTreesView<'t, A>) -> ParseResult<'t, A>
    ensures { result_model result ≡ or_fault (after_angle 0 false (trees tokens.entry)) }
{
    let _most = tokens.flat_len();
    let mut iter = tokens.iter();
    let mut more = 0usize;
    let mut is_arrow = false;
    'trees: while let Some(tree) = iter.next() {
        let TtElement::Leaf(Leaf::Punct(punct)) = tree else {
            is_arrow = false;
            continue;
        };
        if punct.char == '<' {
            more += 1;
        } else if punct.char == '>' && !is_arrow {
            if more == 0 {
                return Ok(iter.remaining());
            }
            more -= 1;
        }
        is_arrow = punct.spacing == Spacing::Joint && (punct.char == '-' || punct.char == '=');
    }
    Err(ParseFailure::Fault)
}
