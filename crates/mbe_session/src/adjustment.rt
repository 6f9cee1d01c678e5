// Adjusts an expansion to the code around its call. It decides which delimiters surround the
// expansion, whether it gets a `;`, and whether the `;` after the call is removed.
ghost use Rattle.std.specs.Prelude.{◌≡◌, IsTrue, IfOk, IfSome};
ghost use Rattle.mbe_tt.specs.Trees.Tree.{Forest, append, flat_len};
ghost use Rattle.mbe_tt.specs.Views.LeafViews.{leaf_of};
ghost use Rattle.mbe_tt.specs.Views.View.{trees};
ghost use Rattle.mbe_session.specs.Adjustment.{IsTrimmed, IsSemicolon, IsRest, IsWrap};
ghost use Rattle.mbe_session.specs.Adjustment as spec;

mod parentheses;
pub(crate) mod place;

use crate::adjustment::parentheses::{are_items, is_whole, wrap_of};
use crate::adjustment::place::{Place, Preceding, is_operand, is_value_of_block};
use mbe_grammar::tables::peg_table::RuleTable;
use mbe_rewriter::macro_items::MacroCall;
use mbe_tt::grammar::PrefixEntryPoint;
use mbe_tt::span::Span;
use mbe_tt::tt::{DelimiterKind, Leaf, Punct, Spacing, TokenTreesView, TtElement};
use std::alloc::{AllocError, Allocator};

// How an expansion is adjusted to the place of its call.
#[derive(Drop)]
pub(crate) struct Adjustment {
    // The delimiters around the expansion. An expression of several trees beside an operator gets
    // parentheses. Statements get braces where an expression is expected.
    pub(crate) wrap: Option<DelimiterKind>,
    // Whether the expansion gets a `;`. It does if the call has braces, is a statement, and expands
    // to an expression.
    pub(crate) adds_semicolon: bool,
    // Whether the `;` after the call is removed with it. It is if the call expands to items, to
    // nothing, or to something with its own `;`.
    pub(crate) consumes_semicolon: bool,
}

// How a list of trees ends.
#[derive(Drop, PartialEq, Eq)]
enum Ending {
    // There are no trees.
    Empty,
    Semicolon,
    Braces,
    Other,
}

fn end_of<A: Allocator>(tokens: TokenTreesView<'_, A>) -> Ending {
    let mut end = Ending::Empty;
    for tree in tokens.iter() {
        end = match tree {
            TtElement::Leaf(Leaf::Punct(punct)) if punct.char == ';' => Ending::Semicolon,
            TtElement::Subtree(group, _) if group.delimiter.kind == DelimiterKind::Brace => {
                Ending::Braces
            }
            TtElement::Leaf(_) | TtElement::Subtree(..) => Ending::Other,
        };
    }
    end
}

// Whether the only tree is a `;`.
fn is_semicolon<A: Allocator>(tokens: TokenTreesView<'_, A>) -> bool
    ensures { IsTrue result → IsSemicolon (trees tokens.entry) }
{
    let mut iter = tokens.iter();
    iter.expect_char(';').is_ok() && iter.is_empty()
}

// Returns the trees of `tokens` before `rest`.
pub(crate) fn up_to<'t, A: Allocator>(
    tokens: TokenTreesView<'t, A>,
    rest: TokenTreesView<'t, A>,
) -> TokenTreesView<'t, A>
    requires { (kept : Forest) × (trees tokens ≡ append kept (trees rest)) }
    ensures { (kept : Forest) → trees tokens.entry ≡ append kept (trees rest.entry)
        → trees result ≡ kept }
{
    rest.iter().from_savepoint(tokens.iter().savepoint())
}

// Returns the trees from the first one on after which at most as many flat tokens are left as in
// `rest`.
pub(crate) fn from_last<'t, A: Allocator>(
    tokens: TokenTreesView<'t, A>,
    rest: TokenTreesView<'_, A>,
) -> TokenTreesView<'t, A>
    ensures { trees result ≡ spec.from_last (flat_len (trees rest.entry)) (trees tokens.entry) }
{
    let mut iter = tokens.iter();
    'trees: loop {
        let here = iter.remaining();
        if iter.next().is_none() || iter.remaining().flat_len() <= rest.flat_len() {
            return here;
        }
    }
}

// Returns the trees without a `;` at their end.
fn without_semicolon<A: Allocator>(tokens: TokenTreesView<'_, A>) -> TokenTreesView<'_, A>
    ensures { IsTrimmed (trees tokens.entry) (trees result) }
{
    let mut iter = tokens.iter();
    'trees: loop {
        let rest = iter.remaining();
        if is_semicolon(rest) {
            return up_to(tokens, rest);
        }
        if iter.next().is_none() {
            return tokens;
        }
    }
}

// Returns the trees of an expansion that are used. A `;` at their end is dropped where no statement
// begins, as in rustc.
pub(crate) fn trimmed<A: Allocator>(
    tokens: TokenTreesView<'_, A>,
    last: Preceding,
) -> TokenTreesView<'_, A>
    ensures { IsTrimmed (trees tokens.entry) (trees result) }
{
    match last {
        Preceding::Statement => tokens,
        Preceding::Value
        | Preceding::Hash
        | Preceding::Equals
        | Preceding::Comparison
        | Preceding::Less
        | Preceding::As
        | Preceding::Break
        | Preceding::Quote
        | Preceding::Operator
        | Preceding::Other => without_semicolon(tokens),
    }
}

// Returns a `;` with that span.
pub(crate) fn semicolon<A: Allocator>(span: Span) -> Leaf<A>
    ensures { leaf_of result ≡ spec.semicolon span }
{
    Leaf::Punct(Punct {
        char: ';',
        spacing: Spacing::Alone,
        span,
    })
}

// Returns the trees after a call, without a `;` at their front if that is removed with the call.
pub(crate) fn rest_after<A: Allocator>(
    rest: TokenTreesView<'_, A>,
    consumes_semicolon: bool,
) -> TokenTreesView<'_, A>
    ensures { IsRest (trees rest.entry) (trees result) }
{
    if !consumes_semicolon {
        return rest;
    }
    let mut iter = rest.iter();
    match iter.expect_char(';') {
        Ok(()) => iter.remaining(),
        Err(()) => rest,
    }
}

// Whether a call by braces is no statement by itself where a statement may begin. `rest` are the
// trees after it.
fn continues_statement<A: Allocator>(rest: TokenTreesView<'_, A>) -> bool {
    match rest.iter().next() {
        Some(TtElement::Leaf(Leaf::Punct(punct))) => {
            matches!(punct.char, '.' | '?' | ',' | '|' | ';' | ':' | '=')
        }
        Some(_) => false,
        None => true,
    }
}

// Returns the place of the first tree of an expansion. The value of a block is an expression if
// the expansion is one. An operand is no statement, whatever precedes it.
pub(crate) fn place_of_expansion<A: Allocator>(
    grammar: &RuleTable<'_>,
    tokens: TokenTreesView<'_, A>,
    call: MacroCall<'_, A>,
    place: Place,
) -> Result<Place, AllocError> {
    if is_operand(call, place.last) {
        return Ok(place.after(Preceding::Operator));
    }
    if is_value_of_block(call, place)
        && is_whole(grammar, PrefixEntryPoint::Expr, without_semicolon(tokens))?
    {
        return Ok(place.after(Preceding::Value));
    }
    Ok(place.within_expansion())
}

// Returns the delimiters of an expansion whose first tree is at `here`, if its call is at `place`.
// A statement gets none.
fn wrap_unless_statement<A: Allocator + Copy>(
    alloc: A,
    grammar: &RuleTable<'_>,
    tokens: TokenTreesView<'_, A>,
    call: MacroCall<'_, A>,
    place: Place,
    here: Preceding,
) -> Result<Option<DelimiterKind>, AllocError>
    ensures { IfOk result (λ wrap. IfSome wrap IsWrap) }
{
    match here {
        Preceding::Statement => Ok(None),
        Preceding::Value => wrap_of(alloc, grammar, tokens, call, place.after(here)),
        _ => wrap_of(alloc, grammar, tokens, call, place),
    }
}

// Returns how these trees replace a call at `place`, if the first of them is at `here`.
pub(crate) fn adjustment_of<A: Allocator + Copy>(
    alloc: A,
    grammar: &RuleTable<'_>,
    tokens: TokenTreesView<'_, A>,
    call: MacroCall<'_, A>,
    place: Place,
    here: Place,
) -> Result<Adjustment, AllocError>
    ensures { IfOk result (λ adjustment. IfSome adjustment.wrap IsWrap) }
{
    let end = end_of(tokens);
    let close = call.group.delimiter.close;
    let is_statement = here.last == Preceding::Statement;
    let by_braces = call.group.delimiter.kind == DelimiterKind::Brace;
    let is_followed = is_statement && call.rest.iter().expect_char(';').is_ok();
    Ok(Adjustment {
        wrap: wrap_unless_statement(alloc, grammar, tokens, call, place, here.last)?,
        adds_semicolon: is_statement
            && end == Ending::Other
            && by_braces
            && !continues_statement(call.rest),
        consumes_semicolon: is_followed
            && (end == Ending::Semicolon || are_items(alloc, grammar, tokens, close)?),
    })
}
