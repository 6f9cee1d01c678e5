// Decides whether the text of an expansion needs parentheses or braces in place of its call.
//
// rustc keeps an expansion whole. Its text may be parsed differently:
//
// - An operator beside it takes a part of it.
// - A block at its start ends a statement.
// - A brace in a condition begins the block.
ghost use Rattle.std.specs.Prelude.{IfOk, IfSome};
ghost use Rattle.mbe_session.specs.Adjustment.{IsWrap};

use crate::adjustment::place::{GroupContent, Head, Place, Preceding, is_applied, is_operand};
use mbe::expect_fragment;
use mbe_grammar::tables::peg_table::RuleTable;
use mbe_rewriter::macro_items::{MacroCall, begins_with_operator};
use mbe_rewriter::whole_fragments::operands::is_single_operand;
use mbe_tt::grammar::{FragmentGrammar, PrefixEntryPoint};
use mbe_tt::span::Span;
use mbe_tt::tt::{Delimiter, DelimiterKind, Leaf, Spacing, TokenTreesView, TtElement};
use std::alloc::{AllocError, Allocator};

// Whether the trees are one whole fragment of that kind.
pub(crate) fn is_whole<A: Allocator>(
    grammar: &RuleTable<'_>,
    entry: PrefixEntryPoint,
    tokens: TokenTreesView<'_, A>,
) -> Result<bool, AllocError> {
    let front = grammar.parse(entry, tokens)?;
    Ok(!front.fault && front.count == tokens.flat_len())
}

// Whether the trees are items, or nothing.
pub(crate) fn are_items<A: Allocator + Copy>(
    alloc: A,
    grammar: &RuleTable<'_>,
    tokens: TokenTreesView<'_, A>,
    around: Span,
) -> Result<bool, AllocError> {
    let mut iter = tokens.iter();
    let delim = Delimiter::invisible_spanned(around).delim_span();
    for _ in 0..tokens.flat_len() {
        if iter.is_empty() {
            return Ok(true);
        }
        let item = expect_fragment(alloc, grammar, &mut iter, PrefixEntryPoint::Item, delim)?;
        if item.err.is_some() {
            return Ok(false);
        }
    }
    Ok(iter.is_empty())
}

// ---- the trees of an expansion

// Whether that punct is among the trees.
fn has_char<A: Allocator>(char: char, tokens: TokenTreesView<'_, A>) -> bool {
    for tree in tokens.iter() {
        if let TtElement::Leaf(Leaf::Punct(punct)) = tree
            && punct.char == char
        {
            return true;
        }
    }
    false
}

fn is_brace_group<A: Allocator>(tree: TtElement<'_, A>) -> bool {
    match tree {
        TtElement::Subtree(group, _) => group.delimiter.kind == DelimiterKind::Brace,
        TtElement::Leaf(_) => false,
    }
}

// Whether a group in braces is among the trees.
fn has_braces<A: Allocator>(tokens: TokenTreesView<'_, A>) -> bool {
    for tree in tokens.iter() {
        if is_brace_group(tree) {
            return true;
        }
    }
    false
}

// Whether the trees end in braces.
fn ends_in_braces<A: Allocator>(tokens: TokenTreesView<'_, A>) -> bool {
    let mut is_brace = false;
    for tree in tokens.iter() {
        is_brace = is_brace_group(tree);
    }
    is_brace
}

// Whether the only tree is a group in braces.
fn is_block<A: Allocator>(tokens: TokenTreesView<'_, A>) -> bool {
    tokens.len() == 1 && has_braces(tokens)
}

// Whether a word is among the trees after which an operand may be left out.
fn has_jump<A: Allocator>(tokens: TokenTreesView<'_, A>) -> bool {
    for tree in tokens.iter() {
        if let TtElement::Leaf(Leaf::Ident(ident)) = tree
            && matches!(ident.sym.as_str(), "return" | "break" | "yield")
        {
            return true;
        }
    }
    false
}

// Whether that word is at the front.
fn begins_with_word<A: Allocator>(word: &str, tokens: TokenTreesView<'_, A>) -> bool {
    match tokens.iter().next() {
        Some(TtElement::Leaf(Leaf::Ident(ident))) => ident.sym.as_str() == word,
        Some(TtElement::Leaf(_) | TtElement::Subtree(..)) | None => false,
    }
}

// Whether the trees assign to a single name. `println!` would take that for a named argument.
fn is_assignment<A: Allocator>(tokens: TokenTreesView<'_, A>) -> bool {
    let mut iter = tokens.iter();
    match (iter.next(), iter.next()) {
        (Some(TtElement::Leaf(Leaf::Ident(_))), Some(TtElement::Leaf(Leaf::Punct(punct)))) => {
            punct.char == '=' && punct.spacing == Spacing::Alone
        }
        _ => false,
    }
}

// Whether a macro would not take the trees for an argument as they are: an assignment, or a range
// without a start, which begins no `pat` fragment.
fn is_misread_argument<A: Allocator>(tokens: TokenTreesView<'_, A>) -> bool {
    is_assignment(tokens) || tokens.iter().expect_char('.').is_ok()
}

// ---- what needs parentheses

// Whether one tree needs parentheses.
fn is_one_tree_split<A: Allocator>(
    tokens: TokenTreesView<'_, A>,
    call: MacroCall<'_, A>,
    place: Place,
) -> bool {
    if is_block(tokens) {
        let begins_value = matches!(place.last, Preceding::Statement | Preceding::Value);
        let is_taken_for_body = place.head != Head::None && place.last == Preceding::Operator;
        return is_taken_for_body || (begins_value && is_operand(call, place.last));
    }
    has_jump(tokens)
        && (place.head != Head::None || begins_with_operator(call.rest) || is_applied(call.rest))
}

// Whether a sign that takes one operand is at the front.
fn begins_with_prefix<A: Allocator>(tokens: TokenTreesView<'_, A>) -> bool {
    match tokens.iter().next() {
        Some(TtElement::Leaf(Leaf::Punct(punct))) => { matches!(punct.char, '-' | '!' | '*' | '&') }
        Some(TtElement::Leaf(_) | TtElement::Subtree(..)) | None => false,
    }
}

// Whether a block ends the value of a block or of an arm before its end, as in `{ f }(1)`. After a
// sign, as in `-{ f }(1)`, the grammar doesn't show this, though rustc stops there too.
fn is_value_split<A: Allocator>(
    grammar: &RuleTable<'_>,
    tokens: TokenTreesView<'_, A>,
) -> Result<bool, AllocError> {
    if begins_with_prefix(tokens) && has_braces(tokens) {
        return Ok(true);
    }
    Ok(!is_whole(grammar, PrefixEntryPoint::Stmt, tokens)?)
}

// Whether an expression of several trees needs parentheses.
fn is_expression_split<A: Allocator>(
    grammar: &RuleTable<'_>,
    tokens: TokenTreesView<'_, A>,
    call: MacroCall<'_, A>,
    place: Place,
) -> Result<bool, AllocError> {
    if is_operand(call, place.last) && !is_single_operand(tokens, call.rest) {
        return Ok(true);
    }
    Ok(match place.last {
        Preceding::Value => is_value_split(grammar, tokens)?,
        // A label at the front would become the label of the `break`.
        Preceding::Break if tokens.iter().expect_char('\'').is_ok() => true,
        _ => {
            (place.head != Head::None && (has_braces(tokens) || has_jump(tokens)))
                || (place.content == GroupContent::Arguments && is_misread_argument(tokens))
        }
    })
}

// Whether trees that are no expression are a pattern or a type that needs parentheses as an
// operand: `mut x` and `dyn A + B` after `&`.
fn is_pattern_or_type_split<A: Allocator>(
    grammar: &RuleTable<'_>,
    tokens: TokenTreesView<'_, A>,
    call: MacroCall<'_, A>,
    place: Place,
) -> Result<bool, AllocError> {
    if place.last == Preceding::Less || !is_operand(call, place.last) {
        return Ok(false);
    }
    if is_whole(grammar, PrefixEntryPoint::PatTop, tokens)? {
        return Ok(true);
    }
    Ok(has_char('+', tokens) && is_whole(grammar, PrefixEntryPoint::Ty, tokens)?)
}

// Whether an expression, a pattern or a type needs parentheses in place of a call. No `<` may be
// right after a type, and no `else` after braces. A call in the expansion may expand to braces.
fn is_split<A: Allocator>(
    grammar: &RuleTable<'_>,
    tokens: TokenTreesView<'_, A>,
    call: MacroCall<'_, A>,
    place: Place,
    is_expression: bool,
) -> Result<bool, AllocError> {
    if place.last == Preceding::As && call.rest.iter().expect_char('<').is_ok() {
        return Ok(true);
    }
    if begins_with_word("else", call.rest) && (ends_in_braces(tokens) || has_char('!', tokens)) {
        return Ok(is_expression);
    }
    if tokens.len() <= 1 {
        return Ok(is_one_tree_split(tokens, call, place));
    }
    if is_expression {
        is_expression_split(grammar, tokens, call, place)
    } else {
        is_pattern_or_type_split(grammar, tokens, call, place)
    }
}

// Whether a `.` or a `?` is at the front, and no `..`.
fn begins_with_postfix<A: Allocator>(rest: TokenTreesView<'_, A>) -> bool {
    let mut iter = rest.iter();
    iter.expect_char('?').is_ok()
        || (iter.expect_char('.').is_ok() && iter.expect_char('.').is_err())
}

// Returns the delimiters that keep an expression, a pattern or a type whole after `last`, before
// `rest`. An attribute may be on the value of a block, but not on an expression in parentheses. A
// block at the start of a statement or of a value is all of it, unless a `.` or a `?` follows the
// block.
fn delimiters_around<A: Allocator>(
    tokens: TokenTreesView<'_, A>,
    last: Preceding,
    rest: TokenTreesView<'_, A>,
) -> DelimiterKind
    ensures { IsWrap result }
{
    let begins_statement = matches!(last, Preceding::Statement | Preceding::Value);
    let may_be_block = !begins_statement || begins_with_postfix(rest);
    if may_be_block && tokens.iter().expect_char('#').is_ok() {
        DelimiterKind::Brace
    } else {
        DelimiterKind::Parenthesis
    }
}

// Returns the delimiters that these trees are put in, in place of a call at `place`.
#[tactic(auto, using(crate::proofs::AdjustmentLemmas::wrap_if))]
pub(crate) fn wrap_of<A: Allocator + Copy>(
    alloc: A,
    grammar: &RuleTable<'_>,
    tokens: TokenTreesView<'_, A>,
    call: MacroCall<'_, A>,
    place: Place,
) -> Result<Option<DelimiterKind>, AllocError>
    ensures { IfOk result (λ wrap. IfSome wrap IsWrap) }
{
    let is_expression = is_whole(grammar, PrefixEntryPoint::Expr, tokens)?;
    if is_split(grammar, tokens, call, place, is_expression)? {
        return Ok(Some(delimiters_around(tokens, place.last, call.rest)));
    }
    if is_expression || tokens.len() <= 1 {
        return Ok(None);
    }
    let around = call.group.delimiter.close;
    let are_statements = has_char(';', tokens) || are_items(alloc, grammar, tokens, around)?;
    Ok(are_statements.then_some(DelimiterKind::Brace))
}
