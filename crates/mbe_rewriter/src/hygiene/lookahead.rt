// Lookahead: tests on the trees after a token.
ghost use Rattle.std.specs.Prelude.{◌≡◌, option_map};
ghost use Rattle.mbe_tt.specs.Trees.Tree.{front_punct};
ghost use Rattle.mbe_tt.specs.Views.Element.{element_tree};
ghost use Rattle.mbe_tt.specs.Views.LeafViews.{ident_of, leaf_of};
ghost use Rattle.mbe_tt.specs.Views.View.{trees};
ghost use Rattle.mbe_rewriter.specs.Hygiene.Lookahead as spec;

use crate::hygiene::token_classes::{Sign, WordClass, sign_of, word_class_of};
use mbe_tt::tt::{DelimiterKind, Ident, Leaf, TokenTreesView, TtElement};
use std::alloc::Allocator;

/// Returns the class of the punct at the front.
pub(crate) fn front_sign<A: Allocator>(tokens: TokenTreesView<'_, A>) -> Option<Sign>
    ensures { result ≡ spec.front_sign (trees tokens.entry) }
{
    let punct = tokens.iter().expect_single_punct().ok()?;
    Some(sign_of(punct.char))
}

// Returns the trees after the first one.
fn after_first<'t, A: Allocator>(tokens: TokenTreesView<'t, A>) -> TokenTreesView<'t, A>
    ensures { trees result ≡ spec.after_first (trees tokens.entry) }
{
    let mut iter = tokens.iter();
    let _first = iter.next();
    iter.remaining()
}

/// Returns the class of the second tree, if it is a punct.
pub(crate) fn second_sign<A: Allocator>(tokens: TokenTreesView<'_, A>) -> Option<Sign>
    ensures { result ≡ spec.second_sign (trees tokens.entry) }
{
    front_sign(after_first(tokens))
}

pub(crate) fn is_colon(sign: Option<Sign>) -> bool
    ensures { result ≡ spec.is_colon sign }
{
    matches!(sign, Some(Sign::Colon))
}

pub(crate) fn is_equals(sign: Option<Sign>) -> bool
    ensures { result ≡ spec.is_equals sign }
{
    matches!(sign, Some(Sign::Equals))
}

pub(crate) fn is_angle(sign: Option<Sign>) -> bool
    ensures { result ≡ spec.is_angle sign }
{
    matches!(sign, Some(Sign::Angle))
}

fn is_bang(sign: Option<Sign>) -> bool
    ensures { result ≡ spec.is_bang sign }
{
    matches!(sign, Some(Sign::Bang))
}

fn is_comma(sign: Option<Sign>) -> bool
    ensures { result ≡ spec.is_comma sign }
{
    matches!(sign, Some(Sign::Comma))
}

/// Returns whether a `:` follows that begins no `::`.
pub(crate) fn colon_follows<A: Allocator>(tokens: TokenTreesView<'_, A>) -> bool
    ensures { result ≡ spec.colon_follows (trees tokens.entry) }
{
    is_colon(front_sign(tokens)) && !is_colon(second_sign(tokens))
}

/// Returns whether a `::` follows.
pub(crate) fn path_follows<A: Allocator>(tokens: TokenTreesView<'_, A>) -> bool
    ensures { result ≡ spec.path_follows (trees tokens.entry) }
{
    is_colon(front_sign(tokens)) && is_colon(second_sign(tokens))
}

/// Returns whether a `!` follows that begins no `!=`.
pub(crate) fn bang_follows<A: Allocator>(tokens: TokenTreesView<'_, A>) -> bool
    ensures { result ≡ spec.bang_follows (trees tokens.entry) }
{
    is_bang(front_sign(tokens)) && !is_equals(second_sign(tokens))
}

/// Returns whether a `=` follows that begins no `==` and no `=>`.
pub(crate) fn equals_follows<A: Allocator>(tokens: TokenTreesView<'_, A>) -> bool
    ensures { result ≡ spec.equals_follows (trees tokens.entry) }
{
    is_equals(front_sign(tokens))
        && !is_equals(second_sign(tokens))
        && !is_angle(second_sign(tokens))
}

fn is_empty<A: Allocator>(tokens: TokenTreesView<'_, A>) -> bool
    ensures { result ≡ spec.is_empty (trees tokens.entry) }
{
    tokens.iter().peek().is_none()
}

/// Returns whether a `,` follows, or nothing.
pub(crate) fn comma_or_end_follows<A: Allocator>(tokens: TokenTreesView<'_, A>) -> bool
    ensures { result ≡ spec.comma_or_end_follows (trees tokens.entry) }
{
    is_empty(tokens) || is_comma(front_sign(tokens))
}

// Returns the class of the word at the front.
fn front_word_class<A: Allocator>(tokens: TokenTreesView<'_, A>) -> Option<WordClass>
    ensures { result ≡ spec.front_word_class (trees tokens.entry) }
{
    let ident = tokens.iter().expect_ident_or_underscore().ok()?;
    Some(word_class_of(ident))
}

fn is_name(sort: Option<WordClass>) -> bool
    ensures { result ≡ spec.is_name sort }
{
    matches!(sort, Some(WordClass::Name))
}

/// Returns whether trees in braces begin as the fields of a struct do. Such braces are surely no
/// block, or hold a name alone.
pub(crate) fn begins_fields<A: Allocator>(tokens: TokenTreesView<'_, A>) -> bool
    ensures { result ≡ spec.begins_fields (trees tokens.entry) }
{
    let rest = after_first(tokens);
    is_name(front_word_class(tokens)) && (comma_or_end_follows(rest) || colon_follows(rest))
}

fn ends_pattern(sort: Option<WordClass>) -> bool
    ensures { result ≡ spec.ends_pattern sort }
{
    matches!(sort, Some(WordClass::If | WordClass::In))
}

fn may_follow_binding(sign: Option<Sign>) -> bool
    ensures { result ≡ spec.may_follow_binding sign }
{
    matches!(
        sign,
        Some(Sign::Comma | Sign::Bar | Sign::At | Sign::Semicolon | Sign::Equals)
    )
}

/// Returns whether a pattern can bind a name before these trees.
pub(crate) fn binds_before<A: Allocator>(tokens: TokenTreesView<'_, A>) -> bool
    ensures { result ≡ spec.binds_before (trees tokens.entry) }
{
    is_empty(tokens)
        || may_follow_binding(front_sign(tokens))
        || colon_follows(tokens)
        || ends_pattern(front_word_class(tokens))
}

/// Returns whether a name begins with a lowercase letter or a `_`. Other names may be constants.
pub(crate) fn is_lowercase_name(name: &str) -> bool
    ensures { result ≡ spec.is_lowercase_name name.now }
{
    match name.as_bytes() {
        [] => false,
        [first, ..] => *first == b'_' || b'a' <= *first && *first <= b'z',
    }
}

fn is_in(sort: Option<WordClass>) -> bool
    ensures { result ≡ spec.is_in sort }
{
    matches!(sort, Some(WordClass::In))
}

/// Returns whether an `in` follows.
pub(crate) fn in_follows<A: Allocator>(tokens: TokenTreesView<'_, A>) -> bool
    ensures { result ≡ spec.in_follows (trees tokens.entry) }
{
    is_in(front_word_class(tokens))
}

fn begins_loop(sort: Option<WordClass>) -> bool
    ensures { result ≡ spec.begins_loop sort }
{
    matches!(sort, Some(WordClass::Loop | WordClass::For))
}

fn braces_follow<A: Allocator>(tokens: TokenTreesView<'_, A>) -> bool
    ensures { result ≡ spec.braces_follow (trees tokens.entry) }
{
    match tokens.iter().peek() {
        Some(tree) => is_braces(&tree),
        None => false,
    }
}

fn is_braces<A: Allocator>(tree: &TtElement<'_, A>) -> bool
    ensures { result ≡ spec.is_braces (element_tree tree.now) }
{
    match tree {
        TtElement::Leaf(_) => false,
        TtElement::Subtree(group, _) => matches!(group.delimiter.kind, DelimiterKind::Brace),
    }
}

/// Returns whether a `:` follows, and then a loop or a block.
pub(crate) fn is_label<A: Allocator>(tokens: TokenTreesView<'_, A>) -> bool
    ensures { result ≡ spec.is_label (trees tokens.entry) }
{
    let rest = after_first(tokens);
    colon_follows(tokens) && (begins_loop(front_word_class(rest)) || braces_follow(rest))
}

// Returns whether a punct shows that an arm begins before it, or that none does. Most puncts show
// neither.
fn punct_shows_arm<A: Allocator>(sign: Sign, rest: TokenTreesView<'_, A>) -> Option<bool>
    ensures { result ≡ spec.punct_shows_arm sign (trees rest.entry) }
{
    match sign {
        Sign::Comma | Sign::Semicolon => Some(false),
        Sign::Equals => {
            if is_angle(front_sign(rest)) {
                Some(true)
            } else {
                None
            }
        }
        _ => None,
    }
}

fn shows_arm<A: Allocator>(tree: &TtElement<'_, A>, rest: TokenTreesView<'_, A>) -> Option<bool>
    ensures { result ≡ spec.shows_arm (element_tree tree.now) (trees rest.entry) }
{
    match tree {
        TtElement::Leaf(Leaf::Punct(punct)) => punct_shows_arm(sign_of(punct.char), rest),
        _ => None,
    }
}

/// Returns whether an arm of a `match` begins here: an `=>` comes before any `,` or `;` of the
/// group.
pub(crate) fn begins_arm<A: Allocator>(tokens: TokenTreesView<'_, A>) -> bool
    ensures { result ≡ spec.begins_arm (trees tokens.entry) }
{
    let mut iter = tokens.iter();
    'trees: while let Some(tree) = iter.next() {
        if let Some(answer) = shows_arm(&tree, iter.remaining()) {
            return answer;
        }
    }
    false
}

fn ident_shows_in<A: Allocator>(ident: &Ident<A>) -> Option<bool>
    ensures { result ≡ spec.word_class_shows_in (spec.ident_word_class (ident_of ident.now)) }
{
    match word_class_of(ident) {
        WordClass::In => Some(true),
        _ => None,
    }
}

fn sign_shows_in(sign: Sign) -> Option<bool>
    ensures { result ≡ spec.sign_shows_in sign }
{
    match sign {
        Sign::Semicolon => Some(false),
        _ => None,
    }
}

fn kind_shows_in(kind: DelimiterKind) -> Option<bool>
    ensures { result ≡ spec.kind_shows_in kind }
{
    match kind {
        DelimiterKind::Brace => Some(false),
        _ => None,
    }
}

fn shows_in<A: Allocator>(tree: &TtElement<'_, A>) -> Option<bool>
    ensures { result ≡ spec.shows_in (element_tree tree.now) }
{
    match tree {
        TtElement::Leaf(Leaf::Ident(ident)) => ident_shows_in(ident),
        TtElement::Leaf(Leaf::Punct(punct)) => sign_shows_in(sign_of(punct.char)),
        TtElement::Leaf(Leaf::Literal(_)) => None,
        TtElement::Subtree(group, _) => kind_shows_in(group.delimiter.kind),
    }
}

/// Returns whether an `in` follows, before any `;` or braces of the group.
pub(crate) fn has_in<A: Allocator>(tokens: TokenTreesView<'_, A>) -> bool
    ensures { result ≡ spec.has_in (trees tokens.entry) }
{
    let mut iter = tokens.iter();
    'trees: while let Some(tree) = iter.next() {
        if let Some(answer) = shows_in(&tree) {
            return answer;
        }
    }
    false
}
