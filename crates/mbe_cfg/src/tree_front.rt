// Reads the front of trees: a punct, a group of a kind, or an attribute.
ghost use Rattle.std.specs.Prelude.{◌≡◌, option_map};
ghost use Rattle.mbe_tt.specs.Trees.Tree.{is_same_kind};
ghost use Rattle.mbe_tt.specs.Views.Element.{element_tree};
ghost use Rattle.mbe_tt.specs.Views.View.{trees};
ghost use Rattle.mbe_cfg.specs.TreeFront.{start_span, is_empty, after_char, group_at};
ghost use Rattle.mbe_cfg.specs.TreeFront.{attribute_group};
ghost use Rattle.mbe_cfg.specs.TreeFront.{is_comma, after_next_comma};
ghost use Rattle.mbe_cfg.specs.CfgViews.{group_shown};

use mbe_tt::span::Span;
use mbe_tt::tt::{DelimiterKind, Leaf, TokenTreesView, TtElement};
use std::alloc::{Allocator, Global};

/// A group: the span at which it closes, its content, and the trees after it.
#[derive(Drop)]
#[derive_where(Clone, Copy)]
pub struct Group<'t, A: Allocator = Global> {
    pub close: Span,
    pub inside: TokenTreesView<'t, A>,
    pub rest: TokenTreesView<'t, A>,
}

/// Returns the span at which the trees begin. Without trees it is `close`, the end of their group.
pub fn start_span<A: Allocator>(close: Span, tokens: TokenTreesView<'_, A>) -> Span
    ensures { result ≡ start_span close (trees tokens.entry) }
{
    tokens.iter().next_span().unwrap_or(close)
}

/// Returns whether there are no trees.
pub fn is_empty<A: Allocator>(tokens: TokenTreesView<'_, A>) -> bool
    ensures { result ≡ is_empty (trees tokens.entry) }
{
    tokens.iter().next_span().is_none()
}

/// Returns the trees after the punct `char`, if it is at the front.
pub fn after_char<'t, A: Allocator>(
    tokens: TokenTreesView<'t, A>,
    char: char,
) -> Option<TokenTreesView<'t, A>>
    ensures { option_map trees result ≡ after_char char (trees tokens.entry) }
{
    let mut iter = tokens.iter();
    let punct = iter.expect_single_punct().ok()?;
    if punct.char == char {
        Some(iter.remaining())
    } else {
        None
    }
}

fn is_same_kind(one: DelimiterKind, other: DelimiterKind) -> bool
    ensures { result ≡ is_same_kind one other }
{
    matches!(
        (one, other),
        (DelimiterKind::Parenthesis, DelimiterKind::Parenthesis)
            | (DelimiterKind::Brace, DelimiterKind::Brace)
            | (DelimiterKind::Bracket, DelimiterKind::Bracket)
            | (DelimiterKind::Invisible, DelimiterKind::Invisible)
    )
}

/// Returns the group of that kind at the front.
pub fn group_at<'t, A: Allocator>(
    kind: DelimiterKind,
    tokens: TokenTreesView<'t, A>,
) -> Option<Group<'t, A>>
    ensures { option_map group_shown result ≡ group_at kind (trees tokens.entry) }
{
    let mut iter = tokens.iter();
    let (group, inside) = iter.expect_subtree().ok()?;
    if is_same_kind(group.delimiter.kind, kind) {
        Some(Group {
            close: group.delimiter.close,
            inside: inside.remaining(),
            rest: iter.remaining(),
        })
    } else {
        None
    }
}

/// Returns the brackets of the attribute at the front, `#[..]` or `#![..]`.
pub fn attribute_group<'t, A: Allocator>(tokens: TokenTreesView<'t, A>) -> Option<Group<'t, A>>
    ensures { option_map group_shown result ≡ attribute_group (trees tokens.entry) }
{
    let after = after_char(tokens, '#')?;
    group_at(
        DelimiterKind::Bracket,
        after_char(after, '!').unwrap_or(after),
    )
}

// Returns whether a tree is a comma.
fn is_comma<A: Allocator>(tree: &TtElement<'_, A>) -> bool
    ensures { result ≡ is_comma (element_tree tree.now) }
{
    match tree {
        TtElement::Leaf(Leaf::Punct(punct)) => punct.char == ',',
        _ => false,
    }
}

/// Returns the trees after the next comma. There are none if no comma follows.
pub fn after_next_comma<'t, A: Allocator>(tokens: TokenTreesView<'t, A>) -> TokenTreesView<'t, A>
    ensures { trees result ≡ after_next_comma (trees tokens.entry) }
{
    let mut iter = tokens.iter();
    'trees: while let Some(tree) = iter.next() {
        if is_comma(&tree) {
            return iter.remaining();
        }
    }
    iter.remaining()
}
