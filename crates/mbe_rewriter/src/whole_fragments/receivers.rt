// Keeps operands and statements of templates whole.
//
// In rustc, `$x.pow(2)` calls `pow` on all of `$x`, and `&$p` refers to all of `$p`. The expander
// writes `-2` and `1 | 2` without parentheses, and the texts `-2.pow(2)` and `&1 | 2` mean
// something else. So a template has each such variable in a group of its own. After a rule has been
// expanded, that group becomes parentheses where they are needed. Elsewhere it is removed.
//
// In `$s - 1`, the statement `$s` ends before the `-`. So a template has each statement in a group
// of its own too. After the expansion the group is removed, and a `;` is written where the
// statement needs one.
ghost use Rattle.std.specs.Prelude.{◌≡◌, ◌<◌, IfOk, OnOk, length};
ghost use Rattle.mbe_tt.specs.Buffers.GroupStack.{put};
ghost use Rattle.mbe_tt.specs.Views.Element.{element_tree};
ghost use Rattle.mbe_tt.specs.Views.LeafViews.{leaf_of};
ghost use Rattle.mbe_tt.specs.Views.View.{trees};
ghost use Rattle.mbe_rewriter.specs.WholeFragments.Receivers as spec;

use crate::whole_fragments::builtin_calls::{close, open};
use crate::whole_fragments::front_tokens::{
    after_first, copy_of, is_char, is_char_leaf, is_single_dot, is_word,
};
use mbe_tt::span::Span;
use mbe_tt::tt::{
    Delimiter, DelimiterKind, Leaf, Punct, Spacing, TokenTreesView, TopSubtree, TopSubtreeBuilder,
    TtElement,
};
use std::alloc::{AllocError, Allocator};

// The maximum depth of groups. Deeper groups are copied unchanged.
const LEVELS: u32 = 1000;

// The surroundings of trees.
#[derive(Clone, Copy, Drop)]
pub(crate) enum Surroundings {
    // Statements may be here: braces, or no group.
    Statements,
    // The argument of a macro call, and every group in it.
    Argument,
    Other,
}

// The tokens before a tree.
#[derive(Clone, Copy, Drop)]
pub(crate) enum TreePrefix {
    // `&`, `@` or `|`, perhaps with a lifetime, `mut` or `const` after it. The next tree is its
    // operand.
    Sign,
    // The `'` of a lifetime after such a sign, as in `&'a`.
    Quote,
    // A `!`, perhaps with a name after it. The next group is the argument of a macro call.
    Bang,
    Other,
}

// The tokens that are searched for among trees.
#[derive(Clone, Copy, Drop)]
pub(crate) enum Search {
    // A `|`, a `+` or a `..` with an end. A sign before the trees would apply to a part of them.
    Split,
    // A `;` at the end.
    LastSemicolon,
}

// ---- negative literals

fn is_literal<A: Allocator>(leaf: &Leaf<A>) -> bool
    ensures { result ≡ spec.is_literal (leaf_of leaf.now) }
{
    match leaf {
        Leaf::Literal(_) => true,
        Leaf::Ident(_) | Leaf::Punct(_) => false,
    }
}

fn is_one_literal<A: Allocator>(tokens: TokenTreesView<'_, A>) -> bool
    ensures { result ≡ spec.is_one_literal (trees tokens.entry) }
{
    let mut iter = tokens.iter();
    match iter.next() {
        Some(TtElement::Leaf(leaf)) => is_literal(leaf) && iter.is_empty(),
        Some(TtElement::Subtree(..)) | None => false,
    }
}

// Returns whether the trees are a `-` and a literal.
pub(crate) fn is_negative<A: Allocator>(tokens: TokenTreesView<'_, A>) -> bool
    ensures { result ≡ spec.is_negative (trees tokens.entry) }
{
    is_char('-', tokens) && is_one_literal(after_first(tokens))
}

// ---- delimiters

/// Returns the parentheses around a fragment. Both have the same span.
pub(crate) fn around_fragment(place: Span) -> Delimiter
    ensures { result ≡ spec.around_fragment place }
{
    Delimiter {
        opening: place,
        close: place,
        kind: DelimiterKind::Parenthesis,
    }
}

/// Returns the parentheses around a possible receiver. The closing one has the empty span at the
/// start of `place`, so no other parentheses are like them.
pub(crate) fn around_receiver(place: Span) -> Delimiter
    ensures { result ≡ spec.around_receiver place }
{
    Delimiter {
        close: Span {
            end: place.start,
            ..place
        },
        ..around_fragment(place)
    }
}

/// Returns the parentheses around a statement. The closing one has the empty span at the end of
/// `place`, so no other parentheses are like them.
pub(crate) fn around_statement(place: Span) -> Delimiter
    ensures { result ≡ spec.around_statement place }
{
    Delimiter {
        close: Span {
            start: place.end,
            ..place
        },
        ..around_fragment(place)
    }
}

// Returns whether a group is a template's own, around a variable.
fn is_around_variable(delimiter: Delimiter) -> bool
    ensures { result ≡ spec.is_around_variable delimiter }
{
    matches!(delimiter.kind, DelimiterKind::Parenthesis)
        && delimiter.close.start == delimiter.close.end
}

fn is_around_statement(delimiter: Delimiter) -> bool
    ensures { result ≡ spec.is_around_statement delimiter }
{
    is_around_variable(delimiter) && delimiter.close.start != delimiter.opening.start
}

// Returns the delimiter that a group has once its content is known.
fn final_delimiter(delimiter: Delimiter) -> Delimiter
    ensures { result ≡ spec.final_delimiter delimiter }
{
    if is_around_variable(delimiter) {
        around_fragment(delimiter.opening)
    } else {
        delimiter
    }
}

// ---- what precedes a tree

fn prefix_after_word(word: &str, prefix: TreePrefix) -> TreePrefix
    ensures { result ≡ spec.prefix_after_word word.now prefix }
{
    match prefix {
        TreePrefix::Bang => TreePrefix::Bang,
        TreePrefix::Quote => TreePrefix::Sign,
        TreePrefix::Sign | TreePrefix::Other => {
            if word == "mut" || word == "const" {
                TreePrefix::Sign
            } else {
                TreePrefix::Other
            }
        }
    }
}

fn is_sign(prefix: TreePrefix) -> bool
    ensures { result ≡ spec.is_sign prefix }
{
    matches!(prefix, TreePrefix::Sign)
}

fn prefix_after_char(char: char, prefix: TreePrefix) -> TreePrefix
    ensures { result ≡ spec.prefix_after_char char prefix }
{
    if char == '\'' && is_sign(prefix) {
        TreePrefix::Quote
    } else if char == '!' {
        TreePrefix::Bang
    } else if char == '&' || char == '@' || char == '|' || char == '*' {
        TreePrefix::Sign
    } else {
        TreePrefix::Other
    }
}

pub(crate) fn prefix_after<A: Allocator>(leaf: &Leaf<A>, prefix: TreePrefix) -> TreePrefix
    ensures { result ≡ spec.prefix_after (leaf_of leaf.now) prefix }
{
    match leaf {
        Leaf::Ident(ident) => prefix_after_word(ident.sym.as_str(), prefix),
        Leaf::Punct(punct) => prefix_after_char(punct.char, prefix),
        Leaf::Literal(_) => TreePrefix::Other,
    }
}

// Returns what surrounds the trees of a group.
pub(crate) fn surroundings_in(
    surroundings: Surroundings,
    prefix: TreePrefix,
    kind: DelimiterKind,
) -> Surroundings
    ensures { result ≡ spec.surroundings_in surroundings prefix kind }
{
    match (surroundings, prefix, kind) {
        (Surroundings::Argument, _, _) | (_, TreePrefix::Bang, _) => Surroundings::Argument,
        (_, _, DelimiterKind::Brace) => Surroundings::Statements,
        _ => Surroundings::Other,
    }
}

// ---- what a group needs

// Returns whether a `.` and another tree are at the front. The pattern `..` is no range.
fn begins_range_end<A: Allocator>(tokens: TokenTreesView<'_, A>) -> bool
    ensures { result ≡ spec.begins_range_end (trees tokens.entry) }
{
    is_char('.', tokens) && !has_no_tree(after_first(tokens))
}

// Returns whether a leaf before `rest` is what is searched for.
fn is_found_leaf<A: Allocator>(search: Search, leaf: &Leaf<A>, rest: TokenTreesView<'_, A>) -> bool
    ensures { result ≡ spec.is_found_leaf search (leaf_of leaf.now) (trees rest.entry) }
{
    match search {
        Search::Split => {
            is_char_leaf('|', leaf)
                || is_char_leaf('+', leaf)
                || (is_char_leaf('.', leaf) && begins_range_end(rest))
        }
        Search::LastSemicolon => is_char_leaf(';', leaf) && has_no_tree(rest),
    }
}

pub(crate) fn has_no_tree<A: Allocator>(tokens: TokenTreesView<'_, A>) -> bool
    ensures { result ≡ spec.has_no_tree (trees tokens.entry) }
{
    tokens.iter().next().is_none()
}

fn is_found<A: Allocator>(
    search: Search,
    tree: TtElement<'_, A>,
    rest: TokenTreesView<'_, A>,
) -> bool
    ensures { result ≡ spec.is_found search (element_tree tree.entry) (trees rest.entry) }
{
    match tree {
        TtElement::Leaf(leaf) => is_found_leaf(search, leaf, rest),
        TtElement::Subtree(..) => false,
    }
}

// Returns whether what is searched for is among the trees.
pub(crate) fn has<A: Allocator>(search: Search, tokens: TokenTreesView<'_, A>) -> bool
    ensures { result ≡ spec.has search (trees tokens.entry) }
{
    let mut rest = tokens.iter();
    'trees: while let Some(tree) = rest.next() {
        if is_found(search, tree, rest.remaining()) {
            return true;
        }
    }
    false
}

// Returns whether a sign before the trees would apply to a part of them.
pub(crate) fn is_split<A: Allocator>(prefix: TreePrefix, tokens: TokenTreesView<'_, A>) -> bool
    ensures { result ≡ spec.is_split prefix (trees tokens.entry) }
{
    match prefix {
        TreePrefix::Sign => is_word("mut", tokens) || has(Search::Split, tokens),
        TreePrefix::Quote | TreePrefix::Bang | TreePrefix::Other => false,
    }
}

// Returns whether a group is written without its delimiter, between `prefix` and `rest`.
fn is_unwrapped<A: Allocator>(
    prefix: TreePrefix,
    delimiter: Delimiter,
    inside: TokenTreesView<'_, A>,
    rest: TokenTreesView<'_, A>,
) -> bool
    ensures { result
        ≡ spec.is_unwrapped prefix delimiter (trees inside.entry) (trees rest.entry) }
{
    is_around_statement(delimiter)
        || (is_around_variable(delimiter)
            && !(is_negative(inside) && is_single_dot(rest))
            && !is_split(prefix, inside))
}

// Returns whether statements may be in those surroundings.
pub(crate) fn may_hold_statements(surroundings: Surroundings) -> bool
    ensures { result ≡ spec.may_hold_statements surroundings }
{
    matches!(surroundings, Surroundings::Statements)
}

// Returns whether a group is a statement that needs a `;` before `rest`. A `let` always needs one.
// Any other statement does where something follows.
fn needs_semicolon<A: Allocator>(
    surroundings: Surroundings,
    delimiter: Delimiter,
    inside: TokenTreesView<'_, A>,
    rest: TokenTreesView<'_, A>,
) -> bool
    ensures { result ≡ spec.needs_semicolon surroundings delimiter (trees inside.entry)
        (trees rest.entry) }
{
    is_around_statement(delimiter)
        && may_hold_statements(surroundings)
        && !is_char(';', rest)
        && !has(Search::LastSemicolon, inside)
        && (is_word("let", inside) || !has_no_tree(rest))
}

fn semicolon_leaf<A: Allocator>(span: Span) -> Leaf<A>
    ensures { leaf_of result ≡ spec.semicolon_leaf span }
{
    Leaf::Punct(Punct {
        char: ';',
        spacing: Spacing::Alone,
        span,
    })
}

// Writes a `;`, if one is needed.
pub(crate) fn write_semicolon<A: Allocator>(
    builder: &mut TopSubtreeBuilder<A>,
    is_needed: bool,
    span: Span,
) -> Result<(), AllocError>
    requires { 0 < length builder.old }
    ensures { OnOk result (builder.new ≡ put (spec.semicolon_if is_needed span) builder.old) }
{
    if is_needed {
        builder.push(semicolon_leaf(span))
    } else {
        Ok(())
    }
}

// ---- the trees

// Writes the trees, at most `levels` groups deep.
fn write_receivers<A: Allocator>(
    builder: &mut TopSubtreeBuilder<A>,
    surroundings: Surroundings,
    tokens: TokenTreesView<'_, A>,
    levels: u32,
) -> Result<(), AllocError>
    requires { 0 < length builder.old }
    ensures { OnOk result (builder.new
        ≡ put (spec.parenthesize_receivers_in levels surroundings (trees tokens.entry))
        builder.old) }
{
    if levels == 0 {
        return builder.extend_with_tt(tokens);
    }
    let mut rest = tokens.iter();
    let mut prefix = TreePrefix::Other;
    'trees: while let Some(tree) = rest.next() {
        match tree {
            TtElement::Leaf(leaf) => {
                builder.push(copy_of(leaf)?)?;
                prefix = prefix_after(leaf, prefix);
            }
            TtElement::Subtree(group, inside) => {
                let (d, inside) = (group.delimiter, inside.remaining());
                let is_bare = is_unwrapped(prefix, d, inside, rest.remaining());
                let is_needed = needs_semicolon(surroundings, d, inside, rest.remaining());
                let within = surroundings_in(surroundings, prefix, d.kind);
                let delimiter = final_delimiter(d);
                open(builder, delimiter, is_bare)?;
                write_receivers(builder, within, inside, levels - 1)?;
                write_semicolon(builder, is_needed, d.opening)?;
                close(builder, delimiter, is_bare);
                prefix = TreePrefix::Other;
            }
        }
    }
    Ok(())
}

/// Returns the trees of an expansion without the groups around variables. A negative literal before
/// a `.` gets parentheses instead. So does a pattern or a type of which a sign would apply to a
/// part only. A statement gets a `;` if it needs one. Returns `AllocError` if memory runs out.
pub fn parenthesize_receivers<A: Allocator + Copy>(
    alloc: A,
    tree: &TopSubtree<A>,
) -> Result<TopSubtree<A>, AllocError>
    ensures { IfOk result (λ t. t ≡ spec.parenthesize_receivers tree.now) }
{
    let mut builder = TopSubtreeBuilder::new(alloc, tree.top_subtree().delimiter)?;
    let tokens = tree.iter().remaining();
    write_receivers(&mut builder, Surroundings::Statements, tokens, LEVELS)?;
    Ok(builder.build())
}
