// Opens the groups of fragments in an expansion of rustc's dialect, so that it can be written as
// text.
//
// In rustc's dialect, each fragment of an expansion is in an invisible group, which knows the
// fragment's kind. Text has no such groups. If the trees of a group would be parsed differently
// without it, the group becomes parentheses. Else the group is removed.
//
// The rules for this are the rules of `parenthesize_receivers`, and two rules of the expander in
// rust-analyzer's dialect. An expression of several trees gets parentheses. A path gets a `::`
// before its generic arguments.
//
// The argument of a macro call keeps its groups: the macro may pass them on, and matches them
// whole. They are opened when no call is left to expand.
ghost use Rattle.std.specs.Prelude.{◌≡◌, ◌<◌, IfOk, OnOk, length, option_map, false};
ghost use Rattle.mbe_tt.specs.Buffers.GroupStack.{put};
ghost use Rattle.mbe_tt.specs.Trees.Tree.{group, none};
ghost use Rattle.mbe_tt.specs.Views.LeafViews.{leaf_of};
ghost use Rattle.mbe_tt.specs.Views.View.{trees};
ghost use Rattle.mbe_rewriter.specs.WholeFragments.Receivers.{surroundings_in};
ghost use Rattle.mbe_rewriter.specs.WholeFragments.FragmentGroups as spec;

use crate::whole_fragments::builtin_calls::{close, open};
use crate::whole_fragments::front_tokens::{copy_of, is_char, is_single_dot, is_word};
use crate::whole_fragments::operands::{is_macro_call, is_single_operand};
use crate::whole_fragments::receivers::{
    Search, Surroundings, TreePrefix, around_fragment, has, has_no_tree, is_negative, is_split,
    may_hold_statements, prefix_after, surroundings_in, write_semicolon,
};
use mbe_tt::fragment_group::{FragmentGroup, is_fragment_group};
use mbe_tt::span::{Span, SyntaxContext};
use mbe_tt::tt::{
    Delimiter, DelimiterKind, Leaf, Punct, Spacing, TokenTreesView, TopSubtree, TopSubtreeBuilder,
    TtElement,
};
use std::alloc::{AllocError, Allocator};

// The maximum depth of groups. Deeper groups are copied unchanged.
const LEVELS: u32 = 1000;

// Where the groups of fragments are opened.
#[derive(Clone, Copy, Drop)]
pub(crate) enum Opening {
    // Everywhere, except in the arguments of macro calls.
    OutsideArguments,
    Everywhere,
}

// ---- what a group holds

// Returns the content of the only tree, if that is a fragment's group. `None` otherwise.
fn inside_only<'t, A: Allocator>(tokens: TokenTreesView<'t, A>) -> Option<TokenTreesView<'t, A>>
    ensures { option_map trees result ≡ spec.inside_only (trees tokens.entry) }
{
    let mut iter = tokens.iter();
    match iter.next() {
        Some(TtElement::Subtree(group, inside))
            if iter.is_empty() && is_fragment_group(group.delimiter) => { Some(inside.remaining()) }
        _ => None,
    }
}

// Returns the trees without the groups of fragments around all of them.
fn peeled<'t, A: Allocator>(tokens: TokenTreesView<'t, A>) -> TokenTreesView<'t, A>
    ensures { trees result ≡ spec.peeled (trees tokens.entry) }
{
    let mut left = tokens;
    'groups: while let Some(inside) = inside_only(left) {
        left = inside;
    }
    left
}

// Returns whether the trees, before `rest`, are one operand wherever they are. As a statement, a
// macro call would not be an expression.
fn is_bare_operand<A: Allocator>(
    surroundings: Surroundings,
    tokens: TokenTreesView<'_, A>,
    rest: TokenTreesView<'_, A>,
) -> bool
    ensures { result ≡ spec.is_bare_operand surroundings (trees tokens.entry) (trees rest.entry) }
{
    is_single_operand(tokens, rest) && !(may_hold_statements(surroundings) && is_macro_call(tokens))
}

// Returns whether an expression of these trees, before `rest`, needs parentheses.
fn needs_parentheses<A: Allocator>(
    surroundings: Surroundings,
    tokens: TokenTreesView<'_, A>,
    rest: TokenTreesView<'_, A>,
) -> bool
    ensures { result
        ≡ spec.needs_parentheses surroundings (trees tokens.entry) (trees rest.entry) }
{
    let mut iter = tokens.iter();
    match iter.next() {
        Some(_) => {
            !iter.is_empty() && !is_negative(tokens) && !is_bare_operand(surroundings, tokens, rest)
        }
        None => true,
    }
}

// Returns whether a `.` after the trees would apply to the literal of a negative number alone.
fn is_negative_receiver<A: Allocator>(
    tokens: TokenTreesView<'_, A>,
    rest: TokenTreesView<'_, A>,
) -> bool
    ensures { result ≡ spec.is_negative_receiver (trees tokens.entry) (trees rest.entry) }
{
    is_negative(tokens) && is_single_dot(rest)
}

// Returns whether the group of a fragment becomes parentheses. `tokens` are its trees, and `rest`
// are the trees after it.
fn is_parenthesized<A: Allocator>(
    surroundings: Surroundings,
    prefix: TreePrefix,
    delimiter: Delimiter,
    tokens: TokenTreesView<'_, A>,
    rest: TokenTreesView<'_, A>,
) -> bool
    ensures { result ≡ spec.is_parenthesized surroundings prefix delimiter (trees tokens.entry)
        (trees rest.entry) }
{
    if FragmentGroup::Expr.is_around(delimiter) {
        return needs_parentheses(surroundings, tokens, rest);
    }
    if FragmentGroup::LiteralExpr.is_around(delimiter)
        || FragmentGroup::Literal.is_around(delimiter)
    {
        return is_negative_receiver(tokens, rest);
    }
    if FragmentGroup::Path.is_around(delimiter) {
        return is_char('<', rest);
    }
    if FragmentGroup::Ty.is_around(delimiter) {
        return is_char('<', rest) || is_split(prefix, tokens);
    }
    FragmentGroup::Pat.is_around(delimiter) && is_split(prefix, tokens)
}

// Returns whether the group of a fragment is removed, with its content left.
fn is_bare<A: Allocator>(
    surroundings: Surroundings,
    prefix: TreePrefix,
    delimiter: Delimiter,
    tokens: TokenTreesView<'_, A>,
    rest: TokenTreesView<'_, A>,
) -> bool
    ensures { result ≡ spec.is_bare surroundings prefix delimiter (trees tokens.entry)
        (trees rest.entry) }
{
    !is_parenthesized(surroundings, prefix, delimiter, tokens, rest)
}

// Returns whether a statement's group gets a `;` before `rest`. A `let` always does. Any other
// statement does where something follows.
fn needs_semicolon<A: Allocator>(
    surroundings: Surroundings,
    delimiter: Delimiter,
    tokens: TokenTreesView<'_, A>,
    rest: TokenTreesView<'_, A>,
) -> bool
    ensures { result ≡ spec.needs_semicolon surroundings delimiter (trees tokens.entry)
        (trees rest.entry) }
{
    FragmentGroup::Stmt.is_around(delimiter)
        && may_hold_statements(surroundings)
        && !is_char(';', rest)
        && !has(Search::LastSemicolon, tokens)
        && (is_word("let", tokens) || !has_no_tree(rest))
}

// Returns the span without the context of a fragment's group.
fn plain_span(span: Span) -> Span
    ensures { result ≡ spec.plain_span span }
{
    Span {
        ctx: SyntaxContext(0),
        ..span
    }
}

// ---- the trees

fn colon<A: Allocator>(spacing: Spacing, span: Span) -> Leaf<A>
    ensures { leaf_of result ≡ spec.colon spacing span }
{
    Leaf::Punct(Punct {
        char: ':',
        spacing,
        span,
    })
}

// Returns whether a `::` is between a leaf and `rest`. In a path, one is between an identifier and a
// `<`.
fn has_colons<A: Allocator>(is_path: bool, leaf: &Leaf<A>, rest: TokenTreesView<'_, A>) -> bool
    ensures { result ≡ spec.has_colons is_path (leaf_of leaf.now) (trees rest.entry) }
{
    match leaf {
        Leaf::Ident(_) => is_path && is_char('<', rest),
        Leaf::Punct(_) | Leaf::Literal(_) => false,
    }
}

// Writes `::`.
fn write_colons<A: Allocator>(
    builder: &mut TopSubtreeBuilder<A>,
    span: Span,
) -> Result<(), AllocError>
    requires { 0 < length builder.old }
    ensures { OnOk result (builder.new ≡ put (spec.colons span) builder.old) }
{
    builder.push(colon(Spacing::Joint, span))?;
    builder.push(colon(Spacing::Alone, span))?;
    Ok(())
}

// Writes `::`, if that is needed.
fn write_colons_if<A: Allocator>(
    builder: &mut TopSubtreeBuilder<A>,
    is_needed: bool,
    span: Span,
) -> Result<(), AllocError>
    requires { 0 < length builder.old }
    ensures { OnOk result (builder.new ≡ put (spec.colons_if is_needed span) builder.old) }
{
    if is_needed {
        write_colons(builder, span)
    } else {
        Ok(())
    }
}

// Writes a leaf before `rest`.
fn write_leaf<A: Allocator>(
    builder: &mut TopSubtreeBuilder<A>,
    is_path: bool,
    leaf: &Leaf<A>,
    rest: TokenTreesView<'_, A>,
) -> Result<(), AllocError>
    requires { 0 < length builder.old }
    ensures { OnOk result (builder.new
        ≡ put (spec.written_leaf is_path (leaf_of leaf.now) (trees rest.entry)) builder.old) }
{
    let is_needed = has_colons(is_path, leaf, rest);
    builder.push(copy_of(leaf)?)?;
    write_colons_if(builder, is_needed, leaf.span())?;
    Ok(())
}

// Returns whether a group is the argument of a macro call that keeps its groups.
fn is_kept(opening: Opening, prefix: TreePrefix, delimiter: Delimiter) -> bool
    ensures { result ≡ spec.is_kept opening prefix delimiter }
{
    match (opening, prefix) {
        (Opening::OutsideArguments, TreePrefix::Bang) => {
            delimiter.kind != DelimiterKind::Invisible
        }
        _ => false,
    }
}

// The circumstances in which trees are written.
#[derive(Clone, Copy, Drop)]
struct Site {
    opening: Opening,
    surroundings: Surroundings,
    // Whether the trees are a path, which gets a `::` before its generic arguments.
    is_path: bool,
}

// Writes the content of a fragment's group. `inside` is in no other such group.
#[cycle(opening)]
fn write_fragment<A: Allocator>(
    builder: &mut TopSubtreeBuilder<A>,
    site: Site,
    prefix: TreePrefix,
    delimiter: Delimiter,
    inside: TokenTreesView<'_, A>,
    rest: TokenTreesView<'_, A>,
    levels: u32,
) -> Result<(), AllocError>
    requires { 0 < length builder.old }
    ensures { OnOk result (builder.new ≡ put (spec.open_fragment (spec.open_in levels site.opening)
        site.surroundings prefix delimiter (trees inside.entry) (trees rest.entry)) builder.old) }
{
    let span = plain_span(delimiter.opening);
    let around = around_fragment(span);
    let bare = is_bare(site.surroundings, prefix, delimiter, inside, rest);
    let is_needed = needs_semicolon(site.surroundings, delimiter, inside, rest);
    let is_path = FragmentGroup::Path.is_around(delimiter);
    let site_inside = Site { is_path, ..site };
    open(builder, around, bare)?;
    write_opened(builder, site_inside, inside, levels)?;
    write_semicolon(builder, is_needed, span)?;
    close(builder, around, bare);
    Ok(())
}

// Writes a group that isn't a fragment's, with its content unchanged.
fn write_kept<A: Allocator>(
    builder: &mut TopSubtreeBuilder<A>,
    delimiter: Delimiter,
    inside: TokenTreesView<'_, A>,
) -> Result<(), AllocError>
    requires { 0 < length builder.old }
    ensures { OnOk result (builder.new ≡ put (group delimiter (trees inside.entry) none)
        builder.old) }
{
    builder.open(delimiter.kind, delimiter.opening)?;
    builder.extend_with_tt(inside)?;
    builder.close(delimiter.close);
    Ok(())
}

// Writes a group that isn't a fragment's and keeps no groups.
#[cycle(opening)]
fn write_plain<A: Allocator>(
    builder: &mut TopSubtreeBuilder<A>,
    site: Site,
    prefix: TreePrefix,
    delimiter: Delimiter,
    inside: TokenTreesView<'_, A>,
    levels: u32,
) -> Result<(), AllocError>
    requires { 0 < length builder.old }
    ensures { OnOk result (builder.new ≡ put (group delimiter
        (spec.open_in levels site.opening false
        (surroundings_in site.surroundings prefix delimiter.kind) (trees inside.entry)) none)
        builder.old) }
{
    let surroundings = surroundings_in(site.surroundings, prefix, delimiter.kind);
    let site_inside = Site {
        surroundings,
        is_path: false,
        ..site
    };
    builder.open(delimiter.kind, delimiter.opening)?;
    write_opened(builder, site_inside, inside, levels)?;
    builder.close(delimiter.close);
    Ok(())
}

// Writes a group before `rest`.
#[cycle(opening)]
fn write_group<A: Allocator>(
    builder: &mut TopSubtreeBuilder<A>,
    site: Site,
    prefix: TreePrefix,
    delimiter: Delimiter,
    inside: TokenTreesView<'_, A>,
    rest: TokenTreesView<'_, A>,
    levels: u32,
) -> Result<(), AllocError>
    requires { 0 < length builder.old }
    ensures { OnOk result (builder.new ≡ put (spec.open_group (spec.open_in levels site.opening)
        site.opening site.surroundings prefix delimiter (trees inside.entry) (trees rest.entry))
        builder.old) }
{
    if is_fragment_group(delimiter) {
        write_fragment(
            builder,
            site,
            prefix,
            delimiter,
            peeled(inside),
            rest,
            levels,
        )
    } else if is_kept(site.opening, prefix, delimiter) {
        write_kept(builder, delimiter, inside)
    } else {
        write_plain(builder, site, prefix, delimiter, inside, levels)
    }
}

// Writes the trees, at most `levels` groups deep.
#[cycle(opening)]
fn write_opened<A: Allocator>(
    builder: &mut TopSubtreeBuilder<A>,
    site: Site,
    tokens: TokenTreesView<'_, A>,
    levels: u32,
) -> Result<(), AllocError>
    requires { 0 < length builder.old }
    ensures { OnOk result (builder.new ≡ put (spec.open_in levels site.opening site.is_path
        site.surroundings (trees tokens.entry)) builder.old) }
{
    if levels == 0 {
        return builder.extend_with_tt(tokens);
    }
    let mut rest = tokens.iter();
    let mut prefix = TreePrefix::Other;
    'trees: while let Some(tree) = rest.next() {
        let after = rest.remaining();
        match tree {
            TtElement::Leaf(leaf) => {
                write_leaf(builder, site.is_path, leaf, after)?;
                prefix = prefix_after(leaf, prefix);
            }
            TtElement::Subtree(group, inside) => {
                let (d, inside) = (group.delimiter, inside.remaining());
                write_group(builder, site, prefix, d, inside, after, levels - 1)?;
                prefix = TreePrefix::Other;
            }
        }
    }
    Ok(())
}

fn opened<A: Allocator + Copy>(
    alloc: A,
    opening: Opening,
    tree: &TopSubtree<A>,
) -> Result<TopSubtree<A>, AllocError>
    ensures { IfOk result (λ t. t ≡ spec.opened opening tree.now) }
{
    let mut builder = TopSubtreeBuilder::new(alloc, tree.top_subtree().delimiter)?;
    let site = Site {
        opening,
        surroundings: Surroundings::Statements,
        is_path: false,
    };
    write_opened(&mut builder, site, tree.iter().remaining(), LEVELS)?;
    Ok(builder.build())
}

/// Returns the trees of an expansion with the groups of fragments opened, except in the arguments
/// of macro calls. `AllocError` if out of memory.
pub fn open_fragments<A: Allocator + Copy>(
    alloc: A,
    tree: &TopSubtree<A>,
) -> Result<TopSubtree<A>, AllocError>
    ensures { IfOk result (λ t. t ≡ spec.open_fragments tree.now) }
{
    opened(alloc, Opening::OutsideArguments, tree)
}

/// Returns the trees with all groups of fragments opened. `AllocError` if out of memory.
pub fn open_all_fragments<A: Allocator + Copy>(
    alloc: A,
    tree: &TopSubtree<A>,
) -> Result<TopSubtree<A>, AllocError>
    ensures { IfOk result (λ t. t ≡ (tree.now.0, spec.open_all tree.now.1)) }
{
    opened(alloc, Opening::Everywhere, tree)
}
