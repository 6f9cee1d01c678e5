// Replaces `$crate` in the trees of an external crate by `::` and the crate's name.
//
// The definitions of the crate `parts`, for example, may write `$crate::f()`. In another crate that
// is `::parts::f()`.
ghost use Rattle.std.specs.Prelude.{◌≡◌, ◌<◌, length, IfOk, OnOk};
ghost use Rattle.mbe_session.specs.DollarCrate as spec;
ghost use Rattle.mbe_tt.specs.Buffers.GroupStack.{put};
ghost use Rattle.mbe_tt.specs.Trees.Leaf.{span_of};
ghost use Rattle.mbe_tt.specs.Views.LeafViews.{leaf_of};
ghost use Rattle.mbe_tt.specs.Views.View.{trees};

use mbe_tt::span::Span;
use mbe_tt::symbol::Symbol;
use mbe_tt::tt::{
    Ident, IdentIsRaw, Leaf, Punct, Spacing, TokenTreesView, TopSubtree, TopSubtreeBuilder,
    TtElement, TtIter,
};
use std::alloc::{AllocError, Global};

// The depth of nested groups that are searched. Groups below are unchanged.
const LEVELS: u32 = 1000;

fn is_dollar(leaf: &Leaf) -> bool
    ensures { result ≡ spec.is_dollar (leaf_of leaf.now) }
{
    match leaf {
        Leaf::Punct(punct) => punct.char == '$',
        Leaf::Ident(_) | Leaf::Literal(_) => false,
    }
}

fn is_crate(leaf: &Leaf) -> bool
    ensures { result ≡ spec.is_crate (leaf_of leaf.now) }
{
    match leaf {
        Leaf::Ident(ident) => ident.sym.as_str() == "crate",
        Leaf::Punct(_) | Leaf::Literal(_) => false,
    }
}

// Whether `crate` is at the front.
fn begins_crate(rest: &TtIter<'_>) -> bool
    ensures { result ≡ spec.begins_crate rest.now }
{
    match rest.peek() {
        Some(TtElement::Leaf(leaf)) => is_crate(leaf),
        Some(TtElement::Subtree(..)) | None => false,
    }
}

// Whether `$crate` is at the front.
fn begins_dollar_crate(rest: &TtIter<'_>) -> bool
    ensures { result ≡ spec.begins_dollar_crate rest.now }
{
    let mut after = rest.remaining().iter();
    match after.next() {
        Some(TtElement::Leaf(leaf)) => is_dollar(leaf) && begins_crate(&after),
        Some(TtElement::Subtree(..)) | None => false,
    }
}

fn span_of(leaf: &Leaf) -> Span
    ensures { result ≡ span_of (leaf_of leaf.now) }
{
    match leaf {
        Leaf::Ident(ident) => ident.span,
        Leaf::Punct(punct) => punct.span,
        Leaf::Literal(literal) => literal.span,
    }
}

fn colon(at: Span, spacing: Spacing) -> Leaf
    ensures { leaf_of result ≡ spec.colon at spacing }
{
    Leaf::Punct(Punct {
        char: ':',
        spacing,
        span: at,
    })
}

// Returns the leaf. A punct gets spacing `Alone`, so that the `::` after it doesn't join it.
fn alone(leaf: &Leaf) -> Result<Leaf, AllocError>
    ensures { IfOk result (λ l. leaf_of l ≡ spec.alone (leaf_of leaf.now)) }
{
    match leaf {
        Leaf::Punct(punct) => Ok(Leaf::Punct(Punct {
            spacing: Spacing::Alone,
            ..*punct
        })),
        Leaf::Ident(_) | Leaf::Literal(_) => leaf.clone(),
    }
}

// Returns the crate's name as an identifier at that span.
fn crate_name_at(alloc: Global, name: &str, at: Span) -> Result<Leaf, AllocError>
    ensures { IfOk result (λ l. leaf_of l ≡ spec.crate_name_at name.now at) }
{
    Ok(Leaf::Ident(Ident {
        sym: Symbol::intern(alloc, name)?,
        is_raw: IdentIsRaw::No,
        span: at,
    }))
}

// Writes a `::` at that span.
fn push_colons(builder: &mut TopSubtreeBuilder, at: Span) -> Result<(), AllocError>
    ensures { OnOk result (builder.new ≡ put (spec.colons at) builder.old) }
{
    builder.push(colon(at, Spacing::Joint))?;
    builder.push(colon(at, Spacing::Alone))
}

// Writes a leaf, with the replacement for `$crate` if the leaf is a part of one. `after` says
// whether a `$` precedes the leaf; `rest` is what follows it.
fn write_leaf(
    alloc: Global,
    builder: &mut TopSubtreeBuilder,
    name: &str,
    after: bool,
    leaf: &Leaf,
    rest: &TtIter<'_>,
) -> Result<(), AllocError>
    requires some { 0 < length builder.old }
    ensures { OnOk result (builder.new
        ≡ put (spec.replaced_leaf name.now after (leaf_of leaf.now) rest.now) builder.old) }
{
    let at = span_of(leaf);
    if after && is_crate(leaf) {
        builder.push(crate_name_at(alloc, name, at)?)
    } else if is_dollar(leaf) && begins_crate(rest) {
        push_colons(builder, at)
    } else if begins_dollar_crate(rest) {
        builder.push(alone(leaf)?)
    } else {
        builder.push(leaf.clone()?)
    }
}

// Writes the trees with `$crate` replaced, down to `levels` nested groups.
fn write_replaced(
    alloc: Global,
    builder: &mut TopSubtreeBuilder,
    name: &str,
    tokens: TokenTreesView<'_>,
    levels: u32,
) -> Result<(), AllocError>
    requires some { 0 < length builder.old }
    ensures { OnOk result (builder.new
        ≡ put (spec.replaced_in levels name.now (trees tokens.entry)) builder.old) }
{
    if levels == 0 {
        return builder.extend_with_tt(tokens);
    }
    let mut after = false;
    let mut rest = tokens.iter();
    'trees: while let Some(tree) = rest.next() {
        match tree {
            TtElement::Leaf(leaf) => {
                write_leaf(alloc, builder, name, after, leaf, &rest)?;
                after = is_dollar(leaf);
            }
            TtElement::Subtree(group, inside) => {
                builder.open(group.delimiter.kind, group.delimiter.opening)?;
                write_replaced(alloc, builder, name, inside.remaining(), levels - 1)?;
                builder.close(group.delimiter.close);
                after = false;
            }
        }
    }
    Ok(())
}

/// Returns the trees of the crate `name` with `::name` for each `$crate`. `AllocError` if out of
/// memory.
pub fn replace_dollar_crate(
    alloc: Global,
    name: &str,
    tree: &TopSubtree,
) -> Result<TopSubtree, AllocError>
    ensures { IfOk result (λ t. t ≡ spec.replace_dollar_crate name.now tree.now) }
{
    let mut builder = TopSubtreeBuilder::new(alloc, tree.top_subtree().delimiter)?;
    write_replaced(alloc, &mut builder, name, tree.iter().remaining(), LEVELS)?;
    Ok(builder.build())
}
