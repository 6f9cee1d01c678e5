// Writes fragments into the expansion (as in rust-analyzer).
//
// An expression is one operand, whatever the template has around it. `$e * 2` with `1 + 2` has to
// be `(1 + 2) * 2`. So an expression gets parentheses, unless it is one leaf, one group in
// brackets, or `-` with a literal.
//
// A path may be written where an expression is expected. There `Vec<u8>` would compare `Vec` with
// `u8`. So `::` is written before each `<` that follows a name: `Vec::<u8>` is a path in
// expressions and in types.
//
// A fragment of kind `tt`, `ident`, `lifetime` or `literal` loses one invisible group around it.
// Such a group comes from an earlier expansion, and nobody typed it.
ghost use Rattle.std.specs.Prelude.{◌≡◌, ◌<◌, length, Some, None, OnOk, IsTrue, IfSome};
ghost use Rattle.mbe_tt.specs.Buffers.GroupStack.{put};
ghost use Rattle.mbe_tt.specs.Trees.Leaf.{punct as punct_leaf, ident as ident_leaf};
ghost use Rattle.mbe_tt.specs.Views.LeafViews.{leaf_of};
ghost use Rattle.mbe_tt.specs.Trees.Tree.{alone, none};
ghost use Rattle.mbe_tt.specs.declared.tt.IdentIsRaw.TheVariants.{No};
ghost use Rattle.mbe_tt.specs.Views.View.{trees};
ghost use Rattle.mbe_semantics.specs.Laws.Callbacks.{MayMark};
ghost use Rattle.mbe_semantics.specs.Bindings.Missing.{default_trees};
ghost use Rattle.mbe_semantics.specs.Syntax.Op.{Name};
ghost use Rattle.mbe_semantics.specs.Transcription.Substitution.{unbound_variable};
ghost use Rattle.mbe_log.specs.FragmentViews.{fragment_seen, origin_style};
ghost use Rattle.mbe_variables.specs.FragmentWriter.{Appends, plain_fragment};
ghost use Rattle.mbe_semantics.specs.Transcription.FragmentTrees as spec;
ghost use Rattle.mbe_semantics.specs.Transcription.FragmentTrees.{IsFragmentOutput, path_trees};

use crate::whole_fragment::write_whole;
use mbe_log::fragment::{Fragment, TokensOrigin};
use mbe_semantics::fragment_kinds::{MetaVarKind, Missing};
use mbe_tt::span::Span;
use mbe_tt::symbol::Symbol;
use mbe_tt::tt::{
    DelimiterKind, Ident, IdentIsRaw, Leaf, Punct, Spacing, TokenTreesView, TopSubtreeBuilder,
    TtElement, TtIter,
};
use std::alloc::{AllocError, Allocator};

/// Returns the span that the marker gives for this span.
pub fn mark<M: Fn(Span) -> Span + Copy>(span: Span, marker: M) -> Span
    requires { MayMark (M.pre marker) }
    ensures { M.post marker span result }
{
    marker(span)
}

/// Writes the fragment of a variable that has the span `id` in the template.
pub fn write_fragment<A: Allocator, M: Fn(Span) -> Span + Copy>(
    fragment: &Fragment<'_, A>,
    id: Span,
    marker: M,
    call_site: Span,
    builder: &mut TopSubtreeBuilder<A>,
) -> Result<(), AllocError>
    requires marks { MayMark (M.pre marker) }
    requires some_group { 0 < length builder.old }
    ensures open_groups { OnOk result (length builder.new ≡ length builder.old) }
    ensures written { OnOk result (Appends
        (IsFragmentOutput (M.post marker) call_site (fragment_seen fragment.now).style id
        (fragment_seen fragment.now).trees) builder.old builder.new) }
{
    match fragment {
        Fragment::Empty => Ok(()),
        Fragment::Tokens { tree, origin } => {
            builder.extend_with_tt_alone(written_tokens(*tree, *origin))
        }
        Fragment::Expr(tree) => write_expression(*tree, id, marker, builder),
        Fragment::Path(tree) => write_path(*tree, call_site, builder),
        Fragment::TokensOwned(tree) => builder.extend_with_tt_alone(tree.view()),
        Fragment::Whole { tree, kind } => write_whole(*kind, *tree, id, builder),
    }
}

// Returns the trees to write. Only the spacing of a last punct may still change.
fn written_tokens<'a, A: Allocator>(
    tree: TokenTreesView<'a, A>,
    origin: TokensOrigin,
) -> TokenTreesView<'a, A>
    ensures { alone (trees result) ≡ plain_fragment (origin_style origin) (trees tree.entry) }
{
    match origin {
        TokensOrigin::Raw => tree.strip_invisible(),
        TokensOrigin::Ast => tree,
    }
}

// Writes an expression, in parentheses if it needs them.
fn write_expression<A: Allocator, M: Fn(Span) -> Span + Copy>(
    tree: TokenTreesView<'_, A>,
    id: Span,
    marker: M,
    builder: &mut TopSubtreeBuilder<A>,
) -> Result<(), AllocError>
    requires marks { MayMark (M.pre marker) }
    requires some_group { 0 < length builder.old }
    ensures open_groups { OnOk result (length builder.new ≡ length builder.old) }
    ensures written { OnOk result (Appends
        (spec.IsExpressionOutput (M.post marker) id (trees tree.entry)) builder.old builder.new) }
{
    let tree = tree.strip_invisible();
    if !needs_parentheses(tree) {
        return builder.extend_with_tt_alone(tree);
    }
    let span = mark(id, marker);
    builder.open(DelimiterKind::Parenthesis, span)?;
    builder.extend_with_tt_alone(tree)?;
    builder.close(span);
    Ok(())
}

// Returns `false` for one leaf, one visible group, and `-` with a literal. Everything else needs
// parentheses.
fn needs_parentheses<A: Allocator>(tree: TokenTreesView<'_, A>) -> bool
    ensures { result ≡ spec.needs_parentheses (trees tree.entry) }
{
    let mut iter = tree.iter();
    let first = iter.next();
    let second = iter.next();
    let ended = iter.is_empty();
    match (first, second) {
        (Some(TtElement::Leaf(_)), None) => false,
        (Some(TtElement::Subtree(subtree, _)), None) => {
            subtree.delimiter.kind == DelimiterKind::Invisible
        }
        (Some(TtElement::Leaf(Leaf::Punct(sign))), Some(TtElement::Leaf(Leaf::Literal(_)))) => {
            !ended || sign.char != '-'
        }
        _ => true,
    }
}

// Writes a path, with `::` before each `<` that follows an identifier.
fn write_path<A: Allocator>(
    tree: TokenTreesView<'_, A>,
    call_site: Span,
    builder: &mut TopSubtreeBuilder<A>,
) -> Result<(), AllocError>
    ensures open_groups { OnOk result (length builder.new ≡ length builder.old) }
    ensures written { OnOk result
        (builder.new ≡ put (path_trees call_site (trees tree.entry)) builder.old) }
{
    let mut iter = tree.iter();
    'trees: while let Some(tree) = iter.next_as_view() {
        builder.extend_with_tt(tree)?;
        if is_ident(tree) && is_before_less(&iter) {
            write_double_colon(call_site, builder)?;
        }
    }
    Ok(())
}

// Returns whether the trees are one identifier.
fn is_ident<A: Allocator>(tree: TokenTreesView<'_, A>) -> bool
    ensures { result ≡ spec.is_ident (trees tree.entry) }
{
    let mut iter = tree.iter();
    matches!(iter.next(), Some(TtElement::Leaf(Leaf::Ident(_)))) && iter.is_empty()
}

fn is_before_less<A: Allocator>(iter: &TtIter<'_, A>) -> bool
    ensures { result ≡ spec.is_before_less iter.now }
{
    matches!(iter.peek(), Some(TtElement::Leaf(Leaf::Punct(punct))) if punct.char == '<')
}

fn write_double_colon<A: Allocator>(
    span: Span,
    builder: &mut TopSubtreeBuilder<A>,
) -> Result<(), AllocError>
    ensures { OnOk result (builder.new ≡ put (spec.double_colon span none) builder.old) }
{
    builder.push(punct(':', Spacing::Joint, span))?;
    builder.push(punct(':', Spacing::Alone, span))
}

/// Writes the default of a missing variable of this kind.
pub fn write_default<A: Allocator + Copy>(
    alloc: A,
    kind: MetaVarKind,
    span: Span,
    builder: &mut TopSubtreeBuilder<A>,
) -> Result<(), AllocError>
    requires { 0 < length builder.old }
    ensures { OnOk result (builder.new ≡ put (default_trees kind span) builder.old) }
{
    match kind.missing() {
        Missing::Nothing => Ok(()),
        Missing::Semicolon => builder.push(punct(';', Spacing::Alone, span)),
        Missing::Braces => {
            builder.open(DelimiterKind::Brace, span)?;
            builder.close(span);
            Ok(())
        }
        Missing::Lifetime => {
            builder.push(punct('\'', Spacing::Joint, span))?;
            builder.push(name(Symbol::intern(alloc, "missing")?, span))
        }
        Missing::Identifier => builder.push(name(Symbol::intern(alloc, "missing")?, span)),
    }
}

/// Writes `$` and the name, as they are in the template.
pub fn write_unbound<A: Allocator>(
    unbound: &Symbol<A>,
    id: Span,
    builder: &mut TopSubtreeBuilder<A>,
) -> Result<(), AllocError>
    ensures { OnOk result (builder.new ≡ put (unbound_variable unbound.now id) builder.old) }
{
    builder.push(punct('$', Spacing::Alone, id))?;
    builder.push(name(unbound.clone()?, id))
}

fn punct<A: Allocator>(char: char, spacing: Spacing, span: Span) -> Leaf<A>
    ensures { leaf_of result ≡ punct_leaf (record { char = char; spacing = spacing; span = span }) }
{
    Leaf::Punct(Punct {
        char,
        spacing,
        span,
    })
}

// Makes an identifier that isn't raw.
fn name<A: Allocator>(sym: Symbol<A>, span: Span) -> Leaf<A>
    ensures { leaf_of result ≡ ident_leaf (record { sym = sym; is_raw = No; span = span }) }
{
    Leaf::Ident(Ident {
        sym,
        is_raw: IdentIsRaw::No,
        span,
    })
}
