// Writes fragments of rustc's dialect: each is one invisible group that knows its kind.
ghost use Rattle.std.specs.Prelude.{◌≡◌, ◌<◌, OnOk, length};
ghost use Rattle.mbe_tt.specs.Views.View.{trees};
ghost use Rattle.mbe_tt.specs.Buffers.GroupStack.{put};
ghost use Rattle.mbe_semantics.specs.Transcription.FragmentTrees as spec;

use mbe_semantics::fragment_kinds::MetaVarKind;
use mbe_tt::fragment_group::{FragmentGroup, is_literal_group};
use mbe_tt::span::Span;
use mbe_tt::tt::{TokenTreesView, TopSubtreeBuilder, TtIter};
use std::alloc::{AllocError, Allocator};

// Whether the only remaining tree is a literal, `true` or `false`, or a group of a literal.
fn is_one_literal<A: Allocator>(iter: &TtIter<'_, A>) -> bool
    ensures { result ≡ spec.is_one_literal iter.now }
{
    let mut ahead = iter.fork();
    if ahead.expect_literal().is_ok() {
        return ahead.is_empty();
    }
    let Ok((group, _inside)) = ahead.expect_subtree() else {
        return false;
    };
    if !is_literal_group(group.delimiter) {
        return false;
    }
    ahead.is_empty()
}

// Whether the trees are a literal, with an optional `-` in front.
fn is_signed_literal<A: Allocator>(tree: TokenTreesView<'_, A>) -> bool
    ensures { result ≡ spec.is_signed_literal (trees tree.entry) }
{
    let mut iter = tree.iter();
    let _sign = iter.expect_char('-');
    is_one_literal(&iter)
}

// Returns the group of an expression.
fn expr_group(is_literal: bool) -> FragmentGroup
    ensures { result ≡ spec.expr_group is_literal }
{
    if is_literal {
        FragmentGroup::LiteralExpr
    } else {
        FragmentGroup::Expr
    }
}

// Returns the group of a fragment of the kind.
fn group_for<A: Allocator>(kind: MetaVarKind, tree: TokenTreesView<'_, A>) -> FragmentGroup
    ensures { result ≡ spec.group_for kind (trees tree.entry) }
{
    match kind {
        MetaVarKind::Path => FragmentGroup::Path,
        MetaVarKind::Ty => FragmentGroup::Ty,
        MetaVarKind::Pat | MetaVarKind::PatParam => FragmentGroup::Pat,
        MetaVarKind::Stmt => FragmentGroup::Stmt,
        MetaVarKind::Block => FragmentGroup::Block,
        MetaVarKind::Meta => FragmentGroup::Meta,
        MetaVarKind::Item => FragmentGroup::Item,
        MetaVarKind::Vis => FragmentGroup::Vis,
        MetaVarKind::Expr(_) => expr_group(is_signed_literal(tree)),
        MetaVarKind::Ident | MetaVarKind::Tt | MetaVarKind::Lifetime | MetaVarKind::Literal => {
            FragmentGroup::Literal
        }
    }
}

// Returns the content of the only tree, if that is such a group, and else the trees themselves.
fn inside_group<'a, A: Allocator>(
    group: FragmentGroup,
    tree: TokenTreesView<'a, A>,
) -> TokenTreesView<'a, A>
    ensures { trees result ≡ spec.inside_group group (trees tree.entry) }
{
    let mut iter = tree.iter();
    let Ok((found, inside)) = iter.expect_subtree() else {
        return tree;
    };
    if !iter.is_empty() {
        return tree;
    }
    if !group.is_around(found.delimiter) {
        return tree;
    }
    inside.remaining()
}

/// Writes a fragment of the kind in one invisible group that knows the kind. `id` is the span of
/// the variable in the template.
pub fn write_whole<A: Allocator>(
    kind: MetaVarKind,
    tree: TokenTreesView<'_, A>,
    id: Span,
    builder: &mut TopSubtreeBuilder<A>,
) -> Result<(), AllocError>
    requires { 0 < length builder.old }
    ensures open_groups { OnOk result (length builder.new ≡ length builder.old) }
    ensures written { OnOk result (builder.new ≡ put (spec.whole_fragment
        (spec.group_for kind (trees tree.entry)) id (trees tree.entry)) builder.old) }
{
    let group = group_for(kind, tree);
    let delimiter = group.delimiter(id);
    builder.open(delimiter.kind, delimiter.opening)?;
    builder.extend_with_tt_alone(inside_group(group, tree))?;
    builder.close(delimiter.close);
    Ok(())
}
