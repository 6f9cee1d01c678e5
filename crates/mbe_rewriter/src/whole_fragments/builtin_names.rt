// Looks for the names of builtin macros in an expansion.
ghost use Rattle.std.specs.Prelude.{◌≡◌, false};
ghost use Rattle.mbe_tt.specs.Views.Element.{element_tree};
ghost use Rattle.mbe_tt.specs.Views.LeafViews.{leaf_of};
ghost use Rattle.mbe_tt.specs.Views.View.{trees};
ghost use Rattle.mbe_rewriter.specs.WholeFragments.BuiltinNames as spec;
ghost use Rattle.mbe_rewriter.specs.WholeFragments.BuiltinCalls.{expand_builtins};
ghost use Rattle.mbe_rewriter.specs.declared.whole_fragments.builtin_calls.Builtins.{Builtins};

use mbe_tt::tt::{Leaf, TokenTreesView, TopSubtree, TtElement};
use std::alloc::Allocator;

// The maximum depth of groups, as for `expand_builtins`.
const LEVELS: u32 = 1000;

fn is_builtin_name<A: Allocator>(leaf: &Leaf<A>) -> bool
    ensures { result ≡ spec.is_builtin_name (leaf_of leaf.now) }
{
    match leaf {
        Leaf::Ident(ident) => {
            let text = ident.sym.as_str();
            text == "line" || text == "column" || text == "stringify" || text == "concat"
        }
        Leaf::Punct(_) | Leaf::Literal(_) => false,
    }
}

// Returns whether a tree is such a name, or holds one at most `levels` groups deep.
#[cycle(naming)]
fn tree_has_builtin_name<A: Allocator>(tree: TtElement<'_, A>, levels: u32) -> bool
    ensures { result ≡ spec.tree_has_builtin_name (spec.has_builtin_name levels)
        (element_tree tree.entry) }
{
    match tree {
        TtElement::Leaf(leaf) => is_builtin_name(leaf),
        TtElement::Subtree(_, inside) => has_builtin_name(inside.remaining(), levels),
    }
}

// Returns whether such a name is among these trees, at most `levels` groups deep.
#[cycle(naming)]
fn has_builtin_name<A: Allocator>(tokens: TokenTreesView<'_, A>, levels: u32) -> bool
    ensures { result ≡ spec.has_builtin_name levels (trees tokens.entry) }
{
    if levels == 0 {
        return false;
    }
    let mut rest = tokens.iter();
    'trees: while let Some(tree) = rest.next() {
        if tree_has_builtin_name(tree, levels - 1) {
            return true;
        }
    }
    false
}

/// Returns whether `line`, `column`, `stringify` or `concat` is among the trees of an expansion. If
/// none is, `expand_builtins` changes nothing, whichever of these macros are builtin.
pub fn mentions_builtin<A: Allocator>(tree: &TopSubtree<A>) -> bool
    ensures has_builtin_name { result ≡ spec.mentions_builtin tree.now.1 }
    ensures stay { result ≡ false → (b : Builtins) → expand_builtins b tree.now.1 ≡ tree.now.1 }
{
    has_builtin_name(tree.iter().remaining(), LEVELS)
}
