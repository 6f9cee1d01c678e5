// Tests on the first trees, and copies of leaves.
ghost use Rattle.std.specs.Prelude.{◌≡◌, IfOk};
ghost use Rattle.mbe_tt.specs.Trees.Tree.{rest_of};
ghost use Rattle.mbe_tt.specs.Views.LeafViews.{leaf_of};
ghost use Rattle.mbe_tt.specs.Views.View.{trees};
ghost use Rattle.mbe_rewriter.specs.WholeFragments.FrontTokens as spec;

use mbe_tt::tt::{Leaf, TokenTreesView, TtElement};
use std::alloc::{AllocError, Allocator};

pub(crate) fn is_char_leaf<A: Allocator>(char: char, leaf: &Leaf<A>) -> bool
    ensures { result ≡ spec.is_char_leaf char (leaf_of leaf.now) }
{
    match leaf {
        Leaf::Punct(punct) => punct.char == char,
        Leaf::Ident(_) | Leaf::Literal(_) => false,
    }
}

pub(crate) fn is_char<A: Allocator>(char: char, tokens: TokenTreesView<'_, A>) -> bool
    ensures { result ≡ spec.is_char char (trees tokens.entry) }
{
    match tokens.iter().next() {
        Some(TtElement::Leaf(leaf)) => is_char_leaf(char, leaf),
        Some(TtElement::Subtree(..)) | None => false,
    }
}

fn is_word_leaf<A: Allocator>(word: &str, leaf: &Leaf<A>) -> bool
    ensures { result ≡ spec.is_word_leaf word.now (leaf_of leaf.now) }
{
    match leaf {
        Leaf::Ident(ident) => ident.sym.as_str() == word,
        Leaf::Punct(_) | Leaf::Literal(_) => false,
    }
}

pub(crate) fn is_word<A: Allocator>(word: &str, tokens: TokenTreesView<'_, A>) -> bool
    ensures { result ≡ spec.is_word word.now (trees tokens.entry) }
{
    match tokens.iter().next() {
        Some(TtElement::Leaf(leaf)) => is_word_leaf(word, leaf),
        Some(TtElement::Subtree(..)) | None => false,
    }
}

// Returns the trees after the first one.
pub(crate) fn after_first<A: Allocator>(tokens: TokenTreesView<'_, A>) -> TokenTreesView<'_, A>
    ensures { trees result ≡ rest_of (trees tokens.entry) }
{
    let mut iter = tokens.iter();
    let _first = iter.next();
    iter.remaining()
}

// Returns whether a `.` is at the front that doesn't begin `..`, `...` or `..=`.
pub(crate) fn is_single_dot<A: Allocator>(tokens: TokenTreesView<'_, A>) -> bool
    ensures { result ≡ spec.is_single_dot (trees tokens.entry) }
{
    is_char('.', tokens) && !is_char('.', after_first(tokens))
}

pub(crate) fn copy_of<A: Allocator>(leaf: &Leaf<A>) -> Result<Leaf<A>, AllocError>
    ensures { IfOk result (λ l. leaf_of l ≡ leaf_of leaf.now) }
{
    leaf.clone()
}
