// Keeps the operators of different texts apart.
//
// A template that has `:$t` joins its `:` to the `$`. If `$t` is `::a`, three `:` follow each other
// in the expansion. They are still `:` and `::`, as in rustc, which keeps tokens apart. So a punct
// remains joint to the next one only if the two are adjacent in one text.
ghost use Rattle.std.specs.Prelude.{◌≡◌, ◌<◌, length, IfOk, OnOk};
ghost use Rattle.mbe_tt.specs.Buffers.GroupStack.{put};
ghost use Rattle.mbe_tt.specs.Trees.Tree.{front_punct};
ghost use Rattle.mbe_tt.specs.Views.LeafViews.{leaf_of};
ghost use Rattle.mbe_tt.specs.Views.View.{trees};
ghost use Rattle.mbe_rewriter.specs.PunctSpacing as spec;

use mbe_tt::span::Span;
use mbe_tt::tt::{
    Delimiter, Leaf, Punct, Spacing, TokenTreesView, TopSubtree, TopSubtreeBuilder, TtElement,
    TtIter,
};
use std::alloc::{AllocError, Allocator};

// The maximum depth of groups. Deeper groups are copied unchanged.
const LEVELS: u32 = 1000;

// Returns whether two tokens are adjacent in one file, or come from one token.
fn are_adjacent(last: Span, next: Span) -> bool
    ensures { result ≡ spec.are_adjacent last next }
{
    last.file == next.file
        && (last.end == next.start || last.start == next.start && last.end == next.end)
}

// Returns the punct at the front.
fn front_punct<A: Allocator>(rest: &TtIter<'_, A>) -> Option<Punct>
    ensures { result ≡ front_punct rest.now }
{
    match rest.peek() {
        Some(TtElement::Leaf(Leaf::Punct(punct))) => Some(*punct),
        _ => None,
    }
}

// Returns the punct, with the spacing `Alone` if a punct follows that isn't adjacent to it.
fn spaced_punct(punct: Punct, next: Option<Punct>) -> Punct
    ensures { result ≡ spec.spaced_punct punct next }
{
    match next {
        Some(next) if !are_adjacent(punct.span, next.span) => Punct {
            spacing: Spacing::Alone,
            ..punct
        },
        _ => punct,
    }
}

// Returns the leaf as it is before `rest`.
fn spaced_leaf<A: Allocator>(leaf: &Leaf<A>, rest: &TtIter<'_, A>) -> Result<Leaf<A>, AllocError>
    ensures { IfOk result (λ l. leaf_of l ≡ spec.spaced_leaf (leaf_of leaf.now) rest.now) }
{
    match leaf {
        Leaf::Punct(punct) => Ok(Leaf::Punct(spaced_punct(*punct, front_punct(rest)))),
        Leaf::Ident(_) | Leaf::Literal(_) => leaf.clone(),
    }
}

// Writes the trees, at most `levels` groups deep.
fn write_spaced<A: Allocator + Copy>(
    builder: &mut TopSubtreeBuilder<A>,
    tokens: TokenTreesView<'_, A>,
    levels: u32,
) -> Result<(), AllocError>
    requires { 0 < length builder.old }
    ensures { OnOk result
        (builder.new ≡ put (spec.spaced_in levels (trees tokens.entry)) builder.old) }
{
    if levels == 0 {
        return builder.extend_with_tt(tokens);
    }
    let mut rest = tokens.iter();
    'trees: while let Some(tree) = rest.next() {
        match tree {
            TtElement::Leaf(leaf) => builder.push(spaced_leaf(leaf, &rest)?)?,
            TtElement::Subtree(group, inside) => {
                builder.open(group.delimiter.kind, group.delimiter.opening)?;
                write_spaced(builder, inside.remaining(), levels - 1)?;
                builder.close(group.delimiter.close);
            }
        }
    }
    Ok(())
}

/// Builds a buffer of these trees in a group of `delimiter`. A punct that is joint to the next one
/// of its text gets the spacing `Alone` before any other punct. So tokens of two macros, or of a
/// template and an argument, never form one operator, as in rustc. Returns `AllocError` if memory
/// runs out.
pub fn spaced_buffer<A: Allocator + Copy>(
    alloc: A,
    delimiter: Delimiter,
    tokens: TokenTreesView<'_, A>,
) -> Result<TopSubtree<A>, AllocError>
    ensures { IfOk result (λ tree. tree ≡ (delimiter, spec.spaced (trees tokens.entry))) }
{
    let mut builder = TopSubtreeBuilder::new(alloc, delimiter)?;
    write_spaced(&mut builder, tokens, LEVELS)?;
    Ok(builder.build())
}
