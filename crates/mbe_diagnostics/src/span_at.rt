// Finds the span of the token at an offset of an argument.
ghost use Rattle.std.specs.Prelude.{◌≡◌};
ghost use Rattle.mbe_tt.specs.Views.View.{trees};
ghost use Rattle.mbe_diagnostics.specs.SpanAt.{span_at};

use mbe_tt::span::Span;
use mbe_tt::tt::{TokenTreesView, TtElement};
use std::alloc::Allocator;

/// Returns the span of the token at an offset, which is the number of flat tokens of these trees
/// before it. If a group ends at the offset, this is the span of its closing delimiter. `close` is
/// the span of the closing delimiter after the trees, which ends the argument.
pub fn span_at<A: Allocator>(tokens: TokenTreesView<'_, A>, close: Span, offset: usize) -> Span
    ensures { result ≡ span_at close (trees tokens.entry) offset }
{
    let mut iter = tokens.iter();
    let mut close = close;
    let mut left = offset;
    'trees: while let Some(tree) = iter.next() {
        if left == 0 {
            return tree.first_span();
        }
        left -= 1;
        let TtElement::Subtree(group, inside) = tree else {
            continue;
        };
        let within = inside.remaining().flat_len();
        if left <= within {
            close = group.delimiter.close;
            iter = inside;
        } else {
            left -= within + 1;
        }
    }
    close
}
