// Names the token of a call that no rule expected, in rustc's words.
//
// For `m!(a [b c])` where matching stops at `c`, the offset is 3: `a`, `[` and `b` are before it.
// `token_at` goes past `a`, enters the brackets, goes past `b`, and returns the brackets and the
// trees from `c` on. The message is "no rules expected `c`".
ghost use Rattle.std.specs.Prelude.{◌≡◌, IfOk, None, option_map};
ghost use Rattle.std.specs.String.{string_bytes};
ghost use Rattle.mbe_tt.specs.Views.View.{trees};
ghost use Rattle.mbe_tt.specs.Views.Element.{element_tree};
ghost use Rattle.mbe_tt.specs.Views.LeafViews.{ident_of};
ghost use Rattle.mbe_diagnostics.specs.Mismatch as spec;

use crate::rule_part::{opening_of, puncts_quoted};
use mbe_tt::tt::{Delimiter, DelimiterKind, Ident, Leaf, TokenTreesView, TtElement, TtIter};
use std::alloc::{AllocError, Allocator};

/// Returns the innermost group around an offset, and the trees from there to the end of that group.
/// The offset is the number of flat tokens of these trees before it. The group is `None` outside
/// all groups.
pub fn token_at<'t, A: Allocator>(
    tokens: TokenTreesView<'t, A>,
    offset: usize,
) -> (Option<Delimiter>, TtIter<'t, A>)
    ensures around { result.0 ≡ (spec.token_at None (trees tokens.entry) offset).around }
    ensures rest { result.1 ≡ (spec.token_at None (trees tokens.entry) offset).rest }
{
    let mut rest = tokens.iter();
    let mut around = None;
    let mut left = offset;
    'trees: while left != 0 {
        let Some(tree) = rest.next() else {
            return (around, rest);
        };
        left -= 1;
        let TtElement::Subtree(group, inside) = tree else {
            continue;
        };
        let within = inside.remaining().flat_len();
        if left <= within {
            around = Some(group.delimiter);
            rest = inside;
        } else {
            left -= within + 1;
        }
    }
    (around, rest)
}

fn closing_of(kind: DelimiterKind) -> &'static str
    ensures { result.now ≡ spec.closing kind }
{
    match kind {
        DelimiterKind::Parenthesis => "`)`",
        DelimiterKind::Brace => "`}`",
        DelimiterKind::Bracket => "`]`",
        DelimiterKind::Invisible => "the end of an invisible group",
    }
}

// Returns a tree that isn't a punct, as its first token in backquotes.
fn tree_text<A: Allocator>(
    alloc: A,
    tree: Option<TtElement<'_, A>>,
) -> Result<String<A>, AllocError>
    ensures { IfOk result (λ text. string_bytes text
        ≡ spec.front_text_by None None (option_map element_tree tree.entry)) }
{
    match tree {
        Some(TtElement::Leaf(Leaf::Ident(ident))) => format!(in alloc; "`{ident}`"),
        Some(TtElement::Leaf(Leaf::Literal(literal))) => format!(in alloc; "`{literal}`"),
        Some(TtElement::Subtree(group, _)) => {
            String::from_str(alloc, opening_of(group.delimiter.kind))
        }
        Some(TtElement::Leaf(Leaf::Punct(_))) | None => Ok(String::new(alloc)),
    }
}

// Returns the name of the lifetime at the front, if there is one.
fn lifetime<'t, A: Allocator>(tokens: TtIter<'t, A>) -> Option<&'t Ident<A>>
    ensures { option_map (λ i. ident_of i.now) result ≡ spec.lifetime_name tokens.entry }
{
    let mut ahead = tokens;
    let Some(TtElement::Leaf(Leaf::Punct(quote))) = ahead.next() else {
        return None;
    };
    if quote.char != '\'' {
        return None;
    }
    ahead.expect_ident().ok()
}

// Returns the token at the front in backquotes. A lifetime, and the puncts of an operator, are one
// token.
fn front_text<A: Allocator + Copy>(alloc: A, tokens: TtIter<'_, A>) -> Result<String<A>, AllocError>
    ensures { IfOk result (λ text. string_bytes text ≡ spec.front_text tokens.entry) }
{
    if let Some(name) = lifetime(tokens.fork()) {
        return format!(in alloc; "`'{name}`");
    }
    let tree = tokens.peek();
    let mut ahead = tokens.fork();
    match ahead.expect_glued_punct() {
        Ok(puncts) => puncts_quoted(alloc, puncts.as_slice()),
        Err(()) => tree_text(alloc, tree),
    }
}

// Returns the message for the end of this group, or of the call.
fn end_text<A: Allocator>(alloc: A, around: Option<Delimiter>) -> Result<String<A>, AllocError>
    ensures { IfOk result (λ text. string_bytes text ≡ spec.end_text around) }
{
    match around {
        None => String::from_str(alloc, "unexpected end of macro invocation"),
        Some(group) => {
            let token = closing_of(group.kind);
            format!(in alloc; "no rules expected {token}")
        }
    }
}

/// Returns rustc's message for the token at an offset of an argument, which no rule expected there.
/// The offset is a number of flat tokens. `AllocError` if out of memory.
pub fn mismatch_message<A: Allocator + Copy>(
    alloc: A,
    tokens: TokenTreesView<'_, A>,
    offset: usize,
) -> Result<String<A>, AllocError>
    ensures { IfOk result (λ text. string_bytes text
        ≡ spec.mismatch_text (spec.token_at None (trees tokens.entry) offset)) }
{
    let (around, rest) = token_at(tokens, offset);
    if rest.peek().is_none() {
        return end_text(alloc, around);
    }
    let token = front_text(alloc, rest)?;
    format!(in alloc; "no rules expected {token}")
}
