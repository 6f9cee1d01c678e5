// Trees that are built by calls.
use mbe_tt::span::{DelimSpan, Span};
use mbe_tt::symbol::Symbol;
use mbe_tt::tt::{
    Delimiter, DelimiterKind, Ident, IdentIsRaw, Leaf, Punct, Spacing, TokenTreesView, TopSubtree,
    TopSubtreeBuilder,
};
use std::alloc::{AllocError, Allocator};

/// The leaf of a word.
pub fn word<A: Allocator + Copy>(alloc: A, text: &str, span: Span) -> Result<Leaf<A>, AllocError> {
    let sym = Symbol::intern(alloc, text)?;
    Ok(Leaf::Ident(Ident {
        sym,
        is_raw: IdentIsRaw::No,
        span,
    }))
}

/// The trees `name!(content)`, with that span on all but the content.
pub fn build_call<A: Allocator + Copy>(
    alloc: A,
    name: &str,
    content: TokenTreesView<'_, A>,
    span: Span,
) -> Result<TopSubtree<A>, AllocError> {
    let mut builder = TopSubtreeBuilder::new(alloc, Delimiter::invisible_spanned(span))?;
    builder.push(word(alloc, name, span)?)?;
    builder.push(Leaf::Punct(Punct {
        char: '!',
        spacing: Spacing::Alone,
        span,
    }))?;
    builder.open(DelimiterKind::Parenthesis, span)?;
    builder.extend_with_tt(content)?;
    builder.close(span);
    Ok(builder.build())
}

/// The trees with a word after them; without both, where memory runs out on the way.
pub fn build_both_or_none<A: Allocator + Copy>(
    alloc: A,
    trees: TokenTreesView<'_, A>,
    last: Leaf<A>,
    span: Span,
) -> Result<TopSubtree<A>, AllocError> {
    let mut builder = TopSubtreeBuilder::new(alloc, Delimiter::invisible_spanned(span))?;
    let point = builder.restore_point();
    if builder.extend_with_tt_alone(trees).is_ok() && builder.push(last).is_err() {
        builder.restore(point);
    }
    Ok(builder.build())
}

/// The leaves in one group, which is closed by the kind that it was opened with, and then the
/// buffer's content.
pub fn build_group<A: Allocator + Copy>(
    alloc: A,
    leaves: Vec<Leaf<A>, A>,
    more: &TopSubtree<A>,
    span: Span,
) -> Result<TopSubtree<A>, AllocError> {
    let mut builder = TopSubtreeBuilder::new(alloc, Delimiter::invisible_spanned(span))?;
    builder.open(DelimiterKind::Brace, span)?;
    builder.extend(leaves)?;
    if builder.open_kind() == Some(DelimiterKind::Brace) {
        builder.close(span);
    }
    builder.extend_with_tt(more.view())?;
    builder.remove_last_subtree_if_invisible();
    Ok(builder.build())
}

/// An empty invisible group, as `TopSubtree::empty` makes it of one span for both sides.
pub fn build_nothing<A: Allocator>(alloc: A, span: Span) -> Result<TopSubtree<A>, AllocError> {
    TopSubtree::empty(alloc, DelimSpan::from_single(span))
}

pub mod tests {
    use super::{build_both_or_none, build_call, build_group, build_nothing, word};
    use mbe_text::lexer::lex;
    use mbe_text::tree_dump::print_tree;
    use mbe_tt::span::Span;
    use mbe_tt::tt::{TokenTreesView, TopSubtree};
    use std::alloc::Global;

    // Whether the trees print as `want`.
    fn is_printed(alloc: Global, tree: &TopSubtree, want: &str) -> bool {
        let mut out = Vec::new(alloc);
        print_tree(tree, &mut out).is_ok() && out.as_slice() == want.as_bytes()
    }

    const CALL: &str = "SUBTREE $$ 0@0..0 0@0..0
  IDENT   f 0@0..0
  PUNCH   ! [alone] 0@0..0
  SUBTREE () 0@0..0 0@0..0
    LITERAL Integer 1 1@0..1
    PUNCH   + [joint] 1@2..3
    PUNCH   + [alone] 1@3..4
";

    fn is_call_built(alloc: Global, content: TokenTreesView<'_>) -> Option<bool> {
        let call = build_call(alloc, "f", content, Span::default()).ok()?;
        Some(is_printed(alloc, &call, CALL))
    }

    const BOTH: &str = "SUBTREE $$ 0@0..0 0@0..0
  LITERAL Integer 1 1@0..1
  PUNCH   + [joint] 1@2..3
  PUNCH   + [alone] 1@3..4
  IDENT   g 0@0..0
";

    fn are_both_built(alloc: Global, trees: TokenTreesView<'_>) -> Option<bool> {
        let last = word(alloc, "g", Span::default()).ok()?;
        let both = build_both_or_none(alloc, trees, last, Span::default()).ok()?;
        Some(is_printed(alloc, &both, BOTH))
    }

    pub fn are_built(alloc: Global) -> Option<bool> {
        let argument = lex(alloc, "1 ++", 1).ok()?;
        let content = argument.iter().remaining();
        Some(is_call_built(alloc, content)? && are_both_built(alloc, content)?)
    }

    const GROUP: &str = "SUBTREE $$ 0@0..0 0@0..0
  SUBTREE {} 0@0..0 0@0..0
    IDENT   g 0@0..0
  LITERAL Integer 1 1@0..1
";

    fn group_of_a_word(alloc: Global) -> Option<TopSubtree> {
        let more = lex(alloc, "1", 1).ok()?;
        let mut leaves = Vec::new(alloc);
        leaves.push(word(alloc, "g", Span::default()).ok()?).ok()?;
        build_group(alloc, leaves, &more, Span::default()).ok()
    }

    // Whether it prints so, a copy is equal, and an empty group isn't.
    pub fn is_group_built(alloc: Global) -> Option<bool> {
        let group = group_of_a_word(alloc)?;
        let nothing = build_nothing(alloc, Span::default()).ok()?;
        let passes = is_printed(alloc, &group, GROUP) && nothing.iter().is_empty();
        Some(passes && nothing != group && group.try_clone().ok()? == group)
    }
}
