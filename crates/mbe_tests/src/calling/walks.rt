// Trees that are read: iterators, views, cursors.
use mbe_tt::span::Span;
use mbe_tt::tt::{
    Ident, Leaf, Literal, SubtreeView, TokenTreesView, TopSubtree, TtElement, TtIter,
};
use std::alloc::{AllocError, Allocator, Global};

/// Reads `name = tree;` and leaves the iterator after it. If something else is there, the iterator
/// is unchanged.
pub fn assignment<'a, A: Allocator>(
    iter: &mut TtIter<'a, A>,
) -> Option<(&'a Ident<A>, TokenTreesView<'a, A>)> {
    let mut ahead = iter.fork();
    let name = ahead.expect_ident().ok()?;
    ahead.expect_char('=').ok()?;
    let value = ahead.next_as_view()?;
    ahead.expect_char(';').ok()?;
    *iter = ahead;
    Some((name, value))
}

/// Each `expect_` call for a word or a literal, on a tree that it fits: `a _ 1 b`.
pub fn expect_words<A: Allocator>(iter: &mut TtIter<'_, A>) -> Result<(), ()> {
    iter.expect_ident()?;
    iter.expect_ident_or_underscore()?;
    iter.expect_literal()?;
    iter.expect_leaf()?;
    Ok(())
}

/// Each `expect_` call for one punct: `+ - $ , !`.
pub fn expect_puncts<A: Allocator>(iter: &mut TtIter<'_, A>) -> Result<(), ()> {
    iter.expect_char('+')?;
    iter.expect_any_char(&['-', '*'])?;
    iter.expect_dollar()?;
    iter.expect_comma()?;
    iter.expect_single_punct()?;
    Ok(())
}

/// An operator and a group, as `<<= (x y)`: how many puncts and how many trees they are.
pub fn expect_several<A: Allocator>(iter: &mut TtIter<'_, A>) -> Result<(usize, usize), ()> {
    let operator = iter.expect_glued_punct()?;
    let (_group, content) = iter.expect_subtree()?;
    Ok((operator.len(), content.remaining().len()))
}

/// Where the next tree begins and where the one after it does; nothing is consumed.
pub fn next_spans<A: Allocator>(iter: &TtIter<'_, A>) -> Option<(Span, Span)> {
    let first = iter.peek()?.first_span();
    let mut ahead = iter.fork();
    let _first = ahead.next();
    Some((first, ahead.next_span()?))
}

/// Consumes the next tree and returns it as a view, as `next_as_view` does.
pub fn view_of_next<'a, A: Allocator>(iter: &mut TtIter<'a, A>) -> Option<TokenTreesView<'a, A>> {
    let savepoint = iter.savepoint();
    let _tree = iter.next()?;
    Some(iter.from_savepoint(savepoint))
}

/// The names among the trees of a group, in order; those in groups inside aren't looked at.
pub fn names<'a>(alloc: Global, group: &'a TopSubtree) -> Result<Vec<&'a str>, AllocError> {
    let mut names = Vec::new(alloc);
    for tree in group.iter() {
        if let TtElement::Leaf(Leaf::Ident(ident)) = tree {
            names.push(ident.sym.as_str())?;
        }
    }
    Ok(names)
}

/// The number of leaves at any depth.
pub fn count_leaves<A: Allocator>(trees: TokenTreesView<'_, A>) -> usize {
    let mut cursor = trees.cursor();
    let mut count = 0usize;
    for _ in 0..trees.flat_len() {
        if let Some(TtElement::Leaf(_)) = cursor.token_tree() {
            count = count.saturating_add(1);
        }
        cursor.bump_or_end();
    }
    count
}

/// Consumes the next tree if it is a leaf, and returns it as a view. Before a group it does
/// nothing. At the end, the view is empty.
pub fn next_leaf<'a, A: Allocator>(iter: &mut TtIter<'a, A>) -> Option<TokenTreesView<'a, A>> {
    let mut cursor = iter.remaining().cursor();
    cursor.bump_or_end();
    if !cursor.is_root() {
        return None;
    }
    iter.flat_advance_to(&cursor);
    Some(cursor.crossed())
}

/// The suffix of a literal, as `u8` in `1u8`.
pub fn suffix<A: Allocator>(literal: &Literal<A>) -> &str {
    let (_text, suffix) = literal.text_and_suffix();
    suffix
}

/// The group that these trees are, with or without an invisible group around it.
pub fn only_group<'a, A: Allocator>(trees: TokenTreesView<'a, A>) -> Option<SubtreeView<'a, A>> {
    trees.strip_invisible().try_into_subtree()
}

pub mod tests {
    use super::{
        assignment, count_leaves, expect_puncts, expect_several, expect_words, names, next_leaf,
        next_spans, only_group, suffix, view_of_next,
    };
    use mbe_text::lexer::lex;
    use mbe_tt::tt::{DelimiterKind, Leaf, TtIter};
    use std::alloc::Global;

    // One assignment is read, of a name and a group of one tree. At the two trees that are left,
    // none is.
    pub fn is_assignment_read(alloc: Global) -> Option<bool> {
        let tree = lex(alloc, "a = (1); b 2", 0).ok()?;
        let mut iter = tree.iter();
        let (name, value) = assignment(&mut iter)?;
        Some(
            name.sym.as_str() == "a"
                && (value.len(), value.flat_len()) == (1, 3)
                && assignment(&mut iter).is_none()
                && iter.remaining().len() == 2,
        )
    }

    pub fn is_each_expected(alloc: Global) -> Option<bool> {
        let tree = lex(alloc, "a _ 1 b + - $ , ! <<= (x y)", 0).ok()?;
        let mut iter = tree.iter();
        Some(
            expect_words(&mut iter).is_ok()
                && expect_puncts(&mut iter).is_ok()
                && expect_several(&mut iter) == Ok((3, 2))
                && iter.is_empty()
                && expect_words(&mut iter).is_err(),
        )
    }

    // The group comes first, then the literal. Neither call consumes what isn't for it.
    fn consumes_the_group(iter: &mut TtIter<'_>) -> Option<bool> {
        let (one, two) = next_spans(iter)?;
        let is_before = (one.start, two.start) == (0, 4) && next_leaf(iter).is_none();
        Some(is_before && view_of_next(iter)?.flat_len() == 3)
    }

    fn is_literal_next(mut iter: TtIter<'_>) -> bool {
        match iter.expect_leaf() {
            Ok(Leaf::Literal(literal)) => suffix(literal) == "u8" && literal.text() == "1",
            _ => false,
        }
    }

    pub fn are_consumed(alloc: Global) -> Option<bool> {
        let tree = lex(alloc, "(a) 1u8 [", 0).ok()?;
        let mut iter = tree.iter();
        let passes = consumes_the_group(&mut iter)? && is_literal_next(iter.fork());
        Some(passes && next_leaf(&mut iter)?.len() == 1 && iter.remaining().len() == 1)
    }

    pub fn are_counted(alloc: Global) -> Option<bool> {
        let tree = lex(alloc, "a (b + c) d", 0).ok()?;
        let are_names = names(alloc, &tree).ok()?.as_slice() == ["a", "d"].as_slice();
        Some(are_names && count_leaves(tree.view()) == 5)
    }

    pub fn is_looked_into(alloc: Global) -> Option<bool> {
        let tree = lex(alloc, "[a b]", 0).ok()?;
        let group = only_group(tree.view())?;
        Some(
            group.top_subtree().delimiter.kind == DelimiterKind::Bracket
                && group.iter().remaining().len() == 2,
        )
    }
}
