// Deep trees. They are built, walked, copied, compared and dropped without deep recursion.
use crate::text::prefixes::trees;
use mbe_tt::tt::TopSubtree;
use std::alloc::{AllocError, Global};
use test_rows::{expand_repeats, number, rows};

// Each row: a text of nested groups, and its number of flat tokens with the two of the outer group.
pub const NESTED: &str = rows![
    ("«10000 (»«10000 )»", 20_002),
    ("«10000 [»a«10000 ]»", 20_003)
];

// Counts the flat tokens that a cursor visits before its end.
fn walked(tree: &TopSubtree) -> usize {
    let mut cursor = tree.view().cursor();
    for place in 0..1_000_000 {
        if cursor.is_root() && cursor.token_tree().is_none() {
            return place;
        }
        cursor.bump_or_end();
    }
    0
}

// Whether each copy of the trees is equal to them.
fn is_copied(alloc: Global, tree: &TopSubtree) -> Result<bool, AllocError> {
    let whole = tree.view();
    let Some(group) = whole.try_into_subtree() else {
        return Ok(false);
    };
    let delimiter = tree.top_subtree().delimiter;
    let inside = tree.iter().remaining().try_to_buffer(alloc, delimiter)?;
    Ok(tree.try_clone()? == *tree && group.try_to_buffer(alloc)? == *tree && inside == *tree)
}

/// Whether the text has that many flat tokens, a cursor visits them all, and copies of its trees
/// are equal to them.
pub fn is_nested(alloc: Global, text: &str, count: &str) -> Result<bool, AllocError> {
    let tree = trees(alloc, expand_repeats(alloc, text)?.as_str())?;
    let passes = tree.view().flat_len() == number(count) && walked(&tree) == number(count);
    Ok(passes && is_copied(alloc, &tree)? && trees(alloc, "()")? != tree)
}
