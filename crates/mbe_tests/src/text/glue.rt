// Operators: puncts that are read together.
use crate::text::prefixes::trees;
use std::alloc::{AllocError, Global};
use test_rows::rows;

// Every operator of two and three chars; then texts of which fewer puncts, or none, are read
// together.
pub const OPERATORS: &str = rows![
    ("...", 3),
    ("..=", 3),
    ("<<=", 3),
    (">>=", 3),
    ("-=", 2),
    ("!=", 2),
    ("*=", 2),
    ("/=", 2),
    ("&=", 2),
    ("%=", 2),
    ("^=", 2),
    ("+=", 2),
    ("<=", 2),
    ("==", 2),
    (">=", 2),
    ("|=", 2),
    ("->", 2),
    ("=>", 2),
    (">>", 2),
    ("<-", 2),
    ("::", 2),
    ("..", 2),
    ("&&", 2),
    ("<<", 2),
    ("||", 2),
    ("..+", 2),
    ("===", 2),
    ("<<<", 2),
    ("&&=", 2),
    ("....", 3),
    (";;", 1),
    (";+", 1),
    ("-<", 1),
    ("+.=", 1),
    (". ..", 1),
    ("a", ""),
];

/// Whether that many puncts of the text are read together. A field that is no number means none.
pub fn is_operator(alloc: Global, text: &str, taken: &str) -> Result<bool, AllocError> {
    let tree = trees(alloc, text)?;
    let found = match tree.iter().expect_glued_punct() {
        Ok(puncts) => Some(puncts.len()),
        Err(()) => None,
    };
    Ok(found == taken.parse::<usize>().ok())
}
