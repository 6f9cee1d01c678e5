// Literals as they are written. No clause says that their `Display` doesn't fail.
use mbe_tt::span::Span;
use mbe_tt::symbol::Symbol;
use mbe_tt::tt::{LitKind, Literal};
use std::alloc::{AllocError, Global};
use test_rows::rows;

// Each row has, in this order:
//
// 1. A literal's kind, by its letter and the number of its `#`.
// 2. The length of its suffix, and its text.
// 3. The text before the suffix, the suffix, and how the literal is written.
pub const LITERALS: &str = rows![
    ("i", 3, "12u16", "12", "u16", "12u16"),
    ("f", 0, "1.5", "1.5", "", "1.5"),
    ("e", 0, "?", "?", "", "?"),
    ("s", 0, "a", "a", "", "\"a\""),
    ("s", 2, "axy", "a", "xy", "\"a\"xy"),
    ("r0", 0, "a", "a", "", "r\"a\""),
    ("r1", 0, "a", "a", "", "r#\"a\"#"),
    ("c", 1, "xs", "x", "s", "'x's"),
    ("b", 0, "x", "x", "", "b'x'"),
    ("t", 0, "a", "a", "", "b\"a\""),
    ("w2", 1, "ab", "a", "b", "br##\"a\"##b"),
    ("z", 0, "a", "a", "", "c\"a\""),
    ("y1", 0, "a", "a", "", "cr#\"a\"#"),
    // The cut is in the middle of a char, or before the text.
    ("s", 1, "a\u{e9}", "a\u{e9}", "", "\"a\u{e9}\""),
    ("s", 2, "a\u{e9}", "a", "\u{e9}", "\"a\"\u{e9}"),
    ("i", 3, "12", "12", "", "12"),
];

// Returns the number of a row; 255 if there is none.
fn small(row: &str) -> u8 {
    row.parse::<u8>().unwrap_or(u8::MAX)
}

// Returns the kind of a literal by its letter.
//
// - A string is of Rust, of bytes (`t`, raw `w`) or of C (`z`, raw `y`).
// - Other kinds are an integer (`i`), a float, a char, a byte, and a literal with a fault (`e`).
fn kind_of(row: &str) -> LitKind {
    let (letter, hashes) = row.split_at_checked(1).unwrap_or((row, ""));
    match letter {
        "i" => LitKind::Integer,
        "f" => LitKind::Float,
        "s" => LitKind::Str,
        "r" => LitKind::StrRaw(small(hashes)),
        "c" => LitKind::Char,
        "b" => LitKind::Byte,
        "t" => LitKind::ByteStr,
        "w" => LitKind::ByteStrRaw(small(hashes)),
        "z" => LitKind::CStr,
        "y" => LitKind::CStrRaw(small(hashes)),
        _ => LitKind::Err,
    }
}

/// Whether a literal is cut and written so.
pub fn is_written(
    alloc: Global,
    (kind, suffix_len): (&str, &str),
    all: &str,
    (text, suffix, written): (&str, &str, &str),
) -> Result<bool, AllocError> {
    let literal = Literal {
        text_and_suffix: Symbol::intern(alloc, all)?,
        suffix_len: small(suffix_len),
        kind: kind_of(kind),
        span: Span::default(),
    };
    let is_char_boundary = literal.text() == text && literal.text_and_suffix().1 == suffix;
    Ok(is_char_boundary && format!(in alloc; "{literal}")?.as_str() == written)
}
