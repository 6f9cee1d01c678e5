// Splicing: texts with some of their parts replaced.
use mbe_rewriter::splice::{Replacement, splice};
use std::alloc::{AllocError, Global};
use test_rows::{number, rows};

// Parses a replacement of a row, as `0 2 x`: its start and its end, and the new text.
fn replacement(alloc: Global, part: &str) -> Result<Replacement, AllocError> {
    let (start, rest) = part.split_once(' ').unwrap_or((part, ""));
    let (end, text) = rest.split_once(' ').unwrap_or((rest, ""));
    Ok(Replacement {
        file: 0,
        start: number(start),
        end: number(end),
        text: String::from_str(alloc, text)?,
    })
}

/// Whether a text of nine bytes is spliced to `want`.
pub fn is_spliced(alloc: Global, parts: &str, want: &str) -> Result<bool, AllocError> {
    let mut replacements = Vec::new(alloc);
    for part in parts.lines() {
        replacements.push(replacement(alloc, part)?)?;
    }
    Ok(splice(alloc, "a! b! é!", &replacements)?.as_str() == want)
}

// Each row: the replacements, and the spliced text. The replacements of the last rows are skipped.
// One goes back, one starts after its end, one is beyond the text, and two cut the `é`.
pub const ROWS: &str = rows![
    ("", "a! b! é!"),
    ("0 2 x", "x b! é!"),
    ("0 2 x y\n3 5 ", "x y  é!"),
    ("6 9 c\n9 9 ;", "a! b! c;"),
    ("3 5 c\n0 2 d", "a! c é!"),
    ("5 3 c\n6 8 e", "a! b! e!"),
    ("3 10 c", "a! b! é!"),
    ("7 9 c", "a! b! é!"),
    ("0 2 x\n6 7 c", "x b! é!"),
];
