// Carets under a line. Columns are those of a terminal: two for a wide character, none for a
// combining mark, four for a tab, as rustc prints it.
use mbe_diagnostics::diagnostic::{Diagnostic, FilePart, Level, Point};
use mbe_diagnostics::renderer::rendered;
use std::alloc::{AllocError, Global};
use test_rows::{Fields, RowTest, rows};

// Each row: what the line has before the part, the part, and what follows it; how the line is
// shown; and what is below it.
pub const ROWS: &str = rows![
    ("", "x", "", "x", "^"),
    ("ab ", "=>", " y", "ab => y", "   ^^"),
    ("ab", "", "", "ab", "  ^"),
    ("\u{6f22}\u{5b57} ", "x", "", "\u{6f22}\u{5b57} x", "     ^"),
    ("a ", "\u{6f22}", ")", "a \u{6f22})", "  ^^"),
    ("e\u{301} ", "x", "", "e\u{301} x", "  ^"),
    ("\t\t", "x", "\ty", "        x    y", "        ^"),
    (
        "\"\u{1f44d}\u{1f3fd}\" ",
        "x",
        "",
        "\"\u{1f44d}\u{1f3fd}\" x",
        "     ^",
    ),
];

fn said<'t>(
    number: usize,
    line: &'t str,
    before: &'t str,
    part: &'t str,
    level: Level,
) -> Diagnostic<'t> {
    let point = Point {
        byte: 0,
        line: number,
        column: 3,
    };
    Diagnostic {
        level,
        message: "here",
        code: "",
        is_child: false,
        place: Some(FilePart {
            file: "a.rs",
            start: point,
            end: point,
            line,
            before,
            part,
        }),
    }
}

// The number of the line, and spaces of the same width.
#[derive(Clone, Copy)]
pub struct Carets(pub usize, pub &'static str);

impl RowTest for Carets {
    fn passes(
        &self,
        alloc: Global,
        [before, part, after, line, carets, ..]: Fields,
    ) -> Result<bool, AllocError> {
        let Carets(number, space) = *self;
        let text = format!(in alloc; "{before}{part}{after}")?;
        let said = said(number, text.as_str(), before, part, Level::Note);
        let shown = rendered(alloc, &said, &[], false)?;
        Ok(shown == lines(alloc, number, space, line, carets)?)
    }
}

// Returns the lines of a note at the third column of that line.
fn lines(
    alloc: Global,
    number: usize,
    space: &str,
    line: &str,
    carets: &str,
) -> Result<String, AllocError> {
    format!(in alloc;
        "note: here\n{space}--> a.rs:{number}:3\n{space} |\n{number} | {line}\n\
            {space} | {carets}\n\n"
    )
}

// Each row: the first letter of a level, and how the level begins its line.
pub const LEVELS: &str = rows![
    ("e", "\u{1b}[1;31merror"),
    ("w", "\u{1b}[1;33mwarning"),
    ("n", "\u{1b}[1;32mnote"),
    ("h", "\u{1b}[1;36mhelp"),
];

fn level_of(letter: &str) -> Level {
    match letter.as_bytes().first() {
        Some(b'e') => Level::Error,
        Some(b'w') => Level::Warning,
        Some(b'n') => Level::Note,
        _ => Level::Help,
    }
}

/// Whether the level has its colour.
pub fn is_coloured(alloc: Global, letter: &str, word: &str) -> Result<bool, AllocError> {
    let said = said(1, "x", "", "x", level_of(letter));
    let want = format!(in alloc; "{word}\u{1b}[0m: here\n --> a.rs:1:3\n  |\n1 | x\n  | ^\n\n")?;
    Ok(rendered(alloc, &said, &[], true)?.as_str() == want.as_str())
}
