// Tokens as the rows of tables write them.
use mbe_tt::span::{Span, SyntaxContext};
use mbe_tt::symbol::Symbol;
use mbe_tt::tt::{DelimiterKind, Ident, IdentIsRaw, Leaf, LitKind, Literal, Punct, Spacing};
use std::alloc::{AllocError, Global};

/// Returns the kind of a group by its opening. A group without one is invisible.
pub fn kind(opening: &str) -> DelimiterKind {
    match opening.chars().next() {
        Some('(') => DelimiterKind::Parenthesis,
        Some('[') => DelimiterKind::Bracket,
        Some('{') => DelimiterKind::Brace,
        _ => DelimiterKind::Invisible,
    }
}

// Returns how many bytes of an integer are its suffix.
fn suffix_len(sort: &str) -> u8 {
    let len = sort.strip_prefix("suffixed").unwrap_or("");
    len.parse::<u8>().unwrap_or(0)
}

/// Returns a number of a row.
pub fn byte(field: &str) -> u32 {
    field.parse::<u32>().unwrap_or(u32::MAX)
}

/// Returns the span of these bytes of a file.
pub fn at(file: u32, start: u32, end: u32) -> Span {
    Span {
        file,
        ast: 0,
        start,
        end,
        ctx: SyntaxContext(0),
    }
}

/// Parses a token of a row: its sort and its text, its file, after a `:` the number of its context,
/// its start and its end.
pub fn token(row: &str) -> Option<(&str, &str, Span)> {
    let (row, end) = row.rsplit_once(' ')?;
    let (row, start) = row.rsplit_once(' ')?;
    let (row, file) = row.rsplit_once(' ')?;
    let (sort, text) = row.split_once(' ')?;
    let (file, number) = file.split_once(':').unwrap_or((file, "0"));
    let span = Span {
        ctx: SyntaxContext(byte(number)),
        ..at(byte(file), byte(start), byte(end))
    };
    Some((sort, text, span))
}

fn punct(text: &str, spacing: Spacing, span: Span) -> Leaf {
    Leaf::Punct(Punct {
        char: text.chars().next().unwrap_or(' '),
        spacing,
        span,
    })
}

/// Returns the leaf of a token by the first letter of its sort: `word`, `raw`, `alone`, `joint`,
/// `number`, or `suffixed2` with a suffix of two bytes.
pub fn leaf(alloc: Global, sort: &str, text: &str, span: Span) -> Result<Leaf, AllocError> {
    let sym = Symbol::intern(alloc, text)?;
    Ok(match sort.chars().next() {
        Some('w') => Leaf::Ident(Ident {
            sym,
            is_raw: IdentIsRaw::No,
            span,
        }),
        Some('r') => Leaf::Ident(Ident {
            sym,
            is_raw: IdentIsRaw::Yes,
            span,
        }),
        Some('a') => punct(text, Spacing::Alone, span),
        Some('j') => punct(text, Spacing::Joint, span),
        _ => Leaf::Literal(Literal {
            text_and_suffix: sym,
            suffix_len: suffix_len(sort),
            kind: LitKind::Integer,
            span,
        }),
    })
}
