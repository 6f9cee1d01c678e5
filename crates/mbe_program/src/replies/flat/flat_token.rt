// Flat tokens, and what their numbers stand for.
ghost use Rattle.std.specs.Prelude.{◌≡◌, IfSome, IfNone};
ghost use Rattle.mbe_tt.specs.declared.tt.LitKind.{LitKind};
ghost use Rattle.mbe_tt.specs.declared.tt.DelimiterKind.{DelimiterKind};
ghost use Rattle.mbe_tt.specs.declared.tt.Spacing.{Spacing};
ghost use Rattle.mbe_tt.specs.declared.tt.IdentIsRaw.{IdentIsRaw};
ghost use Rattle.mbe_program.specs.Replies.Flat.TokenCodes as spec;

use mbe_tt::span::{Span, SyntaxContext};
use mbe_tt::tt::{DelimiterKind, IdentIsRaw, LitKind, Spacing};

/// `FlatToken::kind` of an identifier.
pub const IDENT: u32 = 1;

/// `FlatToken::kind` of a punct.
pub const PUNCT: u32 = 2;

/// `FlatToken::kind` of a literal.
pub const LITERAL: u32 = 3;

/// `FlatToken::kind` of a group's opening.
pub const OPENING: u32 = 4;

/// `FlatToken::kind` of a group's closing.
pub const CLOSING: u32 = 5;

/// A `Span` in numbers alone.
#[repr(C)]
#[derive(Clone, Copy, Default, Drop)]
pub struct FlatSpan {
    pub file: u32,
    pub ast: u32,
    pub start: u32,
    pub end: u32,
    pub context: u32,
}

/// A leaf, an opening or a closing, in numbers alone.
///
/// `sort` depends on the kind. For an identifier it is 1 if the identifier is raw, else 0. For a
/// punct it is 1 if the punct is joint, else 0. For a literal it is the number of its `LitKind`
/// (`literal_sort`), for an opening or a closing the number of its delimiter (`delimiter_sort`).
///
/// `character` is a punct's char. `hashes` is the number of `#` around a raw string. `suffix_len`
/// is how many bytes of a literal's text are its suffix. The text of an identifier or a literal is
/// the `len` bytes from `offset` on, in the text beside the tokens. For an opening, `len` is the
/// number of flat tokens inside.
///
/// A field that a kind doesn't use is written as 0, and isn't read. The `len` of an opening isn't
/// read either.
#[repr(C)]
#[derive(Clone, Copy, Default, Drop)]
pub struct FlatToken {
    pub kind: u32,
    pub sort: u32,
    pub character: u32,
    pub hashes: u32,
    pub suffix_len: u32,
    pub span: FlatSpan,
    pub offset: usize,
    pub len: usize,
}

/// Returns the span in numbers.
pub fn flat_span(span: Span) -> FlatSpan
    ensures { result ≡ spec.flat_span span }
{
    FlatSpan {
        file: span.file,
        ast: span.ast,
        start: span.start,
        end: span.end,
        context: span.ctx.0,
    }
}

/// Returns the span of these numbers.
pub fn span_of(span: FlatSpan) -> Span
    ensures { result ≡ spec.span_of span }
{
    Span {
        file: span.file,
        ast: span.ast,
        start: span.start,
        end: span.end,
        ctx: SyntaxContext(span.context),
    }
}

/// Returns the number of a literal's kind.
///
/// - 0 `Byte`, 1 `Char`, 2 `Integer`, 3 `Float`;
/// - 4 `Str`, 5 `StrRaw`, 6 `ByteStr`, 7 `ByteStrRaw`, 8 `CStr`, 9 `CStrRaw`;
/// - 10 `Err`.
pub fn literal_sort(kind: LitKind) -> u32
    ensures { result ≡ spec.literal_sort kind }
{
    match kind {
        LitKind::Byte => 0,
        LitKind::Char => 1,
        LitKind::Integer => 2,
        LitKind::Float => 3,
        LitKind::Str => 4,
        LitKind::StrRaw(_) => 5,
        LitKind::ByteStr => 6,
        LitKind::ByteStrRaw(_) => 7,
        LitKind::CStr => 8,
        LitKind::CStrRaw(_) => 9,
        LitKind::Err => 10,
    }
}

/// Returns the number of `#` around a literal.
pub fn hashes_of(kind: LitKind) -> u32
    ensures { result ≡ spec.hashes kind }
{
    match kind {
        LitKind::StrRaw(n) | LitKind::ByteStrRaw(n) | LitKind::CStrRaw(n) => n as u32,
        LitKind::Byte
        | LitKind::Char
        | LitKind::Integer
        | LitKind::Float
        | LitKind::Str
        | LitKind::ByteStr
        | LitKind::CStr
        | LitKind::Err => 0,
    }
}

/// Returns the number of a delimiter: 0 `Parenthesis`, 1 `Brace`, 2 `Bracket`, 3 `Invisible`.
pub fn delimiter_sort(kind: DelimiterKind) -> u32
    ensures { result ≡ spec.delimiter_sort kind }
{
    match kind {
        DelimiterKind::Parenthesis => 0,
        DelimiterKind::Brace => 1,
        DelimiterKind::Bracket => 2,
        DelimiterKind::Invisible => 3,
    }
}

/// Returns the number of a spacing: 0 `Alone`, 1 `Joint`.
pub fn spacing_sort(spacing: Spacing) -> u32
    ensures { result ≡ spec.spacing_sort spacing }
{
    match spacing {
        Spacing::Alone => 0,
        Spacing::Joint => 1,
    }
}

/// Returns 1 for a raw identifier, else 0.
pub fn raw_sort(is_raw: IdentIsRaw) -> u32
    ensures { result ≡ spec.raw_sort is_raw }
{
    match is_raw {
        IdentIsRaw::No => 0,
        IdentIsRaw::Yes => 1,
    }
}

/// Returns the kind of literal of a number, with `hashes` many `#`. `None` for any other number.
pub fn literal_of(sort: u32, hashes: u8) -> Option<LitKind>
    ensures { result ≡ spec.literal_of sort hashes }
{
    match sort {
        0 => Some(LitKind::Byte),
        1 => Some(LitKind::Char),
        2 => Some(LitKind::Integer),
        3 => Some(LitKind::Float),
        4 => Some(LitKind::Str),
        5 => Some(LitKind::StrRaw(hashes)),
        6 => Some(LitKind::ByteStr),
        7 => Some(LitKind::ByteStrRaw(hashes)),
        8 => Some(LitKind::CStr),
        9 => Some(LitKind::CStrRaw(hashes)),
        10 => Some(LitKind::Err),
        _ => None,
    }
}

/// Returns the delimiter of a number. `None` for any other number.
pub fn delimiter_of(sort: u32) -> Option<DelimiterKind>
    ensures { result ≡ spec.delimiter_of sort }
{
    match sort {
        0 => Some(DelimiterKind::Parenthesis),
        1 => Some(DelimiterKind::Brace),
        2 => Some(DelimiterKind::Bracket),
        3 => Some(DelimiterKind::Invisible),
        _ => None,
    }
}

/// Returns the spacing of a number. `None` for any other number.
pub fn spacing_of(sort: u32) -> Option<Spacing>
    ensures { result ≡ spec.spacing_of sort }
{
    match sort {
        0 => Some(Spacing::Alone),
        1 => Some(Spacing::Joint),
        _ => None,
    }
}

/// Returns whether an identifier of that number is raw. `None` for any other number.
pub fn raw_of(sort: u32) -> Option<IdentIsRaw>
    ensures { result ≡ spec.raw_of sort }
{
    match sort {
        0 => Some(IdentIsRaw::No),
        1 => Some(IdentIsRaw::Yes),
        _ => None,
    }
}

/// Proves that each value is the one that its number stands for.
pub fn codes_round_trip()
    ensures delimiters { (k : DelimiterKind)
        → spec.IsBack (spec.delimiter_of (spec.delimiter_sort k)) k }
    ensures spacings { (s : Spacing) → spec.IsBack (spec.spacing_of (spec.spacing_sort s)) s }
    ensures raw { (r : IdentIsRaw) → spec.IsBack (spec.raw_of (spec.raw_sort r)) r }
    ensures literals { (k : LitKind)
        → spec.IsBack (spec.literal_of (spec.literal_sort k) (spec.hashes k)) k }
{}
