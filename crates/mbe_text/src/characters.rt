// Classes of characters, and the rest of a text after some characters.
//
// The functions take a text and return what is left of it. ASCII has fast paths.
ghost use Rattle.std.specs.Prelude.{◌≡◌, ◌++◌, [], ◌∷◌, ◌+◌, ◌<◌, ◌≤◌, length, chars, encode_utf8};
ghost use Rattle.std.specs.Prelude.{MatchOption, IfSome, IsTrue, true, false, drop, Some, None};
ghost use Rattle.std.specs.Prelude.{nat_le, nat_lt, ◌&&◌, slice_index};
ghost use Rattle.std.specs.Str.{IsUtf8};
ghost use Rattle.mbe_text.specs.Characters as spec;
ghost use Rattle.mbe_text.specs.declared.characters.CharClass.TheVariants.{IdentContinue};
ghost use Rattle.mbe_text.specs.declared.characters.CharClass.TheVariants.{IdentStart, Punct};
ghost use Rattle.mbe_text.specs.declared.characters.CharClass.TheVariants.{Space};
ghost use Rattle.mbe_text.specs.Rests.{IsEnd, IsRest};

use unicode_ident::{is_xid_continue, is_xid_start};

// A class of characters.
#[derive(Clone, Copy)]
pub(crate) enum CharClass {
    Blank,
    // White space of Rust: Unicode's `Pattern_White_Space`.
    Space,
    // Any character other than a line feed.
    NotLineFeed,
    IdentStart,
    IdentContinue,
    Decimal,
    // A digit of a number. `_` is one too.
    Digit,
    HexDigit,
    // The letter that begins an exponent.
    Exponent,
    Sign,
    Punct,
    Hash,
}

impl CharClass {
    // Returns whether the character is of this class.
    #[inline(always)]
    pub(crate) fn has(self, char: char) -> bool
        ensures { result ≡ spec.has self char }
    {
        match self {
            CharClass::Blank => matches!(char, ' ' | '\t' | '\r' | '\n'),
            CharClass::Space => is_space(char),
            CharClass::NotLineFeed => char != '\n',
            CharClass::IdentStart => is_start(char),
            CharClass::IdentContinue => is_continue(char),
            CharClass::Decimal => char.is_ascii_digit(),
            CharClass::Digit => char.is_ascii_digit() || char == '_',
            CharClass::HexDigit => char.is_ascii_hexdigit() || char == '_',
            CharClass::Exponent => matches!(char, 'e' | 'E'),
            CharClass::Sign => matches!(char, '+' | '-'),
            CharClass::Punct => is_punct(char),
            CharClass::Hash => char == '#',
        }
    }
}

// Returns whether an identifier may begin with the character. ASCII, which nearly all characters
// are, needs no table.
#[inline(always)]
fn is_start(char: char) -> bool
    ensures { result ≡ spec.has IdentStart char }
{
    if char.is_ascii() {
        char.is_ascii_alphabetic() || char == '_'
    } else {
        is_xid_start(char)
    }
}

// Returns whether an identifier may continue with the character.
#[inline(always)]
fn is_continue(char: char) -> bool
    ensures { result ≡ spec.has IdentContinue char }
{
    if char.is_ascii() {
        char.is_ascii_alphanumeric() || char == '_'
    } else {
        is_xid_continue(char)
    }
}

#[inline(always)]
fn is_space(char: char) -> bool
    ensures { result ≡ spec.has Space char }
{
    matches!(
        char,
        ' ' | '\t'
            | '\n'
            | '\u{b}'
            | '\u{c}'
            | '\r'
            | '\u{85}'
            | '\u{200e}'
            | '\u{200f}'
            | '\u{2028}'
            | '\u{2029}'
    )
}

#[inline(always)]
fn is_punct(char: char) -> bool
    ensures { result ≡ spec.has Punct char }
{
    matches!(
        char,
        '=' | '<'
            | '>'
            | '!'
            | '&'
            | '|'
            | '~'
            | '@'
            | '.'
            | ','
            | ';'
            | ':'
            | '#'
            | '$'
            | '?'
            | '+'
            | '-'
            | '*'
            | '/'
            | '%'
            | '^'
    )
}

// Returns the first character and what is left after it.
#[inline(always)]
pub(crate) fn split_first(text: &str) -> Option<(char, &str)>
    ensures chars { MatchOption result (chars text.now ≡ [])
        (λ p. chars text.now ≡ p.0 ∷ chars p.1.now) }
    ensures bytes { MatchOption result (text.now ≡ [])
        (λ p. text.now ≡ encode_utf8 p.0 ++ p.1.now) }
    ensures shorter { IfSome result (λ p. length p.1.now < length text.now) }
    ensures end { IfSome result (λ p. IsRest text.now p.1.now) }
{
    let mut chars = text.chars();
    let char = chars.next()?;
    Some((char, chars.as_str()))
}

// Returns whether the first character is of this class.
#[inline(always)]
pub(crate) fn begins(text: &str, class: CharClass) -> bool
    ensures exact { result ≡ spec.begins class (chars text.now) }
    ensures some { IsTrue result → 0 < length text.now }
{
    match split_first(text) {
        Some((char, _)) => class.has(char),
        None => false,
    }
}

// Returns what is left after the first character, if it is of this class.
#[inline(always)]
pub(crate) fn past_one(text: &str, class: CharClass) -> Option<&str>
    ensures exact { MatchOption result (spec.past_one class (chars text.now) ≡ None)
        (λ rest. spec.past_one class (chars text.now) ≡ Some (chars rest.now)) }
    ensures end { IfSome result (λ rest. IsEnd text.now rest.now) }
{
    match split_first(text) {
        Some((char, rest)) if class.has(char) => Some(rest),
        _ => None,
    }
}

// Returns whether the byte is an ASCII character of this class.
#[inline(always)]
fn is_ascii_in(byte: u8, class: CharClass) -> bool
    ensures { result ≡ (nat_lt byte 128 && spec.has class byte) }
{
    byte.is_ascii() && class.has(byte as char)
}

// Returns how many bytes at the front are ASCII characters of this class.
#[inline(always)]
fn ascii_count(text: &str, class: CharClass) -> usize
    ensures within { result ≤ length text.now }
    ensures utf8 { IsUtf8 (drop result text.now) }
    ensures exact { spec.past class (chars (drop result text.now))
        ≡ spec.past class (chars text.now) }
    ensures stops { slice_index text.now result < 128
        → spec.begins class (chars (drop result text.now)) ≡ false }
{
    let mut count = 0;
    'bytes: for byte in text.as_bytes() {
        if !is_ascii_in(*byte, class) {
            return count;
        }
        count += 1;
    }
    count
}

// Returns what is left after the characters of this class at the front. It skips ASCII byte by
// byte.
#[inline(always)]
pub(crate) fn past(text: &str, class: CharClass) -> &str
    ensures exact { chars result.now ≡ spec.past class (chars text.now) }
    ensures end { IsEnd text.now result.now }
{
    let count = ascii_count(text, class);
    let rest = &text[count..];
    if is_non_ascii_at(text, count) {
        past_by_char(rest, class)
    } else {
        rest
    }
}

// Returns whether the byte at that index isn't ASCII.
#[inline(always)]
fn is_non_ascii_at(text: &str, at: usize) -> bool
    ensures { result ≡ nat_le 128 (slice_index text.now at) }
{
    match text.as_bytes().get(at) {
        Some(byte) => !byte.is_ascii(),
        None => false,
    }
}

// Does the same character by character, for a text that doesn't begin with ASCII.
#[inline(never)]
fn past_by_char(text: &str, class: CharClass) -> &str
    ensures exact { chars result.now ≡ spec.past class (chars text.now) }
    ensures end { IsEnd text.now result.now }
{
    let mut rest = text;
    'chars: loop {
        match split_first(rest) {
            Some((char, after)) if class.has(char) => rest = after,
            _ => return rest,
        }
    }
}

// Returns whether the text begins with this character.
#[inline(always)]
pub(crate) fn is_at(text: &str, char: char) -> bool
    ensures exact { result ≡ spec.begins_with (char ∷ []) (chars text.now) }
    ensures some { IsTrue result → 0 < length text.now }
{
    match split_first(text) {
        Some((first, _)) => first == char,
        None => false,
    }
}

// Returns whether the text begins with `front`, which is ASCII.
#[inline(always)]
pub(crate) fn begins_with(text: &str, front: &str) -> bool
    requires { IsTrue (spec.are_ascii front.now) }
    ensures exact { result ≡ spec.begins_with front.now (chars text.now) }
    ensures some { IsTrue result → length front.now ≤ length text.now }
{
    text.starts_with(front)
}

// Returns what is left after `front`, if the text begins with it.
pub(crate) fn past_front<'t>(text: &'t str, front: &str) -> Option<&'t str>
    requires { IsTrue (spec.are_ascii front.now) }
    ensures exact { MatchOption result (spec.begins_with front.now (chars text.now) ≡ false)
        (λ rest. (spec.begins_with front.now (chars text.now) ≡ true)
        × (chars rest.now ≡ drop (length front.now) (chars text.now))) }
    ensures whole { IfSome result (λ rest. text.now ≡ front.now ++ rest.now) }
    ensures end { IfSome result (λ rest. IsEnd text.now rest.now) }
{
    text.strip_prefix(front)
}

// Returns the part of the text before this rest of it.
#[inline(always)]
pub(crate) fn before<'t>(text: &'t str, rest: &str) -> &'t str
    requires { length rest.now ≤ length text.now }
    ensures whole { IsRest text.now rest.now → text.now ≡ result.now ++ rest.now }
    ensures exact { IsRest text.now rest.now
        → result.now ≡ spec.bytes_before (chars text.now) (chars rest.now) }
{
    text.get(..text.len() - rest.len()).unwrap_or("")
}

// Returns the byte offset at which this rest begins, in a text of `total` bytes.
#[inline(always)]
pub(crate) fn offset(total: u32, rest: &str) -> u32
    requires { length rest.now ≤ total }
    ensures bytes { result + length rest.now ≡ total }
    ensures exact { result ≡ spec.offset total (chars rest.now) }
{
    total - rest.len() as u32
}
