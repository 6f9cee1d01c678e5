// The text between the quotes of Rust's literals.
//
// The module finds the end of a literal, and then checks the characters and escapes before that
// end. The `past_` functions return what is left of a text after a part of it, or the fault in
// that part.
ghost use Rattle.std.specs.Prelude.{◌≡◌, ◌∷◌, ◌++◌, ◌+◌, ◌<◌, ◌≤◌, List, ℕ, length, drop, chars};
ghost use Rattle.std.specs.Prelude.{true, false, None, Some, MatchOption, IfSome, IfOk, IfErr};
ghost use Rattle.std.specs.Prelude.{IsTrue};
ghost use Rattle.std.specs.Char.{digit_value};
ghost use Rattle.std.specs.Str.{IsUtf8};
ghost use Rattle.mbe_text.specs.Characters.{bytes_before, are_ascii};
ghost use Rattle.mbe_text.specs.Identifiers as words;
ghost use Rattle.mbe_text.specs.Rests.{IsEnd};
ghost use Rattle.mbe_text.specs.Escapes as spec;
ghost use Rattle.mbe_text.specs.Escapes.{left_seen, checked_seen, stop, left};
ghost use Rattle.mbe_text.specs.QuoteEnds as extents;

use crate::characters::{CharClass, before, begins_with, past, past_front, split_first};
use crate::fault_kind::{LexFaultKind, TextFault, fault};

// The kinds of literals that have escapes.
#[derive(Clone, Copy)]
pub(crate) enum EscapeMode {
    Char,
    Byte,
    Str,
    ByteStr,
    CStr,
}

impl EscapeMode {
    // Returns whether the literal has exactly one character.
    pub(crate) fn is_single(self) -> bool
        ensures { result ≡ spec.is_single self }
    {
        matches!(self, EscapeMode::Char | EscapeMode::Byte)
    }

    // Returns whether the literal is a byte or a byte string. Its characters are ASCII, and it has
    // no `\u`.
    pub(crate) fn is_bytes(self) -> bool
        ensures { result ≡ spec.is_bytes self }
    {
        matches!(self, EscapeMode::Byte | EscapeMode::ByteStr)
    }

    // Returns whether the literal is a C string, which has no null character.
    fn is_c(self) -> bool
        ensures { result ≡ spec.is_c self }
    {
        matches!(self, EscapeMode::CStr)
    }
}

// Returns what is left after the first character, or the empty text if there is none.
pub(crate) fn tail(text: &str) -> &str
    ensures exact { chars result.now ≡ drop 1 (chars text.now) }
    ensures end { IsEnd text.now result.now }
    ensures past { 0 < length text.now → length result.now < length text.now }
{
    match split_first(text) {
        Some((_, rest)) => rest,
        None => text,
    }
}

// Returns what is left after an identifier. The first character isn't checked.
pub(crate) fn past_identifier(text: &str) -> &str
    ensures exact { chars result.now ≡ words.past_identifier (chars text.now) }
    ensures end { IsEnd text.now result.now }
    ensures past { 0 < length text.now → length result.now < length text.now }
{
    past(tail(text), CharClass::IdentContinue)
}

// ---- escapes

// Returns the value of a digit in base sixteen.
fn hex_value(char: char) -> Option<u32>
    ensures { MatchOption result (spec.is_hex char ≡ false)
        (λ n. (spec.is_hex char ≡ true) × (n ≡ digit_value char)) }
{
    char.to_digit(16)
}

// Returns what is left after the second digit of a `\x` that begins at `from`. `high` is the value
// of the first digit.
fn past_second_digit<'t>(
    from: &'t str,
    text: &'t str,
    high: u32,
    mode: EscapeMode,
) -> Result<&'t str, TextFault<'t>>
    ensures exact { left_seen result
        ≡ spec.past_second_digit mode (chars from.now) high (chars text.now) }
    ensures end { IsEnd from.now text.now → IsEnd from.now (stop result) }
    ensures rest { length (left result) ≤ length text.now }
    ensures text { IsUtf8 (left result) }
{
    let Some((char, rest)) = split_first(text) else {
        return fault!(ShortHexEscape, from);
    };
    let Some(low) = hex_value(char) else {
        return fault!(HexEscapeDigit, text);
    };
    if high > 7 && !(mode.is_bytes() || mode.is_c()) {
        fault!(OutOfRangeHexEscape, from)
    } else if mode.is_c() && high == 0 && low == 0 {
        fault!(Nul, from)
    } else {
        Ok(rest)
    }
}

// Returns what is left after the two digits of a `\x` that begins at `from`.
fn past_hex<'t>(from: &'t str, text: &'t str, mode: EscapeMode) -> Result<&'t str, TextFault<'t>>
    ensures exact { left_seen result ≡ spec.past_hex mode (chars from.now) (chars text.now) }
    ensures end { IsEnd from.now text.now → IsEnd from.now (stop result) }
    ensures rest { length (left result) ≤ length text.now }
    ensures text { IsUtf8 (left result) }
{
    let Some((char, rest)) = split_first(text) else {
        return fault!(ShortHexEscape, from);
    };
    match hex_value(char) {
        Some(high) => past_second_digit(from, rest, high, mode),
        None => fault!(HexEscapeDigit, text),
    }
}

// Returns the text after the `}` of a `\u{` that begins at `from`, or the fault of its value.
// `count` is the number of its digits.
fn past_value<'t>(
    from: &'t str,
    text: &'t str,
    value: u32,
    count: u32,
    mode: EscapeMode,
) -> Result<&'t str, TextFault<'t>>
    ensures exact { left_seen result
        ≡ spec.past_value mode (chars from.now) value count (chars text.now) }
    ensures end { IsEnd from.now text.now → IsEnd from.now (stop result) }
    ensures rest { length (left result) ≤ length text.now }
    ensures text { IsUtf8 (left result) }
{
    if count > 6 {
        fault!(OverlongUnicodeEscape, from)
    } else if mode.is_bytes() {
        fault!(UnicodeEscapeInBytes, from)
    } else if char::from_u32(value).is_none() {
        fault!(UnicodeEscapeValue, from)
    } else if mode.is_c() && value == 0 {
        fault!(Nul, from)
    } else {
        Ok(text)
    }
}

// Returns what is left after the digits and the `}` of a `\u{` that begins at `from`. `first` is
// the value of the first digit, which is already consumed.
fn past_digits<'t>(
    from: &'t str,
    text: &'t str,
    first: u32,
    mode: EscapeMode,
) -> Result<&'t str, TextFault<'t>>
    requires { first ≤ 15 }
    ensures exact { left_seen result
        ≡ spec.past_digits mode (chars from.now) first 1 (chars text.now) }
    ensures end { IsEnd from.now text.now → IsEnd from.now (stop result) }
    ensures rest { length (left result) ≤ length text.now }
    ensures text { IsUtf8 (left result) }
{
    let mut value = first;
    let mut count = 1u32;
    let mut rest = text;
    'digits: loop {
        let Some((char, after)) = split_first(rest) else {
            return fault!(UnterminatedUnicodeEscape, from);
        };
        if char == '}' {
            return past_value(from, after, value, count, mode);
        }
        if char != '_' {
            let Some(digit) = hex_value(char) else {
                return fault!(UnicodeEscapeDigit, rest);
            };
            value = (value * 16 + digit).min(0x11_0000);
            count = (count + 1).min(7);
        }
        rest = after;
    }
}

// Returns what is left after a `\u{..}` that begins at `from`. `text` is what follows the `{`.
fn past_braces<'t>(from: &'t str, text: &'t str, mode: EscapeMode) -> Result<&'t str, TextFault<'t>>
    ensures exact { left_seen result ≡ spec.past_braces mode (chars from.now) (chars text.now) }
    ensures end { IsEnd from.now text.now → IsEnd from.now (stop result) }
    ensures rest { length (left result) ≤ length text.now }
    ensures text { IsUtf8 (left result) }
{
    let Some((char, rest)) = split_first(text) else {
        return fault!(UnterminatedUnicodeEscape, from);
    };
    if char == '_' {
        return fault!(UnicodeEscapeStart, text);
    }
    if char == '}' {
        return fault!(EmptyUnicodeEscape, from);
    }
    match hex_value(char) {
        Some(first) => past_digits(from, rest, first, mode),
        None => fault!(UnicodeEscapeDigit, text),
    }
}

// Returns what is left after a `\u` escape that begins at `from`.
fn past_unicode<'t>(
    from: &'t str,
    text: &'t str,
    mode: EscapeMode,
) -> Result<&'t str, TextFault<'t>>
    ensures exact { left_seen result ≡ spec.past_unicode mode (chars from.now) (chars text.now) }
    ensures end { IsEnd from.now text.now → IsEnd from.now (stop result) }
    ensures rest { length (left result) ≤ length text.now }
    ensures text { IsUtf8 (left result) }
{
    match split_first(text) {
        Some(('{', rest)) => past_braces(from, rest, mode),
        _ => fault!(UnicodeEscapeBrace, from),
    }
}

// Returns what is left after the escape that begins at `from`. `text` is what follows its `\`.
fn past_escape<'t>(from: &'t str, text: &'t str, mode: EscapeMode) -> Result<&'t str, TextFault<'t>>
    ensures exact { left_seen result ≡ spec.past_escape mode (chars from.now) (chars text.now) }
    ensures end { IsEnd from.now text.now → IsEnd from.now (stop result) }
    ensures rest { length (left result) ≤ length text.now }
    ensures text { IsUtf8 (left result) }
{
    let Some((char, rest)) = split_first(text) else {
        return fault!(Escape, from);
    };
    match char {
        'n' | 'r' | 't' | '\\' | '\'' | '"' => Ok(rest),
        '0' if mode.is_c() => fault!(Nul, from),
        '0' => Ok(rest),
        'x' => past_hex(from, rest, mode),
        'u' => past_unicode(from, rest, mode),
        '\n' if !mode.is_single() => Ok(past(rest, CharClass::Blank)),
        _ => fault!(Escape, text),
    }
}

// ---- characters

// Returns what is left after `char`, which is at the front of the text and isn't an escape.
fn past_plain_char<'t>(
    text: &'t str,
    char: char,
    after: &'t str,
    mode: EscapeMode,
) -> Result<&'t str, TextFault<'t>>
    requires { chars text.now ≡ char ∷ chars after.now }
    ensures exact { left_seen result ≡ spec.past_plain_char mode char (chars after.now) }
    ensures end { IsEnd text.now after.now → IsEnd text.now (stop result) }
    ensures rest { length (left result) ≤ length after.now }
    ensures text { IsUtf8 (left result) }
{
    if mode.is_single() && matches!(char, '\n' | '\r' | '\t' | '\'') {
        fault!(UnescapedChar, text)
    } else if char == '\r' {
        fault!(BareCarriageReturn, text)
    } else if mode.is_c() && char == '\0' {
        fault!(Nul, text)
    } else if mode.is_bytes() && !char.is_ascii() {
        fault!(NonAscii, text)
    } else {
        Ok(after)
    }
}

// Returns what is left after `char`, which is at the front of the text, or after the escape that
// it begins.
fn past_char_or_escape<'t>(
    text: &'t str,
    char: char,
    after: &'t str,
    mode: EscapeMode,
) -> Result<&'t str, TextFault<'t>>
    requires { chars text.now ≡ char ∷ chars after.now }
    ensures exact { left_seen result ≡ spec.past_char_or_escape mode char (chars after.now) }
    ensures end { IsEnd text.now after.now → IsEnd text.now (stop result) }
    ensures rest { length (left result) ≤ length after.now }
    ensures text { IsUtf8 (left result) }
{
    if char == '\\' {
        past_escape(text, after, mode)
    } else {
        past_plain_char(text, char, after, mode)
    }
}

// Checks that a string may have this text between its quotes.
pub(crate) fn check_string(text: &str, mode: EscapeMode) -> Result<(), TextFault<'_>>
    ensures exact { checked_seen result ≡ spec.check_string mode 0 (chars text.now) }
    ensures place { IfErr result (λ fault. IsEnd text.now fault.at.now) }
{
    let mut rest = text;
    'parts: while let Some((char, after)) = split_first(rest) {
        rest = past_char_or_escape(rest, char, after, mode)?;
    }
    Ok(())
}

// Returns what is left of the text of a char or a byte after its first character or escape.
pub(crate) fn check_char(text: &str, mode: EscapeMode) -> Result<&str, TextFault<'_>>
    ensures exact { left_seen result ≡ spec.check_char mode (chars text.now) }
    ensures end { IsEnd text.now (stop result) }
{
    match split_first(text) {
        Some((char, after)) => past_char_or_escape(text, char, after, mode),
        None => fault!(EmptyChar, text),
    }
}

// Checks that a raw string may have this text between its quotes.
pub(crate) fn check_raw(text: &str, mode: EscapeMode) -> Result<(), TextFault<'_>>
    ensures exact { checked_seen result ≡ spec.check_raw mode (chars text.now) }
    ensures place { IfErr result (λ fault. IsEnd text.now fault.at.now) }
{
    let mut rest = text;
    'chars: while let Some((char, after)) = split_first(rest) {
        if char != '\\' {
            past_plain_char(rest, char, after, mode)?;
        }
        rest = after;
    }
    Ok(())
}

// ---- ends

// Returns the part of the text before this end of it.
pub(crate) fn front<'t>(text: &'t str, end: &str) -> &'t str
    requires { IsEnd text.now end.now }
    ensures bytes { result.now ≡ bytes_before (chars text.now) (chars end.now) }
    ensures exact { chars result.now ≡ extents.front (chars text.now) (chars end.now) }
    ensures whole { text.now ≡ result.now ++ end.now }
{
    before(text, end)
}

// Returns the text from the closing quote of a char or a byte on, for one that has more or less
// than one character. Gives up at a `/`, and at a line feed that no `'` follows.
fn find_later_quote(text: &str) -> Option<&str>
    ensures exact { MatchOption result (extents.from_later_quote false (chars text.now) ≡ None)
        (λ end. extents.from_later_quote false (chars text.now) ≡ Some (chars end.now)) }
    ensures end { IfSome result (λ end. IsEnd text.now end.now) }
{
    let mut rest = text;
    'chars: loop {
        let (char, after) = split_first(rest)?;
        if char == '\'' {
            return Some(rest);
        }
        if char == '/' || (char == '\n' && !begins_with(after, "'")) {
            return None;
        }
        rest = if char == '\\' { tail(after) } else { after };
    }
}

// Returns the text from the closing quote of a char or a byte on. `text` is what follows the
// opening quote.
pub(crate) fn char_end(text: &str) -> Option<&str>
    ensures exact { MatchOption result (extents.from_char_end (chars text.now) ≡ None)
        (λ end. extents.from_char_end (chars text.now) ≡ Some (chars end.now)) }
    ensures end { IfSome result (λ end. IsEnd text.now end.now) }
{
    match split_first(text) {
        Some((char, after)) if char != '\\' && begins_with(after, "'") => Some(after),
        _ => find_later_quote(text),
    }
}

// Returns the text from the closing quote of a string on. `text` is what follows the opening
// quote.
pub(crate) fn string_end(text: &str) -> Option<&str>
    ensures exact { MatchOption result (extents.from_string_end false (chars text.now) ≡ None)
        (λ end. extents.from_string_end false (chars text.now) ≡ Some (chars end.now)) }
    ensures end { IfSome result (λ end. IsEnd text.now end.now) }
{
    let mut rest = text;
    'chars: loop {
        let (char, after) = split_first(rest)?;
        if char == '"' {
            return Some(rest);
        }
        let takes = char == '\\' && (begins_with(after, "\\") || begins_with(after, "\""));
        rest = if takes { tail(after) } else { after };
    }
}

// Returns the text from the closing quote of a raw string on, and the text after that quote and
// its `#`s. `text` is what follows the opening quote, and `hashes` are the `#`s before that.
pub(crate) fn raw_end<'t>(text: &'t str, hashes: &str) -> Option<(&'t str, &'t str)>
    requires { IsTrue (are_ascii hashes.now) }
    ensures exact { MatchOption result (extents.from_raw_end hashes.now (chars text.now) ≡ None)
        (λ p. extents.from_raw_end hashes.now (chars text.now) ≡ Some (chars p.0.now)) }
    ensures rest { IfSome result (λ p.
        chars p.1.now ≡ drop (length hashes.now + 1) (chars p.0.now)) }
    ensures end { IfSome result (λ p. IsEnd text.now p.0.now) }
    ensures after { IfSome result (λ p. IsEnd text.now p.1.now) }
{
    let mut rest = text;
    'chars: loop {
        let (char, after) = split_first(rest)?;
        if char == '"'
            && let Some(following) = past_front(after, hashes)
        {
            return Some((rest, following));
        }
        rest = after;
    }
}
