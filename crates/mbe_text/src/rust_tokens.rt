// The tokens of Rust, each read from the front of a text.
//
// How a token begins says which token it is. The reader then finds where the token ends, whatever
// is inside, and checks the inside last. rustc does the same, and a `LexFaultKind` has rustc's
// message.
//
// A trace of `br#"a"#u8 'x`: `br` and a `#` begin a raw string. `raw` reads `#"a"#`, and `literal`
// reads the suffix `u8`. After the space, `'` and an `x` without a `'` after it are a lifetime.
ghost use Rattle.std.specs.Prelude.{◌≡◌, ◌+◌, ◌<◌, ◌≤◌, ◌++◌, chars, drop, length, List, ℕ, Ok};
ghost use Rattle.std.specs.Prelude.{IfOk, IfErr, IfSome, IsTrue, false};
ghost use Rattle.mbe_text.specs.Characters.{bytes_before, are_ascii};
ghost use Rattle.mbe_text.specs.Characters as characters;
ghost use Rattle.mbe_text.specs.declared.characters.CharClass.TheVariants as classes;
ghost use Rattle.mbe_text.specs.Shapes.{lifetime_of};
ghost use Rattle.mbe_text.specs.Rests.{IsEnd};
ghost use Rattle.mbe_text.specs.Escapes.{fault_seen};
ghost use Rattle.mbe_text.specs.QuoteEnds as extents;
ghost use Rattle.mbe_text.specs.RustTokens as spec;
ghost use Rattle.mbe_text.specs.RustTokens.{
  token_seen,
  seen,
  read_stop,
  read_left,
  maybe_seen,
  passed_seen,
  passed_stop,
  passed_left,
};

use crate::characters::{
    CharClass, begins, begins_with, is_at, past, past_front, past_one, split_first,
};
use crate::escapes::{
    EscapeMode, char_end, check_char, check_raw, check_string, front, past_identifier, raw_end,
    string_end, tail,
};
use crate::fault_kind::{LexFaultKind, TextFault, fault};
use crate::scanner::Lexeme;
use mbe_tt::span::Edition;
use mbe_tt::tt::{IdentIsRaw, LitKind};

// A token and what is left after it, or a fault.
pub(crate) type ReadResult<'t> = Result<(Lexeme<'t>, &'t str), TextFault<'t>>;

// ---- identifiers and suffixes

// Returns what is left after the suffix at the front, which may be empty.
fn past_suffix(text: &str) -> &str
    ensures exact { chars result.now ≡ spec.past_suffix (chars text.now) }
    ensures end { IsEnd text.now result.now }
{
    if begins(text, CharClass::IdentStart) {
        past_identifier(text)
    } else {
        text
    }
}

// Reads the suffix at `rest`, and returns the literal of that text with it.
fn literal<'t>(kind: LitKind, text: &'t str, rest: &'t str) -> ReadResult<'t>
    ensures exact { token_seen result ≡ spec.literal kind text.now (chars rest.now) }
    ensures end { IsEnd rest.now (read_stop result) }
    ensures rest { length (read_left result) ≤ length rest.now }
{
    let after = past_suffix(rest);
    let suffix = front(rest, after);
    if suffix == "_" {
        return fault!(UnderscoreSuffix, rest);
    }
    let Ok(suffix_len) = u8::try_from(suffix.len()) else {
        return fault!(LongSuffix, rest);
    };
    let lexeme = Lexeme::Literal {
        text,
        suffix,
        suffix_len,
        kind,
    };
    Ok((lexeme, after))
}

// Returns whether a name may have a `r#` before it.
fn may_be_raw(name: &str) -> bool
    ensures { result ≡ spec.may_be_raw name.now }
{
    !(name == "_" || name == "crate" || name == "self" || name == "super" || name == "Self")
}

// Reads a raw identifier. `following` is what follows its `r#`.
fn raw_identifier<'t>(text: &'t str, following: &'t str) -> ReadResult<'t>
    ensures exact { token_seen result ≡ spec.raw_identifier (chars text.now) (chars following.now) }
    ensures end { IsEnd text.now following.now → IsEnd text.now (read_stop result) }
    ensures rest { length (read_left result) ≤ length following.now }
{
    let rest = past_identifier(following);
    let name = front(following, rest);
    if !may_be_raw(name) {
        return fault!(InvalidRawIdentifier, text);
    }
    let lexeme = Lexeme::Ident {
        name,
        is_raw: IdentIsRaw::Yes,
    };
    Ok((lexeme, rest))
}

// Returns whether `rest` begins with a character that may not follow an identifier since edition
// 2021.
fn begins_reserved(rest: &str) -> bool
    ensures { result ≡ spec.begins_reserved (chars rest.now) }
{
    is_at(rest, '#') || is_at(rest, '"') || is_at(rest, '\'')
}

// Reads an identifier without a `r#`. Since edition 2021 it may not be an unknown prefix: a `#` or
// a quote may not follow.
fn identifier(edition: Edition, text: &str) -> ReadResult<'_>
    ensures exact { token_seen result ≡ spec.plain_identifier edition (chars text.now) }
    ensures end { IsEnd text.now (read_stop result) }
    ensures past { 0 < length text.now → length (read_left result) < length text.now }
{
    let rest = past_identifier(text);
    if edition.at_least_2021() && begins_reserved(rest) {
        return fault!(Prefix, text);
    }
    let lexeme = Lexeme::Ident {
        name: front(text, rest),
        is_raw: IdentIsRaw::No,
    };
    Ok((lexeme, rest))
}

// ---- quotes

// Turns a fault in the text between the quotes into a fault in `body`, which goes on with `end`
// after that text. `at` is the text between the quotes from the fault on.
fn fault_inside<'t>(body: &'t str, end: &str, fault_kind: LexFaultKind, at: &str) -> TextFault<'t>
    requires { length at.now + length end.now ≤ length body.now }
    ensures exact { (content : List ℕ) → body.now ≡ content ++ end.now → IsEnd content at.now
        → fault_seen result ≡ spec.within (chars end.now) (fault_kind, chars at.now) }
    ensures end { IsEnd body.now result.at.now }
{
    let start = body.len() - end.len() - at.len();
    TextFault {
        fault_kind,
        at: body.get(start..).unwrap_or(""),
    }
}

// Checks a string's text, which `end` closes, and reads its suffix.
fn string_until<'t>(kind: LitKind, mode: EscapeMode, body: &'t str, end: &'t str) -> ReadResult<'t>
    requires { IsEnd body.now end.now }
    ensures exact { token_seen result
        ≡ spec.string_until kind mode (chars body.now) (chars end.now) }
    ensures end { IsEnd body.now (read_stop result) }
    ensures rest { length (read_left result) ≤ length end.now }
{
    let content = front(body, end);
    match check_string(content, mode) {
        Ok(()) => literal(kind, content, tail(end)),
        Err(error) => Err(fault_inside(body, end, error.fault_kind, error.at)),
    }
}

// Reads a string from its opening quote on. Its letters are already consumed.
fn string<'t>(kind: LitKind, mode: EscapeMode, quote: &'t str) -> ReadResult<'t>
    ensures exact { token_seen result ≡ spec.string kind mode (chars quote.now) }
    ensures end { IsEnd quote.now (read_stop result) }
    ensures past { 0 < length quote.now → length (read_left result) < length quote.now }
{
    let body = tail(quote);
    match string_end(body) {
        Some(end) => string_until(kind, mode, body, end),
        None => fault!(UnterminatedString, quote),
    }
}

// Checks the text of a char or a byte, which `end` closes, and reads its suffix.
fn char_until<'t>(
    kind: LitKind,
    mode: EscapeMode,
    text: &'t str,
    body: &'t str,
    end: &'t str,
) -> ReadResult<'t>
    requires { IsEnd body.now end.now }
    ensures exact { token_seen result
        ≡ spec.char_until kind mode (chars text.now) (chars body.now) (chars end.now) }
    ensures end { IsEnd text.now body.now → IsEnd text.now (read_stop result) }
    ensures rest { length (read_left result) ≤ length end.now }
{
    let content = front(body, end);
    match check_char(content, mode) {
        Ok(more) => match split_first(more) {
            Some(_) => fault!(MultipleChars, text),
            None => literal(kind, content, tail(end)),
        },
        Err(error) => Err(fault_inside(body, end, error.fault_kind, error.at)),
    }
}

// Reads a char or a byte from its opening quote on. `text` begins with its letter, if it has one.
fn char<'t>(kind: LitKind, mode: EscapeMode, text: &'t str, quote: &'t str) -> ReadResult<'t>
    ensures exact { token_seen result ≡ spec.char kind mode (chars text.now) (chars quote.now) }
    ensures end { IsEnd text.now quote.now → IsEnd text.now (read_stop result) }
    ensures past { 0 < length quote.now → length (read_left result) < length quote.now }
    ensures rest { length (read_left result) ≤ length quote.now }
{
    let body = tail(quote);
    match char_end(body) {
        Some(end) => char_until(kind, mode, text, body, end),
        None if mode.is_bytes() => fault!(UnterminatedByte, quote),
        None => fault!(UnterminatedChar, quote),
    }
}

// Returns the kind of a raw string with that many `#`s.
fn raw_kind(mode: EscapeMode, hashes: u8) -> LitKind
    ensures { result ≡ spec.raw_kind mode hashes }
{
    match mode {
        EscapeMode::ByteStr => LitKind::ByteStrRaw(hashes),
        EscapeMode::CStr => LitKind::CStrRaw(hashes),
        _ => LitKind::StrRaw(hashes),
    }
}

// Checks a raw string's text, which `end` closes. `rest` is what follows its last `#`, where its
// suffix is.
fn raw_until<'t>(
    mode: EscapeMode,
    hashes: u8,
    body: &'t str,
    end: &'t str,
    rest: &'t str,
) -> ReadResult<'t>
    requires end { IsEnd body.now end.now }
    requires rest { chars rest.now ≡ drop (hashes + 1) (chars end.now) }
    ensures exact { token_seen result
        ≡ spec.raw_until mode hashes (chars body.now) (chars end.now) }
    ensures end { IsEnd body.now rest.now → IsEnd body.now (read_stop result) }
    ensures left { length (read_left result) ≤ length rest.now }
{
    let content = front(body, end);
    match check_raw(content, mode) {
        Ok(()) => literal(raw_kind(mode, hashes), content, rest),
        Err(error) => Err(fault_inside(body, end, error.fault_kind, error.at)),
    }
}

// Reads a raw string from its text on. `hashes` are the `#`s before its opening quote, and `text`
// begins with its letters.
fn raw_body<'t>(mode: EscapeMode, text: &'t str, hashes: &str, body: &'t str) -> ReadResult<'t>
    requires { IsTrue (are_ascii hashes.now) }
    ensures exact { token_seen result
        ≡ spec.raw_body mode (chars text.now) hashes.now (chars body.now) }
    ensures end { IsEnd text.now body.now → IsEnd text.now (read_stop result) }
    ensures rest { length (read_left result) ≤ length body.now }
{
    let Some((end, rest)) = raw_end(body, hashes) else {
        return fault!(UnterminatedRawString, text);
    };
    match u8::try_from(hashes.len()) {
        Ok(number) => raw_until(mode, number, body, end, rest),
        Err(_) => fault!(TooManyHashes, text),
    }
}

// Returns the `#`s at the front, and what is left after them.
fn hashes(text: &str) -> (&str, &str)
    ensures bytes { result.0.now ≡ bytes_before (chars text.now) (chars result.1.now) }
    ensures rest { chars result.1.now ≡ characters.past classes.Hash (chars text.now) }
    ensures ascii { IsTrue (are_ascii result.0.now) }
    ensures end { IsEnd text.now result.1.now }
{
    let rest = past(text, CharClass::Hash);
    (front(text, rest), rest)
}

// Reads a raw string. `following` is what follows its letters: its `#`s and its quote.
fn raw<'t>(mode: EscapeMode, text: &'t str, following: &'t str) -> ReadResult<'t>
    ensures exact { token_seen result
        ≡ spec.raw_string mode (chars text.now) (chars following.now) }
    ensures end { IsEnd text.now following.now → IsEnd text.now (read_stop result) }
    ensures rest { length (read_left result) ≤ length following.now }
{
    let (hashes, quote) = hashes(following);
    if begins_with(quote, "\"") {
        raw_body(mode, text, hashes, tail(quote))
    } else {
        fault!(RawStringStart, text)
    }
}

// Returns whether `following` continues a raw string after its letters, or is meant to.
fn begins_raw(following: &str) -> bool
    ensures { result ≡ spec.begins_raw_string (chars following.now) }
{
    begins_with(following, "\"") || begins_with(following, "#")
}

// Reads a token that begins with an `r`.
fn read_r(edition: Edition, text: &str) -> ReadResult<'_>
    ensures exact { token_seen result ≡ spec.read_r edition (chars text.now) }
    ensures end { IsEnd text.now (read_stop result) }
    ensures past { 0 < length text.now → length (read_left result) < length text.now }
{
    let following = tail(text);
    match past_front(text, "r#") {
        Some(name) if begins(name, CharClass::IdentStart) => raw_identifier(text, name),
        _ if begins_raw(following) => raw(EscapeMode::Str, text, following),
        _ => identifier(edition, text),
    }
}

// Reads a token that begins with a `b`.
fn read_b(edition: Edition, text: &str) -> ReadResult<'_>
    ensures exact { token_seen result ≡ spec.read_b edition (chars text.now) }
    ensures end { IsEnd text.now (read_stop result) }
    ensures past { 0 < length text.now → length (read_left result) < length text.now }
{
    if begins_with(text, "b'") {
        return char(LitKind::Byte, EscapeMode::Byte, text, tail(text));
    }
    if begins_with(text, "b\"") {
        return string(LitKind::ByteStr, EscapeMode::ByteStr, tail(text));
    }
    match past_front(text, "br") {
        Some(hashes) if begins_raw(hashes) => raw(EscapeMode::ByteStr, text, hashes),
        _ => identifier(edition, text),
    }
}

// Reads a token that begins with a `c`. Since edition 2021 that may be a C string.
fn read_c(edition: Edition, text: &str) -> ReadResult<'_>
    ensures exact { token_seen result ≡ spec.read_c edition (chars text.now) }
    ensures end { IsEnd text.now (read_stop result) }
    ensures past { 0 < length text.now → length (read_left result) < length text.now }
{
    if !edition.at_least_2021() {
        return identifier(edition, text);
    }
    if begins_with(text, "c\"") {
        return string(LitKind::CStr, EscapeMode::CStr, tail(text));
    }
    match past_front(text, "cr") {
        Some(hashes) if begins_raw(hashes) => raw(EscapeMode::CStr, text, hashes),
        _ => identifier(edition, text),
    }
}

// ---- lifetimes

// Returns the lifetime of that name, and the rest after it.
fn lifetime_token<'t>(name: &'t str, is_raw: IdentIsRaw, rest: &'t str) -> ReadResult<'t>
    ensures exact { token_seen result ≡ Ok (lifetime_of name.now is_raw, chars rest.now) }
    ensures end { read_stop result ≡ rest.now }
    ensures rest { read_left result ≡ rest.now }
{
    Ok((Lexeme::Lifetime { name, is_raw }, rest))
}

// Reads a lifetime with a `r#`. `following` is what follows the `r#`.
fn raw_lifetime<'t>(text: &'t str, following: &'t str) -> ReadResult<'t>
    ensures exact { token_seen result ≡ spec.raw_lifetime (chars text.now) (chars following.now) }
    ensures end { IsEnd text.now following.now → IsEnd text.now (read_stop result) }
    ensures rest { length (read_left result) ≤ length following.now }
{
    let rest = past_identifier(following);
    let name = front(following, rest);
    if begins_with(rest, "'") {
        return fault!(MultipleChars, text);
    }
    if !may_be_raw(name) {
        return fault!(InvalidRawIdentifier, text);
    }
    lifetime_token(name, IdentIsRaw::Yes, rest)
}

// Reads a lifetime without a `r#`. `following` is what follows the `'`.
fn plain_lifetime<'t>(edition: Edition, text: &'t str, following: &'t str) -> ReadResult<'t>
    ensures exact { token_seen result
        ≡ spec.plain_lifetime edition (chars text.now) (chars following.now) }
    ensures end { IsEnd text.now following.now → IsEnd text.now (read_stop result) }
    ensures rest { length (read_left result) ≤ length following.now }
{
    let rest = past_identifier(following);
    if begins_with(rest, "'") {
        fault!(MultipleChars, text)
    } else if begins(following, CharClass::Decimal) {
        fault!(LifetimeDigit, text)
    } else if edition.at_least_2021() && begins_with(rest, "#") {
        fault!(Prefix, text)
    } else {
        lifetime_token(front(following, rest), IdentIsRaw::No, rest)
    }
}

// Reads a lifetime. Before edition 2021, `'r#a` is the lifetime `'r` and other tokens after it.
fn lifetime(edition: Edition, text: &str) -> ReadResult<'_>
    ensures exact { token_seen result ≡ spec.lifetime edition (chars text.now) }
    ensures end { IsEnd text.now (read_stop result) }
    ensures past { 0 < length text.now → length (read_left result) < length text.now }
{
    let following = tail(text);
    match past_front(text, "'r#") {
        Some(name) if begins(name, CharClass::IdentStart) => {
            if edition.at_least_2021() {
                return raw_lifetime(text, name);
            }
            let rest = tail(following);
            lifetime_token(front(following, rest), IdentIsRaw::No, rest)
        }
        _ => plain_lifetime(edition, text, following),
    }
}

// Returns whether `following` continues a lifetime after its `'`, or is meant to, and not a char.
fn begins_lifetime(following: &str) -> bool
    ensures { result ≡ spec.begins_lifetime (chars following.now) }
{
    match split_first(following) {
        Some((first, after)) => {
            (CharClass::IdentStart.has(first) || CharClass::Decimal.has(first))
                && !begins_with(after, "'")
        }
        None => false,
    }
}

// Reads a token that begins with a `'`.
fn read_quote(edition: Edition, text: &str) -> ReadResult<'_>
    ensures exact { token_seen result ≡ spec.read_quote edition (chars text.now) }
    ensures end { IsEnd text.now (read_stop result) }
    ensures past { 0 < length text.now → length (read_left result) < length text.now }
{
    if begins_lifetime(tail(text)) {
        lifetime(edition, text)
    } else {
        char(LitKind::Char, EscapeMode::Char, text, text)
    }
}

// ---- numbers

// The base of a number, by its prefix.
#[derive(Clone, Copy)]
pub(crate) enum Base {
    Two,
    Eight,
    Ten,
    Sixteen,
}

impl Base {
    // Returns the class of digits that the reader accepts. A digit that is too large for the base
    // is a fault later.
    fn digit(self) -> CharClass
        ensures { result ≡ spec.digit_of self }
    {
        match self {
            Base::Sixteen => CharClass::HexDigit,
            _ => CharClass::Digit,
        }
    }

    // Returns whether a digit is too large for the base.
    fn is_digit_too_large(self, char: char) -> bool
        ensures { result ≡ spec.is_too_large self char }
    {
        match self {
            Base::Two => matches!(char, '2'..='9'),
            Base::Eight => matches!(char, '8' | '9'),
            _ => false,
        }
    }
}

// Returns the base of the number at the front, and the text from its digits on.
fn base_of(text: &str) -> (Base, &str)
    ensures base { result.0 ≡ (spec.base_of (chars text.now)).0 }
    ensures rest { chars result.1.now ≡ (spec.base_of (chars text.now)).1 }
    ensures end { IsEnd text.now result.1.now }
{
    if let Some(rest) = past_front(text, "0b") {
        (Base::Two, rest)
    } else if let Some(rest) = past_front(text, "0o") {
        (Base::Eight, rest)
    } else if let Some(rest) = past_front(text, "0x") {
        (Base::Sixteen, rest)
    } else {
        (Base::Ten, text)
    }
}

// Returns whether a digit is next, after any `_`s.
fn has_digit(base: Base, text: &str) -> bool
    ensures { result ≡ spec.has_digit base (chars text.now) }
{
    let mut rest = text;
    'digits: loop {
        match split_first(rest) {
            Some(('_', after)) => rest = after,
            Some((char, _)) => return base.digit().has(char),
            None => return false,
        }
    }
}

// Returns what is left after the exponent at `rest`, if there is one. An exponent without a digit
// is a fault.
fn past_exponent<'t>(text: &'t str, rest: &'t str) -> Result<Option<&'t str>, TextFault<'t>>
    ensures exact { passed_seen result ≡ spec.past_exponent (chars text.now) (chars rest.now) }
    ensures end { IsEnd text.now rest.now → IsEnd text.now (passed_stop text.now result) }
    ensures rest { length (passed_left result) ≤ length rest.now }
{
    let Some(following) = past_one(rest, CharClass::Exponent) else {
        return Ok(None);
    };
    let digits = past_one(following, CharClass::Sign).unwrap_or(following);
    if !has_digit(Base::Ten, digits) {
        return fault!(Exponent, text);
    }
    Ok(Some(past(digits, CharClass::Digit)))
}

// Returns what is left after the digits of a fraction and the exponent that may follow them.
fn past_digits<'t>(text: &'t str, digits: &'t str) -> Result<Option<&'t str>, TextFault<'t>>
    ensures exact { passed_seen result ≡ spec.past_digits (chars text.now) (chars digits.now) }
    ensures end { IsEnd text.now digits.now → IsEnd text.now (passed_stop text.now result) }
    ensures rest { length (passed_left result) ≤ length digits.now }
{
    let rest = past(digits, CharClass::Digit);
    match past_exponent(text, rest) {
        Ok(after) => Ok(Some(after.unwrap_or(rest))),
        Err(error) => Err(error),
    }
}

// Returns what is left after the fraction and the exponent at `rest`, if there is either. After a
// `.`, an exponent needs digits before it.
fn past_fraction<'t>(text: &'t str, rest: &'t str) -> Result<Option<&'t str>, TextFault<'t>>
    ensures exact { passed_seen result ≡ spec.past_fraction (chars text.now) (chars rest.now) }
    ensures end { IsEnd text.now rest.now → IsEnd text.now (passed_stop text.now result) }
    ensures rest { length (passed_left result) ≤ length rest.now }
{
    if !begins_with(rest, ".") {
        return past_exponent(text, rest);
    }
    let following = tail(rest);
    if begins_with(following, ".") || begins(following, CharClass::IdentStart) {
        Ok(None)
    } else if begins(following, CharClass::Decimal) {
        past_digits(text, following)
    } else {
        Ok(Some(following))
    }
}

// Returns the text from the first digit on that is too large for the base, if there is one.
fn large_digit(base: Base, digits: &str) -> Option<&str>
    ensures exact { maybe_seen result ≡ spec.large_digit base (chars digits.now) }
    ensures end { IfSome result (λ at. IsEnd digits.now at.now) }
{
    let mut rest = digits;
    'digits: loop {
        let (char, after) = split_first(rest)?;
        if base.is_digit_too_large(char) {
            return Some(rest);
        }
        if !CharClass::Digit.has(char) {
            return None;
        }
        rest = after;
    }
}

// Returns the float up to `rest`, where its suffix is.
fn float<'t>(base: Base, text: &'t str, rest: &'t str) -> ReadResult<'t>
    requires { IsEnd text.now rest.now }
    ensures exact { token_seen result ≡ spec.float base (chars text.now) (chars rest.now) }
    ensures end { IsEnd text.now (read_stop result) }
    ensures rest { length (read_left result) ≤ length rest.now }
{
    match base {
        Base::Ten => literal(LitKind::Float, front(text, rest), rest),
        _ => fault!(FloatBase, text),
    }
}

// Returns the integer up to `rest`, where its suffix is. Checks its digits.
fn integer<'t>(base: Base, text: &'t str, digits: &'t str, rest: &'t str) -> ReadResult<'t>
    requires { IsEnd text.now rest.now }
    ensures exact { token_seen result
        ≡ spec.integer base (chars text.now) (chars digits.now) (chars rest.now) }
    ensures end { IsEnd text.now digits.now → IsEnd text.now (read_stop result) }
    ensures rest { length (read_left result) ≤ length rest.now }
{
    match large_digit(base, digits) {
        Some(at) => fault!(Digit, at),
        None => literal(LitKind::Integer, front(text, rest), rest),
    }
}

// Reads a number.
fn number(text: &str) -> ReadResult<'_>
    ensures exact { token_seen result ≡ spec.number (chars text.now) }
    ensures end { IsEnd text.now (read_stop result) }
    ensures past { 0 < length text.now → length (read_left result) < length text.now }
{
    let (base, digits) = base_of(text);
    if !has_digit(base, digits) {
        return fault!(NoDigits, text);
    }
    let rest = past(tail(digits), base.digit());
    match past_fraction(text, rest) {
        Ok(Some(after)) => float(base, text, after),
        Ok(None) => integer(base, text, digits, rest),
        Err(error) => Err(error),
    }
}

// ---- comments

// Returns the text from the `*/` on that ends a block comment. `text` is what follows the
// comment's opening marks.
fn comment_end(text: &str) -> Option<&str>
    ensures exact { maybe_seen result ≡ extents.from_comment_end false 0 (chars text.now) }
    ensures end { IfSome result (λ end. IsEnd text.now end.now) }
{
    let mut rest = text;
    let mut depth = 0u64;
    'chars: loop {
        let (_, after) = split_first(rest)?;
        if begins_with(rest, "/*") {
            depth += 1;
            rest = tail(after);
        } else if !begins_with(rest, "*/") {
            rest = after;
        } else if depth == 0 {
            return Some(rest);
        } else {
            depth -= 1;
            rest = tail(after);
        }
    }
}

// Returns whether a doc comment is next: `///` or `//!`, `/**` or `/*!`. `////`, `/***` and `/**/`
// don't begin one.
pub(crate) fn begins_doc(text: &str) -> bool
    ensures exact { result ≡ spec.begins_doc (chars text.now) }
    ensures some { IsTrue result → 0 < length text.now }
{
    if !is_at(text, '/') {
        return false;
    }
    (begins_with(text, "///") && !begins_with(text, "////"))
        || begins_with(text, "//!")
        || (begins_with(text, "/**") && !(begins_with(text, "/***") || begins_with(text, "/**/")))
        || begins_with(text, "/*!")
}

// Returns the text from the first carriage return on. Few texts have a carriage return, and a
// search of the bytes is the fastest test for one.
fn from_carriage_return(text: &str) -> Option<&str>
    ensures exact { maybe_seen result ≡ spec.from_carriage_return (chars text.now) }
    ensures end { IfSome result (λ at. IsEnd text.now at.now) }
{
    if !text.as_bytes().contains(&b'\r') {
        return None;
    }
    let mut rest = text;
    'chars: loop {
        let (char, after) = split_first(rest)?;
        if char == '\r' {
            return Some(rest);
        }
        rest = after;
    }
}

// Returns the doc comment whose text is `body` up to `end`, and the rest after the comment. A
// carriage return in the text is a fault.
fn doc_until<'t>(is_inner: bool, body: &'t str, end: &'t str, rest: &'t str) -> ReadResult<'t>
    requires { IsEnd body.now end.now }
    ensures exact { token_seen result
        ≡ spec.doc_until is_inner (chars body.now) (chars end.now) (chars rest.now) }
    ensures end { IsEnd body.now rest.now → IsEnd body.now (read_stop result) }
    ensures left { length (read_left result) ≤ length rest.now }
{
    let text = front(body, end);
    match from_carriage_return(text) {
        Some(at) => Err(fault_inside(body, end, LexFaultKind::BareCarriageReturn, at)),
        None => Ok((Lexeme::Doc { text, is_inner }, rest)),
    }
}

// Reads a doc comment.
fn doc(text: &str) -> ReadResult<'_>
    ensures exact { token_seen result ≡ spec.doc (chars text.now) }
    ensures end { IsEnd text.now (read_stop result) }
    ensures past { 0 < length text.now → length (read_left result) < length text.now }
{
    let is_inner = begins_with(text, "//!") || begins_with(text, "/*!");
    let body = tail(tail(tail(text)));
    if begins_with(text, "//") {
        let end = past(body, CharClass::NotLineFeed);
        return doc_until(is_inner, body, end, end);
    }
    match comment_end(body) {
        Some(end) => doc_until(is_inner, body, end, tail(tail(end))),
        None => fault!(UnterminatedComment, text),
    }
}

// ---- the table

// Returns whether a `#` is next, right before another `#` or a string. Edition 2024 reserves that.
fn is_guard(edition: Edition, text: &str) -> bool
    ensures exact { result ≡ spec.is_guard edition (chars text.now) }
    ensures some { IsTrue result → 0 < length text.now }
{
    edition.at_least_2024() && (begins_with(text, "##") || begins_with(text, "#\""))
}

// Returns the fault of such a `#`.
fn guard_fault(text: &str) -> TextFault<'_>
    ensures exact { fault_seen result ≡ spec.guard_fault (chars text.now) }
    ensures end { IsEnd text.now result.at.now }
{
    let quote = past(text, CharClass::Hash);
    let (fault_kind, at) = if !begins_with(quote, "\"") {
        (LexFaultKind::Hashes, text)
    } else if string_end(tail(quote)).is_none() {
        (LexFaultKind::UnterminatedString, quote)
    } else {
        (LexFaultKind::GuardedString, text)
    };
    TextFault { fault_kind, at }
}

/// Reads the token of Rust at the front of a text, and returns it with what is left. Returns
/// `None` for a punct or a delimiter, which both dialects read in the same way.
pub(crate) fn read_rust(edition: Edition, text: &str) -> Option<ReadResult<'_>>
    ensures exact { seen result ≡ spec.read_rust edition (chars text.now) }
    ensures end { IfSome result (λ read. IsEnd text.now (read_stop read)) }
    ensures past { IfSome result (λ read. length (read_left read) < length text.now) }
{
    if is_at(text, 'r') {
        Some(read_r(edition, text))
    } else if is_at(text, 'b') {
        Some(read_b(edition, text))
    } else if is_at(text, 'c') {
        Some(read_c(edition, text))
    } else if begins(text, CharClass::IdentStart) {
        Some(identifier(edition, text))
    } else if begins(text, CharClass::Decimal) {
        Some(number(text))
    } else if is_at(text, '"') {
        Some(string(LitKind::Str, EscapeMode::Str, text))
    } else if is_at(text, '\'') {
        Some(read_quote(edition, text))
    } else if is_guard(edition, text) {
        Some(Err(guard_fault(text)))
    } else if begins_doc(text) {
        Some(doc(text))
    } else {
        None
    }
}
