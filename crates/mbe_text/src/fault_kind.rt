// The kinds of faults in a text, and their messages.
//
// A `LexFaultKind` says what is wrong. A `TextFault` also holds the text from there on.
use std::fmt;

/// A kind of fault in a text of the Rust dialect. `Display` writes rustc's message, without the
/// names that rustc quotes.
#[derive(Clone, Copy, Debug, Drop, PartialEq, Eq)]
pub enum LexFaultKind {
    /// A block comment without its `*/`.
    UnterminatedComment,
    /// A string without its closing quote.
    UnterminatedString,
    /// A raw string without its closing quote and `#`s.
    UnterminatedRawString,
    /// A char without its closing quote.
    UnterminatedChar,
    /// A byte without its closing quote.
    UnterminatedByte,
    /// A char or a byte without a character.
    EmptyChar,
    /// A char or a byte with more than one character.
    MultipleChars,
    /// A character that a char or a byte must escape, such as a line feed.
    UnescapedChar,
    /// A carriage return in a string or in a doc comment.
    BareCarriageReturn,
    /// A `\` before a character that begins no escape.
    Escape,
    /// A `\x` with fewer than two digits before the end of the literal.
    ShortHexEscape,
    /// A character in a `\x` that is no digit.
    HexEscapeDigit,
    /// A `\x` above 0x7F in a char or a string.
    OutOfRangeHexEscape,
    /// A `\u` without its `{`.
    UnicodeEscapeBrace,
    /// A `\u{` before a `_`.
    UnicodeEscapeStart,
    /// A character in a `\u{..}` that is neither a digit nor a `_`.
    UnicodeEscapeDigit,
    /// A `\u{}`.
    EmptyUnicodeEscape,
    /// A `\u{` without its `}`.
    UnterminatedUnicodeEscape,
    /// A `\u{..}` with more than six digits.
    OverlongUnicodeEscape,
    /// A `\u{..}` whose value is no char.
    UnicodeEscapeValue,
    /// A `\u` in a byte or a byte string.
    UnicodeEscapeInBytes,
    /// A character beyond ASCII in a byte or a byte string.
    NonAscii,
    /// A null character in a C string.
    Nul,
    /// A raw string whose `#`s no quote follows.
    RawStringStart,
    /// A raw string with more than 255 `#`s.
    TooManyHashes,
    /// A number without a digit.
    NoDigits,
    /// A digit that is too large for the base of its number.
    Digit,
    /// An exponent without a digit.
    Exponent,
    /// A float in a base other than ten.
    FloatBase,
    /// The suffix `_`.
    UnderscoreSuffix,
    /// A suffix of more than 255 bytes.
    LongSuffix,
    /// An identifier right before a `#` or a quote that makes no known literal.
    Prefix,
    /// A `r#` before a name that can't be raw, such as `self`.
    InvalidRawIdentifier,
    /// A lifetime whose name begins with a digit.
    LifetimeDigit,
    /// A `#` right before a string, which edition 2024 reserves.
    GuardedString,
    /// Two `#`s in a row, which edition 2024 reserves.
    Hashes,
    /// A character that begins no token.
    Start,
    /// A closing that doesn't match the innermost open group.
    Closing,
    /// A group that is open at the end of the text.
    Open,
}

impl LexFaultKind {
    fn quote_message(self) -> Option<&'static str> {
        match self {
            LexFaultKind::UnterminatedString => Some("unterminated double quote string"),
            LexFaultKind::UnterminatedRawString => Some("unterminated raw string"),
            LexFaultKind::UnterminatedChar => Some("unterminated character literal"),
            LexFaultKind::UnterminatedByte => Some("unterminated byte constant"),
            LexFaultKind::EmptyChar => Some("empty character literal"),
            LexFaultKind::MultipleChars => Some("character literal may only contain one codepoint"),
            LexFaultKind::UnescapedChar => Some("character constant must be escaped"),
            LexFaultKind::BareCarriageReturn => Some("bare CR not allowed"),
            LexFaultKind::NonAscii => Some("non-ASCII character in byte literal"),
            LexFaultKind::Nul => Some("null characters in C string literals are not supported"),
            LexFaultKind::RawStringStart => Some(
                "found invalid character; only `#` is allowed in raw string delimitation",
            ),
            LexFaultKind::TooManyHashes => {
                Some("too many `#` symbols: raw strings may be delimited by up to 255 `#` symbols")
            }
            LexFaultKind::GuardedString => Some("invalid string literal"),
            _ => None,
        }
    }

    fn escape_message(self) -> Option<&'static str> {
        match self {
            LexFaultKind::Escape => Some("unknown character escape"),
            LexFaultKind::ShortHexEscape => Some("numeric character escape is too short"),
            LexFaultKind::HexEscapeDigit => Some("invalid character in numeric character escape"),
            LexFaultKind::OutOfRangeHexEscape => Some("out of range hex escape"),
            LexFaultKind::UnicodeEscapeBrace => Some("incorrect unicode escape sequence"),
            LexFaultKind::UnicodeEscapeStart => Some("invalid start of unicode escape: `_`"),
            LexFaultKind::UnicodeEscapeDigit => Some("invalid character in unicode escape"),
            LexFaultKind::EmptyUnicodeEscape => Some("empty unicode escape"),
            LexFaultKind::UnterminatedUnicodeEscape => Some("unterminated unicode escape"),
            LexFaultKind::OverlongUnicodeEscape => Some("overlong unicode escape"),
            LexFaultKind::UnicodeEscapeValue => Some("invalid unicode character escape"),
            LexFaultKind::UnicodeEscapeInBytes => Some("unicode escape in byte string"),
            _ => None,
        }
    }

    fn other_message(self) -> &'static str {
        match self {
            LexFaultKind::UnterminatedComment => "unterminated block comment",
            LexFaultKind::NoDigits => "no valid digits found for number",
            LexFaultKind::Digit => "invalid digit for a literal of this base",
            LexFaultKind::Exponent => "expected at least one digit in exponent",
            LexFaultKind::FloatBase => "float literal of this base is not supported",
            LexFaultKind::UnderscoreSuffix => "underscore literal suffix is not allowed",
            LexFaultKind::LongSuffix => "suffix of a literal is longer than 255 bytes",
            LexFaultKind::Prefix => "prefix is unknown",
            LexFaultKind::InvalidRawIdentifier => "cannot be a raw identifier",
            LexFaultKind::LifetimeDigit => "lifetimes cannot start with a number",
            LexFaultKind::Hashes => "reserved multi-hash token is forbidden",
            LexFaultKind::Closing => "mismatched or unexpected closing delimiter",
            LexFaultKind::Open => "this file contains an unclosed delimiter",
            _ => "unknown start of token",
        }
    }

    /// Returns the message.
    pub fn message(self) -> &'static str {
        match self.quote_message() {
            Some(message) => message,
            None => self.escape_message().unwrap_or(self.other_message()),
        }
    }
}

impl fmt::Display for LexFaultKind {
    fn fmt<W: fmt::Write>(&self, f: &mut fmt::Formatter<W>) -> fmt::Result {
        f.write_str(self.message())
    }
}

/// A fault in a text: its kind, and the rest of the text from the fault on.
#[derive(Drop)]
pub(crate) struct TextFault<'t> {
    pub fault_kind: LexFaultKind,
    pub at: &'t str,
}

// The `Err` of a fault of that kind at that rest of the text.
macro_rules! fault {
    ($fault_kind:ident, $at:expr) => {
        Err(TextFault { fault_kind: LexFaultKind::$fault_kind, at: $at })
    };
}

pub(crate) use fault;
