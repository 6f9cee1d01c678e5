// The classes of puncts and words that hygiene distinguishes.
ghost use Rattle.std.specs.Prelude.{◌≡◌};
ghost use Rattle.std.specs.List.{list_any};
ghost use Rattle.std.specs.Str.{bytes_eq};
ghost use Rattle.mbe_tt.specs.Views.LeafViews.{ident_of};
ghost use Rattle.mbe_rewriter.specs.Hygiene.TokenClasses as spec;

use mbe_tt::tt::{Ident, IdentIsRaw};
use std::alloc::Allocator;

/// A class of puncts.
#[derive(Clone, Copy, Drop)]
pub(crate) enum Sign {
    Dot,
    Colon,
    Quote,
    Dollar,
    Hash,
    Bang,
    Equals,
    // A `>`.
    Angle,
    Comma,
    Semicolon,
    Bar,
    Question,
    At,
    Other,
}

/// A class of words.
#[derive(Drop)]
pub(crate) enum WordClass {
    Let,
    For,
    In,
    If,
    // An expression follows, and then braces that are a block.
    Head,
    // The name of an item follows, or a type, and then braces that are no fields.
    Header,
    // The name of an item follows.
    Item,
    // A label may follow.
    Jump,
    // A loop, which a label may precede.
    Loop,
    // Any other keyword that an expression or a pattern may follow.
    Keyword,
    // A word that is a value or a type, and no name.
    Value,
    Name,
}

const HEADS: &[&str] = &["match"];

const HEADERS: &[&str] = &["fn", "impl", "trait", "mod", "enum"];

const ITEMS: &[&str] = &["const", "macro", "static", "struct", "type", "use"];

const JUMPS: &[&str] = &["break", "continue"];

const LOOPS: &[&str] = &["loop", "while"];

const KEYWORDS: &[&str] = &[
    "as", "async", "await", "box", "do", "dyn", "else", "extern", "move", "mut", "pub", "ref",
    "return", "unsafe", "where", "yield",
];

// The built-in macros that take their argument as text, or as names of other things than locals.
const TEXT_MACROS: &[&str] = &[
    "cfg",
    "compile_error",
    "concat",
    "concat_bytes",
    "env",
    "include",
    "include_bytes",
    "include_str",
    "offset_of",
    "option_env",
    "stringify",
];

const VALUES: &[&str] = &[
    "Self", "_", "bool", "char", "crate", "f32", "f64", "false", "i128", "i16", "i32", "i64", "i8",
    "isize", "self", "str", "super", "true", "u128", "u16", "u32", "u64", "u8", "usize",
];

pub(crate) fn is_text_of(text: &str, texts: &[&str]) -> bool
    ensures { result ≡ list_any (λ t. bytes_eq text.now t.now) texts.now }
{
    texts.iter().any(|t| text == *t)
}

/// Returns whether a built-in macro of that name takes its argument as text, or as names of other
/// things than locals.
pub(crate) fn is_text_macro(name: &str) -> bool
    ensures { result ≡ spec.is_one_of spec.text_macros name.now }
{
    is_text_of(name, TEXT_MACROS)
}

pub(crate) fn sign_of(char: char) -> Sign
    ensures { result ≡ spec.sign_of char }
{
    if char == '.' {
        return Sign::Dot;
    }
    if char == ':' {
        return Sign::Colon;
    }
    if char == '=' {
        return Sign::Equals;
    }
    if char == '>' {
        return Sign::Angle;
    }
    if char == ',' {
        return Sign::Comma;
    }
    if char == ';' {
        return Sign::Semicolon;
    }
    if char == '|' {
        return Sign::Bar;
    }
    rarer_sign(char)
}

fn rarer_sign(char: char) -> Sign
    ensures { result ≡ spec.rarer_sign char }
{
    if char == '\'' {
        return Sign::Quote;
    }
    if char == '$' {
        return Sign::Dollar;
    }
    if char == '#' {
        return Sign::Hash;
    }
    if char == '!' {
        return Sign::Bang;
    }
    if char == '?' {
        return Sign::Question;
    }
    if char == '@' {
        return Sign::At;
    }
    Sign::Other
}

fn word_class_of_text(text: &str) -> WordClass
    ensures { result ≡ spec.word_class_of_text text.now }
{
    if text == "let" {
        return WordClass::Let;
    }
    if text == "for" {
        return WordClass::For;
    }
    if text == "in" {
        return WordClass::In;
    }
    if text == "if" {
        return WordClass::If;
    }
    if is_text_of(text, HEADS) {
        return WordClass::Head;
    }
    if is_text_of(text, LOOPS) {
        return WordClass::Loop;
    }
    rarer_word_class(text)
}

fn rarer_word_class(text: &str) -> WordClass
    ensures { result ≡ spec.rarer_word_class text.now }
{
    if is_text_of(text, HEADERS) {
        return WordClass::Header;
    }
    if is_text_of(text, ITEMS) {
        return WordClass::Item;
    }
    if is_text_of(text, JUMPS) {
        return WordClass::Jump;
    }
    if is_text_of(text, KEYWORDS) {
        return WordClass::Keyword;
    }
    if is_text_of(text, VALUES) {
        return WordClass::Value;
    }
    WordClass::Name
}

/// Returns the class of an identifier. An identifier with `r#` is a name.
pub(crate) fn word_class_of<A: Allocator>(ident: &Ident<A>) -> WordClass
    ensures { result ≡ spec.word_class_of (ident_of ident.now) }
{
    match ident.is_raw {
        IdentIsRaw::Yes => WordClass::Name,
        IdentIsRaw::No => word_class_of_text(ident.sym.as_str()),
    }
}
