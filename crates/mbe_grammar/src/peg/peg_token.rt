// The tokens of a grammar's text: `token_at` finds the one at the front of a text.
ghost use Rattle.std.specs.Prelude.{◌≡◌, ◌<◌, option_map};
ghost use Rattle.mbe_grammar.specs.Peg.Views.{token_result_model, start_of_name, parts_model};
ghost use Rattle.mbe_grammar.specs.Peg.Tokens as spec;

use crate::peg::peg_error::PegErrorKind;
use mbe_tt::tt::DelimiterKind;

/// A token of a grammar's text.
#[derive(Clone, Copy, Debug, Drop, PartialEq, Eq)]
pub enum PegToken<'t> {
    /// A name and the `=` after it.
    Define(&'t str),
    /// Any other name.
    Name(&'t str),
    /// A text between two `"`.
    Word(&'t str),
    /// A text between two `'`.
    Operator(&'t str),
    /// The character between two "`".
    Sign(char),
    /// The name of a kind of groups, and the `[` after it.
    Inside(DelimiterKind),
    /// One of `| & ~ ? * + ! ( ) ]`.
    Mark(char),
}

/// A token and the text after it. It is `None` at the end of a line and at a comment.
pub type TokenResult<'t> = Result<Option<(PegToken<'t>, &'t str)>, PegErrorKind<'t>>;

fn is_of_name(char: char) -> bool
    ensures { result ≡ spec.is_of_name char }
{
    char.is_ascii_alphanumeric() || char == '_'
}

fn is_mark(char: char) -> bool
    ensures { result ≡ spec.is_mark char }
{
    matches!(
        char,
        '|' | '&' | '~' | '?' | '*' | '+' | '!' | '(' | ')' | ']'
    )
}

// The kind of groups with this name.
fn kind_of(name: &str) -> Option<DelimiterKind>
    ensures { result ≡ spec.kind_named name.now }
{
    match name {
        "PAREN" => Some(DelimiterKind::Parenthesis),
        "BRACE" => Some(DelimiterKind::Brace),
        "BRACKET" => Some(DelimiterKind::Bracket),
        "INVISIBLE" => Some(DelimiterKind::Invisible),
        _ => None,
    }
}

// The first character of a text, and the text after it.
fn first_char(text: &str) -> Option<(char, &str)>
    ensures { option_map (λ p. (p.0, p.1.now)) result ≡ spec.first_char text.now }
{
    let mut chars = text.chars();
    let char = chars.next()?;
    Some((char, chars.as_str()))
}

// The text up to the next quote, and the text after that quote. `after` is the text after the first
// quote.
#[tactic(auto, unfolding(crate::specs::Peg::Tokens::quoted))]
fn quoted<'t>(after: &'t str, quote: char) -> Result<(&'t str, &'t str), PegErrorKind<'t>>
    requires { quote < 128 }
    ensures { parts_model result ≡ spec.quoted quote after.now }
{
    match after.split_once(quote) {
        None => Err(PegErrorKind::Unclosed),
        Some(("", _rest)) => Err(PegErrorKind::Empty),
        Some(parts) => Ok(parts),
    }
}

// A token of one character, which a "`" follows.
#[tactic(auto, unfolding(crate::specs::Peg::Tokens::sign_at))]
fn sign(after: &str) -> TokenResult<'_>
    ensures { token_result_model result ≡ spec.sign_at after.now }
{
    let Some((char, rest)) = first_char(after) else {
        return Err(PegErrorKind::ExpectedSign);
    };
    match first_char(rest) {
        Some(('`', rest)) => Ok(Some((PegToken::Sign(char), rest))),
        _ => Err(PegErrorKind::ExpectedSign),
    }
}

// The length of the name at the front of a text.
#[tactic(auto, using(crate::proofs::ReadText::CharLemmas::name_end))]
fn name_len(text: &str) -> usize
    ensures { result ≡ spec.name_len text.now }
{
    text.as_bytes()
        .iter()
        .position(|b| !is_of_name(char::from(*b)))
        .unwrap_or(text.len())
}

// The text after this character, if the text begins with it.
fn after_char(text: &str, char: char) -> Option<&str>
    requires { char < 128 }
    ensures { option_map (λ t. t.now) result ≡ spec.after_byte char text.now }
{
    text.strip_prefix(char)
}

// A name with the `[` that belongs to it, or without. `rest` is the text after the name.
fn inside_or_name<'t>(name: &'t str, rest: &'t str) -> (PegToken<'t>, &'t str)
    ensures { start_of_name result ≡ spec.inside_or_name name.now rest.now
        (spec.kind_named name.now) (spec.after_byte 91 rest.now) }
{
    match (kind_of(name), after_char(rest, '[')) {
        (Some(kind), Some(rest)) => (PegToken::Inside(kind), rest),
        _ => (PegToken::Name(name), rest),
    }
}

// A name, with the `=` or the `[` that belongs to it.
#[tactic(auto, unfolding(crate::specs::Peg::Tokens::name_at))]
fn name(text: &str) -> (PegToken<'_>, &str)
    ensures { start_of_name result ≡ spec.name_at text.now }
{
    let (name, rest) = text.split_at(name_len(text));
    match after_char(rest.trim_start(), '=') {
        Some(rest) => (PegToken::Define(name), rest),
        None => inside_or_name(name, rest),
    }
}

/// The token at the front of a text that doesn't begin with white space.
#[tactic(auto, unfolding(crate::specs::Peg::Tokens::token_at))]
pub fn token_at(text: &str) -> TokenResult<'_>
    ensures { token_result_model result ≡ spec.token_at text.now }
{
    match first_char(text) {
        None | Some(('#', _)) => Ok(None),
        Some(('"', after)) => {
            let (text, rest) = quoted(after, '"')?;
            Ok(Some((PegToken::Word(text), rest)))
        }
        Some(('\'', after)) => {
            let (text, rest) = quoted(after, '\'')?;
            Ok(Some((PegToken::Operator(text), rest)))
        }
        Some(('`', after)) => sign(after),
        Some((char, after)) if is_mark(char) => Ok(Some((PegToken::Mark(char), after))),
        Some((char, _)) if is_of_name(char) => Ok(Some(name(text))),
        Some(_) => Err(PegErrorKind::InvalidToken),
    }
}
