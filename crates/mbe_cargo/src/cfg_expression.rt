// Evaluates the conditions `cfg(..)` of target-specific dependencies.
use std::alloc::{AllocError, Global};

/// An option for `cfg`: a name, or a name and a value.
#[derive(Clone, Copy, Drop)]
pub struct Cfg<'c> {
    pub name: &'c str,
    pub value: Option<&'c str>,
}

#[derive(Drop)]
enum Token<'t> {
    Open,
    Close,
    Comma,
    Equals,
    Word(&'t str),
    Text(&'t str),
}

#[derive(Drop)]
enum Kind {
    All,
    Any,
    Not,
}

// A list of conditions that is open: its kind, and the value so far. For `not` that is `any`.
#[derive(Drop)]
struct Level {
    kind: Kind,
    value: bool,
}

fn is_word(c: char) -> bool {
    c == '_' || c == '-' || c.is_ascii_alphanumeric()
}

// Returns the first token of a text and the text after it.
fn next_token(text: &str) -> Option<(Token<'_>, &str)> {
    let first = text.chars().next()?;
    let token = match first {
        '(' => Token::Open,
        ')' => Token::Close,
        ',' => Token::Comma,
        '=' => Token::Equals,
        _ => return next_text(text),
    };
    Some((token, text.strip_prefix(first)?))
}

// Returns the text in quotes or the word that a text begins with, and the text after it.
fn next_text(text: &str) -> Option<(Token<'_>, &str)> {
    if let Some(rest) = text.strip_prefix('"') {
        let (value, rest) = rest.split_once('"')?;
        return Some((Token::Text(value), rest));
    }
    let rest = text.trim_start_matches(is_word);
    let word = text.strip_suffix(rest)?;
    if word.is_empty() {
        return None;
    }
    Some((Token::Word(word), rest))
}

// Adds the tokens of a text. Returns whether each part of it is a token.
fn add_tokens<'t>(text: &'t str, found: &mut Vec<Token<'t>>) -> Result<bool, AllocError> {
    let mut rest = text.trim_start();
    for _ in 0..text.len() {
        if rest.is_empty() {
            break;
        }
        let Some((token, after)) = next_token(rest) else {
            return Ok(false);
        };
        found.push(token)?;
        rest = after.trim_start();
    }
    Ok(true)
}

fn kind_of(name: &str) -> Option<Kind> {
    match name {
        "cfg" | "all" => Some(Kind::All),
        "any" => Some(Kind::Any),
        "not" => Some(Kind::Not),
        _ => None,
    }
}

fn is_set(cfgs: &[Cfg<'_>], name: &str, value: Option<&str>) -> bool {
    for cfg in cfgs {
        if cfg.name == name && cfg.value == value {
            return true;
        }
    }
    false
}

// Adds a condition to the innermost open list.
fn combine(levels: &mut Vec<Level>, value: bool) {
    if let Some(level) = levels.last_mut() {
        level.value = match level.kind {
            Kind::All => level.value && value,
            Kind::Any | Kind::Not => level.value || value,
        };
    }
}

// Closes the innermost open list, and returns its value.
fn close(levels: &mut Vec<Level>) -> Option<bool> {
    let level = levels.pop()?;
    Some(match level.kind {
        Kind::All | Kind::Any => level.value,
        Kind::Not => !level.value,
    })
}

// Returns whether the option at `at` is set: a name, or a name and a value.
fn option_value(tokens: &[Token<'_>], at: usize, cfgs: &[Cfg<'_>], name: &str) -> bool {
    match (
        tokens.get(at.saturating_add(1)),
        tokens.get(at.saturating_add(2)),
    ) {
        (Some(Token::Equals), Some(Token::Text(value))) => is_set(cfgs, name, Some(*value)),
        _ => name == "true" || is_set(cfgs, name, None),
    }
}

// Evaluates the word at `at`: it opens a list, or it is an option. Returns whether it may be there.
fn take_word(
    tokens: &[Token<'_>],
    at: usize,
    cfgs: &[Cfg<'_>],
    name: &str,
    levels: &mut Vec<Level>,
) -> Result<bool, AllocError> {
    if !matches!(tokens.get(at.saturating_add(1)), Some(Token::Open)) {
        combine(levels, option_value(tokens, at, cfgs, name));
        return Ok(true);
    }
    let Some(kind) = kind_of(name) else {
        return Ok(false);
    };
    let value = matches!(kind, Kind::All);
    levels.push(Level { kind, value })?;
    Ok(true)
}

// Closes a list within another one. Returns whether there is one.
fn take_close(levels: &mut Vec<Level>) -> bool {
    match close(levels) {
        Some(value) => {
            combine(levels, value);
            true
        }
        None => false,
    }
}

// Evaluates the tokens. Returns whether they are conditions.
fn take_tokens(
    tokens: &[Token<'_>],
    cfgs: &[Cfg<'_>],
    levels: &mut Vec<Level>,
) -> Result<bool, AllocError> {
    for (at, token) in tokens.iter().enumerate() {
        let is_taken = match token {
            Token::Word(name) => take_word(tokens, at, cfgs, *name, levels)?,
            Token::Close => take_close(levels),
            Token::Open | Token::Comma | Token::Equals | Token::Text(_) => true,
        };
        if !is_taken {
            return Ok(false);
        }
    }
    Ok(true)
}

// Returns the value of the tokens as one condition. No list is open yet.
fn value_of(
    tokens: &[Token<'_>],
    cfgs: &[Cfg<'_>],
    levels: &mut Vec<Level>,
) -> Result<Option<bool>, AllocError> {
    levels.push(Level {
        kind: Kind::All,
        value: true,
    })?;
    if take_tokens(tokens, cfgs, levels)? && levels.len() == 1 {
        return Ok(close(levels));
    }
    Ok(None)
}

/// Evaluates `cfg(..)` under these options. `None` if the text isn't such a condition.
pub fn evaluate(alloc: Global, text: &str, cfgs: &[Cfg<'_>]) -> Result<Option<bool>, AllocError> {
    let mut tokens = Vec::new(alloc);
    if !add_tokens(text, &mut tokens)? {
        return Ok(None);
    }
    let mut levels = Vec::new(alloc);
    value_of(&tokens, cfgs, &mut levels)
}
