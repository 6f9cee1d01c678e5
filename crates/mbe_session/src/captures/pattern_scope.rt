// Finds the patterns among tokens, and the tokens where the names of a pattern are in scope. A
// `let`, a `for`, the `|` of a closure, or the `=>` of an arm announces a pattern.
use crate::captures::Token;
use mbe_tt::tt::DelimiterKind;
use std::alloc::{AllocError, Allocator};

// How many tokens before the `=>` of an arm are searched for the start of its pattern.
const MAX_PATTERN_TOKENS: usize = 100;

// How many trees are searched for a token that ends a pattern, a statement, or the like.
const MAX_TREES: usize = 1000;

// A pattern, and the scope of the names that it binds. Both are ranges of tokens.
#[derive(Clone, Copy, Drop)]
pub(crate) struct PatternScope {
    pub(crate) from: usize,
    pub(crate) to: usize,
    pub(crate) scope_from: usize,
    // The end of the scope. `None` if it is the end of the group around the pattern.
    pub(crate) scope_to: Option<usize>,
}

// Words that a pattern may have in place of a name or before one.
static PATTERN_WORDS: [&str; 10] = [
    "_", "box", "crate", "false", "if", "in", "mut", "ref", "self", "true",
];

fn is_char<A: Allocator>(tokens: &[Token<'_, A>], at: usize, char: char) -> bool {
    matches!(tokens.get(at), Some(Token::Punct(found)) if *found == char)
}

fn is_word<A: Allocator>(tokens: &[Token<'_, A>], at: usize, word: &str) -> bool {
    matches!(tokens.get(at), Some(Token::Name(found)) if found.sym.as_str() == word)
}

fn is_open<A: Allocator>(tokens: &[Token<'_, A>], at: usize, kind: DelimiterKind) -> bool {
    matches!(tokens.get(at), Some(Token::Open(found, _)) if *found == kind)
}

// Whether two chars are there, one after the other.
fn are_chars<A: Allocator>(tokens: &[Token<'_, A>], at: usize, first: char, second: char) -> bool {
    is_char(tokens, at, first) && is_char(tokens, at.saturating_add(1), second)
}

// The end of the range of tokens that is looked for.
#[derive(Clone, Copy, Drop)]
enum Stop {
    // The end of the pattern of a `let`.
    Value,
    Semicolon,
    // The end of the pattern of a `for`.
    In,
    Bar,
    // The end of an arm's expression, or of a closure's.
    Comma,
    Brace,
    Guard,
    Group,
}

fn is_stop<A: Allocator>(tokens: &[Token<'_, A>], at: usize, stop: Stop) -> bool {
    match stop {
        Stop::Value => {
            is_char(tokens, at, ';')
                || (is_char(tokens, at, '=') && !is_char(tokens, at.saturating_sub(1), '.'))
                || is_single_colon(tokens, at)
        }
        Stop::Semicolon => is_char(tokens, at, ';'),
        Stop::In => is_word(tokens, at, "in"),
        Stop::Bar => is_char(tokens, at, '|'),
        Stop::Comma => is_char(tokens, at, ',') || is_char(tokens, at, ';'),
        Stop::Brace => is_open(tokens, at, DelimiterKind::Brace),
        Stop::Guard => is_word(tokens, at, "if"),
        Stop::Group => false,
    }
}

// Whether a `:` is there that is no part of a `::`.
fn is_single_colon<A: Allocator>(tokens: &[Token<'_, A>], at: usize) -> bool {
    is_char(tokens, at, ':')
        && !is_char(tokens, at.saturating_add(1), ':')
        && !is_char(tokens, at.saturating_sub(1), ':')
}

// Returns the token after the tree at a token. A closing delimiter and the end have none.
fn after_tree<A: Allocator>(tokens: &[Token<'_, A>], at: usize) -> Option<usize> {
    match tokens.get(at) {
        Some(Token::Open(_, len)) => Some(at.saturating_add(*len).saturating_add(2)),
        Some(Token::Close) | None => None,
        Some(Token::Name(_) | Token::Punct(_) | Token::Literal) => Some(at.saturating_add(1)),
    }
}

// Returns the first stop from a token on, in the same group; the end of the group, if there is
// none. Only the end of a group is looked for behind more than `MAX_TREES` trees.
fn stop_after<A: Allocator>(tokens: &[Token<'_, A>], from: usize, stop: Stop) -> usize {
    let limit = match stop {
        Stop::Group => tokens.len(),
        _ => MAX_TREES,
    };
    let mut at = from;
    for _ in 0..limit {
        if is_stop(tokens, at, stop) {
            return at;
        }
        match after_tree(tokens, at) {
            Some(next) => at = next,
            None => return at.min(tokens.len()),
        }
    }
    at.min(tokens.len())
}

// Returns the pattern from one token up to another. Its names are in scope in the first braces
// after a third token.
fn brace_scope<A: Allocator>(
    tokens: &[Token<'_, A>],
    from: usize,
    to: usize,
    after: usize,
) -> Option<PatternScope> {
    let open = stop_after(tokens, after, Stop::Brace);
    if !is_open(tokens, open, DelimiterKind::Brace) {
        return None;
    }
    let scope_from = open.saturating_add(1);
    Some(PatternScope {
        from,
        to,
        scope_from,
        scope_to: None,
    })
}

fn let_scope<A: Allocator>(tokens: &[Token<'_, A>], at: usize) -> Option<PatternScope> {
    let from = at.saturating_add(1);
    let to = stop_after(tokens, from, Stop::Value);
    let before = at.saturating_sub(1);
    if is_word(tokens, before, "if") || is_word(tokens, before, "while") {
        return brace_scope(tokens, from, to, to);
    }
    if at > 0 && is_char(tokens, before, '&') {
        return None;
    }
    let scope_from = stop_after(tokens, to, Stop::Semicolon);
    Some(PatternScope {
        from,
        to,
        scope_from,
        scope_to: None,
    })
}

fn for_scope<A: Allocator>(tokens: &[Token<'_, A>], at: usize) -> Option<PatternScope> {
    let from = at.saturating_add(1);
    let to = stop_after(tokens, from, Stop::In);
    if !is_word(tokens, to, "in") {
        return None;
    }
    brace_scope(tokens, from, to, to)
}

// Whether a `|` there begins a closure: no operand precedes it.
fn begins_closure<A: Allocator>(tokens: &[Token<'_, A>], at: usize) -> bool {
    if at == 0 {
        return true;
    }
    match tokens.get(at - 1) {
        Some(Token::Open(kind, _)) => *kind != DelimiterKind::Brace,
        Some(Token::Punct(char)) => matches!(*char, ',' | '=' | ';'),
        Some(Token::Name(name)) => matches!(name.sym.as_str(), "move" | "return"),
        Some(Token::Close | Token::Literal) | None => false,
    }
}

fn closure_scope<A: Allocator>(tokens: &[Token<'_, A>], at: usize) -> Option<PatternScope> {
    if !begins_closure(tokens, at) {
        return None;
    }
    let from = at.saturating_add(1);
    let to = stop_after(tokens, from, Stop::Bar);
    if !is_char(tokens, to, '|') {
        return None;
    }
    let scope_from = to.saturating_add(1);
    Some(PatternScope {
        from,
        to,
        scope_from,
        scope_to: Some(stop_after(tokens, scope_from, Stop::Comma)),
    })
}

// Returns where the pattern of the arm begins whose `=>` is at `at`. `None` if it is too long.
fn arm_before<A: Allocator>(tokens: &[Token<'_, A>], at: usize) -> Option<usize> {
    let mut depth = 0usize;
    let mut first = at;
    for _ in 0..MAX_PATTERN_TOKENS {
        if first == 0 {
            return Some(0);
        }
        let last = first - 1;
        match tokens.get(last) {
            Some(Token::Close) => depth = depth.saturating_add(1),
            Some(Token::Open(..)) if depth == 0 => return Some(first),
            Some(Token::Open(..)) => depth -= 1,
            Some(Token::Punct(',')) if depth == 0 => return Some(first),
            Some(Token::Punct('>')) if depth == 0 => return Some(first),
            _ => {}
        }
        first = last;
    }
    None
}

fn arm_scope<A: Allocator>(tokens: &[Token<'_, A>], at: usize) -> Option<PatternScope> {
    let first = arm_before(tokens, at)?;
    // The braces of the arm before this one.
    let from = if is_open(tokens, first, DelimiterKind::Brace) {
        stop_after(tokens, first.saturating_add(1), Stop::Group).saturating_add(1)
    } else {
        first
    };
    let to = stop_after(tokens, from, Stop::Guard).min(at);
    let body = at.saturating_add(2);
    let scope_to = if is_open(tokens, body, DelimiterKind::Brace) {
        stop_after(tokens, body.saturating_add(1), Stop::Group)
    } else {
        stop_after(tokens, body, Stop::Comma)
    };
    Some(PatternScope {
        from,
        to,
        scope_from: to,
        scope_to: Some(scope_to),
    })
}

pub(crate) fn is_closing<A: Allocator>(tokens: &[Token<'_, A>], at: usize) -> bool {
    matches!(tokens.get(at), Some(Token::Close))
}

// Counts the angle brackets after a token. The `>` of a `->` is none.
fn angles_after<A: Allocator>(tokens: &[Token<'_, A>], at: usize, angles: usize) -> usize {
    if is_char(tokens, at, '<') {
        angles.saturating_add(1)
    } else if is_char(tokens, at, '>') && !is_char(tokens, at.saturating_sub(1), '-') {
        angles.saturating_sub(1)
    } else {
        angles
    }
}

// Returns the opening of a function's parameters, from a token on. Parentheses in the generic
// parameters before them don't count.
fn parameters_after<A: Allocator>(tokens: &[Token<'_, A>], from: usize) -> Option<usize> {
    let mut angles = 0usize;
    let mut at = from;
    for _ in 0..MAX_TREES {
        match tokens.get(at) {
            Some(Token::Open(DelimiterKind::Parenthesis, _)) if angles == 0 => return Some(at),
            Some(Token::Open(..) | Token::Punct(';')) if angles == 0 => return None,
            _ => angles = angles_after(tokens, at, angles),
        }
        at = after_tree(tokens, at)?;
    }
    None
}

// Returns the opening of a function's body, from a token on. A function may have none.
fn body_after<A: Allocator>(tokens: &[Token<'_, A>], from: usize) -> Option<usize> {
    let mut at = from;
    for _ in 0..MAX_TREES {
        match tokens.get(at) {
            Some(Token::Open(DelimiterKind::Brace, _)) => return Some(at),
            Some(Token::Punct(';')) => return None,
            _ => at = after_tree(tokens, at)?,
        }
    }
    None
}

// Returns the parameters of a function whose `fn` is there. They are in scope in its body.
pub(crate) fn function_scope<A: Allocator>(
    tokens: &[Token<'_, A>],
    at: usize,
) -> Option<PatternScope> {
    if !is_word(tokens, at, "fn") {
        return None;
    }
    let from = parameters_after(tokens, at.saturating_add(1))?.saturating_add(1);
    let to = stop_after(tokens, from, Stop::Group);
    let scope_from = body_after(tokens, to.saturating_add(1))?.saturating_add(1);
    Some(PatternScope {
        from,
        to,
        scope_from,
        scope_to: None,
    })
}

// Returns the tokens that a pattern or parameters bind. The types of parameters bind none.
pub(crate) fn bound_tokens<A: Allocator + Copy>(
    alloc: A,
    tokens: &[Token<'_, A>],
    pattern: PatternScope,
) -> Result<Vec<usize, A>, AllocError> {
    let mut bound = Vec::new(alloc);
    let mut depth = 0usize;
    let mut angles = 0usize;
    let mut is_type = false;
    for at in pattern.from..pattern.to {
        match tokens.get(at) {
            Some(Token::Open(..)) => depth = depth.saturating_add(1),
            Some(Token::Close) => depth = depth.saturating_sub(1),
            Some(Token::Punct(',')) if depth == 0 && angles == 0 => is_type = false,
            Some(Token::Punct(_)) if depth == 0 => {
                is_type = is_type || is_single_colon(tokens, at);
                angles = angles_after(tokens, at, angles);
            }
            Some(Token::Name(_)) if !is_type && is_bound(tokens, at, depth == 0) => {
                bound.push(at)?;
            }
            _ => {}
        }
    }
    Ok(bound)
}

// Returns the end of the scope of a pattern.
pub(crate) fn scope_end<A: Allocator>(tokens: &[Token<'_, A>], binding: PatternScope) -> usize {
    match binding.scope_to {
        Some(end) => end,
        None => stop_after(tokens, binding.scope_from, Stop::Group),
    }
}

// Returns the pattern that a token announces: `let`, `for`, the `|` of a closure, or the `=>` of an
// arm.
pub(crate) fn scope_at<A: Allocator>(tokens: &[Token<'_, A>], at: usize) -> Option<PatternScope> {
    if is_word(tokens, at, "let") {
        let_scope(tokens, at)
    } else if is_word(tokens, at, "for") {
        for_scope(tokens, at)
    } else if is_char(tokens, at, '|') {
        closure_scope(tokens, at)
    } else if are_chars(tokens, at, '=', '>') {
        arm_scope(tokens, at)
    } else {
        None
    }
}

// Whether a name is no part of a path, no lifetime, and no variable or call of a macro.
// `may_follow` says whether a `:` may follow the name.
fn is_alone<A: Allocator>(tokens: &[Token<'_, A>], at: usize, may_follow: bool) -> bool {
    let next = at.saturating_add(1);
    let is_after = match tokens.get(at.saturating_sub(1)) {
        Some(Token::Punct(char)) if at > 0 => match *char {
            '$' | '\'' => true,
            ':' => at > 1 && is_char(tokens, at - 2, ':'),
            _ => false,
        },
        _ => false,
    };
    let is_macro = is_char(tokens, next, '!') && !are_chars(tokens, next, '!', '=');
    let is_colon = is_char(tokens, next, ':') && !(may_follow && is_single_colon(tokens, next));
    !is_after && !is_macro && !is_colon
}

// Whether a pattern binds a name. A name in capitals may be a constant, so it doesn't count. A type
// may follow a name outside of any group of the pattern (`is_outside`); in a group, a name before a
// `:` is a field's.
pub(crate) fn is_bound<A: Allocator>(tokens: &[Token<'_, A>], at: usize, is_outside: bool) -> bool {
    let Some(Token::Name(name)) = tokens.get(at) else {
        return false;
    };
    let word = name.sym.as_str();
    let is_lowercase_name = word.starts_with(|char: char| char == '_' || char.is_ascii_lowercase());
    let next = at.saturating_add(1);
    is_lowercase_name
        && is_alone(tokens, at, is_outside)
        && !PATTERN_WORDS.contains(&word)
        && !is_open(tokens, next, DelimiterKind::Parenthesis)
        && !is_open(tokens, next, DelimiterKind::Brace)
}

// Whether a name may be the use of a local: it is alone, and no field or method.
pub(crate) fn is_used<A: Allocator>(tokens: &[Token<'_, A>], at: usize) -> bool {
    let is_field = at > 0
        && is_char(tokens, at - 1, '.')
        && (at == 1 || !is_char(tokens, at - 2, '.'));
    is_alone(tokens, at, false) && !is_field
}

// Returns the end of an attribute or of the rules of a macro, if one begins at a token.
pub(crate) fn end_of_inert<A: Allocator>(tokens: &[Token<'_, A>], at: usize) -> Option<usize> {
    let opening = if is_char(tokens, at, '#') {
        at.saturating_add(1)
    } else if is_word(tokens, at, "macro_rules") {
        at.saturating_add(3)
    } else {
        return None;
    };
    match tokens.get(opening) {
        Some(Token::Open(..)) => Some(stop_after(tokens, opening.saturating_add(1), Stop::Group)),
        _ => None,
    }
}

// Whether a name names an item there.
pub(crate) fn is_item_name<A: Allocator>(tokens: &[Token<'_, A>], at: usize) -> bool {
    if at == 0 {
        return false;
    }
    match tokens.get(at - 1) {
        Some(Token::Name(name)) => matches!(
            name.sym.as_str(),
            "const" | "enum" | "fn" | "mod" | "static" | "struct" | "trait" | "type" | "use"
        ),
        _ => false,
    }
}

// Whether a name is bound again, or names an item.
pub(crate) fn is_rebound<A: Allocator>(tokens: &[Token<'_, A>], at: usize) -> bool {
    if at == 0 {
        return false;
    }
    match tokens.get(at - 1) {
        Some(Token::Name(name)) => matches!(
            name.sym.as_str(),
            "const" | "fn" | "for" | "let" | "mod" | "mut" | "ref" | "static"
        ),
        _ => false,
    }
}
