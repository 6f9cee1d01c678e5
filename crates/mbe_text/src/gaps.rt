// The gap between a token and what was written before it: nothing, a space, or a new line.
//
// `LastToken` records what was written last. Its methods say which tokens may follow it without a
// space, and `gap_between` chooses the gap.
ghost use Rattle.std.specs.Prelude.{◌≡◌};
ghost use Rattle.std.specs.List.{list_any};
ghost use Rattle.std.specs.Str.{bytes_eq};
ghost use Rattle.mbe_text.specs.RustText.Gaps as spec;

use mbe_tt::span::Span;
use mbe_tt::tt::Spacing;

// What was written last.
#[derive(Clone, Copy, Drop)]
pub(crate) enum LastToken {
    // Nothing, or a doc comment, which ends its line.
    Start,
    Word,
    Keyword,
    Literal,
    // A punct that is joint to what follows it in its source text.
    Joint(char),
    Alone(char),
    // The second `:` of a `::`.
    Colons,
    Open,
    OpenBrace,
    Close,
    CloseBrace,
    Semicolon,
}

// The gap before a token.
#[derive(Drop)]
pub(crate) enum Gap {
    Nothing,
    Space,
    Line,
}

// Words that a space follows.
const KEYWORDS: &[&str] = &[
    "as", "async", "await", "break", "const", "dyn", "else", "enum", "extern", "fn", "for", "if",
    "impl", "in", "let", "loop", "match", "mod", "move", "mut", "pub", "ref", "return", "static",
    "struct", "trait", "type", "unsafe", "use", "where", "while", "yield",
];

fn are_adjacent(last: Span, next: Span) -> bool
    ensures { result ≡ spec.are_adjacent last next }
{
    last.file == next.file && last.end == next.start && last.start < last.end
}

// Returns whether a token is right after the last written one in the same file.
pub(crate) fn is_adjacent(last: Option<Span>, next: Span) -> bool
    ensures { result ≡ spec.is_adjacent last next }
{
    match last {
        Some(last) => are_adjacent(last, next),
        None => false,
    }
}

// Returns whether a token is right before the next one in the same file.
pub(crate) fn is_adjacent_to_next(token_span: Span, next: Option<Span>) -> bool
    ensures { result ≡ spec.is_adjacent_to_next token_span next }
{
    match next {
        Some(next) => are_adjacent(token_span, next),
        None => false,
    }
}

// Returns whether a token has the same span as the last written one.
pub(crate) fn has_same_span(last: Option<Span>, next: Span) -> bool
    ensures { result ≡ spec.has_same_span last next }
{
    match last {
        Some(last) => {
            last.file == next.file
                && last.ast == next.ast
                && last.start == next.start
                && last.end == next.end
                && last.ctx.0 == next.ctx.0
        }
        None => false,
    }
}

// Chooses a gap: a new line if one must begin, else a space if the tokens must be kept apart and
// aren't adjacent in one file, else nothing.
pub(crate) fn gap_between(begins_line: bool, is_apart: bool, is_adjacent: bool) -> Gap
    ensures { result ≡ spec.gap begins_line is_apart is_adjacent }
{
    if begins_line {
        Gap::Line
    } else if is_apart && !is_adjacent {
        Gap::Space
    } else {
        Gap::Nothing
    }
}

// Returns what to record as written last after a word.
pub(crate) fn last_word(text: &str) -> LastToken
    ensures { result ≡ spec.last_word text.now }
{
    if is_any_of(text, KEYWORDS) {
        LastToken::Keyword
    } else {
        LastToken::Word
    }
}

fn is_any_of(text: &str, texts: &[&str]) -> bool
    ensures { result ≡ list_any (λ t. bytes_eq text.now t.now) texts.now }
{
    texts.iter().any(|t| text == *t)
}

// Returns whether a word continues what a `}` closes.
pub(crate) fn continues_block(text: &str) -> bool
    ensures { result ≡ spec.continues_block text.now }
{
    text == "else" || text == "as"
}

// Returns what to record as written last after a punct. `after_colon` says whether a `:` that is
// joint to the punct is before it.
pub(crate) fn last_punct(spacing: Spacing, char: char, after_colon: bool) -> LastToken
    ensures { result ≡ spec.last_punct spacing char after_colon }
{
    match spacing {
        Spacing::Joint => LastToken::Joint(char),
        Spacing::Alone if char == ';' => LastToken::Semicolon,
        Spacing::Alone if char == ':' && after_colon => LastToken::Colons,
        Spacing::Alone => LastToken::Alone(char),
    }
}

// Returns whether a punct belongs to what a template has right after it, as in `&$x` or `Vec<$t>`.
fn is_prefix(char: char) -> bool
    ensures { result ≡ spec.is_prefix char }
{
    matches!(char, '&' | '*' | '-' | '!' | ':' | '<')
}

// Returns whether a punct with this spacing is joint.
pub(crate) fn is_joint(spacing: Spacing) -> bool
    ensures { result ≡ spec.is_joint spacing }
{
    match spacing {
        Spacing::Joint => true,
        Spacing::Alone => false,
    }
}

impl LastToken {
    // Returns whether a line ends here. After a `}` that depends on what follows.
    pub(crate) fn ends_line(self, ends_brace: bool) -> bool
        ensures { result ≡ spec.ends_line self ends_brace }
    {
        match self {
            LastToken::OpenBrace | LastToken::Semicolon => true,
            LastToken::CloseBrace => ends_brace,
            _ => false,
        }
    }

    // Returns whether a word right here would merge with the last token. It would with a word and
    // with a literal.
    pub(crate) fn merges_with_word(self) -> bool
        ensures { result ≡ spec.merges_with_word self }
    {
        matches!(
            self,
            LastToken::Word | LastToken::Keyword | LastToken::Literal
        )
    }

    // Returns whether a literal right here would merge with the last token. It would with a word
    // and with a literal. A `#` right before a string would guard it.
    pub(crate) fn merges_with_literal(self) -> bool
        ensures { result ≡ spec.merges_with_literal self }
    {
        match self {
            LastToken::Word | LastToken::Keyword | LastToken::Literal => true,
            LastToken::Alone(c) | LastToken::Joint(c) => c == '#',
            _ => false,
        }
    }

    // Returns whether a word is kept apart from the last token.
    pub(crate) fn separates_word(self) -> bool
        ensures { result ≡ spec.separates_word self }
    {
        match self {
            LastToken::Start | LastToken::Open | LastToken::Colons => false,
            LastToken::Alone(c) => !matches!(c, '.' | '#' | '$' | '\''),
            LastToken::Joint(c) => !matches!(c, '.' | '#' | '$' | '\'') && !is_prefix(c),
            _ => true,
        }
    }

    // Returns whether a literal is kept apart from the last token.
    pub(crate) fn separates_literal(self) -> bool
        ensures { result ≡ spec.separates_literal self }
    {
        match self {
            LastToken::Start | LastToken::Open => false,
            LastToken::Alone(c) => c != '.',
            LastToken::Joint(c) => c != '.' && !is_prefix(c),
            _ => true,
        }
    }

    // Returns whether a punct is kept apart from the last token. A separator is joint to what the
    // definition has after it, which isn't what is written after it. Two puncts with one span were
    // made together, as the `::` of a path. A text that begins with a joint `#` could be read as a
    // shebang.
    pub(crate) fn separates_punct(self, same_span: bool, char: char, spacing: Spacing) -> bool
        ensures { result ≡ spec.separates_punct self same_span char spacing }
    {
        match self {
            LastToken::Start => is_joint(spacing) && char == '#',
            LastToken::Open => false,
            LastToken::Joint(_) => !same_span,
            LastToken::Word => !matches!(char, ',' | ';' | '?' | '.' | ':' | '!'),
            LastToken::Close | LastToken::CloseBrace => !matches!(char, ',' | ';' | '?' | '.'),
            LastToken::Literal => !matches!(char, ',' | ';' | '?'),
            _ => true,
        }
    }

    // Returns whether a punct may directly follow the last token. The two are adjacent in a file.
    //
    // - After a word, `#` and `'` may not. The word would become a prefix.
    // - After a literal, `.` may only if the token after it is adjacent too. `1.` alone is another
    //   number.
    // - After a punct that is alone, only `'` may. It begins a lifetime.
    pub(crate) fn may_touch_punct(self, char: char, beside_next: bool) -> bool
        ensures { result ≡ spec.may_touch_punct self char beside_next }
    {
        match self {
            LastToken::Word | LastToken::Keyword => !matches!(char, '#' | '\''),
            LastToken::Literal => beside_next || char != '.',
            LastToken::Alone(_) | LastToken::Colons | LastToken::Semicolon => char == '\'',
            _ => true,
        }
    }

    // Returns whether a `:` here makes a `::`.
    pub(crate) fn is_colon(self) -> bool
        ensures { result ≡ spec.is_colon self }
    {
        match self {
            LastToken::Joint(c) => c == ':',
            _ => false,
        }
    }

    // Returns whether an opening is kept apart from the last token.
    pub(crate) fn separates_opening(self, is_brace: bool) -> bool
        ensures { result ≡ spec.separates_opening self is_brace }
    {
        match self {
            LastToken::Start | LastToken::Open | LastToken::Joint(_) | LastToken::OpenBrace =>
                false,
            LastToken::Word | LastToken::Close => is_brace,
            LastToken::Alone(c) => is_brace || !matches!(c, '!' | '#' | '.'),
            _ => true,
        }
    }

    // Returns whether the last token is a `{`.
    pub(crate) fn is_open_brace(self) -> bool
        ensures { result ≡ spec.is_open_brace self }
    {
        matches!(self, LastToken::OpenBrace)
    }

    // Returns whether a line begins here.
    pub(crate) fn is_line_start(self) -> bool
        ensures { result ≡ spec.is_line_start self }
    {
        matches!(self, LastToken::Start)
    }

    // Returns whether a doc comment may be next. A joint punct before one would become alone.
    pub(crate) fn may_precede_comment(self) -> bool
        ensures { result ≡ spec.may_precede_comment self }
    {
        !matches!(self, LastToken::Joint(_))
    }
}
