// A scanner: it reads the tokens of a text one after another.
//
// A `Scanner` skips white space and comments, and then reads one token in its `Dialect`. This
// module reads the tokens of the sample dialect. `read_rust` reads those of Rust.
ghost use Rattle.std.specs.Prelude.{◌≡◌, ◌↔◌, ◌<◌, ◌≤◌, ◌+◌, ◌^◌, length, IsSome, IfSome, IfNone};
ghost use Rattle.std.specs.Prelude.{ℕ, true, List, [], ◌++◌, ◌∷◌, IfOk, IfErr};
ghost use Rattle.std.specs.Prelude.{encode_utf8, slice_range, chars, drop, Some, None, Ok, Err};
ghost use Rattle.std.specs.Prelude.{MatchOption, MatchResult, false, ◌==◌, is_some, unwrap_or};
ghost use Rattle.std.specs.Str.{IsUtf8};
ghost use Rattle.mbe_tt.specs.Trees.Literals.{opening, closing};
ghost use Rattle.mbe_text.specs.Rests.{IsRest, IsEnd, Begins};
ghost use Rattle.mbe_text.specs.Characters as characters;
ghost use Rattle.mbe_text.specs.Characters.{bytes_before};
ghost use Rattle.mbe_text.specs.Dialect.{read_sample, read_shape};
ghost use Rattle.mbe_text.specs.Dialect as dialects;
ghost use Rattle.mbe_text.specs.LexedTrees.{IsNext, next_token};
ghost use Rattle.mbe_text.specs.Punctuation as signs;
ghost use Rattle.mbe_text.specs.Shapes.{ReadsAs, shape_of};
ghost use Rattle.mbe_text.specs.Whitespace.{begins_comment, whitespace_class};
ghost use Rattle.mbe_text.specs.Trivia.{after_preamble};
ghost use Rattle.mbe_text.specs.LexFaults.{fault_at};
ghost use Rattle.mbe_text.specs.declared.dialect.Dialect.TheVariants.{Sample};
ghost use Rattle.mbe_text.specs.Identifiers as words;
ghost use Rattle.mbe_text.specs.Identifiers.{read_identifier};
ghost use Rattle.mbe_text.specs.Punctuation.{read_punctuation};
ghost use Rattle.mbe_text.specs.declared.fault_kind.LexFaultKind.TheVariants as fault_kind;
ghost use Rattle.mbe_text.specs.SampleLiterals as literals;
ghost use Rattle.mbe_text.specs.declared.characters.CharClass.TheVariants.{Decimal};
ghost use Rattle.mbe_text.specs.Tokens.{bytes_of, token_item, item_text, lexeme_text};

mod trivia;

use crate::characters::{
    CharClass, before, begins, begins_with, is_at, offset, past, past_front, past_one, split_first,
};
use crate::dialect::Dialect;
use crate::fault_kind::LexFaultKind;
use crate::rust_tokens::read_rust;
use mbe_tt::span::{Edition, Span, SyntaxContext};
use mbe_tt::tt::{DelimiterKind, IdentIsRaw, LitKind, Spacing};

/// A fault in a text: the reason why it can't be lexed.
#[derive(Clone, Copy, Debug, PartialEq, Eq)]
pub struct LexFault {
    /// The byte offset at which the fault begins.
    pub offset: u32,
    /// What is wrong at that byte.
    pub fault_kind: LexFaultKind,
}

/// What a token is, without its span. The texts are slices of the source.
#[derive(Drop)]
pub enum Lexeme<'t> {
    Ident {
        name: &'t str,
        is_raw: IdentIsRaw,
    },
    Literal {
        text: &'t str,
        suffix: &'t str,
        suffix_len: u8,
        kind: LitKind,
    },
    Punct {
        char: char,
        spacing: Spacing,
    },
    Open(DelimiterKind),
    Close(DelimiterKind),
    /// A lifetime of the Rust dialect. `name` has no `'` and no `r#`.
    Lifetime {
        name: &'t str,
        is_raw: IdentIsRaw,
    },
    /// A doc comment of the Rust dialect.
    Doc {
        text: &'t str,
        is_inner: bool,
    },
}

/// A token and its span in the text.
#[derive(Drop)]
pub struct SourceToken<'t> {
    pub lexeme: Lexeme<'t>,
    pub span: Span,
}

/// Returns the span of those bytes of a file. Its `ast` and its syntax context are 0.
pub fn file_span(file: u32, start: u32, end: u32) -> Span
    ensures place { (result.file ≡ file) × (result.start ≡ start) × (result.end ≡ end) }
    ensures plain { (result.ast ≡ 0) × (result.ctx.0 ≡ 0) }
    ensures whole { result ≡ bytes_of file start end }
{
    Span {
        file,
        ast: 0,
        start,
        end,
        ctx: SyntaxContext(0),
    }
}

/// A text that is read token by token: its length and what is left of it.
#[derive(Drop)]
pub struct Scanner<'t> {
    dialect: Dialect,
    file: u32,
    total: u32,
    text: &'t str,
    rest: &'t str,
    ghost within: { length rest.now ≤ total },
    ghost whole: { total ≡ length text.now },
    ghost small: { total < 2 ^ 32 },
    ghost left: { IsRest text.now rest.now },
}

// Returns whether an identifier of this text, with what follows it, would begin a prefixed string,
// a raw string or a byte literal. The sample dialect doesn't lex those.
#[inline(always)]
fn begins_literal(name: &str, rest: &str) -> bool
    ensures { result ≡ words.begins_literal name.now (chars rest.now) }
{
    match split_first(rest) {
        Some(('"', _)) => true,
        Some(('\'', _)) => name == "b",
        Some(('#', _)) => (name == "r" || name == "br" || name == "cr") && begins_hashes(rest),
        _ => false,
    }
}

// Returns whether a char literal follows a `'`, and not a lifetime. A char literal is a `\`, or a
// character and another `'`. That character is neither a `'` nor a line feed.
fn is_char(following: &str) -> bool
    ensures { result ≡ literals.is_char (chars following.now) }
{
    match split_first(following) {
        Some(('\\', _)) => true,
        Some(('\'' | '\n', _)) | None => false,
        Some((_, rest)) => begins_with(rest, "'"),
    }
}

// Returns whether `rest` continues a raw string, after its letters.
fn begins_hashes(rest: &str) -> bool
    ensures { result ≡ words.begins_hashes (chars rest.now) }
{
    begins(rest, CharClass::Hash) && begins_with(past(rest, CharClass::Hash), "\"")
}

// Returns the spacing of a punct before this rest. The punct is joint if another one begins right
// after it. The `/` of a comment isn't a punct.
#[inline(always)]
fn spacing_before(rest: &str) -> Spacing
    ensures { result ≡ signs.spacing_before (chars rest.now) }
{
    if begins(rest, CharClass::Punct) && !is_at_comment(rest) {
        Spacing::Joint
    } else {
        Spacing::Alone
    }
}

#[inline(always)]
fn is_at_comment(rest: &str) -> bool
    ensures { result ≡ begins_comment (chars rest.now) }
{
    begins_with(rest, "//") || begins_with(rest, "/*")
}

// Returns the punct or the delimiter that this character is, before this rest.
#[inline(always)]
#[tactic(auto, using(crate::proofs::CharacterLemmas::punct_other))]
fn punctuation_of<'t>(char: char, rest: &'t str) -> Option<Lexeme<'t>>
    ensures exact { MatchOption result
        ((total : ℕ) → read_punctuation total (char ∷ chars rest.now)
        ≡ Err (fault_at fault_kind.Start total (char ∷ chars rest.now)))
        (λ l. (total : ℕ) → read_punctuation total (char ∷ chars rest.now)
        ≡ Ok (shape_of l, chars rest.now)) }
    ensures text { IfSome result (λ l. encode_utf8 char ≡ lexeme_text l) }
    ensures other { IfSome result (λ _. (characters.has Decimal char ≡ false)
        × ((char == 34) ≡ false) × ((char == 39) ≡ false)) }
{
    match char {
        '(' => Some(Lexeme::Open(DelimiterKind::Parenthesis)),
        '[' => Some(Lexeme::Open(DelimiterKind::Bracket)),
        '{' => Some(Lexeme::Open(DelimiterKind::Brace)),
        ')' => Some(Lexeme::Close(DelimiterKind::Parenthesis)),
        ']' => Some(Lexeme::Close(DelimiterKind::Bracket)),
        '}' => Some(Lexeme::Close(DelimiterKind::Brace)),
        _ if CharClass::Punct.has(char) => Some(Lexeme::Punct {
            char,
            spacing: spacing_before(rest),
        }),
        _ => None,
    }
}

// Reads the identifier at the front of the text; `after` is what follows its first character.
// Returns `None` if the identifier may be raw, or may begin a literal.
#[inline(always)]
fn fast_identifier<'t>(text: &'t str, after: &'t str) -> Option<(Lexeme<'t>, &'t str)>
    requires end { IsEnd text.now after.now }
    requires rest { chars after.now ≡ drop 1 (chars text.now) }
    ensures exact { IfSome result (λ r. (total : ℕ)
        → read_identifier total (chars text.now) ≡ Ok (shape_of r.0, chars r.1.now)) }
    ensures reads { IfSome result (λ r. text.now ≡ lexeme_text r.0 ++ r.1.now) }
    ensures end { IfSome result (λ r. IsEnd after.now r.1.now) }
{
    if begins_with(text, "r#") {
        return None;
    }
    let rest = past(after, CharClass::IdentContinue);
    let name = before(text, rest);
    if begins_literal(name, rest) {
        return None;
    }
    let lexeme = Lexeme::Ident {
        name,
        is_raw: IdentIsRaw::No,
    };
    Some((lexeme, rest))
}

// Reads the token of the sample dialect at the front of the text, if it is an identifier, a punct
// or a delimiter, as most are. Returns the token and the rest of the text. Returns `None` before a
// `/`, which may begin a comment.
#[inline(always)]
fn fast_lexeme(text: &str) -> Option<(Lexeme<'_>, &str)>
    ensures exact { IfSome result (λ r. (total : ℕ)
        → read_sample total (chars text.now) ≡ Ok (shape_of r.0, chars r.1.now)) }
    ensures begins { IfSome result (λ _. (c : ℕ) × (rest : List ℕ)
        × (chars text.now ≡ c ∷ rest) × ((c == 47) ≡ false)) }
    ensures reads { IfSome result (λ r. text.now ≡ lexeme_text r.0 ++ r.1.now) }
    ensures end { IfSome result (λ r. IsEnd text.now r.1.now) }
    ensures shorter { IfSome result (λ r. length r.1.now < length text.now) }
{
    let (char, after) = split_first(text)?;
    if CharClass::IdentStart.has(char) {
        return fast_identifier(text, after);
    }
    if char == '/' {
        return None;
    }
    let lexeme = punctuation_of(char, after)?;
    Some((lexeme, after))
}

impl<'t> Scanner<'t> {
    ghost use Rattle.mbe_text.specs.ScannerSteps.{ScansForward, Advances};

    /// Returns a scanner at the start of a file's text.
    ///
    /// In the Rust dialect it skips a byte order mark, and then a line that begins with `#!`, as
    /// the Rust Reference defines for input. It doesn't skip the line if the next token after `#!`
    /// is the `[` of an attribute.
    pub fn new(dialect: Dialect, text: &'t str, file: u32) -> Scanner<'t>
        requires { length text.now < 2 ^ 32 }
        ensures dialect { result.dialect ≡ dialect }
        ensures file { result.file ≡ file }
        ensures rest { chars result.rest.now
            ≡ after_preamble dialect (length text.now) (chars text.now) }
        ensures sample { dialect ≡ Sample → result.rest.now ≡ text.now }
        ensures total { result.total ≡ length text.now }
        ensures text { result.text.now ≡ text.now }
    {
        let mut scanner = Scanner {
            dialect,
            file,
            total: text.len() as u32,
            text,
            rest: text,
        };
        scanner.preamble();
        scanner
    }

    /// Returns the number of bytes consumed.
    #[inline(always)]
    pub fn offset(&self) -> u32
        ensures bytes { result + length self.now.rest.now ≡ self.now.total }
        ensures exact { result ≡ characters.offset self.now.total (chars self.now.rest.now) }
    {
        offset(self.total, self.rest)
    }

    #[inline(always)]
    fn peek(&self) -> Option<char>
        ensures some { IsSome result ↔ 0 < length self.now.rest.now }
        ensures begins { IfSome result (λ c. Begins c self.now.rest.now) }
        ensures exact { MatchOption result (chars self.now.rest.now ≡ [])
            (λ c. (rest : List ℕ) × (chars self.now.rest.now ≡ c ∷ rest)) }
    {
        let (char, _) = split_first(self.rest)?;
        Some(char)
    }

    // Consumes one character and returns it.
    #[inline(always)]
    fn bump(&mut self) -> Option<char>
        ensures some { IsSome result ↔ 0 < length self.old.rest.now }
        ensures on { ScansForward self.old self.new }
        ensures past { Advances self.old self.new }
        ensures whole { IfSome result (λ c.
            self.old.rest.now ≡ encode_utf8 c ++ self.new.rest.now) }
        ensures rest { chars self.new.rest.now ≡ drop 1 (chars self.old.rest.now) }
        ensures exact { MatchOption result (chars self.old.rest.now ≡ [])
            (λ c. chars self.old.rest.now ≡ c ∷ chars self.new.rest.now) }
    {
        let (char, rest) = split_first(self.rest)?;
        self.rest = rest;
        Some(char)
    }

    // Consumes characters of that class, as many as there are.
    #[inline(always)]
    fn bump_while(&mut self, class: CharClass)
        ensures on { ScansForward self.old self.new }
        ensures exact { chars self.new.rest.now
            ≡ characters.past class (chars self.old.rest.now) }
    {
        self.rest = past(self.rest, class);
    }

    // Returns what is left after white space.
    #[inline(always)]
    fn after_whitespace(&self) -> &'t str
        ensures exact { chars result.now
            ≡ characters.past (whitespace_class self.now.dialect) (chars self.now.rest.now) }
        ensures end { IsEnd self.now.rest.now result.now }
    {
        match self.dialect {
            Dialect::Sample => past(self.rest, CharClass::Blank),
            Dialect::Rust(_) => past(self.rest, CharClass::Space),
        }
    }

    // Consumes an identifier without a `r#`, and returns its text. The first character isn't
    // checked.
    #[inline(always)]
    fn bare_identifier(&mut self) -> &'t str
        ensures on { ScansForward self.old self.new }
        ensures past { Advances self.old self.new }
        ensures whole { self.old.rest.now ≡ result.now ++ self.new.rest.now }
        ensures rest { chars self.new.rest.now ≡ words.past_identifier (chars self.old.rest.now) }
        ensures exact { result.now
            ≡ characters.bytes_before (chars self.old.rest.now) (chars self.new.rest.now) }
    {
        let text = self.rest;
        self.bump();
        self.bump_while(CharClass::IdentContinue);
        before(text, self.rest)
    }

    // Returns whether a raw identifier is next.
    #[inline(always)]
    fn is_at_raw(&self) -> bool
        ensures begins { result ≡ true
            → (text : List ℕ) × (self.now.rest.now ≡ 114 ∷ (35 ∷ text)) }
        ensures exact { result ≡ words.begins_raw (chars self.now.rest.now) }
    {
        if !is_at(self.rest, 'r') {
            return false;
        }
        match past_front(self.rest, "r#") {
            Some(name) => begins(name, CharClass::IdentStart),
            None => false,
        }
    }

    // Consumes a raw identifier with its `r#`.
    fn raw_identifier(&mut self) -> Result<Lexeme<'t>, LexFault>
        requires { 0 < length self.old.rest.now }
        ensures on { ScansForward self.old self.new }
        ensures past { Advances self.old self.new }
        ensures reads { ((text : List ℕ) × (self.old.rest.now ≡ 114 ∷ (35 ∷ text)))
            → IfOk result (λ l. self.old.rest.now ≡ lexeme_text l ++ self.new.rest.now) }
        ensures exact { ReadsAs (words.read_raw_identifier self.old.total (chars self.old.rest.now))
            result (chars self.new.rest.now) }
        ensures within { IfErr result (λ fault. fault.offset ≤ self.old.total) }
    {
        let start = self.offset();
        self.bump();
        self.bump();
        let name = self.bare_identifier();
        if begins_with(self.rest, "\"") {
            return Err(LexFault {
                offset: start,
                fault_kind: LexFaultKind::Prefix,
            });
        }
        Ok(Lexeme::Ident {
            name,
            is_raw: IdentIsRaw::Yes,
        })
    }

    // Consumes an identifier that isn't raw.
    #[inline(always)]
    fn identifier(&mut self) -> Result<Lexeme<'t>, LexFault>
        requires { 0 < length self.old.rest.now }
        ensures on { ScansForward self.old self.new }
        ensures exact { ReadsAs (words.read_plain_identifier self.old.total
            (chars self.old.rest.now))
            result (chars self.new.rest.now) }
        ensures past { Advances self.old self.new }
        ensures reads { IfOk result (λ l.
            self.old.rest.now ≡ lexeme_text l ++ self.new.rest.now) }
        ensures within { IfErr result (λ fault. fault.offset ≤ self.old.total) }
    {
        let start = self.offset();
        let name = self.bare_identifier();
        if begins_literal(name, self.rest) {
            return Err(LexFault {
                offset: start,
                fault_kind: LexFaultKind::Prefix,
            });
        }
        Ok(Lexeme::Ident {
            name,
            is_raw: IdentIsRaw::No,
        })
    }

    // Consumes an identifier, raw or not.
    #[inline(always)]
    fn any_identifier(&mut self) -> Result<Lexeme<'t>, LexFault>
        requires { 0 < length self.old.rest.now }
        ensures on { ScansForward self.old self.new }
        ensures past { Advances self.old self.new }
        ensures reads { IfOk result (λ l.
            self.old.rest.now ≡ lexeme_text l ++ self.new.rest.now) }
        ensures within { IfErr result (λ fault. fault.offset ≤ self.old.total) }
        ensures exact { ReadsAs (words.read_identifier self.old.total (chars self.old.rest.now))
            result (chars self.new.rest.now) }
    {
        if self.is_at_raw() {
            self.raw_identifier()
        } else {
            self.identifier()
        }
    }

    // Consumes the suffix of a literal, if there is one, and returns it with its length in bytes.
    // A suffix is an identifier of at most 255 bytes, and never raw. As elsewhere, an identifier
    // that would begin a prefixed string is a fault.
    fn suffix(&mut self) -> Result<(&'t str, u8), LexFault>
        ensures on { ScansForward self.old self.new }
        ensures whole { IfOk result (λ r. self.old.rest.now ≡ r.0.now ++ self.new.rest.now) }
        ensures len { IfOk result (λ r. r.1 ≡ length r.0.now) }
        ensures utf8 { IfOk result (λ r. IsUtf8 r.0.now) }
        ensures exact { MatchResult result
            (λ r. (words.past_suffix (chars self.old.rest.now) ≡ Ok (chars self.new.rest.now))
            × (r.0.now ≡ bytes_before (chars self.old.rest.now) (chars self.new.rest.now)))
            (λ fault. (words.past_suffix (chars self.old.rest.now) ≡ Err fault.fault_kind)
            × (fault ≡ fault_at fault.fault_kind self.old.total (chars self.old.rest.now))) }
        ensures within { IfErr result (λ fault. fault.offset ≤ self.old.total) }
    {
        let start = self.offset();
        if !begins(self.rest, CharClass::IdentStart) {
            return Ok(("", 0));
        }
        let name = self.bare_identifier();
        let fault_kind = match u8::try_from(name.len()) {
            Ok(len) if !begins_literal(name, self.rest) => return Ok((name, len)),
            Ok(_) => LexFaultKind::Prefix,
            Err(_) => LexFaultKind::LongSuffix,
        };
        Err(LexFault {
            offset: start,
            fault_kind,
        })
    }

    // Consumes the suffix, and returns the literal of that text with it.
    fn literal(&mut self, text: &'t str, kind: LitKind) -> Result<Lexeme<'t>, LexFault>
        ensures on { ScansForward self.old self.new }
        ensures reads { IfOk result (λ l. (suffix : List ℕ)
            × (self.old.rest.now ≡ suffix ++ self.new.rest.now)
            × (lexeme_text l ≡ opening kind ++ (text.now ++ (closing kind ++ suffix)))) }
        ensures exact { ReadsAs
            (literals.read_literal self.old.total kind text.now (chars self.old.rest.now))
            result (chars self.new.rest.now) }
        ensures within { IfErr result (λ fault. fault.offset ≤ self.old.total) }
    {
        let (suffix, suffix_len) = self.suffix()?;
        Ok(Lexeme::Literal {
            text,
            suffix,
            suffix_len,
            kind,
        })
    }

    // Consumes the text up to the next `end`, and that `end` too. A `\` takes the next character
    // with it. Returns the text before the `end`.
    fn quoted(&mut self, end: char) -> Option<&'t str>
        ensures on { ScansForward self.old self.new }
        ensures whole { IfSome result (λ text.
            self.old.rest.now ≡ text.now ++ (encode_utf8 end ++ self.new.rest.now)) }
        ensures exact { MatchOption result
            (literals.from_quote end false (chars self.old.rest.now) ≡ None)
            (λ text. (literals.from_quote end false (chars self.old.rest.now)
            ≡ Some (end ∷ chars self.new.rest.now))
            × (text.now ≡ bytes_before (chars self.old.rest.now) (end ∷ chars self.new.rest.now))) }
    {
        let text = self.rest;
        'chars: loop {
            let rest = self.rest;
            let char = self.bump()?;
            if char == end {
                return Some(before(text, rest));
            }
            if char == '\\' {
                self.bump();
            }
        }
    }

    // Consumes a string, or a char, between two such quotes, and its suffix.
    fn string(&mut self, quote: char, kind: LitKind) -> Result<Lexeme<'t>, LexFault>
        requires { 0 < length self.old.rest.now }
        ensures on { ScansForward self.old self.new }
        ensures past { Advances self.old self.new }
        ensures reads { Begins quote self.old.rest.now
            → opening kind ≡ encode_utf8 quote → closing kind ≡ encode_utf8 quote
            → IfOk result (λ l. self.old.rest.now ≡ lexeme_text l ++ self.new.rest.now) }
        ensures within { IfErr result (λ fault. fault.offset ≤ self.old.total) }
        ensures exact { ReadsAs
            (literals.read_quoted self.old.total kind quote (chars self.old.rest.now))
            result (chars self.new.rest.now) }
    {
        let start = self.offset();
        self.bump();
        let Some(text) = self.quoted(quote) else {
            return Err(LexFault {
                offset: start,
                fault_kind: LexFaultKind::UnterminatedString,
            });
        };
        self.literal(text, kind)
    }

    // Returns whether the `'` that is next begins a char.
    fn is_at_char(&self) -> bool
        ensures { result ≡ literals.is_char (drop 1 (chars self.now.rest.now)) }
    {
        match split_first(self.rest) {
            Some((_, following)) => is_char(following),
            None => false,
        }
    }

    // Consumes the `'` of a lifetime. The lifetime's identifier is the next token.
    fn lifetime(&mut self) -> Result<Lexeme<'t>, LexFault>
        requires { 0 < length self.old.rest.now }
        ensures on { ScansForward self.old self.new }
        ensures past { Advances self.old self.new }
        ensures reads { Begins 39 self.old.rest.now
            → IfOk result (λ l. self.old.rest.now ≡ lexeme_text l ++ self.new.rest.now) }
        ensures within { IfErr result (λ fault. fault.offset ≤ self.old.total) }
        ensures exact { ReadsAs (literals.read_lifetime self.old.total (chars self.old.rest.now))
            result (chars self.new.rest.now) }
    {
        let start = self.offset();
        self.bump();
        if !begins(self.rest, CharClass::IdentStart) {
            return Err(LexFault {
                offset: start,
                fault_kind: LexFaultKind::Start,
            });
        }
        Ok(Lexeme::Punct {
            char: '\'',
            spacing: Spacing::Joint,
        })
    }

    // Consumes what begins with the `'` that is next: a char with its suffix, or the first token
    // of a lifetime.
    fn quote(&mut self) -> Result<Lexeme<'t>, LexFault>
        requires { 0 < length self.old.rest.now }
        ensures on { ScansForward self.old self.new }
        ensures past { Advances self.old self.new }
        ensures reads { Begins 39 self.old.rest.now
            → IfOk result (λ l. self.old.rest.now ≡ lexeme_text l ++ self.new.rest.now) }
        ensures within { IfErr result (λ fault. fault.offset ≤ self.old.total) }
        ensures exact { ReadsAs (literals.read_quote self.old.total (chars self.old.rest.now))
            result (chars self.new.rest.now) }
    {
        if self.is_at_char() {
            self.string('\'', LitKind::Char)
        } else {
            self.lifetime()
        }
    }

    // Consumes a `.` and the digits after it, unless the `.` belongs to a range or a field.
    // Returns whether it did.
    fn fraction(&mut self) -> bool
        ensures on { ScansForward self.old self.new }
        ensures exact { result ≡ is_some (literals.past_fraction (chars self.old.rest.now)) }
        ensures rest { chars self.new.rest.now
            ≡ unwrap_or (literals.past_fraction (chars self.old.rest.now)) (chars self.old.rest.now) }
    {
        if !self.is_at_fraction() {
            return false;
        }
        self.bump();
        self.bump_while(CharClass::Digit);
        true
    }

    // Returns whether a `.` is next that belongs neither to a range nor to a field.
    fn is_at_fraction(&self) -> bool
        ensures { result ≡ literals.begins_fraction (chars self.now.rest.now) }
    {
        match split_first(self.rest) {
            Some(('.', rest)) => !begins_with(rest, ".") && !begins(rest, CharClass::IdentStart),
            _ => false,
        }
    }

    // Consumes an exponent, if it has a digit. Returns whether it did.
    fn exponent(&mut self) -> bool
        ensures on { ScansForward self.old self.new }
        ensures exact { result ≡ is_some (literals.past_exponent (chars self.old.rest.now)) }
        ensures rest { chars self.new.rest.now
            ≡ unwrap_or (literals.past_exponent (chars self.old.rest.now)) (chars self.old.rest.now) }
    {
        let Some(rest) = past_one(self.rest, CharClass::Exponent) else {
            return false;
        };
        let digits = past_one(rest, CharClass::Sign).unwrap_or(rest);
        if !begins(digits, CharClass::Decimal) {
            return false;
        }
        self.rest = past(digits, CharClass::Digit);
        true
    }

    // Consumes a number without its suffix.
    fn digits(&mut self) -> LitKind
        ensures on { ScansForward self.old self.new }
        ensures past { Advances self.old self.new }
        ensures unquoted { (opening result ≡ []) × (closing result ≡ []) }
        ensures exact { result ≡ (literals.past_number (chars self.old.rest.now)).0 }
        ensures rest { chars self.new.rest.now
            ≡ (literals.past_number (chars self.old.rest.now)).1 }
    {
        let is_hex = begins_with(self.rest, "0x");
        let is_other = begins_with(self.rest, "0o") || begins_with(self.rest, "0b");
        self.bump();
        if is_hex {
            self.bump();
            self.bump_while(CharClass::HexDigit);
            LitKind::Integer
        } else if is_other {
            self.bump();
            self.bump_while(CharClass::Digit);
            LitKind::Integer
        } else {
            self.bump_while(CharClass::Digit);
            self.decimal()
        }
    }

    // Consumes the fraction and the exponent of a number in base ten.
    fn decimal(&mut self) -> LitKind
        ensures on { ScansForward self.old self.new }
        ensures unquoted { (opening result ≡ []) × (closing result ≡ []) }
        ensures exact { result ≡ (literals.past_decimal (chars self.old.rest.now)).0 }
        ensures rest { chars self.new.rest.now
            ≡ (literals.past_decimal (chars self.old.rest.now)).1 }
    {
        let has_fraction = self.fraction();
        let has_exponent = self.exponent();
        if has_fraction || has_exponent {
            LitKind::Float
        } else {
            LitKind::Integer
        }
    }

    // Consumes a number with its suffix.
    fn number(&mut self) -> Result<Lexeme<'t>, LexFault>
        requires { 0 < length self.old.rest.now }
        ensures on { ScansForward self.old self.new }
        ensures past { Advances self.old self.new }
        ensures reads { IfOk result (λ l.
            self.old.rest.now ≡ lexeme_text l ++ self.new.rest.now) }
        ensures within { IfErr result (λ fault. fault.offset ≤ self.old.total) }
        ensures exact { ReadsAs (literals.read_number self.old.total (chars self.old.rest.now))
            result (chars self.new.rest.now) }
    {
        let text = self.rest;
        let kind = self.digits();
        let digits = before(text, self.rest);
        self.literal(digits, kind)
    }

    // Consumes a punct or a delimiter. Any other character is a fault.
    #[inline(always)]
    fn punctuation(&mut self) -> Result<Lexeme<'t>, LexFault>
        requires { 0 < length self.old.rest.now }
        ensures on { ScansForward self.old self.new }
        ensures past { Advances self.old self.new }
        ensures reads { IfOk result (λ l.
            self.old.rest.now ≡ lexeme_text l ++ self.new.rest.now) }
        ensures within { IfErr result (λ fault. fault.offset ≤ self.old.total) }
        ensures exact { ReadsAs (signs.read_punctuation self.old.total (chars self.old.rest.now))
            result (chars self.new.rest.now) }
    {
        let start = self.offset();
        if let Some(char) = self.bump()
            && let Some(lexeme) = punctuation_of(char, self.rest)
        {
            return Ok(lexeme);
        }
        Err(LexFault {
            offset: start,
            fault_kind: LexFaultKind::Start,
        })
    }

    // Consumes the next token of the sample dialect. It begins with this character.
    #[inline(always)]
    fn sample_lexeme(&mut self, char: char) -> Result<Lexeme<'t>, LexFault>
        requires { 0 < length self.old.rest.now }
        ensures on { ScansForward self.old self.new }
        ensures past { Advances self.old self.new }
        ensures reads { Begins char self.old.rest.now
            → IfOk result (λ l. self.old.rest.now ≡ lexeme_text l ++ self.new.rest.now) }
        ensures within { IfErr result (λ fault. fault.offset ≤ self.old.total) }
        ensures exact { (rest : List ℕ) → chars self.old.rest.now ≡ char ∷ rest
            → ReadsAs (read_sample self.old.total (chars self.old.rest.now))
            result (chars self.new.rest.now) }
    {
        if CharClass::IdentStart.has(char) {
            self.any_identifier()
        } else if CharClass::Decimal.has(char) {
            self.number()
        } else if char == '"' {
            self.string('"', LitKind::Str)
        } else if char == '\'' {
            self.quote()
        } else {
            self.punctuation()
        }
    }

    // Consumes the next token of Rust.
    fn rust_lexeme(&mut self, edition: Edition) -> Result<Lexeme<'t>, LexFault>
        requires { 0 < length self.old.rest.now }
        ensures on { ScansForward self.old self.new }
        ensures past { IfOk result (λ _. Advances self.old self.new) }
        ensures within { IfErr result (λ fault. fault.offset ≤ self.old.total) }
        ensures exact { ReadsAs
            (dialects.read_rust edition self.old.total (chars self.old.rest.now))
            result (chars self.new.rest.now) }
    {
        match read_rust(edition, self.rest) {
            Some(Ok((lexeme, rest))) => {
                self.rest = rest;
                Ok(lexeme)
            }
            Some(Err(fault)) => Err(LexFault {
                offset: offset(self.total, fault.at),
                fault_kind: fault.fault_kind,
            }),
            None => self.punctuation(),
        }
    }

    // Consumes the next token. It begins with this character.
    #[inline(always)]
    fn lexeme(&mut self, char: char) -> Result<Lexeme<'t>, LexFault>
        requires { 0 < length self.old.rest.now }
        ensures on { ScansForward self.old self.new }
        ensures past { IfOk result (λ _. Advances self.old self.new) }
        ensures reads { self.old.dialect ≡ Sample → Begins char self.old.rest.now
            → IfOk result (λ l. self.old.rest.now ≡ lexeme_text l ++ self.new.rest.now) }
        ensures within { IfErr result (λ fault. fault.offset ≤ self.old.total) }
        ensures exact { (rest : List ℕ) → chars self.old.rest.now ≡ char ∷ rest
            → ReadsAs (read_shape self.old.dialect self.old.total (chars self.old.rest.now))
            result (chars self.new.rest.now) }
    {
        match self.dialect {
            Dialect::Sample => self.sample_lexeme(char),
            Dialect::Rust(edition) => self.rust_lexeme(edition),
        }
    }

    // Consumes the next token of the sample dialect, if it is an identifier, a punct or a
    // delimiter and no comment is before it. This is the fast path: `token` returns its result
    // through pointers, which most tokens don't need.
    #[inline(always)]
    pub(crate) fn fast_token(&mut self) -> Option<SourceToken<'t>>
        ensures none { IfNone result (self.new.rest.now ≡ self.old.rest.now) }
        ensures on { ScansForward self.old self.new }
        ensures sample { IfSome result (λ t. self.old.dialect ≡ Sample) }
        ensures past { IfSome result (λ t. length self.new.rest.now < length self.old.rest.now) }
        ensures start { IfSome result (λ t. t.span.start ≤ self.old.total) }
        ensures span { IfSome result (λ t.
            t.span ≡ bytes_of self.old.file t.span.start t.span.end) }
        ensures following { IfSome result (λ t.
            self.old.total ≤ t.span.start + length self.old.rest.now) }
        ensures some { IfSome result (λ t. t.span.start < t.span.end) }
        ensures up_to { IfSome result (λ t.
            t.span.end + length self.new.rest.now ≡ self.old.total) }
        ensures spelled { IfSome result (λ t.
            slice_range self.old.text.now t.span.start t.span.end ≡ item_text (token_item t)) }
        ensures exact { IfSome result (λ t. IsNext self.old.file self.old.total
            (next_token self.old.dialect self.old.total (chars self.old.rest.now))
            (Ok (Some t)) (chars self.new.rest.now)) }
    {
        match self.dialect {
            Dialect::Rust(_) => return None,
            Dialect::Sample => {}
        }
        let text = self.after_whitespace();
        let (lexeme, rest) = fast_lexeme(text)?;
        let start = offset(self.total, text);
        let end = offset(self.total, rest);
        self.rest = rest;
        let span = file_span(self.file, start, end);
        Some(SourceToken { lexeme, span })
    }

    /// Consumes white space, comments and the next token, and returns the token. Returns `None` at
    /// the end of the text, and a `LexFault` if what is next is neither a token nor a comment.
    pub fn token(&mut self) -> Result<Option<SourceToken<'t>>, LexFault>
        ensures on { ScansForward self.old self.new }
        ensures past { IfOk result (λ token. IsSome token
            → length self.new.rest.now < length self.old.rest.now) }
        ensures end { IfOk result (λ token. IfNone token (length self.new.rest.now ≡ 0)) }
        ensures start { IfOk result (λ token. IfSome token (λ t. t.span.start ≤ self.old.total)) }
        ensures span { IfOk result (λ token. IfSome token (λ t.
            t.span ≡ bytes_of self.old.file t.span.start t.span.end)) }
        ensures following { IfOk result (λ token. IfSome token (λ t.
            self.old.total ≤ t.span.start + length self.old.rest.now)) }
        ensures some { IfOk result (λ token. IfSome token (λ t. t.span.start < t.span.end)) }
        ensures up_to { IfOk result (λ token. IfSome token (λ t.
            t.span.end + length self.new.rest.now ≡ self.old.total)) }
        ensures spelled { self.old.dialect ≡ Sample → IfOk result (λ token. IfSome token (λ t.
            slice_range self.old.text.now t.span.start t.span.end ≡ item_text (token_item t))) }
        ensures within { IfErr result (λ fault. fault.offset ≤ self.old.total) }
        ensures exact { IsNext self.old.file self.old.total
            (next_token self.old.dialect self.old.total (chars self.old.rest.now))
            result (chars self.new.rest.now) }
    {
        self.trivia()?;
        let start = self.offset();
        let Some(char) = self.peek() else {
            return Ok(None);
        };
        let lexeme = self.lexeme(char)?;
        let span = file_span(self.file, start, self.offset());
        Ok(Some(SourceToken { lexeme, span }))
    }
}
