// The lexer: it makes token trees of a text.
//
// The loop in `lex_dialect_with_table` takes token after token from a `Scanner` and adds each to a
// `TopSubtreeBuilder`. An opening opens a group there, and a closing closes the innermost one.
ghost use Rattle.std.specs.Prelude.{◌≡◌, ◌<◌, ◌+◌, ◌^◌, ◌++◌, length, IfOk, IfErr, OnOk};
ghost use Rattle.mbe_text.specs.declared.dialect.Dialect.TheVariants.{Sample};
ghost use Rattle.mbe_text.specs.ScannerSteps.{FaultsWithin};
ghost use Rattle.mbe_text.specs.LexedTrees.{Lexes, lexed_trees};
ghost use Rattle.mbe_text.specs.LexedTrees as division;
ghost use Rattle.mbe_text.specs.Tokens.{Adds, IsMismatched, FaultsAt, IsLexed, ended, token_item};
ghost use Rattle.mbe_text.specs.Tokens.{close_item};
ghost use Rattle.mbe_text.specs.Tokens.{closing_fault, doc_group, doc_marks, doc_trees};
ghost use Rattle.mbe_text.specs.Tokens.{lifetime_trees, most_guards, punct_leaf};
ghost use Rattle.mbe_text.specs.Tokens as spec;
ghost use Rattle.mbe_tt.specs.Buffers.GroupStack.{put};
ghost use Rattle.mbe_tt.specs.Views.LeafViews.{leaf_of};

use crate::dialect::Dialect;
use crate::fault_kind::LexFaultKind;
use crate::scanner::{LexFault, Lexeme, Scanner, SourceToken, file_span};
use crate::symbol_table::SymbolTable;
use mbe_tt::span::Span;
use mbe_tt::symbol::Symbol;
use mbe_tt::tt::{
    Delimiter, DelimiterKind, Ident, IdentIsRaw, Leaf, LitKind, Literal, Punct, Spacing,
    TopSubtree, TopSubtreeBuilder,
};
use std::alloc::{AllocError, AllocFailed, Allocator};
use std::error::Error;
use std::fmt;

/// The error of a text that has no token trees.
#[derive(Debug, Drop, PartialEq, Eq)]
pub enum LexError {
    /// The text has a fault at some byte: what is there isn't a token, or it is a closing without
    /// its opening. In the Rust dialect, a group that is open at the end is a fault too.
    Fault(LexFault),
    OutOfMemory,
}

impl fmt::Display for LexError {
    ghost use Rattle.std.specs.Prelude.{Some};
    ghost use Rattle.mbe_text.specs.TreeDump.{lex_error_text};

    ghost output = { λ e. Some (lex_error_text e) };

    fn fmt<W: fmt::Write>(&self, f: &mut fmt::Formatter<W>) -> fmt::Result {
        match self {
            LexError::Fault(fault) => {
                let offset = fault.offset;
                write!(f, "cannot lex at {offset}")
            }
            LexError::OutOfMemory => write!(f, "out of memory"),
        }
    }
}

impl Error for LexError {}

impl From<LexFault> for LexError {
    ghost use Rattle.mbe_text.specs.declared.lexer.LexError.TheVariants as errors;

    ghost from_gives = { λ fault error. error ≡ errors.Fault fault };

    fn from(fault: LexFault) -> LexError {
        LexError::Fault(fault)
    }
}

impl From<AllocError> for LexError {
    ghost use Rattle.mbe_text.specs.declared.lexer.LexError.TheVariants as errors;

    ghost from_gives = { λ _ error. error ≡ errors.OutOfMemory };

    fn from(_error: AllocError) -> LexError {
        LexError::OutOfMemory
    }
}

// Adds the token at the end of the innermost open group. A closing that doesn't match that group
// is a fault.
#[inline(always)]
fn add<A: Allocator + Copy>(
    builder: &mut TopSubtreeBuilder<A>,
    table: &mut SymbolTable<A>,
    token: SourceToken<'_>,
) -> Result<(), LexError>
    requires some_byte { token.span.start < token.span.end }
    requires some_group { 0 < length builder.old }
    ensures ok { OnOk result (Adds (token_item token.entry) builder.old builder.new) }
    ensures err { IfErr result (FaultsAt (token_item token.entry) builder.old) }
{
    let span = token.span;
    match token.lexeme {
        Lexeme::Lifetime { name, is_raw } => Ok(add_lifetime(builder, table, name, is_raw, span)?),
        Lexeme::Doc { text, is_inner } => Ok(add_doc(builder, table, text, is_inner, span)?),
        Lexeme::Open(kind) => Ok(builder.open(kind, span)?),
        Lexeme::Close(kind) => Ok(close(builder, kind, span)?),
        Lexeme::Punct { char, spacing } => Ok(builder.push(Leaf::Punct(Punct {
            char,
            spacing,
            span,
        }))?),
        Lexeme::Ident { name, is_raw } => {
            let sym = table.intern(name)?;
            Ok(builder.push(Leaf::Ident(Ident { sym, is_raw, span }))?)
        }
        Lexeme::Literal {
            text,
            suffix,
            suffix_len,
            kind,
        } => {
            let text_and_suffix = concat_suffix(table, text, suffix)?;
            Ok(builder.push(Leaf::Literal(Literal {
                text_and_suffix,
                suffix_len,
                kind,
                span,
            }))?)
        }
    }
}

// Does the same as `add`, which is inlined. The loop has `add` for the most frequent tokens, and
// calls this function for the others.
fn add_out_of_line<A: Allocator + Copy>(
    builder: &mut TopSubtreeBuilder<A>,
    table: &mut SymbolTable<A>,
    token: SourceToken<'_>,
) -> Result<(), LexError>
    requires some_byte { token.span.start < token.span.end }
    requires some_group { 0 < length builder.old }
    ensures ok { OnOk result (Adds (token_item token.entry) builder.old builder.new) }
    ensures err { IfErr result (FaultsAt (token_item token.entry) builder.old) }
{
    add(builder, table, token)
}

// Adds a lifetime: a joint `'`, and the identifier right after it.
fn add_lifetime<A: Allocator + Copy>(
    builder: &mut TopSubtreeBuilder<A>,
    table: &mut SymbolTable<A>,
    name: &str,
    is_raw: IdentIsRaw,
    span: Span,
) -> Result<(), AllocError>
    requires { span.start < span.end }
    ensures { OnOk result
        (builder.new ≡ put (lifetime_trees span name.now is_raw) builder.old) }
{
    let middle = span.start + 1;
    let sym = table.intern(name)?;
    builder.push(Leaf::Punct(Punct {
        char: '\'',
        spacing: Spacing::Joint,
        span: Span {
            end: middle,
            ..span
        },
    }))?;
    builder.push(Leaf::Ident(Ident {
        sym,
        is_raw,
        span: Span {
            start: middle,
            ..span
        },
    }))
}

// Adds a doc comment as an attribute, as rustc does: `#[doc = r".."]`, or `#![doc = r".."]` for an
// inner one. All of its tokens have the comment's span.
fn add_doc<A: Allocator + Copy>(
    builder: &mut TopSubtreeBuilder<A>,
    table: &mut SymbolTable<A>,
    text: &str,
    is_inner: bool,
    span: Span,
) -> Result<(), AllocError>
    requires { 0 < length builder.old }
    ensures { OnOk result (builder.new ≡ put (doc_trees span text.now is_inner) builder.old) }
{
    add_doc_marks(builder, is_inner, span)?;
    add_doc_group(builder, table, text, span)
}

// Adds the `#` or `#!` of that attribute.
fn add_doc_marks<A: Allocator>(
    builder: &mut TopSubtreeBuilder<A>,
    is_inner: bool,
    span: Span,
) -> Result<(), AllocError>
    ensures { OnOk result (builder.new ≡ put (doc_marks span is_inner) builder.old) }
{
    if !is_inner {
        return builder.push(punct('#', Spacing::Alone, span));
    }
    builder.push(punct('#', Spacing::Joint, span))?;
    builder.push(punct('!', Spacing::Alone, span))
}

// Adds the `[doc = r".."]` of that attribute.
fn add_doc_group<A: Allocator + Copy>(
    builder: &mut TopSubtreeBuilder<A>,
    table: &mut SymbolTable<A>,
    text: &str,
    span: Span,
) -> Result<(), AllocError>
    requires { 0 < length builder.old }
    ensures { OnOk result (builder.new ≡ put (doc_group span text.now) builder.old) }
{
    let name = table.intern("doc")?;
    let text_and_suffix = table.intern(text)?;
    builder.open(DelimiterKind::Bracket, span)?;
    builder.push(Leaf::Ident(Ident {
        sym: name,
        is_raw: IdentIsRaw::No,
        span,
    }))?;
    builder.push(punct('=', Spacing::Alone, span))?;
    builder.push(Leaf::Literal(Literal {
        text_and_suffix,
        suffix_len: 0,
        kind: LitKind::StrRaw(raw_hash_count(text)),
        span,
    }))?;
    builder.close(span);
    Ok(())
}

fn punct<A: Allocator>(char: char, spacing: Spacing, span: Span) -> Leaf<A>
    ensures { leaf_of result ≡ punct_leaf span char spacing }
{
    Leaf::Punct(Punct {
        char,
        spacing,
        span,
    })
}

/// Returns how many `#`s the raw string of a doc comment with this text has. If the text has no `"`,
/// it has none. Otherwise it has one more than the longest run of `#`s after a `"`, at most 255.
pub fn raw_hash_count(text: &str) -> u8
    ensures { result ≡ most_guards 0 text.now }
{
    if !text.as_bytes().contains(&b'"') {
        return 0;
    }
    let mut most = 0u8;
    let mut guards = 0u8;
    'bytes: for byte in text.as_bytes() {
        guards = guards_after(guards, *byte);
        most = most.max(guards);
    }
    most
}

// Returns the length of the run of a `"` and `#`s after it that ends with this byte, given the
// length before it.
fn guards_after(guards: u8, byte: u8) -> u8
    ensures { result ≡ spec.guards_after guards byte }
{
    match byte {
        b'"' => 1,
        b'#' if guards > 0 => guards.saturating_add(1),
        _ => 0,
    }
}

// Closes the innermost open group if it is of that kind. Otherwise the closing is a fault.
fn close<A: Allocator>(
    builder: &mut TopSubtreeBuilder<A>,
    kind: DelimiterKind,
    span: Span,
) -> Result<(), LexFault>
    ensures ok { OnOk result (Adds (close_item kind span) builder.old builder.new) }
    ensures err { IfErr result (λ fault. (fault ≡ closing_fault (close_item kind span))
        × IsMismatched (close_item kind span) builder.old) }
{
    match builder.open_kind() {
        Some(open) if open == kind => {
            builder.close(span);
            Ok(())
        }
        _ => Err(LexFault {
            offset: span.start,
            fault_kind: LexFaultKind::Closing,
        }),
    }
}

// Returns whether a group is open that the dialect requires to be closed.
fn is_unclosed<A: Allocator>(dialect: Dialect, builder: &TopSubtreeBuilder<A>) -> bool
    ensures { result ≡ division.is_unclosed dialect builder.now }
{
    dialect.closes_groups() && builder.open_kind().is_some()
}

// Closes each open group with this span, and returns the trees.
#[tactic(auto, using(mbe_tt::proofs::Buffers::OpenGroups::closed_length))]
fn finish<A: Allocator>(mut builder: TopSubtreeBuilder<A>, end: Span) -> TopSubtree<A>
    ensures { result ≡ ended end builder }
{
    'groups: while builder.open_kind().is_some() {
        builder.close(end);
    }
    builder.build()
}

// Returns the symbol of a literal: its text and then its suffix.
fn concat_suffix<A: Allocator + Copy>(
    table: &mut SymbolTable<A>,
    text: &str,
    suffix: &str,
) -> Result<Symbol<A>, AllocError>
    ensures { IfOk result (λ s. s ≡ text.now ++ suffix.now) }
{
    if suffix.is_empty() {
        return table.intern(text);
    }
    let mut whole = String::from_str(table.alloc(), text)?;
    whole.push_str(suffix)?;
    table.intern(whole.as_str())
}

/// Lexes a file's text in the sample dialect. Returns its token trees inside an invisible group,
/// both of whose spans are the whole text.
///
/// - Spans count bytes in 32 bits, so the text must be shorter than 2^32 bytes.
/// - A closing must match the innermost open group. Otherwise it is a fault.
/// - Text that isn't a token is a fault.
/// - Groups that are open at the end are closed there.
///
/// `Dialect::Sample` says what the tokens are; that is this project's choice.
pub fn lex<A: Allocator + Copy>(alloc: A, text: &str, file: u32) -> Result<TopSubtree<A>, LexError>
    requires { length text.now < 2 ^ 32 }
    ensures made { IfOk result (IsLexed file text.now) }
    ensures within { IfErr result (FaultsWithin (length text.now)) }
    ensures exact { Lexes (lexed_trees Sample file text.now) result }
{
    lex_with_table(&mut SymbolTable::new(alloc), text, file)
}

/// Does the same as `lex`, but takes symbols from that table, and memory from the table's
/// allocator. Equal texts in the table share one symbol.
pub fn lex_with_table<A: Allocator + Copy>(
    table: &mut SymbolTable<A>,
    text: &str,
    file: u32,
) -> Result<TopSubtree<A>, LexError>
    requires { length text.now < 2 ^ 32 }
    ensures made { IfOk result (IsLexed file text.now) }
    ensures within { IfErr result (FaultsWithin (length text.now)) }
    ensures exact { Lexes (lexed_trees Sample file text.now) result }
{
    lex_dialect_with_table(table, Dialect::Sample, text, file)
}

/// Lexes a file's text in that dialect. Returns its token trees as `lex` does.
///
/// In `Dialect::Rust` it follows the Rust Reference ("Lexical structure") and rustc's lexer:
///
/// - A byte order mark and a `#!` line at the front are skipped.
/// - A lifetime becomes two leaves: a joint `'` and an identifier.
/// - A doc comment becomes an attribute, `#[doc = r".."]` or `#![doc = r".."]`, whose tokens all
///   have the comment's span.
/// - A group that is open at the end is a fault there.
/// - The returned fault is the first one, with the byte and the reason that rustc gives.
pub fn lex_dialect<A: Allocator + Copy>(
    alloc: A,
    dialect: Dialect,
    text: &str,
    file: u32,
) -> Result<TopSubtree<A>, LexError>
    requires { length text.now < 2 ^ 32 }
    ensures made { dialect ≡ Sample → IfOk result (IsLexed file text.now) }
    ensures within { IfErr result (FaultsWithin (length text.now)) }
    ensures exact { Lexes (lexed_trees dialect file text.now) result }
{
    lex_dialect_with_table(&mut SymbolTable::new(alloc), dialect, text, file)
}

/// Does the same as `lex_dialect`, but takes symbols from that table, and memory from the table's
/// allocator.
pub fn lex_dialect_with_table<A: Allocator + Copy>(
    table: &mut SymbolTable<A>,
    dialect: Dialect,
    text: &str,
    file: u32,
) -> Result<TopSubtree<A>, LexError>
    requires { length text.now < 2 ^ 32 }
    ensures made { dialect ≡ Sample → IfOk result (IsLexed file text.now) }
    ensures within { IfErr result (FaultsWithin (length text.now)) }
    ensures exact { Lexes (lexed_trees dialect file text.now) result }
{
    let len = text.len() as u32;
    let mut scanner = Scanner::new(dialect, text, file);
    let whole = Delimiter::invisible_spanned(file_span(file, 0, len));
    let mut builder = TopSubtreeBuilder::new(table.alloc(), whole)?;
    builder.reserve(text.len() / 4)?;
    'tokens: loop {
        if let Some(token) = scanner.fast_token() {
            add(&mut builder, table, token)?;
            continue;
        }
        let Some(token) = scanner.token()? else {
            break;
        };
        add_out_of_line(&mut builder, table, token)?;
    }
    if is_unclosed(dialect, &builder) {
        return Err(LexError::Fault(LexFault {
            offset: len,
            fault_kind: LexFaultKind::Open,
        }));
    }
    Ok(finish(builder, file_span(file, len, len)))
}
