// Doc comments among trees.
//
// The lexer makes an attribute, `#[doc = r".."]` or `#![doc = r".."]`, of a doc comment. This
// module recognizes such attributes, so that the printer can write them as comments again: as
// `/// ..` and `//! ..`, or as `/** .. */` and `/*! .. */`.
ghost use Rattle.std.specs.Prelude.{◌≡◌, chars, false, option_map};
ghost use Rattle.mbe_tt.specs.Trees.Tree.{rest_of, skip};
ghost use Rattle.mbe_tt.specs.Views.LeafViews.{ident_of, literal_of};
ghost use Rattle.mbe_tt.specs.Views.View.{trees};
ghost use Rattle.mbe_text.specs.RustText.DocComments as spec;
ghost use Rattle.mbe_text.specs.RustText.PrinterViews.{doc_comment_of};

use crate::gaps::{has_same_span, is_joint};
use crate::lexer::raw_hash_count;
use mbe_tt::tt::{
    DelimiterKind, Ident, IdentIsRaw, Leaf, LitKind, Literal, Punct, TokenTreesView, TtElement,
};
use std::alloc::Allocator;

// A doc comment.
#[derive(Clone, Copy, Drop)]
pub(crate) struct DocComment<'t> {
    // Whether it documents what is around it, and not what follows.
    pub(crate) is_inner: bool,
    // Whether it is `/** .. */` or `/*! .. */`.
    pub(crate) is_block: bool,
    // The text between its marks.
    pub(crate) text: &'t str,
}

// Returns whether a text without a line end may be that of a line doc comment. `////` doesn't
// begin one.
fn is_line(is_inner: bool, text: &[u8]) -> bool
    requires { spec.has_line_end text.now ≡ false }
    ensures { result ≡ spec.is_line is_inner text.now }
{
    is_inner || !begins_with_slash(text)
}

fn has_line_end(text: &[u8]) -> bool
    ensures { result ≡ spec.has_line_end text.now }
{
    text.iter().any(|byte| *byte == b'\n' || *byte == b'\r')
}

fn begins_with_slash(text: &[u8]) -> bool
    ensures { result ≡ spec.begins_with_slash text.now }
{
    match text.first() {
        Some(byte) => *byte == b'/',
        None => false,
    }
}

// Returns whether the text may be that of a block doc comment. `/***` and `/**/` don't begin one.
fn is_block(is_inner: bool, text: &str) -> bool
    ensures { result ≡ spec.is_block is_inner text.now }
{
    (is_inner || !begins_with_mark(text.as_bytes())) && is_closed(text)
}

// Returns whether the text, with the `*/` after it, begins with a `*` or a `/`.
fn begins_with_mark(text: &[u8]) -> bool
    ensures { result ≡ spec.begins_with_mark text.now }
{
    match text.first() {
        Some(byte) => *byte == b'*' || *byte == b'/',
        None => true,
    }
}

fn opens_comment(last: char, char: char) -> bool
    ensures { result ≡ spec.opens_comment last char }
{
    last == '/' && char == '*'
}

fn closes_comment(last: char, char: char) -> bool
    ensures { result ≡ spec.closes_comment last char }
{
    last == '*' && char == '/'
}

// Returns whether a block comment with this text ends right after it. Each comment nested in the
// text must end in it, and no other comment may end there. The text must have no carriage return.
fn is_closed(text: &str) -> bool
    ensures { result ≡ spec.is_closed 0 0 (chars text.now) }
{
    // The number of open nested comments, and the character before. After a mark, `last` is `\0`,
    // since no character belongs to two marks.
    let mut depth = 0usize;
    let mut last = '\0';
    for char in text.chars() {
        if char == '\r' {
            return false;
        }
        if opens_comment(last, char) {
            depth = depth.saturating_add(1);
            last = '\0';
        } else if closes_comment(last, char) {
            if depth == 0 {
                return false;
            }
            depth -= 1;
            last = '\0';
        } else {
            last = char;
        }
    }
    depth == 0 && last != '/'
}

// Returns whether the text may be that of a doc comment: a block comment if it has a line end, and
// a line comment otherwise.
fn is_comment(is_inner: bool, block: bool, text: &str) -> bool
    requires { block ≡ spec.has_line_end text.now }
    ensures { result ≡ spec.is_comment is_inner block text.now }
{
    if block {
        is_block(is_inner, text)
    } else {
        is_line(is_inner, text.as_bytes())
    }
}

fn is_raw_string(hashes: u8, kind: LitKind) -> bool
    ensures { result ≡ spec.is_raw_string hashes kind }
{
    match kind {
        LitKind::StrRaw(n) => n == hashes,
        _ => false,
    }
}

// Returns whether these tokens are `doc = r".."` as the lexer makes them of a doc comment, all
// with its span. The `#` and the brackets around them may come from a template.
fn is_doc_assignment<A: Allocator>(name: &Ident<A>, equals: &Punct, literal: &Literal<A>) -> bool
    ensures { result ≡ spec.is_doc_assignment (ident_of name.now) equals.now
        (literal_of literal.now) }
{
    let token_span = Some(name.span);
    (name.sym.as_str() == "doc" && is_not_raw(name.is_raw))
        && (equals.char == '=' && !is_joint(equals.spacing))
        && (literal.suffix_len == 0
            && is_raw_string(
                raw_hash_count(literal.text_and_suffix.as_str()),
                literal.kind,
            ))
        && (has_same_span(token_span, equals.span) && has_same_span(token_span, literal.span))
}

fn is_not_raw(is_raw: IdentIsRaw) -> bool
    ensures { result ≡ spec.is_not_raw is_raw }
{
    match is_raw {
        IdentIsRaw::No => true,
        IdentIsRaw::Yes => false,
    }
}

fn assigned_comment<'t, A: Allocator>(
    is_inner: bool,
    name: &'t Ident<A>,
    equals: &'t Punct,
    literal: &'t Literal<A>,
) -> Option<DocComment<'t>>
    ensures { option_map doc_comment_of result
        ≡ spec.assigned_comment is_inner (ident_of name.now) equals.now (literal_of literal.now) }
{
    let text = literal.text_and_suffix.as_str();
    let is_block = has_line_end(text.as_bytes());
    if is_doc_assignment(name, equals, literal) && is_comment(is_inner, is_block, text) {
        Some(DocComment {
            is_inner,
            is_block,
            text,
        })
    } else {
        None
    }
}

// Returns the literal, if it is the only tree.
fn only_literal<'t, A: Allocator>(tokens: TokenTreesView<'t, A>) -> Option<&'t Literal<A>>
    ensures { option_map (λ l. literal_of l.now) result ≡ spec.only_literal (trees tokens.entry) }
{
    let mut iter = tokens.iter();
    match (iter.next(), iter.next()) {
        (Some(TtElement::Leaf(Leaf::Literal(literal))), None) => Some(literal),
        _ => None,
    }
}

fn comment_inside<'t, A: Allocator>(
    is_inner: bool,
    tokens: TokenTreesView<'t, A>,
) -> Option<DocComment<'t>>
    ensures { option_map doc_comment_of result
        ≡ spec.comment_inside is_inner (trees tokens.entry) }
{
    let mut iter = tokens.iter();
    let name = iter.expect_ident_or_underscore().ok()?;
    let equals = iter.expect_single_punct().ok()?;
    let literal = only_literal(iter.remaining())?;
    assigned_comment(is_inner, name, equals, literal)
}

fn bracketed_comment<'t, A: Allocator>(
    is_inner: bool,
    tokens: TokenTreesView<'t, A>,
) -> Option<DocComment<'t>>
    ensures { option_map doc_comment_of result
        ≡ spec.bracketed_comment is_inner (trees tokens.entry) }
{
    let mut iter = tokens.iter();
    let (group, inside) = iter.expect_subtree().ok()?;
    match group.delimiter.kind {
        DelimiterKind::Bracket => comment_inside(is_inner, inside.remaining()),
        DelimiterKind::Parenthesis | DelimiterKind::Brace | DelimiterKind::Invisible => None,
    }
}

// Returns the doc comment after a joint `#`.
fn comment_after_hash<'t, A: Allocator>(tokens: TokenTreesView<'t, A>) -> Option<DocComment<'t>>
    ensures { option_map doc_comment_of result ≡ spec.comment_after_hash (trees tokens.entry) }
{
    let mut iter = tokens.iter();
    let bang = iter.expect_single_punct().ok()?;
    if bang.char == '!' && !is_joint(bang.spacing) {
        bracketed_comment(true, iter.remaining())
    } else {
        None
    }
}

// Returns the doc comment at the front of the trees.
pub(crate) fn front_comment<'t, A: Allocator>(
    tokens: TokenTreesView<'t, A>,
) -> Option<DocComment<'t>>
    ensures { option_map doc_comment_of result ≡ spec.front_comment (trees tokens.entry) }
{
    let mut iter = tokens.iter();
    let hash = iter.expect_single_punct().ok()?;
    if hash.char != '#' {
        return None;
    }
    if is_joint(hash.spacing) {
        comment_after_hash(iter.remaining())
    } else {
        bracketed_comment(false, iter.remaining())
    }
}

// Returns the trees after those of a doc comment.
pub(crate) fn rest_after_comment<'t, A: Allocator>(
    is_inner: bool,
    tokens: TokenTreesView<'t, A>,
) -> TokenTreesView<'t, A>
    ensures { trees result ≡ skip (spec.more_trees is_inner) (rest_of (trees tokens.entry)) }
{
    let mut iter = tokens.iter();
    let _first = iter.next();
    let _second = iter.next();
    if is_inner {
        let _third = iter.next();
    }
    iter.remaining()
}
