// Terminals: tests of the trees at the front. Each kind of terminal has a function of its own that
// isn't inlined. This keeps the frame of `take` on the stack small, which each call of `take`
// clears.
ghost use Rattle.std.specs.Prelude.{◌≡◌, map};
ghost use Rattle.std.specs.List.{list_any};
ghost use Rattle.std.specs.Str.{bytes_eq};
ghost use Rattle.mbe_tt.specs.Trees.Glue.{chars_of};
ghost use Rattle.mbe_tt.specs.Trees.Tree.{is_same_kind};
ghost use Rattle.mbe_tt.specs.Views.View.{trees};
ghost use Rattle.mbe_tt.specs.Views.LeafViews.{ident_of, literal_of};
ghost use Rattle.mbe_grammar.specs.Tables.Terminals as spec;
ghost use Rattle.mbe_grammar.specs.Tables.Terminals.{or_no_match, after_one, after_operator};
ghost use Rattle.mbe_grammar.specs.Tables.Terminals.{at_end, if_since};
ghost use Rattle.mbe_grammar.specs.Tables.SingleTrees.{is_word, is_one_of, is_name, is_keyword};
ghost use Rattle.mbe_grammar.specs.Tables.SingleTrees.{is_identifier, is_literal, is_pointed};
ghost use Rattle.mbe_grammar.specs.Tables.SingleTrees.{has_point, is_any, is_punct, is_group};
ghost use Rattle.mbe_grammar.specs.Tables.SingleTrees.{is_fragment_of};
ghost use Rattle.mbe_tt.specs.Trees.FragmentGroup.{is_around};
ghost use Rattle.mbe_grammar.specs.Tables.ParseResult.{result_model};

use crate::tables::node::Terminal;
use crate::tables::parse_result::{ParseFailure, ParseResult};
use crate::tables::peg_table::{RuleTable, is_since};
use mbe_tt::fragment_group::FragmentGroup;
use mbe_tt::span::Edition;
use mbe_tt::tt::{
    Delimiter, DelimiterKind, Ident, IdentIsRaw, Leaf, LitKind, Literal, Punct, TokenTreesView,
    TtElement,
};
use std::alloc::Allocator;

/// The trees after those that a terminal consumes.
#[inline(never)]
pub fn terminal<'t, A: Allocator>(
    table: &RuleTable<'_>,
    what: Terminal<'_>,
    tokens: TokenTreesView<'t, A>,
) -> ParseResult<'t, A>
    ensures { result_model result ≡ spec.terminal table.now what.entry (trees tokens.entry) }
{
    match what {
        Terminal::Word(text) => word(tokens, &[text]),
        Terminal::Words(texts) => word(tokens, texts),
        Terminal::Operator(text) => operator(tokens, &[text]),
        Terminal::Operators(texts) => operator(tokens, texts),
        Terminal::Sign(char) => sign(tokens, char),
        Terminal::Group(kinds) => group(tokens, kinds),
        Terminal::Fragment(groups) => fragment(tokens, groups),
        Terminal::Name => name(table, tokens),
        Terminal::Identifier => identifier(tokens),
        Terminal::Literal => literal(tokens),
        Terminal::Pointed => pointed(tokens),
        Terminal::Any => any(tokens),
        Terminal::End => end(tokens),
        Terminal::Since(edition) => since(table, edition, tokens),
    }
}

/// The trees after a word: an identifier with one of these texts that isn't raw.
#[inline]
pub fn word<'t, A: Allocator>(tokens: TokenTreesView<'t, A>, texts: &[&str]) -> ParseResult<'t, A>
    ensures { result_model result ≡ or_no_match
        (after_one (is_one_of (map (λ t. t.now) texts.now)) (trees tokens.entry)) }
{
    let mut iter = tokens.iter();
    match iter.expect_ident_or_underscore() {
        Ok(ident) if is_word(ident, texts) => Ok(iter.remaining()),
        _ => Err(ParseFailure::NoMatch),
    }
}

fn is_word<A: Allocator>(ident: &Ident<A>, texts: &[&str]) -> bool
    ensures { result ≡ is_word (map (λ t. t.now) texts.now) ident.now.is_raw ident.now.sym }
{
    match ident.is_raw {
        IdentIsRaw::No => is_text_of(ident.sym.as_str(), texts),
        IdentIsRaw::Yes => false,
    }
}

/// Whether the text is one of these texts.
pub fn is_text_of(text: &str, texts: &[&str]) -> bool
    ensures { result ≡ list_any (λ t. bytes_eq text.now t.now) texts.now }
{
    texts.iter().any(|t| text == *t)
}

/// The trees after an identifier.
#[inline]
pub fn identifier<'t, A: Allocator>(tokens: TokenTreesView<'t, A>) -> ParseResult<'t, A>
    ensures { result_model result ≡ or_no_match (after_one is_identifier (trees tokens.entry)) }
{
    let mut iter = tokens.iter();
    match iter.expect_ident_or_underscore() {
        Ok(_ident) => Ok(iter.remaining()),
        Err(()) => Err(ParseFailure::NoMatch),
    }
}

#[inline(never)]
fn name<'t, A: Allocator>(
    table: &RuleTable<'_>,
    tokens: TokenTreesView<'t, A>,
) -> ParseResult<'t, A>
    ensures { result_model result
        ≡ or_no_match (after_one (is_name table.now) (trees tokens.entry)) }
{
    let mut iter = tokens.iter();
    match iter.expect_ident() {
        Ok(ident) if !is_keyword(table, ident) => Ok(iter.remaining()),
        _ => Err(ParseFailure::NoMatch),
    }
}

fn is_keyword<A: Allocator>(table: &RuleTable<'_>, ident: &Ident<A>) -> bool
    ensures { result ≡ is_keyword table.now (ident_of ident.now) }
{
    match ident.is_raw {
        IdentIsRaw::No => {
            table.is_keyword_in(table.edition_of(ident.span.ctx), ident.sym.as_str())
        }
        IdentIsRaw::Yes => false,
    }
}

/// The trees after a literal.
#[inline]
pub fn literal<'t, A: Allocator>(tokens: TokenTreesView<'t, A>) -> ParseResult<'t, A>
    ensures { result_model result ≡ or_no_match (after_one is_literal (trees tokens.entry)) }
{
    let mut iter = tokens.iter();
    match iter.next() {
        Some(TtElement::Leaf(Leaf::Literal(_))) => Ok(iter.remaining()),
        _ => Err(ParseFailure::NoMatch),
    }
}

#[inline(never)]
fn pointed<'t, A: Allocator>(tokens: TokenTreesView<'t, A>) -> ParseResult<'t, A>
    ensures { result_model result ≡ or_no_match (after_one is_pointed (trees tokens.entry)) }
{
    let mut iter = tokens.iter();
    match iter.next() {
        Some(TtElement::Leaf(Leaf::Literal(it))) if has_point(it) => Ok(iter.remaining()),
        _ => Err(ParseFailure::NoMatch),
    }
}

fn has_point<A: Allocator>(it: &Literal<A>) -> bool
    ensures { result ≡ has_point (literal_of it.now) }
{
    let text = it.text_and_suffix.as_str().as_bytes();
    matches!(it.kind, LitKind::Float) && text.ends_with(b".")
}

#[inline(never)]
fn any<'t, A: Allocator>(tokens: TokenTreesView<'t, A>) -> ParseResult<'t, A>
    ensures { result_model result ≡ or_no_match (after_one is_any (trees tokens.entry)) }
{
    let mut iter = tokens.iter();
    match iter.next() {
        None => Err(ParseFailure::NoMatch),
        Some(_) => Ok(iter.remaining()),
    }
}

#[inline(never)]
fn end<'t, A: Allocator>(tokens: TokenTreesView<'t, A>) -> ParseResult<'t, A>
    ensures { result_model result ≡ at_end (trees tokens.entry) }
{
    if tokens.iter().is_empty() {
        Ok(tokens)
    } else {
        Err(ParseFailure::NoMatch)
    }
}

#[inline(never)]
fn since<'t, A: Allocator>(
    table: &RuleTable<'_>,
    edition: Edition,
    tokens: TokenTreesView<'t, A>,
) -> ParseResult<'t, A>
    ensures { result_model result ≡ if_since table.now edition (trees tokens.entry) }
{
    match tokens.iter().next_span() {
        Some(span) if is_since(table.edition_of(span.ctx), edition) => Ok(tokens),
        _ => Err(ParseFailure::NoMatch),
    }
}

/// The trees after a punct with this char, even if it is the first of an operator.
#[inline]
pub fn sign<'t, A: Allocator>(tokens: TokenTreesView<'t, A>, char: char) -> ParseResult<'t, A>
    ensures { result_model result ≡ or_no_match (after_one (is_punct char) (trees tokens.entry)) }
{
    let mut iter = tokens.iter();
    match iter.expect_char(char) {
        Ok(()) => Ok(iter.remaining()),
        Err(()) => Err(ParseFailure::NoMatch),
    }
}

/// The trees after a group of one of these kinds.
#[inline]
pub fn group<'t, A: Allocator>(
    tokens: TokenTreesView<'t, A>,
    kinds: &[DelimiterKind],
) -> ParseResult<'t, A>
    ensures { result_model result
        ≡ or_no_match (after_one (is_group kinds.now) (trees tokens.entry)) }
{
    let mut iter = tokens.iter();
    match iter.expect_subtree() {
        Ok((subtree, _inside)) if is_kind_of(subtree.delimiter.kind, kinds) => Ok(iter.remaining()),
        _ => Err(ParseFailure::NoMatch),
    }
}

// The trees after the group of a fragment that holds one of these.
#[inline(never)]
fn fragment<'t, A: Allocator>(
    tokens: TokenTreesView<'t, A>,
    groups: &[FragmentGroup],
) -> ParseResult<'t, A>
    ensures { result_model result
        ≡ or_no_match (after_one (is_fragment_of groups.now) (trees tokens.entry)) }
{
    let mut iter = tokens.iter();
    match iter.expect_subtree() {
        Ok((subtree, _inside)) if is_around_one(subtree.delimiter, groups) => Ok(iter.remaining()),
        _ => Err(ParseFailure::NoMatch),
    }
}

fn is_around_one(delimiter: Delimiter, groups: &[FragmentGroup]) -> bool
    ensures { result ≡ list_any (λ g. is_around g delimiter) groups.now }
{
    groups.iter().any(|g| g.is_around(delimiter))
}

fn is_kind_of(kind: DelimiterKind, kinds: &[DelimiterKind]) -> bool
    ensures { result ≡ list_any (is_same_kind kind) kinds.now }
{
    kinds.iter().any(|k| kind == *k)
}

#[inline(never)]
fn operator<'t, A: Allocator>(tokens: TokenTreesView<'t, A>, texts: &[&str]) -> ParseResult<'t, A>
    ensures { result_model result ≡ or_no_match
        (after_operator (map (λ t. t.now) texts.now) (trees tokens.entry)) }
{
    let mut iter = tokens.iter();
    let Some(TtElement::Leaf(Leaf::Punct(_))) = iter.peek() else {
        return Err(ParseFailure::NoMatch);
    };
    match iter.expect_glued_punct() {
        Ok(glued) if are_one_of(glued.as_slice(), texts) => Ok(iter.remaining()),
        _ => Err(ParseFailure::NoMatch),
    }
}

fn are_one_of(puncts: &[Punct], texts: &[&str]) -> bool
    ensures { result ≡ list_any (bytes_eq (chars_of puncts.now)) (map (λ t. t.now) texts.now) }
{
    match texts.split_first() {
        Some((text, texts)) => have_chars(puncts, text.as_bytes()) || are_one_of(puncts, texts),
        None => false,
    }
}

fn have_chars(puncts: &[Punct], bytes: &[u8]) -> bool
    ensures { result ≡ bytes_eq (chars_of puncts.now) bytes.now }
{
    match (puncts.split_first(), bytes.split_first()) {
        (Some((punct, puncts)), Some((byte, bytes))) => {
            punct.char == char::from(*byte) && have_chars(puncts, bytes)
        }
        (None, None) => true,
        _ => false,
    }
}
