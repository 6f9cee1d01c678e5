// Decodes flat tokens into trees. It checks every number and every text, since they come from the
// caller.
ghost use Rattle.std.specs.Prelude.{◌≡◌, ◌<◌, ◌⊎◌, [], Some, None, IfOk, IfErr, IfNone, IfSome, OnOk};
ghost use Rattle.mbe_tt.specs.Buffers.GroupStack.{GroupStack};
ghost use Rattle.mbe_tt.specs.Trees.Leaf as leaves;
ghost use Rattle.mbe_tt.specs.Views.LeafViews as shown;
ghost use Rattle.mbe_program.specs.Replies.Flat.TokenCodes.{delimiter_of};
ghost use Rattle.mbe_program.specs.Replies.Flat.TokenCodes as numbers;
ghost use Rattle.mbe_program.specs.Replies.Flat.Decoder as spec;
ghost use Rattle.mbe_program.specs.Replies.Flat.TokenFaults as faults;
ghost use Rattle.mbe_program.specs.declared.replies.flat.decoder.FlatFault.TheVariants as kinds;

use crate::replies::flat::flat_token::{
    CLOSING, FlatToken, IDENT, LITERAL, OPENING, PUNCT, delimiter_of, literal_of, raw_of,
    spacing_of, span_of,
};
use mbe_tt::span::Span;
use mbe_tt::symbol::Symbol;
use mbe_tt::tt::{
    Delimiter, DelimiterKind, Ident, Leaf, Literal, Punct, TopSubtree, TopSubtreeBuilder,
};
use std::alloc::{AllocError, Allocator};

/// What is wrong with a flat token.
#[derive(Drop)]
pub enum FlatFault {
    /// Its kind is none of the five.
    Kind,
    /// Its sort has no meaning for its kind.
    Sort,
    /// A punct's character is no `char`.
    Character,
    /// A literal has more than 255 `#`, or a suffix of more than 255 bytes.
    Count,
    /// Its text isn't within the text beside the tokens.
    Range,
    /// Its text isn't UTF-8.
    Utf8,
    /// A closing has no opening inside the outer group, or another delimiter than its opening.
    Closing,
    /// The tokens aren't one group: there are fewer than two, the first isn't an opening, or the
    /// last isn't a closing of the same delimiter.
    Whole,
    /// A group inside is open at the end.
    Open,
}

/// Why flat tokens aren't trees.
#[derive(Drop)]
pub enum FlatError {
    /// A fault of the token at `index`, the first one. For `FlatFault::Whole` the index is 0. For
    /// `FlatFault::Open` it is the index of the last token.
    Fault { index: usize, fault_kind: FlatFault },
    OutOfMemory,
}

impl From<AllocError> for FlatError {
    ghost use Rattle.mbe_program.specs.declared.replies.flat.decoder.FlatError.TheVariants as errors;

    ghost from_gives = { λ _ error. error ≡ errors.OutOfMemory };

    fn from(_error: AllocError) -> FlatError {
        FlatError::OutOfMemory
    }
}

// Why a token isn't added.
#[derive(Drop)]
enum Refusal {
    FlatFault(FlatFault),
    OutOfMemory,
}

impl From<AllocError> for Refusal {
    ghost use Rattle.mbe_program.specs.declared.replies.flat.decoder.Refusal.TheVariants as refusals;

    ghost from_gives = { λ _ refusal. refusal ≡ refusals.OutOfMemory };

    fn from(_error: AllocError) -> Refusal {
        Refusal::OutOfMemory
    }
}

impl From<FlatFault> for Refusal {
    ghost use Rattle.mbe_program.specs.declared.replies.flat.decoder.Refusal.TheVariants as refusals;

    ghost from_gives = { λ fault_kind refusal. refusal ≡ refusals.FlatFault fault_kind };

    fn from(fault_kind: FlatFault) -> Refusal {
        Refusal::FlatFault(fault_kind)
    }
}

// Returns the text of a token.
fn text_of<'a>(text: &'a [u8], token: &FlatToken) -> Result<&'a str, FlatFault>
    ensures finds { IfOk result (λ s. spec.HasText text.now token.now s.now) }
    ensures fails { IfErr result (λ f. faults.HasNoText text.now token.now f) }
{
    if token.offset > text.len() || token.len > text.len() - token.offset {
        return Err(FlatFault::Range);
    }
    let (_before, rest) = text.split_at(token.offset);
    let (bytes, _after) = rest.split_at(token.len);
    match str::from_utf8(bytes) {
        Ok(text) => Ok(text),
        Err(_) => Err(FlatFault::Utf8),
    }
}

// Returns the number as a byte, if it is below 256.
fn byte_of(number: u32) -> Result<u8, FlatFault>
    ensures same { IfOk result (λ byte. byte ≡ number) }
    ensures fails { IfErr result (λ f. (f ≡ kinds.Count) × (255 < number)) }
{
    if number > 255 {
        return Err(FlatFault::Count);
    }
    Ok(number as u8)
}

fn ident_of<A: Allocator + Copy>(
    alloc: A,
    text: &[u8],
    token: &FlatToken,
) -> Result<Ident<A>, Refusal>
    requires { token.now.kind ≡ 1 }
    ensures says { IfOk result (λ i.
        spec.Decodes text.now token.now (leaves.ident (shown.ident_of i))) }
    ensures fails { IfErr result (λ r. faults.IsWrongBy text.now token.now r) }
{
    let Some(is_raw) = raw_of(token.sort) else {
        return Err(Refusal::FlatFault(FlatFault::Sort));
    };
    let sym = Symbol::intern(alloc, text_of(text, token)?)?;
    Ok(Ident {
        sym,
        is_raw,
        span: span_of(token.span),
    })
}

fn punct_of(text: &[u8], token: &FlatToken) -> Result<Punct, FlatFault>
    requires { token.now.kind ≡ 2 }
    ensures says { IfOk result (λ p. spec.Decodes text.now token.now (leaves.punct p)) }
    ensures fails { IfErr result (λ f. faults.IsWrong text.now token.now f) }
{
    let Some(spacing) = spacing_of(token.sort) else {
        return Err(FlatFault::Sort);
    };
    let Some(char) = char::from_u32(token.character) else {
        return Err(FlatFault::Character);
    };
    Ok(Punct {
        char,
        spacing,
        span: span_of(token.span),
    })
}

fn literal_from<A: Allocator + Copy>(
    alloc: A,
    text: &[u8],
    token: &FlatToken,
) -> Result<Literal<A>, Refusal>
    requires { token.now.kind ≡ 3 }
    ensures says { IfOk result (λ l. spec.Decodes text.now token.now
        (leaves.literal (shown.literal_of l))) }
    ensures fails { IfErr result (λ r. faults.IsWrongBy text.now token.now r) }
{
    let hashes = byte_of(token.hashes)?;
    let suffix_len = byte_of(token.suffix_len)?;
    let Some(kind) = literal_of(token.sort, hashes) else {
        return Err(Refusal::FlatFault(FlatFault::Sort));
    };
    let text_and_suffix = Symbol::intern(alloc, text_of(text, token)?)?;
    Ok(Literal {
        text_and_suffix,
        suffix_len,
        kind,
        span: span_of(token.span),
    })
}

fn leaf_from<A: Allocator + Copy>(
    alloc: A,
    text: &[u8],
    token: &FlatToken,
) -> Result<Leaf<A>, Refusal>
    ensures says { IfOk result (λ l. spec.Decodes text.now token.now (shown.leaf_of l)) }
    ensures known { IfOk result (λ _. (0 < token.now.kind) × (token.now.kind < 4)) }
    ensures fails { faults.IsNoDelimiter token.now
        → IfErr result (λ r. faults.IsWrongBy text.now token.now r) }
{
    match token.kind {
        IDENT => Ok(Leaf::Ident(ident_of(alloc, text, token)?)),
        PUNCT => Ok(Leaf::Punct(punct_of(text, token)?)),
        LITERAL => Ok(Leaf::Literal(literal_from(alloc, text, token)?)),
        _ => Err(Refusal::FlatFault(FlatFault::Kind)),
    }
}

fn delimiter_from(token: &FlatToken) -> Result<DelimiterKind, FlatFault>
    ensures finds { IfOk result (λ kind. delimiter_of token.now.sort ≡ Some kind) }
    ensures fails { IfErr result (λ f. (f ≡ kinds.Sort) × (delimiter_of token.now.sort ≡ None)) }
{
    match delimiter_of(token.sort) {
        Some(kind) => Ok(kind),
        None => Err(FlatFault::Sort),
    }
}

// Opens a group.
fn open<A: Allocator>(builder: &mut TopSubtreeBuilder<A>, token: &FlatToken) -> Result<(), Refusal>
    ensures opens { OnOk result (spec.Opens token.now builder.old builder.new) }
    ensures fails { token.now.kind ≡ 4 → IfErr result (λ r. faults.IsWrongBy [] token.now r) }
{
    let kind = delimiter_from(token)?;
    builder.open(kind, span_of(token.span))?;
    Ok(())
}

// Closes the innermost group, if it has that delimiter.
fn close<A: Allocator>(
    builder: &mut TopSubtreeBuilder<A>,
    token: &FlatToken,
) -> Result<(), FlatFault>
    ensures closes { OnOk result (spec.Closes token.now builder.old builder.new) }
    ensures fails { token.now.kind ≡ 5
        → IfErr result (λ f. faults.HasFault [] token.now builder.old f) }
{
    let kind = delimiter_from(token)?;
    match builder.open_kind() {
        Some(open) if open == kind => {
            builder.close(span_of(token.span));
            Ok(())
        }
        _ => Err(FlatFault::Closing),
    }
}

// Adds a leaf.
fn leaf<A: Allocator + Copy>(
    alloc: A,
    builder: &mut TopSubtreeBuilder<A>,
    text: &[u8],
    token: &FlatToken,
) -> Result<(), Refusal>
    ensures adds { OnOk result (spec.AddsLeaf text.now token.now builder.old builder.new) }
    ensures known { OnOk result ((0 < token.now.kind) × (token.now.kind < 4)) }
    ensures fails { faults.IsNoDelimiter token.now
        → IfErr result (λ r. faults.IsWrongBy text.now token.now r) }
{
    builder.push(leaf_from(alloc, text, token)?)?;
    Ok(())
}

// Adds a token.
fn add<A: Allocator + Copy>(
    alloc: A,
    builder: &mut TopSubtreeBuilder<A>,
    text: &[u8],
    token: &FlatToken,
) -> Result<(), Refusal>
    ensures adds { OnOk result (spec.Adds text.now token.now builder.old builder.new) }
    ensures fails { IfErr result (λ r. faults.IsRefused text.now token.now builder.old r) }
{
    match token.kind {
        OPENING => open(builder, token),
        CLOSING => Ok(close(builder, token)?),
        _ => leaf(alloc, builder, text, token),
    }
}

// Returns the error for the token at `index`, which wasn't added.
fn error_at(index: usize, refusal: Refusal) -> FlatError
    ensures { result ≡ faults.error_at index refusal }
{
    match refusal {
        Refusal::FlatFault(fault_kind) => FlatError::Fault { index, fault_kind },
        Refusal::OutOfMemory => FlatError::OutOfMemory,
    }
}

// Adds the tokens between the first and the last.
#[tactic(auto, using(crate::proofs::ReplyLemmas::FlatTokens::ReadLemmas::one_more, crate::proofs::ReplyLemmas::FlatTokens::ReadLemmas::all_added))]
fn add_all<A: Allocator + Copy>(
    alloc: A,
    builder: &mut TopSubtreeBuilder<A>,
    text: &[u8],
    tokens: &[FlatToken],
) -> Result<(), FlatError>
    ensures adds { OnOk result (spec.AddAll text.now tokens.now builder.old builder.new) }
    ensures fails { IfErr result (λ e.
        faults.AreRefusedInside text.now tokens.now builder.old e) }
{
    for (index, token) in tokens.iter().enumerate() {
        if let Err(refusal) = add(alloc, builder, text, token) {
            return Err(error_at(index + 1, refusal));
        }
    }
    Ok(())
}

// Returns the delimiter of the outer group, from the first token and the last.
fn outer_delimiter(first: &FlatToken, last: &FlatToken) -> Option<Delimiter>
    ensures opens { IfSome result (λ d. (first.now.kind ≡ 4)
        × (delimiter_of first.now.sort ≡ Some d.kind)
        × (d.opening ≡ numbers.span_of first.now.span)) }
    ensures closes { IfSome result (λ d. (last.now.kind ≡ 5)
        × (delimiter_of last.now.sort ≡ Some d.kind) × (d.close ≡ numbers.span_of last.now.span)) }
    ensures fails { IfNone result (faults.AreNoGroup first.now last.now) }
{
    if first.kind != OPENING || last.kind != CLOSING {
        return None;
    }
    let kind = delimiter_of(first.sort)?;
    let close = delimiter_of(last.sort)?;
    if kind != close {
        return None;
    }
    Some(Delimiter {
        opening: span_of(first.span),
        close: span_of(last.span),
        kind,
    })
}

// The error of tokens that aren't one group.
const NOT_ONE_GROUP: FlatError = FlatError::Fault {
    index: 0,
    fault_kind: FlatFault::Whole,
};

/// Decodes flat tokens, whose texts are bytes of `text`. The tokens are one group: its opening,
/// its content, and its closing. The error is the first fault, or that memory ran out. Tokens
/// that are one group, and of which each can be added, have no fault.
pub fn trees_of<A: Allocator + Copy>(
    alloc: A,
    tokens: &[FlatToken],
    text: &[u8],
) -> Result<TopSubtree<A>, FlatError>
    ensures reads { IfOk result (λ tree. spec.AreTrees text.now tokens.now tree) }
    ensures fails { IfErr result (λ e. faults.AreRefused text.now tokens.now e) }
{
    let Some((first, rest)) = tokens.split_first() else {
        return Err(NOT_ONE_GROUP);
    };
    let Some((last, middle)) = rest.split_last() else {
        return Err(NOT_ONE_GROUP);
    };
    let Some(delimiter) = outer_delimiter(first, last) else {
        return Err(NOT_ONE_GROUP);
    };
    let mut builder = TopSubtreeBuilder::new(alloc, delimiter)?;
    add_all(alloc, &mut builder, text, middle)?;
    if builder.open_kind().is_some() {
        return Err(FlatError::Fault {
            index: middle.len() + 1,
            fault_kind: FlatFault::Open,
        });
    }
    Ok(builder.build())
}
