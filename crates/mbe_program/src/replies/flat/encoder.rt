// Encodes trees as flat tokens.
ghost use Rattle.std.specs.Prelude.{◌≡◌, IfOk, OnOk, length};
ghost use Rattle.mbe_tt.specs.Views.LeafViews.{leaf_of, ident_of, literal_of};
ghost use Rattle.mbe_tt.specs.Trees.Leaf as leaves;
ghost use Rattle.mbe_tt.specs.Views.View.{trees};
ghost use Rattle.mbe_tt.specs.Trees.Top.{top_group};
ghost use Rattle.mbe_program.specs.Replies.Flat.Encoder as spec;
ghost use Rattle.mbe_program.specs.Replies.Flat.FlatViews.{state_of};

use crate::replies::flat::flat_token::{
    CLOSING, FlatToken, IDENT, LITERAL, OPENING, PUNCT, delimiter_sort, flat_span, hashes_of,
    literal_sort, raw_sort, spacing_sort,
};
use mbe_tt::span::Span;
use mbe_tt::tt::{
    Delimiter, DelimiterKind, Ident, Leaf, Literal, Punct, TokenTreesView, TopSubtree, TtElement,
};
use std::alloc::{AllocError, Allocator, Global};

/// Flat tokens, and the bytes of their texts, one after another. Clauses see both by `state_of`.
#[derive(Drop)]
pub struct FlatTrees<A: Allocator = Global> {
    pub tokens: Vec<FlatToken, A>,
    pub text: Vec<u8, A>,
}

// Returns a token with only its kind, its sort and its span.
fn plain_token(kind: u32, sort: u32, span: Span) -> FlatToken
    ensures { result ≡ spec.plain_token kind sort span }
{
    FlatToken {
        kind,
        sort,
        character: 0,
        hashes: 0,
        suffix_len: 0,
        span: flat_span(span),
        offset: 0,
        len: 0,
    }
}

fn ident_token<A: Allocator>(ident: &Ident<A>, offset: usize) -> FlatToken
    ensures { result ≡ spec.leaf_token offset (leaves.ident (ident_of ident.now)) }
{
    FlatToken {
        offset,
        len: ident.sym.as_str().len(),
        ..plain_token(IDENT, raw_sort(ident.is_raw), ident.span)
    }
}

fn punct_token(punct: Punct) -> FlatToken
    ensures { result ≡ spec.leaf_token 0 (leaves.punct punct) }
{
    FlatToken {
        character: punct.char as u32,
        ..plain_token(PUNCT, spacing_sort(punct.spacing), punct.span)
    }
}

fn literal_token<A: Allocator>(literal: &Literal<A>, offset: usize) -> FlatToken
    ensures { result ≡ spec.leaf_token offset (leaves.literal (literal_of literal.now)) }
{
    FlatToken {
        hashes: hashes_of(literal.kind),
        suffix_len: literal.suffix_len as u32,
        offset,
        len: literal.text_and_suffix.as_str().len(),
        ..plain_token(LITERAL, literal_sort(literal.kind), literal.span)
    }
}

fn opening_token(kind: DelimiterKind, span: Span, len: usize) -> FlatToken
    ensures { result ≡ spec.opening_token kind span len }
{
    FlatToken {
        len,
        ..plain_token(OPENING, delimiter_sort(kind), span)
    }
}

fn closing_token(kind: DelimiterKind, span: Span) -> FlatToken
    ensures { result ≡ spec.closing_token kind span }
{
    plain_token(CLOSING, delimiter_sort(kind), span)
}

impl<A: Allocator + Copy> FlatTrees<A> {
    fn leaf(&mut self, leaf: &Leaf<A>) -> Result<(), AllocError>
        ensures { OnOk result (state_of self.new
            ≡ spec.a_leaf (state_of self.old) (leaf_of leaf.now)) }
    {
        let offset = self.text.len();
        match leaf {
            Leaf::Punct(punct) => self.tokens.push(punct_token(*punct))?,
            Leaf::Ident(ident) => {
                self.tokens.push(ident_token(ident, offset))?;
                self.text.extend_from_slice(ident.sym.as_str().as_bytes())?;
            }
            Leaf::Literal(literal) => {
                self.tokens.push(literal_token(literal, offset))?;
                self.text
                    .extend_from_slice(literal.text_and_suffix.as_str().as_bytes())?;
            }
        }
        Ok(())
    }

    fn open(&mut self, delimiter: Delimiter, len: usize) -> Result<(), AllocError>
        ensures { OnOk result (state_of self.new ≡ spec.opened (state_of self.old) delimiter len) }
    {
        self.tokens
            .push(opening_token(delimiter.kind, delimiter.opening, len))?;
        Ok(())
    }

    fn close(&mut self, delimiter: Delimiter) -> Result<(), AllocError>
        ensures { OnOk result (state_of self.new ≡ spec.closed (state_of self.old) delimiter) }
    {
        self.tokens
            .push(closing_token(delimiter.kind, delimiter.close))?;
        Ok(())
    }

    // Writes the trees.
    fn trees(&mut self, alloc: A, view: TokenTreesView<'_, A>) -> Result<(), AllocError>
        ensures { OnOk result (state_of self.new
            ≡ spec.written (trees view.entry) (state_of self.old)) }
    {
        let mut around = Vec::new(alloc);
        let mut iter = view.iter();
        'tokens: loop {
            match iter.next() {
                Some(TtElement::Leaf(leaf)) => self.leaf(leaf)?,
                Some(TtElement::Subtree(group, inside)) => {
                    let delimiter = group.delimiter;
                    self.open(delimiter, inside.remaining().flat_len())?;
                    around.push((delimiter, iter))?;
                    iter = inside;
                }
                None => match around.pop() {
                    None => return Ok(()),
                    Some((delimiter, rest)) => {
                        self.close(delimiter)?;
                        iter = rest;
                    }
                },
            }
        }
    }
}

/// Encodes a buffer: the opening of its group, what is inside, and the closing. `AllocError` if out
/// of memory.
pub fn flat_trees<A: Allocator + Copy>(
    alloc: A,
    tree: &TopSubtree<A>,
) -> Result<FlatTrees<A>, AllocError>
    ensures { IfOk result (λ flat. state_of flat ≡ spec.flat_form (top_group tree.now)) }
{
    let mut flat = FlatTrees {
        tokens: Vec::new(alloc),
        text: Vec::new(alloc),
    };
    flat.trees(alloc, tree.view())?;
    Ok(flat)
}
