// A printer of trees as Rust text.
//
// It puts each statement on a line of its own, indented by four spaces for each brace around it.
//
// Two tokens that are adjacent in one file remain adjacent, unless they would run together. Between
// any other two tokens there is a space if they would run together, or if people write one there.
// The puncts of one operator remain together. Doc comments are written as such.
ghost use Rattle.std.specs.Prelude.{◌≡◌, ◌++◌, option_map, OnOk, Some};
ghost use Rattle.std.specs.String.{string_bytes};
ghost use Rattle.mbe_tt.specs.Views.LeafViews.{ident_of, literal_of, leaf_of};
ghost use Rattle.mbe_tt.specs.Views.View.{trees};
ghost use Rattle.mbe_text.specs.RustText.Gaps.{gap_text, indent};
ghost use Rattle.mbe_text.specs.RustText.PrinterViews.{doc_comment_of, printer_state};
ghost use Rattle.mbe_text.specs.RustText.Printer as spec;

use crate::doc_comments::{DocComment, front_comment, rest_after_comment};
use crate::gaps::{
    Gap, LastToken, continues_block, gap_between, has_same_span, is_adjacent, is_adjacent_to_next,
    last_punct, last_word,
};
use mbe_tt::span::Span;
use mbe_tt::tt::{
    Delimiter, DelimiterKind, Ident, IdentIsRaw, Leaf, Literal, Punct, TokenTreesView, TtElement,
    TtIter,
};
use std::alloc::{AllocError, Allocator, Global};

/// A text that is written token by token. Clauses see it by `printer_state`.
#[derive(Drop)]
pub struct RustPrinter<A: Allocator = Global> {
    alloc: A,
    text: String<A>,
    last: LastToken,
    // The span of the last token.
    token_span: Option<Span>,
    // The number of open braces.
    depth: usize,
}

impl<A: Allocator + Copy> RustPrinter<A> {
    /// Returns a printer that has written nothing. Its lines begin with four spaces for each level
    /// of `depth`.
    pub fn new(alloc: A, depth: usize) -> RustPrinter<A>
        ensures { printer_state result ≡ spec.start depth }
    {
        RustPrinter {
            alloc,
            text: String::new(alloc),
            last: LastToken::Start,
            token_span: None,
            depth,
        }
    }

    /// Returns the written text.
    pub fn into_text(self) -> String<A>
        ensures { string_bytes result ≡ (printer_state self).text }
    {
        let RustPrinter { text, .. } = self;
        text
    }

    // Writes a gap.
    fn space(&mut self, gap: Gap) -> Result<(), AllocError>
        ensures { OnOk result (printer_state self.new ≡ record (printer_state self.old) {
          text = (printer_state self.old).text ++ gap_text gap (printer_state self.old).depth;
        }) }
    {
        match gap {
            Gap::Nothing => Ok(()),
            Gap::Space => self.text.push_str(" "),
            Gap::Line => {
                self.text.push_str("\n")?;
                indent(&mut self.text, self.depth)
            }
        }
    }

    // Writes a gap and a token.
    fn token(
        &mut self,
        gap: Gap,
        text: &str,
        last: LastToken,
        token_span: Span,
    ) -> Result<(), AllocError>
        ensures { OnOk result (printer_state self.new
            ≡ spec.token gap text.now last token_span (printer_state self.old)) }
    {
        self.space(gap)?;
        self.text.push_str(text)?;
        self.last = last;
        self.token_span = Some(token_span);
        Ok(())
    }

    // Writes a leaf. `next` is where the next tree begins, if one follows in the same group.
    fn leaf(&mut self, leaf: &Leaf<A>, next: Option<Span>) -> Result<(), AllocError>
        ensures { OnOk result (printer_state self.new
            ≡ spec.with_leaf (printer_state self.old) (leaf_of leaf.now) next) }
    {
        match leaf {
            Leaf::Ident(ident) => self.word(ident),
            Leaf::Literal(literal) => self.literal(literal),
            Leaf::Punct(punct) => self.punct(*punct, next),
        }
    }

    // Writes an identifier.
    fn word(&mut self, ident: &Ident<A>) -> Result<(), AllocError>
        ensures { OnOk result (printer_state self.new
            ≡ spec.word (printer_state self.old) (ident_of ident.now)) }
    {
        let name = name_text(ident.sym.as_str());
        let gap = gap_between(
            self.last.ends_line(!continues_block(name)),
            self.last.separates_word(),
            is_adjacent(self.token_span, ident.span) && !self.last.merges_with_word(),
        );
        let text = match ident.is_raw {
            IdentIsRaw::No => String::from_str(self.alloc, name)?,
            IdentIsRaw::Yes => format!(in self.alloc; "r#{name}")?,
        };
        self.token(gap, text.as_str(), last_word(name), ident.span)
    }

    // Writes a literal.
    fn literal(&mut self, literal: &Literal<A>) -> Result<(), AllocError>
        ensures { OnOk result (printer_state self.new
            ≡ spec.with_literal (printer_state self.old) (literal_of literal.now)) }
    {
        let gap = gap_between(
            self.last.ends_line(true),
            self.last.separates_literal(),
            is_adjacent(self.token_span, literal.span) && !self.last.merges_with_literal(),
        );
        let text = format!(in self.alloc; "{literal}")?;
        self.token(gap, text.as_str(), LastToken::Literal, literal.span)
    }

    // Writes a punct. `next` is where the next tree begins, if one follows in the same group.
    fn punct(&mut self, punct: Punct, next: Option<Span>) -> Result<(), AllocError>
        ensures { OnOk result (printer_state self.new
            ≡ spec.with_punct (printer_state self.old) punct next) }
    {
        let Punct {
            char,
            spacing,
            span,
        } = punct;
        let same_span = has_same_span(self.token_span, span);
        let beside_next = is_adjacent_to_next(span, next);
        let gap = gap_between(
            self.last.ends_line(matches!(char, '#' | '\'')),
            self.last.separates_punct(same_span, char, spacing),
            is_adjacent(self.token_span, span) && self.last.may_touch_punct(char, beside_next),
        );
        let last = last_punct(spacing, char, self.last.is_colon());
        let mut text = String::new(self.alloc);
        text.push(char)?;
        self.token(gap, text.as_str(), last, span)
    }

    // Returns the gap before an opening.
    fn opening_gap(&self, is_brace: bool, token_span: Span) -> Gap
        ensures { result ≡ spec.opening_gap (printer_state self.now) is_brace token_span }
    {
        gap_between(
            self.last.ends_line(false),
            self.last.separates_opening(is_brace),
            is_adjacent(self.token_span, token_span),
        )
    }

    // Writes an opening. An invisible group has none.
    fn open(&mut self, kind: DelimiterKind, token_span: Span) -> Result<(), AllocError>
        ensures { OnOk result (printer_state self.new
            ≡ spec.opened (printer_state self.old) kind token_span) }
    {
        match kind {
            DelimiterKind::Invisible => Ok(()),
            DelimiterKind::Parenthesis => {
                let gap = self.opening_gap(false, token_span);
                self.token(gap, "(", LastToken::Open, token_span)
            }
            DelimiterKind::Bracket => {
                let gap = self.opening_gap(false, token_span);
                self.token(gap, "[", LastToken::Open, token_span)
            }
            DelimiterKind::Brace => {
                let gap = self.opening_gap(true, token_span);
                self.token(gap, "{", LastToken::OpenBrace, token_span)?;
                self.depth = self.depth.saturating_add(1);
                Ok(())
            }
        }
    }

    // Writes a closing. An invisible group has none.
    fn close(&mut self, kind: DelimiterKind, token_span: Span) -> Result<(), AllocError>
        ensures { OnOk result (printer_state self.new
            ≡ spec.closed (printer_state self.old) kind token_span) }
    {
        match kind {
            DelimiterKind::Invisible => Ok(()),
            DelimiterKind::Parenthesis => self.token(
                Gap::Nothing,
                ")",
                LastToken::Close,
                token_span,
            ),
            DelimiterKind::Bracket => self.token(Gap::Nothing, "]", LastToken::Close, token_span),
            DelimiterKind::Brace => {
                self.depth = self.depth.saturating_sub(1);
                let gap = gap_between(!self.last.is_open_brace(), false, false);
                self.token(gap, "}", LastToken::CloseBrace, token_span)
            }
        }
    }

    // Writes a doc comment, on lines of its own.
    fn comment(&mut self, comment: DocComment<'_>) -> Result<(), AllocError>
        ensures { OnOk result (printer_state self.new
            ≡ spec.with_comment (printer_state self.old) (doc_comment_of comment.entry)) }
    {
        let gap = gap_between(!self.last.is_line_start(), false, false);
        self.space(gap)?;
        self.text
            .push_str(comment_opener(comment.is_inner, comment.is_block))?;
        self.text.push_str(comment.text)?;
        self.text.push_str(comment_closer(comment.is_block))?;
        self.space(Gap::Line)?;
        self.last = LastToken::Start;
        self.token_span = None;
        Ok(())
    }

    // Returns the doc comment at the front of the trees, unless what was written last forbids a
    // comment.
    fn next_comment<'t>(&self, tokens: TokenTreesView<'t, A>) -> Option<DocComment<'t>>
        ensures { option_map doc_comment_of result
            ≡ spec.next_comment (printer_state self.now) (trees tokens.entry) }
    {
        let comment = front_comment(tokens)?;
        if self.last.may_precede_comment() {
            Some(comment)
        } else {
            None
        }
    }

    /// Writes the trees. An attribute that the lexer made of a doc comment becomes a doc comment
    /// again. With one line it is `/// ..` or `//! ..`. Otherwise it is `/** .. */` or `/*! .. */`.
    /// Returns `AllocError` if out of memory.
    pub fn trees(&mut self, tokens: TokenTreesView<'_, A>) -> Result<(), AllocError>
        ensures { OnOk result (printer_state self.new
            ≡ spec.written (trees tokens.entry) (printer_state self.old)) }
    {
        let mut around = Vec::new(self.alloc);
        let mut iter = tokens.iter();
        'tokens: loop {
            if let Some(comment) = self.next_comment(iter.remaining()) {
                self.comment(comment)?;
                iter = rest_after_comment(comment.is_inner, iter.remaining()).iter();
                continue 'tokens;
            }
            match iter.next() {
                Some(TtElement::Leaf(leaf)) => self.leaf(leaf, iter.next_span())?,
                Some(TtElement::Subtree(group, inside)) => {
                    let delimiter = group.delimiter;
                    self.open(delimiter.kind, delimiter.opening)?;
                    around.push((delimiter, iter))?;
                    iter = inside;
                }
                None => match around.pop() {
                    None => return Ok(()),
                    Some((delimiter, rest)) => {
                        self.close(delimiter.kind, delimiter.close)?;
                        iter = rest;
                    }
                },
            }
        }
    }
}

// Returns the opening marks of a doc comment.
fn comment_opener(is_inner: bool, is_block: bool) -> &'static str
    ensures { result.now ≡ spec.comment_opener is_inner is_block }
{
    match (is_inner, is_block) {
        (false, false) => "///",
        (true, false) => "//!",
        (false, true) => "/**",
        (true, true) => "/*!",
    }
}

// Returns the closing marks of a doc comment.
fn comment_closer(is_block: bool) -> &'static str
    ensures { result.now ≡ spec.comment_closer is_block }
{
    if is_block { "*/" } else { "" }
}

// Returns how a name is written: `$crate` as `crate`.
fn name_text(name: &str) -> &str
    ensures { result.now ≡ spec.name_text name.now }
{
    if name == "$crate" { "crate" } else { name }
}

// Writes four spaces for each level of `depth`.
fn indent<A: Allocator>(text: &mut String<A>, depth: usize) -> Result<(), AllocError>
    ensures { OnOk result (string_bytes text.new ≡ string_bytes text.old ++ indent depth) }
{
    let mut left = depth;
    'spaces: while left > 0 {
        left -= 1;
        text.push_str("    ")?;
    }
    Ok(())
}
