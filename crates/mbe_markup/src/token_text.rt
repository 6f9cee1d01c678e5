// The text of trees, and where each of their flat tokens is in it.
//
// `mbe_text` prints the trees. The tokens are then found in the printed text, one after another. A
// doc comment stands for the tokens of its attribute: the literal has the range of the comment, and
// the other tokens have no text.
use mbe_text::rust_printer::RustPrinter;
use mbe_tt::span::Span;
use mbe_tt::tt::{Delimiter, DelimiterKind, Ident, IdentIsRaw, Leaf, TokenTreesView, TtElement};
use std::alloc::{AllocError, Global};

/// A flat token, and its range of bytes in the text. The range is empty if the token isn't there.
#[derive(Clone, Copy, Drop)]
pub struct TextToken {
    pub start: usize,
    pub end: usize,
    pub span: Span,
}

/// A text, and the flat tokens that it is the text of.
#[derive(Drop)]
pub struct TokenText {
    pub text: String,
    pub tokens: Vec<TextToken>,
}

fn opening_of(kind: DelimiterKind) -> &'static str {
    match kind {
        DelimiterKind::Parenthesis => "(",
        DelimiterKind::Brace => "{",
        DelimiterKind::Bracket => "[",
        DelimiterKind::Invisible => "",
    }
}

fn closing_of(kind: DelimiterKind) -> &'static str {
    match kind {
        DelimiterKind::Parenthesis => ")",
        DelimiterKind::Brace => "}",
        DelimiterKind::Bracket => "]",
        DelimiterKind::Invisible => "",
    }
}

// Returns an identifier as it is printed.
fn ident_text(alloc: Global, ident: &Ident) -> Result<String, AllocError> {
    let name = ident.sym.as_str();
    match ident.is_raw {
        IdentIsRaw::No if name == "$crate" => String::from_str(alloc, "crate"),
        IdentIsRaw::No => String::from_str(alloc, name),
        IdentIsRaw::Yes => format!(in alloc; "r#{name}"),
    }
}

fn leaf_text(alloc: Global, leaf: &Leaf) -> Result<String, AllocError> {
    match leaf {
        Leaf::Ident(ident) => ident_text(alloc, ident),
        Leaf::Literal(literal) => format!(in alloc; "{literal}"),
        Leaf::Punct(punct) => {
            let char = punct.char;
            format!(in alloc; "{char}")
        }
    }
}

// Returns the byte where a comment at the front of a text ends.
fn comment_len(text: &str) -> Option<usize> {
    if text.starts_with("//") {
        return text.find('\n').or(Some(text.len()));
    }
    if text.starts_with("/*") {
        return Some(text.find("*/")?.saturating_add(2));
    }
    None
}

// Finds tokens in a text, one after another.
#[derive(Drop)]
struct TokenFinder<'t> {
    text: &'t str,
    // Where the search continues.
    at: usize,
    // The end of the doc comment that stands for the tokens of an attribute.
    comment: Option<usize>,
    tokens: Vec<TextToken>,
}

impl<'t> TokenFinder<'t> {
    fn push(&mut self, start: usize, end: usize, span: Span) -> Result<(), AllocError> {
        self.tokens.push(TextToken { start, end, span })?;
        self.at = end;
        Ok(())
    }

    // Returns the rest of the text without white space at its front, and where that begins.
    fn rest(&self) -> (usize, &'t str) {
        let rest = self.text.get(self.at..).unwrap_or("");
        let trimmed = rest.trim_start();
        let skipped = rest.len().saturating_sub(trimmed.len());
        (self.at.saturating_add(skipped), trimmed)
    }

    // Adds a token that has no text of its own.
    fn push_empty(&mut self, span: Span) -> Result<(), AllocError> {
        let at = self.at;
        self.push(at, at, span)
    }

    // Finds a token. If the text doesn't continue with it, no later token is found either.
    fn find(&mut self, token: &str, span: Span) -> Result<(), AllocError> {
        let (start, rest) = self.rest();
        if token.is_empty() {
            return self.push_empty(span);
        }
        if rest.starts_with(token) {
            return self.push(start, start.saturating_add(token.len()), span);
        }
        if token == "#"
            && let Some(len) = comment_len(rest)
        {
            self.comment = Some(start.saturating_add(len));
            return self.push(start, start, span);
        }
        let end = self.text.len();
        self.push(end, end, span)
    }

    // Finds a leaf.
    fn leaf(&mut self, alloc: Global, leaf: &Leaf) -> Result<(), AllocError> {
        let span = leaf.span();
        match (self.comment, leaf) {
            (None, _) => {
                let token = leaf_text(alloc, leaf)?;
                self.find(token.as_str(), span)
            }
            (Some(end), Leaf::Literal(_)) => {
                let start = self.at;
                self.push(start, end, span)
            }
            (Some(_), Leaf::Ident(_) | Leaf::Punct(_)) => self.push_empty(span),
        }
    }

    fn opening(&mut self, delimiter: Delimiter) -> Result<(), AllocError> {
        match self.comment {
            Some(_) => self.push_empty(delimiter.opening),
            None => self.find(opening_of(delimiter.kind), delimiter.opening),
        }
    }

    fn closing(&mut self, delimiter: Delimiter) -> Result<(), AllocError> {
        match self.comment {
            Some(_) => {
                self.comment = None;
                self.push_empty(delimiter.close)
            }
            None => self.find(closing_of(delimiter.kind), delimiter.close),
        }
    }

    // Finds the tokens of trees.
    fn trees(&mut self, alloc: Global, trees: TokenTreesView<'_>) -> Result<(), AllocError> {
        let mut around: Vec<Delimiter> = Vec::new(alloc);
        let mut cursor = trees.cursor();
        for _ in 0..trees.flat_len() {
            match cursor.token_tree() {
                Some(TtElement::Leaf(leaf)) => self.leaf(alloc, leaf)?,
                Some(TtElement::Subtree(group, _)) => {
                    around.push(group.delimiter)?;
                    self.opening(group.delimiter)?;
                }
                None => {
                    if let Some(delimiter) = around.pop() {
                        self.closing(delimiter)?;
                    }
                }
            }
            cursor.bump_or_end();
        }
        Ok(())
    }
}

/// Prints trees, and finds their tokens in the text. `AllocError` if out of memory.
pub fn token_text(alloc: Global, trees: TokenTreesView<'_>) -> Result<TokenText, AllocError> {
    let mut printer = RustPrinter::new(alloc, 0);
    printer.trees(trees)?;
    let text = printer.into_text();
    let tokens = find_tokens(alloc, text.as_str(), trees)?;
    Ok(TokenText { text, tokens })
}

// Finds the tokens of trees in their text.
fn find_tokens(
    alloc: Global,
    text: &str,
    trees: TokenTreesView<'_>,
) -> Result<Vec<TextToken>, AllocError> {
    let mut finder = TokenFinder {
        text,
        at: 0,
        comment: None,
        tokens: Vec::new(alloc),
    };
    finder.trees(alloc, trees)?;
    let TokenFinder { tokens, .. } = finder;
    Ok(tokens)
}

fn closing_span(delimiter: Option<Delimiter>) -> Option<Span> {
    Some(delimiter?.close)
}

/// Returns the flat tokens of a file's trees, each at its range in the text that spans refer to.
/// `AllocError` if out of memory.
pub fn source_tokens(
    alloc: Global,
    trees: TokenTreesView<'_>,
) -> Result<Vec<TextToken>, AllocError> {
    let mut tokens = Vec::new(alloc);
    let mut around: Vec<Delimiter> = Vec::new(alloc);
    let mut cursor = trees.cursor();
    for _ in 0..trees.flat_len() {
        let span = match cursor.token_tree() {
            Some(TtElement::Leaf(leaf)) => Some(leaf.span()),
            Some(TtElement::Subtree(group, _)) => {
                around.push(group.delimiter)?;
                Some(group.delimiter.opening)
            }
            None => closing_span(around.pop()),
        };
        if let Some(span) = span {
            let (start, end) = (span.start as usize, span.end as usize);
            tokens.push(TextToken { start, end, span })?;
        }
        cursor.bump_or_end();
    }
    Ok(tokens)
}
