// Writes tokens as HTML: each with the class of its origin, and with an attribute that names it.
use crate::call_view::CallView;
use mbe_markup::fragments::TokenOrigin;
use mbe_markup::html::{Html, Part};
use mbe_markup::railroad::write_origin;
use mbe_markup::token_text::{TextToken, TokenText};
use mbe_tt::span::Span;
use std::alloc::{AllocError, Global};

/// Returns the class of a variable, by its index. Six classes alternate.
pub fn variable_class(variable: usize) -> &'static str {
    match variable % 6 {
        0 => "v0",
        1 => "v1",
        2 => "v2",
        3 => "v3",
        4 => "v4",
        _ => "v5",
    }
}

// Returns the class of a token of a variable that an earlier step made.
fn made_class(variable: usize) -> &'static str {
    match variable % 6 {
        0 => "s0",
        1 => "s1",
        2 => "s2",
        3 => "s3",
        4 => "s4",
        _ => "s5",
    }
}

// Returns the class of a token by its origin. `is_made` says whether an earlier step made it.
fn token_class(origin: TokenOrigin<'_>, is_made: bool) -> &'static str {
    match (origin, is_made) {
        (TokenOrigin::Template, _) => "t",
        (TokenOrigin::Argument, false) => "va",
        (TokenOrigin::Argument, true) => "sa",
        (TokenOrigin::Variable { variable, .. }, false) => variable_class(variable),
        (TokenOrigin::Variable { variable, .. }, true) => made_class(variable),
        (TokenOrigin::Added, _) => "x",
    }
}

// Writes the opening of the element of a token.
fn write_opening(
    alloc: Global,
    html: &mut Html,
    origin: TokenOrigin<'_>,
    span: Span,
) -> Result<(), AllocError> {
    let class = token_class(origin, span.ctx.0 != 0);
    html.write(alloc, &[Part::Markup("<i class="), Part::Markup(class)])?;
    match origin {
        TokenOrigin::Added => {}
        TokenOrigin::Variable { round, .. } => {
            write_round(alloc, html, round)?;
            write_origin(alloc, html, span)?;
        }
        TokenOrigin::Template | TokenOrigin::Argument => write_origin(alloc, html, span)?,
    }
    html.write(alloc, &[Part::Markup(">")])
}

// Writes the attribute that numbers a round.
fn write_round(alloc: Global, html: &mut Html, round: &str) -> Result<(), AllocError> {
    if round.is_empty() {
        return Ok(());
    }
    html.write(
        alloc,
        &[
            Part::Markup(" data-r=\""),
            Part::Text(round),
            Part::Markup("\""),
        ],
    )
}

/// Writes the tokens of an expansion, from the front to the end.
#[derive(Drop)]
pub struct TokenWriter<'t, 'v> {
    text: &'t TokenText,
    view: &'t CallView<'v>,
    contexts: (u32, u32),
    // The byte up to which the text is written.
    at: usize,
}

impl<'t, 'v> TokenWriter<'t, 'v> {
    /// Writes nothing yet. `contexts` are the syntax contexts of the template's tokens.
    pub fn new(
        text: &'t TokenText,
        view: &'t CallView<'v>,
        contexts: (u32, u32),
    ) -> TokenWriter<'t, 'v> {
        TokenWriter {
            text,
            view,
            contexts,
            at: 0,
        }
    }

    // Writes the text up to a byte, as it is.
    fn gap(&mut self, alloc: Global, html: &mut Html, end: usize) -> Result<(), AllocError> {
        let gap = self.text.text.as_str().get(self.at..end).unwrap_or("");
        self.at = self.at.max(end);
        html.write(alloc, &[Part::Text(gap)])
    }

    /// Writes the white space before the token of that index. `AllocError` if out of memory.
    pub fn gap_before(
        &mut self,
        alloc: Global,
        html: &mut Html,
        index: usize,
    ) -> Result<(), AllocError> {
        match self.text.tokens.get(index) {
            Some(token) => self.gap(alloc, html, token.start),
            None => Ok(()),
        }
    }

    // Writes a token, and the white space before it.
    fn token(
        &mut self,
        alloc: Global,
        html: &mut Html,
        token: TextToken,
    ) -> Result<(), AllocError> {
        self.gap(alloc, html, token.start)?;
        let text = self
            .text
            .text
            .as_str()
            .get(self.at..token.end)
            .unwrap_or("");
        if text.is_empty() {
            return Ok(());
        }
        self.at = token.end;
        let origin = self.view.origin_of(self.contexts, token.span, text);
        write_opening(alloc, html, origin, token.span)?;
        html.write(alloc, &[Part::Text(text), Part::Markup("</i>")])
    }

    /// Writes the tokens from the index `from` on and before the index `to`. `AllocError` if out of
    /// memory.
    pub fn tokens(
        &mut self,
        alloc: Global,
        html: &mut Html,
        from: usize,
        to: usize,
    ) -> Result<(), AllocError> {
        let text = self.text;
        for token in text.tokens.iter().take(to).skip(from) {
            self.token(alloc, html, *token)?;
        }
        Ok(())
    }

    /// Writes the tokens from the index `from` on, and the rest of the text. `AllocError` if out of
    /// memory.
    pub fn rest(&mut self, alloc: Global, html: &mut Html, from: usize) -> Result<(), AllocError> {
        let text = self.text;
        self.tokens(alloc, html, from, text.tokens.len())?;
        self.gap(alloc, html, text.text.len())
    }
}
