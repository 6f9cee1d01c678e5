// Writes the text of a file as HTML, with the numbers of its lines. A token is marked if a token of
// an expansion comes from it.
use crate::page_data::PageData;
use mbe_markup::html::{Html, Part};
use mbe_markup::railroad::write_origin;
use mbe_markup::token_text::{TextToken, source_tokens};
use std::alloc::{AllocError, Global};

/// Writes the text of a file, from the front to the end.
#[derive(Drop)]
pub struct SourceWriter<'a> {
    text: &'a str,
    // The tokens that tokens of expansions come from, in order.
    tokens: Vec<TextToken>,
    // The byte up to which the text is written.
    at: usize,
    // The number of the line there.
    line: usize,
}

// Adds the bytes where tokens of an expansion begin in a file.
fn push_starts(
    alloc: Global,
    shown: &PageData<'_>,
    index: usize,
    starts: &mut Vec<usize>,
) -> Result<(), AllocError> {
    if let Some(step) = shown.steps.get(index)
        && let Some(tree) = &step.expansion
        && shown.depth(index).is_some()
    {
        let tokens = source_tokens(alloc, tree.iter().remaining())?;
        return push_starts_in(tokens.as_slice(), shown.file_number, starts);
    }
    Ok(())
}

// Adds the byte at which each token begins, if the token is in the file of that number.
fn push_starts_in(
    tokens: &[TextToken],
    file_number: usize,
    starts: &mut Vec<usize>,
) -> Result<(), AllocError> {
    for token in tokens {
        if token.span.file as usize == file_number {
            starts.push(token.start)?;
        }
    }
    Ok(())
}

// Returns the bytes where tokens begin that tokens of expansions come from, sorted.
fn origin_starts(alloc: Global, shown: &PageData<'_>) -> Result<Vec<usize>, AllocError> {
    let mut starts = Vec::new(alloc);
    for index in 0..shown.steps.len() {
        push_starts(alloc, shown, index, &mut starts)?;
    }
    starts.sort_unstable();
    Ok(starts)
}

// Returns the tokens of the file that tokens of expansions come from.
fn origin_tokens(alloc: Global, shown: &PageData<'_>) -> Result<Vec<TextToken>, AllocError> {
    let Some(tree) = &shown.file.tree else {
        return Ok(Vec::new(alloc));
    };
    let starts = origin_starts(alloc, shown)?;
    let tokens = source_tokens(alloc, tree.iter().remaining())?;
    tokens_at(alloc, tokens.as_slice(), starts.as_slice())
}

// Returns the tokens that begin at one of these bytes.
fn tokens_at(
    alloc: Global,
    tokens: &[TextToken],
    starts: &[usize],
) -> Result<Vec<TextToken>, AllocError> {
    let mut found = Vec::new(alloc);
    for token in tokens {
        if starts.binary_search(&token.start).is_ok() {
            found.push(*token)?;
        }
    }
    Ok(found)
}

/// Returns a writer that has written nothing of the file of a page. `AllocError` if out of memory.
pub fn source_writer<'a>(
    alloc: Global,
    shown: &'a PageData<'_>,
) -> Result<SourceWriter<'a>, AllocError> {
    Ok(SourceWriter {
        text: shown.file.lines.text.as_str(),
        tokens: origin_tokens(alloc, shown)?,
        at: 0,
        line: 0,
    })
}

// Whether a line of a text begins at that byte.
fn is_line_start(text: &str, at: usize) -> bool {
    match at.checked_sub(1) {
        Some(before) => text.as_bytes().get(before) == Some(&b'\n'),
        None => true,
    }
}

impl<'a> SourceWriter<'a> {
    // Writes the number of the next line.
    fn line_number(&mut self, alloc: Global, html: &mut Html) -> Result<(), AllocError> {
        self.line = self.line.saturating_add(1);
        html.write(
            alloc,
            &[
                Part::Markup("<span class=\"n\" id=\"L"),
                Part::Number(self.line),
                Part::Markup("\">"),
                Part::Number(self.line),
                Part::Markup("</span>"),
            ],
        )
    }

    // Writes the text up to a byte, as it is. The number of a line is before its first character.
    fn plain(&mut self, alloc: Global, html: &mut Html, end: usize) -> Result<(), AllocError> {
        let part = self.text.get(self.at..end).unwrap_or("");
        for piece in part.split_inclusive('\n') {
            if is_line_start(self.text, self.at) {
                self.line_number(alloc, html)?;
            }
            html.write(alloc, &[Part::Text(piece)])?;
            self.at = self.at.saturating_add(piece.len());
        }
        self.at = self.at.max(end);
        Ok(())
    }

    // Writes a token, and the text before it.
    fn token(
        &mut self,
        alloc: Global,
        html: &mut Html,
        token: TextToken,
    ) -> Result<(), AllocError> {
        if token.start < self.at || token.end <= token.start {
            return Ok(());
        }
        self.plain(alloc, html, token.start)?;
        html.write(alloc, &[Part::Markup("<i")])?;
        write_origin(alloc, html, token.span)?;
        html.write(alloc, &[Part::Markup(">")])?;
        self.plain(alloc, html, token.end)?;
        html.write(alloc, &[Part::Markup("</i>")])
    }

    /// Whether the text up to that byte, or less, is written.
    pub fn is_before(&self, byte: usize) -> bool {
        self.at <= byte
    }

    /// Writes the text up to a byte. `AllocError` if out of memory.
    pub fn up_to(&mut self, alloc: Global, html: &mut Html, end: usize) -> Result<(), AllocError> {
        let (at, tokens) = (self.at, self.tokens.as_slice());
        let from = tokens.partition_point(|token| token.start < at);
        let to = tokens.partition_point(|token| token.start < end);
        for index in from..to {
            if let Some(token) = self.tokens.get(index).copied() {
                self.token(alloc, html, token)?;
            }
        }
        self.plain(alloc, html, end)
    }

    /// Writes the rest of the text. `AllocError` if out of memory.
    pub fn rest(&mut self, alloc: Global, html: &mut Html) -> Result<(), AllocError> {
        let end = self.text.len();
        self.up_to(alloc, html, end)
    }
}
