// The tokens of a file by their texts: names, variables of rules, groups.
use crate::completion::is_name;
use crate::findings::{Extent, Findings, TokenKind, TokenSite};
use std::alloc::{AllocError, Global};

/// Tokens of a file, and the text of the file.
#[derive(Clone, Copy, Drop)]
pub(crate) struct FileTokens<'f> {
    pub(crate) text: &'f str,
    pub(crate) list: &'f [TokenSite],
}

/// Whether a text is a name: a letter or `_`, and then letters, digits and `_`.
pub(crate) fn is_name_text(text: &str) -> bool {
    let is_begun = match text.chars().next() {
        Some(first) => first == '_' || first.is_alphabetic(),
        None => false,
    };
    is_begun && text.chars().all(|char: char| is_name(char))
}

impl Findings {
    /// Returns the tokens of file `number`, in the order of the text.
    pub(crate) fn tokens_of(&self, number: usize) -> FileTokens<'_> {
        let tokens = self.tokens.as_slice();
        let start = tokens.partition_point(|token: &TokenSite| -> bool { token.file < number });
        let end = tokens.partition_point(|token: &TokenSite| -> bool { token.file <= number });
        FileTokens {
            text: self.text(number),
            list: tokens.get(start..end).unwrap_or(&[]),
        }
    }
}

impl<'f> FileTokens<'f> {
    /// Returns the tokens that these bytes hold.
    pub(crate) fn within(self, part: Extent) -> FileTokens<'f> {
        let start = self.list.partition_point(|token: &TokenSite| -> bool {
            token.extent.start < part.start
        });
        let end = self.list.partition_point(|token: &TokenSite| -> bool {
            token.extent.end <= part.end
        });
        FileTokens {
            text: self.text,
            list: self.list.get(start..end).unwrap_or(&[]),
        }
    }

    /// Returns the text of the token at that index; the empty text if there is no such token.
    pub(crate) fn text_at(self, at: usize) -> &'f str {
        match self.list.get(at) {
            Some(token) => self
                .text
                .get(token.extent.start..token.extent.end)
                .unwrap_or(""),
            None => "",
        }
    }

    /// Returns the text of the token that is `count` tokens before that index.
    pub(crate) fn text_before(self, at: usize, count: usize) -> &'f str {
        match at.checked_sub(count) {
            Some(before) => self.text_at(before),
            None => "",
        }
    }

    /// Returns the text of the token that is `count` tokens after that index.
    pub(crate) fn text_after(self, at: usize, count: usize) -> &'f str {
        self.text_at(at.saturating_add(count))
    }

    /// Returns the index of the name that a cursor at a byte touches.
    pub(crate) fn name_at(self, byte: usize) -> Option<usize> {
        for (at, token) in self.list.iter().enumerate() {
            if token.extent.touches(byte) && is_name_text(self.text_at(at)) {
                return Some(at);
            }
        }
        None
    }

    /// Whether the token at that index is the name of a variable: the `x` of `$x`, and not of
    /// `$$x`.
    pub(crate) fn is_variable(self, at: usize) -> bool {
        self.text_before(at, 1) == "$" && self.text_before(at, 2) != "$"
    }

    /// Whether the token at that index is the name in the binding of a variable: the `x` of
    /// `$x:expr`.
    pub(crate) fn is_binding(self, at: usize) -> bool {
        self.is_variable(at)
            && self.text_after(at, 1) == ":"
            && is_name_text(self.text_after(at, 2))
    }

    /// Whether one of the tokens is the name in the binding of the variable of that name.
    pub(crate) fn binds(self, name: &str) -> bool {
        (0..self.list.len()).any(|at: usize| self.text_at(at) == name && self.is_binding(at))
    }

    /// Whether the token at that index is after `${`, and before `(`: the `len` of `${len()}`.
    pub(crate) fn is_expression(self, at: usize) -> bool {
        self.text_before(at, 1) == "{"
            && self.text_before(at, 2) == "$"
            && self.text_before(at, 3) != "$"
            && self.text_after(at, 1) == "("
    }

    /// Whether a token has that text, and no `$` before it.
    pub(crate) fn has_plain(self, text: &str) -> bool {
        (0..self.list.len()).any(|at: usize| self.text_at(at) == text
            && self.text_before(at, 1) != "$")
    }

    // Whether the token at that index is a bracket. The opening of a doc comment is none.
    fn is_bracket(self, at: usize) -> bool {
        matches!(self.text_at(at), "(" | "[" | "{")
    }

    /// Returns the groups with their brackets, by their ends. `AllocError` if out of memory.
    pub(crate) fn groups(self, alloc: Global) -> Result<Vec<Extent>, AllocError> {
        let mut groups = Vec::new(alloc);
        let mut open = Vec::new(alloc);
        for (at, token) in self.list.iter().enumerate() {
            match token.kind {
                TokenKind::Leaf => {}
                TokenKind::Opening => open.push((token.extent.start, self.is_bracket(at)))?,
                TokenKind::Closing => {
                    if let Some((start, true)) = open.pop() {
                        let end = token.extent.end;
                        groups.push(Extent { start, end })?;
                    }
                }
            }
        }
        Ok(groups)
    }
}
