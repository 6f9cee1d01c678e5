// The origins of the tokens of an expansion: the argument of the call, or a template.
//
// A session returns the tokens of an expansion as spans of files, in order. Each token is looked
// for in the text of the expansion, which may have more brackets, locals with other names, and the
// name of a crate for `$crate`. From the first token on that isn't found, no token has an origin.
// So each origin is sure.
use crate::answers::View;
use crate::completion::is_name;
use crate::expanded_calls::{ExpandedCalls, TokenOrigin};
use crate::findings::{CallSite, Extent};
use crate::shapes::range;
use crate::tokens::is_name_text;
use mbe_protocol::positions::LineTable;
use serde_json::{Value, json};
use std::alloc::{AllocError, Global};

// Finds tokens in the text of an expansion, one after another.
#[derive(Drop)]
struct TokenFinder<'t> {
    text: &'t str,
    // Where the search goes on.
    at: usize,
}

// What a search for a token finds.
#[derive(Clone, Copy, Drop)]
enum Search {
    Found(Extent),
    /// The text doesn't have this token, which is a comma or a semicolon.
    Absent,
    /// The text goes on with another token, so no later token is found.
    Lost,
}

// Whether a text may have this token more or fewer times than the expansion of a step.
fn is_loose(token: &str) -> bool {
    matches!(token, "," | ";")
}

// Whether a text begins with a loose token or a bracket.
fn begins_loosely(text: &str) -> bool {
    text.starts_with(|char: char| matches!(char, '(' | ')' | '[' | ']' | '{' | '}' | ',' | ';'))
}

// Returns the length of the number after a `_` at the front of a text, with the `_`; 0 if there is
// none. Such a number makes the name of a local another one.
fn number_len(text: &str) -> usize {
    let Some(after) = text.strip_prefix('_') else {
        return 0;
    };
    let rest = after.trim_start_matches(|char: char| char.is_ascii_digit());
    if rest.len() == after.len() {
        return 0;
    }
    text.len().saturating_sub(rest.len())
}

// Returns the length of a token at the front of a text; `None` if the text doesn't begin with it.
fn front_len(text: &str, token: &str) -> Option<usize> {
    let rest = text.strip_prefix(token)?;
    if !is_name_text(token) {
        return (!token.is_empty()).then_some(token.len());
    }
    let number = number_len(rest);
    let after = rest.get(number..).unwrap_or("");
    if after.starts_with(|char: char| is_name(char)) {
        return None;
    }
    token.len().checked_add(number)
}

// Returns the length of the comment at the front of a text; `None` if there is none.
fn comment_len(text: &str) -> Option<usize> {
    if text.starts_with("//") {
        return text.find('\n').or(Some(text.len()));
    }
    if text.starts_with("/*") {
        return text.find("*/")?.checked_add(2);
    }
    None
}

// Returns the length of what an external crate's `$crate` became at the front of a text: `::` and
// the name of the crate. The colons are from the `$`.
fn crate_len(text: &str, token: &str) -> Option<usize> {
    match token {
        "$" => text.starts_with(':').then_some(1),
        "crate" => {
            let rest = text.trim_start_matches(|char: char| is_name(char));
            let length = text.len().saturating_sub(rest.len());
            (length > 0).then_some(length)
        }
        _ => None,
    }
}

// Returns the length of a token at the front of a text, in the form that it has there.
fn written_len(text: &str, token: &str) -> Option<usize> {
    match front_len(text, token) {
        Some(length) => Some(length),
        None if is_comment(token) => comment_len(text),
        None => crate_len(text, token),
    }
}

impl<'t> TokenFinder<'t> {
    // Goes on to the next token of the text, and returns the text from there on.
    fn skip_spaces(&mut self) -> &'t str {
        let rest = self.text.get(self.at..).unwrap_or("");
        let trimmed = rest.trim_start();
        let skipped = rest.len().saturating_sub(trimmed.len());
        self.at = self.at.saturating_add(skipped);
        trimmed
    }

    // Takes that many bytes of the text.
    fn take(&mut self, length: usize) -> Extent {
        let start = self.at;
        self.at = start.saturating_add(length);
        Extent {
            start,
            end: self.at,
        }
    }

    // Finds a token. Loose tokens and brackets before it are skipped, unless it is loose.
    fn find(&mut self, token: &str) -> Search {
        for _ in 0..self.text.len() {
            let rest = self.skip_spaces();
            if let Some(length) = written_len(rest, token) {
                return Search::Found(self.take(length));
            }
            if is_loose(token) {
                return Search::Absent;
            }
            if !begins_loosely(rest) {
                break;
            }
            let _ = self.take(1);
        }
        Search::Lost
    }
}

// A token of an expansion, and where it is from.
#[derive(Clone, Copy, Drop)]
struct FoundToken {
    at: Extent,
    origin: TokenOrigin,
}

// Whether two tokens begin at the same byte of a file.
fn is_same(one: TokenOrigin, other: Option<&TokenOrigin>) -> bool {
    match other {
        Some(other) => one.file == other.file && one.extent.start == other.extent.start,
        None => false,
    }
}

// Whether a token is of a comment, which stands for several tokens.
fn is_comment(token: &str) -> bool {
    token.starts_with("//") || token.starts_with("/*")
}

// The names of files, and their lines.
#[derive(Drop)]
struct FileLines<'f> {
    names: Vec<String>,
    lines: Vec<LineTable<'f>>,
}

// A call, the text of its expansion, and files.
#[derive(Clone, Copy, Drop)]
struct Expansion<'e, 't, 'f> {
    alloc: Global,
    call: &'e CallSite,
    lines: &'e LineTable<'t>,
    files: &'e FileLines<'f>,
}

impl Expansion<'_, '_, '_> {
    // Returns the location of a token in its file; `None` if there is no such file.
    fn location(self, origin: TokenOrigin) -> Result<Option<Value>, AllocError> {
        let (Some(name), Some(lines)) = (
            self.files.names.get(origin.file),
            self.files.lines.get(origin.file),
        ) else {
            return Ok(None);
        };
        let at = range(self.alloc, lines, origin.extent)?;
        Ok(Some(json!(in self.alloc; {"uri": name.as_str(), "range": at})?))
    }

    // Returns what a token is from.
    fn source(self, origin: TokenOrigin) -> &'static str {
        if origin.file == self.call.file && self.call.whole.holds(origin.extent) {
            "argument"
        } else {
            "template"
        }
    }

    // Adds a token with its origin.
    fn add(self, token: FoundToken, origins: &mut Vec<Value>) -> Result<(), AllocError> {
        let Some(location) = self.location(token.origin)? else {
            return Ok(());
        };
        let at = range(self.alloc, self.lines, token.at)?;
        let source = self.source(token.origin);
        origins.push(json!(in self.alloc; {
            "range": at, "source": source, "location": location
        })?)?;
        Ok(())
    }

    // Returns the tokens with their origins.
    fn origins(self, tokens: &[FoundToken]) -> Result<Value, AllocError> {
        let mut origins = Vec::new(self.alloc);
        for token in tokens {
            self.add(*token, &mut origins)?;
        }
        Ok(Value::Array(origins))
    }
}

impl<'a> View<'a> {
    // Adds the tokens that are found in the text of an expansion. Of commas and semicolons none is
    // added.
    fn add_found(
        self,
        finder: &mut TokenFinder<'_>,
        tokens: &[TokenOrigin],
        found: &mut Vec<FoundToken>,
    ) -> Result<(), AllocError> {
        let mut last: Option<&TokenOrigin> = None;
        for origin in tokens {
            let token = self.found.excerpt(origin.file, origin.extent);
            if is_comment(token) && is_same(*origin, last) {
                continue;
            }
            last = Some(origin);
            match finder.find(token) {
                Search::Found(at) if !is_loose(token) => {
                    let origin = *origin;
                    found.push(FoundToken { at, origin })?;
                }
                Search::Found(_) | Search::Absent => {}
                Search::Lost => break,
            }
        }
        Ok(())
    }

    // Adds the name and the lines of a file.
    fn add_file(self, number: usize, found: &mut FileLines<'a>) -> Result<(), AllocError> {
        let writer = self.writer;
        found.names.push(writer.uri(self.found, number)?)?;
        let text = self.found.text(number);
        found
            .lines
            .push(LineTable::of(writer.alloc, text, writer.encoding)?)?;
        Ok(())
    }

    // Returns the names and the lines of all files.
    fn file_lines(self) -> Result<FileLines<'a>, AllocError> {
        let mut found = FileLines {
            names: Vec::new(self.writer.alloc),
            lines: Vec::new(self.writer.alloc),
        };
        for number in 0..self.found.files.len() {
            self.add_file(number, &mut found)?;
        }
        Ok(found)
    }

    // Returns these tokens of an expansion with where they are from.
    fn origins_of(
        self,
        call: &CallSite,
        text: &str,
        tokens: &[FoundToken],
    ) -> Result<Value, AllocError> {
        let alloc = self.writer.alloc;
        let lines = LineTable::of(alloc, text, self.writer.encoding)?;
        let files = self.file_lines()?;
        let expansion = Expansion {
            alloc,
            call,
            lines: &lines,
            files: &files,
        };
        expansion.origins(tokens)
    }

    // Returns where the tokens of an expansion are from.
    fn origins(
        self,
        call: &CallSite,
        text: &str,
        expanded: &ExpandedCalls,
    ) -> Result<Value, AllocError> {
        let mut tokens = Vec::new(self.writer.alloc);
        let mut finder = TokenFinder { text, at: 0 };
        self.add_found(&mut finder, expanded.origins.as_slice(), &mut tokens)?;
        self.origins_of(call, text, tokens.as_slice())
    }

    /// Answers a request for the expansion of a call, with where its tokens are from. `expanded`
    /// has the spans of the tokens. `AllocError` if out of memory.
    pub fn preview_with_origins(
        self,
        call: &CallSite,
        expanded: &ExpandedCalls,
    ) -> Result<Value, AllocError> {
        let alloc = self.writer.alloc;
        let Some(part) = self.found.part_of(call) else {
            return Ok(Value::Null);
        };
        let (name, text) = (call.name.as_str(), part.text.as_str());
        let origins = self.origins(call, text, expanded)?;
        let at = range(alloc, &self.lines()?, call.whole)?;
        json!(in alloc; {"name": name, "range": at, "expansion": text, "origins": origins})
    }
}
