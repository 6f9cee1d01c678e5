// What a session finds in the crate of a document: messages, expansions, definitions and calls.
//
// Offsets are bytes of the texts that editors have, with their carriage returns. The number of a
// file is its index in the list of files.
use crate::expanded_calls::ExpandedCalls;

/// The bytes of a file from `start` up to `end`.
#[derive(Clone, Copy, Drop)]
pub struct Extent {
    pub start: usize,
    pub end: usize,
}

/// A rule of a definition: its pattern, and the whole of it.
#[derive(Clone, Copy, Drop)]
pub struct RuleSite {
    pub pattern: Extent,
    pub whole: Extent,
}

/// A definition of a macro.
#[derive(Drop)]
pub struct DefinitionSite {
    /// The number of the file.
    pub file: usize,
    pub name: String,
    pub name_at: Extent,
    pub whole: Extent,
    pub rules: Vec<RuleSite>,
}

/// A call of a macro, by the last name of its path.
#[derive(Drop)]
pub struct CallSite {
    /// The number of the file.
    pub file: usize,
    pub name: String,
    pub name_at: Extent,
    pub whole: Extent,
}

/// What a token is among the trees of a file.
#[derive(Clone, Copy, Drop)]
pub enum TokenKind {
    Leaf,
    /// The opening of a group.
    Opening,
    /// The closing of a group.
    Closing,
}

/// A token of a file.
#[derive(Clone, Copy, Drop)]
pub struct TokenSite {
    /// The number of the file.
    pub file: usize,
    pub extent: Extent,
    pub kind: TokenKind,
}

/// The severity of a message.
#[derive(Clone, Copy, Drop)]
pub enum Severity {
    Error,
    Warning,
    Note,
    Help,
}

/// A message on a part of a file.
#[derive(Drop)]
pub struct Finding {
    pub severity: Severity,
    /// The number of the file; none if the message is on no file.
    pub file: Option<usize>,
    pub extent: Extent,
    pub message: String,
    /// Whether it says more about the last message before it that is no child.
    pub is_child: bool,
}

/// What replaces a part of a file.
#[derive(Drop)]
pub struct Part {
    /// The number of the file.
    pub file: usize,
    pub extent: Extent,
    pub text: String,
}

/// A file: its path from the root of the file system, and its text.
#[derive(Drop)]
pub struct FoundFile {
    pub path: String,
    pub text: String,
    /// Whether the file is of one of the session's own crates.
    pub is_own: bool,
}

/// What a session finds.
#[derive(Drop)]
pub struct Findings {
    pub files: Vec<FoundFile>,
    /// The number of the document's file.
    pub number: usize,
    /// The messages on files, definitions and calls, in the order of the session.
    pub notes: Vec<Finding>,
    /// The messages of lints on the definitions of the session's own crates.
    pub lints: Vec<Finding>,
    /// The expansions of calls.
    pub parts: Vec<Part>,
    /// The definitions in all files.
    pub definitions: Vec<DefinitionSite>,
    /// The calls in the session's own crates.
    pub calls: Vec<CallSite>,
    /// The tokens of the session's own crates, by the numbers of their files, in the order of the
    /// texts. A file that isn't Rust has none.
    pub tokens: Vec<TokenSite>,
    /// What rules do with the calls of the session's own crates, if that was asked for.
    pub expanded: Option<ExpandedCalls>,
}

impl Extent {
    /// Whether a cursor at that byte touches the bytes.
    pub fn touches(self, byte: usize) -> bool {
        self.start <= byte && byte <= self.end
    }

    /// Returns how many bytes there are.
    pub fn len(self) -> usize {
        self.end.saturating_sub(self.start)
    }

    /// Whether the bytes and the others have a byte in common, or touch.
    pub fn meets(self, other: Extent) -> bool {
        self.start <= other.end && other.start <= self.end
    }

    /// Whether the bytes hold these.
    pub fn holds(self, other: Extent) -> bool {
        self.start <= other.start && other.end <= self.end
    }
}

impl TokenKind {
    /// Returns how many groups are open after a token of this kind, if so many are before it.
    pub(crate) fn depth_after(self, depth: usize) -> usize {
        match self {
            TokenKind::Leaf => depth,
            TokenKind::Opening => depth.saturating_add(1),
            TokenKind::Closing => depth.saturating_sub(1),
        }
    }
}

impl RuleSite {
    /// Returns the bytes after the pattern, which hold the template.
    pub(crate) fn template(self) -> Extent {
        Extent {
            start: self.pattern.end,
            end: self.whole.end,
        }
    }
}

impl Findings {
    /// Returns the text of file `number`; the empty text if there is no such file.
    pub fn text(&self, number: usize) -> &str {
        match self.files.get(number) {
            Some(file) => file.text.as_str(),
            None => "",
        }
    }

    /// Returns the part of the text of file `number`.
    pub fn excerpt(&self, number: usize, extent: Extent) -> &str {
        let text = self.text(number);
        text.get(extent.start..extent.end).unwrap_or("")
    }

    /// Returns the path of file `number`; the empty text if there is no such file.
    pub fn path(&self, number: usize) -> &str {
        match self.files.get(number) {
            Some(file) => file.path.as_str(),
            None => "",
        }
    }

    /// Returns the number of the file at that path, if it is of one of the session's own crates.
    pub fn own_number(&self, path: &str) -> Option<usize> {
        self.files
            .iter()
            .position(|file| file.is_own && file.path.as_str() == path)
    }

    /// Returns the innermost call of the document that a cursor at that byte touches.
    pub fn call_at(&self, byte: usize) -> Option<&CallSite> {
        let mut innermost: Option<&CallSite> = None;
        for call in self.calls.iter() {
            let is_touched = call.file == self.number && call.whole.touches(byte);
            if is_touched && innermost.is_none_or(|it| call.whole.len() <= it.whole.len()) {
                innermost = Some(call);
            }
        }
        innermost
    }

    /// Returns the expansion of a call, with the part of the file that it replaces.
    pub fn part_of(&self, call: &CallSite) -> Option<&Part> {
        self.parts.iter().find(|part| part.file == call.file && part.extent.holds(call.whole))
    }

    /// Returns the definition that holds these bytes of file `number`.
    pub fn definition_at(&self, number: usize, extent: Extent) -> Option<&DefinitionSite> {
        self.definitions.iter().find(|defined| defined.file == number
            && defined.whole.holds(extent))
    }

    /// Returns how many calls have that name.
    pub fn count_of_calls(&self, name: &str) -> usize {
        self.calls
            .iter()
            .filter(|call| call.name.as_str() == name)
            .count()
    }

    /// Returns the only definition of that name; `None` if there are several.
    pub fn only_definition(&self, name: &str) -> Option<&DefinitionSite> {
        let mut only = None;
        for defined in self.definitions.iter() {
            if defined.name.as_str() == name {
                if only.is_some() {
                    return None;
                }
                only = Some(defined);
            }
        }
        only
    }
}
