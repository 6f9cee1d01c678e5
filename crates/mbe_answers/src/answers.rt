// Answers to requests on a document.
use crate::explained_call::{ExplainedCall, explain, line_and_column};
use crate::findings::{CallSite, DefinitionSite, Findings, RuleSite};
use crate::shapes::{Writer, range};
use mbe_protocol::documents::Document;
use mbe_protocol::positions::LineTable;
use serde_json::{Value, json};
use std::alloc::{AllocError, Global};

// How many characters of a rule are shown in a list.
const SHOWN: usize = 60;

/// What an answer is about: an open document, and what a session finds in its crate.
#[derive(Clone, Copy, Drop)]
pub struct View<'a> {
    pub writer: Writer<'a>,
    pub document: &'a Document,
    pub found: &'a Findings,
}

// Returns a text in one line.
pub(crate) fn one_line(alloc: Global, text: &str) -> Result<String, AllocError> {
    let mut line = String::new(alloc);
    for (number, word) in text.split_whitespace().enumerate() {
        if number > 0 {
            line.push(' ')?;
        }
        line.push_str(word)?;
    }
    Ok(line)
}

// Returns a text in one line, cut where it is long.
fn shown(alloc: Global, text: &str) -> Result<String, AllocError> {
    let shown = one_line(alloc, text)?;
    match shown.as_str().char_indices().nth(SHOWN) {
        Some((at, _)) => {
            let front = shown.as_str().get(..at).unwrap_or("");
            format!(in alloc; "{front}…")
        }
        None => Ok(shown),
    }
}

// Returns a block of Rust code in Markdown. Its fence is longer than any in the code.
fn code_block(alloc: Global, code: &str) -> Result<String, AllocError> {
    let mut fence = String::from_str(alloc, "```")?;
    for _ in 0..code.len() {
        if !code.contains(fence.as_str()) {
            break;
        }
        fence.push('`')?;
    }
    format!(in alloc; "{fence}rust\n{code}\n{fence}\n")
}

// Returns the text on the rule that applies, or that none does.
fn rule_text(
    alloc: Global,
    name: &str,
    explained: ExplainedCall<'_>,
) -> Result<String, AllocError> {
    let Some(number) = explained.rule else {
        return format!(in alloc; "No rule of `{name}!` applies\n");
    };
    let Some(applied) = explained.applied_rule() else {
        return format!(in alloc; "Rule {number} of `{name}!`\n");
    };
    let (found, file) = (explained.found, applied.definition.file);
    let code = code_block(alloc, found.excerpt(file, applied.rule.whole))?;
    let (line, _) = line_and_column(found.text(file), applied.rule.whole.start);
    let path = found.path(file);
    format!(in alloc; "Rule {number} of `{name}!`, line {line} of `{path}`:\n\n{code}")
}

// Adds a list of what the notes of an explanation say: what the variables of the rule that applies
// are bound to, or where each rule stops.
fn add_outcomes(
    alloc: Global,
    explained: ExplainedCall<'_>,
    text: &mut String,
) -> Result<(), AllocError> {
    let place = match explained.rule {
        Some(number) => format!(in alloc; " in rule {number} of ")?,
        None => String::from_str(alloc, "rule ")?,
    };
    for note in explained.notes {
        let message = note.message.as_str();
        let is_said = match explained.rule {
            Some(_) => message.contains(place.as_str()),
            None => message.starts_with(place.as_str()),
        };
        if is_said {
            text.push_str("\n- ")?;
            text.push_str(message)?;
        }
    }
    text.push('\n')
}

impl<'a> View<'a> {
    fn alloc(self) -> Global {
        self.writer.alloc
    }

    // Returns the lines of the document.
    pub(crate) fn lines(self) -> Result<LineTable<'a>, AllocError> {
        LineTable::of(
            self.alloc(),
            self.document.text.as_str(),
            self.writer.encoding,
        )
    }

    /// Answers a request for the expansion of the call at a byte, as rust-analyzer does.
    /// `AllocError` if out of memory.
    pub fn expansion(self, byte: usize) -> Result<Value, AllocError> {
        let Some(call) = self.found.call_at(byte) else {
            return Ok(Value::Null);
        };
        let Some(part) = self.found.part_of(call) else {
            return Ok(Value::Null);
        };
        let (name, text) = (call.name.as_str(), part.text.as_str());
        json!(in self.alloc(); {"name": name, "expansion": text})
    }

    /// Answers a request for the expansion that is shown beside a document. It is the expansion of
    /// the call at a byte, with the range of the call. `AllocError` if out of memory.
    pub fn preview(self, byte: usize) -> Result<Value, AllocError> {
        let alloc = self.alloc();
        let Some(call) = self.found.call_at(byte) else {
            return Ok(Value::Null);
        };
        let Some(part) = self.found.part_of(call) else {
            return Ok(Value::Null);
        };
        let at = range(alloc, &self.lines()?, call.whole)?;
        let (name, text) = (call.name.as_str(), part.text.as_str());
        json!(in alloc; {"name": name, "range": at, "expansion": text})
    }

    /// Answers where the rule is that expands a call, from what explains the call. If none is
    /// known, answers where the only macro of the call's name is. `AllocError` if out of memory.
    pub fn definition(self, call: &CallSite, explains: &Findings) -> Result<Value, AllocError> {
        let explained = explain(self.alloc(), explains, call)?;
        if let Some(rule) = explained.applied_rule() {
            let (file, at) = (rule.definition.file, rule.rule.pattern);
            return self.writer.location(explains, file, at);
        }
        match self.found.only_definition(call.name.as_str()) {
            Some(only) => self.writer.location(self.found, only.file, only.name_at),
            None => Ok(Value::Null),
        }
    }

    /// Answers what a call is, from what explains it: the rule that applies, what its variables are
    /// bound to, and the expansion; or why no rule matches. `AllocError` if out of memory.
    pub fn hover(self, call: &CallSite, explains: &Findings) -> Result<Value, AllocError> {
        let alloc = self.alloc();
        let explained = explain(alloc, explains, call)?;
        if explained.notes.is_empty() {
            return Ok(Value::Null);
        }
        let mut text = rule_text(alloc, call.name.as_str(), explained)?;
        add_outcomes(alloc, explained, &mut text)?;
        if let Some(part) = self.found.part_of(call) {
            text.push_str("\nExpansion:\n\n")?;
            text.push_str(code_block(alloc, part.text.as_str())?.as_str())?;
        }
        let at = range(alloc, &self.lines()?, call.whole)?;
        json!(in alloc; {"contents": {"kind": "markdown", "value": text}, "range": at})
    }

    // Returns the symbol of a rule.
    fn rule_symbol(
        self,
        lines: &LineTable<'_>,
        number: usize,
        rule: RuleSite,
    ) -> Result<Value, AllocError> {
        let alloc = self.alloc();
        let pattern = shown(alloc, self.found.excerpt(self.found.number, rule.pattern))?;
        let name = format!(in alloc; "rule {number}: {pattern}")?;
        let whole = range(alloc, lines, rule.whole)?;
        let front = range(alloc, lines, rule.pattern)?;
        json!(in alloc; {"name": name, "kind": 6, "range": whole, "selectionRange": front})
    }

    // Returns the symbols of the rules of a definition.
    fn rule_symbols(
        self,
        lines: &LineTable<'_>,
        defined: &DefinitionSite,
    ) -> Result<Value, AllocError> {
        let mut rules = Vec::new(self.alloc());
        for (at, rule) in defined.rules.iter().enumerate() {
            rules.push(self.rule_symbol(lines, at.saturating_add(1), *rule)?)?;
        }
        Ok(Value::Array(rules))
    }

    // Returns the symbol of a definition, with those of its rules.
    fn symbol(self, lines: &LineTable<'_>, defined: &DefinitionSite) -> Result<Value, AllocError> {
        let alloc = self.alloc();
        let rules = self.rule_symbols(lines, defined)?;
        let macro_name = defined.name.as_str();
        let name = format!(in alloc; "{macro_name}!")?;
        let whole = range(alloc, lines, defined.whole)?;
        let front = range(alloc, lines, defined.name_at)?;
        json!(in alloc; {
            "name": name,
            "kind": 12,
            "range": whole,
            "selectionRange": front,
            "children": rules
        })
    }

    /// Answers which macros the document defines, with their rules. `AllocError` if out of memory.
    pub fn symbols(self) -> Result<Value, AllocError> {
        let lines = self.lines()?;
        let mut symbols = Vec::new(self.alloc());
        for defined in self.found.definitions.iter() {
            if defined.file == self.found.number {
                symbols.push(self.symbol(&lines, defined)?)?;
            }
        }
        Ok(Value::Array(symbols))
    }

    // Whether file `number` has a call of that name.
    pub(crate) fn has_call(self, number: usize, name: &str) -> bool {
        self.found
            .calls
            .iter()
            .any(|call| call.file == number && call.name.as_str() == name)
    }
}
