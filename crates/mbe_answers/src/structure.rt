// The structure of macros: lines that fold, and selections that grow.
use crate::answers::View;
use crate::findings::{DefinitionSite, Extent, TokenKind};
use crate::shapes::{number, range};
use mbe_protocol::positions::LineTable;
use serde_json::{Value, json};
use std::alloc::{AllocError, Global};

// How many selections may be around one another.
const MOST_SELECTIONS: usize = 100;

// Returns the smallest part that holds this one and is larger.
fn larger(parts: &[Extent], part: Extent) -> Option<Extent> {
    let mut smallest: Option<Extent> = None;
    for other in parts {
        let is_larger = other.holds(part) && other.len() > part.len();
        if is_larger && smallest.is_none_or(|it| other.len() < it.len()) {
            smallest = Some(*other);
        }
    }
    smallest
}

// Returns the parts that hold a byte, from the smallest one on. Each is the smallest around the
// one before it. If no part holds the byte, the empty part at the byte is the only one.
fn parts_around(alloc: Global, parts: &[Extent], byte: usize) -> Result<Vec<Extent>, AllocError> {
    let mut found = Vec::new(alloc);
    let mut part = Extent {
        start: byte,
        end: byte,
    };
    for _ in 0..MOST_SELECTIONS {
        let Some(next) = larger(parts, part) else {
            break;
        };
        found.push(next)?;
        part = next;
    }
    if found.is_empty() {
        found.push(part)?;
    }
    Ok(found)
}

// Adds a definition and its rules.
fn add_definition(parts: &mut Vec<Extent>, defined: &DefinitionSite) -> Result<(), AllocError> {
    parts.push(defined.whole)?;
    for rule in defined.rules.iter() {
        parts.push(rule.whole)?;
    }
    Ok(())
}

// Returns a selection, with the one around it, if there is one.
fn selection(alloc: Global, at: Value, around: Value) -> Result<Value, AllocError> {
    if around.is_null() {
        return json!(in alloc; {"range": at});
    }
    json!(in alloc; {"range": at, "parent": around})
}

// Returns the selection at the front of the parts, with those around it.
fn selections(alloc: Global, lines: &LineTable<'_>, parts: &[Extent]) -> Result<Value, AllocError> {
    let mut around = Value::Null;
    for part in parts.iter().rev() {
        let at = range(alloc, lines, *part)?;
        around = selection(alloc, at, around)?;
    }
    Ok(around)
}

// Returns the lines of a part that fold: those from its first line up to the one before its last.
// `None` if the last line is the first, or the one after it.
fn fold(alloc: Global, lines: &LineTable<'_>, part: Extent) -> Result<Option<Value>, AllocError> {
    let found = lines.range(part.start, part.end);
    let (first, last) = (found.start.line, found.end.line.saturating_sub(1));
    if last <= first {
        return Ok(None);
    }
    let (first, last) = (number(first), number(last));
    Ok(Some(json!(in alloc; {"startLine": first, "endLine": last})?))
}

impl View<'_> {
    // Whether a part of the document is in a definition or a call.
    fn is_of_macro(self, part: Extent) -> bool {
        let number = self.found.number;
        let (definitions, calls) = (&self.found.definitions, &self.found.calls);
        definitions
            .iter()
            .any(|it| it.file == number && it.whole.holds(part))
            || calls
                .iter()
                .any(|it| it.file == number && it.whole.holds(part))
    }

    /// Answers which lines of definitions and calls fold. `AllocError` if out of memory.
    pub fn folds(self) -> Result<Value, AllocError> {
        let alloc = self.writer.alloc;
        let lines = self.lines()?;
        let groups = self.found.tokens_of(self.found.number).groups(alloc)?;
        let mut folds = Vec::new(alloc);
        for group in groups.iter() {
            if self.is_of_macro(*group)
                && let Some(found) = fold(alloc, &lines, *group)?
            {
                folds.push(found)?;
            }
        }
        Ok(Value::Array(folds))
    }

    // Adds the definitions of the document, with their rules.
    fn add_definitions(self, parts: &mut Vec<Extent>) -> Result<(), AllocError> {
        for defined in self.found.definitions.iter() {
            if defined.file == self.found.number {
                add_definition(parts, defined)?;
            }
        }
        Ok(())
    }

    // Adds the calls of the document.
    fn add_calls(self, parts: &mut Vec<Extent>) -> Result<(), AllocError> {
        for call in self.found.calls.iter() {
            if call.file == self.found.number {
                parts.push(call.whole)?;
            }
        }
        Ok(())
    }

    // Adds the tokens of the document that aren't brackets.
    fn add_leaves(self, parts: &mut Vec<Extent>) -> Result<(), AllocError> {
        for token in self.found.tokens_of(self.found.number).list {
            if matches!(token.kind, TokenKind::Leaf) {
                parts.push(token.extent)?;
            }
        }
        Ok(())
    }

    // Adds the groups of the document, and the content of each.
    fn add_groups(self, parts: &mut Vec<Extent>) -> Result<(), AllocError> {
        let groups = self
            .found
            .tokens_of(self.found.number)
            .groups(self.writer.alloc)?;
        for group in groups.iter() {
            let (start, end) = (group.start.saturating_add(1), group.end.saturating_sub(1));
            parts.push(*group)?;
            parts.push(Extent { start, end })?;
        }
        Ok(())
    }

    // Returns the parts of the document that selections grow by: tokens, the content of groups,
    // groups, calls, rules, definitions, and the whole text.
    fn parts(self) -> Result<Vec<Extent>, AllocError> {
        let mut parts = Vec::new(self.writer.alloc);
        self.add_groups(&mut parts)?;
        self.add_leaves(&mut parts)?;
        self.add_definitions(&mut parts)?;
        self.add_calls(&mut parts)?;
        let end = self.document.text.len();
        parts.push(Extent { start: 0, end })?;
        Ok(parts)
    }

    /// Answers which selections are around each of these bytes, from the smallest one on.
    /// `AllocError` if out of memory.
    pub fn selection_ranges(self, bytes: &[usize]) -> Result<Value, AllocError> {
        let alloc = self.writer.alloc;
        let (lines, parts) = (self.lines()?, self.parts()?);
        let mut found = Vec::new(alloc);
        for byte in bytes {
            let around = parts_around(alloc, parts.as_slice(), *byte)?;
            found.push(selections(alloc, &lines, around.as_slice())?)?;
        }
        Ok(Value::Array(found))
    }
}
