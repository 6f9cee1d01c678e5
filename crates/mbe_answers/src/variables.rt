// Hovers and jumps in the rules of definitions: on variables, and on fragment specifiers.
//
// A variable is found by its text: `$x:expr` in the pattern of a rule binds `$x`.
use crate::answers::View;
use crate::completion::{is_name, is_specifier, specifier_text};
use crate::findings::{Extent, RuleSite};
use crate::shapes::range;
use serde_json::{Value, json};
use std::alloc::{AllocError, Global};

// The extent where a rule binds a variable, and the name of the fragment specifier.
#[derive(Clone, Copy, Drop)]
struct Binding<'t> {
    extent: Extent,
    specifier: &'t str,
}

// Returns the bytes of the name that a cursor at a byte touches. They are none if it touches no
// name.
fn name_at(text: &str, byte: usize) -> Extent {
    let (Some(before), Some(after)) = (text.get(..byte), text.get(byte..)) else {
        return Extent {
            start: byte,
            end: byte,
        };
    };
    let front = before.trim_end_matches(|char: char| is_name(char));
    let rest = after.trim_start_matches(|char: char| is_name(char));
    Extent {
        start: front.len(),
        end: text.len().saturating_sub(rest.len()),
    }
}

// Returns the name at the front of a text.
fn front_name(text: &str) -> &str {
    let rest = text.trim_start_matches(|char: char| is_name(char));
    let length = text.len().saturating_sub(rest.len());
    text.get(..length).unwrap_or("")
}

// Returns the text on a variable: its specifier, and what that accepts.
fn variable_text(alloc: Global, name: &str, specifier: &str) -> Result<String, AllocError> {
    match specifier_text(specifier) {
        Some(about) => format!(in alloc; "`${name}:{specifier}`: {about}"),
        None => format!(in alloc; "`${name}:{specifier}`"),
    }
}

impl<'a> View<'a> {
    /// Returns the rule of the document that a cursor at a byte is in.
    pub(crate) fn rule_at(self, byte: usize) -> Option<RuleSite> {
        for defined in self.found.definitions.iter() {
            if defined.file == self.found.number && defined.whole.touches(byte) {
                let rule = defined.rules.iter().find(|rule| rule.whole.touches(byte));
                return rule.copied();
            }
        }
        None
    }

    // Returns where a rule of the document binds the variable of that name.
    fn binding(self, rule: RuleSite, name: &str) -> Result<Option<Binding<'a>>, AllocError> {
        let pattern = self.found.excerpt(self.found.number, rule.pattern);
        let front = format!(in self.writer.alloc; "${name}:")?;
        let Some((before, after)) = pattern.split_once(front.as_str()) else {
            return Ok(None);
        };
        let start = rule.pattern.start.saturating_add(before.len());
        let end = start.saturating_add(name.len()).saturating_add(1);
        Ok(Some(Binding {
            extent: Extent { start, end },
            specifier: front_name(after),
        }))
    }

    // Returns the text of a hover on the name at these bytes of a rule.
    fn text_in_rule(self, rule: RuleSite, at: Extent) -> Result<Option<String>, AllocError> {
        let alloc = self.writer.alloc;
        let text = self.document.text.as_str();
        let name = text.get(at.start..at.end).unwrap_or("");
        if is_specifier(text.get(..at.end).unwrap_or("")) {
            return match specifier_text(name) {
                Some(about) => Ok(Some(format!(in alloc; "`{name}`: {about}")?)),
                None => Ok(None),
            };
        }
        if !text.get(..at.start).unwrap_or("").ends_with('$') {
            return Ok(None);
        }
        match self.binding(rule, name)? {
            Some(binding) => Ok(Some(variable_text(alloc, name, binding.specifier)?)),
            None => Ok(None),
        }
    }

    /// Answers what the variable or the fragment specifier is that a cursor at a byte of a rule is
    /// on. `bound` says what calls bind the variable to. `AllocError` if out of memory.
    pub fn hover_in_rule(self, byte: usize, bound: &str) -> Result<Value, AllocError> {
        let alloc = self.writer.alloc;
        let Some(rule) = self.rule_at(byte) else {
            return Ok(Value::Null);
        };
        let at = name_at(self.document.text.as_str(), byte);
        let Some(mut text) = self.text_in_rule(rule, at)? else {
            return Ok(Value::Null);
        };
        if !bound.is_empty() {
            text.push_str("\n\nThe first calls bind it to:\n")?;
            text.push_str(bound)?;
        }
        let at = range(alloc, &self.lines()?, at)?;
        json!(in alloc; {"contents": {"kind": "markdown", "value": text}, "range": at})
    }

    /// Answers where the rule binds the variable that a cursor at a byte is on. `AllocError` if out
    /// of memory.
    pub fn definition_in_rule(self, byte: usize) -> Result<Value, AllocError> {
        let Some(rule) = self.rule_at(byte) else {
            return Ok(Value::Null);
        };
        let text = self.document.text.as_str();
        let at = name_at(text, byte);
        if !text.get(..at.start).unwrap_or("").ends_with('$') {
            return Ok(Value::Null);
        }
        match self.binding(rule, text.get(at.start..at.end).unwrap_or(""))? {
            Some(binding) => self
                .writer
                .location(self.found, self.found.number, binding.extent),
            None => Ok(Value::Null),
        }
    }
}
