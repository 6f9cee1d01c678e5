// Code actions that follow the advice of a diagnostic, where one text replaces another.
use crate::answers::View;
use crate::findings::{Extent, Finding};
use crate::reports::is_same;
use crate::shapes::{change_of_file, text_edit};
use crate::tokens::is_name_text;
use serde_json::{Value, json};
use std::alloc::{AllocError, Global};

// The fronts of messages that name something similar. The name is up to the next backtick.
const SIMILAR: &[&str] = &[
    "a fragment specifier with a similar name exists: `",
    "there's a macro metavariable with a similar name: `$",
    "a macro with a similar name exists: `",
];

// The front of the message on an unused variable. The name is up to the next backtick.
const UNUSED: &str = "if this is intentional, prefix it with an underscore: `$";

// The front of the message on a `pat` that a `|` follows. A variable is up to the next backtick.
const PAT_PARAM: &str = "try a `pat_param` fragment specifier instead: `";

// A part of the document, and the text that replaces it.
#[derive(Clone, Copy, Drop)]
struct Fix<'f> {
    extent: Extent,
    text: &'f str,
}

// Returns the name that a message names after one of these fronts.
fn named<'f>(message: &'f str, fronts: &[&str]) -> Option<&'f str> {
    for front in fronts {
        if let Some(rest) = message.strip_prefix(*front) {
            return rest.strip_suffix('`').filter(|name| is_name_text(*name));
        }
    }
    None
}

// Returns the bytes of the name of a variable that these bytes begin with, after its `$`.
fn variable_name(part: Extent, name: &str) -> Extent {
    let start = part.start.saturating_add(1);
    Extent {
        start,
        end: start.saturating_add(name.len()),
    }
}

impl<'a> View<'a> {
    // Returns the bytes of the document.
    fn bytes(self, part: Extent) -> &'a str {
        self.found.excerpt(self.found.number, part)
    }

    // Returns the bytes without a `$` at their front.
    fn without_dollar(self, part: Extent) -> Extent {
        let (mut start, end) = (part.start, part.end);
        if self.bytes(part).starts_with('$') {
            start = start.saturating_add(1);
        }
        Extent { start, end }
    }

    // Returns what replaces a name by a similar one, if a message names it.
    fn similar(self, help: &'a Finding) -> Option<Fix<'a>> {
        let text = named(help.message.as_str(), SIMILAR)?;
        let extent = self.without_dollar(help.extent);
        is_name_text(self.bytes(extent)).then_some(Fix { extent, text })
    }

    // Returns what puts a `_` before the name of a variable, if a message says so.
    fn underscore(self, help: &'a Finding) -> Option<Fix<'a>> {
        let text = named(help.message.as_str(), &[UNUSED])?;
        let name = text.strip_prefix('_')?;
        let extent = variable_name(help.extent, name);
        (self.bytes(extent) == name).then_some(Fix { extent, text })
    }

    // Returns what gives a variable the specifier `pat_param`, if a message says so.
    fn pat_param(self, help: &'a Finding) -> Option<Fix<'a>> {
        let advised = help.message.as_str().strip_prefix(PAT_PARAM)?;
        let text = advised.strip_suffix('`')?;
        let old = text.strip_suffix("_param")?;
        (self.bytes(help.extent) == old).then_some(Fix {
            extent: help.extent,
            text,
        })
    }

    // Returns the fix that a message on the document advises, if the message meets these bytes.
    fn fix(self, help: &'a Finding, part: Extent) -> Option<Fix<'a>> {
        if help.file != Some(self.found.number) || !help.extent.meets(part) {
            return None;
        }
        if let Some(fix) = self.similar(help) {
            return Some(fix);
        }
        if let Some(fix) = self.underscore(help) {
            return Some(fix);
        }
        self.pat_param(help)
    }

    // Returns a code action.
    fn fix_action(self, fix: Fix<'_>) -> Result<Value, AllocError> {
        let alloc: Global = self.writer.alloc;
        let mut edits = Vec::new(alloc);
        edits.push(text_edit(alloc, &self.lines()?, fix.extent, fix.text)?)?;
        let change = change_of_file(alloc, self.document.uri.clone()?, edits)?;
        let (old, new) = (self.bytes(fix.extent), fix.text);
        let title = format!(in alloc; "Replace `{old}` by `{new}`")?;
        json!(in alloc; {"title": title, "kind": "quickfix", "edit": change})
    }

    // Adds the code actions of messages on these bytes, except those that `known` has.
    fn add_fixes_of(
        self,
        messages: &'a [Finding],
        known: &[Finding],
        part: Extent,
        actions: &mut Vec<Value>,
    ) -> Result<(), AllocError> {
        for help in messages {
            if let Some(fix) = self.fix(help, part)
                && !known.iter().any(|other| is_same(other, help))
            {
                actions.push(self.fix_action(fix)?)?;
            }
        }
        Ok(())
    }

    /// Adds the code actions that follow the advice of diagnostics on these bytes. `AllocError` if
    /// out of memory.
    pub fn add_fixes(self, part: Extent, actions: &mut Vec<Value>) -> Result<(), AllocError> {
        let (lints, notes) = (self.found.lints.as_slice(), self.found.notes.as_slice());
        self.add_fixes_of(lints, &[], part, actions)?;
        self.add_fixes_of(notes, lints, part, actions)
    }
}
