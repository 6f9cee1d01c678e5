// A code action for a call that fails at its trailing comma: a rule gets `$(,)?` at the end of its
// pattern.
//
// It is offered if the rule then surely matches the call. There are two such cases:
//
// - The rule expects the end of the call where the comma is, as `($a:expr)` does in `m!(1,)`.
// - The pattern is one repetition with commas, as `($($a:expr),*)`. The rule stops after the comma,
//   and expects the variable that begins the repetition.
use crate::answers::View;
use crate::findings::{CallSite, DefinitionSite, Extent, Finding, RuleSite, Severity};
use crate::shapes::{change_of_file, text_edit};
use crate::tokens::FileTokens;
use mbe_protocol::positions::LineTable;
use serde_json::{Value, json};
use std::alloc::{AllocError, Global};

// What is added to the pattern.
const TRAILING: &str = " $(,)?";

// The front of the note on a call in whose expansion a call fails.
const INSIDE: &str = "in this macro invocation";

// Where a rule stops at a call that fails.
#[derive(Clone, Copy, Drop)]
struct Stop<'f> {
    /// The token at which it stops.
    extent: Extent,
    /// What it expects there, as a message lists it.
    expected: &'f str,
}

// Whether a list of what a rule expects has the end of the call.
fn has_end(expected: &str) -> bool {
    expected == "the end of the call" || expected.ends_with(" or the end of the call")
}

impl<'f> FileTokens<'f> {
    // Returns the number of tokens in the group that opens at an index, with its brackets. `None`
    // if no group opens there.
    fn group_len(self, at: usize) -> Option<usize> {
        let mut depth = 0usize;
        let rest = self.list.get(at..)?;
        for (count, token) in rest.iter().enumerate() {
            depth = token.kind.depth_after(depth);
            if depth == 0 {
                return (count > 0).then_some(count.saturating_add(1));
            }
        }
        None
    }

    // Whether these tokens of a pattern, with its brackets, are one repetition with commas: all of
    // `($( .. ),*)`.
    fn is_comma_list(self) -> bool {
        let Some(length) = self.group_len(2) else {
            return false;
        };
        let after = length.saturating_add(2);
        self.text_at(1) == "$"
            && self.text_at(2) == "("
            && self.text_at(after) == ","
            && matches!(self.text_after(after, 1), "*" | "+")
            && self.list.len() == after.saturating_add(3)
    }
}

impl<'a> View<'a> {
    // Returns where a rule stops at a call, by the note on the rule that begins with that text.
    fn stop_by(self, call: &CallSite, front: &str) -> Option<Stop<'a>> {
        for note in self.found.notes.iter() {
            if self.is_on(note, call)
                && let Some(expected) = note.message.as_str().strip_prefix(front)
            {
                let extent = note.extent;
                return Some(Stop { extent, expected });
            }
        }
        None
    }

    // Returns where the rule of that number stops at a call.
    fn stop_of(self, call: &CallSite, number: usize) -> Result<Option<Stop<'a>>, AllocError> {
        let name = call.name.as_str();
        let front = format!(in self.writer.alloc;
            "rule {number} of `{name}!` stops here; expected "
        )?;
        Ok(self.stop_by(call, front.as_str()))
    }

    // Whether a rule that stops there expects the variable that begins the only repetition of its
    // pattern.
    fn expects_round(self, pattern: FileTokens<'_>, stop: Stop<'_>) -> Result<bool, AllocError> {
        if !pattern.is_comma_list() || !pattern.is_binding(4) {
            return Ok(false);
        }
        let (name, specifier) = (pattern.text_at(4), pattern.text_at(6));
        let variable = format!(in self.writer.alloc; "`${name}:{specifier}`")?;
        Ok(stop.expected == variable.as_str())
    }

    // Whether a rule that stops at a call would match it with `$(,)?` at the end of its pattern.
    fn would_match(
        self,
        pattern: FileTokens<'_>,
        comma: Extent,
        stop: Stop<'_>,
    ) -> Result<bool, AllocError> {
        if stop.extent.start == comma.start {
            return Ok(has_end(stop.expected));
        }
        if stop.extent.start < comma.end {
            return Ok(false);
        }
        self.expects_round(pattern, stop)
    }

    // Returns the trailing comma of a call.
    fn trailing_comma(self, call: &CallSite) -> Option<Extent> {
        let tokens = self.found.tokens_of(call.file).within(call.whole);
        let at = tokens.list.len().checked_sub(2)?;
        let comma = tokens.list.get(at)?.extent;
        (tokens.text_at(at) == "," && comma.start > call.name_at.end).then_some(comma)
    }

    // Whether a message is on the call.
    fn is_on(self, note: &Finding, call: &CallSite) -> bool {
        note.file == Some(call.file) && call.whole.holds(note.extent)
    }

    // Whether the call itself fails, and no call in its expansion.
    fn fails(self, call: &CallSite) -> bool {
        let notes = self.found.notes.as_slice();
        let is_wrong = notes.iter().any(|note: &Finding| matches!(note.severity, Severity::Error)
            && self.is_on(note, call));
        let is_inside = notes.iter().any(|note: &Finding| note.message.as_str().starts_with(INSIDE)
            && self.is_on(note, call));
        is_wrong && !is_inside
    }

    // Returns the edit that adds `$(,)?` to a rule of file `number`.
    fn comma_edit(self, number: usize, rule: RuleSite) -> Result<Vec<Value>, AllocError> {
        let alloc: Global = self.writer.alloc;
        let lines = LineTable::of(alloc, self.found.text(number), self.writer.encoding)?;
        let end = rule.pattern.end.saturating_sub(1);
        let mut edits = Vec::new(alloc);
        edits.push(text_edit(alloc, &lines, Extent { start: end, end }, TRAILING)?)?;
        Ok(edits)
    }

    // Returns the code action that adds `$(,)?` to a rule.
    fn comma_action(
        self,
        defined: &DefinitionSite,
        rule: RuleSite,
        number: usize,
    ) -> Result<Value, AllocError> {
        let alloc: Global = self.writer.alloc;
        let edits = self.comma_edit(defined.file, rule)?;
        let uri = self.writer.uri(self.found, defined.file)?;
        let change = change_of_file(alloc, uri, edits)?;
        let name = defined.name.as_str();
        let title = format!(in alloc; "Accept a trailing comma in rule {number} of `{name}!`")?;
        json!(in alloc; {"title": title, "kind": "quickfix", "edit": change})
    }

    // Adds the code action for a rule, if the rule then surely matches the call.
    fn add_comma_to(
        self,
        call: &CallSite,
        comma: Extent,
        defined: &DefinitionSite,
        index: usize,
        actions: &mut Vec<Value>,
    ) -> Result<(), AllocError> {
        let Some(rule) = defined.rules.get(index) else {
            return Ok(());
        };
        let number = index.saturating_add(1);
        let Some(stop) = self.stop_of(call, number)? else {
            return Ok(());
        };
        let pattern = self.found.tokens_of(defined.file).within(rule.pattern);
        if pattern.list.len() > 2 && self.would_match(pattern, comma, stop)? {
            actions.push(self.comma_action(defined, *rule, number)?)?;
        }
        Ok(())
    }

    // Returns the only definition of the macro that a call names, if the definition is in a file
    // that may be changed.
    fn own_definition(self, call: &CallSite) -> Option<&'a DefinitionSite> {
        let defined = self.found.only_definition(call.name.as_str())?;
        let is_own = self.found.files.get(defined.file)?.is_own;
        is_own.then_some(defined)
    }

    /// Adds the code actions by which rules accept the trailing comma of a call that fails.
    /// `AllocError` if out of memory.
    pub fn add_commas(self, call: &CallSite, actions: &mut Vec<Value>) -> Result<(), AllocError> {
        let Some(comma) = self.trailing_comma(call) else {
            return Ok(());
        };
        let Some(defined) = self.own_definition(call) else {
            return Ok(());
        };
        if !self.fails(call) {
            return Ok(());
        }
        for index in 0..defined.rules.len() {
            self.add_comma_to(call, comma, defined, index, actions)?;
        }
        Ok(())
    }
}
