// Code actions: the expansions of calls replace the calls.
use crate::answers::View;
use crate::findings::{CallSite, Findings, Part};
use crate::shapes::{change_of_file, text_edit};
use mbe_protocol::positions::LineTable;
use serde_json::{Map, Value, json};
use std::alloc::{AllocError, Global};

// The limit of calls of a macro for the action that inlines all of them.
const MOST_INLINED: usize = 1000;

// Returns a code action.
fn action(alloc: Global, title: &str, change: Value) -> Result<Value, AllocError> {
    json!(in alloc; {"title": title, "kind": "refactor.inline", "edit": change})
}

impl View<'_> {
    // Returns a code action that replaces a part of the document.
    fn replacement(
        self,
        lines: &LineTable<'_>,
        title: &str,
        part: &Part,
    ) -> Result<Value, AllocError> {
        let alloc = self.writer.alloc;
        let mut edits = Vec::new(alloc);
        edits.push(text_edit(alloc, lines, part.extent, part.text.as_str())?)?;
        let uri = self.document.uri.clone()?;
        action(alloc, title, change_of_file(alloc, uri, edits)?)
    }

    // Returns the edits that inline the calls of that name in file `number`. No two of them
    // overlap.
    fn inlining_edits(self, number: usize, name: &str) -> Result<Vec<Value>, AllocError> {
        let alloc = self.writer.alloc;
        let lines = LineTable::of(alloc, self.found.text(number), self.writer.encoding)?;
        let mut edits = Vec::new(alloc);
        let mut end = 0usize;
        for call in self.found.calls.iter() {
            if call.file == number
                && call.name.as_str() == name
                && let Some(part) = self.found.part_of(call)
                && end <= part.extent.start
            {
                edits.push(text_edit(alloc, &lines, part.extent, part.text.as_str())?)?;
                end = part.extent.end;
            }
        }
        Ok(edits)
    }

    // Returns the code action that inlines all calls of that name; `None` if there are not several.
    fn inline_all(self, name: &str) -> Result<Option<Value>, AllocError> {
        let alloc = self.writer.alloc;
        let mut changes = Map::new(alloc);
        let mut count = 0usize;
        for number in 0..self.found.files.len() {
            if self.has_call(number, name) {
                let edits = self.inlining_edits(number, name)?;
                count = count.saturating_add(edits.len());
                let uri = self.writer.uri(self.found, number)?;
                changes.insert(uri, Value::Array(edits))?;
            }
        }
        if count < 2 {
            return Ok(None);
        }
        let title = format!(in alloc; "Inline all {count} calls of `{name}!`")?;
        let changes = Value::Object(changes);
        let change = json!(in alloc; {"changes": changes})?;
        Ok(Some(action(alloc, title.as_str(), change)?))
    }

    // Whether the action is offered that inlines all calls of that name.
    fn may_inline_all(self, name: &str) -> bool {
        self.found.only_definition(name).is_some()
            && self.found.count_of_calls(name) <= MOST_INLINED
    }

    // Adds the code action that replaces a call by its expansion by one step.
    fn add_step(
        self,
        call: &CallSite,
        step: &Part,
        actions: &mut Vec<Value>,
    ) -> Result<(), AllocError> {
        let name = call.name.as_str();
        let title = format!(in self.writer.alloc; "Expand one step of `{name}!`")?;
        let lines = self.lines()?;
        actions.push(self.replacement(&lines, title.as_str(), step)?)?;
        Ok(())
    }

    /// Adds the actions for a call. The first replaces the call by its expansion. The second
    /// replaces it by one step, if one step isn't the whole expansion. The third replaces all calls
    /// of the macro. `stepped` has the expansions by one step. `AllocError` if out of memory.
    pub fn add_inlinings(
        self,
        call: &CallSite,
        stepped: &Findings,
        actions: &mut Vec<Value>,
    ) -> Result<(), AllocError> {
        let Some(part) = self.found.part_of(call) else {
            return Ok(());
        };
        let name = call.name.as_str();
        let title = format!(in self.writer.alloc; "Inline this call of `{name}!`")?;
        actions.push(self.replacement(&self.lines()?, title.as_str(), part)?)?;
        if let Some(step) = stepped.part_of(call)
            && step.text.as_str() != part.text.as_str()
        {
            self.add_step(call, step, actions)?;
        }
        if self.may_inline_all(name)
            && let Some(all) = self.inline_all(name)?
        {
            actions.push(all)?;
        }
        Ok(())
    }
}
