// What calls bind a variable of a rule to, by the notes of sessions that explain the calls.
use crate::answers::View;
use crate::explained_call::{ExplainedCall, explain, line_and_column};
use crate::findings::{CallSite, Extent, Findings};
use std::alloc::{AllocError, Global};

/// The limit of calls that are explained for what they bind a variable to. A session explains one
/// call.
pub const MOST_EXPLAINED: usize = 4;

/// A variable of a rule of the document.
#[derive(Clone, Copy, Drop)]
pub struct AskedVariable<'f> {
    pub macro_name: &'f str,
    name: &'f str,
    // The path of the document, and the rule.
    path: &'f str,
    rule: Extent,
}

impl<'a> View<'a> {
    /// Returns the variable of a rule that a cursor at a byte is on.
    pub fn asked_variable(self, byte: usize) -> Option<AskedVariable<'a>> {
        let number = self.found.number;
        let variable = self.variable_at(byte)?;
        let defined = self.found.definition_at(number, variable.at)?;
        Some(AskedVariable {
            macro_name: defined.name.as_str(),
            name: variable.name,
            path: self.found.path(number),
            rule: self.rule_at(byte)?.whole,
        })
    }
}

impl AskedVariable<'_> {
    // Whether a call expands by the rule of the variable.
    fn is_bound_by(self, explained: ExplainedCall<'_>) -> bool {
        match explained.applied_rule() {
            Some(applied) => {
                explained.found.path(applied.definition.file) == self.path
                    && applied.rule.whole.start == self.rule.start
            }
            None => false,
        }
    }

    // Returns what a message says that the variable is bound to.
    fn fragment<'m>(self, front: &str, message: &'m str) -> Option<&'m str> {
        if !message.starts_with(front) {
            return None;
        }
        match message.split_once(" is bound to ") {
            Some((_, fragment)) => Some(fragment),
            None => None,
        }
    }

    /// Adds what a call binds the variable to, from what explains the call. `found` has the call.
    /// `AllocError` if out of memory.
    pub fn add_binding(
        self,
        alloc: Global,
        found: &Findings,
        call: &CallSite,
        explains: &Findings,
        text: &mut String,
    ) -> Result<(), AllocError> {
        let explained = explain(alloc, explains, call)?;
        if !self.is_bound_by(explained) {
            return Ok(());
        }
        let name = self.name;
        let front = format!(in alloc; "`${name}:")?;
        let (line, _) = line_and_column(found.text(call.file), call.whole.start);
        let path = found.path(call.file);
        for note in explained.notes {
            if let Some(fragment) = self.fragment(front.as_str(), note.message.as_str()) {
                let bound = format!(in alloc; "\n- line {line} of `{path}`: {fragment}")?;
                text.push_str(bound.as_str())?;
            }
        }
        Ok(())
    }
}
