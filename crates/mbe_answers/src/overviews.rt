// Overviews of definitions.
//
// While a call is typed, `signatures` lists the rules of its macro. `lenses` has the number of calls
// of each macro of a document, and the number of calls that each rule expands.
use crate::answers::{View, one_line};
use crate::expanded_calls::ExpandedCalls;
use crate::findings::{DefinitionSite, Extent, Finding, RuleSite, Severity};
use crate::shapes::range;
use mbe_protocol::positions::LineTable;
use serde_json::{Value, json};
use std::alloc::{AllocError, Global};

// Returns the title of the lens of a rule that expands that many calls.
fn rule_title(alloc: Global, count: usize) -> Result<String, AllocError> {
    match count {
        0 => String::from_str(alloc, "unused"),
        1 => String::from_str(alloc, "expands 1 call"),
        _ => format!(in alloc; "expands {count} calls"),
    }
}

// Returns a lens.
fn lens_at(
    alloc: Global,
    lines: &LineTable<'_>,
    extent: Extent,
    title: String,
) -> Result<Value, AllocError> {
    let at = range(alloc, lines, extent)?;
    json!(in alloc; {"range": at, "command": {"title": title, "command": ""}})
}

impl View<'_> {
    // Returns the signature of a rule: a call with the rule's pattern.
    fn signature(self, defined: &DefinitionSite, rule: RuleSite) -> Result<Value, AllocError> {
        let alloc = self.writer.alloc;
        let pattern = one_line(alloc, self.found.excerpt(defined.file, rule.pattern))?;
        let name = defined.name.as_str();
        let label = format!(in alloc; "{name}!{pattern}")?;
        json!(in alloc; {"label": label})
    }

    /// Answers which rules the macro has whose call a cursor at a byte is in, after the name.
    /// `AllocError` if out of memory.
    pub fn signatures(self, byte: usize) -> Result<Value, AllocError> {
        let Some(call) = self.found.call_at(byte) else {
            return Ok(Value::Null);
        };
        let Some(defined) = self.found.only_definition(call.name.as_str()) else {
            return Ok(Value::Null);
        };
        if byte <= call.name_at.end || defined.rules.is_empty() {
            return Ok(Value::Null);
        }
        let mut signatures = Vec::new(self.writer.alloc);
        for rule in defined.rules.iter() {
            signatures.push(self.signature(defined, *rule)?)?;
        }
        let signatures = Value::Array(signatures);
        json!(in self.writer.alloc; {"signatures": signatures})
    }

    // Returns the lens of a definition: how many calls have its name.
    fn lens(self, lines: &LineTable<'_>, defined: &DefinitionSite) -> Result<Value, AllocError> {
        let alloc = self.writer.alloc;
        let title = match self.found.count_of_calls(defined.name.as_str()) {
            1 => String::from_str(alloc, "1 call in this crate")?,
            count => format!(in alloc; "{count} calls in this crate")?,
        };
        lens_at(alloc, lines, defined.name_at, title)
    }

    // Whether a definition has an error, so that calls aren't expanded by it.
    fn is_wrong(self, defined: &DefinitionSite) -> bool {
        self.found.lints.iter().any(|lint: &Finding| matches!(lint.severity, Severity::Error)
            && lint.file == Some(defined.file)
            && defined.whole.holds(lint.extent))
    }

    // Adds the lens of each rule of a definition: how many calls it expands.
    fn add_rule_lenses(
        self,
        lines: &LineTable<'_>,
        expanded: &ExpandedCalls,
        defined: &DefinitionSite,
        lenses: &mut Vec<Value>,
    ) -> Result<(), AllocError> {
        let alloc = self.writer.alloc;
        for (index, rule) in defined.rules.iter().enumerate() {
            let title = rule_title(alloc, expanded.count_of(defined, index))?;
            lenses.push(lens_at(alloc, lines, rule.pattern, title)?)?;
        }
        Ok(())
    }

    // Adds the lenses of a definition: that of its name, unless another one has the name, and those
    // of its rules, unless it has an error.
    fn add_lenses(
        self,
        lines: &LineTable<'_>,
        defined: &DefinitionSite,
        lenses: &mut Vec<Value>,
    ) -> Result<(), AllocError> {
        if self.found.only_definition(defined.name.as_str()).is_some() {
            lenses.push(self.lens(lines, defined)?)?;
        }
        match &self.found.expanded {
            Some(expanded) if !self.is_wrong(defined) => {
                self.add_rule_lenses(lines, expanded, defined, lenses)
            }
            Some(_) | None => Ok(()),
        }
    }

    /// Answers how often each macro of the document is called, and how many calls each of its rules
    /// expands. `AllocError` if out of memory.
    pub fn lenses(self) -> Result<Value, AllocError> {
        let lines = self.lines()?;
        let mut lenses = Vec::new(self.writer.alloc);
        for defined in self.found.definitions.iter() {
            if defined.file == self.found.number {
                self.add_lenses(&lines, defined, &mut lenses)?;
            }
        }
        Ok(Value::Array(lenses))
    }
}
