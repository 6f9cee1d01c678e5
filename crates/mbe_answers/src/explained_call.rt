// Which rule of which definition a call expands by, and why others don't match.
//
// A session explains the call by notes. The rule that applies is the first that matches. Its
// definition is found by the notes on its variables, and by the origins of the expansion's tokens.
use crate::findings::{CallSite, DefinitionSite, Finding, Findings, RuleSite};
use std::alloc::{AllocError, Global};

/// A call that is explained, and what the session found that explains it.
#[derive(Clone, Copy, Drop)]
pub struct ExplainedCall<'f> {
    pub found: &'f Findings,
    // The name of the macro.
    name: &'f str,
    // The notes before the explanation.
    before: &'f [Finding],
    /// The notes of the explanation.
    pub notes: &'f [Finding],
    /// The number of the rule that applies, from 1.
    pub rule: Option<usize>,
}

/// The rule of a definition.
#[derive(Clone, Copy, Drop)]
pub struct FoundRule<'f> {
    pub definition: &'f DefinitionSite,
    pub rule: RuleSite,
}

/// Returns the line and the column of a byte, from 1. A line ends with a line feed, and a column
/// counts characters.
pub fn line_and_column(text: &str, byte: usize) -> (usize, usize) {
    let before = text.get(..byte).unwrap_or("");
    let line = before.matches('\n').count().saturating_add(1);
    let start = match before.rsplit_once('\n') {
        Some((_, last)) => last,
        None => before,
    };
    (line, start.chars().count().saturating_add(1))
}

// Whether a note is on a rule, and not on a part of one.
fn is_on_rule(note: &Finding) -> bool {
    note.message.as_str().starts_with("rule ")
}

// Whether a note is of an explanation.
fn is_explanation(note: &Finding) -> bool {
    is_on_rule(note) || note.message.as_str().contains(" in rule ")
}

// Whether a note is on a rule of the macro that `of` names, such as "of `pair!` ".
fn is_on_rule_of(note: &Finding, of: &str) -> bool {
    let Some(rest) = note.message.as_str().strip_prefix("rule ") else {
        return false;
    };
    match rest.split_once(' ') {
        Some((_, after)) => after.starts_with(of),
        None => false,
    }
}

// Returns the number of the rule that a note is on.
fn number_on(note: &Finding) -> Option<usize> {
    let rest = note.message.as_str().strip_prefix("rule ")?;
    let (digits, _) = rest.split_once(' ')?;
    let mut number = 0usize;
    for digit in digits.chars() {
        let value = digit.to_digit(10)?;
        number = number.checked_mul(10)?.checked_add(value as usize)?;
    }
    Some(number)
}

// Splits the notes into those before the first explanation, and those from there on. It begins with
// a note on a rule of the macro.
fn split_before<'f>(notes: &'f [Finding], of: &str) -> (&'f [Finding], &'f [Finding]) {
    let at = notes
        .iter()
        .position(|note| is_on_rule_of(note, of))
        .unwrap_or(notes.len());
    (
        notes.get(..at).unwrap_or(notes),
        notes.get(at..).unwrap_or(&[]),
    )
}

// Whether a note is on the rule of that number of the macro.
fn is_on_number(note: &Finding, of: &str, number: Option<usize>) -> bool {
    is_on_rule_of(note, of) && number_on(note) == number
}

// Returns the explanation at the front of the notes: up to a note that is of none, or to the next
// explanation of a call of the macro. That begins with the same rule, since each rule has one note.
fn explanation<'f>(notes: &'f [Finding], of: &str) -> &'f [Finding] {
    let Some((first, after)) = notes.split_first() else {
        return notes;
    };
    let number = number_on(first);
    let count = after
        .iter()
        .take_while(|note| is_explanation(*note) && !is_on_number(*note, of, number))
        .count();
    notes.get(..count.saturating_add(1)).unwrap_or(&[])
}

// Returns the number of the first rule that matches.
fn matching_rule(notes: &[Finding], of: &str) -> Option<usize> {
    let found = notes.iter().find(|note| is_on_rule_of(*note, of)
        && note.message.as_str().ends_with("` matches"))?;
    number_on(found)
}

/// Returns the explanation of a call among the notes of a session. `AllocError` if out of memory.
pub fn explain<'f>(
    alloc: Global,
    found: &'f Findings,
    call: &'f CallSite,
) -> Result<ExplainedCall<'f>, AllocError> {
    let name = call.name.as_str();
    let of = format!(in alloc; "of `{name}!` ")?;
    let (before, rest) = split_before(found.notes.as_slice(), of.as_str());
    let notes = explanation(rest, of.as_str());
    let rule = matching_rule(notes, of.as_str());
    Ok(ExplainedCall {
        found,
        name,
        before,
        notes,
        rule,
    })
}

impl<'f> ExplainedCall<'f> {
    // Returns the rule of that number, if a note is on a part of it.
    fn rule_with(self, note: &Finding, number: usize) -> Option<FoundRule<'f>> {
        let definition = self.found.definition_at(note.file?, note.extent)?;
        if definition.name.as_str() != self.name {
            return None;
        }
        let rule = *definition.rules.get(number.saturating_sub(1))?;
        if rule.whole.holds(note.extent) {
            return Some(FoundRule { definition, rule });
        }
        None
    }

    // Returns the rule of that number that has a variable of the explanation.
    fn rule_of_variables(self, number: usize) -> Option<FoundRule<'f>> {
        for note in self.notes {
            if !is_on_rule(note)
                && let Some(found) = self.rule_with(note, number)
            {
                return Some(found);
            }
        }
        None
    }

    // Returns the rule of that number that wrote a token of the expansion. The notes on tokens are
    // between the explanation and the note that the call is expanded.
    fn rule_of_tokens(self, number: usize) -> Option<FoundRule<'f>> {
        for note in self.before.iter().rev() {
            if note.message.as_str().starts_with("expanding `") {
                return None;
            }
            if let Some(found) = self.rule_with(note, number) {
                return Some(found);
            }
        }
        None
    }

    // Returns the rule of that number of the only definition with the name of the macro. The rule
    // has no variable, since no note is on one.
    fn only_rule(self, number: usize) -> Option<FoundRule<'f>> {
        let definition = self.found.only_definition(self.name)?;
        let rule = *definition.rules.get(number.saturating_sub(1))?;
        let pattern = self.found.excerpt(definition.file, rule.pattern);
        if pattern.contains('$') {
            return None;
        }
        Some(FoundRule { definition, rule })
    }

    /// Returns the rule that applies, with its definition. `None` if no rule applies, or its
    /// definition isn't in the text of a file.
    pub fn applied_rule(self) -> Option<FoundRule<'f>> {
        let number = self.rule?;
        if let Some(found) = self.rule_of_variables(number) {
            return Some(found);
        }
        if let Some(found) = self.rule_of_tokens(number) {
            return Some(found);
        }
        self.only_rule(number)
    }
}
