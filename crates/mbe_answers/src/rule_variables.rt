// The variables of rules by their tokens: where they are, and whether they can be renamed.
use crate::answers::View;
use crate::findings::{Extent, RuleSite};
use crate::tokens::FileTokens;
use std::alloc::{AllocError, Global};

/// A variable of a rule.
#[derive(Clone, Copy, Drop)]
pub(crate) struct RuleVariable<'f> {
    pub(crate) name: &'f str,
    /// Where the cursor is on its name.
    pub(crate) at: Extent,
    // The tokens of the rule, and those of its pattern.
    tokens: FileTokens<'f>,
    pattern: FileTokens<'f>,
}

impl<'f> RuleVariable<'f> {
    // Whether the token at that index of the rule is the variable's name.
    fn is_at(self, at: usize) -> bool {
        self.tokens.text_at(at) == self.name && self.tokens.is_variable(at)
    }

    // Returns how often the pattern binds the variable.
    fn binding_count(self) -> usize {
        let pattern = self.pattern;
        (0..pattern.list.len())
            .filter(|at: &usize| pattern.text_at(*at) == self.name && pattern.is_binding(*at))
            .count()
    }

    // Whether a token has the text, and the one before it the other.
    fn has_pair(self, first: &str, second: &str) -> bool {
        let tokens = self.tokens;
        (0..tokens.list.len()).any(|at: usize| tokens.text_at(at) == second
            && tokens.text_before(at, 1) == first)
    }

    /// Returns where the names of the variable are in the rule; the one in its binding is left out
    /// if `is_used` is set. `AllocError` if out of memory.
    pub(crate) fn sites(self, alloc: Global, is_used: bool) -> Result<Vec<Extent>, AllocError> {
        let mut sites = Vec::new(alloc);
        for (at, token) in self.tokens.list.iter().enumerate() {
            if self.is_at(at) && !(is_used && self.tokens.is_binding(at)) {
                sites.push(token.extent)?;
            }
        }
        Ok(sites)
    }

    /// Returns why the variable can't be renamed; `None` if it can.
    pub(crate) fn obstacle(self) -> Option<&'static str> {
        if self.binding_count() != 1 {
            return Some("the rule doesn't bind this variable once");
        }
        if self.has_pair("$", "$") {
            return Some("the rule has `$$`, so its variables can't be told for sure");
        }
        if self.has_pair("$", "{") && self.tokens.has_plain(self.name) {
            return Some("a metavariable expression may name the variable without `$`");
        }
        None
    }

    /// Returns why the variable can't have that name; `None` if it can.
    pub(crate) fn obstacle_to(self, new: &str) -> Option<&'static str> {
        if self.has_pair("$", new) {
            return Some("the rule has a variable of that name already");
        }
        if self.has_pair("$", "{") && self.tokens.has_plain(new) {
            return Some("a metavariable expression may name the new variable");
        }
        None
    }
}

impl<'a> View<'a> {
    // Returns the variable of a rule whose name a cursor at a byte touches.
    fn variable_in(self, rule: RuleSite, byte: usize) -> Option<RuleVariable<'a>> {
        let tokens = self.found.tokens_of(self.found.number).within(rule.whole);
        let at = tokens.name_at(byte)?;
        let name = tokens.text_at(at);
        if name == "crate" || !tokens.is_variable(at) {
            return None;
        }
        Some(RuleVariable {
            name,
            at: tokens.list.get(at)?.extent,
            tokens,
            pattern: tokens.within(rule.pattern),
        })
    }

    /// Returns the variable of a rule of the document that a cursor at a byte touches: its name,
    /// or the `$` before it.
    pub(crate) fn variable_at(self, byte: usize) -> Option<RuleVariable<'a>> {
        let rule = self.rule_at(byte)?;
        match self.variable_in(rule, byte) {
            Some(variable) => Some(variable),
            None => self.variable_in(rule, byte.saturating_add(1)),
        }
    }
}
