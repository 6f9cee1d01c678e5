// A call as its card shows it: the macro, the rule that applies, and what its variables are bound
// to.
use crate::page_data::{PageData, PageMacro};
use mbe::{Bindings, DeclarativeMacro};
use mbe_diagnostics::rule_checks::variables::{PatternVariable, variables_in};
use mbe_markup::applied_rule::applied_rule;
use mbe_markup::fragments::{FragmentTokens, TokenOrigin, fragment_tokens};
use mbe_markup::rule_sites::RuleSite;
use mbe_session::file_expander::call_steps::CallStep;
use mbe_tt::span::Span;
use std::alloc::{AllocError, Global};

/// A call as its card shows it.
#[derive(Drop)]
pub struct CallView<'a> {
    /// The macro; `None` if the call resolves to none.
    pub called: Option<&'a PageMacro<'a>>,
    /// The rules, if the definition has no error.
    pub rules: Option<&'a DeclarativeMacro>,
    /// The index of the rule that applies.
    pub rule: Option<usize>,
    /// The variables of the pattern of that rule.
    pub variables: Vec<PatternVariable<'a>>,
    pub bindings: Option<Bindings<'a>>,
    /// The tokens of the fragments that the variables are bound to.
    pub fragments: FragmentTokens,
}

// Returns the index of the rule that expands a call, if there is one.
fn rule_of(
    alloc: Global,
    shown: &PageData<'_>,
    rules: Option<&DeclarativeMacro>,
    step: &CallStep,
) -> Result<Option<usize>, AllocError> {
    if step.expansion.is_none() {
        return Ok(None);
    }
    let Some(rules) = rules else {
        return Ok(None);
    };
    if rules.err().is_some() {
        return Ok(None);
    }
    applied_rule(alloc, &shown.grammar, rules, &step.argument, step.start)
}

// Returns what the variables of a rule are bound to.
fn bindings_of<'a>(
    alloc: Global,
    shown: &PageData<'_>,
    rules: &'a DeclarativeMacro,
    step: &'a CallStep,
    rule: usize,
) -> Result<Option<Bindings<'a>>, AllocError> {
    if rules.err().is_some() || rule >= rules.num_rules() {
        return Ok(None);
    }
    rules.bindings(alloc, &shown.grammar, &step.argument, rule)
}

// Returns the variables of the pattern of a rule.
fn variables_of<'a>(
    alloc: Global,
    rules: &'a DeclarativeMacro,
    rule: usize,
) -> Result<Vec<PatternVariable<'a>>, AllocError> {
    if rule >= rules.num_rules() {
        return Ok(Vec::new(alloc));
    }
    variables_in(alloc, rules.pattern(rule))
}

/// Returns a call as its card shows it. `AllocError` if out of memory.
pub fn call_view<'a>(
    alloc: Global,
    shown: &'a PageData<'a>,
    step: &'a CallStep,
) -> Result<CallView<'a>, AllocError> {
    let called = shown.macro_of(step);
    let rules = match called {
        Some(called) if called.rules.err().is_none() => Some(called.rules),
        Some(_) | None => None,
    };
    let rule = rule_of(alloc, shown, rules, step)?;
    let (variables, bindings) = match (rules, rule) {
        (Some(rules), Some(rule)) => (
            variables_of(alloc, rules, rule)?,
            bindings_of(alloc, shown, rules, step, rule)?,
        ),
        _ => (Vec::new(alloc), None),
    };
    let fragments = fragment_tokens(alloc, variables.as_slice(), bindings.as_ref())?;
    Ok(CallView {
        called,
        rules,
        rule,
        variables,
        bindings,
        fragments,
    })
}

impl<'a> CallView<'a> {
    /// Returns the number of rules that are tried on the call: those up to the rule that applies,
    /// or all.
    pub fn tried(&self) -> usize {
        match (self.rule, self.rules) {
            (Some(rule), _) => rule.saturating_add(1),
            (None, Some(rules)) => rules.num_rules(),
            (None, None) => 0,
        }
    }

    /// Returns where the template of the rule that applies is.
    pub fn site(&self) -> Option<RuleSite<'a>> {
        let called = self.called?;
        called.sites.get(self.rule?).copied()
    }

    // Whether a span is in the template of the rule that applies, in its file.
    fn is_in_template(&self, span: Span) -> bool {
        let (Some(site), Some(called)) = (self.site(), self.called) else {
            return false;
        };
        let Some(name_span) = called.name_span else {
            return false;
        };
        let start = span.start as usize;
        span.file == name_span.file && site.start <= start && start < site.end
    }

    /// Returns where a token of the expansion comes from. `contexts` are the syntax contexts of the
    /// template's tokens. A separator keeps its own context, so it is known by its span.
    /// Parentheses that the expander adds have the span of a variable.
    pub fn origin_of(&self, contexts: (u32, u32), span: Span, text: &str) -> TokenOrigin<'_> {
        match self.fragments.origin_of(contexts, span) {
            TokenOrigin::Added if text != "(" && text != ")" && self.is_in_template(span) => {
                TokenOrigin::Template
            }
            origin => origin,
        }
    }
}
