// The rules that expand the calls of a session, and how many calls each one expands.
ghost use Rattle.std.specs.Prelude.{◌≡◌};
ghost use Rattle.mbe_reports.specs.Uses as spec;

use mbe::DeclarativeMacro;
use mbe_grammar::rust::rust_rules::rust_rules;
use mbe_grammar::tables::peg_table::RuleTable;
use mbe_markup::applied_rule::applied_rule;
use mbe_session::file_expander::call_steps::CallStep;
use mbe_session::session::Session;
use mbe_session::session_options::SessionOptions;
use std::alloc::{AllocError, Global};

/// A rule that expanded a call. Its macro is known by the file and the first byte of its name.
#[derive(Clone, Copy, Drop)]
pub struct RuleUse {
    /// The file that has the name of the macro.
    pub file: u32,
    /// The byte at which the name begins.
    pub start: u32,
    /// The index of the rule.
    pub rule: usize,
}

impl RuleUse {
    // Whether the rule of that index is used, of the macro whose name is there.
    fn is_of(&self, file: u32, start: u32, rule: usize) -> bool
        ensures { result ≡ spec.is_of file start rule self.now }
    {
        self.file == file && self.start == start && self.rule == rule
    }
}

/// Returns how many of the uses are of the rule of that index, of the macro whose name begins at
/// byte `start` of a file.
pub fn count_of(uses: &[RuleUse], file: u32, start: u32, rule: usize) -> usize
    ensures { result ≡ spec.count_of file start rule uses.now }
{
    uses.iter()
        .filter(|one| one.is_of(file, start, rule))
        .count()
}

// Returns the index of the rule that expands a call which is expanded. The only rule of a macro
// needs no search.
fn rule_of(
    alloc: Global,
    grammar: &RuleTable<'_>,
    rules: &DeclarativeMacro,
    step: &CallStep,
) -> Result<Option<usize>, AllocError> {
    if step.expansion.is_none() {
        return Ok(None);
    }
    if rules.err().is_some() {
        return Ok(None);
    }
    match rules.num_rules() {
        1 => Ok(Some(0)),
        _ => applied_rule(alloc, grammar, rules, &step.argument, step.start),
    }
}

// Returns the rule that expands a call, if there is one.
fn use_of(
    alloc: Global,
    grammar: &RuleTable<'_>,
    session: &Session<'_>,
    step: &CallStep,
) -> Result<Option<RuleUse>, AllocError> {
    let Some(number) = step.definition else {
        return Ok(None);
    };
    let Some(name) = session.expander.name_span_at(number) else {
        return Ok(None);
    };
    let Some(rules) = session.expander.rules_at(number) else {
        return Ok(None);
    };
    let rule = rule_of(alloc, grammar, rules, step)?;
    Ok(rule.map(|rule| RuleUse {
        file: name.file,
        start: name.start,
        rule,
    }))
}

/// Returns the rule of each call that is expanded, in the order of the steps. `AllocError` if out
/// of memory.
pub fn rule_uses(
    alloc: Global,
    options: &SessionOptions<'_>,
    session: &Session<'_>,
    steps: &[CallStep],
) -> Result<Vec<RuleUse>, AllocError> {
    let grammar = rust_rules(options.edition, &[]).with_dialect(options.dialect);
    let mut uses = Vec::new(alloc);
    for step in steps {
        if let Some(found) = use_of(alloc, &grammar, session, step)? {
            uses.push(found)?;
        }
    }
    Ok(uses)
}
