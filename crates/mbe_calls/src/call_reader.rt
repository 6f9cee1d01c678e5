// Reads the calls of a session: which rule expands each one, and what it does with the tokens.
ghost use Rattle.mbe_semantics.specs.Expansion.Macro.{IsChecked};
ghost use Rattle.mbe.specs.MacroViews.{macro_of};

use crate::argument_tokens::add_argument;
use crate::expansion_tokens::add_expansion;
use mbe::{DeclarativeMacro, MacroCallStyle, ValueResult};
use mbe_answers::expanded_calls::{AppliedRule, ExpandedCalls};
use mbe_answers::findings::Extent;
use mbe_grammar::rust::rust_rules::rust_rules;
use mbe_grammar::tables::peg_table::RuleTable;
use mbe_session::file_expander::call_steps::CallStep;
use mbe_session::session::Session;
use mbe_session::session_options::SessionOptions;
use mbe_session::source_files::SourceFile;
use mbe_tt::span::Span;
use std::alloc::{AllocError, Global};

/// The byte of a file at which a call begins.
#[derive(Clone, Copy, Drop)]
pub struct CallStart {
    /// The number of the file.
    pub file: usize,
    pub byte: usize,
}

/// A session whose calls are read.
#[derive(Clone, Copy, Drop)]
pub(crate) struct CallReader<'s> {
    pub(crate) alloc: Global,
    pub(crate) grammar: RuleTable<'s>,
    session: &'s Session<'s>,
}

// Returns the index of the rule that expands a call, by applying the rules anew.
fn applied_rule(
    reader: CallReader<'_>,
    rules: &DeclarativeMacro,
    step: &CallStep,
) -> Result<Option<usize>, AllocError>
    requires checked { IsChecked (macro_of rules.now) }
{
    let ValueResult { value, err } = rules.expand(
        reader.alloc,
        &reader.grammar,
        &step.argument,
        |span: Span| span,
        MacroCallStyle::FnLike,
        step.start,
    )?;
    let (_tree, index) = value;
    match (err, index) {
        (None, Some(index)) => Ok(Some(index as usize)),
        (None, None) | (Some(_), _) => Ok(None),
    }
}

// Returns the index of the rule that expands a call, which a step doesn't know. The only rule of a
// macro needs no search.
fn rule_of(
    reader: CallReader<'_>,
    rules: &DeclarativeMacro,
    step: &CallStep,
) -> Result<Option<usize>, AllocError>
    requires checked { IsChecked (macro_of rules.now) }
{
    match rules.num_rules() {
        1 => Ok(Some(0)),
        _ => applied_rule(reader, rules, step),
    }
}

impl<'s> CallReader<'s> {
    fn file(self, span: Span) -> Option<&'s SourceFile<'s>> {
        self.session.files.get(span.file as usize)
    }

    /// Returns where a span is in the text that editors have; `None` if it is in no file.
    pub(crate) fn extent(self, span: Span) -> Option<Extent> {
        let lines = &self.file(span)?.lines;
        let start = lines.place(span.start as usize);
        let end = lines.place(span.end as usize).max(start);
        Some(Extent { start, end })
    }

    // Returns the rules of the definition that a call resolves to, if the call is expanded and the
    // definition has no error.
    fn rules_of(self, step: &CallStep) -> Option<&'s DeclarativeMacro> {
        if step.expansion.is_none() {
            return None;
        }
        self.session.expander.rules_at(step.definition?)
    }

    // Returns the rule of a definition, by the span of the definition.
    fn rule_place(self, step: &CallStep, rule: usize) -> Option<AppliedRule> {
        let name = self.session.expander.name_span_at(step.definition?)?;
        Some(AppliedRule {
            file: name.file as usize,
            name_start: self.extent(name)?.start,
            rule,
        })
    }

    // Adds what a rule does with a call.
    fn add_applied(
        self,
        step: &CallStep,
        rules: &DeclarativeMacro,
        rule: usize,
        found: &mut ExpandedCalls,
    ) -> Result<(), AllocError>
        requires checked { IsChecked (macro_of rules.now) }
    {
        if let Some(applied) = self.rule_place(step, rule) {
            found.rules.push(applied)?;
        }
        if step.place.parent.is_some() {
            return Ok(());
        }
        add_argument(self, step, rules, rule, &mut found.tokens)
    }

    // Adds what the rules of a definition do with a call.
    fn add_call(
        self,
        step: &CallStep,
        rules: &DeclarativeMacro,
        found: &mut ExpandedCalls,
    ) -> Result<(), AllocError> {
        if rules.err().is_some() {
            return Ok(());
        }
        match rule_of(self, rules, step)? {
            Some(rule) => self.add_applied(step, rules, rule, found),
            None => Ok(()),
        }
    }

    // Adds what rules do with each call.
    fn add_calls(self, steps: &[CallStep], found: &mut ExpandedCalls) -> Result<(), AllocError> {
        for step in steps {
            if let Some(rules) = self.rules_of(step) {
                self.add_call(step, rules, found)?;
            }
        }
        Ok(())
    }

    // Whether a step is the call of a file that begins there.
    fn is_at(self, step: &CallStep, start: CallStart) -> bool {
        let is_in_file = step.place.parent.is_none() && step.start.file as usize == start.file;
        is_in_file
            && self
                .extent(step.start)
                .is_some_and(|it| it.start == start.byte)
    }

    // Returns what rules do with each call; with a `start`, where the tokens of the expansion of
    // the call are from that begins there.
    fn read(
        self,
        steps: &[CallStep],
        start: Option<CallStart>,
    ) -> Result<ExpandedCalls, AllocError> {
        let mut found = ExpandedCalls::new(self.alloc);
        match start {
            Some(start) => self.add_origins(steps, start, &mut found)?,
            None => self.add_calls(steps, &mut found)?,
        }
        Ok(found)
    }

    // Adds where the tokens of the expansion of the call are from that begins there.
    fn add_origins(
        self,
        steps: &[CallStep],
        start: CallStart,
        found: &mut ExpandedCalls,
    ) -> Result<(), AllocError> {
        match steps.iter().position(|step| self.is_at(step, start)) {
            Some(index) => add_expansion(self, steps, index, &mut found.origins),
            None => Ok(()),
        }
    }
}

/// Expands the calls of a session's own crates, and returns what rules do with them. With a `start`
/// it returns only where the tokens of the expansion of that call are from. The session must have
/// been opened with `options`. `AllocError` if out of memory.
pub fn expanded_calls(
    alloc: Global,
    options: &SessionOptions<'_>,
    session: &mut Session<'_>,
    start: Option<CallStart>,
) -> Result<ExpandedCalls, AllocError> {
    let steps = session.call_steps(alloc, options)?;
    let reader = CallReader {
        alloc,
        grammar: rust_rules(options.edition, &[]).with_dialect(options.dialect),
        session: &*session,
    };
    reader.read(steps.as_slice(), start)
}
