// What a page shows: the steps of a file, and the macros that they call.
use mbe::DeclarativeMacro;
use mbe_grammar::rust::rust_rules::rust_rules;
use mbe_grammar::tables::peg_table::RuleTable;
use mbe_markup::railroad::{Drawing, draw_pattern};
use mbe_markup::rule_sites::{RuleSite, rule_sites};
use mbe_session::file_expander::call_steps::{CallState, CallStep};
use mbe_session::session::Session;
use mbe_session::session_options::SessionOptions;
use mbe_session::source_files::SourceFile;
use mbe_tt::span::Span;
use std::alloc::{AllocError, Global};

/// The greatest depth of nested cards. A deeper call has its card in a list of its own.
pub const CARDS: usize = 12;

/// A macro that a step calls.
#[derive(Drop)]
pub struct PageMacro<'s> {
    /// The number of its definition.
    pub number: usize,
    pub name: &'s str,
    pub rules: &'s DeclarativeMacro,
    /// The file and the span of its name.
    pub name_span: Option<Span>,
    /// The pattern of each rule.
    pub drawings: Vec<Drawing>,
    /// The template of each rule in the file of the definition; empty if they aren't found.
    pub sites: Vec<RuleSite<'s>>,
}

/// What a page shows.
#[derive(Drop)]
pub struct PageData<'s> {
    pub session: &'s Session<'s>,
    pub grammar: RuleTable<'s>,
    pub steps: &'s [CallStep],
    pub file: &'s SourceFile<'s>,
    pub file_number: usize,
    /// The number of steps around each step; `None` if the step isn't on this page.
    pub depths: Vec<Option<usize>>,
    pub macros: Vec<PageMacro<'s>>,
}

// Whether a step begins in the file of that number; in any file if there is no number.
fn is_in(step: &CallStep, file_number: Option<usize>) -> bool {
    match file_number {
        Some(number) => step.start.file as usize == number,
        None => true,
    }
}

// Returns the depth of a step, by the depths of the steps before it.
fn depth_of(
    step: &CallStep,
    depths: &[Option<usize>],
    file_number: Option<usize>,
) -> Option<usize> {
    match step.place.parent {
        None if is_in(step, file_number) => Some(0),
        None => None,
        Some(parent) => {
            let depth = depths.get(parent).copied().unwrap_or(None)?;
            Some(depth.saturating_add(1))
        }
    }
}

fn depths_of(
    alloc: Global,
    steps: &[CallStep],
    file_number: Option<usize>,
) -> Result<Vec<Option<usize>>, AllocError> {
    let mut depths: Vec<Option<usize>> = Vec::new(alloc);
    for step in steps {
        let depth = depth_of(step, depths.as_slice(), file_number);
        depths.push(depth)?;
    }
    Ok(depths)
}

// Returns the templates of a definition, if each rule has one.
fn sites_of<'s>(
    alloc: Global,
    session: &'s Session<'_>,
    name_span: Option<Span>,
    rule_count: usize,
) -> Result<Vec<RuleSite<'s>>, AllocError> {
    if let Some(span) = name_span
        && let Some(file) = session.files.get(span.file as usize)
        && let Some(tree) = &file.tree
    {
        let sites = rule_sites(alloc, tree.iter().remaining(), span)?;
        if sites.len() == rule_count {
            return Ok(sites);
        }
    }
    Ok(Vec::new(alloc))
}

fn drawings_of(alloc: Global, rules: &DeclarativeMacro) -> Result<Vec<Drawing>, AllocError> {
    let mut drawings = Vec::new(alloc);
    for index in 0..rules.num_rules() {
        drawings.push(draw_pattern(alloc, rules.pattern(index), &[])?)?;
    }
    Ok(drawings)
}

// Returns the macro that a step calls.
fn page_macro<'s>(
    alloc: Global,
    session: &'s Session<'_>,
    step: &'s CallStep,
) -> Result<Option<PageMacro<'s>>, AllocError> {
    let Some(number) = step.definition else {
        return Ok(None);
    };
    let Some(rules) = session.expander.rules_at(number) else {
        return Ok(None);
    };
    let name_span = session.expander.name_span_at(number);
    Ok(Some(PageMacro {
        number,
        name: step.name.as_str(),
        rules,
        name_span,
        drawings: drawings_of(alloc, rules)?,
        sites: sites_of(alloc, session, name_span, rules.num_rules())?,
    }))
}

fn macros_of<'s>(
    alloc: Global,
    session: &'s Session<'_>,
    steps: &'s [CallStep],
    depths: &[Option<usize>],
) -> Result<Vec<PageMacro<'s>>, AllocError> {
    let mut macros: Vec<PageMacro<'s>> = Vec::new(alloc);
    for (step, depth) in steps.iter().zip(depths.iter()) {
        if depth.is_some() && macro_in(macros.as_slice(), step).is_none() {
            add_macro(alloc, session, step, &mut macros)?;
        }
    }
    Ok(macros)
}

// Returns the macro that a step calls.
fn macro_in<'m, 's>(macros: &'m [PageMacro<'s>], step: &CallStep) -> Option<&'m PageMacro<'s>> {
    macros
        .iter()
        .find(|known| Some(known.number) == step.definition)
}

// Adds the macro that a step calls.
fn add_macro<'s>(
    alloc: Global,
    session: &'s Session<'_>,
    step: &'s CallStep,
    macros: &mut Vec<PageMacro<'s>>,
) -> Result<(), AllocError> {
    if let Some(found) = page_macro(alloc, session, step)? {
        macros.push(found)?;
    }
    Ok(())
}

/// Returns what the page of a file shows. `None` if there is no such file. `AllocError` if out of
/// memory.
pub fn page_data<'s>(
    alloc: Global,
    options: &SessionOptions<'_>,
    session: &'s Session<'_>,
    steps: &'s [CallStep],
    file_number: usize,
) -> Result<Option<PageData<'s>>, AllocError> {
    let depths = depths_of(alloc, steps, Some(file_number))?;
    data_of(alloc, options, session, steps, file_number, depths)
}

/// Returns what the pages of all files show. `None` if there is no file. `AllocError` if out of
/// memory.
pub fn whole_data<'s>(
    alloc: Global,
    options: &SessionOptions<'_>,
    session: &'s Session<'_>,
    steps: &'s [CallStep],
) -> Result<Option<PageData<'s>>, AllocError> {
    let depths = depths_of(alloc, steps, None)?;
    data_of(alloc, options, session, steps, 0, depths)
}

// Returns what a page shows of the steps that have a depth.
fn data_of<'s>(
    alloc: Global,
    options: &SessionOptions<'_>,
    session: &'s Session<'_>,
    steps: &'s [CallStep],
    file_number: usize,
    depths: Vec<Option<usize>>,
) -> Result<Option<PageData<'s>>, AllocError> {
    let Some(file) = session.files.get(file_number) else {
        return Ok(None);
    };
    let macros = macros_of(alloc, session, steps, depths.as_slice())?;
    Ok(Some(PageData {
        session,
        grammar: rust_rules(options.edition, &[]).with_dialect(options.dialect),
        steps,
        file,
        file_number,
        depths,
        macros,
    }))
}

impl<'s> PageData<'s> {
    /// Returns the macro that a step calls.
    pub fn macro_of(&self, step: &CallStep) -> Option<&PageMacro<'s>> {
        macro_in(self.macros.as_slice(), step)
    }

    /// Returns the text that spans of a file refer to. It is empty if there is no such file.
    pub fn text_of(&self, file: u32) -> &'s str {
        match self.session.files.get(file as usize) {
            Some(file) => file.lines.text.as_str(),
            None => "",
        }
    }

    /// Returns the byte of a file for a byte of the text that its spans refer to.
    pub fn place(&self, file: u32, at: u32) -> usize {
        match self.session.files.get(file as usize) {
            Some(file) => file.lines.place(at as usize),
            None => at as usize,
        }
    }

    /// Returns the depth of the step of that index; `None` if it isn't on the page.
    pub fn depth(&self, index: usize) -> Option<usize> {
        self.depths.get(index).copied().unwrap_or(None)
    }

    /// Returns the indices of the steps in the expansion of the step `parent`, or of the calls of
    /// the file, in their order. `AllocError` if out of memory.
    pub fn children(&self, alloc: Global, parent: Option<usize>) -> Result<Vec<usize>, AllocError> {
        let mut found = Vec::new(alloc);
        let first = match parent {
            Some(parent) => parent.saturating_add(1),
            None => 0,
        };
        for (index, step) in self.steps.iter().enumerate().skip(first) {
            if !self.is_inside(parent, index) {
                return Ok(found);
            }
            if self.depth(index).is_some() && step.place.parent == parent {
                found.push(index)?;
            }
        }
        Ok(found)
    }

    // Whether a step after the step `parent` is in its expansion. Each step is in the file.
    fn is_inside(&self, parent: Option<usize>, index: usize) -> bool {
        let Some(parent) = parent else {
            return true;
        };
        match (self.depth(parent), self.depth(index)) {
            (Some(outer), Some(depth)) => outer < depth,
            (None, _) | (_, None) => false,
        }
    }

    /// Returns the syntax contexts of the template's tokens in the expansion of a step.
    pub fn contexts(&self, index: usize) -> (u32, u32) {
        match self.steps.get(index) {
            Some(step) => step.contexts,
            None => (0, 0),
        }
    }

    /// Counts the steps of the page with that state.
    pub fn count(&self, state: CallState) -> usize {
        let mut count = 0usize;
        for (step, depth) in self.steps.iter().zip(self.depths.iter()) {
            if depth.is_some() && step.state == state {
                count = count.saturating_add(1);
            }
        }
        count
    }
}
