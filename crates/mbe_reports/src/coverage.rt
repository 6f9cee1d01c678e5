// How many calls each rule of the macros of a run expanded.
use crate::definitions::{definitions_in, rule_starts};
use crate::rule_uses::{RuleUse, count_of, rule_uses};
use mbe_rewriter::macro_items::MacroDefinition;
use mbe_session::file_expander::call_steps::CallStep;
use mbe_session::file_set::FileSet;
use mbe_session::session::Session;
use mbe_session::session_options::SessionOptions;
use mbe_session::source_files::SourceFile;
use std::alloc::{AllocError, Global};

/// A rule of a macro.
#[derive(Drop)]
pub struct RuleCoverage {
    /// Where the rule begins. Both count from 1, and a column counts characters.
    pub line: usize,
    pub column: usize,
    /// How many calls the rule expanded.
    pub count: usize,
}

/// A macro that a file defines.
#[derive(Drop)]
pub struct MacroCoverage {
    pub name: String,
    /// The byte at which the name begins.
    pub start: u32,
    /// Where the name is.
    pub line: usize,
    pub column: usize,
    pub rules: Vec<RuleCoverage>,
}

/// The macros that a file defines, in the order of the text.
#[derive(Drop)]
pub struct FileCoverage {
    pub name: String,
    /// Whether the file is of a crate that the run expands, and not only of an external crate.
    pub is_own: bool,
    pub macros: Vec<MacroCoverage>,
}

/// The macros that a run meets, by their files. Reports show those of its own crates.
#[derive(Drop)]
pub struct Coverage {
    pub files: Vec<FileCoverage>,
}

/// How many rules and macros there are, and how many of them are used. A macro is used if one of
/// its rules is.
#[derive(Clone, Copy, Drop)]
pub struct CoverageTotals {
    pub rules: usize,
    pub used_rules: usize,
    pub macros: usize,
    pub used_macros: usize,
}

// A macro that a session defines: the file and the first byte of its name, and the number of its
// rules.
#[derive(Clone, Copy, Drop)]
struct KnownMacro {
    file: u32,
    start: u32,
    rule_count: usize,
}

// The macros of a session, and the rules that expand its calls.
#[derive(Clone, Copy, Drop)]
struct SessionUses<'u> {
    macros: &'u [KnownMacro],
    uses: &'u [RuleUse],
}

impl SessionUses<'_> {
    // Whether the session has the macro whose name is there, with so many rules.
    fn is_known(self, file: u32, start: u32, rule_count: usize) -> bool {
        self.macros.iter().any(|one| {
            one.file == file && one.start == start && one.rule_count == rule_count
        })
    }
}

// Returns the macros that a session defines, in the order of their numbers. Those that are refused
// are left out.
fn known_macros(alloc: Global, session: &Session<'_>) -> Result<Vec<KnownMacro>, AllocError> {
    let mut known = Vec::new(alloc);
    for number in 0..usize::MAX {
        let Some(rules) = session.expander.rules_at(number) else {
            break;
        };
        if rules.err().is_none()
            && let Some(name) = session.expander.name_span_at(number)
        {
            known.push(KnownMacro {
                file: name.file,
                start: name.start,
                rule_count: rules.num_rules(),
            })?;
        }
    }
    Ok(known)
}

impl RuleCoverage {
    // Returns a rule that begins at that byte of a file, and isn't used.
    fn unused(file: &SourceFile<'_>, start: u32) -> RuleCoverage {
        let place = file.lines.location_of(start as usize);
        RuleCoverage {
            line: place.line,
            column: place.column,
            count: 0,
        }
    }
}

// Returns the rules that begin at these bytes of a file.
fn unused_rules(
    alloc: Global,
    file: &SourceFile<'_>,
    starts: &[u32],
) -> Result<Vec<RuleCoverage>, AllocError> {
    let mut rules = Vec::new(alloc);
    for start in starts {
        rules.push(RuleCoverage::unused(file, *start))?;
    }
    Ok(rules)
}

impl MacroCoverage {
    // Returns a macro without a used rule. Its rules begin at these bytes of the file.
    fn unused(
        alloc: Global,
        file: &SourceFile<'_>,
        defined: MacroDefinition<'_>,
        starts: &[u32],
    ) -> Result<MacroCoverage, AllocError> {
        let start = defined.name.span.start;
        let place = file.lines.location_of(start as usize);
        Ok(MacroCoverage {
            rules: unused_rules(alloc, file, starts)?,
            name: String::from_str(alloc, defined.name.sym.as_str())?,
            start,
            line: place.line,
            column: place.column,
        })
    }

    // Adds the uses of each rule, in file `file` of their session.
    fn add_uses(&mut self, file: u32, uses: &[RuleUse]) {
        let start = self.start;
        for (index, rule) in self.rules.iter_mut().enumerate() {
            let count = count_of(uses, file, start, index);
            rule.count = rule.count.saturating_add(count);
        }
    }

    /// Returns how many of the rules are used.
    pub fn used_rules(&self) -> usize {
        self.rules.iter().filter(|rule| rule.count > 0).count()
    }
}

impl FileCoverage {
    // Returns the index of the macro whose name begins at that byte, or of the next one.
    fn index_of(&self, start: u32) -> usize {
        self.macros
            .as_slice()
            .partition_point(|one: &MacroCoverage| -> bool { one.start < start })
    }

    // Whether the macro of that index has its name at that byte.
    fn has_at(&self, index: usize, start: u32) -> bool {
        match self.macros.get(index) {
            Some(found) => found.start == start,
            None => false,
        }
    }

    // Adds a macro without a used rule, unless it is there. Returns its index.
    fn add_macro(
        &mut self,
        alloc: Global,
        file: &SourceFile<'_>,
        defined: MacroDefinition<'_>,
        starts: &[u32],
    ) -> Result<usize, AllocError> {
        let start = defined.name.span.start;
        let index = self.index_of(start).min(self.macros.len());
        if !self.has_at(index, start) {
            let added = MacroCoverage::unused(alloc, file, defined, starts)?;
            self.macros.insert(index, added)?;
        }
        Ok(index)
    }

    // Adds a definition and the uses of its rules. One that the session doesn't have is left out.
    fn add_definition(
        &mut self,
        alloc: Global,
        file: &SourceFile<'_>,
        defined: MacroDefinition<'_>,
        found: SessionUses<'_>,
    ) -> Result<(), AllocError> {
        let (number, start) = (defined.name.span.file, defined.name.span.start);
        let starts = rule_starts(alloc, defined)?;
        if !found.is_known(number, start, starts.len()) {
            return Ok(());
        }
        let index = self.add_macro(alloc, file, defined, starts.as_slice())?;
        if let Some(added) = self.macros.get_mut(index) {
            added.add_uses(number, found.uses);
        }
        Ok(())
    }

    // Adds definitions and the uses of their rules.
    fn add_definitions(
        &mut self,
        alloc: Global,
        file: &SourceFile<'_>,
        definitions: &[MacroDefinition<'_>],
        found: SessionUses<'_>,
    ) -> Result<(), AllocError> {
        for defined in definitions {
            self.add_definition(alloc, file, *defined, found)?;
        }
        Ok(())
    }
}

impl CoverageTotals {
    // Adds the macros of a file.
    fn add(&mut self, file: &FileCoverage) {
        for one in &file.macros {
            let used = one.used_rules();
            self.rules = self.rules.saturating_add(one.rules.len());
            self.used_rules = self.used_rules.saturating_add(used);
            self.macros = self.macros.saturating_add(1);
            self.used_macros = self.used_macros.saturating_add(usize::from(used > 0));
        }
    }
}

impl Coverage {
    /// Returns a coverage without files.
    pub fn new(alloc: Global) -> Coverage {
        Coverage {
            files: Vec::new(alloc),
        }
    }

    // Returns the index of the file of that name, which is added if it isn't there.
    fn add_name(&mut self, alloc: Global, name: &str) -> Result<usize, AllocError> {
        if let Some(index) = self
            .files
            .iter()
            .position(|file| file.name.as_str() == name)
        {
            return Ok(index);
        }
        let index = self.files.len();
        self.files.push(FileCoverage {
            name: String::from_str(alloc, name)?,
            is_own: false,
            macros: Vec::new(alloc),
        })?;
        Ok(index)
    }

    // Adds the definitions of a file. `is_own` says whether it is of a crate of the session's own.
    fn add_definitions(
        &mut self,
        alloc: Global,
        file: &SourceFile<'_>,
        is_own: bool,
        definitions: &[MacroDefinition<'_>],
        found: SessionUses<'_>,
    ) -> Result<(), AllocError> {
        let index = self.add_name(alloc, file.name)?;
        match self.files.get_mut(index) {
            Some(added) => {
                added.is_own |= is_own;
                added.add_definitions(alloc, file, definitions, found)
            }
            None => Ok(()),
        }
    }

    // Adds the macros of a file.
    fn add_file(
        &mut self,
        alloc: Global,
        file: &SourceFile<'_>,
        is_own: bool,
        found: SessionUses<'_>,
    ) -> Result<(), AllocError> {
        let Some(tree) = &file.tree else {
            return Ok(());
        };
        let definitions = definitions_in(alloc, tree.iter().remaining())?;
        self.add_definitions(alloc, file, is_own, definitions.as_slice(), found)
    }

    // Adds the macros of a session's files.
    fn add_files(
        &mut self,
        alloc: Global,
        root_count: usize,
        files: &FileSet,
        session: &Session<'_>,
        found: SessionUses<'_>,
    ) -> Result<(), AllocError> {
        for (number, file) in session.files.iter().enumerate() {
            let is_own = files.is_local(number, root_count);
            self.add_file(alloc, file, is_own, found)?;
        }
        Ok(())
    }

    /// Adds the macros of a session, and the calls that each rule expands in it. Counts of a file
    /// that an earlier session had add up, also if the file is of an external crate in one of them.
    ///
    /// `files` are those that the session was opened with, `options` its options, and `steps` what
    /// `Session::call_steps` returned. `AllocError` if out of memory.
    pub fn add_session(
        &mut self,
        alloc: Global,
        options: &SessionOptions<'_>,
        files: &FileSet,
        session: &Session<'_>,
        steps: &[CallStep],
    ) -> Result<(), AllocError> {
        let macros = known_macros(alloc, session)?;
        let uses = rule_uses(alloc, options, session, steps)?;
        let found = SessionUses {
            macros: macros.as_slice(),
            uses: uses.as_slice(),
        };
        self.add_files(alloc, options.names.len(), files, session, found)
    }

    /// Counts the rules and the macros of the run's own crates, and those that are used.
    pub fn totals(&self) -> CoverageTotals {
        let mut totals = CoverageTotals {
            rules: 0,
            used_rules: 0,
            macros: 0,
            used_macros: 0,
        };
        for file in &self.files {
            if file.is_own {
                totals.add(file);
            }
        }
        totals
    }
}
