// References of macros and of variables, and their new names.
use crate::answers::View;
use crate::findings::Extent;
use crate::rule_variables::RuleVariable;
use crate::shapes::{change_of_file, range, text_edit};
use crate::tokens::is_name_text;
use mbe_protocol::positions::LineTable;
use serde_json::{Map, Value, json};
use std::alloc::{AllocError, Global};

/// The outcome of a request that may fail: a result, or why there is none.
pub type Checked = Result<Value, &'static str>;

// Returns a new name without a `$` at its front.
fn without_dollar(new: &str) -> &str {
    new.strip_prefix('$').unwrap_or(new)
}

// Returns edits that replace these parts by a name.
fn edits(
    alloc: Global,
    lines: &LineTable<'_>,
    sites: &[Extent],
    new: &str,
) -> Result<Vec<Value>, AllocError> {
    let mut edits = Vec::new(alloc);
    for site in sites {
        edits.push(text_edit(alloc, lines, *site, new)?)?;
    }
    Ok(edits)
}

impl View<'_> {
    // Adds the locations of these parts of file `number`.
    fn add_locations(
        self,
        number: usize,
        sites: &[Extent],
        locations: &mut Vec<Value>,
    ) -> Result<(), AllocError> {
        let alloc = self.writer.alloc;
        let lines = LineTable::of(alloc, self.found.text(number), self.writer.encoding)?;
        for site in sites {
            let uri = self.writer.uri(self.found, number)?;
            let at = range(alloc, &lines, *site)?;
            locations.push(json!(in alloc; {"uri": uri, "range": at})?)?;
        }
        Ok(())
    }

    // Adds where the macro of that name is used in file `number`, and defined if `has_definition`
    // is set.
    fn add_macro_references(
        self,
        number: usize,
        name: &str,
        has_definition: bool,
        locations: &mut Vec<Value>,
    ) -> Result<(), AllocError> {
        let mut sites = Vec::new(self.writer.alloc);
        self.found
            .add_names(number, name, has_definition, &mut sites)?;
        if sites.is_empty() {
            return Ok(());
        }
        self.add_locations(number, sites.as_slice(), locations)
    }

    /// Answers where the variable or the macro is used that a cursor at a byte is on, and where it
    /// is bound or defined if `has_definition` is set. `AllocError` if out of memory.
    pub fn references(self, byte: usize, has_definition: bool) -> Result<Value, AllocError> {
        let mut locations = Vec::new(self.writer.alloc);
        if let Some(variable) = self.variable_at(byte) {
            let sites = variable.sites(self.writer.alloc, !has_definition)?;
            self.add_locations(self.found.number, sites.as_slice(), &mut locations)?;
        } else if let Some((name, _)) = self.macro_at(byte) {
            for number in 0..self.found.files.len() {
                self.add_macro_references(number, name, has_definition, &mut locations)?;
            }
        }
        Ok(Value::Array(locations))
    }

    // Returns the part that a new name replaces, with its text.
    fn renamed_part(self, at: Extent, name: &str) -> Result<Value, AllocError> {
        let alloc = self.writer.alloc;
        let at = range(alloc, &self.lines()?, at)?;
        json!(in alloc; {"range": at, "placeholder": name})
    }

    /// Answers whether the variable or the macro can be renamed that a cursor at a byte is on. The
    /// result is null if it is on neither. `AllocError` if out of memory.
    pub fn rename_check(self, byte: usize) -> Result<Checked, AllocError> {
        if let Some(variable) = self.variable_at(byte) {
            return match variable.obstacle() {
                Some(why) => Ok(Err(why)),
                None => Ok(Ok(self.renamed_part(variable.at, variable.name)?)),
            };
        }
        let Some((name, at)) = self.macro_at(byte) else {
            return Ok(Ok(Value::Null));
        };
        match self.found.macro_obstacle(name) {
            Some(why) => Ok(Err(why)),
            None => Ok(Ok(self.renamed_part(at, name)?)),
        }
    }

    // Returns the change that renames a variable of a rule of the document.
    fn variable_renamed(self, variable: RuleVariable<'_>, new: &str) -> Result<Value, AllocError> {
        let alloc = self.writer.alloc;
        let sites = variable.sites(alloc, false)?;
        let found = edits(alloc, &self.lines()?, sites.as_slice(), new)?;
        change_of_file(alloc, self.document.uri.clone()?, found)
    }

    // Answers the change that renames a variable of a rule of the document, if it can be renamed.
    fn rename_variable(self, variable: RuleVariable<'_>, new: &str) -> Result<Checked, AllocError> {
        if let Some(why) = variable.obstacle() {
            return Ok(Err(why));
        }
        if !is_name_text(new) || matches!(new, "_" | "crate") {
            return Ok(Err("a variable can't have that name"));
        }
        match variable.obstacle_to(new) {
            Some(why) => Ok(Err(why)),
            None => Ok(Ok(self.variable_renamed(variable, new)?)),
        }
    }

    // Adds the edits that rename the macro of that name in file `number`.
    fn add_renamed(
        self,
        number: usize,
        name: &str,
        new: &str,
        changes: &mut Map<String, Value>,
    ) -> Result<(), AllocError> {
        let alloc = self.writer.alloc;
        let mut sites = Vec::new(alloc);
        self.found.add_names(number, name, true, &mut sites)?;
        if sites.is_empty() {
            return Ok(());
        }
        let lines = LineTable::of(alloc, self.found.text(number), self.writer.encoding)?;
        let found = edits(alloc, &lines, sites.as_slice(), new)?;
        changes.insert(self.writer.uri(self.found, number)?, Value::Array(found))?;
        Ok(())
    }

    // Returns the change that renames the macro of that name.
    fn macro_renamed(self, name: &str, new: &str) -> Result<Value, AllocError> {
        let mut changes = Map::new(self.writer.alloc);
        for number in 0..self.found.files.len() {
            self.add_renamed(number, name, new, &mut changes)?;
        }
        let changes = Value::Object(changes);
        json!(in self.writer.alloc; {"changes": changes})
    }

    /// Answers the change that renames the variable or the macro that a cursor at a byte is on, or
    /// why there is none. `AllocError` if out of memory.
    pub fn rename(self, byte: usize, new: &str) -> Result<Checked, AllocError> {
        if let Some(variable) = self.variable_at(byte) {
            return self.rename_variable(variable, without_dollar(new));
        }
        let Some((name, _)) = self.macro_at(byte) else {
            return Ok(Err("there is no macro and no variable of a rule here"));
        };
        if let Some(why) = self.found.macro_obstacle(name) {
            return Ok(Err(why));
        }
        match self.found.obstacle_to_macro(new) {
            Some(why) => Ok(Err(why)),
            None => Ok(Ok(self.macro_renamed(name, new)?)),
        }
    }
}
