// Links re-exports: a crate that exports a macro of another crate offers the macro, too.
ghost use Rattle.std.specs.Prelude.{◌≡◌, IfOk, OnOk, map, option_map};
ghost use Rattle.std.specs.String.{string_bytes};
ghost use Rattle.mbe_cfg.specs.CrateExports.ExportViews.{export_of, exported_macros_of};
ghost use Rattle.mbe_session.specs.Linker as spec;
ghost use Rattle.mbe_session.specs.Scopes.{definition_at};
ghost use Rattle.mbe_session.specs.SessionViews.{definition_of, scope_of};

use crate::scope::{CrateDefinitions, CrateFilter, Definition, Scope, Visibility};
use mbe_cfg::exports::export::{Export, ExportedMacros};
use std::alloc::{AllocError, Allocator};

impl<A: Allocator + Copy> Definition<A> {
    // Copies the definition by another name.
    fn renamed(&self, alloc: A, name: &str) -> Result<Definition<A>, AllocError>
        ensures { IfOk result (λ d. definition_of d
            ≡ record (definition_of self.now) { name = name.now }) }
    {
        let mut contexts = Vec::new(alloc);
        contexts.extend_from_slice(self.contexts.as_slice())?;
        Ok(Definition {
            parent: String::from_str(alloc, self.parent.as_str())?,
            name: String::from_str(alloc, name)?,
            rules: self.rules.try_clone(alloc)?,
            contexts,
            visibility: self.visibility,
            place: self.place,
        })
    }
}

impl<A: Allocator + Copy> Scope<A> {
    // Returns the number of the definition that the crate `of` offers by that name.
    fn offered(&self, of: &str, name: &str) -> Option<usize>
        ensures { result ≡ spec.offered (scope_of self.now) of.now name.now }
    {
        self.last_found(name, Visibility::Crates, CrateFilter::Crate(of))
    }

    // Adds the definition of that number to the definitions of the crate `by`.
    fn add_reexport(&mut self, by: &str, number: usize) -> Result<(), AllocError>
        ensures shared { OnOk result (scope_of self.new
            ≡ spec.with_reexport by.now number (scope_of self.old)) }
        ensures edition { OnOk result (self.new.edition ≡ self.old.edition) }
    {
        self.crates.push(CrateDefinitions {
            name: String::from_str(self.alloc, by)?,
            first: number,
            count: 1,
        })?;
        Ok(())
    }

    // Adds a copy of the definition of that number, by another name.
    fn copy(&mut self, number: usize, name: &str) -> Result<(), AllocError>
        ensures copied { OnOk result (scope_of self.new ≡ spec.copied name.now
            (definition_at (scope_of self.old) number) (scope_of self.old)) }
        ensures edition { OnOk result (self.new.edition ≡ self.old.edition) }
    {
        let Some(found) = self.definition(number) else {
            return Ok(());
        };
        let copy = found.renamed(self.alloc, name)?;
        self.definitions.push(copy)?;
        Ok(())
    }

    // Adds the definition of that number to the definitions of the crate `by`, under another name.
    fn add_renamed_reexport(
        &mut self,
        by: &str,
        name: &str,
        number: usize,
    ) -> Result<(), AllocError>
        ensures shared { OnOk result (scope_of self.new
            ≡ spec.with_renamed_reexport by.now name.now number (scope_of self.old)) }
        ensures edition { OnOk result (self.new.edition ≡ self.old.edition) }
    {
        let first = self.count();
        self.copy(number, name)?;
        self.close_crate(by, first)
    }

    // Adds to the crate `by`, as `name`, the definition that the crate `from` offers as `item`.
    // Nothing changes if `by` already offers one of that name.
    fn link_one(&mut self, by: &str, from: &str, item: &str, name: &str) -> Result<(), AllocError>
        ensures linked { OnOk result (scope_of self.new
            ≡ spec.with_one by.now from.now item.now name.now (scope_of self.old)) }
        ensures edition { OnOk result (self.new.edition ≡ self.old.edition) }
    {
        if self.offered(by, name).is_some() {
            return Ok(());
        }
        let Some(number) = self.offered(from, item) else {
            return Ok(());
        };
        if item == name {
            self.add_reexport(by, number)
        } else {
            self.add_renamed_reexport(by, name, number)
        }
    }

    // Returns the name of the definition of that number.
    fn name_at(&self, number: usize) -> Result<Option<String<A>>, AllocError>
        ensures { IfOk result (λ n. option_map string_bytes n
            ≡ spec.name_at (scope_of self.now) number) }
    {
        match self.definition(number) {
            Some(found) => Ok(Some(String::from_str(self.alloc, found.name.as_str())?)),
            None => Ok(None),
        }
    }

    // Adds to the crate `by` the macro that the crate `from` offers by the name of that definition,
    // if the definition is one of its own.
    fn link_number(&mut self, by: &str, from: &str, number: usize) -> Result<(), AllocError>
        ensures linked { OnOk result (scope_of self.new
            ≡ spec.with_number by.now from.now number (scope_of self.old)) }
        ensures edition { OnOk result (self.new.edition ≡ self.old.edition) }
    {
        if !self.is_in_crate(from, number) {
            return Ok(());
        }
        match self.name_at(number)? {
            Some(name) => self.link_one(by, from, name.as_str(), name.as_str()),
            None => Ok(()),
        }
    }

    // Adds to the crate `by` all that the crate `from` offers.
    fn link_all(&mut self, by: &str, from: &str) -> Result<(), AllocError>
        ensures linked { OnOk result (scope_of self.new
            ≡ spec.with_all by.now from.now (scope_of self.old)) }
        ensures edition { OnOk result (self.new.edition ≡ self.old.edition) }
    {
        for number in 0..self.count() {
            self.link_number(by, from, number)?;
        }
        Ok(())
    }

    // Applies one export: a glob if `is_all`, else one of a single macro. Other exports change
    // nothing.
    fn link_export(&mut self, is_all: bool, export: &Export<A>) -> Result<(), AllocError>
        ensures linked { OnOk result (let export = export_of export.now in scope_of self.new
            ≡ spec.exported is_all export.by export.from export.exported_macros
            (scope_of self.old)) }
        ensures edition { OnOk result (self.new.edition ≡ self.old.edition) }
    {
        let (by, from) = (export.by.as_str(), export.from.as_str());
        match &export.exported_macros {
            ExportedMacros::All => {
                if is_all {
                    self.link_all(by, from)
                } else {
                    Ok(())
                }
            }
            ExportedMacros::One(item, name) => {
                if is_all {
                    Ok(())
                } else {
                    self.link_one(by, from, item.as_str(), name.as_str())
                }
            }
        }
    }

    // Applies the exports one after another.
    fn link_exports(&mut self, is_all: bool, exports: &[Export<A>]) -> Result<(), AllocError>
        ensures linked { OnOk result (scope_of self.new
            ≡ spec.all_exported is_all (map export_of exports.now) (scope_of self.old)) }
        ensures edition { OnOk result (self.new.edition ≡ self.old.edition) }
    {
        for export in exports {
            self.link_export(is_all, export)?;
        }
        Ok(())
    }

    /// Gives crates the macros that they re-export. It takes `rounds` rounds, because a re-exported
    /// macro may be re-exported again. In each round exports of single macros come before globs.
    /// `AllocError` if out of memory.
    pub fn link(&mut self, exports: &[Export<A>], rounds: usize) -> Result<(), AllocError>
        ensures linked { OnOk result (scope_of self.new
            ≡ spec.linked rounds (map export_of exports.now) (scope_of self.old)) }
        ensures edition { OnOk result (self.new.edition ≡ self.old.edition) }
    {
        let mut left = rounds;
        'rounds: while left > 0 {
            left -= 1;
            self.link_exports(false, exports)?;
            self.link_exports(true, exports)?;
        }
        Ok(())
    }
}
