// Records the calls of crates: each call that is met, with its expansion.
ghost use Rattle.std.specs.Prelude.{◌≡◌};

use crate::crate_expander::{crate_tree, is_followed};
use crate::file_expander::FileExpander;
use crate::file_expander::call_steps::CallStep;
use crate::notes::Note;
use crate::session::Session;
use crate::session_options::SessionOptions;
use crate::source_files::SourceFile;
use std::alloc::{AllocError, Global};

// Adds the calls of the crate whose root is file `number`.
fn add_steps(
    alloc: Global,
    with_modules: bool,
    notes: &mut Vec<Note>,
    expander: &mut FileExpander<'_>,
    files: &[SourceFile<'_>],
    number: usize,
    steps: &mut Vec<CallStep>,
) -> Result<(), AllocError> {
    let Some(root) = files.get(number) else {
        return Ok(());
    };
    let Some(tree) = &root.tree else {
        return Ok(());
    };
    if !is_followed(with_modules, root.name) {
        return expander.add_call_steps(steps, tree.iter().remaining());
    }
    let tree = crate_tree(alloc, notes, files, number, root.name, tree)?;
    expander.add_call_steps(steps, tree.iter().remaining())
}

impl Session<'_> {
    /// Expands the calls of the session's own crates. Returns each call that is met, in the order
    /// of their expansion. Notes what is wrong. `options` must be the options that the session was
    /// opened with. The files are unchanged. `AllocError` if out of memory.
    pub fn call_steps(
        &mut self,
        alloc: Global,
        options: &SessionOptions<'_>,
    ) -> Result<Vec<CallStep>, AllocError>
        ensures files { self.new.files ≡ self.old.files }
    {
        let mut steps = Vec::new(alloc);
        let (notes, expander, files) = (&mut self.notes, &mut self.expander, &self.files);
        for number in 0..options.names.len() {
            let (with_modules, files) = (options.with_modules, files.as_slice());
            add_steps(
                alloc,
                with_modules,
                notes,
                expander,
                files,
                number,
                &mut steps,
            )?;
        }
        Ok(steps)
    }
}
