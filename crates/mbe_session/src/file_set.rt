// The files of a session: their texts in memory, and the crate of each file.
//
// A caller adds the root of each crate, and then the files of its modules. `modules` lists the
// paths that the file of a module may have. The caller takes the texts from a disk, or from an
// editor.
ghost use Rattle.std.specs.Prelude.{◌≡◌, ◌++◌, ◌∷◌, [], length, map, OnOk};
ghost use Rattle.std.specs.List.{slice_get};
ghost use Rattle.std.specs.String.{string_bytes};
ghost use Rattle.mbe_session.specs.FileSets.{is_local};
ghost use Rattle.mbe_session.specs.FileViews.{text_of};

use crate::crate_expander::is_followed;
use crate::module_files::modules_in;
use crate::session::NamedText;
use crate::session_options::SessionOptions;
use mbe_cfg::crates::module_inliner::UnresolvedFile;
use mbe_cfg::files::module_dir::ModuleDir;
use mbe_grammar::rust::rust_rules::rust_rules;
use std::alloc::{AllocError, Global};

/// The texts of files, each with the root of its crate. A file is named by its path.
#[derive(Drop)]
pub struct FileSet {
    pub texts: Vec<NamedText>,
    /// For each file, the number of the root from which it was reached.
    pub roots: Vec<usize>,
    // For each file, where its modules are looked for; `None` if they are not followed.
    places: Vec<Option<ModuleDir>>,
}

impl FileSet {
    /// Returns the set without a file.
    pub fn new(alloc: Global) -> FileSet
        ensures texts { result.texts.items ≡ [] }
        ensures roots { result.roots.items ≡ [] }
    {
        FileSet {
            texts: Vec::new(alloc),
            roots: Vec::new(alloc),
            places: Vec::new(alloc),
        }
    }

    // Adds a file. If memory runs out, the set may only be dropped.
    fn add(
        &mut self,
        alloc: Global,
        root: usize,
        place: Option<ModuleDir>,
        path: &str,
        text: String,
    ) -> Result<(), AllocError>
        ensures texts { OnOk result (map text_of self.new.texts.items
            ≡ map text_of self.old.texts.items
            ++ (record { path = path.now; text = string_bytes text; calls = [] }) ∷ []) }
        ensures roots { OnOk result (self.new.roots.items ≡ self.old.roots.items ++ root ∷ []) }
    {
        self.roots.push(root)?;
        self.places.push(place)?;
        self.texts.push(NamedText {
            name: String::from_str(alloc, path)?,
            text,
            calls: Vec::new(alloc),
        })?;
        Ok(())
    }

    /// Adds the root of a crate. First come the roots of the session's own crates, in the order of
    /// the options' `names`. Then come the roots of the external crates, in the order of the
    /// options' `externs`. `AllocError` if out of memory; then the set may only be dropped.
    pub fn add_root(
        &mut self,
        alloc: Global,
        options: &SessionOptions<'_>,
        path: &str,
        text: String,
    ) -> Result<(), AllocError>
        ensures texts { OnOk result (map text_of self.new.texts.items
            ≡ map text_of self.old.texts.items
            ++ (record { path = path.now; text = string_bytes text; calls = [] }) ∷ []) }
        ensures roots { OnOk result (self.new.roots.items
            ≡ self.old.roots.items ++ length self.old.texts.items ∷ []) }
    {
        let place = if is_followed(options.with_modules, path) {
            Some(ModuleDir::in_file(alloc, path, None)?)
        } else {
            None
        };
        let root = self.texts.len();
        self.add(alloc, root, place, path, text)
    }

    /// Adds the file of a module, or of an `include!`, in the crate of that root. `name` is the
    /// module's name if its own modules are looked for in the folder of that name. `AllocError` if
    /// out of memory; then the set may only be dropped.
    pub fn add_module(
        &mut self,
        alloc: Global,
        root: usize,
        path: &str,
        name: Option<&str>,
        text: String,
    ) -> Result<(), AllocError>
        ensures texts { OnOk result (map text_of self.new.texts.items
            ≡ map text_of self.old.texts.items
            ++ (record { path = path.now; text = string_bytes text; calls = [] }) ∷ []) }
        ensures roots { OnOk result (self.new.roots.items ≡ self.old.roots.items ++ root ∷ []) }
    {
        let place = ModuleDir::in_file(alloc, path, name)?;
        self.add(alloc, root, Some(place), path, text)
    }

    /// Returns the number of the file with that path.
    pub fn number_of(&self, path: &str) -> Option<usize> {
        self.texts
            .iter()
            .position(|named| named.name.as_str() == path)
    }

    /// Replaces the text of file `number`, such as by the text of an editor that isn't saved.
    /// Returns the old text; `None` if there is no such file. A session reads the set when it is
    /// opened, so a new session sees the text. The modules of the text may have files that the set
    /// lacks.
    pub fn replace_text(&mut self, number: usize, text: String) -> Option<String> {
        let named = self.texts.get_mut(number)?;
        Some(std::mem::replace(&mut named.text, text))
    }

    /// Whether file `number` is of one of the session's own crates, and not of an external crate.
    /// `root_count` is the number of the own crates.
    pub fn is_local(&self, number: usize, root_count: usize) -> bool
        ensures { result ≡ is_local root_count (slice_get self.now.roots.items number) }
    {
        match self.roots.get(number) {
            Some(root) => *root < root_count,
            None => false,
        }
    }

    /// Returns the modules and `include!`s of file `number` whose content is in other files, with
    /// the paths that it may be at. They include those that its calls expand to, if the texts of
    /// the expansions are beside the file's text. `AllocError` if out of memory.
    pub fn modules(
        &self,
        alloc: Global,
        options: &SessionOptions<'_>,
        number: usize,
    ) -> Result<Vec<UnresolvedFile>, AllocError> {
        match (self.texts.get(number), self.places.get(number)) {
            (Some(named), Some(Some(place))) if may_have_modules(named) => {
                let grammar = rust_rules(options.edition, &[]);
                let source_settings = options.file_settings(grammar, &self.roots, number);
                let (text, calls) = (named.text.as_str(), named.calls.as_slice());
                modules_in(alloc, &source_settings, place, text, calls)
            }
            _ => Ok(Vec::new(alloc)),
        }
    }

    /// Returns the path of file `number`, and for a module's file the path of its root.
    pub fn path(&self, number: usize) -> Option<(&str, Option<&str>)> {
        let path = self.texts.get(number)?.name.as_str();
        let root = self.roots.get(number).copied()?;
        if root == number {
            return Some((path, None));
        }
        Some((path, Some(self.texts.get(root)?.name.as_str())))
    }
}

// Whether a text has a word by which it may have modules or `include!`s.
fn may_have_modules(named: &NamedText) -> bool {
    named.text.contains("mod") || named.text.contains("include") || !named.calls.is_empty()
}
