// Reads the files of crates from the file system into a set of files.
//
// A file is known by its canonical path. So one that two paths lead to is read once, and a file
// that is reached from itself is found, by whatever path.
use crate::output_paths::is_below;
use mbe_cfg::crates::module_inliner::UnresolvedFile;
use mbe_cfg::files::module_dir::Candidates;
use mbe_session::file_set::FileSet;
use mbe_session::session_options::SessionOptions;
use std::alloc::{AllocError, Global};
use std::collections::BTreeMap;
use std::fs;
use std::io::{self, Read};
use std::rt::Files;

/// The limit of files that are searched for modules.
pub const MAX_FILES: usize = 65_536;

/// The limit of rounds in which calls are expanded to find modules.
pub const MAX_ROUNDS: usize = 64;

/// Reads the file `path`. A text of 2^32 bytes or more is an error.
pub fn file_text<R: Files + AllocGlobal>(rt: &R, path: &str) -> io::Result<String> {
    let text = io::read_to_string(rt.alloc(), fs::open(rt, path)?.take(1 << 32))?;
    if text.len() > u32::MAX as usize {
        return Err(io::Error::from(io::ErrorKind::FileTooLarge));
    }
    Ok(text)
}

/// Returns a note if there are files that weren't searched for modules. `AllocError` if out of
/// memory.
pub fn limit_notes(alloc: Global, files: &FileSet) -> Result<Vec<String>, AllocError> {
    let mut notes = Vec::new(alloc);
    if files.texts.len() > MAX_FILES {
        notes.push(format!(in alloc;
            "modules are looked for only in the first {MAX_FILES} files"
        )?)?;
    }
    Ok(notes)
}

/// Returns the note on the limit of rounds in which calls are expanded to find modules.
/// `AllocError` if out of memory.
pub fn rounds_note(alloc: Global) -> Result<String, AllocError> {
    format!(in alloc; "modules of calls are looked for in {MAX_ROUNDS} rounds only")
}

// Where a file of the set comes from.
#[derive(Drop)]
struct ReachedFile {
    // The canonical path, or the path itself if the file has none.
    whole: String,
    // The number of the file that names it; `None` for the root of a crate.
    parent: Option<usize>,
}

/// A file that may be added to the set: of a module, or of an `include!`.
#[derive(Clone, Copy, Drop)]
pub struct NamedFile<'n> {
    pub path: &'n str,
    /// The module's name if its own modules are looked for in the folder of that name.
    pub name: Option<&'n str>,
    /// The number of the file that names it.
    pub parent: usize,
}

/// Reads the files of crates into a set: the roots, and then the files of their modules.
#[derive(Drop)]
pub struct FileReader {
    pub files: FileSet,
    /// Texts of notes on files that aren't read.
    pub notes: Vec<String>,
    // The canonical paths of the folders that modules are read from; any if there is none.
    folders: Vec<String>,
    reached: Vec<ReachedFile>,
    by_path: BTreeMap<String, usize>,
    by_whole: BTreeMap<String, usize>,
    // The notes that `add_note` added, with their numbers.
    noted: BTreeMap<String, usize>,
}

// Returns the canonical path of a file; the path itself if the file has none.
fn whole_path<R: Files + AllocGlobal>(rt: &R, path: &str) -> io::Result<String> {
    match fs::canonicalize(rt, path) {
        Ok(whole) => Ok(whole.into_string()),
        Err(error) if error.kind() == io::ErrorKind::OutOfMemory => Err(error),
        Err(_) => Ok(String::from_str(rt.alloc(), path)?),
    }
}

impl FileReader {
    /// Returns a reader that has read nothing. It reads the files of modules only below one of
    /// `folders`, or any if that is empty. The inner error is the text of a message: a folder
    /// can't be read.
    pub fn new<R: Files + AllocGlobal>(
        rt: &R,
        folders: &[&str],
    ) -> io::Result<Result<FileReader, String>> {
        let alloc = rt.alloc();
        let mut wholes = Vec::new(alloc);
        for folder in folders {
            match fs::canonicalize(rt, *folder) {
                Ok(whole) => wholes.push(whole.into_string())?,
                Err(error) => {
                    return Ok(Err(format!(in alloc; "couldn't read `{folder}`: {error}")?));
                }
            }
        }
        Ok(Ok(FileReader::below(alloc, wholes)))
    }

    // Returns a reader that has read nothing, with the canonical paths of its folders.
    fn below(alloc: Global, folders: Vec<String>) -> FileReader {
        FileReader {
            files: FileSet::new(alloc),
            notes: Vec::new(alloc),
            folders,
            reached: Vec::new(alloc),
            by_path: BTreeMap::new(alloc),
            by_whole: BTreeMap::new(alloc),
            noted: BTreeMap::new(alloc),
        }
    }

    // Records where the next file of the set comes from.
    fn record(
        &mut self,
        alloc: Global,
        path: &str,
        whole: String,
        parent: Option<usize>,
    ) -> Result<(), AllocError> {
        let number = self.reached.len();
        self.by_path.insert(String::from_str(alloc, path)?, number)?;
        self.by_whole
            .insert(String::from_str(alloc, whole.as_str())?, number)?;
        self.reached.push(ReachedFile { whole, parent })?;
        Ok(())
    }

    /// Adds the root of a crate, with its text.
    pub fn add_root<R: Files + AllocGlobal>(
        &mut self,
        rt: &R,
        options: &SessionOptions<'_>,
        path: &str,
        text: String,
    ) -> io::Result<()> {
        let whole = whole_path(rt, path)?;
        self.add_root_text(rt.alloc(), options, path, whole, text)?;
        Ok(())
    }

    /// Adds the root of a crate, with its canonical path and its text.
    pub fn add_root_text(
        &mut self,
        alloc: Global,
        options: &SessionOptions<'_>,
        path: &str,
        whole: String,
        text: String,
    ) -> Result<(), AllocError> {
        self.record(alloc, path, whole, None)?;
        self.files.add_root(alloc, options, path, text)
    }

    /// Adds the file of a module, with its canonical path and its text. A file that is reached from
    /// itself is noted instead.
    pub fn add_module_text(
        &mut self,
        alloc: Global,
        file: NamedFile<'_>,
        whole: String,
        text: String,
    ) -> Result<(), AllocError> {
        if self.is_circular(alloc, file, whole.as_str())? {
            return Ok(());
        }
        let root = self.files.roots.get(file.parent).copied().unwrap_or(0);
        self.record(alloc, file.path, whole, Some(file.parent))?;
        self.files
            .add_module(alloc, root, file.path, file.name, text)
    }

    /// Whether a file with that path is there.
    pub fn has(&self, path: &str) -> bool {
        self.by_path.contains_key(path)
    }

    // Whether a file is reached from itself, which is noted.
    fn is_circular(
        &mut self,
        alloc: Global,
        file: NamedFile<'_>,
        whole: &str,
    ) -> Result<bool, AllocError> {
        let path = file.path;
        let Some(around) = self.around(file.parent, whole) else {
            return Ok(false);
        };
        let Some(named) = self.files.texts.get(around) else {
            return Ok(false);
        };
        let name = named.name.as_str();
        let note = format!(in alloc; "circular: `{path}` is `{name}`, which it is reached from")?;
        self.add_note(alloc, note)?;
        Ok(true)
    }

    /// Adds the root file of an external crate. `path` names that file, or a folder that has it as
    /// `src/lib.rs`. If neither can be read, the error is the one for the file `path`.
    pub fn add_extern_root<R: Files + AllocGlobal>(
        &mut self,
        rt: &R,
        options: &SessionOptions<'_>,
        path: &str,
    ) -> io::Result<()> {
        match file_text(rt, path) {
            Ok(text) => self.add_root(rt, options, path, text),
            Err(error) => {
                let root = format!(in rt.alloc(); "{path}/src/lib.rs")?;
                match file_text(rt, root.as_str()) {
                    Ok(text) => self.add_root(rt, options, root.as_str(), text),
                    Err(_) => Err(error),
                }
            }
        }
    }

    // Returns the number of a file with that canonical path from which file `number` is reached,
    // or of file `number` itself.
    fn around(&self, number: usize, whole: &str) -> Option<usize> {
        let mut next = Some(number);
        for _ in 0..self.reached.len() {
            let file = self.reached.get(next?)?;
            if file.whole.as_str() == whole {
                return next;
            }
            next = file.parent;
        }
        None
    }

    // Whether files of modules may be read there.
    fn is_allowed(&self, whole: &str) -> bool {
        self.folders.is_empty()
            || self
                .folders
                .iter()
                .any(|folder| is_below(folder.as_str(), whole))
    }

    // Returns the text of a file that was read before, by its number; else reads the file. `None`
    // if the file can't be read.
    fn text_once<R: Files + AllocGlobal>(
        &self,
        rt: &R,
        known: Option<usize>,
        path: &str,
    ) -> io::Result<Option<String>> {
        if let Some(number) = known
            && let Some(named) = self.files.texts.get(number)
        {
            return Ok(Some(String::from_str(rt.alloc(), named.text.as_str())?));
        }
        match file_text(rt, path) {
            Ok(text) => Ok(Some(text)),
            Err(error) if error.kind() == io::ErrorKind::OutOfMemory => Err(error),
            Err(_) => Ok(None),
        }
    }

    // Adds a note, unless it is there already: a file may be looked for in several rounds.
    fn add_note(&mut self, alloc: Global, note: String) -> Result<(), AllocError> {
        if self.noted.contains_key(note.as_str()) {
            return Ok(());
        }
        let number = self.notes.len();
        self.noted
            .insert(String::from_str(alloc, note.as_str())?, number)?;
        self.notes.push(note)?;
        Ok(())
    }

    // Adds a file, if it can be read, isn't there yet, and isn't reached from itself.
    fn add_file<R: Files + AllocGlobal>(&mut self, rt: &R, file: NamedFile<'_>) -> io::Result<()> {
        let (path, alloc) = (file.path, rt.alloc());
        if self.has(path) || !fs::exists(rt, path).unwrap_or(false) {
            return Ok(());
        }
        let whole = whole_path(rt, path)?;
        if !self.is_allowed(whole.as_str()) {
            let note = format!(in alloc;
                "`{path}` isn't read: it isn't below a folder of `--root`"
            )?;
            self.add_note(alloc, note)?;
            return Ok(());
        }
        let known = self.by_whole.get(whole.as_str()).copied();
        if let Some(text) = self.text_once(rt, known, path)? {
            self.add_module_text(alloc, file, whole, text)?;
        }
        Ok(())
    }

    // Adds the files that may hold a module, or the file of an `include!`.
    fn add_module<R: Files + AllocGlobal>(
        &mut self,
        rt: &R,
        parent: usize,
        module: &UnresolvedFile,
    ) -> io::Result<()> {
        let file = NamedFile {
            path: "",
            name: None,
            parent,
        };
        match &module.candidates {
            Candidates::Included(path) | Candidates::Given(path) => {
                self.add_file(
                    rt,
                    NamedFile {
                        path: path.as_str(),
                        ..file
                    },
                )
            }
            Candidates::Usual(beside, nested) => {
                let name = Some(module.name.as_str());
                self.add_file(
                    rt,
                    NamedFile {
                        path: beside.as_str(),
                        name,
                        ..file
                    },
                )?;
                self.add_file(
                    rt,
                    NamedFile {
                        path: nested.as_str(),
                        ..file
                    },
                )
            }
        }
    }

    /// Adds the files of the modules of file `number`. Files that can't be read are left out. An
    /// error says that memory ran out.
    pub fn add_modules<R: Files + AllocGlobal>(
        &mut self,
        rt: &R,
        options: &SessionOptions<'_>,
        number: usize,
    ) -> io::Result<()> {
        for module in &self.files.modules(rt.alloc(), options, number)? {
            self.add_module(rt, number, module)?;
        }
        Ok(())
    }

    // Adds the files of the modules of each file that was added since there were `known` files, and
    // of each file with calls that expand to modules.
    fn add_followed<R: Files + AllocGlobal>(
        &mut self,
        rt: &R,
        options: &SessionOptions<'_>,
        known: usize,
    ) -> io::Result<()> {
        for number in 0..MAX_FILES {
            if number >= self.files.texts.len() {
                break;
            }
            if number >= known || self.files.has_followed_calls(number) {
                self.add_modules(rt, options, number)?;
            }
        }
        Ok(())
    }

    /// Expands the calls of the files, and adds the files of the modules that they become. The calls
    /// of those files are expanded in turn, and so on. Returns whether this ended: there is a limit
    /// of rounds. An error says that memory ran out.
    pub fn follow_calls<R: Files + AllocGlobal>(
        &mut self,
        rt: &R,
        options: &SessionOptions<'_>,
    ) -> io::Result<bool> {
        for _ in 0..MAX_ROUNDS {
            let known = self.files.texts.len();
            if !self.files.follow_calls(rt.alloc(), options)? {
                return Ok(true);
            }
            self.add_followed(rt, options, known)?;
        }
        Ok(false)
    }
}
