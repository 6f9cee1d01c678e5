// Computes the folder and the paths where the file of a module is looked for.
ghost use Rattle.std.specs.Prelude.{◌≡◌, IfOk, option_map};
ghost use Rattle.std.specs.String.{string_bytes};
ghost use Rattle.mbe_cfg.specs.Files.ModuleDirs as spec;
ghost use Rattle.mbe_cfg.specs.Files.ModuleDirViews.{module_dir_shown, candidates_shown};

use crate::files::paths::{folder_of, join};
use std::alloc::{AllocError, Allocator, Global};

/// The folder in which the files of modules are looked for. The modules are declared in a file or
/// in an inline module of it. The rules are the Reference's.
///
/// `folder` is the folder of the file, and the names of the inline modules from there on. The
/// modules of a file such as `a/b.rs` are in a folder of its own name. For such a file, `own` is
/// that name, `b`, and an inline module adds it to the folder. For a crate's root, a `mod.rs` and a
/// file that `#[path]` or `include!` names, `own` is `None`.
#[derive(Drop)]
pub struct ModuleDir<A: Allocator = Global> {
    /// The folder of the file. The paths in `include!` are relative to it.
    pub file_folder: String<A>,
    pub folder: String<A>,
    pub own: Option<String<A>>,
}

/// The files that may hold a module, or the file that is included.
#[derive(Drop)]
pub enum Candidates<A: Allocator = Global> {
    /// The file that `include!` names.
    Included(String<A>),
    /// The file that `#[path]` names.
    Given(String<A>),
    /// `x.rs` and `x/mod.rs`. Exactly one of them must exist.
    Usual(String<A>, String<A>),
}

impl<A: Allocator + Copy> ModuleDir<A> {
    // Returns the folder of the modules.
    fn modules_folder(&self, alloc: A) -> Result<String<A>, AllocError>
        ensures { IfOk result (λ s. string_bytes s
            ≡ spec.modules_folder (module_dir_shown self.now)) }
    {
        match &self.own {
            Some(own) => join(alloc, self.folder.as_str(), own.as_str()),
            None => String::from_str(alloc, self.folder.as_str()),
        }
    }

    /// Returns where the files of the modules in an inline module `mod name { .. }` are looked for.
    /// `path` is the text of its `#[path]`, if it has one. Returns `AllocError` if memory runs out.
    pub fn inside(
        &self,
        alloc: A,
        name: &str,
        path: Option<&str>,
    ) -> Result<ModuleDir<A>, AllocError>
        ensures { IfOk result (λ p. module_dir_shown p
            ≡ spec.inside (module_dir_shown self.now) name.now (option_map (λ t. t.now) path.entry)) }
    {
        let folder = match path {
            Some(path) => join(alloc, self.folder.as_str(), path)?,
            None => self.in_modules_folder(alloc, name)?,
        };
        Ok(ModuleDir {
            file_folder: String::from_str(alloc, self.file_folder.as_str())?,
            folder,
            own: None,
        })
    }

    // Returns a path in the folder of the modules.
    fn in_modules_folder(&self, alloc: A, path: &str) -> Result<String<A>, AllocError>
        ensures { IfOk result (λ s. string_bytes s
            ≡ spec.in_modules_folder (module_dir_shown self.now) path.now) }
    {
        let folder = self.modules_folder(alloc)?;
        join(alloc, folder.as_str(), path)
    }

    /// Returns the files that may hold the module of `mod name;`. `path` is the text of its
    /// `#[path]`, if it has one. Returns `AllocError` if memory runs out.
    pub fn candidates(
        &self,
        alloc: A,
        name: &str,
        path: Option<&str>,
    ) -> Result<Candidates<A>, AllocError>
        ensures { IfOk result (λ c. candidates_shown c
            ≡ spec.candidates (module_dir_shown self.now) name.now
            (option_map (λ t. t.now) path.entry)) }
    {
        match path {
            Some(path) => Ok(Candidates::Given(join(alloc, self.folder.as_str(), path)?)),
            None => self.usual(alloc, name),
        }
    }

    /// Returns the file that an `include!` with that text names. Returns `AllocError` if memory
    /// runs out.
    pub fn included(&self, alloc: A, path: &str) -> Result<Candidates<A>, AllocError>
        ensures { IfOk result (λ c. candidates_shown c
            ≡ spec.included (module_dir_shown self.now) path.now) }
    {
        let joined = join(alloc, self.file_folder.as_str(), path)?;
        Ok(Candidates::Included(joined))
    }

    // Returns `name.rs` and `name/mod.rs`.
    fn usual(&self, alloc: A, name: &str) -> Result<Candidates<A>, AllocError>
        ensures { IfOk result (λ c. candidates_shown c
            ≡ spec.usual (module_dir_shown self.now) name.now) }
    {
        let mut beside = self.in_modules_folder(alloc, name)?;
        beside.push_str(".rs")?;
        let folder = self.in_modules_folder(alloc, name)?;
        let nested = join(alloc, folder.as_str(), "mod.rs")?;
        Ok(Candidates::Usual(beside, nested))
    }

    /// Returns where the files of the modules in `name.rs` are looked for. That file was found for
    /// a `mod name;` here. Returns `AllocError` if memory runs out.
    pub fn of_file(&self, alloc: A, name: &str) -> Result<ModuleDir<A>, AllocError>
        ensures { IfOk result (λ p. module_dir_shown p
            ≡ spec.of_file (module_dir_shown self.now) name.now) }
    {
        Ok(ModuleDir {
            file_folder: self.modules_folder(alloc)?,
            folder: self.modules_folder(alloc)?,
            own: Some(String::from_str(alloc, name)?),
        })
    }

    /// Returns where the files of the modules in the file with that path are looked for. They are
    /// in the folder `own` of the file's folder, if `own` is given. Otherwise they are in the
    /// file's folder, as for a crate's root. Returns `AllocError` if memory runs out.
    pub fn in_file(alloc: A, path: &str, own: Option<&str>) -> Result<ModuleDir<A>, AllocError>
        ensures { IfOk result (λ p. module_dir_shown p
            ≡ spec.in_file path.now (option_map (λ t. t.now) own.entry)) }
    {
        let own = match own {
            Some(own) => Some(String::from_str(alloc, own)?),
            None => None,
        };
        Ok(ModuleDir {
            file_folder: String::from_str(alloc, folder_of(path))?,
            folder: String::from_str(alloc, folder_of(path))?,
            own,
        })
    }
}
