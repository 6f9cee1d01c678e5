// Finds the file of a module or of an `include!` among the files that were read.
ghost use Rattle.std.specs.Prelude.{◌≡◌, ◌==◌, IfOk, map, option_map};
ghost use Rattle.std.specs.List.{list_any, slice_get};
ghost use Rattle.std.specs.String.{string_bytes};
ghost use Rattle.mbe_cfg.specs.Files.ModuleDirViews.{candidates_shown, module_dir_shown};
ghost use Rattle.mbe_tt.specs.Views.View.{trees};
ghost use Rattle.mbe_cfg.specs.Crates.CrateViews.{file_shown, found_file_shown};
ghost use Rattle.mbe_cfg.specs.Crates.FileLookup as spec;

use crate::files::module_dir::{Candidates, ModuleDir};
use mbe_tt::tt::TokenTreesView;
use std::alloc::{AllocError, Allocator, Global};

/// A file that was read.
#[derive(Drop)]
pub struct CrateFile<'f, A: Allocator = Global> {
    pub path: &'f str,
    /// Its trees, if it is a Rust file.
    pub trees: Option<TokenTreesView<'f, A>>,
}

/// Why a module or an `include!` has no file.
#[derive(Drop)]
pub enum FileLookupError {
    /// No file that may be it was read.
    Missing,
    /// Both files that may be it were read.
    Both,
    /// It would be in its own file.
    Circular,
    /// The file isn't Rust.
    NoRust,
}

/// The file that holds a module, or that is included.
#[derive(Drop)]
pub struct FoundFile<'f, A: Allocator = Global> {
    pub number: usize,
    /// Where the files of its modules are looked for.
    pub module_dir: ModuleDir<A>,
    pub trees: TokenTreesView<'f, A>,
}

// Returns whether the file `number` has that path.
fn has_path<A: Allocator>(files: &[CrateFile<'_, A>], number: usize, path: &str) -> bool
    ensures { result ≡ spec.has_path path.now (slice_get (map file_shown files.now) number) }
{
    match files.get(number) {
        Some(file) => file.path == path,
        None => false,
    }
}

/// Returns the number of the file with that path, if it was read. If several have that path,
/// returns the last one's.
pub fn file_number<A: Allocator>(files: &[CrateFile<'_, A>], path: &str) -> Option<usize>
    ensures { result ≡ spec.file_number (map file_shown files.now) path.now }
{
    let mut left = files.len();
    'numbers: while left > 0 {
        left -= 1;
        if has_path(files, left, path) {
            return Some(left);
        }
    }
    None
}

fn is_one_of(number: usize, numbers: &[usize]) -> bool
    ensures { result ≡ list_any (λ m. m == number) numbers.now }
{
    numbers.iter().any(|other| *other == number)
}

// Returns the trees of the file `number`.
fn trees_of_file<'f, A: Allocator>(
    files: &[CrateFile<'f, A>],
    number: usize,
) -> Option<TokenTreesView<'f, A>>
    ensures { option_map trees result ≡ spec.trees_of_file (map file_shown files.now) number }
{
    let file = files.get(number)?;
    file.trees
}

// Returns that file, unless it is around the module.
fn acyclic_file<'f, A: Allocator + Copy>(
    files: &[CrateFile<'f, A>],
    around: &[usize],
    number: usize,
    module_dir: ModuleDir<A>,
) -> Result<FoundFile<'f, A>, FileLookupError>
    ensures { found_file_shown result
        ≡ spec.acyclic_file (map file_shown files.now) around.now number
        (module_dir_shown module_dir) }
{
    if is_one_of(number, around) {
        return Err(FileLookupError::Circular);
    }
    match trees_of_file(files, number) {
        Some(trees) => Ok(FoundFile {
            number,
            module_dir,
            trees,
        }),
        None => Err(FileLookupError::NoRust),
    }
}

// Returns the file that `#[path]` or `include!` names, if it was read.
fn found_given<'f, A: Allocator + Copy>(
    alloc: A,
    files: &[CrateFile<'f, A>],
    around: &[usize],
    path: &str,
) -> Result<Result<FoundFile<'f, A>, FileLookupError>, AllocError>
    ensures { IfOk result (λ t. found_file_shown t ≡ spec.found_given (map file_shown files.now)
        around.now path.now (spec.file_number (map file_shown files.now) path.now)) }
{
    match file_number(files, path) {
        Some(number) => {
            let module_dir = ModuleDir::in_file(alloc, path, None)?;
            Ok(acyclic_file(files, around, number, module_dir))
        }
        None => Ok(Err(FileLookupError::Missing)),
    }
}

// Returns the one of two files that was read.
fn found_usual<'f, A: Allocator + Copy>(
    alloc: A,
    files: &[CrateFile<'f, A>],
    around: &[usize],
    name: &str,
    beside: &str,
    nested: &str,
) -> Result<Result<FoundFile<'f, A>, FileLookupError>, AllocError>
    ensures { IfOk result (λ t. found_file_shown t ≡ spec.found_usual (map file_shown files.now)
        around.now name.now beside.now nested.now
        (spec.file_number (map file_shown files.now) beside.now)
        (spec.file_number (map file_shown files.now) nested.now)) }
{
    match (file_number(files, beside), file_number(files, nested)) {
        (Some(number), None) => {
            let module_dir = ModuleDir::in_file(alloc, beside, Some(name))?;
            Ok(acyclic_file(files, around, number, module_dir))
        }
        (None, Some(number)) => {
            let module_dir = ModuleDir::in_file(alloc, nested, None)?;
            Ok(acyclic_file(files, around, number, module_dir))
        }
        (Some(_), Some(_)) => Ok(Err(FileLookupError::Both)),
        (None, None) => Ok(Err(FileLookupError::Missing)),
    }
}

/// Returns the file that holds the module `name`, or that is included. It is one of `candidates`,
/// and was read. `around` has the numbers of the files around the module. Returns `AllocError` if
/// memory runs out.
pub fn find_file<'f, A: Allocator + Copy>(
    alloc: A,
    files: &[CrateFile<'f, A>],
    around: &[usize],
    name: &str,
    candidates: &Candidates<A>,
) -> Result<Result<FoundFile<'f, A>, FileLookupError>, AllocError>
    ensures { IfOk result (λ t. found_file_shown t ≡ spec.found_file (map file_shown files.now)
        around.now name.now (candidates_shown candidates.now)) }
{
    match candidates {
        Candidates::Included(path) | Candidates::Given(path) => {
            found_given(alloc, files, around, path.as_str())
        }
        Candidates::Usual(beside, nested) => {
            found_usual(alloc, files, around, name, beside.as_str(), nested.as_str())
        }
    }
}
