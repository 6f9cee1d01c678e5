// The crates of open documents.
//
// A document in a Cargo package is read with its crate: the package's library or program, if the
// document is one of its files. Any other document is the root of a crate of its own, which may use
// that library and its dependencies.
use mbe_cargo::paths::{ancestors, folder_of, join};
use mbe_cargo::planner::PackageChoice;
use mbe_cfg::crates::module_inliner::UnresolvedFile;
use mbe_cfg::files::module_dir::Candidates;
use mbe_files::file_reader::{MAX_FILES, file_text};
use mbe_files::package::{PackageOptions, PackagePlan, plan_packages};
use mbe_protocol::documents::Documents;
use mbe_session::file_set::FileSet;
use mbe_session::session_options::{CrateSettings, ExternCrate, SessionOptions};
use std::alloc::{AllocError, Global};
use std::rt::{Env, Files};
use std::{env, fs, io};

// The target whose options for `cfg` hold.
static TRIPLES: [&str; 1] = ["x86_64-unknown-linux-gnu"];

/// The texts of the open documents, and the folder that relative paths begin at.
#[derive(Clone, Copy, Drop)]
pub struct Texts<'d> {
    pub documents: &'d Documents,
    pub folder: &'d str,
}

/// Returns the current folder. `AllocError` if out of memory.
pub fn current_folder<R: Env + AllocGlobal>(rt: &R) -> Result<String, AllocError> {
    match env::current_dir(rt) {
        Ok(current) => String::from_str(rt.alloc(), current.to_str().unwrap_or("/")),
        Err(_) => String::from_str(rt.alloc(), "/"),
    }
}

/// Returns the path from the root of the file system, without parts `..`.
pub fn absolute(alloc: Global, texts: Texts<'_>, path: &str) -> Result<String, AllocError> {
    join(alloc, texts.folder, path)
}

// Returns the error that memory ran out, and drops any other one.
fn only_memory<T: Drop>(found: io::Result<T>) -> Result<Option<T>, AllocError> {
    match found {
        Ok(value) => Ok(Some(value)),
        Err(error) => match error.kind() {
            io::ErrorKind::OutOfMemory => Err(AllocError),
            _ => Ok(None),
        },
    }
}

/// Returns the path of the first `Cargo.toml` in the folder of a document or above it. `AllocError`
/// if out of memory.
pub fn manifest_of<R: Files + AllocGlobal>(
    rt: &R,
    path: &str,
) -> Result<Option<String>, AllocError> {
    if !path.starts_with('/') {
        return Ok(None);
    }
    for above in ancestors(rt.alloc(), folder_of(path))?.iter() {
        let manifest = format!(in rt.alloc(); "{above}/Cargo.toml")?;
        if only_memory(fs::exists(rt, manifest.as_str()))? == Some(true) {
            return Ok(Some(manifest));
        }
    }
    Ok(None)
}

/// Plans the Cargo package with that manifest. `None` if it can't be planned. `AllocError` if out of
/// memory.
pub fn plan_of<R: Env + Files + AllocGlobal + Clone + Drop>(
    rt: &R,
    manifest: &str,
) -> Result<Option<PackagePlan>, AllocError> {
    let package = PackageOptions {
        manifest: Some(manifest),
        packages: PackageChoice::Own,
        targets: Vec::new(rt.alloc()),
        is_library_needed: false,
        all_features: false,
        no_default_features: false,
        triple: None,
        triples: TRIPLES.as_slice(),
    };
    let options = SessionOptions::new(rt.alloc());
    match only_memory(plan_packages(rt, &options, &package))? {
        Some(Ok(plans)) => Ok(plans.into_iter().next()),
        Some(Err(_)) | None => Ok(None),
    }
}

// Returns the text of a file: that of its document, if it is open. `None` if it can't be read.
fn text_of<R: Files + AllocGlobal>(
    rt: &R,
    texts: Texts<'_>,
    path: &str,
) -> Result<Option<String>, AllocError> {
    let whole = absolute(rt.alloc(), texts, path)?;
    match texts.documents.at_path(whole.as_str()) {
        Some(document) => Ok(Some(document.text.clone()?)),
        None => only_memory(file_text(rt, path)),
    }
}

// Adds a file of a module, if it can be read and isn't there yet.
fn add_file<R: Files + AllocGlobal>(
    rt: &R,
    texts: Texts<'_>,
    files: &mut FileSet,
    root: usize,
    path: &str,
    name: Option<&str>,
) -> Result<(), AllocError> {
    if files.number_of(path).is_some() {
        return Ok(());
    }
    match text_of(rt, texts, path)? {
        Some(text) => files.add_module(rt.alloc(), root, path, name, text),
        None => Ok(()),
    }
}

// Adds the files that may hold a module, or the file of an `include!`.
fn add_module<R: Files + AllocGlobal>(
    rt: &R,
    texts: Texts<'_>,
    files: &mut FileSet,
    root: usize,
    module: &UnresolvedFile,
) -> Result<(), AllocError> {
    match &module.candidates {
        Candidates::Included(path) | Candidates::Given(path) => {
            add_file(rt, texts, files, root, path.as_str(), None)
        }
        Candidates::Usual(beside, nested) => {
            let name = Some(module.name.as_str());
            add_file(rt, texts, files, root, beside.as_str(), name)?;
            add_file(rt, texts, files, root, nested.as_str(), None)
        }
    }
}

// Adds the root of a crate. A file that can't be read is empty.
fn add_root<R: Files + AllocGlobal>(
    rt: &R,
    texts: Texts<'_>,
    options: &SessionOptions<'_>,
    files: &mut FileSet,
    path: &str,
) -> Result<(), AllocError> {
    let text = match text_of(rt, texts, path)? {
        Some(text) => text,
        None => String::new(rt.alloc()),
    };
    files.add_root(rt.alloc(), options, path, text)
}

// Adds the files of the modules of file `number`.
fn add_modules<R: Files + AllocGlobal>(
    rt: &R,
    texts: Texts<'_>,
    options: &SessionOptions<'_>,
    files: &mut FileSet,
    number: usize,
) -> Result<(), AllocError> {
    let root = files.roots.get(number).copied().unwrap_or(0);
    let modules = files.modules(rt.alloc(), options, number)?;
    for module in &modules {
        add_module(rt, texts, files, root, module)?;
    }
    Ok(())
}

/// Reads the files of the crates that the options name. `AllocError` if out of memory.
pub fn read_files<R: Files + AllocGlobal>(
    rt: &R,
    texts: Texts<'_>,
    options: &SessionOptions<'_>,
) -> Result<FileSet, AllocError> {
    let mut files = FileSet::new(rt.alloc());
    for name in &options.names {
        add_root(rt, texts, options, &mut files, *name)?;
    }
    for one in &options.externs {
        add_root(rt, texts, options, &mut files, one.path)?;
    }
    for number in 0..MAX_FILES {
        if number >= files.texts.len() {
            break;
        }
        add_modules(rt, texts, options, &mut files, number)?;
    }
    Ok(files)
}

/// Returns the number of the file at that path from the root of the file system, among the files of
/// the session's own crates. `AllocError` if out of memory.
pub fn own_file(
    alloc: Global,
    texts: Texts<'_>,
    files: &FileSet,
    root_count: usize,
    path: &str,
) -> Result<Option<usize>, AllocError> {
    for (number, named) in files.texts.iter().enumerate() {
        if files.is_local(number, root_count) {
            let whole = absolute(alloc, texts, named.name.as_str())?;
            if whole.as_str() == path {
                return Ok(Some(number));
            }
        }
    }
    Ok(None)
}

/// Returns the options for a document that is the root of a crate of its own.
pub fn options_alone<'w>(alloc: Global, path: &'w str) -> Result<SessionOptions<'w>, AllocError> {
    let mut options = SessionOptions::new(alloc);
    options.names.push(path)?;
    Ok(options)
}

// Returns the features of the plan's crate.
fn features_of<'w>(alloc: Global, plan: &'w PackagePlan) -> Result<Vec<&'w str>, AllocError> {
    let mut features = Vec::new(alloc);
    if let Some(first) = plan.plan.crates.first() {
        for feature in first.features.iter() {
            features.push(feature.as_str())?;
        }
    }
    Ok(features)
}

/// Returns the options of the plan's crate. `None` if its edition isn't known.
pub fn options_of<'w>(
    alloc: Global,
    plan: &'w PackagePlan,
) -> Result<Option<SessionOptions<'w>>, AllocError> {
    let given = SessionOptions::new(alloc);
    match plan.options(alloc, &given)? {
        Some((options, _notes)) => Ok(Some(options)),
        None => Ok(None),
    }
}

/// Returns the options for a document of the package that is no file of the plan's crate, such as a
/// test or an example. It may use that crate by its name. `None` if the edition isn't known.
pub fn options_beside<'w>(
    alloc: Global,
    plan: &'w PackagePlan,
    path: &'w str,
) -> Result<Option<SessionOptions<'w>>, AllocError> {
    let Some(mut options) = options_of(alloc, plan)? else {
        return Ok(None);
    };
    options.names.clear();
    options.names.push(path)?;
    let edition = options.edition;
    if let Some(first) = plan.plan.crates.first() {
        let settings = CrateSettings {
            edition,
            features: features_of(alloc, plan)?,
        };
        options.externs.push(ExternCrate {
            name: first.name.as_str(),
            path: first.root.as_str(),
            settings: Some(settings),
        })?;
    }
    Ok(Some(options))
}
