// The targets of a package, found as Cargo finds them: by the manifest's tables and in folders.
use crate::dependencies::refused;
use crate::documents::{Lookup, member, text_at, texts_of};
use crate::packages::{Package, name_in_code};
use crate::paths::join;
use crate::problem::{Stop, add_name};
use crate::workspaces::Files;
use std::alloc::{AllocError, Global};
use toml::Value;

/// The kind of a target.
#[derive(Clone, Copy, PartialEq, Eq, Drop)]
pub enum TargetKind {
    Library,
    Program,
    Example,
    Test,
    Bench,
}

/// Targets that are asked for.
#[derive(Clone, Copy, Drop)]
pub enum TargetChoice<'r> {
    /// The target of a kind with that name.
    Named(TargetKind, &'r str),
    /// All targets of a kind.
    All(TargetKind),
}

/// A target of a package.
#[derive(Drop)]
pub struct Target<'d> {
    pub kind: TargetKind,
    pub name: String,
    /// The path of its root file.
    pub root: String,
    /// What the manifest says of it; `None` for a target that only a folder shows.
    pub value: Option<&'d Value>,
    /// Whether it is asked for by itself, not as one of a kind.
    pub is_named: bool,
}

// What the manifest and the folders call a kind of targets.
#[derive(Clone, Copy, Drop)]
struct KindNames {
    table: &'static str,
    folder: &'static str,
    /// The key that switches the search in the folder off.
    switch: &'static str,
    /// The word in messages.
    word: &'static str,
}

fn names_of(kind: TargetKind) -> KindNames {
    match kind {
        TargetKind::Library => KindNames {
            table: "lib",
            folder: "src",
            switch: "autolib",
            word: "library",
        },
        TargetKind::Program => KindNames {
            table: "bin",
            folder: "src/bin",
            switch: "autobins",
            word: "program",
        },
        TargetKind::Example => KindNames {
            table: "example",
            folder: "examples",
            switch: "autoexamples",
            word: "example",
        },
        TargetKind::Test => KindNames {
            table: "test",
            folder: "tests",
            switch: "autotests",
            word: "test",
        },
        TargetKind::Bench => KindNames {
            table: "bench",
            folder: "benches",
            switch: "autobenches",
            word: "benchmark",
        },
    }
}

/// Returns the error of a package without a library.
pub fn no_library(alloc: Global, package: &Package<'_>) -> Result<Stop, AllocError> {
    let name = package.name;
    let message = format!(in alloc; "package `{name}` has no library")?;
    Ok(refused(alloc, package.document, "package", "name", message))
}

/// Whether the package has a library.
pub fn has_library(files: &mut Files<'_>, package: &Package<'_>) -> Result<bool, Stop> {
    if member(package.value, "lib").is_some() {
        return Ok(true);
    }
    if package.package_flag("autolib") == Some(false) {
        return Ok(false);
    }
    let root = package.library_root(files.alloc)?;
    files.is_there(root.as_str())
}

/// Returns the library of a package, which has one.
pub fn library<'d>(alloc: Global, package: &Package<'d>) -> Result<Target<'d>, AllocError> {
    Ok(Target {
        kind: TargetKind::Library,
        name: package.library_name(alloc)?,
        root: package.library_root(alloc)?,
        value: member(package.value, "lib"),
        is_named: false,
    })
}

// ---- targets in folders

// Adds a target with that root file.
fn add_found(
    alloc: Global,
    kind: TargetKind,
    name: &str,
    root: String,
    found: &mut Vec<Target<'_>>,
) -> Result<(), AllocError> {
    found.push(Target {
        kind,
        name: String::from_str(alloc, name)?,
        root,
        value: None,
        is_named: false,
    })?;
    Ok(())
}

// Adds the target that an entry of a folder is: a file `NAME.rs`, or a folder with a `main.rs`.
fn add_entry(
    files: &mut Files<'_>,
    kind: TargetKind,
    folder: &str,
    entry: &str,
    found: &mut Vec<Target<'_>>,
) -> Result<(), Stop> {
    if entry.is_empty() || entry.starts_with('.') {
        return Ok(());
    }
    let alloc = files.alloc;
    if let Some(name) = entry.strip_suffix(".rs") {
        let root = format!(in alloc; "{folder}/{entry}")?;
        add_found(alloc, kind, name, root, found)?;
        return Ok(());
    }
    if entry.contains('.') {
        return Ok(());
    }
    let root = format!(in alloc; "{folder}/{entry}/main.rs")?;
    if files.is_there(root.as_str())? {
        add_found(alloc, kind, entry, root, found)?;
    }
    Ok(())
}

// Returns the targets of a kind that the package's folders show, in the order of their names.
fn in_folders<'d>(
    files: &mut Files<'d>,
    package: &Package<'d>,
    kind: TargetKind,
) -> Result<Vec<Target<'d>>, Stop> {
    let mut found = Vec::new(files.alloc);
    if kind == TargetKind::Program {
        add_main(files, package, &mut found)?;
    }
    let folder = join(files.alloc, package.folder(), names_of(kind).folder)?;
    add_entries(files, kind, folder.as_str(), &mut found)?;
    Ok(found)
}

// Adds the program `src/main.rs`, if there is one.
fn add_main(
    files: &mut Files<'_>,
    package: &Package<'_>,
    found: &mut Vec<Target<'_>>,
) -> Result<(), Stop> {
    let main = join(files.alloc, package.folder(), "src/main.rs")?;
    if files.is_there(main.as_str())? {
        add_found(files.alloc, TargetKind::Program, package.name, main, found)?;
    }
    Ok(())
}

// Adds the targets that the entries of a folder are.
fn add_entries(
    files: &mut Files<'_>,
    kind: TargetKind,
    folder: &str,
    found: &mut Vec<Target<'_>>,
) -> Result<(), Stop> {
    match files.look_up_folder(folder)? {
        Lookup::Unread => return Err(Stop::Unread),
        Lookup::Absent => {}
        Lookup::Found(listing) => {
            for entry in listing.names(files.alloc)?.iter() {
                add_entry(files, kind, folder, *entry, found)?;
            }
        }
    }
    Ok(())
}

// ---- targets that the manifest declares

// Returns the root file of a target that the manifest declares.
fn declared_root(
    alloc: Global,
    package: &Package<'_>,
    kind: TargetKind,
    entry: &Value,
    shown: &[Target<'_>],
) -> Result<String, Stop> {
    if let Some(path) = text_at(entry, "path") {
        return Ok(join(alloc, package.folder(), path)?);
    }
    let name = text_at(entry, "name").unwrap_or("");
    match find_name(shown, name) {
        Some(target) => Ok(String::from_str(alloc, target.root.as_str())?),
        None => Err(no_root(alloc, package, kind, name)?),
    }
}

// Returns the error of a declared target without a root file.
fn no_root(
    alloc: Global,
    package: &Package<'_>,
    kind: TargetKind,
    name: &str,
) -> Result<Stop, AllocError> {
    let KindNames {
        table,
        folder,
        word,
        ..
    } = names_of(kind);
    let message = format!(in alloc;
        "there is no file of the {word} `{name}`: `{folder}/{name}.rs` or `{folder}/{name}/main.rs`"
    )?;
    Ok(refused(alloc, package.document, table, "name", message))
}

// Returns the targets of a kind that the manifest declares.
fn declared<'d>(
    alloc: Global,
    package: &Package<'d>,
    kind: TargetKind,
    shown: &[Target<'d>],
) -> Result<Vec<Target<'d>>, Stop> {
    let mut found = Vec::new(alloc);
    if let Some(Value::Array(entries)) = member(package.value, names_of(kind).table) {
        for entry in entries.iter() {
            found.push(declared_target(alloc, package, kind, entry, shown)?)?;
        }
    }
    Ok(found)
}

// Returns the target that an entry of the manifest declares.
fn declared_target<'d>(
    alloc: Global,
    package: &Package<'d>,
    kind: TargetKind,
    entry: &'d Value,
    shown: &[Target<'d>],
) -> Result<Target<'d>, Stop> {
    let Some(name) = text_at(entry, "name") else {
        return Err(no_name(alloc, package, kind)?);
    };
    Ok(Target {
        kind,
        name: String::from_str(alloc, name)?,
        root: declared_root(alloc, package, kind, entry, shown)?,
        value: Some(entry),
        is_named: false,
    })
}

// Returns the error of a declared target without a name.
fn no_name(alloc: Global, package: &Package<'_>, kind: TargetKind) -> Result<Stop, AllocError> {
    let table = names_of(kind).table;
    let message = format!(in alloc; "an entry of `[[{table}]]` has no `name`")?;
    Ok(refused(alloc, package.document, table, "name", message))
}

// Whether one of the targets has the name or the root file of another one.
fn is_among(targets: &[Target<'_>], other: &Target<'_>) -> bool {
    for target in targets {
        if target.name.as_str() == other.name.as_str()
            || target.root.as_str() == other.root.as_str()
        {
            return true;
        }
    }
    false
}

// Adds the targets whose names and root files are new.
fn add_shown<'d>(found: &mut Vec<Target<'d>>, shown: Vec<Target<'d>>) -> Result<(), AllocError> {
    for target in shown {
        if !is_among(found, &target) {
            found.push(target)?;
        }
    }
    Ok(())
}

// Whether the targets that only folders show belong to the package. Before edition 2018 they
// don't if the manifest declares targets of the kind.
fn uses_folders(package: &Package<'_>, kind: TargetKind, has_declared: bool) -> bool {
    match package.package_flag(names_of(kind).switch) {
        Some(flag) => flag,
        None => package.edition != "2015" || !has_declared,
    }
}

/// Returns the targets of a kind: those that the manifest declares, and then those that the folders
/// show.
pub fn targets_of<'d>(
    files: &mut Files<'d>,
    package: &Package<'d>,
    kind: TargetKind,
) -> Result<Vec<Target<'d>>, Stop> {
    if kind == TargetKind::Library {
        return libraries(files, package);
    }
    let shown = in_folders(files, package, kind)?;
    let mut found = declared(files.alloc, package, kind, &shown)?;
    if uses_folders(package, kind, !found.is_empty()) {
        add_shown(&mut found, shown)?;
    }
    Ok(found)
}

// Returns the library of a package, if it has one.
fn libraries<'d>(files: &mut Files<'d>, package: &Package<'d>) -> Result<Vec<Target<'d>>, Stop> {
    let mut found = Vec::new(files.alloc);
    if has_library(files, package)? {
        found.push(library(files.alloc, package)?)?;
    }
    Ok(found)
}

// ---- the choice

// Lists the names of targets for an error.
fn listed(alloc: Global, targets: &[Target<'_>]) -> Result<String, AllocError> {
    let mut names = String::new(alloc);
    for target in targets {
        add_name(&mut names, target.name.as_str())?;
    }
    Ok(names)
}

// The error of a name that no target has.
fn no_target(
    alloc: Global,
    package: &Package<'_>,
    kind: TargetKind,
    name: &str,
    targets: &[Target<'_>],
) -> Result<Stop, AllocError> {
    let KindNames { table, word, .. } = names_of(kind);
    let (of, names) = (package.name, listed(alloc, targets)?);
    let message = format!(in alloc; "package `{of}` has no {word} `{name}`{names}")?;
    Ok(refused(alloc, package.document, table, "name", message))
}

// Returns the target with that name.
fn find_name<'t, 'd>(targets: &'t [Target<'d>], name: &str) -> Option<&'t Target<'d>> {
    for target in targets {
        if target.name.as_str() == name {
            return Some(target);
        }
    }
    None
}

// Copies a target as one that is asked for by itself.
fn as_named<'d>(alloc: Global, target: &Target<'d>) -> Result<Target<'d>, AllocError> {
    Ok(Target {
        kind: target.kind,
        name: String::from_str(alloc, target.name.as_str())?,
        root: String::from_str(alloc, target.root.as_str())?,
        value: target.value,
        is_named: true,
    })
}

// Returns the target of a kind with that name.
fn named<'d>(
    files: &mut Files<'d>,
    package: &Package<'d>,
    kind: TargetKind,
    name: &str,
) -> Result<Target<'d>, Stop> {
    let targets = targets_of(files, package, kind)?;
    match find_name(&targets, name) {
        Some(target) => Ok(as_named(files.alloc, target)?),
        None => Err(no_target(files.alloc, package, kind, name, &targets)?),
    }
}

// Returns the program of a package without a library: the one of `default-run`, the only one, or
// the one that is named as the package.
fn main_program<'d>(files: &mut Files<'d>, package: &Package<'d>) -> Result<Target<'d>, Stop> {
    if let Some(name) = package.package_text("default-run") {
        return named(files, package, TargetKind::Program, name);
    }
    let targets = targets_of(files, package, TargetKind::Program)?;
    match targets.as_slice() {
        [only] => named(files, package, TargetKind::Program, only.name.as_str()),
        [] => Err(no_program(files.alloc, package)?),
        _ => named(files, package, TargetKind::Program, package.name),
    }
}

// Returns the error of a package without a library and without a program.
fn no_program(alloc: Global, package: &Package<'_>) -> Result<Stop, AllocError> {
    let name = package.name;
    let message = format!(in alloc; "package `{name}` has no library and no program")?;
    Ok(refused(alloc, package.document, "package", "name", message))
}

/// Returns the features that a target needs.
pub fn required_features<'d>(
    alloc: Global,
    target: &Target<'d>,
) -> Result<Vec<&'d str>, AllocError> {
    match target.value {
        Some(value) => texts_of(alloc, member(value, "required-features")),
        None => Ok(Vec::new(alloc)),
    }
}

// Returns the library, or the program if there is no library.
fn main_target<'d>(files: &mut Files<'d>, package: &Package<'d>) -> Result<Target<'d>, Stop> {
    if has_library(files, package)? {
        return Ok(library(files.alloc, package)?);
    }
    main_program(files, package)
}

// Returns the targets of a package that a choice means. A name must be that of a target if only
// one package is asked for; of several packages, some may have no such target.
fn targets_for<'d>(
    files: &mut Files<'d>,
    package: &Package<'d>,
    choice: TargetChoice<'_>,
    is_one: bool,
) -> Result<Vec<Target<'d>>, Stop> {
    match choice {
        TargetChoice::All(kind) => targets_of(files, package, kind),
        TargetChoice::Named(kind, name) => {
            let mut found = Vec::new(files.alloc);
            if is_one || find_name(&targets_of(files, package, kind)?, name).is_some() {
                found.push(named(files, package, kind, name)?)?;
            }
            Ok(found)
        }
    }
}

// Whether the target is known.
fn is_known(known: &[Target<'_>], target: &Target<'_>) -> bool {
    for one in known {
        if one.kind == target.kind && one.name.as_str() == target.name.as_str() {
            return true;
        }
    }
    false
}

// Adds the targets that aren't known yet.
fn add_new<'d>(found: &mut Vec<Target<'d>>, targets: Vec<Target<'d>>) -> Result<(), AllocError> {
    for target in targets {
        if !is_known(found, &target) {
            found.push(target)?;
        }
    }
    Ok(())
}

/// Returns the targets that are asked for, each once. Without a choice, the library is returned, or
/// the program if there is no library. `is_one` says that a name that no target has is an error.
pub fn chosen_targets<'d>(
    files: &mut Files<'d>,
    package: &Package<'d>,
    choices: &[TargetChoice<'_>],
    is_one: bool,
) -> Result<Vec<Target<'d>>, Stop> {
    let mut found = Vec::new(files.alloc);
    if choices.is_empty() {
        found.push(main_target(files, package)?)?;
    }
    for choice in choices {
        add_new(&mut found, targets_for(files, package, *choice, is_one)?)?;
    }
    Ok(found)
}

impl<'d> Target<'d> {
    /// Returns the name of the target's crate.
    pub fn crate_name(&self, alloc: Global) -> Result<String, AllocError> {
        name_in_code(alloc, self.name.as_str())
    }

    /// Returns the edition that the manifest gives for the target, else the package's edition.
    pub fn edition(&self, package: &Package<'d>) -> &'d str {
        match self.value {
            Some(value) => text_at(value, "edition").unwrap_or(package.edition),
            None => package.edition,
        }
    }

    /// Whether a test runs the target, so that its code sees `test` and the dependencies of tests.
    pub fn is_test(&self) -> bool {
        matches!(self.kind, TargetKind::Test | TargetKind::Bench)
    }

    /// Whether the target uses the dependencies of tests.
    pub fn uses_test_dependencies(&self) -> bool {
        self.is_test() || self.kind == TargetKind::Example
    }
}
