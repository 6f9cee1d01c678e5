// Finds the packages of a registry, in a folder that Cargo's settings name or in Cargo's own
// folders.
use crate::checkouts::{Entries, add_entries, commit_of};
use crate::dependencies::{Dependency, refused};
use crate::documents::{Document, Lookup, is_text};
use crate::lockfile::Locked;
use crate::packages::{Package, package_table};
use crate::paths::{folder_of, join};
use crate::problem::Stop;
use crate::settings::source_text;
use crate::workspaces::Files;
use std::alloc::{AllocError, Global};
use toml::Value;

// The limit of sources that replace one another.
const MAX_REPLACED: usize = 16;

/// The folders with the packages of crates.io.
#[derive(Drop)]
pub struct Registry {
    pub folders: Vec<String>,
}

/// A dependency of a package, and what Cargo.lock says of it.
#[derive(Clone, Copy, Drop)]
pub struct Wanted<'w, 'd> {
    pub package: &'w Package<'d>,
    pub dependency: &'w Dependency<'d>,
    pub locked: &'w Locked<'d>,
}

impl Wanted<'_, '_> {
    /// Returns an error at the dependency.
    pub fn refused(&self, alloc: Global, message: String) -> Stop {
        let document = self.package.document;
        refused(
            alloc,
            document,
            "dependencies",
            self.dependency.key,
            message,
        )
    }
}

// Returns the name of the source that replaces another one, such as crates.io.
fn replacement<'d>(settings: &[&'d Document], source: &str) -> Option<&'d str> {
    let (mut name, _) = source_text(settings, source, "replace-with")?;
    for _ in 0..MAX_REPLACED {
        match source_text(settings, name, "replace-with") {
            Some((next, _)) => name = next,
            None => break,
        }
    }
    Some(name)
}

// Returns the folders of packages that Cargo has downloaded.
fn downloaded(files: &mut Files<'_>, cargo_home: Option<&str>) -> Result<Vec<String>, Stop> {
    let mut found = Vec::new(files.alloc);
    let Some(home) = cargo_home else {
        return Ok(found);
    };
    let above = format!(in files.alloc; "{home}/registry/src")?;
    if !add_entries(files, above.as_str(), &Entries::All, &mut found)? {
        return Err(Stop::Unread);
    }
    Ok(found)
}

// Returns the folder of packages that replaces a source.
fn replacing_folder(
    alloc: Global,
    settings: &[&Document],
    source: &str,
) -> Result<Option<String>, AllocError> {
    if let Some(name) = replacement(settings, source)
        && let Some((path, document)) = source_text(settings, name, "directory")
    {
        return Ok(Some(join(alloc, settings_folder(document), path)?));
    }
    Ok(None)
}

/// Returns the folders with the packages of crates.io: the one that Cargo's settings name, or those
/// that Cargo has unpacked. Cargo unpacks the packages of a local registry too.
pub fn find_registry(
    files: &mut Files<'_>,
    settings: &[&Document],
    cargo_home: Option<&str>,
) -> Result<Registry, Stop> {
    match replacing_folder(files.alloc, settings, "crates-io")? {
        Some(folder) => Ok(registry_at(files.alloc, folder)?),
        None => Ok(Registry {
            folders: downloaded(files, cargo_home)?,
        }),
    }
}

// Returns the registry with this one folder.
fn registry_at(alloc: Global, folder: String) -> Result<Registry, AllocError> {
    let mut folders = Vec::new(alloc);
    folders.push(folder)?;
    Ok(Registry { folders })
}

// Returns the folder that paths in a file of settings begin at: the one that has `.cargo`.
fn settings_folder(document: &Document) -> &str {
    folder_of(folder_of(document.path.as_str()))
}

// Whether the manifest is of that package in that version.
fn is_version(document: &Document, locked: &Locked<'_>) -> bool {
    match package_table(document) {
        Some(package) => {
            is_text(package, "name", locked.name) && is_text(package, "version", locked.version)
        }
        None => false,
    }
}

// Returns the paths that may hold the manifest of a package.
fn candidates(
    alloc: Global,
    registry: &Registry,
    locked: &Locked<'_>,
) -> Result<Vec<String>, AllocError> {
    let mut found = Vec::new(alloc);
    for folder in registry.folders.iter() {
        found.push(path_with_version(alloc, folder.as_str(), locked)?)?;
        found.push(path_of_name(alloc, folder.as_str(), locked.name)?)?;
    }
    Ok(found)
}

// Returns the path of a package's manifest in a folder that Cargo unpacks into.
fn path_with_version(
    alloc: Global,
    folder: &str,
    locked: &Locked<'_>,
) -> Result<String, AllocError> {
    let (name, version) = (locked.name, locked.version);
    format!(in alloc; "{folder}/{name}-{version}/Cargo.toml")
}

// Returns the path of a package's manifest in a folder of `cargo vendor`.
fn path_of_name(alloc: Global, folder: &str, name: &str) -> Result<String, AllocError> {
    format!(in alloc; "{folder}/{name}/Cargo.toml")
}

/// Returns the manifest of a package in the folders of a registry; `None` if no folder has it.
pub fn in_registry<'d>(
    files: &mut Files<'d>,
    registry: &Registry,
    locked: &Locked<'_>,
) -> Result<Option<&'d Document>, Stop> {
    let mut is_unread = false;
    for path in candidates(files.alloc, registry, locked)?.iter() {
        match files.look_up(path.as_str())? {
            Lookup::Unread => is_unread = true,
            Lookup::Absent => {}
            Lookup::Found(document) => {
                if is_version(document, locked) {
                    return Ok(Some(document));
                }
            }
        }
    }
    if is_unread {
        return Err(Stop::Unread);
    }
    Ok(None)
}

/// Returns the manifest of a package of a registry.
pub fn registry_manifest<'d>(
    files: &mut Files<'d>,
    registry: &Registry,
    wanted: Wanted<'_, '_>,
) -> Result<&'d Document, Stop> {
    if let Some(found) = in_registry(files, registry, wanted.locked)? {
        return Ok(found);
    }
    let (name, version) = (wanted.locked.name, wanted.locked.version);
    let message = format!(in files.alloc;
        "`{name}` {version} isn't on this machine; run `cargo fetch`"
    )?;
    Err(wanted.refused(files.alloc, message))
}

// Returns the name of the source in Cargo's settings that is the git repository of a package.
fn git_source<'d>(settings: &[&'d Document], locked: &Locked<'_>) -> Option<&'d str> {
    let commit = commit_of(locked.source?)?;
    for document in settings {
        let document: &'d Document = *document;
        if let Some(name) = git_source_in(document, commit.url) {
            return Some(name);
        }
    }
    None
}

// Returns the name of the source in a file of settings that is the git repository at that address.
fn git_source_in<'d>(document: &'d Document, url: &str) -> Option<&'d str> {
    if let Some(Value::Table(sources)) = document.member("source") {
        for (name, source) in sources.iter() {
            if is_text(source, "git", url) {
                return Some(name.as_str());
            }
        }
    }
    None
}

/// Returns the manifest of a package from git, read in the folder that replaces its repository.
/// `cargo vendor` makes such a folder. Returns `None` if the settings name no folder, or if the
/// folder doesn't have the package.
pub fn in_replacement<'d>(
    files: &mut Files<'d>,
    settings: &[&'d Document],
    locked: &Locked<'_>,
) -> Result<Option<&'d Document>, Stop> {
    let Some(source) = git_source(settings, locked) else {
        return Ok(None);
    };
    match replacing_folder(files.alloc, settings, source)? {
        Some(folder) => in_registry(files, &registry_at(files.alloc, folder)?, locked),
        None => Ok(None),
    }
}
