// Finds the packages of git repositories in the checkouts that Cargo keeps, and the packages that
// `[patch]` names.
use crate::documents::{Document, Lookup, is_text, text_at};
use crate::lockfile::Locked;
use crate::packages::package_table;
use crate::paths::{folder_of, join};
use crate::problem::Stop;
use crate::sources::Wanted;
use crate::workspaces::{Files, member_of};
use std::alloc::{AllocError, Global};
use toml::Value;

// The limit of folders inside one another that are searched for a manifest.
const MAX_DEPTH: usize = 6;

/// A commit of a repository.
#[derive(Clone, Copy, Drop)]
pub struct Commit<'d> {
    pub url: &'d str,
    pub revision: &'d str,
}

/// Returns the commit of a source `git+URL?KEY=VALUE#REVISION`; `None` for any other text.
pub fn commit_of(source: &str) -> Option<Commit<'_>> {
    let (address, revision) = source.strip_prefix("git+")?.split_once('#')?;
    let url = match address.split_once('?') {
        Some((url, _)) => url,
        None => address,
    };
    Some(Commit { url, revision })
}

// Returns the name of a repository: the last part of its address, without `.git`.
fn repository_name(url: &str) -> &str {
    let url = url.strip_suffix("/").unwrap_or(url);
    let name = match url.rsplit_once('/') {
        Some((_, last)) => last,
        None => url,
    };
    name.strip_suffix(".git").unwrap_or(name)
}

// Whether a folder `NAME-HASH` of Cargo's is of the repository with that name.
fn is_of(folder: &str, name: &str) -> bool {
    match folder.rsplit_once('-') {
        Some((before, _)) => before.eq_ignore_ascii_case(name),
        None => false,
    }
}

// Whether a folder with that name may have packages.
fn is_searched(name: &str) -> bool {
    !name.starts_with('.') && name != "target"
}

/// The entries of a folder that are wanted.
#[derive(Drop)]
pub enum Entries<'e> {
    All,
    /// Cargo's folders of the repository of that name.
    OfRepository(&'e str),
    /// The checkouts of the commit with that number. Their names are its first digits.
    OfCommit(&'e str),
    /// The folders that may have packages.
    Searched,
}

impl Entries<'_> {
    // Whether the entry of that name is wanted.
    fn has(&self, name: &str) -> bool {
        match self {
            Entries::All => true,
            Entries::OfRepository(repository) => is_of(name, *repository),
            Entries::OfCommit(revision) => revision.starts_with(name),
            Entries::Searched => is_searched(name),
        }
    }
}

/// Adds the paths of the entries of a folder that are wanted. Returns whether the folder is read.
pub fn add_entries(
    files: &mut Files<'_>,
    folder: &str,
    entries: &Entries<'_>,
    found: &mut Vec<String>,
) -> Result<bool, AllocError> {
    match files.look_up_folder(folder)? {
        Lookup::Unread => return Ok(false),
        Lookup::Absent => {}
        Lookup::Found(listing) => add_wanted(files.alloc, folder, listing, entries, found)?,
    }
    Ok(true)
}

// Adds the paths of the wanted entries of a folder that is read.
fn add_wanted(
    alloc: Global,
    folder: &str,
    listing: &Document,
    entries: &Entries<'_>,
    found: &mut Vec<String>,
) -> Result<(), AllocError> {
    for name in listing.names(alloc)?.iter() {
        if entries.has(*name) {
            found.push(format!(in alloc; "{folder}/{name}")?)?;
        }
    }
    Ok(())
}

// Returns the folders with checkouts of the commit.
fn checkouts(files: &mut Files<'_>, home: &str, commit: Commit<'_>) -> Result<Vec<String>, Stop> {
    let alloc = files.alloc;
    let of_name = Entries::OfRepository(repository_name(commit.url));
    let above = format!(in alloc; "{home}/git/checkouts")?;
    let mut repositories = Vec::new(alloc);
    if !add_entries(files, above.as_str(), &of_name, &mut repositories)? {
        return Err(Stop::Unread);
    }
    let mut found = Vec::new(alloc);
    let of_commit = Entries::OfCommit(commit.revision);
    if !add_all_entries(files, &repositories, &of_commit, &mut found)? {
        return Err(Stop::Unread);
    }
    Ok(found)
}

// Adds the paths of the entries of folders that are wanted. Returns whether the folders are read.
fn add_all_entries(
    files: &mut Files<'_>,
    folders: &[String],
    entries: &Entries<'_>,
    found: &mut Vec<String>,
) -> Result<bool, AllocError> {
    let mut is_read = true;
    for folder in folders {
        is_read &= add_entries(files, folder.as_str(), entries, found)?;
    }
    Ok(is_read)
}

/// Whether the manifest is of the package of that name and version. A version that the workspace
/// sets is any.
pub fn is_locked(document: &Document, locked: &Locked<'_>) -> bool {
    match package_table(document) {
        Some(package) => {
            is_text(package, "name", locked.name) && may_have_version(package, locked.version)
        }
        None => false,
    }
}

// Whether a table `[package]` has the version, or takes it from the workspace.
fn may_have_version(package: &Value, version: &str) -> bool {
    match text_at(package, "version") {
        Some(own) => own == version,
        None => true,
    }
}

// Returns the manifest of a package in one of the folders. Adds the folders in them to `below`.
fn search_level<'d>(
    files: &mut Files<'d>,
    folders: &[String],
    locked: &Locked<'_>,
    below: &mut Vec<String>,
) -> Result<Option<&'d Document>, Stop> {
    let mut is_read = true;
    for folder in folders {
        let folder = folder.as_str();
        match files.look_up_in(folder, "Cargo.toml")? {
            Lookup::Unread => is_read = false,
            Lookup::Absent => {}
            Lookup::Found(document) => {
                if is_locked(document, locked) {
                    return Ok(Some(document));
                }
            }
        }
        is_read &= add_entries(files, folder, &Entries::Searched, below)?;
    }
    if !is_read {
        return Err(Stop::Unread);
    }
    Ok(None)
}

// Returns the manifest of a package in one of the folders or below them.
fn search<'d>(
    files: &mut Files<'d>,
    folders: Vec<String>,
    locked: &Locked<'_>,
) -> Result<Option<&'d Document>, Stop> {
    let mut level = folders;
    for _ in 0..MAX_DEPTH {
        let mut below = Vec::new(files.alloc);
        if let Some(found) = search_level(files, &level, locked, &mut below)? {
            return Ok(Some(found));
        }
        level = below;
    }
    Ok(None)
}

// Returns the manifest of a package in a checkout. It is the manifest of the checkout's folder, or
// of a member of the workspace there.
fn known_manifest<'d>(
    files: &mut Files<'d>,
    checkout: &str,
    locked: &Locked<'_>,
) -> Result<Option<&'d Document>, Stop> {
    match files.look_up_in(checkout, "Cargo.toml")? {
        Lookup::Unread => Err(Stop::Unread),
        Lookup::Absent => Ok(None),
        Lookup::Found(document) => member_of(files, document, locked.name),
    }
}

// Returns the manifest of a package in the checkouts of a commit.
fn in_checkouts<'d>(
    files: &mut Files<'d>,
    home: &str,
    commit: Commit<'_>,
    locked: &Locked<'_>,
) -> Result<Option<&'d Document>, Stop> {
    let folders = checkouts(files, home, commit)?;
    for folder in folders.iter() {
        if let Some(found) = known_manifest(files, folder.as_str(), locked)? {
            return Ok(Some(found));
        }
    }
    search(files, folders, locked)
}

/// Returns the manifest of a package of a git repository.
pub fn git_manifest<'d>(
    files: &mut Files<'d>,
    home: Option<&str>,
    wanted: Wanted<'_, '_>,
) -> Result<&'d Document, Stop> {
    let locked = wanted.locked;
    if let Some(home) = home
        && let Some(source) = locked.source
        && let Some(commit) = commit_of(source)
        && let Some(found) = in_checkouts(files, home, commit, locked)?
    {
        return Ok(found);
    }
    let (name, version) = (locked.name, locked.version);
    let message = format!(in files.alloc;
        "`{name}` {version} from git isn't on this machine; run `cargo fetch`"
    )?;
    Err(wanted.refused(files.alloc, message))
}

// ---- `[patch]`

// Returns the path that an entry of `[patch]` has for a package.
fn patch_path<'d>(key: &str, entry: &'d Value, name: &str) -> Option<&'d str> {
    let package = text_at(entry, "package").unwrap_or(key);
    if package == name {
        text_at(entry, "path")
    } else {
        None
    }
}

// Adds the paths that a table `[patch.SOURCE]` has for a package.
fn add_patch_paths(
    alloc: Global,
    entries: &Value,
    folder: &str,
    name: &str,
    found: &mut Vec<String>,
) -> Result<(), AllocError> {
    if let Value::Table(entries) = entries {
        for (key, entry) in entries.iter() {
            if let Some(path) = patch_path(key.as_str(), entry, name) {
                found.push(join(alloc, folder, path)?)?;
            }
        }
    }
    Ok(())
}

// Adds the paths that the tables `[patch]` of a document have for a package.
fn patch_paths(
    alloc: Global,
    document: &Document,
    folder: &str,
    name: &str,
    found: &mut Vec<String>,
) -> Result<(), AllocError> {
    if let Some(Value::Table(sources)) = document.member("patch") {
        for (_, entries) in sources.iter() {
            add_patch_paths(alloc, entries, folder, name, found)?;
        }
    }
    Ok(())
}

// Returns the folders that `[patch]` of the root manifest and of Cargo's settings has for a package.
fn patch_folders(
    alloc: Global,
    root: &Document,
    settings: &[&Document],
    name: &str,
) -> Result<Vec<String>, AllocError> {
    let mut folders = Vec::new(alloc);
    let folder = folder_of(root.path.as_str());
    patch_paths(alloc, root, folder, name, &mut folders)?;
    for document in settings {
        let folder = folder_of(folder_of(document.path.as_str()));
        patch_paths(alloc, *document, folder, name, &mut folders)?;
    }
    Ok(folders)
}

/// Returns the manifest of a package that Cargo.lock has without a source: `[patch]` of the root
/// manifest or of Cargo's settings names its folder.
pub fn patched_manifest<'d>(
    files: &mut Files<'d>,
    root: &Document,
    settings: &[&Document],
    wanted: Wanted<'_, '_>,
) -> Result<&'d Document, Stop> {
    let locked = wanted.locked;
    for folder in patch_folders(files.alloc, root, settings, locked.name)?.iter() {
        let document = files.required_manifest(root, "patch", locked.name, folder.as_str())?;
        if is_locked(document, locked) {
            return Ok(document);
        }
    }
    let (name, version) = (locked.name, locked.version);
    let message = format!(in files.alloc;
        "Cargo.lock has no source of `{name}` {version}, nor has `[patch]` a path; run `cargo update`"
    )?;
    Err(wanted.refused(files.alloc, message))
}
