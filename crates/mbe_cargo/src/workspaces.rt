// Looks up files among the files that were read, and finds the workspace of a package and its
// members.
use crate::dependencies::refused;
use crate::documents::{Document, Lookup, Need, is_text, member, text_at, texts_of};
use crate::packages::package_table;
use crate::paths::{ancestors, folder_of, is_within, join};
use crate::problem::Stop;
use std::alloc::{AllocError, Global};
use toml::Value;

// The limit of rounds in which members of a workspace are found.
const MAX_ROUNDS: usize = 1_000;

/// The files that were read, and those that are needed.
#[derive(Drop)]
pub struct Files<'d> {
    pub alloc: Global,
    pub documents: &'d [Document],
    pub needs: Vec<Need>,
}

impl<'d> Files<'d> {
    // Notes that a file or the names in a folder are needed.
    fn need(&mut self, path: &str, is_folder: bool) -> Result<(), AllocError> {
        if !is_needed(&self.needs, path) {
            self.needs.push(Need {
                path: String::from_str(self.alloc, path)?,
                is_folder,
            })?;
        }
        Ok(())
    }

    /// Looks up a file. If it isn't read yet, it is needed.
    pub fn look_up(&mut self, path: &str) -> Result<Lookup<'d>, AllocError> {
        self.find(path, false)
    }

    /// Looks up the names in a folder, one a line.
    pub fn look_up_folder(&mut self, path: &str) -> Result<Lookup<'d>, AllocError> {
        self.find(path, true)
    }

    /// Looks up a file of a folder.
    pub fn look_up_in(&mut self, folder: &str, name: &str) -> Result<Lookup<'d>, AllocError> {
        let path = format!(in self.alloc; "{folder}/{name}")?;
        self.find(path.as_str(), false)
    }

    fn find(&mut self, path: &str, is_folder: bool) -> Result<Lookup<'d>, AllocError> {
        match found_in(self.documents, path) {
            Some(document) if document.text.is_some() => Ok(Lookup::Found(document)),
            Some(_) => Ok(Lookup::Absent),
            None => {
                self.need(path, is_folder)?;
                Ok(Lookup::Unread)
            }
        }
    }

    // Returns a file that has to be there.
    fn required(
        &mut self,
        from: &Document,
        table: &str,
        key: &str,
        path: &str,
    ) -> Result<&'d Document, Stop> {
        match self.look_up(path)? {
            Lookup::Found(document) => Ok(document),
            Lookup::Unread => Err(Stop::Unread),
            Lookup::Absent => {
                let message = format!(in self.alloc; "there is no file `{path}`")?;
                Err(refused(self.alloc, from, table, key, message))
            }
        }
    }

    /// Returns the manifest in a folder, which has to be there.
    pub fn required_manifest(
        &mut self,
        from: &Document,
        table: &str,
        key: &str,
        folder: &str,
    ) -> Result<&'d Document, Stop> {
        let path = format!(in self.alloc; "{folder}/Cargo.toml")?;
        self.required(from, table, key, path.as_str())
    }

    /// Whether the file is there.
    pub fn is_there(&mut self, path: &str) -> Result<bool, Stop> {
        match self.look_up(path)? {
            Lookup::Found(_) => Ok(true),
            Lookup::Absent => Ok(false),
            Lookup::Unread => Err(Stop::Unread),
        }
    }
}

// Whether the file is among those that are needed.
fn is_needed(needs: &[Need], path: &str) -> bool {
    for need in needs {
        if need.path.as_str() == path {
            return true;
        }
    }
    false
}

// Returns the file with that path.
fn found_in<'d>(documents: &'d [Document], path: &str) -> Option<&'d Document> {
    for document in documents {
        if document.path.as_str() == path {
            return Some(document);
        }
    }
    None
}

// Whether one of the files has that path.
fn is_known(documents: &[&Document], path: &str) -> bool {
    for document in documents {
        if document.path.as_str() == path {
            return true;
        }
    }
    false
}

// Whether the workspace excludes the folder.
fn excludes(alloc: Global, root: &Document, folder: &str) -> Result<bool, AllocError> {
    let Some(table) = root.member("workspace") else {
        return Ok(false);
    };
    for excluded in texts_of(alloc, member(table, "exclude"))?.iter() {
        let excluded = join(alloc, folder_of(root.path.as_str()), *excluded)?;
        if is_within(folder, excluded.as_str()) {
            return Ok(true);
        }
    }
    Ok(false)
}

// Whether the manifest is the root of a workspace that the folder may belong to.
fn is_root_for(alloc: Global, document: &Document, folder: &str) -> Result<bool, AllocError> {
    if document.member("workspace").is_none() {
        return Ok(false);
    }
    Ok(!excludes(alloc, document, folder)?)
}

// Returns the innermost manifest above the folder that has a table `[workspace]`.
fn workspace_above<'d>(files: &mut Files<'d>, folder: &str) -> Result<Option<&'d Document>, Stop> {
    let mut found = None;
    let mut is_unread = false;
    for above in ancestors(files.alloc, folder)?.iter().skip(1) {
        match files.look_up_in(above.as_str(), "Cargo.toml")? {
            Lookup::Unread => is_unread = true,
            Lookup::Absent => {}
            Lookup::Found(document) => {
                if found.is_none() && is_root_for(files.alloc, document, folder)? {
                    found = Some(document);
                }
            }
        }
    }
    if is_unread {
        return Err(Stop::Unread);
    }
    Ok(found)
}

/// Returns the root manifest of the workspace of a manifest; `None` if it has none.
pub fn workspace_of<'d>(
    files: &mut Files<'d>,
    document: &'d Document,
) -> Result<Option<&'d Document>, Stop> {
    if document.value.is_none() {
        return Ok(None);
    }
    if document.member("workspace").is_some() {
        return Ok(Some(document));
    }
    let folder = folder_of(document.path.as_str());
    if let Some(package) = package_table(document)
        && let Some(path) = text_at(package, "workspace")
    {
        let root = join(files.alloc, folder, path)?;
        let found = files.required_manifest(document, "package", "workspace", root.as_str())?;
        return Ok(Some(found));
    }
    workspace_above(files, folder)
}

// Whether a name is of a pattern with at most one `*`, which stands for any text.
fn is_like(name: &str, pattern: &str) -> bool {
    match pattern.split_once('*') {
        None => name == pattern,
        Some((before, after)) => match name.strip_prefix(before) {
            Some(rest) => rest.ends_with(after),
            None => false,
        },
    }
}

// Returns the folders that the last part of a pattern names in other folders.
fn folders_like(
    files: &mut Files<'_>,
    above: &[String],
    pattern: &str,
) -> Result<Vec<String>, Stop> {
    let mut found = Vec::new(files.alloc);
    let mut is_read = true;
    for folder in above {
        is_read &= add_like(files, folder.as_str(), pattern, &mut found)?;
    }
    if !is_read {
        return Err(Stop::Unread);
    }
    Ok(found)
}

// Adds the paths in a folder that the pattern names. Returns whether the folder is read.
fn add_like(
    files: &mut Files<'_>,
    folder: &str,
    pattern: &str,
    found: &mut Vec<String>,
) -> Result<bool, AllocError> {
    if !pattern.contains('*') {
        found.push(join(files.alloc, folder, pattern)?)?;
        return Ok(true);
    }
    match files.look_up_folder(folder)? {
        Lookup::Unread => return Ok(false),
        Lookup::Absent => {}
        Lookup::Found(listing) => add_listed(files.alloc, folder, listing, pattern, found)?,
    }
    Ok(true)
}

// Adds the paths of the entries of a folder that the pattern names.
fn add_listed(
    alloc: Global,
    folder: &str,
    listing: &Document,
    pattern: &str,
    found: &mut Vec<String>,
) -> Result<(), AllocError> {
    for name in listing.names(alloc)?.iter() {
        if is_like(*name, pattern) {
            found.push(join(alloc, folder, *name)?)?;
        }
    }
    Ok(())
}

// Adds the manifests that an entry of `members` names. A pattern names no excluded folder.
fn add_members(
    files: &mut Files<'_>,
    root: &Document,
    member: &str,
    found: &mut Vec<String>,
) -> Result<(), Stop> {
    let folders = member_folders(files, root, member)?;
    let is_pattern = member.contains('*');
    for folder in folders.iter() {
        if !is_pattern || !excludes(files.alloc, root, folder.as_str())? {
            found.push(manifest_path(files.alloc, folder.as_str())?)?;
        }
    }
    Ok(())
}

// Returns the folders that an entry of `members` names.
fn member_folders(
    files: &mut Files<'_>,
    root: &Document,
    member: &str,
) -> Result<Vec<String>, Stop> {
    let alloc = files.alloc;
    let mut folders = Vec::new(alloc);
    folders.push(String::from_str(alloc, folder_of(root.path.as_str()))?)?;
    for part in member.split('/') {
        folders = folders_like(files, &folders, part)?;
    }
    Ok(folders)
}

// Returns the path of the manifest in a folder.
fn manifest_path(alloc: Global, folder: &str) -> Result<String, AllocError> {
    format!(in alloc; "{folder}/Cargo.toml")
}

// Whether the manifest is of the package of that name.
fn is_package(document: &Document, name: &str) -> bool {
    match package_table(document) {
        Some(package) => is_text(package, "name", name),
        None => false,
    }
}

// Adds the paths of manifests that the dependencies of a manifest name, below the workspace.
fn add_paths(
    alloc: Global,
    root: &Document,
    document: &Document,
    found: &mut Vec<String>,
) -> Result<(), AllocError> {
    for table in ["dependencies", "dev-dependencies", "build-dependencies"] {
        add_entry_paths(alloc, root, document, table, found)?;
    }
    Ok(())
}

// Adds the paths of manifests that a table of dependencies names.
fn add_entry_paths(
    alloc: Global,
    root: &Document,
    document: &Document,
    table: &str,
    found: &mut Vec<String>,
) -> Result<(), AllocError> {
    if let Some(Value::Table(entries)) = document.member(table) {
        for (_, entry) in entries.iter() {
            if let Some(path) = text_at(entry, "path") {
                let folder = join(alloc, folder_of(document.path.as_str()), path)?;
                add_path(alloc, root, folder.as_str(), found)?;
            }
        }
    }
    Ok(())
}

// Adds the path of the manifest in a folder, if the folder may be of a member of the workspace.
fn add_path(
    alloc: Global,
    root: &Document,
    folder: &str,
    found: &mut Vec<String>,
) -> Result<(), AllocError> {
    let is_below = is_within(folder, folder_of(root.path.as_str()));
    if is_below && !excludes(alloc, root, folder)? {
        found.push(manifest_path(alloc, folder)?)?;
    }
    Ok(())
}

// Adds the manifests at these paths that aren't known yet. Returns whether there are any.
fn add_documents<'d>(
    files: &mut Files<'d>,
    paths: &[String],
    found: &mut Vec<&'d Document>,
) -> Result<bool, Stop> {
    let mut is_unread = false;
    let mut is_new = false;
    for path in paths {
        match files.look_up(path.as_str())? {
            Lookup::Unread => is_unread = true,
            Lookup::Absent => {}
            Lookup::Found(document) => {
                if !is_known(found, document.path.as_str()) {
                    found.push(document)?;
                    is_new = true;
                }
            }
        }
    }
    if is_unread {
        return Err(Stop::Unread);
    }
    Ok(is_new)
}

/// Returns the manifests of a workspace's packages: of the root, of those that `members` names, and
/// of those below the root that are dependencies by a path.
pub fn members<'d>(files: &mut Files<'d>, root: &'d Document) -> Result<Vec<&'d Document>, Stop> {
    let alloc = files.alloc;
    let mut found = Vec::new(alloc);
    if package_table(root).is_some() {
        found.push(root)?;
    }
    let Some(table) = root.member("workspace") else {
        return Ok(found);
    };
    add_declared(files, root, table, &mut found)?;
    for _ in 0..MAX_ROUNDS {
        if !add_named(files, root, &mut found)? {
            break;
        }
    }
    Ok(found)
}

// Adds the manifests that `members` of a workspace names.
fn add_declared<'d>(
    files: &mut Files<'d>,
    root: &Document,
    table: &Value,
    found: &mut Vec<&'d Document>,
) -> Result<(), Stop> {
    let mut paths = Vec::new(files.alloc);
    for entry in texts_of(files.alloc, member(table, "members"))?.iter() {
        add_members(files, root, *entry, &mut paths)?;
    }
    add_documents(files, &paths, found)?;
    Ok(())
}

// Adds the manifests below the root that the dependencies of those that are known name. Returns
// whether there are any.
fn add_named<'d>(
    files: &mut Files<'d>,
    root: &Document,
    found: &mut Vec<&'d Document>,
) -> Result<bool, Stop> {
    let mut paths = Vec::new(files.alloc);
    for document in found.iter() {
        add_paths(files.alloc, root, *document, &mut paths)?;
    }
    add_documents(files, &paths, found)
}

/// Returns the manifest of the workspace's member of that name; `None` if there is none.
pub fn member_of<'d>(
    files: &mut Files<'d>,
    root: &'d Document,
    name: &str,
) -> Result<Option<&'d Document>, Stop> {
    if is_package(root, name) {
        return Ok(Some(root));
    }
    for document in members(files, root)?.iter() {
        if is_package(*document, name) {
            return Ok(Some(*document));
        }
    }
    Ok(None)
}
