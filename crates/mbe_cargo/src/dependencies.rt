// The dependencies that a manifest names.
use crate::cfg_expression::{Cfg, evaluate};
use crate::documents::{
    Document, add_texts, flag_at, is_set, member, member_in, text_at, texts_of,
};
use crate::paths::{folder_of, join};
use crate::positions::position_of;
use crate::problem::{Stop, problem_at};
use std::alloc::Global;
use toml::Value;

/// A dependency of a package.
#[derive(Drop)]
pub struct Dependency<'d> {
    /// Its name in the table of dependencies.
    pub key: &'d str,
    /// The name of its package.
    pub package: &'d str,
    /// Whether `package = ".."` renames it.
    pub is_renamed: bool,
    /// The requirement on its version.
    pub requirement: Option<&'d str>,
    /// The folder of its package, if `path = ".."` names one.
    pub folder: Option<String>,
    /// Whether it comes from a git repository.
    pub is_git: bool,
    /// Whether only tests, examples and benchmarks use it.
    pub is_of_tests: bool,
    pub is_optional: bool,
    /// Whether it is used with its feature `default`.
    pub uses_default: bool,
    pub features: Vec<&'d str>,
}

/// The platform that is compiled for.
#[derive(Clone, Copy, Drop)]
pub struct Platform<'r> {
    pub triple: &'r str,
    pub cfgs: &'r [Cfg<'r>],
}

/// The manifest whose dependencies are read, and the root of its workspace.
#[derive(Clone, Copy, Drop)]
pub struct Manifest<'d> {
    pub document: &'d Document,
    pub value: &'d Value,
    pub workspace: Option<&'d Document>,
}

/// Returns an error at a key of a manifest's table.
pub fn refused(
    alloc: Global,
    document: &Document,
    table: &str,
    key: &str,
    message: String,
) -> Stop {
    let place = match &document.text {
        Some(text) => position_of(text.as_str(), table, key),
        None => (0, 0),
    };
    match problem_at(alloc, document.path.as_str(), place, message) {
        Ok(problem) => Stop::Refused(problem),
        Err(_) => Stop::OutOfMemory,
    }
}

// Returns what the workspace says of a dependency, and the workspace's folder.
fn inherited<'d>(
    alloc: Global,
    manifest: Manifest<'d>,
    key: &str,
) -> Result<(&'d Value, &'d str), Stop> {
    if let Some(document) = manifest.workspace
        && let Some(workspace) = document.member("workspace")
        && let Some(found) = member_in(workspace, "dependencies", key)
    {
        return Ok((found, folder_of(document.path.as_str())));
    }
    let message = format!(in alloc; "no workspace has a dependency `{key}`")?;
    Err(refused(alloc, manifest.document, "dependencies", key, message))
}

// Returns the requirement on the version.
fn requirement_of(value: &Value) -> Option<&str> {
    match value.as_str() {
        Some(text) => Some(text),
        None => text_at(value, "version"),
    }
}

fn default_features(value: &Value) -> Option<bool> {
    match flag_at(value, "default-features") {
        Some(flag) => Some(flag),
        None => flag_at(value, "default_features"),
    }
}

// Returns the folder that `path = ".."` names.
fn folder_at(alloc: Global, folder: &str, value: &Value) -> Result<Option<String>, Stop> {
    match text_at(value, "path") {
        Some(path) => Ok(Some(join(alloc, folder, path)?)),
        None => Ok(None),
    }
}

// Returns a dependency. `value` is what says where it comes from, seen from `folder`.
fn dependency_of<'d>(
    alloc: Global,
    key: &'d str,
    value: &'d Value,
    folder: &str,
) -> Result<Dependency<'d>, Stop> {
    let renamed = text_at(value, "package");
    Ok(Dependency {
        key,
        package: renamed.unwrap_or(key),
        is_renamed: renamed.is_some(),
        requirement: requirement_of(value),
        folder: folder_at(alloc, folder, value)?,
        is_git: text_at(value, "git").is_some(),
        is_of_tests: false,
        is_optional: is_set(value, "optional"),
        uses_default: default_features(value).unwrap_or(true),
        features: texts_of(alloc, member(value, "features"))?,
    })
}

// Reads an entry of a table of dependencies.
fn read_entry<'d>(
    alloc: Global,
    manifest: Manifest<'d>,
    key: &'d str,
    value: &'d Value,
) -> Result<Dependency<'d>, Stop> {
    if !is_set(value, "workspace") {
        let folder = folder_of(manifest.document.path.as_str());
        return dependency_of(alloc, key, value, folder);
    }
    let (base, folder) = inherited(alloc, manifest, key)?;
    let mut dependency = dependency_of(alloc, key, base, folder)?;
    dependency.is_optional = is_set(value, "optional");
    dependency.uses_default |= default_features(value).unwrap_or(false);
    add_texts(member(value, "features"), &mut dependency.features)?;
    Ok(dependency)
}

// Adds the dependencies of a table.
fn add_table<'d>(
    alloc: Global,
    manifest: Manifest<'d>,
    table: Option<&'d Value>,
    is_of_tests: bool,
    found: &mut Vec<Dependency<'d>>,
) -> Result<(), Stop> {
    if let Some(Value::Table(table)) = table {
        for (key, value) in table.iter() {
            let mut dependency = read_entry(alloc, manifest, key.as_str(), value)?;
            dependency.is_of_tests = is_of_tests;
            found.push(dependency)?;
        }
    }
    Ok(())
}

// Adds the dependencies of a manifest, or of one of its tables for a target.
fn add_tables<'d>(
    alloc: Global,
    manifest: Manifest<'d>,
    value: &'d Value,
    with_tests: bool,
    found: &mut Vec<Dependency<'d>>,
) -> Result<(), Stop> {
    add_table(alloc, manifest, member(value, "dependencies"), false, found)?;
    if !with_tests {
        return Ok(());
    }
    let (table, other) = (
        member(value, "dev-dependencies"),
        member(value, "dev_dependencies"),
    );
    add_table(alloc, manifest, table, true, found)?;
    add_table(alloc, manifest, other, true, found)
}

// Whether the dependencies of that target are used.
fn is_for(
    alloc: Global,
    manifest: Manifest<'_>,
    platform: Platform<'_>,
    target: &str,
) -> Result<bool, Stop> {
    if !target.starts_with("cfg(") {
        return Ok(target == platform.triple);
    }
    match evaluate(alloc, target, platform.cfgs)? {
        Some(value) => Ok(value),
        None => {
            let message = format!(in alloc; "`{target}` isn't a condition that can be evaluated")?;
            Err(refused(alloc, manifest.document, "target", target, message))
        }
    }
}

/// Reads the dependencies of a manifest for a build on that platform, with those of tests if
/// `with_tests`. No build script is run, so those of build scripts are left out.
pub fn read_dependencies<'d>(
    alloc: Global,
    manifest: Manifest<'d>,
    platform: Platform<'_>,
    with_tests: bool,
) -> Result<Vec<Dependency<'d>>, Stop> {
    let mut found = Vec::new(alloc);
    add_tables(alloc, manifest, manifest.value, with_tests, &mut found)?;
    add_targets(alloc, manifest, platform, with_tests, &mut found)?;
    Ok(found)
}

// Adds the dependencies in the tables for targets.
fn add_targets<'d>(
    alloc: Global,
    manifest: Manifest<'d>,
    platform: Platform<'_>,
    with_tests: bool,
    found: &mut Vec<Dependency<'d>>,
) -> Result<(), Stop> {
    if let Some(Value::Table(targets)) = member(manifest.value, "target") {
        for (target, value) in targets.iter() {
            if is_for(alloc, manifest, platform, target.as_str())? {
                add_tables(alloc, manifest, value, with_tests, found)?;
            }
        }
    }
    Ok(())
}
