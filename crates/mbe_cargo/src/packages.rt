// Packages: what a manifest says about its package and its library.
use crate::dependencies::{Dependency, Manifest, Platform, read_dependencies, refused};
use crate::documents::{Document, flag_at, is_set, member, member_in, text_at};
use crate::paths::{folder_of, join};
use crate::problem::Stop;
use crate::workspaces::{Files, workspace_of};
use std::alloc::{AllocError, Global};
use toml::Value;

/// What a package is to the build.
#[derive(Clone, Copy, Drop)]
pub enum Role {
    /// The root package, of which a test, an example or a benchmark is built.
    Tested,
    /// A package on this machine by a path or from git.
    Local,
    /// A package of a registry.
    Downloaded,
}

/// A package.
#[derive(Drop)]
pub struct Package<'d> {
    pub document: &'d Document,
    pub value: &'d Value,
    pub workspace: Option<&'d Document>,
    pub name: &'d str,
    pub version: &'d str,
    pub edition: &'d str,
    /// Whether it is on this machine by a path, not from a registry.
    pub is_local: bool,
    pub is_proc_macro: bool,
    pub dependencies: Vec<Dependency<'d>>,
}

// Returns a text of the table `[package]`, or of the workspace if it is inherited.
fn package_text<'d>(
    package: &'d Value,
    workspace: Option<&'d Document>,
    key: &str,
) -> Option<&'d str> {
    let own = member(package, key)?;
    if !is_set(own, "workspace") {
        return own.as_str();
    }
    text_at(member(workspace?.member("workspace")?, "package")?, key)
}

// Whether the library of the package is a procedural macro.
fn is_proc_macro(value: &Value) -> bool {
    match member(value, "lib") {
        Some(lib) => is_set(lib, "proc-macro") || is_set(lib, "proc_macro"),
        None => false,
    }
}

// Returns a text that the manifest has or inherits, or the default if it doesn't name it. It is an
// error if it names it and there is none.
fn text_or<'d>(
    alloc: Global,
    document: &'d Document,
    package: &'d Value,
    workspace: Option<&'d Document>,
    key: &str,
    default: &'d str,
) -> Result<&'d str, Stop> {
    if let Some(text) = package_text(package, workspace, key) {
        return Ok(text);
    }
    if member(package, key).is_none() {
        return Ok(default);
    }
    let message = format!(in alloc; "`{key}` isn't a text, and no workspace has one")?;
    Err(refused(alloc, document, "package", key, message))
}

/// Reads the package of a manifest, with its dependencies of tests if `role` is so.
pub fn read_package<'d>(
    files: &mut Files<'d>,
    document: &'d Document,
    platform: Platform<'_>,
    role: Role,
) -> Result<Package<'d>, Stop> {
    let alloc = files.alloc;
    let is_local = !matches!(role, Role::Downloaded);
    let workspace = if is_local {
        workspace_of(files, document)?
    } else {
        None
    };
    let (Some(value), Some(package)) = (&document.value, package_table(document)) else {
        let message = String::from_str(alloc, "the manifest has no table `[package]`")?;
        return Err(refused(alloc, document, "package", "name", message));
    };
    let manifest = Manifest {
        document,
        value,
        workspace,
    };
    let is_tested = matches!(role, Role::Tested);
    Ok(Package {
        document,
        value,
        workspace,
        name: text_or(alloc, document, package, None, "name", "")?,
        version: text_or(alloc, document, package, workspace, "version", "0.0.0")?,
        edition: text_or(alloc, document, package, workspace, "edition", "2015")?,
        is_local,
        is_proc_macro: is_proc_macro(value),
        dependencies: read_dependencies(alloc, manifest, platform, is_tested)?,
    })
}

/// Returns the table `[package]` of a manifest.
pub fn package_table(document: &Document) -> Option<&Value> {
    document.member("package")
}

/// Returns the name of a manifest's package. It is empty if the manifest has none.
pub fn package_name(document: &Document) -> &str {
    match package_table(document) {
        Some(package) => text_at(package, "name").unwrap_or(""),
        None => "",
    }
}

/// Returns a name as code writes it: with `_` for `-`.
pub fn name_in_code(alloc: Global, name: &str) -> Result<String, AllocError> {
    let mut code = String::new(alloc);
    for c in name.chars() {
        code.push(if c == '-' { '_' } else { c })?;
    }
    Ok(code)
}

impl<'d> Package<'d> {
    /// Returns the folder of the package.
    pub fn folder(&self) -> &'d str {
        folder_of(self.document.path.as_str())
    }

    fn lib_text(&self, key: &str) -> Option<&'d str> {
        text_at(member(self.value, "lib")?, key)
    }

    /// Returns the name of the library's crate.
    pub fn library_name(&self, alloc: Global) -> Result<String, AllocError> {
        name_in_code(alloc, self.lib_text("name").unwrap_or(self.name))
    }

    /// Returns the root file of the library.
    pub fn library_root(&self, alloc: Global) -> Result<String, AllocError> {
        join(
            alloc,
            self.folder(),
            self.lib_text("path").unwrap_or("src/lib.rs"),
        )
    }

    /// Returns a boolean of the table `[package]`.
    pub fn package_flag(&self, key: &str) -> Option<bool> {
        flag_at(member(self.value, "package")?, key)
    }

    /// Returns a text of the table `[package]`.
    pub fn package_text(&self, key: &str) -> Option<&'d str> {
        text_at(member(self.value, "package")?, key)
    }

    /// Returns the values of a feature; `None` if the table `[features]` doesn't have it.
    pub fn feature_values(&self, feature: &str) -> Option<&'d Value> {
        member_in(self.value, "features", feature)
    }

    /// Whether the manifest has an optional dependency of that name: for this platform or another
    /// one, or of the build script.
    pub fn has_optional(&self, key: &str) -> bool {
        is_optional_in(self.value, key) || is_optional_for(member(self.value, "target"), key)
    }

    /// Returns the names of all optional dependencies: for this platform or another one, or of the
    /// build script.
    pub fn optional_keys(&self, alloc: Global) -> Result<Vec<&'d str>, AllocError> {
        let mut found = Vec::new(alloc);
        add_optional(self.value, &mut found)?;
        add_optional_for(member(self.value, "target"), &mut found)?;
        Ok(found)
    }
}

// Whether the table has an optional dependency of that name.
fn is_optional(tables: &Value, table: &str, key: &str) -> bool {
    match member_in(tables, table, key) {
        Some(dependency) => is_set(dependency, "optional"),
        None => false,
    }
}

// Whether one of the tables has an optional dependency of that name.
fn is_optional_in(tables: &Value, key: &str) -> bool {
    is_optional(tables, "dependencies", key)
        || is_optional(tables, "build-dependencies", key)
        || is_optional(tables, "build_dependencies", key)
}

// Whether the tables of some target have an optional dependency of that name.
fn is_optional_for(targets: Option<&Value>, key: &str) -> bool {
    if let Some(Value::Table(targets)) = targets {
        for (_, tables) in targets.iter() {
            if is_optional_in(tables, key) {
                return true;
            }
        }
    }
    false
}

// Adds the names of the optional dependencies in a table.
fn add_optional_in<'d>(
    table: Option<&'d Value>,
    found: &mut Vec<&'d str>,
) -> Result<(), AllocError> {
    if let Some(Value::Table(table)) = table {
        for (key, dependency) in table.iter() {
            if is_set(dependency, "optional") {
                found.push(key.as_str())?;
            }
        }
    }
    Ok(())
}

// Adds the names of the optional dependencies in the tables.
fn add_optional<'d>(tables: &'d Value, found: &mut Vec<&'d str>) -> Result<(), AllocError> {
    add_optional_in(member(tables, "dependencies"), found)?;
    add_optional_in(member(tables, "build-dependencies"), found)?;
    add_optional_in(member(tables, "build_dependencies"), found)
}

// Adds the names of the optional dependencies of all targets.
fn add_optional_for<'d>(
    targets: Option<&'d Value>,
    found: &mut Vec<&'d str>,
) -> Result<(), AllocError> {
    if let Some(Value::Table(targets)) = targets {
        for (_, tables) in targets.iter() {
            add_optional(tables, found)?;
        }
    }
    Ok(())
}
