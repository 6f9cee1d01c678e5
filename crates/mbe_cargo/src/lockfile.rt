// Cargo.lock: the exact versions of dependencies.
use crate::dependencies::{Dependency, refused};
use crate::documents::{Document, member, text_at, texts_of};
use crate::packages::Package;
use crate::problem::Stop;
use semver::{Version, VersionReq};
use std::alloc::{AllocError, Global};
use toml::Value;

/// A package of a lock file.
#[derive(Drop)]
pub struct Locked<'d> {
    pub name: &'d str,
    pub version: &'d str,
    /// Where it comes from; `None` for a package at a path.
    pub source: Option<&'d str>,
    dependencies: Vec<&'d str>,
}

// Returns a package of a lock file.
fn locked_of<'d>(alloc: Global, package: &'d Value) -> Result<Locked<'d>, AllocError> {
    Ok(Locked {
        name: text_at(package, "name").unwrap_or(""),
        version: text_at(package, "version").unwrap_or(""),
        source: text_at(package, "source"),
        dependencies: texts_of(alloc, member(package, "dependencies"))?,
    })
}

// Returns an error if the file has a version of the format that isn't known. Versions 1 and 2 have
// no number.
fn check_version(alloc: Global, document: &Document, value: &Value) -> Result<(), Stop> {
    match member(value, "version") {
        None | Some(Value::Integer(1..=4)) => Ok(()),
        Some(_) => {
            let message = String::from_str(
                alloc,
                "this version of the lock file isn't known; the versions 1 to 4 are",
            )?;
            Err(refused(alloc, document, "", "version", message))
        }
    }
}

/// Returns the packages of a lock file, of the versions 1 to 4 of its format. The first version has
/// the root package in a table `[root]`.
pub fn locked_packages<'d>(alloc: Global, document: &'d Document) -> Result<Vec<Locked<'d>>, Stop> {
    let mut found = Vec::new(alloc);
    let Some(value) = &document.value else {
        return Ok(found);
    };
    check_version(alloc, document, value)?;
    add_packages(alloc, value, &mut found)?;
    Ok(found)
}

// Adds the packages of a lock file.
fn add_packages<'d>(
    alloc: Global,
    value: &'d Value,
    found: &mut Vec<Locked<'d>>,
) -> Result<(), AllocError> {
    if let Some(package) = member(value, "root") {
        found.push(locked_of(alloc, package)?)?;
    }
    if let Some(Value::Array(packages)) = member(value, "package") {
        for package in packages.iter() {
            found.push(locked_of(alloc, package)?)?;
        }
    }
    Ok(())
}

// Whether a text `(SOURCE)` is the source of a package. The source of a commit may be without its
// number.
fn is_source(text: &str, source: Option<&str>) -> bool {
    let (Some(text), Some(source)) = (inside(text), source) else {
        return false;
    };
    match source.strip_prefix(text) {
        Some(rest) => rest.is_empty() || rest.starts_with('#'),
        None => false,
    }
}

// Returns the text in parentheses.
fn inside(text: &str) -> Option<&str> {
    text.strip_prefix("(")?.strip_suffix(")")
}

// Whether an entry `NAME`, `NAME VERSION` or `NAME VERSION (SOURCE)` is that package.
fn is_entry(entry: &str, locked: &Locked<'_>) -> bool {
    let Some((name, rest)) = entry.split_once(' ') else {
        return entry == locked.name;
    };
    match rest.split_once(' ') {
        Some((version, source)) => {
            name == locked.name && version == locked.version && is_source(source, locked.source)
        }
        None => name == locked.name && rest == locked.version,
    }
}

// Returns the entry of a package in the lock file.
fn entry_of<'l, 'd>(lock: &'l [Locked<'d>], package: &Package<'_>) -> Option<&'l Locked<'d>> {
    for locked in lock {
        if locked.name == package.name && locked.version == package.version {
            return Some(locked);
        }
    }
    None
}

// Whether the version meets the requirement. Texts that can't be read don't.
fn meets(alloc: Global, requirement: Option<&str>, version: &str) -> bool {
    let Some(requirement) = requirement else {
        return true;
    };
    match (
        VersionReq::parse(alloc, requirement),
        Version::parse(alloc, version),
    ) {
        (Ok(requirement), Ok(version)) => requirement.matches(&version),
        _ => false,
    }
}

// Whether the lock file says that the package depends on `locked`.
fn is_listed(entry: Option<&Locked<'_>>, locked: &Locked<'_>) -> bool {
    let Some(entry) = entry else {
        return true;
    };
    for one in entry.dependencies.iter() {
        if is_entry(*one, locked) {
            return true;
        }
    }
    false
}

// Whether a package may be what a dependency names: a dependency from git has a package from git,
// and any other one a package of a registry. `[patch]` may give either a package at a path.
fn is_alike(dependency: &Dependency<'_>, locked: &Locked<'_>) -> bool {
    match locked.source {
        Some(source) => dependency.is_git == source.starts_with("git+"),
        None => true,
    }
}

// Returns the numbers of the packages of a lock file that a dependency could be.
fn matching(
    alloc: Global,
    lock: &[Locked<'_>],
    package: &Package<'_>,
    dependency: &Dependency<'_>,
) -> Result<Vec<usize>, AllocError> {
    let entry = entry_of(lock, package);
    let mut found = Vec::new(alloc);
    for (number, locked) in lock.iter().enumerate() {
        if locked.name == dependency.package
            && is_listed(entry, locked)
            && meets(alloc, dependency.requirement, locked.version)
        {
            found.push(number)?;
        }
    }
    Ok(found)
}

// Returns the only one of these numbers; of several, the only one whose package the dependency may
// name by its kind of source.
fn only_of(lock: &[Locked<'_>], numbers: &[usize], dependency: &Dependency<'_>) -> Option<usize> {
    let is_one = numbers.len() == 1;
    let mut only = None;
    for number in numbers {
        if let Some(locked) = lock.get(*number)
            && (is_one || is_alike(dependency, locked))
        {
            if only.is_some() {
                return None;
            }
            only = Some(*number);
        }
    }
    only
}

// Says how many packages a dependency could be, if that isn't one.
fn count_text(alloc: Global, name: &str, count: usize) -> Result<String, AllocError> {
    if count == 0 {
        return format!(in alloc;
            "Cargo.lock has no version of `{name}` for it; run `cargo generate-lockfile`"
        );
    }
    format!(in alloc; "Cargo.lock has {count} versions of `{name}` that it could be")
}

/// Returns the package of a lock file that a dependency is.
pub fn locked_for<'l, 'd>(
    alloc: Global,
    lock: &'l [Locked<'d>],
    package: &Package<'_>,
    dependency: &Dependency<'_>,
) -> Result<&'l Locked<'d>, Stop> {
    let found = matching(alloc, lock, package, dependency)?;
    if let Some(number) = only_of(lock, &found, dependency)
        && let Some(only) = lock.get(number)
    {
        return Ok(only);
    }
    let key = dependency.key;
    let message = count_text(alloc, dependency.package, found.len())?;
    Err(refused(alloc, package.document, "dependencies", key, message))
}
