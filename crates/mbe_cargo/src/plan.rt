// The plan: the crates of a package, and how each one is compiled.
use crate::cfg_expression::Cfg;
use crate::dependencies::Dependency;
use crate::documents::{Document, member, member_in, text_at};
use crate::features::Edge;
use crate::packages::{Package, name_in_code, package_table};
use crate::paths::join;
use crate::problem::{Problem, Stop, problem_at};
use crate::resolution::Resolution;
use crate::targets::{Target, TargetKind, has_library, library};
use crate::workspaces::Files;
use std::alloc::{AllocError, Global};
use toml::Value;

/// A crate that a crate uses: its name in code, and its number.
#[derive(Drop)]
pub struct Link {
    pub name: String,
    pub number: usize,
}

/// A crate.
#[derive(Drop)]
pub struct PlannedCrate {
    /// Its name in code.
    pub name: String,
    /// The name of its package.
    pub package: String,
    pub root: String,
    pub edition: String,
    pub features: Vec<String>,
    pub links: Vec<Link>,
}

/// An option for `cfg`: a name, or a name and a value.
#[derive(Drop)]
pub struct PlannedCfg {
    pub name: String,
    pub value: Option<String>,
}

/// The crates; the one that was asked for is the first.
#[derive(Drop)]
pub struct Plan {
    pub crates: Vec<PlannedCrate>,
    /// The path of the manifest.
    pub manifest: String,
    /// The platform that is compiled for.
    pub triple: String,
    /// Whether the first crate sees `test`.
    pub is_test: bool,
    /// The options for `cfg` that Cargo's settings give to all crates.
    pub cfgs: Vec<PlannedCfg>,
    /// The parts of the package that the plan leaves out.
    pub notes: Vec<Problem>,
}

// Copies texts.
fn copied(alloc: Global, texts: &[&str]) -> Result<Vec<String>, AllocError> {
    let mut found = Vec::new(alloc);
    for text in texts {
        found.push(String::from_str(alloc, *text)?)?;
    }
    Ok(found)
}

// Returns the crate of a target of a package, with these features and links.
fn crate_of(
    alloc: Global,
    package: &Package<'_>,
    target: &Target<'_>,
    features: Vec<String>,
    links: Vec<Link>,
) -> Result<PlannedCrate, AllocError> {
    Ok(PlannedCrate {
        name: target.crate_name(alloc)?,
        package: String::from_str(alloc, package.name)?,
        root: String::from_str(alloc, target.root.as_str())?,
        edition: String::from_str(alloc, target.edition(package))?,
        features,
        links,
    })
}

// Returns the crate of a target of package `number`.
fn planned(
    alloc: Global,
    resolution: &Resolution<'_>,
    numbers: &[Option<usize>],
    number: usize,
    package: &Package<'_>,
    target: &Target<'_>,
) -> Result<PlannedCrate, Stop> {
    let features = copied(alloc, &resolution.features(alloc, number)?)?;
    let links = links_of(alloc, resolution, numbers, number)?;
    Ok(crate_of(alloc, package, target, features, links)?)
}

// For each package, the number of its library's crate; `None` if it has none in the plan.
fn crate_numbers(
    alloc: Global,
    resolution: &Resolution<'_>,
    is_library: bool,
    has_own: bool,
) -> Result<Vec<Option<usize>>, AllocError> {
    let mut numbers = Vec::new(alloc);
    let mut next = if is_library { 0usize } else { 1 };
    for (number, package) in resolution.packages.iter().enumerate() {
        let is_left_out = if number == 0 {
            !is_library && !has_own
        } else {
            package.is_proc_macro
        };
        if is_left_out {
            numbers.push(None)?;
        } else {
            numbers.push(Some(next))?;
            next = next.saturating_add(1);
        }
    }
    Ok(numbers)
}

// Whether there is a link of that name.
fn has_link(links: &[Link], name: &str) -> bool {
    for link in links {
        if link.name.as_str() == name {
            return true;
        }
    }
    false
}

// Adds a link, if there is none of that name. A dependency may be one of tests too.
fn add_link(links: &mut Vec<Link>, name: String, number: usize) -> Result<(), AllocError> {
    if !has_link(links, name.as_str()) {
        links.push(Link { name, number })?;
    }
    Ok(())
}

// Returns the name by which a package knows the library of a dependency.
fn link_name(
    alloc: Global,
    dependency: &Dependency<'_>,
    to: &Package<'_>,
) -> Result<String, AllocError> {
    if dependency.is_renamed {
        name_in_code(alloc, dependency.key)
    } else {
        to.library_name(alloc)
    }
}

// Adds the link of a dependency, if it is used and its crate is in the plan.
fn add_edge(
    alloc: Global,
    resolution: &Resolution<'_>,
    numbers: &[Option<usize>],
    edge: Edge,
    links: &mut Vec<Link>,
) -> Result<(), AllocError> {
    if let Some(package) = resolution.packages.get(edge.from)
        && let Some(dependency) = package.dependencies.get(edge.dependency)
        && let Some(to) = resolution.packages.get(edge.to)
        && let Some(Some(linked)) = numbers.get(edge.to)
        && resolution.uses(edge.from, dependency)
    {
        add_link(links, link_name(alloc, dependency, to)?, *linked)?;
    }
    Ok(())
}

// Returns the links of a crate of package `number`.
fn links_of(
    alloc: Global,
    resolution: &Resolution<'_>,
    numbers: &[Option<usize>],
    number: usize,
) -> Result<Vec<Link>, AllocError> {
    let mut links = Vec::new(alloc);
    for edge in resolution.edges.iter() {
        if edge.from == number {
            add_edge(alloc, resolution, numbers, *edge, &mut links)?;
        }
    }
    Ok(links)
}

// Adds a note on what the plan leaves out, if that is anything.
fn note_count(
    alloc: Global,
    notes: &mut Vec<Problem>,
    package: &Package<'_>,
    count: usize,
    what: &str,
) -> Result<(), AllocError> {
    if count == 0 {
        return Ok(());
    }
    let message = format!(in alloc; "{what}: {count}")?;
    notes.push(problem_at(alloc, package.document.path.as_str(), (0, 0), message)?)?;
    Ok(())
}

// Whether a package has a build script.
fn has_script(files: &mut Files<'_>, package: &Package<'_>) -> Result<bool, Stop> {
    match member_in(package.value, "package", "build") {
        Some(Value::Boolean(flag)) => Ok(*flag),
        Some(_) => Ok(true),
        None => {
            let path = join(files.alloc, package.folder(), "build.rs")?;
            files.is_there(path.as_str())
        }
    }
}

// Returns how many packages have a build script.
fn build_scripts(files: &mut Files<'_>, resolution: &Resolution<'_>) -> Result<usize, Stop> {
    let mut count = 0usize;
    let mut is_unread = false;
    for package in resolution.packages.iter() {
        match has_script(files, package) {
            Ok(has_script) => {
                if has_script && !package.is_proc_macro {
                    count = count.saturating_add(1);
                }
            }
            Err(Stop::Unread) => is_unread = true,
            Err(stop) => return Err(stop),
        }
    }
    if is_unread {
        return Err(Stop::Unread);
    }
    Ok(count)
}

// Returns the text `resolver` of a manifest.
fn resolver_of(document: &Document) -> Option<&str> {
    if let Some(table) = document.member("workspace")
        && let Some(resolver) = text_at(table, "resolver")
    {
        return Some(resolver);
    }
    text_at(package_table(document)?, "resolver")
}

// Whether Cargo unifies the features of all kinds of dependencies for this package. Resolver 1
// does. It is the default of workspaces without a package and before edition 2021.
fn is_unified(root: &Package<'_>) -> bool {
    let document = root.workspace.unwrap_or(root.document);
    match resolver_of(document) {
        Some(resolver) => resolver == "1",
        None => package_table(document).is_none() || matches!(root.edition, "2015" | "2018"),
    }
}

// Whether the package has dependencies that the plan leaves out.
fn has_other_dependencies(package: &Package<'_>) -> bool {
    member(package.value, "target").is_some()
        || member(package.value, "build-dependencies").is_some()
        || package.is_local && member(package.value, "dev-dependencies").is_some()
}

// Whether one of the packages has dependencies that the plan leaves out.
fn any_has_others(packages: &[Package<'_>]) -> bool {
    for package in packages {
        if has_other_dependencies(package) {
            return true;
        }
    }
    false
}

// Adds a note if Cargo may enable more features.
fn note_resolver(
    alloc: Global,
    notes: &mut Vec<Problem>,
    resolution: &Resolution<'_>,
) -> Result<(), AllocError> {
    if let Some(root) = resolution.packages.first()
        && is_unified(root)
        && any_has_others(&resolution.packages)
    {
        let message = String::from_str(
            alloc,
            "Cargo's resolver 1 may enable more features: for tests, build scripts, other platforms",
        )?;
        notes.push(problem_at(alloc, root.document.path.as_str(), (0, 0), message)?)?;
    }
    Ok(())
}

// Returns how many packages are procedural macros.
fn proc_macros(packages: &[Package<'_>]) -> usize {
    let mut count = 0usize;
    for package in packages {
        if package.is_proc_macro {
            count = count.saturating_add(1);
        }
    }
    count
}

// Returns the notes on what the plan leaves out.
fn notes_of(files: &mut Files<'_>, resolution: &Resolution<'_>) -> Result<Vec<Problem>, Stop> {
    let mut notes = Vec::new(files.alloc);
    add_counts(files, resolution, &mut notes)?;
    note_resolver(files.alloc, &mut notes, resolution)?;
    Ok(notes)
}

// Adds notes on the procedural macros and the build scripts.
fn add_counts(
    files: &mut Files<'_>,
    resolution: &Resolution<'_>,
    notes: &mut Vec<Problem>,
) -> Result<(), Stop> {
    let alloc = files.alloc;
    let scripts = build_scripts(files, resolution)?;
    let macros = proc_macros(&resolution.packages);
    if let Some(root) = resolution.packages.first() {
        note_count(
            alloc,
            notes,
            root,
            macros,
            "procedural macros that are not expanded",
        )?;
        note_count(
            alloc,
            notes,
            root,
            scripts,
            "build scripts that are not run, so `cfg`s that they set are not set",
        )?;
    }
    Ok(())
}

// Returns the crates of a target of the root package, its own first.
fn crates_of(
    files: &mut Files<'_>,
    resolution: &Resolution<'_>,
    root: &Package<'_>,
    target: &Target<'_>,
) -> Result<Vec<PlannedCrate>, Stop> {
    let alloc = files.alloc;
    let is_library = target.kind == TargetKind::Library;
    let has_own = !is_library && has_library(files, root)?;
    let numbers = crate_numbers(alloc, resolution, is_library, has_own)?;
    let first = first_crate(alloc, resolution, &numbers, root, target, has_own)?;
    let mut crates = Vec::new(alloc);
    crates.push(first)?;
    add_libraries(alloc, resolution, &numbers, &mut crates)?;
    Ok(crates)
}

// Returns the crate of a target of the root package. `has_own` says that it uses the library.
fn first_crate(
    alloc: Global,
    resolution: &Resolution<'_>,
    numbers: &[Option<usize>],
    root: &Package<'_>,
    target: &Target<'_>,
    has_own: bool,
) -> Result<PlannedCrate, Stop> {
    let mut first = planned(alloc, resolution, numbers, 0, root, target)?;
    if has_own {
        add_link(&mut first.links, root.library_name(alloc)?, 1)?;
    }
    Ok(first)
}

// Adds the crates of the libraries. Their numbers begin at 1, since 0 is the target's own crate.
fn add_libraries(
    alloc: Global,
    resolution: &Resolution<'_>,
    numbers: &[Option<usize>],
    crates: &mut Vec<PlannedCrate>,
) -> Result<(), Stop> {
    for (number, package) in resolution.packages.iter().enumerate() {
        if let Some(Some(at)) = numbers.get(number)
            && *at > 0
        {
            crates.push(library_crate(alloc, resolution, numbers, number, package)?)?;
        }
    }
    Ok(())
}

// Returns the crate of the library of package `number`.
fn library_crate(
    alloc: Global,
    resolution: &Resolution<'_>,
    numbers: &[Option<usize>],
    number: usize,
    package: &Package<'_>,
) -> Result<PlannedCrate, Stop> {
    let target = library(alloc, package)?;
    planned(alloc, resolution, numbers, number, package, &target)
}

// Copies an option for `cfg`.
fn planned_cfg(alloc: Global, cfg: Cfg<'_>) -> Result<PlannedCfg, AllocError> {
    let value = match cfg.value {
        Some(value) => Some(String::from_str(alloc, value)?),
        None => None,
    };
    Ok(PlannedCfg {
        name: String::from_str(alloc, cfg.name)?,
        value,
    })
}

// Copies options for `cfg`.
fn copied_cfgs(alloc: Global, cfgs: &[Cfg<'_>]) -> Result<Vec<PlannedCfg>, AllocError> {
    let mut found = Vec::new(alloc);
    for cfg in cfgs {
        found.push(planned_cfg(alloc, *cfg)?)?;
    }
    Ok(found)
}

/// Returns the plan of a target of the root package, for a platform, with the options for `cfg`
/// that Cargo's settings give.
pub fn plan_of(
    files: &mut Files<'_>,
    resolution: &Resolution<'_>,
    target: &Target<'_>,
    triple: &str,
    cfgs: &[Cfg<'_>],
) -> Result<Plan, Stop> {
    let alloc = files.alloc;
    let Some(root) = resolution.packages.first() else {
        return Err(Stop::Unread);
    };
    let notes = notes_of(files, resolution)?;
    Ok(Plan {
        crates: crates_of(files, resolution, root, target)?,
        manifest: String::from_str(alloc, root.document.path.as_str())?,
        triple: String::from_str(alloc, triple)?,
        is_test: target.is_test(),
        cfgs: copied_cfgs(alloc, cfgs)?,
        notes,
    })
}
