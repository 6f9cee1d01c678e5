// The packages that a root package uses, and their features.
use crate::checkouts::{git_manifest, patched_manifest};
use crate::cycles::find_cycle;
use crate::dependencies::{Dependency, Platform, refused};
use crate::documents::{Document, Lookup};
use crate::features::{
    Edge, Fact, FactKind, FeatureChoice, FeatureRules, feature_rules, has_feature, use_kind,
};
use crate::least_set::least_set;
use crate::lockfile::{Locked, locked_for, locked_packages};
use crate::packages::{Package, Role, read_package};
use crate::paths::folder_of;
use crate::problem::Stop;
use crate::sources::{Registry, Wanted, find_registry, in_replacement, registry_manifest};
use crate::workspaces::Files;
use std::alloc::{AllocError, Global};

// The limit of rounds in which packages are added.
const MAX_ROUNDS: usize = 10_000;

/// The packages that are used, the root package first, and the dependencies between them.
#[derive(Drop)]
pub struct Resolution<'d> {
    pub packages: Vec<Package<'d>>,
    pub edges: Vec<Edge>,
    pub rules: FeatureRules<'d>,
    pub marks: Vec<bool>,
}

/// The files and folders by which the packages of registries are found.
#[derive(Drop)]
pub struct Sources<'d, 'r> {
    pub platform: Platform<'r>,
    pub cargo_home: Option<&'r str>,
    /// The root manifest of the workspace.
    pub root: &'d Document,
    /// Cargo's settings, the innermost first.
    pub settings: &'r [&'d Document],
    pub lock: Option<Vec<Locked<'d>>>,
    pub registry: Option<Registry>,
}

// Returns the packages of the Cargo.lock beside the root manifest, if there is one.
fn lock_of<'d>(files: &mut Files<'d>, root: &Document) -> Result<Option<Vec<Locked<'d>>>, Stop> {
    match files.look_up_in(folder_of(root.path.as_str()), "Cargo.lock")? {
        Lookup::Found(document) => Ok(Some(locked_packages(files.alloc, document)?)),
        Lookup::Absent => Ok(None),
        Lookup::Unread => Err(Stop::Unread),
    }
}

// Reads Cargo.lock and the folders of registries, if that isn't done yet.
fn open_registry<'d>(files: &mut Files<'d>, sources: &mut Sources<'d, '_>) -> Result<(), Stop> {
    if sources.lock.is_some() && sources.registry.is_some() {
        return Ok(());
    }
    sources.lock = lock_of(files, sources.root)?;
    sources.registry = Some(find_registry(files, sources.settings, sources.cargo_home)?);
    Ok(())
}

// Returns the manifest of a dependency that Cargo.lock names.
fn locked_manifest<'d>(
    files: &mut Files<'d>,
    sources: &mut Sources<'d, '_>,
    package: &Package<'d>,
    dependency: &Dependency<'d>,
) -> Result<(&'d Document, Role), Stop> {
    let alloc = files.alloc;
    open_registry(files, sources)?;
    let (Some(lock), Some(registry)) = (&sources.lock, &sources.registry) else {
        let message = String::from_str(
            alloc,
            "there is no Cargo.lock; run `cargo generate-lockfile`",
        )?;
        let key = dependency.key;
        return Err(refused(alloc, package.document, "dependencies", key, message));
    };
    let wanted = Wanted {
        package,
        dependency,
        locked: locked_for(alloc, lock, package, dependency)?,
    };
    match wanted.locked.source {
        None => {
            let found = patched_manifest(files, sources.root, sources.settings, wanted)?;
            Ok((found, Role::Local))
        }
        Some(source) if source.starts_with("git+") => {
            from_git(files, sources.settings, sources.cargo_home, wanted)
        }
        Some(_) => Ok((
            registry_manifest(files, registry, wanted)?,
            Role::Downloaded,
        )),
    }
}

// Returns the manifest of a dependency from git.
fn from_git<'d>(
    files: &mut Files<'d>,
    settings: &[&'d Document],
    cargo_home: Option<&str>,
    wanted: Wanted<'_, 'd>,
) -> Result<(&'d Document, Role), Stop> {
    if let Some(found) = in_replacement(files, settings, wanted.locked)? {
        return Ok((found, Role::Downloaded));
    }
    Ok((git_manifest(files, cargo_home, wanted)?, Role::Local))
}

// Returns the manifest of a dependency, and what its package is to the build.
fn manifest_of<'d>(
    files: &mut Files<'d>,
    sources: &mut Sources<'d, '_>,
    package: &Package<'d>,
    dependency: &Dependency<'d>,
) -> Result<(&'d Document, Role), Stop> {
    let Some(folder) = &dependency.folder else {
        return locked_manifest(files, sources, package, dependency);
    };
    let from = package.document;
    let found = files.required_manifest(from, "dependencies", dependency.key, folder.as_str())?;
    Ok((found, Role::Local))
}

// Returns the number of the package with that manifest.
fn package_number(packages: &[Package<'_>], document: &Document) -> Option<usize> {
    for (number, package) in packages.iter().enumerate() {
        if package.document.path.as_str() == document.path.as_str() {
            return Some(number);
        }
    }
    None
}

// Whether the fact holds.
fn holds(
    rules: &FeatureRules<'_>,
    marks: &[bool],
    package: usize,
    kind: FactKind,
    name: &str,
) -> bool {
    match rules.number_of(package, kind, name) {
        Some(number) => marks.get(number) == Some(&true),
        None => false,
    }
}

impl<'d> Resolution<'d> {
    fn new(
        alloc: Global,
        rules: FeatureRules<'d>,
        root: Package<'d>,
    ) -> Result<Resolution<'d>, Stop> {
        let mut packages = Vec::new(alloc);
        packages.push(root)?;
        Ok(Resolution {
            packages,
            edges: Vec::new(alloc),
            rules,
            marks: Vec::new(alloc),
        })
    }

    // Computes the features anew.
    fn resolve(&mut self, alloc: Global, choice: FeatureChoice<'_, 'd>) -> Result<(), Stop> {
        self.rules = feature_rules(alloc, &self.packages, &self.edges, choice)?;
        let count = self.rules.facts.len().saturating_add(1);
        if let Some(marks) = least_set(alloc, &self.rules.rules, count)? {
            self.marks = marks;
            return Ok(());
        }
        let message = String::from_str(alloc, "the features can't be resolved")?;
        match self.packages.first() {
            Some(root) => Err(refused(alloc, root.document, "features", "default", message)),
            None => Ok(()),
        }
    }

    // Adds the packages that are used, with their features.
    fn complete(
        &mut self,
        files: &mut Files<'d>,
        sources: &mut Sources<'d, '_>,
        choice: FeatureChoice<'_, 'd>,
    ) -> Result<(), Stop> {
        for _ in 0..MAX_ROUNDS {
            self.resolve(files.alloc, choice)?;
            if !self.grow(files, sources)? {
                break;
            }
        }
        self.check_cycles(files.alloc)?;
        self.check_features(files.alloc)
    }

    /// Whether the package uses its dependency.
    pub fn uses(&self, package: usize, dependency: &Dependency<'_>) -> bool {
        let kind = use_kind(dependency);
        holds(&self.rules, &self.marks, package, kind, dependency.key)
    }

    fn has_edge(&self, from: usize, dependency: usize) -> bool {
        for edge in self.edges.iter() {
            if edge.from == from && edge.dependency == dependency {
                return true;
            }
        }
        false
    }

    // Returns the dependencies that are used and whose package isn't known yet, each as the numbers
    // of its package and of itself.
    fn unknown(&self, alloc: Global) -> Result<Vec<(usize, usize)>, Stop> {
        let mut found = Vec::new(alloc);
        for (from, package) in self.packages.iter().enumerate() {
            self.add_unknown(from, package, &mut found)?;
        }
        Ok(found)
    }

    // Adds the dependencies of package `from` that are used and whose package isn't known yet.
    fn add_unknown(
        &self,
        from: usize,
        package: &Package<'d>,
        found: &mut Vec<(usize, usize)>,
    ) -> Result<(), AllocError> {
        for (number, dependency) in package.dependencies.iter().enumerate() {
            if self.uses(from, dependency) && !self.has_edge(from, number) {
                found.push((from, number))?;
            }
        }
        Ok(())
    }

    // Adds a package. Returns its number.
    fn add_package(&mut self, package: Package<'d>) -> Result<usize, AllocError> {
        self.packages.push(package)?;
        Ok(self.packages.len().saturating_sub(1))
    }

    // Adds a dependency, and its package if it is new.
    fn follow(
        &mut self,
        files: &mut Files<'d>,
        sources: &mut Sources<'d, '_>,
        from: usize,
        number: usize,
    ) -> Result<(), Stop> {
        let Some(package) = self.packages.get(from) else {
            return Ok(());
        };
        let Some(dependency) = package.dependencies.get(number) else {
            return Ok(());
        };
        let (document, role) = manifest_of(files, sources, package, dependency)?;
        let to = match package_number(&self.packages, document) {
            Some(to) => to,
            None => {
                let next = read_package(files, document, sources.platform, role)?;
                self.add_package(next)?
            }
        };
        self.edges.push(Edge {
            from,
            dependency: number,
            to,
        })?;
        Ok(())
    }

    // Adds the dependencies that are used. Returns whether there were any.
    fn grow(&mut self, files: &mut Files<'d>, sources: &mut Sources<'d, '_>) -> Result<bool, Stop> {
        let unknown = self.unknown(files.alloc)?;
        self.follow_all(files, sources, &unknown)?;
        Ok(!unknown.is_empty())
    }

    // Adds these dependencies, and the packages that are new.
    fn follow_all(
        &mut self,
        files: &mut Files<'d>,
        sources: &mut Sources<'d, '_>,
        dependencies: &[(usize, usize)],
    ) -> Result<(), Stop> {
        let mut is_unread = false;
        for (from, number) in dependencies {
            match self.follow(files, sources, *from, *number) {
                Ok(()) => {}
                Err(Stop::Unread) => is_unread = true,
                Err(stop) => return Err(stop),
            }
        }
        if is_unread {
            return Err(Stop::Unread);
        }
        Ok(())
    }

    // Returns the dependencies but those of tests.
    fn own_edges(&self, alloc: Global) -> Result<Vec<Edge>, AllocError> {
        let mut edges = Vec::new(alloc);
        for edge in self.edges.iter() {
            if let Some(from) = self.packages.get(edge.from)
                && let Some(dependency) = from.dependencies.get(edge.dependency)
                && !dependency.is_of_tests
            {
                edges.push(*edge)?;
            }
        }
        Ok(edges)
    }

    // Returns an error if packages depend on one another in a cycle. A dependency of tests may.
    fn check_cycles(&self, alloc: Global) -> Result<(), Stop> {
        let edges = self.own_edges(alloc)?;
        if let Some(edge) = find_cycle(alloc, &edges, self.packages.len())?
            && let Some(from) = self.packages.get(edge.from)
            && let Some(dependency) = from.dependencies.get(edge.dependency)
        {
            let (name, key) = (from.name, dependency.key);
            let message = format!(in alloc;
                "`{name}` depends on itself through `{key}`; remove a dependency of the cycle"
            )?;
            return Err(refused(alloc, from.document, "dependencies", key, message));
        }
        Ok(())
    }

    // Returns an error if a feature is enabled that its package doesn't have.
    fn check_features(&self, alloc: Global) -> Result<(), Stop> {
        for fact in self.rules.facts.iter() {
            if let Some(package) = self.lacking(fact) {
                let (name, feature) = (package.name, fact.name);
                let message = format!(in alloc; "package `{name}` has no feature `{feature}`")?;
                return Err(refused(alloc, package.document, "features", feature, message));
            }
        }
        Ok(())
    }

    // Returns the package of a feature that is enabled and that the package doesn't have.
    fn lacking(&self, fact: &Fact<'d>) -> Option<&Package<'d>> {
        if fact.kind == FactKind::Feature
            && fact.name != "default"
            && let Some(package) = self.packages.get(fact.package)
            && !package.is_proc_macro
            && !has_feature(package, fact.name)
            && holds(&self.rules, &self.marks, fact.package, fact.kind, fact.name)
        {
            return Some(package);
        }
        None
    }

    /// Returns the features of a package, in the order of their names.
    pub fn features(&self, alloc: Global, number: usize) -> Result<Vec<&'d str>, Stop> {
        let mut found = Vec::new(alloc);
        if let Some(package) = self.packages.get(number) {
            self.add_features(number, package, &mut found)?;
        }
        found.sort_unstable();
        Ok(found)
    }

    // Adds the features of package `number`.
    fn add_features(
        &self,
        number: usize,
        package: &Package<'d>,
        found: &mut Vec<&'d str>,
    ) -> Result<(), AllocError> {
        for (at, fact) in self.rules.facts.iter().enumerate() {
            if fact.package == number
                && fact.kind == FactKind::Feature
                && self.marks.get(at.saturating_add(1)) == Some(&true)
                && has_feature(package, fact.name)
            {
                found.push(fact.name)?;
            }
        }
        Ok(())
    }
}

/// Resolves the features of a root package and of the packages that it uses.
pub fn resolve<'d>(
    files: &mut Files<'d>,
    sources: &mut Sources<'d, '_>,
    root: Package<'d>,
    choice: FeatureChoice<'_, 'd>,
) -> Result<Resolution<'d>, Stop> {
    let alloc = files.alloc;
    let rules = feature_rules(alloc, &[], &[], choice)?;
    let mut resolution = Resolution::new(alloc, rules, root)?;
    resolution.complete(files, sources, choice)?;
    Ok(resolution)
}
