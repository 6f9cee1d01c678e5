// Features: which features and optional dependencies of packages are enabled.
//
// This module writes the rules of Cargo's resolver 2 as rules over numbered facts. `least_set`
// returns the least set of facts that obeys them. A fact says that a package has a feature, or that
// it uses a dependency.
use crate::dependencies::Dependency;
use crate::documents::member;
use crate::least_set::Rule;
use crate::packages::Package;
use std::alloc::{AllocError, Global};
use toml::Value;

/// The statement that a fact makes about a package.
#[derive(Clone, Copy, PartialEq, Eq, Drop)]
pub enum FactKind {
    /// The package has the feature.
    Feature,
    /// The package uses the dependency.
    Dependency,
    /// The tests of the package use the dependency.
    TestDependency,
}

/// Returns the kind of the fact that a dependency is used.
pub fn use_kind(dependency: &Dependency<'_>) -> FactKind {
    if dependency.is_of_tests {
        FactKind::TestDependency
    } else {
        FactKind::Dependency
    }
}

/// A fact.
#[derive(Clone, Copy, Drop)]
pub struct Fact<'d> {
    pub package: usize,
    pub kind: FactKind,
    pub name: &'d str,
}

/// A dependency whose package is known. Packages and dependencies are numbers.
#[derive(Clone, Copy, Drop)]
pub struct Edge {
    pub from: usize,
    pub dependency: usize,
    pub to: usize,
}

// A package, its number, and the dependencies whose packages are known.
#[derive(Clone, Copy, Drop)]
struct Owner<'p, 'd> {
    number: usize,
    package: &'p Package<'d>,
    edges: &'p [Edge],
}

/// The features that are asked for of the root package.
#[derive(Clone, Copy, Drop)]
pub struct FeatureChoice<'r, 'd> {
    pub features: &'r [&'d str],
    pub is_all: bool,
    pub is_default: bool,
}

/// The rules, and the facts that their numbers stand for. Fact `n` has the number `n + 1`.
#[derive(Drop)]
pub struct FeatureRules<'d> {
    alloc: Global,
    pub facts: Vec<Fact<'d>>,
    pub rules: Vec<Rule>,
}

// The number of the fact that always holds.
const ALWAYS: usize = 0;

impl<'d> FeatureRules<'d> {
    fn new(alloc: Global) -> FeatureRules<'d> {
        FeatureRules {
            alloc,
            facts: Vec::new(alloc),
            rules: Vec::new(alloc),
        }
    }

    /// Returns the number of a fact; `None` if no rule names it.
    pub fn number_of(&self, package: usize, kind: FactKind, name: &str) -> Option<usize> {
        let mut number = 0usize;
        for fact in self.facts.iter() {
            number = number.saturating_add(1);
            if fact.package == package && fact.kind == kind && fact.name == name {
                return Some(number);
            }
        }
        None
    }

    // Returns the number of a fact, a new one if it has none.
    fn number(
        &mut self,
        package: usize,
        kind: FactKind,
        name: &'d str,
    ) -> Result<usize, AllocError> {
        if let Some(number) = self.number_of(package, kind, name) {
            return Ok(number);
        }
        self.facts.push(Fact {
            package,
            kind,
            name,
        })?;
        Ok(self.facts.len())
    }

    fn add(&mut self, first: usize, second: usize, gives: usize) -> Result<(), AllocError> {
        self.rules.push(Rule {
            first,
            second,
            gives,
        })?;
        Ok(())
    }

    // Adds that the fact `given` gives a fact.
    fn add_given(
        &mut self,
        given: usize,
        package: usize,
        kind: FactKind,
        name: &'d str,
    ) -> Result<(), AllocError> {
        let gives = self.number(package, kind, name)?;
        self.add(given, ALWAYS, gives)
    }

    // Adds that the package of a dependency has a feature, if the package uses the dependency.
    fn add_there(
        &mut self,
        from: &Owner<'_, 'd>,
        given: usize,
        key: &'d str,
        feature: &'d str,
    ) -> Result<(), AllocError> {
        for edge in from.edges {
            if edge.from == from.number
                && let Some(dependency) = from.package.dependencies.get(edge.dependency)
                && dependency.key == key
            {
                let needed = self.number(from.number, use_kind(dependency), key)?;
                let there = self.number(edge.to, FactKind::Feature, feature)?;
                self.add(given, needed, there)?;
            }
        }
        Ok(())
    }

    // Adds what `NAME/FEATURE` or `NAME?/FEATURE` in the list of a feature enables.
    fn add_nested(
        &mut self,
        of: &Owner<'_, 'd>,
        given: usize,
        name: &'d str,
        feature: &'d str,
    ) -> Result<(), AllocError> {
        if let Some(key) = name.strip_suffix("?") {
            return self.add_there(of, given, key, feature);
        }
        self.add_given(given, of.number, FactKind::Dependency, name)?;
        if of.package.has_optional(name) && has_feature(of.package, name) {
            self.add_given(given, of.number, FactKind::Feature, name)?;
        }
        self.add_there(of, given, name, feature)
    }

    // Adds what an entry in the list of a feature enables.
    fn add_value(
        &mut self,
        of: &Owner<'_, 'd>,
        given: usize,
        value: &'d str,
    ) -> Result<(), AllocError> {
        if let Some(key) = value.strip_prefix("dep:") {
            return self.add_given(given, of.number, FactKind::Dependency, key);
        }
        match value.split_once('/') {
            Some((name, feature)) => self.add_nested(of, given, name, feature),
            None => self.add_given(given, of.number, FactKind::Feature, value),
        }
    }

    // Adds what the list of a feature enables.
    fn add_values(
        &mut self,
        of: &Owner<'_, 'd>,
        given: usize,
        values: &'d Value,
    ) -> Result<(), AllocError> {
        if let Value::Array(values) = values {
            for value in values.iter() {
                if let Some(value) = value.as_str() {
                    self.add_value(of, given, value)?;
                }
            }
        }
        Ok(())
    }

    // Adds the rules of the table `[features]` of a package.
    fn add_features(&mut self, of: &Owner<'_, 'd>) -> Result<(), AllocError> {
        if let Some(Value::Table(table)) = member(of.package.value, "features") {
            for (feature, values) in table.iter() {
                let given = self.number(of.number, FactKind::Feature, feature.as_str())?;
                self.add_values(of, given, values)?;
            }
        }
        Ok(())
    }

    // Adds which dependencies of a package are used.
    fn add_dependencies(&mut self, of: &Owner<'_, 'd>) -> Result<(), AllocError> {
        for dependency in of.package.dependencies.iter() {
            self.add_dependency(of, dependency)?;
        }
        Ok(())
    }

    // Adds whether a dependency is used.
    fn add_dependency(
        &mut self,
        of: &Owner<'_, 'd>,
        dependency: &Dependency<'d>,
    ) -> Result<(), AllocError> {
        let used = self.number(of.number, use_kind(dependency), dependency.key)?;
        if !dependency.is_optional || dependency.is_of_tests {
            return self.add(ALWAYS, ALWAYS, used);
        }
        if is_implicit(of.package, dependency.key) {
            let feature = self.number(of.number, FactKind::Feature, dependency.key)?;
            return self.add(feature, ALWAYS, used);
        }
        Ok(())
    }

    // Adds the features that a dependency asks of its package.
    fn add_asked(
        &mut self,
        used: usize,
        to: usize,
        dependency: &Dependency<'d>,
    ) -> Result<(), AllocError> {
        for feature in dependency.features.iter() {
            self.add_given(used, to, FactKind::Feature, *feature)?;
        }
        if dependency.uses_default {
            self.add_given(used, to, FactKind::Feature, "default")?;
        }
        Ok(())
    }

    // Adds what follows if a dependency is used.
    fn add_edge(&mut self, packages: &[Package<'d>], edge: Edge) -> Result<(), AllocError> {
        if let Some(package) = packages.get(edge.from)
            && let Some(dependency) = package.dependencies.get(edge.dependency)
        {
            let used = self.number(edge.from, use_kind(dependency), dependency.key)?;
            self.add_asked(used, edge.to, dependency)?;
        }
        Ok(())
    }

    // Adds the rules of the packages and of their dependencies.
    fn add_packages(&mut self, packages: &[Package<'d>], edges: &[Edge]) -> Result<(), AllocError> {
        for (number, package) in packages.iter().enumerate() {
            if !package.is_proc_macro || number == 0 {
                let owner = Owner {
                    number,
                    package,
                    edges,
                };
                self.add_features(&owner)?;
                self.add_dependencies(&owner)?;
            }
        }
        for edge in edges {
            self.add_edge(packages, *edge)?;
        }
        Ok(())
    }

    // Adds all features of the root package.
    fn add_all(&mut self, root: &Owner<'_, 'd>) -> Result<(), AllocError> {
        if let Some(Value::Table(table)) = member(root.package.value, "features") {
            for (feature, _) in table.iter() {
                self.add_value(root, ALWAYS, feature.as_str())?;
            }
        }
        for key in root.package.optional_keys(self.alloc)?.iter() {
            if is_implicit(root.package, *key) {
                self.add_value(root, ALWAYS, *key)?;
            }
        }
        Ok(())
    }

    // Adds the features that are asked for of the root package.
    fn add_choice(
        &mut self,
        root: &Owner<'_, 'd>,
        choice: FeatureChoice<'_, 'd>,
    ) -> Result<(), AllocError> {
        if choice.is_default {
            self.add_value(root, ALWAYS, "default")?;
        }
        for feature in choice.features {
            self.add_value(root, ALWAYS, *feature)?;
        }
        if choice.is_all {
            self.add_all(root)?;
        }
        Ok(())
    }
}

// Whether some feature of the package names `dep:KEY`.
fn names_dependency(package: &Package<'_>, key: &str) -> bool {
    if let Some(Value::Table(table)) = member(package.value, "features") {
        for (_, values) in table.iter() {
            if lists_dependency(values, key) {
                return true;
            }
        }
    }
    false
}

// Whether the list of a feature has `dep:KEY`.
fn lists_dependency(values: &Value, key: &str) -> bool {
    if let Value::Array(values) = values {
        for value in values.iter() {
            if let Some(text) = value.as_str()
                && text.strip_prefix("dep:") == Some(key)
            {
                return true;
            }
        }
    }
    false
}

// Whether an optional dependency is also a feature. It is if no feature has its name, and none
// names it by `dep:`.
fn is_implicit(package: &Package<'_>, key: &str) -> bool {
    package.feature_values(key).is_none() && !names_dependency(package, key)
}

/// Whether the package has a feature of that name.
pub fn has_feature(package: &Package<'_>, name: &str) -> bool {
    package.feature_values(name).is_some()
        || package.has_optional(name) && is_implicit(package, name)
}

/// Returns the rules for these packages. The root package is number 0.
pub fn feature_rules<'d>(
    alloc: Global,
    packages: &[Package<'d>],
    edges: &[Edge],
    choice: FeatureChoice<'_, 'd>,
) -> Result<FeatureRules<'d>, AllocError> {
    let mut rules = FeatureRules::new(alloc);
    rules.add_packages(packages, edges)?;
    if let Some(package) = packages.first() {
        let root = Owner {
            number: 0,
            package,
            edges,
        };
        rules.add_choice(&root, choice)?;
    }
    Ok(rules)
}
