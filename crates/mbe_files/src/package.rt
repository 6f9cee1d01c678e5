// The Cargo package of a session: its plans by `mbe_cargo`, and the options that a plan sets.
use crate::package_reader::{problem_text, read_plans, shown_path};
use mbe_cargo::cfg_expression::Cfg;
use mbe_cargo::dependencies::Platform;
use mbe_cargo::paths::{ancestors, folder_of, join};
use mbe_cargo::plan::{Plan, PlannedCrate};
use mbe_cargo::planner::{PackageChoice, Request};
use mbe_cargo::targets::TargetChoice;
use mbe_cfg::cfg_options::CfgOption;
use mbe_session::file_set::FileSet;
use mbe_session::session_options::{CrateSettings, ExternCrate, SessionOptions, edition, target};
use mbe_tt::span::Edition;
use std::alloc::{AllocError, Global};
use std::rt::{Env, Files};
use std::{env, fs, io};

/// Which crates of which packages are planned.
#[derive(Drop)]
pub struct PackageOptions<'w> {
    /// The path of the package's manifest. `None` is the first `Cargo.toml` in the current folder
    /// or above it.
    pub manifest: Option<&'w str>,
    pub packages: PackageChoice<'w>,
    /// The targets. Without one, the library is planned, or the program if there is no library.
    pub targets: Vec<TargetChoice<'w>>,
    /// Whether a package without a library is an error.
    pub is_library_needed: bool,
    pub all_features: bool,
    pub no_default_features: bool,
    /// The name of the target, such as `x86_64-unknown-linux-gnu`. `None` is the target of Cargo's
    /// settings, or else the first of `triples`.
    pub triple: Option<&'w str>,
    /// The names of the targets whose options for `cfg` are known.
    pub triples: &'w [&'w str],
}

/// The plan of a package's target, and the current folder.
#[derive(Drop)]
pub struct PackagePlan {
    pub plan: Plan,
    folder: String,
    /// The parts of the package that the plan leaves out, each in one line.
    pub notes: Vec<String>,
}

// Returns the path of the manifest: the one that is given, or the first in the folder or above it.
fn manifest_path<R: Files + AllocGlobal>(
    rt: &R,
    package: &PackageOptions<'_>,
    folder: &str,
) -> io::Result<Option<String>> {
    if let Some(path) = package.manifest {
        return Ok(Some(join(rt.alloc(), folder, path)?));
    }
    for above in ancestors(rt.alloc(), folder)?.iter() {
        let path = format!(in rt.alloc(); "{above}/Cargo.toml")?;
        if fs::exists(rt, path.as_str())? {
            return Ok(Some(path));
        }
    }
    Ok(None)
}

// Returns the folder that Cargo keeps its downloads in.
fn cargo_home<R: Env + AllocGlobal>(rt: &R) -> io::Result<Option<String>> {
    if let Ok(home) = env::var(rt, "CARGO_HOME") {
        return Ok(Some(home));
    }
    match env::var(rt, "HOME") {
        Ok(home) => Ok(Some(format!(in rt.alloc(); "{home}/.cargo")?)),
        Err(_) => Ok(None),
    }
}

// Returns the flags of the variable RUSTFLAGS.
fn flags<R: Env + AllocGlobal>(rt: &R) -> Option<String> {
    match env::var(rt, "RUSTFLAGS") {
        Ok(flags) => Some(flags),
        Err(_) => None,
    }
}

// Adds options for `cfg` in the form that `mbe_cargo` takes.
fn add_cfgs<'c>(cfgs: &mut Vec<Cfg<'c>>, options: &'c [CfgOption<'c>]) -> Result<(), AllocError> {
    for option in options {
        cfgs.push(Cfg {
            name: option.name,
            value: option.value,
        })?;
    }
    Ok(())
}

/// Returns for each target its options for `cfg`, with those that `options` give. `AllocError` if
/// out of memory.
pub fn cfg_tables<'c>(
    alloc: Global,
    options: &'c SessionOptions<'_>,
    triples: &[&str],
) -> Result<Vec<Vec<Cfg<'c>>>, AllocError> {
    let mut tables = Vec::new(alloc);
    for triple in triples {
        let mut cfgs = Vec::new(alloc);
        if let Some(target) = target(*triple) {
            add_cfgs(&mut cfgs, target.options())?;
        }
        add_cfgs(&mut cfgs, options.given.as_slice())?;
        tables.push(cfgs)?;
    }
    Ok(tables)
}

/// Returns the platforms that are known, from the tables of `cfg_tables`. `AllocError` if out of
/// memory.
pub fn platforms_of<'c>(
    alloc: Global,
    triples: &'c [&'c str],
    tables: &'c [Vec<Cfg<'c>>],
) -> Result<Vec<Platform<'c>>, AllocError> {
    let mut platforms = Vec::new(alloc);
    for (triple, cfgs) in triples.iter().zip(tables.iter()) {
        platforms.push(Platform {
            triple: *triple,
            cfgs: cfgs.as_slice(),
        })?;
    }
    Ok(platforms)
}

fn text_of(text: &Option<String>) -> Option<&str> {
    match text {
        Some(text) => Some(text.as_str()),
        None => None,
    }
}

// Returns the plans of the package with that manifest.
fn plans_of<'r, R: Env + Files + AllocGlobal + Clone + Drop>(
    rt: &R,
    options: &'r SessionOptions<'r>,
    package: &'r PackageOptions<'r>,
    folder: &str,
    manifest: &'r str,
) -> io::Result<Result<Vec<Plan>, String>> {
    let home = cargo_home(rt)?;
    let flags = flags(rt);
    let tables = cfg_tables(rt.alloc(), options, package.triples)?;
    let platforms = platforms_of(rt.alloc(), package.triples, &tables)?;
    let request = Request {
        manifest,
        packages: package.packages,
        targets: package.targets.as_slice(),
        is_library_needed: package.is_library_needed,
        is_test: options.is_test,
        features: options.features.as_slice(),
        all_features: package.all_features,
        default_features: !package.no_default_features,
        cargo_home: text_of(&home),
        flags: text_of(&flags),
        triple: package.triple,
        platforms: platforms.as_slice(),
    };
    read_plans(rt, request, folder)
}

/// Plans the targets of the packages that `package` names, or of the package of the current folder,
/// with the features and the `cfg` options of `options`. The inner error is a message.
pub fn plan_packages<R: Env + Files + AllocGlobal + Clone + Drop>(
    rt: &R,
    options: &SessionOptions<'_>,
    package: &PackageOptions<'_>,
) -> io::Result<Result<Vec<PackagePlan>, String>> {
    let alloc = rt.alloc();
    let current = env::current_dir(rt)?;
    let folder = current.to_str().unwrap_or(".");
    let Some(manifest) = manifest_path(rt, package, folder)? else {
        return Ok(Err(String::from_str(
            alloc,
            "no FILE.rs is named, and there is no Cargo.toml in this folder or above it",
        )?));
    };
    let plans = match plans_of(rt, options, package, folder, manifest.as_str())? {
        Ok(plans) => plans,
        Err(message) => return Ok(Err(message)),
    };
    let mut found = Vec::new(alloc);
    for plan in plans {
        found.push(PackagePlan::of(alloc, folder, plan)?)?;
    }
    Ok(Ok(found))
}

// Returns the name by which the root crate uses crate `number`; else the crate's own name.
fn name_of<'p>(plan: &'p Plan, number: usize, planned: &'p PlannedCrate) -> (&'p str, bool) {
    if let Some(root) = plan.crates.first() {
        for link in root.links.iter() {
            if link.number == number {
                return (link.name.as_str(), true);
            }
        }
    }
    (planned.name.as_str(), false)
}

// Returns the edition of a crate of the plan.
fn edition_of(planned: &PlannedCrate) -> Option<Edition> {
    edition(planned.edition.as_str())
}

// Copies the features of a crate.
fn features_of<'p>(alloc: Global, planned: &'p PlannedCrate) -> Result<Vec<&'p str>, AllocError> {
    let mut features = Vec::new(alloc);
    for feature in planned.features.iter() {
        features.push(feature.as_str())?;
    }
    Ok(features)
}

// Whether a text has `:` and then the word `kind`, with at most one space between.
fn mentions(text: &str, kind: &str) -> bool {
    for part in text.split(':').skip(1) {
        let part = part.strip_prefix(" ").unwrap_or(part);
        if let Some(rest) = part.strip_prefix(kind)
            && !rest.starts_with(|c: char| c == '_' || c.is_ascii_alphanumeric())
        {
            return true;
        }
    }
    false
}

// Whether fragments of a kind in that text differ between the two editions.
fn differs(text: &str, one: Edition, other: Edition) -> bool {
    one.at_least_2021() != other.at_least_2021() && mentions(text, "pat")
        || one.at_least_2024() != other.at_least_2024() && mentions(text, "expr")
}

/// Returns a note for each external crate with another edition that has a fragment `pat` or `expr`
/// which the editions understand differently. `files` are the files of the session.
pub fn edition_notes(
    alloc: Global,
    options: &SessionOptions<'_>,
    files: &FileSet,
) -> Result<Vec<String>, AllocError> {
    let mut notes = Vec::new(alloc);
    for (at, one) in options.externs.iter().enumerate() {
        let root = options.names.len().saturating_add(at);
        if let Some(own) = &one.settings
            && files.texts.iter().zip(files.roots.iter()).any(|(file, of)| {
                *of == root && differs(file.text.as_str(), own.edition, options.edition)
            })
        {
            let name = one.name;
            notes.push(format!(in alloc;
                "crate `{name}` has another edition: its `pat` and `expr` are parsed as in the package"
            )?)?;
        }
    }
    Ok(notes)
}

impl PackagePlan {
    /// Returns the plan of a target, with its notes as texts. Paths are shown as seen from `folder`.
    /// `AllocError` if out of memory.
    pub fn of(alloc: Global, folder: &str, plan: Plan) -> Result<PackagePlan, AllocError> {
        let mut notes = Vec::new(alloc);
        for problem in plan.notes.iter() {
            notes.push(problem_text(alloc, folder, problem)?)?;
        }
        Ok(PackagePlan {
            plan,
            folder: String::from_str(alloc, folder)?,
            notes,
        })
    }

    // Adds crate `number` to the external crates. A name that another one has is noted.
    fn add_extern<'p>(
        &'p self,
        alloc: Global,
        options: &mut SessionOptions<'p>,
        notes: &mut Vec<String>,
        planned: &'p PlannedCrate,
        name: &'p str,
    ) -> Result<(), AllocError> {
        let package = planned.package.as_str();
        if options.externs.iter().any(|other| other.name == name) {
            notes.push(format!(in alloc;
                "package `{package}` is left out: another crate has the name `{name}`"
            )?)?;
            return Ok(());
        }
        let Some(edition) = edition_of(planned) else {
            let year = planned.edition.as_str();
            notes.push(format!(in alloc;
                "package `{package}` is left out: its edition `{year}` isn't known"
            )?)?;
            return Ok(());
        };
        options.externs.push(ExternCrate {
            name,
            path: shown_path(self.folder.as_str(), planned.root.as_str()),
            settings: Some(CrateSettings {
                edition,
                features: features_of(alloc, planned)?,
            }),
        })?;
        Ok(())
    }

    // Adds the crates that the root crate uses, or the crates that only other crates use.
    fn add_externs<'p>(
        &'p self,
        alloc: Global,
        options: &mut SessionOptions<'p>,
        notes: &mut Vec<String>,
        is_direct: bool,
    ) -> Result<(), AllocError> {
        for (number, planned) in self.plan.crates.iter().enumerate() {
            let (name, is_used) = name_of(&self.plan, number, planned);
            if number > 0 && is_used == is_direct {
                self.add_extern(alloc, options, notes, planned, name)?;
            }
        }
        Ok(())
    }

    // Notes the crates that a dependency knows by another name than the run.
    fn note_names(&self, alloc: Global, notes: &mut Vec<String>) -> Result<(), AllocError> {
        for planned in self.plan.crates.iter().skip(1) {
            for link in planned.links.iter() {
                if let Some(to) = self.plan.crates.get(link.number) {
                    let (name, _) = name_of(&self.plan, link.number, to);
                    if name != link.name.as_str() {
                        let (own, package) = (link.name.as_str(), planned.package.as_str());
                        notes.push(format!(in alloc;
                            "package `{package}` names the crate `{name}` `{own}`, which isn't followed"
                        )?)?;
                    }
                }
            }
        }
        Ok(())
    }

    /// Returns the crates, each in a line `NAME EDITION ROOT`, with its features after it, if any.
    pub fn text(&self, alloc: Global) -> Result<String, AllocError> {
        let mut text = String::new(alloc);
        for planned in self.plan.crates.iter() {
            let (name, year) = (planned.name.as_str(), planned.edition.as_str());
            let root = shown_path(self.folder.as_str(), planned.root.as_str());
            text.push_str(format!(in alloc; "{name} {year} {root}")?.as_str())?;
            for (number, feature) in planned.features.iter().enumerate() {
                text.push(if number == 0 { ' ' } else { ',' })?;
                text.push_str(feature.as_str())?;
            }
            text.push('\n')?;
        }
        Ok(text)
    }

    /// Returns the path of the first crate's root file, as seen from the current folder.
    pub fn root(&self) -> &str {
        match self.plan.crates.first() {
            Some(root) => shown_path(self.folder.as_str(), root.root.as_str()),
            None => "",
        }
    }

    /// Returns the folder below the package's own that has the first crate's root file, such as
    /// `src`. It is empty for a file beside the manifest, and for one elsewhere.
    pub fn root_folder(&self) -> &str {
        let package = folder_of(self.plan.manifest.as_str());
        match self.plan.crates.first() {
            Some(root) => folder_of(root.root.as_str())
                .strip_prefix(package)
                .and_then(|rest| rest.strip_prefix("/"))
                .unwrap_or(""),
            None => "",
        }
    }

    // Adds the options for `cfg` that are given, and those of Cargo's settings.
    fn add_given<'p>(
        &'p self,
        options: &mut SessionOptions<'p>,
        given: &SessionOptions<'p>,
    ) -> Result<(), AllocError> {
        for option in given.given.iter() {
            options.given.push(CfgOption {
                name: option.name,
                value: option.value,
            })?;
        }
        for cfg in self.plan.cfgs.iter() {
            options.given.push(CfgOption {
                name: cfg.name.as_str(),
                value: text_of(&cfg.value),
            })?;
        }
        Ok(())
    }

    /// Returns the options of a session for the plan. The root file, the edition, the features,
    /// the target and the external crates come from the plan, all other options from `given`. Also
    /// returns notes on what is left out. Returns `None` if the edition isn't known.
    pub fn options<'p>(
        &'p self,
        alloc: Global,
        given: &SessionOptions<'p>,
    ) -> Result<Option<(SessionOptions<'p>, Vec<String>)>, AllocError> {
        let mut notes = Vec::new(alloc);
        let Some(root) = self.plan.crates.first() else {
            return Ok(None);
        };
        let Some(edition) = edition_of(root) else {
            return Ok(None);
        };
        let mut options = copied(alloc, given)?;
        self.add_given(&mut options, given)?;
        options.edition = edition;
        options.features = features_of(alloc, root)?;
        options.target = target(self.plan.triple.as_str()).unwrap_or(given.target);
        options.is_test = given.is_test || self.plan.is_test;
        options.names.push(self.root())?;
        self.add_externs(alloc, &mut options, &mut notes, true)?;
        self.add_externs(alloc, &mut options, &mut notes, false)?;
        self.note_names(alloc, &mut notes)?;
        Ok(Some((options, notes)))
    }
}

// Copies options of a session, without its files, its features and its options for `cfg`.
fn copied<'p>(alloc: Global, given: &SessionOptions<'p>) -> Result<SessionOptions<'p>, AllocError> {
    let mut options = SessionOptions::new(alloc);
    options.dialect = given.dialect;
    options.depth = given.depth;
    options.fuel = given.fuel;
    options.max_tokens = given.max_tokens;
    options.is_traced = given.is_traced;
    options.is_origin_noted = given.is_origin_noted;
    options.explain = given.explain;
    options.with_modules = given.with_modules;
    options.call = given.call;
    for one in given.externs.iter() {
        options.externs.push(ExternCrate {
            name: one.name,
            path: one.path,
            settings: None,
        })?;
    }
    Ok(options)
}
