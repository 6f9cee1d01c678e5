// The planner: it holds the files that were read, and asks for more until there is a plan.
use crate::cfg_expression::Cfg;
use crate::dependencies::{Platform, refused};
use crate::documents::{Document, Lookup, Need};
use crate::features::{FeatureChoice, has_feature};
use crate::packages::{Package, Role, package_name, package_table, read_package};
use crate::paths::folder_of;
use crate::plan::{Plan, plan_of};
use crate::problem::{Problem, Stop, add_name, problem_at};
use crate::resolution::{Resolution, Sources, resolve};
use crate::settings::{build_target, flag_cfgs, flag_words, settings};
use crate::targets::{
    Target, TargetChoice, chosen_targets, has_library, no_library, required_features,
};
use crate::workspaces::{Files, member_of, members, workspace_of};
use std::alloc::{AllocError, Global};
use toml::Value;

/// A request for a plan: the package, the target, the features and the platform.
#[derive(Clone, Copy, Drop)]
pub struct Request<'r> {
    /// The path of the manifest `Cargo.toml`. It should be absolute, since workspaces and settings
    /// are looked for in the folders above.
    pub manifest: &'r str,
    pub packages: PackageChoice<'r>,
    /// The targets that are planned. Without one, the library is, or the program if there is no
    /// library.
    pub targets: &'r [TargetChoice<'r>],
    /// Whether a package without a library is an error.
    pub is_library_needed: bool,
    /// Whether the code is compiled for its tests, with the dependencies of tests.
    pub is_test: bool,
    pub features: &'r [&'r str],
    pub all_features: bool,
    pub default_features: bool,
    /// The folder that Cargo keeps its downloads in.
    pub cargo_home: Option<&'r str>,
    /// The flags of the variable RUSTFLAGS.
    pub flags: Option<&'r str>,
    /// The platform that is compiled for. `None` is the one of Cargo's settings, or else the first
    /// of `platforms`.
    pub triple: Option<&'r str>,
    /// The platforms that are known, each with its options for `cfg`.
    pub platforms: &'r [Platform<'r>],
}

/// The packages that are planned.
#[derive(Clone, Copy, Drop)]
pub enum PackageChoice<'r> {
    /// The manifest's own.
    Own,
    /// The package of that name in the workspace.
    Named(&'r str),
    /// All packages of the workspace.
    Workspace,
}

/// The result of a step.
#[derive(Drop)]
pub enum Step {
    /// The program should read these files, and take a step again.
    Needs(Vec<Need>),
    /// A plan for each target.
    Planned(Vec<Plan>),
    Refused(Problem),
}

/// The files that were read.
#[derive(Drop)]
pub struct Planner {
    alloc: Global,
    documents: Vec<Document>,
}

impl Planner {
    /// Returns a planner without files.
    pub fn new(alloc: Global) -> Planner {
        Planner {
            alloc,
            documents: Vec::new(alloc),
        }
    }

    /// Adds a file with its text, or a folder with the names in it, one a line; `None` if there is
    /// no such file. Returns an error if the text isn't TOML and should be.
    pub fn add(&mut self, path: &str, text: Option<String>) -> Result<Option<Problem>, AllocError> {
        match Document::read(self.alloc, path, text)? {
            Ok(document) => {
                self.documents.push(document)?;
                Ok(None)
            }
            Err(problem) => Ok(Some(problem)),
        }
    }

    /// Returns the plan, or the files that it needs first.
    pub fn step<'d>(&'d self, request: Request<'d>) -> Result<Step, AllocError> {
        let mut files = Files {
            alloc: self.alloc,
            documents: self.documents.as_slice(),
            needs: Vec::new(self.alloc),
        };
        match plans(&mut files, request) {
            Ok(plans) => Ok(Step::Planned(plans)),
            Err(Stop::OutOfMemory) => Err(AllocError),
            Err(Stop::Refused(problem)) => Ok(Step::Refused(problem)),
            Err(Stop::Unread) => Ok(Step::Needs(files.needs)),
        }
    }
}

// Returns the manifest of the request.
fn manifest<'d>(files: &mut Files<'d>, request: Request<'d>) -> Result<&'d Document, Stop> {
    match files.look_up(request.manifest)? {
        Lookup::Found(document) => Ok(document),
        Lookup::Unread => Err(Stop::Unread),
        Lookup::Absent => {
            let message = String::from_str(files.alloc, "there is no such manifest")?;
            Err(Stop::Refused(problem_at(files.alloc, request.manifest, (0, 0), message)?))
        }
    }
}

// Returns the manifest itself, if it is of a package.
fn own<'d>(files: &Files<'d>, document: &'d Document) -> Result<&'d Document, Stop> {
    if package_table(document).is_some() {
        return Ok(document);
    }
    let message = String::from_str(
        files.alloc,
        "the manifest is of a workspace; choose a package with `--package`, or take `--workspace`",
    )?;
    Err(refused(files.alloc, document, "workspace", "members", message))
}

// Returns the manifests of the packages that are asked for.
fn chosen<'d>(
    files: &mut Files<'d>,
    request: Request<'d>,
    document: &'d Document,
    root: &'d Document,
) -> Result<Vec<&'d Document>, Stop> {
    let mut found = Vec::new(files.alloc);
    match request.packages {
        PackageChoice::Own => found.push(own(files, document)?)?,
        PackageChoice::Workspace => return members(files, root),
        PackageChoice::Named(name) => match member_of(files, root, name)? {
            Some(member) => found.push(member)?,
            None => return Err(no_member(files, root, name)?),
        },
    }
    Ok(found)
}

// Returns the error of a package that the workspace doesn't have.
fn no_member<'d>(files: &mut Files<'d>, root: &'d Document, name: &str) -> Result<Stop, Stop> {
    let mut names = String::new(files.alloc);
    for member in members(files, root)?.iter() {
        add_name(&mut names, package_name(*member))?;
    }
    let message = format!(in files.alloc; "the workspace has no package `{name}`{names}")?;
    Ok(refused(files.alloc, root, "workspace", "members", message))
}

// Returns an error if the root manifest replaces packages by the table `[replace]`.
fn check_replace(alloc: Global, root: &Document) -> Result<(), Stop> {
    if let Some(Value::Table(_)) = root.member("replace") {
        let message = String::from_str(
            alloc,
            "the table `[replace]` isn't supported; write `[patch]` for it",
        )?;
        return Err(refused(alloc, root, "", "replace", message));
    }
    Ok(())
}

// Returns the platform that is compiled for.
fn platform_of<'d>(
    files: &Files<'d>,
    request: Request<'d>,
    settings: &[&'d Document],
    document: &'d Document,
) -> Result<Platform<'d>, Stop> {
    let (triple, from) = match (request.triple, build_target(settings)) {
        (Some(triple), _) => (Some(triple), document),
        (None, Some((triple, from))) => (Some(triple), from),
        (None, None) => (None, document),
    };
    if let Some(platform) = find_platform(request.platforms, triple) {
        return Ok(platform);
    }
    let triple = triple.unwrap_or("");
    let message = format!(in files.alloc;
        "the target `{triple}` isn't known; name another by `--target`"
    )?;
    Err(refused(files.alloc, from, "build", "target", message))
}

// Returns the platform of that name, or the first one.
fn find_platform<'d>(platforms: &[Platform<'d>], triple: Option<&str>) -> Option<Platform<'d>> {
    let Some(triple) = triple else {
        return platforms.first().copied();
    };
    for platform in platforms {
        if platform.triple == triple {
            return Some(*platform);
        }
    }
    None
}

// What is known before the targets of a package are planned.
#[derive(Drop)]
struct Setting<'d> {
    settings: Vec<&'d Document>,
    triple: &'d str,
    /// The options for `cfg` of the platform, and of the settings.
    cfgs: Vec<Cfg<'d>>,
    /// How many of these are of the platform.
    own: usize,
}

// Returns the settings for a package.
fn setting_of<'d>(
    files: &mut Files<'d>,
    request: Request<'d>,
    document: &'d Document,
) -> Result<Setting<'d>, Stop> {
    let folder = folder_of(document.path.as_str());
    let settings = settings(files, folder, request.cargo_home)?;
    let platform = platform_of(files, request, &settings, document)?;
    let cfgs = cfgs_of(files.alloc, platform, &settings, request.flags)?;
    Ok(Setting {
        settings,
        triple: platform.triple,
        cfgs,
        own: platform.cfgs.len(),
    })
}

// Returns the `cfg` options of a platform, followed by those that the settings add.
fn cfgs_of<'d>(
    alloc: Global,
    platform: Platform<'d>,
    settings: &[&'d Document],
    flags: Option<&'d str>,
) -> Result<Vec<Cfg<'d>>, AllocError> {
    let words = flag_words(alloc, settings, platform.triple, platform.cfgs, flags)?;
    let mut cfgs = Vec::new(alloc);
    add_cfgs(&mut cfgs, platform.cfgs)?;
    add_cfgs(&mut cfgs, &flag_cfgs(alloc, &words)?)?;
    Ok(cfgs)
}

// Adds options for `cfg`.
fn add_cfgs<'d>(found: &mut Vec<Cfg<'d>>, cfgs: &[Cfg<'d>]) -> Result<(), AllocError> {
    for cfg in cfgs {
        found.push(*cfg)?;
    }
    Ok(())
}

// Whether the package has the feature `FEATURE`, or a dependency `NAME` for `NAME/FEATURE`.
fn has_own(package: &Package<'_>, feature: &str) -> bool {
    let key = match feature.split_once('/') {
        Some((key, _)) => key,
        None => feature,
    };
    has_feature(package, key) || has_dependency(package, key)
}

// Whether the package has a dependency of that name.
fn has_dependency(package: &Package<'_>, key: &str) -> bool {
    for dependency in package.dependencies.iter() {
        if dependency.key == key {
            return true;
        }
    }
    false
}

// Returns the features of the request that a package has, if it is one of several; else all.
fn features_for<'d>(
    files: &Files<'d>,
    request: Request<'d>,
    package: &Package<'d>,
) -> Result<Vec<&'d str>, AllocError> {
    let mut found = Vec::new(files.alloc);
    let is_one = !matches!(request.packages, PackageChoice::Workspace);
    for feature in request.features {
        if is_one || has_own(package, *feature) {
            found.push(*feature)?;
        }
    }
    Ok(found)
}

// Resolves the features of a target of a package and of the packages that it uses.
fn resolution_of<'d>(
    files: &mut Files<'d>,
    request: Request<'d>,
    place: Place<'d>,
    setting: &Setting<'d>,
    target: &Target<'d>,
) -> Result<Resolution<'d>, Stop> {
    let platform = Platform {
        triple: setting.triple,
        cfgs: setting.cfgs.as_slice(),
    };
    let is_tested = request.is_test || target.uses_test_dependencies();
    let role = if is_tested { Role::Tested } else { Role::Local };
    let package = read_package(files, place.document, platform, role)?;
    let features = features_for(files, request, &package)?;
    let choice = FeatureChoice {
        features: features.as_slice(),
        is_all: request.all_features,
        is_default: request.default_features,
    };
    let mut sources = Sources {
        platform,
        cargo_home: request.cargo_home,
        root: place.root,
        settings: setting.settings.as_slice(),
        lock: None,
        registry: None,
    };
    resolve(files, &mut sources, package, choice)
}

// Plans a target of a package. Returns `None` if the target needs features that aren't enabled, and
// isn't asked for by its name.
fn target_plan<'d>(
    files: &mut Files<'d>,
    request: Request<'d>,
    place: Place<'d>,
    setting: &Setting<'d>,
    target: &Target<'d>,
) -> Result<Option<Plan>, Stop> {
    let resolution = resolution_of(files, request, place, setting, target)?;
    if !has_required(files, &resolution, target)? {
        return Ok(None);
    }
    let given = setting.cfgs.get(setting.own..).unwrap_or(&[]);
    Ok(Some(plan_of(files, &resolution, target, setting.triple, given)?))
}

// Whether the features are enabled that a target needs. It is an error if they aren't and the
// target is asked for by its name.
fn has_required(
    files: &Files<'_>,
    resolution: &Resolution<'_>,
    target: &Target<'_>,
) -> Result<bool, Stop> {
    let Some(feature) = missing(files.alloc, resolution, target)? else {
        return Ok(true);
    };
    if target.is_named
        && let Some(root) = resolution.packages.first()
    {
        let name = target.name.as_str();
        let message = format!(in files.alloc;
            "`{name}` needs the feature `{feature}`; enable it by `--features {feature}`"
        )?;
        return Err(refused(files.alloc, root.document, "", "required-features", message));
    }
    Ok(false)
}

// Returns the first feature that a target needs and that isn't enabled.
fn missing<'d>(
    alloc: Global,
    resolution: &Resolution<'_>,
    target: &Target<'d>,
) -> Result<Option<&'d str>, Stop> {
    let enabled = resolution.features(alloc, 0)?;
    for feature in required_features(alloc, target)?.iter() {
        if !feature.contains('/') && !has_text(&enabled, *feature) {
            return Ok(Some(*feature));
        }
    }
    Ok(None)
}

// Whether the text is one of the texts.
fn has_text(texts: &[&str], text: &str) -> bool {
    for one in texts {
        if *one == text {
            return true;
        }
    }
    false
}

// Returns an error if no package of a workspace has a feature of the request.
fn check_used(
    files: &Files<'_>,
    request: Request<'_>,
    root: &Document,
    plans: &[Plan],
) -> Result<(), Stop> {
    if let PackageChoice::Workspace = request.packages
        && let Some(feature) = unused(request.features, plans)
    {
        let message = format!(in files.alloc;
            "no package of the workspace has the feature `{feature}`"
        )?;
        return Err(refused(files.alloc, root, "workspace", "members", message));
    }
    Ok(())
}

// Returns the first of the features that no plan has enabled.
fn unused<'f>(features: &[&'f str], plans: &[Plan]) -> Option<&'f str> {
    for feature in features {
        if !feature.contains('/') && !any_has_enabled(plans, *feature) {
            return Some(*feature);
        }
    }
    None
}

// Whether the first crate of some plan has the feature.
fn any_has_enabled(plans: &[Plan], feature: &str) -> bool {
    for plan in plans {
        if has_enabled(plan, feature) {
            return true;
        }
    }
    false
}

// Whether the first crate of a plan has the feature.
fn has_enabled(plan: &Plan, feature: &str) -> bool {
    if let Some(first) = plan.crates.first() {
        for one in first.features.iter() {
            if one.as_str() == feature {
                return true;
            }
        }
    }
    false
}

// The manifest of a package, and the root manifest of its workspace.
#[derive(Clone, Copy, Drop)]
struct Place<'d> {
    document: &'d Document,
    root: &'d Document,
}

// Adds the plans of a package's targets.
fn add_plans<'d>(
    files: &mut Files<'d>,
    request: Request<'d>,
    place: Place<'d>,
    plans: &mut Vec<Plan>,
) -> Result<(), Stop> {
    let setting = setting_of(files, request, place.document)?;
    let platform = Platform {
        triple: setting.triple,
        cfgs: setting.cfgs.as_slice(),
    };
    let package = read_package(files, place.document, platform, Role::Local)?;
    if request.is_library_needed && !has_library(files, &package)? {
        return Err(no_library(files.alloc, &package)?);
    }
    let is_one = !matches!(request.packages, PackageChoice::Workspace);
    let targets = chosen_targets(files, &package, request.targets, is_one)?;
    add_target_plans(files, request, place, &setting, &targets, plans)
}

// Adds the plans of these targets of a package.
fn add_target_plans<'d>(
    files: &mut Files<'d>,
    request: Request<'d>,
    place: Place<'d>,
    setting: &Setting<'d>,
    targets: &[Target<'d>],
    plans: &mut Vec<Plan>,
) -> Result<(), Stop> {
    let mut is_unread = false;
    for target in targets {
        match target_plan(files, request, place, setting, target) {
            Ok(Some(plan)) => plans.push(plan)?,
            Ok(None) => {}
            Err(Stop::Unread) => is_unread = true,
            Err(stop) => return Err(stop),
        }
    }
    if is_unread {
        return Err(Stop::Unread);
    }
    Ok(())
}

// Adds the plans of packages with these manifests.
fn add_all_plans<'d>(
    files: &mut Files<'d>,
    request: Request<'d>,
    documents: &[&'d Document],
    root: &'d Document,
    plans: &mut Vec<Plan>,
) -> Result<(), Stop> {
    let mut is_unread = false;
    for document in documents {
        let place = Place {
            document: *document,
            root,
        };
        match add_plans(files, request, place, plans) {
            Ok(()) => {}
            Err(Stop::Unread) => is_unread = true,
            Err(stop) => return Err(stop),
        }
    }
    if is_unread {
        return Err(Stop::Unread);
    }
    Ok(())
}

// Returns the plans of the request.
fn plans<'d>(files: &mut Files<'d>, request: Request<'d>) -> Result<Vec<Plan>, Stop> {
    let alloc = files.alloc;
    let document = manifest(files, request)?;
    let root = workspace_of(files, document)?.unwrap_or(document);
    check_replace(alloc, root)?;
    let chosen = chosen(files, request, document, root)?;
    let mut plans = Vec::new(alloc);
    add_all_plans(files, request, &chosen, root, &mut plans)?;
    if plans.is_empty() {
        let message = String::from_str(
            alloc,
            "there is no target of the kinds and names that are asked for",
        )?;
        return Err(refused(alloc, document, "package", "name", message));
    }
    check_used(files, request, root, &plans)?;
    Ok(plans)
}
