// The command line: a table of the options, and the parser of arguments.
//
// `OPTIONS` has a row for each option. `command` makes a clap command of the rows, which parses the
// arguments and writes the help. `checked_invocation` then checks the values that clap takes as
// texts, and collects all values in `RunOptions`.
use crate::call_output::CallOutput;
use crate::reporter::CoverageForm;
use clap::builder::ValueRange;
use clap::error::ErrorKind;
use clap::{Arg, ArgAction, ArgMatches, Command, Error, value_parser};
use mbe_cargo::planner::PackageChoice;
use mbe_cargo::targets::{TargetChoice, TargetKind};
use mbe_files::package::PackageOptions;
use mbe_files::write_conflicts::OutputFolder;
use mbe_session::locations::CallPosition;
use mbe_session::session_options::{
    SessionOptions, dialect, edition, parse_cfg, parse_extern, target,
};
use std::alloc::{AllocError, Global};

/// The version of the program.
pub const VERSION: &str = "0.1.0";

const ABOUT: &str =
    "Expands the macro calls of Rust files, and prints the last file. Without a file, \
expands the package of the current folder.";

// The name of the argument for files.
const FILES: &str = "FILE.rs";

static EDITIONS: [&str; 4] = ["2015", "2018", "2021", "2024"];

// The values of `--target`, the default first.
static TARGETS: [&str; 5] = [
    "x86_64-unknown-linux-gnu",
    "x86_64-pc-windows-msvc",
    "x86_64-apple-darwin",
    "aarch64-apple-darwin",
    "wasm32-unknown-unknown",
];

// The values of `--dialect`.
static DIALECTS: [&str; 2] = ["rust-analyzer", "rustc"];

// The kind of value that an option takes. The texts are the names of values in the help.
#[derive(Drop)]
enum OptionValue {
    Flag,
    Text(&'static str),
    Number(&'static str),
    /// One of `choices_of` the option.
    Choice(&'static str),
    /// A value after `=`, or none.
    Optional(&'static str),
    /// Each use of the option adds a value.
    List(&'static str),
    /// Each use adds a value, or several values with commas between them.
    CommaList(&'static str),
}

// An option of the command line.
#[derive(Drop)]
struct OptionRow {
    name: &'static str,
    value: OptionValue,
    help: &'static str,
}

// The options that a run with files doesn't take.
static PACKAGE_OPTIONS: [&str; 16] = [
    "manifest-path",
    "package",
    "workspace",
    "lib",
    "bin",
    "bins",
    "example",
    "examples",
    "tests",
    "bench",
    "benches",
    "all-targets",
    "all-features",
    "no-default-features",
    "release",
    "plan",
];

// The options that print or write something else than `--trace=json`.
static WITHOUT_DATA: [&str; 6] = ["call", "write", "html", "step", "coverage", "lint"];

static OPTIONS: [OptionRow; 42] = [
    OptionRow {
        name: "manifest-path",
        value: OptionValue::Text("PATH"),
        help: "Expand the package with this Cargo.toml",
    },
    OptionRow {
        name: "package",
        value: OptionValue::Text("NAME"),
        help: "Expand this package of the workspace",
    },
    OptionRow {
        name: "workspace",
        value: OptionValue::Flag,
        help: "Expand all packages of the workspace",
    },
    OptionRow {
        name: "lib",
        value: OptionValue::Flag,
        help: "Expand the package's library",
    },
    OptionRow {
        name: "bin",
        value: OptionValue::List("NAME"),
        help: "Expand this program of the package",
    },
    OptionRow {
        name: "bins",
        value: OptionValue::Flag,
        help: "Expand all programs",
    },
    OptionRow {
        name: "example",
        value: OptionValue::List("NAME"),
        help: "Expand this example",
    },
    OptionRow {
        name: "examples",
        value: OptionValue::Flag,
        help: "Expand all examples",
    },
    OptionRow {
        name: "tests",
        value: OptionValue::Flag,
        help: "Expand all integration tests",
    },
    OptionRow {
        name: "bench",
        value: OptionValue::List("NAME"),
        help: "Expand this benchmark",
    },
    OptionRow {
        name: "benches",
        value: OptionValue::Flag,
        help: "Expand all benchmarks",
    },
    OptionRow {
        name: "all-targets",
        value: OptionValue::Flag,
        help: "Expand the library, and all programs, examples, tests and benchmarks",
    },
    OptionRow {
        name: "all-features",
        value: OptionValue::Flag,
        help: "Enable all features of the package",
    },
    OptionRow {
        name: "no-default-features",
        value: OptionValue::Flag,
        help: "Don't enable the feature `default` of the package",
    },
    OptionRow {
        name: "release",
        value: OptionValue::Flag,
        help: "Accepted as by Cargo; `debug_assertions` stays set",
    },
    OptionRow {
        name: "plan",
        value: OptionValue::Flag,
        help: "Print the crates of the package, and expand nothing",
    },
    OptionRow {
        name: "once",
        value: OptionValue::Flag,
        help: "Expand each call once, and no call in its expansion",
    },
    OptionRow {
        name: "depth",
        value: OptionValue::Number("N"),
        help: "Limit the depth of nested calls (128, or #![recursion_limit])",
    },
    OptionRow {
        name: "fuel",
        value: OptionValue::Number("N"),
        help: "Limit the number of calls (100000)",
    },
    OptionRow {
        name: "max-tokens",
        value: OptionValue::Number("N"),
        help: "Limit the number of tokens that expansions write (10000000)",
    },
    OptionRow {
        name: "call",
        value: OptionValue::Text("LINE[:COL]"),
        help: "Print only the expansion of the call there",
    },
    OptionRow {
        name: "no-modules",
        value: OptionValue::Flag,
        help: "Read no files of modules (`mod name;`)",
    },
    OptionRow {
        name: "root",
        value: OptionValue::List("DIR"),
        help: "Read files of modules only below this folder",
    },
    OptionRow {
        name: "extern",
        value: OptionValue::List("NAME=PATH"),
        help: "Expand the macros of an external crate too",
    },
    OptionRow {
        name: "write",
        value: OptionValue::Text("DIR"),
        help: "Write each file into a folder",
    },
    OptionRow {
        name: "force",
        value: OptionValue::Flag,
        help: "Let --write overwrite files that it didn't write before",
    },
    OptionRow {
        name: "check",
        value: OptionValue::Flag,
        help: "Compare the files with those of --write, and write nothing",
    },
    OptionRow {
        name: "html",
        value: OptionValue::Text("PATH"),
        help: "Write a page that shows the macros of the last file; into a folder, a page for each file",
    },
    OptionRow {
        name: "step",
        value: OptionValue::Text("LINE[:COL]"),
        help: "Print each step of the call there: rule, variables and expansion",
    },
    OptionRow {
        name: "coverage",
        value: OptionValue::Optional("FORM"),
        help: "Print how many calls each rule expands; =json and =lcov are for programs",
    },
    OptionRow {
        name: "edition",
        value: OptionValue::Choice("YEAR"),
        help: "Set the edition (2021)",
    },
    OptionRow {
        name: "dialect",
        value: OptionValue::Choice("DIALECT"),
        help: "Match and write fragments as rustc or rust-analyzer (rustc)",
    },
    OptionRow {
        name: "cfg",
        value: OptionValue::List("NAME[=\"VALUE\"]"),
        help: "Set an option for `cfg`",
    },
    OptionRow {
        name: "features",
        value: OptionValue::CommaList("A,B"),
        help: "Enable the features A and B",
    },
    OptionRow {
        name: "target",
        value: OptionValue::Choice("TRIPLE"),
        help: "Set the target for `cfg` (x86_64-unknown-linux-gnu)",
    },
    OptionRow {
        name: "test",
        value: OptionValue::Optional("NAME"),
        help: "Set `test` for `cfg`; or expand this integration test",
    },
    OptionRow {
        name: "trace",
        value: OptionValue::Optional("FORM"),
        help: "Report each step; with =json, print data on each call",
    },
    OptionRow {
        name: "origin",
        value: OptionValue::Flag,
        help: "Report the origin of each token of an expansion",
    },
    OptionRow {
        name: "explain",
        value: OptionValue::Optional("LINE[:COL]"),
        help: "Explain the calls that no rule matches, or those there; =all omits no line",
    },
    OptionRow {
        name: "lint",
        value: OptionValue::Flag,
        help: "Check the definitions, and expand nothing",
    },
    OptionRow {
        name: "json",
        value: OptionValue::Flag,
        help: "Report in JSON, as rustc does",
    },
    OptionRow {
        name: "sarif",
        value: OptionValue::Text("FILE"),
        help: "Write the diagnostics to a SARIF file too, for code hosts",
    },
];

/// The options of a run.
#[derive(Drop)]
pub struct RunOptions<'w> {
    pub session: SessionOptions<'w>,
    /// The package that is expanded if no file is named.
    pub package: PackageOptions<'w>,
    pub output: RunOutput<'w>,
}

/// Which files a run reads for modules, and what it writes.
#[derive(Drop)]
pub struct RunOutput<'w> {
    /// Whether the plan of the package is printed, and nothing is expanded.
    pub is_plan: bool,
    /// Whether the package is compiled for release.
    pub is_release: bool,
    /// Whether definitions are linted, and no call is expanded.
    pub is_lint: bool,
    /// Whether diagnostics are written in JSON.
    pub is_json: bool,
    /// Whether the lines of each diagnostic are limited.
    pub is_brief: bool,
    /// The folder that each file is written into. `None` prints the last file.
    pub folder: Option<OutputFolder<'w>>,
    /// What is shown of each call, in place of an expansion.
    pub calls: CallOutput<'w>,
    /// Whether the files are compared with those in the folder, and nothing is written.
    pub is_check: bool,
    /// The file that the log of diagnostics is written to. `-` is standard output.
    pub log: Option<&'w str>,
    /// The folders that files of modules are read from; any if there is none.
    pub roots: Vec<&'w str>,
}

impl RunOutput<'_> {
    /// Whether a line with its root file stands before the output of each of several targets.
    pub fn has_headings(&self) -> bool {
        let is_log_printed = match self.log {
            Some(path) => path == "-",
            None => false,
        };
        let is_data = self.calls.is_data || self.calls.coverage.is_some() || is_log_printed;
        self.folder.is_none() && !is_data
    }

    /// Returns the same output into another folder.
    pub fn with_folder<'v>(
        &'v self,
        alloc: Global,
        path: &'v str,
        is_forced: bool,
    ) -> Result<RunOutput<'v>, AllocError> {
        let mut roots = Vec::new(alloc);
        for folder in &self.roots {
            roots.push(*folder)?;
        }
        Ok(RunOutput {
            folder: Some(OutputFolder {
                path,
                is_forced,
                option: "--write",
            }),
            roots,
            ..*self
        })
    }
}

/// The request that the command line makes.
#[derive(Drop)]
pub enum Invocation<'w> {
    Run(RunOptions<'w>),
    /// The help or the version, for standard output.
    Text(String),
    /// The error of an invalid command line, in one line.
    Refused(String),
}

// ---- the command

fn choices_of<'w>(name: &str) -> &'w [&'w str] {
    match name {
        "edition" => EDITIONS.as_slice(),
        "dialect" => DIALECTS.as_slice(),
        _ => TARGETS.as_slice(),
    }
}

// Returns the clap argument of a row. A later use of an option overrides an earlier one.
fn argument_of<'w>(alloc: Global, row: &'static OptionRow) -> Result<Arg<'w>, AllocError> {
    let argument = Arg::new(alloc, row.name).long(row.name).help(row.help);
    match row.value {
        OptionValue::Flag => argument.action(ArgAction::SetTrue).overrides_with(row.name),
        OptionValue::Text(name) => argument.value_name(name).overrides_with(row.name),
        OptionValue::Number(name) => argument
            .value_name(name)
            .value_parser(value_parser!(u32))
            .overrides_with(row.name),
        OptionValue::Choice(name) => argument
            .value_name(name)
            .value_parser(choices_of(row.name))
            .hide_possible_values(true)
            .overrides_with(row.name),
        OptionValue::Optional(name) => argument
            .value_name(name)
            .num_args(0..=1)
            .require_equals(true)
            .overrides_with(row.name),
        OptionValue::List(name) => Ok(argument.value_name(name).action(ArgAction::Append)),
        OptionValue::CommaList(name) => Ok(
            argument
                .value_name(name)
                .action(ArgAction::Append)
                .value_delimiter(','),
        ),
    }
}

// Returns the argument of that option with the options that it needs, and those that it can't be
// used with.
fn related<'w>(argument: Arg<'w>, name: &str) -> Result<Arg<'w>, AllocError> {
    match name {
        "once" => argument.conflicts_with("depth"),
        "force" | "check" => argument.requires_arg("write"),
        "package" => argument.short('p').conflicts_with("workspace"),
        "html" => argument.conflicts_with_all(&["write", "call", "lint", "check"]),
        "step" => argument.conflicts_with_all(&["write", "call", "lint", "html"]),
        "coverage" => argument.conflicts_with_all(&[
            "write", "call", "lint", "html", "step", "plan",
        ]),
        "sarif" => argument.conflicts_with("plan"),
        _ => Ok(argument),
    }
}

// Returns the command, with an argument for each row, and one for files.
fn command<'w>(alloc: Global) -> Result<Command<'w>, AllocError> {
    let mut command = Command::new(alloc, "expandm").version(VERSION).about(ABOUT);
    for row in &OPTIONS {
        command = command.arg(related(argument_of(alloc, row)?, row.name)?)?;
    }
    let files = Arg::new(alloc, FILES)
        .num_args(1..)
        .help("Files; the last one is printed. `-` is standard input");
    command.arg(files)
}

// ---- errors

// Returns the message of an error of clap in one line, without the usage.
fn one_line(alloc: Global, text: &str) -> Result<String, AllocError> {
    let mut line = String::new(alloc);
    for part in text.split('\n') {
        let part = part.trim();
        if part.starts_with("Usage:") || part.starts_with("For more information") {
            break;
        }
        if part.is_empty() {
            continue;
        }
        if !line.is_empty() {
            line.push_str(if part.starts_with("tip:") { "; " } else { " " })?;
        }
        line.push_str(part)?;
    }
    Ok(line)
}

fn refusal<'w>(alloc: Global, error: &Error) -> Result<Invocation<'w>, AllocError> {
    let text = format!(in alloc; "{error}")?;
    match error.kind() {
        ErrorKind::DisplayHelp | ErrorKind::DisplayVersion => Ok(Invocation::Text(text)),
        ErrorKind::OutOfMemory => Err(AllocError),
        _ => Ok(Invocation::Refused(one_line(alloc, text.as_str())?)),
    }
}

// The error of a value that isn't what the option takes.
fn invalid(
    alloc: Global,
    value: &str,
    option: &str,
    expected: &str,
) -> Result<Option<String>, AllocError> {
    Ok(Some(format!(in alloc;
        "error: invalid value '{value}' for '{option}': expected {expected}"
    )?))
}

// ---- values

// Returns the options of the session that clap has checked, and the defaults of the others.
fn session_options<'w>(alloc: Global, matches: &ArgMatches<'w>) -> SessionOptions<'w> {
    let mut options = SessionOptions::new(alloc);
    options.is_test = matches.contains_id("test") && matches.get_str("test").is_none();
    options.is_traced = matches.contains_id("trace") && matches.get_str("trace").is_none();
    options.is_origin_noted = matches.get_flag("origin");
    options.with_modules = !matches.get_flag("no-modules");
    options.depth = matches.get_one::<u32>("depth");
    if matches.get_flag("once") {
        options.depth = Some(1);
    }
    if let Some(fuel) = matches.get_one::<u32>("fuel") {
        options.fuel = fuel;
    }
    if let Some(tokens) = matches.get_one::<u32>("max-tokens") {
        options.max_tokens = tokens;
    }
    if let Some(edition) = matches.get_str("edition").and_then(edition) {
        options.edition = edition;
    }
    if let Some(dialect) = matches.get_str("dialect").and_then(dialect) {
        options.dialect = dialect;
    }
    if let Some(target) = matches.get_str("target").and_then(target) {
        options.target = target;
    }
    options
}

// Adds the targets of a kind that options name: all, and those with a name.
fn add_targets<'w>(
    matches: &ArgMatches<'w>,
    kind: TargetKind,
    all: &str,
    one: &str,
    targets: &mut Vec<TargetChoice<'w>>,
) -> Result<(), AllocError> {
    if matches.get_flag(all) || matches.get_flag("all-targets") {
        targets.push(TargetChoice::All(kind))?;
    }
    if let Some(names) = matches.get_strs(one) {
        for name in names {
            targets.push(TargetChoice::Named(kind, *name))?;
        }
    }
    Ok(())
}

// Returns the targets that are asked for.
fn target_choices<'w>(
    alloc: Global,
    matches: &ArgMatches<'w>,
) -> Result<Vec<TargetChoice<'w>>, AllocError> {
    let mut targets = Vec::new(alloc);
    let is_all = matches.get_flag("all-targets");
    if matches.get_flag("lib") || is_all {
        targets.push(TargetChoice::All(TargetKind::Library))?;
    }
    add_targets(matches, TargetKind::Program, "bins", "bin", &mut targets)?;
    add_targets(
        matches,
        TargetKind::Example,
        "examples",
        "example",
        &mut targets,
    )?;
    if matches.get_flag("tests") || is_all {
        targets.push(TargetChoice::All(TargetKind::Test))?;
    }
    if let Some(name) = matches.get_str("test") {
        targets.push(TargetChoice::Named(TargetKind::Test, name))?;
    }
    add_targets(matches, TargetKind::Bench, "benches", "bench", &mut targets)?;
    if targets.is_empty() && matches.get_flag("workspace") {
        targets.push(TargetChoice::All(TargetKind::Library))?;
        targets.push(TargetChoice::All(TargetKind::Program))?;
    }
    Ok(targets)
}

fn package_choice<'w>(matches: &ArgMatches<'w>) -> PackageChoice<'w> {
    match matches.get_str("package") {
        Some(name) => PackageChoice::Named(name),
        None if matches.get_flag("workspace") => PackageChoice::Workspace,
        None => PackageChoice::Own,
    }
}

// Returns the options of the package.
fn package_options<'w>(
    alloc: Global,
    matches: &ArgMatches<'w>,
) -> Result<PackageOptions<'w>, AllocError> {
    Ok(PackageOptions {
        manifest: matches.get_str("manifest-path"),
        packages: package_choice(matches),
        targets: target_choices(alloc, matches)?,
        is_library_needed: matches.get_flag("lib") && !matches.get_flag("workspace"),
        all_features: matches.get_flag("all-features"),
        no_default_features: matches.get_flag("no-default-features"),
        triple: matches.get_str("target"),
        triples: TARGETS.as_slice(),
    })
}

// Returns the folders that files of modules are read from.
fn module_folders<'w>(alloc: Global, matches: &ArgMatches<'w>) -> Result<Vec<&'w str>, AllocError> {
    let mut roots = Vec::new(alloc);
    if let Some(folders) = matches.get_strs("root") {
        for folder in folders {
            roots.push(*folder)?;
        }
    }
    Ok(roots)
}

// Returns the folder that each file is written into.
fn output_folder<'w>(matches: &ArgMatches<'w>) -> Option<OutputFolder<'w>> {
    let path = matches.get_str("write")?;
    Some(OutputFolder {
        path,
        is_forced: matches.get_flag("force"),
        option: "--write",
    })
}

// Returns the form in which coverage is printed. Without a name it is text.
fn coverage_form(matches: &ArgMatches<'_>) -> Option<CoverageForm> {
    match matches.get_str("coverage") {
        Some(name) => CoverageForm::named(name),
        None if matches.contains_id("coverage") => Some(CoverageForm::Text),
        None => None,
    }
}

// Returns what is shown of each call. Frames are without colours.
fn call_output<'w>(matches: &ArgMatches<'w>) -> CallOutput<'w> {
    CallOutput {
        is_data: matches.get_str("trace").is_some(),
        step: matches.get_str("step").and_then(CallPosition::read),
        is_coloured: false,
        coverage: coverage_form(matches),
        page: matches.get_str("html"),
    }
}

// Returns which files are read for modules, and what is written.
fn run_output<'w>(alloc: Global, matches: &ArgMatches<'w>) -> Result<RunOutput<'w>, AllocError> {
    Ok(RunOutput {
        is_plan: matches.get_flag("plan"),
        is_release: matches.get_flag("release"),
        is_lint: matches.get_flag("lint"),
        is_json: matches.get_flag("json"),
        is_brief: matches.contains_id("explain") && matches.get_str("explain").is_none(),
        folder: output_folder(matches),
        calls: call_output(matches),
        is_check: matches.get_flag("check"),
        log: matches.get_str("sarif"),
        roots: module_folders(alloc, matches)?,
    })
}

// Whether an option is given.
fn is_given(matches: &ArgMatches<'_>, name: &str) -> bool {
    match name {
        "lib"
        | "workspace"
        | "bins"
        | "examples"
        | "tests"
        | "benches"
        | "all-targets"
        | "all-features"
        | "no-default-features"
        | "release"
        | "plan"
        | "lint" => matches.get_flag(name),
        _ => matches.contains_id(name),
    }
}

// Returns the message of an option that can't be used with files, or of `--edition` without a file.
fn misplaced(
    alloc: Global,
    matches: &ArgMatches<'_>,
    options: &SessionOptions<'_>,
) -> Result<Option<String>, AllocError> {
    if options.names.is_empty() {
        if is_given(matches, "edition") {
            return Ok(Some(String::from_str(
                alloc,
                "error: '--edition' is for files: the edition of a package is in its Cargo.toml",
            )?));
        }
        return Ok(None);
    }
    for name in PACKAGE_OPTIONS {
        if is_given(matches, name) {
            return Ok(Some(format!(in alloc;
                "error: '--{name}' is for a package, and a file is named"
            )?));
        }
    }
    if matches.get_str("test").is_some() {
        return Ok(Some(String::from_str(
            alloc,
            "error: '--test=<NAME>' is for a package, and a file is named",
        )?));
    }
    Ok(None)
}

// Returns the message of a form of `--trace` that isn't known, or of an option that prints something
// else.
fn trace_fault(alloc: Global, matches: &ArgMatches<'_>) -> Result<Option<String>, AllocError> {
    let Some(form) = matches.get_str("trace") else {
        return Ok(None);
    };
    if form != "json" {
        return invalid(alloc, form, "--trace[=<FORM>]", "`json`");
    }
    for name in WITHOUT_DATA {
        if is_given(matches, name) {
            return Ok(Some(format!(in alloc;
                "error: '--trace=json' cannot be used with '--{name}'"
            )?));
        }
    }
    Ok(None)
}

// Adds the options for `cfg`. Returns the message of an invalid value.
fn add_cfgs<'w>(
    alloc: Global,
    matches: &ArgMatches<'w>,
    options: &mut SessionOptions<'w>,
) -> Result<Option<String>, AllocError> {
    let Some(texts) = matches.get_strs("cfg") else {
        return Ok(None);
    };
    for text in texts {
        let Some(option) = parse_cfg(*text) else {
            return invalid(
                alloc,
                *text,
                "--cfg <NAME[=\"VALUE\"]>",
                "`NAME` or `NAME=\"VALUE\"`",
            );
        };
        options.given.push(option)?;
    }
    Ok(None)
}

// Adds the features, and the names of files.
fn add_names<'w>(
    matches: &ArgMatches<'w>,
    options: &mut SessionOptions<'w>,
) -> Result<(), AllocError> {
    if let Some(features) = matches.get_strs("features") {
        for feature in features {
            options.features.push(*feature)?;
        }
    }
    if let Some(files) = matches.get_strs(FILES) {
        for file in files {
            options.names.push(*file)?;
        }
    }
    Ok(())
}

// Adds the external crates. Returns the message of an invalid value, or of a crate that is named
// twice.
fn add_externs<'w>(
    alloc: Global,
    matches: &ArgMatches<'w>,
    options: &mut SessionOptions<'w>,
) -> Result<Option<String>, AllocError> {
    let Some(texts) = matches.get_strs("extern") else {
        return Ok(None);
    };
    for text in texts {
        let Some(one) = parse_extern(*text) else {
            return invalid(
                alloc,
                *text,
                "--extern <NAME=PATH>",
                "a name, `=` and a path",
            );
        };
        if options.externs.iter().any(|other| other.name == one.name) {
            return invalid(alloc, *text, "--extern <NAME=PATH>", "each crate once");
        }
        options.externs.push(one)?;
    }
    Ok(None)
}

// Sets the position of `--call`. Returns the message of an invalid value.
fn set_call<'w>(
    alloc: Global,
    matches: &ArgMatches<'w>,
    options: &mut SessionOptions<'w>,
) -> Result<Option<String>, AllocError> {
    let Some(text) = matches.get_str("call") else {
        return Ok(None);
    };
    options.call = CallPosition::read(text);
    if options.call.is_some() {
        return Ok(None);
    }
    invalid(
        alloc,
        text,
        "--call <LINE[:COL]>",
        "a line, or a line and a column",
    )
}

// Sets which calls are explained. Returns the message of an invalid value.
fn set_explained<'w>(
    alloc: Global,
    matches: &ArgMatches<'w>,
    options: &mut SessionOptions<'w>,
) -> Result<Option<String>, AllocError> {
    if matches.contains_id("explain") {
        options.explain = Some(None);
    }
    let Some(text) = matches.get_str("explain") else {
        return Ok(None);
    };
    if text == "all" {
        return Ok(None);
    }
    let Some(position) = CallPosition::read(text) else {
        return invalid(
            alloc,
            text,
            "--explain[=<LINE[:COL]>]",
            "`all`, a line, or a line and a column",
        );
    };
    options.explain = Some(Some(position));
    Ok(None)
}

// Sets the positions of `--call` and `--explain`. Returns the message of an invalid value.
fn set_positions<'w>(
    alloc: Global,
    matches: &ArgMatches<'w>,
    options: &mut SessionOptions<'w>,
) -> Result<Option<String>, AllocError> {
    match set_call(alloc, matches, options)? {
        Some(message) => Ok(Some(message)),
        None => set_explained(alloc, matches, options),
    }
}

// Returns the message if the value of `--step` is no position.
fn step_fault(alloc: Global, matches: &ArgMatches<'_>) -> Result<Option<String>, AllocError> {
    let Some(text) = matches.get_str("step") else {
        return Ok(None);
    };
    if CallPosition::read(text).is_some() {
        return Ok(None);
    }
    invalid(
        alloc,
        text,
        "--step <LINE[:COL]>",
        "a line, or a line and a column",
    )
}

// Returns the message of a form of `--coverage` that isn't known.
fn coverage_fault(alloc: Global, matches: &ArgMatches<'_>) -> Result<Option<String>, AllocError> {
    match matches.get_str("coverage") {
        Some(form) if CoverageForm::named(form).is_none() => invalid(
            alloc,
            form,
            "--coverage[=<FORM>]",
            "`text`, `json` or `lcov`",
        ),
        Some(_) | None => Ok(None),
    }
}

// Returns the message of a file of `--sarif` whose name doesn't end as the name of a log, or of `-`
// if something else is printed.
fn sarif_fault(alloc: Global, matches: &ArgMatches<'_>) -> Result<Option<String>, AllocError> {
    let Some(path) = matches.get_str("sarif") else {
        return Ok(None);
    };
    if path.ends_with(".sarif") || path.ends_with(".sarif.json") {
        return Ok(None);
    }
    if path != "-" {
        return invalid(
            alloc,
            path,
            "--sarif <FILE>",
            "a name that ends in `.sarif` or `.sarif.json`",
        );
    }
    if is_given(matches, "lint") || is_given(matches, "write") {
        return Ok(None);
    }
    Ok(Some(String::from_str(
        alloc,
        "error: '--sarif -' needs '--lint' or '--write': other runs print something else",
    )?))
}

// Returns the message of an option whose value is invalid, or that can't be used with another one.
fn option_fault(alloc: Global, matches: &ArgMatches<'_>) -> Result<Option<String>, AllocError> {
    if let Some(message) = trace_fault(alloc, matches)? {
        return Ok(Some(message));
    }
    if let Some(message) = step_fault(alloc, matches)? {
        return Ok(Some(message));
    }
    if let Some(message) = coverage_fault(alloc, matches)? {
        return Ok(Some(message));
    }
    sarif_fault(alloc, matches)
}

// Returns a run with what clap matched, or the error of an invalid value.
fn checked_invocation<'w>(
    alloc: Global,
    matches: &ArgMatches<'w>,
) -> Result<Invocation<'w>, AllocError> {
    if let Some(message) = option_fault(alloc, matches)? {
        return Ok(Invocation::Refused(message));
    }
    let mut options = session_options(alloc, matches);
    if let Some(message) = add_cfgs(alloc, matches, &mut options)? {
        return Ok(Invocation::Refused(message));
    }
    if let Some(message) = add_externs(alloc, matches, &mut options)? {
        return Ok(Invocation::Refused(message));
    }
    if let Some(message) = set_positions(alloc, matches, &mut options)? {
        return Ok(Invocation::Refused(message));
    }
    add_names(matches, &mut options)?;
    if let Some(message) = misplaced(alloc, matches, &options)? {
        return Ok(Invocation::Refused(message));
    }
    Ok(Invocation::Run(RunOptions {
        session: options,
        package: package_options(alloc, matches)?,
        output: run_output(alloc, matches)?,
    }))
}

/// Parses the arguments, of which the first is the program's name. `AllocError` if out of memory.
pub fn parse_arguments<'w>(
    alloc: Global,
    argv: &'w [String],
) -> Result<Invocation<'w>, AllocError> {
    match command(alloc)?.try_get_matches_from(argv) {
        Ok(matches) => checked_invocation(alloc, &matches),
        Err(error) => refusal(alloc, &error),
    }
}
