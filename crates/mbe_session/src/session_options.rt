// The options of a session, and the texts that name their values.
//
// They give the settings of the expander, of `cfg`, and of reading files.
ghost use Rattle.std.specs.Prelude.{◌≡◌, option_map, unwrap_or};
ghost use Rattle.std.specs.Option.{option_or};
ghost use Rattle.mbe_session.specs.Conditions.{IsUnder};
ghost use Rattle.mbe_session.specs.CrateSettings.{AreFileSettings, conditions_in};
ghost use Rattle.mbe_session.specs.OptionViews.{conditions_of, own_of};
ghost use Rattle.mbe_session.specs.OptionValues.{dialect_of, edition_of, target_of};

use crate::locations::CallPosition;
use crate::settings::{ExpansionSettings, ExplainFilter};
use crate::source_settings::SourceSettings;
use mbe_cfg::cfg_options as cfg;
use mbe_cfg::cfg_options::CfgOption;
use mbe_cfg::targets::Target;
use mbe_grammar::tables::peg_table::RuleTable;
use mbe_tt::grammar::Dialect;
use mbe_tt::span::Edition;
use std::alloc::{AllocError, Allocator, Global};

/// The default limit of nested expansions. It applies where neither the options nor a file sets a
/// limit.
pub const DEPTH: u32 = 128;

/// An external crate, whose macros the files use by paths that begin with its name.
#[derive(Drop)]
pub struct ExternCrate<'w> {
    pub name: &'w str,
    /// The path of the crate's root file, or of the folder that has it as `src/lib.rs`.
    pub path: &'w str,
    /// The crate's own edition and features; `None` if it has the session's.
    pub settings: Option<CrateSettings<'w>>,
}

/// The edition and the features of an external crate.
#[derive(Drop)]
pub struct CrateSettings<'w> {
    pub edition: Edition,
    pub features: Vec<&'w str>,
}

/// The options of a session: how its files are read, which crates they are of, and how far calls
/// are expanded.
#[derive(Drop)]
pub struct SessionOptions<'w, A: Allocator = Global> {
    pub edition: Edition,
    /// Whether macros match and write fragments as in rustc or as in rust-analyzer.
    pub dialect: Dialect,
    /// The target whose options `cfg` sees.
    pub target: Target,
    /// The `cfg` options that are given in addition to the target's, in order.
    pub given: Vec<CfgOption<'w>, A>,
    /// The features of the crate, each an option `feature = ".."`.
    pub features: Vec<&'w str, A>,
    /// Whether `test` is set.
    pub is_test: bool,
    /// The limit of nested expansions. `None` is the limit that a file sets, or else `DEPTH`.
    pub depth: Option<u32>,
    /// The limit of expansions in all.
    pub fuel: u32,
    /// The limit of tokens that expansions write in all.
    pub max_tokens: u32,
    /// Whether each step is reported.
    pub is_traced: bool,
    /// Whether the origin of each token of an expansion is reported.
    pub is_origin_noted: bool,
    /// Which calls are explained. `Some(Some(_))` is the calls of the last file that begin at the
    /// position; `Some(None)` is every call that no rule expands.
    pub explain: Option<Option<CallPosition>>,
    /// The paths of the files that are the roots of the session's own crates. The session's texts
    /// begin with these files, in this order.
    pub names: Vec<&'w str, A>,
    /// Whether the trees of a crate include the trees of its out-of-line modules.
    pub with_modules: bool,
    /// The external crates whose macros are expanded too.
    pub externs: Vec<ExternCrate<'w>, A>,
    /// The position whose calls are printed, in place of the whole text of a file.
    pub call: Option<CallPosition>,
}

/// Returns the edition of that year, such as `2021`; `None` for any other text.
pub fn edition(argument: &str) -> Option<Edition>
    ensures { result ≡ edition_of argument.now }
{
    match argument {
        "2015" => Some(Edition::Edition2015),
        "2018" => Some(Edition::Edition2018),
        "2021" => Some(Edition::Edition2021),
        "2024" => Some(Edition::Edition2024),
        _ => None,
    }
}

/// Returns the dialect of that name; `None` for any other text.
pub fn dialect(argument: &str) -> Option<Dialect>
    ensures { result ≡ dialect_of argument.now }
{
    match argument {
        "rust-analyzer" => Some(Dialect::RustAnalyzer),
        "rustc" => Some(Dialect::Rustc),
        _ => None,
    }
}

/// Returns the target with that triple; `None` for any other text.
pub fn target(argument: &str) -> Option<Target>
    ensures { result ≡ target_of argument.now }
{
    match argument {
        "x86_64-unknown-linux-gnu" => Some(Target::X86_64Linux),
        "x86_64-pc-windows-msvc" => Some(Target::X86_64Windows),
        "x86_64-apple-darwin" => Some(Target::X86_64Mac),
        "aarch64-apple-darwin" => Some(Target::Aarch64Mac),
        "wasm32-unknown-unknown" => Some(Target::Wasm32),
        _ => None,
    }
}

/// Parses an option for `cfg`: `name` or `name="value"`. `None` for any other text.
pub fn parse_cfg(text: &str) -> Option<CfgOption<'_>> {
    let (name, value) = match text.split_once('=') {
        Some((name, value)) => (name.trim(), Some(unquote(value.trim())?)),
        None => (text.trim(), None),
    };
    if name.is_empty() {
        return None;
    }
    Some(CfgOption { name, value })
}

// Returns the text between the quotes.
fn unquote(text: &str) -> Option<&str> {
    text.strip_prefix('"')?.strip_suffix('"')
}

/// Parses an external crate: `name=path`. `None` for any other text.
pub fn parse_extern(text: &str) -> Option<ExternCrate<'_>> {
    let (name, path) = text.split_once('=')?;
    if name.is_empty() || path.is_empty() {
        return None;
    }
    Some(ExternCrate {
        name,
        path,
        settings: None,
    })
}

impl<'w, A: Allocator + Copy> SessionOptions<'w, A> {
    /// Returns the defaults.
    pub fn new(alloc: A) -> SessionOptions<'w, A> {
        SessionOptions {
            edition: Edition::Edition2021,
            dialect: Dialect::Rustc,
            target: Target::X86_64Linux,
            given: Vec::new(alloc),
            features: Vec::new(alloc),
            is_test: false,
            depth: None,
            fuel: 100_000,
            max_tokens: 10_000_000,
            is_traced: false,
            is_origin_noted: false,
            explain: None,
            names: Vec::new(alloc),
            with_modules: true,
            externs: Vec::new(alloc),
            call: None,
        }
    }

    /// Returns the settings of the expander:
    ///
    /// - `limit` is the limit of nested expansions that the files set.
    /// - `explain` is the calls to explain.
    /// - `is_closed` says whether every macro that a plain name can mean is known.
    pub fn settings(
        &self,
        limit: Option<u32>,
        explain: ExplainFilter,
        is_closed: bool,
    ) -> ExpansionSettings
        ensures edition { result.edition ≡ self.now.edition }
        ensures fuel { result.fuel ≡ self.now.fuel }
        ensures tokens { result.max_tokens ≡ self.now.max_tokens }
        ensures traced { result.is_traced ≡ self.now.is_traced }
        ensures origin { result.is_origin_noted ≡ self.now.is_origin_noted }
        ensures explain { result.explain ≡ explain }
        ensures depth { result.depth ≡ unwrap_or (option_or self.now.depth limit) 128 }
    {
        ExpansionSettings {
            edition: self.edition,
            depth: self.depth.or(limit).unwrap_or(DEPTH),
            fuel: self.fuel,
            max_tokens: self.max_tokens,
            is_traced: self.is_traced,
            is_origin_noted: self.is_origin_noted,
            explain,
            is_closed,
        }
    }

    /// Returns the settings that `cfg` is evaluated under.
    pub fn conditions(&self) -> cfg::CfgOptions<'_>
        ensures { IsUnder (conditions_of self.now) result }
    {
        cfg::CfgOptions {
            target: self.target.options(),
            given: self.given.as_slice(),
            features: self.features.as_slice(),
            test: self.is_test,
        }
    }

    /// Returns the settings of the external crate that file `number` belongs to. `roots` has for
    /// each file the number of the root from which it was reached. The roots of the session's own
    /// crates come first, then the roots of external crates. `None` if the crate has no settings of
    /// its own.
    pub fn crate_settings(&self, roots: &[usize], number: usize) -> Option<&CrateSettings<'w>>
        ensures { option_map (λ s. s.now) result ≡ own_of self.now roots.now number }
    {
        let Some(root) = roots.get(number) else {
            return None;
        };
        if *root < self.names.len() {
            return None;
        }
        match self.externs.get(*root - self.names.len()) {
            Some(one) => one.settings.as_ref(),
            None => None,
        }
    }

    // Returns the settings that `cfg` is evaluated under in an external crate.
    fn own_conditions<'r>(&'r self, own: &'r CrateSettings<'w>) -> cfg::CfgOptions<'r>
        ensures { IsUnder (conditions_in (conditions_of self.now) (Some own.now)) result }
    {
        cfg::CfgOptions {
            target: self.target.options(),
            given: self.given.as_slice(),
            features: own.features.as_slice(),
            test: false,
        }
    }

    /// Returns how file `number` is read: in the edition and with the features of its crate, and by
    /// the table `grammar` in that edition.
    pub fn file_settings<'r>(
        &'r self,
        grammar: RuleTable<'r>,
        roots: &[usize],
        number: usize,
    ) -> SourceSettings<'r>
        ensures { AreFileSettings grammar.entry self.now.edition (conditions_of self.now)
            (own_of self.now roots.now) number result }
    {
        match self.crate_settings(roots, number) {
            Some(own) => SourceSettings {
                edition: own.edition,
                conditions: self.own_conditions(own),
                grammar: RuleTable {
                    edition: own.edition,
                    ..grammar
                },
            },
            None => self.source_settings(RuleTable {
                edition: self.edition,
                ..grammar
            }),
        }
    }

    /// Returns how texts are read: by the table `grammar`, in the edition and with the `cfg`
    /// options of the session.
    pub fn source_settings<'r>(&'r self, grammar: RuleTable<'r>) -> SourceSettings<'r>
        ensures edition { result.edition ≡ self.now.edition }
        ensures conditions { IsUnder (conditions_of self.now) result.conditions }
        ensures grammar { result.grammar ≡ grammar.entry }
    {
        SourceSettings {
            edition: self.edition,
            conditions: self.conditions(),
            grammar,
        }
    }
}
