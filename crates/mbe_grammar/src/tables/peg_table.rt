// A table of rules, and its implementation of `FragmentGrammar`. The table also has the keywords
// and the editions of syntax contexts, which decide whether an identifier is a name.
ghost use Rattle.std.specs.Prelude.{◌≡◌};
ghost use Rattle.std.specs.List.{list_any};
ghost use Rattle.mbe_tt.specs.Views.View.{trees};
ghost use Rattle.mbe_grammar.specs.Tables.Editions as spec;
ghost use Rattle.mbe_grammar.specs.Tables.Lawful.{entry_rule, open_answer, committed_answer};
ghost use Rattle.mbe_grammar.specs.Tables.Lawful.{answer, may_begin};

use crate::tables::node::{Keyword, Node};
use crate::tables::rule_parser::parse_rule;
use mbe_tt::grammar::{Dialect, FragmentGrammar, Front, PrefixEntryPoint};
use mbe_tt::span::{Edition, SyntaxContext};
use mbe_tt::tt::TokenTreesView;
use std::alloc::{AllocError, Allocator};

/// How deep the calls of rules may nest while trees are parsed. A deeper call faults.
pub const DEPTH: u32 = 2000;

/// For each entry point, the index of the rule that it calls.
#[derive(Clone, Copy, Debug, Drop, PartialEq, Eq)]
pub struct EntryRules {
    pub path: usize,
    pub expr: usize,
    pub ty: usize,
    pub pat_top: usize,
    pub pat: usize,
    pub stmt: usize,
    pub block: usize,
    pub meta: usize,
    pub item: usize,
    pub vis: usize,
}

/// A grammar of fragments as data. It is lawful, and parsing ends, whatever the table holds: an
/// index without a rule faults, and so does a call that is nested deeper than `DEPTH`.
///
/// The edition of a span is `editions[n]`, where `n` is the number of its syntax context. It is
/// `edition` for contexts that the list doesn't have.
#[derive(Clone, Copy, Debug, Drop)]
pub struct RuleTable<'g> {
    pub nodes: &'g [Node<'g>],
    pub keywords: &'g [Keyword<'g>],
    pub starts: EntryRules,
    /// The rules of what a fragment may begin with: anything, if there are none. They are for
    /// rustc's dialect alone.
    pub begins: Option<EntryRules>,
    pub dialect: Dialect,
    pub edition: Edition,
    pub editions: &'g [Edition],
}

impl EntryRules {
    fn of(&self, entry: PrefixEntryPoint) -> usize
        ensures { result ≡ entry_rule self.now entry }
    {
        match entry {
            PrefixEntryPoint::Path => self.path,
            PrefixEntryPoint::Expr => self.expr,
            PrefixEntryPoint::Ty => self.ty,
            PrefixEntryPoint::PatTop => self.pat_top,
            PrefixEntryPoint::Pat => self.pat,
            PrefixEntryPoint::Stmt => self.stmt,
            PrefixEntryPoint::Block => self.block,
            PrefixEntryPoint::MetaItem => self.meta,
            PrefixEntryPoint::Item => self.item,
            PrefixEntryPoint::Vis => self.vis,
        }
    }
}

impl RuleTable<'_> {
    /// The edition of a syntax context.
    pub fn edition_of(&self, context: SyntaxContext) -> Edition
        ensures { result ≡ spec.edition_of self.now context }
    {
        self.editions
            .get(context.0 as usize)
            .copied()
            .unwrap_or(self.edition)
    }

    /// The same table in a dialect.
    pub fn with_dialect(self, dialect: Dialect) -> Self
        ensures { result ≡ record self.entry { dialect = dialect } }
    {
        RuleTable { dialect, ..self }
    }

    /// Whether a text is a keyword in this edition.
    pub fn is_keyword_in(&self, edition: Edition, text: &str) -> bool
        ensures { result ≡ spec.is_keyword_in self.now edition text.now }
    {
        self.keywords
            .iter()
            .any(|k| text == k.text && is_since(edition, k.since))
    }
}

/// Whether an edition is the edition `since` or a later one.
pub fn is_since(edition: Edition, since: Edition) -> bool
    ensures { result ≡ spec.is_since edition since }
{
    year(edition) >= year(since)
}

fn year(edition: Edition) -> u32
    ensures { result ≡ spec.year edition }
{
    match edition {
        Edition::Edition2015 => 2015,
        Edition::Edition2018 => 2018,
        Edition::Edition2021 => 2021,
        Edition::Edition2024 => 2024,
    }
}

// How many flat tokens a fragment has. A fault has none. A fragment without tokens is a fault as
// well, except for a visibility.
fn open_front<A: Allocator>(
    table: &RuleTable<'_>,
    entry: PrefixEntryPoint,
    tokens: TokenTreesView<'_, A>,
) -> Front
    ensures { result ≡ open_answer table.now entry (trees tokens.entry) }
{
    match parse_rule(table, DEPTH, table.starts.of(entry), tokens) {
        Ok(rest) => {
            let count = tokens.flat_len().saturating_sub(rest.flat_len());
            Front {
                count,
                fault: count == 0 && entry != PrefixEntryPoint::Vis,
            }
        }
        Err(_miss) => Front {
            count: 0,
            fault: true,
        },
    }
}

// Whether a fragment may begin with the first tree.
fn may_begin<A: Allocator>(
    table: &RuleTable<'_>,
    entry: PrefixEntryPoint,
    tokens: TokenTreesView<'_, A>,
) -> bool
    ensures { result ≡ may_begin table.now.begins table.now entry (trees tokens.entry) }
{
    match &table.begins {
        Some(begins) => parse_rule(table, DEPTH, begins.of(entry), tokens).is_ok(),
        None => true,
    }
}

// The same in rustc's dialect: where the fragment begins, a fault has one token.
fn committed_front<A: Allocator>(
    table: &RuleTable<'_>,
    entry: PrefixEntryPoint,
    tokens: TokenTreesView<'_, A>,
) -> Front
    ensures { result ≡ committed_answer table.now entry (trees tokens.entry) }
{
    if !may_begin(table, entry, tokens) {
        return Front {
            count: 0,
            fault: true,
        };
    }
    let front = open_front(table, entry, tokens);
    if front.fault {
        return Front {
            count: tokens.flat_len().min(1),
            fault: true,
        };
    }
    front
}

// What the table returns in its dialect.
fn front<A: Allocator>(
    table: &RuleTable<'_>,
    entry: PrefixEntryPoint,
    tokens: TokenTreesView<'_, A>,
) -> Front
    ensures { result ≡ answer table.now entry (trees tokens.entry) }
{
    match table.dialect {
        Dialect::RustAnalyzer => open_front(table, entry, tokens),
        Dialect::Rustc => committed_front(table, entry, tokens),
    }
}

impl FragmentGrammar for RuleTable<'_> {
    ghost use Rattle.mbe_grammar.specs.Tables.Lawful.{grammar_of, lawful_of};

    ghost grammar = { grammar_of };

    fn parse<A: Allocator>(
        &self,
        entry: PrefixEntryPoint,
        tokens: TokenTreesView<'_, A>,
    ) -> Result<Front, AllocError> {
        Ok(front(self, entry, tokens))
    }

    fn is_keyword(&self, text: &str) -> bool {
        self.is_keyword_in(self.edition, text)
    }

    fn dialect(&self) -> Dialect {
        self.dialect
    }

    ghost lawful = { lawful_of };
}
