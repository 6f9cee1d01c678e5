// A small table of rules: what each rule parses at the front of a text. No table and no text
// overflows the stack.
use crate::text::prefixes::takes;
use mbe_grammar::tables::node::{Keyword, Node, Terminal};
use mbe_grammar::tables::peg_table::{EntryRules, RuleTable};
use mbe_tt::grammar::{Dialect, PrefixEntryPoint};
use mbe_tt::span::Edition;
use mbe_tt::tt::DelimiterKind;
use std::alloc::{AllocError, Global};
use test_rows::{FailedRow, expect_true, rows};

pub const SUM: usize = 0;

const TERM: usize = 1;

const MORE: usize = 2;

const NAME: usize = 3;

const LITERAL: usize = 4;

const PLUS_TERM: usize = 5;

const PLUS: usize = 6;

const TERM_NEEDED: usize = 7;

pub const LEFT: usize = 8;

const LEFT_FIRST: usize = 9;

pub const GEN: usize = 10;

const SINCE_2024: usize = 11;

const GEN_WORD: usize = 12;

pub const IN_PARENTHESES: usize = 13;

pub const NOTHING_AGAIN: usize = 14;

const NOTHING: usize = 15;

const MINUSES: usize = 16;

const MINUS: usize = 17;

pub const NOWHERE: usize = 18;

pub const ITSELF: usize = 19;

pub const ARROW: usize = 20;

pub const NO_NAME_NEXT: usize = 21;

const NO_NAME: usize = 22;

const ANY: usize = 23;

const NESTED: usize = 24;

const ANGLE: usize = 25;

const ANGLE_REST: usize = 26;

const LESS: usize = 27;

const NESTED_MAYBE: usize = 28;

pub const POINTED: usize = 29;

static NODES: [Node<'static>; 30] = [
    Node::Then(TERM, MORE),
    Node::Or(NAME, LITERAL),
    Node::Repeated(PLUS_TERM),
    Node::Terminal(Terminal::Name),
    Node::Terminal(Terminal::Literal),
    Node::Then(PLUS, TERM_NEEDED),
    Node::Terminal(Terminal::Sign('+')),
    Node::Needed(TERM),
    Node::Or(LEFT_FIRST, NAME),
    Node::Then(LEFT, PLUS),
    Node::Then(SINCE_2024, GEN_WORD),
    Node::Terminal(Terminal::Since(Edition::Edition2024)),
    Node::Terminal(Terminal::Word("gen")),
    Node::Inside(DelimiterKind::Parenthesis, SUM),
    Node::Repeated(NOTHING),
    Node::Maybe(PLUS),
    Node::Repeated(MINUS),
    Node::Terminal(Terminal::Sign('-')),
    Node::Part(1_000_000),
    Node::Part(ITSELF),
    Node::Terminal(Terminal::Operators(&["->", "=>"])),
    Node::Then(NO_NAME, ANY),
    Node::NotAhead(NAME),
    Node::Terminal(Terminal::Any),
    Node::Or(ANGLE, NAME),
    Node::Then(LESS, ANGLE_REST),
    Node::Part(NESTED_MAYBE),
    Node::Terminal(Terminal::Sign('<')),
    Node::Maybe(NESTED),
    Node::Terminal(Terminal::Pointed),
];

static KEYWORDS: [Keyword<'static>; 2] = [
    Keyword {
        text: "let",
        since: Edition::Edition2015,
    },
    Keyword {
        text: "gen",
        since: Edition::Edition2024,
    },
];

// The table whose expressions and visibilities begin with that rule.
fn table(rule: usize, edition: Edition) -> RuleTable<'static> {
    RuleTable {
        nodes: &NODES,
        keywords: &KEYWORDS,
        starts: EntryRules {
            path: rule,
            expr: rule,
            ty: rule,
            pat_top: rule,
            pat: rule,
            stmt: rule,
            block: rule,
            meta: rule,
            item: rule,
            vis: rule,
        },
        begins: None,
        dialect: Dialect::RustAnalyzer,
        edition,
        editions: &[],
    }
}

/// Whether a rule parses that many flat tokens of a text, in an edition.
pub fn is_taken(
    alloc: Global,
    rule: usize,
    edition: Edition,
    text: (&str, &str),
) -> Result<bool, AllocError> {
    takes(alloc, &table(rule, edition), PrefixEntryPoint::Expr, text)
}

// Whether a rule parses that many flat tokens of a link repeated a million times. That is far more
// than `DEPTH`.
fn is_link_taken(alloc: Global, rule: usize, link: &str, count: &str) -> Result<bool, AllocError> {
    let text = link.repeat(alloc, 1_000_000)?;
    is_taken(alloc, rule, Edition::Edition2021, (text.as_str(), count))
}

// Each row: a text, and how many of its flat tokens the rule parses.

pub const SUMS: &str = rows![
    ("a", 1),
    ("a + 1 + b c", 5),
    ("a += 1", "fault"),
    ("a +", "fault"),
    ("let", "fault"),
    ("r#let", 1),
    ("gen", 1),
    ("_", "fault"),
    ("", "fault"),
];

pub const GEN_BEFORE_2024: &str = rows![("gen", "fault"),];

pub const PARENTHESES: &str = rows![
    ("(a + b) c", 5),
    ("(a b)", "fault"),
    ("[a]", "fault"),
    ("()", "fault"),
];

pub const LEFT_RECURSIVE: &str = rows![("a + a", "fault"),];

pub const A_NAME: &str = rows![("a", "fault"),];

pub const NOTHINGS: &str = rows![("+ + a", 2), ("a b", "fault"),];

pub const ARROWS: &str = rows![("=> a", 2), ("= > a", "fault"),];

pub const NO_NAMES: &str = rows![("let", 1), ("a", "fault"),];

pub const POINTEDS: &str = rows![
    ("1. a", 1),
    ("1.0", "fault"),
    ("1", "fault"),
    ("\".\"", "fault"),
    (".", "fault"),
];

pub const GEN_SINCE_2024: &str = rows![("gen a", 1), ("r#gen", "fault"),];

pub const SUMS_SINCE_2024: &str = rows![("gen", "fault"), ("r#gen", 1),];

// Each has a limit of time.
#[test]
fn many_prefixes(rt: HostRuntime) -> Result<(), FailedRow> {
    expect_true(is_link_taken(rt.alloc(), MINUSES, "-", "1000000"))
}

#[test]
fn many_angles(rt: HostRuntime) -> Result<(), FailedRow> {
    expect_true(is_link_taken(rt.alloc(), NESTED, "<", "fault"))
}

#[test]
fn many_braces(rt: HostRuntime) -> Result<(), FailedRow> {
    expect_true(is_link_taken(rt.alloc(), ANY, "{", "2000000"))
}
