// Grammars of fragments: each one tells how many tokens at the front of trees are an expression, a
// type, an item and so on. `SampleGrammar` is a small grammar written as code, close to Rust's: the
// program `mbex` uses it, and callers can take it as a model. `tables` has grammars as data: a
// table of rules and one parser for all tables. `text` reads such a table from a text, and `rust`
// is Rust's whole grammar as a table.
#![tactic(auto)]

ghost use Rattle.std.specs.Prelude.{◌≡◌};
ghost use Rattle.mbe_tt.specs.Views.View.{trees};
ghost use Rattle.mbe_grammar.specs.SampleGrammar.{takes, part_of, answer};
ghost use Rattle.mbe_grammar.specs.Tables.ParseResult.{result_model};

// The result of the first of these parsers that doesn't return `NoMatch`.
macro_rules! first_of {
    ($step:expr) => { $step };
    ($step:expr, $($more:expr),+) => {
        match $step {
            Err(crate::tables::parse_result::ParseFailure::NoMatch) => first_of!($($more),+),
            taken => taken,
        }
    };
}

pub mod peg;
pub mod rust;
mod sample_expressions;
mod sample_items;
mod sample_patterns;
mod sample_tokens;
mod sample_types;
pub mod tables;

use crate::sample_expressions::expr;
use crate::sample_items::{block, item, meta, stmt, vis};
use crate::sample_patterns::{pat, pat_top};
use crate::sample_types::{PathStyle, path, ty};
use crate::tables::parse_result::ParseResult;
use crate::tables::terminals::is_text_of;
use mbe_tt::grammar::{Dialect, FragmentGrammar, Front, PrefixEntryPoint};
use mbe_tt::tt::TokenTreesView;
use std::alloc::{AllocError, Allocator};

/// A part of Rust's grammar, written as code. It consumes whole trees from the front, as many as
/// the rules in `specs/SampleGrammar` say. It has no branches, loops, closures, struct literals,
/// ranges and casts. The choice of what it has is the project's own.
#[derive(Clone, Copy, Debug, PartialEq, Eq)]
pub struct SampleGrammar;

// The trees after a fragment.
fn following<'t, A: Allocator>(
    entry: PrefixEntryPoint,
    tokens: TokenTreesView<'t, A>,
) -> ParseResult<'t, A>
    ensures { result_model result ≡ takes (part_of entry) (trees tokens.entry) }
{
    match entry {
        PrefixEntryPoint::Path => path(tokens, PathStyle::Plain),
        PrefixEntryPoint::Expr => expr(tokens),
        PrefixEntryPoint::Ty => ty(tokens),
        PrefixEntryPoint::PatTop => pat_top(tokens),
        PrefixEntryPoint::Pat => pat(tokens),
        PrefixEntryPoint::Stmt => stmt(tokens),
        PrefixEntryPoint::Block => block(tokens),
        PrefixEntryPoint::MetaItem => meta(tokens),
        PrefixEntryPoint::Item => item(tokens),
        PrefixEntryPoint::Vis => vis(tokens),
    }
}

// How many flat tokens a fragment has. A fault has none.
#[tactic(auto, using(crate::proofs::Parts::takes_no_longer))]
fn front<A: Allocator>(entry: PrefixEntryPoint, tokens: TokenTreesView<'_, A>) -> Front
    ensures { result ≡ answer entry (trees tokens.entry) }
{
    match following(entry, tokens) {
        Ok(rest) => Front {
            count: tokens.flat_len() - rest.flat_len(),
            fault: false,
        },
        Err(_miss) => Front {
            count: 0,
            fault: true,
        },
    }
}

// Identifiers with one of these texts are written with `r#` where the expander makes an identifier.
const KEYWORDS: &[&str] = &[
    "abstract", "as", "async", "await", "become", "box", "break", "const", "continue", "crate",
    "do", "dyn", "else", "enum", "extern", "false", "final", "fn", "for", "gen", "if", "impl",
    "in", "let", "loop", "macro", "match", "mod", "move", "mut", "override", "priv", "pub", "ref",
    "return", "self", "Self", "static", "struct", "super", "trait", "true", "try", "type",
    "typeof", "unsafe", "unsized", "use", "virtual", "where", "while", "yield",
];

impl FragmentGrammar for SampleGrammar {
    ghost use Rattle.mbe_grammar.specs.SampleGrammar.{sample};
    ghost use Rattle.mbe_grammar.specs.Lawful.{sample_lawful};

    ghost grammar = { λ _. sample };

    fn parse<A: Allocator>(
        &self,
        entry: PrefixEntryPoint,
        tokens: TokenTreesView<'_, A>,
    ) -> Result<Front, AllocError> {
        Ok(front(entry, tokens))
    }

    fn is_keyword(&self, text: &str) -> bool {
        is_text_of(text, KEYWORDS)
    }

    fn dialect(&self) -> Dialect {
        Dialect::RustAnalyzer
    }

    ghost lawful = { λ _. sample_lawful };
}
