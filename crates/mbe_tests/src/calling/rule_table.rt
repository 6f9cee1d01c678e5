// A grammar as a table.
ghost use Rattle.std.specs.Prelude.{◌<◌, ◌^◌, length};

use mbe_grammar::tables::node::{Keyword, Node, Terminal};
use mbe_grammar::tables::peg_table::{EntryRules, RuleTable};
use mbe_text::lexer::{LexError, lex};
use mbe_tt::grammar::{Dialect, FragmentGrammar, PrefixEntryPoint};
use mbe_tt::span::Edition;
use std::alloc::Global;

// An index without a node. A fragment whose rule begins there has a fault.
const NOWHERE: usize = 6;

/// What `$e:expr` takes is a sum of names, as `a + b`.
pub const SUMS: RuleTable<'static> = RuleTable {
    nodes: &[
        Node::Then(1, 2),
        Node::Terminal(Terminal::Name),
        Node::Repeated(3),
        Node::Then(4, 5),
        Node::Terminal(Terminal::Operator("+")),
        Node::Needed(1),
    ],
    keywords: &[Keyword {
        text: "let",
        since: Edition::Edition2015,
    }],
    starts: EntryRules {
        path: NOWHERE,
        expr: 0,
        ty: NOWHERE,
        pat_top: NOWHERE,
        pat: NOWHERE,
        stmt: NOWHERE,
        block: NOWHERE,
        meta: NOWHERE,
        item: NOWHERE,
        vis: NOWHERE,
    },
    begins: None,
    dialect: Dialect::RustAnalyzer,
    edition: Edition::Edition2021,
    editions: &[],
};

/// How many tokens of a text are a sum, where it begins with one.
pub fn sum_of(alloc: Global, text: &str) -> Result<Option<usize>, LexError>
    requires { length text.now < 2 ^ 32 }
{
    let tree = lex(alloc, text, 0)?;
    let front = SUMS.parse(PrefixEntryPoint::Expr, tree.iter().remaining())?;
    Ok((!front.fault).then_some(front.count))
}

pub mod tests {
    use test_rows::rows;

    // Each row: a text, and how many of its tokens are a sum. Empty if the text doesn't begin with
    // one.
    pub const SUMS: &str = rows![("a + b c", 3), ("a c", 1), ("a + ;", ""), ("let", "")];
}
