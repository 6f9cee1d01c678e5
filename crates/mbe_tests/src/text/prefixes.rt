// Helpers: the trees of a text, and how much of it a table parses.
use mbe_grammar::rust::rust_rules::rust_rules;
use mbe_grammar::tables::peg_table::RuleTable;
use mbe_text::lexer::lex;
use mbe_tt::grammar::{FragmentGrammar, Front, PrefixEntryPoint};
use mbe_tt::span::Edition;
use mbe_tt::tt::TopSubtree;
use std::alloc::{AllocError, Global};

/// Lexes a text. Every text of these tests can be lexed.
pub fn trees(alloc: Global, text: &str) -> Result<TopSubtree, AllocError> {
    if text.len() > 100_000_000 {
        return Err(AllocError);
    }
    lex(alloc, text, 0).map_err(|_error| AllocError)
}

/// Whether a table parses that many flat tokens of a text. A count that is no number means a fault.
pub fn takes(
    alloc: Global,
    table: &RuleTable<'_>,
    entry: PrefixEntryPoint,
    (text, count): (&str, &str),
) -> Result<bool, AllocError> {
    let front = table.parse(entry, trees(alloc, text)?.iter().remaining())?;
    let want = count.parse::<usize>().ok();
    let fault = want.is_none();
    let count = want.unwrap_or(0);
    Ok(front == Front { count, fault })
}

/// Whether the edition of a span's context decides, or the table's own edition if the context has
/// none. Lexed text has context 0, so the list decides; if the list is empty, the table's own
/// edition does.
pub fn is_by_context(alloc: Global) -> Result<bool, AllocError> {
    let editions = [Edition::Edition2015];
    let table = rust_rules(Edition::Edition2021, &editions);
    let passes = table.is_keyword("async") && !table.is_keyword("gen");
    Ok(passes && takes(alloc, &table, PrefixEntryPoint::Expr, ("async + a", "3"))?)
}
