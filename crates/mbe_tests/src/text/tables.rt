// The tables of texts and of grammars. The rows are in the modules of their subjects.
use crate::text::{
    deep_trees, glue, grammar_texts, literals, prefixes, sample_keywords, small_table, symbols,
    tree_lines,
};
use mbe_grammar::SampleGrammar;
use mbe_tt::grammar::FragmentGrammar;
use mbe_tt::span::Edition;
use mbe_tt::span::Edition::{Edition2021, Edition2024};
use std::alloc::{AllocError, Global};
use test_rows::{FailedRow, Fields, RowTest, all, rows};

#[derive(Clone, Copy)]
enum Kind {
    Taken(usize, Edition),
    Nodes,
    Fault,
    Sum,
    Keyword(bool),
    Printed,
    Context,
    SumKeywords,
    Indented,
    Apart,
    Same,
    Kept,
    Right,
    Short,
    Nested,
    Glued,
    Literal,
}

impl RowTest for Kind {
    fn passes(
        &self,
        alloc: Global,
        [text, want, all, cut, suffix, written]: Fields,
    ) -> Result<bool, AllocError> {
        match self {
            Kind::Taken(rule, edition) => small_table::is_taken(
                alloc,
                *rule,
                *edition,
                (text, want),
            ),
            Kind::Nodes => grammar_texts::has_nodes(alloc, text, want),
            Kind::Fault => grammar_texts::is_at_fault(alloc, text, want),
            Kind::Sum => grammar_texts::is_sum(alloc, text, want),
            Kind::Keyword(is_one) => Ok(SampleGrammar.is_keyword(text) == *is_one),
            Kind::Printed => tree_lines::is_printed(alloc, text, want),
            Kind::Context => prefixes::is_by_context(alloc),
            Kind::SumKeywords => grammar_texts::has_keywords(alloc),
            Kind::Indented => tree_lines::is_indented(alloc),
            Kind::Apart => Ok(symbols::are_apart(alloc)),
            Kind::Same => Ok(symbols::are_same(alloc)),
            Kind::Kept => Ok(symbols::is_kept(alloc)),
            Kind::Right => Ok(symbols::stays_right(alloc)),
            Kind::Short => Ok(symbols::are_short(alloc)),
            Kind::Nested => deep_trees::is_nested(alloc, text, want),
            Kind::Glued => glue::is_operator(alloc, text, want),
            Kind::Literal => literals::is_written(alloc, (text, want), all, (cut, suffix, written)),
        }
    }
}

static TABLES: [(Kind, &str, usize); 30] = [
    (
        Kind::Taken(small_table::SUM, Edition2021),
        small_table::SUMS,
        9,
    ),
    (
        Kind::Taken(small_table::GEN, Edition2021),
        small_table::GEN_BEFORE_2024,
        1,
    ),
    (
        Kind::Taken(small_table::IN_PARENTHESES, Edition2021),
        small_table::PARENTHESES,
        4,
    ),
    (
        Kind::Taken(small_table::LEFT, Edition2021),
        small_table::LEFT_RECURSIVE,
        1,
    ),
    (
        Kind::Taken(small_table::ITSELF, Edition2021),
        small_table::A_NAME,
        1,
    ),
    (
        Kind::Taken(small_table::NOWHERE, Edition2021),
        small_table::A_NAME,
        1,
    ),
    (Kind::Taken(1_000_000, Edition2021), small_table::A_NAME, 1),
    (
        Kind::Taken(small_table::NOTHING_AGAIN, Edition2021),
        small_table::NOTHINGS,
        2,
    ),
    (
        Kind::Taken(small_table::ARROW, Edition2021),
        small_table::ARROWS,
        2,
    ),
    (
        Kind::Taken(small_table::NO_NAME_NEXT, Edition2021),
        small_table::NO_NAMES,
        2,
    ),
    (
        Kind::Taken(small_table::POINTED, Edition2021),
        small_table::POINTEDS,
        5,
    ),
    (
        Kind::Taken(small_table::GEN, Edition2024),
        small_table::GEN_SINCE_2024,
        2,
    ),
    (
        Kind::Taken(small_table::SUM, Edition2024),
        small_table::SUMS_SINCE_2024,
        2,
    ),
    (Kind::Nodes, grammar_texts::NODES, 13),
    (Kind::Fault, grammar_texts::FAULTS, 25),
    (Kind::Sum, grammar_texts::TAKEN, 8),
    (Kind::Keyword(true), sample_keywords::KEYWORDS, 52),
    (Kind::Keyword(false), sample_keywords::OTHER_WORDS, 17),
    (Kind::Printed, tree_lines::PRINTED, 6),
    (
        Kind::Context,
        rows![("the edition of a context decides")],
        1,
    ),
    (
        Kind::SumKeywords,
        rows![("a grammar of sums has keywords")],
        1,
    ),
    (Kind::Indented, rows![("seventy groups are indented")], 1),
    (Kind::Apart, rows![("each text has a symbol of its own")], 1),
    (Kind::Same, rows![("one table is for many texts")], 1),
    (
        Kind::Kept,
        rows![("a text that the table has takes no memory")],
        1,
    ),
    (Kind::Right, rows![("a refusal leaves the table right")], 1),
    (Kind::Short, rows![("a short text takes no memory")], 1),
    (Kind::Nested, deep_trees::NESTED, 2),
    (Kind::Glued, glue::OPERATORS, 36),
    (Kind::Literal, literals::LITERALS, 16),
];

#[test]
fn texts_and_grammars_pass(rt: HostRuntime) -> Result<(), FailedRow> {
    all(rt.alloc(), &TABLES)
}
