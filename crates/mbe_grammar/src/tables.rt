// Grammars of fragments as data. A grammar is a table of rules (`node`), and one parser works for
// all tables (`taking`). The parser is proved once: every table is a lawful grammar, so whoever
// writes a table has nothing to prove.
pub mod node;
pub mod parse_result;
pub mod peg_table;
mod rule_parser;
pub mod terminals;
