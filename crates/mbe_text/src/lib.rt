// Text and token trees.
//
// A `Scanner` reads a text token by token, and `lex` makes token trees of the tokens. A `Writer`
// prints trees as Rust text, and `print_tree` prints them one line each. `laws` states that trees
// of Rust come back when their printed text is lexed.
#![tactic(auto)]

mod characters;
pub mod dialect;
mod doc_comments;
mod escapes;
pub mod fault_kind;
mod gaps;
pub mod laws;
pub mod lexer;
pub mod output;
pub mod rust_printer;
mod rust_tokens;
pub mod scanner;
pub mod symbol_table;
pub mod tree_dump;
