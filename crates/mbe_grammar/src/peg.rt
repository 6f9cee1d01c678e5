// Grammars that are read from texts. A text is a list of rules, in the form that docs/RATTLE.md
// describes. `PegGrammar::read` splits the text into tokens (`peg_lexer`, `peg_token`), numbers the
// rules (`rule_names`), and makes a node for each part of a rule (`peg_reader`). The result is a
// table for the parser in `tables`. A text with an error gives a `PegError` with its line and
// column.
mod partial_choice;
pub mod peg_error;
pub mod peg_grammar;
mod peg_lexer;
mod peg_reader;
mod peg_token;
mod rule_names;
