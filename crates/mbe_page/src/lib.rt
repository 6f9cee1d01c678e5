// Shows a Rust file with its macros at work, as one HTML page.
//
// A `Session` of `mbe_session` records each call that it meets as a `CallStep`. `page_text` writes
// the steps of a file as a page. Each call in the text of the file opens a card. The card has the
// expansion and the template, and shows how the rules of the macro match the call. The page needs
// no network, and it can be read without scripts. `mbe_markup` has the pieces of a page.
//
// `page_data` and `call_view` have the data. The views are `source_writer`, `cards`,
// `token_writer`, `template_view`, `match_view` and `macro_list`. `rule_states` has the states of a
// match at each token. `page` writes a page of them.
// `pages` writes the pages of a folder. `trace_values`, `trace_states` and `trace` write the same
// data as JSON.
// `frames` writes a call and its steps for a terminal.
#![tactic(auto)]

mod call_view;
mod cards;
pub mod frames;
mod macro_list;
mod match_view;
pub mod page;
mod page_data;
pub mod pages;
mod rule_states;
mod source_writer;
mod template_view;
mod token_writer;
pub mod trace;
mod trace_states;
mod trace_values;
