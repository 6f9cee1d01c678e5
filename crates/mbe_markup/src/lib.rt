// The pieces from which the pages of `mbe_page` are made. They need no session.
//
// `html` and `json` escape each text. So only constants of the program add markup. `style` and
// `script` are such constants. `railroad` draws a pattern as SVG.
//
// `token_text` writes trees as text, with the span of each token. A token of an expansion may come
// from a variable, which `fragments` finds. `applied_rule` finds the rule that expands a call.
// `rule_sites` finds the templates of a definition in its file.
#![tactic(auto)]

pub mod applied_rule;
pub mod fragments;
pub mod html;
pub mod json;
pub mod railroad;
pub mod rule_sites;
pub mod script;
pub mod style;
pub mod token_text;
