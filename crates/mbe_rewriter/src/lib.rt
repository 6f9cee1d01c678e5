// Finds calls and definitions of macros in token trees, and prepares expansions to replace calls in
// a text.
//
// The crate finds a call or a definition at the front of trees, also a call with attributes. It
// keeps operators of different texts apart, and renames locals for hygiene. It puts parentheses
// around fragments that the parser must not split. It also replaces parts of a text.
#![tactic(auto)]

pub mod attributed_calls;
pub mod defining_words;
pub mod hygiene;
pub mod macro_items;
pub mod punct_spacing;
pub mod splice;
pub mod whole_fragments;
