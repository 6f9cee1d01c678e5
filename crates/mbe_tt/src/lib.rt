// The token trees that `mbe` reads and writes.
//
// A `TopSubtree` is a flat buffer that holds one group of trees. A `TopSubtreeBuilder` writes it.
// `TokenTreesView`, `TtIter` and `Cursor` borrow from it and read it. A leaf has a `Span`, and
// keeps its text as a `Symbol`. A `FragmentGrammar` tells the expander where a fragment, such as
// an expression, ends.
#![tactic(auto)]

mod buffer;
mod builder;
mod cursor;
mod display;
mod entry;
pub mod fragment_group;
pub mod grammar;
mod inline_str;
mod iter;
pub mod laws;
pub mod span;
pub mod symbol;
pub mod tt;
mod view;
