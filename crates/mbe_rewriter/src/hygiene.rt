// Hygiene by renaming.
//
// rustc keeps the locals of a template apart from the locals of a call. A text has only names. So a
// local or label that a step of an expansion binds gets a new name if a token of another syntax
// context has its name.
//
// For the template `{ let a = $x; a }`, the call `m!(a)` becomes `{ let a_1 = a; a_1 }`.
//
// A step is the expansion of one call. The syntax context of a token says which step wrote it.
mod buckets;
pub mod contexts;
mod format_names;
pub mod laws;
mod local_names;
mod lookahead;
mod new_names;
mod pattern_calls;
mod regions;
pub mod renamer;
mod roles;
mod scan_state;
mod token_classes;
pub(crate) mod tree_events;
