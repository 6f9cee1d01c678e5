// Keeps fragments whole where the text of an expansion alone would be parsed differently.
//
// rustc keeps the fragment that a variable is bound to as a unit. A text doesn't show this unit.
// The submodules treat types in templates, negative literals before a `.`, the groups of fragments
// in rustc's dialect, and the arguments of builtin macros.
pub mod builtin_calls;
pub mod builtin_names;
pub mod fragment_groups;
mod front_tokens;
pub mod laws;
pub mod line_column;
pub mod operands;
pub mod receivers;
pub mod variable_parentheses;
