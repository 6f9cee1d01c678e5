// The examples of docs/RATTLE.md, word for word, with tests that run them. `logs` has users of the
// binding log, who see its contracts alone.
mod bindings;
mod definitions;
mod expansions;
mod grammars;
mod group_views;
mod logs;
mod memory;
mod results;
mod rows;
mod rule_table;
mod rule_verdicts;
mod small_values;
mod text_trees;
mod theorem;
mod tree_builder;
mod walks;
