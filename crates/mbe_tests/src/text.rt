// Tests of the crates of texts and of Rust files, through their public functions, where no program
// shows the result.
//
// They cover `mbe_text`, the grammars of `mbe_grammar`, and deep trees. They also cover the steps
// before an expansion: removing code that `cfg` disables, finding the files of modules, and finding
// calls and definitions at the front of trees. The steps after it are splicing, renaming locals,
// and drawing carets.
mod call_fronts;
mod carets;
mod conversions;
mod crate_trees;
mod deep_trees;
mod disabled_code;
mod file_tables;
mod glue;
mod grammar_texts;
mod hygiene_rows;
mod includes;
mod literals;
mod modules;
mod prefixes;
mod sample_keywords;
mod small_table;
mod splices;
mod symbols;
mod tables;
mod tree_lines;
