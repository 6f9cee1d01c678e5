// The program `mbex` without its `main`, and the functions behind the C library.
//
// `command` runs `mbex`. `arguments` parses the command line, and `program` lexes both texts and
// expands or lints. `expansion_printer` and `verdict_lines` write the output, and `failure` says
// why a run failed. `replies` holds what `mbe_c` exports: requests in numbers, and their answers.
#![tactic(auto)]

pub mod arguments;
pub mod command;
pub mod expansion_printer;
pub mod failure;
pub mod options;
pub mod program;
pub mod replies;
pub mod tree_expansion;
pub mod verdict_lines;
