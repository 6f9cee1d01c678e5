// The program `expandm`: it expands the macro calls of Rust files, or lints their definitions.
//
// `command_line` parses the arguments, and `command` runs them. `input` reads the files by
// `mbe_files`. `output` and `call_output` expand them by `mbe_session`, and print or write texts.
// `reports` writes the diagnostics. `reporter` has what a run collects of its targets: the coverage
// of rules, and a log of diagnostics.
#![tactic(auto)]

mod call_output;
mod command;
mod command_line;
mod input;
mod output;
mod progress;
mod reporter;
mod reports;

use crate::command::run_command;
use std::io::IsTerminal;
use std::process::ExitCode;

fn main(rt: HostRuntime) -> ExitCode {
    let (output, errors) = (rt.stdout().is_terminal(), rt.stderr().is_terminal());
    ExitCode::from(run_command(&rt, errors, output))
}
