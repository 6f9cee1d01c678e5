// The program `mbex`: it expands an argument by a definition, each lexed from a file, and prints
// the token trees of the expansion.
#![tactic(auto)]

use mbe_program::command::run_command;
use std::process::ExitCode;

fn main(rt: HostRuntime) -> ExitCode {
    ExitCode::from(run_command(&rt))
}
