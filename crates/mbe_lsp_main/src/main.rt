// The program `mbe-lsp`: a language server for Rust's declarative macros.
#![tactic(auto)]

use mbe_lsp::command::run_command;
use std::process::ExitCode;

fn main(rt: HostRuntime) -> ExitCode {
    ExitCode::from(run_command(&rt))
}
