// The progress line on standard error. Each text overwrites the last, and the line is cleared at
// the end.
use crate::command_line::RunOutput;
use std::io;

/// Whether a run shows its progress.
#[derive(Clone, Copy, Drop)]
pub struct ProgressLine {
    is_shown: bool,
}

impl ProgressLine {
    /// Progress is shown if `--write` is given, standard error is a terminal, and diagnostics are
    /// not in JSON. Nothing else is then on the line.
    pub fn new(output: &RunOutput<'_>, is_terminal: bool) -> ProgressLine {
        ProgressLine {
            is_shown: is_terminal && output.folder.is_some() && !output.is_json,
        }
    }

    /// Shows what the run is doing, and the number of files.
    pub fn show<R: Eprint>(self, rt: &R, doing: &str, files: usize) -> io::Result<()> {
        if !self.is_shown {
            return Ok(());
        }
        eprint!(rt; "\r\x1b[K{doing}: {files}")
    }

    /// Clears the line.
    pub fn clear<R: Eprint>(self, rt: &R) -> io::Result<()> {
        if !self.is_shown {
            return Ok(());
        }
        eprint!(rt; "\r\x1b[K")
    }
}
