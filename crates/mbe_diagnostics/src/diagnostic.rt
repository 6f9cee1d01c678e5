// The type of a diagnostic: a message about a part of a file. The diagnostic of a mistake may have
// children, which say more about the mistake.
ghost use Rattle.std.specs.Prelude.{◌≡◌};
ghost use Rattle.mbe_diagnostics.specs.Diagnostics as spec;

/// The severity of a diagnostic.
#[derive(Clone, Copy, Drop)]
pub enum Level {
    Error,
    Warning,
    Note,
    Help,
}

impl Level {
    /// Returns the name of the level, as rustc writes it.
    pub fn word(self) -> &'static str
        ensures { result.now ≡ spec.word self }
    {
        match self {
            Level::Error => "error",
            Level::Warning => "warning",
            Level::Note => "note",
            Level::Help => "help",
        }
    }
}

/// A position in a file: its byte, counted from 0, and its line and column, counted from 1. A
/// column counts characters.
#[derive(Clone, Copy, Drop)]
pub struct Point {
    pub byte: usize,
    pub line: usize,
    pub column: usize,
}

/// A part of a file, as a diagnostic shows it.
#[derive(Drop)]
pub struct FilePart<'t> {
    /// The file's name.
    pub file: &'t str,
    pub start: Point,
    /// The end of the part, if it is known to be in the same line; else the start of the part.
    pub end: Point,
    /// The text of the line where the part starts.
    pub line: &'t str,
    /// The text of that line before the part.
    pub before: &'t str,
    /// The text of the part, up to the end of that line.
    pub part: &'t str,
}

/// A message, on a part of a file or on no file.
#[derive(Drop)]
pub struct Diagnostic<'t> {
    pub level: Level,
    pub message: &'t str,
    /// The id of its kind. It is empty for a child, and for a note without a kind of its own.
    pub code: &'t str,
    /// Whether it is a child: it belongs to the last diagnostic before it that is none.
    pub is_child: bool,
    /// The part of the file. `None` if the message is on no file.
    pub place: Option<FilePart<'t>>,
}
