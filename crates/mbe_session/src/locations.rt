// Lines and columns of texts. Both count from 1, and a column counts characters.
ghost use Rattle.std.specs.Prelude.{◌≡◌};
ghost use Rattle.mbe_session.specs.FileExpansion.{is_position};

/// A position as a person gives it: a line, and a column if it is given. Both count from 1, and
/// a column counts characters.
#[derive(Clone, Copy, Drop)]
pub struct CallPosition {
    pub line: usize,
    pub column: Option<usize>,
}

impl CallPosition {
    /// Parses `LINE` or `LINE:COL`, in decimal. `None` for any other text.
    pub fn read(text: &str) -> Option<CallPosition> {
        match text.split_once(':') {
            None => Some(CallPosition {
                line: text.parse::<usize>().ok()?,
                column: None,
            }),
            Some((line, column)) => Some(CallPosition {
                line: line.parse::<usize>().ok()?,
                column: Some(column.parse::<usize>().ok()?),
            }),
        }
    }

    /// Returns the range of bytes at the position: a whole line, or one character. It is `(0, 0)`
    /// if the text has no such position.
    pub fn bytes_in(self, text: &str) -> (usize, usize) {
        let mut start = 0usize;
        for (number, line) in text.split('\n').enumerate() {
            if number.saturating_add(1) == self.line {
                return self.bytes_of(line, start);
            }
            start = start.saturating_add(line.len()).saturating_add(1);
        }
        (0, 0)
    }

    // Returns the range of bytes in one line, which starts at byte `start`.
    fn bytes_of(self, line: &str, start: usize) -> (usize, usize) {
        let Some(column) = self.column else {
            return (start, start.saturating_add(line.len()));
        };
        let Some(number) = column.checked_sub(1) else {
            return (0, 0);
        };
        match line.char_indices().nth(number) {
            Some((at, char)) => {
                let from = start.saturating_add(at);
                (from, from.saturating_add(char.len_utf8()))
            }
            None => (0, 0),
        }
    }

    /// Whether a byte is at the position.
    pub fn is_at(self, found: Location<'_>) -> bool
        ensures { result ≡ is_position self found.entry.line found.entry.column }
    {
        found.line == self.line && self.column.is_none_or(|column| column == found.column)
    }
}

/// The line and the column of a byte, both counted from 1, and the text of the line. A column
/// counts characters.
#[derive(Clone, Copy, Drop)]
pub struct Location<'t> {
    pub line: usize,
    pub column: usize,
    pub text: &'t str,
}

/// The location of a diagnostic that belongs to no file.
pub const NOWHERE: Location<'static> = Location {
    line: 1,
    column: 1,
    text: "",
};
