// Counts of the calls that a session meets, in files and in expansions.

/// How many calls a session met. Each stops at the largest `usize`.
#[derive(Clone, Copy, Drop)]
pub struct CallCounts {
    /// The calls whose macro a file may define.
    pub calls: usize,
    /// Those of these calls that are expanded.
    pub expanded: usize,
    /// The calls of macros that no file defines. Calls of the standard library's macros don't
    /// count.
    pub unknown: usize,
}

impl CallCounts {
    /// No call was met yet.
    pub fn new() -> CallCounts {
        CallCounts {
            calls: 0,
            expanded: 0,
            unknown: 0,
        }
    }

    /// Counts a call whose macro a file may define.
    pub(crate) fn add_call(&mut self) {
        self.calls = self.calls.saturating_add(1);
    }

    /// Returns the counts with one more call whose macro a file may define, which isn't expanded.
    pub(crate) fn with_call(self) -> CallCounts {
        CallCounts {
            calls: self.calls.saturating_add(1),
            ..self
        }
    }

    /// Counts that a call is expanded.
    pub(crate) fn add_expanded(&mut self) {
        self.expanded = self.expanded.saturating_add(1);
    }

    /// Counts a call of a macro that no file defines.
    pub(crate) fn add_unknown(&mut self) {
        self.unknown = self.unknown.saturating_add(1);
    }
}
