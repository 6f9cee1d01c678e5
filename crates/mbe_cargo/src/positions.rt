// Finds the position of a key in the text of a manifest.

// Whether the line begins with the key, and `=` or `.` after it.
fn is_key_line(line: &str, key: &str) -> bool {
    let line = line.trim_start();
    let rest = match line.strip_prefix('"') {
        Some(quoted) => match quoted.strip_prefix(key) {
            Some(rest) => rest.strip_prefix('"'),
            None => None,
        },
        None => line.strip_prefix(key),
    };
    match rest {
        Some(rest) => {
            let rest = rest.trim_start();
            rest.starts_with('=') || rest.starts_with('.')
        }
        None => false,
    }
}

// Returns the name between the brackets of a line `[name]` or `[[name]]`.
fn section_of(line: &str) -> Option<&str> {
    let name = line.trim().strip_prefix('[')?.strip_suffix(']')?;
    match name.strip_prefix('[') {
        Some(inner) => inner.strip_suffix(']'),
        None => Some(name),
    }
}

// Whether a section is `table.key`.
fn is_section_of(section: &str, table: &str, key: &str) -> bool {
    match section.strip_suffix(key) {
        Some(before) => match before.strip_suffix('.') {
            Some(before) => before.ends_with(table),
            None => false,
        },
        None => false,
    }
}

/// Returns the line and the column of `key` in the table `table`, from 1. If it isn't found as one
/// line, the first line of the table; else line 1.
pub fn position_of(text: &str, table: &str, key: &str) -> (usize, usize) {
    let mut place = (1usize, 1usize);
    let mut is_inside = table.is_empty();
    let mut line_number = 0usize;
    for line in text.split('\n') {
        line_number = line_number.saturating_add(1);
        if let Some(section) = section_of(line) {
            if is_section_of(section, table, key) {
                return (line_number, 1);
            }
            is_inside = section.ends_with(table);
            if is_inside {
                place = (line_number, 1);
            }
        } else if is_inside && is_key_line(line, key) {
            let indent = line.len().saturating_sub(line.trim_start().len());
            return (line_number, indent.saturating_add(1));
        }
    }
    place
}
