// Counts lines and columns as `line!()` and `column!()` do.
ghost use Rattle.std.specs.Prelude.{◌≡◌};
ghost use Rattle.mbe_rewriter.specs.WholeFragments.LineColumn as spec;

/// A line and a column of a text, both counted from 1. The column counts the characters of the
/// line.
#[derive(Drop)]
pub struct LineColumn {
    pub line: u32,
    pub column: u32,
}

fn next(number: u32) -> u32
    ensures { result ≡ spec.next number }
{
    number.saturating_add(1)
}

fn begins_character(byte: u8) -> bool
    ensures { result ≡ spec.begins_character byte }
{
    byte < 128 || byte >= 192
}

fn after_byte(line_column: LineColumn, byte: u8) -> LineColumn
    ensures { result ≡ spec.after_byte line_column byte }
{
    if byte == b'\n' {
        LineColumn {
            line: next(line_column.line),
            column: 1,
        }
    } else if begins_character(byte) {
        LineColumn {
            line: line_column.line,
            column: next(line_column.column),
        }
    } else {
        line_column
    }
}

fn after_bytes(line_column: LineColumn, bytes: &[u8]) -> LineColumn
    ensures { result ≡ spec.after_bytes line_column bytes.now }
{
    let mut line_column = line_column;
    for byte in bytes {
        line_column = after_byte(line_column, *byte);
    }
    line_column
}

/// Returns the line and column of the byte `at`. Beyond the text, returns those of its end.
pub fn line_column_of(text: &str, at: usize) -> LineColumn
    ensures { result ≡ spec.line_column_of text.now at }
{
    let start = LineColumn { line: 1, column: 1 };
    let bytes = text.as_bytes();
    match bytes.get(..at) {
        Some(before) => after_bytes(start, before),
        None => after_bytes(start, bytes),
    }
}
