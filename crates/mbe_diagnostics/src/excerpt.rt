// Shortens a text to one line of at most `COLUMNS` columns.
ghost use Rattle.std.specs.Prelude.{◌≡◌, ◌++◌, IfOk, OnOk, chars};
ghost use Rattle.std.specs.String.{string_bytes};
ghost use Rattle.mbe_diagnostics.specs.Excerpt as spec;

use std::alloc::{AllocError, Allocator};
use unicode_width::UnicodeWidthChar;

/// The largest width of an excerpt, in columns of a terminal. The `…` for what is left out is not
/// counted.
pub const COLUMNS: usize = 60;

fn columns(char: char) -> usize
    ensures { result ≡ spec.columns char }
{
    match char {
        '\n' => 1,
        _ => char.width().unwrap_or(0),
    }
}

fn is_indent(at_start: bool, char: char) -> bool
    ensures { result ≡ spec.is_indent at_start char }
{
    at_start && char == ' '
}

fn push_in_line<A: Allocator>(text: &mut String<A>, char: char) -> Result<(), AllocError>
    ensures { OnOk result (string_bytes text.new ≡ string_bytes text.old ++ spec.in_line char) }
{
    match char {
        '\n' => text.push(' '),
        _ => text.push(char),
    }
}

/// Returns the text in one line. A line feed with the spaces after it becomes one space. A text of
/// more than `COLUMNS` columns is cut, and ends in `…`. `AllocError` if out of memory.
pub fn excerpt<A: Allocator>(alloc: A, text: &str) -> Result<String<A>, AllocError>
    ensures { IfOk result (λ t. string_bytes t ≡ spec.excerpt (chars text.now)) }
{
    let mut shown = String::new(alloc);
    let mut room = COLUMNS;
    let mut at_start = false;
    for char in text.chars() {
        if is_indent(at_start, char) {
            continue;
        }
        let columns = columns(char);
        if room < columns {
            shown.push('…')?;
            return Ok(shown);
        }
        push_in_line(&mut shown, char)?;
        room -= columns;
        at_start = char == '\n';
    }
    Ok(shown)
}
