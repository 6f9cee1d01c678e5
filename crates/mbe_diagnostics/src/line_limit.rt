// The text of a diagnostic in a limited number of lines.
//
// The diagnostic itself and the first of its children are shown in full, as `renderer` renders
// them. A last line says how many lines of the other children aren't shown.
ghost use Rattle.std.specs.Prelude.{◌≡◌, ◌++◌, ◌≤◌, IfOk, OnOk, length};
ghost use Rattle.std.specs.String.{string_bytes};
ghost use Rattle.mbe_diagnostics.specs.LineLimit as spec;

use crate::diagnostic::{Diagnostic, FilePart};
use crate::renderer::{push_alone, push_bar, push_children, rendered, width_of};
use std::alloc::{AllocError, Allocator};

// Returns the number of line feeds of a text.
fn line_feeds(bytes: &[u8]) -> usize
    ensures { result ≡ spec.line_feeds bytes.now }
{
    let mut count = 0usize;
    for byte in bytes {
        count += is_line_feed(*byte);
    }
    count
}

// Returns 1 for a line feed, and 0 for another byte.
fn is_line_feed(byte: u8) -> usize
    ensures count { result ≡ spec.is_line_feed byte }
    ensures few { result ≤ 1 }
{
    match byte {
        b'\n' => 1,
        _ => 0,
    }
}

// Returns the number of lines that a part of a file takes, with the line of the message.
fn lines_of_place(place: &Option<FilePart<'_>>) -> usize
    ensures { result ≡ spec.lines_of_place place.now }
{
    match place {
        Some(_) => 5,
        None => 1,
    }
}

// Returns the number of lines of a diagnostic without its children.
fn lines_of(diag: &Diagnostic<'_>) -> usize
    ensures { result ≡ spec.lines_of diag.now }
{
    lines_of_place(&diag.place).saturating_add(line_feeds(diag.message.as_bytes()))
}

// Returns `lines` and the number of lines of these children.
fn lines_with(lines: usize, children: &[Diagnostic<'_>]) -> usize
    ensures { result ≡ spec.lines_with lines children.now }
{
    let mut lines = lines;
    for child in children {
        lines = lines.saturating_add(lines_of(child));
    }
    lines
}

// Returns how many of the first children fit into `limit` lines, after `lines` others.
fn fitting(limit: usize, lines: usize, children: &[Diagnostic<'_>]) -> usize
    ensures count { result ≡ spec.fitting limit lines children.now }
    ensures few { result ≤ length children.now }
{
    let mut lines = lines;
    let mut count = 0usize;
    for child in children {
        lines = lines.saturating_add(lines_of(child));
        if limit < lines {
            return count;
        }
        count += 1;
    }
    count
}

// Whether the text of a diagnostic is shown whole: if it has no children, or if its children fit
// into `limit` lines, after `lines` others.
fn is_whole(limit: usize, lines: usize, children: &[Diagnostic<'_>]) -> bool
    ensures { result ≡ spec.is_whole limit lines children.now }
{
    match children {
        [] => true,
        [_, ..] => lines_with(lines, children) <= limit,
    }
}

// Appends the line that says how many lines aren't shown.
fn push_cut<A: Allocator + Copy>(
    alloc: A,
    hidden: usize,
    hint: &str,
    text: &mut String<A>,
) -> Result<(), AllocError>
    ensures { OnOk result (string_bytes text.new ≡ string_bytes text.old
        ++ spec.cut hidden hint.now) }
{
    let line = format!(in alloc; "... {hidden} more lines; {hint}\n\n")?;
    text.push_str(line.as_str())
}

// Renders a diagnostic with the first of its children that fit into `limit` lines, and the number
// of lines of the others. `lines` is the number of lines before the children.
fn shortened<A: Allocator + Copy>(
    alloc: A,
    limit: usize,
    hint: &str,
    lines: usize,
    diag: &Diagnostic<'_>,
    children: &[Diagnostic<'_>],
    is_coloured: bool,
) -> Result<String<A>, AllocError>
    ensures { IfOk result (λ t. string_bytes t
        ≡ spec.shortened limit hint.now lines diag.now children.now is_coloured) }
{
    let width = width_of(alloc, diag, children)?;
    let (shown, others) = children.split_at(fitting(limit, lines, children));
    let mut text = String::new(alloc);
    push_alone(alloc, width, diag, is_coloured, &mut text)?;
    push_bar(alloc, width, children, &mut text)?;
    push_children(alloc, width, shown, is_coloured, &mut text)?;
    push_cut(alloc, lines_with(0, others), hint, &mut text)?;
    Ok(text)
}

/// Renders a diagnostic with its children as `rendered` does, if it has no children, or if the text
/// has at most `limit` lines. The empty line at its end doesn't count. Else it shows the diagnostic, the
/// first children, and a line with the number of the other lines and the hint. All of this has at
/// most `limit` lines if the diagnostic itself is shorter. `AllocError` if out of memory.
pub fn rendered_within<A: Allocator + Copy>(
    alloc: A,
    limit: usize,
    hint: &str,
    diag: &Diagnostic<'_>,
    children: &[Diagnostic<'_>],
    is_coloured: bool,
) -> Result<String<A>, AllocError>
    ensures { IfOk result (λ t. string_bytes t
        ≡ spec.text_within limit hint.now diag.now children.now is_coloured) }
{
    let lines = lines_of(diag).saturating_add(1);
    if is_whole(limit, lines, children) {
        return rendered(alloc, diag, children, is_coloured);
    }
    let limit = limit.saturating_sub(1);
    shortened(alloc, limit, hint, lines, diag, children, is_coloured)
}
