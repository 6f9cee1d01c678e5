// Renders a diagnostic as rustc does: the level and the message, the location, the line of the
// file, and carets below the part. Its children follow in the same form.
ghost use Rattle.std.specs.Prelude.{◌≡◌, ◌++◌, ◌+◌, ◌<◌, IfOk, OnOk, chars, codes, false, max};
ghost use Rattle.std.specs.String.{string_bytes};
ghost use Rattle.unicode_width.specs.Width.{str_width};
ghost use Rattle.mbe_diagnostics.specs.Diagnostics as spec;

use crate::diagnostic::{Diagnostic, FilePart, Level};
use std::alloc::{AllocError, Allocator};
use unicode_width::UnicodeWidthStr;

fn is_within(first: char, last: char, char: char) -> bool
    ensures { result ≡ spec.is_within first last char }
{
    first <= char && char <= last
}

fn is_hidden(char: char) -> bool
    ensures { result ≡ spec.is_hidden char }
{
    is_within('\u{80}', '\u{9f}', char)
        || is_within('\u{202a}', '\u{202e}', char)
        || is_within('\u{2066}', '\u{2069}', char)
}

// Returns the picture of an ASCII control character, such as ␛ for an escape.
fn picture(control: char) -> char
    requires control { control < 32 }
    ensures { result ≡ 0x2400 + control }
{
    char::from_u32(0x2400 + u32::from(control)).unwrap_or('\u{fffd}')
}

/// Returns the character to print. A control character that a terminal would obey is replaced by a
/// sign, as in rustc. A tab and a line feed are unchanged.
pub fn visible(char: char) -> char
    ensures { result ≡ spec.visible char }
{
    if char == '\t' || char == '\n' {
        char
    } else if char < ' ' {
        picture(char)
    } else if char == '\u{7f}' {
        '\u{2421}'
    } else if is_hidden(char) {
        '\u{fffd}'
    } else {
        char
    }
}

fn push_sanitized<A: Allocator>(text: &mut String<A>, char: char) -> Result<(), AllocError>
    ensures { OnOk result (string_bytes text.new ≡ string_bytes text.old
        ++ spec.sanitized_char char) }
{
    match char {
        '\t' => text.push_str("    "),
        _ => text.push(visible(char)),
    }
}

// Returns the text with four spaces for each tab, and a sign for each control character that a
// terminal would obey.
fn sanitized<A: Allocator + Copy>(alloc: A, text: &str) -> Result<String<A>, AllocError>
    ensures { IfOk result (λ t. string_bytes t ≡ spec.sanitized (chars text.now)) }
{
    let mut sanitized = String::new(alloc);
    for char in text.chars() {
        push_sanitized(&mut sanitized, char)?;
    }
    Ok(sanitized)
}

// Returns spaces as wide as the text is in a terminal.
fn margin<A: Allocator + Copy>(alloc: A, before: &str) -> Result<String<A>, AllocError>
    ensures { IfOk result (λ t. string_bytes t ≡ spec.margin before.now) }
{
    let sanitized = sanitized(alloc, before)?;
    " ".repeat(alloc, sanitized.as_str().width())
}

// Returns the terminal code that begins the colour of a level.
fn colour_of(level: Level) -> &'static str
    ensures { result.now ≡ spec.colour level }
{
    match level {
        Level::Error => "\u{1b}[1;31m",
        Level::Warning => "\u{1b}[1;33m",
        Level::Note => "\u{1b}[1;32m",
        Level::Help => "\u{1b}[1;36m",
    }
}

// Returns the name of the level, in its colour if `is_coloured`.
fn level_text<A: Allocator + Copy>(
    alloc: A,
    level: Level,
    is_coloured: bool,
) -> Result<String<A>, AllocError>
    ensures { IfOk result (λ t. string_bytes t ≡ spec.level_text level is_coloured) }
{
    let word = level.word();
    if !is_coloured {
        return String::from_str(alloc, word);
    }
    let colour = colour_of(level);
    format!(in alloc; "{colour}{word}\u{1b}[0m")
}

// Returns one caret for each column of the text in a terminal, and at least one.
fn carets<A: Allocator + Copy>(alloc: A, part: &str) -> Result<String<A>, AllocError>
    ensures { IfOk result (λ t. string_bytes t ≡ spec.carets part.now) }
{
    let sanitized = sanitized(alloc, part)?;
    "^".repeat(alloc, sanitized.as_str().width().max(1))
}

// Returns the number of digits of a number.
fn digits<A: Allocator + Copy>(alloc: A, number: usize) -> Result<usize, AllocError>
    ensures { IfOk result (λ n. n ≡ spec.digits number) }
{
    let text = format!(in alloc; "{number}")?;
    Ok(text.len())
}

// Returns the number of digits of the line number of a part of a file.
fn digits_of<A: Allocator + Copy>(
    alloc: A,
    place: &Option<FilePart<'_>>,
) -> Result<usize, AllocError>
    ensures { IfOk result (λ n. n ≡ spec.digits_of place.now) }
{
    match place {
        Some(part) => digits(alloc, part.start.line),
        None => Ok(0),
    }
}

fn wider(one: usize, other: usize) -> usize
    ensures { result ≡ max one other }
{
    if one < other {
        return other;
    }
    one
}

// Returns the largest of `width` and the numbers of digits of the children's line numbers.
fn widest<A: Allocator + Copy>(
    alloc: A,
    width: usize,
    children: &[Diagnostic<'_>],
) -> Result<usize, AllocError>
    ensures { IfOk result (λ n. n ≡ spec.widest width children.now) }
{
    let mut width = width;
    for child in children {
        let digits = digits_of(alloc, &child.place)?;
        width = wider(width, digits);
    }
    Ok(width)
}

// Returns the width of the line numbers of a diagnostic and its children.
pub(crate) fn width_of<A: Allocator + Copy>(
    alloc: A,
    diag: &Diagnostic<'_>,
    children: &[Diagnostic<'_>],
) -> Result<usize, AllocError>
    ensures { IfOk result (λ n. n ≡ spec.width_of diag.now children.now) }
{
    let digits = digits_of(alloc, &diag.place)?;
    widest(alloc, digits, children)
}

// Returns one space for each column of a line number.
#[tactic(auto, unfolding(crate::specs::Diagnostics::gutter))]
fn gutter<A: Allocator + Copy>(alloc: A, width: usize) -> Result<String<A>, AllocError>
    ensures { IfOk result (λ t. string_bytes t ≡ spec.gutter width) }
{
    " ".repeat(alloc, width)
}

// Returns a line number, with spaces before it up to that width.
#[tactic(auto, unfolding(crate::specs::Diagnostics::line_number))]
fn line_number<A: Allocator + Copy>(
    alloc: A,
    width: usize,
    number: usize,
) -> Result<String<A>, AllocError>
    ensures { IfOk result (λ t. string_bytes t ≡ spec.line_number width number) }
{
    let digits = digits(alloc, number)?;
    let space = gutter(alloc, width.saturating_sub(digits))?;
    format!(in alloc; "{space}{number}")
}

// Returns the first line: the level and the message.
fn head<A: Allocator + Copy>(
    alloc: A,
    diag: &Diagnostic<'_>,
    is_coloured: bool,
) -> Result<String<A>, AllocError>
    ensures { IfOk result (λ t. string_bytes t ≡ spec.head diag.now is_coloured) }
{
    let level = level_text(alloc, diag.level, is_coloured)?;
    let message = sanitized(alloc, diag.message)?;
    format!(in alloc; "{level}: {message}\n")
}

// Returns the second line: the file, the line and the column.
fn location<A: Allocator + Copy>(
    alloc: A,
    width: usize,
    part: &FilePart<'_>,
) -> Result<String<A>, AllocError>
    ensures { IfOk result (λ t. string_bytes t ≡ spec.location width part.now) }
{
    let gutter = gutter(alloc, width)?;
    let file = part.file;
    let (line, column) = (part.start.line, part.start.column);
    format!(in alloc; "{gutter}--> {file}:{line}:{column}\n")
}

// Returns the line of the file with its number, and the carets below the part.
fn snippet<A: Allocator + Copy>(
    alloc: A,
    width: usize,
    part: &FilePart<'_>,
) -> Result<String<A>, AllocError>
    ensures { IfOk result (λ t. string_bytes t ≡ spec.snippet width part.now) }
{
    let gutter = gutter(alloc, width)?;
    let number = line_number(alloc, width, part.start.line)?;
    let line = sanitized(alloc, part.line)?;
    let margin = margin(alloc, part.before)?;
    let carets = carets(alloc, part.part)?;
    format!(in alloc; "{gutter} |\n{number} | {line}\n{gutter} | {margin}{carets}\n")
}

// Appends the location of a part of a file, and its line with carets. Nothing is appended for
// `None`.
fn push_place<A: Allocator + Copy>(
    alloc: A,
    width: usize,
    place: &Option<FilePart<'_>>,
    text: &mut String<A>,
) -> Result<(), AllocError>
    ensures { OnOk result (string_bytes text.new ≡ string_bytes text.old
        ++ spec.place_text width place.now) }
{
    let Some(part) = place else {
        return Ok(());
    };
    let location = location(alloc, width, part)?;
    text.push_str(location.as_str())?;
    let snippet = snippet(alloc, width, part)?;
    text.push_str(snippet.as_str())
}

// Appends a diagnostic without its children.
pub(crate) fn push_alone<A: Allocator + Copy>(
    alloc: A,
    width: usize,
    diag: &Diagnostic<'_>,
    is_coloured: bool,
    text: &mut String<A>,
) -> Result<(), AllocError>
    ensures { OnOk result (string_bytes text.new ≡ string_bytes text.old
        ++ spec.text_alone width diag.now is_coloured) }
{
    let head = head(alloc, diag, is_coloured)?;
    text.push_str(head.as_str())?;
    push_place(alloc, width, &diag.place, text)
}

// Appends the sign before a child that is on no file.
fn push_sign<A: Allocator + Copy>(
    alloc: A,
    width: usize,
    place: &Option<FilePart<'_>>,
    text: &mut String<A>,
) -> Result<(), AllocError>
    ensures { OnOk result (string_bytes text.new ≡ string_bytes text.old
        ++ spec.sign width place.now) }
{
    match place {
        Some(_) => Ok(()),
        None => {
            let gutter = gutter(alloc, width)?;
            text.push_str(gutter.as_str())?;
            text.push_str(" = ")
        }
    }
}

// Appends a child.
fn push_child<A: Allocator + Copy>(
    alloc: A,
    width: usize,
    child: &Diagnostic<'_>,
    is_coloured: bool,
    text: &mut String<A>,
) -> Result<(), AllocError>
    ensures { OnOk result (string_bytes text.new ≡ string_bytes text.old
        ++ spec.child_text width child.now is_coloured) }
{
    push_sign(alloc, width, &child.place, text)?;
    push_alone(alloc, width, child, is_coloured, text)
}

// Appends the children of a diagnostic.
pub(crate) fn push_children<A: Allocator + Copy>(
    alloc: A,
    width: usize,
    children: &[Diagnostic<'_>],
    is_coloured: bool,
    text: &mut String<A>,
) -> Result<(), AllocError>
    ensures { OnOk result (string_bytes text.new ≡ string_bytes text.old
        ++ spec.children_text width children.now is_coloured) }
{
    for child in children {
        push_child(alloc, width, child, is_coloured, text)?;
    }
    Ok(())
}

// Appends the line between a diagnostic and its children, if it has any.
pub(crate) fn push_bar<A: Allocator + Copy>(
    alloc: A,
    width: usize,
    children: &[Diagnostic<'_>],
    text: &mut String<A>,
) -> Result<(), AllocError>
    ensures { OnOk result (string_bytes text.new ≡ string_bytes text.old
        ++ spec.bar width children.now) }
{
    match children {
        [] => Ok(()),
        [_, ..] => {
            let gutter = gutter(alloc, width)?;
            text.push_str(gutter.as_str())?;
            text.push_str(" |\n")
        }
    }
}

/// Renders a diagnostic with its children as rustc does, and ends it by an empty line. The first
/// line has the level and the message. The next ones have the file with the line and the column,
/// the text of that line, and carets below the part. All line numbers are as wide as the longest
/// one. Tabs become four spaces, and control characters become signs. If `is_coloured`, terminal
/// codes colour the levels. `AllocError` if out of memory.
pub fn rendered<A: Allocator + Copy>(
    alloc: A,
    diag: &Diagnostic<'_>,
    children: &[Diagnostic<'_>],
    is_coloured: bool,
) -> Result<String<A>, AllocError>
    ensures { IfOk result (λ t. string_bytes t ≡ spec.text diag.now children.now is_coloured) }
{
    let width = width_of(alloc, diag, children)?;
    let mut text = String::new(alloc);
    push_alone(alloc, width, diag, is_coloured, &mut text)?;
    push_bar(alloc, width, children, &mut text)?;
    push_children(alloc, width, children, is_coloured, &mut text)?;
    text.push_str("\n")?;
    Ok(text)
}
