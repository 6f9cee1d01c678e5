// The expansion of files: a file's text with its calls replaced, or the expansions of the calls at
// one position.
ghost use Rattle.std.specs.Prelude.{◌≡◌, ◌-◌, None, IfNone, IfOk, IfSome, OnOk, map};
ghost use Rattle.std.specs.List.{slice_get};
ghost use Rattle.std.specs.String.{string_bytes};
ghost use Rattle.mbe_session.specs.CallReplacements.{NoneCalled};
ghost use Rattle.mbe_session.specs.SessionViews.{setting_of, state_of};
ghost use Rattle.mbe_rewriter.specs.ReplacementViews.{part_of};
ghost use Rattle.mbe_rewriter.specs.Splice.{spliced};
ghost use Rattle.mbe_session.specs.CrateTrees.{crate_of};
ghost use Rattle.mbe_session.specs.FileExpansion as spec;
ghost use Rattle.mbe_session.specs.FileExpansion.{FileExpands, FilesExpand};
ghost use Rattle.mbe_session.specs.FileExpansion.{RootExpands, ExpansionsAt, WritesOne};
ghost use Rattle.mbe_session.specs.LineEndings.{original_part, returns};
ghost use Rattle.mbe_session.specs.FileViews.{source_of};

use crate::crate_expander::crate_replacements;
use crate::file_expander::{FileExpander, LEVELS};
use crate::lines::Lines;
use crate::locations::CallPosition;
use crate::notes::Note;
use crate::source_files::SourceFile;
use mbe_rewriter::splice::{Replacement, splice};
use mbe_text::output::write_whole;
use std::alloc::{AllocError, Global};
use std::io;
use std::io::Write;

/// The part of the files that is printed.
#[derive(Drop)]
pub struct PrintRequest {
    /// The position whose calls are printed, in place of the whole text.
    pub call: Option<CallPosition>,
    /// Whether modules are followed.
    pub with_modules: bool,
}

/// Writes the expansion of a crate's root, file `number`: its text with each call expanded, or the
/// expansions of the calls at the position alone. If memory runs out, nothing is written. If a
/// write fails, a prefix is written.
pub fn write_root<W: Write>(
    alloc: Global,
    request: PrintRequest,
    notes: &mut Vec<Note>,
    expander: &mut FileExpander<'_>,
    files: &[SourceFile<'_>],
    number: usize,
    root: &SourceFile<'_>,
    out: &mut W,
) -> io::Result<()>
    ensures expands { WritesOne (W.contents out.old) (W.contents out.new) result (λ s.
        RootExpands (setting_of expander.old) LEVELS request.call request.with_modules
        (map source_of files.now) number (source_of root.now)
        (state_of expander.old) s (state_of expander.new)) }
    ensures unknown { IfSome (crate_of request.with_modules (map source_of files.now) number
        (source_of root.now)) (λ tree. request.call ≡ None
        → NoneCalled (state_of expander.old).scope.definitions tree.1
        → WritesOne (W.contents out.old) (W.contents out.new) result
        (λ s. s ≡ root.now.text.now)) }
{
    let text = root_text(alloc, request, notes, expander, files, number, root)?;
    write_whole(text.as_bytes(), out)
}

/// Writes the expansion of the last of the first `root_count` files, as `write_root` does. Writes
/// nothing if there are no files.
pub fn write_last<W: Write>(
    alloc: Global,
    request: PrintRequest,
    notes: &mut Vec<Note>,
    expander: &mut FileExpander<'_>,
    files: &[SourceFile<'_>],
    root_count: usize,
    out: &mut W,
) -> io::Result<()>
    ensures expands { IfSome (slice_get (map source_of files.now) (root_count - 1)) (λ root.
        WritesOne (W.contents out.old) (W.contents out.new) result (λ s.
        RootExpands (setting_of expander.old) LEVELS request.call request.with_modules
        (map source_of files.now) (root_count - 1) root
        (state_of expander.old) s (state_of expander.new))) }
    ensures nothing { IfNone (slice_get (map source_of files.now) (root_count - 1))
        (W.contents out.new ≡ W.contents out.old) }
{
    let number = root_count.saturating_sub(1);
    match files.get(number) {
        Some(root) => write_root(alloc, request, notes, expander, files, number, root, out),
        None => Ok(()),
    }
}

/// Returns the expansion of a crate's root, file `number`: its text with each call expanded, or the
/// expansions of the calls at the position alone. A text that isn't Rust is unchanged.
pub fn root_text(
    alloc: Global,
    request: PrintRequest,
    notes: &mut Vec<Note>,
    expander: &mut FileExpander<'_>,
    files: &[SourceFile<'_>],
    number: usize,
    root: &SourceFile<'_>,
) -> Result<String, AllocError>
    ensures expands { IfOk result (λ s. RootExpands (setting_of expander.old) LEVELS request.call
        request.with_modules (map source_of files.now) number (source_of root.now)
        (state_of expander.old) (string_bytes s) (state_of expander.new)) }
    ensures unknown { IfSome (crate_of request.with_modules (map source_of files.now) number
        (source_of root.now)) (λ tree. request.call ≡ None
        → NoneCalled (state_of expander.old).scope.definitions tree.1
        → IfOk result (λ s. string_bytes s ≡ root.now.text.now)) }
    ensures setting { OnOk result (setting_of expander.new ≡ setting_of expander.old) }
{
    let parts = crate_replacements(
        alloc,
        request.with_modules,
        notes,
        expander,
        files,
        number,
        root,
    )?;
    file_text(alloc, request.call, parts.as_slice(), number, root)
}

/// Returns the expansion of each file, in order, by these replacements.
pub fn file_texts(
    alloc: Global,
    call: Option<CallPosition>,
    parts: &[Replacement],
    files: &[SourceFile<'_>],
) -> Result<Vec<String>, AllocError>
    ensures { IfOk result (λ v. FilesExpand call (map part_of parts.now)
        (map source_of files.now) (map string_bytes v.items)) }
{
    let mut texts = Vec::new(alloc);
    for (number, file) in files.iter().enumerate() {
        texts.push(file_text(alloc, call, parts, number, file)?)?;
    }
    Ok(texts)
}

/// Returns the expansion of file `number` by these replacements. A text that isn't Rust is
/// unchanged.
pub fn file_text(
    alloc: Global,
    call: Option<CallPosition>,
    parts: &[Replacement],
    number: usize,
    file: &SourceFile<'_>,
) -> Result<String, AllocError>
    ensures { IfOk result (λ s. FileExpands call (map part_of parts.now) number
        (source_of file.now) (string_bytes s)) }
{
    if file.tree.is_none() {
        return String::from_str(alloc, file.text);
    }
    let parts = replacements_in(alloc, number, parts)?;
    match call {
        None => whole_text(alloc, file, parts.as_slice()),
        Some(position) => expansions_at(alloc, position, &file.lines, parts.as_slice()),
    }
}

// Copies a replacement.
fn copied(alloc: Global, part: &Replacement) -> Result<Replacement, AllocError>
    ensures { IfOk result (λ r. part_of r ≡ part_of part.now) }
{
    Ok(Replacement {
        file: part.file,
        start: part.start,
        end: part.end,
        text: String::from_str(alloc, part.text.as_str())?,
    })
}

// Whether a replacement is in file `number`.
fn is_in(number: usize, part: &Replacement) -> bool
    ensures { result ≡ spec.is_in number (part_of part.now) }
{
    part.file as usize == number
}

// Returns the replacements in file `number`.
fn replacements_in(
    alloc: Global,
    number: usize,
    parts: &[Replacement],
) -> Result<Vec<Replacement>, AllocError>
    ensures { IfOk result (λ v. map part_of v.items
        ≡ spec.replacements_in number (map part_of parts.now)) }
{
    let mut found = Vec::new(alloc);
    for part in parts {
        if is_in(number, part) {
            found.push(copied(alloc, part)?)?;
        }
    }
    Ok(found)
}

// Returns the text of a file with these parts replaced.
fn whole_text(
    alloc: Global,
    file: &SourceFile<'_>,
    parts: &[Replacement],
) -> Result<String, AllocError>
    ensures { IfOk result (λ s. string_bytes s ≡ spliced file.now.text.now
        (map (original_part (returns file.now.text.now)) (map part_of parts.now))) }
{
    let original_parts = file.lines.original_parts(alloc, parts)?;
    splice(alloc, file.text, original_parts.as_slice())
}

// Returns the texts of the replacements that begin at the position, each with a line feed after it.
fn expansions_at(
    alloc: Global,
    position: CallPosition,
    lines: &Lines,
    replacements: &[Replacement],
) -> Result<String, AllocError>
    ensures { IfOk result (λ s. ExpansionsAt position (string_bytes lines.now.text)
        (map part_of replacements.now) (string_bytes s)) }
{
    let mut found = String::new(alloc);
    for replacement in replacements {
        if position.is_at(lines.location_of(replacement.start)) {
            found.push_str(replacement.text.as_str())?;
            found.push('\n')?;
        }
    }
    Ok(found)
}
