// Source files: a text is lexed, and disabled code is stripped from its trees.
ghost use Rattle.std.specs.Prelude.{◌≡◌, Ok, IfOk, MatchResult, map};
ghost use Rattle.std.specs.String.{string_bytes};
ghost use Rattle.mbe_session.specs.LineEndings.{normalized, returns};
ghost use Rattle.mbe_session.specs.LineViews.{returns_of};
ghost use Rattle.mbe_session.specs.CallTextViews.{call_of};
ghost use Rattle.mbe_session.specs.Sources.{IsFileTree};
ghost use Rattle.mbe_session.specs.TextTrees.{IsNoRust, IsTreeOf};
ghost use Rattle.mbe_grammar.specs.Tables.Lawful.{grammar_of};
ghost use Rattle.mbe_cfg.specs.CfgStrip.{enabled_tree};
ghost use Rattle.mbe_text.specs.LexedTrees.{lexed_trees};
ghost use Rattle.mbe_text.specs.declared.dialect.Dialect.TheVariants.{Rust};

use crate::call_modules::{CallText, note_not_followed, with_call_modules};
use crate::lines::Lines;
use crate::notes::{Level, Note};
use crate::source_settings::SourceSettings;
use mbe_cfg::cfg_fault::CfgFault;
use mbe_cfg::cfg_strip::strip;
use mbe_text::dialect::Dialect;
use mbe_text::lexer::{LexError, lex_dialect_with_table};
use mbe_text::scanner::file_span;
use mbe_text::symbol_table::SymbolTable;
use mbe_tt::span::Edition;
use mbe_tt::tt::TopSubtree;
use std::alloc::{AllocError, Allocator, Global};

/// A file: its name, its text, calls with their expansions, the text's lines, and its trees if it is
/// Rust. The trees are without the code that `cfg` disables. The modules that the calls expand to
/// follow the calls.
#[derive(Drop)]
pub struct SourceFile<'f, A: Allocator = Global> {
    pub name: &'f str,
    pub text: &'f str,
    pub calls: &'f [CallText],
    /// The text that spans refer to, whose lines end with a line feed alone.
    pub lines: Lines<A>,
    pub tree: Option<TopSubtree<A>>,
    ghost normalized: { string_bytes lines.text ≡ normalized text.now },
    ghost returned: { returns_of lines ≡ returns text.now },
}

// Returns the error that a text isn't Rust, at that byte.
fn fault(alloc: Global, file: u32, offset: u32, message: &str) -> Result<Note, AllocError> {
    Ok(Note {
        level: Level::Error,
        span: file_span(file, offset, offset),
        message: String::from_str(alloc, message)?,
        is_child: false,
    })
}

// Lexes a text. The inner error is a note on where and why it isn't Rust.
fn lexed(
    alloc: Global,
    symbols: &mut SymbolTable<Global>,
    edition: Edition,
    text: &str,
    file: u32,
) -> Result<Result<TopSubtree, Note>, AllocError>
    ensures { IfOk result (λ found. MatchResult found
        (λ tree. lexed_trees (Rust edition) file text.now ≡ Ok tree)
        (λ note. IsNoRust edition file text.now)) }
{
    if text.len() > u32::MAX as usize {
        return Ok(Err(fault(alloc, file, 0, "a file of 2^32 bytes or more")?));
    }
    match lex_dialect_with_table(symbols, Dialect::Rust(edition), text, file) {
        Ok(tree) => Ok(Ok(tree)),
        Err(LexError::Fault(found)) => {
            Ok(Err(fault(alloc, file, found.offset, found.fault_kind.message())?))
        }
        Err(LexError::OutOfMemory) => Err(AllocError),
    }
}

// Returns the tree without the code that `cfg` disables. A note is added for each attribute with a
// fault.
fn compiled(
    alloc: Global,
    notes: &mut Vec<Note>,
    source_settings: &SourceSettings<'_>,
    tree: &TopSubtree,
) -> Result<TopSubtree, AllocError>
    ensures { IfOk result (λ t. t ≡ enabled_tree source_settings.now.conditions
        (grammar_of source_settings.now.grammar) tree.now) }
{
    let mut faults = Vec::new(alloc);
    let stays = strip(
        alloc,
        &source_settings.conditions,
        &source_settings.grammar,
        &mut faults,
        tree,
    )?;
    note_faults(alloc, notes, faults.as_slice())?;
    Ok(stays)
}

// Adds a note for each fault in an attribute.
fn note_faults(
    alloc: Global,
    notes: &mut Vec<Note>,
    faults: &[CfgFault],
) -> Result<(), AllocError> {
    for fault in faults {
        notes.push(Note {
            level: Level::Error,
            span: fault.at,
            message: String::from_str(alloc, fault.fault_kind.message())?,
            is_child: false,
        })?;
    }
    Ok(())
}

// Returns the trees of a text without the code that `cfg` disables. If the text isn't Rust there
// are none, and a note says where and why.
pub(crate) fn trees_in(
    alloc: Global,
    symbols: &mut SymbolTable<Global>,
    notes: &mut Vec<Note>,
    source_settings: &SourceSettings<'_>,
    text: &str,
    file: u32,
) -> Result<Option<TopSubtree>, AllocError>
    ensures { IfOk result (IsTreeOf source_settings.now file text.now) }
{
    match lexed(alloc, symbols, source_settings.edition, text, file)? {
        Ok(tree) => Ok(Some(compiled(alloc, notes, source_settings, &tree)?)),
        Err(note) => {
            notes.push(note)?;
            Ok(None)
        }
    }
}

/// Reads file number `file`. If its text isn't Rust it has no trees, and a note says why.
/// `AllocError` if out of memory.
pub fn source_file<'f>(
    alloc: Global,
    symbols: &mut SymbolTable<Global>,
    notes: &mut Vec<Note>,
    source_settings: &SourceSettings<'_>,
    name: &'f str,
    text: &'f str,
    calls: &'f [CallText],
    file: u32,
) -> Result<SourceFile<'f>, AllocError>
    ensures name { IfOk result (λ f. f.name.now ≡ name.now) }
    ensures text { IfOk result (λ f. f.text.now ≡ text.now) }
    ensures calls { IfOk result (λ f. f.calls.now ≡ calls.now) }
    ensures trees { IfOk result (λ f. IsFileTree source_settings.now file (normalized text.now)
        (map call_of calls.now) f.tree) }
{
    let lines = Lines::of(alloc, text)?;
    let plain = trees_in(
        alloc,
        symbols,
        notes,
        source_settings,
        lines.text.as_str(),
        file,
    )?;
    let tree = with_call_modules(alloc, symbols, source_settings, calls, file, plain)?;
    note_not_followed(alloc, notes, calls)?;
    Ok(SourceFile {
        name,
        text,
        calls,
        lines,
        tree,
    })
}
