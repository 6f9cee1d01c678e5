// The modules that calls expand to, in the trees of files.
//
// A call such as `cfg_rt! { mod x; }` may expand to `mod x;`. A caller who knows the text of the
// expansion puts it beside the text of the file. Then `mod x;` follows the call in the trees of
// the file, and the module is found as any other one.
ghost use Rattle.std.specs.Prelude.{◌≡◌, IfOk, map};
ghost use Rattle.std.specs.String.{string_bytes};
ghost use Rattle.mbe_cfg.specs.Crates.CrateViews.{insertion_shown};
ghost use Rattle.mbe_tt.specs.Trees.Tree.{none};
ghost use Rattle.mbe_session.specs.CallModules.{AreInsertions, HasModules, HaveModules};
ghost use Rattle.mbe_session.specs.CallModules.{IsModules, IsWithCalls};
ghost use Rattle.mbe_session.specs.CallTextViews.{call_of};

use crate::notes::{Level, Note};
use crate::source_files::trees_in;
use crate::source_settings::SourceSettings;
use mbe_cfg::crates::expansion_modules::{Insertion, expansion_modules, with_insertions};
use mbe_text::symbol_table::SymbolTable;
use mbe_tt::span::Span;
use mbe_tt::tt::{Delimiter, TopSubtree, TopSubtreeBuilder};
use std::alloc::{AllocError, Global};

// What is noted of a call whose modules aren't followed.
const NOT_FOLLOWED: &str =
    "the modules of this call aren't followed, since it defines a macro after or beside them";

/// A call of a file, and the text of its expansion.
#[derive(Drop)]
pub struct CallText {
    /// The part of the file that the text replaces.
    pub at: Span,
    pub text: String,
    /// Whether the modules of the expansion are followed.
    pub is_followed: bool,
}

fn empty_tree(alloc: Global, at: Span) -> Result<TopSubtree, AllocError>
    ensures { IfOk result (λ t. t.1 ≡ none) }
{
    Ok(TopSubtreeBuilder::new(alloc, Delimiter::invisible_spanned(at))?.build())
}

// Returns the modules of the expansion of a call in file `number`.
fn modules_of(
    alloc: Global,
    symbols: &mut SymbolTable<Global>,
    source_settings: &SourceSettings<'_>,
    call: &CallText,
    number: u32,
) -> Result<TopSubtree, AllocError>
    ensures { IfOk result (λ t. IsModules source_settings.now number (call_of call.now) t.1) }
{
    if !call.is_followed {
        return empty_tree(alloc, call.at);
    }
    let mut ignored_notes = Vec::new(alloc);
    let (notes, text) = (&mut ignored_notes, call.text.as_str());
    match trees_in(alloc, symbols, notes, source_settings, text, number)? {
        Some(tree) => expansion_modules(alloc, call.at, &tree),
        None => empty_tree(alloc, call.at),
    }
}

// Returns the modules of the expansions of these calls, each with the end of its call.
fn insertions_of(
    alloc: Global,
    symbols: &mut SymbolTable<Global>,
    source_settings: &SourceSettings<'_>,
    calls: &[CallText],
    number: u32,
) -> Result<Vec<Insertion>, AllocError>
    ensures { IfOk result (λ v. AreInsertions source_settings.now number
        (map call_of calls.now) (map insertion_shown v.items)) }
{
    let mut insertions = Vec::new(alloc);
    for call in calls {
        let trees = modules_of(alloc, symbols, source_settings, call, number)?;
        insertions.push(Insertion {
            end: call.at.end as usize,
            trees,
        })?;
    }
    Ok(insertions)
}

// Returns the trees of a file with the modules of the expansions of its calls.
fn with_modules(
    alloc: Global,
    symbols: &mut SymbolTable<Global>,
    source_settings: &SourceSettings<'_>,
    calls: &[CallText],
    number: u32,
    tree: &TopSubtree,
) -> Result<TopSubtree, AllocError>
    ensures { IfOk result (λ t. HasModules source_settings.now number (map call_of calls.now)
        tree.now t) }
{
    let insertions = insertions_of(alloc, symbols, source_settings, calls, number)?;
    let whole = with_insertions(alloc, insertions.as_slice(), tree)?;
    Ok(whole)
}

// Returns the trees of a file with the modules of the expansions of its calls, if it has trees.
fn some_with_modules(
    alloc: Global,
    symbols: &mut SymbolTable<Global>,
    source_settings: &SourceSettings<'_>,
    calls: &[CallText],
    number: u32,
    tree: Option<TopSubtree>,
) -> Result<Option<TopSubtree>, AllocError>
    ensures { IfOk result (HaveModules source_settings.now number (map call_of calls.now)
        tree) }
{
    match &tree {
        Some(tree) => {
            let whole = with_modules(alloc, symbols, source_settings, calls, number, tree)?;
            Ok(Some(whole))
        }
        None => Ok(None),
    }
}

/// Returns the trees of file `number` with the modules of the expansions of its calls. Each follows
/// its call. `tree` has the trees of the file alone. `AllocError` if out of memory.
pub fn with_call_modules(
    alloc: Global,
    symbols: &mut SymbolTable<Global>,
    source_settings: &SourceSettings<'_>,
    calls: &[CallText],
    number: u32,
    tree: Option<TopSubtree>,
) -> Result<Option<TopSubtree>, AllocError>
    ensures { IfOk result (IsWithCalls source_settings.now number (map call_of calls.now)
        tree) }
{
    match calls {
        [] => Ok(tree),
        [_, ..] => some_with_modules(alloc, symbols, source_settings, calls, number, tree),
    }
}

/// Adds a note for each call whose modules aren't followed. `AllocError` if out of memory.
pub fn note_not_followed(
    alloc: Global,
    notes: &mut Vec<Note>,
    calls: &[CallText],
) -> Result<(), AllocError> {
    for call in calls {
        if !call.is_followed {
            notes.push(Note {
                level: Level::Note,
                span: call.at,
                message: String::from_str(alloc, NOT_FOLLOWED)?,
                is_child: false,
            })?;
        }
    }
    Ok(())
}
