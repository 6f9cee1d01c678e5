// Out-of-line modules and `include!`s. Their content is in other files.
//
// `modules_in` lists the modules and `include!`s of a text, so that their files can be read.
// `note_missing_files` reports each one whose file is missing, ambiguous or circular.
ghost use Rattle.std.specs.Prelude.{IfOk, map};
ghost use Rattle.mbe_session.specs.CallTextViews.{call_of};
ghost use Rattle.mbe_session.specs.ModuleFiles.{AreModules};
ghost use Rattle.mbe_session.specs.LineEndings.{normalized};
ghost use Rattle.mbe_cfg.specs.Crates.CrateViews.{unresolved_shown};
ghost use Rattle.mbe_cfg.specs.Files.ModuleDirViews.{module_dir_shown};

use crate::call_modules::CallText;
use crate::notes::{Level, Note};
use crate::source_files::source_file;
use crate::source_settings::SourceSettings;
use mbe_cfg::crates::file_lookup::FileLookupError;
use mbe_cfg::crates::module_inliner::{UnresolvedFile, inline_modules};
use mbe_cfg::files::module_dir::{Candidates, ModuleDir};
use mbe_text::symbol_table::SymbolTable;
use std::alloc::{AllocError, Global};

/// Lists the modules and `include!`s of a text whose content is in other files, also those that its
/// calls expand to. `place` says where the text's modules are looked for. `AllocError` if out of memory.
pub fn modules_in(
    alloc: Global,
    source_settings: &SourceSettings<'_>,
    place: &ModuleDir,
    text: &str,
    calls: &[CallText],
) -> Result<Vec<UnresolvedFile>, AllocError>
    ensures { IfOk result (λ v. AreModules source_settings.now (module_dir_shown place.now)
        (normalized text.now) (map call_of calls.now) (map unresolved_shown v.items)) }
{
    let mut symbols = SymbolTable::new(alloc);
    let mut notes = Vec::new(alloc);
    let file = source_file(
        alloc,
        &mut symbols,
        &mut notes,
        source_settings,
        "",
        text,
        calls,
        0,
    )?;
    let Some(tree) = &file.tree else {
        return Ok(Vec::new(alloc));
    };
    let mut unresolved = Vec::new(alloc);
    let _tree = inline_modules(alloc, &[], &mut unresolved, 0, place, tree)?;
    Ok(unresolved)
}

// Returns the files that may hold a module, as a message names them.
fn candidates_text(alloc: Global, candidates: &Candidates) -> Result<String, AllocError> {
    match candidates {
        Candidates::Included(path) | Candidates::Given(path) => format!(in alloc; "`{path}`"),
        Candidates::Usual(beside, nested) => format!(in alloc; "`{beside}` or `{nested}`"),
    }
}

// Returns how a message names the module or `include!` that has no file.
fn subject(alloc: Global, unresolved: &UnresolvedFile) -> Result<String, AllocError> {
    let name = unresolved.name.as_str();
    match &unresolved.candidates {
        Candidates::Included(_) => format!(in alloc; "`include!(\"{name}\")`"),
        Candidates::Given(_) | Candidates::Usual(..) => format!(in alloc; "module `{name}`"),
    }
}

// Returns the message on why a module or an `include!` has no file. `None` if its file is there and
// isn't Rust, since a note on that file says so.
fn message(alloc: Global, unresolved: &UnresolvedFile) -> Result<Option<String>, AllocError> {
    let what = subject(alloc, unresolved)?;
    let files = candidates_text(alloc, &unresolved.candidates)?;
    let message = match unresolved.reason {
        FileLookupError::Missing => format!(in alloc; "file not found for {what}: {files}")?,
        FileLookupError::Both => format!(in alloc; "two files are found for {what}: {files}")?,
        FileLookupError::Circular => format!(in alloc;
            "circular: {what} is in its own file {files}"
        )?,
        FileLookupError::NoRust => return Ok(None),
    };
    Ok(Some(message))
}

/// Adds a note for each module and `include!` without its file. The note says why. `AllocError` if
/// out of memory.
pub fn note_missing_files(
    alloc: Global,
    notes: &mut Vec<Note>,
    unresolved: &[UnresolvedFile],
) -> Result<(), AllocError> {
    for module in unresolved {
        if let Some(message) = message(alloc, module)? {
            notes.push(Note {
                level: Level::Note,
                span: module.at,
                message,
                is_child: false,
            })?;
        }
    }
    Ok(())
}
