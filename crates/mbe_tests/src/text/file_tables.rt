// The tables of what is around an expansion, and what is tested once. The rows are in the modules
// of their subjects.
use crate::text::carets::Carets;
use crate::text::crate_trees::CrateTrees;
use crate::text::{
    call_fronts, carets, crate_trees, disabled_code, hygiene_rows, includes, modules, splices,
};
use std::alloc::{AllocError, Global};
use test_rows::{FailedRow, Fields, RowTest, all, rows};

// What is tested of trees and of texts.
#[derive(Clone, Copy)]
enum Tree {
    Front,
    Beside,
    Standard,
    Spliced,
    Renamed,
    Carets,
    WideCarets,
    Level,
}

impl RowTest for Tree {
    fn passes(&self, alloc: Global, fields: Fields) -> Result<bool, AllocError> {
        let [one, two, ..] = fields;
        match self {
            Tree::Front => call_fronts::CallFronts.passes(alloc, fields),
            Tree::Beside => call_fronts::Beside.passes(alloc, fields),
            Tree::Standard => Ok(call_fronts::are_standard()),
            Tree::Spliced => splices::is_spliced(alloc, one, two),
            Tree::Renamed => hygiene_rows::HygieneRows.passes(alloc, fields),
            Tree::Carets => Carets(7, " ").passes(alloc, fields),
            Tree::WideCarets => Carets(1024, "    ").passes(alloc, fields),
            Tree::Level => carets::is_coloured(alloc, one, two),
        }
    }
}

static TREES: [(Tree, &str, usize); 8] = [
    (Tree::Front, call_fronts::ROWS, 24),
    (Tree::Beside, call_fronts::BESIDE, 10),
    (Tree::Standard, rows![("standard macros")], 1),
    (Tree::Spliced, splices::ROWS, 9),
    (Tree::Renamed, hygiene_rows::ROWS, 65),
    (Tree::Carets, carets::ROWS, 8),
    (Tree::WideCarets, carets::ROWS, 8),
    (Tree::Level, carets::LEVELS, 4),
];

#[test]
fn trees_and_texts_pass(rt: HostRuntime) -> Result<(), FailedRow> {
    all(rt.alloc(), &TREES)
}

// What is tested of disabled code, of modules and of files.
#[derive(Clone, Copy)]
enum Crate {
    EnabledCode,
    Left,
    Followed,
    Modules,
    Files,
    Joined,
}

impl RowTest for Crate {
    fn passes(&self, alloc: Global, fields: Fields) -> Result<bool, AllocError> {
        match self {
            Crate::EnabledCode => disabled_code::EnabledCode.passes(alloc, fields),
            Crate::Left => disabled_code::keeps_faulty_code(alloc),
            Crate::Followed => CrateTrees.passes(alloc, fields),
            Crate::Modules => modules::Modules.passes(alloc, fields),
            Crate::Files => modules::Files.passes(alloc, fields),
            Crate::Joined => modules::are_joined(alloc),
        }
    }
}

static CRATES: [(Crate, &str, usize); 8] = [
    (Crate::EnabledCode, disabled_code::ROWS, 38),
    (Crate::Left, rows![("faults leave what they are on")], 1),
    (Crate::Followed, crate_trees::ROWS, 24),
    (Crate::Followed, includes::ROWS, 18),
    (Crate::Modules, modules::ROWS, 16),
    (Crate::Modules, modules::IN_FILES, 4),
    (Crate::Files, modules::FILES, 6),
    (Crate::Joined, rows![("a folder and a path")], 1),
];

#[test]
fn crates_and_files_pass(rt: HostRuntime) -> Result<(), FailedRow> {
    all(rt.alloc(), &CRATES)
}
