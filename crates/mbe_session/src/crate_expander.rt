// Builds the trees of crates, defines their macros in the expander, and collects the replacements
// for their calls.
//
// All files are in one list. The index of its root identifies a crate, and the files of its modules
// are in the same list. Before the macros of an external crate are defined, the crate's name
// replaces `$crate` in its trees.
ghost use Rattle.std.specs.Prelude.{◌≡◌, ◌+◌, ◌++◌, ◌<◌, ◌^◌, [], None, IfOk, IfSome, OnOk, length};
ghost use Rattle.std.specs.Prelude.{map, suc, true};
ghost use Rattle.std.specs.List.{All};
ghost use Rattle.mbe_rewriter.specs.ReplacementViews.{part_of};
ghost use Rattle.mbe_session.specs.Collector.{Defines, DefinesExternCrate};
ghost use Rattle.mbe_cfg.specs.CrateExports.ExportViews.{export_of};
ghost use Rattle.mbe_session.specs.CallReplacements.{Adds, IsOfCall, NoneCalled, PartsOfFile};
ghost use Rattle.mbe_session.specs.SessionViews.{setting_of, state_of};
ghost use Rattle.mbe_session.specs.CrateTrees.{crate_at, crate_of, file_of, is_followed};
ghost use Rattle.mbe_session.specs.FileExpansion.{CrateParts, CratesParts, DefinesCrate};
ghost use Rattle.mbe_session.specs.FileExpansion.{DefinesCrates};
ghost use Rattle.mbe_session.specs.FileExpansion.{DefinesExtern, DefinesExterns, LoadsExterns};
ghost use Rattle.mbe_session.specs.FileExpansion.{exports_at, exports_from};
ghost use Rattle.mbe_session.specs.DollarCrate.{replace_dollar_crate};
ghost use Rattle.mbe_session.specs.FileViews.{source_of};
ghost use Rattle.mbe_cfg.specs.Crates.ModuleInliner.{crate_tree};
ghost use Rattle.mbe_cfg.specs.Crates.CrateViews.{file_shown};
ghost use Rattle.mbe_cfg.specs.Files.ModuleDirs as places;

mod crate_steps;

use crate::dollar_crate::replace_dollar_crate;
use crate::file_expander::{FileExpander, LEVELS};
use crate::inner_files::note_inner_files;
use crate::module_files::note_missing_files;
use crate::notes::Note;
use crate::scope::buffer_of;
use crate::session_options::ExternCrate;
use crate::source_files::SourceFile;
use mbe_cfg::crates::file_lookup::CrateFile;
use mbe_cfg::crates::module_inliner::inline_modules;
use mbe_cfg::exports::crate_exports::add_exports;
use mbe_cfg::exports::export::Export;
use mbe_cfg::files::module_dir::ModuleDir;
use mbe_rewriter::splice::Replacement;
use mbe_tt::tt::TopSubtree;
use std::alloc::{AllocError, Global};

/// Whether the modules of a file are followed. `with_modules` is the option of the session; the
/// modules of standard input, `-`, are never followed.
pub fn is_followed(with_modules: bool, name: &str) -> bool
    ensures { result ≡ is_followed with_modules name.now }
{
    with_modules && name != "-"
}

// Returns the file in the form that module lookup takes.
fn file_of<'s>(file: &'s SourceFile<'_>) -> CrateFile<'s>
    ensures { file_shown result ≡ file_of (source_of file.now) }
{
    match &file.tree {
        Some(tree) => CrateFile {
            path: file.name,
            trees: Some(tree.iter().remaining()),
        },
        None => CrateFile {
            path: file.name,
            trees: None,
        },
    }
}

// Returns the files in the form that module lookup takes.
fn files_of<'s>(
    alloc: Global,
    files: &'s [SourceFile<'_>],
) -> Result<Vec<CrateFile<'s>>, AllocError>
    ensures { IfOk result (λ v. map file_shown v.items
        ≡ map (λ f. file_of (source_of f)) files.now) }
{
    let mut found = Vec::new(alloc);
    for file in files {
        found.push(file_of(file))?;
    }
    Ok(found)
}

// Returns the tree of the crate whose root is file `number`, of that name. A note is added for each
// module without its file, and for each in a function.
fn crate_tree(
    alloc: Global,
    notes: &mut Vec<Note>,
    files: &[SourceFile<'_>],
    number: usize,
    name: &str,
    tree: &TopSubtree,
) -> Result<TopSubtree, AllocError>
    ensures { IfOk result (λ t. t ≡ crate_tree (map file_of (map source_of files.now)) number
        (places.in_file name.now None) tree.now) }
{
    let found = files_of(alloc, files)?;
    let place = ModuleDir::in_file(alloc, name, None)?;
    let mut unresolved = Vec::new(alloc);
    let tree = inline_modules(
        alloc,
        found.as_slice(),
        &mut unresolved,
        number,
        &place,
        tree,
    )?;
    note_missing_files(alloc, notes, unresolved.as_slice())?;
    note_inner_files(alloc, notes, tree.iter().remaining())?;
    Ok(tree)
}

// Defines the macros of these trees in the expander.
fn define_tree(expander: &mut FileExpander<'_>, tree: &TopSubtree) -> Result<(), AllocError>
    ensures defines { OnOk result (Defines (setting_of expander.old).language (suc LEVELS) true
        tree.now.1 (state_of expander.old).scope (state_of expander.new).scope) }
    ensures fuel { OnOk result ((state_of expander.new).fuel ≡ (state_of expander.old).fuel) }
    ensures contexts { OnOk result ((state_of expander.new).contexts
        ≡ (state_of expander.old).contexts) }
    ensures setting { OnOk result (setting_of expander.new ≡ setting_of expander.old) }
{
    expander.define(tree.iter().remaining())
}

// Defines the macros of the crate with this root in the expander. Notes on its modules are dropped
// here; they are added when its calls are replaced.
fn define_root(
    alloc: Global,
    with_modules: bool,
    expander: &mut FileExpander<'_>,
    files: &[SourceFile<'_>],
    number: usize,
    root: &SourceFile<'_>,
) -> Result<(), AllocError>
    ensures defines { OnOk result (DefinesCrate (setting_of expander.old).language (suc LEVELS)
        (crate_of with_modules (map source_of files.now) number (source_of root.now))
        (state_of expander.old).scope (state_of expander.new).scope) }
    ensures fuel { OnOk result ((state_of expander.new).fuel ≡ (state_of expander.old).fuel) }
    ensures contexts { OnOk result ((state_of expander.new).contexts
        ≡ (state_of expander.old).contexts) }
    ensures setting { OnOk result (setting_of expander.new ≡ setting_of expander.old) }
{
    let Some(tree) = &root.tree else {
        return Ok(());
    };
    if !is_followed(with_modules, root.name) {
        return define_tree(expander, tree);
    }
    let mut ignored_notes = Vec::new(alloc);
    let tree = crate_tree(alloc, &mut ignored_notes, files, number, root.name, tree)?;
    define_tree(expander, &tree)
}

// Defines the macros of the crate whose root is file `number`, if there is such a file.
fn define_crate(
    alloc: Global,
    with_modules: bool,
    expander: &mut FileExpander<'_>,
    files: &[SourceFile<'_>],
    number: usize,
) -> Result<(), AllocError>
    ensures defines { OnOk result (DefinesCrate (setting_of expander.old).language (suc LEVELS)
        (crate_at with_modules (map source_of files.now) number)
        (state_of expander.old).scope (state_of expander.new).scope) }
    ensures fuel { OnOk result ((state_of expander.new).fuel ≡ (state_of expander.old).fuel) }
    ensures contexts { OnOk result ((state_of expander.new).contexts
        ≡ (state_of expander.old).contexts) }
    ensures setting { OnOk result (setting_of expander.new ≡ setting_of expander.old) }
{
    match files.get(number) {
        Some(root) => define_root(alloc, with_modules, expander, files, number, root),
        None => Ok(()),
    }
}

/// Defines the macros of each crate in the expander, in order. The roots are the first `root_count`
/// files.
pub fn define_crates(
    alloc: Global,
    with_modules: bool,
    expander: &mut FileExpander<'_>,
    files: &[SourceFile<'_>],
    root_count: usize,
) -> Result<(), AllocError>
    ensures defines { OnOk result (DefinesCrates (setting_of expander.old).language (suc LEVELS)
        with_modules (map source_of files.now) (state_of expander.old).scope root_count
        (state_of expander.new).scope) }
    ensures fuel { OnOk result ((state_of expander.new).fuel ≡ (state_of expander.old).fuel) }
    ensures contexts { OnOk result ((state_of expander.new).contexts
        ≡ (state_of expander.old).contexts) }
    ensures setting { OnOk result (setting_of expander.new ≡ setting_of expander.old) }
{
    for number in 0..root_count {
        define_crate(alloc, with_modules, expander, files, number)?;
    }
    Ok(())
}

// Returns the tree of the crate whose root is file `number`; `None` if there is no such file, or it
// isn't Rust. Notes on its modules are dropped.
fn extern_tree(
    alloc: Global,
    with_modules: bool,
    files: &[SourceFile<'_>],
    number: usize,
) -> Result<Option<TopSubtree>, AllocError>
    ensures { IfOk result (λ t. t ≡ crate_at with_modules (map source_of files.now) number) }
{
    match files.get(number) {
        Some(root) => root_tree(alloc, with_modules, files, number, root),
        None => Ok(None),
    }
}

// Returns the tree of the crate with this root; `None` if it isn't Rust.
fn root_tree(
    alloc: Global,
    with_modules: bool,
    files: &[SourceFile<'_>],
    number: usize,
    root: &SourceFile<'_>,
) -> Result<Option<TopSubtree>, AllocError>
    ensures { IfOk result (λ t.
        t ≡ crate_of with_modules (map source_of files.now) number (source_of root.now)) }
{
    let Some(tree) = &root.tree else {
        return Ok(None);
    };
    if !is_followed(with_modules, root.name) {
        return Ok(Some(copied(alloc, tree)?));
    }
    let mut ignored_notes = Vec::new(alloc);
    let tree = crate_tree(alloc, &mut ignored_notes, files, number, root.name, tree)?;
    Ok(Some(tree))
}

fn copied(alloc: Global, tree: &TopSubtree) -> Result<TopSubtree, AllocError>
    ensures { IfOk result (λ t. t ≡ tree.now) }
{
    buffer_of(alloc, tree.top_subtree().delimiter, tree.iter().remaining())
}

// Defines the macros of these trees in the expander, as macros of the external crate `name`.
fn define_extern_tree(
    alloc: Global,
    expander: &mut FileExpander<'_>,
    name: &str,
    tree: &TopSubtree,
) -> Result<(), AllocError>
    ensures defines { OnOk result (DefinesExternCrate (setting_of expander.old).language (suc LEVELS)
        name.now (replace_dollar_crate name.now tree.now).1
        (state_of expander.old).scope (state_of expander.new).scope) }
    ensures fuel { OnOk result ((state_of expander.new).fuel ≡ (state_of expander.old).fuel) }
    ensures contexts { OnOk result ((state_of expander.new).contexts
        ≡ (state_of expander.old).contexts) }
    ensures setting { OnOk result (setting_of expander.new ≡ setting_of expander.old) }
    ensures notes { OnOk result (expander.new.notes.items ≡ expander.old.notes.items) }
{
    let named = replace_dollar_crate(alloc, name, tree)?;
    expander.define_extern_crate(name, named.iter().remaining())
}

// Defines the macros of the external crate `name` in the expander, and adds its re-exports to
// `exports`. Its root is file `number`.
fn define_extern(
    alloc: Global,
    with_modules: bool,
    expander: &mut FileExpander<'_>,
    exports: &mut Vec<Export>,
    files: &[SourceFile<'_>],
    number: usize,
    name: &str,
) -> Result<(), AllocError>
    ensures defines { OnOk result (DefinesExtern (setting_of expander.old).language (suc LEVELS)
        name.now (crate_at with_modules (map source_of files.now) number)
        (state_of expander.old).scope (state_of expander.new).scope) }
    ensures exports { OnOk result (map export_of exports.new.items
        ≡ map export_of exports.old.items
        ++ exports_at name.now (crate_at with_modules (map source_of files.now) number)) }
    ensures fuel { OnOk result ((state_of expander.new).fuel ≡ (state_of expander.old).fuel) }
    ensures contexts { OnOk result ((state_of expander.new).contexts
        ≡ (state_of expander.old).contexts) }
    ensures setting { OnOk result (setting_of expander.new ≡ setting_of expander.old) }
    ensures notes { OnOk result (expander.new.notes.items ≡ expander.old.notes.items) }
{
    match extern_tree(alloc, with_modules, files, number)? {
        Some(tree) => {
            add_exports(alloc, exports, name, tree.iter().remaining())?;
            define_extern_tree(alloc, expander, name, &tree)
        }
        None => Ok(()),
    }
}

// Defines the macros of the external crates in the expander, in order, and adds their re-exports to
// `exports`. Their roots are the files from number `root_count` on.
fn define_externs(
    alloc: Global,
    with_modules: bool,
    expander: &mut FileExpander<'_>,
    exports: &mut Vec<Export>,
    files: &[SourceFile<'_>],
    root_count: usize,
    externs: &[ExternCrate<'_>],
) -> Result<(), AllocError>
    requires numbers { root_count + length externs.now < 2 ^ 64 }
    ensures defines { OnOk result (DefinesExterns (setting_of expander.old).language (suc LEVELS)
        with_modules (map source_of files.now) root_count (state_of expander.old).scope
        (map (λ x. x.name.now) externs.now) (state_of expander.new).scope) }
    ensures exports { OnOk result (map export_of exports.new.items
        ≡ map export_of exports.old.items ++ exports_from with_modules (map source_of files.now)
        root_count (map (λ x. x.name.now) externs.now)) }
    ensures fuel { OnOk result ((state_of expander.new).fuel ≡ (state_of expander.old).fuel) }
    ensures contexts { OnOk result ((state_of expander.new).contexts
        ≡ (state_of expander.old).contexts) }
    ensures setting { OnOk result (setting_of expander.new ≡ setting_of expander.old) }
    ensures notes { OnOk result (expander.new.notes.items ≡ expander.old.notes.items) }
{
    match externs {
        [] => Ok(()),
        [one, rest @ ..] => {
            define_extern(
                alloc,
                with_modules,
                expander,
                exports,
                files,
                root_count,
                one.name,
            )?;
            define_externs(
                alloc,
                with_modules,
                expander,
                exports,
                files,
                root_count + 1,
                rest,
            )
        }
    }
}

/// Defines the macros of the external crates in the expander, and links their re-exports of each
/// other. Their roots are the files from number `root_count` on. Faults of their definitions are
/// not noted.
pub fn load_externs(
    alloc: Global,
    with_modules: bool,
    expander: &mut FileExpander<'_>,
    files: &[SourceFile<'_>],
    root_count: usize,
    externs: &[ExternCrate<'_>],
) -> Result<(), AllocError>
    requires numbers { root_count + length externs.now < 2 ^ 64 }
    ensures knows { OnOk result (LoadsExterns (setting_of expander.old).language (suc LEVELS)
        with_modules (map source_of files.now) root_count (state_of expander.old).scope
        (map (λ x. x.name.now) externs.now) (state_of expander.new).scope) }
    ensures fuel { OnOk result ((state_of expander.new).fuel ≡ (state_of expander.old).fuel) }
    ensures contexts { OnOk result ((state_of expander.new).contexts
        ≡ (state_of expander.old).contexts) }
    ensures setting { OnOk result (setting_of expander.new ≡ setting_of expander.old) }
    ensures notes { OnOk result (expander.new.notes.items ≡ expander.old.notes.items) }
{
    let mut exports = Vec::new(alloc);
    define_externs(
        alloc,
        with_modules,
        expander,
        &mut exports,
        files,
        root_count,
        externs,
    )?;
    expander.link(exports.as_slice(), externs.len())
}

// Returns the texts that spans of the files refer to.
fn texts_of<'s>(alloc: Global, files: &'s [SourceFile<'_>]) -> Result<Vec<&'s str>, AllocError> {
    let mut texts = Vec::new(alloc);
    for file in files {
        texts.push(file.lines.text.as_str())?;
    }
    Ok(texts)
}

// Returns the replacements for the calls in these trees.
fn tree_replacements(
    alloc: Global,
    expander: &mut FileExpander<'_>,
    files: &[SourceFile<'_>],
    tree: &TopSubtree,
) -> Result<Vec<Replacement>, AllocError>
    ensures parts { IfOk result (λ v. PartsOfFile (setting_of expander.old) LEVELS tree.now.1
        (state_of expander.old) (map part_of v.items) (state_of expander.new)) }
    ensures each { IfOk result (λ v.
        All (IsOfCall (setting_of expander.old) tree.now.1) (map part_of v.items)) }
    ensures unknown { IfOk result (λ v.
        NoneCalled (state_of expander.old).scope.definitions tree.now.1
        → map part_of v.items ≡ []) }
    ensures setting { OnOk result (setting_of expander.new ≡ setting_of expander.old) }
{
    let texts = texts_of(alloc, files)?;
    expander.replacements(texts.as_slice(), tree.iter().remaining())
}

/// Returns the replacements for the calls of a crate; none if its root isn't Rust. The root is file
/// `number`. A note is added for each module without its file.
pub fn crate_replacements(
    alloc: Global,
    with_modules: bool,
    notes: &mut Vec<Note>,
    expander: &mut FileExpander<'_>,
    files: &[SourceFile<'_>],
    number: usize,
    root: &SourceFile<'_>,
) -> Result<Vec<Replacement>, AllocError>
    ensures parts { IfOk result (λ v. CrateParts (setting_of expander.old) LEVELS
        (crate_of with_modules (map source_of files.now) number (source_of root.now))
        (state_of expander.old) (map part_of v.items) (state_of expander.new)) }
    ensures unknown { IfSome (crate_of with_modules (map source_of files.now) number
        (source_of root.now)) (λ tree. NoneCalled (state_of expander.old).scope.definitions tree.1
        → IfOk result (λ v. map part_of v.items ≡ [])) }
    ensures setting { OnOk result (setting_of expander.new ≡ setting_of expander.old) }
{
    let Some(tree) = &root.tree else {
        return Ok(Vec::new(alloc));
    };
    if !is_followed(with_modules, root.name) {
        return tree_replacements(alloc, expander, files, tree);
    }
    let tree = crate_tree(alloc, notes, files, number, root.name, tree)?;
    tree_replacements(alloc, expander, files, &tree)
}

// Adds the replacements for the calls of the crate whose root is file `number`, if there is such a
// file.
fn add_crate_replacements(
    alloc: Global,
    with_modules: bool,
    notes: &mut Vec<Note>,
    expander: &mut FileExpander<'_>,
    files: &[SourceFile<'_>],
    number: usize,
    parts: &mut Vec<Replacement>,
) -> Result<(), AllocError>
    ensures adds { OnOk result (Adds (CrateParts (setting_of expander.old) LEVELS
        (crate_at with_modules (map source_of files.now) number) (state_of expander.old))
        (map part_of parts.old.items) (map part_of parts.new.items) (state_of expander.new)) }
    ensures setting { OnOk result (setting_of expander.new ≡ setting_of expander.old) }
{
    match files.get(number) {
        Some(root) => {
            let mut more = crate_replacements(
                alloc,
                with_modules,
                notes,
                expander,
                files,
                number,
                root,
            )?;
            parts.append(&mut more)
        }
        None => Ok(()),
    }
}

/// Returns the replacements for the calls of each crate, in order. The roots are the first
/// `root_count` files.
pub fn crates_replacements(
    alloc: Global,
    with_modules: bool,
    notes: &mut Vec<Note>,
    expander: &mut FileExpander<'_>,
    files: &[SourceFile<'_>],
    root_count: usize,
) -> Result<Vec<Replacement>, AllocError>
    ensures { IfOk result (λ v. CratesParts (setting_of expander.old) LEVELS with_modules
        (map source_of files.now) (state_of expander.old) root_count (map part_of v.items)
        (state_of expander.new)) }
{
    let mut parts = Vec::new(alloc);
    for number in 0..root_count {
        add_crate_replacements(
            alloc,
            with_modules,
            notes,
            expander,
            files,
            number,
            &mut parts,
        )?;
    }
    Ok(parts)
}
