// Puts the trees of a crate together.
//
// Each `mod name;` gets the trees of the file that holds the module. After each `include!("..");`
// come the trees of the file that it names. The walk goes through the trees from the front, and
// enters no groups but the braces of modules.
ghost use Rattle.std.specs.Prelude.{◌≡◌, ◌<◌, ◌++◌, ◌∷◌, [], IfOk, OnOk, length, map, suc};
ghost use Rattle.mbe_cfg.specs.Files.ModuleDirViews.{candidates_shown, module_dir_shown};
ghost use Rattle.mbe_tt.specs.Buffers.GroupStack.{put};
ghost use Rattle.mbe_tt.specs.Views.View.{trees};
ghost use Rattle.mbe_tt.specs.Trees.Tree.{first};
ghost use Rattle.mbe_cfg.specs.Crates.ModuleInliner as spec;
ghost use Rattle.mbe_cfg.specs.Crates.ModuleItems.{Outside, finished_include};
ghost use Rattle.mbe_cfg.specs.Crates.CrateViews.{inline_context_shown, file_shown, included_shown};
ghost use Rattle.mbe_cfg.specs.Crates.CrateViews.{cursor_shown};
ghost use Rattle.mbe_cfg.specs.Crates.CrateViews.{module_shown, found_file_of, unresolved_shown};
ghost use Rattle.mbe_cfg.specs.Crates.InlinerSteps.{IsStep, Writes};

use crate::crates::file_lookup::{CrateFile, FileLookupError, FoundFile, find_file};
use crate::crates::module_items::{Included, Module, ModuleBody, ModuleCursor, module_of};
use crate::files::module_dir::{Candidates, ModuleDir};
use crate::tree_front::is_empty;
use mbe_tt::span::Span;
use mbe_tt::tt::{Delimiter, DelimiterKind, Leaf, TokenTreesView, TopSubtree, TopSubtreeBuilder};
use std::alloc::{AllocError, Allocator, Global};

/// The maximum nesting of modules and included files. Deeper trees are copied unchanged.
pub const LEVELS: u32 = 1000;

/// A module or an `include!` whose file was not found.
#[derive(Drop)]
pub struct UnresolvedFile<A: Allocator = Global> {
    /// The span of the module's name, or of the text in the `include!`.
    pub at: Span,
    pub name: String<A>,
    /// The files that may hold it.
    pub candidates: Candidates<A>,
    /// Why none of them does.
    pub reason: FileLookupError,
}

// The surroundings of trees: the folder of the modules in them, and the numbers of the files around
// them.
#[derive(Drop)]
#[derive_where(Clone, Copy)]
struct InlineContext<'p, A: Allocator = Global> {
    module_dir: &'p ModuleDir<A>,
    around: &'p [usize],
}

// Returns braces in place of a `;`.
fn braces(semicolon: Span) -> Delimiter
    ensures { result ≡ spec.braces semicolon }
{
    Delimiter {
        opening: semicolon,
        close: semicolon,
        kind: DelimiterKind::Brace,
    }
}

// Appends a module or an `include!` that has no file.
fn push_unresolved<A: Allocator + Copy>(
    alloc: A,
    unresolved: &mut Vec<UnresolvedFile<A>, A>,
    at: Span,
    name: &str,
    candidates: Candidates<A>,
    reason: FileLookupError,
) -> Result<(), AllocError>
    ensures { OnOk result (map unresolved_shown unresolved.new.items
        ≡ map unresolved_shown unresolved.old.items
        ++ spec.unresolved_of at name.now (candidates_shown candidates) reason ∷ []) }
{
    let name = String::from_str(alloc, name)?;
    unresolved.push(UnresolvedFile {
        at,
        name,
        candidates,
        reason,
    })?;
    Ok(())
}

// Returns these numbers and one more.
fn with_number<A: Allocator>(
    alloc: A,
    around: &[usize],
    number: usize,
) -> Result<Vec<usize, A>, AllocError>
    ensures { IfOk result (λ v. v.items ≡ around.now ++ number ∷ []) }
{
    let mut numbers = Vec::new(alloc);
    numbers.extend_from_slice(around)?;
    numbers.push(number)?;
    Ok(numbers)
}

// Copies the first tree, if there is one. Returns what is left.
fn copy_tree<'t, A: Allocator>(
    builder: &mut TopSubtreeBuilder<A>,
    cursor: ModuleCursor<'t, A>,
) -> Result<ModuleCursor<'t, A>, AllocError>
    ensures kept { OnOk result (builder.new
        ≡ put (spec.alone (first (cursor_shown cursor.entry).rest)) builder.old) }
    ensures cursor { IfOk result (λ l. cursor_shown l
        ≡ spec.after_first (cursor_shown cursor.entry) (first (cursor_shown cursor.entry).rest)) }
{
    let mut iter = cursor.rest.iter();
    let Some(tree) = iter.peek() else {
        return Ok(cursor);
    };
    if let Some(view) = iter.next_as_view() {
        builder.extend_with_tt(view)?;
    }
    Ok(cursor.after(&tree, iter.remaining()))
}

// Writes a module with these trees as its content. Returns what is left.
#[cycle(following)]
fn inline_module<'t, A: Allocator + Copy>(
    alloc: A,
    files: &[CrateFile<'_, A>],
    unresolved: &mut Vec<UnresolvedFile<A>, A>,
    builder: &mut TopSubtreeBuilder<A>,
    at: InlineContext<'_, A>,
    module: Module<'t, A>,
    delimiter: Delimiter,
    content: TokenTreesView<'_, A>,
    levels: u32,
) -> Result<ModuleCursor<'t, A>, AllocError>
    requires some { 0 < length builder.old }
    ensures { IfOk result (IsStep (spec.in_braces (module_shown module.entry) delimiter
        (spec.inlined (map file_shown files.now) levels (inline_context_shown at.entry)
        (trees content.entry))) builder.old (map unresolved_shown unresolved.old.items)
        builder.new (map unresolved_shown unresolved.new.items)) }
{
    builder.push(Leaf::Ident(module.word.clone()?))?;
    builder.push(Leaf::Ident(module.name.clone()?))?;
    builder.open(delimiter.kind, delimiter.opening)?;
    inline_inside(alloc, files, unresolved, builder, at, content, levels)?;
    builder.close(delimiter.close);
    Ok(ModuleCursor::at_item_start(module.rest))
}

// Writes a module with the trees of its file as its content. Returns what is left.
#[cycle(following)]
fn inline_file<'t, A: Allocator + Copy>(
    alloc: A,
    files: &[CrateFile<'_, A>],
    unresolved: &mut Vec<UnresolvedFile<A>, A>,
    builder: &mut TopSubtreeBuilder<A>,
    around: &[usize],
    module: Module<'t, A>,
    semicolon: Span,
    found_file: &FoundFile<'_, A>,
    levels: u32,
) -> Result<ModuleCursor<'t, A>, AllocError>
    requires some { 0 < length builder.old }
    ensures { IfOk result (IsStep (spec.in_braces (module_shown module.entry)
        (spec.braces semicolon) (spec.inlined (map file_shown files.now) levels
        (spec.in_found_file around.now (found_file_of found_file.now)) (found_file_of found_file.now).trees))
        builder.old (map unresolved_shown unresolved.old.items)
        builder.new (map unresolved_shown unresolved.new.items)) }
{
    let numbers = with_number(alloc, around, found_file.number)?;
    let at = InlineContext {
        module_dir: &found_file.module_dir,
        around: numbers.as_slice(),
    };
    let (delimiter, trees) = (braces(semicolon), found_file.trees);
    inline_module(
        alloc, files, unresolved, builder, at, module, delimiter, trees, levels,
    )
}

// Writes a module whose content is in a file. Returns what is left.
#[cycle(following)]
fn inline_outside<'t, A: Allocator + Copy>(
    alloc: A,
    files: &[CrateFile<'_, A>],
    unresolved: &mut Vec<UnresolvedFile<A>, A>,
    builder: &mut TopSubtreeBuilder<A>,
    at: InlineContext<'_, A>,
    cursor: ModuleCursor<'t, A>,
    module: Module<'t, A>,
    semicolon: Span,
    levels: u32,
) -> Result<ModuleCursor<'t, A>, AllocError>
    requires some { 0 < length builder.old }
    ensures { IfOk result (IsStep (spec.body_step
        (spec.inlined (map file_shown files.now) levels) (map file_shown files.now)
        (inline_context_shown at.entry) (cursor_shown cursor.entry) (module_shown module.entry)
        (Outside semicolon)) builder.old (map unresolved_shown unresolved.old.items)
        builder.new (map unresolved_shown unresolved.new.items)) }
{
    let name = module.name.sym.as_str();
    let candidates = at.module_dir.candidates(alloc, name, cursor.path)?;
    match find_file(alloc, files, at.around, name, &candidates)? {
        Ok(found) => {
            let around = at.around;
            inline_file(
                alloc, files, unresolved, builder, around, module, semicolon, &found, levels,
            )
        }
        Err(reason) => {
            push_unresolved(
                alloc,
                unresolved,
                module.name.span,
                name,
                candidates,
                reason,
            )?;
            copy_tree(builder, cursor)
        }
    }
}

// Writes the trees of an included file.
#[cycle(following)]
fn inline_found_file<A: Allocator + Copy>(
    alloc: A,
    files: &[CrateFile<'_, A>],
    unresolved: &mut Vec<UnresolvedFile<A>, A>,
    builder: &mut TopSubtreeBuilder<A>,
    around: &[usize],
    found_file: &FoundFile<'_, A>,
    levels: u32,
) -> Result<(), AllocError>
    requires some { 0 < length builder.old }
    ensures { OnOk result (Writes (spec.inlined (map file_shown files.now) levels
        (spec.in_found_file around.now (found_file_of found_file.now)) (found_file_of found_file.now).trees)
        builder.old (map unresolved_shown unresolved.old.items)
        builder.new (map unresolved_shown unresolved.new.items)) }
{
    let numbers = with_number(alloc, around, found_file.number)?;
    let at = InlineContext {
        module_dir: &found_file.module_dir,
        around: numbers.as_slice(),
    };
    inline_inside(
        alloc,
        files,
        unresolved,
        builder,
        at,
        found_file.trees,
        levels,
    )
}

// Copies the first tree, and writes the trees of an included file after it. Returns what is left.
#[cycle(following)]
fn include_file<'t, A: Allocator + Copy>(
    alloc: A,
    files: &[CrateFile<'_, A>],
    unresolved: &mut Vec<UnresolvedFile<A>, A>,
    builder: &mut TopSubtreeBuilder<A>,
    around: &[usize],
    cursor: ModuleCursor<'t, A>,
    found_file: &FoundFile<'_, A>,
    levels: u32,
) -> Result<ModuleCursor<'t, A>, AllocError>
    requires some { 0 < length builder.old }
    ensures { IfOk result (IsStep (spec.with_file (spec.one_tree (cursor_shown cursor.entry) [])
        (spec.inlined (map file_shown files.now) levels
        (spec.in_found_file around.now (found_file_of found_file.now)) (found_file_of found_file.now).trees))
        builder.old (map unresolved_shown unresolved.old.items)
        builder.new (map unresolved_shown unresolved.new.items)) }
{
    let next = copy_tree(builder, cursor)?;
    inline_found_file(
        alloc, files, unresolved, builder, around, found_file, levels,
    )?;
    Ok(next)
}

// Copies the tree that ends an `include!`, and writes the trees of its file. Returns what is left.
#[cycle(following)]
fn inline_included<'t, A: Allocator + Copy>(
    alloc: A,
    files: &[CrateFile<'_, A>],
    unresolved: &mut Vec<UnresolvedFile<A>, A>,
    builder: &mut TopSubtreeBuilder<A>,
    at: InlineContext<'_, A>,
    cursor: ModuleCursor<'t, A>,
    included: Included<'_>,
    levels: u32,
) -> Result<ModuleCursor<'t, A>, AllocError>
    requires some { 0 < length builder.old }
    ensures { IfOk result (IsStep (spec.included_step
        (spec.inlined (map file_shown files.now) levels) (map file_shown files.now)
        (inline_context_shown at.entry) (cursor_shown cursor.entry) (included_shown included.entry))
        builder.old (map unresolved_shown unresolved.old.items)
        builder.new (map unresolved_shown unresolved.new.items)) }
{
    let (module_dir, around, name) = (at.module_dir, at.around, included.path);
    let candidates = module_dir.included(alloc, name)?;
    match find_file(alloc, files, around, name, &candidates)? {
        Ok(found) => include_file(
            alloc, files, unresolved, builder, around, cursor, &found, levels,
        ),
        Err(reason) => {
            push_unresolved(alloc, unresolved, included.at, name, candidates, reason)?;
            copy_tree(builder, cursor)
        }
    }
}

// Copies a tree that is no module, and writes the trees of the file that it includes. Returns what
// is left.
#[cycle(following)]
fn inline_tree<'t, A: Allocator + Copy>(
    alloc: A,
    files: &[CrateFile<'_, A>],
    unresolved: &mut Vec<UnresolvedFile<A>, A>,
    builder: &mut TopSubtreeBuilder<A>,
    at: InlineContext<'_, A>,
    cursor: ModuleCursor<'t, A>,
    levels: u32,
) -> Result<ModuleCursor<'t, A>, AllocError>
    requires some { 0 < length builder.old }
    ensures { IfOk result (IsStep (spec.tree_step
        (spec.inlined (map file_shown files.now) levels) (map file_shown files.now)
        (inline_context_shown at.entry) (cursor_shown cursor.entry) (finished_include (cursor_shown cursor.entry)))
        builder.old (map unresolved_shown unresolved.old.items)
        builder.new (map unresolved_shown unresolved.new.items)) }
{
    match cursor.finished_include() {
        Some(included) => {
            inline_included(
                alloc, files, unresolved, builder, at, cursor, included, levels,
            )
        }
        None => copy_tree(builder, cursor),
    }
}

// Writes the module or the tree at the front. Returns what is left.
#[cycle(following)]
fn inline_front<'t, A: Allocator + Copy>(
    alloc: A,
    files: &[CrateFile<'_, A>],
    unresolved: &mut Vec<UnresolvedFile<A>, A>,
    builder: &mut TopSubtreeBuilder<A>,
    at: InlineContext<'_, A>,
    cursor: ModuleCursor<'t, A>,
    levels: u32,
) -> Result<ModuleCursor<'t, A>, AllocError>
    requires some { 0 < length builder.old }
    ensures { IfOk result (IsStep (spec.step
        (spec.inlined (map file_shown files.now) levels) (map file_shown files.now)
        (inline_context_shown at.entry) (cursor_shown cursor.entry))
        builder.old (map unresolved_shown unresolved.old.items)
        builder.new (map unresolved_shown unresolved.new.items)) }
{
    let Some(module) = module_of(cursor.rest) else {
        return inline_tree(alloc, files, unresolved, builder, at, cursor, levels);
    };
    match module.body {
        ModuleBody::Outside(semicolon) => inline_outside(
            alloc, files, unresolved, builder, at, cursor, module, semicolon, levels,
        ),
        ModuleBody::Braces(delimiter, content) => {
            let module_dir = at
                .module_dir
                .inside(alloc, module.name.sym.as_str(), cursor.path)?;
            let around = at.around;
            let at = InlineContext {
                module_dir: &module_dir,
                around,
            };
            inline_module(
                alloc, files, unresolved, builder, at, module, delimiter, content, levels,
            )
        }
    }
}

// Writes these trees with the files of their modules. Copies them unchanged if they are nested too
// deep.
#[cycle(following)]
fn inline_inside<A: Allocator + Copy>(
    alloc: A,
    files: &[CrateFile<'_, A>],
    unresolved: &mut Vec<UnresolvedFile<A>, A>,
    builder: &mut TopSubtreeBuilder<A>,
    at: InlineContext<'_, A>,
    tokens: TokenTreesView<'_, A>,
    levels: u32,
) -> Result<(), AllocError>
    requires some { 0 < length builder.old }
    ensures { OnOk result (Writes
        (spec.inlined (map file_shown files.now) levels (inline_context_shown at.entry) (trees tokens.entry))
        builder.old (map unresolved_shown unresolved.old.items)
        builder.new (map unresolved_shown unresolved.new.items)) }
{
    if levels == 0 {
        return builder.extend_with_tt(tokens);
    }
    inline_trees(alloc, files, unresolved, builder, at, tokens, levels - 1)
}

// Writes these trees with the files of their modules, which may be nested `levels` deep.
#[cycle(following)]
fn inline_trees<A: Allocator + Copy>(
    alloc: A,
    files: &[CrateFile<'_, A>],
    unresolved: &mut Vec<UnresolvedFile<A>, A>,
    builder: &mut TopSubtreeBuilder<A>,
    at: InlineContext<'_, A>,
    tokens: TokenTreesView<'_, A>,
    levels: u32,
) -> Result<(), AllocError>
    requires some { 0 < length builder.old }
    ensures { OnOk result (Writes
        (spec.inlined (map file_shown files.now) (suc levels) (inline_context_shown at.entry)
        (trees tokens.entry))
        builder.old (map unresolved_shown unresolved.old.items)
        builder.new (map unresolved_shown unresolved.new.items)) }
{
    let mut cursor = ModuleCursor::at_item_start(tokens);
    let mut most = tokens.flat_len();
    'fronts: while most > 0 {
        most -= 1;
        if is_empty(cursor.rest) {
            return Ok(());
        }
        cursor = inline_front(alloc, files, unresolved, builder, at, cursor, levels)?;
    }
    Ok(())
}

/// Returns the trees of a crate: the trees of its root with the modules inlined. Each `mod name;`
/// becomes `mod name { .. }` with the trees of the one file that may hold the module and was read.
/// The trees of the named file follow each `include!("..");` that is an item. `files` are the files
/// that were read. The root is the file `number`, and the files of its modules are looked for at
/// `module_dir`.
///
/// If a module has no such file, its `mod name;` is unchanged, and the module is appended to
/// `unresolved`. An `include!` without its file is appended too. Returns `AllocError` if memory
/// runs out. Then some of these may have been appended.
pub fn inline_modules<A: Allocator + Copy>(
    alloc: A,
    files: &[CrateFile<'_, A>],
    unresolved: &mut Vec<UnresolvedFile<A>, A>,
    number: usize,
    module_dir: &ModuleDir<A>,
    tree: &TopSubtree<A>,
) -> Result<TopSubtree<A>, AllocError>
    ensures tree { IfOk result (λ t. t ≡ spec.crate_tree (map file_shown files.now) number
        (module_dir_shown module_dir.now) tree.now) }
    ensures unresolved { OnOk result (map unresolved_shown unresolved.new.items
        ≡ map unresolved_shown unresolved.old.items
        ++ spec.unresolved_in (map file_shown files.now) number (module_dir_shown module_dir.now) tree.now) }
{
    let around = [number];
    let at = InlineContext {
        module_dir,
        around: &around,
    };
    let mut builder = TopSubtreeBuilder::new(alloc, tree.top_subtree().delimiter)?;
    let (of, tokens) = (&mut builder, tree.iter().remaining());
    inline_trees(alloc, files, unresolved, of, at, tokens, LEVELS)?;
    Ok(builder.build())
}
