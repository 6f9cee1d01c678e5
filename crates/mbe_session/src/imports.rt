// Reads what the resolution of names needs from trees:
//
// - whether a `use` imports a macro, so that paths resolve to it;
// - the modules and their content;
// - the names that a `use` or an `extern crate` declares;
// - whether a macro may define other macros.
ghost use Rattle.std.specs.Prelude.{◌≡◌, ◌++◌, IfOk, OnOk, Some, codes, map, option_map};
ghost use Rattle.mbe_tt.specs.Views.LeafViews.{ident_of, leaf_of};
ghost use Rattle.mbe_tt.specs.Views.View.{trees};
ghost use Rattle.mbe_cfg.specs.CrateExports.Exports.{after_word, ends_use, new_name};
ghost use Rattle.mbe_rewriter.specs.DefiningWords.{defining_words};
ghost use Rattle.mbe_session.specs.Imports as spec;
ghost use Rattle.mbe_session.specs.Scopes.{names_of_words};
ghost use Rattle.mbe_session.specs.SessionViews.{declared_name_of, module_shown, used_path_of};

use crate::scope::resolution::{DeclaredName, declared_name};
use mbe_cfg::exports::use_paths::begins_path;
use mbe_rewriter::defining_words::defining_words;
use mbe_tt::tt::{DelimiterKind, Ident, Leaf, TokenTreesView, TtElement};
use std::alloc::{AllocError, Allocator, Global};

/// A module with its content.
#[derive(Drop)]
#[derive_where(Clone, Copy)]
pub(crate) struct ModuleItem<'t, A: Allocator = Global> {
    pub(crate) name: &'t Ident<A>,
    pub(crate) inside: TokenTreesView<'t, A>,
    /// The trees after the module.
    pub(crate) rest: TokenTreesView<'t, A>,
}

/// Returns the trees after the word, if it is at the front.
pub(crate) fn after_word<'t, A: Allocator>(
    word: &str,
    tokens: TokenTreesView<'t, A>,
) -> Option<TokenTreesView<'t, A>>
    ensures { option_map trees result ≡ after_word word.now (trees tokens.entry) }
{
    let mut iter = tokens.iter();
    let ident = iter.expect_ident().ok()?;
    if ident.sym.as_str() == word {
        Some(iter.remaining())
    } else {
        None
    }
}

// Returns the module of that name whose group is at the front.
fn module_with_name<'t, A: Allocator>(
    name: &'t Ident<A>,
    tokens: TokenTreesView<'t, A>,
) -> Option<ModuleItem<'t, A>>
    ensures { option_map module_shown result
        ≡ spec.module_with_name (ident_of name.now) (trees tokens.entry) }
{
    let mut iter = tokens.iter();
    let (group, content) = iter.expect_subtree().ok()?;
    match group.delimiter.kind {
        DelimiterKind::Brace => Some(ModuleItem {
            name,
            inside: content.remaining(),
            rest: iter.remaining(),
        }),
        DelimiterKind::Parenthesis | DelimiterKind::Bracket | DelimiterKind::Invisible => None,
    }
}

// Returns the module `mod name { .. }` at the front.
pub(crate) fn module_at<'t, A: Allocator>(
    tokens: TokenTreesView<'t, A>,
) -> Option<ModuleItem<'t, A>>
    ensures { option_map module_shown result ≡ spec.module_at (trees tokens.entry) }
{
    let mut iter = after_word("mod", tokens)?.iter();
    let name = iter.expect_ident().ok()?;
    module_with_name(name, iter.remaining())
}

// Whether a `use` gives another name to what is before these trees.
fn is_renamed<A: Allocator>(tokens: TokenTreesView<'_, A>) -> bool
    ensures { result ≡ spec.is_renamed (trees tokens.entry) }
{
    match after_word("as", tokens) {
        Some(_) => true,
        None => false,
    }
}

// Whether a path of a `use` ends before these trees, and keeps its last name.
fn ends_path<A: Allocator>(tokens: TokenTreesView<'_, A>) -> bool
    ensures { result ≡ spec.ends_path (trees tokens.entry) }
{
    !begins_path(tokens) && !is_renamed(tokens)
}

// Whether the name is at the front of these trees, doesn't begin a longer path, and gets no other
// name.
fn is_name<A: Allocator>(name: &str, tokens: TokenTreesView<'_, A>) -> bool
    ensures { result ≡ spec.is_name name.now (trees tokens.entry) }
{
    let mut iter = tokens.iter();
    match iter.next() {
        Some(TtElement::Leaf(Leaf::Ident(ident))) => {
            ident.sym.as_str() == name && ends_path(iter.remaining())
        }
        Some(TtElement::Leaf(Leaf::Punct(_) | Leaf::Literal(_)) | TtElement::Subtree(..)) | None =>
            { false }
    }
}

// Whether the name is among these trees.
fn has_name<A: Allocator>(name: &str, tokens: TokenTreesView<'_, A>) -> bool
    ensures { result ≡ spec.has_name name.now (trees tokens.entry) }
{
    let mut rest = tokens.iter();
    'trees: loop {
        if is_name(name, rest.remaining()) {
            return true;
        }
        match rest.next() {
            Some(_) => {}
            None => return false,
        }
    }
}

// Whether the name, or a group that holds it, is at the front of these trees.
fn is_tree_of<A: Allocator>(name: &str, tokens: TokenTreesView<'_, A>) -> bool
    ensures { result ≡ spec.is_tree_of name.now (trees tokens.entry) }
{
    match tokens.iter().next() {
        Some(TtElement::Subtree(_, inside)) => has_name(name, inside.remaining()),
        Some(TtElement::Leaf(_)) => is_name(name, tokens),
        None => false,
    }
}

// Whether a `use` of the name is at the front of these trees.
fn is_use<A: Allocator>(name: &str, tokens: TokenTreesView<'_, A>) -> bool
    ensures { result ≡ spec.is_use name.now (trees tokens.entry) }
{
    let mut iter = tokens.iter();
    match iter.next() {
        Some(TtElement::Leaf(Leaf::Ident(ident))) => {
            ident.sym.as_str() == "use" && is_tree_of(name, iter.remaining())
        }
        Some(TtElement::Leaf(Leaf::Punct(_) | Leaf::Literal(_)) | TtElement::Subtree(..)) | None =>
            { false }
    }
}

// Returns the name of the `macro_rules!` definition at the front.
fn rules_name_at<'t, A: Allocator>(tokens: TokenTreesView<'t, A>) -> Option<&'t str>
    ensures { option_map (λ s. s.now) result ≡ spec.rules_name_at (trees tokens.entry) }
{
    let mut iter = after_word("macro_rules", tokens)?.iter();
    let _mark = iter.next();
    let name = iter.expect_ident().ok()?;
    Some(name.sym.as_str())
}

// Whether a `macro_rules!` definition of that name is at the front.
fn is_rules_of<A: Allocator>(name: &str, tokens: TokenTreesView<'_, A>) -> bool
    ensures { result ≡ spec.is_rules_of name.now (trees tokens.entry) }
{
    match rules_name_at(tokens) {
        Some(other) => other == name,
        None => false,
    }
}

// Whether a `use` among these trees imports that macro by its name: `use name;` or
// `use {name, other};`. A `use` after another definition of that name imports that one.
pub(crate) fn is_imported_in<A: Allocator>(name: &str, tokens: TokenTreesView<'_, A>) -> bool
    ensures { result ≡ spec.is_imported_in name.now (trees tokens.entry) }
{
    let mut rest = tokens.iter();
    'trees: loop {
        if is_use(name, rest.remaining()) {
            return true;
        }
        if is_rules_of(name, rest.remaining()) {
            return false;
        }
        match rest.next() {
            Some(_) => {}
            None => return false,
        }
    }
}

/// How many groups of a `use` may be in one another.
const USE_LEVELS: u32 = 1000;

// A path of a `use`, before a point.
#[derive(Clone, Copy, Drop)]
pub(crate) struct UsedPath<'t> {
    // The first name; none at the start.
    first: Option<&'t str>,
    // Whether an `as` precedes the point: the next name is another one for the path.
    follows_as: bool,
}

impl UsedPath<'_> {
    // Returns the empty path.
    fn none() -> UsedPath<'static>
        ensures { used_path_of result ≡ spec.empty_path }
    {
        UsedPath {
            first: None,
            follows_as: false,
        }
    }
}

// Returns the name after an `as` at the front.
fn new_name<'t, A: Allocator>(tokens: TokenTreesView<'t, A>) -> Option<&'t str>
    ensures { option_map (λ s. s.now) result ≡ new_name (trees tokens.entry) }
{
    let mut iter = after_word("as", tokens)?.iter();
    let name = iter.expect_ident().ok()?;
    Some(name.sym.as_str())
}

// Returns the new name in the `name as other` at the front.
fn other_name<'t, A: Allocator>(tokens: TokenTreesView<'t, A>) -> Option<&'t str>
    ensures { option_map (λ s. s.now) result ≡ spec.other_name (trees tokens.entry) }
{
    let mut iter = tokens.iter();
    let _name = iter.expect_ident().ok()?;
    new_name(iter.remaining())
}

// Returns the name that the `extern crate name as other;` at the front gives its crate.
fn renamed_crate<'t, A: Allocator>(tokens: TokenTreesView<'t, A>) -> Option<&'t str>
    ensures { option_map (λ s. s.now) result ≡ spec.renamed_crate (trees tokens.entry) }
{
    let after = after_word("extern", tokens)?;
    let named = after_word("crate", after)?;
    other_name(named)
}

// Returns the names that the `use` or the `extern crate` at the front declares. A `*` is a name.
pub(crate) fn names_of_use<A: Allocator + Copy>(
    alloc: A,
    tokens: TokenTreesView<'_, A>,
) -> Result<Vec<DeclaredName<A>, A>, AllocError>
    ensures { IfOk result (λ v. map declared_name_of v.items
        ≡ spec.names_of_use (trees tokens.entry)) }
{
    let mut names = Vec::new(alloc);
    add_crate_name(alloc, &mut names, tokens)?;
    add_use(alloc, &mut names, tokens)?;
    Ok(names)
}

// Adds a name that a path declares which begins with `first`.
fn add_name<A: Allocator + Copy>(
    alloc: A,
    names: &mut Vec<DeclaredName<A>, A>,
    first: &str,
    name: &str,
) -> Result<(), AllocError>
    ensures { OnOk result (map declared_name_of names.new.items
        ≡ map declared_name_of names.old.items ++ spec.one_declared first.now name.now) }
{
    names.push(declared_name(alloc, first, name)?)?;
    Ok(())
}

// Adds the name that the `extern crate name as other;` at the front declares.
fn add_crate_name<A: Allocator + Copy>(
    alloc: A,
    names: &mut Vec<DeclaredName<A>, A>,
    tokens: TokenTreesView<'_, A>,
) -> Result<(), AllocError>
    ensures { OnOk result (map declared_name_of names.new.items
        ≡ map declared_name_of names.old.items
        ++ spec.names_of_crate (spec.renamed_crate (trees tokens.entry))) }
{
    match renamed_crate(tokens) {
        Some(name) => add_name(alloc, names, "", name),
        None => Ok(()),
    }
}

// Adds the names that the `use` at the front declares.
fn add_use<A: Allocator + Copy>(
    alloc: A,
    names: &mut Vec<DeclaredName<A>, A>,
    tokens: TokenTreesView<'_, A>,
) -> Result<(), AllocError>
    ensures { OnOk result (map declared_name_of names.new.items
        ≡ map declared_name_of names.old.items
        ++ spec.names_after_use (after_word (codes "use") (trees tokens.entry))) }
{
    match after_word("use", tokens) {
        Some(rest) => add_paths(alloc, names, rest),
        None => Ok(()),
    }
}

// Adds the names that the paths after a `use` declare.
fn add_paths<A: Allocator + Copy>(
    alloc: A,
    names: &mut Vec<DeclaredName<A>, A>,
    tokens: TokenTreesView<'_, A>,
) -> Result<(), AllocError>
    ensures { OnOk result (map declared_name_of names.new.items
        ≡ map declared_name_of names.old.items
        ++ spec.names_after_use (Some (trees tokens.entry))) }
{
    if begins_generics(tokens) {
        return Ok(());
    }
    add_used_names(alloc, names, UsedPath::none(), tokens, USE_LEVELS)
}

// Whether a `<` is at the front: the `use` is a bound of a type, and declares nothing.
fn begins_generics<A: Allocator>(tokens: TokenTreesView<'_, A>) -> bool
    ensures { result ≡ spec.begins_generics (trees tokens.entry) }
{
    match tokens.iter().next() {
        Some(TtElement::Leaf(Leaf::Punct(punct))) => punct.char == '<',
        Some(TtElement::Leaf(Leaf::Ident(_) | Leaf::Literal(_)) | TtElement::Subtree(..)) | None =>
            { false }
    }
}

// Whether a leaf is a `;`, which ends a `use`.
fn ends_use<A: Allocator>(leaf: &Leaf<A>) -> bool
    ensures { result ≡ ends_use (leaf_of leaf.now) }
{
    match leaf {
        Leaf::Punct(punct) => punct.char == ';',
        Leaf::Ident(_) | Leaf::Literal(_) => false,
    }
}

// Adds the names that paths declare, which go on from `start`, up to a `;`. Groups may be nested
// `levels` deep.
fn add_used_names<'t, A: Allocator + Copy>(
    alloc: A,
    names: &mut Vec<DeclaredName<A>, A>,
    start: UsedPath<'t>,
    tokens: TokenTreesView<'t, A>,
    levels: u32,
) -> Result<(), AllocError>
    ensures { OnOk result (map declared_name_of names.new.items
        ≡ map declared_name_of names.old.items
        ++ spec.used_names levels (used_path_of start.entry) (trees tokens.entry)) }
{
    if levels == 0 {
        return Ok(());
    }
    let mut path = start;
    let mut rest = tokens.iter();
    'trees: while let Some(tree) = rest.next() {
        match tree {
            TtElement::Leaf(leaf) => {
                if ends_use(leaf) {
                    return Ok(());
                }
                add_leaf(alloc, names, path, leaf, rest.remaining())?;
                path = next_path(start, path, leaf, rest.remaining());
            }
            TtElement::Subtree(_, inside) => {
                let inside = inside.remaining();
                add_used_names(alloc, names, path, inside, levels - 1)?;
            }
        }
    }
    Ok(())
}

// Returns the path after a leaf. After a comma, it is again the path at which the group began.
fn next_path<'t, A: Allocator>(
    start: UsedPath<'t>,
    path: UsedPath<'t>,
    leaf: &'t Leaf<A>,
    rest: TokenTreesView<'_, A>,
) -> UsedPath<'t>
    ensures { used_path_of result ≡ spec.next_path (used_path_of start.entry)
        (used_path_of path.entry) (leaf_of leaf.now) (trees rest.entry) }
{
    match leaf {
        Leaf::Ident(ident) => path_after(path, ident.sym.as_str(), rest),
        Leaf::Punct(punct) => { if punct.char == ',' { start } else { path } }
        Leaf::Literal(_) => path,
    }
}

// Returns the path after a name.
fn path_after<'t, A: Allocator>(
    path: UsedPath<'t>,
    name: &'t str,
    rest: TokenTreesView<'_, A>,
) -> UsedPath<'t>
    ensures { used_path_of result ≡ spec.path_after (used_path_of path.entry) name.now
        (trees rest.entry) }
{
    if name == "as" {
        return UsedPath {
            follows_as: true,
            ..path
        };
    }
    if path.follows_as || !begins_path(rest) {
        return path;
    }
    UsedPath {
        first: Some(path.first.unwrap_or(name)),
        ..path
    }
}

// Adds what a leaf declares.
fn add_leaf<A: Allocator + Copy>(
    alloc: A,
    names: &mut Vec<DeclaredName<A>, A>,
    path: UsedPath<'_>,
    leaf: &Leaf<A>,
    rest: TokenTreesView<'_, A>,
) -> Result<(), AllocError>
    ensures { OnOk result (map declared_name_of names.new.items
        ≡ map declared_name_of names.old.items
        ++ spec.declared_at (used_path_of path.entry) (leaf_of leaf.now) (trees rest.entry)) }
{
    match leaf {
        Leaf::Ident(ident) => add_declared(alloc, names, path, ident.sym.as_str(), rest),
        Leaf::Punct(punct) => {
            if punct.char == '*' {
                add_name(alloc, names, path.first.unwrap_or(""), "*")
            } else {
                Ok(())
            }
        }
        Leaf::Literal(_) => Ok(()),
    }
}

// Adds what a name declares: itself after an `as`, or if it ends its path.
fn add_declared<A: Allocator + Copy>(
    alloc: A,
    names: &mut Vec<DeclaredName<A>, A>,
    path: UsedPath<'_>,
    name: &str,
    rest: TokenTreesView<'_, A>,
) -> Result<(), AllocError>
    ensures { OnOk result (map declared_name_of names.new.items
        ≡ map declared_name_of names.old.items
        ++ spec.declared_by (used_path_of path.entry) name.now (trees rest.entry)) }
{
    if name == "as" {
        return Ok(());
    }
    if path.follows_as {
        return add_name(alloc, names, "", name);
    }
    if begins_path(rest) {
        return Ok(());
    }
    add_last_name(alloc, names, path.first, name, rest)
}

// Adds the last name of a path that begins with `first`, unless it gets another name.
fn add_last_name<A: Allocator + Copy>(
    alloc: A,
    names: &mut Vec<DeclaredName<A>, A>,
    first: Option<&str>,
    name: &str,
    rest: TokenTreesView<'_, A>,
) -> Result<(), AllocError>
    ensures { OnOk result (map declared_name_of names.new.items
        ≡ map declared_name_of names.old.items
        ++ spec.last_name (option_map (λ s. s.now) first.entry) name.now (trees rest.entry)) }
{
    let Some(first) = first else {
        return Ok(());
    };
    if is_renamed(rest) {
        return Ok(());
    }
    add_name(alloc, names, first, name)
}

// Returns what a definition declares.
//
// - `macro_rules`: a call may define a macro that is found outside of the group of the call.
// - `macro_use`: a name after a call or in its expansion may mean another macro than the last
//   visible one.
pub(crate) fn names_of_definition<A: Allocator + Copy>(
    alloc: A,
    is_item: bool,
    rules: TokenTreesView<'_, A>,
) -> Result<Vec<DeclaredName<A>, A>, AllocError>
    ensures { IfOk result (λ v. map declared_name_of v.items
        ≡ names_of_words is_item (defining_words (trees rules.entry))) }
{
    let words = defining_words(alloc, rules)?;
    let mut names = Vec::new(alloc);
    if words.may_define() {
        names.push(declared_name(alloc, "", "macro_rules")?)?;
    }
    if words.may_shadow(is_item) {
        names.push(declared_name(alloc, "", "macro_use")?)?;
    }
    Ok(names)
}
