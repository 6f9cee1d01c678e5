// Reads the paths of a `use`.
ghost use Rattle.std.specs.Prelude.{◌≡◌, ◌++◌, OnOk, map, option_map};
ghost use Rattle.mbe_tt.specs.Views.LeafViews.{ident_of, leaf_of};
ghost use Rattle.mbe_tt.specs.Views.View.{trees};
ghost use Rattle.mbe_cfg.specs.CrateExports.Exports as spec;
ghost use Rattle.mbe_cfg.specs.CrateExports.ExportViews.{export_of, use_path_of};

use crate::exports::export::{Export, ExportedMacros};
use mbe_tt::tt::{Ident, Leaf, TokenTreesView, TtElement};
use std::alloc::{AllocError, Allocator};

/// The maximum depth of groups. Deeper groups are ignored.
pub(crate) const LEVELS: u32 = 1000;

// The part of a path before a point.
#[derive(Clone, Copy, Drop)]
pub(crate) struct UsePath<'t> {
    // The crate that the path begins with.
    from: Option<&'t str>,
    // Whether more names follow the crate.
    has_more_names: bool,
    // How many trees to skip: an `as` and the name after it.
    skipped: u32,
}

impl UsePath<'_> {
    // Returns the empty path.
    pub(crate) fn none() -> UsePath<'static>
        ensures { use_path_of result ≡ spec.empty_path }
    {
        UsePath {
            from: None,
            has_more_names: false,
            skipped: 0,
        }
    }
}

/// Returns the name at the front.
pub(crate) fn name_at<'t, A: Allocator>(tokens: TokenTreesView<'t, A>) -> Option<&'t str>
    ensures { option_map (λ s. s.now) result ≡ spec.name_at (trees tokens.entry) }
{
    let ident = tokens.iter().expect_ident().ok()?;
    Some(ident.sym.as_str())
}

/// Returns the trees after `word`, if it is at the front.
pub(crate) fn after_word<'t, A: Allocator>(
    word: &str,
    tokens: TokenTreesView<'t, A>,
) -> Option<TokenTreesView<'t, A>>
    ensures { option_map trees result ≡ spec.after_word word.now (trees tokens.entry) }
{
    let mut iter = tokens.iter();
    let ident = iter.expect_ident().ok()?;
    if ident.sym.as_str() == word {
        Some(iter.remaining())
    } else {
        None
    }
}

// Returns the trees after the name at the front.
fn after_name<'t, A: Allocator>(tokens: TokenTreesView<'t, A>) -> TokenTreesView<'t, A>
    ensures { trees result ≡ spec.after_first (trees tokens.entry) }
{
    let mut iter = tokens.iter();
    let _name = iter.next();
    iter.remaining()
}

// Returns the name after an `as` at the front.
fn new_name<'t, A: Allocator>(tokens: TokenTreesView<'t, A>) -> Option<&'t str>
    ensures { option_map (λ s. s.now) result ≡ spec.new_name (trees tokens.entry) }
{
    let after = after_word("as", tokens)?;
    name_at(after)
}

// Returns whether an `as` and that name are at the front.
fn is_renamed<A: Allocator>(name: &str, tokens: TokenTreesView<'_, A>) -> bool
    ensures { result ≡ spec.is_renamed name.now (trees tokens.entry) }
{
    match new_name(tokens) {
        Some(other) => other == name,
        None => false,
    }
}

// Returns the name at the front, if an `as` and that other name follow it.
fn renamed_at<'t, A: Allocator>(name: &str, tokens: TokenTreesView<'t, A>) -> Option<&'t str>
    ensures { option_map (λ s. s.now) result ≡ spec.renamed_at name.now (trees tokens.entry) }
{
    let found = name_at(tokens)?;
    if is_renamed(name, after_name(tokens)) {
        Some(found)
    } else {
        None
    }
}

// Returns the crate to which an `extern crate` at the front gives that name.
fn crate_at<'t, A: Allocator>(name: &str, tokens: TokenTreesView<'t, A>) -> Option<&'t str>
    ensures { option_map (λ s. s.now) result ≡ spec.crate_at name.now (trees tokens.entry) }
{
    let after = after_word("extern", tokens)?;
    let named = after_word("crate", after)?;
    renamed_at(name, named)
}

/// Returns the crate that a name means among the trees of a root: `other` if
/// `extern crate other as name;` is among them, else the crate of that name.
pub(crate) fn crate_of<'t, A: Allocator>(name: &'t str, tokens: TokenTreesView<'t, A>) -> &'t str
    ensures { result.now ≡ spec.crate_of name.now (trees tokens.entry) }
{
    let mut rest = tokens.iter();
    'trees: loop {
        if let Some(found) = crate_at(name, rest.remaining()) {
            return found;
        }
        match rest.next() {
            Some(_) => {}
            None => return name,
        }
    }
}

/// Returns whether a `:` is at the front.
pub fn begins_path<A: Allocator>(tokens: TokenTreesView<'_, A>) -> bool
    ensures { result ≡ spec.begins_path (trees tokens.entry) }
{
    match tokens.iter().next() {
        Some(TtElement::Leaf(Leaf::Punct(punct))) => punct.char == ':',
        Some(TtElement::Leaf(Leaf::Ident(_) | Leaf::Literal(_)) | TtElement::Subtree(..)) | None =>
            { false }
    }
}

// Returns whether a leaf is a `;`, which ends a `use`.
fn ends_use<A: Allocator>(leaf: &Leaf<A>) -> bool
    ensures { result ≡ spec.ends_use (leaf_of leaf.now) }
{
    match leaf {
        Leaf::Punct(punct) => punct.char == ';',
        Leaf::Ident(_) | Leaf::Literal(_) => false,
    }
}

// Returns the path with one more name.
fn with_name<'t, A: Allocator>(
    root: TokenTreesView<'t, A>,
    use_path: UsePath<'t>,
    name: &'t str,
) -> UsePath<'t>
    ensures { use_path_of result ≡ spec.with_name (trees root.entry) name.now
        (use_path_of use_path.entry) }
{
    match use_path.from {
        None => UsePath {
            from: Some(crate_of(name, root)),
            has_more_names: false,
            skipped: 0,
        },
        Some(_) => UsePath {
            has_more_names: true,
            ..use_path
        },
    }
}

// Returns the path after that name.
fn after_ident<'t, A: Allocator>(
    root: TokenTreesView<'t, A>,
    use_path: UsePath<'t>,
    ident: &'t Ident<A>,
    rest: TokenTreesView<'t, A>,
) -> UsePath<'t>
    ensures { use_path_of result ≡ spec.after_ident (trees root.entry) (use_path_of use_path.entry)
        (ident_of ident.now) (trees rest.entry) }
{
    if begins_path(rest) {
        return with_name(root, use_path, ident.sym.as_str());
    }
    match after_word("as", rest) {
        Some(_) => UsePath {
            skipped: 2,
            ..use_path
        },
        None => use_path,
    }
}

// Returns the path after that leaf. After a comma, it is again the path at which the group began.
fn after_leaf<'t, A: Allocator>(
    root: TokenTreesView<'t, A>,
    start: UsePath<'t>,
    use_path: UsePath<'t>,
    leaf: &'t Leaf<A>,
    rest: TokenTreesView<'t, A>,
) -> UsePath<'t>
    ensures { use_path_of result ≡ spec.after_leaf (trees root.entry) (use_path_of start.entry)
        (use_path_of use_path.entry) (leaf_of leaf.now) (trees rest.entry) }
{
    match leaf {
        Leaf::Ident(ident) => after_ident(root, use_path, ident, rest),
        Leaf::Punct(punct) => { if punct.char == ',' { start } else { use_path } }
        Leaf::Literal(_) => use_path,
    }
}

// Returns the path after that leaf, which may be skipped.
fn next<'t, A: Allocator>(
    root: TokenTreesView<'t, A>,
    start: UsePath<'t>,
    use_path: UsePath<'t>,
    leaf: &'t Leaf<A>,
    rest: TokenTreesView<'t, A>,
) -> UsePath<'t>
    ensures { use_path_of result ≡ spec.next (trees root.entry) (use_path_of start.entry)
        (use_path_of use_path.entry) (leaf_of leaf.now) (trees rest.entry) }
{
    if use_path.skipped == 0 {
        return after_leaf(root, start, use_path, leaf, rest);
    }
    UsePath {
        skipped: use_path.skipped - 1,
        ..use_path
    }
}

// Appends the macro `name` of the path's crate, under the name `other`. A path that has no crate
// yet adds nothing.
fn add_one<A: Allocator + Copy>(
    alloc: A,
    exports: &mut Vec<Export<A>, A>,
    by: &str,
    use_path: UsePath<'_>,
    name: &str,
    other: &str,
) -> Result<(), AllocError>
    ensures { OnOk result (map export_of exports.new.items ≡ map export_of exports.old.items
        ++ spec.one_of by.now (use_path_of use_path.entry).from name.now other.now) }
{
    let Some(from) = use_path.from else {
        return Ok(());
    };
    exports.push(Export {
        by: String::from_str(alloc, by)?,
        from: String::from_str(alloc, from)?,
        exported_macros: ExportedMacros::One(
            String::from_str(alloc, name)?,
            String::from_str(alloc, other)?,
        ),
    })?;
    Ok(())
}

// Appends all that the path's crate offers, if the path is that crate alone.
fn add_all<A: Allocator + Copy>(
    alloc: A,
    exports: &mut Vec<Export<A>, A>,
    by: &str,
    use_path: UsePath<'_>,
) -> Result<(), AllocError>
    ensures { OnOk result (map export_of exports.new.items ≡ map export_of exports.old.items
        ++ spec.all_of by.now (use_path_of use_path.entry)) }
{
    let Some(from) = use_path.from else {
        return Ok(());
    };
    if use_path.has_more_names {
        return Ok(());
    }
    exports.push(Export {
        by: String::from_str(alloc, by)?,
        from: String::from_str(alloc, from)?,
        exported_macros: ExportedMacros::All,
    })?;
    Ok(())
}

// Appends what a name means, if it is the last one of its path.
fn add_ident<A: Allocator + Copy>(
    alloc: A,
    exports: &mut Vec<Export<A>, A>,
    by: &str,
    use_path: UsePath<'_>,
    ident: &Ident<A>,
    rest: TokenTreesView<'_, A>,
) -> Result<(), AllocError>
    ensures { OnOk result (map export_of exports.new.items ≡ map export_of exports.old.items
        ++ spec.of_ident by.now (use_path_of use_path.entry) (ident_of ident.now) (trees rest.entry)) }
{
    if begins_path(rest) {
        return Ok(());
    }
    let name = ident.sym.as_str();
    add_one(
        alloc,
        exports,
        by,
        use_path,
        name,
        new_name(rest).unwrap_or(name),
    )
}

// Appends what a leaf means.
fn add_leaf<A: Allocator + Copy>(
    alloc: A,
    exports: &mut Vec<Export<A>, A>,
    by: &str,
    use_path: UsePath<'_>,
    leaf: &Leaf<A>,
    rest: TokenTreesView<'_, A>,
) -> Result<(), AllocError>
    ensures { OnOk result (map export_of exports.new.items ≡ map export_of exports.old.items
        ++ spec.of_leaf by.now (use_path_of use_path.entry) (leaf_of leaf.now) (trees rest.entry)) }
{
    match leaf {
        Leaf::Ident(ident) => add_ident(alloc, exports, by, use_path, ident, rest),
        Leaf::Punct(punct) => {
            if punct.char == '*' {
                add_all(alloc, exports, by, use_path)
            } else {
                Ok(())
            }
        }
        Leaf::Literal(_) => Ok(()),
    }
}

// Appends what a leaf means, unless it is skipped.
fn add_next<A: Allocator + Copy>(
    alloc: A,
    exports: &mut Vec<Export<A>, A>,
    by: &str,
    use_path: UsePath<'_>,
    leaf: &Leaf<A>,
    rest: TokenTreesView<'_, A>,
) -> Result<(), AllocError>
    ensures { OnOk result (map export_of exports.new.items ≡ map export_of exports.old.items
        ++ spec.exported by.now (use_path_of use_path.entry) (leaf_of leaf.now) (trees rest.entry)) }
{
    if use_path.skipped == 0 {
        add_leaf(alloc, exports, by, use_path, leaf, rest)
    } else {
        Ok(())
    }
}

/// Appends what the paths among these trees name, up to a `;`. Each path begins with `start`.
/// Groups may be nested `levels` deep. Returns `AllocError` if memory runs out.
pub(crate) fn add_uses<'t, A: Allocator + Copy>(
    alloc: A,
    exports: &mut Vec<Export<A>, A>,
    by: &str,
    root: TokenTreesView<'t, A>,
    start: UsePath<'t>,
    tokens: TokenTreesView<'t, A>,
    levels: u32,
) -> Result<(), AllocError>
    ensures { OnOk result (map export_of exports.new.items ≡ map export_of exports.old.items
        ++ spec.uses_in levels by.now (trees root.entry) (use_path_of start.entry)
        (trees tokens.entry)) }
{
    if levels == 0 {
        return Ok(());
    }
    let mut use_path = start;
    let mut rest = tokens.iter();
    'trees: while let Some(tree) = rest.next() {
        match tree {
            TtElement::Leaf(leaf) => {
                if ends_use(leaf) {
                    return Ok(());
                }
                add_next(alloc, exports, by, use_path, leaf, rest.remaining())?;
                use_path = next(root, start, use_path, leaf, rest.remaining());
            }
            TtElement::Subtree(_, inside) => {
                let inside = inside.remaining();
                add_uses(alloc, exports, by, root, use_path, inside, levels - 1)?;
            }
        }
    }
    Ok(())
}
