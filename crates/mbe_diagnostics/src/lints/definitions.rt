// Finds the macro definitions among trees.
ghost use Rattle.std.specs.Prelude.{◌≡◌, ◌++◌, map, IfOk, OnOk};
ghost use Rattle.mbe_tt.specs.Views.Element.{element_tree};
ghost use Rattle.mbe_tt.specs.Views.View.{trees};
ghost use Rattle.mbe_rewriter.specs.MacroItemViews.{macro_definition_shown};
ghost use Rattle.mbe_diagnostics.specs.Lints.Definitions as spec;

use mbe_rewriter::macro_items::{FrontItem, MacroDefinition, front_of};
use mbe_tt::tt::{TokenTreesView, TtElement};
use std::alloc::{AllocError, Allocator};

/// How deep groups may be nested where definitions are looked for.
pub const LEVELS: u32 = 1001;

#[cycle(defined)]
fn push_defined<'t, A: Allocator>(
    found: &mut Vec<MacroDefinition<'t, A>, A>,
    tokens: TokenTreesView<'t, A>,
    levels: u32,
) -> Result<(), AllocError>
    ensures { OnOk result (map macro_definition_shown found.new.items
        ≡ map macro_definition_shown found.old.items
        ++ spec.definitions levels (trees tokens.entry)) }
{
    if levels == 0 {
        return Ok(());
    }
    let mut rest = tokens;
    let mut left = tokens.flat_len();
    'fronts: while left > 0 {
        left -= 1;
        match front_of(rest) {
            FrontItem::End => return Ok(()),
            FrontItem::Definition(defined) => {
                found.push(defined)?;
                rest = defined.rest;
            }
            FrontItem::MacroCall(call) => rest = call.rest,
            FrontItem::Tree(tree, after) => {
                push_defined_in_tree(found, tree, levels - 1)?;
                rest = after;
            }
        }
    }
    Ok(())
}

#[cycle(defined)]
fn push_defined_in_tree<'t, A: Allocator>(
    found: &mut Vec<MacroDefinition<'t, A>, A>,
    tree: TtElement<'t, A>,
    levels: u32,
) -> Result<(), AllocError>
    ensures { OnOk result (map macro_definition_shown found.new.items
        ≡ map macro_definition_shown found.old.items
        ++ spec.defined_in_tree (spec.definitions levels) (element_tree tree.entry)) }
{
    match tree {
        TtElement::Leaf(_) => Ok(()),
        TtElement::Subtree(_, inside) => push_defined(found, inside.remaining(), levels),
    }
}

/// Returns the macro definitions among these trees, in the order of the text. It looks into groups,
/// but not into definitions or the arguments of calls, and not deeper than `LEVELS` groups.
/// `AllocError` if out of memory.
pub fn definitions<'t, A: Allocator + Copy>(
    alloc: A,
    tokens: TokenTreesView<'t, A>,
) -> Result<Vec<MacroDefinition<'t, A>, A>, AllocError>
    ensures { IfOk result (λ found. map macro_definition_shown found.items
        ≡ spec.definitions 1001 (trees tokens.entry)) }
{
    let mut found = Vec::new(alloc);
    push_defined(&mut found, tokens, LEVELS)?;
    Ok(found)
}
