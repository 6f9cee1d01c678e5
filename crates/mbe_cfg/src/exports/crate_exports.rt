// Lists what the root of a crate exports from other crates.
ghost use Rattle.std.specs.Prelude.{◌≡◌, ◌++◌, OnOk, map};
ghost use Rattle.mbe_tt.specs.Views.View.{trees};
ghost use Rattle.mbe_cfg.specs.CrateExports.Exports as spec;
ghost use Rattle.mbe_cfg.specs.CrateExports.ExportViews.{export_of};

use crate::exports::export::Export;
use crate::exports::use_paths::{LEVELS, UsePath, add_uses, after_word};
use mbe_tt::tt::TokenTreesView;
use std::alloc::{AllocError, Allocator};

// Appends what the `pub use` at the front names. `root` has the trees of the crate's root.
fn add_at<'t, A: Allocator + Copy>(
    alloc: A,
    exports: &mut Vec<Export<A>, A>,
    by: &str,
    root: TokenTreesView<'t, A>,
    tokens: TokenTreesView<'t, A>,
) -> Result<(), AllocError>
    ensures { OnOk result (map export_of exports.new.items ≡ map export_of exports.old.items
        ++ spec.exports_at by.now (trees root.entry) (trees tokens.entry)) }
{
    let Some(after) = after_word("pub", tokens) else {
        return Ok(());
    };
    let Some(named) = after_word("use", after) else {
        return Ok(());
    };
    add_uses(alloc, exports, by, root, UsePath::none(), named, LEVELS)
}

/// Appends what the crate `by` exports from other crates, by the `pub use`s among its root's trees.
/// Returns `AllocError` if memory runs out.
pub fn add_exports<A: Allocator + Copy>(
    alloc: A,
    exports: &mut Vec<Export<A>, A>,
    by: &str,
    root: TokenTreesView<'_, A>,
) -> Result<(), AllocError>
    ensures { OnOk result (map export_of exports.new.items ≡ map export_of exports.old.items
        ++ spec.exports_of by.now (trees root.entry)) }
{
    let mut rest = root.iter();
    'trees: loop {
        add_at(alloc, exports, by, root, rest.remaining())?;
        match rest.next() {
            Some(_) => {}
            None => return Ok(()),
        }
    }
}
