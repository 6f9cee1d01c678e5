// Finds what is at the front of an expansion's trees: disabled code, a definition, a call, or
// another tree.
//
// A file loses its disabled code before its calls are looked for. An expansion still has its
// disabled code, so this module looks for it at each front. Disabled code is copied unchanged:
// calls in it are not expanded, and its definitions are ignored.
ghost use Rattle.std.specs.Prelude.{◌≡◌, IfOk, option_map};
ghost use Rattle.mbe_rewriter.specs.MacroItemViews.{front_item_shown};
ghost use Rattle.mbe_grammar.specs.Tables.Lawful.{grammar_of};
ghost use Rattle.mbe_tt.specs.Views.View.{trees};
ghost use Rattle.mbe_session.specs.CfgFront as spec;
ghost use Rattle.mbe_session.specs.SessionViews.{cfg_front_shown};

use mbe_cfg::cfg_options::CfgOptions;
use mbe_cfg::cfg_strip::{after_disabled_target, has_fault, is_disabled};
use mbe_grammar::tables::peg_table::RuleTable;
use mbe_rewriter::attributed_calls::front_item_with_attributes;
use mbe_rewriter::macro_items::{FrontItem, MacroCall, MacroDefinition, front_of};
use mbe_tt::tt::{TokenTreesView, TtElement};
use std::alloc::{AllocError, Allocator, Global};

#[derive(Drop)]
pub(crate) enum CfgFront<'t, A: Allocator = Global> {
    /// Disabled code: the attributes and their target. These trees follow it.
    Disabled(TokenTreesView<'t, A>),
    Definition(MacroDefinition<'t, A>),
    /// A call, with its attributes.
    MacroCall(MacroCall<'t, A>),
    /// Any other tree, and the trees after it.
    Tree(TtElement<'t, A>, TokenTreesView<'t, A>),
    End,
}

// Returns `rest` if it has fewer trees than `tokens`.
fn if_fewer<'t, A: Allocator>(
    tokens: TokenTreesView<'_, A>,
    rest: TokenTreesView<'t, A>,
) -> Option<TokenTreesView<'t, A>>
    ensures { option_map trees result ≡ spec.if_fewer (trees tokens.entry) (trees rest.entry) }
{
    if rest.flat_len() < tokens.flat_len() {
        Some(rest)
    } else {
        None
    }
}

// Returns the trees after the disabled code at the front, if there is any.
fn after_disabled<'t, A: Allocator>(
    grammar: &RuleTable<'_>,
    conditions: &CfgOptions<'_>,
    tokens: TokenTreesView<'t, A>,
) -> Result<Option<TokenTreesView<'t, A>>, AllocError>
    ensures { IfOk result (λ r. option_map trees r
        ≡ spec.disabled_by (grammar_of grammar.now) conditions.now (trees tokens.entry)) }
{
    if !is_disabled(conditions, tokens) {
        return Ok(None);
    }
    let rest = after_disabled_target(grammar, tokens)?;
    Ok(if_fewer(tokens, rest))
}

fn of_front<A: Allocator>(front: FrontItem<'_, A>) -> CfgFront<'_, A>
    ensures { cfg_front_shown result ≡ spec.of_front (front_item_shown front.entry) }
{
    match front {
        FrontItem::Definition(defined) => CfgFront::Definition(defined),
        FrontItem::MacroCall(call) => CfgFront::MacroCall(call),
        FrontItem::Tree(tree, rest) => CfgFront::Tree(tree, rest),
        FrontItem::End => CfgFront::End,
    }
}

// Returns what the trees begin with. Attributes with a fault are returned as trees of their own, so
// that the fault is reported there.
fn sound_front<'t, A: Allocator>(
    conditions: &CfgOptions<'_>,
    tokens: TokenTreesView<'t, A>,
) -> FrontItem<'t, A>
    ensures { front_item_shown result ≡ spec.sound_front conditions.now (trees tokens.entry) }
{
    if has_fault(conditions, tokens) {
        front_of(tokens)
    } else {
        front_item_with_attributes(tokens)
    }
}

/// Returns what these trees begin with. The grammar decides where an item ends, and `cfg`s are
/// evaluated under these conditions. `AllocError` if the grammar is out of memory.
pub(crate) fn cfg_front<'t, A: Allocator>(
    grammar: &RuleTable<'_>,
    conditions: &CfgOptions<'_>,
    tokens: TokenTreesView<'t, A>,
) -> Result<CfgFront<'t, A>, AllocError>
    ensures { IfOk result (λ p. cfg_front_shown p
        ≡ spec.cfg_front_by (grammar_of grammar.now) conditions.now (trees tokens.entry)) }
{
    match after_disabled(grammar, conditions, tokens)? {
        Some(rest) => Ok(CfgFront::Disabled(rest)),
        None => Ok(of_front(sound_front(conditions, tokens))),
    }
}
