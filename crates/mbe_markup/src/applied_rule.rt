// Finds the rule that expands a call.
ghost use Rattle.mbe_semantics.specs.Expansion.Macro.{IsChecked};
ghost use Rattle.mbe.specs.MacroViews.{macro_of};

use mbe::{DeclarativeMacro, MacroCallStyle, ValueResult};
use mbe_tt::grammar::FragmentGrammar;
use mbe_tt::span::Span;
use mbe_tt::tt::TopSubtree;
use std::alloc::{AllocError, Global};

/// Returns the index of the rule that expands a call with that argument, whose path begins at
/// `start`. `None` if no rule does. `AllocError` if out of memory.
pub fn applied_rule<G: FragmentGrammar>(
    alloc: Global,
    grammar: &G,
    rules: &DeclarativeMacro,
    argument: &TopSubtree,
    start: Span,
) -> Result<Option<usize>, AllocError>
    requires checked { IsChecked (macro_of rules.now) }
{
    let ValueResult { value, err } = rules.expand(
        alloc,
        grammar,
        argument,
        |span: Span| span,
        MacroCallStyle::FnLike,
        start,
    )?;
    let (_tree, index) = value;
    match (err, index) {
        (None, Some(index)) => Ok(Some(index as usize)),
        (None, None) | (Some(_), _) => Ok(None),
    }
}
