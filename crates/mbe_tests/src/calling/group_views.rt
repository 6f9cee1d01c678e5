// Calls whose argument is a group within a larger buffer.
use crate::calling::expansions::Expansion;
use mbe::{CheckedMacro, MacroCallStyle, Verdict};
use mbe_grammar::SampleGrammar;
use mbe_tt::tt::SubtreeView;
use std::alloc::{AllocError, Allocator};

/// Expands a call whose argument is a group of a file's trees, say, which isn't copied before.
pub fn expand_group<A: Allocator + Copy>(
    alloc: A,
    defined: &CheckedMacro<A>,
    group: SubtreeView<'_, A>,
) -> Result<Expansion<A>, AllocError> {
    let call_site = group.top_subtree().delimiter.opening;
    let style = MacroCallStyle::FnLike;
    let defined = defined.as_macro();
    defined.expand_view(alloc, &SampleGrammar, group, |s| s, style, call_site)
}

/// Whether the first rule fits a group.
pub fn fits_group<A: Allocator + Copy>(
    alloc: A,
    defined: &CheckedMacro<A>,
    group: SubtreeView<'_, A>,
) -> Result<bool, AllocError> {
    let defined = defined.as_macro();
    if defined.num_rules() == 0 {
        return Ok(false);
    }
    let verdict = defined.explain_view(alloc, &SampleGrammar, group, 0)?;
    Ok(matches!(verdict, Verdict::OneReading))
}

pub mod tests {
    use super::{expand_group, fits_group};
    use crate::calling::expansions::{read, tree_or_error};
    use mbe::CheckedMacro;
    use mbe_text::lexer::lex;
    use mbe_tt::tt::{SubtreeView, TopSubtree};
    use std::alloc::Global;

    const RULES: &str = "($x:ident) => {let $x}; ($x:ident $y:ident) => {$y}";

    const TREE: &str = "SUBTREE $$ 1@4..5 1@4..5\n  IDENT   let 0@15..18\n  IDENT   a 1@5..6\n";

    // Returns the third tree, if it is a group.
    fn third(trees: &TopSubtree) -> Option<SubtreeView<'_>> {
        let mut iter = trees.iter();
        let _name = iter.next()?;
        let _bang = iter.next()?;
        iter.next_as_view()?.try_into_subtree()
    }

    fn is_expanded(alloc: Global, defined: &CheckedMacro, group: SubtreeView<'_>) -> Option<bool> {
        let expansion = expand_group(alloc, defined, group).ok()?;
        Some(tree_or_error(alloc, expansion).ok()?.as_str() == TREE)
    }

    pub fn is_group_expanded(alloc: Global) -> Option<bool> {
        let defined = read(alloc, RULES).ok()?.checked().ok()?;
        let trees = lex(alloc, "m ! (a) b", 1).ok()?;
        let group = third(&trees)?;
        Some(fits_group(alloc, &defined, group).ok()? && is_expanded(alloc, &defined, group)?)
    }
}
