// A caller whose own contract comes from that of `expand`.
ghost use Rattle.std.specs.Prelude.{ℕ, Contains, IfOk, IfSome, IsNone};
ghost use Rattle.mbe_semantics.specs.Syntax.Definition.{Rule};
ghost use Rattle.mbe_semantics.specs.Expansion.Expansion.{Applies, IsExpansion, NoneEnds};
ghost use Rattle.mbe_semantics.specs.declared.macro_call_style.MacroCallStyle.TheVariants.{FnLike};
ghost use Rattle.mbe_semantics.specs.Laws.Callbacks.{MayMark};
ghost use Rattle.mbe_tt.specs.Trees.Top.{top_group};
ghost use Rattle.mbe.specs.CheckedViews.{checked_of};

use mbe::{CheckedMacro, MacroCallStyle};
use mbe_tt::grammar::FragmentGrammar;
use mbe_tt::span::Span;
use mbe_tt::tt::TopSubtree;
use std::alloc::{AllocError, Allocator};

/// The tree that the first rule makes which applies to a call. If no rule ends the call, there is
/// none only where no rule applies.
pub fn applied<A: Allocator + Copy, G: FragmentGrammar, M: Fn(Span) -> Span + Copy>(
    alloc: A,
    grammar: &G,
    defined: &CheckedMacro<A>,
    argument: &TopSubtree<A>,
    marker: M,
    call_site: Span,
) -> Result<Option<TopSubtree<A>>, AllocError>
    requires may_mark { MayMark (M.pre marker) }
    ensures some { IfOk result (λ found. IfSome found (λ tree. (n : ℕ)
        × IsExpansion (G.grammar grammar.now) FnLike argument.now.1 (M.post marker) call_site
        (checked_of defined.now).rules n (top_group tree))) }
    ensures none { IfOk result (λ found. IsNone found
        → NoneEnds (G.grammar grammar.now) FnLike argument.now.1 (checked_of defined.now).rules
        → (rule : Rule) → Contains (checked_of defined.now).rules rule
        → Applies (G.grammar grammar.now) FnLike argument.now.1 rule → ⊥) }
{
    let style = MacroCallStyle::FnLike;
    let defined = defined.as_macro();
    let expanded = defined.expand(alloc, grammar, argument, marker, style, call_site)?;
    match expanded.err {
        Some(_) => Ok(None),
        None => Ok(Some(expanded.value.0)),
    }
}

pub mod tests {
    use super::applied;
    use crate::calling::expansions::read;
    use mbe::CheckedMacro;
    use mbe_grammar::SampleGrammar;
    use mbe_text::lexer::lex;
    use std::alloc::Global;
    use test_rows::rows;

    // Each row: an argument, and how many flat tokens its expansion has, if a rule applies.
    pub const CALLS: &str = rows![("a", 2), ("a b", 1), ("a 1", "none"), ("a b c", "none")];

    // Returns how many flat tokens the expansion of a call has. `None` if no rule applies.
    fn counted(alloc: Global, defined: &CheckedMacro, argument: &str) -> Option<Option<usize>> {
        if argument.len() > 1_000_000 {
            return None;
        }
        let argument = lex(alloc, argument, 1).ok()?;
        let call_site = argument.top_subtree().delimiter.opening;
        match applied(alloc, &SampleGrammar, defined, &argument, |s| s, call_site).ok()? {
            Some(tree) => Some(Some(tree.iter().remaining().flat_len())),
            None => Some(None),
        }
    }

    /// Whether the expansion of a call has that many flat tokens. A count that is no number means
    /// that no rule applies.
    pub fn becomes(alloc: Global, argument: &str, count: &str) -> Option<bool> {
        let rules = "($x:ident) => {let $x}; ($x:ident $y:ident) => {$y}";
        let defined = read(alloc, rules).ok()?.checked().ok()?;
        Some(counted(alloc, &defined, argument)? == count.parse::<usize>().ok())
    }
}
