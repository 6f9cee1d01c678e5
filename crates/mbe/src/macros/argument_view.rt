// Calls whose argument is a group inside a larger buffer. A view shows the group, so nothing is
// copied.
ghost use Rattle.std.specs.Prelude.{◌≡◌, ◌<◌, length, IfOk};
ghost use Rattle.mbe_ops.specs.Errors.ErrorViews.{errors_of};
ghost use Rattle.mbe_matcher.specs.MatchResults.{verdict_seen};
ghost use Rattle.mbe_semantics.specs.Expansion.Macro.{IsChecked, Expands};
ghost use Rattle.mbe_semantics.specs.Laws.Callbacks.{MayMark};
ghost use Rattle.mbe_tt.specs.Trees.Top.{top_group};
ghost use Rattle.mbe_tt.specs.Views.View.{group_of};
ghost use Rattle.mbe.specs.RuleExplanation.{Explains};
ghost use Rattle.mbe.specs.ClosestRule.{Recovers};

use crate::expander::expand_rules;
use crate::macros::DeclarativeMacro;
use mbe_log::log::BindingLog;
use mbe_matcher::matcher::{Verdict, match_argument};
use mbe_ops::errors::value_result::{ExpandResult, MatchedArmIndex};
use mbe_semantics::macro_call_style::MacroCallStyle;
use mbe_tt::grammar::FragmentGrammar;
use mbe_tt::span::Span;
use mbe_tt::tt::{SubtreeView, TopSubtree};
use std::alloc::{AllocError, Allocator};

// Returns a view of the group that a buffer holds.
pub(crate) fn whole_view<A: Allocator>(tree: &TopSubtree<A>) -> SubtreeView<'_, A>
    ensures { group_of result ≡ tree.now }
{
    let Some(group) = tree.view().try_into_subtree() else {
        unreachable!()
    };
    group
}

impl<A: Allocator + Copy> DeclarativeMacro<A> {
    ghost use Rattle.mbe.specs.MacroViews.{macro_of};

    /// Expands a call as `expand` does. A view shows the argument, so it needn't be copied.
    pub fn expand_view<G: FragmentGrammar, M: Fn(Span) -> Span + Copy>(
        &self,
        alloc: A,
        grammar: &G,
        tt: SubtreeView<'_, A>,
        marker: M,
        call_style: MacroCallStyle,
        call_site: Span,
    ) -> Result<ExpandResult<(TopSubtree<A>, MatchedArmIndex), A>, AllocError>
        requires checked { IsChecked (macro_of self.now) }
        requires may_mark { MayMark (M.pre marker) }
        ensures expands { IfOk result (λ r. Expands (G.grammar grammar.now) (M.post marker)
            (macro_of self.now).rules call_style (group_of tt.entry).1 call_site
            (top_group r.value.0) r.value.1 (errors_of r.err)) }
        ensures recovers { IfOk result (λ r. Recovers (G.grammar grammar.now) call_site
            (group_of tt.entry) (M.post marker) (macro_of self.now).rules call_style
            (top_group r.value.0) r.value.1 (errors_of r.err)) }
    {
        expand_rules(
            alloc,
            grammar,
            &self.rules,
            tt,
            marker,
            call_style,
            call_site,
        )
    }

    /// Returns the verdict on an argument that a view shows, as `explain` does.
    pub fn explain_view<G: FragmentGrammar>(
        &self,
        alloc: A,
        grammar: &G,
        tt: SubtreeView<'_, A>,
        rule: usize,
    ) -> Result<Verdict, AllocError>
        requires checked { IsChecked (macro_of self.now) }
        requires rule { rule < length (macro_of self.now).rules }
        ensures explains { IfOk result (λ verdict. Explains (G.grammar grammar.now)
            (macro_of self.now).rules (group_of tt.entry).1 rule (verdict_seen verdict)) }
    {
        let mut log = BindingLog::new(alloc);
        let argument = tt.iter().remaining();
        let around = tt.top_subtree().delimiter.delim_span();
        let rule = &self.rules[rule];
        let matched = match_argument(alloc, grammar, &rule.lhs, argument, around, &mut log)?;
        Ok(matched.verdict)
    }
}
