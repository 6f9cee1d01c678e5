// What a rule expects at the offset where its match of an argument stops.
ghost use Rattle.std.specs.Prelude.{◌<◌, length, map, option_map, IfOk};
ghost use Rattle.mbe_matcher.specs.MatchResults.{verdict_seen};
ghost use Rattle.mbe_matcher.specs.Expected.{expected_seen, pair_seen};
ghost use Rattle.mbe_semantics.specs.Expansion.Macro.{IsChecked};
ghost use Rattle.mbe.specs.RuleExplanation.{Explains, ExpectedThere, AmbiguousThere};

use crate::macros::DeclarativeMacro;
use mbe_log::log::BindingLog;
use mbe_matcher::expectations::{Expectations, expectations_of};
use mbe_tt::grammar::FragmentGrammar;
use mbe_tt::tt::TopSubtree;
use std::alloc::{AllocError, Allocator};

impl<A: Allocator + Copy> DeclarativeMacro<A> {
    ghost use Rattle.mbe.specs.MacroViews.{macro_of};

    /// Returns what the rule with this index expects at the offset of its verdict on an argument,
    /// whatever the rule's style and template.
    ///
    /// It requires what `explain` requires, and returns the verdict of `explain`.
    ///
    /// `expected` lists what comes next in the pattern after each partial reading that ends at the
    /// offset of the verdict. That offset is the argument's end if there are readings and no
    /// ambiguity. An element is a token, a variable or a group of the pattern, a separator, the end
    /// of a group, or the end of the argument. The list is complete and has nothing else, but an
    /// element may be in it twice.
    ///
    /// If the verdict is `Ambiguous`, `ambiguity` has the two elements of the local ambiguity: a
    /// partial reading can continue with each of them. Else it is `None`.
    ///
    /// The only failure is `AllocError`, if out of memory here or in the grammar.
    pub fn expectations<'a, G: FragmentGrammar>(
        &'a self,
        alloc: A,
        grammar: &G,
        tt: &'a TopSubtree<A>,
        rule: usize,
    ) -> Result<Expectations<'a, A>, AllocError>
        requires checked { IsChecked (macro_of self.now) }
        requires rule { rule < length (macro_of self.now).rules }
        ensures explains { IfOk result (λ w. Explains (G.grammar grammar.now)
            (macro_of self.now).rules tt.now.1 rule (verdict_seen w.verdict)) }
        ensures expectations { IfOk result (λ w. ExpectedThere (G.grammar grammar.now)
            (macro_of self.now).rules tt.now.1 rule (verdict_seen w.verdict)
            (map expected_seen w.expected.items)) }
        ensures are_ambiguous { IfOk result (λ w. AmbiguousThere (G.grammar grammar.now)
            (macro_of self.now).rules tt.now.1 rule (verdict_seen w.verdict)
            (option_map pair_seen w.ambiguity)) }
    {
        let mut log = BindingLog::new(alloc);
        let argument = tt.iter().remaining();
        let rule = &self.rules[rule];
        expectations_of(alloc, grammar, &rule.lhs, argument, &mut log)
    }
}
