// The pattern and the template of a rule, and the bindings of a rule that matches an argument.
ghost use Rattle.std.specs.Prelude.{◌<◌, length, option_map, IfOk};
ghost use Rattle.mbe_ops.specs.Views.{template_of};
ghost use Rattle.mbe_bindings.specs.BindingViews.{env_of};
ghost use Rattle.mbe_semantics.specs.Expansion.Macro.{IsChecked};
ghost use Rattle.mbe.specs.RuleExplanation.{BindsThere, HasPattern, HasTemplate};

use crate::macros::DeclarativeMacro;
use mbe_bindings::bindings::Bindings;
use mbe_log::log::BindingLog;
use mbe_matcher::matcher::{Verdict, match_argument};
use mbe_ops::ops::MetaTemplate;
use mbe_tt::grammar::FragmentGrammar;
use mbe_tt::tt::TopSubtree;
use std::alloc::{AllocError, Allocator};

impl<A: Allocator> DeclarativeMacro<A> {
    ghost use Rattle.mbe.specs.MacroViews.{macro_of};

    /// Returns the pattern of the rule with this index, which is less than `num_rules`.
    pub fn pattern(&self, rule: usize) -> &MetaTemplate<A>
        requires rule { rule < length (macro_of self.now).rules }
        ensures { HasPattern (macro_of self.now).rules rule (template_of result.now) }
    {
        let found = &self.rules[rule];
        &found.lhs
    }

    /// Returns the template of the rule with this index, which is less than `num_rules`.
    pub fn template(&self, rule: usize) -> &MetaTemplate<A>
        requires rule { rule < length (macro_of self.now).rules }
        ensures { HasTemplate (macro_of self.now).rules rule (template_of result.now) }
    {
        let found = &self.rules[rule];
        &found.rhs
    }
}

impl<A: Allocator + Copy> DeclarativeMacro<A> {
    ghost use Rattle.mbe.specs.MacroViews.{macro_of};

    /// Returns what the rule with this index binds if it matches an argument, whatever the rule's
    /// style and template. `None` if the rule doesn't match.
    ///
    /// It requires what `explain` requires. A rule matches if the verdict of `explain` is
    /// `OneReading`, and the bindings are those of that reading. Each name of the pattern is bound
    /// as deep as the repetitions around its variable. A name in a repetition without rounds is
    /// bound to `Binding::Empty`. No name is bound to `Binding::Missing`.
    ///
    /// The only failure is `AllocError`, if out of memory here or in the grammar.
    pub fn bindings<'a, G: FragmentGrammar>(
        &'a self,
        alloc: A,
        grammar: &G,
        tt: &'a TopSubtree<A>,
        rule: usize,
    ) -> Result<Option<Bindings<'a, A>>, AllocError>
        requires checked { IsChecked (macro_of self.now) }
        requires rule { rule < length (macro_of self.now).rules }
        ensures binds { IfOk result (λ b. BindsThere (G.grammar grammar.now)
            (macro_of self.now).rules tt.now.1 rule (option_map env_of b)) }
    {
        let mut log = BindingLog::new(alloc);
        let argument = tt.iter().remaining();
        let around = tt.top_subtree().delimiter.delim_span();
        let rule = &self.rules[rule];
        let matched = match_argument(alloc, grammar, &rule.lhs, argument, around, &mut log)?;
        match matched.verdict {
            Verdict::OneReading => Ok(Some(Bindings::build(&log, &matched.bindings)?)),
            Verdict::ManyReadings | Verdict::Ambiguous(_) | Verdict::Stuck(_) => Ok(None),
        }
    }
}
