// Macro definitions: `DeclarativeMacro` is parsed from trees, and expands calls or explains how a
// rule matches. `expander` chooses the rule. Other crates parse, match and write.
ghost use Rattle.std.specs.Prelude.{◌≡◌, ◌<◌, [], length, option_map, Option, Some, IfOk};
ghost use Rattle.mbe_semantics.specs.Syntax.Template.{Fault};
ghost use Rattle.mbe_semantics.specs.Syntax.Definition.{with_refusal};
ghost use Rattle.mbe_parser.specs.RuleViews.{rules_seen};
ghost use Rattle.mbe_parser.specs.Refusals.{refusal_of};
ghost use Rattle.mbe_ops.specs.Errors.ErrorViews.{parse_error_of, errors_of};
ghost use Rattle.mbe_semantics.specs.Expansion.Macro.{style_bits, ReportsRefusal, IsChecked};
ghost use Rattle.mbe_semantics.specs.Expansion.Macro.{Expands};
ghost use Rattle.mbe_matcher.specs.MatchResults.{verdict_seen};
ghost use Rattle.mbe.specs.RuleExplanation.{Explains, CommitsThere};
ghost use Rattle.mbe.specs.ClosestRule.{Recovers};
ghost use Rattle.mbe.specs.Styles.{bits_of};
ghost use Rattle.mbe_tt.specs.Trees.Top.{top_group};
ghost use Rattle.mbe_semantics.specs.Laws.Callbacks.{MayMark, MayAsk};

mod argument_view;
mod equality;
mod rule_bindings;
mod rule_expectations;

use crate::macro_call_style::MacroCallStyles;
use crate::macros::argument_view::whole_view;
use bitflags::Flags;
use mbe_matcher::commitment::commits;
use mbe_matcher::matcher::Verdict;
use mbe_ops::errors::error::{ParseError, SyntaxFault};
use mbe_ops::errors::value_result::{ExpandResult, MatchedArmIndex};
use mbe_parser::refusal::{DefinitionRefusal, why_one_refused, why_refused};
use mbe_parser::rules::{Rule, parse_one_rule, parse_rules};
use mbe_semantics::macro_call_style::MacroCallStyle;
use mbe_tt::grammar::FragmentGrammar;
use mbe_tt::span::{Edition, Span, SyntaxContext};
use mbe_tt::tt::TopSubtree;
use std::alloc::{AllocError, Allocator, Global};

// Returns the error that reports a refusal.
fn refusal_error<A: Allocator + Copy>(
    alloc: A,
    why: Option<DefinitionRefusal>,
) -> Result<Option<ParseError<A>>, AllocError>
    ensures { IfOk result (λ err. option_map parse_error_of err ≡ option_map refusal_of why) }
{
    match why {
        Some(why) => Ok(Some(why.error(alloc)?)),
        None => Ok(None),
    }
}

/// A parsed macro definition: its rules up to the first fault, and that fault (as in
/// rust-analyzer).
///
/// Contracts see it by `macro_of`, as a list of rules and a fault or none.
#[derive(Drop)]
#[derive_where(Debug)]
pub struct DeclarativeMacro<A: Allocator = Global> {
    rules: Vec<Rule<A>, A>,
    err: Option<ParseError<A>>,
    ghost tells_refusal: { ReportsRefusal (record {
      rules = rules_seen rules.items;
      err = option_map parse_error_of err;
    }) },
}

impl<A: Allocator + Copy> DeclarativeMacro<A> {
    ghost use Rattle.mbe.specs.MacroViews.{macro_of};
    ghost use Rattle.mbe_semantics.specs.Expansion.ParsedMacro.{IsParsedRules, IsParsedMacro};

    /// Makes a macro without rules that has this error. Use it if the rules of a definition can't
    /// even be found.
    pub fn from_err(alloc: A, err: ParseError<A>) -> DeclarativeMacro<A>
        ensures { macro_of result ≡ record { rules = []; err = Some (parse_error_of err) } }
    {
        DeclarativeMacro {
            rules: Vec::new(alloc),
            err: Some(err),
        }
    }

    /// Parses the rules of a `macro_rules!` definition. They are separated by `;`, and a last `;`
    /// is optional.
    ///
    /// `tt` holds the rules alone, without the name and the braces around them. `ctx_edition`
    /// returns the edition of a context. It decides what `pat` and `expr` mean, by the context of
    /// the specifier's own span.
    ///
    /// A rule is an optional `unsafe`, an optional `attr` or `derive` with a group after it, the
    /// pattern's group, `=>`, and the template's group. The macro keeps the rules before the first
    /// fault, and its `err` is that fault. If a pattern that was kept has a repetition without a
    /// separator whose body can match no token, `err` is `RepetitionEmptyTokenTree` instead.
    /// `AllocError` if out of memory, and if more than `NESTING_LIMIT` groups and repetitions are
    /// nested.
    ///
    /// The function follows the grammar in the Rust Reference ("Macros By Example") as
    /// rust-analyzer does. Two choices are this project's own: a stray token after a rule is always
    /// reported, and every repetition without a separator that can match no token is refused.
    pub fn parse_macro_rules<E: Copy + Fn(SyntaxContext) -> Edition>(
        alloc: A,
        tt: &TopSubtree<A>,
        ctx_edition: E,
    ) -> Result<DeclarativeMacro<A>, AllocError>
        requires { MayAsk (E.pre ctx_edition) }
        ensures { IfOk result (λ m. IsParsedRules (E.post ctx_edition) tt.now.1 (macro_of m)) }
    {
        let (rules, found) = parse_rules(
            alloc,
            ctx_edition,
            tt.iter(),
            &[';'],
            SyntaxFault::ExpectedSemicolon,
        )?;
        DeclarativeMacro::from_rules(alloc, rules, why_refused(found))
    }

    /// Parses a `macro` definition.
    ///
    /// Without `args`, `body` holds rules like those of `macro_rules!`, separated by `;` or `,`.
    /// With `args` there is one rule of style `FnLike`: its pattern is the trees of `args`, and its
    /// template is the trees of `body`. Errors are reported as by `parse_macro_rules`. `AllocError`
    /// if out of memory.
    pub fn parse_macro2<E: Copy + Fn(SyntaxContext) -> Edition>(
        alloc: A,
        args: Option<&TopSubtree<A>>,
        body: &TopSubtree<A>,
        ctx_edition: E,
    ) -> Result<DeclarativeMacro<A>, AllocError>
        requires { MayAsk (E.pre ctx_edition) }
        ensures { IfOk result (λ m. IsParsedMacro (E.post ctx_edition)
            (option_map (λ trees. trees.now.1) args.entry) body.now.1 (macro_of m)) }
    {
        match args {
            Some(args) => {
                let (rules, found) = parse_one_rule(alloc, ctx_edition, args.iter(), body.iter())?;
                DeclarativeMacro::from_rules(alloc, rules, why_one_refused(found))
            }
            None => {
                let (rules, found) = parse_rules(
                    alloc,
                    ctx_edition,
                    body.iter(),
                    &[';', ','],
                    SyntaxFault::ExpectedSeparator,
                )?;
                DeclarativeMacro::from_rules(alloc, rules, why_refused(found))
            }
        }
    }

    // Makes the macro of these rules, and of why they are refused, if they are.
    fn from_rules(
        alloc: A,
        rules: Vec<Rule<A>, A>,
        why: Option<DefinitionRefusal>,
    ) -> Result<DeclarativeMacro<A>, AllocError>
        requires { (first : Option Fault)
            × (option_map refusal_of why ≡ with_refusal (rules_seen rules.items) first) }
        ensures { IfOk result (λ m. macro_of m ≡ record {
          rules = rules_seen rules.items;
          err = option_map refusal_of why;
        }) }
    {
        let err = refusal_error(alloc, why)?;
        Ok(DeclarativeMacro { rules, err })
    }

    /// Expands a call. The rule is the first one that has the call's style, matches the whole
    /// argument, and has a template that is written without a fault.
    ///
    /// It requires that no pattern was refused. So `err` isn't `RepetitionEmptyTokenTree`, or there
    /// is no rule.
    ///
    /// - `tt` is the argument: the trees inside its group are matched.
    /// - `grammar` says what the fragments of most kinds are.
    /// - `marker` returns the span for a token of the template, from the token's own span.
    ///   Fragments keep their spans.
    /// - `call_site` is the span of the group around the expansion. The integers of `${count(..)}`,
    ///   `${index(..)}` and `${len(..)}` have it too, and the `::` that a path gets.
    ///
    /// Returns the expansion as a token tree, with the index of its rule among all rules of the
    /// definition, if that fits 32 bits. A rule matches if it has exactly one reading of the whole
    /// argument and no local ambiguity.
    ///
    /// If no rule applies, there is an error beside the tree:
    ///
    /// - Some rule has the style: the index is the closest rule's. The closest rule has the fewest
    ///   unmatched trees. Ties go to the most bindings, then to the lower index. The tree is its
    ///   expansion under the bindings that its match reports. The error is the first one of the
    ///   match, or of the expansion.
    /// - No rule has the style: the tree is empty, there is no index, and the error is
    ///   `NoMatchingRule` at the call site.
    ///
    /// The only failure is `AllocError`, if out of memory here or in the grammar. The macro and the
    /// argument never change.
    ///
    /// Rules are tried in rust-analyzer's order. A rule that matches, but whose template has a
    /// fault, doesn't end the search. In the Rust Reference it does.
    pub fn expand<G: FragmentGrammar, M: Fn(Span) -> Span + Copy>(
        &self,
        alloc: A,
        grammar: &G,
        tt: &TopSubtree<A>,
        marker: M,
        call_style: MacroCallStyle,
        call_site: Span,
    ) -> Result<ExpandResult<(TopSubtree<A>, MatchedArmIndex), A>, AllocError>
        requires checked { IsChecked (macro_of self.now) }
        requires may_mark { MayMark (M.pre marker) }
        ensures expands { IfOk result (λ r. Expands (G.grammar grammar.now) (M.post marker)
            (macro_of self.now).rules call_style tt.now.1 call_site
            (top_group r.value.0) r.value.1 (errors_of r.err)) }
        ensures recovers { IfOk result (λ r. Recovers (G.grammar grammar.now) call_site tt.now
            (M.post marker) (macro_of self.now).rules call_style
            (top_group r.value.0) r.value.1 (errors_of r.err)) }
    {
        let whole_view = whole_view(tt);
        self.expand_view(alloc, grammar, whole_view, marker, call_style, call_site)
    }

    /// Returns the verdict of the rule with this index on an argument, whatever the rule's style
    /// and template.
    ///
    /// It requires what `expand` requires, and that `rule` is less than `num_rules`. `tt` is the
    /// argument: the trees inside its group are matched. `grammar` says what the fragments of most
    /// kinds are.
    ///
    /// - `Ambiguous`: the first offset of the argument with a local ambiguity.
    /// - `OneReading`, `ManyReadings`: no local ambiguity; the number of readings of the whole
    ///   argument.
    /// - `Stuck`: no local ambiguity and no reading; the greatest offset that a partial reading
    ///   reaches.
    ///
    /// `expand` uses a rule only with `OneReading`.
    ///
    /// An offset is the number of flat tokens before a point, inside the argument's group. A leaf
    /// counts one. A group counts two, its opening and its closing, and the tokens inside it.
    ///
    /// The only failure is `AllocError`, if out of memory here or in the grammar. The macro and the
    /// argument never change. The rule is matched and nothing is written, so this takes no longer
    /// than `expand` takes for that rule.
    ///
    /// Verdicts are this project's own. rust-analyzer only reports the error of an expansion.
    pub fn explain<G: FragmentGrammar>(
        &self,
        alloc: A,
        grammar: &G,
        tt: &TopSubtree<A>,
        rule: usize,
    ) -> Result<Verdict, AllocError>
        requires checked { IsChecked (macro_of self.now) }
        requires rule { rule < length (macro_of self.now).rules }
        ensures explains { IfOk result (λ verdict. Explains (G.grammar grammar.now)
            (macro_of self.now).rules tt.now.1 rule (verdict_seen verdict)) }
    {
        self.explain_view(alloc, grammar, whole_view(tt), rule)
    }

    /// Returns whether a call with this argument ends at the rule with this index, even if the rule
    /// doesn't apply. Then `expand` tries no later rule. It returns `false` in rust-analyzer's
    /// dialect.
    ///
    /// It requires what `explain` requires. In rustc's dialect, a call ends at a rule if one of
    /// these holds:
    ///
    /// - the match has a local ambiguity or several readings;
    /// - a fragment begins and has a fault inside;
    /// - the rule matches, and its substitution has a fault.
    ///
    /// The only failure is `AllocError`, if out of memory here or in the grammar.
    pub fn commits<G: FragmentGrammar>(
        &self,
        alloc: A,
        grammar: &G,
        tt: &TopSubtree<A>,
        rule: usize,
    ) -> Result<bool, AllocError>
        requires checked { IsChecked (macro_of self.now) }
        requires rule { rule < length (macro_of self.now).rules }
        ensures { IfOk result (CommitsThere (G.grammar grammar.now)
            (macro_of self.now).rules tt.now.1 rule) }
    {
        let rule = &self.rules[rule];
        let argument = tt.iter().remaining();
        commits(alloc, grammar, &rule.lhs, argument)
    }
}

impl<A: Allocator> DeclarativeMacro<A> {
    ghost use Rattle.mbe.specs.MacroViews.{macro_of};

    /// Returns the error of the definition, if it has one: a refused pattern, or the first fault in
    /// reading order.
    pub fn err(&self) -> Option<&ParseError<A>>
        ensures { option_map (λ e. parse_error_of e.now) result ≡ (macro_of self.now).err }
    {
        self.err.as_ref()
    }

    /// Returns the number of rules that were kept: those before the first fault.
    pub fn num_rules(&self) -> usize
        ensures { result ≡ length (macro_of self.now).rules }
    {
        self.rules.len()
    }

    /// Returns the styles of the rules that were kept. Without rules it is `FN_LIKE`.
    pub fn rule_styles(&self) -> MacroCallStyles
        ensures { bits_of result ≡ style_bits (macro_of self.now).rules }
    {
        if self.rules.is_empty() {
            return MacroCallStyles::FN_LIKE;
        }
        let mut styles = MacroCallStyles::empty();
        for rule in &self.rules {
            styles.insert(MacroCallStyles::from(rule.style));
        }
        styles
    }
}
