// The choice of the rule. The rules of the call's style are tried in order, and the first one that
// applies expands the call. If none applies, the closest one gives the error and a tree beside it.
// In rustc's dialect, a rule may end the call: then it gives the error, and no later one is tried.
ghost use Rattle.std.specs.Prelude.{◌≡◌, ◌-◌, ◌^◌, ◌↔◌, min, IfOk, Some, None, IsSome, true};
ghost use Rattle.std.specs.Prelude.{IsTrue};
ghost use Rattle.mbe_semantics.specs.Expansion.Commitment.{Commits};
ghost use Rattle.mbe_tt.specs.Trees.Top.{top_group};
ghost use Rattle.mbe_tt.specs.Views.View.{group_of};
ghost use Rattle.mbe_tt.specs.Trees.Tree.{tree_count};
ghost use Rattle.mbe_semantics.specs.Expansion.Macro.{Expands, arm_of, empty_tree};
ghost use Rattle.mbe_semantics.specs.Expansion.Error.{no_matching_rule};
ghost use Rattle.mbe_semantics.specs.Laws.Callbacks.{MayMark};
ghost use Rattle.mbe_semantics.specs.Syntax.Nullable.{Checked};
ghost use Rattle.mbe_ops.specs.Errors.ErrorViews.{error_of, errors_of};
ghost use Rattle.mbe_ops.specs.Views.{template_of};
ghost use Rattle.mbe_matcher.specs.Fronts.{starts_with_wrong_token};
ghost use Rattle.mbe_parser.specs.RuleViews.{rule_of, rules_seen};
ghost use Rattle.mbe_semantics.specs.Bindings.Environment.{binding_total};
ghost use Rattle.mbe_bindings.specs.BindingViews.{env_of};
ghost use Rattle.mbe_transcriber.specs.PartialExpansion.{IsPartialExpansion};
ghost use Rattle.mbe.specs.RuleChoice.{AreChecked, IsRuleOutcome, IsChosen, IsRuleFailure};
ghost use Rattle.mbe.specs.RuleChoice.{is_nearer, nearer_of};
ghost use Rattle.mbe.specs.ClosestRule.{IsRecovered, Recovers};

use mbe_bindings::bindings::Bindings;
use mbe_log::log::BindingLog;
use mbe_matcher::commitment::commits;
use mbe_matcher::matcher::{Match, match_argument};
use mbe_matcher::prefilter::{error_at_start, starts_with_wrong_token};
use mbe_ops::errors::error::{ExpandError, ExpandErrorKind};
use mbe_ops::errors::value_result::{ExpandResult, MatchedArmIndex, ValueResult};
use mbe_parser::rules::Rule;
use mbe_semantics::macro_call_style::MacroCallStyle;
use mbe_transcriber::transcriber::transcribe;
use mbe_tt::grammar::{Dialect, FragmentGrammar};
use mbe_tt::span::{DelimSpan, Span};
use mbe_tt::tt::{SubtreeView, TopSubtree};
use std::alloc::{AllocError, Allocator};

// A call: the argument and everything else that the rules are tried with.
#[derive(Drop)]
struct CallContext<'a, A: Allocator, G, M> {
    alloc: A,
    grammar: &'a G,
    input: SubtreeView<'a, A>,
    marker: M,
    style: MacroCallStyle,
    site: Span,
}

// Why a rule doesn't apply, with what the answer needs if no rule does.
#[derive(Drop)]
enum RuleFailure<'a, A: Allocator> {
    // The match failed. Holds the bindings that it reports, and its first error.
    MatchFailed(Bindings<'a, A>, ExpandError<A>),
    // The substitution has a fault. Holds the tree that was written, and the first fault.
    Faulty(TopSubtree<A>, ExpandError<A>),
    // The pattern begins with another token than the argument. The error is made later, and only
    // for the closest rule.
    OtherStart,
}

// How near a rule came: the number of unmatched trees, and the number of bindings.
#[derive(Clone, Copy, Drop)]
struct Nearness {
    unmatched: usize,
    bound: u64,
}

impl Nearness {
    // Returns whether fewer trees are unmatched, or as many and more is bound.
    fn is_nearer(self, than: Nearness) -> bool
        ensures { result ≡ is_nearer self than }
    {
        self.unmatched < than.unmatched
            || self.unmatched == than.unmatched && self.bound > than.bound
    }
}

// A rule of the style that doesn't apply, with its index.
#[derive(Drop)]
struct Candidate<'a, A: Allocator> {
    idx: usize,
    rule: &'a Rule<A>,
    nearness: Nearness,
    failure: RuleFailure<'a, A>,
}

// The outcome of trying one rule of the style.
#[derive(Drop)]
enum RuleOutcome<'a, A: Allocator> {
    Applies(TopSubtree<A>),
    Fails(Nearness, RuleFailure<'a, A>),
}

// The outcome of trying all rules.
#[derive(Drop)]
enum RuleChoice<'a, A: Allocator> {
    NoRule,
    Expanded(TopSubtree<A>, MatchedArmIndex),
    // A rule of rustc's dialect ends the call.
    Ended(Candidate<'a, A>),
    Closest(Candidate<'a, A>),
}

// Expands a call by the first rule that applies. If none applies, the closest rule of the style
// gives the answer.
pub(crate) fn expand_rules<A: Allocator + Copy, G: FragmentGrammar, M: Fn(Span) -> Span + Copy>(
    alloc: A,
    grammar: &G,
    rules: &[Rule<A>],
    input: SubtreeView<'_, A>,
    marker: M,
    style: MacroCallStyle,
    site: Span,
) -> Result<ExpandResult<(TopSubtree<A>, MatchedArmIndex), A>, AllocError>
    requires checked { AreChecked (rules_seen rules.now) }
    requires may_mark { MayMark (M.pre marker) }
    ensures expands { IfOk result (λ r. Expands (G.grammar grammar.now) (M.post marker)
        (rules_seen rules.now) style (group_of input.entry).1 site
        (top_group r.value.0) r.value.1 (errors_of r.err)) }
    ensures recovers { IfOk result (λ r. Recovers (G.grammar grammar.now) site
        (group_of input.entry) (M.post marker) (rules_seen rules.now) style
        (top_group r.value.0) r.value.1 (errors_of r.err)) }
{
    let call = CallContext {
        alloc,
        grammar,
        input,
        marker,
        style,
        site,
    };
    let choice = choose(&call, rules)?;
    match choice {
        RuleChoice::Expanded(tree, index) => Ok(ValueResult {
            value: (tree, index),
            err: None,
        }),
        RuleChoice::Ended(candidate) => recovered(&call, candidate),
        RuleChoice::Closest(candidate) => recovered(&call, candidate),
        RuleChoice::NoRule => no_rule(alloc, site),
    }
}

// Tries the rules in order and returns the outcome.
fn choose<'a, A: Allocator + Copy, G: FragmentGrammar, M: Fn(Span) -> Span + Copy>(
    call: &CallContext<'a, A, G, M>,
    rules: &'a [Rule<A>],
) -> Result<RuleChoice<'a, A>, AllocError>
    requires checked { AreChecked (rules_seen rules.now) }
    requires may_mark { MayMark (M.pre call.now.marker) }
    ensures { IfOk result (IsChosen (G.grammar call.now.grammar.now) (M.post call.now.marker)
        call.now.style call.now.site (group_of call.now.input) (rules_seen rules.now)) }
{
    let trees = call.input.iter().remaining().len();
    let mut nearest: Option<Candidate<'_, A>> = None;
    for (idx, rule) in rules.iter().enumerate() {
        if rule.style != call.style {
            continue;
        }
        let outcome = try_rule(call, rule, trees)?;
        match outcome {
            RuleOutcome::Applies(tree) => {
                let index = arm_index(idx);
                return Ok(RuleChoice::Expanded(tree, index));
            }
            RuleOutcome::Fails(nearness, failure) => {
                let is_last = ends_call(call, rule, &failure)?;
                let next = Candidate {
                    idx,
                    rule,
                    nearness,
                    failure,
                };
                if is_last {
                    return Ok(RuleChoice::Ended(next));
                }
                keep_nearer(&mut nearest, next);
            }
        }
    }
    match nearest {
        Some(candidate) => Ok(RuleChoice::Closest(candidate)),
        None => Ok(RuleChoice::NoRule),
    }
}

// Whether no rule after this one is tried. It fails for that reason.
fn ends_call<'a, A: Allocator + Copy, G: FragmentGrammar, M: Fn(Span) -> Span + Copy>(
    call: &CallContext<'a, A, G, M>,
    rule: &'a Rule<A>,
    failure: &RuleFailure<'a, A>,
) -> Result<bool, AllocError>
    requires checked { Checked (template_of rule.now.lhs) }
    requires failure { IsRuleFailure (G.grammar call.now.grammar.now) (M.post call.now.marker)
        call.now.site (group_of call.now.input) (rule_of rule.now) failure.now }
    ensures { IfOk result (λ ends. IsTrue ends ↔ Commits (G.grammar call.now.grammar.now)
        (template_of rule.now.lhs) (group_of call.now.input).1) }
{
    match failure {
        RuleFailure::OtherStart => Ok(false),
        RuleFailure::Faulty(_, _) => Ok(call.grammar.dialect() == Dialect::Rustc),
        RuleFailure::MatchFailed(_, _) => {
            let argument = call.input.iter().remaining();
            commits(call.alloc, call.grammar, &rule.lhs, argument)
        }
    }
}

// Returns the index of a rule, if it fits 32 bits.
fn arm_index(idx: usize) -> MatchedArmIndex
    ensures { result ≡ arm_of idx }
{
    u32::try_from(idx).ok()
}

// Keeps the next candidate if it is closer than the best so far.
fn keep_nearer<'a, A: Allocator>(nearest: &mut Option<Candidate<'a, A>>, next: Candidate<'a, A>)
    ensures { nearest.new ≡ Some (nearer_of nearest.old next.entry) }
{
    if let Some(best) = &*nearest
        && !next.nearness.is_nearer(best.nearness)
    {
        return;
    }
    *nearest = Some(next);
}

// Tries one rule on an argument of so many trees.
fn try_rule<'a, A: Allocator + Copy, G: FragmentGrammar, M: Fn(Span) -> Span + Copy>(
    call: &CallContext<'a, A, G, M>,
    rule: &'a Rule<A>,
    trees: usize,
) -> Result<RuleOutcome<'a, A>, AllocError>
    requires checked { Checked (template_of rule.now.lhs) }
    requires trees { trees ≡ tree_count (group_of call.now.input).1 }
    requires may_mark { MayMark (M.pre call.now.marker) }
    ensures { IfOk result (IsRuleOutcome (G.grammar call.now.grammar.now) (M.post call.now.marker)
        call.now.site (group_of call.now.input) (rule_of rule.now)) }
{
    let dialect = call.grammar.dialect();
    if starts_with_wrong_token(dialect, &rule.lhs, call.input.iter().remaining()) {
        let nearness = Nearness {
            unmatched: trees,
            bound: 0,
        };
        return Ok(RuleOutcome::Fails(nearness, RuleFailure::OtherStart));
    }
    match_rule(call, rule)
}

// Matches one rule, and writes its template if the rule matches.
fn match_rule<'a, A: Allocator + Copy, G: FragmentGrammar, M: Fn(Span) -> Span + Copy>(
    call: &CallContext<'a, A, G, M>,
    rule: &'a Rule<A>,
) -> Result<RuleOutcome<'a, A>, AllocError>
    requires checked { Checked (template_of rule.now.lhs) }
    requires may_mark { MayMark (M.pre call.now.marker) }
    ensures { IfOk result (IsRuleOutcome (G.grammar call.now.grammar.now) (M.post call.now.marker)
        call.now.site (group_of call.now.input) (rule_of rule.now)) }
{
    let mut log = BindingLog::new(call.alloc);
    let argument = call.input.iter().remaining();
    let around = call.input.top_subtree().delimiter.delim_span();
    let matched = match_argument(
        call.alloc,
        call.grammar,
        &rule.lhs,
        argument,
        around,
        &mut log,
    )?;
    let Match {
        verdict: _,
        unmatched,
        bindings,
        err,
    } = matched;
    let bindings = Bindings::build(&log, &bindings)?;
    let nearness = nearness_of(unmatched, &bindings);
    if let Some(err) = err {
        return Ok(RuleOutcome::Fails(nearness, RuleFailure::MatchFailed(bindings, err)));
    }
    let written = transcribe(
        call.alloc,
        call.grammar,
        &rule.rhs,
        &bindings,
        call.marker,
        call.site,
    )?;
    let ValueResult { value, err } = written;
    match err {
        Some(fault) => Ok(RuleOutcome::Fails(nearness, RuleFailure::Faulty(value, fault))),
        None => Ok(RuleOutcome::Applies(value)),
    }
}

// Returns how near a match came that left so many trees and has these bindings.
fn nearness_of<A: Allocator>(unmatched: usize, bindings: &Bindings<'_, A>) -> Nearness
    ensures left { result.unmatched ≡ unmatched }
    ensures bound { result.bound ≡ min (binding_total (env_of bindings.now)) (2 ^ 64 - 1) }
{
    Nearness {
        unmatched,
        bound: bindings.count(),
    }
}

// Returns the answer of the closest rule, with its error.
fn recovered<A: Allocator + Copy, G: FragmentGrammar, M: Fn(Span) -> Span + Copy>(
    call: &CallContext<'_, A, G, M>,
    candidate: Candidate<'_, A>,
) -> Result<ExpandResult<(TopSubtree<A>, MatchedArmIndex), A>, AllocError>
    requires may_mark { MayMark (M.pre call.now.marker) }
    requires failure { IsRuleFailure (G.grammar call.now.grammar.now) (M.post call.now.marker)
        call.now.site (group_of call.now.input) (rule_of candidate.rule.now) candidate.failure }
    ensures index { IfOk result (λ r. r.value.1 ≡ arm_of candidate.entry.idx) }
    ensures recovered { IfOk result (λ r. IsRecovered (G.grammar call.now.grammar.now)
        call.now.site (group_of call.now.input) (M.post call.now.marker)
        (rule_of candidate.entry.rule.now) (top_group r.value.0) (errors_of r.err)) }
{
    let Candidate {
        idx,
        rule,
        nearness: _,
        failure,
    } = candidate;
    let index = arm_index(idx);
    match failure {
        RuleFailure::Faulty(tree, err) => Ok(ValueResult {
            value: (tree, index),
            err: Some(err),
        }),
        RuleFailure::MatchFailed(bound, err) => expand_with_error(call, rule, index, &bound, err),
        RuleFailure::OtherStart => recover_other_start(call, rule, index),
    }
}

// Returns the answer of a rule that begins with another token than the argument. Nothing is bound.
fn recover_other_start<A: Allocator + Copy, G: FragmentGrammar, M: Fn(Span) -> Span + Copy>(
    call: &CallContext<'_, A, G, M>,
    rule: &Rule<A>,
    index: MatchedArmIndex,
) -> Result<ExpandResult<(TopSubtree<A>, MatchedArmIndex), A>, AllocError>
    requires may_mark { MayMark (M.pre call.now.marker) }
    requires checked { Checked (template_of rule.now.lhs) }
    requires otherwise { starts_with_wrong_token (G.grammar call.now.grammar.now).dialect
        (template_of rule.now.lhs) (group_of call.now.input).1
        ≡ true }
    ensures index { IfOk result (λ r. r.value.1 ≡ index) }
    ensures recovered { IfOk result (λ r. IsRecovered (G.grammar call.now.grammar.now)
        call.now.site (group_of call.now.input) (M.post call.now.marker) (rule_of rule.now)
        (top_group r.value.0) (errors_of r.err)) }
{
    let argument = call.input.iter().remaining();
    let spans = call.input.top_subtree().delimiter.delim_span();
    let err = error_at_start(call.alloc, call.grammar, &rule.lhs, argument, spans)?;
    let bound = Bindings::new(call.alloc);
    expand_with_error(call, rule, index, &bound, err)
}

// Writes the template of a rule under these bindings, and returns the tree beside the error of the
// match.
fn expand_with_error<A: Allocator + Copy, G: FragmentGrammar, M: Fn(Span) -> Span + Copy>(
    call: &CallContext<'_, A, G, M>,
    rule: &Rule<A>,
    index: MatchedArmIndex,
    bindings: &Bindings<'_, A>,
    err: ExpandError<A>,
) -> Result<ExpandResult<(TopSubtree<A>, MatchedArmIndex), A>, AllocError>
    requires { MayMark (M.pre call.now.marker) }
    ensures index { IfOk result (λ r. r.value.1 ≡ index) }
    ensures err { IfOk result (λ r. errors_of r.err ≡ Some (error_of err)) }
    ensures left { IfOk result (λ r. IsPartialExpansion (G.grammar call.now.grammar.now)
        (M.post call.now.marker) call.now.site (env_of bindings.now)
        (template_of rule.now.rhs) (top_group r.value.0)) }
{
    let written = transcribe(
        call.alloc,
        call.grammar,
        &rule.rhs,
        bindings,
        call.marker,
        call.site,
    )?;
    let ValueResult { value, err: _ } = written;
    Ok(ValueResult {
        value: (value, index),
        err: Some(err),
    })
}

// Returns the answer for a call whose style no rule has.
fn no_rule<A: Allocator + Copy>(
    alloc: A,
    call_site: Span,
) -> Result<ExpandResult<(TopSubtree<A>, MatchedArmIndex), A>, AllocError>
    ensures tree { IfOk result (λ r. top_group r.value.0 ≡ empty_tree call_site) }
    ensures index { IfOk result (λ r. r.value.1 ≡ None) }
    ensures err { IfOk result (λ r. errors_of r.err
        ≡ Some (record { span = call_site; kind = no_matching_rule })) }
{
    let error = ExpandError::new(alloc, call_site, ExpandErrorKind::NoMatchingRule)?;
    let empty = TopSubtree::empty(alloc, DelimSpan::from_single(call_site))?;
    Ok(ValueResult {
        value: (empty, None),
        err: Some(error),
    })
}
