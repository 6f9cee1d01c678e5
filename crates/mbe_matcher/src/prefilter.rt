// A prefilter: a look at the pattern's first op before a match.
//
// If the first op doesn't fit the argument's first trees, the match is stuck at offset 0, whatever
// follows that op. Most rules of a large macro fail on their first op. The prefilter finds such a
// rule before any thread is set up.
ghost use Rattle.std.specs.Prelude.{◌≡◌, IfOk, IfSome, OnOk, Some, None, true};
ghost use Rattle.mbe_tt.specs.Grammars.Grammar.{Grammar, IsLawful};
ghost use Rattle.mbe_tt.specs.Views.View.{trees};
ghost use Rattle.mbe_semantics.specs.Syntax.Nullable.{Checked};
ghost use Rattle.mbe_semantics.specs.Readings.Verdict.{IsVerdict, stuck, unmatched};
ghost use Rattle.mbe_semantics.specs.Fragments.FragmentFront.{fragment_front};
ghost use Rattle.mbe_semantics.specs.Bindings.Account.{no_commands};
ghost use Rattle.mbe_ops.specs.Errors.ErrorViews.{error_of, errors_of};
ghost use Rattle.mbe_log.specs.HandleChanges.{KeepsHandles};
ghost use Rattle.mbe_ops.specs.Views.{op_of, ops_of, template_of};
ghost use Rattle.mbe_matcher.specs.Fronts.{Mismatches, StartsWithMismatch, is_token};
ghost use Rattle.mbe_matcher.specs.Fronts.{is_wrong_token, starts_with_wrong_token};
ghost use Rattle.mbe_matcher.specs.Fronts.{first_match_error};
ghost use Rattle.mbe_matcher.specs.MatchResults.{Binds};
ghost use Rattle.mbe_threads.specs.Stops.{verdict_in, reading_in};
ghost use Rattle.mbe_matcher.specs.Failures.{Reports};
ghost use Rattle.mbe_matcher.specs.Reports.{IsReportIn};

use crate::consumers::{eat_any_ident, eat_lifetime, eat_signed_literal};
use crate::match_report::{MatchReport, match_error};
use crate::simulation::{FirstPassResult, run_threads};
use crate::token_widths::{opens, token_width};
use mbe_log::log::BindingLog;
use mbe_ops::errors::error::{ExpandError, ExpandErrorKind};
use mbe_ops::ops::{MetaTemplate, Op};
use mbe_semantics::fragment_kinds::MetaVarKind;
use mbe_threads::source::Source;
use mbe_threads::stops::Stop;
use mbe_tt::grammar::{Dialect, FragmentGrammar};
use mbe_tt::span::DelimSpan;
use mbe_tt::tt::{TokenTreesView, TtIter};
use std::alloc::{AllocError, Allocator};

// Whether a variable of the kind doesn't match the trees in front. `false` for a kind that the
// grammar decides.
#[inline(always)]
fn matches_nothing<A: Allocator>(dialect: Dialect, kind: MetaVarKind, here: &TtIter<'_, A>) -> bool
    ensures { result ≡ true → (g : Grammar) → g.dialect ≡ dialect
        → fragment_front g (Some kind) here.now ≡ None }
{
    let mut ahead = here.fork();
    match kind {
        MetaVarKind::Ident => eat_any_ident(&mut ahead).is_none(),
        MetaVarKind::Lifetime => eat_lifetime(&mut ahead).is_none(),
        MetaVarKind::Literal => eat_signed_literal(dialect, &mut ahead).is_none(),
        _ => false,
    }
}

#[tactic(auto, using(mbe_ops::proofs::OpViews::views))]
#[inline(always)]
fn is_token<A: Allocator>(op: &Op<A>) -> bool
    ensures { result ≡ is_token (op_of op.now) }
{
    matches!(op, Op::Literal(_) | Op::Ident(_) | Op::Punct(_))
}

// Whether the op is a token, and the trees in front begin with another one.
#[inline(always)]
fn is_wrong_token<A: Allocator>(dialect: Dialect, op: &Op<A>, here: &TtIter<'_, A>) -> bool
    ensures { result ≡ is_wrong_token dialect (op_of op.now) here.now }
{
    is_token(op) && token_width(dialect, op, here).is_none()
}

// Whether the op doesn't fit the trees in front. It looks at the first few trees, and may return
// `false` for an op that doesn't fit.
#[tactic(auto, using(mbe_ops::proofs::OpViews::views))]
#[inline(always)]
fn is_mismatch<A: Allocator>(dialect: Dialect, op: &Op<A>, here: &TtIter<'_, A>) -> bool
    ensures { result ≡ true → (g : Grammar) → g.dialect ≡ dialect
        → Mismatches g (op_of op.now) here.now }
{
    match op {
        Op::Var {
            kind: Some(kind),
            ..
        } => matches_nothing(dialect, *kind, here),
        Op::Subtree { delimiter, .. } => !opens(dialect, delimiter.get().kind, here),
        _ => is_wrong_token(dialect, op, here),
    }
}

// Whether the first op doesn't fit, as `is_mismatch` says. `false` if there are no ops.
#[inline(always)]
fn starts_with_mismatch<A: Allocator>(dialect: Dialect, ops: &[Op<A>], here: &TtIter<'_, A>) -> bool
    ensures { result ≡ true → (g : Grammar) → g.dialect ≡ dialect
        → StartsWithMismatch g (ops_of ops.now) here.now }
{
    match ops {
        [] => false,
        [op, _rest @ ..] => is_mismatch(dialect, op, here),
    }
}

// Returns the result of a match whose first op doesn't fit.
fn stuck_at_start<'a, A: Allocator + Copy>(
    alloc: A,
    pattern: &'a MetaTemplate<A>,
    argument: TokenTreesView<'a, A>,
    log: &mut BindingLog<'a, A>,
) -> Result<FirstPassResult<'a, A>, AllocError>
    requires { Checked (template_of pattern.now) }
    ensures stop { IfOk result (λ r. verdict_in r.stop ≡ stuck 0) }
    ensures unmatched { IfOk result (λ r. r.unmatched
        ≡ unmatched (trees argument.entry) (stuck 0)) }
    ensures kept { OnOk result (KeepsHandles log.old log.new) }
    ensures notes { (g : Grammar) → IsLawful g
        → StartsWithMismatch g (template_of pattern.now) (trees argument.entry)
        → IfOk result (IsReportIn g (template_of pattern.now) (trees argument.entry) log.new) }
{
    let handle = log.alloc()?;
    let source = Source::new(alloc, argument);
    let mut report = MatchReport::new();
    report.note_thread(&source, &pattern.0, handle, false);
    report.finish_offset(&[]);
    Ok(FirstPassResult {
        stop: Stop::Stuck(0),
        unmatched: source.remaining_trees(),
        report,
        has_dropped: false,
    })
}

// Runs the first pass: returns where the threads stop, and what they report. `AllocError` if out of
// memory.
pub(crate) fn run_first_pass<'a, A: Allocator + Copy, G: FragmentGrammar>(
    alloc: A,
    grammar: &G,
    pattern: &'a MetaTemplate<A>,
    argument: TokenTreesView<'a, A>,
    log: &mut BindingLog<'a, A>,
) -> Result<FirstPassResult<'a, A>, AllocError>
    requires { Checked (template_of pattern.now) }
    ensures verdict { IfOk result (λ r. IsVerdict (G.grammar grammar.now) (template_of pattern.now)
        (trees argument.entry) (verdict_in r.stop)) }
    ensures unmatched { IfOk result (λ r. r.unmatched
        ≡ unmatched (trees argument.entry) (verdict_in r.stop)) }
    ensures binds { IfOk result (λ r. IfSome (reading_in r.stop)
        (Binds (G.grammar grammar.now) (template_of pattern.now) (trees argument.entry) log.new)) }
    ensures kept { OnOk result (KeepsHandles log.old log.new) }
    ensures notes { IfOk result (IsReportIn (G.grammar grammar.now) (template_of pattern.now)
        (trees argument.entry) log.new) }
{
    if starts_with_mismatch(grammar.dialect(), &pattern.0, &argument.iter()) {
        return stuck_at_start(alloc, pattern, argument, log);
    }
    run_threads(alloc, grammar, pattern, argument, log)
}

// Whether the first op is a token that isn't in front. `false` if there are no ops.
#[inline(always)]
fn first_is_wrong_token<A: Allocator>(dialect: Dialect, ops: &[Op<A>], here: &TtIter<'_, A>) -> bool
    ensures { result ≡ starts_with_wrong_token dialect (ops_of ops.now) here.now }
{
    match ops {
        [] => false,
        [op, _rest @ ..] => is_wrong_token(dialect, op, here),
    }
}

/// Whether the pattern begins with a token, and the argument begins with something else in this
/// dialect. Then the match is stuck at offset 0 and binds nothing, and `error_at_start` returns its
/// error. This looks at the first trees only.
#[inline(always)]
pub fn starts_with_wrong_token<A: Allocator>(
    dialect: Dialect,
    pattern: &MetaTemplate<A>,
    argument: TokenTreesView<'_, A>,
) -> bool
    ensures { result
        ≡ starts_with_wrong_token dialect (template_of pattern.now) (trees argument.entry) }
{
    first_is_wrong_token(dialect, &pattern.0, &argument.iter())
}

// Returns the error of the first op, which doesn't fit. `None` if the op notes no error.
fn first_match_error<A: Allocator + Copy, G: FragmentGrammar>(
    alloc: A,
    grammar: &G,
    ops: &[Op<A>],
    here: &TtIter<'_, A>,
    around: DelimSpan,
) -> Result<Option<ExpandError<A>>, AllocError>
    ensures { IfOk result (λ e. errors_of e
        ≡ first_match_error (G.grammar grammar.now) (ops_of ops.now) here.now around) }
{
    match ops {
        [] => Ok(None),
        [op, _rest @ ..] => match_error(alloc, grammar, op, here, around),
    }
}

/// Returns the error of a match where `starts_with_wrong_token` is true. Such a match binds
/// nothing.
/// `around` are the spans of the argument's delimiters. `AllocError` if out of memory.
pub fn error_at_start<A: Allocator + Copy, G: FragmentGrammar>(
    alloc: A,
    grammar: &G,
    pattern: &MetaTemplate<A>,
    argument: TokenTreesView<'_, A>,
    around: DelimSpan,
) -> Result<ExpandError<A>, AllocError>
    requires checked { Checked (template_of pattern.now) }
    requires otherwise { starts_with_wrong_token (G.grammar grammar.now).dialect
        (template_of pattern.now) (trees argument) ≡ true }
    ensures { IfOk result (λ e. Reports (G.grammar grammar.now) (template_of pattern.now)
        (trees argument.entry) around (stuck 0) (error_of e) no_commands) }
{
    match first_match_error(alloc, grammar, &pattern.0, &argument.iter(), around)? {
        Some(error) => Ok(error),
        None => ExpandError::new(alloc, around.opening, ExpandErrorKind::LeftoverTokens),
    }
}
