// Whether rustc ends a call at a pattern that doesn't match.
//
// rustc tries the next rule only if no thread can go on with the next token. It reports an error
// after a local ambiguity and after several readings. It also reports one if a fragment begins and
// has a fault inside. By then it has begun to parse the fragment, and can't go back.
ghost use Rattle.std.specs.Prelude.{◌≡◌, ◌↔◌, IfOk, IsTrue, map};
ghost use Rattle.mbe_tt.specs.Views.View.{trees};
ghost use Rattle.mbe_semantics.specs.Syntax.Nullable.{Checked};
ghost use Rattle.mbe_semantics.specs.Expansion.Commitment.{Commits};
ghost use Rattle.mbe_ops.specs.Views.{op_of, template_of};
ghost use Rattle.mbe_matcher.specs.Commitment.{op_fails_inside, next_fails_inside};
ghost use Rattle.mbe_matcher.specs.Commitment.{any_fails_inside};
ghost use Rattle.mbe_matcher.specs.Expected.{expected_seen};

use crate::consumers::fails_inside;
use crate::expectations::{Expected, expectations_of};
use crate::matcher::Verdict;
use mbe_log::log::BindingLog;
use mbe_ops::ops::{MetaTemplate, Op};
use mbe_threads::source::Source;
use mbe_tt::grammar::{Dialect, FragmentGrammar};
use mbe_tt::tt::{TokenTreesView, TtIter};
use std::alloc::{AllocError, Allocator};

// Whether the op is a variable whose fragment begins here and has a fault inside.
#[tactic(auto, using(mbe_ops::proofs::OpViews::views))]
fn op_fails_inside<A: Allocator, G: FragmentGrammar>(
    grammar: &G,
    op: &Op<A>,
    here: &TtIter<'_, A>,
) -> Result<bool, AllocError>
    ensures { IfOk result (λ fails. fails
        ≡ op_fails_inside (G.grammar grammar.now) here.now (op_of op.now)) }
{
    match op {
        Op::Var { kind, .. } => fails_inside(grammar, *kind, here),
        Op::Subtree { .. } | Op::Repeat { .. } => Ok(false),
        Op::Literal(_) | Op::Ident(_) | Op::Punct(_) => Ok(false),
        Op::Expression(_) => Ok(false),
    }
}

// Whether the item is such a variable.
fn next_fails_inside<A: Allocator, G: FragmentGrammar>(
    grammar: &G,
    next: Expected<'_, A>,
    here: &TtIter<'_, A>,
) -> Result<bool, AllocError>
    ensures { IfOk result (λ fails. fails
        ≡ next_fails_inside (G.grammar grammar.now) here.now (expected_seen next.entry)) }
{
    match next {
        Expected::Op(op) => op_fails_inside(grammar, op, here),
        Expected::End | Expected::Closing | Expected::Separator(_) => Ok(false),
    }
}

// Whether one of the items is such a variable.
fn any_fails_inside<A: Allocator, G: FragmentGrammar>(
    grammar: &G,
    expected: &[Expected<'_, A>],
    here: &TtIter<'_, A>,
) -> Result<bool, AllocError>
    ensures { IfOk result (λ fails. fails ≡ any_fails_inside (G.grammar grammar.now) here.now
        (map expected_seen expected.now)) }
{
    for next in expected {
        if next_fails_inside(grammar, *next, here)? {
            return Ok(true);
        }
    }
    Ok(false)
}

/// Whether a match of the whole argument by a checked pattern ends the call, even if its rule
/// doesn't apply: no later rule is tried. `false` in rust-analyzer's dialect. `AllocError` if out
/// of memory.
pub fn commits<'a, A: Allocator + Copy, G: FragmentGrammar>(
    alloc: A,
    grammar: &G,
    pattern: &'a MetaTemplate<A>,
    argument: TokenTreesView<'a, A>,
) -> Result<bool, AllocError>
    requires { Checked (template_of pattern.now) }
    ensures { IfOk result (λ commits. IsTrue commits
        ↔ Commits (G.grammar grammar.now) (template_of pattern.now) (trees argument.entry)) }
{
    if grammar.dialect() == Dialect::RustAnalyzer {
        return Ok(false);
    }
    let mut log = BindingLog::new(alloc);
    let at_stop = expectations_of(alloc, grammar, pattern, argument, &mut log)?;
    let Verdict::Stuck(offset) = at_stop.verdict else {
        return Ok(true);
    };
    let source = Source::new(alloc, argument).passed(offset)?;
    any_fails_inside(grammar, at_stop.expected.as_slice(), &source.here())
}
