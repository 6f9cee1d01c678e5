// Lookup of variables in rounds. A path lists the rounds that the template is in, the outermost
// first. `follow` returns the binding of a variable under a path. `rounds_of` counts the rounds of
// a repetition by the lists that its variables are bound to.
ghost use Rattle.std.specs.Prelude.{◌≡◌, ◌≤◌, ◌^◌, ℕ, Some, None, true, false, filter_map};
ghost use Rattle.std.specs.Prelude.{option_map, IfOk, IfErr, MatchOption};
ghost use Rattle.std.specs.Result.{result_ok, result_err};
ghost use Rattle.mbe_variables.specs.RoundCounts.{shortest, shorter, extent_seen};
ghost use Rattle.mbe_variables.specs.RoundCounts.{simple_value};
ghost use Rattle.mbe_variables.specs.FaultViews.{kind_of_fault, error_of_fault};
ghost use Rattle.mbe_variables.specs.LookupErrors.{at, lookup_error, simple_fault, extent_fault};
ghost use Rattle.mbe_semantics.specs.Syntax.Op.{uses_of, uses_of_op, uses_of_expression};
ghost use Rattle.mbe_semantics.specs.Transcription.Rounds as spec;
ghost use Rattle.mbe_semantics.specs.Transcription.Rounds.{follow, reach, kept, finite, level_at};
ghost use Rattle.mbe_semantics.specs.Transcription.Rounds.{rounds_of, value_total, totals};
ghost use Rattle.mbe_semantics.specs.Transcription.Substitution.{is_simple, extent_faults};
ghost use Rattle.mbe_semantics.specs.Transcription.Substitution.{index_of};
ghost use Rattle.mbe_semantics.specs.Transcription.Substitution.{rounds_in};
ghost use Rattle.mbe_bindings.specs.BindingViews.{env_of, value_seen, values_seen};
ghost use Rattle.mbe_ops.specs.Expressions.{use_seen, expression_seen};
ghost use Rattle.mbe_ops.specs.Views.{op_of, ops_of};

use crate::transcriber_fault::{TranscriberFault, TranscriberFaultKind};
use mbe_bindings::bindings::{Binding, Bindings};
use mbe_log::fragment::Fragment;
use mbe_ops::expression::{Expression, UseKind};
use mbe_ops::op_iter::{OpDelimited, OpDelimitedIter};
use mbe_ops::ops::Op;
use mbe_semantics::current_round::CurrentRound;
use mbe_semantics::fragment_kinds::{MetaVarKind, RepeatKind};
use mbe_tt::span::Span;
use mbe_tt::symbol::Symbol;
use std::alloc::Allocator;

/// The limit of rounds: a repetition writes fewer.
const ROUND_LIMIT: usize = 65536;

/// Why a path can't be followed.
#[derive(Drop)]
pub enum LookupError {
    /// A repetition was skipped.
    Empty,
    /// A list has no value for its round.
    NoValue,
}

/// A binding that a variable can be written by: no list, and no skipped repetition.
#[derive(Drop)]
pub enum SimpleBinding<'b, 'a, A: Allocator> {
    Fragment(&'b Fragment<'a, A>),
    Missing(MetaVarKind),
}

/// A number of rounds.
#[derive(Drop)]
pub enum Extent {
    Finite(usize),
    Endless,
}

/// Follows the path into the binding: at each round a list gives its value. A fragment or a missing
/// value is returned at once, even before the end of the path.
pub fn follow<'b, 'a, A: Allocator>(
    binding: &'b Binding<'a, A>,
    path: &[CurrentRound],
) -> Result<&'b Binding<'a, A>, LookupError>
    ensures value { option_map (λ b. value_seen b.now) (result_ok result)
        ≡ follow path.now (value_seen binding.now) }
    ensures lookup_error { result_err result ≡ lookup_error path.now (value_seen binding.now) }
{
    let Some((level, inner)) = path.split_first() else {
        return Ok(binding);
    };
    match binding {
        Binding::Fragment(_) | Binding::Missing(_) => Ok(binding),
        Binding::Empty => Err(LookupError::Empty),
        Binding::Nested(values) => match values.get(level.index) {
            Some(value) => follow(value, inner),
            None => Err(LookupError::NoValue),
        },
    }
}

// Does the same, but requires a list at each round.
fn reach<'b, 'a, A: Allocator>(
    binding: &'b Binding<'a, A>,
    path: &[CurrentRound],
) -> Option<&'b Binding<'a, A>>
    ensures { option_map (λ b. value_seen b.now) result ≡ reach path.now (value_seen binding.now) }
{
    let Some((level, inner)) = path.split_first() else {
        return Some(binding);
    };
    match binding {
        Binding::Nested(values) => match values.get(level.index) {
            Some(value) => reach(value, inner),
            None => None,
        },
        Binding::Fragment(_) | Binding::Missing(_) | Binding::Empty => None,
    }
}

/// Returns the binding of a variable under the path. A fault if the binding isn't simple.
pub fn simple_binding_at<'b, 't, 'a, A: Allocator>(
    binding: &'b Binding<'a, A>,
    name: &'t Symbol<A>,
    span: Span,
    path: &[CurrentRound],
) -> Result<SimpleBinding<'b, 'a, A>, TranscriberFault<'t, A>>
    ensures found { IfOk result (λ s. follow path.now (value_seen binding.now)
        ≡ Some (simple_value s)) }
    ensures lookup_error { IfErr result (λ _.
        is_simple (follow path.now (value_seen binding.now)) ≡ false) }
    ensures fault { option_map error_of_fault (result_err result) ≡ option_map (at span)
        (simple_fault name.now path.now (value_seen binding.now)) }
{
    let kind = match follow(binding, path) {
        Ok(Binding::Fragment(fragment)) => return Ok(SimpleBinding::Fragment(fragment)),
        Ok(Binding::Missing(kind)) => return Ok(SimpleBinding::Missing(*kind)),
        Ok(Binding::Nested(_)) => TranscriberFaultKind::Nested(name),
        Ok(Binding::Empty) => TranscriberFaultKind::Empty(name),
        Err(LookupError::Empty) => TranscriberFaultKind::EmptyInside(name),
        Err(LookupError::NoValue) => TranscriberFaultKind::NoValue(name),
    };
    Err(TranscriberFault { span, kind })
}

// Returns the round `depth` levels outside the innermost one.
fn level_at(path: &[CurrentRound], depth: usize) -> Option<CurrentRound>
    ensures { result ≡ level_at path.now depth }
{
    if depth < path.len() {
        Some(path[path.len() - 1 - depth])
    } else {
        None
    }
}

/// Returns the index of that round. 0 if there is no such level.
pub fn index_at(path: &[CurrentRound], depth: usize) -> usize
    ensures { result ≡ index_of (level_at path.now depth) }
{
    match level_at(path, depth) {
        Some(level) => level.index,
        None => 0,
    }
}

/// Returns the number of rounds at that level. 0 if there is no such level.
pub fn rounds_at(path: &[CurrentRound], depth: usize) -> usize
    ensures { result ≡ rounds_in (level_at path.now depth) }
{
    match level_at(path, depth) {
        Some(level) => level.rounds,
        None => 0,
    }
}

/// Counts the values at a depth of lists. `None` if the number is 2^64 or more.
#[cycle(totals)]
#[tactic(auto, using(crate::proofs::FollowLemmas::value_views))]
pub fn value_total<A: Allocator>(binding: &Binding<'_, A>, depth: usize) -> Option<usize>
    ensures { MatchOption result (2 ^ 64 ≤ value_total depth (value_seen binding.now))
        (λ n. n ≡ value_total depth (value_seen binding.now)) }
{
    match binding {
        Binding::Fragment(_) => Some(1),
        Binding::Missing(_) => Some(1),
        Binding::Empty => Some(0),
        Binding::Nested(values) => {
            if depth == 0 {
                Some(values.len())
            } else {
                values_total(values, depth - 1)
            }
        }
    }
}

#[cycle(totals)]
fn values_total<A: Allocator>(values: &[Binding<'_, A>], depth: usize) -> Option<usize>
    ensures { MatchOption result (2 ^ 64 ≤ totals depth (values_seen values.now))
        (λ n. n ≡ totals depth (values_seen values.now)) }
{
    let mut total: usize = 0;
    for value in values {
        let Some(own) = value_total(value, depth) else {
            return None;
        };
        let Some(sum) = total.checked_add(own) else {
            return None;
        };
        total = sum;
    }
    Some(total)
}

// Returns how many rounds a use of the name allows. `None` if the name doesn't repeat at this
// level.
fn extent_under<A: Allocator>(
    bindings: &Bindings<'_, A>,
    path: &[CurrentRound],
    use_kind: UseKind,
    name: &Symbol<A>,
) -> Option<Extent>
    ensures { option_map extent_seen result
        ≡ spec.extent_under (env_of bindings.now) path.now (use_seen use_kind name.now) }
{
    let value = reach(bindings.get(name)?, path)?;
    Some(match (value, use_kind) {
        (Binding::Fragment(_), _) => Extent::Endless,
        (Binding::Nested(values), _) => Extent::Finite(values.len()),
        (Binding::Empty, _) => Extent::Finite(0),
        (Binding::Missing(_), UseKind::Fragment) => Extent::Finite(0),
        (Binding::Missing(_), UseKind::Number) => Extent::Endless,
    })
}

// Returns the smaller number of rounds. `None` counts as no limit.
fn shorter(one: Option<Extent>, two: Option<Extent>) -> Option<Extent>
    ensures { option_map extent_seen result
        ≡ shorter (option_map extent_seen one) (option_map extent_seen two) }
{
    match (one, two) {
        (None, other) | (other, None) => other,
        (Some(Extent::Endless), Some(other)) | (Some(other), Some(Extent::Endless)) => Some(other),
        (Some(Extent::Finite(a)), Some(Extent::Finite(b))) => Some(Extent::Finite(a.min(b))),
    }
}

// Returns the least number of rounds that the names of the ops allow, nested ops included. `None`
// if no name repeats at this level.
#[cycle(counting)]
fn shortest<A: Allocator>(
    bindings: &Bindings<'_, A>,
    path: &[CurrentRound],
    ops: &[Op<A>],
) -> Option<Extent>
    ensures { option_map extent_seen result
        ≡ shortest (filter_map (spec.extent_under (env_of bindings.now) path.now)
        (uses_of (ops_of ops.now))) }
{
    let mut least = None;
    for stop in OpDelimitedIter::new(ops) {
        match stop {
            OpDelimited::Op(op) => least = shorter(least, shortest_of_op(bindings, path, op)),
            OpDelimited::Open(_) | OpDelimited::Close(_) => {}
        }
    }
    least
}

#[cycle(counting)]
#[tactic(auto, using(mbe_ops::proofs::OpViews::views))]
fn shortest_of_op<A: Allocator>(
    bindings: &Bindings<'_, A>,
    path: &[CurrentRound],
    op: &Op<A>,
) -> Option<Extent>
    ensures { option_map extent_seen result
        ≡ shortest (filter_map (spec.extent_under (env_of bindings.now) path.now)
        (uses_of_op (op_of op.now))) }
{
    match op {
        Op::Literal(_) | Op::Ident(_) | Op::Punct(_) => None,
        Op::Var { name, .. } => extent_under(bindings, path, UseKind::Fragment, name),
        Op::Expression(expression) => shortest_of_expression(bindings, path, expression),
        Op::Subtree { tokens, .. } => shortest(bindings, path, &tokens.0),
        Op::Repeat { tokens, .. } => shortest(bindings, path, &tokens.0),
    }
}

fn shortest_of_expression<A: Allocator>(
    bindings: &Bindings<'_, A>,
    path: &[CurrentRound],
    expression: &Expression<A>,
) -> Option<Extent>
    ensures { option_map extent_seen result
        ≡ shortest (filter_map (spec.extent_under (env_of bindings.now) path.now)
        (uses_of_expression (expression_seen expression.now))) }
{
    let mut least = None;
    for mention in expression.mentions() {
        let own = extent_under(bindings, path, mention.use_kind, mention.name);
        least = shorter(least, own);
    }
    least
}

/// Returns the number of rounds of a repetition with this body. It is 0 if no name repeats.
pub fn rounds_of<A: Allocator>(
    bindings: &Bindings<'_, A>,
    path: &[CurrentRound],
    body: &[Op<A>],
) -> Extent
    ensures { extent_seen result ≡ rounds_of (env_of bindings.now) path.now (ops_of body.now) }
{
    match shortest(bindings, path, body) {
        Some(extent) => extent,
        None => Extent::Finite(0),
    }
}

/// Returns how many rounds are written. A fault if they are too many, or if `+` has none.
pub fn kept_rounds<'t, A: Allocator>(
    kind: RepeatKind,
    extent: Extent,
) -> Result<usize, TranscriberFaultKind<'t, A>>
    ensures kept { IfOk result (λ n. (kept kind (extent_seen extent) ≡ finite n)
        × (extent_faults kind (finite n) ≡ false)) }
    ensures refused { IfErr result (λ _.
        extent_faults kind (kept kind (extent_seen extent)) ≡ true) }
    ensures fault { option_map kind_of_fault (result_err result)
        ≡ extent_fault kind (kept kind (extent_seen extent)) }
{
    match (kind, extent) {
        (RepeatKind::ZeroOrOne, Extent::Endless) => Ok(1),
        (RepeatKind::ZeroOrOne, Extent::Finite(n)) => Ok(n.min(1)),
        (RepeatKind::OneOrMore, Extent::Finite(0)) => Err(TranscriberFaultKind::NoRound),
        (_, Extent::Finite(n)) if n < ROUND_LIMIT => Ok(n),
        _ => Err(TranscriberFaultKind::Limit),
    }
}
