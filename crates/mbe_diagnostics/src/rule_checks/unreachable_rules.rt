// Finds rules that no call reaches, because an earlier rule matches every argument that they match.
ghost use Rattle.std.specs.Prelude.{◌≡◌, ◌++◌, IfOk, OnOk, option_map};
ghost use Rattle.mbe_ops.specs.Views.{op_of, ops_of, separator_seen};
ghost use Rattle.mbe_parser.specs.RuleViews.{rule_of, rules_seen};
ghost use Rattle.mbe_diagnostics.specs.RuleChecks.UnreachableRules as spec;

use crate::rule_checks::equivalence::are_equivalent;
use crate::rule_checks::infallibility::is_infallible;
use mbe_ops::op_fields::OpSeparator;
use mbe_ops::ops::Op;
use mbe_parser::rules::Rule;
use mbe_semantics::fragment_kinds::{MetaVarKind, RepeatKind};
use mbe_semantics::macro_call_style::MacroCallStyle;
use std::alloc::{AllocError, Allocator};

fn style_number(style: MacroCallStyle) -> u8
    ensures { result ≡ spec.style_number style }
{
    match style {
        MacroCallStyle::FnLike => 0,
        MacroCallStyle::Attr => 1,
        MacroCallStyle::Derive => 2,
    }
}

fn is_tt(kind: Option<MetaVarKind>) -> bool
    ensures { result ≡ spec.is_tt kind }
{
    match kind {
        Some(MetaVarKind::Tt) => true,
        _ => false,
    }
}

// Whether the op is `$t:tt`.
#[tactic(auto, using(mbe_ops::proofs::OpViews::views))]
fn is_tt_variable<A: Allocator>(op: &Op<A>) -> bool
    ensures { result ≡ spec.is_tt_variable (op_of op.now) }
{
    match op {
        Op::Var { kind, .. } => is_tt(*kind),
        Op::Subtree { .. } | Op::Repeat { .. } => false,
        Op::Literal(_) | Op::Punct(_) | Op::Ident(_) => false,
        Op::Expression(_) => false,
    }
}

fn only_op<A: Allocator>(ops: &[Op<A>]) -> Option<&Op<A>>
    ensures { option_map (λ o. op_of o.now) result ≡ spec.only_op (ops_of ops.now) }
{
    let (op, rest) = ops.split_first()?;
    match rest.split_first() {
        None => Some(op),
        Some(_) => None,
    }
}

fn is_some_tt_variable<A: Allocator>(op: Option<&Op<A>>) -> bool
    ensures { result ≡ spec.is_some_tt_variable (option_map (λ o. op_of o.now) op.entry) }
{
    match op {
        None => false,
        Some(op) => is_tt_variable(op),
    }
}

fn is_list<A: Allocator>(separator: &OpSeparator<A>, kind: RepeatKind) -> bool
    ensures { result ≡ spec.is_list (option_map separator_seen separator.now) kind }
{
    match (separator.as_ref(), kind) {
        (None, RepeatKind::ZeroOrMore) => true,
        _ => false,
    }
}

// Whether the op is `$($t:tt)*`.
#[tactic(auto, using(mbe_ops::proofs::OpViews::views))]
fn is_tt_list<A: Allocator>(op: &Op<A>) -> bool
    ensures { result ≡ spec.is_tt_list (op_of op.now) }
{
    match op {
        Op::Repeat {
            tokens,
            kind,
            separator,
        } => is_list(separator, *kind) && is_some_tt_variable(only_op(&tokens.0)),
        Op::Var { .. } | Op::Subtree { .. } => false,
        Op::Literal(_) | Op::Punct(_) | Op::Ident(_) => false,
        Op::Expression(_) => false,
    }
}

fn matches_everything<A: Allocator>(pattern: &[Op<A>]) -> bool
    ensures { result ≡ spec.matches_everything (ops_of pattern.now) }
{
    match only_op(pattern) {
        None => false,
        Some(op) => is_tt_list(op),
    }
}

// Whether two rules have the same style, and the earlier pattern matches everything or is
// equivalent to the later one.
fn pattern_covers<A: Allocator>(earlier: &Rule<A>, later: &Rule<A>) -> bool
    ensures { result ≡ spec.pattern_covers (rule_of earlier.now) (rule_of later.now) }
{
    style_number(earlier.style) == style_number(later.style)
        && (matches_everything(&earlier.lhs.0) || are_equivalent(&earlier.lhs.0, &later.lhs.0))
}

fn covers<A: Allocator + Copy>(
    alloc: A,
    earlier: &Rule<A>,
    later: &Rule<A>,
) -> Result<bool, AllocError>
    ensures { IfOk result (λ c. c ≡ spec.covers (rule_of earlier.now) (rule_of later.now)) }
{
    if !pattern_covers(earlier, later) {
        return Ok(false);
    }
    is_infallible(alloc, &earlier.lhs, &earlier.rhs)
}

// Returns the index of the first earlier rule that covers a rule.
fn first_cover<A: Allocator + Copy>(
    alloc: A,
    earlier: &[Rule<A>],
    rule: &Rule<A>,
) -> Result<Option<usize>, AllocError>
    ensures { IfOk result (λ c. c
        ≡ spec.first_cover 0 (rules_seen earlier.now) (rule_of rule.now)) }
{
    for (index, one) in earlier.iter().enumerate() {
        if covers(alloc, one, rule)? {
            return Ok(Some(index));
        }
    }
    Ok(None)
}

fn push_if_covered<A: Allocator>(
    found: &mut Vec<(usize, usize), A>,
    rule: usize,
    cover: Option<usize>,
) -> Result<(), AllocError>
    ensures { OnOk result (found.new.items ≡ found.old.items ++ spec.with_cover rule cover) }
{
    if let Some(cover) = cover {
        found.push((rule, cover))?;
    }
    Ok(())
}

/// Returns rules that no call reaches, each with the first earlier rule that covers it. Both are
/// indices, from 0. Other rules may be unreachable too. `AllocError` if out of memory, or if 2^64
/// repetitions are nested.
///
/// An earlier rule covers a later rule of the same style under two conditions:
///
/// - Its pattern is `$($t:tt)*`, or differs from the later pattern at most in the names of
///   variables.
/// - Its template fails under no match. After a fault, the search for a rule would continue.
pub fn unreachable_rules<A: Allocator + Copy>(
    alloc: A,
    rules: &[Rule<A>],
) -> Result<Vec<(usize, usize), A>, AllocError>
    ensures { IfOk result (λ found. found.items ≡ spec.unreachable_rules (rules_seen rules.now)) }
{
    let mut found = Vec::new(alloc);
    for (index, rule) in rules.iter().enumerate() {
        let cover = first_cover(alloc, &rules[..index], rule)?;
        push_if_covered(&mut found, index, cover)?;
    }
    Ok(found)
}
