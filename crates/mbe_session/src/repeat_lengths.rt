// Finds a repetition of a template whose variables repeat different numbers of times.
//
// rustc refuses a call with such a repetition. The expander ends the repetition with the shortest
// list, as rust-analyzer does. For the rule
//
//     ($($a:ident)*; $($b:ident)*) => { $($a $b)* }
//
// and the argument `x y z; u v`, `a` repeats 3 times and `b` repeats 2 times.
//
// A repetition inside another one is compared in each round of the outer one. Most templates need
// no comparison: variables of one repetition of a pattern repeat as often as each other. So the
// argument is matched again only if a repetition has variables of two repetitions of the pattern.
ghost use Rattle.std.specs.Prelude.{◌≡◌, ◌<◌, length, OnOk};
ghost use Rattle.mbe_semantics.specs.Expansion.Macro.{IsChecked};
ghost use Rattle.mbe.specs.MacroViews.{macro_of};
ghost use Rattle.mbe_session.specs.SessionViews.{setting_of, state_of};

use crate::file_expander::FileExpander;
use crate::notes::Level;
use mbe::{Binding, Bindings, DeclarativeMacro};
use mbe_diagnostics::rule_checks::variables::{VariableUse, uses_in};
use mbe_ops::ops::{MetaTemplate, Op};
use mbe_rewriter::macro_items::MacroCall;
use mbe_tt::grammar::{Dialect, FragmentGrammar};
use mbe_tt::span::Span;
use mbe_tt::symbol::Symbol;
use mbe_tt::tt::TopSubtree;
use std::alloc::{AllocError, Allocator};

// A variable of a pattern, and the numbers of the repetitions around it, the outermost first.
// Repetitions are numbered in the order of the pattern.
#[derive(Drop)]
struct PatternList<'p, A: Allocator> {
    name: &'p str,
    around: Vec<usize, A>,
}

// The repetitions around an op of a pattern, and the number of the next repetition.
#[derive(Drop)]
struct PatternWalk<A: Allocator> {
    around: Vec<usize, A>,
    next: usize,
}

// A use of a variable, and what the variable is bound to in the current round of each repetition
// around.
#[derive(Drop)]
#[derive_where(Clone, Copy)]
struct RoundBinding<'b, 'a, A: Allocator> {
    name: &'b str,
    place: Option<Span>,
    binding: &'b Binding<'a, A>,
}

// How often a variable repeats, and the span of its use.
#[derive(Clone, Copy, Drop)]
struct RepeatCount<'b> {
    name: &'b str,
    place: Option<Span>,
    count: usize,
}

// Two variables of one repetition that repeat different numbers of times.
#[derive(Clone, Copy, Drop)]
struct UnequalCounts<'b> {
    first: RepeatCount<'b>,
    second: RepeatCount<'b>,
}

/// An error on a repetition: its message, and the span of a variable in the repetition.
#[derive(Drop)]
pub(crate) struct LengthError<A: Allocator> {
    pub(crate) place: Option<Span>,
    pub(crate) message: String<A>,
}

// ---- lists of a pattern

// Adds the variables of ops.
#[cycle(lists)]
fn push_lists<'p, A: Allocator + Copy>(
    alloc: A,
    found: &mut Vec<PatternList<'p, A>, A>,
    walk: &mut PatternWalk<A>,
    ops: &'p [Op<A>],
) -> Result<(), AllocError> {
    let mut rest = ops;
    'ops: while let Some((op, others)) = rest.split_first() {
        push_lists_in(alloc, found, walk, op)?;
        rest = others;
    }
    Ok(())
}

#[cycle(lists)]
#[tactic(auto, using(mbe_ops::proofs::OpViews::views))]
fn push_lists_in<'p, A: Allocator + Copy>(
    alloc: A,
    found: &mut Vec<PatternList<'p, A>, A>,
    walk: &mut PatternWalk<A>,
    op: &'p Op<A>,
) -> Result<(), AllocError> {
    match op {
        Op::Var { name, .. } => push_list(alloc, found, walk.around.as_slice(), name.as_str()),
        Op::Subtree { tokens, .. } => push_lists(alloc, found, walk, &tokens.0),
        Op::Repeat { tokens, .. } => {
            walk.around.push(walk.next)?;
            walk.next = walk.next.saturating_add(1);
            push_lists(alloc, found, walk, &tokens.0)?;
            walk.around.pop();
            Ok(())
        }
        Op::Literal(_) | Op::Punct(_) | Op::Ident(_) | Op::Expression(_) => Ok(()),
    }
}

// Adds a variable, unless it is in no repetition.
fn push_list<'p, A: Allocator + Copy>(
    alloc: A,
    found: &mut Vec<PatternList<'p, A>, A>,
    around: &[usize],
    name: &'p str,
) -> Result<(), AllocError> {
    if around.is_empty() {
        return Ok(());
    }
    let mut numbers = Vec::new(alloc);
    numbers.extend_from_slice(around)?;
    found.push(PatternList {
        name,
        around: numbers,
    })?;
    Ok(())
}

// Returns the number of the repetition of the pattern that a variable repeats by at this depth.
fn list_at<A: Allocator>(lists: &[PatternList<'_, A>], name: &str, depth: usize) -> Option<usize> {
    for list in lists {
        if list.name == name {
            return list.around.get(depth).copied();
        }
    }
    None
}

// Whether two of the variables repeat by different repetitions of the pattern at this depth.
fn has_two_lists<A: Allocator>(
    lists: &[PatternList<'_, A>],
    used: &[VariableUse<'_>],
    depth: usize,
) -> bool {
    let mut first = None;
    for one in used {
        if let Some(number) = list_at(lists, one.name, depth) {
            if first.is_some_and(|other: usize| other != number) {
                return true;
            }
            first = Some(number);
        }
    }
    false
}

// Whether a repetition of these ops may have variables that repeat different numbers of times.
#[cycle(may_differ)]
fn may_differ<A: Allocator + Copy>(
    alloc: A,
    lists: &[PatternList<'_, A>],
    ops: &[Op<A>],
    depth: usize,
) -> Result<bool, AllocError> {
    let mut rest = ops;
    'ops: while let Some((op, others)) = rest.split_first() {
        if may_differ_in(alloc, lists, op, depth)? {
            return Ok(true);
        }
        rest = others;
    }
    Ok(false)
}

#[cycle(may_differ)]
#[tactic(auto, using(mbe_ops::proofs::OpViews::views))]
fn may_differ_in<A: Allocator + Copy>(
    alloc: A,
    lists: &[PatternList<'_, A>],
    op: &Op<A>,
    depth: usize,
) -> Result<bool, AllocError> {
    match op {
        Op::Subtree { tokens, .. } => may_differ(alloc, lists, &tokens.0, depth),
        Op::Repeat { tokens, .. } => {
            let used = uses_in(alloc, tokens)?;
            if has_two_lists(lists, used.as_slice(), depth) {
                return Ok(true);
            }
            may_differ(alloc, lists, &tokens.0, depth.saturating_add(1))
        }
        _ => Ok(false),
    }
}

// Whether a repetition of the template may have variables that repeat different numbers of times.
fn template_may_differ<A: Allocator + Copy>(
    alloc: A,
    pattern: &MetaTemplate<A>,
    template: &MetaTemplate<A>,
) -> Result<bool, AllocError> {
    if !has_repetition(&template.0) {
        return Ok(false);
    }
    let mut lists = Vec::new(alloc);
    let mut walk = PatternWalk {
        around: Vec::new(alloc),
        next: 0,
    };
    push_lists(alloc, &mut lists, &mut walk, &pattern.0)?;
    may_differ(alloc, lists.as_slice(), &template.0, 0)
}

// Whether there is a repetition among these ops, at any depth.
#[cycle(has_repetition)]
fn has_repetition<A: Allocator>(ops: &[Op<A>]) -> bool {
    let mut rest = ops;
    'ops: while let Some((op, others)) = rest.split_first() {
        if is_or_has_repetition(op) {
            return true;
        }
        rest = others;
    }
    false
}

#[cycle(has_repetition)]
#[tactic(auto, using(mbe_ops::proofs::OpViews::views))]
fn is_or_has_repetition<A: Allocator>(op: &Op<A>) -> bool {
    match op {
        Op::Repeat { .. } => true,
        Op::Subtree { tokens, .. } => has_repetition(&tokens.0),
        _ => false,
    }
}

// ---- rounds of a call

// Returns how often a variable repeats; `None` if it doesn't repeat.
fn count_of<'b, A: Allocator>(bound: RoundBinding<'b, '_, A>) -> Option<RepeatCount<'b>> {
    let count = match bound.binding {
        Binding::Nested(rounds) => rounds.len(),
        Binding::Empty => 0,
        Binding::Fragment(_) | Binding::Missing(_) => return None,
    };
    Some(RepeatCount {
        name: bound.name,
        place: bound.place,
        count,
    })
}

// Returns the first two variables that repeat different numbers of times.
fn unequal_counts<'b, A: Allocator>(
    bound: &[RoundBinding<'b, '_, A>],
) -> Option<UnequalCounts<'b>> {
    let mut first: Option<RepeatCount<'b>> = None;
    for one in bound {
        match (first, count_of(*one)) {
            (Some(first), Some(second)) if first.count != second.count => {
                return Some(UnequalCounts { first, second });
            }
            (None, found) => first = found,
            _ => {}
        }
    }
    None
}

// Returns the number of rounds, if all variables that repeat do it equally often.
fn round_count<A: Allocator>(bound: &[RoundBinding<'_, '_, A>]) -> usize {
    for one in bound {
        if let Some(found) = count_of(*one) {
            return found.count;
        }
    }
    0
}

// Returns the bindings of the variables that are used, in the order of the uses.
fn used_bindings<'b, 'a, A: Allocator + Copy>(
    alloc: A,
    bound: &[RoundBinding<'b, 'a, A>],
    used: &[VariableUse<'_>],
) -> Result<Vec<RoundBinding<'b, 'a, A>, A>, AllocError> {
    let mut found = Vec::new(alloc);
    for one in used {
        if let Some(binding) = binding_named(bound, one.name) {
            found.push(RoundBinding {
                place: one.place,
                ..binding
            })?;
        }
    }
    Ok(found)
}

fn binding_named<'b, 'a, A: Allocator>(
    bound: &[RoundBinding<'b, 'a, A>],
    name: &str,
) -> Option<RoundBinding<'b, 'a, A>> {
    for one in bound {
        if one.name == name {
            return Some(*one);
        }
    }
    None
}

// Returns the bindings in a round of a repetition.
fn bindings_in_round<'b, 'a, A: Allocator + Copy>(
    alloc: A,
    bound: &[RoundBinding<'b, 'a, A>],
    round: usize,
) -> Result<Vec<RoundBinding<'b, 'a, A>, A>, AllocError> {
    let mut found = Vec::new(alloc);
    for one in bound {
        let binding = match one.binding {
            Binding::Nested(rounds) => rounds.get(round).unwrap_or(one.binding),
            _ => one.binding,
        };
        found.push(RoundBinding { binding, ..*one })?;
    }
    Ok(found)
}

// Returns the first two variables of a repetition among these ops that repeat different numbers of
// times.
#[cycle(unequal)]
fn unequal_in<'b, A: Allocator + Copy>(
    alloc: A,
    bound: &[RoundBinding<'b, '_, A>],
    ops: &[Op<A>],
) -> Result<Option<UnequalCounts<'b>>, AllocError> {
    let mut rest = ops;
    'ops: while let Some((op, others)) = rest.split_first() {
        let found = unequal_in_op(alloc, bound, op)?;
        if found.is_some() {
            return Ok(found);
        }
        rest = others;
    }
    Ok(None)
}

#[cycle(unequal)]
#[tactic(auto, using(mbe_ops::proofs::OpViews::views))]
fn unequal_in_op<'b, A: Allocator + Copy>(
    alloc: A,
    bound: &[RoundBinding<'b, '_, A>],
    op: &Op<A>,
) -> Result<Option<UnequalCounts<'b>>, AllocError> {
    match op {
        Op::Subtree { tokens, .. } => unequal_in(alloc, bound, &tokens.0),
        Op::Repeat { tokens, .. } => {
            let uses = uses_in(alloc, tokens)?;
            let used = used_bindings(alloc, bound, uses.as_slice())?;
            unequal_in_repetition(alloc, used.as_slice(), &tokens.0)
        }
        _ => Ok(None),
    }
}

// Compares the variables that a repetition uses. Then it compares, in each round, the variables of
// the repetitions inside.
#[cycle(unequal)]
fn unequal_in_repetition<'b, A: Allocator + Copy>(
    alloc: A,
    used: &[RoundBinding<'b, '_, A>],
    body: &[Op<A>],
) -> Result<Option<UnequalCounts<'b>>, AllocError> {
    let found = unequal_counts(used);
    if found.is_some() || !has_repetition(body) {
        return Ok(found);
    }
    for round in 0..round_count(used) {
        let found = unequal_in_round(alloc, used, body, round)?;
        if found.is_some() {
            return Ok(found);
        }
    }
    Ok(None)
}

// The same in one round of a repetition.
#[cycle(unequal)]
fn unequal_in_round<'b, A: Allocator + Copy>(
    alloc: A,
    used: &[RoundBinding<'b, '_, A>],
    body: &[Op<A>],
    round: usize,
) -> Result<Option<UnequalCounts<'b>>, AllocError> {
    let inner = bindings_in_round(alloc, used, round)?;
    unequal_in(alloc, inner.as_slice(), body)
}

// ---- the error of a call

// Returns what the variables of a template are bound to.
fn template_bindings<'b, 'a, A: Allocator + Copy>(
    alloc: A,
    bindings: &'b Bindings<'a, A>,
    used: &[VariableUse<'b>],
) -> Result<Vec<RoundBinding<'b, 'a, A>, A>, AllocError> {
    let mut found = Vec::new(alloc);
    for one in used {
        let name = Symbol::intern(alloc, one.name)?;
        if let Some(binding) = bindings.get(&name) {
            found.push(RoundBinding {
                name: one.name,
                place: one.place,
                binding,
            })?;
        }
    }
    Ok(found)
}

// Returns the error in the words of rustc, at the second variable.
fn length_error<A: Allocator + Copy>(
    alloc: A,
    unequal: UnequalCounts<'_>,
) -> Result<LengthError<A>, AllocError> {
    let UnequalCounts { first, second } = unequal;
    let repeats = count_text(alloc, first)?;
    let other_repeats = count_text(alloc, second)?;
    Ok(LengthError {
        place: second.place.map(from_dollar),
        message: format!(in alloc; "meta-variable {repeats}, but {other_repeats}")?,
    })
}

// Returns the span of a variable with its `$`, as in rustc.
fn from_dollar(name: Span) -> Span {
    Span {
        start: name.start.saturating_sub(1),
        ..name
    }
}

fn count_text<A: Allocator>(alloc: A, repeats: RepeatCount<'_>) -> Result<String<A>, AllocError> {
    let RepeatCount { name, count, .. } = repeats;
    match count {
        1 => format!(in alloc; "`{name}` repeats 1 time"),
        _ => format!(in alloc; "`{name}` repeats {count} times"),
    }
}

/// Returns the error that rustc reports if two variables of a repetition in the template of the
/// rule with this index repeat different numbers of times. `None` if the rule doesn't match, or if
/// there is no such repetition. `AllocError` if out of memory.
pub(crate) fn unequal_lengths<A: Allocator + Copy, G: FragmentGrammar>(
    alloc: A,
    grammar: &G,
    rules: &DeclarativeMacro<A>,
    argument: &TopSubtree<A>,
    index: usize,
) -> Result<Option<LengthError<A>>, AllocError>
    requires checked { IsChecked (macro_of rules.now) }
    requires rule { index < length (macro_of rules.now).rules }
{
    let template = rules.template(index);
    let differs = template_may_differ(alloc, rules.pattern(index), template)?;
    if !differs {
        return Ok(None);
    }
    match rules.bindings(alloc, grammar, argument, index)? {
        None => Ok(None),
        Some(bindings) => error_of_bindings(alloc, &bindings, template),
    }
}

fn error_of_bindings<A: Allocator + Copy>(
    alloc: A,
    bindings: &Bindings<'_, A>,
    template: &MetaTemplate<A>,
) -> Result<Option<LengthError<A>>, AllocError> {
    let uses = uses_in(alloc, template)?;
    let bound = template_bindings(alloc, bindings, uses.as_slice())?;
    match unequal_in(alloc, bound.as_slice(), &template.0)? {
        None => Ok(None),
        Some(unequal) => Ok(Some(length_error(alloc, unequal)?)),
    }
}

fn index_of(rule: Option<u32>) -> Option<usize> {
    usize::try_from(rule?).ok()
}

impl<A: Allocator + Copy> FileExpander<'_, A> {
    // Notes an error if rustc refuses a call that the rule with this index expands, since variables
    // of a repetition repeat different numbers of times.
    pub(crate) fn note_lengths(
        &mut self,
        call: MacroCall<'_, A>,
        argument: &TopSubtree<A>,
        rule: Option<u32>,
    ) -> Result<(), AllocError>
        ensures setting { OnOk result (setting_of self.new ≡ setting_of self.old) }
        ensures state { OnOk result (state_of self.new ≡ state_of self.old) }
    {
        let Some(index) = index_of(rule) else {
            return Ok(());
        };
        let Some(error) = self.unequal_lengths_of(call, argument, index)? else {
            return Ok(());
        };
        let LengthError { place, message } = error;
        self.note(Level::Error, place.unwrap_or(call.name.span), message)
    }

    // Returns the error on the lengths of a call. It is `None` in the dialect of rust-analyzer,
    // which has no such error.
    fn unequal_lengths_of(
        &self,
        call: MacroCall<'_, A>,
        argument: &TopSubtree<A>,
        index: usize,
    ) -> Result<Option<LengthError<A>>, AllocError> {
        let Some(rules) = self.rules(call) else {
            return Ok(None);
        };
        if rules.err().is_some() || rules.num_rules() <= index {
            return Ok(None);
        }
        match self.grammar.dialect {
            Dialect::RustAnalyzer => Ok(None),
            Dialect::Rustc => unequal_lengths(self.alloc, &self.grammar, rules, argument, index),
        }
    }
}
