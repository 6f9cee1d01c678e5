// The least set of facts that is closed under rules.
//
// Features are such a set: a fact says that a package has a feature, or that it uses an optional
// dependency. A rule says which fact follows from two others.
ghost use Rattle.std.specs.Prelude.{◌≡◌, IfOk, IfSome};
ghost use Rattle.std.specs.List.{list_any};
ghost use Rattle.mbe_cargo.specs.LeastSet.{AllHold, ApplyKeeps, FirstMarked, IsBlank};
ghost use Rattle.mbe_cargo.specs.LeastSet.{IsLeastSet, adds, is_closed, is_marked};

use std::alloc::{AllocError, Global};

/// A rule: the fact `gives` holds if the facts `first` and `second` hold. Facts are numbers; fact 0
/// always holds.
#[derive(Clone, Copy, Drop)]
pub struct Rule {
    pub first: usize,
    pub second: usize,
    pub gives: usize,
}

// Whether the fact is marked.
fn is_marked(marks: &[bool], fact: usize) -> bool
    ensures { result ≡ is_marked marks.now fact }
{
    match marks.get(fact) {
        Some(mark) => *mark,
        None => false,
    }
}

// Whether the rule adds a fact to those that are marked.
fn adds(marks: &[bool], rule: &Rule) -> bool
    ensures { result ≡ adds marks.now rule.now }
{
    is_marked(marks, rule.first) && is_marked(marks, rule.second) && !is_marked(marks, rule.gives)
}

// Whether one of the rules adds a fact.
fn any_adds(rules: &[Rule], marks: &[bool]) -> bool
    ensures { result ≡ list_any (adds marks.now) rules.now }
{
    rules.iter().any(|rule| adds(marks, rule))
}

// Whether fact 0 is marked, and no rule adds a fact.
fn is_closed(rules: &[Rule], marks: &[bool]) -> bool
    ensures { result ≡ is_closed rules.now marks.now }
{
    is_marked(marks, 0) && !any_adds(rules, marks)
}

// Marks the fact that a rule adds. Returns whether there is one.
fn apply_rule(rule: &Rule, marks: &mut Vec<bool>) -> bool
    ensures { ApplyKeeps rule.now marks.old.items marks.new.items }
{
    if !adds(marks, rule) || rule.gives >= marks.len() {
        return false;
    }
    marks[rule.gives] = true;
    true
}

// Marks the facts that one application of each rule adds. Returns whether there were any.
fn apply_rules(rules: &[Rule], marks: &mut Vec<bool>) -> bool
    ensures { AllHold rules.now marks.old.items → AllHold rules.now marks.new.items }
{
    let mut is_changed = false;
    for rule in rules {
        if apply_rule(rule, marks) {
            is_changed = true;
        }
    }
    is_changed
}

// Returns marks for `count` facts, none of which is marked.
fn blank_marks(alloc: Global, count: usize) -> Result<Vec<bool>, AllocError>
    ensures { IfOk result (λ marks. IsBlank marks.items) }
{
    Ok(vec![in alloc; false; count]?)
}

// Marks fact 0.
fn mark_first(marks: &mut Vec<bool>)
    ensures { FirstMarked marks.old.items marks.new.items }
{
    if marks.len() > 0 {
        marks[0] = true;
    }
}

/// Returns for each fact below `count` whether it holds. `None` if a rule gives a fact that isn't
/// below `count`. `AllocError` if out of memory.
pub fn least_set(
    alloc: Global,
    rules: &[Rule],
    count: usize,
) -> Result<Option<Vec<bool>>, AllocError>
    ensures { IfOk result (λ found. IfSome found (λ marks. IsLeastSet rules.now marks.items)) }
{
    let mut marks = blank_marks(alloc, count)?;
    mark_first(&mut marks);
    for _round in 0..count {
        if !apply_rules(rules, &mut marks) {
            break;
        }
    }
    if !is_closed(rules, &marks) {
        return Ok(None);
    }
    Ok(Some(marks))
}
