// Lints for repetitions of a template that have no variable that repeats there.
ghost use Rattle.std.specs.Prelude.{◌≡◌, ◌++◌, false, map, OnOk};
ghost use Rattle.mbe_tt.specs.Views.LeafViews.{leaf_of};
ghost use Rattle.mbe_tt.specs.Views.View.{trees};
ghost use Rattle.mbe_rewriter.specs.MacroItemViews.{macro_definition_shown};
ghost use Rattle.mbe_diagnostics.specs.Lints.Lint.{lint_seen};
ghost use Rattle.mbe_diagnostics.specs.Lints.RepetitionLints as spec;

use crate::diagnostic::Level;
use crate::lints::lint::{Lint, push_text};
use crate::lints::variable_syntax::up_to;
use crate::rule_checks::fixed_repetitions::FixedRepetition;
use mbe_rewriter::macro_items::MacroDefinition;
use mbe_tt::span::Span;
use mbe_tt::tt::{Delimiter, DelimiterKind, Leaf, TokenTreesView, TtElement};
use std::alloc::{AllocError, Allocator};

fn is_dollar<A: Allocator>(leaf: &Leaf<A>) -> bool
    ensures { result ≡ spec.is_dollar (leaf_of leaf.now) }
{
    match leaf {
        Leaf::Punct(punct) => punct.char == '$',
        Leaf::Literal(_) | Leaf::Ident(_) => false,
    }
}

// Whether the token at `place` is between the delimiters.
fn encloses(delimiter: Delimiter, place: Span) -> bool
    ensures { result ≡ spec.encloses delimiter place }
{
    delimiter.opening.start <= place.start && place.start <= delimiter.close.start
}

// Whether a group is the body of a repetition. `after_dollar` says whether it follows a `$`.
fn is_body(after_dollar: bool, delimiter: Delimiter) -> bool
    ensures { result ≡ spec.is_body after_dollar delimiter }
{
    after_dollar && matches!(delimiter.kind, DelimiterKind::Parenthesis)
}

// Returns the span of the body of the repetition around the token at `place` that has `number`
// others around it. If there is none, returns `place`.
fn repetition_place<A: Allocator>(rules: TokenTreesView<'_, A>, number: usize, place: Span) -> Span
    ensures { result ≡ spec.repetition_place place place number false (trees rules.entry) }
{
    let mut left = number;
    let mut after_dollar = false;
    let mut iter = rules.iter();
    'trees: while let Some(tree) = iter.next() {
        match tree {
            TtElement::Leaf(leaf) => after_dollar = is_dollar(leaf),
            TtElement::Subtree(group, inside) => {
                let is_body = is_body(after_dollar, group.delimiter);
                after_dollar = false;
                if encloses(group.delimiter, place) {
                    if is_body && left == 0 {
                        return up_to(group.delimiter.opening, group.delimiter.close);
                    }
                    if is_body {
                        left -= 1;
                    }
                    iter = inside;
                }
            }
        }
    }
    place
}

fn fixed_place<A: Allocator>(defined: MacroDefinition<'_, A>, one: FixedRepetition) -> Span
    ensures { result ≡ spec.fixed_place (macro_definition_shown defined.entry) one one.place }
{
    match one.place {
        None => defined.name.span,
        Some(place) => repetition_place(defined.rules, one.depth, place),
    }
}

#[tactic(auto, unfolding(crate::specs::Lints::RepetitionLints::fixed_text))]
fn fixed_text() -> &'static str
    ensures { result.now ≡ spec.fixed_text }
{
    "attempted to repeat an expression containing no syntax variables matched as repeating at this depth"
}

/// Adds the lints for these repetitions of a definition. `AllocError` if out of memory.
pub fn push_all_fixed<A: Allocator + Copy>(
    alloc: A,
    lints: &mut Vec<Lint<A>, A>,
    defined: MacroDefinition<'_, A>,
    all: &[FixedRepetition],
) -> Result<(), AllocError>
    ensures { OnOk result (map lint_seen lints.new.items ≡ map lint_seen lints.old.items
        ++ spec.fixed_lints (macro_definition_shown defined.entry) all.now) }
{
    for one in all {
        push_text(
            alloc,
            lints,
            Level::Error,
            fixed_place(defined, *one),
            fixed_text(),
        )?;
    }
    Ok(())
}
