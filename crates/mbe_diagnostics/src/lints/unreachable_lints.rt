// Lints for rules that no call reaches.
ghost use Rattle.std.specs.Prelude.{◌≡◌, ◌++◌, map, IfOk, OnOk};
ghost use Rattle.std.specs.String.{string_bytes};
ghost use Rattle.mbe_tt.specs.Views.Element.{element_tree};
ghost use Rattle.mbe_tt.specs.Views.LeafViews.{leaf_of};
ghost use Rattle.mbe_tt.specs.Views.View.{trees};
ghost use Rattle.mbe_rewriter.specs.MacroItemViews.{macro_definition_shown};
ghost use Rattle.mbe_diagnostics.specs.Lints.Lint.{lint_seen};
ghost use Rattle.mbe_diagnostics.specs.Lints.UnreachableLints as spec;

use crate::diagnostic::Level;
use crate::lints::lint::{Lint, push};
use crate::lints::variable_syntax::up_to;
use mbe_rewriter::macro_items::MacroDefinition;
use mbe_tt::span::Span;
use mbe_tt::tt::{Leaf, TokenTreesView, TtElement};
use std::alloc::{AllocError, Allocator};

fn is_separator_leaf<A: Allocator>(leaf: &Leaf<A>) -> bool
    ensures { result ≡ spec.is_separator_leaf (leaf_of leaf.now) }
{
    match leaf {
        Leaf::Punct(punct) => punct.char == ';' || punct.char == ',',
        Leaf::Literal(_) | Leaf::Ident(_) => false,
    }
}

fn is_separator<A: Allocator>(tree: TtElement<'_, A>) -> bool
    ensures { result ≡ spec.is_separator (element_tree tree.entry) }
{
    match tree {
        TtElement::Leaf(leaf) => is_separator_leaf(leaf),
        TtElement::Subtree(_, _) => false,
    }
}

fn tree_place<A: Allocator>(tree: TtElement<'_, A>) -> Span
    ensures { result ≡ spec.tree_place (element_tree tree.entry) }
{
    match tree {
        TtElement::Leaf(leaf) => leaf.span(),
        TtElement::Subtree(group, _) => up_to(group.delimiter.opening, group.delimiter.close),
    }
}

// Returns the span of the first tree of a rule, whose number counts from 0. If there is no such
// rule, returns `other`.
fn rule_place<A: Allocator>(rules: TokenTreesView<'_, A>, number: usize, other: Span) -> Span
    ensures { result ≡ spec.rule_place other number (trees rules.entry) }
{
    let mut left = number;
    let mut iter = rules.iter();
    'trees: while let Some(tree) = iter.next() {
        if left == 0 {
            return tree_place(tree);
        }
        if is_separator(tree) {
            left -= 1;
        }
    }
    other
}

fn place_in<A: Allocator>(defined: MacroDefinition<'_, A>, number: usize) -> Span
    ensures { result ≡ spec.place_in (macro_definition_shown defined.entry) number }
{
    rule_place(defined.rules, number, defined.name.span)
}

pub(crate) fn number_of(index: usize) -> usize
    ensures { result ≡ spec.number_of index }
{
    index.saturating_add(1)
}

#[tactic(auto, unfolding(crate::specs::Lints::UnreachableLints::unreachable_text))]
fn unreachable_text<A: Allocator>(alloc: A, earlier: usize) -> Result<String<A>, AllocError>
    ensures { IfOk result (λ text. string_bytes text ≡ spec.unreachable_text earlier) }
{
    format!(in alloc; "unreachable rule: rule {earlier} matches everything it does")
}

#[tactic(auto, unfolding(crate::specs::Lints::UnreachableLints::earlier_text))]
fn earlier_text<A: Allocator>(alloc: A, earlier: usize, name: &str) -> Result<String<A>, AllocError>
    ensures { IfOk result (λ text. string_bytes text ≡ spec.earlier_text earlier name.now) }
{
    format!(in alloc; "rule {earlier} of `{name}!`")
}

fn push_unreachable<A: Allocator + Copy>(
    alloc: A,
    lints: &mut Vec<Lint<A>, A>,
    defined: MacroDefinition<'_, A>,
    rule: usize,
    earlier: usize,
) -> Result<(), AllocError>
    ensures { OnOk result (map lint_seen lints.new.items ≡ map lint_seen lints.old.items
        ++ spec.unreachable_lint (macro_definition_shown defined.entry) (rule, earlier)) }
{
    let number = number_of(earlier);
    let message = unreachable_text(alloc, number)?;
    push(lints, Level::Warning, place_in(defined, rule), message)?;
    let message = earlier_text(alloc, number, defined.name.sym.as_str())?;
    push(lints, Level::Note, place_in(defined, earlier), message)
}

/// Adds the lints for unreachable rules of a definition. Each pair has the index of the rule, and
/// the index of the earlier rule that matches everything it does. `AllocError` if out of memory.
pub fn push_all_unreachable<A: Allocator + Copy>(
    alloc: A,
    lints: &mut Vec<Lint<A>, A>,
    defined: MacroDefinition<'_, A>,
    unreachable_rules: &[(usize, usize)],
) -> Result<(), AllocError>
    ensures { OnOk result (map lint_seen lints.new.items ≡ map lint_seen lints.old.items
        ++ spec.unreachable_lints (macro_definition_shown defined.entry) unreachable_rules.now) }
{
    for (rule, earlier) in unreachable_rules {
        push_unreachable(alloc, lints, defined, *rule, *earlier)?;
    }
    Ok(())
}
