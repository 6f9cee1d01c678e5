// What the tokens of a call's argument are to the rule that expands the call.
//
// A token of the fragment of a variable is found by its span. Any other token is one that the
// pattern has itself.
ghost use Rattle.mbe_semantics.specs.Expansion.Macro.{IsChecked};
ghost use Rattle.mbe.specs.MacroViews.{macro_of};

use crate::call_reader::CallReader;
use mbe::{Binding, Bindings, DeclarativeMacro, Fragment, MetaVarKind};
use mbe_answers::expanded_calls::{ArgumentToken, TokenRole};
use mbe_diagnostics::rule_checks::variables::{PatternVariable, variables_in};
use mbe_session::file_expander::call_steps::CallStep;
use mbe_tt::span::Span;
use mbe_tt::symbol::Symbol;
use mbe_tt::tt::{TokenTreesView, TtElement};
use std::alloc::{AllocError, Global};

// The tokens of fragments.
#[derive(Drop)]
struct BoundTokens {
    // The number of the byte at which each token starts, and the index of its role; sorted.
    starts: Vec<(u64, usize)>,
    roles: Vec<TokenRole>,
}

// Returns a number for where a span starts: its file and its byte.
fn start_of(span: Span) -> u64 {
    (span.file as u64) << 32 | span.start as u64
}

// Returns the spans of the tokens of these trees, without brackets.
fn leaf_spans(alloc: Global, trees: TokenTreesView<'_>) -> Result<Vec<Span>, AllocError> {
    let mut spans = Vec::new(alloc);
    let mut cursor = trees.cursor();
    for _ in 0..trees.flat_len() {
        if let Some(TtElement::Leaf(leaf)) = cursor.token_tree() {
            spans.push(leaf.span())?;
        }
        cursor.bump_or_end();
    }
    Ok(spans)
}

// Returns the trees of a fragment.
fn trees_of<'b>(fragment: &'b Fragment<'_>) -> Option<TokenTreesView<'b>> {
    if let Fragment::TokensOwned(tree) = fragment {
        return Some(tree.view());
    }
    match fragment {
        Fragment::Empty | Fragment::TokensOwned(_) => None,
        Fragment::Tokens { tree, .. } => Some(*tree),
        Fragment::Expr(tree) | Fragment::Path(tree) => Some(*tree),
        Fragment::Whole { tree, .. } => Some(*tree),
    }
}

// Returns the role of a token of a fragment. `is_alone` says whether it is the only token.
fn role_of(kind: Option<MetaVarKind>, is_alone: bool) -> TokenRole {
    match kind {
        Some(MetaVarKind::Ident) => TokenRole::Name,
        Some(MetaVarKind::Expr(_) | MetaVarKind::Pat | MetaVarKind::PatParam) if is_alone => {
            TokenRole::Name
        }
        Some(MetaVarKind::Ty | MetaVarKind::Path) => TokenRole::Type,
        Some(MetaVarKind::Lifetime) => TokenRole::Lifetime,
        Some(MetaVarKind::Vis) => TokenRole::Visibility,
        Some(MetaVarKind::Meta) => TokenRole::Attribute,
        Some(_) | None => TokenRole::Other,
    }
}

// Adds the bindings of rounds to what is still to be looked at.
fn push_rounds<'b, 't>(
    pending: &mut Vec<&'b Binding<'t>>,
    rounds: &'b [Binding<'t>],
) -> Result<(), AllocError> {
    for round in rounds {
        pending.push(round)?;
    }
    Ok(())
}

impl BoundTokens {
    // Adds the tokens of a fragment.
    fn add_fragment(
        &mut self,
        alloc: Global,
        fragment: &Fragment<'_>,
        kind: Option<MetaVarKind>,
    ) -> Result<(), AllocError> {
        let Some(trees) = trees_of(fragment) else {
            return Ok(());
        };
        let spans = leaf_spans(alloc, trees)?;
        let role = role_of(kind, spans.len() == 1);
        for span in spans.iter() {
            self.starts.push((start_of(*span), self.roles.len()))?;
        }
        self.roles.push(role)?;
        Ok(())
    }

    // Adds the tokens of what a variable of that kind is bound to, in all rounds.
    fn add_binding(
        &mut self,
        alloc: Global,
        binding: &Binding<'_>,
        kind: Option<MetaVarKind>,
    ) -> Result<(), AllocError> {
        let mut pending = Vec::new(alloc);
        pending.push(binding)?;
        for _ in 0..u64::MAX {
            match pending.pop() {
                Some(Binding::Fragment(fragment)) => self.add_fragment(alloc, fragment, kind)?,
                Some(Binding::Nested(rounds)) => push_rounds(&mut pending, rounds.as_slice())?,
                Some(Binding::Empty | Binding::Missing(_)) => {}
                None => break,
            }
        }
        Ok(())
    }

    // Adds the tokens of what these variables are bound to.
    fn add_bindings(
        &mut self,
        alloc: Global,
        variables: &[PatternVariable<'_>],
        bindings: &Bindings<'_>,
    ) -> Result<(), AllocError> {
        for variable in variables {
            let name = Symbol::intern(alloc, variable.name)?;
            if let Some(binding) = bindings.get(&name) {
                self.add_binding(alloc, binding, variable.kind)?;
            }
        }
        self.starts.sort_unstable();
        Ok(())
    }

    // Returns the role of the token that starts there.
    fn role_at(&self, span: Span) -> TokenRole {
        let starts = self.starts.as_slice();
        let start = start_of(span);
        let at = starts.partition_point(|one| one.0 < start);
        match starts.get(at) {
            Some((found, role)) if *found == start => {
                self.roles.get(*role).copied().unwrap_or(TokenRole::Other)
            }
            Some(_) | None => TokenRole::Literal,
        }
    }

    // Adds the tokens of an argument with their roles.
    fn add_tokens(
        &self,
        reader: CallReader<'_>,
        argument: TokenTreesView<'_>,
        found: &mut Vec<ArgumentToken>,
    ) -> Result<(), AllocError> {
        for span in leaf_spans(reader.alloc, argument)?.iter() {
            if let Some(extent) = reader.extent(*span) {
                let (file, role) = (span.file as usize, self.role_at(*span));
                found.push(ArgumentToken { file, extent, role })?;
            }
        }
        Ok(())
    }
}

// Returns the tokens that the variables of a rule are bound to.
fn bound_tokens(
    alloc: Global,
    rules: &DeclarativeMacro,
    rule: usize,
    bindings: &Bindings<'_>,
) -> Result<BoundTokens, AllocError> {
    let mut bound = BoundTokens {
        starts: Vec::new(alloc),
        roles: Vec::new(alloc),
    };
    if rule < rules.num_rules() {
        let variables = variables_in(alloc, rules.pattern(rule))?;
        bound.add_bindings(alloc, variables.as_slice(), bindings)?;
    }
    Ok(bound)
}

/// Adds the tokens of the argument of a call with their roles in a rule.
pub(crate) fn add_argument(
    reader: CallReader<'_>,
    step: &CallStep,
    rules: &DeclarativeMacro,
    rule: usize,
    found: &mut Vec<ArgumentToken>,
) -> Result<(), AllocError>
    requires checked { IsChecked (macro_of rules.now) }
{
    if rule >= rules.num_rules() {
        return Ok(());
    }
    match rules.bindings(reader.alloc, &reader.grammar, &step.argument, rule)? {
        Some(bindings) => {
            let bound = bound_tokens(reader.alloc, rules, rule, &bindings)?;
            bound.add_tokens(reader, step.argument.iter().remaining(), found)
        }
        None => Ok(()),
    }
}
