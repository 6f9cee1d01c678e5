// The fragments that the variables of a rule are bound to, and the origin of each token of an
// expansion.
use crate::token_text::source_tokens;
use mbe::{Binding, Bindings, Fragment, MetaVarKind};
use mbe_diagnostics::rule_checks::variables::PatternVariable;
use mbe_tt::span::Span;
use mbe_tt::symbol::Symbol;
use mbe_tt::tt::TokenTreesView;
use std::alloc::{AllocError, Global};

/// The greatest depth of nested rounds that are searched.
const LEVELS: u32 = 64;

/// A token of a fragment.
#[derive(Drop)]
struct FragmentToken {
    span: Span,
    /// The index of the variable in the pattern.
    variable: usize,
    /// At the first token of a fragment, the numbers of its rounds, such as `2.1`. Empty outside of
    /// repetitions, and at the other tokens.
    round: String,
}

/// Where a token of an expansion comes from.
#[derive(Clone, Copy, Drop)]
pub enum TokenOrigin<'t> {
    /// The template of the rule.
    Template,
    /// The fragment of a variable, given by its index. A token that begins the fragment of a round
    /// knows which rounds.
    Variable { variable: usize, round: &'t str },
    /// The argument, by one of several variables.
    Argument,
    /// Neither: the expander added the token.
    Added,
}

/// The tokens of all fragments, by where they come from.
#[derive(Drop)]
pub struct FragmentTokens {
    tokens: Vec<FragmentToken>,
    // The key of each token's span and the token's index, sorted.
    keys: Vec<(u64, usize)>,
}

// Returns a number for where a span begins: its file and its byte.
fn span_key(span: Span) -> u64 {
    (span.file as u64) << 32 | span.start as u64
}

fn has_same_start(one: Span, other: Span) -> bool {
    one.file == other.file && one.start == other.start && one.ctx.0 == other.ctx.0
}

// Returns the trees of a fragment.
fn trees_of<'b>(fragment: &'b Fragment<'_>) -> Option<TokenTreesView<'b>> {
    if let Fragment::TokensOwned(tree) = fragment {
        return Some(tree.view());
    }
    match fragment {
        Fragment::Empty | Fragment::TokensOwned(_) => None,
        Fragment::Tokens { tree, .. } => Some(*tree),
        Fragment::Expr(tree) | Fragment::Path(tree) => Some(*tree),
        Fragment::Whole { tree, .. } => Some(*tree),
    }
}

/// Returns the trees of a binding that is a fragment.
pub fn fragment_trees<'b>(binding: &'b Binding<'_>) -> Option<TokenTreesView<'b>> {
    match binding {
        Binding::Fragment(fragment) => trees_of(fragment),
        Binding::Nested(_) | Binding::Empty | Binding::Missing(_) => None,
    }
}

// Returns the label of a round inside the rounds `outer`. It is empty if rounds aren't numbered.
fn round_label(
    alloc: Global,
    outer: &str,
    index: usize,
    is_numbered: bool,
) -> Result<String, AllocError> {
    let number = index.saturating_add(1);
    if !is_numbered {
        Ok(String::new(alloc))
    } else if outer.is_empty() {
        format!(in alloc; "{number}")
    } else {
        format!(in alloc; "{outer}.{number}")
    }
}

impl FragmentTokens {
    fn push_token(
        &mut self,
        alloc: Global,
        span: Span,
        variable: usize,
        round: &str,
    ) -> Result<(), AllocError> {
        let index = self.tokens.len();
        self.keys.push((span_key(span), index))?;
        self.tokens.push(FragmentToken {
            span,
            variable,
            round: String::from_str(alloc, round)?,
        })?;
        Ok(())
    }

    // Adds the tokens of the trees of a fragment.
    fn push_trees(
        &mut self,
        alloc: Global,
        trees: TokenTreesView<'_>,
        variable: usize,
        round: &str,
    ) -> Result<(), AllocError> {
        for (index, token) in source_tokens(alloc, trees)?.iter().enumerate() {
            let round = if index == 0 { round } else { "" };
            self.push_token(alloc, token.span, variable, round)?;
        }
        Ok(())
    }

    // Adds the tokens of a binding. `is_numbered` says whether tokens know their rounds.
    fn push_binding(
        &mut self,
        alloc: Global,
        binding: &Binding<'_>,
        variable: usize,
        round: &str,
        is_numbered: bool,
        levels: u32,
    ) -> Result<(), AllocError> {
        if let Some(trees) = fragment_trees(binding) {
            return self.push_trees(alloc, trees, variable, round);
        }
        if levels == 0 {
            return Ok(());
        }
        if let Binding::Nested(rounds) = binding {
            for (index, inner) in rounds.iter().enumerate() {
                let label = round_label(alloc, round, index, is_numbered)?;
                let label = label.as_str();
                self.push_binding(alloc, inner, variable, label, is_numbered, levels - 1)?;
            }
        }
        Ok(())
    }

    // Adds the tokens of a variable's binding. A `tt` has no rounds here: each token is one.
    fn push_variable(
        &mut self,
        alloc: Global,
        binding: &Binding<'_>,
        variable: usize,
        kind: Option<MetaVarKind>,
    ) -> Result<(), AllocError> {
        let is_numbered = kind != Some(MetaVarKind::Tt);
        self.push_binding(alloc, binding, variable, "", is_numbered, LEVELS)
    }

    // Returns the tokens that begin where that span does.
    fn tokens_at(&self, span: Span) -> &[(u64, usize)] {
        let key = span_key(span);
        let start = self.keys.as_slice().partition_point(|one| one.0 < key);
        let end = self.keys.as_slice().partition_point(|one| one.0 <= key);
        self.keys.as_slice().get(start..end).unwrap_or(&[])
    }

    /// Returns where a token of the expansion comes from. `contexts` are the syntax contexts that
    /// the template's tokens have: from the first number on, and before the second.
    pub fn origin_of(&self, contexts: (u32, u32), span: Span) -> TokenOrigin<'_> {
        if contexts.0 <= span.ctx.0 && span.ctx.0 < contexts.1 {
            return TokenOrigin::Template;
        }
        let mut origin = TokenOrigin::Added;
        for (_, index) in self.tokens_at(span) {
            if let Some(token) = self.tokens.get(*index)
                && has_same_start(token.span, span)
            {
                origin = joined(origin, token.variable, token.round.as_str());
            }
        }
        origin
    }
}

// Returns the origin of a token that has that origin, and is a token of a variable's fragment too.
fn joined<'t>(origin: TokenOrigin<'t>, variable: usize, round: &'t str) -> TokenOrigin<'t> {
    match origin {
        TokenOrigin::Variable {
            variable: other,
            ..
        } if other != variable => TokenOrigin::Argument,
        TokenOrigin::Variable { .. } => TokenOrigin::Variable {
            variable,
            round: "",
        },
        TokenOrigin::Argument => TokenOrigin::Argument,
        TokenOrigin::Template | TokenOrigin::Added => TokenOrigin::Variable { variable, round },
    }
}

/// Returns the tokens of the fragments that these variables are bound to. `AllocError` if out of
/// memory.
pub fn fragment_tokens(
    alloc: Global,
    variables: &[PatternVariable<'_>],
    bindings: Option<&Bindings<'_>>,
) -> Result<FragmentTokens, AllocError> {
    let mut found = FragmentTokens {
        tokens: Vec::new(alloc),
        keys: Vec::new(alloc),
    };
    if let Some(bindings) = bindings {
        for (index, variable) in variables.iter().enumerate() {
            let name = Symbol::intern(alloc, variable.name)?;
            if let Some(binding) = bindings.get(&name) {
                found.push_variable(alloc, binding, index, variable.kind)?;
            }
        }
    }
    found.keys.sort_unstable();
    Ok(found)
}
