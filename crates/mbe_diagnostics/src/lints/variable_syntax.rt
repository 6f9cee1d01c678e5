// Finds a variable in the tokens of a definition, by the span of its name.
ghost use Rattle.std.specs.Prelude.{◌≡◌, option_map};
ghost use Rattle.mbe_tt.specs.Views.Element.{element_tree};
ghost use Rattle.mbe_tt.specs.Views.LeafViews.{ident_of};
ghost use Rattle.mbe_tt.specs.Views.View.{trees};
ghost use Rattle.mbe_rewriter.specs.MacroItemViews.{macro_definition_shown, definition_form_shown};
ghost use Rattle.mbe_diagnostics.specs.Lints.VariableSyntax as spec;
ghost use Rattle.mbe_diagnostics.specs.Lints.VariableSyntax.{syntax_seen};

use mbe_rewriter::macro_items::{DefinitionForm, MacroDefinition};
use mbe_tt::span::Span;
use mbe_tt::tt::{Ident, TokenTreesView, TtElement};
use std::alloc::{Allocator, Global};

/// How deep groups may be nested where a variable is looked for.
const LEVELS: u32 = 1000;

/// A variable as it is written in a definition. Clauses see it by `syntax_seen`.
#[derive(Drop)]
pub struct VariableSyntax<'t, A: Allocator = Global> {
    /// The span of its `$` and its name.
    pub name_span: Span,
    /// The span of its `$`, its name and its specifier, if it has one.
    pub full_span: Span,
    pub specifier: Option<&'t Ident<A>>,
}

fn begins_at<A: Allocator>(place: Span, name: &Ident<A>) -> bool
    ensures { result ≡ spec.begins_at place (ident_of name.now) }
{
    name.span.file == place.file && name.span.start == place.start
}

// Returns the span from the start of one span to the end of another.
pub(crate) fn up_to(start: Span, end: Span) -> Span
    ensures { result ≡ spec.up_to start end }
{
    Span {
        file: start.file,
        ast: start.ast,
        start: start.start,
        end: end.end,
        ctx: start.ctx,
    }
}

// Returns the name after a `:` at the front of these trees.
fn specifier_at<'t, A: Allocator>(tokens: TokenTreesView<'t, A>) -> Option<&'t Ident<A>>
    ensures { option_map (λ i. ident_of i.now) result ≡ spec.specifier_at (trees tokens.entry) }
{
    let mut iter = tokens.iter();
    let punct = iter.expect_single_punct().ok()?;
    if punct.char == ':' {
        iter.expect_ident().ok()
    } else {
        None
    }
}

// Returns the variable with that `$`, name and specifier.
fn make_variable<'t, A: Allocator>(
    dollar: Span,
    name: &Ident<A>,
    specifier: Option<&'t Ident<A>>,
) -> VariableSyntax<'t, A>
    ensures { syntax_seen result ≡ spec.make_variable dollar (ident_of name.now)
        (option_map (λ i. ident_of i.now) specifier.entry) }
{
    let name_span = up_to(dollar, name.span);
    let full_span = match specifier {
        None => name_span,
        Some(specifier) => up_to(dollar, specifier.span),
    };
    VariableSyntax {
        name_span,
        full_span,
        specifier,
    }
}

// Returns the variable that a `$` before these trees begins, if its name begins at `place`.
fn variable_after<'t, A: Allocator>(
    place: Span,
    dollar: Span,
    tokens: TokenTreesView<'t, A>,
) -> Option<VariableSyntax<'t, A>>
    ensures { option_map syntax_seen result
        ≡ spec.variable_after place dollar (trees tokens.entry) }
{
    let mut iter = tokens.iter();
    let name = iter.expect_ident().ok()?;
    if begins_at(place, name) {
        Some(make_variable(dollar, name, specifier_at(iter.remaining())))
    } else {
        None
    }
}

// Returns the variable at the front of these trees, if its name begins at `place`.
fn variable_at<'t, A: Allocator>(
    place: Span,
    tokens: TokenTreesView<'t, A>,
) -> Option<VariableSyntax<'t, A>>
    ensures { option_map syntax_seen result ≡ spec.variable_at place (trees tokens.entry) }
{
    let mut iter = tokens.iter();
    let punct = iter.expect_single_punct().ok()?;
    if punct.char == '$' {
        variable_after(place, punct.span, iter.remaining())
    } else {
        None
    }
}

#[cycle(written)]
fn find_in<'t, A: Allocator>(
    tokens: TokenTreesView<'t, A>,
    place: Span,
    levels: u32,
) -> Option<VariableSyntax<'t, A>>
    ensures { option_map syntax_seen result ≡ spec.find_in levels place (trees tokens.entry) }
{
    if levels == 0 {
        return None;
    }
    let mut iter = tokens.iter();
    'trees: loop {
        let here = iter.remaining();
        let Some(tree) = iter.next() else {
            return None;
        };
        if let Some(found) = find_at_front(tree, here, place, levels - 1) {
            return Some(found);
        }
    }
}

// Returns the variable at the front of these trees, or the one in their first tree.
#[cycle(written)]
fn find_at_front<'t, A: Allocator>(
    first: TtElement<'t, A>,
    tokens: TokenTreesView<'t, A>,
    place: Span,
    levels: u32,
) -> Option<VariableSyntax<'t, A>>
    ensures { option_map syntax_seen result
        ≡ spec.find_at_front (spec.find_in levels place) place
        (element_tree first.entry) (trees tokens.entry) }
{
    match first {
        TtElement::Leaf(_) => variable_at(place, tokens),
        TtElement::Subtree(_, inside) => find_in(inside.remaining(), place, levels),
    }
}

// Returns the variable in the pattern of `macro name(pattern) { template }`.
fn find_in_arguments<'t, A: Allocator>(
    form: DefinitionForm<'t, A>,
    place: Span,
) -> Option<VariableSyntax<'t, A>>
    ensures { option_map syntax_seen result
        ≡ spec.find_in_arguments place (definition_form_shown form.entry) }
{
    match form {
        DefinitionForm::Rules | DefinitionForm::Body => None,
        DefinitionForm::Arguments(_, pattern) => find_in(pattern, place, LEVELS),
    }
}

/// Returns the variable of a definition whose name begins at `place`, if it is found. It isn't
/// found deeper than `LEVELS` groups.
pub fn find_variable<'t, A: Allocator>(
    defined: MacroDefinition<'t, A>,
    place: Span,
) -> Option<VariableSyntax<'t, A>>
    ensures { option_map syntax_seen result
        ≡ spec.find_variable (macro_definition_shown defined.entry) place }
{
    match find_in_arguments(defined.form, place) {
        Some(found) => Some(found),
        None => find_in(defined.rules, place, LEVELS),
    }
}
