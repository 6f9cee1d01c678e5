// How messages display a variable: its spans and its specifier.
ghost use Rattle.std.specs.Prelude.{◌≡◌, option_map};
ghost use Rattle.mbe_rewriter.specs.MacroItemViews.{macro_definition_shown};
ghost use Rattle.mbe_tt.specs.Views.LeafViews.{ident_of};
ghost use Rattle.mbe_diagnostics.specs.Lints.VariableDisplay as spec;
ghost use Rattle.mbe_diagnostics.specs.Lints.VariableDisplay.{display_seen};

use crate::lints::variable_syntax::find_variable;
use mbe_rewriter::macro_items::MacroDefinition;
use mbe_semantics::fragment_kinds::MetaVarKind;
use mbe_tt::span::Span;
use mbe_tt::tt::Ident;
use std::alloc::Allocator;

/// A variable as messages show it. Clauses see it by `display_seen`.
#[derive(Drop)]
pub struct VariableDisplay<'t> {
    /// The span of its `$` and its name.
    pub name_span: Span,
    /// The span of its `$`, its name and its specifier.
    pub full_span: Span,
    /// Its specifier, or `?` if neither that nor the kind is known.
    pub specifier: &'t str,
    /// The span of the specifier.
    pub specifier_span: Span,
}

fn kind_text(kind: Option<MetaVarKind>) -> &'static str
    ensures { result.now ≡ spec.kind_text kind }
{
    match kind {
        None => "?",
        Some(kind) => kind.specifier(),
    }
}

fn display_from<'t, A: Allocator>(
    name_span: Span,
    full_span: Span,
    kind: Option<MetaVarKind>,
    specifier: Option<&'t Ident<A>>,
) -> VariableDisplay<'t>
    ensures { display_seen result ≡ spec.display_from name_span full_span kind
        (option_map (λ i. ident_of i.now) specifier.entry) }
{
    match specifier {
        None => VariableDisplay {
            name_span,
            full_span,
            specifier: kind_text(kind),
            specifier_span: full_span,
        },
        Some(specifier) => VariableDisplay {
            name_span,
            full_span,
            specifier: specifier.sym.as_str(),
            specifier_span: specifier.span,
        },
    }
}

/// Returns how to display the variable of a definition whose name begins at `place`. If no such
/// variable is found, its kind alone gives the specifier.
#[tactic(auto, unfolding(crate::specs::Lints::VariableDisplay::variable_display))]
pub fn display_variable<'t, A: Allocator>(
    defined: MacroDefinition<'t, A>,
    place: Span,
    kind: Option<MetaVarKind>,
) -> VariableDisplay<'t>
    ensures { display_seen result
        ≡ spec.variable_display (macro_definition_shown defined.entry) place kind }
{
    match find_variable(defined, place) {
        None => display_from::<A>(place, place, kind, None),
        Some(written) => display_from(
            written.name_span,
            written.full_span,
            kind,
            written.specifier,
        ),
    }
}
