// The definitions of a scope, by their numbers.
ghost use Rattle.std.specs.Prelude.{◌≡◌, option_map};
ghost use Rattle.mbe.specs.MacroViews.{macro_of};
ghost use Rattle.mbe_session.specs.Scopes as spec;
ghost use Rattle.mbe_session.specs.SessionViews.{definition_of, scope_of};

use crate::scope::Scope;
use mbe::DeclarativeMacro;
use mbe_tt::span::Span;
use std::alloc::Allocator;

impl<A: Allocator + Copy> Scope<A> {
    /// Returns the rules of the definition of that number.
    pub fn rules_at(&self, number: usize) -> Option<&DeclarativeMacro<A>>
        ensures { option_map (λ m. macro_of m.now) result
            ≡ option_map (λ d. d.rules) (spec.definition_at (scope_of self.now) number) }
    {
        match self.definition(number) {
            Some(found) => Some(&found.rules),
            None => None,
        }
    }

    /// Returns the span of the name of the definition of that number.
    pub fn name_span_at(&self, number: usize) -> Option<Span>
        ensures { result
            ≡ option_map (λ d. d.place) (spec.definition_at (scope_of self.now) number) }
    {
        match self.definition(number) {
            Some(found) => Some(found.place),
            None => None,
        }
    }
}
