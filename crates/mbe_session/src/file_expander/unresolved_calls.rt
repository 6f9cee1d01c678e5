// Notes why a call resolves to no definition, although a definition has its name. Either no
// definition of that name is in scope, or the call may mean several.
ghost use Rattle.std.specs.Prelude.{◌≡◌, OnOk};
ghost use Rattle.mbe_session.specs.SessionViews.{setting_of, state_of};

use crate::file_expander::FileExpander;
use crate::notes::Level;
use crate::scope::resolution::{Doubt, is_prelude_macro};
use mbe_rewriter::macro_items::MacroCall;
use mbe_tt::span::Span;
use std::alloc::{AllocError, Allocator};

impl<A: Allocator + Copy> FileExpander<'_, A> {
    /// Notes why a call resolves to no definition, if some definition has its name, and counts the
    /// call. `AllocError` if out of memory.
    pub(crate) fn note_unresolved(&mut self, call: MacroCall<'_, A>) -> Result<(), AllocError>
        ensures setting { OnOk result (setting_of self.new ≡ setting_of self.old) }
        ensures state { OnOk result (state_of self.new ≡ state_of self.old) }
    {
        let Some(doubt) = self.scope.doubt(call) else {
            if is_unknown(call) {
                self.counts.add_unknown();
                self.note_unknown(call)?;
            }
            return Ok(());
        };
        self.counts.add_call();
        match doubt {
            Doubt::OutOfScope(place) => self.note_out_of_scope(call, place),
            Doubt::Unsure(place, rival) => self.note_unsure(call, place, rival),
        }
    }

    // Notes that the only definitions with the name of the call aren't in scope.
    fn note_out_of_scope(&mut self, call: MacroCall<'_, A>, place: Span) -> Result<(), AllocError>
        ensures setting { OnOk result (setting_of self.new ≡ setting_of self.old) }
        ensures state { OnOk result (state_of self.new ≡ state_of self.old) }
    {
        let name = call.name.sym.as_str();
        let message = format!(in self.alloc; "cannot find macro `{name}` in this scope")?;
        self.note(Level::Note, call.name.span, message)?;
        self.note_defined_at(call, place)
    }

    // Notes that several definitions may be meant, and where up to two of them are.
    fn note_unsure(
        &mut self,
        call: MacroCall<'_, A>,
        place: Span,
        rival: Option<Span>,
    ) -> Result<(), AllocError>
        ensures setting { OnOk result (setting_of self.new ≡ setting_of self.old) }
        ensures state { OnOk result (state_of self.new ≡ state_of self.old) }
    {
        let name = call.name.sym.as_str();
        let message = format!(in self.alloc; "cannot tell which macro `{name}` is")?;
        self.note(Level::Note, call.name.span, message)?;
        self.note_defined_at(call, place)?;
        match rival {
            Some(other) => self.note_defined_at(call, other),
            None => Ok(()),
        }
    }
}

// Whether a call that resolves to no definition is of a macro that isn't the standard library's.
fn is_unknown<A: Allocator>(call: MacroCall<'_, A>) -> bool {
    let is_standard = if call.is_path {
        matches!(call.first.sym.as_str(), "std" | "core" | "alloc")
    } else {
        is_prelude_macro(call.name.sym.as_str())
    };
    !is_standard
}
