// Macros that may be expanded. `DeclarativeMacro::expand` requires that no pattern was refused.
// `CheckedMacro` is a macro for which this was checked once.
ghost use Rattle.std.specs.Prelude.{◌≡◌, false, IfOk, IfErr};
ghost use Rattle.mbe_semantics.specs.Expansion.Macro.{IsChecked};
ghost use Rattle.mbe.specs.MacroViews.{macro_of};
ghost use Rattle.mbe.specs.RefusedMacro.{is_refused};

use crate::macros::DeclarativeMacro;
use mbe_ops::errors::error::ParseError;
use std::alloc::{Allocator, Global};

/// A macro without a refused pattern, or without rules. `as_macro` returns it with the proof of
/// that, which `DeclarativeMacro::expand` and the other calls require.
///
/// Contracts see it by `checked_of`, as the macro that it was made of. The type is this project's
/// own.
#[derive(Drop)]
#[derive_where(Debug)]
pub struct CheckedMacro<A: Allocator = Global> {
    defined: DeclarativeMacro<A>,
    ghost unrefused: { is_refused (macro_of defined) ≡ false },
}

impl<A: Allocator> DeclarativeMacro<A> {
    ghost use Rattle.mbe.specs.CheckedViews.{checked_of};

    /// Returns the macro as one that may be expanded. Returns the macro unchanged if one of its
    /// patterns was refused: then its `err` is `RepetitionEmptyTokenTree`, and it has a rule.
    pub fn checked(self) -> Result<CheckedMacro<A>, DeclarativeMacro<A>>
        ensures ok { IfOk result (λ m. (checked_of m ≡ macro_of self) × IsChecked (macro_of self)) }
        ensures refused { IfErr result (λ m. (m ≡ self) × (IsChecked (macro_of self) → ⊥)) }
    {
        if self.is_refused() {
            return Err(self);
        }
        Ok(CheckedMacro { defined: self })
    }

    // Returns whether a pattern was refused.
    fn is_refused(&self) -> bool
        ensures { result ≡ is_refused (macro_of self.now) }
    {
        self.num_rules() > 0 && matches!(self.err(), Some(ParseError::RepetitionEmptyTokenTree))
    }
}

impl<A: Allocator> CheckedMacro<A> {
    ghost use Rattle.mbe.specs.CheckedViews.{checked_of};

    /// Returns the macro that it was made of. It may be expanded.
    pub fn as_macro(&self) -> &DeclarativeMacro<A>
        ensures same { macro_of result.now ≡ checked_of self.now }
        ensures checked { IsChecked (macro_of result.now) }
    {
        &self.defined
    }
}
