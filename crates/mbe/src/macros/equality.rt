// Equality and copies of macros.
ghost use Rattle.std.specs.Prelude.{◌≡◌, ◌↔◌, IsTrue, IfOk, option_map};
ghost use Rattle.mbe_ops.specs.Equality.{IsSameMacro};
ghost use Rattle.mbe_ops.specs.Errors.ErrorViews.{parse_error_of};
ghost use Rattle.mbe.specs.MacroViews.{macro_of};

use crate::macros::DeclarativeMacro;
use mbe_ops::errors::error::ParseError;
use mbe_parser::equality::{clone_rules, same_rules};
use std::alloc::{AllocError, Allocator};

impl<A: Allocator + Copy> DeclarativeMacro<A> {
    /// Returns an equal copy. `AllocError` if out of memory.
    pub fn try_clone(&self, alloc: A) -> Result<DeclarativeMacro<A>, AllocError>
        ensures { IfOk result (λ copy. macro_of copy ≡ macro_of self.now) }
    {
        let rules = clone_rules(alloc, &self.rules)?;
        let err = clone_fault(alloc, &self.err)?;
        Ok(DeclarativeMacro { rules, err })
    }
}

fn clone_fault<A: Allocator + Copy>(
    alloc: A,
    err: &Option<ParseError<A>>,
) -> Result<Option<ParseError<A>>, AllocError>
    ensures { IfOk result (λ copy. option_map parse_error_of copy
        ≡ option_map parse_error_of err.now) }
{
    match err {
        Some(err) => Ok(Some(err.try_clone(alloc)?)),
        None => Ok(None),
    }
}

/// Two macros are equal if their rules and errors are, with spans. Only separators are compared by
/// their texts alone (as in rust-analyzer).
impl<A: Allocator> PartialEq for DeclarativeMacro<A> {
    ghost use Rattle.mbe_ops.specs.Codes.{macro_eq, macro_eq_laws};
    ghost use Rattle.std.specs.Cmp.{partial_equiv_from_equiv};
    ghost use Rattle.std.proofs.lemmas.Cmp.{on_equiv};

    ghost eq = { λ x y. macro_eq (macro_of x) (macro_of y) };

    ghost laws = { partial_equiv_from_equiv (on_equiv macro_of macro_eq_laws) };

    fn eq(&self, other: &DeclarativeMacro<A>) -> bool {
        same_macro(self, other)
    }
}

impl<A: Allocator> Eq for DeclarativeMacro<A> {
    ghost use Rattle.mbe_ops.specs.Codes.{macro_eq_laws};
    ghost use Rattle.std.proofs.lemmas.Cmp.{on_equiv};

    ghost laws = { on_equiv macro_of macro_eq_laws };
}

fn same_macro<A: Allocator>(one: &DeclarativeMacro<A>, two: &DeclarativeMacro<A>) -> bool
    ensures { IsTrue result ↔ IsSameMacro (macro_of one.now) (macro_of two.now) }
{
    same_rules(&one.rules, &two.rules) && same_faults(&one.err, &two.err)
}

fn same_faults<A: Allocator>(one: &Option<ParseError<A>>, two: &Option<ParseError<A>>) -> bool
    ensures { IsTrue result
        ↔ (option_map parse_error_of one.now ≡ option_map parse_error_of two.now) }
{
    one == two
}
