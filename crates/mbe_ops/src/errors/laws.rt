// Laws about the equality of errors and of results. They run nothing.
ghost use Rattle.std.specs.Prelude.{◌≡◌, ◌↔◌, IsTrue};
ghost use Rattle.std.specs.Option.{option_eq};
ghost use Rattle.mbe_ops.specs.Errors.ErrorViews.{parse_error_of, kind_of, error_of};

use crate::errors::error::{CountError, ExpandError, ExpandErrorKind, ParseError};
use crate::errors::value_result::ValueResult;
use mbe_tt::span::Span;
use std::alloc::Allocator;
use std::hash::Hash;

/// Two errors of definitions are equal exactly if they have the same kind and text.
pub fn parse_errors_agree<A: Allocator>()
    ensures { (x y : _) → IsTrue (⟦<ParseError<A> as PartialEq>⟧.eq x y)
        ↔ (parse_error_of x ≡ parse_error_of y) }
{}

/// Two kinds of errors are equal exactly if they have the same text. Equal kinds have equal hashes.
pub fn expand_error_kinds_agree<A: Allocator>()
    ensures equal { (x y : _) → IsTrue (⟦<ExpandErrorKind<A> as PartialEq>⟧.eq x y)
        ↔ (kind_of x ≡ kind_of y) }
    ensures hashed { (x y : _) → kind_of x ≡ kind_of y
        → ⟦<ExpandErrorKind<A> as Hash>⟧.hash_input x
        ≡ ⟦<ExpandErrorKind<A> as Hash>⟧.hash_input y }
{}

/// Two errors of expansions are equal exactly if span and kind are. Equal errors have equal hashes.
pub fn expand_errors_agree<A: Allocator>()
    ensures equal { (x y : _) → IsTrue (⟦<ExpandError<A> as PartialEq>⟧.eq x y)
        ↔ (error_of x ≡ error_of y) }
    ensures hashed { (x y : _) → error_of x ≡ error_of y
        → ⟦<ExpandError<A> as Hash>⟧.hash_input x ≡ ⟦<ExpandError<A> as Hash>⟧.hash_input y }
{
    spans_agree();
    expand_error_kinds_agree::<A>();
}

// Two spans are equal exactly if all their numbers are.
fn spans_agree()
    ensures { (x y : _) → IsTrue (⟦<Span as PartialEq>⟧.eq x y) ↔ (x ≡ y) }
{}

/// Two errors of counts are equal exactly if they are the same. Equal errors have equal hashes.
pub fn count_errors_agree()
    ensures equal { (x y : _) → IsTrue (⟦<CountError as PartialEq>⟧.eq x y) ↔ (x ≡ y) }
    ensures hashed { (x y : _) → x ≡ y
        → ⟦<CountError as Hash>⟧.hash_input x ≡ ⟦<CountError as Hash>⟧.hash_input y }
{}

/// Two results are equal exactly if their values are, and both have equal errors or both have none.
pub fn results_agree<T: PartialEq, E: PartialEq>()
    ensures { (x y : _) → IsTrue (⟦<ValueResult<T, E> as PartialEq>⟧.eq x y)
        ↔ (IsTrue (T.eq x.value y.value) × IsTrue (option_eq E.eq x.err y.err)) }
{}

/// If `==` of values and `==` of errors are equivalences, then `==` of results is one.
pub fn equal_results<T: Eq, E: Eq>()
    ensures reflexive { (x : _) → IsTrue (⟦<ValueResult<T, E> as PartialEq>⟧.eq x x) }
    ensures symmetric { (x y : _) → IsTrue (⟦<ValueResult<T, E> as PartialEq>⟧.eq x y)
        → IsTrue (⟦<ValueResult<T, E> as PartialEq>⟧.eq y x) }
    ensures transitive { (x y z : _) → IsTrue (⟦<ValueResult<T, E> as PartialEq>⟧.eq x y)
        → IsTrue (⟦<ValueResult<T, E> as PartialEq>⟧.eq y z)
        → IsTrue (⟦<ValueResult<T, E> as PartialEq>⟧.eq x z) }
{}
