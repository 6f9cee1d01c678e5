// A value beside an error. An expansion with an error still returns a tree, which an editor can
// show.
ghost use Rattle.std.specs.Prelude.{◌≡◌, ◌↔◌, Some, None, IsSome, IsErr, IfOk, MatchOption};
ghost use Rattle.std.specs.Prelude.{IsSomeAnd};
ghost use Rattle.std.specs.Option.{ForSome};

use crate::errors::error::ExpandError;
use std::alloc::{AllocError, Global};

/// A value, and the first error on the way to it, if there was one (as in rust-analyzer).
#[derive(Debug, Drop, PartialEq, Eq)]
pub struct ValueResult<T, E> {
    pub value: T,
    pub err: Option<E>,
}

/// The result of an expansion. The value may be useful even beside an error.
pub type ExpandResult<T, A = Global> = ValueResult<T, ExpandError<A>>;

/// The index of the rule that expanded the call, among all rules of the definition, from 0. `None`
/// if no rule did, or if the index doesn't fit 32 bits.
pub type MatchedArmIndex = Option<u32>;

impl<T, E> ValueResult<T, E> {
    /// Makes a result of this value and this error.
    pub fn new(value: T, err: E) -> ValueResult<T, E>
        ensures { result ≡ record { value = value; err = Some err } }
    {
        ValueResult {
            value,
            err: Some(err),
        }
    }

    /// Makes a result of this value, without an error.
    pub fn ok(value: T) -> ValueResult<T, E>
        ensures { result ≡ record { value = value; err = None } }
    {
        ValueResult { value, err: None }
    }

    /// Makes a result of the default value and this error.
    pub fn only_err(err: E) -> ValueResult<T, E>
    where
        T: Default,
        ensures value { T.is_default result.value }
        ensures err { result.err ≡ Some err }
    {
        ValueResult {
            value: T::default(),
            err: Some(err),
        }
    }

    /// Pairs the value with `other`. The error is unchanged.
    pub fn zip_val<U>(self, other: U) -> ValueResult<(T, U), E>
        ensures { result ≡ record { value = (self.value, other); err = self.err } }
    {
        ValueResult {
            value: (self.value, other),
            err: self.err,
        }
    }

    /// Applies `f` to the value. The error is unchanged.
    pub fn map<U, F: FnOnce(T) -> U>(self, f: F) -> ValueResult<U, E>
        requires { F.pre f self.value }
        ensures value { F.post f self.value result.value }
        ensures err { result.err ≡ self.err }
    {
        let ValueResult { value, err } = self;
        ValueResult {
            value: f(value),
            err,
        }
    }

    /// Applies `f` to the error, if there is one. The value is unchanged.
    pub fn map_err<D, F: FnOnce(E) -> D>(self, f: F) -> ValueResult<T, D>
    where
        F: Drop,
        requires { ForSome self.err (F.pre f) }
        ensures value { result.value ≡ self.value }
        ensures err { MatchOption self.err (result.err ≡ None)
            (λ e. IsSomeAnd result.err (F.post f e)) }
    {
        let ValueResult { value, err } = self;
        match err {
            Some(err) => ValueResult {
                value,
                err: Some(f(err)),
            },
            None => ValueResult { value, err: None },
        }
    }

    /// Returns a reference to the value and a copy of the error. `AllocError` if the copy is out of
    /// memory.
    pub fn as_ref(&self) -> Result<ValueResult<&T, E>, AllocError>
    where
        E: Clone,
        requires { ForSome self.now.err (λ e. (copy : _) → E.is_clone e copy → copy ≡ e) }
        ensures value { IfOk result (λ r. r.value.now ≡ self.now.value) }
        ensures err { IfOk result (λ r. r.err ≡ self.now.err) }
    {
        let value = &self.value;
        match &self.err {
            Some(err) => Ok(ValueResult::new(value, err.clone()?)),
            None => Ok(ValueResult::ok(value)),
        }
    }

    /// Returns an equal copy. `AllocError` if out of memory.
    pub fn try_clone(&self) -> Result<ValueResult<T, E>, AllocError>
    where
        T: Clone + Drop,
        E: Clone,
        requires value { (copy : _) → T.is_clone self.now.value copy → copy ≡ self.now.value }
        requires err { ForSome self.now.err (λ e. (copy : _) → E.is_clone e copy → copy ≡ e) }
        ensures { IfOk result (λ copy. copy ≡ self.now) }
    {
        let value = self.value.clone()?;
        match &self.err {
            Some(err) => Ok(ValueResult::new(value, err.clone()?)),
            None => Ok(ValueResult::ok(value)),
        }
    }

    /// Returns the error if there is one, and else the value.
    pub fn result(self) -> Result<T, E>
    where
        T: Drop,
        ensures variant { IsErr result ↔ IsSome self.err }
        ensures cases { MatchOption self.err (result ≡ Ok self.value) (λ e. result ≡ Err e) }
    {
        let ValueResult { value, err } = self;
        match err {
            Some(err) => Err(err),
            None => Ok(value),
        }
    }
}

/// The default value, without an error.
impl<T: Default, E> Default for ValueResult<T, E> {
    ghost use Rattle.std.specs.Prelude.{◌≡◌, None};

    ghost is_default = { λ r. T.is_default r.value × (r.err ≡ None) };

    fn default() -> ValueResult<T, E> {
        ValueResult::ok(T::default())
    }
}

/// The value without an error, or the default value beside the error.
impl<T: Default, E> From<Result<T, E>> for ValueResult<T, E> {
    ghost use Rattle.std.specs.Prelude.{◌≡◌, Some, None, MatchResult};

    ghost from_gives = { λ r v. MatchResult r (λ x. v ≡ record { value = x; err = None })
        (λ e. T.is_default v.value × (v.err ≡ Some e)) };

    fn from(answer: Result<T, E>) -> ValueResult<T, E> {
        match answer {
            Ok(value) => ValueResult::ok(value),
            Err(err) => ValueResult::only_err(err),
        }
    }
}
