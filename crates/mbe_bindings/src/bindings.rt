// The bindings of a match: a map from names to what they are bound to. A name outside of
// repetitions is bound to a fragment. A name in a repetition is bound to a list with one binding
// for each round, and so on for each repetition around it. A template writes `$x` by this binding.
ghost use Rattle.std.specs.Prelude.{◌≡◌, ◌+◌, ◌-◌, ◌≤◌, ◌^◌, min, [], length, map, IfOk, IsTrue};
ghost use Rattle.std.specs.Prelude.{OnOk, OnErr, Some, option_map, slice_get};
ghost use Rattle.std.specs.List.{IsDistinct};
ghost use Rattle.std.specs.Str.{bytes_eq};
ghost use Rattle.mbe_bindings.specs.PlainCommands.{names_of};
ghost use Rattle.indexmap.specs.IndexMap.{index_map_len};
ghost use Rattle.mbe_semantics.specs.Bindings.Environment.{add_value, binding_total, set_value};
ghost use Rattle.mbe_semantics.specs.Bindings.Environment.{value_of};
ghost use Rattle.mbe_semantics.specs.Bindings.Account.{add_round_in, filled};
ghost use Rattle.mbe_bindings.specs.ListGrowth.{grown, grown_value};
ghost use Rattle.mbe_bindings.specs.BindingViews.{all_values, env_of, value_seen};

use crate::value_count::binding_count;
use indexmap::IndexMap;
use mbe_log::fragment::Fragment;
use mbe_semantics::fragment_kinds::MetaVarKind;
use mbe_tt::symbol::Symbol;
use std::alloc::{AllocError, Allocator, Global};
use std::fmt;
use std::hash::{BuildHasherDefault, FoldHasher};

/// What a name is bound to: a fragment, or a list if its variable is in a repetition.
#[derive_where(PartialEq, Eq)]
#[derive(Drop)]
pub enum Binding<'a, A: Allocator = Global> {
    /// The fragment of the variable.
    Fragment(Fragment<'a, A>),
    /// One binding for each round of a repetition.
    Nested(Vec<Binding<'a, A>, A>),
    /// The repetition had no rounds.
    Empty,
    /// The match failed at the variable: nothing there fits this kind. A template writes a default
    /// of the kind.
    Missing(MetaVarKind),
}

impl<A: Allocator> fmt::Debug for Binding<'_, A> {
    fn fmt<W: fmt::Write>(&self, f: &mut fmt::Formatter<W>) -> fmt::Result {
        match self {
            Binding::Fragment(fragment) => write!(f, "Fragment({fragment:?})"),
            Binding::Nested(list) => {
                f.write_str("Nested([")?;
                for binding in list {
                    binding.fmt(f)?;
                    f.write_str(", ")?;
                }
                f.write_str("])")
            }
            Binding::Empty => f.write_str("Empty"),
            Binding::Missing(kind) => write!(f, "Missing({kind:?})"),
        }
    }
}

/// The names that a match binds, in the order in which they were first bound. Equality doesn't
/// depend on the order.
#[derive_where(PartialEq, Eq)]
#[derive(Drop)]
pub struct Bindings<'a, A: Allocator = Global> {
    inner: IndexMap<Symbol<A>, Binding<'a, A>, BuildHasherDefault<FoldHasher>, A>,
}

impl<A: Allocator> fmt::Debug for Bindings<'_, A> {
    fn fmt<W: fmt::Write>(&self, f: &mut fmt::Formatter<W>) -> fmt::Result {
        f.write_str("{")?;
        for (name, binding) in &self.inner {
            fmt_bound(name, binding, f)?;
        }
        f.write_str("}")
    }
}

// Writes one name and its binding.
fn fmt_bound<A: Allocator, W: fmt::Write>(
    name: &Symbol<A>,
    binding: &Binding<'_, A>,
    f: &mut fmt::Formatter<W>,
) -> fmt::Result {
    write!(f, "{name:?}: {binding:?}, ")
}

impl<'a, A: Allocator> Bindings<'a, A> {
    /// Returns what the name is bound to.
    pub fn get(&self, name: &Symbol<A>) -> Option<&Binding<'a, A>>
        ensures { option_map (λ x. value_seen x.now) result
            ≡ value_of (env_of self.now) name.now }
    {
        self.inner.get(name)
    }

    /// Returns the number of names.
    pub fn len(&self) -> usize
        ensures { result ≡ length (env_of self.now) }
    {
        self.inner.len()
    }

    /// Returns the number of bindings that aren't lists (fragments, skipped and missing ones), at
    /// any depth. `u64::MAX` if there are more.
    pub fn count(&self) -> u64
        ensures { result ≡ min (binding_total (env_of self.now)) (2 ^ 64 - 1) }
    {
        let mut count: u64 = 0;
        for (_name, binding) in &self.inner {
            count = count.saturating_add(binding_count(binding));
        }
        count
    }

    // Returns whether there are at least `count` names from this index on.
    #[inline(always)]
    pub(crate) fn has_names(&self, start: usize, count: usize) -> bool
        ensures within { IsTrue result → start + count ≤ 2 ^ 63 }
        ensures distinct { IsDistinct bytes_eq (names_of (env_of self.now)) }
    {
        let len = self.inner.len();
        if len < start {
            return false;
        }
        if len - start < count {
            return false;
        }
        true
    }

    // Returns the name at this index.
    #[inline(always)]
    pub(crate) fn name_at(&self, index: usize) -> Option<&Symbol<A>>
        ensures { option_map (λ x. x.now) result ≡ slice_get (names_of (env_of self.now)) index }
    {
        match self.inner.get_index(index) {
            Some((name, _binding)) => Some(name),
            None => None,
        }
    }

    // Returns whether the name at this index is `name`.
    #[inline(always)]
    pub(crate) fn has_name_at(&self, index: usize, name: &Symbol<A>) -> bool
        ensures { IsTrue result
            → slice_get (names_of (env_of self.now)) index ≡ Some name.now }
    {
        match self.name_at(index) {
            Some(found) => found == name,
            None => false,
        }
    }
}

impl<'a, A: Allocator + Copy> Bindings<'a, A> {
    /// Makes bindings without a name.
    pub fn new(alloc: A) -> Bindings<'a, A>
        ensures { env_of result ≡ [] }
    {
        Bindings {
            inner: IndexMap::new(alloc),
        }
    }

    // Makes bindings without a name, and with room for so many. `AllocError` if out of memory.
    pub(crate) fn with_room(alloc: A, names: usize) -> Result<Bindings<'a, A>, AllocError>
        ensures { IfOk result (λ b. env_of b ≡ []) }
    {
        let inner = IndexMap::with_capacity(alloc, names)?;
        Ok(Bindings { inner })
    }

    /// Binds the name to this value and drops the old one. `AllocError` if out of memory.
    pub fn insert(&mut self, name: &Symbol<A>, value: Binding<'a, A>) -> Result<(), AllocError>
        ensures ok { OnOk result (env_of self.new
            ≡ set_value (env_of self.old) name.now (value_seen value.entry)) }
        ensures err { OnErr result (env_of self.new ≡ env_of self.old) }
    {
        self.put(name.clone()?, value)?;
        Ok(())
    }

    fn put(&mut self, name: Symbol<A>, value: Binding<'a, A>) -> Result<(), AllocError>
        ensures ok { OnOk result (env_of self.new
            ≡ set_value (env_of self.old) name (value_seen value.entry)) }
        ensures err { OnErr result (env_of self.new ≡ env_of self.old) }
    {
        let _replaced = self.inner.insert(name, value)?;
        Ok(())
    }

    // Adds a round: each of its names adds one value to its list. The round has this number, from
    // 0.
    pub(crate) fn add_round(
        &mut self,
        alloc: A,
        number: usize,
        round: Bindings<'a, A>,
    ) -> Result<(), AllocError>
        ensures { OnOk result (env_of self.new
            ≡ add_round_in number (env_of round.entry) (env_of self.old)) }
    {
        for (name, value) in round.inner {
            self.grow(alloc, number, &name, value)?;
        }
        Ok(())
    }

    // Does the same as `grow`. It is fast if the name is the one at this index.
    pub(crate) fn grow_at(
        &mut self,
        alloc: A,
        number: usize,
        index: usize,
        name: &Symbol<A>,
        value: Binding<'a, A>,
    ) -> Result<(), AllocError>
        ensures { OnOk result (env_of self.new
            ≡ grown number (env_of self.old) name.now (value_seen value.entry)) }
    {
        if self.has_name_at(index, name)
            && let Some(found) = self.inner.get_index_mut(index)
        {
            grow_value(alloc, found, number, value)?;
            return Ok(());
        }
        self.grow(alloc, number, name, value)
    }

    // Adds a value to the name's list. A name that isn't bound gets a list. A binding that is no
    // list is unchanged.
    pub(crate) fn grow(
        &mut self,
        alloc: A,
        number: usize,
        name: &Symbol<A>,
        value: Binding<'a, A>,
    ) -> Result<(), AllocError>
        ensures { OnOk result (env_of self.new
            ≡ grown number (env_of self.old) name.now (value_seen value.entry)) }
    {
        match self.inner.get_mut(name) {
            Some(found) => {
                grow_value(alloc, found, number, value)?;
                Ok(())
            }
            None => {
                let mut list = Binding::Nested(Vec::new(alloc));
                grow_value(alloc, &mut list, number, value)?;
                self.put(name.clone()?, list)?;
                Ok(())
            }
        }
    }
}

// Adds a value to a list. A binding that is no list is unchanged.
fn grow_value<'a, A: Allocator + Copy>(
    alloc: A,
    binding: &mut Binding<'a, A>,
    number: usize,
    value: Binding<'a, A>,
) -> Result<(), AllocError>
    ensures { OnOk result (value_seen binding.new
        ≡ grown_value number (value_seen value.entry) (value_seen binding.old)) }
{
    match binding {
        Binding::Nested(list) => push_round(alloc, list, number, value),
        _ => Ok(()),
    }
}

// Adds a value to a list, after an empty list for each round that it lacks.
fn push_round<'a, A: Allocator + Copy>(
    alloc: A,
    list: &mut Vec<Binding<'a, A>, A>,
    number: usize,
    value: Binding<'a, A>,
) -> Result<(), AllocError>
    ensures { OnOk result (all_values (map value_seen list.new.items)
        ≡ add_value (filled number (all_values (map value_seen list.old.items)))
        (value_seen value.entry)) }
{
    while list.len() < number {
        list.push(Binding::Nested(Vec::new(alloc)))?;
    }
    list.push(value)?;
    Ok(())
}
