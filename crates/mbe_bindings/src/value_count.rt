// The number of bindings that a value holds.
ghost use Rattle.std.specs.Prelude.{◌≡◌, ◌-◌, ◌^◌, min};
ghost use Rattle.mbe_semantics.specs.Bindings.Environment.{binding_count, binding_counts};
ghost use Rattle.mbe_bindings.specs.BindingViews.{value_seen, values_seen};

use crate::bindings::Binding;
use std::alloc::Allocator;

// Returns the number of bindings that aren't lists (fragments, skipped and missing ones), at any
// depth. `u64::MAX` if there are more.
#[cycle(counting)]
#[tactic(auto, using(crate::proofs::BindingLemmas::seen))]
pub(crate) fn binding_count<A: Allocator>(binding: &Binding<'_, A>) -> u64
    ensures { result ≡ min (binding_count (value_seen binding.now)) (2 ^ 64 - 1) }
{
    match binding {
        Binding::Nested(values) => binding_counts(values),
        Binding::Fragment(_) => 1,
        Binding::Empty => 1,
        Binding::Missing(_) => 1,
    }
}

#[cycle(counting)]
fn binding_counts<A: Allocator>(values: &[Binding<'_, A>]) -> u64
    ensures { result ≡ min (binding_counts (values_seen values.now)) (2 ^ 64 - 1) }
{
    let mut count: u64 = 0;
    for value in values {
        count = count.saturating_add(binding_count(value));
    }
    count
}
