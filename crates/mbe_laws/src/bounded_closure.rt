// Laws of the bounded run: the matcher that keeps at most two partial readings of each state. A
// state is a point in a pattern. What a partial reading can still read depends on its state alone.
// So two partial readings of each state are enough to tell whether the argument has no reading, one
// reading or several, and whether it has a local ambiguity. The functions are empty: each contract
// states a law.
ghost use Rattle.mbe_laws.specs.Bounded.Laws.{StateNumbersUnique, BoundedLaw, FirstTwo};
ghost use Rattle.mbe_laws.specs.Bounded.Laws.{LinearIterations, SameVerdict, BoundedRunsAreRight};
ghost use Rattle.mbe_laws.specs.Bounded.Laws.{BoundedReadings, BoundedReadingFound};
ghost use Rattle.mbe_laws.specs.Bounded.DeepExample.{DeepExample};
ghost use Rattle.mbe_laws.specs.Loop.StackClosure.{StateNumbersStep};
ghost use Rattle.mbe_laws.specs.Reports.Ends.{EndsPreserved, EndsLaw};
ghost use Rattle.mbe_laws.specs.Reports.Backward.{BothDirectionsLaw, SwapLaw};
ghost use Rattle.mbe_laws.specs.Orders.OrderLaws.{AnyOrderLaw, InOrderLaw, ReversedLaw};
ghost use Rattle.mbe_laws.specs.Orders.OrderLaws.{ReversedIterations, ReversedVerdict};
ghost use Rattle.mbe_laws.specs.Orders.OrderLaws.{ReversedRunsAreRight, ReversedReadings};
ghost use Rattle.mbe_laws.specs.Orders.OrderLaws.{ReversedReadingFound, DropsLaw};
ghost use Rattle.mbe_laws.specs.Orders.DropExample.{DropExample, DropFirstExample};

/// Two partial readings of one pattern have the same number exactly if they have the same state.
/// Numbers go from 1 to the number of states.
pub fn state_numbers_unique()
    ensures { StateNumbersUnique }
{}

/// At each offset, the bounded run keeps partial readings that end there, each once. It keeps two
/// of each state that has two or more, and one of each state that has one. So it keeps at most two
/// for each state of the pattern.
pub fn bounded_law()
    ensures { BoundedLaw }
{}

/// The bounded run keeps the first two of each state among those that the full run keeps, in the
/// same order.
pub fn first_two()
    ensures { FirstTwo }
{}

/// At each offset, the loop of the walk by a stack runs at most six times for each state, and once
/// more. So the number of runs in a match is linear in the length of the argument.
pub fn linear_iterations()
    ensures { LinearIterations }
{}

/// The bounded run returns the same as the full run.
pub fn same_verdict()
    ensures { SameVerdict }
{}

/// The bounded run returns the verdict.
pub fn bounded_runs_are_right()
    ensures { BoundedRunsAreRight }
{}

/// If the bounded run keeps exactly one reading at the end of the argument, it is the only reading.
pub fn bounded_readings()
    ensures { BoundedReadings }
{}

/// If the verdict is one reading, the bounded run keeps exactly one reading at the end of the
/// argument.
pub fn bounded_reading_found()
    ensures { BoundedReadingFound }
{}

/// How the number of a thread changes after an op, and on entering or leaving a group or a
/// repetition.
pub fn state_numbers_step()
    ensures { StateNumbersStep }
{}

/// Let a test depend on the state alone. It finds the same first partial reading among the first of
/// each state as among all. It finds the same last one among the last of each state.
pub fn ends_preserved()
    ensures { EndsPreserved }
{}

/// The first of each state at the next offset come from the last of each state here, and the last
/// from the first.
pub fn ends_law()
    ensures { EndsLaw }
{}

/// Three nested repetitions on fifteen semicolons have several readings. The bounded run finds that
/// immediately.
pub fn deep_example()
    ensures { DeepExample }
{}

/// A walk by a stack finds the first of each state, and a backward walk finds the last.
pub fn both_directions()
    ensures { BothDirectionsLaw }
{}

/// These two lists change roles from each offset to the next.
pub fn swap_law()
    ensures { SwapLaw }
{}

/// In any order of the partial readings that arrive at an offset, the bounded run keeps partial
/// readings that end there, at most two of each state. If it keeps exactly one reading at the end,
/// it is the only reading.
pub fn any_order_law()
    ensures { AnyOrderLaw }
{}

/// In every order the bounded run returns the same as the full run.
pub fn in_order_law()
    ensures { InOrderLaw }
{}

/// If the partial readings that waited are visited last first, the bounded run keeps partial
/// readings that end at the offset, at most two of each state.
pub fn reversed_law()
    ensures { ReversedLaw }
{}

/// In that order, the loop of the walk has the same bound.
pub fn reversed_iterations()
    ensures { ReversedIterations }
{}

/// In that order the bounded run and the full run have the same result.
pub fn reversed_verdict()
    ensures { ReversedVerdict }
{}

/// In that order the result is the verdict.
pub fn reversed_runs_are_right()
    ensures { ReversedRunsAreRight }
{}

/// In that order, a single reading kept at the end is the only reading.
pub fn reversed_readings()
    ensures { ReversedReadings }
{}

/// In that order, if the verdict is one reading, exactly one reading is kept at the end.
pub fn reversed_reading_found()
    ensures { ReversedReadingFound }
{}

/// Let no three partial readings of one state end at an earlier offset. Then the bounded run ends
/// with the same partial readings as the full run, in the same order. So a failed match reports the
/// same there.
pub fn drops_law()
    ensures { DropsLaw }
{}

/// A match that fails at its first offset, where three partial readings of one state end. The last
/// one that fails isn't among the two that the bounded run keeps.
pub fn drop_example()
    ensures { DropExample }
{}

/// A match where the full run and the bounded run differ in the first partial reading that fails:
/// it expects another token. The cause is that more than two of one state went on before.
pub fn drop_first_example()
    ensures { DropFirstExample }
{}
