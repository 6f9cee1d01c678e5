// Laws of the second pass, which finds the report of a match that fails. The pass follows the first
// and the last thread of each state. Laws run nothing.
ghost use Rattle.mbe_matcher.specs.FirstAndLast.{SecondPassLaw, ModelPassLaw, ModelPassContinues};

/// Up to the offset where a match stops, the first and the last thread of each state note what all
/// threads note.
pub fn second_pass()
    ensures { SecondPassLaw }
{}

/// The same law for thread models, which the program keeps.
pub fn model_pass()
    ensures { ModelPassLaw }
{}

/// Before that offset the thread models have a step over tokens, and it doesn't lead past the
/// offset.
pub fn model_pass_continues()
    ensures { ModelPassContinues }
{}
