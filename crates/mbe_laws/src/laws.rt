// Laws of the specification: of readings, local ambiguity, verdicts, rounds and the log of
// bindings. The functions are empty: each contract states a law.
ghost use Rattle.mbe_semantics.specs.Laws.Laws.{OneReading, ReadingsEnd, PartialReadingsEndInside};
ghost use Rattle.mbe_semantics.specs.Laws.Laws.{NeverAmbiguous, WordsNeverAmbiguous};
ghost use Rattle.mbe_semantics.specs.Laws.Laws.{RoundsHaveValues, OneAccount};
ghost use Rattle.mbe_semantics.specs.Laws.Laws.{ListsFitOnce, EntriesHaveAccounts, EntriesFollow};
ghost use Rattle.mbe_semantics.specs.Laws.Laws.{CommandsBindAlike, OneVerdict, HasOneVerdict};
ghost use Rattle.mbe_semantics.specs.Laws.Laws.{LawfulInputs, MatcherLaw, RunsAreRight};

/// Two readings of a pattern without a repetition are equal.
pub fn one_reading()
    ensures { OneReading }
{}

/// A reading of the whole argument is a partial reading that ends at the end of the argument.
pub fn readings_end()
    ensures { ReadingsEnd }
{}

/// A partial reading ends within the argument.
pub fn partial_readings_end_inside()
    ensures { PartialReadingsEndInside }
{}

/// A pattern without a repetition has no local ambiguity at any offset.
pub fn never_ambiguous()
    ensures { NeverAmbiguous }
{}

/// A pattern of identifiers alone has no local ambiguity at any offset.
pub fn words_never_ambiguous()
    ensures { WordsNeverAmbiguous }
{}

/// In every round that a repetition has, a name in its body has a value if it has one outside the
/// repetition.
pub fn rounds_have_values()
    ensures { RoundsHaveValues }
{}

/// A handle of a log has at most one account.
pub fn one_account()
    ensures { OneAccount }
{}

/// A pattern that is one repetition, of a body without repetitions, has no local ambiguity at any
/// offset. It has at most one reading if the body always consumes a token.
pub fn lists_fit_once()
    ensures { ListsFitOnce }
{}

/// An entry that is added at the end of a list adds its commands after those that the list gives.
pub fn entries_follow()
    ensures { EntriesFollow }
{}

/// If each entry of a log refers to earlier entries alone, every handle whose entries exist has an
/// account.
pub fn entries_have_accounts()
    ensures { EntriesHaveAccounts }
{}

/// A pattern and an argument have at most one verdict.
pub fn one_verdict()
    ensures { OneVerdict }
{}

/// With a lawful grammar, a checked pattern has exactly one verdict on each argument.
pub fn has_one_verdict()
    ensures { HasOneVerdict }
{}

/// An argument and a lawful grammar make a lawful input.
pub fn lawful_inputs()
    ensures { LawfulInputs }
{}

/// With a checked pattern and a lawful grammar, at each offset that a run reaches, the closure is
/// exactly the partial readings that end there, each once.
pub fn matcher_law()
    ensures { MatcherLaw }
{}

/// With a checked pattern and a lawful grammar, a run over the offsets returns the verdict.
pub fn runs_are_right()
    ensures { RunsAreRight }
{}

/// The commands of a reading bind, in a log, the same values as the reading does.
pub fn commands_bind_alike()
    ensures { CommandsBindAlike }
{}
