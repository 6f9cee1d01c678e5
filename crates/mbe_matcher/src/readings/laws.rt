// Laws of divergence. They run nothing.
ghost use Rattle.mbe_matcher.specs.Readings.Divergence.{ReadingsDiverge};

/// Two different readings diverge at some offset.
pub fn readings_diverge()
    ensures { ReadingsDiverge }
{}
