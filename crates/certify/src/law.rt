//! Filters of which each comparison tells all that it asks, as a law of the definitions.
ghost use Rattle.certify.specs.Telling.{SteadyIsTelling};

/// Each filter that compares steadily, as those of the compiler do, is one of which each comparison tells all that it asks.
pub fn steady_is_telling()
    ensures { SteadyIsTelling }
{}
