//! Laws of runs.
ghost use Rattle.lifecycle.specs.Own.{IsIsolated};
ghost use Rattle.lifecycle.specs.Promises.{FirstFilterIsOldest, FirstIsGiven, LoadsTellFilters, OldFiltersStay, OneFirstJudge, RefusedIsNotCarriedOut, RepliesAreSteps};

/// A command sees the container that it names and no other, and changes no other.
pub fn containers_are_isolated()
    ensures { IsIsolated }
{}

/// Each reply of a run is that of the command at its place, in the world that the commands before it left.
pub fn replies_are_steps()
    ensures { RepliesAreSteps }
{}

/// The program of a checked filter and its profile are one first judge: a step by the one is a step by the other.
pub fn one_first_judge()
    ensures { OneFirstJudge }
{}

/// Each container was made by a command, whose checked filter gives its first judge and its machine.
pub fn first_is_given()
    ensures { FirstIsGiven }
{}

/// The filter that a container was created with is the oldest of each of its tasks, whatever they do.
pub fn first_filter_is_oldest()
    ensures { FirstFilterIsOldest }
{}

/// In a container a load number stands for one filter.
pub fn loads_tell_filters()
    ensures { LoadsTellFilters }
{}

/// A task that lives before a command and after it has its old filters, behind newer ones or none.
pub fn old_filters_stay()
    ensures { OldFiltersStay }
{}

/// The reply to a call that its container's profile refuses says that it is not carried out, unless a listener may continue it. So does the
/// reply to the start of a container whose profile refuses its first call.
pub fn refused_is_not_carried_out()
    ensures { RefusedIsNotCarriedOut }
{}
