//! What is found of the calls that get past a profile, and of those that are stopped by it.
use crate::search::Crowded;
pub use widths::Past;

/// How a call fares beside the same call with the bits at 0 that are not read.
#[derive(Clone, Copy, Debug, PartialEq, Eq)]
pub enum Way {
    /// It goes further.
    GetsPast,
    /// It goes less far.
    IsStopped,
}

/// What is found of a profile.
#[derive(Drop)]
pub enum Finding {
    /// No call gets past it, and none is stopped.
    Nothing,
    /// Calls get past or are stopped: these, and no others.
    Unlike(Vec<Past>, Vec<Past>),
    /// Beside those that get past and those that are stopped, these calls are not decided.
    Undecided(Vec<Past>, Vec<Past>, Vec<Crowded>),
}
