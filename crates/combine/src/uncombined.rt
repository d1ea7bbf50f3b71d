//! Why bundles or filters are not combined.
ghost use Rattle.std.specs.Prelude.{◌≡◌};
ghost use Rattle.combine.specs.Uncombined.{reason_of};
ghost use Rattle.combine.specs.declared.uncombined.Uncombined.TheVariants.{OutOfMemory};

use differ::Call;
use profile_json::ProfileError;
use recover::Unsaid;
use std::alloc::{AllocError, AllocFailed};
use together::{Unjudged, Unlike};

/// Why bundles or filters are not combined. Places count from 0.
#[derive(Clone, Copy)]
pub enum Uncombined {
    /// There is none.
    Nothing,
    /// The bundle at a place is refused.
    Refused(usize, ProfileError),
    /// No section says the filter at a place, or none was found.
    Filter(usize, Unsaid),
    /// No section says what they say together, or none was found.
    Together(Unsaid),
    /// What was written is refused.
    Unread(ProfileError),
    /// What was written says another verdict.
    Unlike(Unlike),
    /// The conditions on the arguments of a call can answer in more ways than are looked at.
    Crowded(Call),
    /// A filter would have too many instructions.
    TooLong,
    /// There is not enough memory.
    OutOfMemory,
}

impl From<AllocError> for Uncombined {
    ghost from_gives = { λ _ e. e ≡ OutOfMemory };

    fn from(_error: AllocError) -> Uncombined {
        Uncombined::OutOfMemory
    }
}

impl<T: Drop> From<AllocFailed<T>> for Uncombined {
    ghost from_gives = { λ _ e. e ≡ OutOfMemory };

    fn from(_error: AllocFailed<T>) -> Uncombined {
        Uncombined::OutOfMemory
    }
}

impl From<Unjudged> for Uncombined {
    ghost from_gives = { λ unjudged e. e ≡ reason_of unjudged };

    fn from(error: Unjudged) -> Uncombined {
        match error {
            Unjudged::Refused(place, error) => Uncombined::Refused(place, error),
            Unjudged::Unread(error) => Uncombined::Unread(error),
            Unjudged::Unlike(found) => Uncombined::Unlike(found),
            Unjudged::Crowded(call) => Uncombined::Crowded(call),
            Unjudged::OutOfMemory => Uncombined::OutOfMemory,
        }
    }
}
