//! Why there is no certificate that follows each path.

use call_record::Record;
use std::alloc::{AllocError, AllocFailed};

/// Why there is no certificate that follows each path.
#[derive(Clone, Copy, Debug, PartialEq, Eq)]
pub enum PathsError {
    /// The filter gives this call record another verdict than the profile says. It was met at the return at this position.
    Unlike(u32, Record),
    /// The path that comes to the return at this position is not settled. Its verdict is not known, or some comparison on the way did not
    /// tell all that it asked.
    Unsettled(u32),
    /// The paths are too many or too long for a certificate.
    TooLarge,
    /// There is not enough memory.
    OutOfMemory,
}

impl From<AllocError> for PathsError {
    ghost use Rattle.std.specs.Prelude.{◌≡◌};
    ghost use Rattle.certify.specs.declared.fault.PathsError.TheVariants.{OutOfMemory};

    ghost from_gives = { λ _ e. e ≡ OutOfMemory };

    fn from(_error: AllocError) -> PathsError {
        PathsError::OutOfMemory
    }
}

impl<T: Drop> From<AllocFailed<T>> for PathsError {
    ghost use Rattle.std.specs.Prelude.{◌≡◌};
    ghost use Rattle.certify.specs.declared.fault.PathsError.TheVariants.{OutOfMemory};

    ghost from_gives = { λ _ e. e ≡ OutOfMemory };

    fn from(_error: AllocFailed<T>) -> PathsError {
        PathsError::OutOfMemory
    }
}
