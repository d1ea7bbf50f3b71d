//! Why rules are not narrowed.
use std::alloc::{AllocError, AllocFailed};

/// Why rules are not narrowed.
#[derive(Clone, Copy, PartialEq, Eq)]
pub enum CutError {
    /// They would be more than a profile may have.
    TooMany,
    /// Memory was refused.
    OutOfMemory,
}

impl From<AllocError> for CutError {
    ghost use Rattle.std.specs.Prelude.{◌≡◌};
    ghost use Rattle.widths.specs.declared.narrowing.fault.CutError.TheVariants.{OutOfMemory};

    ghost from_gives = { λ _ e. e ≡ OutOfMemory };

    fn from(_error: AllocError) -> CutError {
        CutError::OutOfMemory
    }
}

impl<T: Drop> From<AllocFailed<T>> for CutError {
    ghost use Rattle.std.specs.Prelude.{◌≡◌};
    ghost use Rattle.widths.specs.declared.narrowing.fault.CutError.TheVariants.{OutOfMemory};

    ghost from_gives = { λ _ e. e ≡ OutOfMemory };

    fn from(_error: AllocFailed<T>) -> CutError {
        CutError::OutOfMemory
    }
}
