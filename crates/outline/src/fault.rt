//! Why no certificate is written from an outline.

use cert_form::FormError;
use std::alloc::{AllocError, AllocFailed};

/// Why no certificate is written from an outline.
#[derive(Clone, Copy, Debug, PartialEq, Eq)]
pub enum OutlineError {
    /// The filter is another one than the outline tells.
    Unlike,
    /// The certificate is larger than a certificate may be.
    TooLarge,
    /// There is not enough memory.
    OutOfMemory,
}

impl From<AllocError> for OutlineError {
    ghost use Rattle.std.specs.Prelude.{◌≡◌};
    ghost use Rattle.outline.specs.declared.fault.OutlineError.TheVariants.{OutOfMemory};

    ghost from_gives = { λ _ e. e ≡ OutOfMemory };

    fn from(_error: AllocError) -> OutlineError {
        OutlineError::OutOfMemory
    }
}

impl<T: Drop> From<AllocFailed<T>> for OutlineError {
    ghost use Rattle.std.specs.Prelude.{◌≡◌};
    ghost use Rattle.outline.specs.declared.fault.OutlineError.TheVariants.{OutOfMemory};

    ghost from_gives = { λ _ e. e ≡ OutOfMemory };

    fn from(_error: AllocFailed<T>) -> OutlineError {
        OutlineError::OutOfMemory
    }
}

// A refusal to write: the certificate breaks a limit, or memory ran out.
impl From<FormError> for OutlineError {
    fn from(error: FormError) -> OutlineError {
        match error {
            FormError::OutOfMemory => OutlineError::OutOfMemory,
            _ => OutlineError::TooLarge,
        }
    }
}
