//! Why there is no certificate.

use cert_form::FormError;
use std::alloc::{AllocError, AllocFailed};
use std::fmt;
use thiserror::Error;

/// Why no certificate is made.
#[derive(Clone, Copy, Debug, PartialEq, Eq, Error)]
pub enum CertifyError {
    /// The kernel refuses the filter at this position, or it was not found that the return there gives the profile's verdict.
    Undecided(u32),
    /// The certificate is larger than a certificate may be.
    TooLarge,
    /// There is not enough memory.
    OutOfMemory,
}

impl CertifyError {
    ghost use Rattle.std.specs.Prelude.{◌≡◌};
    ghost use Rattle.certify.specs.Error.{label_of};

    /// The number and the name by which it is told.
    pub fn label(self) -> (u32, &'static str)
        ensures number { result.0 ≡ (label_of self).0 }
        ensures name { result.1.now ≡ (label_of self).1 }
    {
        match self {
            CertifyError::Undecided(_) => (1, "Undecided"),
            CertifyError::TooLarge => (2, "TooLarge"),
            CertifyError::OutOfMemory => (9, "OutOfMemory"),
        }
    }
}

impl fmt::Display for CertifyError {
    ghost use Rattle.std.specs.Prelude.{Some};
    ghost use Rattle.certify.specs.Error.{text_of};

    ghost output = { λ fault. Some (text_of fault) };

    fn fmt<W: fmt::Write>(&self, f: &mut fmt::Formatter<W>) -> fmt::Result {
        let (number, name) = self.label();
        match *self {
            CertifyError::Undecided(pc) => write!(f, "{number} {name} pc {pc}"),
            CertifyError::TooLarge => write!(f, "{number} {name}"),
            CertifyError::OutOfMemory => write!(f, "{number} {name}"),
        }
    }
}

impl From<AllocError> for CertifyError {
    ghost use Rattle.std.specs.Prelude.{◌≡◌};
    ghost use Rattle.certify.specs.declared.error.CertifyError.TheVariants.{OutOfMemory};

    ghost from_gives = { λ _ e. e ≡ OutOfMemory };

    fn from(_error: AllocError) -> CertifyError {
        CertifyError::OutOfMemory
    }
}

impl<T: Drop> From<AllocFailed<T>> for CertifyError {
    ghost use Rattle.std.specs.Prelude.{◌≡◌};
    ghost use Rattle.certify.specs.declared.error.CertifyError.TheVariants.{OutOfMemory};

    ghost from_gives = { λ _ e. e ≡ OutOfMemory };

    fn from(_error: AllocFailed<T>) -> CertifyError {
        CertifyError::OutOfMemory
    }
}

// A refusal to write: the certificate breaks a limit, or memory ran out.
impl From<FormError> for CertifyError {
    ghost use Rattle.std.specs.Prelude.{◌≡◌};
    ghost use Rattle.cert_form.specs.declared.fault.FormError.TheVariants.{OutOfMemory as NoMemory};
    ghost use Rattle.certify.specs.declared.error.CertifyError.TheVariants.{OutOfMemory};

    ghost from_gives = { λ error e. error ≡ NoMemory → e ≡ OutOfMemory };

    fn from(error: FormError) -> CertifyError {
        match error {
            FormError::OutOfMemory => CertifyError::OutOfMemory,
            _ => CertifyError::TooLarge,
        }
    }
}
