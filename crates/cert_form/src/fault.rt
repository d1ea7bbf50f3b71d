//! Why bytes are no certificate.
ghost use Rattle.cert_form.specs.declared.fault.FormError.TheVariants.{OutOfMemory};

use std::alloc::{AllocError, AllocFailed};
use std::fmt;
use thiserror::Error;

/// A fault of the bytes, a limit that what is written would break, or memory.
#[derive(Clone, Copy, Debug, PartialEq, Eq, Error)]
pub enum FormError {
    /// The first four bytes are others.
    BadMagic,
    /// The version is none that is known.
    BadVersion,
    /// The bytes end before the certificate does.
    Truncated,
    /// A field has a value that it may not have.
    BadNode,
    /// A count or the size is above its limit, or there is no node.
    BadCount,
    /// There are bytes after the certificate.
    Trailing,
    /// Memory ran out.
    OutOfMemory,
}

impl FormError {
    ghost use Rattle.std.specs.Prelude.{◌≡◌};
    ghost use Rattle.cert_form.specs.Fault.{label_of};

    /// The number and the name by which it is told.
    pub fn label(self) -> (u32, &'static str)
        ensures number { result.0 ≡ (label_of self).0 }
        ensures name { result.1.now ≡ (label_of self).1 }
    {
        match self {
            FormError::BadMagic => (1, "BadMagic"),
            FormError::BadVersion => (2, "BadVersion"),
            FormError::Truncated => (3, "Truncated"),
            FormError::BadNode => (4, "BadNode"),
            FormError::BadCount => (5, "BadCount"),
            FormError::Trailing => (6, "Trailing"),
            FormError::OutOfMemory => (9, "OutOfMemory"),
        }
    }
}

impl fmt::Display for FormError {
    ghost use Rattle.std.specs.Prelude.{Some};
    ghost use Rattle.cert_form.specs.Fault.{text_of};

    ghost output = { λ fault. Some (text_of fault) };

    fn fmt<W: fmt::Write>(&self, f: &mut fmt::Formatter<W>) -> fmt::Result {
        let (number, name) = self.label();
        write!(f, "{number} {name}")
    }
}

impl From<AllocError> for FormError {
    ghost use Rattle.std.specs.Prelude.{◌≡◌};

    ghost from_gives = { λ _ e. e ≡ OutOfMemory };

    fn from(_error: AllocError) -> FormError {
        FormError::OutOfMemory
    }
}

impl<T: Drop> From<AllocFailed<T>> for FormError {
    ghost use Rattle.std.specs.Prelude.{◌≡◌};

    ghost from_gives = { λ _ e. e ≡ OutOfMemory };

    fn from(_error: AllocFailed<T>) -> FormError {
        FormError::OutOfMemory
    }
}
