//! Why no profile is built.
use std::alloc::{AllocError, AllocFailed};
use std::fmt;
use thiserror::Error;

/// Why no profile is built. A place counts from 0 in the list of rules that was given.
#[derive(Clone, Copy, Debug, PartialEq, Eq, Error)]
pub enum BuildError {
    /// The native machine is not listed.
    NativeMissing,
    /// The rule at this place is for a machine that is not listed.
    ForeignRule(usize),
    /// The rules at these places, the lesser first, have unlike verdicts, and one record matches both.
    Overlap(usize, usize),
    /// More of the rules are different than a profile may have.
    TooMany,
    /// A listed machine is of another family than the native one.
    MixedFamilies,
    /// Memory was refused.
    OutOfMemory,
}

impl BuildError {
    ghost use Rattle.std.specs.Prelude.{◌≡◌};
    ghost use Rattle.profile.specs.Fault.{label_of};

    /// The number and the name by which it is told.
    pub fn label(self) -> (u32, &'static str)
        ensures number { result.0 ≡ (label_of self).0 }
        ensures name { result.1.now ≡ (label_of self).1 }
    {
        match self {
            BuildError::NativeMissing => (1, "NativeMissing"),
            BuildError::ForeignRule(_) => (2, "ForeignRule"),
            BuildError::Overlap(_, _) => (3, "Overlap"),
            BuildError::TooMany => (4, "TooMany"),
            BuildError::MixedFamilies => (5, "MixedFamilies"),
            BuildError::OutOfMemory => (9, "OutOfMemory"),
        }
    }
}

impl fmt::Display for BuildError {
    ghost use Rattle.std.specs.Prelude.{Some};
    ghost use Rattle.profile.specs.Fault.{text_of};

    ghost output = { λ error. Some (text_of error) };

    fn fmt<W: fmt::Write>(&self, f: &mut fmt::Formatter<W>) -> fmt::Result {
        let (number, name) = self.label();
        write!(f, "{number} {name}")?;
        match *self {
            BuildError::ForeignRule(place) => write!(f, " {place}"),
            BuildError::Overlap(first, second) => write!(f, " {first} {second}"),
            _ => Ok(()),
        }
    }
}

impl From<AllocError> for BuildError {
    ghost use Rattle.std.specs.Prelude.{◌≡◌};
    ghost use Rattle.profile.specs.declared.fault.BuildError.TheVariants.{OutOfMemory};

    ghost from_gives = { λ _ e. e ≡ OutOfMemory };

    fn from(_error: AllocError) -> BuildError {
        BuildError::OutOfMemory
    }
}

impl<T: Drop> From<AllocFailed<T>> for BuildError {
    ghost use Rattle.std.specs.Prelude.{◌≡◌};
    ghost use Rattle.profile.specs.declared.fault.BuildError.TheVariants.{OutOfMemory};

    ghost from_gives = { λ _ e. e ≡ OutOfMemory };

    fn from(_error: AllocFailed<T>) -> BuildError {
        BuildError::OutOfMemory
    }
}
