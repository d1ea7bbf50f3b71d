//! Why there is no profile of the rules that were added.
use std::alloc::{AllocError, AllocFailed};

/// Why there is no profile. A place counts from 0 among the machines or the rules that were given.
#[derive(Clone, Copy, Debug, PartialEq, Eq)]
pub enum AddedError {
    /// No machine has the number that was given for the native one.
    NoNative,
    /// No machine has the number at this place.
    NoMachine(usize),
    /// At this place stands no rule. No machine has its number, or it has more than six conditions or two on one argument. Or
    /// one of them has no such argument or operator, or a bit outside of its mask.
    NoRule(usize),
    /// The native machine is not listed.
    NativeMissing,
    /// The rule at this place is for a machine that is not listed.
    ForeignRule(usize),
    /// More rules are different than a profile may have.
    TooMany,
    /// The rules at these places, the lesser first, have unlike actions, and one record matches both.
    Overlap(usize, usize),
    /// Memory was refused.
    OutOfMemory,
}

impl From<AllocError> for AddedError {
    ghost use Rattle.std.specs.Prelude.{◌≡◌};
    ghost use Rattle.filter_c.specs.declared.added.fault.AddedError.TheVariants.{OutOfMemory};

    ghost from_gives = { λ _ e. e ≡ OutOfMemory };

    fn from(_error: AllocError) -> AddedError {
        AddedError::OutOfMemory
    }
}

impl<T: Drop> From<AllocFailed<T>> for AddedError {
    ghost use Rattle.std.specs.Prelude.{◌≡◌};
    ghost use Rattle.filter_c.specs.declared.added.fault.AddedError.TheVariants.{OutOfMemory};

    ghost from_gives = { λ _ e. e ≡ OutOfMemory };

    fn from(_error: AllocFailed<T>) -> AddedError {
        AddedError::OutOfMemory
    }
}
