//! Why a bundle is refused, and where the fault stands.
use crate::fault::ProfileError;
use std::alloc::AllocFailed;

/// What of an entry.
#[derive(Clone, Copy)]
pub enum Part {
    /// The entry, which is no object.
    Itself,
    /// `names`.
    Names,
    /// One of its names, from 0.
    Name(usize),
    /// `action` and `errnoRet`.
    Verdict,
    /// `args`.
    Args,
    /// One of its conditions, from 0.
    Arg(usize),
}

/// Where a fault of a bundle stands.
#[derive(Clone, Copy)]
pub enum Place {
    /// The bytes.
    Text,
    /// The way to `linux.seccomp`, and `ociVersion`.
    Root,
    /// `defaultAction` and `defaultErrnoRet`.
    Default,
    /// Flags and the listener.
    Keys,
    Machines,
    /// The list `syscalls`, or two of its entries.
    Entries,
    /// An entry, from 0.
    Entry(usize, Part),
}

/// Why an entry is refused, and at which of its members.
#[derive(Clone, Copy)]
pub(crate) struct EntryRefusal {
    pub(crate) error: ProfileError,
    pub(crate) part: Part,
}

/// Why a bundle is refused, and where.
#[derive(Clone, Copy)]
pub struct Refusal {
    pub error: ProfileError,
    pub place: Place,
}

/// Why the value at a place of a list is refused, from 0.
#[derive(Clone, Copy)]
pub(crate) struct RefusedAt {
    pub(crate) error: ProfileError,
    pub(crate) at: usize,
}

impl<T: Drop> From<AllocFailed<T>> for RefusedAt {
    ghost use Rattle.std.specs.Prelude.{◌≡◌};
    ghost use Rattle.profile_json.specs.declared.fault.ProfileError.TheVariants.{OutOfMemory};

    ghost from_gives = { λ _ r. r.error ≡ OutOfMemory };

    fn from(_e: AllocFailed<T>) -> RefusedAt {
        RefusedAt {
            error: ProfileError::OutOfMemory,
            at: 0,
        }
    }
}

impl<T: Drop> From<AllocFailed<T>> for Refusal {
    ghost use Rattle.std.specs.Prelude.{◌≡◌};
    ghost use Rattle.profile_json.specs.declared.fault.ProfileError.TheVariants.{OutOfMemory};

    ghost from_gives = { λ _ r. r.error ≡ OutOfMemory };

    fn from(_e: AllocFailed<T>) -> Refusal {
        Refusal {
            error: ProfileError::OutOfMemory,
            place: Place::Text,
        }
    }
}
