//! Why no section is found where other calls are allowed.
use crate::other_calls::Unguarded;
use recover::{Shown, Unsaid};
use std::alloc::{AllocError, AllocFailed};

/// Why no section is found of a filter that is to allow the calls of other machines.
#[derive(Clone, Copy)]
pub enum Unallowed {
    /// What no section says of listed machines.
    Unsaid(Unsaid),
    /// A call of a machine that is not listed gets another verdict than ALLOW.
    Refused(Shown),
    /// The instruction at a place writes a scratch word, or returns what A holds.
    Unplain(usize),
    /// The filter that is judged in its place would have too many instructions.
    TooLong,
}

impl From<Unsaid> for Unallowed {
    fn from(unsaid: Unsaid) -> Unallowed {
        Unallowed::Unsaid(unsaid)
    }
}

impl From<Unguarded> for Unallowed {
    fn from(why: Unguarded) -> Unallowed {
        match why {
            Unguarded::View(fault) => Unallowed::Unsaid(Unsaid::View(fault)),
            Unguarded::Kernel(refused) => Unallowed::Unsaid(Unsaid::Kernel(refused)),
            Unguarded::Unplain(at) => Unallowed::Unplain(at),
            Unguarded::TooLong => Unallowed::TooLong,
            Unguarded::OutOfMemory => Unallowed::Unsaid(Unsaid::OutOfMemory),
        }
    }
}

impl From<AllocError> for Unallowed {
    fn from(_error: AllocError) -> Unallowed {
        Unallowed::Unsaid(Unsaid::OutOfMemory)
    }
}

impl<T: Drop> From<AllocFailed<T>> for Unallowed {
    fn from(_error: AllocFailed<T>) -> Unallowed {
        Unallowed::Unsaid(Unsaid::OutOfMemory)
    }
}
