//! Why no such filter is made.
ghost use Rattle.std.specs.Prelude.{◌≡◌, ℕ, List};
ghost use Rattle.machines.specs.declared.arch.Arch.{Arch};
ghost use Rattle.flatten.specs.Unflat.{IsOf};
ghost use Rattle.flatten.specs.declared.unflat.Unflat.TheVariants.{TooLong as LongStack};
ghost use Rattle.recover_others.specs.Reason.{IsReason};

use bpf_insn::ViewError;
use flatten::Unflat;
use kernel_check::Refused;
use std::alloc::{AllocError, AllocFailed};

/// Why no filter is made of another. Places of instructions count from 0.
#[derive(Clone, Copy)]
pub enum Unguarded {
    /// The bytes are no program.
    View(ViewError),
    /// The kernel refuses the filter.
    Kernel(Refused),
    /// The instruction at a place writes a scratch word, or returns what A holds.
    Unplain(usize),
    /// It would have too many instructions.
    TooLong,
    /// There is not enough memory.
    OutOfMemory,
}

impl From<AllocError> for Unguarded {
    fn from(_error: AllocError) -> Unguarded {
        Unguarded::OutOfMemory
    }
}

impl<T: Drop> From<AllocFailed<T>> for Unguarded {
    fn from(_error: AllocFailed<T>) -> Unguarded {
        Unguarded::OutOfMemory
    }
}

/// Why no filter is made of one that is not taken.
pub(crate) fn told(error: Unflat) -> Unguarded
    ensures { (machines : List Arch) (filter : List ℕ) → IsOf filter error → (error ≡ LongStack → ⊥)
        → IsReason machines filter result }
{
    match error {
        Unflat::Bytes(_only, fault) => Unguarded::View(fault),
        Unflat::Refused(_only, refused) => Unguarded::Kernel(refused),
        Unflat::Unplain(_only, at) => Unguarded::Unplain(at),
        Unflat::TooLong => Unguarded::TooLong,
        Unflat::Made | Unflat::OutOfMemory => Unguarded::OutOfMemory,
    }
}
