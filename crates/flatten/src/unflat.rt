//! Why no filter is made of a stack.
ghost use Rattle.std.specs.Prelude.{◌≡◌, None};
ghost use Rattle.flatten.specs.declared.unflat.Limit.TheVariants.{OutOfMemory, TooLong as LimitTooLong};
ghost use Rattle.flatten.specs.declared.unflat.Unflat.TheVariants.{TooLong};
ghost use Rattle.flatten.specs.Unflat.{place_of};

use bpf_insn::ViewError;
use kernel_check::Refused;
use std::alloc::{AllocError, AllocFailed};

/// Why no filter is made of a stack. Places of filters and instructions count from 0.
#[derive(Clone, Copy)]
pub enum Unflat {
    /// The bytes at a place are no program.
    Bytes(usize, ViewError),
    /// The kernel refuses the filter at a place.
    Refused(usize, Refused),
    /// An instruction of the filter at a place writes a scratch word, or returns what A holds.
    Unplain(usize, usize),
    /// What was made is refused. This should not happen.
    Made,
    /// It would have too many instructions.
    TooLong,
    /// There is not enough memory.
    OutOfMemory,
}

/// Why a program is not made.
#[derive(Clone, Copy)]
pub(crate) enum Limit {
    /// It would have too many instructions.
    TooLong,
    /// There is not enough memory.
    OutOfMemory,
}

impl Limit {
    /// Why no filter is made of a stack: its program is not made.
    pub(crate) fn told(self) -> Unflat
        ensures place { place_of result ≡ None }
        ensures long { result ≡ TooLong → self ≡ LimitTooLong }
    {
        match self {
            Limit::TooLong => Unflat::TooLong,
            Limit::OutOfMemory => Unflat::OutOfMemory,
        }
    }
}

impl From<AllocError> for Limit {
    ghost use Rattle.std.specs.Prelude.{◌≡◌};

    ghost from_gives = { λ _ e. e ≡ OutOfMemory };

    fn from(_error: AllocError) -> Limit {
        Limit::OutOfMemory
    }
}

impl<T: Drop> From<AllocFailed<T>> for Limit {
    ghost use Rattle.std.specs.Prelude.{◌≡◌};

    ghost from_gives = { λ _ e. e ≡ OutOfMemory };

    fn from(_error: AllocFailed<T>) -> Limit {
        Limit::OutOfMemory
    }
}
