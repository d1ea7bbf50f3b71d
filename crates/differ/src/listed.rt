//! Numbers that stand for all others where conditions on one argument are asked.
ghost use Rattle.std.specs.Prelude.{◌≡◌, ◌≤◌, IfOk, IfErr};
ghost use Rattle.differ.specs.Cells.{AreCells, IsCause};
ghost use Rattle.differ.specs.declared.listed.Unlisted.TheVariants.{OutOfMemory};

use crate::begun::branch;
use profile::Cond;
use std::alloc::{AllocError, AllocFailed, Global};

/// How many numbers are listed for one argument at most.
pub const MOST_CELLS: usize = 1_048_576;

/// Why numbers were not listed.
#[derive(Clone, Copy, Debug, PartialEq, Eq)]
pub enum Unlisted {
    /// The conditions can answer in more ways than numbers are listed.
    TooMany,
    /// There is not memory enough.
    OutOfMemory,
}

impl From<AllocError> for Unlisted {
    ghost from_gives = { λ _ e. e ≡ OutOfMemory };

    fn from(_error: AllocError) -> Unlisted {
        Unlisted::OutOfMemory
    }
}

impl<T: Drop> From<AllocFailed<T>> for Unlisted {
    ghost from_gives = { λ _ e. e ≡ OutOfMemory };

    fn from(_error: AllocFailed<T>) -> Unlisted {
        Unlisted::OutOfMemory
    }
}

/// Numbers of so many bits, one for each way in which these conditions can answer. Each number of so many bits is answered as one
/// of them is.
pub fn cells(alloc: Global, conds: &[Cond], bits: u32) -> Result<Vec<u64>, Unlisted>
    requires { bits ≤ 64 }
    ensures ok { IfOk result (λ list. AreCells conds.now bits list.items) }
    ensures err { IfErr result (IsCause conds.now bits) }
{
    branch(alloc, conds, 0, bits)
}
