//! What no section says.
use bpf_insn::ViewError;
use call_record::{Record, Word};
use kernel_check::Refused;
use maker::{Counterexample, MakeError};
use std::alloc::{AllocError, AllocFailed};

/// A call record, and the verdict that the filter gives it.
#[derive(Clone, Copy)]
pub struct Shown {
    pub call: Record,
    pub given: Word,
}

/// What no section says of a filter, or why none was found.
#[derive(Clone, Copy)]
pub enum Unsaid {
    /// The bytes are no program.
    View(ViewError),
    /// The kernel refuses the filter.
    Kernel(Refused),
    /// A call of a machine that no section lists gets another verdict than KILL_THREAD.
    OtherMachine(Shown),
    /// The verdict has no action of a section, or data that none can give.
    NoAction(Shown),
    /// Two calls without a name, of listed machines, get unlike verdicts.
    Unnamed(Shown, Shown),
    /// Two calls that differ in the instruction pointer alone get unlike verdicts.
    Pointer(Shown, Shown),
    /// Two calls of a machine with arguments of 32 bits that differ in an upper half alone get unlike verdicts.
    HighHalf(Shown, Shown),
    /// The calls of one name get verdicts on two listed machines that no conditions say alike.
    UnlikeMachines(Shown, Shown),
    /// No conditions were found that tell the calls of one name apart.
    Conditions(Shown),
    /// The filter computes with what a call holds in a way that is not followed, or compares what it computed.
    Unfollowed(Shown),
    /// A section has no room for it, or a call is asked too much.
    TooLarge,
    /// What was written says another verdict.
    Unlike(Counterexample),
    /// It was not shown that what was written says the same.
    Undecided(MakeError),
    /// There is not enough memory.
    OutOfMemory,
}

impl From<AllocError> for Unsaid {
    fn from(_error: AllocError) -> Unsaid {
        Unsaid::OutOfMemory
    }
}

impl From<MakeError> for Unsaid {
    fn from(make_error: MakeError) -> Unsaid {
        match make_error {
            MakeError::OutOfMemory => Unsaid::OutOfMemory,
            _ => Unsaid::Undecided(make_error),
        }
    }
}

impl<T: Drop> From<AllocFailed<T>> for Unsaid {
    fn from(_error: AllocFailed<T>) -> Unsaid {
        Unsaid::OutOfMemory
    }
}
