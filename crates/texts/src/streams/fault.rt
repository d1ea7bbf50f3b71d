//! Why bytes were not read or not written.
ghost use Rattle.texts.specs.declared.streams.fault.WriteFault.TheVariants.{OutOfMemory};

use std::alloc::AllocError;
use std::fmt;
use thiserror::Error;

/// A read or a write that failed.
#[derive(Clone, Copy, Debug, PartialEq, Eq)]
pub struct Failed;

/// Why bytes were not all written.
#[derive(Clone, Copy, Debug, PartialEq, Eq, Error)]
pub enum WriteFault {
    /// The sink failed after it took so many bytes.
    Write { out: u64 },
    /// There is not enough memory.
    OutOfMemory,
}

impl WriteFault {
    ghost use Rattle.std.specs.Prelude.{◌≡◌};
    ghost use Rattle.texts.specs.Fault.{label_of};

    /// The number and the name by which it is told.
    pub fn label(self) -> (u32, &'static str)
        ensures number { result.0 ≡ (label_of self).0 }
        ensures name { result.1.now ≡ (label_of self).1 }
    {
        match self {
            WriteFault::Write { .. } => (1, "Write"),
            WriteFault::OutOfMemory => (9, "OutOfMemory"),
        }
    }
}

impl fmt::Display for WriteFault {
    ghost use Rattle.std.specs.Prelude.{Some};
    ghost use Rattle.texts.specs.Fault.{text_of};

    ghost output = { λ fault. Some (text_of fault) };

    fn fmt<W: fmt::Write>(&self, f: &mut fmt::Formatter<W>) -> fmt::Result {
        let (number, name) = self.label();
        match *self {
            WriteFault::Write { out } => write!(f, "{number} {name} {out}"),
            WriteFault::OutOfMemory => write!(f, "{number} {name}"),
        }
    }
}

impl From<AllocError> for WriteFault {
    ghost use Rattle.std.specs.Prelude.{◌≡◌};

    ghost from_gives = { λ _ e. e ≡ OutOfMemory };

    fn from(_error: AllocError) -> WriteFault {
        WriteFault::OutOfMemory
    }
}
