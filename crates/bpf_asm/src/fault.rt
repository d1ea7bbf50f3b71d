//! Why a text is no listing.
ghost use Rattle.bpf_asm.specs.declared.fault.AsmError.TheVariants.{OutOfMemory};

use std::alloc::{AllocError, AllocFailed};
use std::fmt;
use thiserror::Error;

/// What is wrong with a line.
///
/// Of two faults of a line the first of these counts: that it is line 4097; its mnemonic; its shape; a number; that
/// it need not be `raw`; that its line feed is missing.
#[derive(Clone, Copy, Debug, PartialEq, Eq)]
pub enum LineFault {
    /// It begins with no mnemonic of the listing.
    UnknownWord,
    /// A number has a leading zero, or is too large for its field.
    BadNumber,
    /// It is line 4097.
    TooLong,
    /// What follows the mnemonic has none of its shapes, or a `raw` line is of an instruction that has another
    /// form. It also counts if the line feed is missing, or there is no line at all.
    BadLine,
}

/// Why a text is not assembled.
#[derive(Clone, Copy, Debug, PartialEq, Eq, Error)]
pub enum AsmError {
    /// The first line with a fault, counted from 1, and its fault.
    Line { line: usize, fault: LineFault },
    /// There is no memory for the bytes.
    OutOfMemory,
}

impl AsmError {
    ghost use Rattle.std.specs.Prelude.{◌≡◌};
    ghost use Rattle.bpf_asm.specs.Fault.{label_of};

    /// The number and the name by which it is told.
    pub fn label(self) -> (u32, &'static str)
        ensures number { result.0 ≡ (label_of self).0 }
        ensures name { result.1.now ≡ (label_of self).1 }
    {
        match self {
            AsmError::Line { line: _, fault } => match fault {
                LineFault::UnknownWord => (1, "UnknownWord"),
                LineFault::BadNumber => (2, "BadNumber"),
                LineFault::TooLong => (3, "TooLong"),
                LineFault::BadLine => (4, "BadLine"),
            },
            AsmError::OutOfMemory => (9, "OutOfMemory"),
        }
    }
}

impl fmt::Display for AsmError {
    ghost use Rattle.std.specs.Prelude.{Some};
    ghost use Rattle.bpf_asm.specs.Fault.{text_of};

    ghost output = { λ error. Some (text_of error) };

    fn fmt<W: fmt::Write>(&self, f: &mut fmt::Formatter<W>) -> fmt::Result {
        let (number, name) = self.label();
        match *self {
            AsmError::Line { line, fault: _ } => write!(f, "{number} {name} line {line}"),
            AsmError::OutOfMemory => write!(f, "{number} {name}"),
        }
    }
}

impl From<AllocError> for AsmError {
    ghost use Rattle.std.specs.Prelude.{◌≡◌};

    ghost from_gives = { λ _ e. e ≡ OutOfMemory };

    fn from(_e: AllocError) -> AsmError {
        AsmError::OutOfMemory
    }
}

impl<T: Drop> From<AllocFailed<T>> for AsmError {
    ghost use Rattle.std.specs.Prelude.{◌≡◌};

    ghost from_gives = { λ _ e. e ≡ OutOfMemory };

    fn from(_e: AllocFailed<T>) -> AsmError {
        AsmError::OutOfMemory
    }
}
