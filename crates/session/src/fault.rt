//! Why a script stops.
use std::fmt;
use thiserror::Error;

/// Why a script stops before its end.
#[derive(Clone, Copy, Debug, PartialEq, Eq, Error)]
pub enum ScriptFault {
    /// The source failed while it gave this line, counted from 1.
    Read { line: u64 },
    /// The sink failed once it had taken so many bytes.
    Write { out: u64 },
    /// There was no memory for this line, counted from 1; 0 before the first read.
    Memory { line: u64 },
}

impl ScriptFault {
    ghost use Rattle.std.specs.Prelude.{◌≡◌};
    ghost use Rattle.session.specs.Fault.{label_of};

    /// The number and the name by which it is told.
    pub fn label(self) -> (u32, &'static str)
        ensures number { result.0 ≡ (label_of self).0 }
        ensures name { result.1.now ≡ (label_of self).1 }
    {
        match self {
            ScriptFault::Read { .. } => (1, "Read"),
            ScriptFault::Write { .. } => (2, "Write"),
            ScriptFault::Memory { .. } => (3, "Memory"),
        }
    }
}

impl fmt::Display for ScriptFault {
    ghost use Rattle.std.specs.Prelude.{Some};
    ghost use Rattle.session.specs.Fault.{text_of};

    ghost output = { λ fault. Some (text_of fault) };

    fn fmt<W: fmt::Write>(&self, f: &mut fmt::Formatter<W>) -> fmt::Result {
        let (number, name) = self.label();
        match *self {
            ScriptFault::Read { line } => write!(f, "{number} {name} line {line}"),
            ScriptFault::Write { out } => write!(f, "{number} {name} {out}"),
            ScriptFault::Memory { line } => write!(f, "{number} {name} line {line}"),
        }
    }
}
