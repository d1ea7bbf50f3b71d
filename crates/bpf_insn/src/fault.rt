//! Why bytes are no program.
use std::fmt;
use thiserror::Error;

/// Why bytes are no program. The causes are looked for in this order.
#[derive(Clone, Copy, Debug, PartialEq, Eq, Error)]
pub enum ViewError {
    /// The length is no multiple of 8.
    NotMultipleOf8,
    /// There is no byte.
    Empty,
    /// There are more than 4096 instructions.
    TooLong,
}

impl ViewError {
    ghost use Rattle.std.specs.Prelude.{◌≡◌};
    ghost use Rattle.bpf_insn.specs.Fault.{label_of};

    /// The number and the name by which it is told.
    pub fn label(self) -> (u32, &'static str)
        ensures number { result.0 ≡ (label_of self).0 }
        ensures name { result.1.now ≡ (label_of self).1 }
    {
        match self {
            ViewError::NotMultipleOf8 => (1, "NotMultipleOf8"),
            ViewError::Empty => (2, "Empty"),
            ViewError::TooLong => (3, "TooLong"),
        }
    }
}

impl fmt::Display for ViewError {
    ghost use Rattle.std.specs.Prelude.{Some};
    ghost use Rattle.bpf_insn.specs.Fault.{text_of};

    ghost output = { λ fault. Some (text_of fault) };

    fn fmt<W: fmt::Write>(&self, f: &mut fmt::Formatter<W>) -> fmt::Result {
        let (number, name) = self.label();
        write!(f, "{number} {name}")
    }
}
