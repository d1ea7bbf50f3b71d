//! Why the kernel refuses a program.
use std::fmt;
use thiserror::Error;

/// What is wrong with a program.
///
/// Of two causes at one position the earlier is told, and the last is told only where none of the
/// others stands anywhere.
#[derive(Clone, Copy, Debug, PartialEq, Eq, Error)]
pub enum Cause {
    /// The code is not listed.
    Code,
    /// A load is of no whole word of the record, or a load or store of none of the scratch words.
    Load,
    /// A shift is by 32 bits or more.
    Shift,
    /// A jump leads past the last instruction.
    Target,
    /// The last instruction is no return.
    End,
    /// Some path reads a scratch word that it has not written.
    Scratch,
}

impl Cause {
    ghost use Rattle.std.specs.Prelude.{◌≡◌};
    ghost use Rattle.kernel_check.specs.Fault.{label_of};

    /// The number and the name by which it is told.
    pub fn label(self) -> (u32, &'static str)
        ensures number { result.0 ≡ (label_of self).0 }
        ensures name { result.1.now ≡ (label_of self).1 }
    {
        match self {
            Cause::Code => (1, "Code"),
            Cause::Load => (2, "Load"),
            Cause::Shift => (3, "Shift"),
            Cause::Target => (4, "Target"),
            Cause::End => (5, "End"),
            Cause::Scratch => (6, "Scratch"),
        }
    }
}

impl fmt::Display for Cause {
    ghost use Rattle.std.specs.Prelude.{Some};
    ghost use Rattle.kernel_check.specs.Fault.{cause_text_of};

    ghost output = { λ cause. Some (cause_text_of cause) };

    fn fmt<W: fmt::Write>(&self, f: &mut fmt::Formatter<W>) -> fmt::Result {
        let (number, name) = self.label();
        write!(f, "{number} {name}")
    }
}

/// The cause that a program is refused for, and the position where it stands.
#[derive(Clone, Copy, Debug, PartialEq, Eq, Error)]
pub struct Refused {
    pub cause: Cause,
    /// The position of the instruction, from 0.
    pub pc: u32,
}

impl fmt::Display for Refused {
    ghost use Rattle.std.specs.Prelude.{Some};
    ghost use Rattle.kernel_check.specs.Fault.{text_of};

    ghost output = { λ refused. Some (text_of refused) };

    fn fmt<W: fmt::Write>(&self, f: &mut fmt::Formatter<W>) -> fmt::Result {
        let Refused { cause, pc } = *self;
        write!(f, "{cause} pc {pc}")
    }
}
