//! How an argument is read.
ghost use Rattle.std.specs.Prelude.{◌≡◌};
ghost use Rattle.widths.specs.Reading as spec;

/// How a kernel reads an argument of a call.
#[derive(Clone, Copy, PartialEq, Eq)]
pub enum Reading {
    /// The call has no such argument.
    NotTaken,
    /// The lowest 16 bits, as of `umode_t`.
    Bits16,
    /// The lower half, as of `int`.
    Bits32,
    /// The whole register.
    Bits64,
    /// The whole register, as an address.
    Pointer,
}

impl Reading {
    /// How many of the lowest bits count as read. An argument that a call does not take counts as read whole.
    pub fn bits(self) -> u32
        ensures { result ≡ spec.bits_of self }
    {
        match self {
            Reading::Bits16 => 16,
            Reading::Bits32 => 32,
            Reading::NotTaken => 64,
            Reading::Bits64 => 64,
            Reading::Pointer => 64,
        }
    }
}
