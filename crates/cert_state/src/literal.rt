//! What may be known of a word of a record, and of a register.

/// What is known of the word of this index, below 16.
#[derive(Clone, Copy, PartialEq, Eq)]
pub enum Lit {
    /// It lies from the first number to the second.
    In(u8, u32, u32),
    /// Under the mask that is the first number it is the second.
    Bits(u8, u32, u32),
    /// Under the mask that is the first number it is not the second.
    NotBits(u8, u32, u32),
}

impl Lit {
    ghost use Rattle.std.specs.Prelude.{◌≡◌};
    ghost use Rattle.cert_state.specs.Literals.{index_of};

    /// The index of the word of which it speaks.
    pub fn word(self) -> u8
        ensures { result ≡ index_of self }
    {
        match self {
            Lit::In(word, _, _) | Lit::Bits(word, _, _) | Lit::NotBits(word, _, _) => word,
        }
    }
}

/// What is known of a register or of a scratch word.
#[derive(Clone, Copy, PartialEq, Eq)]
pub enum AVal {
    /// Nothing.
    Unknown,
    /// It is this number.
    Const(u32),
    /// It is the record's word of this index, below 16, under this mask.
    Masked(u8, u32),
}

/// What is known of all that a program holds while it runs.
#[derive(Clone, Copy, PartialEq, Eq)]
pub struct Regs {
    /// Of the register A.
    pub a: AVal,
    /// Of the register X.
    pub x: AVal,
    /// Of the scratch words; where a value is stated, the word is written.
    pub scratch: [AVal; 16],
}

/// Nothing is known of the registers.
pub(crate) const NO_REGS: Regs = Regs {
    a: AVal::Unknown,
    x: AVal::Unknown,
    scratch: [AVal::Unknown; 16],
};
