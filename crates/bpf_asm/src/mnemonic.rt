//! The mnemonics that lines begin with.
use bpf_insn::{Arithmetic, Operation, Test};
use std::fmt;

/// What a line begins with.
#[derive(Clone, Copy)]
pub(crate) enum Mnemonic {
    Ld,
    Ldx,
    St,
    Stx,
    Ret,
    Ja,
    Branch(Test),
    Compute(Arithmetic),
    Lsh,
    Rsh,
    Neg,
    Tax,
    Txa,
    /// Of an instruction that has no form of its own.
    Raw,
}

impl Mnemonic {
    ghost use Rattle.std.specs.Prelude.{◌≡◌, Some};
    ghost use Rattle.bpf_asm.specs.inner.Mnemonics.{is_raw, mnemonic_at, mnemonic_of, text_of};

    /// The mnemonic of an operation's lines.
    pub(crate) fn of(operation: Operation) -> Mnemonic
        ensures { result ≡ mnemonic_of (Some operation) }
    {
        match operation {
            Operation::LoadWord | Operation::LoadScratch | Operation::SetA => Mnemonic::Ld,
            Operation::LoadScratchX | Operation::SetX => Mnemonic::Ldx,
            Operation::Store => Mnemonic::St,
            Operation::StoreX => Mnemonic::Stx,
            Operation::ReturnK | Operation::ReturnA => Mnemonic::Ret,
            Operation::Jump => Mnemonic::Ja,
            Operation::Branch(test, _) => Mnemonic::Branch(test),
            Operation::Compute(arithmetic, _) => Mnemonic::Compute(arithmetic),
            Operation::ShiftLeft => Mnemonic::Lsh,
            Operation::ShiftRight => Mnemonic::Rsh,
            Operation::Negate => Mnemonic::Neg,
            Operation::CopyToX => Mnemonic::Tax,
            Operation::CopyToA => Mnemonic::Txa,
        }
    }

    /// Whether the mnemonic is `raw`.
    pub(crate) fn is_raw(self) -> bool
        ensures { result ≡ is_raw self }
    {
        matches!(self, Mnemonic::Raw)
    }

    /// How the mnemonic is written.
    pub(crate) fn text(self) -> &'static str
        ensures { result.now ≡ text_of self }
    {
        match self {
            Mnemonic::Ld => "ld",
            Mnemonic::Ldx => "ldx",
            Mnemonic::St => "st",
            Mnemonic::Stx => "stx",
            Mnemonic::Ret => "ret",
            Mnemonic::Ja => "ja",
            Mnemonic::Branch(Test::Equal) => "jeq",
            Mnemonic::Branch(Test::Greater) => "jgt",
            Mnemonic::Branch(Test::AtLeast) => "jge",
            Mnemonic::Branch(Test::AnyBit) => "jset",
            Mnemonic::Compute(Arithmetic::Add) => "add",
            Mnemonic::Compute(Arithmetic::Sub) => "sub",
            Mnemonic::Compute(Arithmetic::Or) => "or",
            Mnemonic::Compute(Arithmetic::And) => "and",
            Mnemonic::Compute(Arithmetic::Xor) => "xor",
            Mnemonic::Lsh => "lsh",
            Mnemonic::Rsh => "rsh",
            Mnemonic::Neg => "neg",
            Mnemonic::Tax => "tax",
            Mnemonic::Txa => "txa",
            Mnemonic::Raw => "raw",
        }
    }

    /// The mnemonic that a text is, if it is one.
    #[tactic(auto, unfolding(crate::specs::inner::Mnemonics::mnemonic_at))]
    pub(crate) fn read(text: &str) -> Option<Mnemonic>
        ensures { result ≡ mnemonic_at text.now }
    {
        MNEMONICS
            .iter()
            .copied()
            .find(|mnemonic| text == mnemonic.text())
    }
}

// Each mnemonic.
const MNEMONICS: [Mnemonic; 21] = [
    Mnemonic::Ld,
    Mnemonic::Ldx,
    Mnemonic::St,
    Mnemonic::Stx,
    Mnemonic::Ret,
    Mnemonic::Ja,
    Mnemonic::Branch(Test::Equal),
    Mnemonic::Branch(Test::Greater),
    Mnemonic::Branch(Test::AtLeast),
    Mnemonic::Branch(Test::AnyBit),
    Mnemonic::Compute(Arithmetic::Add),
    Mnemonic::Compute(Arithmetic::Sub),
    Mnemonic::Compute(Arithmetic::Or),
    Mnemonic::Compute(Arithmetic::And),
    Mnemonic::Compute(Arithmetic::Xor),
    Mnemonic::Lsh,
    Mnemonic::Rsh,
    Mnemonic::Neg,
    Mnemonic::Tax,
    Mnemonic::Txa,
    Mnemonic::Raw,
];

impl fmt::Display for Mnemonic {
    ghost use Rattle.std.specs.Prelude.{Some};
    ghost use Rattle.bpf_asm.specs.inner.Mnemonics.{text_of};

    ghost output = { λ mnemonic. Some (text_of mnemonic) };

    fn fmt<W: fmt::Write>(&self, f: &mut fmt::Formatter<W>) -> fmt::Result {
        f.write_str(self.text())
    }
}
