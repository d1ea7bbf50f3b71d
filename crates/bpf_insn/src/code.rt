//! What the codes stand for.
ghost use Rattle.std.specs.Prelude.{ℕ, ◌≡◌, Some};
ghost use Rattle.bpf_insn.specs.Code.{code_of, operation_of};

/// The second operand of a comparison or a computation (`BPF_K`, `BPF_X`).
#[derive(Clone, Copy, PartialEq, Eq)]
pub enum Operand {
    /// The instruction's own number.
    K,
    /// The register X.
    X,
}

/// How a conditional jump compares A with its operand. Numbers are unsigned.
#[derive(Clone, Copy, Debug, PartialEq, Eq)]
pub enum Test {
    /// `JEQ`: the two are equal.
    Equal,
    /// `JGT`: A is greater.
    Greater,
    /// `JGE`: A is greater or equal.
    AtLeast,
    /// `JSET`: the two have a bit in common.
    AnyBit,
}

/// What is computed of A and an operand, modulo 2^32.
#[derive(Clone, Copy, PartialEq, Eq)]
pub enum Arithmetic {
    Add,
    Sub,
    Or,
    And,
    Xor,
}

/// What an instruction does. A filter of a seccomp call record has these and no others.
#[derive(Clone, Copy, PartialEq, Eq)]
pub enum Operation {
    /// `LD W ABS`: A becomes the word of the record at byte k.
    LoadWord,
    /// `LD MEM`: A becomes the scratch word k.
    LoadScratch,
    /// `LDX MEM`: X becomes the scratch word k.
    LoadScratchX,
    /// `ST`: the scratch word k becomes A.
    Store,
    /// `STX`: the scratch word k becomes X.
    StoreX,
    /// `LD IMM`: A becomes k.
    SetA,
    /// `LDX IMM`: X becomes k.
    SetX,
    /// `RET K`: the run ends with the verdict k.
    ReturnK,
    /// `RET A`: the run ends with the verdict in A.
    ReturnA,
    /// `JA`: the next k instructions are skipped.
    Jump,
    /// A conditional jump: the next jt instructions are skipped if the test holds, and else the next jf.
    Branch(Test, Operand),
    /// A becomes what is computed of A and the operand.
    Compute(Arithmetic, Operand),
    /// `LSH K`: A is shifted left by k bits.
    ShiftLeft,
    /// `RSH K`: A is shifted right by k bits.
    ShiftRight,
    /// `NEG`: A becomes minus A, modulo 2^32.
    Negate,
    /// `TAX`: X becomes A.
    CopyToX,
    /// `TXA`: A becomes X.
    CopyToA,
}

// `bits` is the part of a code that says the operand, the test or the computation (`BPF_SRC` and `BPF_OP`).

impl Operand {
    ghost use Rattle.bpf_insn.specs.Code.{source_bits};

    fn bits(self) -> u16
        ensures { result ≡ source_bits self }
    {
        match self {
            Operand::K => 0x00,
            Operand::X => 0x08,
        }
    }
}

impl Test {
    ghost use Rattle.bpf_insn.specs.Code.{test_bits};
    ghost use Rattle.bpf_insn.specs.Machine.{holds as came_out};

    /// Whether the comparison of A with its operand holds.
    pub fn holds(self, a: u32, operand: u32) -> bool
        ensures { result ≡ came_out self a operand }
    {
        match self {
            Test::Equal => a == operand,
            Test::Greater => a > operand,
            Test::AtLeast => a >= operand,
            Test::AnyBit => a & operand != 0,
        }
    }

    fn bits(self) -> u16
        ensures { result ≡ test_bits self }
    {
        match self {
            Test::Equal => 0x10,
            Test::Greater => 0x20,
            Test::AtLeast => 0x30,
            Test::AnyBit => 0x40,
        }
    }
}

impl Arithmetic {
    ghost use Rattle.bpf_insn.specs.Code.{arithmetic_bits};
    ghost use Rattle.bpf_insn.specs.Machine.{computed};

    /// What is computed of A and its operand, in 32 bits.
    pub fn compute(self, a: u32, operand: u32) -> u32
        ensures { result ≡ computed self a operand }
    {
        match self {
            Arithmetic::Add => a.wrapping_add(operand),
            Arithmetic::Sub => a.wrapping_sub(operand),
            Arithmetic::Or => a | operand,
            Arithmetic::And => a & operand,
            Arithmetic::Xor => a ^ operand,
        }
    }

    fn bits(self) -> u16
        ensures { result ≡ arithmetic_bits self }
    {
        match self {
            Arithmetic::Add => 0x00,
            Arithmetic::Sub => 0x10,
            Arithmetic::Or => 0x40,
            Arithmetic::And => 0x50,
            Arithmetic::Xor => 0xa0,
        }
    }
}

impl Operation {
    /// The code that stands for the operation, and no other does.
    #[tactic(auto, using(crate::proofs::CodeLaws::one_to_one))]
    pub fn code(self) -> u16
        ensures listed { result ≡ code_of self }
        ensures decoded { operation_of result ≡ Some self }
        ensures only { (code : ℕ) → operation_of code ≡ Some self → code ≡ result }
    {
        listed_code(self)
    }
}

fn listed_code(operation: Operation) -> u16
    ensures { result ≡ code_of operation }
{
    match operation {
        Operation::LoadWord => 0x20,
        Operation::LoadScratch => 0x60,
        Operation::LoadScratchX => 0x61,
        Operation::Store => 0x02,
        Operation::StoreX => 0x03,
        Operation::SetA => 0x00,
        Operation::SetX => 0x01,
        Operation::ReturnK => 0x06,
        Operation::ReturnA => 0x16,
        Operation::Jump => 0x05,
        Operation::Branch(test, operand) => 0x05 + test.bits() + operand.bits(),
        Operation::Compute(arithmetic, operand) => 0x04 + arithmetic.bits() + operand.bits(),
        Operation::ShiftLeft => 0x64,
        Operation::ShiftRight => 0x74,
        Operation::Negate => 0x84,
        Operation::CopyToX => 0x07,
        Operation::CopyToA => 0x87,
    }
}
