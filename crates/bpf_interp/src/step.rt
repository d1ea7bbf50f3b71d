//! One step of a run.
ghost use Rattle.std.specs.Prelude.{◌≡◌, ◌≢◌, ◌<◌, None};
ghost use Rattle.call_record.specs.Record.{words};
ghost use Rattle.bpf_insn.specs.Causes.{IsPlain, ReadsScratch};
ghost use Rattle.bpf_insn.specs.Machine.{Goes, kept, step, stored};
ghost use Rattle.bpf_interp.specs.inner.Step.{state_of, step_of};

use bpf_insn::{Insn, Operand, Operation};
use call_record::Record;

/// The registers of a filter while it runs, and its scratch words, each once it is written.
#[derive(Clone, Copy)]
pub struct Registers {
    a: u32,
    x: u32,
    scratch: [Option<u32>; 16],
}

impl Registers {
    ghost use Rattle.std.specs.Prelude.{◌≡◌};
    ghost use Rattle.bpf_insn.specs.Machine.{start};
    ghost use Rattle.bpf_interp.specs.inner.Step.{state_of};

    /// A and X are 0 at first, and no scratch word is written.
    pub fn at_start() -> Registers
        ensures { state_of result ≡ start }
    {
        Registers {
            a: 0,
            x: 0,
            scratch: [None; _],
        }
    }
}

/// What one instruction does.
#[derive(Clone, Copy)]
pub enum Next {
    /// The run ends with this verdict.
    Returns(u32),
    /// The run goes on past so many of the instructions after it.
    Continues(u32),
}

// The run goes on with the next instruction and this value in A.
fn with_a(registers: &mut Registers, a: u32) -> Next
    ensures { step_of result registers.new ≡ Goes 0 (record (state_of registers.old) { a = a }) }
{
    registers.a = a;
    Next::Continues(0)
}

// The run goes on with the next instruction and this value in X.
fn with_x(registers: &mut Registers, x: u32) -> Next
    ensures { step_of result registers.new ≡ Goes 0 (record (state_of registers.old) { x = x }) }
{
    registers.x = x;
    Next::Continues(0)
}

// The run goes on with the next instruction and this value in a scratch word.
fn with_scratch(registers: &mut Registers, i: u32, word: u32) -> Next
    requires { i < 16 }
    ensures { step_of result registers.new ≡ stored (state_of registers.old) i word }
{
    registers.scratch[i as usize] = Some(word);
    Next::Continues(0)
}

/// Runs one instruction, which the kernel refuses for no cause of its own. A scratch word that it reads
/// is written.
pub fn advance(insn: &Insn, call: &Record, registers: &mut Registers) -> Next
    requires plain { IsPlain insn.now }
    requires written { ReadsScratch insn.now → kept (state_of registers.old) insn.now.k ≢ None }
    ensures { step (words call.now) insn.now (state_of registers.old) ≡ step_of result registers.new }
{
    let Insn { jt, jf, k, .. } = *insn;
    let a = registers.a;
    let x = registers.x;
    let value = |operand: Operand| -> u32 {
        match operand {
            Operand::K => k,
            Operand::X => x,
        }
    };
    match insn.operation() {
        None => unreachable!(),
        Some(Operation::LoadWord) => with_a(registers, call.word(k as usize / 4)),
        Some(Operation::LoadScratch) => match registers.scratch[k as usize] {
            Some(word) => with_a(registers, word),
            None => unreachable!(),
        },
        Some(Operation::LoadScratchX) => match registers.scratch[k as usize] {
            Some(word) => with_x(registers, word),
            None => unreachable!(),
        },
        Some(Operation::Store) => with_scratch(registers, k, a),
        Some(Operation::StoreX) => with_scratch(registers, k, x),
        Some(Operation::SetA) => with_a(registers, k),
        Some(Operation::SetX) => with_x(registers, k),
        Some(Operation::ReturnK) => Next::Returns(k),
        Some(Operation::ReturnA) => Next::Returns(a),
        Some(Operation::Jump) => Next::Continues(k),
        Some(Operation::Branch(test, operand)) => {
            let holds = test.holds(a, value(operand));
            let skip = if holds { jt } else { jf };
            Next::Continues(u32::from(skip))
        }
        Some(Operation::Compute(f, operand)) => with_a(registers, f.compute(a, value(operand))),
        Some(Operation::ShiftLeft) => with_a(registers, a.wrapping_shl(k)),
        Some(Operation::ShiftRight) => with_a(registers, a >> k),
        Some(Operation::Negate) => with_a(registers, 0u32.wrapping_sub(a)),
        Some(Operation::CopyToX) => with_x(registers, a),
        Some(Operation::CopyToA) => with_a(registers, x),
    }
}
