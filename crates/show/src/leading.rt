//! Where an instruction leads on a call of which the machine and the number are known.
ghost use Rattle.std.specs.Prelude.{◌≡◌, Some};
ghost use Rattle.bpf_insn.specs.Code.{operation_of};
ghost use Rattle.show.specs.inner.Leading.{leads_of, loaded_from, tested, to};

use bpf_insn::{Insn, Operand, Operation, Test};

/// What is known of A.
#[derive(Clone, Copy)]
pub(crate) enum Holds {
    /// It holds the number of the call.
    Number,
    /// It holds the token of the machine.
    Machine,
    /// Nothing is known.
    Other,
}

/// Where an instruction leads: how many instructions after it are skipped on one way and on the other, and what is
/// known of A there.
#[derive(Clone, Copy)]
pub(crate) struct Ways {
    pub(crate) first: u32,
    pub(crate) second: u32,
    pub(crate) holds: Holds,
}

// What A holds after a load.
fn loaded_from(k: u32) -> Holds
    ensures { result ≡ loaded_from k }
{
    match k {
        0 => Holds::Number,
        4 => Holds::Machine,
        _ => Holds::Other,
    }
}

impl Holds {
    ghost use Rattle.show.specs.inner.Leading.{held_after, known};

    // What A holds, if it is known.
    fn value(self, arch: u32, nr: u32) -> Option<u32>
        ensures { result ≡ known arch nr self }
    {
        match self {
            Holds::Number => Some(nr),
            Holds::Machine => Some(arch),
            Holds::Other => None,
        }
    }

    // What is known of A after an operation that neither ends the run nor jumps.
    fn after(self, operation: Operation, k: u32) -> Holds
        ensures { result ≡ held_after operation k self }
    {
        match operation {
            Operation::LoadWord => loaded_from(k),
            Operation::LoadScratchX => self,
            Operation::Store => self,
            Operation::StoreX => self,
            Operation::SetX => self,
            Operation::CopyToX => self,
            _ => Holds::Other,
        }
    }
}

// Where both ways lead, and what is known of A there.
fn to(first: u32, second: u32, holds: Holds) -> Ways
    ensures { result ≡ to first second holds }
{
    Ways {
        first,
        second,
        holds,
    }
}

// Where a test of A leads that is known, or not.
fn tested(test: Test, insn: &Insn, holds: Holds, value: Option<u32>) -> Ways
    ensures { result ≡ tested test insn.now holds value }
{
    let jt = u32::from(insn.jt);
    let jf = u32::from(insn.jf);
    match value {
        None => to(jt, jf, holds),
        Some(a) => {
            if test.holds(a, insn.k) {
                to(jt, jt, holds)
            } else {
                to(jf, jf, holds)
            }
        }
    }
}

// Where an instruction of this operation leads, if it does not end the run.
fn leads_by(operation: Operation, insn: &Insn, arch: u32, nr: u32, holds: Holds) -> Option<Ways>
    ensures { result ≡ leads_of (Some operation) insn.now arch nr holds }
{
    match operation {
        Operation::ReturnK => None,
        Operation::ReturnA => None,
        Operation::Jump => Some(to(insn.k, insn.k, holds)),
        Operation::Branch(test, Operand::K) => {
            Some(tested(test, insn, holds, holds.value(arch, nr)))
        }
        Operation::Branch(_, Operand::X) => {
            Some(to(u32::from(insn.jt), u32::from(insn.jf), holds))
        }
        _ => Some(to(0, 0, holds.after(operation, insn.k))),
    }
}

/// Where an instruction leads, if it does not end the run.
pub(crate) fn leads(insn: &Insn, arch: u32, nr: u32, holds: Holds) -> Option<Ways>
    ensures { result ≡ leads_of (operation_of insn.now.code) insn.now arch nr holds }
{
    match insn.operation() {
        None => None,
        Some(operation) => leads_by(operation, insn, arch, nr, holds),
    }
}
