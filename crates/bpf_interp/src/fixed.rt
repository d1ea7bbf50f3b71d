//! What a filter answers by the number and the machine of a call alone.
ghost use Rattle.std.specs.Prelude.{◌≡◌, ◌∷◌, [], ◌↔◌, IsTrue, Some, ◌≤◌, ℕ};
ghost use Rattle.bpf_insn.specs.declared.code.Operation.TheVariants.{LoadWord};
ghost use Rattle.bpf_insn.specs.Code.{operation_of};
ghost use Rattle.kernel_check.specs.Lent.{accepted_insns};
ghost use Rattle.bpf_interp.specs.Fixed.{FixedIsTheVerdict, fixed_verdict, is_fixed_allow};
ghost use Rattle.bpf_interp.specs.inner.Known.{loads_further};

use crate::step::{Next, Registers, advance};
use bpf_insn::{Insn, Operation};
use call_record::{Record, Word};
use kernel_check::Accepted;

/// Whether a filter lets each call of this machine with this number through, whatever the rest of its record holds.
///
/// So it is if its run loads no other word of the record, and ends in a verdict of the action ALLOW.
pub fn fixed_allow(accepted: &Accepted<'_>, arch: u32, nr: u32) -> bool
    ensures { result ≡ is_fixed_allow (accepted_insns accepted.now) arch nr }
{
    match fixed_verdict(accepted, arch, nr) {
        None => false,
        Some(word) => word.action() == Word::ALLOW,
    }
}

/// A verdict that is fixed by the number and the machine of a call is the filter's verdict on each record
/// with these two.
pub fn fixed_is_the_verdict()
    ensures { FixedIsTheVerdict }
{}

// Whether an instruction loads a word of the record after the first two.
fn loads_further(insn: &Insn) -> bool
    ensures { result ≡ loads_further (operation_of insn.now.code) insn.now.k }
{
    match insn.operation() {
        Some(Operation::LoadWord) => insn.k >= 8,
        _ => false,
    }
}

// The verdict in which the run ends, if no other word of the record is loaded.
fn fixed_verdict(accepted: &Accepted<'_>, arch: u32, nr: u32) -> Option<Word>
    ensures { result ≡ fixed_verdict (accepted_insns accepted.now) arch nr }
{
    let program = accepted.program();
    let call = Record {
        nr,
        arch,
        ip: 0,
        args: [0; 6],
    };
    let mut registers = Registers::at_start();
    let mut pc = 0;
    'run: loop {
        let insn = program.get(pc);
        if loads_further(&insn) {
            return None;
        }
        match advance(&insn, &call, &mut registers) {
            Next::Returns(word) => return Some(Word(word)),
            Next::Continues(skip) => pc += 1 + skip as usize,
        }
    }
}
