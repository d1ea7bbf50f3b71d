//! Which calls the kernel answers without running a filter.
ghost use Rattle.std.specs.Prelude.{◌≡◌, ◌∷◌, [], true};
ghost use Rattle.bpf_insn.specs.Code.{operation_of};
ghost use Rattle.bpf_insn.specs.Machine.{step};
ghost use Rattle.kernel_check.specs.Lent.{accepted_insns};
ghost use Rattle.show.specs.Answered.{AnsweredIsAllowed, is_answered, is_followed, verdict_asked};
ghost use Rattle.show.specs.inner.Asking.{holding, step_of};

use bpf_insn::{Arithmetic, Insn, Operand, Operation};
use kernel_check::Accepted;

// What one instruction does where the kernel asks a filter about a call.
#[derive(Clone, Copy)]
pub(crate) enum Next {
    // The asking ends with this verdict.
    Returns(u32),
    // It goes on past so many of the instructions after it, with this value in A.
    Continues(u32, u32),
}

// Whether the kernel follows an instruction when it asks.
fn is_followed(insn: &Insn) -> bool
    ensures { result ≡ is_followed (operation_of insn.now.code) insn.now.k }
{
    match insn.operation() {
        Some(Operation::LoadWord) => insn.k == 0 || insn.k == 4,
        Some(Operation::ReturnK) => true,
        Some(Operation::Jump) => true,
        Some(Operation::Branch(_, Operand::K)) => true,
        Some(Operation::Compute(Arithmetic::And, Operand::K)) => true,
        _ => false,
    }
}

// Follows one instruction that the kernel follows, with a value in A.
fn follow(insn: &Insn, arch: u32, nr: u32, a: u32) -> Next
    requires { is_followed (operation_of insn.now.code) insn.now.k ≡ true }
    ensures { step (nr ∷ arch ∷ []) insn.now (holding a) ≡ step_of result }
{
    match insn.operation() {
        Some(Operation::LoadWord) => {
            let word = if insn.k == 0 { nr } else { arch };
            Next::Continues(0, word)
        }
        Some(Operation::ReturnK) => Next::Returns(insn.k),
        Some(Operation::Jump) => Next::Continues(insn.k, a),
        Some(Operation::Branch(test, _)) => {
            let skip = if test.holds(a, insn.k) {
                insn.jt
            } else {
                insn.jf
            };
            Next::Continues(u32::from(skip), a)
        }
        Some(Operation::Compute(_, _)) => Next::Continues(0, a & insn.k),
        _ => unreachable!(),
    }
}

// The verdict in which the asking ends, if the kernel does not give up.
fn verdict_asked(accepted: &Accepted<'_>, arch: u32, nr: u32) -> Option<u32>
    ensures { result ≡ verdict_asked (accepted_insns accepted.now) arch nr }
{
    let program = accepted.program();
    let mut a = 0;
    let mut pc = 0;
    'run: loop {
        let insn = program.get(pc);
        if !is_followed(&insn) {
            return None;
        }
        match follow(&insn, arch, nr, a) {
            Next::Returns(word) => return Some(word),
            Next::Continues(skip, value) => {
                a = value;
                pc += 1 + skip as usize;
            }
        }
    }
}

/// Whether the kernel answers a call by itself: it follows the filter by the call's machine and number alone, and
/// that ends in ALLOW. Then it never runs the filter on such a call.
pub fn is_answered(accepted: &Accepted<'_>, arch: u32, nr: u32) -> bool
    ensures { result ≡ is_answered (accepted_insns accepted.now) arch nr }
{
    match verdict_asked(accepted, arch, nr) {
        None => false,
        Some(word) => word == 0x7fff_0000,
    }
}

/// A call that the kernel answers by itself is one that the filter allows, whatever the rest of its record holds.
pub fn answered_calls_are_allowed()
    ensures { AnsweredIsAllowed }
{}
