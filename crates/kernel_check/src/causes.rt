//! What is wrong at one position of a program, whatever leads to it.
ghost use Rattle.std.specs.Prelude.{◌≡◌, ◌≢◌, ◌<◌, ◌≤◌, List, MatchOption, length};
ghost use Rattle.bpf_insn.specs.declared.instruction.Insn.{Insn as Instruction};
ghost use Rattle.kernel_check.specs.declared.fault.Cause.{Cause as Refusal};
ghost use Rattle.kernel_check.specs.declared.fault.Cause.TheVariants.{Scratch};
ghost use Rattle.kernel_check.specs.Accepted.{CauseAt};
ghost use Rattle.kernel_check.specs.Fault.{number_of};

use crate::fault::Cause;
use bpf_insn::{Insn, Operation};

// The first cause but Scratch that stands at position `i` of `n`.
pub(crate) fn cause_at(insn: &Insn, i: usize, n: usize) -> Option<Cause>
    requires { i < n }
    ensures { (p : List Instruction) → length p ≡ n → MatchOption result
        ((k : Refusal) → CauseAt k p i insn.now → k ≡ Scratch)
        (λ cause. CauseAt cause p i insn.now × (cause ≢ Scratch)
        × ((k : Refusal) → CauseAt k p i insn.now → number_of cause ≤ number_of k)) }
{
    let next = i + 1;
    let leads_out = |skip: usize| -> bool { skip >= n - next };
    match insn.operation() {
        None => Some(Cause::Code),
        Some(Operation::LoadWord) if insn.k >= 64 || insn.k % 4 != 0 => Some(Cause::Load),
        Some(
            Operation::LoadScratch | Operation::LoadScratchX | Operation::Store | Operation::StoreX,
        ) if insn.k >= 16 => Some(Cause::Load),
        Some(Operation::ShiftLeft | Operation::ShiftRight) if insn.k >= 32 => Some(Cause::Shift),
        Some(Operation::Jump) if leads_out(insn.k as usize) => Some(Cause::Target),
        Some(Operation::Branch(_, _))
            if leads_out(insn.jt as usize) || leads_out(insn.jf as usize) => Some(Cause::Target),
        Some(Operation::ReturnK | Operation::ReturnA) => None,
        Some(_) if next == n => Some(Cause::End),
        Some(_) => None,
    }
}
