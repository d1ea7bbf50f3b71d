//! The check of a whole program.
ghost use Rattle.std.specs.Prelude.{◌≡◌, IfOk, IfErr};
ghost use Rattle.bpf_insn.specs.Program.{insns};
ghost use Rattle.kernel_check.specs.Accepted.{IsAccepted, IsRefusal};
ghost use Rattle.kernel_check.specs.Lent.{accepted_insns};

use crate::causes::cause_at;
use crate::fault::{Cause, Refused};
use crate::lent::Accepted;
use crate::scratch::first_unwritten_read;
use bpf_insn::Program;

/// The program, if the kernel accepts it, and else what is wrong, at the first position where
/// something is.
///
/// Every position counts, whether a run reaches it or not. Only where nothing else is wrong anywhere is
/// it told that a path reads a scratch word that it has not written.
#[tactic(auto, unfolding(crate::specs::Lent::accepted_insns))]
pub fn accept<'a>(program: &Program<'a>) -> Result<Accepted<'a>, Refused>
    ensures accepted { IfOk result (λ _. IsAccepted (insns program.now)) }
    ensures same { IfOk result (λ accepted. accepted_insns accepted ≡ insns program.now) }
    ensures refused { IfErr result (IsRefusal (insns program.now)) }
{
    let n = program.len();
    for i in 0..n {
        if let Some(cause) = cause_at(&program.get(i), i, n) {
            return Err(Refused {
                cause,
                pc: i as u32,
            });
        }
    }
    match first_unwritten_read(program) {
        None => Ok(Accepted { program: *program }),
        Some(pc) => Err(Refused {
            cause: Cause::Scratch,
            pc,
        }),
    }
}
