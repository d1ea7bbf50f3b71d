//! A program that passed the check.
ghost use Rattle.bpf_insn.specs.Program.{insns};
ghost use Rattle.kernel_check.specs.Accepted.{IsAccepted};

use bpf_insn::{Insn, Program};

/// A program that the kernel accepts, lent in the bytes that it was read from.
///
/// `accept` and `AcceptedBuf::as_accepted` make one, and nothing else does.
#[derive(Clone, Copy, Debug)]
pub struct Accepted<'a> {
    pub(crate) program: Program<'a>,
    ghost accepted: { IsAccepted (insns program) },
}

#[tactic(auto, unfolding(crate::specs::Lent::accepted_insns))]
impl<'a> Accepted<'a> {
    ghost use Rattle.std.specs.Prelude.{◌≡◌, None, Some, MatchOption, slice_get};
    ghost use Rattle.bpf_insn.specs.Causes.{IsPlain};
    ghost use Rattle.bpf_insn.specs.Program.{insns};
    ghost use Rattle.kernel_check.specs.Accepted.{IsAccepted};
    ghost use Rattle.kernel_check.specs.Lent.{accepted_insns};

    /// The program that was accepted.
    pub fn program(&self) -> Program<'a>
        ensures same { insns result ≡ accepted_insns self.now }
        ensures accepted { IsAccepted (accepted_insns self.now) }
    {
        self.program
    }

    /// The instruction at a position, if there is one. It has no cause of its own to be refused.
    pub fn insn_at(&self, pc: u16) -> Option<Insn>
        ensures { let p = accepted_insns self.now in MatchOption result
            (slice_get p pc ≡ None)
            (λ insn. (slice_get p pc ≡ Some insn) × IsPlain insn) }
    {
        let program = self.program();
        let at = pc as usize;
        if at < program.len() {
            Some(program.get(at))
        } else {
            None
        }
    }
}
