//! An accepted program that outlives the bytes that it was read from.
ghost use Rattle.std.specs.Prelude.{◌≡◌, IfOk};
ghost use Rattle.kernel_check.specs.Lent.{accepted_insns};

use crate::lent::Accepted;
use bpf_insn::Program;
use std::alloc::{AllocError, Global};
use std::marker::Model;

/// An accepted program that owns its bytes. Clauses see its instructions.
#[derive(Drop)]
pub struct AcceptedBuf {
    bytes: Vec<u8>,
}

impl Model for AcceptedBuf {
    ghost use Rattle.std.specs.Prelude.{◌≡◌, None, List};
    ghost use Rattle.bpf_insn.specs.declared.instruction.Insn.{Insn};
    ghost use Rattle.bpf_insn.specs.Bytes.{insns_of, view_fault};
    ghost use Rattle.kernel_check.specs.Accepted.{IsAccepted};

    ghost Value = { List Insn };

    ghost view = { λ b. insns_of b.bytes.items };

    ghost invariant = { λ b.
        (view_fault b.bytes.items ≡ None) × IsAccepted (insns_of b.bytes.items) };
}

impl AcceptedBuf {
    /// A copy of an accepted program. It fails only by memory.
    pub fn copy_of(alloc: Global, accepted: &Accepted<'_>) -> Result<AcceptedBuf, AllocError>
        ensures { IfOk result (λ copy. copy ≡ accepted_insns accepted.now) }
    {
        let program = accepted.program();
        let bytes = Vec::from_slice(alloc, program.bytes())?;
        Ok(AcceptedBuf { bytes })
    }

    /// The program, lent in the bytes of the copy.
    #[tactic(auto, unfolding(crate::specs::Lent::accepted_insns))]
    pub fn as_accepted(&self) -> Accepted<'_>
        ensures { accepted_insns result ≡ self.now }
    {
        match Program::view(&self.bytes) {
            Ok(program) => Accepted { program },
            Err(_) => unreachable!(),
        }
    }
}
