//! The lines of a program, and what is known of each.
use crate::flow::{Known, flow, labels};
use bpf_asm::disassemble;
use bpf_insn::Program;
use machines::Arch;
use std::alloc::{AllocError, Global};

/// A program's listing, what is known before each instruction, and which of them jumps lead to.
#[derive(Drop)]
pub(crate) struct Lines {
    pub(crate) listing: String,
    states: Vec<Option<Known>>,
    labels: Vec<bool>,
}

impl Lines {
    /// The lines of a program, with the machines that stand beside a native one.
    pub(crate) fn of(
        alloc: Global,
        native: Arch,
        program: &Program<'_>,
    ) -> Result<Lines, AllocError> {
        Ok(Lines {
            listing: disassemble(alloc, program)?,
            states: flow(alloc, native.family(), program)?,
            labels: labels(alloc, program)?,
        })
    }

    /// What is known before an instruction, `None` where no way leads.
    pub(crate) fn state(&self, pc: usize) -> Option<Known> {
        self.states.get(pc).copied().unwrap_or(None)
    }

    /// Whether a jump leads to an instruction.
    pub(crate) fn is_label(&self, pc: usize) -> bool {
        self.labels.get(pc).copied().unwrap_or(false)
    }
}
