//! From a program to its text.
ghost use Rattle.std.specs.Prelude.{◌≡◌, IfOk, string_bytes};
ghost use Rattle.bpf_insn.specs.Program.{insns};
ghost use Rattle.bpf_asm.specs.Listing.{form_of, listing};

use crate::mnemonic::Mnemonic;
use bpf_insn::{Insn, Operand, Operation, Program};
use std::alloc::{AllocError, Global};
use std::fmt;

/// The operation whose form an instruction has: the one that its code stands for, where each field
/// that the operation's line doesn't show is 0.
#[tactic(auto, unfolding(crate::specs::Listing::form_of))]
pub(crate) fn form(insn: Insn) -> Option<Operation>
    ensures { result ≡ form_of insn }
{
    let operation = insn.operation()?;
    let shows_k = match operation {
        Operation::ReturnA | Operation::Negate | Operation::CopyToX | Operation::CopyToA => false,
        Operation::Branch(_, operand) | Operation::Compute(_, operand) => operand == Operand::K,
        _ => true,
    };
    let shows_targets = matches!(operation, Operation::Branch(_, _));
    if !shows_targets && (insn.jt != 0 || insn.jf != 0) {
        return None;
    }
    if !shows_k && insn.k != 0 {
        return None;
    }
    Some(operation)
}

/// An instruction, to be printed as its line.
#[derive(Clone, Copy)]
struct Line(Insn);

impl fmt::Display for Line {
    ghost use Rattle.std.specs.Prelude.{Some};
    ghost use Rattle.bpf_asm.specs.Listing.{line_of};

    ghost output = { λ line. Some (line_of line.0) };

    #[tactic(auto, unfolding(crate::specs::Listing::line_of))]
    fn fmt<W: fmt::Write>(&self, f: &mut fmt::Formatter<W>) -> fmt::Result {
        let Insn { code, jt, jf, k } = self.0;
        let Some(operation) = form(self.0) else {
            return write!(f, "raw 0x{code:x},{jt},{jf},0x{k:x}");
        };
        let mnemonic = Mnemonic::of(operation);
        match operation {
            Operation::LoadWord => write!(f, "{mnemonic} [{k}]"),
            Operation::LoadScratch
            | Operation::LoadScratchX
            | Operation::Store
            | Operation::StoreX => write!(f, "{mnemonic} M[{k}]"),
            Operation::SetA
            | Operation::SetX
            | Operation::ReturnK
            | Operation::ShiftLeft
            | Operation::ShiftRight
            | Operation::Compute(_, Operand::K) => write!(f, "{mnemonic} #0x{k:x}"),
            Operation::ReturnA => write!(f, "{mnemonic} a"),
            Operation::Compute(_, Operand::X) => write!(f, "{mnemonic} x"),
            Operation::Jump => write!(f, "{mnemonic} {k}"),
            Operation::Branch(_, Operand::K) => write!(f, "{mnemonic} #0x{k:x},{jt},{jf}"),
            Operation::Branch(_, Operand::X) => write!(f, "{mnemonic} x,{jt},{jf}"),
            Operation::Negate | Operation::CopyToX | Operation::CopyToA => write!(f, "{mnemonic}"),
        }
    }
}

/// The listing of a program: a line for each instruction, in order.
#[tactic(auto, using(crate::proofs::Listings::listing_more))]
pub fn disassemble(alloc: Global, program: &Program<'_>) -> Result<String, AllocError>
    ensures { IfOk result (λ text. string_bytes text ≡ listing (insns program.now)) }
{
    let mut text = String::new(alloc);
    for i in 0..program.len() {
        writeln!(text, "{}", Line(program.get(i)))?;
    }
    Ok(text)
}
