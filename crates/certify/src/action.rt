//! What a path does at an instruction.
ghost use Rattle.std.specs.Prelude.{◌≡◌};
ghost use Rattle.bpf_insn.specs.Code.{operation_of};
ghost use Rattle.cert_check.specs.Rules.{verdict_by};
ghost use Rattle.certify.specs.inner.Actions.{action_by};

use crate::place::Place;
use bpf_insn::{Insn, Operation};
use cert_state::AVal;

/// What a path does at an instruction.
#[derive(Clone, Copy)]
pub(crate) enum Action {
    /// It ends there, by a verdict.
    Ends,
    /// It goes on in two ways.
    Forks,
    /// It goes on after so many instructions are skipped.
    Goes(u32),
}

/// What a path does at an instruction.
pub(crate) fn action_of(insn: &Insn) -> Action
    ensures { result ≡ action_by (operation_of insn.now.code) insn.now }
{
    match insn.operation() {
        Some(Operation::ReturnK) => Action::Ends,
        Some(Operation::ReturnA) => Action::Ends,
        Some(Operation::Branch(_, _)) => Action::Forks,
        Some(Operation::Jump) => Action::Goes(insn.k),
        _ => Action::Goes(0),
    }
}

/// The verdict of a return, if it is known there.
pub(crate) fn verdict_at(from: Place, insn: &Insn) -> Option<u32>
    ensures { result ≡ verdict_by (operation_of insn.now.code) from.regs insn.now }
{
    match (insn.operation(), from.regs.a) {
        (Some(Operation::ReturnK), _) => Some(insn.k),
        (Some(Operation::ReturnA), AVal::Const(word)) => Some(word),
        _ => None,
    }
}
