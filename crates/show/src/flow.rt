//! What is known before each instruction of a filter, whatever the record is.
use bpf_insn::{Insn, Operand, Operation, Program, Test};
use machines::{Arch, Family};
use std::alloc::{AllocError, Global};
use wording::machine_of;

/// What is known before an instruction.
#[derive(Clone, Copy, Debug, PartialEq, Eq)]
pub(crate) struct Known {
    /// The offset of the record's word that A holds, if it is one.
    pub(crate) word: Option<u32>,
    /// The machine that the record was found to be of.
    pub(crate) machine: Option<Arch>,
}

// What is known where two ways meet.
fn joined(one: Option<Known>, other: Known) -> Known {
    let Some(one) = one else {
        return other;
    };
    Known {
        word: if one.word == other.word {
            one.word
        } else {
            None
        },
        machine: if one.machine == other.machine {
            one.machine
        } else {
            None
        },
    }
}

// What is known at a position, once a way leads there.
fn lead(states: &mut [Option<Known>], target: usize, known: Known) {
    if let Some(state) = states.get_mut(target) {
        *state = Some(joined(*state, known));
    }
}

/// The positions to which an instruction leads: where its test holds, and where not. Both are the same without a test.
pub(crate) fn targets(pc: usize, insn: Insn) -> Option<(usize, usize)> {
    let next = pc.saturating_add(1);
    match insn.operation() {
        Some(Operation::Branch(_, _)) => Some((
            next.saturating_add(insn.jt as usize),
            next.saturating_add(insn.jf as usize),
        )),
        Some(Operation::Jump) => {
            let target = next.saturating_add(insn.k as usize);
            Some((target, target))
        }
        Some(Operation::ReturnK) => None,
        Some(Operation::ReturnA) => None,
        _ => Some((next, next)),
    }
}

// What is known after an instruction, where its test holds or it has none.
fn after(family: Family, insn: Insn, known: Known) -> Known {
    match insn.operation() {
        Some(Operation::LoadWord) => Known {
            word: Some(insn.k),
            ..known
        },
        Some(Operation::Branch(Test::Equal, Operand::K)) => {
            if known.word != Some(4) {
                return known;
            }
            Known {
                machine: machine_of(family, insn.k),
                ..known
            }
        }
        Some(Operation::Branch(_, _)) => known,
        Some(Operation::Jump) => known,
        Some(Operation::Store) => known,
        Some(Operation::StoreX) => known,
        Some(Operation::SetX) => known,
        Some(Operation::LoadScratchX) => known,
        Some(Operation::CopyToX) => known,
        _ => Known {
            word: None,
            ..known
        },
    }
}

// What is known after a test that does not hold.
fn after_else(insn: Insn, known: Known, held: Known) -> Known {
    match insn.operation() {
        Some(Operation::Branch(_, _)) => known,
        _ => held,
    }
}

/// What is known before each instruction, `None` where no way leads.
pub(crate) fn flow(
    alloc: Global,
    family: Family,
    program: &Program<'_>,
) -> Result<Vec<Option<Known>>, AllocError> {
    let mut states: Vec<Option<Known>> = vec![in alloc; None; program.len()]?;
    let start = Known {
        word: None,
        machine: None,
    };
    lead(&mut states, 0, start);
    for pc in 0..program.len() {
        let insn = program.get(pc);
        let state = states.get(pc).copied().unwrap_or(None);
        if let Some(known) = state {
            if let Some((then, other)) = targets(pc, insn) {
                let held = after(family, insn, known);
                lead(&mut states, then, held);
                lead(&mut states, other, after_else(insn, known, held));
            }
        }
    }
    Ok(states)
}

/// Which positions jumps lead to.
pub(crate) fn labels(alloc: Global, program: &Program<'_>) -> Result<Vec<bool>, AllocError> {
    let mut labels = vec![in alloc; false; program.len()]?;
    for pc in 0..program.len() {
        let insn = program.get(pc);
        if is_jump(insn) {
            if let Some((then, other)) = targets(pc, insn) {
                mark(&mut labels, then);
                mark(&mut labels, other);
            }
        }
    }
    Ok(labels)
}

fn mark(labels: &mut [bool], target: usize) {
    if let Some(label) = labels.get_mut(target) {
        *label = true;
    }
}

/// Whether an instruction is a jump.
pub(crate) fn is_jump(insn: Insn) -> bool {
    match insn.operation() {
        Some(Operation::Branch(_, _)) => true,
        Some(Operation::Jump) => true,
        _ => false,
    }
}
