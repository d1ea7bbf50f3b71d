//! Programs without the instructions that no path reaches.

use bpf_insn::{Insn, Operation};
use std::alloc::{AllocError, Global};

// The place behind so many instructions that are skipped behind one.
fn behind(place: usize, skipped: usize) -> usize {
    place.saturating_add(1).saturating_add(skipped)
}

fn mark(reached: &mut [bool], place: usize) {
    if let Some(found) = reached.get_mut(place) {
        *found = true;
    }
}

// Marks where a path goes on behind an instruction.
fn mark_next(reached: &mut [bool], place: usize, insn: &Insn) {
    match insn.operation() {
        Some(Operation::ReturnK | Operation::ReturnA) => {}
        Some(Operation::Jump) => mark(reached, behind(place, insn.k as usize)),
        Some(Operation::Branch(_, _)) => {
            mark(reached, behind(place, usize::from(insn.jt)));
            mark(reached, behind(place, usize::from(insn.jf)));
        }
        _ => mark(reached, behind(place, 0)),
    }
}

// Whether a path reaches each instruction. Jumps go forward.
fn reached_of(alloc: Global, insns: &[Insn]) -> Result<Vec<bool>, AllocError> {
    let mut reached = vec![in alloc; false; insns.len()]?;
    mark(&mut reached, 0);
    for (place, insn) in insns.iter().enumerate() {
        if is_reached(&reached, place) {
            mark_next(&mut reached, place, insn);
        }
    }
    Ok(reached)
}

fn is_reached(reached: &[bool], place: usize) -> bool {
    match reached.get(place) {
        Some(found) => *found,
        None => false,
    }
}

// How many of so many instructions behind a place are reached.
fn kept(reached: &[bool], place: usize, skipped: usize) -> usize {
    let mut count = 0usize;
    if let Some(between) = reached.get(behind(place, 0)..behind(place, skipped)) {
        for found in between {
            if *found {
                count = count.saturating_add(1);
            }
        }
    }
    count
}

// How many instructions a conditional jump skips.
fn skipped(reached: &[bool], place: usize, count: u8) -> u8 {
    kept(reached, place, usize::from(count)).min(255) as u8
}

// An instruction that goes on at the same ones, once those that are not reached are left out.
fn moved(reached: &[bool], place: usize, insn: &Insn) -> Insn {
    match insn.operation() {
        Some(Operation::Jump) => Insn {
            k: kept(reached, place, insn.k as usize).min(0xffff_ffff) as u32,
            ..*insn
        },
        Some(Operation::Branch(_, _)) => Insn {
            jt: skipped(reached, place, insn.jt),
            jf: skipped(reached, place, insn.jf),
            ..*insn
        },
        _ => *insn,
    }
}

/// The instructions that a path reaches, if there are others. Nothing is proved of them: who takes them has them checked.
pub(crate) fn only_reached(alloc: Global, insns: &[Insn]) -> Result<Option<Vec<Insn>>, AllocError> {
    let reached = reached_of(alloc, insns)?;
    let mut all = Vec::new(alloc);
    for (place, insn) in insns.iter().enumerate() {
        if is_reached(&reached, place) {
            all.push(moved(&reached, place, insn))?;
        }
    }
    if all.len() == insns.len() {
        return Ok(None);
    }
    Ok(Some(all))
}
