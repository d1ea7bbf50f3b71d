//! A filter that ends with the verdict that counts of two filters'.
use bpf_insn::{Insn, Operation};
use call_record::{Word, stricter};
use std::alloc::{AllocError, Global};
use together::{Way, laxest};

// The verdict that an instruction ends with, if it is one of those that name it.
fn end_of(insn: &Insn) -> Option<u32> {
    match insn.operation() {
        Some(Operation::ReturnK) => Some(insn.k),
        _ => None,
    }
}

// The verdicts that a filter ends with, each once.
fn ends_of(alloc: Global, insns: &[Insn]) -> Result<Vec<u32>, AllocError> {
    let mut ends = Vec::new(alloc);
    for insn in insns {
        if let Some(end) = end_of(insn)
            && !ends.contains(&end)
        {
            ends.push(end)?;
        }
    }
    Ok(ends)
}

// A jump over so many instructions.
fn jump(over: usize) -> Insn {
    Insn {
        code: Operation::Jump.code(),
        jt: 0,
        jf: 0,
        k: u32::try_from(over).unwrap_or(u32::MAX),
    }
}

// How many instructions lie between one that is so many before the end and a copy of a filter of this length behind it.
fn distance(left: usize, copy: usize, len: usize) -> usize {
    copy.saturating_mul(len).saturating_add(left)
}

// An instruction with so many behind it, or where it ends a jump to a copy of another filter.
fn going_on(insn: &Insn, left: usize, ends: &[u32], len: usize) -> Insn {
    let Some(end) = end_of(insn) else {
        return *insn;
    };
    match ends.iter().position(|other| *other == end) {
        Some(copy) => jump(distance(left, copy, len)),
        None => *insn,
    }
}

// The verdict that counts.
fn word_of(way: Way, older: Word, newer: Word) -> Word {
    match way {
        Way::Laxest => laxest(&[older, newer]),
        Way::Strictest => stricter(newer, older),
    }
}

// An instruction behind a verdict, or where it ends the verdict that counts.
fn ended(way: Way, older: u32, insn: &Insn) -> Insn {
    let Some(end) = end_of(insn) else {
        return *insn;
    };
    let word = word_of(way, Word(older), Word(end));
    Insn { k: word.0, ..*insn }
}

// Adds a filter behind a verdict.
fn push_behind(
    way: Way,
    older: u32,
    second: &[Insn],
    insns: &mut Vec<Insn>,
) -> Result<(), AllocError> {
    for insn in second {
        insns.push(ended(way, older, insn))?;
    }
    Ok(())
}

/// The instructions of the first filter, which go on to a copy of the second one for each verdict.
pub(crate) fn product(
    alloc: Global,
    way: Way,
    first: &[Insn],
    second: &[Insn],
) -> Result<Vec<Insn>, AllocError> {
    let ends = ends_of(alloc, first)?;
    let mut insns = Vec::new(alloc);
    for insn in first {
        let left = first.len().saturating_sub(insns.len()).saturating_sub(1);
        insns.push(going_on(insn, left, &ends, second.len()))?;
    }
    for end in &ends {
        push_behind(way, *end, second, &mut insns)?;
    }
    Ok(insns)
}
