//! Which comparisons a filter makes on its way, and of which words of the record.

use bpf_insn::{Arithmetic, Insn, MAX_INSNS, Operand, Operation};
use call_record::Record;
use kernel_check::Accepted;
use std::alloc::AllocError;

// The word of a record that holds the lower half of the first argument.
const FIRST_ARGUMENT: usize = 4;

// The most comparisons on one way that are looked at.
const MOST_TESTS: usize = 64;

/// A comparison with a number, of the bits under a mask of one word of the record.
#[derive(Clone, Copy, Debug)]
pub(crate) struct WordTest {
    pub(crate) word: usize,
    pub(crate) mask: u32,
    pub(crate) number: u32,
}

// What the registers hold, and of which word under which mask A is.
#[derive(Clone, Copy)]
struct Held {
    a: u32,
    x: u32,
    of: Option<(usize, u32)>,
}

// The second operand of an instruction.
fn operand(operand: Operand, insn: &Insn, held: &Held) -> u32 {
    match operand {
        Operand::K => insn.k,
        Operand::X => held.x,
    }
}

// The comparison that an instruction makes, if it is one of a word of the record.
fn word_test_of(insn: &Insn, held: &Held) -> Option<WordTest> {
    let (word, mask) = held.of?;
    match insn.operation()? {
        Operation::Branch(_, other) => Some(WordTest {
            word,
            mask,
            number: operand(other, insn, held),
        }),
        _ => None,
    }
}

// A holds a word of the record.
fn load(call: &Record, offset: u32) -> Option<Held> {
    let word = offset as usize / 4;
    if word >= 16 {
        return None;
    }
    Some(Held {
        a: call.word(word),
        x: 0,
        of: Some((word, u32::MAX)),
    })
}

// A holds what is computed of it. Bits under a mask stay bits of the word.
fn computed(f: Arithmetic, by: u32, held: &Held) -> Held {
    let of = match (f, held.of) {
        (Arithmetic::And, Some((word, mask))) => Some((word, mask & by)),
        _ => None,
    };
    Held {
        a: f.compute(held.a, by),
        x: held.x,
        of,
    }
}

// What the registers hold after an instruction that is no jump. None where it ends the run, or is not followed.
fn after(insn: &Insn, call: &Record, held: &Held) -> Option<Held> {
    match insn.operation()? {
        Operation::LoadWord => {
            let loaded = load(call, insn.k)?;
            Some(Held {
                a: loaded.a,
                x: held.x,
                of: loaded.of,
            })
        }
        Operation::SetX => Some(Held {
            a: held.a,
            x: insn.k,
            of: held.of,
        }),
        Operation::CopyToX => Some(Held {
            a: held.a,
            x: held.a,
            of: held.of,
        }),
        Operation::Compute(f, other) => Some(computed(f, operand(other, insn, held), held)),
        _ => None,
    }
}

// How many instructions a jump skips.
fn skipped(insn: &Insn, held: &Held) -> Option<u32> {
    match insn.operation()? {
        Operation::Jump => Some(insn.k),
        Operation::Branch(test, other) => {
            let holds = test.holds(held.a, operand(other, insn, held));
            Some(u32::from(if holds { insn.jt } else { insn.jf }))
        }
        _ => None,
    }
}

// What the registers hold after an instruction, and how many instructions are skipped.
fn step(insn: &Insn, call: &Record, held: &Held) -> Option<(Held, u32)> {
    match skipped(insn, held) {
        Some(skip) => Some((*held, skip)),
        None => {
            let next = after(insn, call, held)?;
            Some((next, 0))
        }
    }
}

// The position behind so many that are skipped.
fn behind(pc: u16, skip: u32) -> Option<u16> {
    let next = u32::from(pc).saturating_add(skip).saturating_add(1);
    u16::try_from(next).ok()
}

// Adds the comparison, if there is one of an argument, and room.
fn add(word_test: Option<WordTest>, out: &mut Vec<WordTest>) -> Result<(), AllocError> {
    if let Some(word_test) = word_test {
        if word_test.word >= FIRST_ARGUMENT && out.len() < MOST_TESTS {
            out.push(word_test)?;
        }
    }
    Ok(())
}

// One instruction: what comes of it, with the position behind it.
fn follow(
    filter: &Accepted<'_>,
    call: &Record,
    at: (u16, Held),
    out: &mut Vec<WordTest>,
) -> Result<Option<(u16, Held)>, AllocError> {
    let (pc, held) = at;
    let Some(insn) = filter.insn_at(pc) else {
        return Ok(None);
    };
    add(word_test_of(&insn, &held), out)?;
    let Some((next, skip)) = step(&insn, call, &held) else {
        return Ok(None);
    };
    let Some(pc) = behind(pc, skip) else {
        return Ok(None);
    };
    Ok(Some((pc, next)))
}

/// Adds the comparisons that a filter makes of a call record's arguments, up to so many. A filter that keeps words in its scratch memory is
/// not followed on.
pub(crate) fn add_word_tests(
    filter: &Accepted<'_>,
    call: &Record,
    out: &mut Vec<WordTest>,
) -> Result<(), AllocError> {
    let mut at = (
        0,
        Held {
            a: 0,
            x: 0,
            of: None,
        },
    );
    for _ in 0..MAX_INSNS {
        match follow(filter, call, at, out)? {
            Some(next) => at = next,
            None => return Ok(()),
        }
    }
    Ok(())
}
