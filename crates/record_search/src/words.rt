//! Records as their words, such as meet conditions, and numbers of which they are made by chance.

use bpf_insn::{MAX_INSNS, Operation};
use call_record::{Record, halves};
use kernel_check::Accepted;
use machines::compared;
use profile::{Cond, Op, Rule};
use std::alloc::{AllocError, Global};

/// The words of a record that hold the call's number and the machine's token, and the first of its arguments.
pub(crate) const NUMBER: u8 = 0;

pub(crate) const TOKEN: u8 = 1;

pub(crate) const ARGUMENTS: u8 = 4;

/// The words of a record.
pub(crate) type Words = [u32; 16];

/// The record of these words.
pub(crate) fn record_of(words: &Words) -> Record {
    let mut bytes = [0; 64];
    for i in 0..16 {
        bytes[4 * i..4 * i + 4].copy_from_slice(&words[i].to_le_bytes());
    }
    Record::from_bytes(&bytes)
}

/// Words with another number at one place.
pub(crate) fn with(words: &Words, word: u8, number: u32) -> Words {
    let mut other = *words;
    other[(word % 16) as usize] = number;
    other
}

/// An argument.
pub(crate) fn argument_of(words: &Words, index: u8) -> u64 {
    let word = (ARGUMENTS + 2 * (index % 6)) as usize;
    u64::from(words[word + 1]) << 32 | u64::from(words[word])
}

/// Words with another argument.
pub(crate) fn with_argument(words: &Words, index: u8, value: u64) -> Words {
    let word = ARGUMENTS + 2 * (index % 6);
    let (low, high) = halves(value);
    with(&with(words, word, low), word + 1, high)
}

/// Arguments of which some meet a condition: its value and those beside it, or one with its bits, or some of them flipped.
pub(crate) fn beside(cond: &Cond, argument: u64) -> [u64; 3] {
    let value = cond.value;
    if cond.op == Op::MaskedEq {
        let same = argument & !value | cond.datum;
        [same, same ^ value & value.wrapping_neg(), same ^ value]
    } else {
        [value, value.wrapping_sub(1), value.wrapping_add(1)]
    }
}

/// Numbers in the place of one that is compared with another, for which each test comes out in either way.
pub(crate) fn around(number: u32, other: u32) -> [u32; 6] {
    let lowest = other & other.wrapping_neg();
    let (above, below) = (other.wrapping_add(1), other.wrapping_sub(1));
    [
        other,
        above,
        below,
        number | other,
        number & !other,
        number ^ lowest,
    ]
}

/// Words that meet all conditions of a rule.
pub(crate) fn all_met(words: &Words, rule: &Rule) -> Words {
    let narrow = rule.is_narrow();
    let mut all = *words;
    for cond in rule.conds.as_slice() {
        for value in beside(cond, argument_of(words, cond.index)) {
            let value = compared(narrow, value);
            if cond.holds(value) {
                all = with_argument(&all, cond.index, value);
                break;
            }
        }
    }
    all
}

/// Numbers, each with a word, in order: those with which a filter compares it, and those that rules name.
pub(crate) fn pool_of(
    alloc: Global,
    rules: &[Rule],
    program: &Accepted<'_>,
) -> Result<Vec<(u8, u32)>, AllocError> {
    let mut numbers = Vec::new(alloc);
    let (mut pc, mut word) = (0u16, 0u8);
    for _ in 0..MAX_INSNS {
        let Some(insn) = program.insn_at(pc) else {
            break;
        };
        match insn.operation() {
            Some(Operation::LoadWord) => word = (insn.k / 4 % 16) as u8,
            Some(Operation::Branch(_, _)) => numbers.push((word, insn.k))?,
            _ => {}
        }
        pc = pc.saturating_add(1);
    }
    for rule in rules {
        add_rule(&mut numbers, rule)?;
    }
    numbers.sort_unstable();
    Ok(numbers)
}

fn add_rule(numbers: &mut Vec<(u8, u32)>, rule: &Rule) -> Result<(), AllocError> {
    numbers.push((NUMBER, rule.nr))?;
    for cond in rule.conds.as_slice() {
        let word = ARGUMENTS + 2 * (cond.index % 6);
        for value in [cond.value, cond.datum] {
            let (low, high) = halves(value);
            numbers.push((word, low))?;
            numbers.push((word + 1, high))?;
        }
    }
    Ok(())
}

// Where the numbers of a word begin.
fn first(numbers: &[(u8, u32)], word: u8) -> usize {
    match numbers.binary_search(&(word, 0)) {
        Ok(place) | Err(place) => place,
    }
}

/// A number of a word, or one beside it, if there is one.
pub(crate) fn drawn(numbers: &[(u8, u32)], word: u8, chance: u64) -> Option<u32> {
    let start = first(numbers, word);
    let count = first(numbers, word.saturating_add(1)).saturating_sub(start);
    let place = ((chance >> 8) as usize).checked_rem(count)?;
    let (_, number) = numbers.get(start.saturating_add(place))?;
    Some(match chance & 7 {
        0 => number.wrapping_add(1),
        1 => number.wrapping_sub(1),
        2 => 0,
        _ => *number,
    })
}
