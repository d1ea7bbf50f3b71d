//! The run of a filter on a record, with the words of the record from which its numbers come.

use crate::words::Words;
use bpf_insn::{Operand, Operation};

/// A number of a run, with the word of the record from which it comes, if it does. Also whether anything was computed of it
/// since.
#[derive(Clone, Copy)]
pub(crate) struct Traced {
    pub(crate) number: u32,
    pub(crate) word: Option<u8>,
    pub(crate) is_computed: bool,
}

impl Traced {
    /// A number that comes from this word, or from none.
    pub(crate) fn of(number: u32, word: Option<u8>) -> Traced {
        Traced {
            number,
            word,
            is_computed: false,
        }
    }

    // Another number that comes from the same word.
    fn with(self, number: u32) -> Traced {
        Traced {
            number,
            is_computed: true,
            ..self
        }
    }
}

/// Where A and X stand, behind the scratch words.
pub(crate) const A: usize = 16;

const X: usize = 17;

/// Where a run stands.
#[derive(Clone, Copy)]
pub(crate) struct Run {
    pub(crate) pc: u16,
    pub(crate) registers: [Traced; 18],
}

impl Run {
    /// A run that begins.
    pub(crate) fn new() -> Run {
        Run {
            pc: 0,
            registers: [Traced::of(0, None); 18],
        }
    }

    /// The second operand.
    pub(crate) fn value(&self, operand: Operand, k: u32) -> Traced {
        match operand {
            Operand::K => Traced::of(k, None),
            Operand::X => self.registers[X],
        }
    }

    /// Skips so many instructions after this one.
    pub(crate) fn skip(&mut self, count: u32) {
        let count = u16::try_from(count).unwrap_or(u16::MAX);
        self.pc = self.pc.saturating_add(1).saturating_add(count);
    }

    /// Does what an instruction does that neither jumps nor returns.
    pub(crate) fn compute(&mut self, operation: Operation, k: u32, words: &Words) {
        let slot = (k % 16) as usize;
        let word = (k / 4 % 16) as u8;
        let (a, x) = (self.registers[A], self.registers[X]);
        let (place, value) = match operation {
            Operation::LoadWord => (A, Traced::of(words[word as usize], Some(word))),
            Operation::LoadScratch => (A, self.registers[slot]),
            Operation::LoadScratchX => (X, self.registers[slot]),
            Operation::Store => (slot, a),
            Operation::StoreX => (slot, x),
            Operation::SetA => (A, Traced::of(k, None)),
            Operation::SetX => (X, Traced::of(k, None)),
            Operation::Compute(f, operand) => {
                let other = self.value(operand, k);
                let of = if a.word.is_some() { a } else { other };
                (A, of.with(f.compute(a.number, other.number)))
            }
            Operation::ShiftLeft => (A, a.with(a.number.wrapping_shl(k))),
            Operation::ShiftRight => (A, a.with(a.number.wrapping_shr(k))),
            Operation::Negate => (A, a.with(0u32.wrapping_sub(a.number))),
            Operation::CopyToX => (X, a),
            _ => (A, x),
        };
        if let Some(register) = self.registers.get_mut(place) {
            *register = value;
        }
    }
}
