//! The positions that each run of a call passes on which no rule holds.
//!
//! A filter asks for some rules of a call, goes on where none of them holds, and asks for the next ones. All runs on which none
//! holds meet where it goes on.

use crate::maker::{Maker, after};
use bpf_insn::{Arithmetic, Insn, Operand, Operation};
use cert_state::AVal;
use std::alloc::AllocError;

/// The token of a call's machine, and its number.
pub(crate) type Call = (u32, u32);

// Where a run goes on, and what A holds there.
type Onward = Option<(usize, AVal)>;

/// The way of a call through the filter.
#[derive(Drop)]
pub(crate) struct Way {
    pub(crate) call: Call,
    // What A holds at each position to which the call comes.
    held: Vec<Option<AVal>>,
    /// The positions that each run passes on which no rule holds, and to which a comparison leads, from the first load of an argument
    /// on.
    pub(crate) passes: Vec<usize>,
}

// Where the words of a record begin that hold arguments, in bytes.
const ARGUMENTS: u32 = 16;

// The number that A holds, if it holds bits of the number or of the machine's token.
fn held_by(call: Call, a: AVal) -> Option<u32> {
    let (token, number) = call;
    match a {
        AVal::Masked(0, mask) => Some(number & mask),
        AVal::Masked(1, mask) => Some(token & mask),
        AVal::Const(known) => Some(known),
        _ => None,
    }
}

// What A holds where two ways meet.
fn met(before: Option<AVal>, a: AVal) -> AVal {
    match before {
        Some(other) if other != a => AVal::Unknown,
        _ => a,
    }
}

// Comes to a position.
fn come(held: &mut [Option<AVal>], onward: Onward) {
    if let Some((pc, a)) = onward
        && let Some(own) = held.get_mut(pc)
    {
        *own = Some(met(*own, a));
    }
}

fn value_at(held: &[Option<AVal>], pc: usize) -> Option<AVal> {
    match held.get(pc) {
        Some(value) => *value,
        None => None,
    }
}

fn is_set(flags: &[bool], place: usize) -> bool {
    match flags.get(place) {
        Some(flag) => *flag,
        None => false,
    }
}

fn set_if(flags: &mut [bool], place: usize, flag: bool) {
    if let Some(own) = flags.get_mut(place) {
        *own |= flag;
    }
}

impl<'a> Maker<'a> {
    // Where a call goes on behind a comparison: one way where the number or the machine decides.
    fn onward_by(&self, call: Call, pc: usize, insn: &Insn, a: AVal) -> [Onward; 2] {
        let holds = Some((after(pc, u32::from(insn.jt)), a));
        let fails = Some((after(pc, u32::from(insn.jf)), a));
        match (insn.operation(), held_by(call, a)) {
            (Some(Operation::Branch(test, Operand::K)), Some(number)) => {
                if test.holds(number, insn.k) {
                    [holds, None]
                } else {
                    [fails, None]
                }
            }
            _ => [holds, fails],
        }
    }

    // Where a call goes on from a position, where A holds this.
    fn onward(&self, call: Call, pc: usize, a: AVal) -> [Onward; 2] {
        let Some((insn, operation)) = self.operation(pc) else {
            return [None, None];
        };
        match (operation, a) {
            (Operation::ReturnK, _) => [None, None],
            (Operation::Jump, _) => [Some((after(pc, insn.k), a)), None],
            (Operation::Branch(_, _), _) => self.onward_by(call, pc, &insn, a),
            (Operation::LoadWord, _) => {
                let a = AVal::Masked((insn.k / 4 % 16) as u8, u32::MAX);
                [Some((after(pc, 0), a)), None]
            }
            (Operation::Compute(Arithmetic::And, Operand::K), AVal::Masked(word, mask)) => {
                let a = AVal::Masked(word, mask & insn.k);
                [Some((after(pc, 0), a)), None]
            }
            _ => [Some((after(pc, 0), AVal::Unknown)), None],
        }
    }

    // Where a call goes on from a position, if it comes to it.
    fn onward_from(&self, call: Call, held: &[Option<AVal>], pc: usize) -> [Onward; 2] {
        match value_at(held, pc) {
            Some(a) => self.onward(call, pc, a),
            None => [None, None],
        }
    }

    // What A holds at each position to which a call comes.
    fn held(&self, call: Call) -> Result<Vec<Option<AVal>>, AllocError> {
        let mut held: Vec<Option<AVal>> = vec![in self.alloc; None; self.program.len()]?;
        come(&mut held, Some((0, AVal::Const(0))));
        for pc in 0..self.program.len() {
            for onward in self.onward_from(call, &held, pc) {
                come(&mut held, onward);
            }
        }
        Ok(held)
    }

    /// Whether the default verdict is returned at a position.
    pub(crate) fn returns_default(&self, pc: usize) -> bool {
        match self.operation(pc) {
            Some((insn, Operation::ReturnK)) => insn.k == self.profile.default_word().0,
            _ => false,
        }
    }

    // For each position, whether a call comes there and may come from there to a return of the default verdict.
    fn leading(&self, call: Call, held: &[Option<AVal>]) -> Result<Vec<bool>, AllocError> {
        let mut leading = vec![in self.alloc; false; held.len()]?;
        let mut pc = held.len();
        for _ in 0..held.len() {
            pc = pc.saturating_sub(1);
            let comes = value_at(held, pc).is_some();
            set_if(&mut leading, pc, comes && self.returns_default(pc));
            for onward in self.onward_from(call, held, pc) {
                if let Some((next, _)) = onward {
                    let leads = is_set(&leading, next);
                    set_if(&mut leading, pc, leads);
                }
            }
        }
        Ok(leading)
    }

    // The farthest position to which a call goes on from one, of those that lead on; behind all where the default is returned.
    fn farthest(&self, call: Call, held: &[Option<AVal>], leading: &[bool], pc: usize) -> usize {
        if self.returns_default(pc) {
            return usize::MAX;
        }
        let mut farthest = 0;
        for onward in self.onward_from(call, held, pc) {
            if let Some((next, _)) = onward
                && is_set(leading, next)
            {
                farthest = farthest.max(next);
            }
        }
        farthest
    }

    // For each position, whether a comparison that leads on leads there.
    fn behind_comparisons(
        &self,
        call: Call,
        held: &[Option<AVal>],
        leading: &[bool],
    ) -> Result<Vec<bool>, AllocError> {
        let mut compared = vec![in self.alloc; false; held.len()]?;
        for pc in 0..held.len() {
            let is_branch = matches!(self.operation(pc), Some((_, Operation::Branch(_, _))));
            let leads = is_set(leading, pc) && is_branch;
            for onward in self.onward_from(call, held, pc) {
                if let Some((next, _)) = onward {
                    set_if(&mut compared, next, leads);
                }
            }
        }
        Ok(compared)
    }

    // Whether a word of an argument is loaded at a position.
    fn loads_argument(&self, pc: usize) -> bool {
        match self.operation(pc) {
            Some((insn, Operation::LoadWord)) => insn.k >= ARGUMENTS,
            _ => false,
        }
    }

    /// The way of a call.
    pub(crate) fn way_of(&self, call: Call) -> Result<Way, AllocError> {
        let held = self.held(call)?;
        let leading = self.leading(call, &held)?;
        let compared = self.behind_comparisons(call, &held, &leading)?;
        let mut passes = Vec::new(self.alloc);
        let mut farthest = 0;
        for pc in 0..leading.len() {
            if is_set(&leading, pc) {
                let is_asked = if passes.is_empty() {
                    self.loads_argument(pc)
                } else {
                    is_set(&compared, pc)
                };
                if farthest <= pc && is_asked {
                    passes.push(pc)?;
                }
                farthest = farthest.max(self.farthest(call, &held, &leading, pc));
            }
        }
        Ok(Way { call, held, passes })
    }
}

impl Way {
    /// What A holds at a position.
    pub(crate) fn held_at(&self, pc: usize) -> AVal {
        match value_at(&self.held, pc) {
            Some(a) => a,
            None => AVal::Unknown,
        }
    }

    /// Whether A holds bits of an argument somewhere between two positions.
    pub(crate) fn holds(&self, argument: u8, from: usize, to: usize) -> bool {
        for pc in from..to.min(self.held.len()) {
            if let Some(AVal::Masked(word, _)) = value_at(&self.held, pc)
                && u32::from(word) / 2 == u32::from(argument) + 2
            {
                return true;
            }
        }
        false
    }
}
