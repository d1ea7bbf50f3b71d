//! What a filter compares and may answer of calls of which the machine or the number is known.
use crate::word_test::WordTest;
use crate::work::{Stopped, Work};
use bpf_insn::{Insn, Operand, Operation, Test};
use cert_state::{AVal, Listed, Regs, transfer};
use kernel_check::Accepted;
use std::alloc::{AllocError, Global};

/// What is known of a call before the filter runs.
#[derive(Clone, Copy)]
pub(crate) struct Known {
    pub(crate) token: Option<u32>,
    pub(crate) number: Option<u32>,
}

/// The comparisons that may be met, each once, and the verdicts that may be answered. It is whole unless something was met of which
/// nothing is known.
#[derive(Drop)]
pub(crate) struct Survey {
    pub(crate) word_tests: Vec<WordTest>,
    pub(crate) answers: Vec<u32>,
    pub(crate) is_whole: bool,
}

impl Survey {
    /// The one verdict that is answered, if there is only one.
    pub(crate) fn only(&self) -> Option<u32> {
        match self.answers.as_slice() {
            [word] if self.is_whole => Some(*word),
            _ => None,
        }
    }
}

// How many states of the registers are told apart at one position.
const MOST_STATES: usize = 64;

/// What the registers hold before the first instruction.
pub(crate) const AT_START: Regs = Regs {
    a: AVal::Const(0),
    x: AVal::Const(0),
    scratch: [AVal::Unknown; 16],
};

// Where the run may stand: at each position, what the registers may hold there.
#[derive(Drop)]
struct Walk {
    waiting: Vec<Vec<Regs>>,
    found: Survey,
}

impl Walk {
    fn go(&mut self, work: &mut Work, pc: usize, regs: Regs) -> Result<(), Stopped> {
        let Some(states) = self.waiting.get_mut(pc) else {
            return Ok(());
        };
        work.spend(states.len().saturating_add(1))?;
        if states.iter().any(|other| *other == regs) {
            return Ok(());
        }
        if states.len() >= MOST_STATES {
            self.found.is_whole = false;
            return Ok(());
        }
        states.push(regs)?;
        Ok(())
    }

    fn answer(&mut self, word: u32) -> Result<(), AllocError> {
        if self.found.answers.iter().any(|other| *other == word) {
            return Ok(());
        }
        self.found.answers.push(word)?;
        Ok(())
    }

    fn ask(&mut self, work: &mut Work, word_test: WordTest) -> Result<(), Stopped> {
        work.spend(self.found.word_tests.len())?;
        if self
            .found
            .word_tests
            .iter()
            .any(|other| *other == word_test)
        {
            return Ok(());
        }
        self.found.word_tests.push(word_test)?;
        Ok(())
    }
}

// What a value is where the machine or the number is known.
fn known_of(known: Known, value: AVal) -> AVal {
    let (word, mask) = match value {
        AVal::Masked(word, mask) => (word, mask),
        AVal::Const(_) | AVal::Unknown => return value,
    };
    let told = match word {
        0 => known.number,
        1 => known.token,
        _ => None,
    };
    match told {
        Some(number) => AVal::Const(number & mask),
        None => value,
    }
}

/// The position behind so many instructions after one.
pub(crate) fn behind(pc: usize, skip: u32) -> usize {
    pc.saturating_add(1).saturating_add(skip as usize)
}

// Goes on at a comparison.
fn at_branch(
    work: &mut Work,
    walk: &mut Walk,
    pc: usize,
    insn: &Insn,
    regs: Regs,
    (test, a, operand): (Test, AVal, AVal),
) -> Result<(), Stopped> {
    let taken = behind(pc, u32::from(insn.jt));
    let other = behind(pc, u32::from(insn.jf));
    match (a, operand) {
        (AVal::Const(a), AVal::Const(c)) => {
            let next = if test.holds(a, c) { taken } else { other };
            return walk.go(work, next, regs);
        }
        (AVal::Masked(word, mask), AVal::Const(number)) => {
            let word_test = WordTest {
                word,
                mask,
                test,
                number,
            };
            walk.ask(work, word_test)?;
        }
        _ => walk.found.is_whole = false,
    }
    walk.go(work, taken, regs)?;
    walk.go(work, other, regs)
}

// Goes on at an instruction.
fn at_insn(
    work: &mut Work,
    walk: &mut Walk,
    known: Known,
    pc: usize,
    insn: &Insn,
    regs: Regs,
    next: Regs,
) -> Result<(), Stopped> {
    match insn.operation() {
        Some(Operation::ReturnK) => Ok(walk.answer(insn.k)?),
        Some(Operation::ReturnA) => match known_of(known, regs.a) {
            AVal::Const(word) => Ok(walk.answer(word)?),
            _ => {
                walk.found.is_whole = false;
                Ok(())
            }
        },
        Some(Operation::Jump) => walk.go(work, behind(pc, insn.k), regs),
        Some(Operation::Branch(test, operand)) => {
            let other = match operand {
                Operand::K => AVal::Const(insn.k),
                Operand::X => known_of(known, regs.x),
            };
            let compared = (test, known_of(known, regs.a), other);
            at_branch(work, walk, pc, insn, regs, compared)
        }
        _ => walk.go(work, behind(pc, 0), next),
    }
}

// Goes on from one state of the registers at a position.
fn at_state(
    work: &mut Work,
    walk: &mut Walk,
    program: &Accepted<'_>,
    known: Known,
    pc: usize,
    regs: Regs,
) -> Result<(), Stopped> {
    let Ok(at) = u16::try_from(pc) else {
        return Ok(());
    };
    let Some(insn) = program.insn_at(at) else {
        return Ok(());
    };
    let state = Listed {
        regs,
        lits: &[],
        more: None,
    };
    let next = transfer(&state, &insn);
    at_insn(work, walk, known, pc, &insn, regs, next)
}

// How many states of the registers there are at a position.
fn states_at(walk: &Walk, pc: usize) -> usize {
    match walk.waiting.get(pc) {
        Some(states) => states.len(),
        None => 0,
    }
}

// The state of the registers at this place among those of a position.
fn state_at(walk: &Walk, pc: usize, at: usize) -> Option<Regs> {
    walk.waiting.get(pc)?.get(at).copied()
}

fn begun(alloc: Global, length: usize) -> Result<Walk, AllocError> {
    let mut waiting = Vec::new(alloc);
    for _ in 0..length {
        waiting.push(Vec::new(alloc))?;
    }
    let found = Survey {
        word_tests: Vec::new(alloc),
        answers: Vec::new(alloc),
        is_whole: true,
    };
    Ok(Walk { waiting, found })
}

/// What the filter compares and may answer of calls of which this is known.
pub(crate) fn survey_of(
    alloc: Global,
    work: &mut Work,
    program: &Accepted<'_>,
    known: Known,
) -> Result<Survey, Stopped> {
    let length = program.program().len();
    let mut walk = begun(alloc, length)?;
    walk.go(work, 0, AT_START)?;
    for pc in 0..length {
        for at in 0..states_at(&walk, pc) {
            if let Some(regs) = state_at(&walk, pc, at) {
                at_state(work, &mut walk, program, known, pc, regs)?;
            }
        }
    }
    Ok(walk.found)
}
