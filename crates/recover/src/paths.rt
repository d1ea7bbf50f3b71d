//! The paths of a filter on one call, whatever its arguments.
use crate::cells::Cell;
use crate::leaves::{Called, Leaf};
use crate::survey::{AT_START, behind};
use crate::word_test::WordTest;
use crate::work::{Stopped, Work};
use bpf_insn::{Insn, Operand, Operation, Test};
use cert_state::{AVal, Listed, Regs, transfer};
use kernel_check::Accepted;
use std::alloc::{AllocError, Global};

/// The ways through the filter. They are all unless something was met of which nothing is known, or there are very many to one verdict.
#[derive(Drop)]
pub(crate) struct Paths {
    pub(crate) leaves: Vec<Leaf>,
    pub(crate) are_all: bool,
    pub(crate) are_unlike: bool,
}

// How many instructions are followed at most.
const MOST: usize = 1 << 19;

// How many ways of a call to unlike verdicts are looked at.
const MOST_WAYS: usize = 1 << 12;

// How many steps it takes to follow an instruction.
const STEPS: usize = 16;

// How many steps it takes to cut a word, and as many for each part of it.
const FORK: usize = 64;

// Where a path stands: what the registers hold, and of which numbers each word of the record is.
#[derive(Clone, Copy)]
struct Spot {
    pc: usize,
    regs: Regs,
    cells: [Cell; 16],
}

impl Spot {
    fn cell(&self, word: u8) -> Cell {
        self.cells.get(word as usize).copied().unwrap_or(Cell::ALL)
    }

    // The number that a value is, if it is known.
    fn number(&self, value: AVal) -> Option<u32> {
        match value {
            AVal::Const(number) => Some(number),
            AVal::Masked(word, mask) => {
                let number = self.cell(word).only()?;
                Some(number & mask)
            }
            AVal::Unknown => None,
        }
    }

    fn at(&self, pc: usize) -> Spot {
        Spot { pc, ..*self }
    }
}

// The paths that are left to be followed, and what was found.
#[derive(Drop)]
struct Walk {
    left: Vec<Spot>,
    found: Paths,
}

impl Walk {
    fn answer(&mut self, spot: &Spot, word: Option<u32>) -> Result<(), AllocError> {
        match word {
            Some(word) => {
                if let Some(first) = self.found.leaves.first()
                    && first.word != word
                {
                    self.found.are_unlike = true;
                }
                if self.found.leaves.len() <= MOST_WAYS {
                    self.found.leaves.push(Leaf {
                        cells: spot.cells,
                        word,
                    })?;
                }
            }
            None => self.found.are_all = false,
        }
        Ok(())
    }

    // Goes on with each of these cells for a word.
    fn go_in(&mut self, spot: Spot, word: u8, cells: &[Cell]) -> Result<(), AllocError> {
        for cell in cells {
            let mut next = spot;
            if let Some(own) = next.cells.get_mut(word as usize) {
                *own = *cell;
            }
            self.left.push(next)?;
        }
        Ok(())
    }
}

// Goes on on both sides of a comparison.
fn go_both(
    alloc: Global,
    work: &mut Work,
    walk: &mut Walk,
    (taken, other): (Spot, Spot),
    word_test: WordTest,
) -> Result<(), Stopped> {
    let cell = taken.cell(word_test.word);
    let mut cells = Vec::new(alloc);
    word_test.push_taken(&mut cells, cell)?;
    work.spend_each(cells.len().saturating_add(1), FORK)?;
    walk.go_in(taken, word_test.word, &cells)?;
    let mut cells = Vec::new(alloc);
    word_test.push_other(&mut cells, cell)?;
    work.spend_each(cells.len().saturating_add(1), FORK)?;
    walk.go_in(other, word_test.word, &cells)?;
    Ok(())
}

// Goes on at a comparison of A: on both sides, or on the one that is known. The result is whether the path goes on alone.
fn at_branch(
    alloc: Global,
    work: &mut Work,
    walk: &mut Walk,
    spot: &mut Spot,
    insn: &Insn,
    (test, operand): (Test, AVal),
) -> Result<bool, Stopped> {
    let taken = behind(spot.pc, u32::from(insn.jt));
    let other = behind(spot.pc, u32::from(insn.jf));
    let Some(number) = spot.number(operand) else {
        walk.found.are_all = false;
        return Ok(false);
    };
    if let Some(a) = spot.number(spot.regs.a) {
        spot.pc = if test.holds(a, number) { taken } else { other };
        return Ok(true);
    }
    let AVal::Masked(word, mask) = spot.regs.a else {
        walk.found.are_all = false;
        return Ok(false);
    };
    let word_test = WordTest {
        word,
        mask,
        test,
        number,
    };
    go_both(
        alloc,
        work,
        walk,
        (spot.at(taken), spot.at(other)),
        word_test,
    )?;
    Ok(false)
}

// Follows one instruction. The result is whether the path goes on alone.
fn follow(
    alloc: Global,
    work: &mut Work,
    walk: &mut Walk,
    spot: &mut Spot,
    insn: &Insn,
    next: Regs,
) -> Result<bool, Stopped> {
    match insn.operation() {
        Some(Operation::ReturnK) => {
            walk.answer(spot, Some(insn.k))?;
            Ok(false)
        }
        Some(Operation::ReturnA) => {
            let word = spot.number(spot.regs.a);
            walk.answer(spot, word)?;
            Ok(false)
        }
        Some(Operation::Jump) => {
            spot.pc = behind(spot.pc, insn.k);
            Ok(true)
        }
        Some(Operation::Branch(test, operand)) => {
            let operand = match operand {
                Operand::K => AVal::Const(insn.k),
                Operand::X => spot.regs.x,
            };
            at_branch(alloc, work, walk, spot, insn, (test, operand))
        }
        _ => {
            spot.pc = behind(spot.pc, 0);
            spot.regs = next;
            Ok(true)
        }
    }
}

// Follows the instruction at a spot. The result is whether the path goes on alone.
fn step(
    alloc: Global,
    work: &mut Work,
    walk: &mut Walk,
    program: &Accepted<'_>,
    spot: &mut Spot,
) -> Result<bool, Stopped> {
    work.spend(STEPS)?;
    let Ok(at) = u16::try_from(spot.pc) else {
        return Ok(false);
    };
    let Some(insn) = program.insn_at(at) else {
        return Ok(false);
    };
    let state = Listed {
        regs: spot.regs,
        lits: &[],
        more: None,
    };
    let next = transfer(&state, &insn);
    follow(alloc, work, walk, spot, &insn, next)
}

// Where a call begins.
fn first_spot(call: Called) -> Spot {
    let mut cells = [Cell::ALL; 16];
    cells[0] = Cell::one(call.number);
    cells[1] = Cell::one(call.token);
    Spot {
        pc: 0,
        regs: AT_START,
        cells,
    }
}

// No way, before any was followed.
fn begun(alloc: Global) -> Walk {
    let found = Paths {
        leaves: Vec::new(alloc),
        are_all: true,
        are_unlike: false,
    };
    Walk {
        left: Vec::new(alloc),
        found,
    }
}

/// The ways of a call through the filter, if they are not too many.
pub(crate) fn paths_of(
    alloc: Global,
    work: &mut Work,
    program: &Accepted<'_>,
    call: Called,
) -> Result<Paths, Stopped> {
    let mut walk = begun(alloc);
    let mut spot = first_spot(call);
    for _ in 0..MOST {
        if !step(alloc, work, &mut walk, program, &mut spot)? {
            match walk.left.pop() {
                Some(next) => spot = next,
                None => return Ok(walk.found),
            }
            if walk.found.are_unlike && walk.found.leaves.len() > MOST_WAYS {
                return Err(Stopped::Spent);
            }
        }
    }
    Err(Stopped::Spent)
}
