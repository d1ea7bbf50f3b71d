//! The maker of the certificate.

use crate::asked::{AskedCall, Left};
use crate::fault::OutlineError;
use crate::numbers::Rooms;
use crate::parts::{Cut, NOBODY, Table};
use crate::rules::Rules;
use crate::spot::{Spot, Which};
use crate::words::Words;
use bpf_insn::{Arithmetic, Insn, Operand, Operation, Program, Test};
use cert_form::{Kind, MAX_NODES};
use cert_state::{AVal, Listed, Lit, Regs, sharp_fact};
use profile::Profile;
use std::alloc::{AllocError, Global};

/// What is known of the profile and its filter, and of the certificate so far.
#[derive(Drop)]
pub(crate) struct Maker<'a> {
    pub(crate) alloc: Global,
    pub(crate) profile: &'a Profile,
    pub(crate) program: Program<'a>,
    pub(crate) rules: Rules,
    pub(crate) calls: &'a [AskedCall],
    /// Whether calls that are asked alike are told apart before their arguments are asked for, and not at the returns.
    pub(crate) is_early: bool,
    pub(crate) words: Table<Words>,
    pub(crate) left: Table<Left>,
    pub(crate) spots: Table<Spot>,
}

/// The position that a jump leads to.
pub(crate) fn after(pc: usize, skipped: u32) -> usize {
    pc.saturating_add(1).saturating_add(skipped as usize)
}

// Whether a comparison of what A holds tells all that it asks: by order only of a whole word, as far as the registers tell.
fn tells(test: Test, a: AVal) -> bool {
    match (test, a) {
        (Test::Equal | Test::AnyBit, AVal::Masked(_, _)) => true,
        (Test::AtLeast | Test::Greater, AVal::Masked(_, mask)) => mask == u32::MAX,
        (_, AVal::Unknown | AVal::Const(_)) => false,
    }
}

/// What is known of the registers, where A holds this. As a filter begins, X holds 0.
pub(crate) fn regs_of(is_first: bool, a: AVal) -> Regs {
    Regs {
        a,
        x: if is_first {
            AVal::Const(0)
        } else {
            AVal::Unknown
        },
        scratch: [AVal::Unknown; 16],
    }
}

impl<'a> Maker<'a> {
    pub(crate) fn new(
        alloc: Global,
        profile: &'a Profile,
        program: Program<'a>,
        calls: &'a [AskedCall],
        is_early: bool,
    ) -> Result<Maker<'a>, AllocError> {
        Ok(Maker {
            alloc,
            profile,
            program,
            rules: Rules::of(alloc, profile)?,
            calls,
            is_early,
            words: Table::new(alloc),
            left: Table::new(alloc),
            spots: Table::new(alloc),
        })
    }

    // Where the filter begins nothing is known but that A holds 0.
    fn begin(&mut self) -> Result<(), OutlineError> {
        let none = self.words.place(Words::none(self.alloc))?;
        let left = self.left.place(Left::nothing(self.alloc))?;
        self.spots.place(Spot {
            pc: 0,
            a: AVal::Const(0),
            which: Which::Several,
            numbers: none,
            arguments: none,
            left,
        })?;
        Ok(())
    }

    /// What an instruction is, and what it does.
    pub(crate) fn operation(&self, pc: usize) -> Option<(Insn, Operation)> {
        if pc < self.program.len() {
            let insn = self.program.get(pc);
            return Some((insn, insn.operation()?));
        }
        None
    }

    /// Whether a return stands at a position.
    pub(crate) fn is_at_return(&self, pc: usize) -> bool {
        matches!(self.operation(pc), Some((_, Operation::ReturnK)))
    }

    /// Whether jumps lead from a position to a return or a load, where it does not matter what A holds.
    pub(crate) fn is_new_start(&self, pc: usize) -> bool {
        let mut pc = pc;
        for _ in 0..self.program.len() {
            match self.operation(pc) {
                Some((insn, Operation::Jump)) => pc = after(pc, insn.k),
                Some((_, Operation::ReturnK | Operation::LoadWord)) => return true,
                _ => return false,
            }
        }
        false
    }

    // The place of the spot at a position, where A holds this and a literal is known too.
    fn place(
        &mut self,
        spot: &Spot,
        pc: usize,
        a: AVal,
        learned: Option<Lit>,
    ) -> Result<u32, OutlineError> {
        let mut next = *spot;
        next.pc = pc;
        next.a = if self.is_new_start(pc) {
            AVal::Unknown
        } else {
            a
        };
        if let Some(literal) = learned {
            let is_told = !self.is_of_part(spot, literal);
            self.learn(&mut next, literal, is_told)?;
        }
        let place = self.spots.place(next)?;
        if place < MAX_NODES {
            return Ok(place as u32);
        }
        Err(OutlineError::TooLarge)
    }

    // On to one position.
    fn step(&mut self, spot: &Spot, pc: usize, a: AVal) -> Result<Kind, OutlineError> {
        Ok(Kind::Step(self.place(spot, pc, a, None)?, NOBODY))
    }

    // The ways behind a cut.
    fn split(&mut self, spot: &Spot, cut: Cut) -> Result<Kind, OutlineError> {
        let (one, other) = cut;
        let first = self.place(spot, spot.pc, spot.a, Some(one))?;
        let second = self.place(spot, spot.pc, spot.a, Some(other))?;
        Ok(Kind::Split(one, other, first, second))
    }

    /// What is told by a comparison of what a spot knows A to hold, where it holds and where it fails. Of a part of the number it
    /// is told of the whole number.
    pub(crate) fn told(&self, spot: &Spot) -> (Option<Lit>, Option<Lit>) {
        let Some((insn, Operation::Branch(_, _))) = self.operation(spot.pc) else {
            return (None, None);
        };
        let part = self.part_of_number(spot);
        let state = Listed {
            regs: regs_of(false, spot.a),
            lits: &[],
            more: part.and_then(|part| part.known()),
        };
        let holds = sharp_fact(&state, &insn, true);
        let fails = sharp_fact(&state, &insn, false);
        match part {
            Some(part) => (
                holds.map(|literal| part.whole(literal)),
                fails.map(|literal| part.whole(literal)),
            ),
            None => (holds, fails),
        }
    }

    // Both ways of a comparison.
    fn compared(&mut self, spot: &Spot, insn: &Insn, test: Test) -> Result<Kind, OutlineError> {
        if let Some(cut) = self.cut_of_part(spot) {
            return self.split(spot, cut);
        }
        if let Some(cut) = self.cut_of_machine(spot) {
            return self.split(spot, cut);
        }
        if !tells(test, spot.a) && self.part_of_number(spot).is_none() {
            return Err(OutlineError::Unlike);
        }
        let (holds, fails) = self.told(spot);
        let yes = after(spot.pc, u32::from(insn.jt));
        let no = after(spot.pc, u32::from(insn.jf));
        let first = self.place(spot, yes, spot.a, holds)?;
        let second = self.place(spot, no, spot.a, fails)?;
        Ok(Kind::Step(first, second))
    }

    // What a spot does at its instruction.
    fn carried_out(&mut self, spot: &Spot, rooms: &mut Rooms) -> Result<Kind, OutlineError> {
        let Some((insn, operation)) = self.operation(spot.pc) else {
            return Err(OutlineError::Unlike);
        };
        match (operation, spot.a) {
            (Operation::ReturnK, _) => match self.cut_at_return(spot, insn.k, rooms)? {
                Some(cut) => self.split(spot, cut),
                None => Ok(Kind::Return),
            },
            (Operation::LoadWord, _) => match self.cut_at_load(spot, insn.k, rooms)? {
                Some(cut) => self.split(spot, cut),
                None => {
                    let a = AVal::Masked((insn.k / 4 % 16) as u8, u32::MAX);
                    self.step(spot, after(spot.pc, 0), a)
                }
            },
            (Operation::Jump, a) => self.step(spot, after(spot.pc, insn.k), a),
            (Operation::Compute(Arithmetic::And, Operand::K), AVal::Masked(word, mask)) => {
                let a = AVal::Masked(word, mask & insn.k);
                self.step(spot, after(spot.pc, 0), a)
            }
            (Operation::Branch(test, Operand::K), _) => self.compared(spot, &insn, test),
            _ => Err(OutlineError::Unlike),
        }
    }

    /// What the node of a spot does.
    pub(crate) fn kind_of(&mut self, spot: &Spot, rooms: &mut Rooms) -> Result<Kind, OutlineError> {
        if self.is_dead(spot.numbers) || self.is_dead(spot.arguments) {
            return Ok(Kind::Dead);
        }
        self.carried_out(spot, rooms)
    }

    /// The spot at a place, and what it does.
    pub(crate) fn spot_at(&self, kinds: &[Kind], place: u32) -> Result<(Spot, Kind), OutlineError> {
        match (self.spots.get(place as usize), kinds.get(place as usize)) {
            (Some(spot), Some(kind)) => Ok((*spot, *kind)),
            _ => Err(OutlineError::Unlike),
        }
    }

    /// What each spot does, one after the other from where the filter begins.
    pub(crate) fn all_kinds(&mut self) -> Result<Vec<Kind>, OutlineError> {
        self.begin()?;
        let mut kinds = Vec::new(self.alloc);
        let mut rooms = Rooms::new();
        for place in 0..MAX_NODES {
            let Some(spot) = self.spots.get(place).copied() else {
                break;
            };
            kinds.push(self.kind_of(&spot, &mut rooms)?)?;
        }
        Ok(kinds)
    }
}
