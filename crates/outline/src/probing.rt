//! Between which positions a filter asks for rules.

use crate::asked::{Left, LeftRule};
use crate::conditions::{Answer, by_all};
use crate::fault::OutlineError;
use crate::maker::Maker;
use crate::numbers::{NUMBER, Rooms, TOKEN};
use crate::parts::{Table, listed};
use crate::passes::{Call, Way};
use crate::spot::{Spot, Which};
use crate::words::Words;
use cert_form::Kind;
use cert_state::{AVal, Lit};
use std::alloc::{AllocError, Global};

/// The way of a call, by its place among those of which rules ask for arguments, from one position to another.
#[derive(Clone, Copy)]
pub(crate) struct Section<'w> {
    pub(crate) way: &'w Way,
    pub(crate) call: usize,
    pub(crate) from: usize,
    pub(crate) to: usize,
}

impl<'w> Section<'w> {
    /// From a position to the end of the filter.
    pub(crate) fn beginning_at(way: &'w Way, call: usize, from: usize) -> Section<'w> {
        Section {
            way,
            call,
            from,
            to: usize::MAX,
        }
    }

    /// From the same position to another one.
    pub(crate) fn up_to(self, to: usize) -> Section<'w> {
        Section {
            way: self.way,
            call: self.call,
            from: self.from,
            to,
        }
    }
}

/// Room for what is known, and how many spots may still be looked at.
#[derive(Drop)]
pub(crate) struct Pace {
    rooms: Rooms,
    left: usize,
}

// How many spots are looked at of all sections, and of one.
const MOST_SPOTS: usize = 0x2_0000;

const MOST_OF_ONE: usize = 0x1000;

impl Pace {
    /// All of it.
    pub(crate) fn new() -> Pace {
        Pace {
            rooms: Rooms::new(),
            left: MOST_SPOTS,
        }
    }

    // Whether one more spot may be looked at.
    fn has_one(&mut self) -> bool {
        let has_one = self.left > 0;
        self.left = self.left.saturating_sub(1);
        has_one
    }
}

// What is known of a call.
fn words_of(alloc: Global, call: Call) -> Result<Words, AllocError> {
    let (token, number) = call;
    let nothing = Words::none(alloc);
    let of_machine = nothing.with(alloc, Lit::Bits(TOKEN, u32::MAX, token))?;
    of_machine.with(alloc, Lit::Bits(NUMBER, u32::MAX, number))
}

// These rules are left.
fn left_of(alloc: Global, rules: &[u32]) -> Result<Left, AllocError> {
    let mut left = Left::nothing(alloc);
    for rule in rules {
        left.rules.push(LeftRule {
            rule: *rule,
            met: 0,
            low: 0,
        })?;
    }
    Ok(left)
}

// Whether a walk found what was looked for. That a filter is another one than the maker knows, or that there is no room, is a no.
fn if_found(walked: Result<bool, OutlineError>) -> Result<bool, OutlineError> {
    match walked {
        Ok(found) => Ok(found),
        Err(OutlineError::OutOfMemory) => Err(OutlineError::OutOfMemory),
        Err(_) => Ok(false),
    }
}

impl<'a> Maker<'a> {
    // Begins with one spot, where a section does: these rules are left, and of arguments nothing is known.
    fn begin_section(&mut self, section: Section<'_>, rules: &[u32]) -> Result<(), OutlineError> {
        self.spots = Table::new(self.alloc);
        let pc = section.from;
        let a = if self.is_new_start(pc) {
            AVal::Unknown
        } else {
            section.way.held_at(pc)
        };
        let numbers = words_of(self.alloc, section.way.call)?;
        let left = left_of(self.alloc, rules)?;
        let mut spot = Spot {
            pc,
            a,
            which: Which::Asked(section.call),
            numbers: self.words.place(numbers)?,
            arguments: self.words.place(Words::none(self.alloc))?,
            left: self.left.place(left)?,
        };
        self.settle(&mut spot, NUMBER, None)?;
        self.spots.place(spot)?;
        Ok(())
    }

    // Whether no rule is left at a spot, and whether one holds.
    fn settled_at(&self, spot: &Spot) -> (bool, bool) {
        match self.left.get(spot.left) {
            Some(left) => (left.rules.is_empty(), left.holds),
            None => (true, false),
        }
    }

    // Whether the rules of a section are settled at a spot where it ends. They are if none is left. At another verdict than the default one
    // of them has to hold instead, if all of them are asked for.
    fn is_as_asked(&self, section: Section<'_>, spot: &Spot, are_all: bool) -> bool {
        let (is_empty, holds) = self.settled_at(spot);
        if spot.pc == section.to || self.returns_default(spot.pc) {
            return is_empty;
        }
        !are_all || holds
    }

    // Whether a spot has to be looked at: not where no record comes, nor for the sake of one rule that is out.
    fn goes_on(&self, section: Section<'_>, spot: &Spot, are_all: bool) -> bool {
        if self.is_dead(spot.arguments) || self.is_dead(spot.numbers) {
            return false;
        }
        are_all || !self.settled_at(spot).0
    }

    // Whether rules are settled wherever a section ends.
    fn walk(
        &mut self,
        section: Section<'_>,
        rules: &[u32],
        are_all: bool,
        pace: &mut Pace,
    ) -> Result<bool, OutlineError> {
        self.begin_section(section, rules)?;
        for place in 0..MOST_OF_ONE {
            let Some(spot) = self.spots.get(place).copied() else {
                return Ok(true);
            };
            if !pace.has_one() {
                return Ok(false);
            }
            if !self.goes_on(section, &spot, are_all) {
                continue;
            }
            if spot.pc != section.to {
                let kind = self.kind_of(&spot, &mut pace.rooms)?;
                if kind != Kind::Return {
                    continue;
                }
            }
            if !self.is_as_asked(section, &spot, are_all) {
                return Ok(false);
            }
        }
        Ok(false)
    }

    // Whether A holds bits of each argument of which a rule asks somewhere in a section.
    fn are_held(&self, section: Section<'_>, rule: u32) -> bool {
        let Some(rule) = self.rule(rule) else {
            return false;
        };
        let nothing = Words::none(self.alloc);
        let whole = listed(&nothing.whole);
        for cond in rule.conds.iter() {
            let answer = by_all(&nothing.told(&whole), rule.is_narrow(), cond);
            let is_open = answer == Answer::Open || answer == Answer::Low;
            if is_open && !section.way.holds(cond.index, section.from, section.to) {
                return false;
            }
        }
        true
    }

    // Whether a rule is out wherever a section ends with no rule that holds.
    fn is_asked(
        &mut self,
        section: Section<'_>,
        rule: u32,
        pace: &mut Pace,
    ) -> Result<bool, OutlineError> {
        if !self.are_held(section, rule) {
            return Ok(false);
        }
        if_found(self.walk(section, &[rule], false, pace))
    }

    /// Those of some rules for which the filter asks in a section; none, if it does not settle all calls by these.
    pub(crate) fn asked_in(
        &mut self,
        section: Section<'_>,
        rules: &[u32],
        pace: &mut Pace,
    ) -> Result<Vec<u32>, OutlineError> {
        let mut asked = Vec::new(self.alloc);
        for rule in rules {
            if self.is_asked(section, *rule, pace)? {
                asked.push(*rule)?;
            }
        }
        if !if_found(self.walk(section, &asked, true, pace))? {
            asked.clear();
        }
        Ok(asked)
    }
}
