//! Which claims a list has, so that each is looked up at once.

use cert_form::Claim;
use cert_state::Lit;
use std::alloc::{AllocError, Global};

// More rules than a profile has.
const RULES: usize = 8192;

/// Claims: the literals among them, and for each rule that others are of, up to the last one, the bits of these.
#[derive(Drop)]
pub struct Marks {
    literals: Vec<Lit>,
    bits: Vec<u64>,
}

// The bits that stand for claims of one rule: that it is out, and that the condition at a place is met.
const OUT: u64 = 1 << 32;

fn bit_of_condition(place: u32) -> u64 {
    1 << (place % 32)
}

// How many rules there are up to that of a claim.
fn count_to(claim: Claim) -> usize {
    match claim {
        Claim::Knows(_) => 0,
        Claim::Out(rule) | Claim::Met(rule, _) => (rule as usize).min(RULES) + 1,
    }
}

impl Marks {
    /// Those of no claims.
    pub fn none(alloc: Global) -> Marks {
        Marks {
            literals: Vec::new(alloc),
            bits: Vec::new(alloc),
        }
    }

    /// Those of a list.
    pub fn of(alloc: Global, claims: &[Claim]) -> Result<Marks, AllocError> {
        let mut marks = Marks::none(alloc);
        marks.set_to(claims)?;
        Ok(marks)
    }

    /// Becomes those of a list.
    pub fn set_to(&mut self, claims: &[Claim]) -> Result<(), AllocError> {
        let mut count = 0usize;
        for claim in claims {
            count = count.max(count_to(*claim));
        }
        self.literals.clear();
        self.bits.clear();
        self.bits.resize(count, 0)?;
        for claim in claims {
            self.add(*claim)?;
        }
        Ok(())
    }

    fn add(&mut self, claim: Claim) -> Result<(), AllocError> {
        match claim {
            Claim::Knows(literal) => self.literals.push(literal)?,
            Claim::Out(rule) => self.set(rule, OUT),
            Claim::Met(rule, place) => self.set(rule, bit_of_condition(place)),
        }
        Ok(())
    }

    fn set(&mut self, rule: u32, bit: u64) {
        if let Some(bits) = self.bits.get_mut(rule as usize) {
            *bits |= bit;
        }
    }

    // Whether a bit of a rule is set, which it is no more then.
    fn take_bit(&mut self, rule: u32, bit: u64) -> bool {
        let Some(bits) = self.bits.get_mut(rule as usize) else {
            return false;
        };
        let is_set = *bits & bit != 0;
        *bits &= !bit;
        is_set
    }

    fn take_literal(&mut self, literal: Lit) -> bool {
        for place in 0..self.literals.len() {
            if self.literals[place] == literal {
                self.literals.swap_remove(place);
                return true;
            }
        }
        false
    }

    /// Removes a claim. Returns whether it was there.
    pub(crate) fn take(&mut self, claim: Claim) -> bool {
        match claim {
            Claim::Knows(literal) => self.take_literal(literal),
            Claim::Out(rule) => self.take_bit(rule, OUT),
            Claim::Met(rule, place) => self.take_bit(rule, bit_of_condition(place)),
        }
    }

    fn has_bit(&self, rule: u32, bit: u64) -> bool {
        match self.bits.get(rule as usize) {
            Some(bits) => *bits & bit != 0,
            None => false,
        }
    }

    /// Whether a claim is there.
    pub fn has(&self, claim: Claim) -> bool {
        match claim {
            Claim::Knows(literal) => self.literals.contains(&literal),
            Claim::Out(rule) => self.has_bit(rule, OUT),
            Claim::Met(rule, place) => self.has_bit(rule, bit_of_condition(place)),
        }
    }

    /// Those of some claims that are there.
    pub(crate) fn left(&self, alloc: Global, claims: &[Claim]) -> Result<Vec<Claim>, AllocError> {
        let mut left = Vec::with_capacity(alloc, claims.len())?;
        for claim in claims {
            if self.has(*claim) {
                left.push(*claim)?;
            }
        }
        Ok(left)
    }
}
