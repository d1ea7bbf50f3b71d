//! What is needed of rules behind a node: the rules that must already be refuted there, and the rules that hold in the
//! end. A rule must be refuted there if no path below refutes it before a return that needs it.

use crate::conditions::{Answer, by_all, low_word};
use crate::fault::OutlineError;
use crate::maker::Maker;
use crate::parts::{NOBODY, are_many, listed};
use crate::spot::{Spot, Which};
use crate::stating::Stated;
use crate::words::Told;
use cert_form::{Claim, Kind};
use cert_state::{Facts, Knowledge, Lit, Room};
use std::alloc::{AllocError, Global};

// Where the bits of a set stand that has no rule.
const NOWHERE: usize = usize::MAX;

/// For each spot a set of rules, by bits.
#[derive(Drop)]
struct Sets {
    /// In how many parts the bits of a set stand.
    width: usize,
    /// For each spot, where its bits begin. A set that has no rule has none.
    begins: Vec<usize>,
    bits: Vec<u64>,
}

fn bit_of(rule: usize) -> u64 {
    1 << (rule % 64)
}

impl Sets {
    // Empty sets for so many spots, of so many rules.
    fn new(alloc: Global, spots: usize, rules: usize) -> Result<Sets, AllocError> {
        Ok(Sets {
            width: (rules / 64).saturating_add(1),
            begins: vec![in alloc; NOWHERE; spots]?,
            bits: Vec::new(alloc),
        })
    }

    // Where the bits of a set begin.
    fn begin(&self, spot: u32) -> usize {
        match self.begins.get(spot as usize) {
            Some(begin) => *begin,
            None => NOWHERE,
        }
    }

    // Where the bit of a rule stands.
    fn place(&self, spot: u32, rule: usize) -> usize {
        self.begin(spot).saturating_add(rule / 64)
    }

    fn has(&self, spot: u32, rule: usize) -> bool {
        match self.bits.get(self.place(spot, rule)) {
            Some(bits) => *bits & bit_of(rule) != 0,
            None => false,
        }
    }

    // Makes room for the bits of a set, if it has none.
    fn open(&mut self, spot: u32) -> Result<(), AllocError> {
        if self.begin(spot) != NOWHERE {
            return Ok(());
        }
        let end = self.bits.len();
        for _ in 0..self.width {
            self.bits.push(0)?;
        }
        if let Some(begin) = self.begins.get_mut(spot as usize) {
            *begin = end;
        }
        Ok(())
    }

    fn add(&mut self, spot: u32, rule: usize) -> Result<(), AllocError> {
        self.open(spot)?;
        let place = self.place(spot, rule);
        if let Some(bits) = self.bits.get_mut(place) {
            *bits |= bit_of(rule);
        }
        Ok(())
    }

    // Whether a set has none of the 64 rules that stand with this one.
    fn has_none(&self, spot: u32, rule: usize) -> bool {
        match self.bits.get(self.place(spot, rule)) {
            Some(bits) => *bits == 0,
            None => true,
        }
    }

    // The rules of a set.
    fn rules(&self, alloc: Global, spot: u32) -> Result<Vec<usize>, AllocError> {
        let mut rules = Vec::new(alloc);
        if self.begin(spot) == NOWHERE {
            return Ok(rules);
        }
        for part in 0..self.width {
            let first = part.saturating_mul(64);
            if self.has_none(spot, first) {
                continue;
            }
            for at in 0..64usize {
                let rule = first.saturating_add(at);
                if self.has(spot, rule) {
                    rules.push(rule)?;
                }
            }
        }
        Ok(rules)
    }
}

/// For each spot, which rules must be out and which hold in the end.
#[derive(Drop)]
pub(crate) struct Needs {
    outs: Sets,
    held: Sets,
}

impl Needs {
    /// Whether a claim is needed at a spot.
    pub(crate) fn has(&self, spot: u32, claim: Claim) -> bool {
        match claim {
            Claim::Knows(_) => true,
            Claim::Out(rule) => self.outs.has(spot, rule as usize),
            Claim::Met(rule, _) => self.held.has(spot, rule as usize),
        }
    }
}

impl<'a> Maker<'a> {
    // Whether what is known refutes a rule by a condition of a word's argument.
    fn is_refuted<K: Knowledge>(&self, known: &Told<'_, K>, rule: usize, word: u8) -> bool {
        let Some(rule) = self.profile.rules().get(rule) else {
            return false;
        };
        for cond in rule.conds.iter() {
            let low = low_word(cond);
            let is_asked = word == low || word == low + 1;
            if is_asked && by_all(known, rule.is_narrow(), cond) == Answer::No {
                return true;
            }
        }
        false
    }

    // What a return needs: that the rule that is left holds; or where none does, that all of another verdict are out.
    fn need_at_return(
        &self,
        needs: &mut Needs,
        place: u32,
        spot: &Spot,
    ) -> Result<(), OutlineError> {
        let (Which::Asked(_), Some(left)) = (spot.which, self.left.get(spot.left)) else {
            return Ok(());
        };
        for own in &left.rules {
            needs.held.add(place, own.rule as usize)?;
        }
        if left.holds {
            return Ok(());
        }
        let default = self.profile.default_word();
        let mut stated = Stated::nothing(self.alloc)?;
        self.state(spot, &mut stated)?;
        for claim in &stated.lasting.items {
            if let Claim::Out(number) = *claim
                && let Some(rule) = self.rule(number)
                && rule.word != default
            {
                needs.outs.add(place, number as usize)?;
            }
        }
        Ok(())
    }

    // The rules that are needed to be out where a way leads, without those that are refuted on it.
    fn outs_before(
        &self,
        needs: &Needs,
        spot: &Spot,
        next: u32,
        told: Option<Lit>,
        room: &mut Room,
    ) -> Result<Vec<usize>, OutlineError> {
        let rules = needs.outs.rules(self.alloc, next)?;
        if rules.is_empty() {
            return Ok(rules);
        }
        let (Some(literal), Some(words)) = (told, self.words.get(spot.arguments)) else {
            return Ok(rules);
        };
        let words = words.with(self.alloc, literal)?;
        let whole = listed(&words.whole);
        if !are_many(rules.len(), words.whole.len()) {
            return self.not_refuted(&words.told(&whole), &rules, literal.word());
        }
        self.not_refuted(
            &words.told(&Facts::of(&whole, room)),
            &rules,
            literal.word(),
        )
    }

    // Those of some rules that are not refuted by what is known of a word.
    fn not_refuted<K: Knowledge>(
        &self,
        known: &Told<'_, K>,
        rules: &[usize],
        word: u8,
    ) -> Result<Vec<usize>, OutlineError> {
        let mut left = Vec::new(self.alloc);
        for rule in rules {
            if !self.is_refuted(known, *rule, word) {
                left.push(*rule)?;
            }
        }
        Ok(left)
    }

    // What is needed where a way leads is needed before it, but for what it tells.
    fn need_before(
        &self,
        needs: &mut Needs,
        place: u32,
        next: u32,
        told: Option<Lit>,
        room: &mut Room,
    ) -> Result<(), OutlineError> {
        let (Some(spot), true) = (self.spots.get(place as usize), next != NOBODY) else {
            return Ok(());
        };
        for rule in &self.outs_before(needs, spot, next, told, room)? {
            needs.outs.add(place, *rule)?;
        }
        for rule in &needs.held.rules(self.alloc, next)? {
            needs.held.add(place, *rule)?;
        }
        Ok(())
    }

    /// What is needed at all spots, of which each stands in an order before those to which it leads.
    pub(crate) fn needs(&self, kinds: &[Kind], order: &[u32]) -> Result<Needs, OutlineError> {
        let rules = self.profile.rules().len();
        let mut needs = Needs {
            outs: Sets::new(self.alloc, kinds.len(), rules)?,
            held: Sets::new(self.alloc, kinds.len(), rules)?,
        };
        let mut room = Room::new();
        for place in order.iter().rev() {
            let (spot, kind) = self.spot_at(kinds, *place)?;
            if kind == Kind::Return {
                self.need_at_return(&mut needs, *place, &spot)?;
            }
            for (next, told) in self.ways(&spot, kind) {
                self.need_before(&mut needs, *place, next, told, &mut room)?;
            }
        }
        Ok(needs)
    }
}
