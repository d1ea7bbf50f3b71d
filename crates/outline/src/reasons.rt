//! The rule for which a call's verdict is settled.

use crate::asked::{Left, LeftRule};
use crate::learning::{all_bits, left_by_all};
use crate::maker::Maker;
use crate::parts::{are_many, listed};
use crate::words::{Told, Words};
use cert_state::{Facts, Knowledge, Room};
use std::alloc::AllocError;

impl<'a> Maker<'a> {
    // A rule, if it holds, has fewer conditions than one that holds, and the same verdict; or else this one.
    fn simpler<K: Knowledge>(
        &self,
        known: &Told<'_, K>,
        holding: LeftRule,
        number: u32,
    ) -> LeftRule {
        let (Some(own), Some(other)) = (self.rule(holding.rule), self.rule(number)) else {
            return holding;
        };
        if other.conds.len() >= own.conds.len() || other.word != own.word {
            return holding;
        }
        let whole = LeftRule {
            rule: number,
            met: 0,
            low: 0,
        };
        match left_by_all(known, other, whole) {
            Some(left) if left.met == all_bits(other) => left,
            _ => holding,
        }
    }

    /// Where a rule of a part holds: this one, or one with fewer conditions of a part that is not asked yet. So paths come together
    /// that ended for unlike reasons.
    pub(crate) fn simplest(
        &self,
        call: usize,
        part: usize,
        known: &Words,
        left: Left,
    ) -> Result<Left, AllocError> {
        let (Some(call), Some(own)) = (self.calls.get(call), left.rules.first()) else {
            return Ok(left);
        };
        let later = match call.parts.get(part.saturating_add(1)..) {
            Some(parts) if !parts.is_empty() => parts,
            _ => return Ok(left),
        };
        let whole = listed(&known.whole);
        let mut count = 0usize;
        for part in later {
            count = count.saturating_add(part.len());
        }
        if !are_many(count, known.whole.len()) {
            let holding = self.simplest_of(&known.told(&whole), *own, later);
            return Left::holding(self.alloc, holding);
        }
        Left::holding(self.alloc, self.simplest_of_many(known, *own, later))
    }

    // For many rules: the rule with the fewest conditions that holds, by what is gathered. The room for that is made in
    // a function of its own, so that few rules do without.
    #[inline(never)]
    fn simplest_of_many(&self, known: &Words, own: LeftRule, parts: &[Vec<u32>]) -> LeftRule {
        let whole = listed(&known.whole);
        let mut room = Room::new();
        self.simplest_of(&known.told(&Facts::of(&whole, &mut room)), own, parts)
    }

    // The rule with the fewest conditions that holds, among this one and the rules of some parts.
    fn simplest_of<K: Knowledge>(
        &self,
        known: &Told<'_, K>,
        own: LeftRule,
        parts: &[Vec<u32>],
    ) -> LeftRule {
        let mut holding = own;
        for part in parts {
            for number in part {
                holding = self.simpler(known, holding, *number);
            }
        }
        holding
    }
}
