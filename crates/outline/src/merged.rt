//! Calls of which the filter asks at once for bits of one word for which rules ask apart.
//!
//! All that is known of their arguments is kept, and asked whenever a rule is looked at. At a return with an open rule one bit of a word is
//! told after the other. The first is the one that is left of the rule of which the fewest bits are not known.

use crate::asked::{Left, LeftRule};
use crate::conditions::{Answer, bits_of, by_all, by_high, cut_of, low_word};
use crate::fault::OutlineError;
use crate::learning::all_bits;
use crate::maker::Maker;
use crate::parts::{Cut, cut_of_bits, listed};
use crate::spot::Spot;
use crate::words::{Told, Words};
use bpf_insn::Operation;
use cert_state::{Knowledge, Lit, is_bit};
use profile::{Cond, Op, Rule};
use std::alloc::AllocError;

// A condition that asks for no bits under a mask counts as so many bits.
const WHOLE: u32 = 64;

// The word of a half of a condition's argument, and the bits of it that are asked for and not known.
fn free_bits(known: &Words, cond: &Cond, is_high: bool) -> (u8, u32) {
    let low = low_word(cond);
    let word = if is_high { low + 1 } else { low };
    let (mask, _) = bits_of(cond, is_high);
    let (told, _) = known.bits_at(word);
    (word, mask & (told ^ u32::MAX))
}

// How many bits are not known for which an open condition asks.
fn count_of_free(known: &Words, narrow: bool, cond: &Cond) -> u32 {
    if cond.op != Op::MaskedEq {
        return WHOLE;
    }
    let (_, low) = free_bits(known, cond, false);
    let (_, high) = free_bits(known, cond, true);
    let of_high = if narrow { 0 } else { high.count_ones() };
    low.count_ones().saturating_add(of_high).max(1)
}

// Whether a mask has all bits from its lowest one on, so that what lies under it is a range.
fn is_of_range(mask: u32) -> bool {
    let below = mask ^ u32::MAX;
    below & below.wrapping_add(1) == 0
}

// The highest of some bits is told.
fn cut_of_highest(word: u8, bits: u32) -> Option<Cut> {
    let place = 31u32.checked_sub(bits.leading_zeros())?;
    let bit = 1u32 << (place % 32);
    Some((Lit::Bits(word, bit, 0), Lit::Bits(word, bit, bit)))
}

// Bits of a half of a condition's argument are told, if some are not known: bit by bit if the mask is that of a range.
fn cut_of_free(known: &Words, cond: &Cond, is_high: bool) -> Option<Cut> {
    let (mask, datum) = bits_of(cond, is_high);
    let (word, free) = free_bits(known, cond, is_high);
    if is_bit(free) || is_of_range(mask) {
        return cut_of_highest(word, free);
    }
    if free == 0 {
        return None;
    }
    Some(cut_of_bits(word, free, datum & free))
}

// Where an open condition is cut.
fn cut_of_open<K: Knowledge>(known: &Told<'_, K>, narrow: bool, cond: &Cond) -> Option<Cut> {
    if cond.op != Op::MaskedEq {
        let is_low = by_high(known, narrow, cond) == Answer::Low;
        return cut_of(known.words, narrow, cond, is_low);
    }
    if !narrow && let Some(cut) = cut_of_free(known.words, cond, true) {
        return Some(cut);
    }
    cut_of_free(known.words, cond, false)
}

// Whether bits of a word are those of which a condition asks, if that is known. Where no range of the word is stated, the checker's rule needs
// no range.
fn answer_to_bits<K: Knowledge>(
    known: &Told<'_, K>,
    word: u8,
    mask: u32,
    datum: u32,
) -> Option<bool> {
    let (told, bits) = known.words.bits_at(word);
    if told & mask & (bits ^ datum) != 0 {
        return Some(false);
    }
    if told & mask == mask {
        return Some(true);
    }
    let mut has_range = false;
    for literal in known.words.whole.iter().chain(known.words.masked.iter()) {
        match *literal {
            Lit::NotBits(of, under, other)
                if of == word && under & mask == under && datum & under == other => {
                return Some(false);
            }
            Lit::In(of, _, _) if of == word => has_range = true,
            _ => {}
        }
    }
    if has_range && known.entail(Lit::NotBits(word, mask, datum)) {
        return Some(false);
    }
    None
}

// Whether a half of a condition's argument has the bits of which it asks, if that is known.
fn answer_to_half<K: Knowledge>(known: &Told<'_, K>, cond: &Cond, is_high: bool) -> Option<bool> {
    let low = low_word(cond);
    let (mask, datum) = bits_of(cond, is_high);
    answer_to_bits(known, if is_high { low + 1 } else { low }, mask, datum)
}

// By all that is known, whether a condition holds.
fn answer_to<K: Knowledge>(known: &Told<'_, K>, narrow: bool, cond: &Cond) -> Answer {
    if cond.op != Op::MaskedEq {
        return by_all(known, narrow, cond);
    }
    let high_half = if narrow {
        Some(bits_of(cond, true).1 == 0)
    } else {
        answer_to_half(known, cond, true)
    };
    match (high_half, answer_to_half(known, cond, false)) {
        (Some(false), _) | (_, Some(false)) => Answer::No,
        (Some(true), Some(true)) => Answer::Yes,
        _ => Answer::Open,
    }
}

// How many bits for which open conditions of a rule ask are not known, if the rule is not out.
fn count_of_open<K: Knowledge>(known: &Told<'_, K>, rule: &Rule) -> Option<u32> {
    let narrow = rule.is_narrow();
    let mut count = 0u32;
    for cond in rule.conds.iter() {
        match answer_to(known, narrow, cond) {
            Answer::No => return None,
            Answer::Yes => {}
            _ => count = count.saturating_add(count_of_free(known.words, narrow, cond)),
        }
    }
    Some(count)
}

// Where the first open condition of a rule is cut.
fn cut_of_rule<K: Knowledge>(known: &Told<'_, K>, rule: &Rule) -> Option<Cut> {
    let narrow = rule.is_narrow();
    for cond in rule.conds.iter() {
        if answer_to(known, narrow, cond) != Answer::Yes {
            let cut = cut_of_open(known, narrow, cond);
            if cut.is_some() {
                return cut;
            }
        }
    }
    None
}

// A bit is told of which it is not known what it is, of those that are known to be no number or to lie in a range.
fn cut_of_excluded(known: &Words) -> Option<Cut> {
    for literal in known.whole.iter().chain(known.masked.iter()) {
        let (word, mask) = match *literal {
            Lit::NotBits(word, mask, _) => (word, mask),
            Lit::In(word, _, _) => (word, u32::MAX),
            Lit::Bits(word, _, _) => (word, 0),
        };
        let (told, _) = known.bits_at(word);
        let cut = cut_of_highest(word, mask & (told ^ u32::MAX));
        if cut.is_some() {
            return cut;
        }
    }
    None
}

impl<'a> Maker<'a> {
    /// Whether the filter asks for bits of a call at once for which rules ask apart.
    pub(crate) fn is_merged(&self, call: usize) -> bool {
        match self.calls.get(call) {
            Some(call) => call.is_merged,
            None => false,
        }
    }

    // The verdict of the return at a position.
    fn verdict_at(&self, pc: usize) -> Option<u32> {
        match self.operation(pc) {
            Some((insn, Operation::ReturnK)) => Some(insn.k),
            _ => None,
        }
    }

    // The rules of a list that are not out; or the first that holds, at the return of its verdict.
    fn left_by<K: Knowledge>(
        &self,
        known: &Told<'_, K>,
        left: &Left,
        verdict: Option<u32>,
    ) -> Result<Left, AllocError> {
        let mut rules = Vec::with_capacity(self.alloc, left.rules.len())?;
        for own in &left.rules {
            let Some(rule) = self.rule(own.rule) else {
                continue;
            };
            match count_of_open(known, rule) {
                Some(0) if verdict == Some(rule.word.0) => {
                    let holding = LeftRule {
                        rule: own.rule,
                        met: all_bits(rule),
                        low: 0,
                    };
                    return Left::holding(self.alloc, holding);
                }
                Some(_) => rules.push(*own)?,
                None => {}
            }
        }
        Ok(Left {
            part: left.part,
            rules,
            holds: false,
            is_late: left.is_late,
        })
    }

    /// Settles the rules of a spot's call by all that is known of its arguments, and says this in short. In short more may follow, which is
    /// found only at the next spot: so it is for the checker.
    pub(crate) fn settle_by_all(&self, spot: &Spot) -> Result<(Left, Words), OutlineError> {
        let (Some(left), Some(known)) = (self.left.get(spot.left), self.words.get(spot.arguments))
        else {
            return Err(OutlineError::Unlike);
        };
        let all = known.all(self.alloc)?;
        let state = listed(&all);
        let left = self.left_by(&known.told_by_all(&state), left, self.verdict_at(spot.pc))?;
        if left.holds {
            return Ok((left, Words::none(self.alloc)));
        }
        Ok((left, known.in_short(self.alloc)?))
    }

    // Where what is known is cut for the sake of the rule of which the fewest bits are not known. If the verdict is the default, it is a
    // rule of another one that is to be out, and else a rule of this one that is to hold. There is none if all is settled, and no cut if no
    // rule can be cut.
    fn cut_of_nearest<K: Knowledge>(
        &self,
        known: &Told<'_, K>,
        left: &Left,
        verdict: u32,
    ) -> Option<Option<Cut>> {
        let is_default = verdict == self.profile.default_word().0;
        let mut is_settled = is_default;
        let mut fewest = u32::MAX;
        let mut best = None;
        for own in left.rules.iter().rev() {
            if let Some(rule) = self.rule(own.rule)
                && let Some(count) = count_of_open(known, rule)
            {
                let is_same = rule.word.0 == verdict;
                if is_same && count == 0 {
                    return None;
                }
                if is_same != is_default {
                    is_settled = false;
                    if count < fewest
                        && let Some(cut) = cut_of_rule(known, rule)
                    {
                        fewest = count;
                        best = Some(cut);
                    }
                }
            }
            if fewest == 1 {
                break;
            }
        }
        if is_settled { None } else { Some(best) }
    }

    /// Where what is known of a spot is cut at a return, until one rule holds or all are out. Where none is open, the spot is dead once the
    /// bits are told that are known to be no number.
    pub(crate) fn cut_by_all(
        &self,
        spot: &Spot,
        verdict: u32,
    ) -> Result<Option<Cut>, OutlineError> {
        let (Some(left), Some(known)) = (self.left.get(spot.left), self.words.get(spot.arguments))
        else {
            return Err(OutlineError::Unlike);
        };
        if left.holds {
            return Ok(None);
        }
        let all = known.all(self.alloc)?;
        let state = listed(&all);
        let found = self.cut_of_nearest(&known.told_by_all(&state), left, verdict);
        Ok(match found {
            Some(None) => cut_of_excluded(known),
            Some(cut) => cut,
            None => None,
        })
    }
}
