//! What is known behind a comparison, and what of it is forgotten.

use crate::asked::{Left, LeftRule};
use crate::conditions::{Answer, bits_of, by_all, by_bits, by_high, by_low, low_word};
use crate::fault::OutlineError;
use crate::maker::Maker;
use crate::numbers::NUMBER;
use crate::parts::{are_many, listed};
use crate::spot::{Spot, Which};
use crate::words::{Told, Words};
use cert_state::{Facts, Knowledge, Lit, Room};
use profile::{Cond, Op, Rule};
use std::alloc::{AllocError, Global};

// The bit of a condition, by its place among those of its rule.
fn bit_of(place: usize) -> u32 {
    1 << (place % 32)
}

/// The bits of all conditions of a rule.
pub(crate) fn all_bits(rule: &Rule) -> u32 {
    bit_of(rule.conds.len()).saturating_sub(1)
}

// What is known of a condition now that something was learned of a word: by the half that decides, if it is of this one. A high
// half that is not compared is not learned of, so that what it settles is settled by any word.
fn answer_of<K: Knowledge>(
    known: &Told<'_, K>,
    narrow: bool,
    cond: &Cond,
    is_low: bool,
    word: u8,
) -> Answer {
    let low = low_word(cond);
    if narrow {
        return by_all(known, true, cond);
    }
    if cond.op == Op::MaskedEq {
        if word == low || word == low + 1 {
            return by_bits(known, false, cond);
        }
        return Answer::Open;
    }
    if is_low && word == low {
        return by_low(known, cond);
    }
    if !is_low && word == low + 1 {
        return by_high(known, false, cond);
    }
    Answer::Open
}

// What is left of a rule, if it may still hold, where a condition at a place has an answer.
fn answered(left: LeftRule, place: usize, answer: Answer) -> Option<LeftRule> {
    let LeftRule { rule, met, low } = left;
    match answer {
        Answer::Yes => Some(LeftRule {
            rule,
            met: met | bit_of(place),
            low: low & (u32::MAX ^ bit_of(place)),
        }),
        Answer::Low => Some(LeftRule {
            rule,
            met,
            low: low | bit_of(place),
        }),
        Answer::Open => Some(left),
        Answer::No => None,
    }
}

// What is left of a rule, if it may still hold, now that something was learned of a word.
fn still_left<K: Knowledge>(
    known: &Told<'_, K>,
    rule: &Rule,
    left: LeftRule,
    word: u8,
) -> Option<LeftRule> {
    let mut left = left;
    for (place, cond) in rule.conds.iter().enumerate() {
        if left.met & bit_of(place) == 0 {
            let is_low = left.low & bit_of(place) != 0;
            let answer = answer_of(known, rule.is_narrow(), cond, is_low, word);
            left = answered(left, place, answer)?;
        }
    }
    Some(left)
}

/// What is left of a rule, if it may still hold, by all that is known. Both halves of each argument are asked anew.
pub(crate) fn left_by_all<K: Knowledge>(
    known: &Told<'_, K>,
    rule: &Rule,
    left: LeftRule,
) -> Option<LeftRule> {
    let mut left = left;
    for cond in rule.conds.iter() {
        left = still_left(known, rule, left, low_word(cond) + 1)?;
        left = still_left(known, rule, left, low_word(cond))?;
    }
    Some(left)
}

// Whether a condition asks for bits of a word under a mask, and for just a datum of them, if one is given. The low half is asked for
// where it decides.
fn asks_for(cond: &Cond, is_low: bool, word: u8, mask: u32, datum: Option<u32>) -> bool {
    let low = low_word(cond);
    let is_asked = word == low + 1 || word == low && (is_low || cond.op == Op::MaskedEq);
    let (under, asked) = bits_of(cond, word != low);
    is_asked && under == mask && (datum.is_none() || datum == Some(asked))
}

// Whether a condition that is not settled makes a literal worth knowing. It does if it asks for the word, or for the bits. If the literal
// tells that the bits are not some datum, the condition has to ask for just this datum.
fn needs(cond: &Cond, is_low: bool, literal: Lit) -> bool {
    match literal {
        Lit::NotBits(word, mask, datum) if mask != u32::MAX => {
            asks_for(cond, is_low, word, mask, Some(datum))
        }
        Lit::In(word, _, _) => asks_for(cond, is_low, word, u32::MAX, None),
        Lit::Bits(word, mask, _) | Lit::NotBits(word, mask, _) => {
            asks_for(cond, is_low, word, mask, None)
        }
    }
}

// Whether a rule that is left needs a literal. A high half that is not compared is not needed.
fn rule_needs(rule: &Rule, left: LeftRule, is_late: bool, literal: Lit) -> bool {
    let narrow = rule.is_narrow();
    for (place, cond) in rule.conds.iter().enumerate() {
        let is_low = narrow || is_late || left.low & bit_of(place) != 0;
        let is_compared = !narrow || literal.word() == low_word(cond);
        if left.met & bit_of(place) == 0 && is_compared && needs(cond, is_low, literal) {
            return true;
        }
    }
    false
}

impl<'a> Maker<'a> {
    /// The rule at a place of the profile's order.
    pub(crate) fn rule(&self, place: u32) -> Option<&'a Rule> {
        self.profile.rules().get(place as usize)
    }

    // The rules of a list that may still hold, now that something was learned of a word, or one that holds. Many rules are asked
    // of what is gathered once.
    fn rules_left(&self, known: &Words, left: &Left, word: u8) -> Result<Left, AllocError> {
        let whole = listed(&known.whole);
        if !are_many(left.rules.len(), known.whole.len()) {
            return self.rules_left_by(&known.told(&whole), left, word);
        }
        self.rules_left_of_many(known, left, word)
    }

    // For many rules: the ones that may still hold, or one that holds, by what is gathered. The room for that is made
    // in a function of its own, so that few rules do without.
    #[inline(never)]
    fn rules_left_of_many(&self, known: &Words, left: &Left, word: u8) -> Result<Left, AllocError> {
        let whole = listed(&known.whole);
        let mut room = Room::new();
        self.rules_left_by(&known.told(&Facts::of(&whole, &mut room)), left, word)
    }

    fn rules_left_by<K: Knowledge>(
        &self,
        known: &Told<'_, K>,
        left: &Left,
        word: u8,
    ) -> Result<Left, AllocError> {
        let mut rules = Vec::with_capacity(self.alloc, left.rules.len())?;
        let mut fewest = usize::MAX;
        let mut held = None;
        for own in &left.rules {
            let Some(rule) = self.rule(own.rule) else {
                continue;
            };
            let own = if word == NUMBER || left.is_late {
                left_by_all(known, rule, *own)
            } else {
                still_left(known, rule, *own, word)
            };
            let Some(own) = own else {
                continue;
            };
            if own.met != all_bits(rule) {
                rules.push(own)?;
            } else if rule.conds.len() < fewest {
                fewest = rule.conds.len();
                held = Some(own);
            }
        }
        if let Some(own) = held {
            return Left::holding(self.alloc, own);
        }
        Ok(Left {
            part: left.part,
            rules,
            holds: false,
            is_late: left.is_late,
        })
    }

    // Whether some rule that is left needs a literal, of both halves or of that which is asked for. What was learned late is known of
    // both.
    fn is_needed(&self, left: &Left, of_both: bool, literal: Lit) -> bool {
        for own in &left.rules {
            if let Some(rule) = self.rule(own.rule)
                && rule_needs(rule, *own, of_both || left.is_late, literal)
            {
                return true;
            }
        }
        false
    }

    // The literals of a list that some rule that is left needs.
    fn needed_of(&self, lits: &[Lit], left: &Left, of_both: bool) -> Result<Vec<Lit>, AllocError> {
        let mut needed = Vec::new(self.alloc);
        for literal in lits {
            if self.is_needed(left, of_both, *literal) {
                needed.push(*literal)?;
            }
        }
        Ok(needed)
    }

    // What is known, without what no rule that is left needs.
    fn needed(&self, known: &Words, left: &Left, of_both: bool) -> Result<Words, AllocError> {
        Ok(Words {
            whole: self.needed_of(&known.whole, left, of_both)?,
            masked: self.needed_of(&known.masked, left, of_both)?,
            are_dead: false,
        })
    }

    // What is left of the rules of a call, and what is known of its arguments as far as they need it. These are left of the part that is
    // asked. If none is left of a part, the next part is asked.
    fn settled(
        &self,
        call: usize,
        asked: usize,
        left: Left,
        known: &Words,
        of_both: bool,
    ) -> Result<(Left, Words), AllocError> {
        let mut part = asked;
        let mut left = left;
        for _ in asked..self.parts(call) {
            if !left.rules.is_empty() {
                break;
            }
            part = part.saturating_add(1);
            left = self.whole(call, part, left.is_late)?;
            if !left.is_late {
                return Ok((left, Words::none(self.alloc)));
            }
            left = self.rules_left(known, &left, NUMBER)?;
        }
        if left.holds {
            let left = self.simplest(call, part, known, left)?;
            return Ok((left, Words::none(self.alloc)));
        }
        let needed = self.needed(known, &left, of_both)?;
        Ok((left, needed))
    }

    // In how many parts the rules of a call are asked.
    fn parts(&self, call: usize) -> usize {
        match self.calls.get(call) {
            Some(call) => call.parts.len(),
            None => 0,
        }
    }

    // All rules of a part of a call.
    fn whole(&self, call: usize, part: usize, is_late: bool) -> Result<Left, AllocError> {
        match self.calls.get(call) {
            Some(call) => call.whole(self.alloc, part, is_late),
            None => Ok(Left::nothing(self.alloc)),
        }
    }

    /// Settles the rules of a spot's call, now that something was told of a word. If it was known already, what is told settles only what
    /// it settles by itself. So it is for the compiler, which asks again since it has forgotten the rest.
    pub(crate) fn settle(
        &mut self,
        spot: &mut Spot,
        word: u8,
        told_again: Option<Lit>,
    ) -> Result<(), OutlineError> {
        let Which::Asked(call) = spot.which else {
            return Ok(());
        };
        let (Some(left), Some(known)) = (self.left.get(spot.left), self.words.get(spot.arguments))
        else {
            return Err(OutlineError::Unlike);
        };
        if self.is_merged(call) {
            let (left, known) = self.settle_by_all(spot)?;
            spot.left = self.left.place(left)?;
            spot.arguments = self.words.place(known)?;
            return Ok(());
        }
        let is_settled = left.holds || left.rules.is_empty();
        if is_settled || left.is_late && told_again.is_some() {
            return Ok(());
        }
        let rules = match told_again {
            Some(literal) => self.rules_left(&known.only(self.alloc, literal)?, left, word)?,
            None => self.rules_left(known, left, word)?,
        };
        let of_both = self.is_at_return(spot.pc);
        let (left, known) = self.settled(call, left.part, rules, known, of_both)?;
        spot.left = self.left.place(left)?;
        spot.arguments = self.words.place(known)?;
        Ok(())
    }

    // The place of what is known of some words, with a literal more, if it tells something. One that is not told by itself comes
    // to the others as it is.
    fn with(&mut self, known: usize, literal: Lit, is_told: bool) -> Result<usize, OutlineError> {
        let Some(words) = self.words.get(known) else {
            return Err(OutlineError::Unlike);
        };
        if words.entail(literal) {
            return Ok(known);
        }
        let words = if is_told {
            words.with(self.alloc, literal)?
        } else {
            words.with_as_is(self.alloc, literal)?
        };
        Ok(self.words.place(words)?)
    }

    // Whether anything is known at a place of the table.
    fn is_known(&self, place: usize) -> bool {
        match self.words.get(place) {
            Some(words) => !words.whole.is_empty() || !words.masked.is_empty(),
            None => false,
        }
    }

    // Learns something of the machine or the number. Where this is the first to tell which call it is, all its rules are left.
    fn learn_number(
        &mut self,
        spot: &mut Spot,
        literal: Lit,
        is_told: bool,
    ) -> Result<(), OutlineError> {
        spot.numbers = self.with(spot.numbers, literal, is_told)?;
        if spot.which != Which::Several {
            return Ok(());
        }
        spot.which = self.which(spot.numbers);
        if let Which::Asked(call) = spot.which {
            let is_late = self.is_known(spot.arguments);
            let whole = self.whole(call, 0, is_late)?;
            spot.left = self.left.place(whole)?;
            self.settle(spot, NUMBER, None)?;
        }
        Ok(())
    }

    /// Whether what is known at a place of the table contradicts itself.
    pub(crate) fn is_dead(&self, place: usize) -> bool {
        match self.words.get(place) {
            Some(words) => words.are_dead,
            None => false,
        }
    }

    /// Learns a literal, which is told, or follows from what is told of a part of the number.
    pub(crate) fn learn(
        &mut self,
        spot: &mut Spot,
        literal: Lit,
        is_told: bool,
    ) -> Result<(), OutlineError> {
        let word = literal.word();
        if word <= 1 {
            return self.learn_number(spot, literal, is_told);
        }
        let known = self.with(spot.arguments, literal, true)?;
        let told_again = if known == spot.arguments {
            Some(literal)
        } else {
            None
        };
        spot.arguments = known;
        if self.is_dead(known) {
            return Ok(());
        }
        self.settle(spot, word, told_again)
    }
}
