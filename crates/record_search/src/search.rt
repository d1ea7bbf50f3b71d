//! The search for records that get unlike verdicts.

use crate::rules::Rules;
use crate::trace::Traced;
use crate::trials::{Trials, mixed};
use crate::words::{
    NUMBER, TOKEN, Words, all_met, argument_of, around, beside, drawn, with, with_argument,
};
use call_record::Record;
use call_tables::call_name;
use kernel_check::Accepted;
use machines::{Arch, Numbers};
use profile::{Profile, Rule, foreign_numbers};
use std::alloc::{AllocError, Global};

// How many records are looked at, or made by chance, in all and at first.
const TURNS: usize = 60_000;

const SAMPLES: usize = 8192;

impl Trials<'_> {
    // Tries these words with each number of a call of a machine's table.
    fn visit_calls(&mut self, words: &Words, arch: Arch) -> Result<(), AllocError> {
        for numbers in arch.call_numbers() {
            self.visit_numbers(words, arch, *numbers)?;
        }
        Ok(())
    }

    // Those among some numbers.
    fn visit_numbers(
        &mut self,
        words: &Words,
        arch: Arch,
        numbers: Numbers,
    ) -> Result<(), AllocError> {
        for number in numbers.first..numbers.last.saturating_add(1) {
            if self.is_over() {
                break;
            }
            if call_name(arch, number).is_some() {
                self.attempt(&with(words, NUMBER, number))?;
            }
        }
        Ok(())
    }

    // Tries words beside the rules of a number.
    fn by_rules(&mut self, words: &Words) -> Result<(), AllocError> {
        let number = words[NUMBER as usize];
        let rules = self.rules;
        for (_, _, place) in rules.among(words[TOKEN as usize], number, number) {
            if self.is_over() {
                break;
            }
            if let Some(rule) = rules.profile.rules().get(*place) {
                self.by_rule(words, rule)?;
            }
        }
        Ok(())
    }

    // Tries all conditions of a rule met, and the arguments beside each of them: alone, and with the others met.
    fn by_rule(&mut self, words: &Words, rule: &Rule) -> Result<(), AllocError> {
        let all = all_met(words, rule);
        self.attempt(&all)?;
        for cond in rule.conds.as_slice() {
            for value in beside(cond, argument_of(words, cond.index)) {
                self.attempt(&with_argument(words, cond.index, value))?;
                self.attempt(&with_argument(&all, cond.index, value))?;
            }
        }
        Ok(())
    }

    // Tries the calls of the tables, the ends of foreign numbers, and records beside the rules of each number.
    fn begin(&mut self) -> Result<(), AllocError> {
        let rules = self.rules;
        for arch in rules.profile.machines() {
            let words = with(&[0; 16], TOKEN, arch.token());
            self.visit_calls(&words, *arch)?;
            for foreign in foreign_numbers(rules.profile.machines(), *arch) {
                for number in [foreign.first, foreign.last.wrapping_add(1)] {
                    self.attempt(&with(&words, NUMBER, number))?;
                }
            }
        }
        self.attempt(&[0; 16])?;
        for rule in rules.profile.rules() {
            let words = with(&[0; 16], TOKEN, rule.arch.token());
            self.by_rule(&with(&words, NUMBER, rule.nr), rule)?;
        }
        self.each_way()
    }

    // Tries each call that rules are for in each way in which their conditions answer.
    fn each_way(&mut self) -> Result<(), AllocError> {
        let rules = self.rules;
        let mut before = None;
        for (token, number, _) in rules.calls() {
            if before != Some((*token, *number)) {
                before = Some((*token, *number));
                self.by_ways(*token, *number)?;
            }
        }
        Ok(())
    }

    // Tries these, then records at random, and records beside those whose runs took new ways.
    fn explore(&mut self) -> Result<(), AllocError> {
        self.work.share(0, 2);
        self.begin()?;
        self.work.share(0, 4);
        let (mut chance, mut place) = (1, 0);
        for turn in 0..TURNS {
            if turn >= SAMPLES {
                self.work.share(0, 32);
                if self.is_over() {
                    break;
                }
            }
            match self.queue.get(place).copied() {
                Some(words) if turn >= SAMPLES => {
                    place += 1;
                    self.flip_all(&words)?;
                    self.by_rules(&words)?;
                }
                _ => {
                    chance = mixed(chance, 1);
                    self.sample(chance)?;
                }
            }
        }
        Ok(())
    }

    // Tries words of numbers that filter and rules name: with the call of a rule, and with its conditions met.
    fn sample(&mut self, chance: u64) -> Result<(), AllocError> {
        let mut words = [0; 16];
        let mut other = chance;
        for word in 0..16u8 {
            other = mixed(other, u32::from(word));
            words[word as usize] = drawn(&self.pool, word, other).unwrap_or(0);
        }
        let rules = self.rules.profile.rules();
        let place = (chance as usize).checked_rem(rules.len()).unwrap_or(0);
        let Some(rule) = rules.get(place) else {
            return self.attempt(&words);
        };
        let words = with(&with(&words, TOKEN, rule.arch.token()), NUMBER, rule.nr);
        self.attempt(&all_met(&words, rule))?;
        self.attempt(&words)
    }

    // Tries words of which each comparison of a run comes out otherwise, or with one bit flipped of the word that it returns.
    fn flip_all(&mut self, words: &Words) -> Result<(), AllocError> {
        let (end, _) = self.run(words, 0)?;
        let mut compared = Vec::new(self.alloc);
        compared.append(&mut self.compared)?;
        for (a, other) in &compared {
            self.flip(words, *a, other.number)?;
            self.flip(words, *other, a.number)?;
        }
        self.flip_bits(words, end, end.number)
    }

    // Tries words with which a number of a run may become others, by another that it is compared with.
    fn flip(&mut self, words: &Words, from: Traced, other: u32) -> Result<(), AllocError> {
        let Some(word) = from.word else {
            return Ok(());
        };
        let old = words[(word % 16) as usize];
        for target in around(from.number, other) {
            let more = target.wrapping_sub(from.number);
            let flipped = old ^ from.number ^ target;
            for number in [flipped, old.wrapping_add(more), old.wrapping_sub(more)] {
                self.attempt(&with(words, word, number))?;
            }
        }
        if from.is_computed {
            self.flip_bits(words, from, from.number)?;
            self.flip_bits(words, from, other)?;
        }
        Ok(())
    }

    // Tries words with which a number of a run may become another one, but for one bit of the word.
    fn flip_bits(&mut self, words: &Words, from: Traced, target: u32) -> Result<(), AllocError> {
        let Some(word) = from.word else {
            return Ok(());
        };
        let number = words[(word % 16) as usize] ^ from.number ^ target;
        for bit in 0..32u32 {
            self.attempt(&with(words, word, number ^ 1u32.wrapping_shl(bit)))?;
        }
        Ok(())
    }
}

/// A record for which the filter gives another verdict than the profile says, if one is found. It is looked for among the calls
/// of the tables, the ends of foreign numbers, and records beside the rules. Calls of the tables come before all others.
pub fn find_beside_rules<'a>(
    alloc: Global,
    profile: &'a Profile,
    program: Accepted<'a>,
) -> Result<Option<Record>, AllocError> {
    let rules = Rules::new(alloc, profile)?;
    let mut trials = Trials::new(alloc, &rules, program)?;
    trials.begin()?;
    Ok(trials.found.or(trials.other))
}

/// A record for which the filter gives another verdict than the profile says, if one is found. It is looked for beside
/// the rules, and by what the filter compares. That none is found says nothing.
pub fn find_record<'a>(
    alloc: Global,
    profile: &'a Profile,
    program: Accepted<'a>,
) -> Result<Option<Record>, AllocError> {
    let rules = Rules::new(alloc, profile)?;
    let mut trials = Trials::new(alloc, &rules, program)?;
    trials.explore()?;
    Ok(trials.found.or(trials.other))
}
