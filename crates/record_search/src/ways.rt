//! Records in which the conditions of a call's rules answer in each way.
use crate::rules::Rules;
use crate::trials::Trials;
use crate::words::{NUMBER, TOKEN, Words, with, with_argument};
use differ::{Unlisted, cells};
use profile::{Cond, Rule};
use std::alloc::{AllocError, Global};

// How many conditions on one argument are asked together, and how many records are tried of one call.
const CONDITIONS: usize = 16;

const RECORDS: usize = 4096;

// For each argument, values that stand for all others where the conditions on it are asked; none of an argument without conditions.
type Lists = [Vec<u64>; 6];

// Adds the conditions of a rule on an argument.
fn add_conditions(rule: &Rule, index: u8, conds: &mut Vec<Cond>) -> Result<(), AllocError> {
    for cond in rule.conds.as_slice() {
        if cond.index == index {
            conds.push(*cond)?;
        }
    }
    Ok(())
}

// Values of so many bits that stand for all others, if there are not too many conditions.
fn values(alloc: Global, conds: &[Cond], narrow: bool) -> Result<Vec<u64>, AllocError> {
    if conds.is_empty() || conds.len() > CONDITIONS {
        return Ok(Vec::new(alloc));
    }
    let bits = if narrow { 32 } else { 64 };
    match cells(alloc, conds, bits) {
        Ok(list) => Ok(list),
        Err(Unlisted::TooMany) => Ok(Vec::new(alloc)),
        Err(Unlisted::OutOfMemory) => Err(AllocError),
    }
}

// The values of an argument, by the rules of one call.
fn list_of(
    alloc: Global,
    rules: &Rules<'_>,
    places: &[(u32, u32, usize)],
    index: u8,
) -> Result<Vec<u64>, AllocError> {
    let mut conds = Vec::new(alloc);
    let mut narrow = false;
    for (_, _, place) in places {
        if let Some(rule) = rules.profile.rules().get(*place) {
            narrow = rule.is_narrow();
            add_conditions(rule, index, &mut conds)?;
        }
    }
    values(alloc, &conds, narrow)
}

// The values of all arguments.
fn lists_of(
    alloc: Global,
    rules: &Rules<'_>,
    places: &[(u32, u32, usize)],
) -> Result<Lists, AllocError> {
    Ok([
        list_of(alloc, rules, places, 0)?,
        list_of(alloc, rules, places, 1)?,
        list_of(alloc, rules, places, 2)?,
        list_of(alloc, rules, places, 3)?,
        list_of(alloc, rules, places, 4)?,
        list_of(alloc, rules, places, 5)?,
    ])
}

// How many records have one value of each list.
fn count(lists: &Lists) -> usize {
    let mut count = 1usize;
    for list in lists {
        count = count.saturating_mul(list.len().max(1));
    }
    count
}

// Words with one value of each list, those of this turn.
fn chosen(words: &Words, lists: &Lists, turn: usize) -> Words {
    let mut chosen = *words;
    let mut rest = turn;
    for index in 0..6u8 {
        let list = &lists[index as usize];
        let place = rest.checked_rem(list.len()).unwrap_or(0);
        if let Some(value) = list.get(place) {
            chosen = with_argument(&chosen, index, *value);
            rest = rest.checked_div(list.len()).unwrap_or(0);
        }
    }
    chosen
}

impl Trials<'_> {
    // Tries a call with each choice of values, if there are not too many.
    fn by_values(&mut self, words: &Words, lists: &Lists) -> Result<(), AllocError> {
        let count = count(lists);
        if count > RECORDS {
            return Ok(());
        }
        for turn in 0..count {
            if self.is_over() {
                break;
            }
            self.attempt(&chosen(words, lists, turn))?;
        }
        Ok(())
    }

    /// Tries a call in each way in which the conditions of its rules answer.
    pub(crate) fn by_ways(&mut self, token: u32, number: u32) -> Result<(), AllocError> {
        let rules = self.rules;
        let lists = lists_of(self.alloc, rules, rules.among(token, number, number))?;
        let words = with(&with(&[0; 16], TOKEN, token), NUMBER, number);
        self.by_values(&words, &lists)
    }
}
