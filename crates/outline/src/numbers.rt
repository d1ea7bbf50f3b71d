//! What is known of the machine and the number of a call.

use crate::conditions::{Answer, beside, by_all, told_apart};
use crate::maker::Maker;
use crate::parts::{Cut, are_many, cut_below, listed};
use crate::rules::Numbered;
use crate::spot::{Spot, Which};
use crate::words::{Told, Words};
use cert_state::{AVal, Facts, Knowledge, Lit, Room, range};
use machines::{Arch, LEAST_X32_NUMBER};
use profile::{MAX_RULES, Rule, foreign_numbers};
use std::alloc::{AllocError, Global};

/// The words of a record that hold the call's number and the machine's token.
pub(crate) const NUMBER: u8 = 0;

pub(crate) const TOKEN: u8 = 1;

/// Room for what is known of the number and of arguments, where many questions are asked of it. It serves one spot after the other.
#[derive(Drop)]
pub(crate) struct Rooms {
    numbers: Room,
    arguments: Room,
}

impl Rooms {
    pub(crate) fn new() -> Rooms {
        Rooms {
            numbers: Room::new(),
            arguments: Room::new(),
        }
    }
}

// The least and the greatest number that a word may be, as far as literals of the whole word tell.
fn range_of(known: &Words, word: u8) -> Option<(u32, u32)> {
    range(&listed(&known.whole), word)
}

// The only number that a word may be. Mostly it stands there as such.
fn only(known: &Words, word: u8) -> Option<u32> {
    for literal in &known.whole {
        if let Lit::Bits(of, u32::MAX, number) = *literal
            && of == word
        {
            return Some(number);
        }
    }
    let (low, high) = range_of(known, word)?;
    if low == high {
        return Some(low);
    }
    None
}

// The number is cut in front of one, if there are numbers of a range on both sides.
fn cut_within(range: (u32, u32), number: u32) -> Option<Cut> {
    let (least, greatest) = range;
    if least < number && number <= greatest {
        return cut_below(NUMBER, number);
    }
    None
}

// The number is cut in front of this one or else behind it, if there are numbers of a range on both sides.
fn cut_beside(range: (u32, u32), number: u32) -> Option<Cut> {
    match cut_within(range, number) {
        Some(cut) => Some(cut),
        None => cut_within(range, number.checked_add(1)?),
    }
}

// Adds the numbers from one to another, without that.
fn add_between(numbers: &mut Vec<u32>, from: u32, to: u32) -> Result<(), AllocError> {
    for number in from..to {
        numbers.push(number)?;
    }
    Ok(())
}

impl<'a> Maker<'a> {
    /// Which call it is, by what is known of its machine and its number.
    pub(crate) fn which(&self, numbers: usize) -> Which {
        let Some(known) = self.words.get(numbers) else {
            return Which::Several;
        };
        let (Some(token), Some(number)) = (only(known, TOKEN), only(known, NUMBER)) else {
            return Which::Several;
        };
        for (place, call) in self.calls.iter().enumerate() {
            if call.token == token && call.number == number {
                return Which::Asked(place);
            }
        }
        Which::Plain
    }

    // The first listed machine with a token.
    fn machine(&self, token: u32) -> Option<Arch> {
        for machine in self.profile.machines() {
            if machine.token() == token {
                return Some(*machine);
            }
        }
        None
    }

    // Where listed machines are told apart.
    fn cut_of_machines(&self, known: &Words) -> Option<Cut> {
        for machine in self.profile.machines() {
            if let Some(cut) = told_apart(known, TOKEN, u32::MAX, machine.token()) {
                return Some(cut);
            }
        }
        None
    }

    // Whether a rule may hold of a call whose number is not known, by what is known of arguments.
    fn may_hold<K: Knowledge>(&self, arguments: &Told<'_, K>, rule: &Rule) -> bool {
        for cond in rule.conds.iter() {
            if by_all(arguments, rule.is_narrow(), cond) == Answer::No {
                return false;
            }
        }
        true
    }

    // Whether the number of a rule has to be told apart where a return gives a verdict.
    fn is_told<N: Knowledge, K: Knowledge>(
        &self,
        known: &N,
        arguments: &Told<'_, K>,
        rule: &Rule,
        verdict: u32,
    ) -> bool {
        if verdict == self.profile.default_word().0 && rule.word.0 == verdict {
            return false;
        }
        if known.entails(&Lit::NotBits(NUMBER, u32::MAX, rule.nr)) {
            return false;
        }
        self.may_hold(arguments, rule)
    }

    // The numbers of a range for which no rule without conditions says a verdict: of the others nothing has to be told. None, if the
    // range has more numbers than there are rules.
    fn numbers_unsaid(
        &self,
        rules: &[Numbered],
        range: (u32, u32),
        verdict: u32,
    ) -> Result<Option<Vec<u32>>, AllocError> {
        let (least, greatest) = range;
        if greatest.saturating_sub(least) as usize > MAX_RULES {
            return Ok(None);
        }
        let mut numbers = Vec::new(self.alloc);
        let mut next = least;
        for (_token, number, place) in rules {
            if let Some(rule) = self.rule(*place)
                && rule.conds.is_empty()
                && rule.word.0 == verdict
            {
                add_between(&mut numbers, next, *number)?;
                next = number.saturating_add(1);
            }
        }
        add_between(&mut numbers, next, greatest.saturating_add(1))?;
        Ok(Some(numbers))
    }

    // The number that has to be told apart where a return gives a verdict, one in the middle, if there is one.
    fn number_to_tell(
        &self,
        known: &Words,
        arguments: &Words,
        range: (u32, u32),
        rules: &[Numbered],
        verdict: u32,
        rooms: &mut Rooms,
    ) -> Result<Option<u32>, AllocError> {
        if verdict != self.profile.default_word().0
            && let Some(numbers) = self.numbers_unsaid(rules, range, verdict)?
        {
            return Ok(numbers.get(numbers.len() / 2).copied());
        }
        self.rule_to_tell(known, arguments, rules, verdict, rooms)
    }

    // The number of a rule that has to be told apart where a return gives a verdict, one in the middle, if there is one. Most often
    // the rule in the middle is such a one.
    fn rule_to_tell(
        &self,
        known: &Words,
        arguments: &Words,
        rules: &[Numbered],
        verdict: u32,
        rooms: &mut Rooms,
    ) -> Result<Option<u32>, AllocError> {
        let all = known.all(self.alloc)?;
        let state = listed(&all);
        let whole = listed(&arguments.whole);
        if let Some((_token, number, place)) = rules.get(rules.len() / 2)
            && let Some(rule) = self.rule(*place)
            && self.is_told(&state, &arguments.told(&whole), rule, verdict)
        {
            return Ok(Some(*number));
        }
        let numbers = if are_many(rules.len(), all.len().saturating_add(arguments.whole.len())) {
            let Rooms {
                numbers: room,
                arguments: other,
            } = rooms;
            let facts = Facts::of(&state, room);
            let of_arguments = Facts::of(&whole, other);
            self.numbers_told(&facts, &arguments.told(&of_arguments), rules, verdict)?
        } else {
            self.numbers_told(&state, &arguments.told(&whole), rules, verdict)?
        };
        Ok(numbers.get(numbers.len() / 2).copied())
    }

    // All such numbers, in order.
    fn numbers_told<N: Knowledge, K: Knowledge>(
        &self,
        known: &N,
        arguments: &Told<'_, K>,
        rules: &[Numbered],
        verdict: u32,
    ) -> Result<Vec<u32>, AllocError> {
        let mut numbers = Vec::new(self.alloc);
        for (_token, number, place) in rules {
            if let Some(rule) = self.rule(*place)
                && self.is_told(known, arguments, rule, verdict)
            {
                numbers.push(*number)?;
            }
        }
        numbers.dedup();
        Ok(numbers)
    }

    // Where foreign numbers are cut from those of listed machines, where the number lies in a range.
    fn cut_of_foreign(&self, range: (u32, u32), machine: Arch) -> Option<Cut> {
        for foreign in foreign_numbers(self.profile.machines(), machine) {
            if let Some(cut) = cut_within(range, foreign.first) {
                return Some(cut);
            }
            if let Some(next) = foreign.last.checked_add(1)
                && let Some(cut) = cut_within(range, next)
            {
                return Some(cut);
            }
        }
        None
    }

    // Whether all numbers of a range are foreign ones.
    fn is_foreign(&self, range: (u32, u32), machine: Arch) -> bool {
        let (least, greatest) = range;
        for foreign in foreign_numbers(self.profile.machines(), machine) {
            if foreign.first <= least && greatest <= foreign.last {
                return true;
            }
        }
        false
    }

    /// Where several calls are cut that come to a return with a verdict, if that is needed.
    pub(crate) fn cut_of_several(
        &self,
        known: &Words,
        arguments: &Words,
        verdict: u32,
        rooms: &mut Rooms,
    ) -> Result<Option<Cut>, AllocError> {
        let Some(token) = only(known, TOKEN) else {
            return Ok(self.cut_of_machines(known));
        };
        let (Some(machine), Some(range)) = (self.machine(token), range_of(known, NUMBER)) else {
            return Ok(None);
        };
        if self.is_foreign(range, machine) {
            return Ok(None);
        }
        let rules = self.rules.among(token, range.0, range.1);
        let number = self.number_to_tell(known, arguments, range, rules, verdict, rooms)?;
        if number.is_none() && verdict == self.profile.default_word().0 && verdict == 0 {
            return Ok(None);
        }
        if let Some(cut) = self.cut_of_foreign(range, machine) {
            return Ok(Some(cut));
        }
        Ok(number.and_then(|number| cut_beside(range, number)))
    }

    // Whether two listed machines have a token.
    fn is_shared(&self, token: u32) -> bool {
        let machines = self.profile.machines();
        machines.iter().filter(|arch| arch.token() == token).count() > 1
    }

    /// Where the number is cut before it is compared at a spot, if calls are told apart early. It is cut between those of two machines with
    /// one token. So a list of the numbers of both is followed twice, for the half of them each.
    pub(crate) fn cut_of_machine(&self, spot: &Spot) -> Option<Cut> {
        if !self.is_early || spot.a != AVal::Masked(NUMBER, u32::MAX) {
            return None;
        }
        let known = self.words.get(spot.numbers)?;
        if !self.is_shared(only(known, TOKEN)?) {
            return None;
        }
        cut_within(range_of(known, NUMBER)?, LEAST_X32_NUMBER)
    }

    // The numbers of a machine's calls of which rules ask for arguments, without those that are excluded, in order.
    fn numbers_asked(
        &self,
        known: &[Lit],
        token: u32,
        rooms: &mut Rooms,
    ) -> Result<Vec<u32>, AllocError> {
        let state = listed(known);
        let mut numbers = if are_many(self.calls.len(), known.len()) {
            self.numbers_open(&Facts::of(&state, &mut rooms.numbers), token)?
        } else {
            self.numbers_open(&state, token)?
        };
        numbers.sort()?;
        Ok(numbers)
    }

    // The numbers of a machine's calls of which rules ask for arguments, in the order of the calls. Excluded ones are
    // left out.
    fn numbers_open<K: Knowledge>(&self, known: &K, token: u32) -> Result<Vec<u32>, AllocError> {
        let mut numbers = Vec::new(self.alloc);
        for call in self.calls {
            if call.token == token && !known.entails(&Lit::NotBits(NUMBER, u32::MAX, call.number)) {
                numbers.push(call.number)?;
            }
        }
        Ok(numbers)
    }

    /// Where several calls are cut that come to the first load of an argument: at the number of one of which rules ask for it.
    pub(crate) fn cut_of_asked(
        &self,
        known: &Words,
        rooms: &mut Rooms,
    ) -> Result<Option<Cut>, AllocError> {
        let Some(token) = only(known, TOKEN) else {
            return Ok(None);
        };
        let numbers = self.numbers_asked(&known.all(self.alloc)?, token, rooms)?;
        match numbers.get(numbers.len() / 2) {
            Some(number) => Ok(beside(known, NUMBER, *number)),
            None => Ok(None),
        }
    }
}
