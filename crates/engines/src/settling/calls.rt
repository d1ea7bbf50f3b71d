//! The places of rules, by all that they say.
use crate::settling::lists::Lists;
use profile::Rule;
use std::alloc::{AllocError, Global};
use std::collections::BTreeMap;
use std::slice;

/// The place of each different rule, by its call, its verdict and the number of its conditions. Of equal rules it is that of the last.
#[derive(Drop)]
pub(crate) struct Calls {
    lists: Lists,
    places: BTreeMap<(u64, u32, usize), usize>,
}

/// The token and the number of a rule's call.
pub(crate) fn call_of(rule: &Rule) -> u64 {
    u64::from(rule.arch.token()) << 32 | u64::from(rule.nr)
}

impl Calls {
    /// The places of these rules.
    pub(crate) fn of(alloc: Global, rules: &[Rule]) -> Result<Calls, AllocError> {
        let mut calls = Calls {
            lists: Lists::new(alloc),
            places: BTreeMap::new(alloc),
        };
        for (place, rule) in rules.iter().enumerate() {
            calls.add(place, rule)?;
        }
        Ok(calls)
    }

    /// The places at which a rule is to be looked for: one, or none.
    pub(crate) fn places(&self, rule: &Rule) -> &[usize] {
        match self.place(rule) {
            Some(place) => slice::from_ref(place),
            None => &[],
        }
    }

    // The place of a rule.
    fn place(&self, rule: &Rule) -> Option<&usize> {
        let list = self.lists.number(rule.conds.as_slice())?;
        self.places.get(&(call_of(rule), rule.word.0, list))
    }

    // Adds a rule.
    fn add(&mut self, place: usize, rule: &Rule) -> Result<(), AllocError> {
        let list = self.lists.add(rule.conds.as_slice())?;
        self.places
            .insert((call_of(rule), rule.word.0, list), place)?;
        Ok(())
    }
}
