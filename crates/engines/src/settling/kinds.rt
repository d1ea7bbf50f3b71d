//! Rules by what they match.
use crate::settling::calls::call_of;
use crate::settling::lists::Lists;
use profile::Rule;
use std::alloc::{AllocError, Global};
use std::collections::BTreeMap;

/// Which rules match the same records: for each the numbers of its call and of its conditions.
#[derive(Drop)]
pub(crate) struct Kinds {
    calls: BTreeMap<u64, usize>,
    lists: Lists,
    // For each list of conditions the place of the first rule that has it.
    firsts: Vec<usize>,
    of_rules: Vec<(usize, usize)>,
}

impl Kinds {
    /// Those of these rules.
    pub(crate) fn of(alloc: Global, rules: &[Rule]) -> Result<Kinds, AllocError> {
        let mut kinds = Kinds {
            calls: BTreeMap::new(alloc),
            lists: Lists::new(alloc),
            firsts: Vec::new(alloc),
            of_rules: Vec::new(alloc),
        };
        for (place, rule) in rules.iter().enumerate() {
            kinds.add(place, rule)?;
        }
        Ok(kinds)
    }

    /// For each list of conditions the place of the first rule that has it.
    pub(crate) fn firsts(&self) -> &[usize] {
        &self.firsts
    }

    /// How many kinds there may be: one for each call and each list of conditions.
    pub(crate) fn count(&self) -> usize {
        self.calls.len().saturating_mul(self.firsts.len())
    }

    /// The number of the kind of the rule at a place. The kinds of each call stand side by side, in the order of the lists.
    pub(crate) fn kind(&self, place: usize) -> Option<usize> {
        let (call, list) = *self.of_rules.get(place)?;
        Some(call.saturating_mul(self.firsts.len()).saturating_add(list))
    }

    // Adds a rule.
    fn add(&mut self, place: usize, rule: &Rule) -> Result<(), AllocError> {
        let call = self.call_number(call_of(rule))?;
        let list = self.lists.add(rule.conds.as_slice())?;
        if list == self.firsts.len() {
            self.firsts.push(place)?;
        }
        self.of_rules.push((call, list))?;
        Ok(())
    }

    // The number of a call, the next one where it comes for the first time.
    fn call_number(&mut self, call: u64) -> Result<usize, AllocError> {
        if let Some(number) = self.calls.get(&call) {
            return Ok(*number);
        }
        let number = self.calls.len();
        self.calls.insert(call, number)?;
        Ok(number)
    }
}
