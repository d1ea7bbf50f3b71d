//! Rules by machine and number.
ghost use Rattle.std.specs.Prelude.{◌≡◌, ◌<◌, ◌++◌, ◌∷◌, [], List, length, OnOk};
ghost use Rattle.profile.specs.declared.rules.Rule.{Rule};
ghost use Rattle.profile.specs.inner.Places.{IsIndexOf, latest_of, earlier_of};

use crate::rules::Rule;
use std::alloc::{AllocError, Global};
use std::collections::BTreeMap;

/// Where rules stand in a list, by the token of their machine and their number. The rules for one
/// call are walked from the latest to the first.
#[derive(Drop)]
pub(crate) struct Index {
    latest: BTreeMap<(u32, u32), usize>,
    // For each rule the place before it of one for the same call.
    earlier: Vec<Option<usize>>,
}

impl Index {
    pub(crate) fn new(alloc: Global) -> Index
        ensures { IsIndexOf [] result }
    {
        Index {
            latest: BTreeMap::new(alloc),
            earlier: Vec::new(alloc),
        }
    }

    /// Adds the rule that comes next in the list. After an error the index is of no use.
    pub(crate) fn push(&mut self, rule: &Rule) -> Result<(), AllocError>
        ensures { OnOk result ((rules : List Rule) → IsIndexOf rules self.old → IsIndexOf (rules ++ rule.now ∷ []) self.new) }
    {
        let place = self.earlier.len();
        let earlier = self.latest.insert((rule.arch.token(), rule.nr), place)?;
        self.earlier.push(earlier)?;
        Ok(())
    }

    /// The place of the latest rule for a call.
    pub(crate) fn latest(&self, token: u32, number: u32) -> Option<usize>
        ensures { result ≡ latest_of self.now token number }
    {
        self.latest.get(&(token, number)).copied()
    }

    /// The place of the rule for the same call that comes before the one at a place.
    pub(crate) fn earlier(&self, place: usize) -> Option<usize>
        requires { place < length self.now.earlier.items }
        ensures { result ≡ earlier_of self.now place }
    {
        self.earlier[place]
    }
}
