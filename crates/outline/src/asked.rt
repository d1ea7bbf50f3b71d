//! What is left to ask of a call of which rules ask for arguments.

use crate::parts::{Item, bits, mixed};
use std::alloc::{AllocError, Global};

/// A call of which rules ask for arguments.
#[derive(Drop)]
pub struct AskedCall {
    /// The token of its machine.
    pub token: u32,
    pub number: u32,
    /// The places of these rules in the profile's order, in the parts in which they are asked, one after the other.
    pub parts: Vec<Vec<u32>>,
    /// Whether the filter asks at once for bits of one word for which rules ask apart. Then all rules stand in one part.
    pub is_merged: bool,
}

/// A rule that may hold: by bits, which of its conditions are met, and of which the low half decides.
#[derive(Clone, Copy, PartialEq, Eq)]
pub(crate) struct LeftRule {
    pub(crate) rule: u32,
    pub(crate) met: u32,
    pub(crate) low: u32,
}

/// What is left to ask of a call.
#[derive(PartialEq, Eq, Drop)]
pub(crate) struct Left {
    /// Which part is asked.
    pub(crate) part: usize,
    /// The rules of this part that may hold.
    pub(crate) rules: Vec<LeftRule>,
    /// Whether the only one of them holds.
    pub(crate) holds: bool,
    /// Whether arguments were asked for before it was known which call it is: then what is known of them is of all parts.
    pub(crate) is_late: bool,
}

impl Item for Left {
    fn key(&self) -> u32 {
        let mut key = mixed(
            bits(self.part),
            u32::from(self.holds) + 2 * u32::from(self.is_late),
        );
        for left in &self.rules {
            key = mixed(key, mixed(left.rule, left.met ^ left.low << 8));
        }
        key
    }
}

impl Left {
    /// Nothing is left.
    pub(crate) fn nothing(alloc: Global) -> Left {
        Left {
            part: 0,
            rules: Vec::new(alloc),
            holds: false,
            is_late: false,
        }
    }

    /// A rule holds.
    pub(crate) fn holding(alloc: Global, rule: LeftRule) -> Result<Left, AllocError> {
        let mut rules = Vec::new(alloc);
        rules.push(rule)?;
        Ok(Left {
            part: 0,
            rules,
            holds: true,
            is_late: false,
        })
    }

    /// Whether a rule stands at a place among those that may hold. They stand in the order of their part.
    pub(crate) fn is_at(&self, place: usize, rule: u32) -> bool {
        matches!(self.rules.get(place), Some(left) if left.rule == rule)
    }
}

impl AskedCall {
    /// All rules of a part are left.
    pub(crate) fn whole(
        &self,
        alloc: Global,
        part: usize,
        is_late: bool,
    ) -> Result<Left, AllocError> {
        let mut rules = Vec::new(alloc);
        if let Some(own) = self.parts.get(part) {
            rules.reserve(own.len())?;
            for rule in own {
                rules.push(LeftRule {
                    rule: *rule,
                    met: 0,
                    low: 0,
                })?;
            }
        }
        Ok(Left {
            part,
            rules,
            holds: false,
            is_late,
        })
    }
}
