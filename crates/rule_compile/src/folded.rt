//! Numbers of two machines with one token, told apart by one search.
//!
//! Where x86-64 and x32 are both listed, most calls have the same number on both, but for one bit, and most are decided alike.
//! So the number without that bit is searched for, and the bit is asked for only where the two are decided unlike.

use crate::ranges::{Leaf, Range, Ranges, range_at};
use std::alloc::{AllocError, Global};

/// The bit that the numbers of x32 have and those of x86-64 have not.
pub(crate) const BIT: u32 = 0x4000_0000;

/// What decides a number without the bit, and with it.
#[derive(Clone, Copy)]
pub(crate) struct Pair {
    pub(crate) unset: Leaf,
    pub(crate) set: Leaf,
}

impl Pair {
    // Whether both pairs decide alike.
    fn is_like(&self, other: &Pair) -> bool {
        self.unset.is_like(&other.unset) && self.set.is_like(&other.set)
    }
}

/// The numbers without the bit, and the pairs that decide some of them: these count as blocks behind those that are written.
#[derive(Drop)]
pub(crate) struct Folded {
    pub(crate) ranges: Ranges,
    pub(crate) pairs: Vec<Pair>,
    written: usize,
}

impl Folded {
    /// The numbers of ranges that have all numbers, where so many blocks are written.
    pub(crate) fn of(
        alloc: Global,
        ranges: &[Range],
        written: usize,
    ) -> Result<Folded, AllocError> {
        let mut folded = Folded {
            ranges: Ranges::new(alloc),
            pairs: Vec::new(alloc),
            written,
        };
        let mut next = Some(0);
        for _ in 0..ranges.len().saturating_mul(2).saturating_add(4) {
            let Some(number) = next else {
                break;
            };
            next = folded.add(ranges, number)?;
        }
        Ok(folded)
    }

    // Adds the numbers from one on that are decided alike, and answers the next one without the bit.
    fn add(&mut self, ranges: &[Range], number: u32) -> Result<Option<u32>, AllocError> {
        let (Some(unset), Some(set)) = (range_at(ranges, number), range_at(ranges, number | BIT))
        else {
            return Ok(None);
        };
        let leaf = self.leaf_of(Pair {
            unset: unset.leaf,
            set: set.leaf,
        })?;
        // Up to the next number that has the bit, and from there to the next one that has not.
        let most = number | (BIT - 1);
        let last = unset
            .last
            .min(set.last.min(most | BIT) & (u32::MAX ^ BIT))
            .min(most);
        let last = if last == most { most | BIT } else { last };
        self.ranges.extend(u64::from(last) + 1, leaf)?;
        Ok(last.checked_add(1))
    }

    // What decides a pair: what both are decided by, or the block of the pair.
    fn leaf_of(&mut self, pair: Pair) -> Result<Leaf, AllocError> {
        if pair.unset.is_like(&pair.set) {
            return Ok(pair.unset);
        }
        for (place, other) in self.pairs.iter().enumerate() {
            if other.is_like(&pair) {
                return Ok(Leaf::Block(self.written.saturating_add(place)));
            }
        }
        let place = self.written.saturating_add(self.pairs.len());
        self.pairs.push(pair)?;
        Ok(Leaf::Block(place))
    }
}
