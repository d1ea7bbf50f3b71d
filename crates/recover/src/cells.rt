//! Sets of numbers of 32 bits.
use call_record::least_below;
use std::alloc::AllocError;

/// The numbers from the first to the last that have these bits under a mask.
#[derive(Clone, Copy, PartialEq, Eq)]
pub(crate) struct Cell {
    pub(crate) first: u32,
    pub(crate) last: u32,
    pub(crate) mask: u32,
    pub(crate) datum: u32,
}

impl Cell {
    /// All numbers.
    pub(crate) const ALL: Cell = Cell {
        first: 0,
        last: u32::MAX,
        mask: 0,
        datum: 0,
    };

    /// 0 alone.
    pub(crate) const ZERO: Cell = Cell {
        first: 0,
        last: 0,
        mask: 0,
        datum: 0,
    };

    /// One number alone.
    pub(crate) fn one(number: u32) -> Cell {
        Cell {
            first: number,
            last: number,
            mask: 0,
            datum: 0,
        }
    }

    /// The least of the numbers from one on.
    pub(crate) fn least_from(self, from: u32) -> Option<u32> {
        let from = if from < self.first { self.first } else { from };
        if self.mask == 0 && self.datum == 0 {
            return if from <= self.last { Some(from) } else { None };
        }
        let mask = u64::from(self.mask);
        let datum = u64::from(self.datum);
        let least = least_below(32, u64::from(from), mask, datum)?;
        if least <= u64::from(self.last) {
            return Some(least as u32);
        }
        None
    }

    /// The least of the numbers.
    pub(crate) fn least(self) -> Option<u32> {
        self.least_from(0)
    }

    /// The greatest of the numbers.
    pub(crate) fn greatest(self) -> Option<u32> {
        let turned = Cell {
            first: !self.last,
            last: !self.first,
            mask: self.mask,
            datum: !self.datum & self.mask,
        };
        let least = turned.least()?;
        Some(!least)
    }

    /// Whether a number is one of them.
    pub(crate) fn contains(self, number: u32) -> bool {
        self.first <= number && number <= self.last && number & self.mask == self.datum
    }

    /// Those that lie within bounds.
    pub(crate) fn within(self, first: u32, last: u32) -> Cell {
        Cell {
            first: if first < self.first {
                self.first
            } else {
                first
            },
            last: if self.last < last { self.last } else { last },
            ..self
        }
    }

    /// Those that have bits under a mask, if these contradict no others.
    pub(crate) fn under(self, mask: u32, datum: u32) -> Option<Cell> {
        let common = self.mask & mask;
        if self.datum & common != datum & common {
            return None;
        }
        Some(Cell {
            mask: self.mask | mask,
            datum: self.datum | (datum & mask),
            ..self
        })
    }

    /// The one number that there is, if the bounds tell it.
    pub(crate) fn only(self) -> Option<u32> {
        if self.first == self.last {
            Some(self.first)
        } else {
            None
        }
    }

    /// Whether one of the numbers is in another cell.
    pub(crate) fn meets_cell(self, other: Cell) -> bool {
        self.within(other.first, other.last)
            .meets(other.mask, other.datum)
    }

    /// The least number that is in both, if there is one.
    pub(crate) fn least_common(self, other: Cell) -> Option<u32> {
        self.within(other.first, other.last)
            .under(other.mask, other.datum)?
            .least()
    }

    // Whether the highest bits, in which all numbers within the bounds are alike, are other ones than those under the mask.
    fn is_outside(self) -> bool {
        let above = (self.first ^ self.last).leading_zeros();
        let unlike = u32::MAX.checked_shr(above).unwrap_or(0);
        (self.first ^ self.datum) & self.mask & !unlike != 0
    }

    // Whether the first number that lies within the bounds, or the last, is one of them once its bits under the mask are set.
    fn has_bound(self) -> bool {
        self.contains(self.first & !self.mask | self.datum)
            || self.contains(self.last & !self.mask | self.datum)
    }

    // Whether there is a number.
    fn has_some(self) -> bool {
        if self.is_outside() {
            return false;
        }
        self.has_bound() || self.least().is_some()
    }

    /// Whether one of the numbers has these bits under a mask.
    pub(crate) fn meets(self, mask: u32, datum: u32) -> bool {
        match self.under(mask, datum) {
            Some(cell) => cell.has_some(),
            None => false,
        }
    }
}

// The bits from the highest one to the one that has so many above it.
fn from_top(step: u32) -> u32 {
    u32::MAX.wrapping_shl(31u32.saturating_sub(step))
}

/// Adds the part of a cell from one number to another, if some of its numbers are there.
pub(crate) fn push_within(
    found: &mut Vec<Cell>,
    cell: Cell,
    first: Option<u32>,
    last: Option<u32>,
) -> Result<(), AllocError> {
    if let Some(first) = first
        && let Some(last) = last
        && first <= last
    {
        let part = cell.within(first, last);
        if part.has_some() {
            found.push(part)?;
        }
    }
    Ok(())
}

/// Adds the part of a cell with these bits under a mask, if some of its numbers have them.
pub(crate) fn push_under(
    found: &mut Vec<Cell>,
    cell: Cell,
    mask: u32,
    datum: u32,
) -> Result<(), AllocError> {
    if let Some(part) = cell.under(mask, datum)
        && part.has_some()
    {
        found.push(part)?;
    }
    Ok(())
}

/// Adds the parts of a cell by the highest bit under a mask that is another than these. They are those where it is set, those where it
/// is not, or all.
pub(crate) fn push_unlike(
    found: &mut Vec<Cell>,
    cell: Cell,
    mask: u32,
    datum: u32,
    wanted: Option<bool>,
) -> Result<(), AllocError> {
    for step in 0..32u32 {
        let bit = (1u32 << 31).wrapping_shr(step);
        let turned = datum ^ bit;
        let is_wanted = match wanted {
            Some(is_set) => (turned & bit != 0) == is_set,
            None => true,
        };
        if mask & bit != 0 && is_wanted {
            push_under(found, cell, mask & from_top(step), turned)?;
        }
    }
    Ok(())
}

/// Adds the parts of a cell that have not these bits under a mask.
pub(crate) fn push_others(
    found: &mut Vec<Cell>,
    cell: Cell,
    mask: u32,
    datum: u32,
) -> Result<(), AllocError> {
    push_unlike(found, cell, mask, datum, None)
}
