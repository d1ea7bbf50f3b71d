//! Sets of numbers of 64 bits that are answered alike, and conditions on them.
use crate::cells::Cell;
use crate::classes::words_of;
use crate::leaves::{Leaf, wide};
use call_record::halves;
use profile::{Cond, Op};

/// The numbers whose halves are of two cells, and the class that they are of.
#[derive(Clone, Copy)]
pub(crate) struct Piece {
    pub(crate) low: Cell,
    pub(crate) high: Cell,
    pub(crate) class: usize,
    pub(crate) least: u64,
    pub(crate) greatest: u64,
}

impl Piece {
    /// The numbers with these halves.
    pub(crate) fn new(low: Cell, high: Cell, class: usize) -> Piece {
        Piece {
            low,
            high,
            class,
            least: wide(low.least().unwrap_or(0), high.least().unwrap_or(0)),
            greatest: wide(low.greatest().unwrap_or(0), high.greatest().unwrap_or(0)),
        }
    }

    /// This piece, in another class.
    pub(crate) fn in_class(self, class: usize) -> Piece {
        Piece { class, ..self }
    }

    /// The numbers of an argument in a leaf.
    pub(crate) fn of_leaf(leaf: &Leaf, index: u8) -> Piece {
        let (low, high) = words_of(index);
        Piece::new(leaf.cell(low), leaf.cell(high), 0)
    }

    /// Whether another one has the same cells.
    pub(crate) fn is_same(&self, other: &Piece) -> bool {
        self.low == other.low && self.high == other.high
    }

    /// Whether one of the numbers is in another piece.
    pub(crate) fn meets_piece(&self, other: &Piece) -> bool {
        self.low.meets_cell(other.low) && self.high.meets_cell(other.high)
    }

    /// The one number that there is, if there is no other.
    pub(crate) fn only(&self) -> Option<u64> {
        if self.least == self.greatest {
            Some(self.least)
        } else {
            None
        }
    }

    /// Whether a number is one of them.
    pub(crate) fn contains(&self, number: u64) -> bool {
        let (low, high) = halves(number);
        self.low.contains(low) && self.high.contains(high)
    }

    // Whether one of the numbers has these bits under a mask.
    fn meets(&self, mask: u64, datum: u64) -> bool {
        let (low_mask, high_mask) = halves(mask);
        let (low, high) = halves(datum);
        self.low.meets(low_mask, low) && self.high.meets(high_mask, high)
    }

    // Whether all of the numbers have these bits under a mask.
    fn all_meet(&self, mask: u64, datum: u64) -> bool {
        if self.least & mask != datum || self.greatest & mask != datum {
            return false;
        }
        for place in 0..64u32 {
            let bit = 1u64.wrapping_shl(place);
            if mask & bit != 0 && self.meets(bit, (datum ^ bit) & bit) {
                return false;
            }
        }
        true
    }

    /// Whether a condition holds of one of the numbers.
    pub(crate) fn may_meet(&self, cond: &Cond) -> bool {
        match cond.op {
            Op::Eq => self.contains(cond.value),
            Op::Ne => self.least != cond.value || self.greatest != cond.value,
            Op::Lt | Op::Le => cond.holds(self.least),
            Op::Ge | Op::Gt => cond.holds(self.greatest),
            Op::MaskedEq => self.meets(cond.value, cond.datum),
        }
    }

    /// Whether a condition holds of all the numbers.
    pub(crate) fn always_meets(&self, cond: &Cond) -> bool {
        match cond.op {
            Op::Eq => self.least == cond.value && self.greatest == cond.value,
            Op::Ne => !self.contains(cond.value),
            Op::Lt | Op::Le => cond.holds(self.greatest),
            Op::Ge | Op::Gt => cond.holds(self.least),
            Op::MaskedEq => self.all_meet(cond.value, cond.datum),
        }
    }
}
