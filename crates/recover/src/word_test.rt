//! Comparisons that a filter makes with a word of the record.
use crate::cells::{Cell, push_others, push_under, push_unlike, push_within};
use bpf_insn::Test;
use std::alloc::AllocError;

/// A comparison of a word of the record, under a mask, with a number.
#[derive(Clone, Copy, Debug, PartialEq, Eq)]
pub(crate) struct WordTest {
    pub(crate) word: u8,
    pub(crate) mask: u32,
    pub(crate) test: Test,
    pub(crate) number: u32,
}

impl WordTest {
    /// How it comes out.
    pub(crate) fn holds(&self, number: u32) -> bool {
        self.test.holds(number & self.mask, self.number)
    }

    // The bits of the number that no word has under the mask.
    fn stray(&self) -> u32 {
        self.number & !self.mask
    }

    // The bits of the mask that tell which of two is greater: those above all that no word has.
    fn deciding_bits(&self) -> u32 {
        let stray = self.stray();
        if stray == 0 {
            return self.mask;
        }
        let below = stray.leading_zeros();
        self.mask & !(u32::MAX.wrapping_shr(below))
    }

    // Adds the numbers of a cell that are greater under the mask, or else those that are less.
    fn push_side(
        &self,
        found: &mut Vec<Cell>,
        cell: Cell,
        is_greater: bool,
    ) -> Result<(), AllocError> {
        push_unlike(
            found,
            cell,
            self.deciding_bits(),
            self.number,
            Some(is_greater),
        )
    }

    // Adds the numbers of a cell that are not told to be greater or less by single bits.
    fn push_like(&self, found: &mut Vec<Cell>, cell: Cell) -> Result<(), AllocError> {
        push_under(found, cell, self.deciding_bits(), self.number)
    }

    // Adds the numbers of a cell of which the comparison of a whole word holds.
    fn push_range(&self, found: &mut Vec<Cell>, cell: Cell) -> Result<(), AllocError> {
        let number = self.number;
        match self.test {
            Test::Equal | Test::AnyBit => { push_within(found, cell, Some(number), Some(number)) }
            Test::Greater => push_within(found, cell, number.checked_add(1), Some(u32::MAX)),
            Test::AtLeast => push_within(found, cell, Some(number), Some(u32::MAX)),
        }
    }

    // Adds those of which it does not.
    fn push_other_range(&self, found: &mut Vec<Cell>, cell: Cell) -> Result<(), AllocError> {
        let number = self.number;
        match self.test {
            Test::Equal | Test::AnyBit => {
                push_within(found, cell, Some(0), number.checked_sub(1))?;
                push_within(found, cell, number.checked_add(1), Some(u32::MAX))
            }
            Test::Greater => push_within(found, cell, Some(0), Some(number)),
            Test::AtLeast => push_within(found, cell, Some(0), number.checked_sub(1)),
        }
    }

    // Whether it compares a whole word by order, or with one number.
    fn is_whole(&self) -> bool {
        match self.test {
            Test::AnyBit => false,
            Test::Equal | Test::Greater | Test::AtLeast => self.mask == u32::MAX,
        }
    }

    // Adds the numbers of a cell of which the comparison under a mask holds.
    fn push_masked(&self, found: &mut Vec<Cell>, cell: Cell) -> Result<(), AllocError> {
        match self.test {
            Test::AnyBit => push_others(found, cell, self.mask & self.number, 0),
            Test::Equal if self.stray() != 0 => Ok(()),
            Test::Equal => push_under(found, cell, self.mask, self.number),
            Test::AtLeast if self.stray() == 0 => {
                self.push_side(found, cell, true)?;
                self.push_like(found, cell)
            }
            Test::Greater | Test::AtLeast => self.push_side(found, cell, true),
        }
    }

    // Adds those of which it does not.
    fn push_other_masked(&self, found: &mut Vec<Cell>, cell: Cell) -> Result<(), AllocError> {
        match self.test {
            Test::AnyBit => push_under(found, cell, self.mask & self.number, 0),
            Test::Equal if self.stray() != 0 => push_under(found, cell, 0, 0),
            Test::Equal => push_others(found, cell, self.mask, self.number),
            Test::AtLeast if self.stray() == 0 => self.push_side(found, cell, false),
            Test::Greater | Test::AtLeast => {
                self.push_side(found, cell, false)?;
                self.push_like(found, cell)
            }
        }
    }

    /// Adds the numbers of a cell of which it holds.
    pub(crate) fn push_taken(&self, found: &mut Vec<Cell>, cell: Cell) -> Result<(), AllocError> {
        if self.is_whole() {
            self.push_range(found, cell)
        } else {
            self.push_masked(found, cell)
        }
    }

    /// Adds the numbers of a cell of which it does not hold.
    pub(crate) fn push_other(&self, found: &mut Vec<Cell>, cell: Cell) -> Result<(), AllocError> {
        if self.is_whole() {
            self.push_other_range(found, cell)
        } else {
            self.push_other_masked(found, cell)
        }
    }
}
