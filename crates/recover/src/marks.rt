//! Sets of numbers of a word that a filter tells from all others.
use crate::cells::{Cell, push_others, push_under, push_within};
use crate::word_test::WordTest;
use crate::work::{Stopped, Work};
use std::alloc::{AllocError, Global};

/// Numbers of a word that the filter tells from all others.
#[derive(Clone, Copy, PartialEq, Eq)]
pub(crate) struct Mark {
    pub(crate) word: u8,
    pub(crate) cell: Cell,
}

// How many cells there are at most.
const MOST: usize = 1 << 12;

/// Adds a mark that is not there yet.
pub(crate) fn push_mark(work: &mut Work, marks: &mut Vec<Mark>, mark: Mark) -> Result<(), Stopped> {
    work.spend(marks.len())?;
    if mark.cell != Cell::ALL && !marks.iter().any(|other| *other == mark) {
        marks.push(mark)?;
    }
    Ok(())
}

/// The marks of comparisons: of each the numbers of which it holds.
pub(crate) fn marks_of(
    alloc: Global,
    work: &mut Work,
    word_tests: &[WordTest],
) -> Result<Vec<Mark>, Stopped> {
    let mut marks = Vec::new(alloc);
    for one in word_tests {
        let mut cells = Vec::new(alloc);
        one.push_taken(&mut cells, Cell::ALL)?;
        for cell in &cells {
            let mark = Mark {
                word: one.word,
                cell: *cell,
            };
            push_mark(work, &mut marks, mark)?;
        }
    }
    Ok(marks)
}

/// The bits of a word that marks look at.
pub(crate) fn bits_of(marks: &[Mark], word: u8) -> u32 {
    let mut bits = 0u32;
    for mark in marks {
        if mark.word == word {
            bits |= mark.cell.mask;
            if mark.cell.first != 0 || mark.cell.last != u32::MAX {
                bits = u32::MAX;
            }
        }
    }
    bits
}

/// The bits of a word that marks compare under a mask.
pub(crate) fn masked_bits_of(marks: &[Mark], word: u8) -> u32 {
    let mut bits = 0u32;
    for mark in marks {
        if mark.word == word {
            bits |= mark.cell.mask;
        }
    }
    bits
}

// Adds the parts of a cell that a mark tells apart.
fn push_parts(found: &mut Vec<Cell>, cell: Cell, mark: Cell) -> Result<(), AllocError> {
    push_within(found, cell, Some(0), mark.first.checked_sub(1))?;
    push_within(found, cell, mark.last.checked_add(1), Some(u32::MAX))?;
    let inside = cell.within(mark.first, mark.last);
    push_others(found, inside, mark.mask, mark.datum)?;
    push_under(found, inside, mark.mask, mark.datum)
}

// How many steps it takes to cut a cell: one for each bit, and for what lies before it and behind it.
const STEPS: usize = 40;

// The parts of cells that a mark tells apart.
fn split(alloc: Global, work: &mut Work, cells: &[Cell], mark: Cell) -> Result<Vec<Cell>, Stopped> {
    work.spend(cells.len())?;
    let mut parts = Vec::new(alloc);
    for cell in cells {
        if cell.meets_cell(mark) {
            work.spend(STEPS)?;
            push_parts(&mut parts, *cell, mark)?;
        } else {
            parts.push(*cell)?;
        }
    }
    Ok(parts)
}

/// Cells of all numbers of a word, of which each lies in every mark or outside of it, if they are not too many.
pub(crate) fn cells_of(
    alloc: Global,
    work: &mut Work,
    marks: &[Mark],
    word: u8,
) -> Result<Option<Vec<Cell>>, Stopped> {
    let mut cells = Vec::new(alloc);
    cells.push(Cell::ALL)?;
    for mark in marks {
        if mark.word == word {
            cells = split(alloc, work, &cells, mark.cell)?;
            if cells.len() > MOST {
                return Ok(None);
            }
        }
    }
    Ok(Some(cells))
}

// The parts of cells by the highest bit in which a number is another than this one, and the number itself.
fn cut_at(alloc: Global, cells: &[Cell], number: u32) -> Result<Vec<Cell>, AllocError> {
    let mut parts = Vec::new(alloc);
    for cell in cells {
        push_others(&mut parts, *cell, u32::MAX, number)?;
        push_under(&mut parts, *cell, u32::MAX, number)?;
    }
    Ok(parts)
}

/// The parts of a cell of which each has the same bits under some mask, and all numbers that have.
pub(crate) fn blocks_of(alloc: Global, work: &mut Work, cell: Cell) -> Result<Vec<Cell>, Stopped> {
    let mut blocks = Vec::new(alloc);
    blocks.push(cell)?;
    if cell.first != 0 {
        work.spend(STEPS)?;
        blocks = cut_at(alloc, &blocks, cell.first)?;
    }
    if let Some(behind) = cell.last.checked_add(1) {
        work.spend_each(blocks.len(), STEPS)?;
        blocks = cut_at(alloc, &blocks, behind)?;
    }
    Ok(blocks)
}
