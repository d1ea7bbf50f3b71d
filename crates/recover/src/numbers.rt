//! Numbers of calls without a name that stand for all.
use crate::cells::Cell;
use crate::marks::{cells_of, marks_of};
use crate::survey::{Known, survey_of};
use crate::word_test::WordTest;
use crate::work::{Stopped, Work};
use call_tables::call_name;
use kernel_check::Accepted;
use machines::{Arch, Numbers};
use std::alloc::{AllocError, Global};

// How many numbers are tried until there is one without a name: a table has fewer names.
const MOST_TRIED: usize = 1024;

// How many steps it takes to look for a number's name.
const STEPS: usize = 16;

// The first number in a cell that has no name.
fn unnamed_in(work: &mut Work, arch: Arch, cell: Cell) -> Result<Option<u32>, Stopped> {
    let mut from = 0u32;
    for _ in 0..MOST_TRIED {
        work.spend(STEPS)?;
        let Some(number) = cell.least_from(from) else {
            return Ok(None);
        };
        if call_name(arch, number).is_none() {
            return Ok(Some(number));
        }
        from = number.saturating_add(1);
    }
    Ok(None)
}

/// Cells of the numbers of calls with a token, such that the filter compares all numbers of a cell alike. There is one cell of all if
/// these are too many.
pub(crate) fn number_cells(
    alloc: Global,
    work: &mut Work,
    program: &Accepted<'_>,
    token: u32,
) -> Result<Vec<Cell>, Stopped> {
    let known = Known {
        token: Some(token),
        number: None,
    };
    let found = survey_of(alloc, work, program, known)?;
    cells_or_all(alloc, work, &found.word_tests, 0)
}

/// The cells of a word, or one of all numbers if these are too many.
pub(crate) fn cells_or_all(
    alloc: Global,
    work: &mut Work,
    word_tests: &[WordTest],
    word: u8,
) -> Result<Vec<Cell>, Stopped> {
    let marks = marks_of(alloc, work, word_tests)?;
    match cells_of(alloc, work, &marks, word)? {
        Some(cells) => Ok(cells),
        None => {
            let mut all = Vec::new(alloc);
            all.push(Cell::ALL)?;
            Ok(all)
        }
    }
}

/// Adds a number without a name from each of these cells that has one among some numbers of a machine.
pub(crate) fn unnamed_within(
    work: &mut Work,
    arch: Arch,
    cells: &[Cell],
    own: Numbers,
    found: &mut Vec<u32>,
) -> Result<(), Stopped> {
    for cell in cells {
        if let Some(number) = unnamed_in(work, arch, cell.within(own.first, own.last))? {
            found.push(number)?;
        }
    }
    Ok(())
}

/// A number of a machine without a name from each of these cells that has one.
pub(crate) fn unnamed_of(
    alloc: Global,
    work: &mut Work,
    arch: Arch,
    cells: &[Cell],
) -> Result<Vec<u32>, Stopped> {
    let mut found = Vec::new(alloc);
    for own in arch.own_numbers() {
        unnamed_within(work, arch, cells, *own, &mut found)?;
    }
    Ok(found)
}

/// The numbers of a machine that have a name.
pub(crate) fn named_of(alloc: Global, arch: Arch) -> Result<Vec<u32>, AllocError> {
    let mut found = Vec::new(alloc);
    for numbers in arch.call_numbers() {
        for number in numbers.first..numbers.last.saturating_add(1) {
            if call_name(arch, number).is_some() {
                found.push(number)?;
            }
        }
    }
    Ok(found)
}
