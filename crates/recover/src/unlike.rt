//! Two calls of one name on two machines that get unlike verdicts.
use crate::calls::{record_with, show};
use crate::leaves::{Called, Leaf};
use crate::pieces::Piece;
use crate::unsaid::Shown;
use crate::work::{Stopped, Work};
use kernel_check::Accepted;
use std::alloc::Global;

// How many choices of arguments are tried.
const MOST: usize = 1 << 16;

// Adds a number that is not there yet.
fn push_new(work: &mut Work, numbers: &mut Vec<u64>, number: u64) -> Result<(), Stopped> {
    work.spend(numbers.len())?;
    if !numbers.iter().any(|other| *other == number) {
        numbers.push(number)?;
    }
    Ok(())
}

// Adds the least and the greatest number of an argument in each leaf.
fn push_numbers(
    work: &mut Work,
    numbers: &mut Vec<u64>,
    leaves: &[Leaf],
    index: u8,
) -> Result<(), Stopped> {
    for leaf in leaves {
        let piece = Piece::of_leaf(leaf, index);
        push_new(work, numbers, piece.least)?;
        push_new(work, numbers, piece.greatest)?;
    }
    Ok(())
}

// Numbers for each argument, the greatest one that may be, if it is to be cut.
fn numbers_of(
    alloc: Global,
    work: &mut Work,
    some: &[Leaf],
    others: &[Leaf],
    greatest: u64,
) -> Result<Vec<Vec<u64>>, Stopped> {
    let mut all = Vec::new(alloc);
    for index in 0..6u8 {
        let mut found = Vec::new(alloc);
        push_numbers(work, &mut found, some, index)?;
        push_numbers(work, &mut found, others, index)?;
        let mut numbers = Vec::new(alloc);
        for number in &found {
            push_new(work, &mut numbers, *number & greatest)?;
        }
        all.push(numbers)?;
    }
    Ok(all)
}

// The arguments of a choice.
fn args_at(numbers: &[Vec<u64>], choice: usize) -> [u64; 6] {
    let mut args = [0u64; 6];
    let mut left = choice;
    for index in 0..6usize {
        if let Some(own) = numbers.get(index)
            && let Some(arg) = args.get_mut(index)
        {
            let digit = left.checked_rem(own.len()).unwrap_or(0);
            left = left.checked_div(own.len()).unwrap_or(left);
            *arg = own.get(digit).copied().unwrap_or(0);
        }
    }
    args
}

// How many choices are tried.
fn choices(numbers: &[Vec<u64>]) -> usize {
    let mut count = 1usize;
    for own in numbers {
        count = count.saturating_mul(own.len());
    }
    if count < MOST { count } else { MOST }
}

/// A call of one machine or two, and the ways of its records through the filter.
#[derive(Clone, Copy)]
pub(crate) struct Side<'a> {
    pub(crate) call: Called,
    pub(crate) leaves: &'a [Leaf],
}

/// Two calls with one list of arguments, none above the greatest, and unlike verdicts. The arguments are numbers that
/// the filter tells apart.
pub(crate) fn unlike(
    alloc: Global,
    work: &mut Work,
    program: &Accepted<'_>,
    (one, other): (Side<'_>, Side<'_>),
    greatest: u64,
) -> Result<Option<(Shown, Shown)>, Stopped> {
    let numbers = numbers_of(alloc, work, one.leaves, other.leaves, greatest)?;
    let steps = program.program().len();
    for choice in 0..choices(&numbers) {
        work.spend(steps)?;
        let args = args_at(&numbers, choice);
        let first = show(program, record_with(one.call, args));
        let second = show(program, record_with(other.call, args));
        if first.given != second.given {
            return Ok(Some((first, second)));
        }
    }
    Ok(None)
}
