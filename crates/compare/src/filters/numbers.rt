//! Numbers of calls that two filters may tell apart.

use bpf_insn::{MAX_INSNS, Operand, Operation};
use kernel_check::Accepted;
use machines::{Arch, Numbers};
use std::alloc::{AllocError, Global};

// The most numbers with which filters compare that are tried.
const MOST_COMPARED: usize = 4096;

// Adds a number with which a filter compares, and those beside it.
fn add_beside(number: u32, numbers: &mut Vec<u32>) -> Result<(), AllocError> {
    numbers.push(number)?;
    numbers.push(number.wrapping_add(1))?;
    numbers.push(number.wrapping_sub(1))?;
    Ok(())
}

// Adds the numbers with which a filter compares.
fn add_compared(filter: &Accepted<'_>, numbers: &mut Vec<u32>) -> Result<(), AllocError> {
    for pc in 0..MAX_INSNS {
        if let Some(insn) = filter.insn_at(pc as u16) {
            if let Some(Operation::Branch(_, Operand::K)) = insn.operation() {
                add_beside(insn.k, numbers)?;
            }
        }
    }
    Ok(())
}

// Adds the numbers with which two filters compare, and those beside them, the lowest first, up to so many.
fn add_all_compared(
    alloc: Global,
    old: &Accepted<'_>,
    new: &Accepted<'_>,
    numbers: &mut Vec<u32>,
) -> Result<(), AllocError> {
    let mut compared = Vec::new(alloc);
    add_compared(old, &mut compared)?;
    add_compared(new, &mut compared)?;
    compared.sort_unstable();
    compared.dedup();
    compared.truncate(MOST_COMPARED);
    numbers.append(&mut compared)
}

// Adds the numbers of a range.
fn add_range(range: &Numbers, numbers: &mut Vec<u32>) -> Result<(), AllocError> {
    for number in range.first..range.last {
        numbers.push(number)?;
    }
    numbers.push(range.last)?;
    Ok(())
}

// Adds the numbers of a machine's calls.
fn add_calls(machine: Arch, numbers: &mut Vec<u32>) -> Result<(), AllocError> {
    for range in machine.call_numbers() {
        add_range(range, numbers)?;
    }
    Ok(())
}

/// The numbers of the calls of machines, and those beside the numbers with which two filters compare: in order, each once.
pub(crate) fn numbers_of(
    alloc: Global,
    machines: &[Arch],
    old: &Accepted<'_>,
    new: &Accepted<'_>,
) -> Result<Vec<u32>, AllocError> {
    let mut numbers = Vec::new(alloc);
    for machine in machines {
        add_calls(*machine, &mut numbers)?;
    }
    add_all_compared(alloc, old, new, &mut numbers)?;
    numbers.sort_unstable();
    numbers.dedup();
    Ok(numbers)
}
