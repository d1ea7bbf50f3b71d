//! Which calls are compared first.
use call_tables::call_name;
use differ::Call;
use machines::{Arch, Family};
use std::alloc::{AllocError, Global};

// So many numbers behind the first one that a call may have, no call has one.
const NUMBERS: u32 = 1024;

// A number of a machine's own that no call has.
fn number_without_call(arch: Arch) -> u32 {
    match arch.call_numbers().first() {
        Some(numbers) => numbers.first.saturating_add(NUMBERS),
        None => NUMBERS,
    }
}

// Adds the calls of a machine's table.
fn add_calls(arch: Arch, calls: &mut Vec<Call>) -> Result<(), AllocError> {
    let token = arch.token();
    for numbers in arch.call_numbers() {
        for nr in numbers.first..numbers.last.saturating_add(1) {
            if call_name(arch, nr).is_some() {
                calls.push(Call { token, nr })?;
            }
        }
    }
    Ok(())
}

/// The calls of a family's tables, by machine and number, and after them a number without a call for each machine.
pub(crate) fn calls(alloc: Global, family: Family) -> Result<Vec<Call>, AllocError> {
    let mut calls = Vec::new(alloc);
    for arch in family.machines() {
        add_calls(*arch, &mut calls)?;
    }
    for arch in family.machines() {
        calls.push(Call {
            token: arch.token(),
            nr: number_without_call(*arch),
        })?;
    }
    Ok(calls)
}
