//! The names of calls that are nearest to a name.
use call_tables::{call_name, call_number};
use machines::{Arch, Family};
use std::alloc::{AllocError, Global};
use std::fmt::Write;
use strsim::levenshtein;

// The most edits by which a name is near.
const FAR: usize = 3;

// How far the name of a machine's call is from a name: 3 edits are too far, as is a number without a call.
fn distance(alloc: Global, arch: Arch, number: u32, name: &str) -> Result<usize, AllocError> {
    match call_name(arch, number) {
        Some(other) => Ok(levenshtein(alloc, name, other)?.min(FAR)),
        None => Ok(FAR),
    }
}

// The least distance of a machine's names from a name.
fn least_distance(alloc: Global, arch: Arch, name: &str) -> Result<usize, AllocError> {
    let mut least = FAR;
    for numbers in arch.call_numbers() {
        for number in numbers.first..numbers.last.saturating_add(1) {
            least = least.min(distance(alloc, arch, number, name)?);
        }
    }
    Ok(least)
}

// Whether one of the machines has a call of the name.
fn is_told(machines: &[Arch], name: &str) -> bool {
    machines
        .iter()
        .any(|arch| call_number(*arch, name).is_some())
}

// Adds a machine's names at a distance from a name, but none that the machines before it have.
fn put_at(
    text: &mut String,
    alloc: Global,
    (arch, before): (Arch, &[Arch]),
    name: &str,
    least: usize,
) -> Result<(), AllocError> {
    for numbers in arch.call_numbers() {
        for number in numbers.first..numbers.last.saturating_add(1) {
            if distance(alloc, arch, number, name)? == least {
                let other = call_name(arch, number).unwrap_or("");
                if !is_told(before, other) {
                    write!(text, " {other}")?;
                }
            }
        }
    }
    Ok(())
}

/// Adds the names of calls of a family that are nearest to a name, by the number of edits, if some are near.
pub(crate) fn put_nearest(
    text: &mut String,
    alloc: Global,
    family: Family,
    name: &str,
) -> Result<(), AllocError> {
    let machines = family.machines();
    let mut least = FAR;
    for arch in machines {
        least = least.min(least_distance(alloc, *arch, name)?);
    }
    if least == FAR {
        return Ok(());
    }
    text.push_str("; nearest:")?;
    for (place, arch) in machines.iter().enumerate() {
        let before = machines.get(..place).unwrap_or(&[]);
        put_at(text, alloc, (*arch, before), name, least)?;
    }
    Ok(())
}
