//! Which machines seem to be listed.
use bpf_interp::verdict;
use call_record::{Record, Word};
use kernel_check::Accepted;
use machines::Arch;
use std::alloc::{AllocError, Global};

// Whether a call with this in each argument is allowed.
fn allows(program: &Accepted<'_>, token: u32, number: u32, argument: u64) -> bool {
    let call = Record {
        nr: number,
        arch: token,
        ip: 0,
        args: [argument; 6],
    };
    verdict(program, &call) == Word::ALLOW
}

// Whether a number is allowed, as far as it can be seen.
fn is_allowed(program: &Accepted<'_>, token: u32, number: u32) -> bool {
    allows(program, token, number, 0) && allows(program, token, number, u64::MAX)
}

// Whether each call of a machine is.
fn are_allowed(program: &Accepted<'_>, arch: Arch) -> bool {
    for numbers in arch.call_numbers() {
        for number in numbers.first..numbers.last.saturating_add(1) {
            if !is_allowed(program, arch.token(), number) {
                return false;
            }
        }
    }
    true
}

/// The native machine, and each of which some calls seem not to be allowed.
pub(crate) fn machines_of(
    alloc: Global,
    program: &Accepted<'_>,
    native: Arch,
) -> Result<Vec<Arch>, AllocError> {
    let mut found = Vec::new(alloc);
    for arch in native.family().machines() {
        if *arch == native || !are_allowed(program, *arch) {
            found.push(*arch)?;
        }
    }
    Ok(found)
}
