//! The line that tells why no section is found.
use crate::unallowed::Unallowed;
use machines::Arch;
use recover::{Shown, Unsaid};
use std::alloc::{AllocError, Global};
use std::fmt::Write;

const KILLED: &str = "than KILL_THREAD: ";

const ALLOWED: &str = "than ALLOW: ";

// The line of a call that is not allowed. It is that of one that is not killed, but for the action that is wanted.
fn refused(alloc: Global, native: Arch, shown: Shown) -> Result<String, AllocError> {
    let line = recover::line_of(alloc, native, &Unsaid::OtherMachine(shown))?;
    let mut text = String::new(alloc);
    if let Some((head, behind)) = line.split_once(KILLED) {
        text.push_str(head)?;
        text.push_str(ALLOWED)?;
        text.push_str(behind)?;
    }
    Ok(text)
}

const LONG: &str = "no section was found: the filter has more than some 2000 instructions\n";

fn unplain(alloc: Global, at: usize) -> Result<String, AllocError> {
    let mut text = String::new(alloc);
    write!(
        text,
        "no section was found: instruction {at} writes a scratch word or returns A\n"
    )?;
    Ok(text)
}

/// The line that tells why no section is found, for a native machine. Want of memory is no such reason, and an error here.
pub fn line_of(alloc: Global, native: Arch, why: &Unallowed) -> Result<String, AllocError> {
    match why {
        Unallowed::Unsaid(unsaid) => recover::line_of(alloc, native, unsaid),
        Unallowed::Refused(shown) => refused(alloc, native, *shown),
        Unallowed::Unplain(at) => unplain(alloc, *at),
        Unallowed::TooLong => String::from_str(alloc, LONG),
    }
}
