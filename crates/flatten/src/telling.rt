//! The line that tells why no filter is made of a stack.
use crate::unflat::Unflat;
use std::alloc::{AllocError, Global};
use std::fmt::Write;

// The number of the filter at a place, as it is told.
fn number(place: usize) -> usize {
    place.saturating_add(1)
}

/// The line that tells why no filter is made of a stack. Want of memory is no such reason, and an error here.
pub fn line_of(alloc: Global, why: &Unflat) -> Result<String, AllocError> {
    let mut text = String::new(alloc);
    match why {
        Unflat::Bytes(place, fault) => {
            let filter = number(*place);
            write!(text, "refused view {fault}, filter {filter}\n")?;
        }
        Unflat::Refused(place, refused) => {
            let filter = number(*place);
            write!(text, "refused kernel {refused}, filter {filter}\n")?;
        }
        Unflat::Unplain(place, at) => {
            let filter = number(*place);
            write!(
                text,
                "no filter is made: instruction {at} of filter {filter} writes a scratch word or returns A\n"
            )?;
        }
        Unflat::Made => text.push_str("no filter is made: it would be refused\n")?,
        Unflat::TooLong => {
            text.push_str("no filter is made: it would have more than 4096 instructions\n")?;
        }
        Unflat::OutOfMemory => return Err(AllocError),
    }
    Ok(text)
}
