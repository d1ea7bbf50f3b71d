//! The line that tells why bundles or filters are not combined.
use crate::uncombined::Uncombined;
use call_record::Record;
use call_tables::call_name;
use differ::Call;
use machines::Arch;
use profile_json::ProfileError;
use recover::Unsaid;
use std::alloc::{AllocError, Global};
use std::fmt::Write;
use together::Unlike;
use wording::{ActionText, machine_with};

// Adds the machine of a call, and the call.
fn put_call(text: &mut String, native: Arch, token: u32, nr: u32) -> Result<(), AllocError> {
    let Some(arch) = machine_with(native.family(), token, nr) else {
        return write!(text, "0x{token:x} {nr}");
    };
    let machine = arch.machine_name();
    match call_name(arch, nr) {
        Some(name) => write!(text, "{machine} {name}"),
        None => write!(text, "{machine} {nr}"),
    }
}

// Adds a call with its arguments.
fn put_record(text: &mut String, native: Arch, record: &Record) -> Result<(), AllocError> {
    put_call(text, native, record.arch, record.nr)?;
    for arg in &record.args {
        write!(text, " 0x{arg:x}")?;
    }
    Ok(())
}

// Adds how what was written says another verdict.
fn put_unlike(text: &mut String, native: Arch, found: &Unlike) -> Result<(), AllocError> {
    text.push_str("no section was found: what was written says another action: ")?;
    put_record(text, native, &found.call)?;
    let given = ActionText(found.given);
    let wanted = ActionText(found.wanted);
    write!(text, " gets {given} in place of {wanted}\n")
}

// Adds the call that is asked too much.
fn put_crowded(text: &mut String, native: Arch, call: &Call) -> Result<(), AllocError> {
    text.push_str("no section was found: too much is asked of the arguments of ")?;
    put_call(text, native, call.token, call.nr)?;
    text.push_str("\n")
}

// The words of `recover` for a filter that no section says.
const THIS_FILTER: &str = "no section says this filter: ";

// The words for bundles that no section says together.
const THESE: &str = "no section says what these say together: ";

// Adds why no section says what they say together.
fn put_unsaid(
    alloc: Global,
    text: &mut String,
    native: Arch,
    unsaid: &Unsaid,
) -> Result<(), AllocError> {
    let line = recover::line_of(alloc, native, unsaid)?;
    match line.strip_prefix(THIS_FILTER) {
        Some(reason) => {
            text.push_str(THESE)?;
            text.push_str(reason)
        }
        None => text.push_str(&line),
    }
}

// Adds why no section says the filter at a place.
fn put_filter(
    alloc: Global,
    text: &mut String,
    native: Arch,
    place: usize,
    unsaid: &Unsaid,
) -> Result<(), AllocError> {
    let number = place.saturating_add(1);
    write!(text, "filter {number}: ")?;
    text.push_str(&recover::line_of(alloc, native, unsaid)?)
}

// Adds why the bundle at a place is refused.
fn put_refused(text: &mut String, place: usize, error: ProfileError) -> Result<(), AllocError> {
    let number = place.saturating_add(1);
    write!(text, "refused profile {error}, bundle {number}\n")
}

/// The line that tells why bundles or filters are not combined, for a native machine. Want of memory is no such reason, and an error here.
pub fn line_of(alloc: Global, native: Arch, why: &Uncombined) -> Result<String, AllocError> {
    let mut text = String::new(alloc);
    match why {
        Uncombined::Nothing => text.push_str("nothing is given\n")?,
        Uncombined::Refused(place, error) => put_refused(&mut text, *place, *error)?,
        Uncombined::Filter(place, unsaid) => {
            put_filter(alloc, &mut text, native, *place, unsaid)?;
        }
        Uncombined::Together(unsaid) => put_unsaid(alloc, &mut text, native, unsaid)?,
        Uncombined::Unread(error) => {
            write!(
                text,
                "no section was found: what was written is refused: {error}\n"
            )?;
        }
        Uncombined::Unlike(found) => put_unlike(&mut text, native, found)?,
        Uncombined::Crowded(call) => put_crowded(&mut text, native, call)?,
        Uncombined::TooLong => {
            text.push_str("no section was found: a filter would be too long\n")?;
        }
        Uncombined::OutOfMemory => return Err(AllocError),
    }
    Ok(text)
}
