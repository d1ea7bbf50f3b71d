//! The line that tells what no section says.
use crate::unsaid::{Shown, Unsaid};
use call_record::Record;
use call_tables::call_name;
use machines::Arch;
use std::alloc::{AllocError, Global};
use std::fmt::Write;
use wording::{ActionText, machine_with};

// Adds the machine of a call, and the call.
fn put_call(text: &mut String, native: Arch, call: &Record) -> Result<(), AllocError> {
    let Record {
        nr,
        arch: token,
        ..
    } = *call;
    let Some(arch) = machine_with(native.family(), token, nr) else {
        return write!(text, "0x{token:x} {nr}");
    };
    let machine = arch.machine_name();
    match call_name(arch, nr) {
        Some(name) => write!(text, "{machine} {name}"),
        None => write!(text, "{machine} {nr}"),
    }
}

// How many arguments there are but for the last ones that are 0.
fn told_arguments(args: &[u64]) -> usize {
    let mut count = 0usize;
    for (place, arg) in args.iter().enumerate() {
        if *arg != 0 {
            count = place.saturating_add(1);
        }
    }
    count
}

// Adds a call with its arguments, and the verdict that the filter gives it.
fn put_shown(text: &mut String, native: Arch, shown: &Shown) -> Result<(), AllocError> {
    let call = &shown.call;
    put_call(text, native, call)?;
    for arg in call.args.iter().take(told_arguments(&call.args)) {
        write!(text, " 0x{arg:x}")?;
    }
    if call.ip != 0 {
        let ip = call.ip;
        write!(text, " at 0x{ip:x}")?;
    }
    let action = ActionText(shown.given);
    write!(text, " gets {action}")
}

// Adds what no section says, and a call that shows it.
fn put_one(text: &mut String, native: Arch, what: &str, one: &Shown) -> Result<(), AllocError> {
    text.push_str("no section says this filter: ")?;
    text.push_str(what)?;
    text.push_str(": ")?;
    put_shown(text, native, one)
}

// Adds what no section says, and two calls that show it.
fn put_two(
    text: &mut String,
    native: Arch,
    what: &str,
    (one, other): (&Shown, &Shown),
) -> Result<(), AllocError> {
    put_one(text, native, what, one)?;
    text.push_str(", and ")?;
    put_shown(text, native, other)
}

const OTHER: &str = "a machine that none lists gets another action than KILL_THREAD";

const NO_ACTION: &str = "the verdict is no action, or has data that it cannot have";

const UNNAMED: &str = "unlike actions for calls without a name";

const POINTER: &str = "the action depends on where the call is made";

const HIGH_HALF: &str = "the action depends on the upper half of an argument of 32 bits";

const MACHINES: &str = "unlike actions for one name on two machines";

const CONDITIONS: &str = "no conditions were found that tell the arguments of a call apart";

const UNFOLLOWED: &str = "the filter computes what is not followed";

// Adds the line of what two calls show, or one.
fn put_reason(text: &mut String, native: Arch, unsaid: &Unsaid) -> Result<(), AllocError> {
    match unsaid {
        Unsaid::OtherMachine(one) => put_one(text, native, OTHER, one),
        Unsaid::NoAction(one) => put_one(text, native, NO_ACTION, one),
        Unsaid::Conditions(one) => put_one(text, native, CONDITIONS, one),
        Unsaid::Unfollowed(one) => put_one(text, native, UNFOLLOWED, one),
        Unsaid::Unnamed(one, other) => put_two(text, native, UNNAMED, (one, other)),
        Unsaid::Pointer(one, other) => put_two(text, native, POINTER, (one, other)),
        Unsaid::HighHalf(one, other) => put_two(text, native, HIGH_HALF, (one, other)),
        Unsaid::UnlikeMachines(one, other) => put_two(text, native, MACHINES, (one, other)),
        _ => put_other(text, native, unsaid),
    }
}

// Adds the line of what is told by no call, or by one that was found where what was written was judged.
fn put_other(text: &mut String, native: Arch, unsaid: &Unsaid) -> Result<(), AllocError> {
    match unsaid {
        Unsaid::View(fault) => write!(text, "refused view {fault}"),
        Unsaid::Kernel(refused) => write!(text, "refused kernel {refused}"),
        Unsaid::Unlike(found) => {
            let one = Shown {
                call: found.call,
                given: found.given,
            };
            text.push_str("no section was found: what was written says another action: ")?;
            put_shown(text, native, &one)
        }
        Unsaid::Undecided(make_error) => write!(text, "no section was found: {make_error}"),
        _ => text.push_str("no section was found: there are too many comparisons, or entries"),
    }
}

/// The line that tells what no section says of a filter, for a native machine. Want of memory is no such reason, and an error here.
pub fn line_of(alloc: Global, native: Arch, unsaid: &Unsaid) -> Result<String, AllocError> {
    if let Unsaid::OutOfMemory = unsaid {
        return Err(AllocError);
    }
    let mut text = String::new(alloc);
    put_reason(&mut text, native, unsaid)?;
    text.push_str("\n")?;
    Ok(text)
}
