//! What is told of logs, and of the bundle that was made of them.
use crate::calls::{Calls, Seen};
use crate::deeds::put_deeds;
use crate::keeps::Keep;
use crate::lists::Runtime;
use crate::names::Names;
use call_tables::call_number;
use machines::Arch;
use std::alloc::AllocError;
use std::fmt::Write;

// Adds a word behind a space.
fn put_word(text: &mut String, word: &str) -> Result<(), AllocError> {
    text.push_str(" ")?;
    text.push_str(word)
}

// Adds names behind what they are, if there are some.
fn put_names(text: &mut String, what: &str, names: &[&'static str]) -> Result<(), AllocError> {
    if names.is_empty() {
        return Ok(());
    }
    text.push_str(what)?;
    for name in names {
        put_word(text, name)?;
    }
    text.push_str("\n")
}

// Whether one of these is of a call's number on its machine.
fn is_there(calls: &[Seen], call: &Seen) -> bool {
    for other in calls {
        if other.arch == call.arch && other.nr == call.nr {
            return true;
        }
    }
    false
}

// How many different calls logs show.
fn call_count(calls: &Calls) -> usize {
    let mut count = 0usize;
    for (place, call) in calls.seen.as_slice().iter().enumerate() {
        let before = calls.seen.get(..place).unwrap_or(&[]);
        if !is_there(before, call) {
            count = count.saturating_add(1);
        }
    }
    count
}

// Adds how many records and calls logs show, and of which machines.
fn put_count(text: &mut String, machines: &[Arch], calls: &Calls) -> Result<(), AllocError> {
    let records = calls.records;
    let count = call_count(calls);
    write!(text, "{records} records of {count} calls, for")?;
    for arch in machines {
        put_word(text, arch.machine_name())?;
    }
    text.push_str("\n")
}

// How many values are kept of a call.
fn value_count(calls: &Calls, keep: usize) -> usize {
    let mut count = 0usize;
    for kept in &calls.kept {
        if kept.keep == keep {
            count = count.saturating_add(1);
        }
    }
    count
}

// Whether logs show a call that lacks an argument of which the values are kept.
fn is_loose(calls: &Calls, keep: &Keep<'_>) -> bool {
    for call in &calls.seen {
        if call.is_whole() && call_number(call.arch, keep.name) == Some(call.nr) {
            return true;
        }
    }
    false
}

// Adds how many values are kept of each call.
fn put_keeps(text: &mut String, keeps: &[Keep<'_>], calls: &Calls) -> Result<(), AllocError> {
    for (place, keep) in keeps.iter().enumerate() {
        let name = keep.name;
        let count = value_count(calls, place);
        if is_loose(calls, keep) {
            writeln!(
                text,
                "{name} lacks an argument that is kept, so it is allowed whatever its arguments"
            )?;
        } else {
            writeln!(
                text,
                "{name}: the logs have {count} sets of values, which are allowed"
            )?;
        }
    }
    Ok(())
}

// Adds the names that are added for what a runtime calls itself, if there are some.
fn put_runtime(
    text: &mut String,
    runtime: Option<Runtime>,
    names: &Names,
) -> Result<(), AllocError> {
    let Some(runtime) = runtime else {
        return Ok(());
    };
    if names.of_runtime.is_empty() {
        return Ok(());
    }
    text.push_str(runtime.name())?;
    text.push_str(" itself calls behind the load:")?;
    put_names(text, "", &names.of_runtime)
}

// Adds the names that are added for other reasons, each list behind its own.
fn put_added(text: &mut String, names: &Names) -> Result<(), AllocError> {
    put_names(text, "process 1 of --init calls:", &names.of_first)?;
    put_names(
        text,
        "makes threads with another C library:",
        &names.threads,
    )?;
    put_names(text, "needed, and not in the logs:", &names.needed)?;
    put_names(
        text,
        "fails with ENOSYS unless a group or the bundle of from allows it, so that programs fall back:",
        &names.missing,
    )
}

/// Adds what is in a bundle that was made of logs, and why.
pub(crate) fn put_learned(
    text: &mut String,
    machines: &[Arch],
    keeps: &[Keep<'_>],
    calls: &Calls,
    names: &Names,
    runtime: Option<Runtime>,
) -> Result<(), AllocError> {
    put_count(text, machines, calls)?;
    put_keeps(text, keeps, calls)?;
    put_runtime(text, runtime, names)?;
    put_added(text, names)?;
    put_deeds(text, &calls.deeds)
}
