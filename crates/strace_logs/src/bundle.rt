//! The text of a bundle that was made of logs.
use crate::calls::{Calls, Kept};
use crate::keeps::{Keep, WHOLE, low};
use crate::lists::Otherwise;
use crate::names::Names;
use crate::strace::machines_run;
use machines::Arch;
use std::alloc::{AllocError, Global};
use std::fmt::Write;

// Whether logs show a call of a machine.
fn is_shown(calls: &Calls, arch: Arch) -> bool {
    for call in &calls.seen {
        if call.arch == arch {
            return true;
        }
    }
    false
}

// Whether a machine is one of these.
fn is_among(machines: &[Arch], arch: Arch) -> bool {
    for machine in machines {
        if *machine == arch {
            return true;
        }
    }
    false
}

// Adds the machines of a bundle.
fn put_machines_of(
    machines: &mut Vec<Arch>,
    native: Arch,
    calls: &Calls,
    more: &[Arch],
) -> Result<(), AllocError> {
    for arch in machines_run(native) {
        if *arch == native || is_shown(calls, *arch) || is_among(more, *arch) {
            machines.push(*arch)?;
        }
    }
    Ok(())
}

/// The machines of a bundle: the native one, those whose calls logs show, and these.
pub(crate) fn machines_of(
    alloc: Global,
    native: Arch,
    calls: &Calls,
    more: &[Arch],
) -> Result<Vec<Arch>, AllocError> {
    let mut machines = Vec::new(alloc);
    put_machines_of(&mut machines, native, calls, more)?;
    Ok(machines)
}

// Adds a text in quotes, behind what stands before it.
fn put_text(text: &mut String, before: &str, item: &str) -> Result<(), AllocError> {
    text.push_str(before)?;
    text.push_str("\"")?;
    text.push_str(item)?;
    text.push_str("\"")
}

// Adds texts in quotes, with commas between them.
fn put_texts(text: &mut String, texts: &[&'static str]) -> Result<(), AllocError> {
    let mut before = "";
    for item in texts {
        put_text(text, before, item)?;
        before = ", ";
    }
    Ok(())
}

// Adds the names of machines in quotes, with commas between them.
fn put_machines(text: &mut String, machines: &[Arch]) -> Result<(), AllocError> {
    let mut before = "";
    for arch in machines {
        put_text(text, before, arch.scmp())?;
        before = ", ";
    }
    Ok(())
}

// Adds the condition that an argument is a value in so many of its lowest bits.
fn put_condition(text: &mut String, place: usize, bits: u32, value: u64) -> Result<(), AllocError> {
    if bits >= WHOLE {
        return write!(
            text,
            "{{\"index\": {place}, \"value\": {value}, \"op\": \"SCMP_CMP_EQ\"}}"
        );
    }
    let mask = low(u64::MAX, bits);
    write!(
        text,
        "{{\"index\": {place}, \"value\": {mask}, \"valueTwo\": {value}, \"op\": \"SCMP_CMP_MASKED_EQ\"}}"
    )
}

// Adds the conditions that arguments have these values.
fn put_conditions(text: &mut String, kept: &Kept) -> Result<(), AllocError> {
    let mut before = "";
    for place in 0..6usize {
        if kept.bits[place] > 0 {
            text.push_str(before)?;
            put_condition(text, place, kept.bits[place], kept.values[place])?;
            before = ", ";
        }
    }
    Ok(())
}

// Adds the entry of a call with these values.
fn put_kept(text: &mut String, keeps: &[Keep<'_>], kept: &Kept) -> Result<(), AllocError> {
    let Some(keep) = keeps.get(kept.keep) else {
        return Ok(());
    };
    text.push_str(",\n        {\"names\": [\"")?;
    text.push_str(keep.name)?;
    text.push_str("\"], \"action\": \"SCMP_ACT_ALLOW\", \"args\": [")?;
    put_conditions(text, kept)?;
    text.push_str("]}")
}

// Adds the entry of the calls that fail with ENOSYS, if there are some.
fn put_missing(text: &mut String, names: &Names) -> Result<(), AllocError> {
    if names.missing.is_empty() {
        return Ok(());
    }
    text.push_str(",\n        {\"names\": [")?;
    put_texts(text, &names.missing)?;
    text.push_str("], \"action\": \"SCMP_ACT_ERRNO\", \"errnoRet\": 38}")
}

// Adds the entries.
fn put_entries(
    text: &mut String,
    keeps: &[Keep<'_>],
    calls: &Calls,
    names: &Names,
) -> Result<(), AllocError> {
    text.push_str("        {\"names\": [")?;
    put_texts(text, &names.allowed)?;
    text.push_str("], \"action\": \"SCMP_ACT_ALLOW\"}")?;
    for kept in &calls.kept {
        put_kept(text, keeps, kept)?;
    }
    put_missing(text, names)
}

// Adds a bundle.
fn put_bundle(
    text: &mut String,
    machines: &[Arch],
    keeps: &[Keep<'_>],
    calls: &Calls,
    names: &Names,
    otherwise: Otherwise,
) -> Result<(), AllocError> {
    text.push_str("{\n  \"ociVersion\": \"1.0.2\",\n  \"linux\": {\n    \"seccomp\": {\n      ")?;
    text.push_str(otherwise.members())?;
    text.push_str(",\n      \"architectures\": [")?;
    put_machines(text, machines)?;
    text.push_str("],\n      \"syscalls\": [\n")?;
    put_entries(text, keeps, calls, names)?;
    text.push_str("\n      ]\n    }\n  }\n}\n")
}

/// The text of a bundle for these machines that allows these names and these calls.
pub(crate) fn bundle_of(
    alloc: Global,
    machines: &[Arch],
    keeps: &[Keep<'_>],
    calls: &Calls,
    names: &Names,
    otherwise: Otherwise,
) -> Result<String, AllocError> {
    let mut text = String::new(alloc);
    put_bundle(&mut text, machines, keeps, calls, names, otherwise)?;
    Ok(text)
}
