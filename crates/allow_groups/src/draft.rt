//! What is written before it is judged: the bundle's own lines, with the names taken out of its entries, behind an entry that allows them.
use std::alloc::{AllocError, Global};

// What stands before the entries of a bundle that is written here, and what an entry begins with.
const ENTRIES: &str = "\"syscalls\": [";

const NAMES: &str = "{\"names\": [";

// Whether a name is one of these.
fn is_in(names: &[&'static str], name: &str) -> bool {
    for other in names {
        if *other == name {
            return true;
        }
    }
    false
}

// The name in quotes.
fn name_in(quoted: &str) -> Option<&str> {
    let part = quoted.strip_prefix(" ").unwrap_or(quoted);
    part.strip_prefix("\"")?.strip_suffix("\"")
}

// Adds a name in quotes behind others.
fn put_name(text: &mut String, name: &str) -> Result<(), AllocError> {
    if !text.is_empty() {
        text.push_str(", ")?;
    }
    text.push_str("\"")?;
    text.push_str(name)?;
    text.push_str("\"")
}

// The names of an entry but for these.
fn others_in(alloc: Global, names: &[&'static str], listed: &str) -> Result<String, AllocError> {
    let mut text = String::new(alloc);
    for part in listed.split(',') {
        if let Some(name) = name_in(part) {
            if !is_in(names, name) {
                put_name(&mut text, name)?;
            }
        }
    }
    Ok(text)
}

// Adds an entry with its other names, unless it has none.
fn put_entry(
    alloc: Global,
    text: &mut String,
    names: &[&'static str],
    entry: &str,
) -> Result<(), AllocError> {
    let Some((listed, behind)) = entry.split_once("]") else {
        return Ok(());
    };
    let others = others_in(alloc, names, listed)?;
    if others.is_empty() {
        return Ok(());
    }
    text.push_str(",\n        ")?;
    text.push_str(NAMES)?;
    text.push_str(&others)?;
    text.push_str("]")?;
    text.push_str(behind.strip_suffix(",").unwrap_or(behind))
}

// Adds a line behind the entry that allows the names.
fn put_line(
    alloc: Global,
    text: &mut String,
    names: &[&'static str],
    line: &str,
) -> Result<(), AllocError> {
    if line.is_empty() {
        return Ok(());
    }
    let inner = line.strip_prefix("        ").unwrap_or(line);
    match inner.strip_prefix(NAMES) {
        Some(entry) => put_entry(alloc, text, names, entry),
        None => {
            text.push_str("\n")?;
            text.push_str(line)
        }
    }
}

// The names in quotes, each once.
fn each_once(alloc: Global, names: &[&'static str]) -> Result<String, AllocError> {
    let mut seen = crate::lists::no_names(alloc);
    let mut text = String::new(alloc);
    for name in names {
        if !is_in(&seen, name) {
            seen.push(*name)?;
            put_name(&mut text, name)?;
        }
    }
    Ok(text)
}

// Adds the entry that allows names.
fn put_allowed(alloc: Global, text: &mut String, names: &[&'static str]) -> Result<(), AllocError> {
    let listed = each_once(alloc, names)?;
    text.push_str("\n        ")?;
    text.push_str(NAMES)?;
    text.push_str(&listed)?;
    text.push_str("], \"action\": \"SCMP_ACT_ALLOW\"}")
}

// Adds the bundle of these parts.
fn put_bundle(
    alloc: Global,
    text: &mut String,
    names: &[&'static str],
    head: &str,
    rest: &str,
) -> Result<(), AllocError> {
    text.push_str(head)?;
    text.push_str(ENTRIES)?;
    put_allowed(alloc, text, names)?;
    for line in rest.lines() {
        put_line(alloc, text, names, line)?;
    }
    text.push_str("\n")
}

/// A bundle that seems to say what another one says, but for the calls of these names, which it allows.
pub(crate) fn drafted(
    alloc: Global,
    bundle: &str,
    names: &[&'static str],
) -> Result<String, AllocError> {
    let mut text = String::new(alloc);
    match bundle.split_once(ENTRIES) {
        Some((head, rest)) if !names.is_empty() => {
            put_bundle(alloc, &mut text, names, head, rest)?;
        }
        _ => text.push_str(bundle)?,
    }
    Ok(text)
}
