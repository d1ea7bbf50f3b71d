//! Members of a bundle that are not read.
ghost use Rattle.std.specs.Prelude.{◌≡◌, ◌++◌, IfOk, map, string_bytes};
ghost use Rattle.std.specs.List.{list_any};
ghost use Rattle.std.specs.Str.{bytes_eq};
ghost use Rattle.json.specs.Value.{value_view};
ghost use Rattle.section.specs.Members as members;
ghost use Rattle.section.specs.Unread as spec;

use json::{Error, Scratch, Value};
use machines::{Arch, Family};
use std::alloc::{AllocError, Global};

/// The keys of a section that are read.
pub const SECTION_KEYS: &[&str] = &[
    "defaultAction",
    "defaultErrnoRet",
    "architectures",
    "flags",
    "listenerPath",
    "listenerMetadata",
    "syscalls",
];

// The keys of a section that are read, and the key that tells of other machines.
const TOLD_KEYS: &[&str] = &[
    "defaultAction",
    "defaultErrnoRet",
    "architectures",
    "flags",
    "listenerPath",
    "listenerMetadata",
    "syscalls",
    "x-ccell-otherMachines",
];

/// Those of an entry.
pub const ENTRY_KEYS: &[&str] = &["names", "action", "errnoRet", "args"];

/// Those of a member of `args`.
pub const ARGUMENT_KEYS: &[&str] = &["index", "value", "valueTwo", "op"];

fn is_remark(key: &str) -> bool
    ensures { result ≡ spec.is_remark key.now }
{
    key == "comment" || key == "$schema"
}

fn is_one_of(known: &[&str], key: &str) -> bool
    ensures { result ≡ list_any (λ other. bytes_eq other.now key.now) known.now }
{
    known.iter().any(|other| *other == key)
}

// Whether a key is read, or that of a remark.
fn is_known(known: &[&str], key: &str) -> bool
    ensures { result ≡ spec.is_known (map (λ k. k.now) known.now) key.now }
{
    is_one_of(known, key) || is_remark(key)
}

fn shown_byte(byte: u8) -> u8
    ensures { result ≡ spec.shown_byte byte }
{
    if byte > 32 && byte < 127 { byte } else { b'?' }
}

/// Adds a key, in visible characters.
pub(crate) fn put_shown(lines: &mut Vec<u8>, key: &[u8]) -> Result<(), AllocError>
    ensures { IfOk result (λ _. lines.new.items ≡ lines.old.items ++ spec.shown key.now) }
{
    for byte in key {
        lines.push(shown_byte(*byte))?;
    }
    Ok(())
}

/// Adds the line of a member, by the place of its object and its key.
pub(crate) fn put_line(
    lines: &mut Vec<u8>,
    place: &str,
    key: &str,
    what: &str,
) -> Result<(), AllocError>
    ensures { IfOk result (λ _. lines.new.items ≡ lines.old.items ++ spec.line place.now key.now what.now) }
{
    lines.extend_from_slice(place.as_bytes())?;
    put_shown(lines, key.as_bytes())?;
    lines.extend_from_slice(what.as_bytes())?;
    Ok(())
}

const NOT_READ: &str = ": is not read\n";

// Adds the line of a key, unless it is read.
fn put_if_unread(
    lines: &mut Vec<u8>,
    place: &str,
    known: &[&str],
    key: &str,
) -> Result<(), AllocError>
    ensures { IfOk result (λ _. lines.new.items
        ≡ lines.old.items ++ spec.unread_line (map (λ k. k.now) known.now) place.now key.now) }
{
    if is_known(known, key) {
        return Ok(());
    }
    put_line(lines, place, key, NOT_READ)
}

// Adds the lines of the keys of an object that are not read.
fn put_unread(
    lines: &mut Vec<u8>,
    place: &str,
    known: &[&str],
    members: &[(&str, Value<'_>)],
) -> Result<(), AllocError>
    ensures { IfOk result (λ _. lines.new.items
        ≡ lines.old.items ++ spec.unread_lines (map (λ k. k.now) known.now) place.now (map (λ m. m.0.now) members.now)) }
{
    for member in members {
        put_if_unread(lines, place, known, member.0)?;
    }
    Ok(())
}

/// The members of an object.
pub(crate) fn members_of<'v, 'a>(value: &'v Value<'a>) -> &'v [(&'a str, Value<'a>)]
    ensures { map (λ m. m.0.now) result.now ≡ members.keys_of (value_view value.now) }
{
    match value {
        Value::Object(members) => members.as_slice(),
        _ => &[],
    }
}

/// The members of a list.
pub(crate) fn list_of<'v, 'a>(value: &'v Value<'a>) -> &'v [Value<'a>]
    ensures { map value_view result.now ≡ members.list_of (value_view value.now) }
{
    match value {
        Value::Array(list) => list.as_slice(),
        _ => &[],
    }
}

// Adds the lines of an object.
fn put_object(
    lines: &mut Vec<u8>,
    place: &str,
    known: &[&str],
    value: &Value<'_>,
) -> Result<(), AllocError>
    ensures { IfOk result (λ _. lines.new.items
        ≡ lines.old.items ++ spec.object_lines (map (λ k. k.now) known.now) place.now (value_view value.now)) }
{
    put_unread(lines, place, known, members_of(value))
}

// The places of a member of `args` and of an entry, as they stand before a key.
fn argument_place(alloc: Global, entry: usize, at: usize) -> Result<String, AllocError>
    ensures { IfOk result (λ place. string_bytes place ≡ spec.argument_place entry at) }
{
    format!(in alloc; "linux.seccomp.syscalls[{entry}].args[{at}].")
}

fn entry_place(alloc: Global, entry: usize) -> Result<String, AllocError>
    ensures { IfOk result (λ place. string_bytes place ≡ spec.entry_place entry) }
{
    format!(in alloc; "linux.seccomp.syscalls[{entry}].")
}

// Adds the lines of a member of `args`.
fn put_argument(
    lines: &mut Vec<u8>,
    alloc: Global,
    entry: usize,
    at: usize,
    value: &Value<'_>,
) -> Result<(), AllocError>
    ensures { IfOk result (λ _. lines.new.items
        ≡ lines.old.items ++ spec.object_lines spec.argument_keys (spec.argument_place entry at) (value_view value.now)) }
{
    let place = argument_place(alloc, entry, at)?;
    put_object(lines, &place, ARGUMENT_KEYS, value)
}

// Adds the lines of the members of `args`.
fn put_arguments(
    lines: &mut Vec<u8>,
    alloc: Global,
    entry: usize,
    values: &[Value<'_>],
) -> Result<(), AllocError>
    ensures { IfOk result (λ _. lines.new.items
        ≡ lines.old.items ++ spec.arguments_lines entry 0 (map value_view values.now)) }
{
    for (at, value) in values.iter().enumerate() {
        put_argument(lines, alloc, entry, at, value)?;
    }
    Ok(())
}

// Adds the lines of an entry.
fn put_entry(
    lines: &mut Vec<u8>,
    alloc: Global,
    entry: usize,
    value: &Value<'_>,
) -> Result<(), AllocError>
    ensures { IfOk result (λ _. lines.new.items ≡ lines.old.items ++ spec.entry_lines entry (value_view value.now)) }
{
    let place = entry_place(alloc, entry)?;
    put_object(lines, &place, ENTRY_KEYS, value)?;
    match value.get("args") {
        Some(list) => put_arguments(lines, alloc, entry, list_of(list)),
        None => Ok(()),
    }
}

// Adds the lines of entries.
fn put_entries(lines: &mut Vec<u8>, alloc: Global, values: &[Value<'_>]) -> Result<(), AllocError>
    ensures { IfOk result (λ _. lines.new.items ≡ lines.old.items ++ spec.entries_lines 0 (map value_view values.now)) }
{
    for (entry, value) in values.iter().enumerate() {
        put_entry(lines, alloc, entry, value)?;
    }
    Ok(())
}

// Whether a value is the name of ALLOW.
fn is_allow(value: &Value<'_>) -> bool
    ensures { result ≡ spec.is_allow (value_view value.now) }
{
    match value {
        Value::String(text) => *text == "SCMP_ACT_ALLOW",
        _ => false,
    }
}

const OTHERS: &str =
    "linux.seccomp.x-ccell-otherMachines: calls of other machines are allowed, as this filter has it; no engine reads this member\n";

const NO_OTHERS: &str = "linux.seccomp.x-ccell-otherMachines: is not read\n";

// Adds the line of what is told of other machines.
fn put_other(lines: &mut Vec<u8>, value: &Value<'_>) -> Result<(), AllocError>
    ensures { IfOk result (λ _. lines.new.items ≡ lines.old.items ++ spec.others_line (value_view value.now)) }
{
    if is_allow(value) {
        return lines.extend_from_slice(OTHERS.as_bytes());
    }
    lines.extend_from_slice(NO_OTHERS.as_bytes())
}

// Adds the line of what a section tells of other machines, if it tells something.
fn put_others(lines: &mut Vec<u8>, value: &Value<'_>) -> Result<(), AllocError>
    ensures { IfOk result (λ _. lines.new.items ≡ lines.old.items ++ spec.others_lines (value_view value.now)) }
{
    match value.get("x-ccell-otherMachines") {
        Some(found) => put_other(lines, found),
        None => Ok(()),
    }
}

// Adds the lines of a section's own members.
fn put_members(lines: &mut Vec<u8>, value: &Value<'_>) -> Result<(), AllocError>
    ensures { IfOk result (λ _. lines.new.items ≡ lines.old.items ++ spec.members_lines (value_view value.now)) }
{
    put_object(lines, "linux.seccomp.", TOLD_KEYS, value)?;
    put_others(lines, value)
}

// Adds the lines of a section.
fn put_section(lines: &mut Vec<u8>, alloc: Global, value: &Value<'_>) -> Result<(), AllocError>
    ensures { IfOk result (λ _. lines.new.items ≡ lines.old.items ++ spec.section_lines (value_view value.now)) }
{
    put_members(lines, value)?;
    match value.get("syscalls") {
        Some(list) => put_entries(lines, alloc, list_of(list)),
        None => Ok(()),
    }
}

// Adds the lines of what stands under `linux`.
fn put_linux(lines: &mut Vec<u8>, alloc: Global, value: &Value<'_>) -> Result<(), AllocError>
    ensures { IfOk result (λ _. lines.new.items ≡ lines.old.items ++ spec.linux_lines (value_view value.now)) }
{
    match value.get("seccomp") {
        Some(section) => put_section(lines, alloc, section),
        None => Ok(()),
    }
}

// Adds the lines of a bundle.
fn put_bundle(lines: &mut Vec<u8>, alloc: Global, value: &Value<'_>) -> Result<(), AllocError>
    ensures { IfOk result (λ _. lines.new.items ≡ lines.old.items ++ spec.bundle_lines (value_view value.now)) }
{
    match value.get("linux") {
        Some(linux) => put_linux(lines, alloc, linux),
        None => Ok(()),
    }
}

// The lines of a value.
fn lines_of_value(alloc: Global, value: &Value<'_>) -> Result<Vec<u8>, AllocError>
    ensures { IfOk result (λ lines. lines.items ≡ spec.bundle_lines (value_view value.now)) }
{
    let mut lines = Vec::new(alloc);
    put_bundle(&mut lines, alloc, value)?;
    Ok(lines)
}

// The lines of a text.
fn lines_of(alloc: Global, bytes: &[u8]) -> Result<Vec<u8>, AllocError>
    ensures { IfOk result (λ lines. spec.AreLinesOf bytes.now lines.items) }
{
    let mut scratch = Scratch::new(alloc);
    match Value::from_slice(alloc, bytes, &mut scratch) {
        Ok(value) => lines_of_value(alloc, &value),
        Err(Error::Invalid) => Ok(Vec::new(alloc)),
        Err(_no_memory) => Err(AllocError),
    }
}

/// A line for each member of a bundle's section that is not read. For the machines of the chosen lists no lines are told.
pub fn unread_of(alloc: Global, native: Arch, bundle: &[u8]) -> Result<Vec<u8>, AllocError>
    ensures { IfOk result (λ lines. spec.AreUnread native bundle.now lines.items) }
{
    match native.family() {
        Family::Chosen => Ok(Vec::new(alloc)),
        Family::Whole => lines_of(alloc, bundle),
    }
}
