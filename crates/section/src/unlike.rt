//! What runtimes and engines do not take alike in a text: keys that stand twice or otherwise, and a section beside `linux`.
ghost use Rattle.std.specs.Prelude.{◌≡◌, ◌++◌, IfOk, count_by, map, string_bytes};
ghost use Rattle.machines.specs.declared.arch.Family.TheVariants.{Whole};
ghost use Rattle.std.specs.Str.{bytes_eq, str_eq_ignore_ascii_case};
ghost use Rattle.json.specs.Value.{value_view};
ghost use Rattle.section.specs.Members as members;
ghost use Rattle.section.specs.Unlike as spec;
ghost use Rattle.section.specs.Unread.{argument_keys};

use crate::large::is_large;
use crate::unread::{ARGUMENT_KEYS, list_of, members_of, put_line};
use json::{Error, Scratch, Value};
use machines::{Arch, Family};
use std::alloc::{AllocError, Global};

// The keys of a config, and of what stands under `linux`.
const CONFIG: &[&str] = &["ociVersion", "linux"];

const LINUX: &[&str] = &["seccomp"];

// The keys of a section and of an entry that some reader knows.
const SECTION: &[&str] = &[
    "defaultAction",
    "defaultErrnoRet",
    "architectures",
    "flags",
    "listenerPath",
    "listenerMetadata",
    "syscalls",
    "archMap",
    "defaultErrno",
];

const ENTRY: &[&str] = &[
    "names", "action", "errnoRet", "args", "name", "errno", "includes", "excludes",
];

// Those that one engine alone reads of a section that stands by itself.
fn own_of_section(alone: bool) -> &'static [&'static str]
    ensures { map (λ k. k.now) result.now ≡ spec.own_of_section alone }
{
    if alone { &["defaultErrno"] } else { &[] }
}

fn own_of_entry(alone: bool) -> &'static [&'static str]
    ensures { map (λ k. k.now) result.now ≡ spec.own_of_entry alone }
{
    if alone { &["name", "errno"] } else { &[] }
}

const ODD_CHARACTER: &str = ": has a character that readers do not take alike\n";

const STANDS_TWICE: &str = ": stands twice, and readers do not take the same one\n";

const OTHER_CASE: &str =
    ": stands in upper or lower case otherwise, and some readers take it all the same\n";

const OF_ONE_ENGINE: &str = ": some engines read it in a section, and others pass over it\n";

const BESIDE_LINUX: &str =
    ": stands beside linux, and readers take either this section or that of linux\n";

// Whether each byte of a key is a visible character of ASCII, or a space.
fn is_plain(key: &[u8]) -> bool
    ensures { result ≡ spec.is_plain key.now }
{
    key.iter().all(|byte| 31 < *byte && *byte < 127)
}

// How often a key stands in an object.
fn count_of(members: &[(&str, Value<'_>)], key: &str) -> usize
    ensures { result ≡ count_by (λ member. bytes_eq member.0.now key.now) members.now }
{
    members.iter().filter(|member| member.0 == key).count()
}

// How often a key stands in an object, in upper or lower case.
fn count_alike(members: &[(&str, Value<'_>)], key: &str) -> usize
    ensures { result ≡ count_by (λ member. str_eq_ignore_ascii_case member.0.now key.now) members.now }
{
    members
        .iter()
        .filter(|member| member.0.eq_ignore_ascii_case(key))
        .count()
}

// Adds the line of a key, if it has another character.
fn put_if_odd(lines: &mut Vec<u8>, place: &str, key: &str) -> Result<(), AllocError>
    ensures { IfOk result (λ _. lines.new.items ≡ lines.old.items ++ spec.odd_line place.now key.now) }
{
    if is_plain(key.as_bytes()) {
        return Ok(());
    }
    put_line(lines, place, key, ODD_CHARACTER)
}

// Adds the lines of the keys of an object with other characters.
fn put_odd(
    lines: &mut Vec<u8>,
    place: &str,
    members: &[(&str, Value<'_>)],
) -> Result<(), AllocError>
    ensures { IfOk result (λ _. lines.new.items
        ≡ lines.old.items ++ spec.odd_lines place.now (map (λ m. m.0.now) members.now)) }
{
    for member in members {
        put_if_odd(lines, place, member.0)?;
    }
    Ok(())
}

// Adds the line of a key that some reader knows, if it stands twice or otherwise.
fn put_if_taken(
    lines: &mut Vec<u8>,
    place: &str,
    members: &[(&str, Value<'_>)],
    key: &str,
) -> Result<(), AllocError>
    ensures { IfOk result (λ _. lines.new.items
        ≡ lines.old.items ++ spec.taken_line place.now (map (λ m. m.0.now) members.now) key.now) }
{
    let alike = count_alike(members, key);
    if 1 < alike {
        return put_line(lines, place, key, STANDS_TWICE);
    }
    if alike == count_of(members, key) {
        return Ok(());
    }
    put_line(lines, place, key, OTHER_CASE)
}

// Adds a line for each of these keys, known to some reader, that stands twice or otherwise.
fn put_taken(
    lines: &mut Vec<u8>,
    place: &str,
    known: &[&str],
    members: &[(&str, Value<'_>)],
) -> Result<(), AllocError>
    ensures { IfOk result (λ _. lines.new.items
        ≡ lines.old.items ++ spec.taken_lines (map (λ k. k.now) known.now) place.now (map (λ m. m.0.now) members.now)) }
{
    for key in known {
        put_if_taken(lines, place, members, *key)?;
    }
    Ok(())
}

// Adds the lines of an object, by the keys that some reader knows in it.
fn put_object(
    lines: &mut Vec<u8>,
    place: &str,
    known: &[&str],
    value: &Value<'_>,
) -> Result<(), AllocError>
    ensures { IfOk result (λ _. lines.new.items
        ≡ lines.old.items ++ spec.object_lines (map (λ k. k.now) known.now) place.now (value_view value.now)) }
{
    let members = members_of(value);
    put_odd(lines, place, members)?;
    put_taken(lines, place, known, members)
}

// Adds the line of a key, if it stands there.
fn put_if_present(
    lines: &mut Vec<u8>,
    place: &str,
    members: &[(&str, Value<'_>)],
    key: &str,
    what: &str,
) -> Result<(), AllocError>
    ensures { IfOk result (λ _. lines.new.items
        ≡ lines.old.items ++ spec.present_line what.now place.now (map (λ m. m.0.now) members.now) key.now) }
{
    if 0 < count_alike(members, key) {
        return put_line(lines, place, key, what);
    }
    Ok(())
}

// Adds a line for each of these keys that stands in an object.
fn put_present(
    lines: &mut Vec<u8>,
    place: &str,
    keys: &[&str],
    value: &Value<'_>,
    what: &str,
) -> Result<(), AllocError>
    ensures { IfOk result (λ _. lines.new.items
        ≡ lines.old.items ++ spec.present_lines what.now (map (λ k. k.now) keys.now) place.now (members.keys_of (value_view value.now))) }
{
    let members = members_of(value);
    for key in keys {
        put_if_present(lines, place, members, *key, what)?;
    }
    Ok(())
}

// The places of a member of `args` and of an entry, as they stand before a key.
fn argument_place(alloc: Global, top: &str, entry: usize, at: usize) -> Result<String, AllocError>
    ensures { IfOk result (λ place. string_bytes place ≡ spec.argument_place top.now entry at) }
{
    format!(in alloc; "{top}syscalls[{entry}].args[{at}].")
}

fn entry_place(alloc: Global, top: &str, entry: usize) -> Result<String, AllocError>
    ensures { IfOk result (λ place. string_bytes place ≡ spec.entry_place top.now entry) }
{
    format!(in alloc; "{top}syscalls[{entry}].")
}

// Adds the lines of a member of `args`.
fn put_argument(
    lines: &mut Vec<u8>,
    alloc: Global,
    top: &str,
    entry: usize,
    at: usize,
    value: &Value<'_>,
) -> Result<(), AllocError>
    ensures { IfOk result (λ _. lines.new.items
        ≡ lines.old.items ++ spec.object_lines argument_keys (spec.argument_place top.now entry at) (value_view value.now)) }
{
    let place = argument_place(alloc, top, entry, at)?;
    put_object(lines, &place, ARGUMENT_KEYS, value)
}

// Adds the lines of the members of `args`.
fn put_arguments(
    lines: &mut Vec<u8>,
    alloc: Global,
    top: &str,
    entry: usize,
    values: &[Value<'_>],
) -> Result<(), AllocError>
    ensures { IfOk result (λ _. lines.new.items
        ≡ lines.old.items ++ spec.arguments_lines top.now entry 0 (map value_view values.now)) }
{
    for (at, value) in values.iter().enumerate() {
        put_argument(lines, alloc, top, entry, at, value)?;
    }
    Ok(())
}

// Adds the lines of an entry's own members.
fn put_entry_members(
    lines: &mut Vec<u8>,
    place: &str,
    alone: bool,
    value: &Value<'_>,
) -> Result<(), AllocError>
    ensures { IfOk result (λ _. lines.new.items
        ≡ lines.old.items ++ spec.members_of_entry alone place.now (value_view value.now)) }
{
    put_object(lines, place, ENTRY, value)?;
    put_present(lines, place, own_of_entry(alone), value, OF_ONE_ENGINE)
}

// Adds the lines of an entry.
fn put_entry(
    lines: &mut Vec<u8>,
    alloc: Global,
    alone: bool,
    top: &str,
    entry: usize,
    value: &Value<'_>,
) -> Result<(), AllocError>
    ensures { IfOk result (λ _. lines.new.items
        ≡ lines.old.items ++ spec.entry_lines alone top.now entry (value_view value.now)) }
{
    let place = entry_place(alloc, top, entry)?;
    put_entry_members(lines, &place, alone, value)?;
    match value.get("args") {
        Some(list) => put_arguments(lines, alloc, top, entry, list_of(list)),
        None => Ok(()),
    }
}

// Adds the lines of entries.
fn put_entries(
    lines: &mut Vec<u8>,
    alloc: Global,
    alone: bool,
    top: &str,
    values: &[Value<'_>],
) -> Result<(), AllocError>
    ensures { IfOk result (λ _. lines.new.items
        ≡ lines.old.items ++ spec.entries_lines alone top.now 0 (map value_view values.now)) }
{
    for (entry, value) in values.iter().enumerate() {
        put_entry(lines, alloc, alone, top, entry, value)?;
    }
    Ok(())
}

// Adds the lines of a section's own members.
fn put_section_members(
    lines: &mut Vec<u8>,
    alone: bool,
    top: &str,
    value: &Value<'_>,
) -> Result<(), AllocError>
    ensures { IfOk result (λ _. lines.new.items
        ≡ lines.old.items ++ spec.members_of_section alone top.now (value_view value.now)) }
{
    put_object(lines, top, SECTION, value)?;
    put_present(lines, top, own_of_section(alone), value, OF_ONE_ENGINE)
}

// Adds the lines of a section, which stands by itself or not.
fn put_section(
    lines: &mut Vec<u8>,
    alloc: Global,
    alone: bool,
    top: &str,
    value: &Value<'_>,
) -> Result<(), AllocError>
    ensures { IfOk result (λ _. lines.new.items
        ≡ lines.old.items ++ spec.section_lines alone top.now (value_view value.now)) }
{
    put_section_members(lines, alone, top, value)?;
    match value.get("syscalls") {
        Some(list) => put_entries(lines, alloc, alone, top, list_of(list)),
        None => Ok(()),
    }
}

// Adds the lines of what stands under `linux`.
fn put_linux(lines: &mut Vec<u8>, alloc: Global, value: &Value<'_>) -> Result<(), AllocError>
    ensures { IfOk result (λ _. lines.new.items ≡ lines.old.items ++ spec.linux_lines (value_view value.now)) }
{
    put_object(lines, "linux.", LINUX, value)?;
    match value.get("seccomp") {
        Some(section) => put_section(lines, alloc, false, "linux.seccomp.", section),
        None => Ok(()),
    }
}

// Adds the lines of a config's own members.
fn put_config_members(lines: &mut Vec<u8>, value: &Value<'_>) -> Result<(), AllocError>
    ensures { IfOk result (λ _. lines.new.items ≡ lines.old.items ++ spec.config_members (value_view value.now)) }
{
    put_object(lines, "", CONFIG, value)?;
    put_present(lines, "", SECTION, value, BESIDE_LINUX)
}

// Adds the lines of a config.
fn put_config(lines: &mut Vec<u8>, alloc: Global, value: &Value<'_>) -> Result<(), AllocError>
    ensures { IfOk result (λ _. lines.new.items ≡ lines.old.items ++ spec.config_lines (value_view value.now)) }
{
    put_config_members(lines, value)?;
    match value.get("linux") {
        Some(linux) => put_linux(lines, alloc, linux),
        None => Ok(()),
    }
}

// Adds the lines of a text's value.
fn put_text(lines: &mut Vec<u8>, alloc: Global, value: &Value<'_>) -> Result<(), AllocError>
    ensures { IfOk result (λ _. lines.new.items ≡ lines.old.items ++ spec.text_lines (value_view value.now)) }
{
    if 0 < count_alike(members_of(value), "linux") {
        return put_config(lines, alloc, value);
    }
    put_section(lines, alloc, true, "", value)
}

// The lines of a value.
fn lines_of_value(alloc: Global, value: &Value<'_>) -> Result<Vec<u8>, AllocError>
    ensures { IfOk result (λ lines. lines.items ≡ spec.text_lines (value_view value.now)) }
{
    let mut lines = Vec::new(alloc);
    put_text(&mut lines, alloc, value)?;
    Ok(lines)
}

/// The lines of a text.
pub(crate) fn lines_of(alloc: Global, bytes: &[u8]) -> Result<Vec<u8>, AllocError>
    ensures { IfOk result (λ lines. spec.AreLinesOf bytes.now lines.items) }
{
    let mut scratch = Scratch::new(alloc);
    match Value::from_slice(alloc, bytes, &mut scratch) {
        Ok(value) => lines_of_value(alloc, &value),
        Err(Error::Invalid) => Ok(Vec::new(alloc)),
        Err(_no_memory) => Err(AllocError),
    }
}

// The lines of a text, if it is read.
fn lines_if_read(alloc: Global, bytes: &[u8]) -> Result<Vec<u8>, AllocError>
    ensures { IfOk result (λ lines. spec.AreUnlikeOf Whole bytes.now lines.items) }
{
    if is_large(bytes) {
        return Ok(Vec::new(alloc));
    }
    lines_of(alloc, bytes)
}

/// A line for each place at which runtimes and engines do not take a text alike. A text without one is taken alike by all that take
/// it. Of a text that is too large no lines are told, and for the machines of the chosen lists of none.
pub fn unlike_of(alloc: Global, native: Arch, bytes: &[u8]) -> Result<Vec<u8>, AllocError>
    ensures { IfOk result (λ lines. spec.AreUnlike native bytes.now lines.items) }
{
    match native.family() {
        Family::Chosen => Ok(Vec::new(alloc)),
        Family::Whole => lines_if_read(alloc, bytes),
    }
}
