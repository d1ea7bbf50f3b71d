//! The keys of objects: those that engines would read in another way, those that are not known, and members that say nothing.
use crate::changes::Changes;
use crate::place::Place;
use crate::text::Text;
use section::{ARGUMENT_KEYS, ENTRY_KEYS, SECTION_KEYS};
use serde_json::Value;
use std::fmt::Display;

/// Keys that are known: those that every command reads, and those beside them.
#[derive(Clone, Copy)]
pub(crate) struct Known {
    read: &'static [&'static str],
    beside: &'static [&'static str],
}

/// The keys of a section.
pub(crate) const SECTION: Known = Known {
    read: SECTION_KEYS,
    beside: &[
        "ociVersion",
        "archMap",
        "defaultErrno",
        "comment",
        "$schema",
        OTHER_MACHINES,
    ],
};

// What `recover` writes of a filter that allows calls of other machines.
const OTHER_MACHINES: &str = "x-ccell-otherMachines";

/// The keys of an entry.
pub(crate) const ENTRY: Known = Known {
    read: ENTRY_KEYS,
    beside: &["includes", "excludes", "name", "errno", "comment"],
};

/// The keys of a condition.
pub(crate) const CONDITION: Known = Known {
    read: ARGUMENT_KEYS,
    beside: &["comment"],
};

/// The keys of what says for which containers an entry counts.
pub(crate) const FILTER: &[&str] = &["caps", "arches", "minKernel"];

/// The keys of a row of machines.
pub(crate) const MACHINES: &[&str] = &["architecture", "subArchitectures"];

// The keys of which a section is worked out, in an engine's own profile.
const KEYS_OF_PROFILES: &[&str] = &[
    "archMap",
    "includes",
    "excludes",
    "name",
    "errno",
    "defaultErrno",
];

/// The keys whose members are read, in whatever object.
pub(crate) const READ: &[&str] = &[
    "ociVersion",
    "linux",
    "seccomp",
    "spec",
    "defaultAction",
    "defaultErrnoRet",
    "architectures",
    "flags",
    "listenerPath",
    "listenerMetadata",
    "syscalls",
    "names",
    "action",
    "errnoRet",
    "args",
    "index",
    "value",
    "valueTwo",
    "op",
    "archMap",
    "defaultErrno",
    "includes",
    "excludes",
    "name",
    "errno",
    "caps",
    "arches",
    "minKernel",
    "architecture",
    "subArchitectures",
];

/// Whether a name is one of these.
pub(crate) fn is_one_of(names: &[&str], name: &str) -> bool {
    for other in names {
        if *other == name {
            return true;
        }
    }
    false
}

// A letter as readers in Go take it: in lower case, U+017F for s and U+212A for k.
fn folded(letter: char) -> char {
    match letter {
        '\u{17f}' => 's',
        '\u{212a}' => 'k',
        other => other.to_ascii_lowercase(),
    }
}

// Whether some reader takes a key for another one. Readers in C end it at U+0000.
fn is_taken_for(key: &str, meant: &str) -> bool {
    let mut letters = key.chars();
    for letter in meant.chars() {
        match letters.next() {
            Some(other) => {
                if folded(other) != letter.to_ascii_lowercase() {
                    return false;
                }
            }
            None => return false,
        }
    }
    match letters.next() {
        Some(other) => other == '\0',
        None => true,
    }
}

// The key as which engines read another one.
fn meant_by(key: &str) -> Option<&'static str> {
    for meant in READ {
        if is_taken_for(key, *meant) {
            return if *meant == key { None } else { Some(*meant) };
        }
    }
    None
}

/// Whether a member is as good as missing to engines.
pub(crate) fn is_void(value: &Value) -> bool {
    match value {
        Value::Null => true,
        Value::String(text) => text.is_empty(),
        Value::Array(members) => members.is_empty(),
        Value::Object(members) => members.is_empty(),
        _ => false,
    }
}

const NEEDS_FOR: &str =
    "a member of an engine's own profile, which for docker, podman or containerd behind the file works out";

// Tells what is to be told of a key that is known, and its member.
fn tell_known(changes: &mut Changes, place: Place<'_>, key: &str, member: &Value, is_for: bool) {
    if key == OTHER_MACHINES {
        return changes.tell(place, "no engine reads it, and it is left out", false);
    }
    if is_one_of(KEYS_OF_PROFILES, key) {
        if !is_for && !is_void(member) {
            changes.refuse(place, NEEDS_FOR);
        }
        return;
    }
    if is_one_of(READ, key) && member.is_null() {
        changes.tell(place, "null, and left out", false);
    }
}

/// Tells the keys of an object that engines would read in another way.
pub(crate) fn tell_other_cases(changes: &mut Changes, place: Place<'_>, object: &Value) {
    let Some(members) = object.as_object() else {
        return;
    };
    for (key, member) in members.iter() {
        match meant_by(key.as_str()) {
            Some(meant) => changes.refuse_key(place.key(key.as_str()), meant),
            None => tell_known(changes, place.key(key.as_str()), key.as_str(), member, true),
        }
    }
}

// Tells a key that is not known, or that engines would read in another way.
fn tell_other(changes: &mut Changes, place: Place<'_>, key: &str) {
    match meant_by(key) {
        Some(meant) => changes.refuse_key(place, meant),
        None => changes.tell(place, "is not known here, and left out", true),
    }
}

/// Tells the keys of an object below a key that are none of these.
pub(crate) fn tell_unknown(
    changes: &mut Changes,
    place: Place<'_>,
    object: &Value,
    known: &[&str],
) {
    let Some(members) = object.as_object() else {
        return;
    };
    for (key, _) in members.iter() {
        if !is_one_of(known, key.as_str()) {
            changes.tell_text(place, key.as_str(), "is not known here, and left out", true);
        }
    }
}

/// Tells the keys of an object that are none of these, those that engines would read in another way, and the members that are
/// null. Members of an engine's own profile are read where it is worked out for a container.
pub(crate) fn tell_keys(
    changes: &mut Changes,
    place: Place<'_>,
    object: &Value,
    known: Known,
    is_for: bool,
) {
    let Some(members) = object.as_object() else {
        return;
    };
    for (key, member) in members.iter() {
        let name = key.as_str();
        if is_one_of(known.read, name) || is_one_of(known.beside, name) {
            tell_known(changes, place.key(name), name, member, is_for);
        } else {
            tell_other(changes, place.key(name), name);
        }
    }
}

/// The member under a key that says something.
pub(crate) fn member_at<'a>(object: &'a Value, key: &str) -> Option<&'a Value> {
    let member = object.get(key)?;
    if member.is_null() { None } else { Some(member) }
}

/// Adds a key with what stands under it, behind the members that the object has.
pub(crate) fn put_pair(text: &mut Text, key: &str, member: impl Display + Drop) {
    text.separate(", ");
    text.put(format_args!("\"{key}\": {member}"));
}

/// Adds a key with its member, if it says something, behind the members that the object has.
pub(crate) fn put_member(text: &mut Text, object: &Value, key: &str) {
    if let Some(member) = member_at(object, key) {
        put_pair(text, key, format_args!("{member}"));
    }
}
