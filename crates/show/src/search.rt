//! The place where a bundle has a fault: the first in the order in which a bundle is read.
use crate::known::{FLAGS, TAKING_DATA, is_action, is_one_of, reads_more};
use crate::place::{ARG, ENTRY, HEAD, Key, LISTENER, NAMES, Place, ROOT, SYSCALLS, Shape};
use call_tables::call_number;
use machines::Family;
use profile_json::{OPERATORS, key};
use serde_json::Value;

/// A place with a fault: what stands there, if something does, and what has to.
#[derive(Clone, Copy)]
pub(crate) struct Found<'a> {
    pub(crate) place: Place,
    pub(crate) value: Option<&'a Value>,
    pub(crate) asked: Shape,
}

/// The entries in which a fault is looked for.
#[derive(Clone, Copy)]
pub(crate) enum Within {
    All,
    One(usize),
    None,
}

impl Within {
    fn has(self, entry: usize) -> bool {
        match self {
            Within::All => true,
            Within::One(at) => at == entry,
            Within::None => false,
        }
    }
}

/// A fault that is looked for, by its number. It is looked for in a bundle for the machines of a family. Or it is in an engine's
/// configuration, as that is once what can be mended is. There a member that is null is as good as missing, and no edition or list of names
/// is missed.
#[derive(Clone, Copy)]
pub(crate) struct Wanted {
    pub(crate) number: u32,
    pub(crate) family: Family,
    pub(crate) is_config: bool,
    pub(crate) within: Within,
}

// The member under a key that says something.
fn member_at<'a>(wanted: Wanted, object: &'a Value, key: &str) -> Option<&'a Value> {
    let member = object.get(key)?;
    if wanted.is_config && member.is_null() {
        return None;
    }
    Some(member)
}

// Whether the fault is that a key is missing.
fn misses(wanted: Wanted, key: Key) -> bool {
    let is_mended = wanted.is_config && (key.name == "ociVersion" || key.name == "names");
    wanted.number == 5 && key.needed && !is_mended
}

// The text under a key, empty where there is none.
fn text_at<'a>(object: &'a Value, key: &str) -> &'a str {
    object.get(key).and_then(Value::as_str).unwrap_or("")
}

// The whole number under a key, 0 where there is none.
fn whole_at(object: &Value, key: &str) -> u64 {
    object.get(key).and_then(Value::as_u64).unwrap_or(0)
}

// The list under a key, empty where there is none.
fn list_at<'a>(object: &'a Value, key: &str) -> &'a [Value] {
    match object.get(key).and_then(Value::as_array) {
        Some(values) => values.as_slice(),
        None => &[],
    }
}

fn is_empty(value: &Value) -> bool {
    match value.as_array() {
        Some(values) => values.is_empty(),
        None => value.as_str() == Some(""),
    }
}

// Whether the action of an object takes a number.
fn takes_data(object: &Value) -> bool {
    is_one_of(TAKING_DATA, text_at(object, "action"))
        || is_one_of(TAKING_DATA, text_at(object, "defaultAction"))
}

// Whether a condition's second value has a bit that its first has not.
fn has_stray_bit(object: &Value) -> bool {
    let second = whole_at(object, "valueTwo");
    text_at(object, "op") == key::MASKED_EQ && second & whole_at(object, "value") != second
}

// Whether a key is used that is not supported: of the machines of whole tables metadata without a listener.
fn is_unsupported(family: Family, key: &str, object: &Value, value: &Value) -> bool {
    if is_empty(value) {
        return false;
    }
    match family {
        Family::Chosen => true,
        Family::Whole => key == "listenerMetadata" && text_at(object, "listenerPath") == "",
    }
}

// Whether what stands under a key of an object breaks the rule of the key that the fault names.
fn breaks_rule(wanted: Wanted, key: &str, object: &Value, value: &Value) -> bool {
    let number = wanted.number;
    let text = value.as_str().unwrap_or("");
    let whole = value.as_u64().unwrap_or(0);
    match key {
        "ociVersion" => number == 2,
        "defaultAction" | "action" => number == 6
            && !is_action(wanted.family, wanted.is_config, text),
        "defaultErrnoRet" | "errnoRet" => match number {
            11 => !takes_data(object),
            12 => whole > 4095,
            _ => false,
        },
        "flags" | "listenerPath" | "listenerMetadata" => {
            number == 18 && is_unsupported(wanted.family, key, object, value)
        }
        "architectures" => number == 8,
        "index" => number == 14 && whole > 5,
        "valueTwo" => number == 16 && has_stray_bit(object),
        "op" => number == 13 && !is_one_of(OPERATORS, text),
        _ => false,
    }
}

// Whether the fault stands at a key of an object.
fn stands_at(wanted: Wanted, key: Key, object: &Value) -> bool {
    match member_at(wanted, object, key.name) {
        None => misses(wanted, key),
        Some(value) => {
            if wanted.number == 4 {
                return !key.shape.fits(value);
            }
            breaks_rule(wanted, key.name, object, value)
        }
    }
}

// The first key of an object at which the fault stands.
fn at_keys<'a>(
    wanted: Wanted,
    keys: &'static [Key],
    place: Place,
    object: &'a Value,
) -> Option<Found<'a>> {
    let key = keys
        .iter()
        .copied()
        .find(|key| stands_at(wanted, *key, object))?;
    Some(Found {
        place: Place {
            key: key.name,
            ..place
        },
        value: object.get(key.name),
        asked: key.shape,
    })
}

// Whether a name stands in the table of a machine of the family.
fn is_known(family: Family, name: &str) -> bool {
    family
        .machines()
        .iter()
        .any(|arch| call_number(*arch, name).is_some())
}

// Whether the name is that of a machine of the family.
fn is_machine(family: Family, name: &str) -> bool {
    family.machines().iter().any(|arch| arch.scmp() == name)
}

// Whether the fault stands at a member of a list of texts: flags, names of machines, or of calls.
fn stands_in(wanted: Wanted, list: &str, value: &Value) -> bool {
    let Some(text) = value.as_str() else {
        return wanted.number == 4;
    };
    match (wanted.number, list) {
        (18, "flags") => !is_one_of(FLAGS, text),
        (7, "architectures") => !is_machine(wanted.family, text),
        (9, "names") => !is_known(wanted.family, text),
        _ => false,
    }
}

// The first member of a list of texts at which the fault stands.
fn at_texts<'a>(wanted: Wanted, place: Place, values: &'a [Value]) -> Option<Found<'a>> {
    let member = values
        .iter()
        .position(|value| stands_in(wanted, place.list, value))?;
    Some(Found {
        place: Place {
            member: Some(member),
            ..place
        },
        value: values.get(member),
        asked: Shape::Text,
    })
}

// Whether a member of `args` names the argument of an earlier one.
fn repeats(earlier: &[Value], arg: &Value) -> bool {
    let index = whole_at(arg, "index");
    earlier
        .iter()
        .any(|other| whole_at(other, "index") == index)
}

// The first place at or in a member of `args` at which the fault stands.
fn at_args<'a>(wanted: Wanted, place: Place, args: &'a [Value]) -> Option<Found<'a>> {
    for (member, arg) in args.iter().enumerate() {
        let here = Place {
            list: "args",
            member: Some(member),
            ..place
        };
        if wanted.number == 4 && !arg.is_object() {
            return Some(Found {
                place: here,
                value: Some(arg),
                asked: Shape::Object,
            });
        }
        if wanted.number == 15 && repeats(args.get(..member).unwrap_or(&[]), arg) {
            return Some(Found {
                place: Place {
                    key: "index",
                    ..here
                },
                value: Some(arg),
                asked: Shape::Whole,
            });
        }
        if let Some(found) = at_keys(wanted, ARG, here, arg) {
            return Some(found);
        }
    }
    None
}

// How many names an entry may have.
fn most_names(family: Family) -> usize {
    match family {
        Family::Chosen => 128,
        Family::Whole => 512,
    }
}

// The first place in an entry at which the fault stands.
fn at_entry<'a>(wanted: Wanted, place: Place, entry: &'a Value) -> Option<Found<'a>> {
    if let Some(found) = at_keys(wanted, NAMES, place, entry) {
        return Some(found);
    }
    let names = list_at(entry, "names");
    let here = Place {
        list: "names",
        ..place
    };
    if (wanted.number == 10 && names.is_empty())
        || (wanted.number == 19 && names.len() > most_names(wanted.family))
    {
        return Some(Found {
            place: here,
            value: Some(entry),
            asked: Shape::List,
        });
    }
    if let Some(found) = at_texts(wanted, here, names) {
        return Some(found);
    }
    if let Some(found) = at_keys(wanted, ENTRY, place, entry) {
        return Some(found);
    }
    at_args(wanted, place, list_at(entry, "args"))
}

// The first place at or in an entry at which the fault stands.
fn at_entries<'a>(wanted: Wanted, place: Place, entries: &'a [Value]) -> Option<Found<'a>> {
    for (entry, value) in entries.iter().enumerate() {
        if !wanted.within.has(entry) {
            continue;
        }
        let here = Place {
            entry: Some(entry),
            ..place
        };
        if wanted.number == 4 && !value.is_object() {
            return Some(Found {
                place: here,
                value: Some(value),
                asked: Shape::Object,
            });
        }
        if let Some(found) = at_entry(wanted, here, value) {
            return Some(found);
        }
    }
    None
}

// The first flag of a section at which the fault stands, where flags are read: those of a configuration are left out.
fn at_flags<'a>(wanted: Wanted, place: Place, seccomp: &'a Value) -> Option<Found<'a>> {
    if wanted.is_config || !reads_more(wanted.family) {
        return None;
    }
    let flags = Place {
        list: "flags",
        ..place
    };
    at_texts(wanted, flags, list_at(seccomp, "flags"))
}

// The first place in a section above its machines at which the fault stands.
fn at_head<'a>(wanted: Wanted, place: Place, seccomp: &'a Value) -> Option<Found<'a>> {
    if let Some(found) = at_keys(wanted, HEAD, place, seccomp) {
        return Some(found);
    }
    if let Some(found) = at_flags(wanted, place, seccomp) {
        return Some(found);
    }
    at_keys(wanted, LISTENER, place, seccomp)
}

// The first place in a section at which the fault stands. The section stands at the place `top`.
fn at_seccomp<'a>(wanted: Wanted, top: &'static str, seccomp: &'a Value) -> Option<Found<'a>> {
    let place = Place::top(top);
    if let Some(found) = at_head(wanted, place, seccomp) {
        return Some(found);
    }
    let machines = Place {
        list: "architectures",
        ..place
    };
    if let Some(found) = at_texts(wanted, machines, list_at(seccomp, "architectures")) {
        return Some(found);
    }
    if let Some(found) = at_keys(wanted, SYSCALLS, place, seccomp) {
        return Some(found);
    }
    at_entries(wanted, place, list_at(seccomp, "syscalls"))
}

// The place of an object at the top that is missing or none.
fn at_top<'a>(top: &'static str, value: Option<&'a Value>) -> Option<Found<'a>> {
    Some(Found {
        place: Place::top(top),
        value,
        asked: Shape::Object,
    })
}

/// The first place of a bundle at which the fault stands.
pub(crate) fn find(wanted: Wanted, root: &Value) -> Option<Found<'_>> {
    if !root.is_object() {
        return at_top("the bundle", Some(root));
    }
    if let Some(found) = at_keys(wanted, ROOT, Place::top(""), root) {
        return Some(found);
    }
    let Some(linux) = root.get("linux") else {
        return at_top("linux", None);
    };
    if !linux.is_object() {
        return at_top("linux", Some(linux));
    }
    let Some(seccomp) = linux.get("seccomp") else {
        return at_top("linux.seccomp", None);
    };
    if !seccomp.is_object() {
        return at_top("linux.seccomp", Some(seccomp));
    }
    at_seccomp(wanted, "linux.seccomp", seccomp)
}

/// The first place of an engine's configuration at which the fault stands: its edition, or a place in its section.
pub(crate) fn find_in_config<'a>(
    wanted: Wanted,
    root: &'a Value,
    top: &'static str,
    section: &'a Value,
) -> Option<Found<'a>> {
    if let Some(found) = at_keys(wanted, ROOT, Place::top(""), root) {
        return Some(found);
    }
    if !section.is_object() {
        return at_top("linux.seccomp", Some(section));
    }
    at_seccomp(wanted, top, section)
}
