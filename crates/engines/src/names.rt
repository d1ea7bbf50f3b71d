//! The names of an entry.
use crate::actions::text_at;
use crate::changes::Changes;
use crate::keys::member_at;
use crate::near::tell_call;
use crate::parts::Part;
use crate::place::Place;
use crate::settings::Settings;
use crate::text::Text;
use call_tables::call_number;
use machines::Family;
use serde_json::Value;

// Whether a name stands in the table of no machine of the family.
fn is_unknown(family: Family, name: &str) -> bool {
    for arch in family.machines() {
        if call_number(*arch, name).is_some() {
            return false;
        }
    }
    true
}

// The name of a call that no table has.
fn unknown_name(family: Family, name: &Value) -> Option<&str> {
    let text = name.as_str()?;
    if is_unknown(family, text) {
        Some(text)
    } else {
        None
    }
}

// Whether a name of an entry is left: one that a table has and that does not give way.
fn is_left(settings: &Settings<'_>, part: Part, name: &Value) -> bool {
    match name.as_str() {
        Some(text) => { !is_unknown(settings.family(), text) && !settings.drops(part, text) }
        None => true,
    }
}

// Tells a name if no table has it.
fn tell_name(
    changes: &mut Changes,
    family: Family,
    place: Place<'_>,
    name: &Value,
    is_stricter: bool,
) {
    if let Some(unknown) = unknown_name(family, name) {
        let what = "is in no table, and left out";
        changes.tell_text(place, unknown, what, is_stricter);
        tell_call(changes, place, unknown);
    }
}

// The one name of an entry as older files have it.
fn single_name(entry: &Value) -> Option<&Value> {
    if text_at(entry, "name") == "" {
        return None;
    }
    entry.get("name")
}

// The names of an entry as newer files have them.
fn listed_names(entry: &Value) -> &[Value] {
    match entry.get("names").and_then(Value::as_array) {
        Some(list) => list.as_slice(),
        None => &[],
    }
}

/// Tells the names of an entry that no table has.
pub(crate) fn tell_names(
    changes: &mut Changes,
    family: Family,
    place: Place<'_>,
    entry: &Value,
    is_stricter: bool,
) {
    if let Some(name) = single_name(entry) {
        if member_at(entry, "names").is_some() {
            changes.refuse(place, "name and names");
        }
        return tell_name(changes, family, place.key("name"), name, is_stricter);
    }
    let place = place.key("names");
    for (at, name) in listed_names(entry).iter().enumerate() {
        tell_name(changes, family, place.member(at), name, is_stricter);
    }
}

// Whether one of these names is left.
fn is_one_left(settings: &Settings<'_>, part: Part, names: &[Value]) -> bool {
    for name in names {
        if is_left(settings, part, name) {
            return true;
        }
    }
    false
}

/// Whether names are left of what is written for an entry.
pub(crate) fn are_left(settings: &Settings<'_>, part: Part, entry: &Value) -> bool {
    if let Some(name) = single_name(entry) {
        return is_left(settings, part, name);
    }
    let Some(names) = member_at(entry, "names") else {
        return false;
    };
    match names.as_array() {
        Some(list) => is_one_left(settings, part, list.as_slice()),
        None => true,
    }
}

// Adds the list of those names that are left.
fn put_list(text: &mut Text, settings: &Settings<'_>, part: Part, names: &[Value]) {
    text.begin("[");
    for name in names {
        if is_left(settings, part, name) {
            text.separate(", ");
            text.put(format_args!("{name}"));
        }
    }
    text.end("]");
}

/// Adds the names of an entry that are left. What is no list stays what it is.
pub(crate) fn put_names(text: &mut Text, settings: &Settings<'_>, part: Part, entry: &Value) {
    if let Some(name) = single_name(entry) {
        return text.put(format_args!("[{name}]"));
    }
    let Some(names) = member_at(entry, "names") else {
        return;
    };
    match names.as_array() {
        Some(list) => put_list(text, settings, part, list.as_slice()),
        None => text.put(format_args!("{names}")),
    }
}
