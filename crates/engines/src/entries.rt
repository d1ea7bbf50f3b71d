//! The entries of `syscalls`.
use crate::actions::{may_be_stricter, text_at};
use crate::changes::Changes;
use crate::conditions::{asked_alone, put_conditions};
use crate::filters::counts;
use crate::keys::{ENTRY, member_at, tell_keys};
use crate::names::{are_left, put_names, tell_names};
use crate::parts::Part;
use crate::place::Place;
use crate::settings::Settings;
use crate::text::Text;
use crate::verdicts::{OF_ENTRY, put_verdict, tell_verdict};
use serde_json::Value;

// Adds the conditions of an entry, if it has them.
fn put_args(
    text: &mut Text,
    changes: &mut Changes,
    (part, place): (Part, Place<'_>),
    entry: &Value,
) {
    if let Some(args) = member_at(entry, "args") {
        text.put(", \"args\": ");
        put_conditions(text, changes, (part, place), args);
    }
}

// Adds what is written for an entry of which names are left. What is no object stays what it is.
fn put_entry(
    text: &mut Text,
    changes: &mut Changes,
    settings: &Settings<'_>,
    (part, place): (Part, Place<'_>),
    entry: &Value,
) {
    if !entry.is_object() {
        return text.put(format_args!("{entry}"));
    }
    text.put("{\"names\": ");
    put_names(text, settings, part, entry);
    put_verdict(text, settings, entry, OF_ENTRY);
    put_args(text, changes, (part, place), entry);
    text.put("}");
}

// Adds what is written for an entry, on a line, and keeps for what it stands.
fn put_part(
    text: &mut Text,
    changes: &mut Changes,
    parts: &mut Vec<Part>,
    settings: &Settings<'_>,
    (part, place): (Part, Place<'_>),
    entry: &Value,
) {
    text.separate(",");
    text.put("\n        ");
    put_entry(text, changes, settings, (part, place), entry);
    if parts.push(part).is_err() {
        text.fail();
    }
}

const ASKED_ALONE: &str =
    "an argument stands twice: engines ask each condition by itself, and each is written as an entry";

const READ_UNALIKE: &str =
    "an argument stands twice, with more than six conditions: runc asks each by itself, and crun reads six";

// Adds an entry for each of an entry's conditions, of which two are on one argument.
fn put_conditions_alone(
    text: &mut Text,
    changes: &mut Changes,
    parts: &mut Vec<Part>,
    settings: &Settings<'_>,
    (at, place): (usize, Place<'_>),
    entry: &Value,
    conditions: &[Value],
) {
    if conditions.len() > 6 {
        return changes.refuse(place.key("args"), READ_UNALIKE);
    }
    changes.tell(place.key("args"), ASKED_ALONE, false);
    for condition in 0..conditions.len() {
        let part = Part::with_condition(at, condition);
        if are_left(settings, part, entry) {
            put_part(text, changes, parts, settings, (part, place), entry);
        }
    }
}

// Adds an entry that is kept, or one for each of its conditions.
fn put_kept(
    text: &mut Text,
    changes: &mut Changes,
    parts: &mut Vec<Part>,
    settings: &Settings<'_>,
    (at, place): (usize, Place<'_>),
    entry: &Value,
) {
    tell_verdict(changes, settings, place, entry, OF_ENTRY);
    match asked_alone(entry) {
        Some(conditions) => put_conditions_alone(
            text,
            changes,
            parts,
            settings,
            (at, place),
            entry,
            conditions,
        ),
        None => put_part(
            text,
            changes,
            parts,
            settings,
            (Part::whole(at), place),
            entry,
        ),
    }
}

// Whether an entry is kept, which is told if it is not.
fn is_kept(
    changes: &mut Changes,
    settings: &Settings<'_>,
    (at, place): (usize, Place<'_>),
    entry: &Value,
) -> bool {
    if !entry.is_object() {
        return true;
    }
    tell_keys(changes, place, entry, ENTRY, settings.container().is_some());
    if !counts(changes, settings, place, entry) {
        return false;
    }
    let is_stricter = may_be_stricter(text_at(entry, "action"), settings.default);
    tell_names(changes, settings.family(), place, entry, is_stricter);
    if are_left(settings, Part::whole(at), entry) {
        return true;
    }
    changes.tell(place, "has no names, and is left out", is_stricter);
    false
}

// From how many entries on no further one of the configuration is written. It is one more than a bundle may have, which is enough for
// it to be refused.
const MOST_WRITTEN: usize = 1025;

/// Adds the entries that are kept, a line each, and for what each stands. Of more than a bundle may have, which is refused by their
/// number, the last ones are not written.
pub(crate) fn put_entries(
    text: &mut Text,
    changes: &mut Changes,
    parts: &mut Vec<Part>,
    settings: &Settings<'_>,
    place: Place<'_>,
    list: &[Value],
) {
    for (at, entry) in list.iter().enumerate() {
        let place = place.entry(at);
        if is_kept(changes, settings, (at, place), entry) && parts.len() < MOST_WRITTEN {
            put_kept(text, changes, parts, settings, (at, place), entry);
        }
    }
}
