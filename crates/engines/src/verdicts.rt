//! The actions and the errors of a section and of its entries.
use crate::actions::{KILL_THREAD, NAMES, refuses, text_at};
use crate::changes::Changes;
use crate::errors::error_named;
use crate::keys::{put_member, put_pair};
use crate::near::tell_listed;
use crate::place::Place;
use crate::settings::Settings;
use crate::text::Text;
use serde_json::Value;

/// The keys of an action, of its error by number, and of its error by name.
#[derive(Clone, Copy)]
pub(crate) struct VerdictKeys {
    action: &'static str,
    number: &'static str,
    name: &'static str,
}

/// Those of a section.
pub(crate) const OF_SECTION: VerdictKeys = VerdictKeys {
    action: "defaultAction",
    number: "defaultErrnoRet",
    name: "defaultErrno",
};

/// Those of an entry.
pub(crate) const OF_ENTRY: VerdictKeys = VerdictKeys {
    action: "action",
    number: "errnoRet",
    name: "errno",
};

// Two actions as they are written.
const KILL: &str = "\"SCMP_ACT_KILL\"";

const LOG: &str = "\"SCMP_ACT_LOG\"";

// Tells an action that is written by another name.
fn tell_action(changes: &mut Changes, place: Place<'_>, object: &Value, key: &str) {
    if text_at(object, key) == KILL_THREAD {
        let what = "SCMP_ACT_KILL_THREAD, and written as SCMP_ACT_KILL, which means the same";
        changes.tell(place.key(key), what, false);
    }
}

// Adds the action under a key, by the name that it is read by, behind the members that the object has.
fn put_action(text: &mut Text, object: &Value, key: &str) {
    if text_at(object, key) != KILL_THREAD {
        return put_member(text, object, key);
    }
    put_pair(text, key, KILL);
}

// Tells an error by its name that is left out, or is not known.
fn tell_error(
    changes: &mut Changes,
    settings: &Settings<'_>,
    place: Place<'_>,
    object: &Value,
    keys: VerdictKeys,
) {
    let name = text_at(object, keys.name);
    if name == "" {
        return;
    }
    if !settings.is_for_podman() {
        let what = "is read by podman alone, and left out";
        return changes.tell_text(place.key(keys.name), name, what, false);
    }
    if error_named(name).is_none() {
        changes.refuse(place.key(keys.name), "no error that is known");
    }
}

// Adds the error of an action. For podman one by its name counts before one by its number.
fn put_error(text: &mut Text, settings: &Settings<'_>, object: &Value, keys: VerdictKeys) {
    let name = text_at(object, keys.name);
    if name == "" || !settings.is_for_podman() {
        return put_member(text, object, keys.number);
    }
    if let Some(number) = error_named(name) {
        put_pair(text, keys.number, number);
    }
}

// Whether an action is logged in place of done.
fn is_logged(settings: &Settings<'_>, action: &str) -> bool {
    settings.wanted.logs && refuses(action)
}

/// Tells what changes of an action and its error.
pub(crate) fn tell_verdict(
    changes: &mut Changes,
    settings: &Settings<'_>,
    place: Place<'_>,
    object: &Value,
    keys: VerdictKeys,
) {
    let action = text_at(object, keys.action);
    tell_listed(changes, place.key(keys.action), action, NAMES);
    if is_logged(settings, action) {
        let what = "is written as SCMP_ACT_LOG";
        return changes.tell_text(place.key(keys.action), action, what, false);
    }
    tell_action(changes, place, object, keys.action);
    tell_error(changes, settings, place, object, keys);
}

/// Adds an action and its error, or that the call is logged where refusals are to be.
pub(crate) fn put_verdict(
    text: &mut Text,
    settings: &Settings<'_>,
    object: &Value,
    keys: VerdictKeys,
) {
    if is_logged(settings, text_at(object, keys.action)) {
        return put_pair(text, keys.action, LOG);
    }
    put_action(text, object, keys.action);
    put_error(text, settings, object, keys);
}
