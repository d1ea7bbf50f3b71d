//! Actions, by how strict they are (seccomp(2)).
use crate::capabilities::place_of;
use profile_json::key;
use serde_json::Value;

/// What engines call an action that is written under another name.
pub(crate) const KILL_THREAD: &str = key::KILL_THREAD;

/// All names of actions, the strictest first. The second and the third are of one action.
pub(crate) const NAMES: &[&str] = &[
    key::KILL_PROCESS,
    key::KILL_THREAD,
    key::KILL,
    key::TRAP,
    key::ERRNO,
    key::NOTIFY,
    key::TRACE,
    key::LOG,
    key::ALLOW,
];

// Where LOG stands among them: the actions before it refuse.
const PLACE_OF_LOG: usize = 7;

// The place of an action among them.
fn rank_of(action: &str) -> Option<usize> {
    if action == KILL_THREAD {
        return place_of(NAMES, key::KILL);
    }
    place_of(NAMES, action)
}

/// Whether an action refuses a call: logged in its place, the call is let through.
pub(crate) fn refuses(action: &str) -> bool {
    match rank_of(action) {
        Some(rank) => rank < PLACE_OF_LOG,
        None => false,
    }
}

/// Whether an action is stricter than another, or may be: one that is not known may be anything.
pub(crate) fn may_be_stricter(action: &str, other: &str) -> bool {
    match (rank_of(action), rank_of(other)) {
        (Some(first), Some(second)) => first < second,
        _ => true,
    }
}

/// The text under a key, empty where there is none.
pub(crate) fn text_at<'a>(object: &'a Value, key: &str) -> &'a str {
    object.get(key).and_then(Value::as_str).unwrap_or("")
}

// Whether an entry's action may be stricter than that of calls of a machine that is not listed.
fn may_kill_process(entry: &Value) -> bool {
    text_at(entry, "action") == key::KILL_PROCESS
}

// Whether that is so of one of several entries.
fn one_may_kill_process(entries: &[Value]) -> bool {
    for entry in entries {
        if may_kill_process(entry) {
            return true;
        }
    }
    false
}

/// Whether a section says KILL_PROCESS somewhere, which is stricter than what calls of unlisted machines get.
pub(crate) fn says_kill_process(section: &Value) -> bool {
    if text_at(section, "defaultAction") == key::KILL_PROCESS {
        return true;
    }
    match section.get("syscalls").and_then(Value::as_array) {
        Some(entries) => one_may_kill_process(entries.as_slice()),
        None => false,
    }
}
