//! The names of actions, flags and operators that are known.
use machines::Family;
use profile_json::{ACTIONS, key};

/// Whether the machines of a family read more actions, and flags.
pub(crate) fn reads_more(family: Family) -> bool {
    match family {
        Family::Chosen => false,
        Family::Whole => true,
    }
}

/// Whether an action is known: in a configuration also the newer name of one.
pub(crate) fn is_action(family: Family, is_config: bool, name: &str) -> bool {
    is_one_of(ACTIONS, name)
        || (is_config && name == key::KILL_THREAD)
        || (reads_more(family) && (name == key::KILL_THREAD || name == key::NOTIFY))
}

/// The flags with which a filter may be loaded.
pub(crate) const FLAGS: &[&str] = &[
    key::FLAG_TSYNC,
    key::FLAG_LOG,
    key::FLAG_SPEC_ALLOW,
    key::FLAG_WAIT_KILLABLE_RECV,
];

/// The actions that take a number.
pub(crate) const TAKING_DATA: &[&str] = &[key::ERRNO, key::TRACE];

/// Whether a name is one of these.
pub(crate) fn is_one_of(names: &[&str], name: &str) -> bool {
    names.iter().any(|other| *other == name)
}
