//! The bundle of a section.
use crate::actions::text_at;
use crate::changes::Changes;
use crate::config::{Section, put_edition, tell_section_keys};
use crate::entries::put_entries;
use crate::keys::{is_one_of, put_member};
use crate::machine_names::put_machines;
use crate::parts::Part;
use crate::place::Place;
use crate::settings::Settings;
use crate::text::Text;
use crate::verdicts::{OF_SECTION, put_verdict, tell_verdict};
use machines::Family;
use serde_json::Value;
use std::alloc::{AllocError, Global};

/// A bundle, and for what in the configuration each of its entries stands.
#[derive(Drop)]
pub(crate) struct Bundle {
    pub(crate) text: String,
    parts: Vec<Part>,
}

impl Bundle {
    /// For what in the configuration an entry stands.
    pub(crate) fn part_of(&self, entry: usize) -> Part {
        match self.parts.get(entry) {
            Some(part) => *part,
            None => Part::whole(entry),
        }
    }
}

// The flags of which a bundle may have any for the machines with all calls of Linux.
const FLAGS: &[&str] = &[
    "SECCOMP_FILTER_FLAG_TSYNC",
    "SECCOMP_FILTER_FLAG_LOG",
    "SECCOMP_FILTER_FLAG_SPEC_ALLOW",
    "SECCOMP_FILTER_FLAG_WAIT_KILLABLE_RECV",
];

// Those without which no call is answered less strictly: logging, a mitigation that is given up, how a listener waits.
const HARMLESS_FLAGS: &[&str] = &[
    "SECCOMP_FILTER_FLAG_LOG",
    "SECCOMP_FILTER_FLAG_SPEC_ALLOW",
    "SECCOMP_FILTER_FLAG_WAIT_KILLABLE_RECV",
];

// Whether a flag is one of these.
fn is_flag_of(flags: &'static [&'static str], flag: &Value) -> bool {
    is_one_of(flags, flag.as_str().unwrap_or(""))
}

// Whether what stands in a section beside its profile is read for a family.
fn is_read(family: Family) -> bool {
    match family {
        Family::Chosen => false,
        Family::Whole => true,
    }
}

// The flags that are read for a family.
fn flags_of(family: Family) -> &'static [&'static str] {
    match family {
        Family::Chosen => &[],
        Family::Whole => FLAGS,
    }
}

// Tells a flag that is left out.
fn tell_flag(changes: &mut Changes, place: Place<'_>, flag: &Value) {
    let name = flag.as_str().unwrap_or("");
    let what = "is not read, and left out";
    changes.tell_text(place, name, what, !is_flag_of(HARMLESS_FLAGS, flag));
}

// Adds the flags that are read, and tells the others.
fn put_each_flag(
    text: &mut Text,
    changes: &mut Changes,
    place: Place<'_>,
    read: &'static [&'static str],
    flags: &[Value],
) {
    let mut has_begun = false;
    for (at, flag) in flags.iter().enumerate() {
        if !is_flag_of(read, flag) {
            tell_flag(changes, place.member(at), flag);
        } else {
            if !has_begun {
                text.separate(", ");
                text.begin("\"flags\": [");
                has_begun = true;
            }
            text.separate(", ");
            text.put(format_args!("{flag}"));
        }
    }
    if has_begun {
        text.end("]");
    }
}

// Adds the flags of a section that are read.
fn put_flags(
    text: &mut Text,
    changes: &mut Changes,
    family: Family,
    place: Place<'_>,
    section: &Value,
) {
    let read = flags_of(family);
    match section.get("flags").and_then(Value::as_array) {
        Some(flags) => put_each_flag(text, changes, place.key("flags"), read, flags.as_slice()),
        None => put_member(text, section, "flags"),
    }
}

// Tells that the member of a listener is left out. No call is answered less strictly without it.
fn tell_listener(changes: &mut Changes, place: Place<'_>, family: Family) {
    let what = if is_read(family) {
        "says nothing without listenerPath, and is left out"
    } else {
        "is not read, and left out"
    };
    changes.tell(place, what, false);
}

// Adds the member of a listener, if it is read.
fn put_listener(
    text: &mut Text,
    changes: &mut Changes,
    family: Family,
    place: Place<'_>,
    section: &Value,
    key: &str,
) {
    match section.get(key).and_then(Value::as_str) {
        Some("") => {}
        Some(_) if !is_read(family) || text_at(section, "listenerPath") == "" => {
            tell_listener(changes, place.key(key), family)
        }
        _ => put_member(text, section, key),
    }
}

// Adds the members of a section above its entries.
fn put_head(
    text: &mut Text,
    changes: &mut Changes,
    settings: &Settings<'_>,
    place: Place<'_>,
    section: &Value,
) {
    tell_verdict(changes, settings, place, section, OF_SECTION);
    put_verdict(text, settings, section, OF_SECTION);
    let family = settings.family();
    put_flags(text, changes, family, place, section);
    put_listener(text, changes, family, place, section, "listenerPath");
    put_listener(text, changes, family, place, section, "listenerMetadata");
    put_machines(text, changes, settings, place, section);
}

// Adds a section's entries, if it has some, and for what each stands.
fn put_syscalls(
    text: &mut Text,
    changes: &mut Changes,
    parts: &mut Vec<Part>,
    settings: &Settings<'_>,
    place: Place<'_>,
    section: &Value,
) {
    let Some(list) = section.get("syscalls").and_then(Value::as_array) else {
        return put_member(text, section, "syscalls");
    };
    text.separate(",\n      ");
    text.begin("\"syscalls\": [");
    put_entries(text, changes, parts, settings, place, list.as_slice());
    if !text.has_begun() {
        text.put("\n      ");
    }
    text.end("]");
}

/// The bundle of a configuration's section.
pub(crate) fn bundle_of(
    alloc: Global,
    changes: &mut Changes,
    settings: &Settings<'_>,
    config: &Value,
    section: Section<'_>,
) -> Result<Bundle, AllocError> {
    tell_section_keys(changes, config, section, settings.container().is_some());
    let mut text = Text::new(alloc);
    let mut parts = Vec::new(alloc);
    let place = Place::top(section.top);
    text.put("{\n  \"ociVersion\": ");
    put_edition(&mut text, changes, settings.family(), (config, section));
    text.begin(",\n  \"linux\": {\n    \"seccomp\": {\n      ");
    put_head(&mut text, changes, settings, place, section.value);
    put_syscalls(
        &mut text,
        changes,
        &mut parts,
        settings,
        place,
        section.value,
    );
    text.end("\n    }\n  }\n}\n");
    Ok(Bundle {
        text: text.whole()?,
        parts,
    })
}
