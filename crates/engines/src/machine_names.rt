//! The machines that a section lists.
use crate::actions::{says_kill_process, text_at};
use crate::changes::Changes;
use crate::filters::PASSED_OVER;
use crate::keys::{MACHINES, is_void, member_at, tell_unknown};
use crate::near::tell_machine;
use crate::place::Place;
use crate::settings::Settings;
use crate::text::Text;
use machines::{Arch, Family};
use serde_json::Value;

// The name of a machine that is not known.
fn unknown_machine(family: Family, machine: &Value) -> Option<&str> {
    let name = machine.as_str()?;
    for arch in family.machines() {
        if arch.scmp() == name {
            return None;
        }
    }
    Some(name)
}

// Adds a machine if it is known, and else tells that it is not.
fn put_machine(
    text: &mut Text,
    changes: &mut Changes,
    family: Family,
    place: Place<'_>,
    machine: &Value,
    widens: bool,
) {
    if let Some(name) = unknown_machine(family, machine) {
        let what = "is left out: its calls get KILL_THREAD";
        changes.tell_text(place, name, what, widens);
        return tell_machine(changes, place, name);
    }
    text.separate(", ");
    text.put(format_args!("{machine}"));
}

// Whether a list has machines, and the native one is none of them. What is no text is refused as such.
fn lacks_native(native: Arch, machines: &[Value]) -> bool {
    let name = native.scmp();
    for machine in machines {
        match machine.as_str() {
            Some(other) if other != name => {}
            _ => return false,
        }
    }
    !machines.is_empty()
}

// Adds the native machine to a list of others: engines have it in each filter.
fn put_native(text: &mut Text, changes: &mut Changes, place: Place<'_>, native: Arch) {
    let name = native.scmp();
    let what = "is the native machine, and added: engines have it in each filter";
    changes.tell_text(place, name, what, false);
    text.separate(", ");
    text.put(format_args!("\"{name}\""));
}

// Adds the list of machines that are known, and the native one to others. Where none is known, though some are listed, no bundle is
// made: engines refuse machines whose order of bytes is another.
fn put_list(
    text: &mut Text,
    changes: &mut Changes,
    native: Arch,
    place: Place<'_>,
    machines: &[Value],
    widens: bool,
) {
    let family = native.family();
    text.begin("[");
    for (at, machine) in machines.iter().enumerate() {
        put_machine(text, changes, family, place.member(at), machine, widens);
    }
    if text.has_begun() && !machines.is_empty() {
        changes.refuse(place, "no machine is listed that ccell knows");
    } else if lacks_native(native, machines) {
        put_native(text, changes, place, native);
    }
    text.end("]");
}

// Adds the machines under `architectures`. What is no list stays what it is.
fn put_listed(
    text: &mut Text,
    changes: &mut Changes,
    native: Arch,
    place: Place<'_>,
    section: &Value,
) {
    let Some(member) = member_at(section, "architectures") else {
        return;
    };
    text.separate(", ");
    text.put("\"architectures\": ");
    let Some(machines) = member.as_array() else {
        return text.put(format_args!("{member}"));
    };
    let place = place.key("architectures");
    let widens = says_kill_process(section);
    put_list(text, changes, native, place, machines.as_slice(), widens);
}

// The place of the row for a machine.
fn row_for(native: Arch, rows: &[Value]) -> Option<usize> {
    for (at, row) in rows.iter().enumerate() {
        if text_at(row, "architecture") == native.scmp() {
            return Some(at);
        }
    }
    None
}

// The machines that stand in a row besides.
fn further_machines(row: &Value) -> &[Value] {
    match row.get("subArchitectures").and_then(Value::as_array) {
        Some(machines) => machines.as_slice(),
        None => &[],
    }
}

// Adds the machines of a row.
fn put_row(
    text: &mut Text,
    changes: &mut Changes,
    settings: &Settings<'_>,
    place: Place<'_>,
    row: &Value,
    widens: bool,
) {
    tell_unknown(changes, place, row, MACHINES);
    let native = settings.native.scmp();
    text.separate(", ");
    text.put(format_args!("\"architectures\": [\"{native}\""));
    for machine in further_machines(row) {
        put_machine(text, changes, settings.family(), place, machine, widens);
    }
    text.put("]");
}

// Whether something stands under a key.
fn says_something(section: &Value, key: &str) -> bool {
    match section.get(key) {
        Some(member) => !is_void(member),
        None => false,
    }
}

// Adds the machines of the row of `archMap` for the native machine, which is alone where there is none.
fn put_mapped(
    text: &mut Text,
    changes: &mut Changes,
    settings: &Settings<'_>,
    place: Place<'_>,
    section: &Value,
) {
    let place = place.key("archMap");
    if says_something(section, "architectures") {
        return changes.refuse(place, "beside architectures");
    }
    let Some(rows) = section.get("archMap").and_then(Value::as_array) else {
        return changes.refuse(place, "no list, where one is asked for");
    };
    let rows = rows.as_slice();
    let Some(at) = row_for(settings.native, rows) else {
        return;
    };
    if let Some(row) = rows.get(at) {
        put_row(
            text,
            changes,
            settings,
            place.member(at),
            row,
            says_kill_process(section),
        );
    }
}

/// Adds a section's machines, if it lists some, of those that are known.
pub(crate) fn put_machines(
    text: &mut Text,
    changes: &mut Changes,
    settings: &Settings<'_>,
    place: Place<'_>,
    section: &Value,
) {
    if settings.container().is_some() && says_something(section, "archMap") {
        if !settings.is_for_containerd() {
            return put_mapped(text, changes, settings, place, section);
        }
        changes.tell(place.key("archMap"), PASSED_OVER, false);
    }
    put_listed(text, changes, settings.native, place, section);
}
