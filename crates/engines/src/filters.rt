//! For which containers an entry of an engine's own profile counts.
use crate::actions::text_at;
use crate::capabilities::{CAPABILITIES, Engine};
use crate::changes::Changes;
use crate::kernels::{Kernel, kernel_of};
use crate::keys::{FILTER, is_one_of, is_void, tell_unknown};
use crate::near::tell_listed;
use crate::place::{Place, put_place};
use crate::settings::Settings;
use crate::words::Container;
use machines::Arch;
use serde_json::Value;

// What engines call a machine.
fn machine_name(native: Arch) -> &'static str {
    match native {
        Arch::X86_64 | Arch::LinuxX86_64 => "amd64",
        Arch::LinuxX86 => "x86",
        Arch::LinuxX32 => "x32",
        Arch::Aarch64 | Arch::LinuxAarch64 => "arm64",
        Arch::LinuxArm => "arm",
        Arch::LinuxRiscv64 => "riscv64",
        Arch::LinuxPpc64le => "ppc64le",
        Arch::LinuxLoongarch64 => "loong64",
        Arch::LinuxS390x => "s390x",
        Arch::LinuxS390 => "s390",
    }
}

// The member under a key of a filter.
fn member_of<'a>(entry: &'a Value, filter: &str, key: &str) -> Option<&'a Value> {
    let filter = entry.get(filter)?;
    filter.get(key)
}

// The list under a key of a filter, empty where there is none.
fn list_at<'a>(entry: &'a Value, filter: &str, key: &str) -> &'a [Value] {
    match member_of(entry, filter, key).and_then(Value::as_array) {
        Some(list) => list.as_slice(),
        None => &[],
    }
}

// The edition of a kernel in a filter, if there is one. An empty one is that of each kernel, as docker reads it.
fn edition_in(entry: &Value, filter: &str) -> Option<Kernel> {
    match member_of(entry, filter, "minKernel")?.as_str()? {
        "" => Some(Kernel::LEAST),
        edition => kernel_of(edition),
    }
}

// Whether a list has a text.
fn has(list: &[Value], text: &str) -> bool {
    for member in list {
        if member.as_str() == Some(text) {
            return true;
        }
    }
    false
}

// The first of the capabilities of a list that the container has, or has not.
fn first_capability<'a>(list: &'a [Value], container: Container, has: bool) -> Option<&'a str> {
    for member in list {
        let name = member.as_str().unwrap_or("");
        if container.capabilities.have(name) == has {
            return Some(name);
        }
    }
    None
}

// Whether an entry is for other machines.
fn is_for_others(native: Arch, entry: &Value) -> bool {
    let machine = machine_name(native);
    let included = list_at(entry, "includes", "arches");
    has(list_at(entry, "excludes", "arches"), machine)
        || (!included.is_empty() && !has(included, machine))
}

// Whether an entry is for other kernels.
fn is_for_other_kernels(container: Container, entry: &Value) -> bool {
    if let Some(edition) = edition_in(entry, "includes") {
        if !container.kernel.has(edition) {
            return true;
        }
    }
    match edition_in(entry, "excludes") {
        Some(edition) => container.kernel.has(edition),
        None => false,
    }
}

// Tells that an entry does not count, and why.
fn tell_not_counting(changes: &mut Changes, place: Place<'_>, joined: &str, what: &str) {
    put_place(&mut changes.lines, place);
    changes
        .lines
        .put(format_args!(": does not count {joined} {what}\n"));
}

// Tells that an entry does not count on a kernel.
fn tell_other_kernel(changes: &mut Changes, place: Place<'_>, kernel: Kernel) {
    let Kernel { major, minor } = kernel;
    put_place(&mut changes.lines, place);
    changes.lines.put(format_args!(": does not count on Linux {major}.{minor}\n"));
}

// Whether an entry counts for a container, which is told if it does not.
fn counts_for(
    changes: &mut Changes,
    native: Arch,
    container: Container,
    place: Place<'_>,
    entry: &Value,
) -> bool {
    if is_for_others(native, entry) {
        tell_not_counting(changes, place, "on", machine_name(native));
        return false;
    }
    if let Some(name) = first_capability(list_at(entry, "excludes", "caps"), container, true) {
        tell_not_counting(changes, place, "with", name);
        return false;
    }
    if let Some(name) = first_capability(list_at(entry, "includes", "caps"), container, false) {
        tell_not_counting(changes, place, "without", name);
        return false;
    }
    if container.capabilities.engine != Engine::Podman && is_for_other_kernels(container, entry) {
        tell_other_kernel(changes, place, container.kernel);
        return false;
    }
    true
}

// Whether each member of a list is a text.
fn are_texts(list: &[Value]) -> bool {
    for member in list {
        if !member.is_string() {
            return false;
        }
    }
    true
}

// Whether docker reads a text as an edition: two numbers of at most 255, and not 0.0.
fn is_edition(text: &str) -> bool {
    match kernel_of(text) {
        Some(Kernel::LEAST) => false,
        Some(kernel) => kernel.major <= 255 && kernel.minor <= 255,
        None => false,
    }
}

// Whether a member of a filter is one that is read: a list of texts, or an edition of a kernel.
fn is_read(key: &str, member: &Value) -> bool {
    if is_void(member) {
        return true;
    }
    if key == "minKernel" {
        return is_edition(member.as_str().unwrap_or(""));
    }
    match member.as_array() {
        Some(list) => are_texts(list.as_slice()),
        None => false,
    }
}

// Tells what is not read of a member of a filter.
fn tell_member(
    changes: &mut Changes,
    settings: &Settings<'_>,
    place: Place<'_>,
    key: &str,
    member: &Value,
) {
    if key == "minKernel" && settings.is_for_podman() {
        if !is_void(member) {
            changes.tell_text(place, key, "is read by docker alone, and left out", false);
        }
        return;
    }
    if is_one_of(FILTER, key) && !is_read(key, member) {
        let why = "a member that is no list of texts, or no kernel's edition";
        changes.refuse(place, why);
    }
}

// Tells which capabilities of a list may be slips.
fn tell_capabilities(changes: &mut Changes, place: Place<'_>, member: &Value) {
    let Some(list) = member.as_array() else {
        return;
    };
    for (at, name) in list.as_slice().iter().enumerate() {
        if let Some(name) = name.as_str() {
            tell_listed(changes, place.member(at), name, CAPABILITIES);
        }
    }
}

// Tells what is not read of a filter.
fn tell_filter(changes: &mut Changes, settings: &Settings<'_>, place: Place<'_>, filter: &Value) {
    let Some(members) = filter.as_object() else {
        if !filter.is_null() {
            changes.refuse(place, "no object, where one is asked for");
        }
        return;
    };
    tell_unknown(changes, place, filter, FILTER);
    for (key, member) in members.iter() {
        tell_member(changes, settings, place, key.as_str(), member);
        if key.as_str() == "caps" {
            tell_capabilities(changes, place.key("caps"), member);
        }
    }
}

// The keys of the filters of an entry.
const FILTERS: &[&str] = &["includes", "excludes"];

/// What is told of a member that containerd passes over.
pub(crate) const PASSED_OVER: &str = "is read by docker and podman alone, and left out";

// Tells what containerd passes over of an entry.
fn tell_passed_over(changes: &mut Changes, place: Place<'_>, entry: &Value) {
    for key in FILTERS {
        if let Some(filter) = entry.get(*key)
            && !is_void(filter)
        {
            changes.tell(place.key(*key), PASSED_OVER, false);
        }
    }
    if text_at(entry, "name") != "" {
        let why = "is read by docker and podman alone: write names";
        changes.refuse(place.key("name"), why);
    }
}

/// Whether an entry counts: it says for which containers it does, and the profile is worked out for one of them.
pub(crate) fn counts(
    changes: &mut Changes,
    settings: &Settings<'_>,
    place: Place<'_>,
    entry: &Value,
) -> bool {
    let Some(container) = settings.container() else {
        return true;
    };
    if settings.is_for_containerd() {
        tell_passed_over(changes, place, entry);
        return true;
    }
    if let Some(filter) = entry.get("includes") {
        tell_filter(changes, settings, place.filter("includes"), filter);
    }
    if let Some(filter) = entry.get("excludes") {
        tell_filter(changes, settings, place.filter("excludes"), filter);
    }
    counts_for(changes, settings.native, container, place, entry)
}
