//! The section of a configuration, and its edition.
use crate::changes::Changes;
use crate::keys::{SECTION, is_one_of, member_at, tell_keys, tell_other_cases};
use crate::place::Place;
use crate::text::Text;
use machines::Family;
use section::SECTION_KEYS;
use serde_json::Value;

/// A section, and what stands before it in a place.
#[derive(Clone, Copy)]
pub(crate) struct Section<'a> {
    pub(crate) value: &'a Value,
    pub(crate) top: &'static str,
}

// Whether a value is a section by itself.
fn is_by_itself(config: &Value) -> bool {
    config.get("linux").is_none() && config.get("defaultAction").is_some()
}

// The section of a Kubernetes object, a SeccompProfile.
fn spec_of(config: &Value) -> Option<&Value> {
    let spec = config.get("spec")?;
    if is_by_itself(spec) { Some(spec) } else { None }
}

/// The section of a configuration, of a Kubernetes object, or one that stands by itself.
pub(crate) fn section_of(config: &Value) -> Option<Section<'_>> {
    if is_by_itself(config) {
        return Some(Section {
            value: config,
            top: "",
        });
    }
    if let Some(value) = spec_of(config) {
        return Some(Section {
            value,
            top: "spec.",
        });
    }
    let linux = config.get("linux")?;
    Some(Section {
        value: member_at(linux, "seccomp")?,
        top: "linux.seccomp.",
    })
}

// Tells the keys of a section that stand beside `linux`: engines read the one or the other.
fn tell_beside(changes: &mut Changes, config: &Value) {
    for key in SECTION_KEYS {
        if config.get(*key).is_some() {
            changes.refuse(
                Place::top("").key(*key),
                "stands beside linux, and readers take either this section or that of linux",
            );
        }
    }
}

/// Tells the keys of what stands above a section, and its own.
pub(crate) fn tell_section_keys(
    changes: &mut Changes,
    config: &Value,
    section: Section<'_>,
    is_for: bool,
) {
    let place = Place::top(section.top);
    if section.top == "linux.seccomp." {
        tell_other_cases(changes, Place::top(""), config);
        tell_beside(changes, config);
        if let Some(linux) = config.get("linux") {
            tell_other_cases(changes, Place::top("linux."), linux);
        }
    }
    tell_keys(changes, place, section.value, SECTION, is_for);
}

const EDITION: &str = "\"1.0.2\"";

// The editions that are read for the machines of a family.
fn editions_of(family: Family) -> &'static [&'static str] {
    match family {
        Family::Chosen => &["1.0.2", "1.1.0"],
        Family::Whole => &["1.0.2", "1.1.0", "1.2.0", "1.2.1"],
    }
}

fn is_read(family: Family, edition: &str) -> bool {
    is_one_of(editions_of(family), edition)
}

/// Adds the edition of a configuration: one of the first that is not read is written as one that is. What is no bundle has none.
pub(crate) fn put_edition(
    text: &mut Text,
    changes: &mut Changes,
    family: Family,
    (config, section): (&Value, Section<'_>),
) {
    let place = Place::top("").key("ociVersion");
    let Some(member) = member_at(config, "ociVersion") else {
        if section.top == "linux.seccomp." {
            changes.tell(place, "missing, and written as 1.0.2", false);
        }
        return text.put(EDITION);
    };
    let edition = member.as_str().unwrap_or("");
    if is_read(family, edition) || !edition.starts_with("1.") {
        return text.put(format_args!("{member}"));
    }
    let what = "is not read, and is written as 1.0.2";
    changes.tell_text(place, edition, what, false);
    text.put(EDITION);
}
