//! Places in a configuration.
use crate::text::Text;

/// A place in a configuration: the section, an entry of it, a condition or a filter of the entry. Then a key of one of these, and
/// a member of the list under the key. The section stands behind `top`, which is empty where it stands by itself.
#[derive(Clone, Copy)]
pub(crate) struct Place<'a> {
    top: &'static str,
    entry: Option<usize>,
    condition: Option<usize>,
    filter: Option<&'static str>,
    key: &'a str,
    member: Option<usize>,
}

impl<'a> Place<'a> {
    /// An object at the top.
    pub(crate) fn top(top: &'static str) -> Place<'static> {
        Place {
            top,
            entry: None,
            condition: None,
            filter: None,
            key: "",
            member: None,
        }
    }

    /// An entry of the section.
    pub(crate) fn entry(self, entry: usize) -> Place<'a> {
        Place {
            entry: Some(entry),
            ..self
        }
    }

    /// A condition of the entry.
    pub(crate) fn condition(self, condition: usize) -> Place<'a> {
        Place {
            condition: Some(condition),
            ..self
        }
    }

    /// A filter of the entry: what stands under `includes` or `excludes`.
    pub(crate) fn filter(self, filter: &'static str) -> Place<'a> {
        Place {
            filter: Some(filter),
            ..self
        }
    }

    /// A key of the object.
    pub(crate) fn key<'b>(self, key: &'b str) -> Place<'b> {
        Place {
            top: self.top,
            entry: self.entry,
            condition: self.condition,
            filter: self.filter,
            key,
            member: self.member,
        }
    }

    /// A member of the list.
    pub(crate) fn member(self, member: usize) -> Place<'a> {
        Place {
            member: Some(member),
            ..self
        }
    }
}

// Each of the next five adds a part of a place, if it is there.

fn put_entry(text: &mut Text, entry: Option<usize>) {
    if let Some(entry) = entry {
        text.put(format_args!("syscalls[{entry}]"));
    }
}

fn put_condition(text: &mut Text, condition: Option<usize>) {
    if let Some(condition) = condition {
        text.put(format_args!(".args[{condition}]"));
    }
}

fn put_filter(text: &mut Text, filter: Option<&str>) {
    if let Some(filter) = filter {
        text.put(format_args!(".{filter}"));
    }
}

// Whether a character is shown as it is: no control character, and no mark of direction.
fn is_shown(letter: char) -> bool {
    match letter {
        '\u{200e}' | '\u{200f}' => false,
        '\u{202a}'..='\u{202e}' => false,
        '\u{2066}'..='\u{2069}' => false,
        other => !other.is_control(),
    }
}

// Adds a text that is not ours, with a question mark for what is not shown.
fn put_shown(text: &mut Text, shown: &str) {
    for letter in shown.chars() {
        text.put(if is_shown(letter) { letter } else { '?' });
    }
}

fn put_key(text: &mut Text, place: Place<'_>) {
    if place.key == "" {
        return;
    }
    if place.entry.is_some() {
        text.put(".");
    }
    put_shown(text, place.key);
}

fn put_member(text: &mut Text, member: Option<usize>) {
    if let Some(member) = member {
        text.put(format_args!("[{member}]"));
    }
}

/// Adds a place.
pub(crate) fn put_place(text: &mut Text, place: Place<'_>) {
    text.put(place.top);
    put_entry(text, place.entry);
    put_condition(text, place.condition);
    put_filter(text, place.filter);
    put_key(text, place);
    put_member(text, place.member);
}
