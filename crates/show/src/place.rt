//! Places in a bundle, and what is asked for there (OCI Runtime Specification, config-linux, Seccomp).
use serde_json::Value;
use std::fmt;

/// A place in a bundle: an object at its top, an entry of `syscalls`, a list, a member of the list, and a key.
#[derive(Clone, Copy)]
pub(crate) struct Place {
    pub(crate) top: &'static str,
    pub(crate) entry: Option<usize>,
    pub(crate) list: &'static str,
    pub(crate) member: Option<usize>,
    pub(crate) key: &'static str,
}

impl Place {
    /// An object at the top.
    pub(crate) fn top(top: &'static str) -> Place {
        Place {
            top,
            entry: None,
            list: "",
            member: None,
            key: "",
        }
    }
}

// Each of the next four writes a part of a place, if it is there.

fn write_entry<W: fmt::Write>(f: &mut fmt::Formatter<W>, place: &Place) -> fmt::Result {
    let top = place.top;
    write!(f, "{top}")?;
    match place.entry {
        Some(entry) => {
            let dot = dot_behind(place.top, None);
            write!(f, "{dot}syscalls[{entry}]")
        }
        None => Ok(()),
    }
}

// The dot behind what stands before a key, if something does.
fn dot_behind(top: &str, entry: Option<usize>) -> &'static str {
    if top == "" && entry.is_none() {
        ""
    } else {
        "."
    }
}

fn write_list<W: fmt::Write>(f: &mut fmt::Formatter<W>, place: &Place) -> fmt::Result {
    let list = place.list;
    if list == "" {
        return Ok(());
    }
    let dot = dot_behind(place.top, place.entry);
    write!(f, "{dot}{list}")
}

fn write_member<W: fmt::Write>(f: &mut fmt::Formatter<W>, place: &Place) -> fmt::Result {
    match place.member {
        Some(member) => write!(f, "[{member}]"),
        None => Ok(()),
    }
}

fn write_key<W: fmt::Write>(f: &mut fmt::Formatter<W>, place: &Place) -> fmt::Result {
    let key = place.key;
    if key == "" {
        return Ok(());
    }
    if place.list != "" {
        return write!(f, ".{key}");
    }
    let dot = dot_behind(place.top, place.entry);
    write!(f, "{dot}{key}")
}

impl fmt::Display for Place {
    fn fmt<W: fmt::Write>(&self, f: &mut fmt::Formatter<W>) -> fmt::Result {
        write_entry(f, self)?;
        write_list(f, self)?;
        write_member(f, self)?;
        write_key(f, self)
    }
}

/// What a key's member has to be.
#[derive(Clone, Copy)]
pub(crate) enum Shape {
    Text,
    Whole,
    List,
    Object,
}

impl Shape {
    /// How it is told.
    pub(crate) fn name(self) -> &'static str {
        match self {
            Shape::Text => "a text",
            Shape::Whole => "a whole number",
            Shape::List => "a list",
            Shape::Object => "an object",
        }
    }

    /// Whether a value is of that shape.
    pub(crate) fn fits(self, value: &Value) -> bool {
        match self {
            Shape::Text => value.is_string(),
            Shape::Whole => value.as_u64().is_some(),
            Shape::List => value.is_array(),
            Shape::Object => value.is_object(),
        }
    }
}

/// How a value is told by its shape.
pub(crate) fn shape_of(value: &Value) -> &'static str {
    if value.is_null() {
        return "null";
    }
    if value.is_boolean() {
        return "a truth value";
    }
    if value.is_string() {
        return "a text";
    }
    if value.is_array() {
        return "a list";
    }
    if value.is_object() {
        return "an object";
    }
    if value.as_u64().is_some() {
        return "a whole number";
    }
    "a number that is no whole one below 2^64"
}

/// A key of an object, what stands under it, and whether it has to be there.
#[derive(Clone, Copy)]
pub(crate) struct Key {
    pub(crate) name: &'static str,
    pub(crate) shape: Shape,
    pub(crate) needed: bool,
}

/// The keys of a bundle that are judged, in the order in which they are.
pub(crate) const ROOT: &[Key] = &[Key {
    name: "ociVersion",
    shape: Shape::Text,
    needed: true,
}];

/// The keys of `linux.seccomp` up to its flags.
pub(crate) const HEAD: &[Key] = &[
    Key {
        name: "defaultAction",
        shape: Shape::Text,
        needed: true,
    },
    Key {
        name: "defaultErrnoRet",
        shape: Shape::Whole,
        needed: false,
    },
    Key {
        name: "flags",
        shape: Shape::List,
        needed: false,
    },
];

/// Those behind its flags, up to its machines.
pub(crate) const LISTENER: &[Key] = &[
    Key {
        name: "listenerPath",
        shape: Shape::Text,
        needed: false,
    },
    Key {
        name: "listenerMetadata",
        shape: Shape::Text,
        needed: false,
    },
    Key {
        name: "architectures",
        shape: Shape::List,
        needed: false,
    },
];

/// The key of its entries.
pub(crate) const SYSCALLS: &[Key] = &[Key {
    name: "syscalls",
    shape: Shape::List,
    needed: false,
}];

/// The key of an entry's names.
pub(crate) const NAMES: &[Key] = &[Key {
    name: "names",
    shape: Shape::List,
    needed: true,
}];

/// The keys of an entry behind its names.
pub(crate) const ENTRY: &[Key] = &[
    Key {
        name: "action",
        shape: Shape::Text,
        needed: true,
    },
    Key {
        name: "errnoRet",
        shape: Shape::Whole,
        needed: false,
    },
    Key {
        name: "args",
        shape: Shape::List,
        needed: false,
    },
];

/// The keys of a member of `args`.
pub(crate) const ARG: &[Key] = &[
    Key {
        name: "index",
        shape: Shape::Whole,
        needed: true,
    },
    Key {
        name: "value",
        shape: Shape::Whole,
        needed: true,
    },
    Key {
        name: "valueTwo",
        shape: Shape::Whole,
        needed: false,
    },
    Key {
        name: "op",
        shape: Shape::Text,
        needed: true,
    },
];
