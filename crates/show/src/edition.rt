//! The edition of a bundle.
use machines::Family;
use serde_json::Value;
use std::alloc::{AllocError, Global};
use std::fmt::Write;

/// The keys of a bundle that are read.
pub(crate) const READ: &[&str] = &[
    "ociVersion",
    "linux",
    "seccomp",
    "defaultAction",
    "defaultErrnoRet",
    "architectures",
    "flags",
    "listenerPath",
    "listenerMetadata",
    "syscalls",
    "names",
    "action",
    "errnoRet",
    "args",
    "index",
    "value",
    "valueTwo",
    "op",
];

// Whether an edition is read.
fn is_read(edition: &str, family: Family) -> bool {
    match edition {
        "1.0.2" | "1.1.0" => true,
        "1.2.0" | "1.2.1" => match family {
            Family::Chosen => false,
            Family::Whole => true,
        },
        _ => false,
    }
}

// Whether an edition is one of the first that is not read.
fn is_near(edition: &str, family: Family) -> bool {
    edition.starts_with("1.") && !is_read(edition, family)
}

// Adds the line of an edition that is read as the first, if it is to be.
fn put_edition(text: &mut String, family: Family, value: &Value) -> Result<bool, AllocError> {
    let edition = value
        .get("ociVersion")
        .and_then(Value::as_str)
        .unwrap_or("");
    if !is_near(edition, family) {
        return Ok(false);
    }
    writeln!(text, "edition {edition:?}, and read as 1.0.2")?;
    Ok(true)
}

// The text of a bundle with the first edition.
fn with_first(alloc: Global, mut value: Value) -> Result<Vec<u8>, AllocError> {
    if let Some(edition) = value.get_mut("ociVersion") {
        *edition = Value::try_from_str(alloc, "1.0.2")?;
    }
    value.to_vec(alloc)
}

/// The bundle with the first edition, which is told, if its own begins as that one and is not read.
pub(crate) fn of_first_edition(
    alloc: Global,
    text: &mut String,
    family: Family,
    bundle: &[u8],
) -> Result<Option<Vec<u8>>, AllocError> {
    let value = match Value::from_slice(alloc, bundle) {
        Ok(value) => value,
        Err(error) => {
            if error.is_memory() {
                return Err(AllocError);
            }
            return Ok(None);
        }
    };
    if !put_edition(text, family, &value)? {
        return Ok(None);
    }
    let other = with_first(alloc, value)?;
    Ok(Some(other))
}
