//! How the place of a fault is told: the path of the object or list in which it stands.
ghost use Rattle.std.specs.Prelude.{◌≡◌, IfOk, string_bytes};
ghost use Rattle.show.specs.Placed as spec;

use profile_json::{Part, Place};
use std::alloc::{AllocError, Global};

const SECCOMP: &str = "linux.seccomp";

// The path of a part of an entry.
fn entry_path(alloc: Global, entry: usize, part: Part) -> Result<String, AllocError>
    ensures { IfOk result (λ text. string_bytes text ≡ spec.entry_path entry part) }
{
    match part {
        Part::Itself => format!(in alloc; "linux.seccomp.syscalls[{entry}]"),
        Part::Names => format!(in alloc; "linux.seccomp.syscalls[{entry}].names"),
        Part::Name(at) => format!(in alloc; "linux.seccomp.syscalls[{entry}].names[{at}]"),
        Part::Verdict => format!(in alloc; "linux.seccomp.syscalls[{entry}]"),
        Part::Args => format!(in alloc; "linux.seccomp.syscalls[{entry}].args"),
        Part::Arg(at) => format!(in alloc; "linux.seccomp.syscalls[{entry}].args[{at}]"),
    }
}

/// The path of a place in a bundle. The text and its root have none.
pub(crate) fn prefix_of(alloc: Global, place: Place) -> Result<String, AllocError>
    ensures { IfOk result (λ text. string_bytes text ≡ spec.path place) }
{
    match place {
        Place::Text => String::from_str(alloc, ""),
        Place::Root => String::from_str(alloc, ""),
        Place::Default => String::from_str(alloc, SECCOMP),
        Place::Keys => String::from_str(alloc, SECCOMP),
        Place::Machines => String::from_str(alloc, SECCOMP),
        Place::Entries => String::from_str(alloc, "linux.seccomp.syscalls"),
        Place::Entry(entry, part) => entry_path(alloc, entry, part),
    }
}

/// What a line tells behind the path of its place.
pub(crate) fn rest_of<'a>(line: &'a str, path: &str) -> &'a str {
    match line.strip_prefix(path) {
        Some(rest) => rest,
        None => line,
    }
}
