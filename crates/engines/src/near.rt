//! Names that are near to a known one: a slip of the pen, most likely. They are told behind all other lines.
use crate::changes::Changes;
use crate::keys::is_one_of;
use crate::place::Place;
use call_tables::{call_name, call_number};
use machines::{Arch, Family};
use std::alloc::{AllocError, Global};
use strsim::levenshtein;

// The names of libseccomp for machines that are not known here.
const OTHER_MACHINES: &[&str] = &[
    "SCMP_ARCH_MIPS",
    "SCMP_ARCH_MIPS64",
    "SCMP_ARCH_MIPS64N32",
    "SCMP_ARCH_MIPSEL",
    "SCMP_ARCH_MIPSEL64",
    "SCMP_ARCH_MIPSEL64N32",
    "SCMP_ARCH_PARISC",
    "SCMP_ARCH_PARISC64",
    "SCMP_ARCH_PPC",
    "SCMP_ARCH_PPC64",
    "SCMP_ARCH_M68K",
    "SCMP_ARCH_SH",
    "SCMP_ARCH_SHEB",
];

// What others call machines.
const MACHINES_OF_OTHERS: &[(&str, Arch)] = &[
    ("SCMP_ARCH_AMD64", Arch::LinuxX86_64),
    ("SCMP_ARCH_X64", Arch::LinuxX86_64),
    ("SCMP_ARCH_I386", Arch::LinuxX86),
    ("SCMP_ARCH_ARM64", Arch::LinuxAarch64),
];

// From so many edits on a name is like no other.
const FAR: usize = 3;

// Operators are few: EQUAL stands for EQ.
const FAR_OF_OPERATORS: usize = 4;

// A longer name is like none.
const MOST_LETTERS: usize = 64;

// The nearest name so far, and how many edits lead to it.
#[derive(Clone, Copy)]
struct Nearest {
    edits: usize,
    name: Option<&'static str>,
}

impl Nearest {
    // No name, where so many edits are too many.
    fn none(far: usize) -> Nearest {
        Nearest {
            edits: far,
            name: None,
        }
    }

    // The nearer one of this and a further name.
    fn or(self, alloc: Global, word: &str, name: &'static str) -> Result<Nearest, AllocError> {
        let edits = levenshtein(alloc, word, name)?;
        if edits < self.edits {
            return Ok(Nearest {
                edits,
                name: Some(name),
            });
        }
        Ok(self)
    }
}

// The nearest name of a list.
fn nearest_of(
    alloc: Global,
    word: &str,
    names: &[&'static str],
    far: usize,
) -> Result<Option<&'static str>, AllocError> {
    if word.len() > MOST_LETTERS {
        return Ok(None);
    }
    let mut nearest = Nearest::none(far);
    for name in names {
        nearest = nearest.or(alloc, word, *name)?;
    }
    Ok(nearest.name)
}

// The nearer one of a name and those of a machine's calls.
fn or_call_of(
    alloc: Global,
    word: &str,
    before: Nearest,
    arch: Arch,
) -> Result<Nearest, AllocError> {
    let mut nearest = before;
    for numbers in arch.call_numbers() {
        for number in numbers.first..numbers.last.saturating_add(1) {
            if let Some(name) = call_name(arch, number) {
                nearest = nearest.or(alloc, word, name)?;
            }
        }
    }
    Ok(nearest)
}

// The nearest name of a call of any machine.
fn nearest_call(alloc: Global, word: &str) -> Result<Option<&'static str>, AllocError> {
    if word.len() > MOST_LETTERS {
        return Ok(None);
    }
    let mut nearest = Nearest::none(FAR);
    for arch in Family::Whole.machines() {
        nearest = or_call_of(alloc, word, nearest, *arch)?;
    }
    Ok(nearest.name)
}

// A name in lower case.
fn lowered(alloc: Global, name: &str) -> Result<String, AllocError> {
    let mut text = String::new(alloc);
    for letter in name.chars() {
        text.push(letter.to_ascii_lowercase())?;
    }
    Ok(text)
}

// A name without what C puts before the number of a call.
fn bare(name: &str) -> &str {
    match name.strip_prefix("sys_") {
        Some(rest) => rest,
        None => name.strip_prefix("__nr_").unwrap_or(name),
    }
}

// Whether some machine has a call of the name.
fn is_call(name: &str) -> bool {
    for arch in Family::Whole.machines() {
        if call_number(*arch, name).is_some() {
            return true;
        }
    }
    false
}

// What is told of a name that no machine's call has.
fn put_call(
    changes: &mut Changes,
    alloc: Global,
    place: Place<'_>,
    name: &str,
) -> Result<(), AllocError> {
    if name.starts_with("@") {
        changes.tell_slip(place, name, "groups of calls are words behind the file");
        return Ok(());
    }
    if name.contains("*") {
        changes.tell_slip(place, name, "engines know no patterns");
        return Ok(());
    }
    let low = lowered(alloc, name)?;
    if let Some(near) = nearest_call(alloc, bare(low.as_str()))? {
        changes.tell_near(place, name, near);
    }
    Ok(())
}

/// Tells of a name that the tables at hand do not have what may be meant, unless another machine has a call of the name.
pub(crate) fn tell_call(changes: &mut Changes, place: Place<'_>, name: &str) {
    if is_call(name) {
        return;
    }
    let alloc = changes.alloc();
    if put_call(changes, alloc, place, name).is_err() {
        changes.lines.fail();
    }
}

// Tells the nearest name of a list, if one is near.
fn tell_of(
    changes: &mut Changes,
    place: Place<'_>,
    name: &str,
    names: &[&'static str],
    far: usize,
) {
    match nearest_of(changes.alloc(), name, names, far) {
        Ok(Some(near)) => changes.tell_near(place, name, near),
        Ok(None) => {}
        Err(_) => changes.lines.fail(),
    }
}

/// Tells of a name that none of these is which one may be meant.
pub(crate) fn tell_listed(
    changes: &mut Changes,
    place: Place<'_>,
    name: &str,
    names: &[&'static str],
) {
    if name != "" && !is_one_of(names, name) {
        tell_of(changes, place, name, names, FAR);
    }
}

/// Tells which operator may be meant by a name that is none of these.
pub(crate) fn tell_operator(
    changes: &mut Changes,
    place: Place<'_>,
    name: &str,
    names: &[&'static str],
) {
    if name != "" && !is_one_of(names, name) {
        tell_of(changes, place, name, names, FAR_OF_OPERATORS);
    }
}

// What a machine is called that others call so.
fn machine_of_others(name: &str) -> Option<&'static str> {
    for entry in MACHINES_OF_OTHERS {
        if entry.0 == name {
            return Some(entry.1.scmp());
        }
    }
    None
}

// The machine whose name is nearest, unless the name is that of a machine, known here or not.
fn nearest_machine(alloc: Global, name: &str) -> Result<Option<&'static str>, AllocError> {
    if name.len() > MOST_LETTERS || is_one_of(OTHER_MACHINES, name) {
        return Ok(None);
    }
    let mut nearest = Nearest::none(FAR);
    for arch in Family::Whole.machines() {
        nearest = nearest.or(alloc, name, arch.scmp())?;
    }
    if nearest.edits == 0 {
        return Ok(None);
    }
    Ok(nearest.name)
}

/// Tells of a machine that is left out which one may be meant.
pub(crate) fn tell_machine(changes: &mut Changes, place: Place<'_>, name: &str) {
    if let Some(meant) = machine_of_others(name) {
        return changes.tell_near(place, name, meant);
    }
    match nearest_machine(changes.alloc(), name) {
        Ok(Some(near)) => changes.tell_near(place, name, near),
        Ok(None) => {}
        Err(_) => changes.lines.fail(),
    }
}
