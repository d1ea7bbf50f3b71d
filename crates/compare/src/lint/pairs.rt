//! Pairs of calls of which one does what the other does.
use crate::lint::places::entry_at;
use call_record::Word;
use call_tables::call_number;
use differ::{Direction, Steps, Unlisted, all_steps, differ_on};
use machines::Arch;
use profile::Profile;
use profile_json::EntryRules;
use std::alloc::{AllocError, Global};
use widths::Text;

// The second does what the first does, under arguments of its own.
const PAIRS: [(&str, &str); 4] = [
    ("socket", "socketcall"),
    ("clone", "clone3"),
    ("open", "openat"),
    ("open", "openat2"),
];

// Profiles of one machine that let each of its calls through, and none.
#[derive(Drop)]
struct Beside {
    open: Profile,
    shut: Profile,
}

// The profile of one machine that says one verdict of all its calls.
fn says_only(alloc: Global, arch: Arch, word: Word) -> Result<Profile, AllocError> {
    match Profile::build(alloc, arch, &[arch], word, Vec::new(alloc)) {
        Ok(profile) => Ok(profile),
        Err(_) => Err(AllocError),
    }
}

impl Beside {
    fn of(alloc: Global, arch: Arch) -> Result<Beside, AllocError> {
        Ok(Beside {
            open: says_only(alloc, arch, Word::ALLOW)?,
            shut: says_only(alloc, arch, Word::KILL_PROCESS)?,
        })
    }
}

// Whether a profile differs from another on a record of a call, in this direction. Where its rules can answer in more ways than are looked
// at, that is not known.
fn differs(
    alloc: Global,
    profile: &Profile,
    other: &Profile,
    call: (Arch, u32),
    direction: Direction,
    steps: &mut Steps,
) -> Result<Option<bool>, AllocError> {
    let (arch, nr) = call;
    match differ_on(alloc, profile, other, arch.token(), nr, direction, steps) {
        Ok(found) => Ok(Some(found.is_some())),
        Err(Unlisted::TooMany) => Ok(None),
        Err(Unlisted::OutOfMemory) => Err(AllocError),
    }
}

// Whether a record of a call is refused.
fn is_refused(
    alloc: Global,
    profile: &Profile,
    beside: &Beside,
    call: (Arch, u32),
    steps: &mut Steps,
) -> Result<Option<bool>, AllocError> {
    differs(alloc, profile, &beside.open, call, Direction::More, steps)
}

// Whether a record of a call is let through.
fn is_through(
    alloc: Global,
    profile: &Profile,
    beside: &Beside,
    call: (Arch, u32),
    steps: &mut Steps,
) -> Result<Option<bool>, AllocError> {
    differs(alloc, profile, &beside.shut, call, Direction::Less, steps)
}

// Whether a part of the first call is let through, if some of it is refused and nothing of the second one.
fn passed(
    alloc: Global,
    profile: &Profile,
    arch: Arch,
    first: u32,
    second: u32,
    steps: &mut Steps,
) -> Result<Option<bool>, AllocError> {
    let beside = Beside::of(alloc, arch)?;
    let of_first = is_refused(alloc, profile, &beside, (arch, first), steps)?;
    let of_second = is_refused(alloc, profile, &beside, (arch, second), steps)?;
    if of_first == Some(true) && of_second == Some(false) {
        return is_through(alloc, profile, &beside, (arch, first), steps);
    }
    Ok(None)
}

// Adds the remark on a pair on one machine.
fn put_pair(
    alloc: Global,
    text: &mut Text,
    profile: &Profile,
    all: &EntryRules,
    arch: Arch,
    pair: (&str, &str),
    steps: &mut Steps,
) -> Result<(), AllocError> {
    let (first, second) = pair;
    let (Some(nr), Some(other)) = (call_number(arch, first), call_number(arch, second)) else {
        return Ok(());
    };
    let Some(in_part) = passed(alloc, profile, arch, nr, other, steps)? else {
        return Ok(());
    };
    text.put("remark: ");
    if let Some(entry) = entry_at(all, arch, Some(other)) {
        text.put(format_args!("linux.seccomp.syscalls[{entry}]: "));
    }
    let machine = arch.machine_name();
    let part = if in_part { " in part" } else { "" };
    text.put(format_args!(
        "{second} of {machine} is let through and does what {first} does, which is refused{part}\n"
    ));
    Ok(())
}

/// Adds the remarks on calls that are let through where others are refused that do the same.
pub(crate) fn put_pairs(
    alloc: Global,
    text: &mut Text,
    profile: &Profile,
    all: &EntryRules,
) -> Result<(), AllocError> {
    let mut steps = all_steps();
    for arch in profile.machines() {
        for pair in &PAIRS {
            put_pair(alloc, text, profile, all, *arch, *pair, &mut steps)?;
        }
    }
    Ok(())
}
