//! What logs show of files and processes, and what a longer run may do besides.
use crate::lists::is_in;
use crate::strace::Call;
use call_tables::call_name;
use std::alloc::AllocError;

/// What records do with files, and how many processes they make.
#[derive(Clone, Copy)]
pub(crate) struct Deeds {
    writes: bool,
    syncs: bool,
    truncates: bool,
    renames: bool,
    unlinks: bool,
    forks: u64,
}

// open(2): the bits of the flags that ask for a file to be written, or to be made.
const WRITING: u64 = 0o3;

const CREATING: u64 = 0o100;

// clone(2): the flag by which a thread is made.
const THREAD: u64 = 0x0001_0000;

// Whether a call opens a file that may be written then. What stands in memory, as the flags of openat2, is not seen.
fn opens_to_write(name: &str, args: &[u64; 6]) -> bool {
    let flags = match name {
        "open" => args[1],
        "openat" => args[2],
        "creat" => WRITING,
        _ => 0,
    };
    flags & (WRITING | CREATING) != 0
}

// How many processes a call makes. What clone3 makes is not seen: most often it is a thread.
fn forks(name: &str, flags: u64) -> u64 {
    if name == "fork" || name == "vfork" {
        return 1;
    }
    if name == "clone" && flags & THREAD == 0 {
        return 1;
    }
    0
}

// The flags of clone: its second argument on s390x and s390, and its first elsewhere (clone(2)).
fn clone_flags(call: &Call<'_>) -> u64 {
    if call.arch.is_big_endian() {
        call.args[1]
    } else {
        call.args[0]
    }
}

const SYNCS: &[&str] = &[
    "fdatasync",
    "fsync",
    "msync",
    "sync",
    "sync_file_range",
    "syncfs",
];

const TRUNCATES: &[&str] = &["ftruncate", "ftruncate64", "truncate", "truncate64"];

const RENAMES: &[&str] = &["rename", "renameat", "renameat2"];

const UNLINKS: &[&str] = &["unlink", "unlinkat"];

// Whether a call was shown that is one of these, or this one is.
fn is_shown(was_shown: bool, list: &[&'static str], name: &str) -> bool {
    was_shown || is_in(list, name)
}

impl Deeds {
    /// Those of no record.
    pub(crate) fn none() -> Deeds {
        Deeds {
            writes: false,
            syncs: false,
            truncates: false,
            renames: false,
            unlinks: false,
            forks: 0,
        }
    }

    /// With those of a call.
    pub(crate) fn with(self, call: &Call<'_>) -> Deeds {
        let name = call_name(call.arch, call.nr).unwrap_or("");
        Deeds {
            writes: self.writes || opens_to_write(name, &call.args),
            syncs: is_shown(self.syncs, SYNCS, name),
            truncates: is_shown(self.truncates, TRUNCATES, name),
            renames: is_shown(self.renames, RENAMES, name),
            unlinks: is_shown(self.unlinks, UNLINKS, name),
            forks: self.forks.saturating_add(forks(name, clone_flags(call))),
        }
    }

    // Whether files are written, and one of the other things is done with none.
    fn lacks(&self) -> bool {
        self.writes && !(self.syncs && self.truncates && self.renames && self.unlinks)
    }
}

// Adds a word if it is missing.
fn put_missing(text: &mut String, is_there: bool, word: &str) -> Result<(), AllocError> {
    if is_there {
        return Ok(());
    }
    text.push_str(" ")?;
    text.push_str(word)
}

// Adds what is done with no file, if files are written.
fn put_files(text: &mut String, deeds: &Deeds) -> Result<(), AllocError> {
    if !deeds.lacks() {
        return Ok(());
    }
    text.push_str("files are written, and no record is of:")?;
    put_missing(text, deeds.syncs, "fsync")?;
    put_missing(text, deeds.truncates, "ftruncate")?;
    put_missing(text, deeds.renames, "rename")?;
    put_missing(text, deeds.unlinks, "unlink")?;
    text.push_str("; a longer run may call it\n")
}

/// Adds remarks on what a longer run may do besides.
pub(crate) fn put_deeds(text: &mut String, deeds: &Deeds) -> Result<(), AllocError> {
    put_files(text, deeds)?;
    if deeds.forks == 1 {
        text.push_str("one process is made, and only once; a longer run may make more\n")?;
    }
    Ok(())
}
