//! The rows of the table of calls: what the kernel knows of a record before any task is looked at.
ghost use Rattle.std.specs.Prelude.{◌≡◌};
ghost use Rattle.processes.specs.Calls.{clone_flags, loading_of, loading_row, prctl_row, row_by, row_of, seccomp_row};

use crate::calls::Call;
use crate::flags::{FilterFlags, known_flags};
use bitflags::Flags;
use call_record::Record;
use call_tables::call_name;
use machines::Arch;

// clone's flag for a thread of the caller's group (clone(2)).
const CLONE_THREAD: u64 = 0x10000;

// What seccomp is asked for: a filter (seccomp(2)).
const SET_MODE_FILTER: u64 = 1;

// What prctl is asked for: seccomp (prctl(2)).
const PR_SET_SECCOMP: u64 = 22;

// What seccomp is to do: filter.
const MODE_FILTER: u64 = 2;

/// How a filter is loaded.
#[derive(Clone, Copy)]
pub struct Loading {
    /// For all tasks of the caller's group, and not for the caller alone.
    pub for_all: bool,
    /// With a listener.
    pub listens: bool,
    /// A task that cannot get it is told by an error, and not by its number.
    pub tells_error: bool,
}

/// A row of the table of calls.
#[derive(Clone, Copy)]
pub enum Row {
    /// fork, vfork, and clone of a task with a group of its own.
    NewTask,
    /// clone of a thread.
    NewThread,
    /// A new image.
    Execve,
    /// The end of the caller.
    Exit,
    /// The end of the caller's group.
    ExitGroup,
    /// A signal to a group.
    Kill,
    /// The number of the caller's group.
    GetPid,
    /// The caller's number.
    GetTid,
    /// The number of the caller's parent.
    GetParent,
    /// seccomp or prctl with a filter.
    Load(Loading),
    /// Any other seccomp or prctl.
    NoLoad,
    /// Any other call that the machine has.
    Plain,
    /// The kernel has no such call.
    Missing,
}

// How these flags ask for a filter to be loaded.
fn loading_of(bits: u64) -> Loading
    ensures { result ≡ loading_of bits }
{
    let flags = FilterFlags::from_bits_retain(bits);
    Loading {
        for_all: flags.contains(FilterFlags::TSYNC),
        listens: flags.contains(FilterFlags::NEW_LISTENER),
        tells_error: flags.contains(FilterFlags::TSYNC_ESRCH),
    }
}

// The row of a load: a listener's number and a task's could not be told apart.
fn loading_row(loading: Loading) -> Row
    ensures { result ≡ loading_row loading }
{
    if loading.for_all && loading.listens && !loading.tells_error {
        return Row::NoLoad;
    }
    Row::Load(loading)
}

// The row of a seccomp call.
fn seccomp_row(native: Arch, rec: &Record) -> Row
    ensures { result ≡ seccomp_row native rec.now }
{
    if rec.args[0] != SET_MODE_FILTER {
        return Row::NoLoad;
    }
    let bits = rec.args[1];
    if bits & known_flags(native) != bits {
        return Row::NoLoad;
    }
    loading_row(loading_of(bits))
}

// The row of a prctl call.
fn prctl_row(rec: &Record) -> Row
    ensures { result ≡ prctl_row rec.now }
{
    if rec.args[0] != PR_SET_SECCOMP {
        return Row::NoLoad;
    }
    if rec.args[1] != MODE_FILTER {
        return Row::NoLoad;
    }
    Row::Load(loading_of(0))
}

// The flags of a clone call, which on s390x and s390 are its second argument (clone(2)).
fn clone_flags(rec: &Record) -> u64
    ensures { result ≡ clone_flags rec.now }
{
    if rec.arch == Arch::LinuxS390x.token() || rec.arch == Arch::LinuxS390.token() {
        rec.args[1]
    } else {
        rec.args[0]
    }
}

// The row of a record of this call.
fn row_by(native: Arch, call: Call, rec: &Record) -> Row
    ensures { result ≡ row_by native call rec.now }
{
    match call {
        Call::Fork => Row::NewTask,
        Call::Clone => {
            if clone_flags(rec) & CLONE_THREAD == 0 {
                Row::NewTask
            } else {
                Row::NewThread
            }
        }
        Call::Execve => Row::Execve,
        Call::Exit => Row::Exit,
        Call::ExitGroup => Row::ExitGroup,
        Call::Kill => Row::Kill,
        Call::GetPid => Row::GetPid,
        Call::GetTid => Row::GetTid,
        Call::GetParent => Row::GetParent,
        Call::Seccomp => seccomp_row(native, rec),
        Call::Prctl => prctl_row(rec),
        Call::Lacking => Row::Missing,
        Call::Plain => Row::Plain,
    }
}

/// The row of a record on a machine.
pub(crate) fn row_of(native: Arch, rec: &Record) -> Row
    ensures { result ≡ row_of native rec.now }
{
    if rec.arch != native.token() {
        return Row::Missing;
    }
    if call_name(native, rec.nr).is_none() {
        return Row::Missing;
    }
    row_by(native, Call::numbered(native, rec.nr), rec)
}
