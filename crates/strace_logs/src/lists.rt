//! Names that a bundle gets beside those of the logs.
ghost use Rattle.std.specs.Prelude.{◌≡◌, IfSome};
ghost use Rattle.std.specs.List.{list_any};
ghost use Rattle.std.specs.Str.{bytes_eq};
ghost use Rattle.strace_logs.specs.Lists as spec;
ghost use Rattle.strace_logs.specs.Wish.{otherwise_word, rest_word, runtime_word};

use call_record::Word;

/// What loads a filter and then starts the program.
#[derive(Clone, Copy)]
pub enum Runtime {
    Crun,
    Runc,
    Bubblewrap,
    /// runc, and the process 1 that docker puts before the program with `--init`.
    Docker,
    /// crun, and the process 1 that podman puts before it with `--init`.
    Podman,
}

/// What becomes of the calls that no log shows.
#[derive(Clone, Copy)]
pub enum Otherwise {
    /// They fail with EPERM.
    Errno,
    /// They fail with ENOSYS.
    Enosys,
    /// They are carried out, and logged.
    Log,
    /// The process ends.
    Kill,
}

/// Calls that programs need and that a log may lack. They are those that end a program, those that the kernel makes it repeat,
/// those behind a signal's handler and those that only wait for a signal. They are also what a node without a vDSO asks for the
/// time, and what `abort` calls.
pub(crate) const NEEDED: &[&str] = &[
    "clock_gettime",
    "clock_gettime64",
    "exit",
    "exit_group",
    "getcpu",
    "getpid",
    "gettid",
    "gettimeofday",
    "pause",
    "restart_syscall",
    "rt_sigprocmask",
    "rt_sigreturn",
    "rt_sigsuspend",
    "rt_sigtimedwait",
    "rt_sigtimedwait_time64",
    "sigreturn",
    "sigsuspend",
    "tgkill",
    "time",
];

/// Calls by which threads are made: a C library makes them by either.
pub(crate) const THREADS: &[&str] = &["clone", "clone3"];

/// Calls without which programs go on by older ones where they fail with ENOSYS, and fail where they get EPERM.
pub(crate) const FALLBACKS: &[&str] = &[
    "clone3",
    "close_range",
    "epoll_pwait2",
    "faccessat2",
    "fchmodat2",
    "openat2",
    "statx",
];

/// What crun calls between the load of a filter and the program. Without `no_new_privs` it loads before it gives up rights, and
/// before it waits for `start`.
pub(crate) const OF_CRUN: &[&str] = &[
    "capset",
    "close",
    "close_range",
    "execve",
    "prctl",
    "pselect6",
    "read",
    "rt_sigaction",
    "rt_sigprocmask",
    "setresgid",
    "setresuid",
    "write",
];

/// What runc calls between the load of a filter and the program.
pub(crate) const OF_RUNC: &[&str] = &[
    "capget",
    "capset",
    "chdir",
    "close",
    "epoll_ctl",
    "execve",
    "faccessat2",
    "fcntl",
    "fstat",
    "fstatfs",
    "futex",
    "getcwd",
    "getdents64",
    "getpid",
    "getppid",
    "newfstatat",
    "openat",
    "prctl",
    "read",
    "rt_sigreturn",
    "setgid",
    "setgroups",
    "setuid",
    "write",
];

/// What bubblewrap calls between the load of a filter and the program. Its process 1 waits for the program.
pub(crate) const OF_BUBBLEWRAP: &[&str] = &["execve", "wait4"];

/// What the process 1 calls that docker puts before a program with `--init` (tini, with a C library in it).
pub(crate) const OF_TINI: &[&str] = &[
    "arch_prctl",
    "brk",
    "clone",
    "execve",
    "exit_group",
    "getpgid",
    "getpgrp",
    "getpid",
    "getrandom",
    "ioctl",
    "kill",
    "mprotect",
    "prctl",
    "prlimit64",
    "readlink",
    "readlinkat",
    "rseq",
    "rt_sigaction",
    "rt_sigprocmask",
    "rt_sigtimedwait",
    "set_robust_list",
    "set_tid_address",
    "setpgid",
    "wait4",
    "write",
];

/// What the process 1 calls that podman puts before a program: catatonit, or tini or dumb-init behind `--init-path`.
/// They load a C library.
pub(crate) const OF_INITS: &[&str] = &[
    "access",
    "arch_prctl",
    "brk",
    "chdir",
    "clone",
    "close",
    "close_range",
    "execve",
    "exit_group",
    "fstat",
    "getpgid",
    "getpgrp",
    "getpid",
    "getrandom",
    "getsid",
    "ioctl",
    "kill",
    "mmap",
    "mprotect",
    "munmap",
    "newfstatat",
    "openat",
    "prctl",
    "pread64",
    "prlimit64",
    "read",
    "readlink",
    "readlinkat",
    "rseq",
    "rt_sigaction",
    "rt_sigprocmask",
    "rt_sigtimedwait",
    "set_robust_list",
    "set_tid_address",
    "setpgid",
    "setsid",
    "signalfd4",
    "wait4",
    "write",
];

impl Runtime {
    /// The runtime of this name.
    pub fn called(name: &str) -> Option<Runtime>
        ensures { IfSome result (λ runtime. name.now ≡ runtime_word runtime) }
    {
        match name {
            "crun" => Some(Runtime::Crun),
            "runc" => Some(Runtime::Runc),
            "bwrap" => Some(Runtime::Bubblewrap),
            "docker" => Some(Runtime::Docker),
            "podman" => Some(Runtime::Podman),
            _ => None,
        }
    }

    /// The name of what loads the filter.
    pub(crate) fn name(self) -> &'static str {
        match self {
            Runtime::Crun => "crun",
            Runtime::Runc => "runc",
            Runtime::Bubblewrap => "bubblewrap",
            Runtime::Docker => "runc",
            Runtime::Podman => "crun",
        }
    }
}

/// What a runtime calls itself.
pub(crate) fn of_runtime(runtime: Option<Runtime>) -> &'static [&'static str] {
    match runtime {
        None => &[],
        Some(Runtime::Crun | Runtime::Podman) => OF_CRUN,
        Some(Runtime::Runc | Runtime::Docker) => OF_RUNC,
        Some(Runtime::Bubblewrap) => OF_BUBBLEWRAP,
    }
}

/// What the process 1 calls that an engine may put before the program.
pub(crate) fn of_first(runtime: Option<Runtime>) -> &'static [&'static str] {
    match runtime {
        Some(Runtime::Docker) => OF_TINI,
        Some(Runtime::Podman) => OF_INITS,
        _ => &[],
    }
}

/// Whether a name is one of a list.
pub(crate) fn is_in(list: &[&'static str], name: &str) -> bool
    ensures { result ≡ list_any (λ other. bytes_eq other.now name.now) list.now }
{
    for other in list {
        if *other == name {
            return true;
        }
    }
    false
}

// Each of the next names one list.

#[tactic(auto, unfolding(crate::specs::Lists::is_needed))]
fn is_needed(name: &str) -> bool
    ensures { result ≡ spec.is_needed name.now }
{
    is_in(NEEDED, name)
}

#[tactic(auto, unfolding(crate::specs::Lists::makes_threads))]
fn makes_threads(name: &str) -> bool
    ensures { result ≡ spec.makes_threads name.now }
{
    is_in(THREADS, name)
}

#[tactic(auto, unfolding(crate::specs::Lists::is_fallen_back))]
fn is_fallen_back(name: &str) -> bool
    ensures { result ≡ spec.is_fallen_back name.now }
{
    is_in(FALLBACKS, name)
}

#[tactic(auto, unfolding(crate::specs::Lists::is_of_crun))]
fn is_of_crun(name: &str) -> bool
    ensures { result ≡ spec.is_of_crun name.now }
{
    is_in(OF_CRUN, name)
}

#[tactic(auto, unfolding(crate::specs::Lists::is_of_runc))]
fn is_of_runc(name: &str) -> bool
    ensures { result ≡ spec.is_of_runc name.now }
{
    is_in(OF_RUNC, name)
}

#[tactic(auto, unfolding(crate::specs::Lists::is_of_bubblewrap))]
fn is_of_bubblewrap(name: &str) -> bool
    ensures { result ≡ spec.is_of_bubblewrap name.now }
{
    is_in(OF_BUBBLEWRAP, name)
}

#[tactic(auto, unfolding(crate::specs::Lists::is_of_tini))]
fn is_of_tini(name: &str) -> bool
    ensures { result ≡ spec.is_of_tini name.now }
{
    is_in(OF_TINI, name)
}

#[tactic(auto, unfolding(crate::specs::Lists::is_of_inits))]
fn is_of_inits(name: &str) -> bool
    ensures { result ≡ spec.is_of_inits name.now }
{
    is_in(OF_INITS, name)
}

fn is_of_docker(name: &str) -> bool
    ensures { result ≡ spec.is_of_docker name.now }
{
    if is_of_runc(name) {
        return true;
    }
    is_of_tini(name)
}

fn is_of_podman(name: &str) -> bool
    ensures { result ≡ spec.is_of_podman name.now }
{
    if is_of_crun(name) {
        return true;
    }
    is_of_inits(name)
}

// Whether a runtime calls it itself, or the process 1 that an engine may put before the program.
fn is_of_runtime(runtime: Option<Runtime>, name: &str) -> bool
    ensures { result ≡ spec.is_of_runtime runtime name.now }
{
    match runtime {
        None => false,
        Some(Runtime::Crun) => is_of_crun(name),
        Some(Runtime::Runc) => is_of_runc(name),
        Some(Runtime::Bubblewrap) => is_of_bubblewrap(name),
        Some(Runtime::Docker) => is_of_docker(name),
        Some(Runtime::Podman) => is_of_podman(name),
    }
}

/// Whether a name is one of the lists.
pub(crate) fn is_listed(runtime: Option<Runtime>, name: &str) -> bool
    ensures { result ≡ spec.is_listed runtime name.now }
{
    if is_needed(name) {
        return true;
    }
    if makes_threads(name) {
        return true;
    }
    if is_fallen_back(name) {
        return true;
    }
    is_of_runtime(runtime, name)
}

impl Otherwise {
    /// What this word asks for.
    pub fn called(word: &str) -> Option<Otherwise>
        ensures { IfSome result (λ otherwise. word.now ≡ otherwise_word otherwise) }
    {
        match word {
            "errno" => Some(Otherwise::Errno),
            "enosys" => Some(Otherwise::Enosys),
            "log" => Some(Otherwise::Log),
            "kill" => Some(Otherwise::Kill),
            _ => None,
        }
    }

    /// The verdict that it is of these calls.
    pub(crate) fn word(self) -> Word
        ensures { result ≡ rest_word self }
    {
        match self {
            Otherwise::Errno => Word(0x0005_0001),
            Otherwise::Enosys => Word(0x0005_0026),
            Otherwise::Log => Word::LOG,
            Otherwise::Kill => Word::KILL_PROCESS,
        }
    }

    /// The members of a bundle that say it.
    pub(crate) fn members(self) -> &'static str {
        match self {
            Otherwise::Errno =>
                "\"defaultAction\": \"SCMP_ACT_ERRNO\",\n      \"defaultErrnoRet\": 1",
            Otherwise::Enosys =>
                "\"defaultAction\": \"SCMP_ACT_ERRNO\",\n      \"defaultErrnoRet\": 38",
            Otherwise::Log => "\"defaultAction\": \"SCMP_ACT_LOG\"",
            Otherwise::Kill => "\"defaultAction\": \"SCMP_ACT_KILL_PROCESS\"",
        }
    }
}
