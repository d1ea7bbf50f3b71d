//! The lines that say what each part of a command is. The words that may stand for it are in brackets, as clap shows them.

pub(crate) const MACHINE: &str =
    "the machine: linux-.. has all calls of Linux 7.3, the others about a hundred\n[possible values: linux-x86-64, linux-aarch64, linux-riscv64, linux-ppc64le,\nlinux-loongarch64, linux-s390x, x86-64, aarch64]";

pub(crate) const PROFILE: &str = "a file with linux.seccomp of the OCI Runtime Specification";

pub(crate) const PROFILES: &str = "files with linux.seccomp of the OCI Runtime Specification";

pub(crate) const OLD: &str = "a file with the old profile";

pub(crate) const NEW: &str = "a file with the new profile";

pub(crate) const COMPARED: &str =
    "all that is asked is that the new profile allows no more; or both files are filters\n[possible values: atmost, filters]";

pub(crate) const READ_AS: &str =
    "the profile is written as a line for each rule, for another program\n[possible values: rules]";

pub(crate) const REVIEWED: &str =
    "the answer is written as a page for a browser; or a second profile, to be shown beside the first\n[possible values: html]";

pub(crate) const REVIEWED_BOTH: &str =
    "behind a second profile, which has no other answer\n[possible values: html]";

pub(crate) const FILTER: &str = "a file with instructions of eight bytes";

pub(crate) const FILTERS: &str = "files with instructions of eight bytes, the oldest filter first";

pub(crate) const SHOWN_AS: &str =
    "what is shown in place of the listing is what the filter costs the calls of the machine\n[possible values: cost]";

pub(crate) const RECOVERED: &str =
    "the config.json is written, and not its section; or the filter is of runc, which puts its ENOSYS stub in\nfront; or numbers that no table has are left aside, or all calls of x32; or the filter allows the\ncalls of machines that it does not know\n[possible values: bundle, runc, calls, without-x32, others]";

pub(crate) const RECOVERED_TOO: &str =
    "another of these\n[possible values: bundle, runc, calls, without-x32, others]";

pub(crate) const CERTIFIED: &str =
    "the filter is of runc, which puts its ENOSYS stub in front; or all calls are reported that differ; or\nnumbers that no table has are left aside, or all calls of x32\n[possible values: runc, all, calls, without-x32]";

pub(crate) const CERTIFIED_TOO: &str =
    "another of these\n[possible values: runc, all, calls, without-x32]";

pub(crate) const RECORD: &str = "a file with the 64 bytes of struct seccomp_data";

pub(crate) const CERTIFICATE: &str = "a file that certify wrote";

pub(crate) const LISTING: &str = "a file with the text of a filter";

pub(crate) const FORM: &str =
    "what is written of the filter: its bytes, its text or its certificate\n[possible values: raw, listing, cert]";

pub(crate) const CALL: &str =
    "a call by its name or as MACHINE:NUMBER, and its arguments: numbers, or names of constants as\nCLONE_NEWUSER|CLONE_NEWNS";

pub(crate) const ASKED_CALL: &str =
    "a call by its name or as MACHINE:NUMBER, and its arguments: numbers, or names of constants as\nCLONE_NEWUSER|CLONE_NEWNS; or a question with one of the words below\n[possible values: any, record, audit]";

pub(crate) const CONFIG: &str =
    "a file: a config.json, an engine's own profile, a section linux.seccomp by itself or a\nKubernetes object";

pub(crate) const WORD: &str =
    "how the profile is made, in any order\n[possible values: widen, first, looser, stricter, like-libseccomp, narrow, log, for,\ndocker, podman, containerd, cap, kernel]";

pub(crate) const LEARNED_LOG: &str =
    "files that 'strace -f -n -e raw=all -o LOG' wrote, and what is asked\n[possible values: from, keep, for, crun, runc, bwrap, else, errno, enosys, log, kill]";

pub(crate) const REPLAYED_LOG: &str =
    "files that 'strace -f -n -e raw=all -o LOG' wrote\n[possible values: unused]";

pub(crate) const COMMAND: &str = "the name of a command";

pub(crate) const JUDGE: &str =
    "the name of a command that judges\n[possible values: verdict, check, certify, explain, read, lint, compare, replay, review]";

pub(crate) const ARGUMENT: &str = "the arguments of that command";
