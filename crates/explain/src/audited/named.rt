//! What the values of a line's fields mean, as a kernel writes them, and as auditd says them by names.
ghost use Rattle.std.specs.Prelude.{◌≡◌};
ghost use Rattle.std.specs.Option.{option_map};
ghost use Rattle.call_tables.specs.Tables.{table_of};
ghost use Rattle.texts.specs.Splits.{behind};
ghost use Rattle.explain.specs.Audit as spec;
ghost use Rattle.explain.specs.inner.Names.{pairs};

use crate::audited::event::Answer;
use call_record::Word;
use call_tables::call_number;
use machines::Arch;
use texts::{decimal, hexadecimal, split};

/// The names of calls that auditd has in place of Linux's, each with Linux's.
pub(crate) const OTHER_NAMES: &[(&str, &str)] = &[
    ("fadvise64_64", "arm_fadvise64_64"),
    ("fstatat64", "newfstatat"),
    ("getdents", "getdents64"),
    ("llseek", "_llseek"),
    ("newfstat", "fstat"),
    ("newselect", "_newselect"),
    ("perf_counter_open", "perf_event_open"),
    ("pread", "pread64"),
    ("pwrite", "pwrite64"),
    ("sched_rr_get_interval64", "sched_rr_get_interval_time64"),
    ("sync_file_range", "arm_sync_file_range"),
    ("sys_kexec_load", "kexec_load"),
    ("sysctl", "_sysctl"),
    ("timerfd", "timerfd_create"),
];

// What follows a key in a text that begins with it.
fn rest_behind<'a>(key: &str, text: &'a str) -> Option<&'a str>
    ensures { option_map (λ rest. rest.now) result ≡ behind key.now text.now }
{
    text.strip_prefix(key)
}

// The number of 32 bits that a text is in hexadecimal.
#[tactic(auto, unfolding(crate::specs::Audit::hexadecimal_of))]
fn hexadecimal_value(text: &str) -> Option<u32>
    ensures { result ≡ spec.hexadecimal_of text.now }
{
    u32::try_from(hexadecimal(text)?).ok()
}

// The number in decimal.
#[tactic(auto, unfolding(crate::specs::Audit::decimal_of))]
fn decimal_value(text: &str) -> Option<u32>
    ensures { result ≡ spec.decimal_of text.now }
{
    u32::try_from(decimal(text)?).ok()
}

// The number of which Linux writes so much less than 2^32.
fn unsigned(size: u32) -> Option<u32>
    ensures { result ≡ spec.unsigned_of size }
{
    if size == 0 || size > 0x8000_0000 {
        None
    } else {
        Some(u32::MAX - (size - 1))
    }
}

// A number from 2^31 on, which Linux writes as a negative one.
#[tactic(auto, unfolding(crate::specs::Audit::negative_of))]
fn negative_value(text: &str) -> Option<u32>
    ensures { result ≡ spec.negative_of text.now }
{
    let digits = rest_behind("-", text)?;
    unsigned(decimal_value(digits)?)
}

// The machine that auditd calls so. It says armeb of little-endian ARM.
#[tactic(auto, unfolding(crate::specs::Audit::machine_named))]
fn machine_named(word: &str) -> Option<Arch>
    ensures { result ≡ spec.machine_named word.now }
{
    if word == "x86_64" {
        return Some(Arch::LinuxX86_64);
    }
    if word == "i386" {
        return Some(Arch::LinuxX86);
    }
    if word == "aarch64" {
        return Some(Arch::LinuxAarch64);
    }
    if word == "armeb" {
        return Some(Arch::LinuxArm);
    }
    if word == "riscv64" {
        return Some(Arch::LinuxRiscv64);
    }
    if word == "ppc64le" {
        return Some(Arch::LinuxPpc64le);
    }
    None
}

// Its token.
#[tactic(auto, unfolding(crate::specs::Audit::named_token))]
fn named_token(text: &str) -> Option<u32>
    ensures { result ≡ spec.named_token text.now }
{
    let machine = machine_named(text)?;
    Some(machine.token())
}

/// A machine's token, in hexadecimal or by the machine's name.
#[tactic(auto, unfolding(crate::specs::Audit::token_in))]
pub(crate) fn token(text: &str) -> Option<u32>
    ensures { result ≡ spec.token_in text.now }
{
    hexadecimal_value(text).or(named_token(text))
}

// A number that auditd has no name for.
#[tactic(auto, unfolding(crate::specs::Audit::unknown_number))]
fn unknown_number(text: &str) -> Option<u32>
    ensures { result ≡ spec.unknown_number text.now }
{
    let (digits, more) = split(rest_behind("unknown-syscall(", text)?, ')')?;
    if more.is_empty() {
        decimal_value(digits)
    } else {
        None
    }
}

// The names of calls that auditd has in place of Linux's.
#[tactic(auto, unfolding(crate::specs::Audit::other_names))]
fn other_names() -> &'static [(&'static str, &'static str)]
    ensures { pairs result.now ≡ spec.other_names }
{
    OTHER_NAMES
}

// The number of the call of a machine that has such a name in place of Linux's.
fn other_number(machine: Arch, names: &[(&str, &str)], name: &str) -> Option<u32>
    ensures { result ≡ spec.number_by (pairs names.now) (table_of machine) name.now }
{
    for entry in names {
        if entry.0 == name {
            return call_number(machine, entry.1);
        }
    }
    None
}

// The number of a call of a machine.
#[tactic(auto, unfolding(crate::specs::Audit::call_named))]
fn call_named(machine: Arch, name: &str) -> Option<u32>
    ensures { result ≡ spec.call_named machine name.now }
{
    call_number(machine, name).or(other_number(machine, other_names(), name))
}

// Of the machine that auditd names beside it.
#[tactic(auto, unfolding(crate::specs::Audit::named_number))]
fn named_number(machine: &str, name: &str) -> Option<u32>
    ensures { result ≡ spec.named_number machine.now name.now }
{
    call_named(machine_named(machine)?, name)
}

/// The number of a call of a machine, in decimal or by its name.
#[tactic(auto, unfolding(crate::specs::Audit::call_in))]
pub(crate) fn call(machine: &str, text: &str) -> Option<u32>
    ensures { result ≡ spec.call_in machine.now text.now }
{
    decimal_value(text)
        .or(negative_value(text))
        .or(unknown_number(text))
        .or(named_number(machine, text))
}

// The action that auditd calls so. It has two words for both kills, `kill` and later `kill-thread`.
#[tactic(auto, unfolding(crate::specs::Audit::action_named))]
fn action_named(word: &str) -> Option<Answer>
    ensures { result ≡ spec.action_named word.now }
{
    if word == "errno" {
        return Some(Answer::Code(Word::ERRNO.0));
    }
    if word == "log" {
        return Some(Answer::Code(Word::LOG.0));
    }
    if word == "kill" {
        return Some(Answer::Kill);
    }
    if word == "kill-thread" {
        return Some(Answer::Kill);
    }
    if word == "kill-process" {
        return Some(Answer::Code(Word::KILL_PROCESS.0));
    }
    if word == "trap" {
        return Some(Answer::Code(Word::TRAP.0));
    }
    if word == "trace" {
        return Some(Answer::Code(Word::TRACE.0));
    }
    if word == "user-notify" {
        return Some(Answer::Code(Word::USER_NOTIF.0));
    }
    if word == "allow" {
        return Some(Answer::Code(Word::ALLOW.0));
    }
    None
}

// The answer of a number, if it has no data: a kernel writes the action alone.
fn bare_code(code: u32) -> Option<Answer>
    ensures { result ≡ spec.bare_code code }
{
    if Word(code).action() == Word(code) {
        Some(Answer::Code(code))
    } else {
        None
    }
}

// The answer whose number is written.
#[tactic(auto, unfolding(crate::specs::Audit::written_code))]
fn written_code(text: &str) -> Option<Answer>
    ensures { result ≡ spec.written_code text.now }
{
    let digits = rest_behind("0x", text)?;
    let code = hexadecimal_value(digits)?;
    bare_code(code)
}

/// What a filter answered, in hexadecimal or by the action's name.
#[tactic(auto, unfolding(crate::specs::Audit::answer_in))]
pub(crate) fn answer(text: &str) -> Option<Answer>
    ensures { result ≡ spec.answer_in text.now }
{
    written_code(text).or(action_named(text))
}
