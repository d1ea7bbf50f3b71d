//! Lines of logs that are not read: each tells no call, and strace writes no such line beside calls.
ghost use Rattle.std.specs.Prelude.{◌≡◌, ◌++◌, IfOk, if◌then◌else◌, string_bytes};
ghost use Rattle.wording.specs.Told.{end_if};
ghost use Rattle.strace_logs.specs.Logged.{parts_of};
ghost use Rattle.strace_logs.specs.Unread as spec;

use crate::logs::Log;
use crate::strace::{is_remark, shown_on};
use machines::Arch;
use std::alloc::{AllocError, Global};
use std::fmt::Write;
use wording::{Told, split_line};

// Whether a line of text is not read.
fn is_unread_text(native: Arch, line: &str) -> bool
    ensures { result ≡ spec.is_unread_text native line.now }
{
    if is_remark(line) {
        return false;
    }
    shown_on(native, line).is_none()
}

// Whether a line is not read.
fn is_unread(native: Arch, line: &[u8]) -> bool
    ensures { result ≡ spec.is_unread native line.now }
{
    match str::from_utf8(line) {
        Ok(text) => is_unread_text(native, text),
        Err(_) => true,
    }
}

// One if a line is not read, and else none.
fn count_in(native: Arch, line: &[u8]) -> usize
    ensures { result ≡ (if spec.is_unread native line.now then 1 else 0) }
{
    if is_unread(native, line) { 1 } else { 0 }
}

// How many lines of a text are not read.
fn count_unread(native: Arch, text: &[u8]) -> usize
    ensures { result ≡ spec.count_unread native text.now }
{
    let mut count = 0;
    let mut rest = text;
    'line: while let Some((line, more)) = split_line(rest) {
        count += count_in(native, line);
        rest = more;
    }
    count + count_in(native, rest)
}

// Whether each line of each log is read.
fn are_read(native: Arch, logs: &[Log<'_>]) -> bool
    ensures { result ≡ spec.are_read native (parts_of logs.now) }
{
    match logs {
        [log, others @ ..] => count_unread(native, log.text) == 0 && are_read(native, others),
        [] => true,
    }
}

// Adds how many lines of a log are not read, if there are some.
fn put_unread(text: &mut String, name: &str, count: usize) -> Result<(), AllocError>
    ensures { IfOk result (λ _. string_bytes text.new ≡ string_bytes text.old ++ spec.unread_line name.now count) }
{
    if count == 0 {
        return Ok(());
    }
    writeln!(text, "{name}: {count} lines are not read")
}

// Adds how many lines of each log are not read.
fn put_all_unread(text: &mut String, native: Arch, logs: &[Log<'_>]) -> Result<(), AllocError>
    ensures { IfOk result (λ _. string_bytes text.new ≡ string_bytes text.old ++ spec.unread_text native (parts_of logs.now)) }
{
    match logs {
        [log, others @ ..] => {
            put_unread(text, log.name, count_unread(native, log.text))?;
            put_all_unread(text, native, others)
        }
        [] => Ok(()),
    }
}

// How many lines of each log are not read.
fn unread_text(alloc: Global, native: Arch, logs: &[Log<'_>]) -> Result<String, AllocError>
    ensures { IfOk result (λ text. string_bytes text ≡ spec.unread_text native (parts_of logs.now)) }
{
    let mut text = String::new(alloc);
    put_all_unread(&mut text, native, logs)?;
    Ok(text)
}

/// What was told of logs, and how many lines of each are not read. It is done only if there are none.
pub(crate) fn with_unread(
    alloc: Global,
    native: Arch,
    logs: &[Log<'_>],
    told: Told,
) -> Result<Told, AllocError>
    ensures bytes { IfOk result (λ new. new.bytes.items ≡ told.bytes.items ++ spec.unread_text native (parts_of logs.now)) }
    ensures end { IfOk result (λ new. new.end ≡ end_if (spec.are_read native (parts_of logs.now)) told.end) }
{
    let Told { mut bytes, end } = told;
    let text = unread_text(alloc, native, logs)?;
    bytes.extend_from_slice(text.as_bytes())?;
    Ok(Told {
        bytes,
        end: end.only_if(are_read(native, logs)),
    })
}
