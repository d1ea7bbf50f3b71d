//! The calls that logs show, one after the other.
ghost use Rattle.std.specs.Prelude.{◌≡◌, ◌<◌, ◌+◌, ◌++◌, ◌∷◌, [], IfOk, IfSome, MatchOption, None, Some, length, true};
ghost use Rattle.std.specs.Option.{option_map};
ghost use Rattle.std.specs.List.{list_all};
ghost use Rattle.strace_logs.specs.Line.{is_raw as the_test, shown_in, shown_on as call_told};
ghost use Rattle.strace_logs.specs.Logged as spec;
ghost use Rattle.strace_logs.specs.inner.Views.{all_logged, logged};

use crate::logs::Log;
use crate::strace::{Call, is_raw, shown_on};
use call_record::Record;
use machines::Arch;
use std::alloc::AllocError;
use wording::split_line;

/// A call that a line of a log tells. It is its machine, its record, the name of the log, the number of the line, from 1, and the line.
#[derive(Clone, Copy)]
pub(crate) struct LogCall<'a> {
    pub(crate) arch: Arch,
    pub(crate) record: Record,
    pub(crate) log: &'a str,
    pub(crate) number: usize,
    pub(crate) line: &'a str,
}

// A call that a line tells.
fn log_call<'a>(call: &Call<'_>, log: &'a str, number: usize, line: &'a str) -> LogCall<'a>
    ensures { spec.told_on (Some (call.now.arch, call.now.nr, call.now.args)) log.now number line.now ≡ logged result ∷ [] }
{
    LogCall {
        arch: call.arch,
        record: call.record(),
        log,
        number,
        line,
    }
}

// Adds the call that a line of text tells, if it tells one.
fn put_text_line<'a>(
    native: Arch,
    log: &'a str,
    number: usize,
    line: &'a str,
    calls: &mut Vec<LogCall<'a>>,
) -> Result<(), AllocError>
    ensures { IfOk result (λ _. all_logged calls.new.items
        ≡ all_logged calls.old.items ++ spec.told_on (call_told native line.now) log.now number line.now) }
{
    match shown_on(native, line) {
        Some(call) => {
            calls.push(log_call(&call, log, number, line))?;
            Ok(())
        }
        None => Ok(()),
    }
}

// Adds the call that a line tells, if it is text and tells one.
fn put_line<'a>(
    native: Arch,
    log: &'a str,
    number: usize,
    line: &'a [u8],
    calls: &mut Vec<LogCall<'a>>,
) -> Result<(), AllocError>
    ensures { IfOk result (λ _. all_logged calls.new.items
        ≡ all_logged calls.old.items ++ spec.told_on (shown_in native line.now) log.now number line.now) }
{
    match str::from_utf8(line) {
        Ok(text) => put_text_line(native, log, number, text, calls),
        Err(_) => Ok(()),
    }
}

// Adds the calls that the lines of a text tell.
fn put_text<'a>(
    native: Arch,
    log: &'a str,
    text: &'a [u8],
    calls: &mut Vec<LogCall<'a>>,
) -> Result<(), AllocError>
    ensures { IfOk result (λ _. all_logged calls.new.items ≡ all_logged calls.old.items ++ spec.calls_of native (log.now, text.now)) }
{
    let mut number = 1usize;
    let mut rest = text;
    'line: while let Some((line, more)) = split_line(rest) {
        put_line(native, log, number, line, calls)?;
        number += 1;
        rest = more;
    }
    put_line(native, log, number, rest, calls)
}

// Whether all arguments that lines of calls write are numbers.
fn are_raw(calls: &[LogCall<'_>]) -> bool
    ensures { result ≡ list_all (λ call. the_test call.line.now) calls.now }
{
    calls.iter().all(|call| is_raw(call.line))
}

// Adds the calls of a log, and tells whether it is one.
fn put_log<'a>(
    native: Arch,
    log: &Log<'a>,
    calls: &mut Vec<LogCall<'a>>,
) -> Result<bool, AllocError>
    ensures is_log { IfOk result (λ is. is ≡ spec.is_log native (log.now.name.now, log.now.text.now)) }
    ensures calls { IfOk result (λ is. is ≡ true → all_logged calls.new.items
        ≡ all_logged calls.old.items ++ spec.calls_of native (log.now.name.now, log.now.text.now)) }
{
    let before = calls.len();
    put_text(native, log.name, log.text, calls)?;
    Ok(before < calls.len() && are_raw(&calls[before..]))
}

/// Adds the calls that logs show, up to the first that is no log, and gives its name.
pub(crate) fn put_logs<'a>(
    native: Arch,
    logs: &[Log<'a>],
    calls: &mut Vec<LogCall<'a>>,
) -> Result<Option<&'a str>, AllocError>
    ensures none { IfOk result (λ found. option_map (λ name. name.now) found ≡ spec.first_none native (spec.parts_of logs.now)) }
    ensures calls { IfOk result (λ found. found ≡ None → all_logged calls.new.items
        ≡ all_logged calls.old.items ++ spec.calls_in native (spec.parts_of logs.now)) }
{
    for log in logs {
        let is_log = put_log(native, log, calls)?;
        if !is_log {
            return Ok(Some(log.name));
        }
    }
    Ok(None)
}
