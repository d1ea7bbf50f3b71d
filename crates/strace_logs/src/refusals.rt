//! Calls of logs that a bundle refuses.
ghost use Rattle.std.specs.Prelude.{◌≡◌, ◌++◌, List, [], IfOk, count_by, string_bytes};
ghost use Rattle.std.specs.List.{flat_map, list_any};
ghost use Rattle.strace_logs.specs.Replayed as spec;
ghost use Rattle.strace_logs.specs.Replayed.{Refused, with_verdict};
ghost use Rattle.strace_logs.specs.inner.Refusals.{HaveAlike, IsNext};
ghost use Rattle.strace_logs.specs.inner.Views.{all_logged, all_refused, logged, refused};

use crate::logged::LogCall;
use crate::reasons::said_of;
use call_record::{Word, lets_through};
use call_tables::call_name;
use machines::Arch;
use profile::Profile;
use profile_json::EntryRules;
use std::alloc::{AllocError, Global};
use std::fmt::Write;
use wording::{ActionText, Reason, reason_of};

/// A call that is refused, or left to a tracer or a listener: its machine and number, the number of the verdict that is said of it, and why. Also the log, the number
/// of the line and the line that show it.
#[derive(Clone, Copy)]
pub(crate) struct RefusedCall<'a> {
    arch: Arch,
    nr: u32,
    verdict: u32,
    why: Reason,
    log: &'a str,
    number: usize,
    line: &'a str,
}

// A call with the verdict that is said of it, and why.
fn refused_call<'a>(shown: &LogCall<'a>, word: Word, why: Reason) -> RefusedCall<'a>
    ensures { refused result ≡ with_verdict (logged shown.now) word why }
{
    RefusedCall {
        arch: shown.arch,
        nr: shown.record.nr,
        verdict: word.0,
        why,
        log: shown.log,
        number: shown.number,
        line: shown.line,
    }
}

// Adds a call, unless a profile lets it through.
fn put_refused<'a>(
    profile: &Profile,
    all: &EntryRules,
    shown: &LogCall<'a>,
    calls: &mut Vec<RefusedCall<'a>>,
) -> Result<(), AllocError>
    ensures { IfOk result (λ _. all_refused calls.new.items
        ≡ all_refused calls.old.items ++ spec.refused_of profile.now all.now.rules.items all.now.ends.items (logged shown.now)) }
{
    let word = said_of(profile, &shown.record);
    if lets_through(word) {
        return Ok(());
    }
    let why = reason_of(profile, all, &shown.record);
    calls.push(refused_call(shown, word, why))?;
    Ok(())
}

/// The calls of logs that a profile does not let through, by the rules of its bundle's entries.
pub(crate) fn refused_in<'a>(
    alloc: Global,
    profile: &Profile,
    all: &EntryRules,
    shown: &[LogCall<'a>],
) -> Result<Vec<RefusedCall<'a>>, AllocError>
    ensures { IfOk result (λ calls. all_refused calls.items
        ≡ spec.refused_in profile.now all.now.rules.items all.now.ends.items (all_logged shown.now)) }
{
    let mut calls = Vec::new(alloc);
    for one in shown {
        put_refused(profile, all, one, &mut calls)?;
    }
    Ok(calls)
}

fn is_same_reason(a: Reason, b: Reason) -> bool
    ensures { result ≡ spec.same_reason a b }
{
    match (a, b) {
        (Reason::Foreign, Reason::Foreign) => true,
        (Reason::Entry(a), Reason::Entry(b)) => a == b,
        (Reason::Default, Reason::Default) => true,
        _ => false,
    }
}

// Whether two are of one call, with one verdict, for one reason.
fn is_alike(a: &RefusedCall<'_>, b: &RefusedCall<'_>) -> bool
    ensures { result ≡ spec.is_alike (refused a.now) (refused b.now) }
{
    if a.arch.token() != b.arch.token() {
        return false;
    }
    if a.nr != b.nr {
        return false;
    }
    if a.verdict != b.verdict {
        return false;
    }
    is_same_reason(a.why, b.why)
}

// Whether one of them is like another.
fn has_alike(calls: &[RefusedCall<'_>], other: &RefusedCall<'_>) -> bool
    ensures { result ≡ list_any (λ call. spec.is_alike call (refused other.now)) (all_refused calls.now) }
{
    for call in calls {
        if is_alike(call, other) {
            return true;
        }
    }
    false
}

// Adds a call, unless one of these is like it.
fn put_first<'a>(
    firsts: &mut Vec<RefusedCall<'a>>,
    call: &RefusedCall<'a>,
) -> Result<(), AllocError>
    ensures { (before : List Refused) → HaveAlike (all_refused firsts.old.items) before
        → IfOk result (λ _. IsNext before (refused call.now) (all_refused firsts.old.items) (all_refused firsts.new.items)) }
{
    if has_alike(firsts, call) {
        return Ok(());
    }
    firsts.push(*call)?;
    Ok(())
}

// Those that are like none before them.
fn firsts_of<'a>(
    alloc: Global,
    calls: &[RefusedCall<'a>],
) -> Result<Vec<RefusedCall<'a>>, AllocError>
    ensures { IfOk result (λ firsts. all_refused firsts.items ≡ spec.firsts_behind [] (all_refused calls.now)) }
{
    let mut firsts = Vec::new(alloc);
    for call in calls {
        put_first(&mut firsts, call)?;
    }
    Ok(firsts)
}

// How many are like the first.
fn count_of(first: &RefusedCall<'_>, calls: &[RefusedCall<'_>]) -> usize
    ensures { result ≡ count_by (spec.is_alike (refused first.now)) (all_refused calls.now) }
{
    let mut count = 0usize;
    for call in calls {
        count += usize::from(is_alike(first, call));
    }
    count
}

// The name of a machine's call.
fn name_of(arch: Arch, nr: u32) -> &'static str
    ensures { result.now ≡ spec.name_of arch nr }
{
    match call_name(arch, nr) {
        Some(name) => name,
        None => "a call",
    }
}

/// How many are left to a tracer or a listener.
pub(crate) fn count_left(calls: &[RefusedCall<'_>]) -> usize
    ensures { result ≡ count_by spec.is_left_call (all_refused calls.now) }
{
    let mut count = 0usize;
    for call in calls {
        count += usize::from(Word(call.verdict).is_left());
    }
    count
}

// Whether a call is refused or left.
fn fate_text(left: bool) -> &'static str
    ensures { result.now ≡ spec.fate_text left }
{
    if left { "left " } else { "refused " }
}

// Adds the call, the verdict, and what stands before the reason.
fn put_call(text: &mut String, call: &RefusedCall<'_>) -> Result<(), AllocError>
    ensures { IfOk result (λ _. string_bytes text.new ≡ string_bytes text.old ++ spec.call_text (refused call.now)) }
{
    let nr = call.nr;
    let name = name_of(call.arch, nr);
    let machine = call.arch.machine_name();
    let fate = fate_text(Word(call.verdict).is_left());
    let action = ActionText(Word(call.verdict));
    write!(text, "{fate}{name}, number {nr} of {machine}: {action}, ")
}

// Adds why a call is refused.
fn put_why(text: &mut String, why: Reason) -> Result<(), AllocError>
    ensures { IfOk result (λ _. string_bytes text.new ≡ string_bytes text.old ++ spec.why_text why) }
{
    match why {
        Reason::Foreign => text.push_str("foreign"),
        Reason::Entry(entry) => write!(text, "entry {entry}"),
        Reason::Default => text.push_str("default"),
    }
}

// Adds how often it is not let through.
fn put_times(text: &mut String, count: usize) -> Result<(), AllocError>
    ensures { IfOk result (λ _. string_bytes text.new ≡ string_bytes text.old ++ spec.times_text count) }
{
    writeln!(text, ", {count} times")
}

// Adds the line that shows a call, with its place.
fn put_place(text: &mut String, call: &RefusedCall<'_>) -> Result<(), AllocError>
    ensures { IfOk result (λ _. string_bytes text.new ≡ string_bytes text.old ++ spec.place_text (refused call.now)) }
{
    let log = call.log;
    let number = call.number;
    let line = call.line;
    writeln!(text, "  {log}:{number}: {line}")
}

// Adds a call that is not let through: the verdict, why, how often, and the line that shows it first.
fn put_refusal(
    text: &mut String,
    calls: &[RefusedCall<'_>],
    first: &RefusedCall<'_>,
) -> Result<(), AllocError>
    ensures { IfOk result (λ _. string_bytes text.new ≡ string_bytes text.old ++ spec.refusal_text (all_refused calls.now) (refused first.now)) }
{
    put_call(text, first)?;
    put_why(text, first.why)?;
    put_times(text, count_of(first, calls))?;
    put_place(text, first)
}

// Adds these calls of all.
fn put_each(
    text: &mut String,
    calls: &[RefusedCall<'_>],
    firsts: &[RefusedCall<'_>],
) -> Result<(), AllocError>
    ensures { IfOk result (λ _. string_bytes text.new ≡ string_bytes text.old
        ++ flat_map (spec.refusal_text (all_refused calls.now)) (all_refused firsts.now)) }
{
    for first in firsts {
        put_refusal(text, calls, first)?;
    }
    Ok(())
}

/// Adds each call that is refused, once.
pub(crate) fn put_refusals(
    alloc: Global,
    text: &mut String,
    calls: &[RefusedCall<'_>],
) -> Result<(), AllocError>
    ensures { IfOk result (λ _. string_bytes text.new ≡ string_bytes text.old
        ++ flat_map (spec.refusal_text (all_refused calls.now)) (spec.firsts_behind [] (all_refused calls.now))) }
{
    let firsts = firsts_of(alloc, calls)?;
    put_each(text, calls, &firsts)
}
