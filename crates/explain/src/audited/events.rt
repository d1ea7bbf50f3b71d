//! The events that the lines of a kernel's audit tell.
ghost use Rattle.std.specs.Prelude.{◌≡◌, ◌++◌, List, IfOk, count_by, if◌then◌else◌, not};
ghost use Rattle.std.specs.List.{list_all, list_any};
ghost use Rattle.explain.specs.Audit as spec;
ghost use Rattle.explain.specs.declared.audited.event.Answer.TheVariants.{Kill};
ghost use Rattle.explain.specs.declared.audited.event.Event.{Event as TheEvent};
ghost use Rattle.explain.specs.inner.Events.{HaveSame, IsNext, told_on};

use crate::audited::answers::may_answer;
use crate::audited::event::{Answer, Event, event_in, is_unread};
use call_record::Word;
use profile::Profile;
use std::alloc::{AllocError, Global};
use wording::split_line;

// How many different events are listed. A system has fewer calls.
const MOST_LISTED: usize = 1024;

// Adds the event that a line tells, if it tells one.
fn put_line(line: &[u8], events: &mut Vec<Event>) -> Result<(), AllocError>
    ensures { IfOk result (λ _. events.new.items ≡ events.old.items ++ told_on (spec.event_in line.now)) }
{
    match event_in(line) {
        Some(event) => {
            events.push(event)?;
            Ok(())
        }
        None => Ok(()),
    }
}

/// The events that the lines of a text tell, in order.
pub(crate) fn events_in(alloc: Global, text: &[u8]) -> Result<Vec<Event>, AllocError>
    ensures { IfOk result (λ events. events.items ≡ spec.events_in text.now) }
{
    let mut events = Vec::new(alloc);
    let mut rest = text;
    'line: while let Some((line, more)) = split_line(rest) {
        put_line(line, &mut events)?;
        rest = more;
    }
    put_line(rest, &mut events)?;
    Ok(events)
}

// How many of one line have the fields of a filter's answer and are not understood.
fn count_in(line: &[u8]) -> usize
    ensures { result ≡ (if spec.is_unread line.now then 1 else 0) }
{
    if is_unread(line) { 1 } else { 0 }
}

/// How many lines have these fields and are not understood.
pub(crate) fn count_unread(text: &[u8]) -> usize
    ensures { result ≡ spec.count_unread text.now }
{
    let mut count = 0;
    let mut rest = text;
    'line: while let Some((line, more)) = split_line(rest) {
        count += count_in(line);
        rest = more;
    }
    count + count_in(rest)
}

// Whether a profile may answer a call with one of the two kills.
fn may_kill(profile: &Profile, token: u32, nr: u32) -> bool
    ensures { result ≡ spec.may_give profile.now token nr Kill }
{
    if may_answer(profile, token, nr, Word::KILL_PROCESS) {
        return true;
    }
    may_answer(profile, token, nr, Word::KILL_THREAD)
}

/// Whether a profile may answer as an event tells. A kernel writes the action without its data.
pub(crate) fn may_be(profile: &Profile, event: Event) -> bool
    ensures { result ≡ spec.may_be profile.now event }
{
    match event.answer {
        Answer::Code(code) => may_answer(profile, event.token, event.nr, Word(code).action()),
        Answer::Kill => may_kill(profile, event.token, event.nr),
    }
}

/// Whether it may answer so in each.
pub(crate) fn all_may_be(profile: &Profile, events: &[Event]) -> bool
    ensures { result ≡ list_all (spec.may_be profile.now) events.now }
{
    events.iter().all(|event| may_be(profile, *event))
}

// Whether two answers are the same.
fn same_answer(a: Answer, b: Answer) -> bool
    ensures { result ≡ spec.same_answer a b }
{
    match (a, b) {
        (Answer::Code(a), Answer::Code(b)) => a == b,
        (Answer::Code(_), Answer::Kill) | (Answer::Kill, Answer::Code(_)) => false,
        (Answer::Kill, Answer::Kill) => true,
    }
}

/// Whether two tell the same answer to the same call.
pub(crate) fn is_same(a: &Event, b: &Event) -> bool
    ensures { result ≡ spec.is_same a.now b.now }
{
    if a.token != b.token {
        return false;
    }
    if a.nr != b.nr {
        return false;
    }
    same_answer(a.answer, b.answer)
}

// Whether one of them is the same as another.
fn has_same(events: &[Event], other: &Event) -> bool
    ensures { result ≡ list_any (λ event. spec.is_same event other.now) events.now }
{
    events.iter().any(|event| is_same(event, other))
}

// Adds an event, unless one of these is the same.
fn put_first(firsts: &mut Vec<Event>, event: &Event) -> Result<(), AllocError>
    ensures { (before : List TheEvent) → HaveSame firsts.old.items before
        → IfOk result (λ _. IsNext before event.now firsts.old.items firsts.new.items) }
{
    if has_same(firsts, event) {
        return Ok(());
    }
    firsts.push(*event)?;
    Ok(())
}

/// The different events, in the order of the first of each, as many as are listed.
pub(crate) fn listed(alloc: Global, events: &[Event]) -> Result<Vec<Event>, AllocError>
    ensures { IfOk result (λ firsts. firsts.items ≡ spec.listed events.now) }
{
    let mut firsts = Vec::new(alloc);
    for event in events {
        if firsts.len() >= MOST_LISTED {
            return Ok(firsts);
        }
        put_first(&mut firsts, event)?;
    }
    Ok(firsts)
}

/// How many are the same as one.
pub(crate) fn count_of(one: &Event, events: &[Event]) -> usize
    ensures { result ≡ count_by (spec.is_same one.now) events.now }
{
    events.iter().filter(|event| is_same(one, event)).count()
}

/// How many are the same as none of these.
pub(crate) fn count_others(firsts: &[Event], events: &[Event]) -> usize
    ensures { result ≡ count_by (λ e. not (list_any (λ b. spec.is_same b e) firsts.now)) events.now }
{
    events
        .iter()
        .filter(|event| !has_same(firsts, event))
        .count()
}

// Whether two are of the same call.
fn is_of_call(a: &Event, b: &Event) -> bool
    ensures { result ≡ spec.is_of_call a.now b.now }
{
    if a.token != b.token {
        return false;
    }
    a.nr == b.nr
}

/// Whether one of them is of the call of another.
pub(crate) fn has_call(events: &[Event], other: &Event) -> bool
    ensures { result ≡ list_any (λ event. spec.is_of_call event other.now) events.now }
{
    events.iter().any(|event| is_of_call(event, other))
}
