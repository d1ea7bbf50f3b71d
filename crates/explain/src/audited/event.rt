//! What a line of a kernel's audit tells of a filter, as dmesg, journald, auditd and `ausearch -i` show it.
ghost use Rattle.std.specs.Prelude.{◌≡◌};
ghost use Rattle.std.specs.Option.{option_map};
ghost use Rattle.explain.specs.Audit as spec;
ghost use Rattle.explain.specs.Naming as naming;

use crate::audited::fields::{has_fields, value};
use crate::audited::named::{answer, call, token};
use crate::audited::signs::{is_doubled, is_marked, signs_on};

/// What a filter answered.
#[derive(Clone, Copy)]
pub(crate) enum Answer {
    /// By its number.
    Code(u32),
    /// One of the two kills: auditd has one word for both.
    Kill,
}

/// What such a line tells: the machine's token, the number of the call, and what a filter answered.
#[derive(Clone, Copy)]
pub(crate) struct Event {
    pub(crate) token: u32,
    pub(crate) nr: u32,
    pub(crate) answer: Answer,
}

/// A value as text.
pub(crate) fn text_of(value: &[u8]) -> Option<&str>
    ensures { option_map (λ text. text.now) result ≡ naming.text_of value.now }
{
    match str::from_utf8(value) {
        Ok(text) => Some(text),
        Err(_) => None,
    }
}

// The value of a field, if it is text.
#[tactic(auto, unfolding(crate::specs::Audit::text_on))]
fn text<'a>(key: &[u8], line: &'a [u8]) -> Option<&'a str>
    ensures { option_map (λ text. text.now) result ≡ spec.text_on key.now line.now }
{
    text_of(value(key, line)?)
}

// What the values of the three fields tell.
#[tactic(auto, unfolding(crate::specs::Audit::event_of))]
fn event_of(machine: &str, number: &str, code: &str) -> Option<Event>
    ensures { result ≡ spec.event_of machine.now number.now code.now }
{
    let token = token(machine)?;
    let nr = call(machine, number)?;
    let answer = answer(code)?;
    Some(Event { token, nr, answer })
}

// What the fields of a line tell: `arch`, `syscall` and `code`, if it has them, and they are understood.
#[tactic(auto, unfolding(crate::specs::Audit::event_by))]
fn event_by(line: &[u8]) -> Option<Event>
    ensures { result ≡ spec.event_by line.now }
{
    let machine = text(b"arch=", line)?;
    let number = text(b"syscall=", line)?;
    let code = text(b"code=", line)?;
    event_of(machine, number, code)
}

/// What a line tells, if it is one of a filter's answers. A line with two records tells nothing.
#[tactic(auto, unfolding(crate::specs::Audit::event_in))]
pub(crate) fn event_in(line: &[u8]) -> Option<Event>
    ensures { result ≡ spec.event_in line.now }
{
    if is_doubled(signs_on(line)) {
        return None;
    }
    event_by(line)
}

// Whether a line is a filter's record, whole or cut.
fn is_record(line: &[u8]) -> bool
    ensures { result ≡ spec.is_record line.now }
{
    if is_marked(signs_on(line)) {
        return true;
    }
    has_fields(line)
}

/// Whether a line is a filter's record that is not understood, or says that records were lost.
#[tactic(auto, unfolding(crate::specs::Audit::is_unread))]
pub(crate) fn is_unread(line: &[u8]) -> bool
    ensures { result ≡ spec.is_unread line.now }
{
    if signs_on(line).lost {
        return true;
    }
    if is_record(line) {
        return event_in(line).is_none();
    }
    false
}
