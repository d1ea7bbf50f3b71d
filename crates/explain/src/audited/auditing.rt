//! What a bundle says of the lines of a kernel's audit.
ghost use Rattle.std.specs.Prelude.{◌≡◌, ◌++◌, ◌∷◌, ◌==◌, ◌&&◌, [], IfErr, IfOk, IfSome, codes, length, map, string_bytes};
ghost use Rattle.std.specs.Fmt.{decimal};
ghost use Rattle.std.specs.List.{list_all};
ghost use Rattle.texts.specs.Lines.{line_feed};
ghost use Rattle.wording.specs.Phrases.{action_text, hexadecimal};
ghost use Rattle.explain.specs.Audit as spec;
ghost use Rattle.explain.specs.inner.Origins.{origin_of};
ghost use Rattle.explain.specs.inner.Times.{counted_line};
ghost use Rattle.profile_json.specs.Breaks.{Breaks};
ghost use Rattle.profile_json.specs.Fault.{fault_of};
ghost use Rattle.wording.specs.Told.{RefusesBy};

use crate::audited::event::{Answer, Event};
use crate::audited::events::{
    all_may_be, count_of, count_others, count_unread, events_in, has_call, listed, may_be,
};
use crate::audited::lines::{put_number, put_said};
use crate::audited::origins::{Origin, count_others_in, origins_in, put_origins};
use call_record::Word;
use machines::{Arch, Family};
use profile::Profile;
use profile_json::{Document, EntryRules, ProfileError};
use std::alloc::{AllocError, Global};
use std::fmt::Write;
use wording::{ActionText, End, Told, refused_profile};

// Adds how many lines tell an event.
fn put_count(text: &mut String, count: usize) -> Result<(), AllocError>
    ensures { IfOk result (λ _. string_bytes text.new ≡ string_bytes text.old ++ (codes "told " ++ decimal count ++ codes " times, code ")) }
{
    write!(text, "told {count} times, code ")
}

// Adds the number of an answer.
fn put_code(text: &mut String, code: u32) -> Result<(), AllocError>
    ensures { IfOk result (λ _. string_bytes text.new ≡ string_bytes text.old ++ (hexadecimal code ++ codes " ")) }
{
    write!(text, "0x{code:x} ")
}

// Adds its action.
fn put_action(text: &mut String, code: u32) -> Result<(), AllocError>
    ensures { IfOk result (λ _. string_bytes text.new ≡ string_bytes text.old ++ (action_text code ++ line_feed ∷ [])) }
{
    let action = ActionText(Word(code));
    writeln!(text, "{action}")
}

// Adds an answer, and its action.
fn put_answer(text: &mut String, answer: Answer) -> Result<(), AllocError>
    ensures { IfOk result (λ _. string_bytes text.new ≡ string_bytes text.old ++ spec.answer_line answer) }
{
    match answer {
        Answer::Code(code) => {
            put_code(text, code)?;
            put_action(text, code)
        }
        Answer::Kill => text.push_str("kill KILL_PROCESS or KILL_THREAD\n"),
    }
}

// Adds that so many lines tell an answer.
fn put_counted(text: &mut String, count: usize, answer: Answer) -> Result<(), AllocError>
    ensures { IfOk result (λ _. string_bytes text.new ≡ string_bytes text.old ++ counted_line count answer) }
{
    put_count(text, count)?;
    put_answer(text, answer)
}

// Adds how many lines tell an event, and the answer.
fn put_times(text: &mut String, all: &[Event], event: &Event) -> Result<(), AllocError>
    ensures { IfOk result (λ _. string_bytes text.new ≡ string_bytes text.old ++ spec.times_line all.now event.now) }
{
    put_counted(text, count_of(event, all), event.answer)
}

// Adds whether the bundle may answer so.
fn put_may(text: &mut String, may: bool) -> Result<(), AllocError>
    ensures { IfOk result (λ _. string_bytes text.new ≡ string_bytes text.old ++ spec.may_line may) }
{
    if may {
        text.push_str("the bundle may answer so\n")
    } else {
        text.push_str("the bundle never answers so: another filter did\n")
    }
}

// Adds what the bundle says of the call of an event, unless one of those before is of the same call.
fn put_entries(
    text: &mut String,
    profile: &Profile,
    all: &EntryRules,
    before: &[Event],
    event: &Event,
) -> Result<(), AllocError>
    ensures { IfOk result (λ _. string_bytes text.new ≡ string_bytes text.old
        ++ spec.entries_lines profile.now all.now.rules.items all.now.ends.items before.now event.now) }
{
    if has_call(before, event) {
        return text.push_str("entries as above\n");
    }
    put_said(text, profile, all, event.token, event.nr)
}

// Adds an event of all, behind those before it.
fn put_event(
    text: &mut String,
    family: Family,
    profile: &Profile,
    all: &EntryRules,
    events: &[Event],
    origins: &[Origin],
    before: &[Event],
    event: &Event,
) -> Result<(), AllocError>
    ensures { IfOk result (λ _. string_bytes text.new ≡ string_bytes text.old
        ++ spec.event_lines family profile.now all.now.rules.items all.now.ends.items events.now (map origin_of origins.now) before.now event.now) }
{
    put_number(text, family, event.token, event.nr)?;
    put_times(text, events, event)?;
    put_origins(text, origins, event)?;
    put_may(text, may_be(profile, *event))?;
    put_entries(text, profile, all, before, event)
}

// Adds these events of all.
fn put_events(
    text: &mut String,
    family: Family,
    profile: &Profile,
    all: &EntryRules,
    events: &[Event],
    origins: &[Origin],
    firsts: &[Event],
) -> Result<(), AllocError>
    ensures { IfOk result (λ _. string_bytes text.new ≡ string_bytes text.old
        ++ spec.lines_behind family profile.now all.now.rules.items all.now.ends.items events.now (map origin_of origins.now) [] firsts.now) }
{
    for (place, event) in firsts.iter().enumerate() {
        let before = &firsts[..place];
        put_event(text, family, profile, all, events, origins, before, event)?;
    }
    Ok(())
}

// Adds how many lines tell events that are not listed, if there are some.
fn put_others(text: &mut String, others: usize) -> Result<(), AllocError>
    ensures { IfOk result (λ _. string_bytes text.new ≡ string_bytes text.old ++ spec.others_line others) }
{
    if others == 0 {
        return Ok(());
    }
    writeln!(text, "more lines that tell others: {others}")
}

// Adds how many lines tell of processes that are not listed, if there are some.
fn put_further(text: &mut String, further: usize) -> Result<(), AllocError>
    ensures { IfOk result (λ _. string_bytes text.new ≡ string_bytes text.old ++ spec.further_line further) }
{
    if further == 0 {
        return Ok(());
    }
    writeln!(text, "more lines of other processes: {further}")
}

// Adds how many lines are not read, if there are some.
fn put_unread(text: &mut String, unread: usize) -> Result<(), AllocError>
    ensures { IfOk result (λ _. string_bytes text.new ≡ string_bytes text.old ++ spec.unread_line unread) }
{
    if unread == 0 {
        return Ok(());
    }
    writeln!(text, "lines of filters that are not read: {unread}")
}

// The text that a profile tells of events and their processes, and of how many lines are not read.
fn text_of(
    alloc: Global,
    family: Family,
    profile: &Profile,
    all: &EntryRules,
    events: &[Event],
    origins: &[Origin],
    further: usize,
    unread: usize,
) -> Result<String, AllocError>
    ensures { IfOk result (λ text. string_bytes text ≡ spec.audit_text family profile.now all.now.rules.items all.now.ends.items
        events.now (map origin_of origins.now) further unread) }
{
    let firsts = listed(alloc, events)?;
    let mut text = String::new(alloc);
    put_events(&mut text, family, profile, all, events, origins, &firsts)?;
    put_others(&mut text, count_others(&firsts, events))?;
    put_further(&mut text, further)?;
    put_unread(&mut text, unread)?;
    Ok(text)
}

// The line that tells that no line is of a filter's answer.
fn no_event(alloc: Global) -> Result<Told, AllocError>
    ensures { IfOk result (RefusesBy (codes "refused lines: none has arch, syscall and code")) }
{
    Ok(Told {
        bytes: Vec::from_slice(alloc, b"refused lines: none has arch, syscall and code\n")?,
        end: End::Refused,
    })
}

// Whether no line is of a filter's answer.
fn is_nothing(events: &[Event], unread: usize) -> bool
    ensures { result ≡ (length events.now == 0 && unread == 0) }
{
    if events.is_empty() {
        return unread == 0;
    }
    false
}

// Whether a profile may answer so in each event, and each line is read.
fn is_done(profile: &Profile, events: &[Event], unread: usize) -> bool
    ensures { result ≡ (unread == 0 && list_all (spec.may_be profile.now) events.now) }
{
    if unread == 0 {
        return all_may_be(profile, events);
    }
    false
}

// What a profile says of events and their processes, beside which so many lines are not read.
fn told_of(
    alloc: Global,
    family: Family,
    profile: &Profile,
    all: &EntryRules,
    events: &[Event],
    origins: &[Origin],
    further: usize,
    unread: usize,
) -> Result<Told, AllocError>
    ensures { IfOk result (spec.AnswersEvents family profile.now all.now.rules.items all.now.ends.items
        events.now (map origin_of origins.now) further unread) }
{
    if is_nothing(events, unread) {
        return no_event(alloc);
    }
    let text = text_of(
        alloc, family, profile, all, events, origins, further, unread,
    )?;
    Ok(Told {
        bytes: text.into_bytes(),
        end: End::of(is_done(profile, events, unread)),
    })
}

// What a bundle says of the events of lines.
fn audited(alloc: Global, document: &Document, lines: &[u8]) -> Result<Told, ProfileError>
    ensures asks { IfOk result (spec.AsksBundle document.now.native document.now.bytes lines.now) }
    // Unless memory ran out, the fault stands in the bundle.
    ensures fault { IfErr result (λ e. IfSome (fault_of e) (Breaks document.now.bytes document.now.native)) }
{
    let read = document.bundle()?;
    let events = events_in(alloc, lines)?;
    let origins = origins_in(alloc, lines)?;
    let further = count_others_in(alloc, &origins, lines)?;
    let unread = count_unread(lines);
    let told = told_of(
        alloc,
        document.native().family(),
        &read.profile,
        &read.by_entry,
        &events,
        &origins,
        further,
        unread,
    )?;
    Ok(told)
}

/// Tells what each call was that lines of a kernel's audit show, as dmesg, journald, auditd and `ausearch -i` write them. Also tells
/// which processes they are of, whether a bundle may answer so, and what the bundle says of it. It is done where the bundle may
/// answer so in each line of a filter's answer, and each is read.
pub fn audit(alloc: Global, document: &Document, lines: &[u8]) -> Result<Told, AllocError>
    ensures { IfOk result (spec.IsAudited document.now.native document.now.bytes lines.now) }
{
    match audited(alloc, document, lines) {
        Ok(told) => Ok(told),
        Err(error) => refused_profile(alloc, error),
    }
}
