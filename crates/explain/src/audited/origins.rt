//! Which processes the events are of that the lines of a kernel's audit tell.
ghost use Rattle.std.specs.Prelude.{◌≡◌, ◌++◌, count_by, if◌then◌else◌, IfOk, map, string_bytes};
ghost use Rattle.std.specs.List.{list_any};
ghost use Rattle.explain.specs.Audit as spec;
ghost use Rattle.explain.specs.inner.Origins.{origin_of};

use crate::audited::event::{Event, event_in};
use crate::audited::events::is_same;
use crate::audited::naming::process_of;
use std::alloc::{AllocError, Global};
use std::fmt::Write;
use wording::split_line;

// How many processes of an event are listed, and how many of all events.
const MOST_OF_ONE: usize = 16;

const MOST_LISTED: usize = 1024;

/// An event, and a process that it is of.
#[derive(Drop)]
pub(crate) struct Origin {
    pub(crate) event: Event,
    pub(crate) process: String,
}

// Whether it is one of an event and a process.
fn is_origin(event: &Event, process: &str, origin: &Origin) -> bool
    ensures { result ≡ spec.is_origin event.now process.now (origin_of origin.now) }
{
    if !is_same(event, &origin.event) {
        return false;
    }
    *process == *origin.process
}

// Whether one of these is of an event and a process.
fn is_among(origins: &[Origin], event: &Event, process: &str) -> bool
    ensures { result ≡ list_any (λ origin. spec.is_origin event.now process.now (origin_of origin)) origins.now }
{
    origins
        .iter()
        .any(|origin| is_origin(event, process, origin))
}

// Whether an event of a process is among these.
fn has_origin(origins: &[Origin], event: &Event, process: &str) -> bool
    ensures { result ≡ spec.has_origin (map origin_of origins.now) event.now process.now }
{
    is_among(origins, event, process)
}

// How many of these are of an event.
fn count_of(origins: &[Origin], event: &Event) -> usize
    ensures { result ≡ count_by (λ origin. spec.is_same event.now origin.event) origins.now }
{
    origins
        .iter()
        .filter(|origin| is_same(event, &origin.event))
        .count()
}

// Whether so many processes of an event are listed as are listed at most.
fn is_full(origins: &[Origin], event: &Event) -> bool
    ensures { result ≡ spec.is_full (map origin_of origins.now) event.now }
{
    if origins.len() >= MOST_LISTED {
        return true;
    }
    count_of(origins, event) >= MOST_OF_ONE
}

// Adds an event of a process, unless it is among these, or they are as many as are listed.
fn put_origin(origins: &mut Vec<Origin>, event: Event, process: String) -> Result<(), AllocError>
    ensures { IfOk result (λ _. map origin_of origins.new.items
        ≡ spec.with_origin (map origin_of origins.old.items) event (string_bytes process)) }
{
    if has_origin(origins, &event, &process) {
        return Ok(());
    }
    if is_full(origins, &event) {
        return Ok(());
    }
    origins.push(Origin { event, process })?;
    Ok(())
}

// Adds the event of a line and its process, if the line tells both.
fn put_line(alloc: Global, line: &[u8], origins: &mut Vec<Origin>) -> Result<(), AllocError>
    ensures { IfOk result (λ _. map origin_of origins.new.items ≡ spec.with_line (map origin_of origins.old.items) line.now) }
{
    match event_in(line) {
        Some(event) => {
            let process = process_of(alloc, line)?;
            if process.is_empty() {
                return Ok(());
            }
            put_origin(origins, event, process)
        }
        None => Ok(()),
    }
}

/// The processes of the events that the lines of a text tell.
pub(crate) fn origins_in(alloc: Global, text: &[u8]) -> Result<Vec<Origin>, AllocError>
    ensures { IfOk result (λ origins. map origin_of origins.items ≡ spec.origins_in text.now) }
{
    let mut origins = Vec::new(alloc);
    let mut rest = text;
    'line: while let Some((line, more)) = split_line(rest) {
        put_line(alloc, line, &mut origins)?;
        rest = more;
    }
    put_line(alloc, rest, &mut origins)?;
    Ok(origins)
}

// Whether a line tells an event of a process that is not among these.
fn is_other(alloc: Global, origins: &[Origin], line: &[u8]) -> Result<bool, AllocError>
    ensures { IfOk result (λ other. other ≡ spec.is_other (map origin_of origins.now) (spec.event_in line.now) (spec.process_on line.now)) }
{
    match event_in(line) {
        Some(event) => {
            let process = process_of(alloc, line)?;
            if process.is_empty() {
                return Ok(false);
            }
            Ok(!has_origin(origins, &event, &process))
        }
        None => Ok(false),
    }
}

// How many of one line do.
fn count_in(alloc: Global, origins: &[Origin], line: &[u8]) -> Result<usize, AllocError>
    ensures { IfOk result (λ count. count ≡ (if spec.is_other (map origin_of origins.now) (spec.event_in line.now) (spec.process_on line.now)
        then 1 else 0)) }
{
    if is_other(alloc, origins, line)? {
        return Ok(1);
    }
    Ok(0)
}

/// How many lines of a text tell an event of a process that is not among these.
pub(crate) fn count_others_in(
    alloc: Global,
    origins: &[Origin],
    text: &[u8],
) -> Result<usize, AllocError>
    ensures { IfOk result (λ count. count ≡ spec.count_of_others (map origin_of origins.now) text.now) }
{
    let mut count = 0;
    let mut rest = text;
    'line: while let Some((line, more)) = split_line(rest) {
        count += count_in(alloc, origins, line)?;
        rest = more;
    }
    let last = count_in(alloc, origins, rest)?;
    Ok(count + last)
}

// Adds the line of a process.
fn put_process(text: &mut String, process: &str) -> Result<(), AllocError>
    ensures { IfOk result (λ _. string_bytes text.new ≡ string_bytes text.old ++ spec.process_line process.now) }
{
    writeln!(text, "process{process}")
}

// Adds the line of a process of an event.
fn put_of(text: &mut String, event: &Event, origin: &Origin) -> Result<(), AllocError>
    ensures { IfOk result (λ _. string_bytes text.new ≡ string_bytes text.old ++ spec.origin_line event.now (origin_of origin.now)) }
{
    if is_same(event, &origin.event) {
        return put_process(text, &origin.process);
    }
    Ok(())
}

/// Adds the lines of the processes of an event.
pub(crate) fn put_origins(
    text: &mut String,
    origins: &[Origin],
    event: &Event,
) -> Result<(), AllocError>
    ensures { IfOk result (λ _. string_bytes text.new ≡ string_bytes text.old ++ spec.origin_lines (map origin_of origins.now) event.now) }
{
    for origin in origins {
        put_of(text, event, origin)?;
    }
    Ok(())
}
