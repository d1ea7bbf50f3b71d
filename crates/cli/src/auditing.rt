//! What `ccell explain` does of a kernel's log on standard input.
ghost use Rattle.std.specs.Prelude.{IfErr, IfOk};
ghost use Rattle.strace_logs.specs.Given.{GivesAll};
ghost use Rattle.cli.specs.Input.{StopsInput};
ghost use Rattle.cli.specs.inner.Telling.{TellsAudit};

use crate::stops::Stop;
use explain::audit;
use profile_json::Document;
use std::alloc::Global;
use texts::Source;
use wording::Told;

// How many lines end in these bytes.
fn line_feeds(bytes: &[u8]) -> u64 {
    let mut count = 0u64;
    for byte in bytes {
        if *byte == b'\n' {
            count = count.saturating_add(1);
        }
    }
    count
}

// All bytes of a source.
fn read_all<'a, I: Source>(alloc: Global, input: &mut I) -> Result<Vec<u8>, Stop<'a>>
    ensures all { IfOk result (λ text. GivesAll (I.left input.old) (I.left input.new) text.items) }
    ensures stopped { IfErr result (StopsInput (I.failures input.old) (I.failures input.new)) }
{
    let mut text = Vec::new(alloc);
    let mut buffer = [0u8; 4096];
    'part: loop {
        match input.read(&mut buffer) {
            Ok(0) => return Ok(text),
            Ok(count) => match text.extend_from_slice(&buffer[..count]) {
                Ok(()) => {}
                Err(_no_memory) => return Err(Stop::OutOfMemory),
            },
            Err(_failed) => return Err(Stop::Read(line_feeds(&text).saturating_add(1))),
        }
    }
}

/// Tells what a bundle says of the lines of a kernel's log, which a source has.
pub(crate) fn audited<'a, I: Source>(
    alloc: Global,
    document: &Document,
    input: &mut I,
) -> Result<Told, Stop<'a>>
    ensures { TellsAudit (I.left input.old) (I.left input.new) (I.failures input.old) (I.failures input.new)
        document.now.native document.now.bytes result }
{
    match read_all(alloc, input) {
        Ok(lines) => match audit(alloc, document, &lines) {
            Ok(told) => Ok(told),
            Err(_no_memory) => Err(Stop::OutOfMemory),
        },
        Err(stop) => Err(stop),
    }
}
