//! What `ccell certify` does of a filter behind the stub that runc puts in front of it.
ghost use Rattle.std.specs.Prelude.{◌-◌, ◌≡◌, IfOk, Ok, OnErr, length, string_bytes};
ghost use Rattle.machines.specs.Arch.{family_of};
ghost use Rattle.compare.specs.Behind.{CertifiesBehind};
ghost use Rattle.compare.specs.StubTold as told;
ghost use Rattle.cli.specs.Explained.{TellsBehind};

use crate::comparing::{put_text, tell_found};
use compare::{Behind, behind_stub, judge_behind, stub_text, write_behind};
use machines::Arch;
use profile_json::Document;
use std::alloc::{AllocError, Global};
use texts::{Sink, WriteFault};

/// The lines on the calls that the stub of a filter answers, and on whether the whole filter was judged.
pub(crate) fn lines_of(
    alloc: Global,
    native: Arch,
    filter: &[u8],
    behind: &Behind<'_>,
    whole: bool,
) -> Result<String, AllocError>
    ensures { IfOk result (λ text. string_bytes text
        ≡ told.stub_text (family_of native) (length filter.now - length behind.now.rest.now) behind.now.answered.items whole) }
{
    let size = filter.len().saturating_sub(behind.rest.len());
    stub_text(alloc, native.family(), size, &behind.answered, whole)
}

/// Writes what is judged of a filter behind a stub. It reports on standard error which calls the stub answers, and what the bundle says of
/// the record that was told, if one was. If there is no memory for these lines, nothing is written at all.
pub(crate) fn judge<O: Sink, E: Sink>(
    alloc: Global,
    document: &Document,
    filter: &[u8],
    out: &mut O,
    err: &mut E,
) -> Result<bool, WriteFault>
    ensures written { CertifiesBehind O.held O.failures out.old out.new document.now.native document.now.bytes filter.now result }
    ensures stopped { OnErr result (err.new ≡ err.old) }
    ensures told { IfOk result (λ done. TellsBehind O.held O.failures out.old out.new E.held E.failures err.old err.new document.now.native document.now.bytes filter.now (Ok done)) }
{
    let behind = match behind_stub(alloc, filter) {
        Ok(behind) => behind,
        Err(_no_memory) => return Err(WriteFault::OutOfMemory),
    };
    let judged = judge_behind(alloc, document, filter, &behind);
    let lines = match lines_of(alloc, document.native(), filter, &behind, judged.whole) {
        Ok(lines) => lines,
        Err(_no_memory) => return Err(WriteFault::OutOfMemory),
    };
    let done = match write_behind(alloc, &judged, out) {
        Ok(done) => done,
        Err(fault) => return Err(fault),
    };
    put_text(lines, err);
    tell_found(alloc, document, &judged.evidence, err);
    Ok(done)
}
