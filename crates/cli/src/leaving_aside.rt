//! What `ccell certify` does where calls may be left aside.
ghost use Rattle.std.specs.Prelude.{◌≡◌, ◌⊎◌, [], IfOk, Ok, OnErr, false, true};
ghost use Rattle.aside.specs.declared.leave.Leave.{Leave as TheLeave};
ghost use Rattle.aside.specs.Judged.{IsJudged, stub_calls};
ghost use Rattle.aside.specs.Told.{AreFoundBut, CertifiesBut};
ghost use Rattle.compare.specs.Behind.{IsBehind};
ghost use Rattle.maker.specs.declared.evidence.evidence.Counterexample.{Counterexample as TheCounterexample};
ghost use Rattle.maker.specs.declared.evidence.evidence.Evidence.TheVariants.{Refuting};

use crate::all_behind::explain_each;
use crate::behind::lines_of;
use crate::comparing::{put_text, tell_found};
use aside::{JudgedAside, Leave, counterexamples_but, judge_but, write_found};
use compare::{Behind, behind_stub};
use machines::Arch;
use maker::Counterexample;
use profile_json::Document;
use std::alloc::{AllocError, Global};
use texts::{Sink, WriteFault};

/// What is asked beside the calls that may be left aside.
#[derive(Clone, Copy)]
pub(crate) struct CertifyOptions {
    pub(crate) runc: bool,
    pub(crate) all: bool,
}

// The filter behind a stub, if this is asked for, and else the whole filter.
fn behind_of<'a>(alloc: Global, filter: &'a [u8], runc: bool) -> Result<Behind<'a>, AllocError>
    ensures { IfOk result (λ behind. IsBehind filter.entry.now behind.rest.now behind.answered.items) }
{
    if runc {
        return behind_stub(alloc, filter);
    }
    Ok(Behind {
        answered: Vec::new(alloc),
        rest: filter,
    })
}

// The lines on the calls that the stub answers, if it was asked for.
fn stub_lines(
    alloc: Global,
    native: Arch,
    filter: &[u8],
    behind: &Behind<'_>,
    whole: bool,
    runc: bool,
) -> Result<String, AllocError> {
    if runc {
        return lines_of(alloc, native, filter, behind, whole);
    }
    Ok(String::new(alloc))
}

// All records that are found, if they are asked for.
fn all_of(
    alloc: Global,
    document: &Document,
    filter: &[u8],
    behind: &Behind<'_>,
    but: &JudgedAside,
    all: bool,
) -> Result<Vec<Counterexample>, AllocError>
    requires { (leave : TheLeave) × IsJudged document.now.native document.now.bytes filter.now behind.now.rest.now behind.now.answered.items leave
        but.now.aside.items but.now.judged.whole but.now.judged.evidence }
    ensures { IfOk result (λ all. (all.items ≡ []) ⊎ ((found : TheCounterexample) × (but.now.judged.evidence ≡ Ok (Refuting found))
        × AreFoundBut document.now.native document.now.bytes filter.now (stub_calls but.now.judged.whole behind.now.answered.items) but.now.aside.items found
        all.items)) }
{
    if all {
        return counterexamples_but(alloc, document, filter, behind, but);
    }
    Ok(Vec::new(alloc))
}

// Whether nothing is told on standard error: where the answer is yes, unless a stub was asked for.
fn is_quiet(runc: bool, done: bool) -> bool
    ensures { result ≡ false → done ≡ true → runc ≡ true }
{
    done && !runc
}

// Tells on standard error which calls the stub answers, if it was asked for, and explains each record that was told.
fn tell<E: Sink>(
    alloc: Global,
    document: &Document,
    lines: String,
    but: &JudgedAside,
    all: &[Counterexample],
    err: &mut E,
) {
    put_text(lines, err);
    if all.is_empty() {
        tell_found(alloc, document, &but.judged.evidence, err);
    } else {
        explain_each(alloc, document, all, err);
    }
}

/// Writes what is judged of a filter where calls may be left aside. If there is no memory for what is told of it, nothing is written at all.
pub(crate) fn judge<O: Sink, E: Sink>(
    alloc: Global,
    document: &Document,
    filter: &[u8],
    leave: Leave,
    asked: CertifyOptions,
    out: &mut O,
    err: &mut E,
) -> Result<bool, WriteFault>
    ensures written { CertifiesBut O.held O.failures out.old out.new document.now.native document.now.bytes filter.now leave result }
    ensures stopped { OnErr result (err.new ≡ err.old) }
    ensures quiet { result ≡ Ok true → (asked.runc ≡ true) ⊎ (err.new ≡ err.old) }
{
    let native = document.native();
    let behind = match behind_of(alloc, filter, asked.runc) {
        Ok(behind) => behind,
        Err(_no_memory) => return Err(WriteFault::OutOfMemory),
    };
    let but = match judge_but(alloc, document, filter, &behind, leave) {
        Ok(but) => but,
        Err(_no_memory) => return Err(WriteFault::OutOfMemory),
    };
    let lines = match stub_lines(alloc, native, filter, &behind, but.judged.whole, asked.runc) {
        Ok(lines) => lines,
        Err(_no_memory) => return Err(WriteFault::OutOfMemory),
    };
    let all = match all_of(alloc, document, filter, &behind, &but, asked.all) {
        Ok(all) => all,
        Err(_no_memory) => return Err(WriteFault::OutOfMemory),
    };
    let done = match write_found(alloc, native, &but, &all, out) {
        Ok(done) => done,
        Err(fault) => return Err(fault),
    };
    if is_quiet(asked.runc, done) {
        return Ok(done);
    }
    tell(alloc, document, lines, &but, &all, err);
    Ok(done)
}
