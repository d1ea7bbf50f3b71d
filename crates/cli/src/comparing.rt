//! What `ccell certify` writes, and what it says of a record on standard error.
ghost use Rattle.std.specs.Prelude.{◌≡◌, ◌⊎◌, Ok, OnErr, false, string_bytes, true};
ghost use Rattle.cli.specs.Explained.{HasNoRecord, MayTellWhy, TellsRecord, WritesSome};
ghost use Rattle.maker.specs.declared.evidence.evidence.Counterexample.{Counterexample as TheCounterexample};
ghost use Rattle.maker.specs.declared.evidence.evidence.Evidence.TheVariants.{Refuting};
ghost use Rattle.maker.specs.evidence.Counterexample.{IsCertificate};
ghost use Rattle.maker.specs.Certified.{Certifies};

use compare::explain_found;
use maker::{Counterexample, Evidence, MakeError, judge_bundle, write_judged};
use profile_json::Document;
use std::alloc::Global;
use texts::{Sink, WriteFault, write_all};

/// Writes a text. Nothing depends on whether it can be written.
pub(crate) fn put_text<E: Sink>(text: String, err: &mut E)
    ensures { WritesSome E.held E.failures err.old err.new (string_bytes text) }
{
    let _ = write_all(text.as_bytes(), err);
}

/// Explains a record that refutes a filter, if there is memory.
pub(crate) fn tell_why<E: Sink>(
    alloc: Global,
    document: &Document,
    found: &Counterexample,
    err: &mut E,
)
    ensures { MayTellWhy E.held E.failures err.old err.new document.now.native document.now.bytes found.now.call }
{
    match explain_found(alloc, document, found) {
        Some(text) => put_text(text, err),
        None => {}
    }
}

// Explains the record of the evidence, if it is one.
fn tell_evidence<E: Sink>(alloc: Global, document: &Document, evidence: &Evidence, err: &mut E)
    ensures why { (found : TheCounterexample) → evidence.now ≡ Refuting found
        → MayTellWhy E.held E.failures err.old err.new document.now.native document.now.bytes found.call }
    ensures quiet { IsCertificate evidence.now → err.new ≡ err.old }
{
    match evidence {
        Evidence::Refuting(found) => tell_why(alloc, document, found, err),
        Evidence::Certificate(_) => {}
    }
}

/// Explains the record that was found, if one was.
pub(crate) fn tell_found<E: Sink>(
    alloc: Global,
    document: &Document,
    judged: &Result<Evidence, MakeError>,
    err: &mut E,
)
    ensures why { (found : TheCounterexample) → judged.now ≡ Ok (Refuting found)
        → MayTellWhy E.held E.failures err.old err.new document.now.native document.now.bytes found.call }
    ensures quiet { HasNoRecord judged.now → err.new ≡ err.old }
{
    match judged {
        Ok(evidence) => tell_evidence(alloc, document, evidence, err),
        Err(_) => {}
    }
}

/// Writes what is judged of a bundle and a filter, and explains on standard error the very record that was told, if one was.
pub fn certify<O: Sink, E: Sink>(
    alloc: Global,
    document: &Document,
    filter: &[u8],
    out: &mut O,
    err: &mut E,
) -> Result<bool, WriteFault>
    ensures found { Certifies O.held O.failures out.old out.new document.now.native document.now.bytes filter.now result }
    ensures stopped { OnErr result (err.new ≡ err.old) }
    ensures quiet { result ≡ Ok true → err.new ≡ err.old }
    // The record that is explained is the one that was told.
    ensures told { result ≡ Ok false → (err.new ≡ err.old)
        ⊎ TellsRecord O.held O.failures out.old out.new E.held E.failures err.old err.new document.now.native document.now.bytes }
{
    let judged = judge_bundle(alloc, document, filter);
    let done = match write_judged(alloc, &judged, out) {
        Ok(done) => done,
        Err(fault) => return Err(fault),
    };
    tell_found(alloc, document, &judged, err);
    Ok(done)
}
