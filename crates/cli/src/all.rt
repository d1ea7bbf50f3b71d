//! What `ccell certify` does that does not stop at the first call.
ghost use Rattle.std.specs.Prelude.{◌≡◌, ◌⊎◌, OnErr, Ok, true};
ghost use Rattle.compare.specs.Counterexamples.{Refutes, TellsAll};
ghost use Rattle.maker.specs.Certified.{Certifies};

use crate::comparing::put_text;
use compare::{counterexamples_of, explain_found, write_counterexamples};
use maker::{Counterexample, Evidence, judge_bundle, write_judged};
use profile_json::Document;
use std::alloc::Global;
use texts::{Sink, WriteFault};

// Explains each record that was told, if there is memory.
fn tell_each<E: Sink>(alloc: Global, document: &Document, all: &[Counterexample], err: &mut E) {
    for found in all {
        if let Some(text) = explain_found(alloc, document, found) {
            put_text(text, err);
        }
    }
}

// Writes the lines of all records that are found to refute a filter, beside the first, and explains each.
fn write_each<O: Sink, E: Sink>(
    alloc: Global,
    document: &Document,
    filter: &[u8],
    found: &Counterexample,
    out: &mut O,
    err: &mut E,
) -> Result<bool, WriteFault>
    requires { Refutes document.now.native document.now.bytes filter.now found.now }
    ensures told { TellsAll O.held O.failures out.old out.new document.now.native document.now.bytes filter.now result }
    ensures stopped { OnErr result (err.new ≡ err.old) }
    ensures quiet { result ≡ Ok true → err.new ≡ err.old }
{
    let all = match counterexamples_of(alloc, document, filter, found) {
        Ok(all) => all,
        Err(_no_memory) => return Err(WriteFault::OutOfMemory),
    };
    match write_counterexamples(alloc, &all, out) {
        Err(fault) => Err(fault),
        Ok(true) => Ok(true),
        Ok(false) => {
            tell_each(alloc, document, &all, err);
            Ok(false)
        }
    }
}

/// Writes what is judged of a bundle and a filter, and of a filter that is refuted all records that are found.
pub(crate) fn judge<O: Sink, E: Sink>(
    alloc: Global,
    document: &Document,
    filter: &[u8],
    out: &mut O,
    err: &mut E,
) -> Result<bool, WriteFault>
    ensures written { Certifies O.held O.failures out.old out.new document.now.native document.now.bytes filter.now result
        ⊎ TellsAll O.held O.failures out.old out.new document.now.native document.now.bytes filter.now result }
    ensures stopped { OnErr result (err.new ≡ err.old) }
    ensures quiet { result ≡ Ok true → err.new ≡ err.old }
{
    let judged = judge_bundle(alloc, document, filter);
    if let Ok(Evidence::Refuting(found)) = &judged {
        return write_each(alloc, document, filter, found, out, err);
    }
    write_judged(alloc, &judged, out)
}
