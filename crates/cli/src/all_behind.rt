//! What `ccell certify .. runc all` does: it judges a filter behind runc's stub, and does not stop at the first call.
ghost use Rattle.std.specs.Prelude.{◌≡◌, ◌⊎◌, ℕ, IfOk, List, Ok, OnErr};
ghost use Rattle.machines.specs.declared.arch.Arch.{Arch as TheArch};
ghost use Rattle.compare.specs.Behind.{CertifiesAllBehind, IsBehind, IsJudgedBehind, IsNoCounterexample, WritesBehind};
ghost use Rattle.compare.specs.Counterexamples.{WritesLines};
ghost use Rattle.maker.specs.declared.evidence.evidence.Counterexample.{Counterexample as TheCounterexample};
ghost use Rattle.maker.specs.declared.evidence.evidence.Evidence.TheVariants.{Refuting};
ghost use Rattle.maker.specs.evidence.Counterexample.{IsCertificate};
ghost use Rattle.compare.specs.declared.behind_runc.stub.calls.Calls.{Calls as TheCalls};
ghost use Rattle.maker.specs.Exported.{LacksMemory};
ghost use Rattle.cli.specs.Explained.{MayTellEach, TellsAllBehind};

use crate::behind::lines_of;
use crate::comparing::{put_text, tell_why};
use compare::{
    Behind, Judged, behind_stub, counterexamples_behind, judge_behind, write_behind,
    write_counterexamples,
};
use maker::{Counterexample, Evidence};
use profile_json::Document;
use std::alloc::Global;
use texts::{Sink, WriteFault};

/// Explains each record, in order, if there is memory.
pub(crate) fn explain_each<E: Sink>(
    alloc: Global,
    document: &Document,
    all: &[Counterexample],
    err: &mut E,
)
    ensures { MayTellEach E.held E.failures document.now.native document.now.bytes all.now err.old err.new }
{
    match all {
        [found, more @ ..] => {
            tell_why(alloc, document, found, err);
            explain_each(alloc, document, more, err);
        }
        [] => {}
    }
}

// Writes the lines of all records that were found, if this evidence is one, and else what is judged.
fn write_evidence<O: Sink>(
    alloc: Global,
    judged: &Judged,
    evidence: &Evidence,
    all: &[Counterexample],
    out: &mut O,
) -> Result<bool, WriteFault>
    ensures found { (one : TheCounterexample) → evidence.now ≡ Refuting one
        → WritesLines O.held O.failures out.old out.new all.now result ⊎ LacksMemory out.old out.new result }
    ensures none { IsCertificate evidence.now → (native : TheArch) (bundle filter rest : List ℕ) (answered : List TheCalls)
        → IsBehind filter rest answered → IsJudgedBehind native bundle filter rest answered judged.now.whole judged.now.evidence
        → WritesBehind O.held O.failures out.old out.new native bundle filter rest answered judged.now.whole result }
{
    match evidence {
        Evidence::Refuting(_) => write_counterexamples(alloc, all, out),
        Evidence::Certificate(_) => write_behind(alloc, judged, out),
    }
}

// Writes what is judged of a filter behind a stub: the lines of all records that were found, if it is refuted.
fn write_found<O: Sink>(
    alloc: Global,
    judged: &Judged,
    all: &[Counterexample],
    out: &mut O,
) -> Result<bool, WriteFault>
    ensures found { (one : TheCounterexample) → judged.now.evidence ≡ Ok (Refuting one)
        → WritesLines O.held O.failures out.old out.new all.now result ⊎ LacksMemory out.old out.new result }
    ensures none { IsNoCounterexample judged.now.evidence → (native : TheArch) (bundle filter rest : List ℕ) (answered : List TheCalls)
        → IsBehind filter rest answered → IsJudgedBehind native bundle filter rest answered judged.now.whole judged.now.evidence
        → WritesBehind O.held O.failures out.old out.new native bundle filter rest answered judged.now.whole result }
{
    match &judged.evidence {
        Ok(evidence) => write_evidence(alloc, judged, evidence, all, out),
        Err(_) => write_behind(alloc, judged, out),
    }
}

/// Writes what is judged of a filter behind a stub. It reports on standard error which calls the stub answers, and what the bundle says of
/// each record that was told. If there is no memory for these lines, nothing is written at all.
pub(crate) fn judge<O: Sink, E: Sink>(
    alloc: Global,
    document: &Document,
    filter: &[u8],
    out: &mut O,
    err: &mut E,
) -> Result<bool, WriteFault>
    ensures written { CertifiesAllBehind O.held O.failures out.old out.new document.now.native document.now.bytes filter.now result }
    ensures stopped { OnErr result (err.new ≡ err.old) }
    ensures told { IfOk result (λ done. TellsAllBehind O.held O.failures out.old out.new E.held E.failures err.old err.new document.now.native document.now.bytes filter.now (Ok done)) }
{
    let behind = match behind_stub(alloc, filter) {
        Ok(behind) => behind,
        Err(_no_memory) => return Err(WriteFault::OutOfMemory),
    };
    let judged = judge_behind(alloc, document, filter, &behind);
    let lines = match lines_of(alloc, document.native(), filter, &behind, judged.whole) {
        Ok(lines) => lines,
        Err(_no_memory) => return Err(WriteFault::OutOfMemory),
    };
    let all = match counterexamples_behind(alloc, document, filter, &behind, &judged) {
        Ok(all) => all,
        Err(_no_memory) => return Err(WriteFault::OutOfMemory),
    };
    let done = match write_found(alloc, &judged, &all, out) {
        Ok(done) => done,
        Err(fault) => return Err(fault),
    };
    put_text(lines, err);
    explain_each(alloc, document, &all, err);
    Ok(done)
}
