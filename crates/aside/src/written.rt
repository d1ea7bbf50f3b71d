//! What is written of a filter where calls are left aside.
ghost use Rattle.std.specs.Prelude.{◌≡◌, ◌≢◌, ◌⊎◌, [], ℕ, List, IfOk, Ok, string_bytes};
ghost use Rattle.call_record.specs.Record.{words};
ghost use Rattle.machines.specs.declared.arch.Arch.{Arch as TheArch};
ghost use Rattle.machines.specs.Arch.{family_of};
ghost use Rattle.maker.specs.declared.evidence.evidence.Counterexample.{Counterexample as TheCounterexample};
ghost use Rattle.maker.specs.declared.evidence.evidence.Evidence.TheVariants.{Refuting};
ghost use Rattle.maker.specs.Exported.{LacksMemory};
ghost use Rattle.maker.specs.Told.{IsWritten, Tells};
ghost use Rattle.compare.specs.declared.behind_runc.stub.calls.Calls.{Calls as TheCalls};
ghost use Rattle.compare.specs.Behind.{IsBehind, IsJudgedBehind, WritesBehind};
ghost use Rattle.aside.specs.declared.leave.Leave.{Leave as TheLeave};
ghost use Rattle.aside.specs.Judged.{IsJudged, IsJudgedBut, stub_calls};
ghost use Rattle.aside.specs.Told.{AreFoundBut, CertifiesBut, WritesBut, but_text};

use crate::judged::JudgedAside;
use compare::{Calls, calls_text, write_behind, write_counterexamples};
use machines::{Arch, Family};
use maker::{Counterexample, Evidence, refuse, write_judged};
use std::alloc::{AllocError, Global};
use texts::{Sink, WriteFault, write_all};

// A line, and the lines of the calls that are left aside.
fn but_text(alloc: Global, family: Family, aside: &[Calls]) -> Result<String, AllocError>
    ensures { IfOk result (λ text. string_bytes text ≡ but_text family aside.now) }
{
    let lines = calls_text(alloc, family, aside)?;
    let mut text = String::from_str(alloc, "yes, but for these calls:\n")?;
    text.push_str(&lines)?;
    Ok(text)
}

// Writes them. The answer is true.
fn write_yes<S: Sink>(
    alloc: Global,
    family: Family,
    aside: &[Calls],
    sink: &mut S,
) -> Result<bool, WriteFault>
    ensures { IsWritten S.held S.failures sink.old sink.new (but_text family aside.now) result ⊎ LacksMemory sink.old sink.new result }
{
    let Ok(text) = but_text(alloc, family, aside) else {
        return Err(WriteFault::OutOfMemory);
    };
    write_all(text.as_bytes(), sink)?;
    Ok(true)
}

// Writes the evidence where calls are left aside.
fn write_evidence<S: Sink>(
    alloc: Global,
    family: Family,
    but: &JudgedAside,
    evidence: &Evidence,
    sink: &mut S,
) -> Result<bool, WriteFault>
    requires { but.now.judged.evidence ≡ Ok evidence.now }
    ensures but { (native : TheArch) (bundle filter : List ℕ) (answered : List TheCalls) → family ≡ family_of native
        → IsJudgedBut native bundle filter answered but.now.aside.items (Ok evidence.now)
        → WritesBut S.held S.failures sink.old sink.new native bundle filter answered but.now.aside.items result }
    ensures told { (found : TheCounterexample) → evidence.now ≡ Refuting found
        → Tells S.held S.failures sink.old sink.new (words found.call) found.given found.said result }
{
    match evidence {
        Evidence::Certificate(_) => write_yes(alloc, family, &but.aside, sink),
        Evidence::Refuting(_) => write_judged(alloc, &but.judged.evidence, sink),
    }
}

// Writes what is judged where calls are left aside.
fn write_aside<S: Sink>(
    alloc: Global,
    family: Family,
    but: &JudgedAside,
    sink: &mut S,
) -> Result<bool, WriteFault>
    ensures but { (native : TheArch) (bundle filter : List ℕ) (answered : List TheCalls) → family ≡ family_of native
        → IsJudgedBut native bundle filter answered but.now.aside.items but.now.judged.evidence
        → WritesBut S.held S.failures sink.old sink.new native bundle filter answered but.now.aside.items result }
    ensures told { (found : TheCounterexample) → but.now.judged.evidence ≡ Ok (Refuting found)
        → Tells S.held S.failures sink.old sink.new (words found.call) found.given found.said result }
{
    match &but.judged.evidence {
        Err(make_error) => refuse(alloc, make_error, sink),
        Ok(evidence) => write_evidence(alloc, family, but, evidence, sink),
    }
}

/// Writes what is judged of a filter where calls may be left aside. Of one that is right but for them it writes a yes and these; of
/// one that is refuted, the line of the record. Where none is left aside, it writes what is written without such words.
pub fn write_but<S: Sink>(
    alloc: Global,
    native: Arch,
    but: &JudgedAside,
    sink: &mut S,
) -> Result<bool, WriteFault>
    ensures all { but.now.aside.items ≡ [] → (bundle filter rest : List ℕ) (answered : List TheCalls) → IsBehind filter rest answered
        → IsJudgedBehind native bundle filter rest answered but.now.judged.whole but.now.judged.evidence
        → WritesBehind S.held S.failures sink.old sink.new native bundle filter rest answered but.now.judged.whole result }
    ensures but { but.now.aside.items ≢ [] → (bundle filter : List ℕ) (answered : List TheCalls)
        → IsJudgedBut native bundle filter answered but.now.aside.items but.now.judged.evidence
        → WritesBut S.held S.failures sink.old sink.new native bundle filter answered but.now.aside.items result }
    // The record that is told is the one that was found.
    ensures told { (found : TheCounterexample) → but.now.judged.evidence ≡ Ok (Refuting found)
        → Tells S.held S.failures sink.old sink.new (words found.call) found.given found.said result }
{
    if but.aside.is_empty() {
        return write_behind(alloc, &but.judged, sink);
    }
    write_aside(alloc, native.family(), but, sink)
}

/// Writes the lines of all records that were found, if there are any, and else what is judged.
pub fn write_found<S: Sink>(
    alloc: Global,
    native: Arch,
    but: &JudgedAside,
    all: &[Counterexample],
    sink: &mut S,
) -> Result<bool, WriteFault>
    ensures { (bundle filter rest : List ℕ) (answered : List TheCalls) (leave : TheLeave) → IsBehind filter rest answered
        → IsJudged native bundle filter rest answered leave but.now.aside.items but.now.judged.whole but.now.judged.evidence
        → ((all.now ≡ []) ⊎ ((found : TheCounterexample)
        × AreFoundBut native bundle filter (stub_calls but.now.judged.whole answered) but.now.aside.items found all.now))
        → CertifiesBut S.held S.failures sink.old sink.new native bundle filter leave result }
{
    if all.is_empty() {
        return write_but(alloc, native, but, sink);
    }
    write_counterexamples(alloc, all, sink)
}
