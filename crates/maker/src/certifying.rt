//! From a bundle and a filter to a certificate, or to a call record that refutes the filter.
ghost use Rattle.std.specs.Prelude.{◌≡◌, ◌<◌, ℕ, List, Ok, IfOk, length, slice_index, string_bytes};
ghost use Rattle.call_record.specs.Record.{words};
ghost use Rattle.bpf_insn.specs.Bytes.{insns_of};
ghost use Rattle.kernel_check.specs.Lent.{accepted_insns};
ghost use Rattle.machines.specs.declared.arch.Arch.{Arch as TheArch};
ghost use Rattle.maker.specs.declared.evidence.evidence.Counterexample.{Counterexample as TheCounterexample};
ghost use Rattle.maker.specs.declared.evidence.evidence.Evidence.TheVariants.{Refuting};
ghost use Rattle.maker.specs.evidence.Counterexample.{IsCertificate};
ghost use Rattle.maker.specs.Certified.{AreJudged, Certifies, CertifiesOwn, IsEvidenceFor, IsJudgement, IsOwnFilter, IsOwnJudgement};
ghost use Rattle.maker.specs.Certified.{counterexample_line, digits_line};
ghost use Rattle.profile.specs.Policy.{Policy};
ghost use Rattle.maker.specs.Finding.{IsBundle};
ghost use Rattle.maker.specs.Told.{IsLine, IsWritten, Tells};

use crate::evidence::{Counterexample, Evidence, judge};
use crate::make_error::{MakeError, refuse};
use bpf_insn::Program;
use call_record::{Word, words_are_a_record};
use cert_check::CheckError;
use kernel_check::{Accepted, accept};
use profile::Profile;
use profile_json::Document;
use std::alloc::{AllocError, Global};
use texts::{Sink, WriteFault, write_all};

// The bytes of a record are 64, each below 256.
fn are_bytes(bytes: &[u8])
    requires { length bytes.now ≡ 64 }
    ensures size { length bytes.now ≡ 64 }
    ensures small { (i : ℕ) → slice_index bytes.now i < 256 }
{}

// The line that tells a record by its digits, with two verdicts.
fn line_with(alloc: Global, digits: &str, given: Word, said: Word) -> Result<String, AllocError>
    ensures { IfOk result (λ line. string_bytes line ≡ digits_line digits.now given said) }
{
    format!(in alloc; "no record {digits} filter {given} profile {said}\n")
}

// The line that tells a record by its bytes, with two verdicts.
fn line_text(alloc: Global, bytes: &[u8], given: Word, said: Word) -> Result<String, AllocError>
    ensures { IfOk result (λ line. string_bytes line ≡ counterexample_line bytes.now given said) }
{
    let digits = hex::encode(alloc, bytes)?;
    line_with(alloc, digits.as_str(), given, said)
}

/// The line that tells a counterexample.
pub fn line_of(alloc: Global, found: &Counterexample) -> Result<String, AllocError>
    ensures { IfOk result (λ line. IsLine (words found.now.call) found.now.given found.now.said (string_bytes line)) }
{
    let bytes = found.call.to_bytes();
    are_bytes(&bytes);
    line_text(alloc, &bytes, found.given, found.said)
}

// Writes the line that tells a counterexample. The answer is false.
fn tell<S: Sink>(alloc: Global, found: &Counterexample, sink: &mut S) -> Result<bool, WriteFault>
    ensures { Tells S.held S.failures sink.old sink.new (words found.now.call) found.now.given found.now.said result }
{
    let Ok(line) = line_of(alloc, found) else {
        return Err(WriteFault::OutOfMemory);
    };
    write_all(line.as_bytes(), sink)?;
    Ok(false)
}

// What is judged of a profile and a filter that the kernel accepts.
fn judged(alloc: Global, profile: &Profile, program: &Accepted<'_>) -> Result<Evidence, MakeError>
    ensures found { (native : TheArch) (bundle filter : List ℕ) → AreJudged native bundle filter profile.now
        → accepted_insns program.now ≡ insns_of filter → IsJudgement native bundle filter result }
    ensures own { (native : TheArch) (bundle filter : List ℕ) → IsOwnFilter native bundle filter profile.now
        → accepted_insns program.now ≡ insns_of filter → IsOwnJudgement result }
{
    profile.rules();
    match judge(alloc, profile, program) {
        Ok(evidence) => Ok(evidence),
        Err(error) => Err(MakeError::from(error)),
    }
}

/// The evidence on the bytes of a filter, beside the profile that a bundle means. Whoever has read the bundle has it judged by this.
pub fn judge_filter(alloc: Global, profile: &Profile, filter: &[u8]) -> Result<Evidence, MakeError>
    ensures found { (native : TheArch) (bundle : List ℕ) → IsBundle native bundle profile.now
        → IsJudgement native bundle filter.now result }
    ensures own { (native : TheArch) (bundle : List ℕ) → IsOwnFilter native bundle filter.now profile.now → IsOwnJudgement result }
{
    let program = match Program::view(filter) {
        Ok(program) => program,
        Err(fault) => return Err(MakeError::Check(CheckError::View(fault))),
    };
    match accept(&program) {
        Ok(accepted) => judged(alloc, profile, &accepted),
        Err(refused) => Err(MakeError::Check(CheckError::Kernel(refused))),
    }
}

/// The evidence on a filter, beside a bundle. It is a certificate that the filter answers what the bundle says, to which the checker says
/// yes. Or it is a call record on which the filter gives another verdict. Or else the reason is returned why there is neither. For a filter
/// that compares steadily this is only that the format has no room.
pub fn judge_bundle(
    alloc: Global,
    document: &Document,
    filter: &[u8],
) -> Result<Evidence, MakeError>
    ensures found { IsJudgement document.now.native document.now.bytes filter.now result }
    // Take a bundle that means a plain profile, and a filter as the compiler makes it of such. There is a certificate, unless memory is
    // refused.
    ensures own { (policy : Policy) → IsOwnFilter document.now.native document.now.bytes filter.now policy → IsOwnJudgement result }
{
    match document.bundle() {
        Ok(bundle) => judge_filter(alloc, &bundle.profile, filter),
        Err(error) => Err(MakeError::from(error)),
    }
}

// Writes a certificate. The answer is true.
fn write_certificate<S: Sink>(certificate: &[u8], sink: &mut S) -> Result<bool, WriteFault>
    ensures { IsWritten S.held S.failures sink.old sink.new certificate.now result }
{
    write_all(certificate, sink)?;
    Ok(true)
}

// Writes the evidence on a filter: the certificate, where the answer is true, or the line of the very record that refutes it.
fn write_evidence<S: Sink>(
    alloc: Global,
    evidence: &Evidence,
    sink: &mut S,
) -> Result<bool, WriteFault>
    ensures found { (native : TheArch) (bundle filter : List ℕ) → IsEvidenceFor native bundle filter evidence.now
        → Certifies S.held S.failures sink.old sink.new native bundle filter result }
    ensures own { (native : TheArch) (bundle filter : List ℕ) → IsEvidenceFor native bundle filter evidence.now
        → IsCertificate evidence.now → CertifiesOwn S.held S.failures sink.old sink.new native bundle filter result }
    ensures told { (found : TheCounterexample) → evidence.now ≡ Refuting found
        → Tells S.held S.failures sink.old sink.new (words found.call) found.given found.said result }
{
    match evidence {
        Evidence::Certificate(certificate) => write_certificate(certificate, sink),
        Evidence::Refuting(found) => {
            words_are_a_record(&found.call);
            tell(alloc, found, sink)
        }
    }
}

/// Writes what was judged: the evidence, where there is some, or the line that says why there is none. The answer is true where a
/// certificate was written.
pub fn write_judged<S: Sink>(
    alloc: Global,
    judged: &Result<Evidence, MakeError>,
    sink: &mut S,
) -> Result<bool, WriteFault>
    ensures found { (native : TheArch) (bundle filter : List ℕ) → IsJudgement native bundle filter judged.now
        → Certifies S.held S.failures sink.old sink.new native bundle filter result }
    ensures own { (native : TheArch) (bundle filter : List ℕ) → IsJudgement native bundle filter judged.now → IsOwnJudgement judged.now
        → CertifiesOwn S.held S.failures sink.old sink.new native bundle filter result }
    // The record that is told is the one that was found.
    ensures told { (found : TheCounterexample) → judged.now ≡ Ok (Refuting found)
        → Tells S.held S.failures sink.old sink.new (words found.call) found.given found.said result }
{
    match judged {
        Ok(evidence) => write_evidence(alloc, evidence, sink),
        Err(make_error) => refuse(alloc, make_error, sink),
    }
}

/// Writes what is judged of a bundle and a filter: a certificate to which the checker says yes. If there is none, the function returns
/// false. It writes the line of a call record on which the filter gives another verdict than the bundle says. If none is found, it
/// writes the line that says why there is neither. For a filter that compares steadily this is only that the format has no room.
pub fn certify_bundle<S: Sink>(
    alloc: Global,
    document: &Document,
    filter: &[u8],
    sink: &mut S,
) -> Result<bool, WriteFault>
    ensures found { Certifies S.held S.failures sink.old sink.new document.now.native document.now.bytes filter.now result }
    // Take a bundle that means a plain profile, and a filter as the compiler makes it of such. A certificate is written, unless
    // memory is refused or the sink fails.
    ensures own { (policy : Policy) → IsOwnFilter document.now.native document.now.bytes filter.now policy
        → CertifiesOwn S.held S.failures sink.old sink.new document.now.native document.now.bytes filter.now result }
{
    let judged = judge_bundle(alloc, document, filter);
    write_judged(alloc, &judged, sink)
}
