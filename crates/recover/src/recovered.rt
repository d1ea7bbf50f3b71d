//! From a filter to the bundle whose meaning is the filter's.
ghost use Rattle.std.specs.Prelude.{◌≡◌, ℕ, List, IfOk, IfErr, None, string_bytes};
ghost use Rattle.std.specs.Option.{option_map};
ghost use Rattle.bpf_insn.specs.Bytes.{insns_of, view_fault};
ghost use Rattle.machines.specs.declared.arch.Arch.{Arch as TheArch};
ghost use Rattle.kernel_check.specs.Accepted.{IsAccepted};
ghost use Rattle.maker.specs.Certified.{IsEvidenceFor, IsJudgement};
ghost use Rattle.recover.specs.Recovered.{IsRecovered};
ghost use Rattle.recover.specs.Unsaid.{IsUndrafted, IsUnrecovered, IsUnsaid};

use crate::covering::Taste;
use crate::draft::drafted;
use crate::passed::Passed;
use crate::seen::seen;
use crate::unrecovered::Unrecovered;
use crate::unsaid::Unsaid;
use bpf_insn::Program;
use kernel_check::accept;
use machines::Arch;
use maker::{Evidence, MakeError, judge_bundle};
use profile_json::Document;
use std::alloc::Global;

// The bundle that seems to say what the filter of these bytes answers, but of calls that are passed over, with masks of one kind.
fn draft_by(
    alloc: Global,
    native: Arch,
    filter: &[u8],
    passed: Passed,
    taste: Taste,
) -> Result<String, Unsaid>
    ensures program { IfOk result (λ _. view_fault filter.now ≡ None) }
    ensures accepted { IfOk result (λ _. IsAccepted (insns_of filter.now)) }
    ensures undrafted { IfErr result (IsUndrafted native filter.now) }
    ensures reason { IfErr result (IsUnsaid native filter.now) }
{
    let program = match Program::view(filter) {
        Ok(program) => program,
        Err(fault) => return Err(Unsaid::View(fault)),
    };
    match accept(&program) {
        Ok(accepted) => match drafted(alloc, native, &accepted, passed, taste) {
            Ok(bundle) => Ok(bundle),
            Err(found) => Err(seen(&accepted, native.family(), found)),
        },
        Err(refused) => Err(Unsaid::Kernel(refused)),
    }
}

/// The bundle that seems to say what the filter of these bytes answers, but of calls that are passed over. It is not judged here.
pub fn draft_of(
    alloc: Global,
    native: Arch,
    filter: &[u8],
    passed: Passed,
) -> Result<String, Unsaid>
    ensures program { IfOk result (λ _. view_fault filter.now ≡ None) }
    ensures accepted { IfOk result (λ _. IsAccepted (insns_of filter.now)) }
    ensures reason { IfErr result (IsUnsaid native filter.now) }
{
    draft_by(alloc, native, filter, passed, Taste::First)
}

// The bundle, if the evidence on it and the filter is a certificate, or what refutes the filter.
fn handed_out(evidence: Evidence, bundle: String) -> Result<String, Unrecovered>
    ensures recovered { (native : TheArch) (filter : List ℕ) → IsEvidenceFor native (string_bytes bundle) filter evidence
        → IfOk result (λ text. IsRecovered native (string_bytes text) filter) }
    ensures reason { (native : TheArch) (filter : List ℕ) → IsEvidenceFor native (string_bytes bundle) filter evidence
        → IfErr result (λ e. IsUnsaid native filter e.unsaid) }
    ensures draft { (native : TheArch) (filter : List ℕ) → IsEvidenceFor native (string_bytes bundle) filter evidence
        → IfErr result (λ e. IsUnrecovered native filter e.unsaid (option_map string_bytes e.draft)) }
{
    match evidence {
        Evidence::Certificate(_certificate) => Ok(bundle),
        Evidence::Refuting(found) => Err(Unrecovered {
            unsaid: Unsaid::Unlike(found),
            draft: Some(bundle),
        }),
    }
}

// The bundle, if it was judged that the filter has a certificate, or why it is not handed out.
fn handed_out_if_judged(
    judged: Result<Evidence, MakeError>,
    bundle: String,
) -> Result<String, Unrecovered>
    ensures recovered { (native : TheArch) (filter : List ℕ) → IsJudgement native (string_bytes bundle) filter judged
        → IfOk result (λ text. IsRecovered native (string_bytes text) filter) }
    ensures reason { (native : TheArch) (filter : List ℕ) → IsJudgement native (string_bytes bundle) filter judged
        → IfErr result (λ e. IsUnsaid native filter e.unsaid) }
    ensures draft { (native : TheArch) (filter : List ℕ) → IsJudgement native (string_bytes bundle) filter judged
        → IfErr result (λ e. IsUnrecovered native filter e.unsaid (option_map string_bytes e.draft)) }
{
    match judged {
        Ok(evidence) => handed_out(evidence, bundle),
        Err(MakeError::OutOfMemory) => Err(Unrecovered {
            unsaid: Unsaid::OutOfMemory,
            draft: None,
        }),
        Err(make_error) => Err(Unrecovered {
            unsaid: Unsaid::Undecided(make_error),
            draft: Some(bundle),
        }),
    }
}

// The bundle whose meaning is the filter's, with masks of one kind, or what no section says of it.
fn recover_by(
    alloc: Global,
    native: Arch,
    filter: &[u8],
    taste: Taste,
) -> Result<String, Unrecovered>
    ensures recovered { IfOk result (λ bundle. IsRecovered native (string_bytes bundle) filter.now) }
    ensures reason { IfErr result (λ e. IsUnsaid native filter.now e.unsaid) }
    ensures draft { IfErr result (λ e. IsUnrecovered native filter.now e.unsaid (option_map string_bytes e.draft)) }
{
    let bundle = match draft_by(alloc, native, filter, Passed::NONE, taste) {
        Ok(bundle) => bundle,
        Err(unsaid) => {
            return Err(Unrecovered {
                unsaid,
                draft: None,
            });
        }
    };
    let Ok(text) = Vec::from_slice(alloc, bundle.as_bytes()) else {
        return Err(Unrecovered {
            unsaid: Unsaid::OutOfMemory,
            draft: None,
        });
    };
    let document = Document::new(alloc, text, native);
    let judged = judge_bundle(alloc, &document, filter);
    handed_out_if_judged(judged, bundle)
}

/// The bundle whose meaning is the filter's, or what no section says of it. What is written is read again, and handed out as such only with
/// a certificate. If it is not decided, masks of another kind are tried. What was judged without a yes is handed out beside the reason.
pub fn recover(alloc: Global, native: Arch, filter: &[u8]) -> Result<String, Unrecovered>
    ensures recovered { IfOk result (λ bundle. IsRecovered native (string_bytes bundle) filter.now) }
    ensures reason { IfErr result (λ e. IsUnsaid native filter.now e.unsaid) }
    ensures draft { IfErr result (λ e. IsUnrecovered native filter.now e.unsaid (option_map string_bytes e.draft)) }
{
    let first = match recover_by(alloc, native, filter, Taste::First) {
        Ok(bundle) => return Ok(bundle),
        Err(first) => first,
    };
    if !first.is_undecided() {
        return Err(first);
    }
    match recover_by(alloc, native, filter, Taste::Second) {
        Ok(bundle) => Ok(bundle),
        Err(_) => Err(first),
    }
}
