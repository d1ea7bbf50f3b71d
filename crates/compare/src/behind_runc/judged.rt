//! What is judged of a filter behind a stub.
ghost use Rattle.std.specs.Prelude.{◌≡◌, IfSome, ℕ, List, Ok};
ghost use Rattle.call_record.specs.Record.{words};
ghost use Rattle.machines.specs.declared.arch.Arch.{Arch as TheArch};
ghost use Rattle.maker.specs.declared.evidence.evidence.Counterexample.{Counterexample as TheCounterexample};
ghost use Rattle.maker.specs.declared.evidence.evidence.Evidence.TheVariants.{Refuting};
ghost use Rattle.maker.specs.Certified.{IsJudgement};
ghost use Rattle.maker.specs.Finding.{IsBundle};
ghost use Rattle.maker.specs.Told.{Tells};
ghost use Rattle.compare.specs.declared.behind_runc.stub.calls.Calls.{Calls as TheCalls};
ghost use Rattle.compare.specs.Behind.{IsBehind, IsJudgedBehind, WritesBehind};
ghost use Rattle.compare.specs.Spared.{Spares};

use crate::behind_runc::behind::Behind;
use crate::behind_runc::spared::spares;
use crate::behind_runc::stub::is_answered;
use call_record::{Word, words_are_a_record};
use maker::{Counterexample, Evidence, MakeError, judge_filter, refuse, write_judged};
use profile::Profile;
use profile_json::Document;
use std::alloc::Global;
use texts::{Sink, WriteFault};

// The verdict ERRNO with ENOSYS, by which a stub answers.
const ENOSYS: Word = Word(0x0005_0026);

/// What is judged, and whether it was asked of the whole filter.
#[derive(Drop)]
pub struct Judged {
    pub whole: bool,
    pub evidence: Result<Evidence, MakeError>,
}

// The counterexample to the whole filter, of a record that is one to the rest. It is the same if the stub does not answer the record. Else
// it is that the stub answers the record, if the bundle says another verdict.
fn of_whole(behind: &Behind<'_>, found: &Counterexample) -> Option<Counterexample>
    ensures { (native : TheArch) (bundle filter : List ℕ) → IsBehind filter behind.now.rest.now behind.now.answered.items
        → IsJudgement native bundle behind.now.rest.now (Ok (Refuting found.now))
        → IfSome result (λ whole. IsJudgement native bundle filter (Ok (Refuting whole))) }
{
    words_are_a_record(&found.call);
    if !is_answered(&behind.answered, &found.call) {
        return Some(*found);
    }
    if found.said == ENOSYS {
        return None;
    }
    Some(Counterexample {
        call: found.call,
        given: ENOSYS,
        said: found.said,
    })
}

// What is judged of the whole filter.
fn judge_whole(alloc: Global, profile: &Profile, filter: &[u8]) -> Judged
    ensures { (native : TheArch) (bundle rest : List ℕ) (answered : List TheCalls) → IsBundle native bundle profile.now
        → IsJudgedBehind native bundle filter.now rest answered result.whole result.evidence }
{
    Judged {
        whole: true,
        evidence: judge_filter(alloc, profile, filter),
    }
}

// What is judged where a record was found that refutes the rest.
fn judge_found(
    alloc: Global,
    profile: &Profile,
    filter: &[u8],
    behind: &Behind<'_>,
    found: &Counterexample,
) -> Judged
    requires behind { IsBehind filter.now behind.now.rest.now behind.now.answered.items }
    requires found { (native : TheArch) (bundle : List ℕ) → IsBundle native bundle profile.now
        → IsJudgement native bundle behind.now.rest.now (Ok (Refuting found.now)) }
    ensures { (native : TheArch) (bundle : List ℕ) → IsBundle native bundle profile.now
        → IsJudgedBehind native bundle filter.now behind.now.rest.now behind.now.answered.items result.whole result.evidence }
{
    match of_whole(behind, found) {
        Some(whole) => Judged {
            whole: false,
            evidence: Ok(Evidence::Refuting(whole)),
        },
        None => judge_whole(alloc, profile, filter),
    }
}

// What is judged where the profile spares the calls that the stub answers.
fn judge_rest(alloc: Global, profile: &Profile, filter: &[u8], behind: &Behind<'_>) -> Judged
    requires behind { IsBehind filter.now behind.now.rest.now behind.now.answered.items }
    requires spared { Spares profile.now behind.now.answered.items }
    ensures { (native : TheArch) (bundle : List ℕ) → IsBundle native bundle profile.now
        → IsJudgedBehind native bundle filter.now behind.now.rest.now behind.now.answered.items result.whole result.evidence }
{
    match judge_filter(alloc, profile, behind.rest) {
        Ok(Evidence::Refuting(found)) => judge_found(alloc, profile, filter, behind, &found),
        Ok(Evidence::Certificate(certificate)) => Judged {
            whole: false,
            evidence: Ok(Evidence::Certificate(certificate)),
        },
        Err(make_error) => Judged {
            whole: false,
            evidence: Err(make_error),
        },
    }
}

// What is judged beside the profile that a bundle means.
fn judge_beside(alloc: Global, profile: &Profile, filter: &[u8], behind: &Behind<'_>) -> Judged
    requires { IsBehind filter.now behind.now.rest.now behind.now.answered.items }
    ensures { (native : TheArch) (bundle : List ℕ) → IsBundle native bundle profile.now
        → IsJudgedBehind native bundle filter.now behind.now.rest.now behind.now.answered.items result.whole result.evidence }
{
    if spares(profile, &behind.answered) {
        return judge_rest(alloc, profile, filter, behind);
    }
    judge_whole(alloc, profile, filter)
}

/// What is judged of a filter behind a stub, beside a bundle. The rest is asked about where the bundle
/// spares the calls that the stub answers, and else the whole filter. A record that is told is one on which the whole filter gives
/// another verdict than the bundle says.
pub fn judge_behind(
    alloc: Global,
    document: &Document,
    filter: &[u8],
    behind: &Behind<'_>,
) -> Judged
    requires { IsBehind filter.now behind.now.rest.now behind.now.answered.items }
    ensures { IsJudgedBehind document.now.native document.now.bytes filter.now behind.now.rest.now behind.now.answered.items result.whole result.evidence }
{
    match document.bundle() {
        Ok(bundle) => judge_beside(alloc, &bundle.profile, filter, behind),
        Err(error) => Judged {
            whole: true,
            evidence: Err(MakeError::from(error)),
        },
    }
}

/// Writes what is judged of a filter behind a stub.
pub fn write_behind<S: Sink>(
    alloc: Global,
    judged: &Judged,
    sink: &mut S,
) -> Result<bool, WriteFault>
    ensures found { (native : TheArch) (bundle filter rest : List ℕ) (answered : List TheCalls) → IsBehind filter rest answered
        → IsJudgedBehind native bundle filter rest answered judged.now.whole judged.now.evidence
        → WritesBehind S.held S.failures sink.old sink.new native bundle filter rest answered judged.now.whole result }
    // The record that is told is the one that was found.
    ensures told { (found : TheCounterexample) → judged.now.evidence ≡ Ok (Refuting found)
        → Tells S.held S.failures sink.old sink.new (words found.call) found.given found.said result }
{
    match &judged.evidence {
        Err(make_error) => refuse(alloc, make_error, sink),
        Ok(_) => write_judged(alloc, &judged.evidence, sink),
    }
}
