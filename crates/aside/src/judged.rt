//! What is judged of a filter where calls may be left aside.
ghost use Rattle.std.specs.Prelude.{◌≡◌, ◌++◌, [], ℕ, List, IfOk, IfSome, Ok};
ghost use Rattle.bpf_insn.specs.Bytes.{insns_of};
ghost use Rattle.machines.specs.declared.arch.Arch.{Arch as TheArch};
ghost use Rattle.maker.specs.Certified.{IsJudgement};
ghost use Rattle.maker.specs.Finding.{IsBundle};
ghost use Rattle.compare.specs.Behind.{IsBehind};
ghost use Rattle.compare.specs.Counterexamples.{Refutes};
ghost use Rattle.aside.specs.declared.leave.Leave.{Leave as TheLeave};
ghost use Rattle.aside.specs.Judged.{AreLeftOut, IsJudged, IsJudgedBut, IsLeftOut, stub_calls};
ghost use Rattle.aside.specs.inner.Front.{IsSameBut};
ghost use Rattle.aside.specs.inner.Lead.{AreTaken, Leads};

use crate::front::giving;
use crate::leave::Leave;
use crate::named::aside_for;
use crate::undecided::{uncompiled, undecided};
use bpf_insn::MAX_INSNS;
use call_record::words_are_a_record;
use certify::CertifyError;
use compare::{Behind, Calls, Judged, is_answered, judge_behind, spares};
use machines::Family;
use maker::{Counterexample, Evidence, MakeError, judge_filter};
use profile::Profile;
use profile_json::Document;
use rule_compile::compile;
use std::alloc::{AllocError, Global};

// How many times calls are left aside at most.
const MOST: u32 = 65;

/// What is judged of a filter, and of which calls it is not.
#[derive(Drop)]
pub struct JudgedAside {
    pub aside: Vec<Calls>,
    pub judged: Judged,
}

// A filter is the same as another on all records but those of these calls. So a record that refutes it refutes the other, unless it is of
// one of them.
fn of_found(aside: &[Calls], found: &Counterexample) -> Result<Evidence, MakeError>
    ensures { (native : TheArch) (bundle same filter : List ℕ) → AreTaken native bundle filter
        → IsSameBut aside.now (insns_of same) (insns_of filter) → Refutes native bundle same found.now
        → IsJudgedBut native bundle filter [] aside.now result }
{
    words_are_a_record(&found.call);
    if is_answered(aside, &found.call) {
        return Err(MakeError::Certify(CertifyError::Undecided(0)));
    }
    Ok(Evidence::Refuting(*found))
}

// What is judged of a filter, by what is judged of another. That one is the same on all records but those of these calls, and has so many
// instructions more in front.
fn of_same(
    aside: &[Calls],
    front: u32,
    judged: Result<Evidence, MakeError>,
) -> Result<Evidence, MakeError>
    ensures { (native : TheArch) (bundle same filter : List ℕ) → AreTaken native bundle filter
        → IsSameBut aside.now (insns_of same) (insns_of filter) → IsJudgement native bundle same judged
        → IsJudgedBut native bundle filter [] aside.now result }
{
    match judged {
        Ok(Evidence::Certificate(bytes)) => Ok(Evidence::Certificate(bytes)),
        Ok(Evidence::Refuting(found)) => of_found(aside, &found),
        Err(make_error) => Err(undecided(&make_error, front)),
    }
}

// How many instructions more the one has than the other.
fn more_insns(same: &[u8], filter: &[u8]) -> u32 {
    let more = same.len().saturating_sub(filter.len()) / 8;
    more.min(MAX_INSNS) as u32
}

// What is judged of a filter but for these calls.
fn judge_aside(
    alloc: Global,
    profile: &Profile,
    filter: &[u8],
    aside: &[Calls],
) -> Result<Evidence, MakeError>
    ensures { (native : TheArch) (bundle : List ℕ) → IsBundle native bundle profile.now → AreTaken native bundle filter.now
        → IsJudgedBut native bundle filter.now [] aside.now result }
{
    let own = match compile(alloc, profile) {
        Ok(own) => own,
        Err(error) => return Err(uncompiled(&error)),
    };
    let same = match giving(alloc, aside, &own, filter) {
        Ok(same) => same,
        Err(_no_memory) => return Err(MakeError::OutOfMemory),
    };
    let judged = judge_filter(alloc, profile, &same);
    of_same(aside, more_insns(&same, filter), judged)
}

/// The calls that a stub answers, and those that are left aside.
pub(crate) fn joined(
    alloc: Global,
    answered: &[Calls],
    aside: &[Calls],
) -> Result<Vec<Calls>, AllocError>
    ensures { IfOk result (λ all. all.items ≡ answered.now ++ aside.now) }
{
    let mut all = Vec::new(alloc);
    all.extend_from_slice(answered)?;
    all.extend_from_slice(aside)?;
    Ok(all)
}

// What is judged but for these calls, beside the profile that a bundle means. Where it spares the calls that the stub answers, these are
// not asked about either.
fn judge_beside(
    alloc: Global,
    profile: &Profile,
    filter: &[u8],
    behind: &Behind<'_>,
    aside: &[Calls],
) -> Result<Judged, AllocError>
    requires { IsBehind filter.now behind.now.rest.now behind.now.answered.items }
    ensures { IfOk result (λ judged. (native : TheArch) (bundle : List ℕ) → IsBundle native bundle profile.now
        → AreTaken native bundle filter.now
        → IsJudgedBut native bundle filter.now (stub_calls judged.whole behind.now.answered.items) aside.now judged.evidence) }
{
    if !spares(profile, &behind.answered) {
        return Ok(Judged {
            whole: true,
            evidence: judge_aside(alloc, profile, filter, aside),
        });
    }
    let all = joined(alloc, &behind.answered, aside)?;
    Ok(Judged {
        whole: false,
        evidence: judge_aside(alloc, profile, filter, &all),
    })
}

// What is judged beside a bundle, apart from these calls. Where it spares the calls that the stub answers, they are not
// asked about either.
fn judge_left(
    alloc: Global,
    document: &Document,
    filter: &[u8],
    behind: &Behind<'_>,
    aside: &[Calls],
) -> Result<Judged, AllocError>
    requires behind { IsBehind filter.now behind.now.rest.now behind.now.answered.items }
    requires taken { AreTaken document.now.native document.now.bytes filter.now }
    ensures { IfOk result (λ judged.
        IsJudgedBut document.now.native document.now.bytes filter.now (stub_calls judged.whole behind.now.answered.items) aside.now judged.evidence) }
{
    match document.bundle() {
        Ok(read) => judge_beside(alloc, &read.profile, filter, behind, aside),
        Err(error) => Ok(Judged {
            whole: true,
            evidence: Err(undecided(&MakeError::from(error), 0)),
        }),
    }
}

// The calls that may be left aside for the sake of a record, if the evidence is one.
fn next_in(family: Family, leave: Leave, evidence: &Evidence) -> Option<Calls>
    ensures { IfSome result (Leads family leave (Ok evidence.now)) }
{
    match evidence {
        Evidence::Refuting(found) => aside_for(family, leave, &found.call),
        Evidence::Certificate(_) => None,
    }
}

// The calls that may be left aside for the sake of the record that was found, if one was.
fn next_of(family: Family, leave: Leave, judged: &Judged) -> Option<Calls>
    ensures { IfSome result (Leads family leave judged.now.evidence) }
{
    match &judged.evidence {
        Ok(evidence) => next_in(family, leave, evidence),
        Err(_) => None,
    }
}

// Leaves further calls aside.
fn leave_more(
    alloc: Global,
    document: &Document,
    filter: &[u8],
    behind: &Behind<'_>,
    aside: Vec<Calls>,
    calls: Calls,
) -> Result<JudgedAside, AllocError>
    requires behind { IsBehind filter.now behind.now.rest.now behind.now.answered.items }
    requires taken { AreTaken document.now.native document.now.bytes filter.now }
    ensures { (leave : TheLeave) → AreLeftOut document.now.native document.now.bytes filter.now leave aside.items
        → IsLeftOut document.now.native document.now.bytes filter.now leave calls
        → IfOk result (λ but. IsJudged document.now.native document.now.bytes filter.now behind.now.rest.now behind.now.answered.items leave
        but.aside.items but.judged.whole but.judged.evidence) }
{
    let mut aside = aside;
    aside.push(calls)?;
    let judged = judge_left(alloc, document, filter, behind, &aside)?;
    Ok(JudgedAside { aside, judged })
}

/// What is judged of a filter behind a stub, beside a bundle, where calls may be left aside. It is judged
/// for all calls first. While it is refuted by a record of calls that may be left aside, these are, and it is judged for the others.
pub fn judge_but(
    alloc: Global,
    document: &Document,
    filter: &[u8],
    behind: &Behind<'_>,
    leave: Leave,
) -> Result<JudgedAside, AllocError>
    requires { IsBehind filter.now behind.now.rest.now behind.now.answered.items }
    ensures { IfOk result (λ but. IsJudged document.now.native document.now.bytes filter.now behind.now.rest.now behind.now.answered.items leave
        but.aside.items but.judged.whole but.judged.evidence) }
{
    let mut but = JudgedAside {
        aside: Vec::new(alloc),
        judged: judge_behind(alloc, document, filter, behind),
    };
    for _ in 0..MOST {
        let calls = match next_of(document.native().family(), leave, &but.judged) {
            Some(calls) => calls,
            None => return Ok(but),
        };
        but = leave_more(alloc, document, filter, behind, but.aside, calls)?;
    }
    Ok(but)
}
