//! All records that are found to refute a filter, without those of calls that are left aside.
ghost use Rattle.std.specs.Prelude.{◌≡◌, ◌⊎◌, ◌++◌, [], IfOk, Ok, false};
ghost use Rattle.maker.specs.declared.evidence.evidence.Counterexample.{Counterexample as TheCounterexample};
ghost use Rattle.maker.specs.declared.evidence.evidence.Evidence.TheVariants.{Refuting};
ghost use Rattle.compare.specs.Behind.{AreFoundBehind};
ghost use Rattle.compare.specs.Counterexamples.{Refutes};
ghost use Rattle.aside.specs.declared.leave.Leave.{Leave as TheLeave};
ghost use Rattle.aside.specs.Judged.{IsJudged, stub_calls};
ghost use Rattle.aside.specs.Told.{AreFoundBut};

use crate::judged::{JudgedAside, joined};
use compare::{Behind, Calls, Judged, counterexamples_behind};
use maker::{Counterexample, Evidence};
use profile_json::Document;
use std::alloc::{AllocError, Global};

// The calls that are not asked about: those that are left aside, and those of the stub, unless the whole filter is asked about.
fn passed_of(
    alloc: Global,
    behind: &Behind<'_>,
    but: &JudgedAside,
) -> Result<Vec<Calls>, AllocError>
    ensures { IfOk result (λ all. all.items ≡ stub_calls but.now.judged.whole behind.now.answered.items ++ but.now.aside.items) }
{
    if but.judged.whole {
        return joined(alloc, &[], &but.aside);
    }
    joined(alloc, &behind.answered, &but.aside)
}

// A record that refutes a filter, and further ones that are of none of these calls.
fn of_found(
    alloc: Global,
    document: &Document,
    filter: &[u8],
    passed: Vec<Calls>,
    found: &Counterexample,
) -> Result<Vec<Counterexample>, AllocError>
    requires { Refutes document.now.native document.now.bytes filter.now found.now }
    ensures { IfOk result (λ all. AreFoundBehind document.now.native document.now.bytes filter.now passed.items false found.now all.items) }
{
    let behind = Behind {
        answered: passed,
        rest: filter,
    };
    let judged = Judged {
        whole: false,
        evidence: Ok(Evidence::Refuting(*found)),
    };
    counterexamples_behind(alloc, document, filter, &behind, &judged)
}

// The record that refutes a filter, if the evidence is one, and further ones that are of none of these calls.
fn counterexamples_in(
    alloc: Global,
    document: &Document,
    filter: &[u8],
    behind: &Behind<'_>,
    but: &JudgedAside,
    evidence: &Evidence,
) -> Result<Vec<Counterexample>, AllocError>
    requires { (found : TheCounterexample) → evidence.now ≡ Refuting found → Refutes document.now.native document.now.bytes filter.now found }
    ensures { IfOk result (λ all. (all.items ≡ []) ⊎ ((found : TheCounterexample) × (evidence.now ≡ Refuting found)
        × AreFoundBut document.now.native document.now.bytes filter.now (stub_calls but.now.judged.whole behind.now.answered.items) but.now.aside.items found
        all.items)) }
{
    match evidence {
        Evidence::Refuting(found) => {
            let passed = passed_of(alloc, behind, but)?;
            of_found(alloc, document, filter, passed, found)
        }
        Evidence::Certificate(_) => Ok(Vec::new(alloc)),
    }
}

/// The record that was found to refute a filter, if one was. Then one of each further call on which filter and bundle are found to differ.
/// None of the further ones is of a call that is left aside.
pub fn counterexamples_but(
    alloc: Global,
    document: &Document,
    filter: &[u8],
    behind: &Behind<'_>,
    but: &JudgedAside,
) -> Result<Vec<Counterexample>, AllocError>
    requires { (leave : TheLeave) × IsJudged document.now.native document.now.bytes filter.now behind.now.rest.now behind.now.answered.items leave
        but.now.aside.items but.now.judged.whole but.now.judged.evidence }
    ensures { IfOk result (λ all. (all.items ≡ []) ⊎ ((found : TheCounterexample) × (but.now.judged.evidence ≡ Ok (Refuting found))
        × AreFoundBut document.now.native document.now.bytes filter.now (stub_calls but.now.judged.whole behind.now.answered.items) but.now.aside.items found
        all.items)) }
{
    match &but.judged.evidence {
        Ok(evidence) => counterexamples_in(alloc, document, filter, behind, but, evidence),
        Err(_) => Ok(Vec::new(alloc)),
    }
}
