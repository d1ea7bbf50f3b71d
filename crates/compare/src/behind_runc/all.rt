//! All records that are found to refute a filter behind a stub, without those that the stub answers.
ghost use Rattle.std.specs.Prelude.{◌≡◌, [], IfOk, ℕ, List, Ok};
ghost use Rattle.std.specs.List.{All};
ghost use Rattle.machines.specs.declared.arch.Arch.{Arch as TheArch};
ghost use Rattle.maker.specs.declared.evidence.evidence.Counterexample.{Counterexample as TheCounterexample};
ghost use Rattle.maker.specs.declared.evidence.evidence.Evidence.TheVariants.{Refuting};
ghost use Rattle.compare.specs.Behind.{AreFoundBehind, IsJudgedBehind, IsNoCounterexample, IsNotAnswered};
ghost use Rattle.compare.specs.Counterexamples.{AllRefute, Refutes};

use crate::behind_runc::behind::Behind;
use crate::behind_runc::judged::Judged;
use crate::behind_runc::stub::{Calls, is_answered};
use crate::counterexamples::{counterexamples_of, put_first};
use call_record::Record;
use maker::{Counterexample, Evidence};
use profile_json::Document;
use std::alloc::{AllocError, Global};

// Adds a record, unless the stub answers it, or it is this one.
fn add(
    answered: &[Calls],
    told: &Record,
    found: &Counterexample,
    left: &mut Vec<Counterexample>,
) -> Result<(), AllocError>
    ensures left { All (IsNotAnswered answered.now) left.old.items → IfOk result (λ _. All (IsNotAnswered answered.now) left.new.items) }
    ensures refute { (native : TheArch) (bundle filter : List ℕ) → Refutes native bundle filter found.now
        → AllRefute native bundle filter left.old.items → IfOk result (λ _. AllRefute native bundle filter left.new.items) }
{
    if is_answered(answered, &found.call) {
        return Ok(());
    }
    if found.call == *told {
        return Ok(());
    }
    left.push(*found)?;
    Ok(())
}

// Those of all that the stub does not answer, but for this one.
fn not_answered(
    alloc: Global,
    answered: &[Calls],
    told: &Record,
    all: &[Counterexample],
) -> Result<Vec<Counterexample>, AllocError>
    ensures left { IfOk result (λ left. All (IsNotAnswered answered.now) left.items) }
    ensures refute { (native : TheArch) (bundle filter : List ℕ) → AllRefute native bundle filter all.now
        → IfOk result (λ left. AllRefute native bundle filter left.items) }
{
    let mut left = Vec::new(alloc);
    for found in all {
        add(answered, told, found, &mut left)?;
    }
    Ok(left)
}

// The record that was found, and further ones of the same filter.
fn of_found(
    alloc: Global,
    document: &Document,
    filter: &[u8],
    behind: &Behind<'_>,
    whole: bool,
    found: &Counterexample,
) -> Result<Vec<Counterexample>, AllocError>
    requires { Refutes document.now.native document.now.bytes filter.now found.now }
    ensures { IfOk result (λ all. AreFoundBehind document.now.native document.now.bytes filter.now behind.now.answered.items whole found.now all.items) }
{
    let all = counterexamples_of(alloc, document, filter, found)?;
    if whole {
        return Ok(all);
    }
    let mut left = not_answered(alloc, &behind.answered, &found.call, &all)?;
    put_first(found, &mut left)?;
    Ok(left)
}

/// If a record was judged to refute a filter behind a stub: this one. Then one of each further call on which filter and bundle are found
/// to differ. If the rest was asked about, the stub answers none of the further ones. Else there is
/// none.
pub fn counterexamples_behind(
    alloc: Global,
    document: &Document,
    filter: &[u8],
    behind: &Behind<'_>,
    judged: &Judged,
) -> Result<Vec<Counterexample>, AllocError>
    requires { IsJudgedBehind document.now.native document.now.bytes filter.now behind.now.rest.now behind.now.answered.items judged.now.whole judged.now.evidence }
    ensures none { IsNoCounterexample judged.now.evidence → IfOk result (λ all. all.items ≡ []) }
    ensures found { (found : TheCounterexample) → judged.now.evidence ≡ Ok (Refuting found)
        → IfOk result (λ all. AreFoundBehind document.now.native document.now.bytes filter.now behind.now.answered.items judged.now.whole found all.items) }
{
    match &judged.evidence {
        Ok(Evidence::Refuting(found)) => {
            of_found(alloc, document, filter, behind, judged.whole, found)
        }
        _ => Ok(Vec::new(alloc)),
    }
}
