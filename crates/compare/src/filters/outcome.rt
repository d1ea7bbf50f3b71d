//! What is found of two filters.
ghost use Rattle.std.specs.Prelude.{◌≡◌, ◌≢◌, [], false, ℕ, List, IfOk, IfSome, MatchResult};
ghost use Rattle.std.specs.List.{All};
ghost use Rattle.bpf_insn.specs.Bytes.{insns_of, view_fault};
ghost use Rattle.kernel_check.specs.Accepted.{IsRefusal};
ghost use Rattle.kernel_check.specs.Lent.{accepted_insns};
ghost use Rattle.machines.specs.declared.arch.Family.{Family as TheFamily};
ghost use Rattle.bpf_insn.specs.declared.instruction.Insn.{Insn as TheInsn};
ghost use Rattle.compare.specs.Behind.{AreAccepted};
ghost use Rattle.compare.specs.Differ.{AnswerUnlike};
ghost use Rattle.compare.specs.FiltersTold.{AreUnlikeFilters, IsOutcome, IsUnlike, IsWrong};

use crate::change::Change;
use crate::difference::Difference;
use crate::filters::search::find_differences;
use bpf_insn::{Program, ViewError};
use kernel_check::{Accepted, Refused, accept};
use machines::Family;
use std::alloc::{AllocError, Global};

/// What is found of two filters.
#[derive(Drop)]
pub enum Outcome {
    /// They are the same filter.
    Same,
    /// They answer unlike verdicts to calls.
    Differ(Vec<Change>),
    /// No such call was found.
    NoneFound,
    /// The bytes of the first or the second one are no program.
    NoProgram(ViewError, u32),
    /// The kernel refuses the first or the second one.
    Refusal(Refused, u32),
}

// Differences, each for itself.
fn changes_of(alloc: Global, all: &[Difference]) -> Result<Vec<Change>, AllocError>
    ensures { (f : TheFamily) (old new : List TheInsn) → All (AnswerUnlike f old new) all.now
        → IfOk result (λ changes. All (IsUnlike f old new) changes.items) }
{
    let mut changes = Vec::new(alloc);
    for found in all {
        changes.push(Change {
            first: *found,
            others: Vec::new(alloc),
        })?;
    }
    Ok(changes)
}

// Whether there is no change.
fn are_none(changes: &[Change]) -> bool
    ensures { result ≡ false → changes.now ≢ [] }
{
    changes.is_empty()
}

// What is found of two filters that the kernel accepts.
fn of_accepted(
    alloc: Global,
    family: Family,
    old: &Accepted<'_>,
    new: &Accepted<'_>,
) -> Result<Outcome, AllocError>
    ensures { (one other : List ℕ) → accepted_insns old.now ≡ insns_of one → accepted_insns new.now ≡ insns_of other
        → AreUnlikeFilters one other → IfOk result (IsOutcome family one other) }
{
    let all = find_differences(alloc, family, old, new)?;
    let changes = changes_of(alloc, &all)?;
    if are_none(changes.as_slice()) {
        return Ok(Outcome::NoneFound);
    }
    Ok(Outcome::Differ(changes))
}

// A filter that the kernel accepts, or else what is wrong with it.
fn read(filter: &[u8], place: u32) -> Result<Accepted<'_>, Outcome>
    ensures { MatchResult result
        (λ accepted. (accepted_insns accepted ≡ insns_of filter.entry.now) × AreAccepted filter.entry.now)
        (λ outcome. IsWrong filter.entry.now place outcome) }
{
    let program = match Program::view(filter) {
        Ok(program) => program,
        Err(fault) => return Err(Outcome::NoProgram(fault, place)),
    };
    match accept(&program) {
        Ok(accepted) => Ok(accepted),
        Err(refused) => Err(Outcome::Refusal(refused, place)),
    }
}

/// What is found of the bytes of two filters. Calls are those of the machines of a family.
pub fn outcome_of(
    alloc: Global,
    family: Family,
    old: &[u8],
    new: &[u8],
) -> Result<Outcome, AllocError>
    ensures { IfOk result (IsOutcome family old.now new.now) }
{
    let first = match read(old, 1) {
        Ok(first) => first,
        Err(outcome) => return Ok(outcome),
    };
    let second = match read(new, 2) {
        Ok(second) => second,
        Err(outcome) => return Ok(outcome),
    };
    if old == new {
        return Ok(Outcome::Same);
    }
    of_accepted(alloc, family, &first, &second)
}
