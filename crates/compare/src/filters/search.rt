//! The search for calls of which two filters answer unlike verdicts.
ghost use Rattle.std.specs.Prelude.{IfOk, IfSome, List};
ghost use Rattle.std.specs.List.{All};
ghost use Rattle.bpf_insn.specs.declared.instruction.Insn.{Insn as TheInsn};
ghost use Rattle.machines.specs.declared.arch.Family.{Family as TheFamily};
ghost use Rattle.kernel_check.specs.Lent.{accepted_insns};
ghost use Rattle.compare.specs.Differ.{AnswerUnlike};

use crate::difference::Difference;
use crate::filters::candidates::add_candidates;
use crate::filters::numbers::numbers_of;
use crate::filters::unlike::unlike;
use call_record::Record;
use kernel_check::Accepted;
use machines::Family;
use std::alloc::{AllocError, Global};

// The most records of one call that are tried.
const MOST_RECORDS: usize = 96;

// So many records are tried as have so many instructions to run in both filters together, but one of each call at least.
const MOST_STEPS: usize = 0x400_0000;

// How many records may be tried yet, and how many calls are still to come.
#[derive(Clone, Copy)]
struct Left {
    records: usize,
    calls: usize,
}

impl Left {
    // What may be tried of so many calls.
    fn of(old: &Accepted<'_>, new: &Accepted<'_>, calls: usize) -> Left {
        let steps = old.program().len().saturating_add(new.program().len());
        Left {
            records: MOST_STEPS.checked_div(steps).unwrap_or(MOST_STEPS),
            calls,
        }
    }

    // The most records of the next call: each call behind it keeps one.
    fn most(self) -> usize {
        let records = self.records.saturating_sub(self.calls);
        records.max(1).min(MOST_RECORDS)
    }

    // What is left after so many records of a call.
    fn after(self, tried: usize) -> Left {
        Left {
            records: self.records.saturating_sub(tried),
            calls: self.calls.saturating_sub(1),
        }
    }
}

// What is found of a call, and how many records were tried.
#[derive(Clone, Copy)]
struct Searched {
    found: Option<Difference>,
    tried: usize,
}

// The record of a call whose arguments are 0.
fn plain_call(token: u32, number: u32) -> Record {
    Record {
        nr: number,
        arch: token,
        ip: 0,
        args: [0; 6],
    }
}

// The first record on which two filters answer unlike verdicts, of those of one call that they tell apart, up to so many.
fn search_call(
    alloc: Global,
    family: Family,
    old: &Accepted<'_>,
    new: &Accepted<'_>,
    call: Record,
    most: usize,
) -> Result<Searched, AllocError>
    ensures { IfOk result (λ searched. IfSome searched.found (AnswerUnlike family (accepted_insns old.now) (accepted_insns new.now))) }
{
    let mut todo = Vec::new(alloc);
    todo.push(call)?;
    for tried in 0..most {
        let Some(call) = todo.get(tried).copied() else {
            return Ok(Searched { found: None, tried });
        };
        let found = unlike(family, old, new, &call);
        if found.is_some() {
            return Ok(Searched { found, tried });
        }
        if todo.len() < most {
            add_candidates(alloc, old, &call, most, &mut todo)?;
            add_candidates(alloc, new, &call, most, &mut todo)?;
        }
    }
    Ok(Searched {
        found: None,
        tried: most,
    })
}

// Adds a difference, if there is one.
fn add(found: Option<Difference>, all: &mut Vec<Difference>) -> Result<(), AllocError>
    ensures { (f : TheFamily) (old new : List TheInsn) → IfSome found (AnswerUnlike f old new) → All (AnswerUnlike f old new) all.old.items
        → IfOk result (λ _. All (AnswerUnlike f old new) all.new.items) }
{
    let Some(found) = found else {
        return Ok(());
    };
    all.push(found)?;
    Ok(())
}

// Adds the differences of the calls with these numbers, of the machines with a token.
fn add_differences(
    alloc: Global,
    family: Family,
    old: &Accepted<'_>,
    new: &Accepted<'_>,
    token: u32,
    numbers: &[u32],
    left: &mut Left,
    all: &mut Vec<Difference>,
) -> Result<(), AllocError>
    requires { All (AnswerUnlike family (accepted_insns old.now) (accepted_insns new.now)) all.old.items }
    ensures { IfOk result (λ _. All (AnswerUnlike family (accepted_insns old.now) (accepted_insns new.now)) all.new.items) }
{
    for number in numbers {
        let call = plain_call(token, *number);
        let searched = search_call(alloc, family, old, new, call, left.most())?;
        *left = left.after(searched.tried);
        add(searched.found, all)?;
    }
    Ok(())
}

/// Calls of the machines of a family of which two filters answer unlike verdicts: one record for each number of a call that is tried. A
/// record that is told was tried with both filters.
pub fn find_differences(
    alloc: Global,
    family: Family,
    old: &Accepted<'_>,
    new: &Accepted<'_>,
) -> Result<Vec<Difference>, AllocError>
    ensures { IfOk result (λ all. All (AnswerUnlike family (accepted_insns old.now) (accepted_insns new.now)) all.items) }
{
    let mut all = Vec::new(alloc);
    let numbers = numbers_of(alloc, family.machines(), old, new)?;
    let calls = numbers.len().saturating_mul(family.machines().len());
    let mut left = Left::of(old, new, calls);
    let mut before = 0;
    for machine in family.machines() {
        let token = machine.token();
        if token != before {
            add_differences(
                alloc, family, old, new, token, &numbers, &mut left, &mut all,
            )?;
        }
        before = token;
    }
    Ok(all)
}
