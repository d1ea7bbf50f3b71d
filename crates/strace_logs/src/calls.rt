//! The calls of logs, each once.
ghost use Rattle.std.specs.Prelude.{◌≡◌, IfOk, []};
ghost use Rattle.call_record.specs.Record.{words};
ghost use Rattle.strace_logs.specs.Line.{words_of_call};
ghost use Rattle.strace_logs.specs.Taken.{Grows, IsCovered};

use crate::covering::{fitting, is_noted, whole_of};
use crate::deeds::Deeds;
use crate::keeps::{Keep, bits_of, keep_of, values_of};
use crate::strace::{Call, record_of};
use call_record::{Record, words_are_a_record};
use machines::Arch;
use std::alloc::{AllocError, Global};

/// Calls that logs show: those of a number on a machine whose arguments are these values in so many of their lowest bits.
#[derive(Clone, Copy)]
pub(crate) struct Seen {
    pub(crate) arch: Arch,
    pub(crate) nr: u32,
    pub(crate) bits: [u32; 6],
    pub(crate) values: [u64; 6],
}

impl Seen {
    /// Whether they are allowed whatever their arguments.
    pub(crate) fn is_whole(&self) -> bool {
        for bits in &self.bits {
            if *bits != 0 {
                return false;
            }
        }
        true
    }

    /// One of them as a filter sees it, made at address 0.
    pub(crate) fn record(&self) -> Record
        ensures { words result ≡ words_of_call (self.now.arch, self.now.nr, self.now.values) }
    {
        record_of(self.arch, self.nr, self.values)
    }
}

/// Values of a call's arguments: which of those asked for it is, of how many of the lowest bits, and the values. A value is 0 if none is
/// kept.
#[derive(Clone, Copy, PartialEq, Eq)]
pub(crate) struct Kept {
    pub(crate) keep: usize,
    pub(crate) bits: [u32; 6],
    pub(crate) values: [u64; 6],
}

/// How many values of arguments are kept at most: more entries than a bundle may have.
pub(crate) const MOST_KEPT: usize = 1024;

/// The calls of logs, the values that are kept of their arguments, how many records there are, and what they do.
#[derive(Drop)]
pub(crate) struct Calls {
    pub(crate) seen: Vec<Seen>,
    pub(crate) kept: Vec<Kept>,
    pub(crate) records: u64,
    pub(crate) deeds: Deeds,
}

// Adds values, unless they are there, and tells whether there are not too many.
fn note_values(kept: &mut Vec<Kept>, values: Kept) -> Result<bool, AllocError> {
    if kept.contains(&values) {
        return Ok(true);
    }
    if kept.len() >= MOST_KEPT {
        return Ok(false);
    }
    kept.push(values)?;
    Ok(true)
}

// The values of a call that are to be kept, if the call has all of them.
fn kept_of(keeps: &[Keep<'_>], call: &Call<'_>) -> Option<Kept> {
    let at = keep_of(keeps, call)?;
    let bits = bits_of(keeps.get(at)?, call.arch, call.nr);
    let values = values_of(&bits, call)?;
    Some(Kept {
        keep: at,
        bits,
        values,
    })
}

// What is to be gathered of a call, and its values where they are kept.
fn seen_of(keeps: &[Keep<'_>], call: &Call<'_>, kept: &mut Vec<Kept>) -> Result<Seen, AllocError> {
    let Some(new) = kept_of(keeps, call) else {
        return Ok(whole_of(call));
    };
    if !note_values(kept, new)? {
        return Ok(whole_of(call));
    }
    Ok(Seen {
        arch: call.arch,
        nr: call.nr,
        bits: new.bits,
        values: new.values,
    })
}

// Adds a call as it is to be gathered, unless it is there.
fn note(seen: &mut Vec<Seen>, call: &Call<'_>, new: Seen) -> Result<(), AllocError>
    ensures grown { IfOk result (λ _. Grows seen.old.items seen.new.items call.now.arch call.now.nr) }
    ensures covered { IfOk result (λ _. IsCovered seen.new.items (call.now.arch, call.now.nr, call.now.args)) }
{
    let record = call.record();
    words_are_a_record(&record);
    if is_noted(seen, &new.bits, call) {
        return Ok(());
    }
    let fits = fitting(new, call);
    seen.push(fits)?;
    Ok(())
}

impl Calls {
    /// No calls.
    pub(crate) fn new(alloc: Global) -> Calls
        ensures { result.seen.items ≡ [] }
    {
        Calls {
            seen: Vec::new(alloc),
            kept: Vec::new(alloc),
            records: 0,
            deeds: Deeds::none(),
        }
    }
}

/// Adds a call, and its values where they are kept.
pub(crate) fn see(keeps: &[Keep<'_>], call: &Call<'_>, calls: &mut Calls) -> Result<(), AllocError>
    ensures grown { IfOk result (λ _. Grows calls.old.seen.items calls.new.seen.items call.now.arch call.now.nr) }
    ensures covered { IfOk result (λ _. IsCovered calls.new.seen.items (call.now.arch, call.now.nr, call.now.args)) }
{
    calls.records = calls.records.saturating_add(1);
    calls.deeds = calls.deeds.with(call);
    let new = seen_of(keeps, call, &mut calls.kept)?;
    note(&mut calls.seen, call, new)
}
