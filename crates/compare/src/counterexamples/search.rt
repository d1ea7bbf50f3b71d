//! The search for records that refute a filter.
ghost use Rattle.std.specs.Prelude.{◌≡◌, ℕ, List, IfOk, IfSome};
ghost use Rattle.bpf_insn.specs.Bytes.{insns_of};
ghost use Rattle.machines.specs.declared.arch.Arch.{Arch as TheArch};
ghost use Rattle.kernel_check.specs.Lent.{accepted_insns};
ghost use Rattle.maker.specs.evidence.Counterexample.{IsCounterexample};
ghost use Rattle.maker.specs.Certified.{AreJudged};
ghost use Rattle.compare.specs.Counterexamples.{AllRefute, Refutes};

use crate::difference::Difference;
use bpf_interp::verdict;
use call_record::Record;
use kernel_check::Accepted;
use maker::Counterexample;
use profile::Profile;
use std::alloc::AllocError;

// The record of a call.
fn record_with(nr: u32, arch: u32, ip: u64, args: [u64; 6]) -> Record {
    Record { nr, arch, ip, args }
}

// The record of a call of which two filters differ.
fn record_of(found: &Difference) -> Record {
    record_with(found.nr, found.token, found.ip, found.args)
}

// The verdicts on a record, where they are unlike.
fn unlike(profile: &Profile, filter: &Accepted<'_>, call: Record) -> Option<Counterexample>
    ensures { IfSome result (IsCounterexample profile.now (accepted_insns filter.now)) }
{
    let given = verdict(filter, &call);
    let said = profile.decide(&call);
    if given.0 == said.0 {
        return None;
    }
    Some(Counterexample { call, given, said })
}

// The verdicts on a record, where they are unlike and its call is not one that is told already.
fn another(
    profile: &Profile,
    filter: &Accepted<'_>,
    told: &Record,
    call: Record,
) -> Option<Counterexample>
    ensures { (native : TheArch) (bundle bytes : List ℕ) → AreJudged native bundle bytes profile.now
        → accepted_insns filter.now ≡ insns_of bytes → IfSome result (Refutes native bundle bytes) }
{
    if call.nr == told.nr {
        if call.arch == told.arch {
            return None;
        }
    }
    unlike(profile, filter, call)
}

// Adds what refutes, if it does.
fn add(found: Option<Counterexample>, all: &mut Vec<Counterexample>) -> Result<(), AllocError>
    ensures { (native : TheArch) (bundle bytes : List ℕ) → IfSome found (Refutes native bundle bytes)
        → AllRefute native bundle bytes all.old.items → IfOk result (λ _. AllRefute native bundle bytes all.new.items) }
{
    let Some(found) = found else {
        return Ok(());
    };
    all.push(found)?;
    Ok(())
}

/// Adds what refutes a filter on the records of differences, but for the call of the record that is told already.
pub(crate) fn add_each(
    profile: &Profile,
    filter: &Accepted<'_>,
    told: &Record,
    differences: &[Difference],
    all: &mut Vec<Counterexample>,
) -> Result<(), AllocError>
    ensures { (native : TheArch) (bundle bytes : List ℕ) → AreJudged native bundle bytes profile.now
        → accepted_insns filter.now ≡ insns_of bytes → AllRefute native bundle bytes all.old.items
        → IfOk result (λ _. AllRefute native bundle bytes all.new.items) }
{
    for difference in differences {
        let found = another(profile, filter, told, record_of(difference));
        add(found, all)?;
    }
    Ok(())
}
