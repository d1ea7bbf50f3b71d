//! The bundle of a filter that allows the calls of other machines.
ghost use Rattle.std.specs.Prelude.{IfOk, string_bytes};
ghost use Rattle.recover_others.specs.RecoveredOthers.{IsRecoveredOthers};

use crate::drafted::drafted;
use crate::judged::judge_others;
use crate::shown::of_filter;
use crate::unallowed::Unallowed;
use machines::Arch;
use std::alloc::Global;

// The bundle, or why none is found, by calls with verdicts of the filter that was judged.
fn found(alloc: Global, native: Arch, filter: &[u8]) -> Result<String, Unallowed>
    ensures { IfOk result (λ bundle. IsRecoveredOthers native (string_bytes bundle) filter.now) }
{
    let bundle = drafted(alloc, native, filter)?;
    judge_others(alloc, native, bundle.as_bytes(), filter)?;
    Ok(bundle)
}

/// The bundle that says what a filter answers to calls of its machines, where the filter allows all others, or why there is none. It tells
/// that these are allowed, in a member that no engine reads.
pub fn recover_others(alloc: Global, native: Arch, filter: &[u8]) -> Result<String, Unallowed>
    ensures { IfOk result (λ bundle. IsRecoveredOthers native (string_bytes bundle) filter.now) }
{
    match found(alloc, native, filter) {
        Ok(bundle) => Ok(bundle),
        Err(why) => Err(of_filter(filter, why)),
    }
}
