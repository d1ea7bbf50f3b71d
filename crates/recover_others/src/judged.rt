//! Whether a bundle says what a filter answers, where it allows the calls of other machines.
ghost use Rattle.std.specs.Prelude.{◌≡◌, ℕ, List, IfOk};
ghost use Rattle.machines.specs.declared.arch.Arch.{Arch as TheArch};
ghost use Rattle.maker.specs.Finding.{IsBundle};
ghost use Rattle.recover_others.specs.Others.{AllowsOthers};
ghost use Rattle.recover_others.specs.RecoveredOthers.{IsCertified, IsRecoveredOthers, MeansAllowing};

use crate::other_calls::guarded;
use crate::told::allows_others;
use crate::unallowed::Unallowed;
use machines::Arch;
use maker::{Evidence, MakeError, judge_filter};
use profile::Profile;
use profile_json::read_bundle;
use recover::Unsaid;
use std::alloc::Global;

// Refuses a bundle if it was not judged that the filter is right.
fn be_right(judged: &Result<Evidence, MakeError>) -> Result<(), Unallowed>
    ensures { IfOk result (λ _. IsCertified judged.now) }
{
    match judged {
        Ok(Evidence::Certificate(_)) => Ok(()),
        Ok(Evidence::Refuting(found)) => Err(Unallowed::from(Unsaid::Unlike(*found))),
        Err(make_error) => Err(Unallowed::from(Unsaid::from(*make_error))),
    }
}

// Refuses a filter unless it is right for a profile but for other calls, and allows these.
fn judge_beside(alloc: Global, profile: &Profile, filter: &[u8]) -> Result<(), Unallowed>
    ensures { (native : TheArch) (bundle : List ℕ) → IsBundle native bundle profile.now
        → IfOk result (λ _. MeansAllowing native bundle filter.now) }
{
    let made = match guarded(alloc, profile.machines(), filter) {
        Ok(made) => made,
        Err(why) => return Err(Unallowed::from(why)),
    };
    let judged = judge_filter(alloc, profile, &made);
    be_right(&judged)
}

// Refuses a filter unless it allows other calls, and is right for a bundle's profile on the rest.
fn judge_filter_beside(
    alloc: Global,
    native: Arch,
    bundle: &[u8],
    filter: &[u8],
) -> Result<(), Unallowed>
    ensures { IfOk result (λ _. MeansAllowing native bundle.now filter.now) }
{
    match read_bundle(alloc, bundle, native) {
        Ok(read) => judge_beside(alloc, &read.profile, filter),
        Err(error) => Err(Unallowed::from(Unsaid::from(MakeError::from(error)))),
    }
}

// Refuses a bundle that does not tell that other calls are allowed.
fn be_told(alloc: Global, bundle: &[u8]) -> Result<(), Unallowed>
    ensures { IfOk result (λ _. AllowsOthers bundle.now) }
{
    match allows_others(alloc, bundle) {
        Ok(true) => Ok(()),
        Ok(false) => Err(Unallowed::from(Unsaid::TooLarge)),
        Err(_no_memory) => Err(Unallowed::from(Unsaid::OutOfMemory)),
    }
}

/// Refuses a bundle unless it says what a filter answers to calls of its machines, the filter allows all others, and the bundle tells it.
pub(crate) fn judge_others(
    alloc: Global,
    native: Arch,
    bundle: &[u8],
    filter: &[u8],
) -> Result<(), Unallowed>
    ensures { IfOk result (λ _. IsRecoveredOthers native bundle.now filter.now) }
{
    match be_told(alloc, bundle) {
        Ok(()) => judge_filter_beside(alloc, native, bundle, filter),
        Err(unsaid) => Err(unsaid),
    }
}
