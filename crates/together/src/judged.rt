//! Whether a profile says of each call record what several say together.
ghost use Rattle.std.specs.Prelude.{◌≡◌, ℕ, true, IfOk, IfErr, IfNone, IfSome};
ghost use Rattle.differ.specs.Named.{is_named};
ghost use Rattle.together.specs.Together.{IsUnlike, SaysTogether};
ghost use Rattle.together.specs.OnCall.{AgreesOnCall, IsCrowdedBeside};
ghost use Rattle.together.specs.Unjudged.{IsUnsettled};
ghost use Rattle.together.specs.declared.judged.Unsettled.TheVariants.{OutOfMemory};

use crate::calls::named_calls;
use crate::samples::samples_of;
use crate::unlike::{Unlike, record_of, unlike_on};
use crate::walked::{Walked, may_be_many, walk_through};
use crate::way::Way;
use call_record::words_are_a_record;
use differ::{Call, Steps, Unlisted, all_steps, memory_for, rest_of};
use profile::Profile;
use std::alloc::{AllocError, AllocFailed, Global};

/// Why it is not settled.
#[derive(Clone, Copy, Debug, PartialEq, Eq)]
pub enum Unsettled {
    /// A call is crowded, or the conditions on its arguments can answer in more ways than are looked at.
    Crowded(Call),
    /// There is not enough memory.
    OutOfMemory,
}

impl From<AllocError> for Unsettled {
    ghost from_gives = { λ _ e. e ≡ OutOfMemory };

    fn from(_error: AllocError) -> Unsettled {
        Unsettled::OutOfMemory
    }
}

impl<T: Drop> From<AllocFailed<T>> for Unsettled {
    ghost from_gives = { λ _ e. e ≡ OutOfMemory };

    fn from(_error: AllocFailed<T>) -> Unsettled {
        Unsettled::OutOfMemory
    }
}

// A record of a call on which the verdicts are unlike, among those that stand for all others.
fn unlike_among(
    alloc: Global,
    way: Way,
    profiles: &[Profile],
    joined: &Profile,
    call: &Call,
) -> Result<Option<Unlike>, Unsettled>
    ensures none { IfOk result (λ found. IfNone found (AgreesOnCall way profiles.now joined.now call.now.token call.now.nr)) }
    ensures some { IfOk result (λ found. IfSome found (IsUnlike way profiles.now joined.now)) }
    ensures unsettled { IfErr result (IsUnsettled profiles.now joined.now) }
{
    let samples = match samples_of(alloc, profiles, joined, call) {
        Ok(samples) => samples,
        Err(Unlisted::TooMany) => return Err(Unsettled::Crowded(*call)),
        Err(Unlisted::OutOfMemory) => return Err(Unsettled::OutOfMemory),
    };
    for args in &samples {
        let record = record_of(*call, *args);
        words_are_a_record(&record);
        if let Some(found) = unlike_on(alloc, way, profiles, joined, &record)? {
            return Ok(Some(found));
        }
    }
    Ok(None)
}

// Whether a call is crowded of one of the profiles and one more.
fn is_crowded_beside(
    alloc: Global,
    profiles: &[Profile],
    joined: &Profile,
    call: &Call,
    steps: &mut Steps,
) -> Result<bool, AllocError>
    ensures { IfOk result (λ crowded. crowded ≡ true → IsCrowdedBeside profiles.now joined.now call.now) }
{
    for profile in profiles {
        let memory = memory_for(alloc, profile, joined, call.token, call.nr, steps)?;
        if memory.limited {
            return Ok(true);
        }
    }
    Ok(false)
}

// A record of a call on which the verdicts are unlike, unless it is crowded and many numbers stand for others.
fn unlike_unless_crowded(
    alloc: Global,
    way: Way,
    profiles: &[Profile],
    joined: &Profile,
    call: &Call,
    steps: &mut Steps,
) -> Result<Option<Unlike>, Unsettled>
    ensures none { IfOk result (λ found. IfNone found (AgreesOnCall way profiles.now joined.now call.now.token call.now.nr)) }
    ensures some { IfOk result (λ found. IfSome found (IsUnlike way profiles.now joined.now)) }
    ensures unsettled { IfErr result (IsUnsettled profiles.now joined.now) }
{
    if may_be_many(profiles, joined, call) {
        if is_crowded_beside(alloc, profiles, joined, call, steps)? {
            return Err(Unsettled::Crowded(*call));
        }
    }
    unlike_among(alloc, way, profiles, joined, call)
}

// A record of a call on which the verdicts are unlike.
fn unlike_in(
    alloc: Global,
    way: Way,
    profiles: &[Profile],
    joined: &Profile,
    call: &Call,
    steps: &mut Steps,
) -> Result<Option<Unlike>, Unsettled>
    ensures none { IfOk result (λ found. IfNone found (AgreesOnCall way profiles.now joined.now call.now.token call.now.nr)) }
    ensures some { IfOk result (λ found. IfSome found (IsUnlike way profiles.now joined.now)) }
    ensures unsettled { IfErr result (IsUnsettled profiles.now joined.now) }
{
    match walk_through(alloc, way, profiles, joined, call, steps)? {
        Walked::Agrees => Ok(None),
        Walked::Unlike(found) => Ok(Some(found)),
        Walked::Unknown => unlike_unless_crowded(alloc, way, profiles, joined, call, steps),
    }
}

// A record of one of these calls on which the verdicts are unlike.
fn unlike_in_any(
    alloc: Global,
    way: Way,
    profiles: &[Profile],
    joined: &Profile,
    calls: &[Call],
    steps: &mut Steps,
) -> Result<Option<Unlike>, Unsettled>
    ensures none { (token nr : ℕ) → is_named calls.now token nr ≡ true
        → IfOk result (λ found. IfNone found (AgreesOnCall way profiles.now joined.now token nr)) }
    ensures some { IfOk result (λ found. IfSome found (IsUnlike way profiles.now joined.now)) }
    ensures unsettled { IfErr result (IsUnsettled profiles.now joined.now) }
{
    for call in calls {
        if let Some(found) = unlike_in(alloc, way, profiles, joined, call, steps)? {
            return Ok(Some(found));
        }
    }
    Ok(None)
}

// A call of no machine.
const FOREIGN: Call = Call { token: 0, nr: 0 };

/// Whether a profile says of each call record what counts of the verdicts that several say of it. If it does not, returns a record of
/// which it says another.
pub fn judge(
    alloc: Global,
    way: Way,
    profiles: &[Profile],
    joined: &Profile,
) -> Result<Option<Unlike>, Unsettled>
    ensures none { IfOk result (λ found. IfNone found (SaysTogether way profiles.now joined.now)) }
    ensures some { IfOk result (λ found. IfSome found (IsUnlike way profiles.now joined.now)) }
    ensures unsettled { IfErr result (IsUnsettled profiles.now joined.now) }
{
    let mut steps = all_steps();
    let named = named_calls(alloc, profiles, joined)?;
    let rest = rest_of(alloc, &named)?;
    if let Some(found) = unlike_in_any(alloc, way, profiles, joined, &named, &mut steps)? {
        return Ok(Some(found));
    }
    if let Some(found) = unlike_in_any(alloc, way, profiles, joined, &rest, &mut steps)? {
        return Ok(Some(found));
    }
    unlike_in(alloc, way, profiles, joined, &FOREIGN, &mut steps)
}
