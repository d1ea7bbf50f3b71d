//! Bundles, and one that means what they mean together.
ghost use Rattle.std.specs.Prelude.{◌≡◌, ℕ, IfOk, IfErr, IfNone, IfSome, List, Some, map, slice_get, string_bytes, take};
ghost use Rattle.std.specs.List.{AllZip};
ghost use Rattle.machines.specs.declared.arch.Arch.{Arch as TheArch};
ghost use Rattle.profile.specs.Policy.{Policy};
ghost use Rattle.profile_json.specs.Breaks.{Breaks};
ghost use Rattle.profile_json.specs.Fault.{fault_of};
ghost use Rattle.together.specs.Combined.{IsBundle, MeansTogether};
ghost use Rattle.together.specs.Together.{IsUnlike, SaysTogether};
ghost use Rattle.together.specs.Unjudged.{AreUnread, IsUnjudged, IsUnsettled};
ghost use Rattle.together.specs.declared.bundles.Unjudged.TheVariants.{OutOfMemory};
ghost use Rattle.together.specs.declared.way.Way.{Way as TheWay};

use crate::judged::{Unsettled, judge};
use crate::unlike::Unlike;
use crate::way::Way;
use differ::Call;
use machines::Arch;
use profile::Profile;
use profile_json::{Bundle, ProfileError, read_bundle};
use std::alloc::{AllocError, AllocFailed, Global};

/// Why a bundle is not handed out.
#[derive(Clone, Copy)]
pub enum Unjudged {
    /// The bundle at a place, from 0 on, is refused.
    Refused(usize, ProfileError),
    /// What was written is refused.
    Unread(ProfileError),
    /// What was written says another verdict.
    Unlike(Unlike),
    /// The conditions on the arguments of a call can answer in more ways than are looked at.
    Crowded(Call),
    /// There is not enough memory.
    OutOfMemory,
}

impl From<AllocError> for Unjudged {
    ghost from_gives = { λ _ e. e ≡ OutOfMemory };

    fn from(_error: AllocError) -> Unjudged {
        Unjudged::OutOfMemory
    }
}

impl<T: Drop> From<AllocFailed<T>> for Unjudged {
    ghost from_gives = { λ _ e. e ≡ OutOfMemory };

    fn from(_error: AllocFailed<T>) -> Unjudged {
        Unjudged::OutOfMemory
    }
}

// Why bundles are not read of which the one at a place is refused.
fn refused_at(place: usize, error: ProfileError) -> Unjudged
    ensures { (native : TheArch) (bundles : List (List ℕ)) (bundle : List ℕ) (before : List Policy) → slice_get bundles place ≡ Some bundle
        → AllZip (IsBundle native) (take place bundles) before → IfSome (fault_of error) (Breaks bundle native)
        → AreUnread native bundles result }
{
    if let ProfileError::OutOfMemory = error {
        return Unjudged::OutOfMemory;
    }
    Unjudged::Refused(place, error)
}

// Why a bundle is not handed out that is refused.
fn unread(error: ProfileError) -> Unjudged
    ensures { (native : TheArch) (way : TheWay) (ps : List Policy) (bundle : List ℕ) → IfSome (fault_of error) (Breaks bundle native)
        → IsUnjudged native way ps bundle result }
{
    if let ProfileError::OutOfMemory = error {
        return Unjudged::OutOfMemory;
    }
    Unjudged::Unread(error)
}

// The profile that a bundle means.
fn profile_of(alloc: Global, native: Arch, bundle: &[u8]) -> Result<Profile, ProfileError>
    ensures read { IfOk result (IsBundle native bundle.now) }
    ensures fault { IfErr result (λ e. IfSome (fault_of e) (Breaks bundle.now native)) }
{
    let Bundle { profile, .. } = read_bundle(alloc, bundle, native)?;
    Ok(profile)
}

/// The profiles that bundles mean.
pub fn profiles_of(
    alloc: Global,
    native: Arch,
    bundles: &[Vec<u8>],
) -> Result<Vec<Profile>, Unjudged>
    ensures read { IfOk result (λ profiles. AllZip (IsBundle native) (map (λ b. b.items) bundles.now) profiles.items) }
    ensures fault { IfErr result (AreUnread native (map (λ b. b.items) bundles.now)) }
{
    let mut profiles = Vec::new(alloc);
    for bundle in bundles {
        match profile_of(alloc, native, bundle) {
            Ok(profile) => profiles.push(profile)?,
            Err(error) => return Err(refused_at(profiles.len(), error)),
        }
    }
    Ok(profiles)
}

// A bundle, if it was settled that it is none on whose profile a verdict is unlike.
fn if_settled(
    settled: Result<Option<Unlike>, Unsettled>,
    bundle: String,
) -> Result<String, Unjudged>
    ensures together { (native : TheArch) (way : TheWay) (ps : List Policy) (q : Policy)
        → IfOk settled (λ found. IfNone found (SaysTogether way ps q)) → IsBundle native (string_bytes bundle) q
        → IfOk result (λ made. MeansTogether native way ps (string_bytes made)) }
    ensures fault { (native : TheArch) (way : TheWay) (ps : List Policy) (q : Policy)
        → IfOk settled (λ found. IfSome found (IsUnlike way ps q)) → IfErr settled (IsUnsettled ps q)
        → IsBundle native (string_bytes bundle) q → IfErr result (IsUnjudged native way ps (string_bytes bundle)) }
{
    match settled {
        Ok(None) => Ok(bundle),
        Ok(Some(found)) => Err(Unjudged::Unlike(found)),
        Err(Unsettled::Crowded(call)) => Err(Unjudged::Crowded(call)),
        Err(Unsettled::OutOfMemory) => Err(Unjudged::OutOfMemory),
    }
}

/// A bundle, if its profile says of each call record what counts of the verdicts that several say of it.
pub fn if_together(
    alloc: Global,
    native: Arch,
    way: Way,
    profiles: &[Profile],
    bundle: String,
) -> Result<String, Unjudged>
    ensures together { IfOk result (λ made. MeansTogether native way profiles.now (string_bytes made)) }
    ensures fault { IfErr result (IsUnjudged native way profiles.now (string_bytes bundle)) }
{
    let joined = match profile_of(alloc, native, bundle.as_bytes()) {
        Ok(joined) => joined,
        Err(error) => return Err(unread(error)),
    };
    if_settled(judge(alloc, way, profiles, &joined), bundle)
}
