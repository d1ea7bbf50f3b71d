//! What `ccell compare` tells.
ghost use Rattle.std.specs.Prelude.{◌≡◌, ℕ, List, IfOk, string_bytes};
ghost use Rattle.machines.specs.Arch.{family_of};
ghost use Rattle.compare.specs.Told as spec;

use crate::outcome::{Comparison, compared};
use crate::text::{is_done, text_of};
use machines::Arch;
use profile::Profile;
use profile_json::{Document, ProfileError};
use std::alloc::{AllocError, Global};
use wording::{End, Told};

// The line that tells why the bundle at a place is refused.
fn refusal_line(alloc: Global, error: ProfileError, place: u32) -> Result<String, AllocError>
    ensures { IfOk result (λ line. string_bytes line ≡ spec.refusal_line place error) }
{
    format!(in alloc; "refused profile {error}, bundle {place}\n")
}

// What is told of the first or the second bundle, where it is refused.
fn refused(alloc: Global, error: ProfileError, place: u32) -> Result<Told, AllocError>
    ensures { IfOk result (spec.TellsRefusal place error) }
{
    if let ProfileError::OutOfMemory = error {
        return Err(AllocError);
    }
    let line = refusal_line(alloc, error, place)?;
    Ok(Told {
        bytes: line.into_bytes(),
        end: End::Refused,
    })
}

// The text of a comparison, and whether it is what was asked for.
fn told(alloc: Global, comparison: &Comparison, atmost: bool) -> Result<Told, AllocError>
    ensures { IfOk result (λ told. spec.TellsComparison atmost comparison.now told) }
{
    let text = text_of(alloc, comparison)?;
    Ok(Told {
        bytes: text.into_bytes(),
        end: End::of(is_done(atmost, comparison)),
    })
}

// Compares what two profiles say.
fn compare_profiles(
    alloc: Global,
    native: Arch,
    one: &Profile,
    other: &Profile,
    atmost: bool,
) -> Result<Told, AllocError>
    ensures { IfOk result (spec.AreTold atmost (family_of native) one.now other.now) }
{
    let comparison = compared(alloc, native.family(), one, other)?;
    told(alloc, &comparison, atmost)
}

// Compares what a profile and a bundle say, of which the profile is the first bundle's.
fn compare_with(
    alloc: Global,
    native: Arch,
    one: &Profile,
    second: &Document,
    atmost: bool,
) -> Result<Told, AllocError>
    ensures { (first : List ℕ) → second.now.native ≡ native → spec.IsBundle native first one.now
        → IfOk result (spec.IsCompared atmost native first second.now.bytes) }
{
    match second.bundle() {
        Ok(other) => compare_profiles(alloc, native, one, &other.profile, atmost),
        Err(error) => refused(alloc, error, 2),
    }
}

/// Compares what two bundles that were read for one machine say of call records. It was done where they say the same; with `atmost`, where
/// the second one allows no more than the first.
pub fn compare(
    alloc: Global,
    first: &Document,
    second: &Document,
    atmost: bool,
) -> Result<Told, AllocError>
    ensures { second.now.native ≡ first.now.native
        → IfOk result (spec.IsCompared atmost first.now.native first.now.bytes second.now.bytes) }
{
    match first.bundle() {
        Ok(one) => compare_with(alloc, first.native(), &one.profile, second, atmost),
        Err(error) => refused(alloc, error, 1),
    }
}
