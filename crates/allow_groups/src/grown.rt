//! Bundles to which the calls of groups are added.
ghost use Rattle.std.specs.Prelude.{◌≡◌, ◌∷◌, [], IfOk, List, false, map, string_bytes, ℕ};
ghost use Rattle.machines.specs.declared.arch.Arch.{Arch as TheArch};
ghost use Rattle.profile.specs.Policy.{Policy};
ghost use Rattle.allow_groups.specs.Allowed as spec;
ghost use Rattle.allow_groups.specs.Report.{report};
ghost use Rattle.call_groups.specs.Groups.{now_of};
ghost use Rattle.together.specs.Combined.{MeansTogether};
ghost use Rattle.wording.specs.Told.{was_done};
ghost use Rattle.together.specs.declared.way.Way.TheVariants.{Laxest};

use crate::allowing::allowing;
use crate::calls::calls_on;
use crate::draft::drafted;
use crate::lists::having;
use crate::report::report;
use call_groups::calls_of_all;
use machines::Arch;
use profile::Profile;
use profile_json::{ProfileError, read_bundle};
use std::alloc::{AllocError, Global};
use together::{Unjudged, Way, if_together};
use wording::{End, Told, refused_profile};

/// The bundle that was made, and the lines that tell what it allows.
#[derive(Drop)]
pub struct Grown {
    pub told: Told,
    pub lines: String,
}

// In place of what was made, if it was not found to mean what it is to mean.
const NOT_WRITTEN: &str =
    "ccell: nothing is written: what was written with the calls of the groups would not mean just this\n";

// The bundle that a text is, if its profile says what two say together.
fn if_both(
    alloc: Global,
    native: Arch,
    profile: Profile,
    other: Profile,
    text: String,
) -> Result<String, Unjudged>
    ensures { IfOk result (λ made. MeansTogether native Laxest (profile ∷ other ∷ []) (string_bytes made)) }
{
    let mut profiles = Vec::new(alloc);
    profiles.push(profile)?;
    profiles.push(other)?;
    let made = if_together(alloc, native, Way::Laxest, &profiles, text)?;
    Ok(made)
}

// A bundle of text in which these names are allowed, before it is judged.
fn draft_of(
    alloc: Global,
    bundle: &[u8],
    machines: &[Arch],
    names: &[&'static str],
) -> Result<String, AllocError> {
    let had = having(alloc, machines, names)?;
    match str::from_utf8(bundle) {
        Ok(text) => drafted(alloc, text, &had),
        Err(_) => Ok(String::new(alloc)),
    }
}

// The bundle of a profile with the calls of groups.
fn grown_of(
    alloc: Global,
    native: Arch,
    bundle: &[u8],
    profile: Profile,
    groups: &[&str],
) -> Result<String, Unjudged>
    ensures { IfOk result (λ made. spec.MeansWith native (map now_of groups.now) profile (string_bytes made)) }
{
    let names = calls_of_all(alloc, groups)?;
    let calls = calls_on(alloc, profile.machines(), &names)?;
    let other = allowing(alloc, &profile, &calls)?;
    let text = draft_of(alloc, bundle, profile.machines(), &names)?;
    let made = if_both(alloc, native, profile, other, text)?;
    Ok(made)
}

// The bundle that was made with its lines, or a line in its place.
fn told(alloc: Global, made: Result<String, Unjudged>, lines: String) -> Result<Grown, AllocError>
    ensures { (native : TheArch) (groups : List (List ℕ)) (before : Policy)
        → IfOk made (λ text. spec.MeansWith native groups before (string_bytes text))
        → IfOk result (spec.TellsLines native groups before (string_bytes lines)) }
{
    match made {
        Ok(text) => Ok(Grown {
            told: Told {
                bytes: text.into_bytes(),
                end: End::Done,
            },
            lines,
        }),
        Err(Unjudged::OutOfMemory) => Err(AllocError),
        Err(_) => Ok(Grown {
            told: Told {
                bytes: Vec::new(alloc),
                end: End::No,
            },
            lines: String::from_str(alloc, NOT_WRITTEN)?,
        }),
    }
}

// The bundle that a profile and the calls of groups make, with its lines, or a line in its place.
fn told_for(
    alloc: Global,
    native: Arch,
    bundle: &[u8],
    profile: Profile,
    groups: &[&str],
) -> Result<Grown, AllocError>
    ensures { IfOk result (spec.TellsLines native (map now_of groups.now) profile
        (report profile.machines (map now_of groups.now))) }
{
    let lines = report(alloc, profile.machines(), groups)?;
    let made = grown_of(alloc, native, bundle, profile, groups);
    let grown = told(alloc, made, lines)?;
    Ok(grown)
}

// What is told of a bundle that is refused.
fn refused(alloc: Global, error: ProfileError) -> Result<Grown, AllocError>
    ensures { IfOk result (λ grown. was_done grown.told.end ≡ false) }
{
    let told = refused_profile(alloc, error)?;
    Ok(Grown {
        told,
        lines: String::new(alloc),
    })
}

/// Adds the calls of groups to a bundle, which are allowed then whatever their arguments, on each of its machines that has them. All
/// other calls are answered as before.
pub fn allow_groups(
    alloc: Global,
    native: Arch,
    bundle: &[u8],
    groups: &[&str],
) -> Result<Grown, AllocError>
    ensures { IfOk result (λ grown. spec.TellsGrown native (map now_of groups.now) bundle.now grown.told (string_bytes grown.lines)) }
{
    match read_bundle(alloc, bundle, native) {
        Ok(read) => told_for(alloc, native, bundle, read.profile, groups),
        Err(error) => refused(alloc, error),
    }
}
