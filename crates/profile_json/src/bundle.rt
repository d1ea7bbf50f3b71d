//! Bundles.
ghost use Rattle.std.specs.Prelude.{◌≡◌, ◌≢◌, true, IfOk, IfErr, IfSome};
ghost use Rattle.std.specs.List.{list_any};
ghost use Rattle.serde_json.specs.Data.{Data};
ghost use Rattle.serde_json.specs.View.{view};
ghost use Rattle.machines.specs.Arch.{family_of, same_arch, AreOfFamily};
ghost use Rattle.profile_json.specs.Breaks.{Breaks};
ghost use Rattle.profile_json.specs.ByEntry.{AreRulesOf};
ghost use Rattle.profile_json.specs.Fault.{fault_of};
ghost use Rattle.profile_json.specs.declared.fault.ProfileError.TheVariants.{OutOfMemory};
ghost use Rattle.profile_json.specs.Place.{BreaksAt};
ghost use Rattle.profile_json.specs.declared.refusal.Place.TheVariants.{Text};
ghost use Rattle.profile_json.specs.inner.Making.{IsMade, IsNotMade};
ghost use Rattle.profile_json.specs.Meaning.{IsText, Means};
ghost use Rattle.profile_json.specs.inner.View.{said_parts};

use crate::by_entry::EntryRules;
use crate::contents::Contents;
use crate::fault::ProfileError;
use crate::overlaps::overlap_of;
use crate::place::read;
use crate::rules::{Rules, rules_of};
use machines::Arch;
use profile::{BuildError, Profile, in_order};
use serde_json::Value;
use std::alloc::Global;

/// What a bundle says of system calls.
#[derive(Drop)]
pub struct Bundle {
    pub profile: Profile,
    /// The rules that its entries say.
    pub by_entry: EntryRules,
}

pub(crate) fn value_of(alloc: Global, text: &[u8], native: Arch) -> Result<Value, ProfileError>
    ensures ok { IfOk result (λ v. IsText text.now (view v)) }
    ensures err { IfErr result (λ e. IfSome (fault_of e) (Breaks text.now native)) }
    ensures at { IfErr result (λ e. IfSome (fault_of e) (BreaksAt text.now native Text)) }
    ensures none { IfErr result (λ e. e ≢ OutOfMemory → (t : Data) → ¬ IsText text.now t) }
{
    match Value::from_slice(alloc, text) {
        Ok(value) => Ok(value),
        Err(e) => {
            if e.is_memory() {
                Err(ProfileError::OutOfMemory)
            } else {
                Err(ProfileError::Syntax)
            }
        }
    }
}

/// The profile of the rules that the entries say.
pub(crate) fn profile_of(
    alloc: Global,
    said: &Contents,
    native: Arch,
) -> Result<Profile, ProfileError>
    requires native_listed { list_any (same_arch native) said.now.archs.items ≡ true }
    requires of_family { AreOfFamily (family_of native) said.now.archs.items }
    ensures ok { IfOk result (IsMade (said_parts said.now) native) }
    ensures err { IfErr result (λ e. IfSome (fault_of e) (IsNotMade (said_parts said.now) native)) }
{
    let listed = in_order(native.family(), &said.archs);
    let machines = listed.as_slice();
    let Rules { list, ends } = rules_of(alloc, &said.entries, machines)?;
    match Profile::build(alloc, native, machines, said.default_word, list) {
        Ok(profile) => Ok(profile),
        Err(BuildError::Overlap(_, place)) => {
            Err(overlap_of(&said.entries, machines, &ends, place))
        }
        Err(BuildError::TooMany) => Err(ProfileError::TooMany),
        Err(BuildError::OutOfMemory) => Err(ProfileError::OutOfMemory),
        Err(BuildError::NativeMissing) => unreachable!(),
        Err(BuildError::MixedFamilies) => unreachable!(),
        Err(BuildError::ForeignRule(_)) => unreachable!(),
    }
}

/// Reads a bundle for its native machine.
pub fn read_bundle(alloc: Global, text: &[u8], native: Arch) -> Result<Bundle, ProfileError>
    // The text is a value, and the profile is what it means.
    ensures ok { IfOk result (λ b. (t : Data) × IsText text.now t × Means t native b.profile) }
    ensures rules { IfOk result (λ b. AreRulesOf native text.now b.by_entry.rules.items b.by_entry.ends.items) }

    // Unless memory ran out, the fault stands in the text.
    ensures err { IfErr result (λ e. IfSome (fault_of e) (Breaks text.now native)) }
{
    match read(alloc, text, native) {
        Ok(bundle) => Ok(bundle),
        Err(told) => Err(told.error),
    }
}
