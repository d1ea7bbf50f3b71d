//! A filter for rules that were added one by one.
ghost use Rattle.std.specs.Prelude.{◌≡◌, ◌≢◌, ◌⊎◌, ◌≤◌, ◌↔◌, None, take, length};
ghost use Rattle.rule_compile.specs.Shape.{IsPlain};
ghost use Rattle.cert_check.specs.Checked.{profile_of};
ghost use Rattle.filter_c.specs.Refusal.{IsCause};
ghost use Rattle.filter_c.specs.declared.added.fault.AddedError.TheVariants as error;
ghost use Rattle.filter_c.specs.Machine as spec;
ghost use Rattle.filter_c.specs.Room.{LacksRoom};
ghost use Rattle.filter_c.specs.Rules.{AnswersWhatWasAdded, AreBuilt, AreNotPlain, IsRightProgram};

use crate::added::{AddedError, AddedRule, profile_of};
use crate::answers::written;
use crate::status::{
    DONE, FOREIGN_RULE, NATIVE_MISSING, NO_FILTER, NO_MACHINE, NO_MEMORY, NO_NATIVE, NO_ROOM,
    NO_RULE, OVERLAP, TOO_MANY, Told,
};
use cert_check::Checked;
use maker::{CheckedBundle, MakeError};
use profile::Profile;
use std::alloc::Global;

// Writes a checked filter.
fn put_checked(checked: &Checked<'_>, out: &mut [u8], told: &mut Told) -> u32
    ensures made { result ≡ 0 → IsRightProgram (profile_of checked.now) (take told.new.count out.new) }
    ensures room { result ≡ 2 → LacksRoom (IsRightProgram (profile_of checked.now)) (length out.old) told.new.count }
    ensures within { result ≡ 0 → told.new.count ≤ length out.old }
    ensures unwritten { 2 ≤ result → out.new ≡ out.old }
    ensures statuses { (result ≡ 0) ⊎ (result ≡ 2) }
{
    let program = checked.program().program();
    if written(program.bytes(), out, &mut told.count) {
        DONE
    } else {
        NO_ROOM
    }
}

// Writes the filter of a profile.
fn put_filter(alloc: Global, profile: Profile, out: &mut [u8], told: &mut Told) -> u32
    ensures made { result ≡ 0 → IsRightProgram profile (take told.new.count out.new) }
    ensures room { result ≡ 2 → LacksRoom (IsRightProgram profile) (length out.old) told.new.count }
    ensures within { result ≡ 0 → told.new.count ≤ length out.old }
    ensures unwritten { 2 ≤ result → out.new ≡ out.old }
    ensures size { result ≡ 11 → IsPlain profile → ⊥ }
    ensures statuses { (result ≡ 0) ⊎ ((result ≡ 2) ⊎ ((result ≡ 3) ⊎ (result ≡ 11))) }
{
    let mut checked_bundle = CheckedBundle::new();
    match checked_bundle.fill_for(alloc, &profile) {
        Ok(checked) => put_checked(&checked, out, told),
        Err(MakeError::OutOfMemory) => NO_MEMORY,
        Err(_) => NO_FILTER,
    }
}

// The status of a cause, with its places.
fn tell(cause: AddedError, told: &mut Told) -> u32
    ensures native { (result ≡ 4) ↔ (cause ≡ error.NoNative) }
    ensures machine { result ≡ 5 → cause ≡ error.NoMachine told.new.first }
    ensures rule { result ≡ 6 → cause ≡ error.NoRule told.new.first }
    ensures missing { result ≡ 7 → cause ≡ error.NativeMissing }
    ensures foreign { result ≡ 8 → cause ≡ error.ForeignRule told.new.first }
    ensures many { result ≡ 9 → cause ≡ error.TooMany }
    ensures overlap { result ≡ 10 → cause ≡ error.Overlap told.new.first told.new.second }
    ensures refused { 3 ≤ result }
    ensures last { result ≤ 10 }
{
    match cause {
        AddedError::NoNative => NO_NATIVE,
        AddedError::NoMachine(place) => {
            told.first = place;
            NO_MACHINE
        }
        AddedError::NoRule(place) => {
            told.first = place;
            NO_RULE
        }
        AddedError::NativeMissing => NATIVE_MISSING,
        AddedError::ForeignRule(place) => {
            told.first = place;
            FOREIGN_RULE
        }
        AddedError::TooMany => TOO_MANY,
        AddedError::Overlap(first, second) => {
            told.first = first;
            told.second = second;
            OVERLAP
        }
        AddedError::OutOfMemory => NO_MEMORY,
    }
}

/// Writes a filter for rules into `out`, and its length into `told.count`: 0. On each call record it answers what the rules
/// say, which the checker has shown. Any other status says why there is none, by the places of `told`: 2 to 11.
#[unsafe(no_mangle)]
pub extern "C" fn ccell_filter_for_rules(
    alloc: Global,
    native: u32,
    default_action: u32,
    machines: &[u32],
    rules: &[AddedRule],
    out: &mut [u8],
    told: &mut Told,
) -> u32
    ensures made { result ≡ 0 → AnswersWhatWasAdded machines.now default_action rules.now (take told.new.count out.new) }
    ensures built { result ≡ 0 → AreBuilt native machines.now default_action rules.now }
    ensures room { result ≡ 2 → LacksRoom (AnswersWhatWasAdded machines.now default_action rules.now) (length out.old) told.new.count }
    ensures within { result ≡ 0 → told.new.count ≤ length out.old }
    ensures native { (result ≡ 4) ↔ (spec.machine_with native ≡ None) }
    ensures machine { result ≡ 5 → IsCause native machines.now rules.now (error.NoMachine told.new.first) }
    ensures rule { result ≡ 6 → IsCause native machines.now rules.now (error.NoRule told.new.first) }
    ensures missing { result ≡ 7 → IsCause native machines.now rules.now error.NativeMissing }
    ensures foreign { result ≡ 8 → IsCause native machines.now rules.now (error.ForeignRule told.new.first) }
    ensures many { result ≡ 9 → IsCause native machines.now rules.now error.TooMany }
    ensures overlap { result ≡ 10 → IsCause native machines.now rules.now (error.Overlap told.new.first told.new.second) }
    ensures size { result ≡ 11 → AreNotPlain native machines.now default_action rules.now }
    ensures unwritten { 2 ≤ result → out.new ≡ out.old }
    ensures status { result ≢ 1 }
    ensures statuses { result ≤ 11 }
{
    match profile_of(alloc, native, machines, default_action, rules) {
        Ok(profile) => put_filter(alloc, profile, out, told),
        Err(cause) => tell(cause, told),
    }
}
