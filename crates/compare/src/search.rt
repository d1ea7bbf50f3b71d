//! The calls on which two profiles differ, as lines tell them.
ghost use Rattle.std.specs.Prelude.{◌≡◌, ℕ, true, IfOk, All};
ghost use Rattle.std.specs.List.{list_any};
ghost use Rattle.differ.specs.Differences.{is_told};
ghost use Rattle.differ.specs.OnCall.{AreCrowded, IsFound};
ghost use Rattle.profile.specs.Policy.{Policy};
ghost use Rattle.differ.specs.declared.direction.Direction.{Direction as TheDirection};
ghost use Rattle.differ.specs.declared.direction.Direction.TheVariants.{Any};
ghost use Rattle.differ.specs.Named.{is_named};
ghost use Rattle.compare.specs.Complete.{IsCrowded, is_crowded, is_on};
ghost use Rattle.compare.specs.Difference.{IsDifference};
ghost use Rattle.compare.specs.Past.{IsUndecided};
ghost use Rattle.widths.specs.Crowded as past;

use crate::difference::{Difference, difference_on};
use call_record::Record;
use differ::{Call, Found};
use machines::{Arch, Family};
use profile::Profile;
use std::alloc::{AllocError, Global};
use wording::machine_with;

/// A call with more combinations of answers than are looked at, so that it is not decided.
#[derive(Clone, Copy, Debug)]
pub struct Crowded {
    /// The machine of the call.
    pub arch: Option<Arch>,
    /// The token of the machine.
    pub token: u32,
    /// The number of the call.
    pub nr: u32,
}

// Adds the arguments for which the rules of a profile for a call ask.
fn add_asked(profile: &Profile, call: &Record, asked: &mut [bool; 6]) {
    for rule in profile.rules() {
        if rule.nr == call.nr && rule.arch.token() == call.arch {
            for cond in rule.conds.as_slice() {
                asked[cond.index as usize] = true;
            }
        }
    }
}

// The arguments for which the rules of two profiles for a call ask.
fn asked_on(first: &Profile, second: &Profile, call: &Record) -> [bool; 6] {
    let mut asked = [false; 6];
    add_asked(first, call, &mut asked);
    add_asked(second, call, &mut asked);
    asked
}

// A record on which two profiles differ.
fn difference_of(family: Family, first: &Profile, second: &Profile, found: &Found) -> Difference
    requires { IsFound first.now second.now found.now.call.arch found.now.call.nr Any found.now }
    ensures is { IsDifference family first.now second.now result }
    ensures token { result.token ≡ found.now.call.arch }
    ensures nr { result.nr ≡ found.now.call.nr }
    ensures first_is { result.first ≡ found.now.first }
    ensures second_is { result.second ≡ found.now.second }
{
    let asked = asked_on(first, second, &found.call);
    difference_on(family, &found.call, asked, found.first, found.second)
}

/// The records on which two profiles differ.
pub(crate) fn differences_of(
    alloc: Global,
    family: Family,
    first: &Profile,
    second: &Profile,
    all: &[Found],
) -> Result<Vec<Difference>, AllocError>
    requires { All (λ f. IsFound first.now second.now f.call.arch f.call.nr Any f) all.now }
    ensures are { IfOk result (λ list. All (IsDifference family first.now second.now) list.items) }
    ensures on { (t n : ℕ) (d : TheDirection) → is_told all.now t n d ≡ true → IfOk result (λ list. list_any (is_on t n d) list.items ≡ true) }
{
    let mut list = Vec::new(alloc);
    for found in all {
        list.push(difference_of(family, first, second, found))?;
    }
    Ok(list)
}

/// The calls that are crowded, with their machines.
pub(crate) fn crowded_of(
    alloc: Global,
    family: Family,
    calls: &[Call],
) -> Result<Vec<Crowded>, AllocError>
    ensures are { (p q : Policy) → All (λ call. AreCrowded p q call.token call.nr) calls.now → IfOk result (λ list. All (IsCrowded family p q) list.items) }
    ensures undecided { (p : Policy) → All (λ call. past.AreCrowded p call.token call.nr) calls.now → IfOk result (λ list. All (IsUndecided family p) list.items) }
    ensures named { (t n : ℕ) → is_named calls.now t n ≡ true → IfOk result (λ list. list_any (is_crowded t n) list.items ≡ true) }
{
    let mut list = Vec::new(alloc);
    for call in calls {
        list.push(Crowded {
            arch: machine_with(family, call.token, call.nr),
            token: call.token,
            nr: call.nr,
        })?;
    }
    Ok(list)
}
