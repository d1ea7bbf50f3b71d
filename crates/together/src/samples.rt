//! Arguments that stand for all others of a call where profiles ask about it.
ghost use Rattle.std.specs.Prelude.{◌≡◌, ◌<◌, ◌++◌, IfOk, IfErr, map, slice_set};
ghost use Rattle.together.specs.OnCall.{AreSamples, AreUnsampled, conditions_of, own_conditions, widened};

use differ::{Call, MOST_COMBINATIONS, Unlisted, add_conditions, bits_of, cells, rules_for};
use profile::{Cond, Profile};
use std::alloc::{AllocError, Global};

// Adds the conditions of a profile on an argument of a call.
fn add_own(
    alloc: Global,
    profile: &Profile,
    call: &Call,
    index: usize,
    list: &mut Vec<Cond>,
) -> Result<(), AllocError>
    ensures { IfOk result (λ _. list.new.items ≡ list.old.items ++ own_conditions call.now index profile.now) }
{
    let rules = rules_for(alloc, profile.rules(), call.token, call.nr)?;
    add_conditions(&rules, index, list)
}

// The conditions of profiles, and of one more, on an argument of a call.
fn conditions_of(
    alloc: Global,
    profiles: &[Profile],
    joined: &Profile,
    call: &Call,
    index: usize,
) -> Result<Vec<Cond>, AllocError>
    ensures { IfOk result (λ list. list.items ≡ conditions_of profiles.now joined.now call.now index) }
{
    let mut list = Vec::new(alloc);
    for profile in profiles {
        add_own(alloc, profile, call, index, &mut list)?;
    }
    add_own(alloc, joined, call, index, &mut list)?;
    Ok(list)
}

// Arguments with one replaced.
fn with_argument(args: &[u64; 6], index: usize, value: u64) -> [u64; 6]
    requires { index < 6 }
    ensures { result ≡ slice_set args.now index value }
{
    let mut changed = *args;
    changed[index] = value;
    changed
}

// Adds arguments with each of some numbers at a place.
fn add_with(
    args: &[u64; 6],
    index: usize,
    values: &[u64],
    list: &mut Vec<[u64; 6]>,
) -> Result<(), AllocError>
    requires { index < 6 }
    ensures { IfOk result (λ _. list.new.items ≡ list.old.items ++ map (λ v. slice_set args.now index v) values.now) }
{
    for value in values {
        list.push(with_argument(args, index, *value))?;
    }
    Ok(())
}

// Each of these arguments with each of some numbers at a place.
fn widened(
    alloc: Global,
    samples: &[[u64; 6]],
    index: usize,
    values: &[u64],
) -> Result<Vec<[u64; 6]>, AllocError>
    requires { index < 6 }
    ensures { IfOk result (λ list. list.items ≡ widened index values.now samples.now) }
{
    let mut list = Vec::new(alloc);
    for args in samples {
        add_with(args, index, values, &mut list)?;
    }
    Ok(list)
}

/// Arguments that stand for all others of a call, unless these are too many.
pub(crate) fn samples_of(
    alloc: Global,
    profiles: &[Profile],
    joined: &Profile,
    call: &Call,
) -> Result<Vec<[u64; 6]>, Unlisted>
    ensures ok { IfOk result (λ list. AreSamples profiles.now joined.now call.now 6 list.items) }
    ensures err { IfErr result (AreUnsampled profiles.now joined.now call.now) }
{
    let mut list = Vec::new(alloc);
    list.push([0; 6])?;
    for index in 0..6 {
        let conds = conditions_of(alloc, profiles, joined, call, index)?;
        let values = cells(alloc, &conds, bits_of(call.token))?;
        if list.len().saturating_mul(values.len()) > MOST_COMBINATIONS {
            return Err(Unlisted::TooMany);
        }
        list = widened(alloc, &list, index, &values)?;
    }
    Ok(list)
}
