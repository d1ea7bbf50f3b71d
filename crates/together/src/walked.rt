//! Whether a profile says of the records of a call what several say together, by a walk through the bits of their arguments.
ghost use Rattle.std.specs.Prelude.{IfOk};
ghost use Rattle.together.specs.inner.Walked.{IsWalked, SaysAll};

use crate::product::together_on;
use crate::unlike::{Unlike, record_of, unlike_on};
use crate::way::Way;
use differ::{
    Call, Direction, Side, Steps, Unlisted, bits_of, give_back, limited_memory, side_of, unlike_at,
};
use profile::{Op, Profile};
use std::alloc::{AllocError, Global};

/// What is known of the records of a call.
#[derive(Clone, Copy)]
pub(crate) enum Walked {
    /// The profile says of each what counts.
    Agrees,
    /// Of this one it does not.
    Unlike(Unlike),
    /// Neither is known.
    Unknown,
}

// How many numbers that stand for all others are few.
const MOST_NUMBERS: usize = 4096;

// How many rules are made at most of those of several profiles.
const MOST_RULES: usize = 16_384;

// How many rules of a profile are for a call.
fn rules_on(profile: &Profile, call: &Call) -> usize {
    let mut count: usize = 0;
    for rule in profile.rules() {
        if rule.arch.token() == call.token && rule.nr == call.nr {
            count = count.saturating_add(1);
        }
    }
    count
}

// How many conditions of a profile for a call are under masks, or are not.
fn conditions_on(profile: &Profile, call: &Call, are_masked: bool) -> usize {
    let mut count: usize = 0;
    for rule in profile.rules() {
        if rule.arch.token() == call.token && rule.nr == call.nr {
            for cond in rule.conds.as_slice() {
                if (cond.op == Op::MaskedEq) == are_masked {
                    count = count.saturating_add(1);
                }
            }
        }
    }
    count
}

// How many conditions of profiles, and of one more, for a call are under masks, or are not.
fn conditions_together(
    profiles: &[Profile],
    joined: &Profile,
    call: &Call,
    are_masked: bool,
) -> usize {
    let mut count = conditions_on(joined, call, are_masked);
    for profile in profiles {
        count = count.saturating_add(conditions_on(profile, call, are_masked));
    }
    count
}

/// Whether there may be many numbers that stand for all others: each mask doubles them.
pub(crate) fn may_be_many(profiles: &[Profile], joined: &Profile, call: &Call) -> bool {
    let masks = conditions_together(profiles, joined, call, true);
    if masks == 0 {
        return false;
    }
    let numbers = conditions_together(profiles, joined, call, false);
    let mut count = numbers.saturating_mul(2).saturating_add(1);
    for _ in 0..masks {
        count = count.saturating_mul(2);
    }
    count > MOST_NUMBERS
}

// How many rules of profiles, and of one more, are for a call.
fn all_rules_on(profiles: &[Profile], joined: &Profile, call: &Call) -> usize {
    let mut count = rules_on(joined, call);
    for profile in profiles {
        count = count.saturating_add(rules_on(profile, call));
    }
    count
}

// How many rules are made of those of profiles.
fn rules_together(profiles: &[Profile], call: &Call) -> usize {
    let mut count: usize = 1;
    for profile in profiles {
        count = count.saturating_mul(rules_on(profile, call).saturating_add(1));
    }
    count
}

// What is known of the record with these arguments.
fn shown(
    alloc: Global,
    way: Way,
    profiles: &[Profile],
    joined: &Profile,
    call: &Call,
    args: [u64; 6],
) -> Result<Walked, AllocError>
    ensures { IfOk result (IsWalked way profiles.now joined.now call.now) }
{
    let record = record_of(*call, args);
    match unlike_on(alloc, way, profiles, joined, &record)? {
        Some(found) => Ok(Walked::Unlike(found)),
        None => Ok(Walked::Unknown),
    }
}

// What is known where a side says what profiles say together.
fn walked_with(
    alloc: Global,
    way: Way,
    profiles: &[Profile],
    joined: &Profile,
    call: &Call,
    one: Side,
    steps: &mut Steps,
) -> Result<Walked, AllocError>
    requires { SaysAll way profiles.now call.now one }
    ensures { IfOk result (IsWalked way profiles.now joined.now call.now) }
{
    let other = side_of(alloc, joined, call.token, call.nr)?;
    let rules = all_rules_on(profiles, joined, call);
    let mut memory = limited_memory(alloc, rules, steps);
    let bits = bits_of(call.token);
    match unlike_at(
        alloc,
        Direction::Any,
        one,
        other,
        0,
        bits,
        bits,
        &mut memory,
    ) {
        Ok(None) => {
            give_back(steps, &memory);
            Ok(Walked::Agrees)
        }
        Ok(Some(args)) => {
            give_back(steps, &memory);
            shown(alloc, way, profiles, joined, call, args)
        }
        Err(Unlisted::TooMany) => Ok(Walked::Unknown),
        Err(Unlisted::OutOfMemory) => Err(AllocError),
    }
}

/// What is known of the records of a call, if there are some profiles of not too many rules.
pub(crate) fn walk_through(
    alloc: Global,
    way: Way,
    profiles: &[Profile],
    joined: &Profile,
    call: &Call,
    steps: &mut Steps,
) -> Result<Walked, AllocError>
    ensures { IfOk result (IsWalked way profiles.now joined.now call.now) }
{
    if rules_together(profiles, call) > MOST_RULES {
        return Ok(Walked::Unknown);
    }
    match together_on(alloc, way, profiles, call)? {
        Some(one) => walked_with(alloc, way, profiles, joined, call, one, steps),
        None => Ok(Walked::Unknown),
    }
}
