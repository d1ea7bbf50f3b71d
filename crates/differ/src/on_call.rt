//! Whether two profiles differ on a call.
ghost use Rattle.std.specs.Prelude.{◌≡◌, true, IfOk, IfErr, IfSome, IfNone};
ghost use Rattle.differ.specs.OnCall.{AreCrowded, AreLikeOnCall, IsFound, IsUnsettled};

use crate::direction::Direction;
use crate::found::{Found, found_on};
use crate::listed::Unlisted;
use crate::memory::{Memory, Steps, empty_memory, give_back};
use crate::opened::open_for;
use crate::sides::side_of;
use crate::walk::{bits_of, unlike_at};
use crate::ways::are_crowded;
use call_record::{Record, words_are_a_record};
use profile::Profile;
use std::alloc::{AllocError, Global};

/// What a walk begins with: its steps are limited where the call is crowded. Half of those that a command has left are then for it.
pub fn memory_for(
    alloc: Global,
    first: &Profile,
    second: &Profile,
    token: u32,
    nr: u32,
    steps: &mut Steps,
) -> Result<Memory, AllocError>
    ensures { IfOk result (λ begun. begun.limited ≡ true → AreCrowded first.now second.now token nr) }
{
    let held = open_for(alloc, first, second, token, nr)?;
    let limited = are_crowded(alloc, first, second, &held, token, nr)?;
    let rules = held.first.len().saturating_add(held.second.len());
    Ok(empty_memory(alloc, limited, rules, steps))
}

// The record of a call with these arguments.
fn record_of(token: u32, nr: u32, args: [u64; 6]) -> Record
    ensures arch { result.arch ≡ token }
    ensures nr { result.nr ≡ nr }
    ensures ip { result.ip ≡ 0 }
    ensures args { result.args ≡ args }
{
    Record {
        nr,
        arch: token,
        ip: 0,
        args,
    }
}

/// A record of a call on which two profiles say verdicts that are unlike in a direction; `None` where they do so on no record of it.
pub fn differ_on(
    alloc: Global,
    first: &Profile,
    second: &Profile,
    token: u32,
    nr: u32,
    direction: Direction,
    steps: &mut Steps,
) -> Result<Option<Found>, Unlisted>
    ensures found { IfOk result (λ found. IfSome found (IsFound first.now second.now token nr direction)) }
    ensures none { IfOk result (λ found. IfNone found (AreLikeOnCall first.now second.now token nr direction)) }
    ensures unsettled { IfErr result (IsUnsettled first.now second.now token nr) }
{
    first.rules();
    second.rules();
    let one = side_of(alloc, first, token, nr)?;
    let other = side_of(alloc, second, token, nr)?;
    let mut memory = memory_for(alloc, first, second, token, nr, steps)?;
    let bits = bits_of(token);
    match unlike_at(alloc, direction, one, other, 0, bits, bits, &mut memory)? {
        None => {
            give_back(steps, &memory);
            Ok(None)
        }
        Some(args) => {
            give_back(steps, &memory);
            let call = record_of(token, nr, args);
            words_are_a_record(&call);
            Ok(found_on(first, second, direction, &call))
        }
    }
}
