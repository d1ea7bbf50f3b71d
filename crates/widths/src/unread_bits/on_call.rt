//! Whether a profile says unlike verdicts of a call by bits that are not read.
ghost use Rattle.std.specs.Prelude.{◌≡◌, ◌∷◌, [], IfOk, IfErr, IfSome, IfNone};
ghost use Rattle.widths.specs.Reads as reads;
ghost use Rattle.widths.specs.Crowded.{IsUnsettled};
ghost use Rattle.widths.specs.Past.{AreLikeOnCall, IsUnlikeOf};

use crate::arguments::read_bits;
use crate::unread_bits::past::{Past, past_by};
use crate::unread_bits::sides::side_of;
use call_record::{Record, words_are_a_record};
use differ::{Direction, Steps, Unlisted, bits_of, give_back, memory_for, unlike_at};
use profile::Profile;
use std::alloc::Global;

// How many of the lowest bits of each argument are read.
fn reads_of(token: u32, nr: u32) -> [u32; 6]
    ensures { result ≡ reads.read_bits token nr 0 ∷ reads.read_bits token nr 1 ∷ reads.read_bits token nr 2
        ∷ reads.read_bits token nr 3 ∷ reads.read_bits token nr 4 ∷ reads.read_bits token nr 5 ∷ [] }
{
    [
        read_bits(token, nr, 0),
        read_bits(token, nr, 1),
        read_bits(token, nr, 2),
        read_bits(token, nr, 3),
        read_bits(token, nr, 4),
        read_bits(token, nr, 5),
    ]
}

// All bits of each argument.
fn all_bits() -> [u32; 6]
    ensures { result ≡ 64 ∷ 64 ∷ 64 ∷ 64 ∷ 64 ∷ 64 ∷ [] }
{
    [64, 64, 64, 64, 64, 64]
}

// The record of a call with these arguments.
fn record_of(token: u32, nr: u32, args: [u64; 6]) -> Record
    ensures arch { result.arch ≡ token }
    ensures nr { result.nr ≡ nr }
    ensures args { result.args ≡ args }
{
    Record {
        nr,
        arch: token,
        ip: 0,
        args,
    }
}

/// A call with a token and a number of which a profile says another verdict than of the same call with the bits at 0 that are not read, where
/// the two are unlike in a direction; `None` where there is none.
pub fn past_on(
    alloc: Global,
    profile: &Profile,
    token: u32,
    nr: u32,
    direction: Direction,
    steps: &mut Steps,
) -> Result<Option<Past>, Unlisted>
    ensures past { IfOk result (λ found. IfSome found (IsUnlikeOf profile.now token nr direction)) }
    ensures none { IfOk result (λ found. IfNone found (AreLikeOnCall profile.now token nr direction)) }
    ensures unsettled { IfErr result (IsUnsettled profile.now token nr) }
{
    profile.rules();
    let whole = all_bits();
    let read = reads_of(token, nr);
    let one = side_of(alloc, profile, token, nr, &whole, direction)?;
    let other = side_of(alloc, profile, token, nr, &read, direction)?;
    let mut memory = memory_for(alloc, profile, profile, token, nr, steps)?;
    let bits = bits_of(token);
    match unlike_at(alloc, direction, one, other, 0, bits, bits, &mut memory)? {
        None => {
            give_back(steps, &memory);
            Ok(None)
        }
        Some(args) => {
            give_back(steps, &memory);
            let call = record_of(token, nr, args);
            words_are_a_record(&call);
            Ok(past_by(profile, &call, direction))
        }
    }
}
