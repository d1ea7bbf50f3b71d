//! A record on which two profiles differ.
ghost use Rattle.std.specs.Prelude.{◌≡◌, ℕ, IfSome, IfNone};
ghost use Rattle.call_record.specs.Record.{words};
ghost use Rattle.profile.specs.Policy.{Says};
ghost use Rattle.differ.specs.OnCall.{AreLikeOn, IsFound};

use crate::direction::{Direction, tells};
use call_record::{Record, Word, words_are_a_record};
use profile::{Profile, each_record_is_said_one_verdict};

/// A call record, and what a first and a second profile say of it.
#[derive(Clone, Copy, Debug)]
pub struct Found {
    pub call: Record,
    pub first: Word,
    pub second: Word,
}

// The one verdict that a profile says of a record.
fn said(profile: &Profile, call: &Record) -> Word
    ensures says { Says profile.now (words call.now) result }
    ensures one { (v : ℕ) → Says profile.now (words call.now) v → v ≡ result }
{
    each_record_is_said_one_verdict();
    words_are_a_record(call);
    profile.rules();
    profile.decide(call)
}

/// The record with what is said of it, if that is unlike in a direction.
pub(crate) fn found_on(
    first: &Profile,
    second: &Profile,
    direction: Direction,
    call: &Record,
) -> Option<Found>
    requires { call.now.ip ≡ 0 }
    ensures some { IfSome result (IsFound first.now second.now call.now.arch call.now.nr direction) }
    ensures none { IfNone result (AreLikeOn first.now second.now direction (words call.now)) }
{
    words_are_a_record(call);
    let one = said(first, call);
    let other = said(second, call);
    if !tells(direction, one, other) {
        return None;
    }
    Some(Found {
        call: *call,
        first: one,
        second: other,
    })
}
