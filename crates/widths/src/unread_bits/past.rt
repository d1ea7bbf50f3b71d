//! A call of which a profile says another verdict than of the same call with the bits at 0 that are not read.
ghost use Rattle.std.specs.Prelude.{◌≡◌, ℕ, IfSome, IfNone};
ghost use Rattle.call_record.specs.Record.{words};
ghost use Rattle.profile.specs.Policy.{Says};
ghost use Rattle.differ.specs.Direction.{tells};
ghost use Rattle.differ.specs.declared.direction.Direction.TheVariants.{Any, More};
ghost use Rattle.widths.specs.Past as spec;
ghost use Rattle.widths.specs.inner.Pair.{IsLikeOne};

use crate::narrowing::{cleared, cleared_is_alike};
use call_record::{Record, Word, words_are_a_record};
use differ::Direction;
use profile::{Profile, each_record_is_said_one_verdict};

/// A call, and the same call with the bits at 0 that are not read. What a profile says of the two is unlike in a direction.
#[derive(Clone, Copy, Debug)]
pub struct Past {
    pub call: Record,
    pub word: Word,
    pub cleared: Record,
    pub cleared_word: Word,
}

// The one verdict that a profile says of a record.
fn said(profile: &Profile, call: &Record) -> Word
    ensures says { Says profile.now (words call.now) result }
    ensures one { (v : ℕ) → Says profile.now (words call.now) v → v ≡ result }
{
    each_record_is_said_one_verdict();
    words_are_a_record(call);
    profile.rules();
    profile.decide(call)
}

fn are_unlike(first: Word, second: Word) -> bool
    ensures { result ≡ tells Any first second }
{
    first != second
}

// Whether a call goes further by the second verdict.
fn is_gained(first: Word, second: Word) -> bool
    ensures { result ≡ tells More first second }
{
    second.goes_further(first)
}

// Whether two verdicts are unlike in a direction.
fn tells(direction: Direction, first: Word, second: Word) -> bool
    ensures { result ≡ tells direction first second }
{
    match direction {
        Direction::Any => are_unlike(first, second),
        Direction::More => is_gained(first, second),
        Direction::Less => is_gained(second, first),
    }
}

/// The call with what is said of it, if that is unlike.
pub(crate) fn past_by(profile: &Profile, call: &Record, direction: Direction) -> Option<Past>
    ensures past { IfSome result (spec.IsUnlikeOf profile.now call.now.arch call.now.nr direction) }
    ensures none { IfNone result (IsLikeOne profile.now direction (words call.now)) }
{
    let cleared = cleared(call);
    words_are_a_record(&cleared);
    cleared_is_alike();
    let word = said(profile, call);
    let cleared_word = said(profile, &cleared);
    if !tells(direction, word, cleared_word) {
        return None;
    }
    Some(Past {
        call: *call,
        word,
        cleared,
        cleared_word,
    })
}
