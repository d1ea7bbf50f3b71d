//! What a profile says of a record.
ghost use Rattle.std.specs.Prelude.{◌≡◌};
ghost use Rattle.call_record.specs.Record.{words};
ghost use Rattle.profile.specs.Said as said;

use call_record::{Record, Word, words_are_a_record};
use profile::{Profile, each_record_is_said_one_verdict};

/// The verdict that a profile says of a record.
pub(crate) fn said_of(profile: &Profile, call: &Record) -> Word
    ensures { result ≡ said.said profile.now (words call.now) }
{
    let _rules = profile.rules();
    words_are_a_record(call);
    each_record_is_said_one_verdict();
    profile.decide(call)
}
