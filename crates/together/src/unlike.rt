//! A record on which a profile says another verdict than several do together.
ghost use Rattle.std.specs.Prelude.{◌≡◌, IfOk, IfNone, IfSome};
ghost use Rattle.call_record.specs.Record.{words};
ghost use Rattle.call_record.specs.Words.{words_from};
ghost use Rattle.profile.specs.Said.{said};
ghost use Rattle.together.specs.Together.{IsUnlike, each_said};
ghost use Rattle.together.specs.OnCall.{AgreesOn};

use crate::way::{Way, word_of};
use call_record::{Record, Word, words_are_a_record};
use differ::Call;
use profile::{Profile, each_record_is_said_one_verdict};
use std::alloc::{AllocError, Global};

/// A call record, the verdict that a profile says of it, and the one that counts of those that several say.
#[derive(Clone, Copy, Debug)]
pub struct Unlike {
    pub call: Record,
    pub given: Word,
    pub wanted: Word,
}

// The verdict that a profile says of a record.
fn said(profile: &Profile, call: &Record) -> Word
    ensures { result ≡ said profile.now (words call.now) }
{
    each_record_is_said_one_verdict();
    words_are_a_record(call);
    profile.rules();
    profile.decide(call)
}

// The verdicts that profiles say of a record.
fn each_said(alloc: Global, profiles: &[Profile], call: &Record) -> Result<Vec<Word>, AllocError>
    ensures { IfOk result (λ list. list.items ≡ each_said profiles.now (words call.now)) }
{
    let mut list = Vec::new(alloc);
    for profile in profiles {
        list.push(said(profile, call))?;
    }
    Ok(list)
}

/// The call with these arguments.
pub(crate) fn record_of(call: Call, args: [u64; 6]) -> Record
    ensures { words result ≡ words_from call.nr call.token 0 args }
{
    Record {
        nr: call.nr,
        arch: call.token,
        ip: 0,
        args,
    }
}

/// The record with both verdicts, if a profile says another one than counts of those that several say.
pub(crate) fn unlike_on(
    alloc: Global,
    way: Way,
    profiles: &[Profile],
    joined: &Profile,
    call: &Record,
) -> Result<Option<Unlike>, AllocError>
    ensures none { IfOk result (λ found. IfNone found (AgreesOn way profiles.now joined.now (words call.now))) }
    ensures some { IfOk result (λ found. IfSome found (IsUnlike way profiles.now joined.now)) }
{
    let words = each_said(alloc, profiles, call)?;
    let wanted = word_of(way, words);
    let given = said(joined, call);
    if given == wanted {
        return Ok(None);
    }
    Ok(Some(Unlike {
        call: *call,
        given,
        wanted,
    }))
}
