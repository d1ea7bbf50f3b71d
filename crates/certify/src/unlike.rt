//! Whether a filter is seen to be wrong: it gives a record that may come to a return another verdict than the profile says.
ghost use Rattle.std.specs.Prelude.{◌↔◌, IsTrue};
ghost use Rattle.call_record.specs.Record.{words};
ghost use Rattle.kernel_check.specs.Lent.{accepted_insns};
ghost use Rattle.certify.specs.Fault.{IsWrongOn, TellsTruly, TellsWrong};

use crate::chain::Chain;
use crate::fault::PathsError;
use bpf_interp::verdict;
use call_record::{Record, words_are_a_record};
use cert_state::{Lit, State, range};
use kernel_check::Accepted;
use profile::Profile;

// A number with the bits that a literal asks for, or another than it rules out.
fn turned(number: u32, literal: Lit) -> u32 {
    match literal {
        Lit::Bits(_, mask, datum) => (number & !mask) | datum,
        Lit::NotBits(_, mask, datum) if number & mask == datum => {
            number ^ (mask & mask.wrapping_neg())
        }
        _ => number,
    }
}

// A number that a word may have, as far as one is easily found.
fn likely(known: &Chain<'_>, word: u8) -> u32 {
    let (mut number, _) = range(known, word).unwrap_or((0, 0));
    let mut at = known.start();
    while let Some((literal, next)) = known.next(at) {
        if literal.word() == word {
            number = turned(number, literal);
        }
        at = next;
    }
    number
}

// A number of 64 bits that two words may have, the low half first, as far as one is easily found.
fn likely_wide(known: &Chain<'_>, word: u8) -> u64 {
    let low = likely(known, word);
    let high = likely(known, word.saturating_add(1));
    (u64::from(high) << 32) | u64::from(low)
}

/// A record of which what is known may be true.
pub(crate) fn likely_record(known: &Chain<'_>) -> Record {
    Record {
        nr: likely(known, 0),
        arch: likely(known, 1),
        ip: likely_wide(known, 2),
        args: [
            likely_wide(known, 4),
            likely_wide(known, 6),
            likely_wide(known, 8),
            likely_wide(known, 10),
            likely_wide(known, 12),
            likely_wide(known, 14),
        ],
    }
}

/// Whether the filter gives a record another verdict than the profile says of it.
pub(crate) fn is_wrong_on(profile: &Profile, program: &Accepted<'_>, call: &Record) -> bool
    ensures { IsTrue result ↔ IsWrongOn profile.now (accepted_insns program.now) (words call.now) }
{
    words_are_a_record(call);
    profile.rules();
    verdict(program, call).0 != profile.decide(call).0
}

/// What is told of a return that is not settled, once a record was tried that may come there.
pub(crate) fn tried(profile: &Profile, program: &Accepted<'_>, pc: u16, call: Record) -> PathsError
    ensures truly { TellsTruly profile.now (accepted_insns program.now) result }
    ensures wrong { IsWrongOn profile.now (accepted_insns program.now) (words call)
        → TellsWrong profile.now (accepted_insns program.now) result }
{
    let pc = u32::from(pc);
    if is_wrong_on(profile, program, &call) {
        return PathsError::Unlike(pc, call);
    }
    PathsError::Unsettled(pc)
}
