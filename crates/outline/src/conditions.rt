//! What is known of conditions, and where what is known is cut for their sake.
//!
//! Argument j stands in the words 4 + 2 j and 5 + 2 j of a record, the low half first. Of a narrow argument the low half alone is
//! compared, and the high one counts as 0.
ghost use Rattle.std.specs.Prelude.{◌<◌};

use crate::parts::{Cut, cut_below, cut_of_bits, listed};
use crate::words::{Told, Words};
use cert_state::{Knowledge, Lit};
use profile::{Cond, Op};

/// The word of the low half of a condition's argument; that of the high half is the next one.
pub(crate) fn low_word(cond: &Cond) -> u8
    ensures { result < 15 }
{
    4 + 2 * cond.index
}

// The halves of a number of 64 bits, the high one first.
fn halves(number: u64) -> (u32, u32) {
    ((number >> 32) as u32, (number & 0xffff_ffff) as u32)
}

/// The mask and the datum of which a condition asks, but for an order: those of a half.
pub(crate) fn bits_of(cond: &Cond, is_high: bool) -> (u32, u32) {
    let (mask, datum) = match cond.op {
        Op::MaskedEq => (cond.value, cond.datum),
        _ => (u64::MAX, cond.value),
    };
    let (high_mask, low_mask) = halves(mask);
    let (high, low) = halves(datum);
    if is_high {
        return (high_mask, high);
    }
    (low_mask, low)
}

// Whether bits of a word are a datum, if that is known.
fn answer_to_bits<K: Knowledge>(
    known: &Told<'_, K>,
    word: u8,
    mask: u32,
    datum: u32,
) -> Option<bool> {
    if known.entail(Lit::NotBits(word, mask, datum)) {
        return Some(false);
    }
    if mask == 0 || known.entail(Lit::Bits(word, mask, datum)) {
        return Some(true);
    }
    for literal in &known.words.masked {
        if let Lit::Bits(of, under, another) = *literal
            && of == word
            && under == mask
            && another != datum
        {
            return Some(false);
        }
    }
    None
}

/// What is known of a condition.
#[derive(Clone, Copy, PartialEq, Eq)]
pub(crate) enum Answer {
    Yes,
    No,
    /// The high half is the one that is asked for, so the low half decides.
    Low,
    Open,
}

impl Answer {
    fn of(holds: bool) -> Answer {
        if holds { Answer::Yes } else { Answer::No }
    }

    // What a comparison says of a condition that holds where this has the wanted outcome.
    fn wanted(self, outcome: bool) -> Answer {
        match (self, outcome) {
            (Answer::Yes, false) => Answer::No,
            (Answer::No, false) => Answer::Yes,
            _ => self,
        }
    }
}

// Whether bits of the high half of the condition's argument are those of which it asks, if that is known.
fn answer_to_high_bits<K: Knowledge>(
    known: &Told<'_, K>,
    narrow: bool,
    cond: &Cond,
) -> Option<bool> {
    let (mask, datum) = bits_of(cond, true);
    if narrow {
        return Some(datum == 0);
    }
    answer_to_bits(known, low_word(cond) + 1, mask, datum)
}

/// Whether the argument has the bits of which the condition asks.
pub(crate) fn by_bits<K: Knowledge>(known: &Told<'_, K>, narrow: bool, cond: &Cond) -> Answer {
    let (mask, datum) = bits_of(cond, false);
    let low_half = answer_to_bits(known, low_word(cond), mask, datum);
    let high_half = answer_to_high_bits(known, narrow, cond);
    match (high_half, low_half) {
        (Some(false), _) | (_, Some(false)) => Answer::No,
        (Some(true), Some(true)) => Answer::Yes,
        _ => Answer::Open,
    }
}

// The least number that is not below an order's: an argument is at least this one, or is not, as the condition wants. There is none
// for what is greater than the greatest.
fn least_of(cond: &Cond) -> Option<u64> {
    match cond.op {
        Op::Gt | Op::Le => cond.value.checked_add(1),
        _ => Some(cond.value),
    }
}

// Whether the condition holds where its comparison does: being the number, or at least the number.
fn outcome_of(cond: &Cond) -> bool {
    matches!(cond.op, Op::Eq | Op::Ge | Op::Gt | Op::MaskedEq)
}

fn is_equality(cond: &Cond) -> bool {
    matches!(cond.op, Op::Eq | Op::Ne | Op::MaskedEq)
}

// Whether a word is at least a number, if that is known.
fn is_at_least<K: Knowledge>(known: &Told<'_, K>, word: u8, number: u32) -> Option<bool>
    requires { word < 16 }
{
    let (low, high) = known.whole.range(word)?;
    if low >= number {
        return Some(true);
    }
    if high < number {
        return Some(false);
    }
    None
}

// By a high half that is 0, whether the argument is at least a number.
fn by_no_high(number: u64) -> Answer {
    match halves(number) {
        (0, 0) => Answer::Yes,
        (0, _) => Answer::Low,
        _ => Answer::No,
    }
}

// By the high half, whether the argument is at least a number.
fn by_high_order<K: Knowledge>(known: &Told<'_, K>, narrow: bool, word: u8, number: u64) -> Answer
    requires { word < 16 }
{
    if narrow {
        return by_no_high(number);
    }
    let (high, low) = halves(number);
    if low == 0 {
        return match is_at_least(known, word, high) {
            Some(is) => Answer::of(is),
            None => Answer::Open,
        };
    }
    match known.whole.range(word) {
        Some((least, _)) if least > high => Answer::Yes,
        Some((_, greatest)) if greatest < high => Answer::No,
        Some((least, greatest)) if least == greatest => Answer::Low,
        _ => Answer::Open,
    }
}

/// By the high half of its argument, whether a condition holds that asks for no bits under a mask.
pub(crate) fn by_high<K: Knowledge>(known: &Told<'_, K>, narrow: bool, cond: &Cond) -> Answer {
    let word = low_word(cond) + 1;
    let outcome = outcome_of(cond);
    if is_equality(cond) {
        return match answer_to_high_bits(known, narrow, cond) {
            Some(true) => Answer::Low,
            Some(false) => Answer::No.wanted(outcome),
            None => Answer::Open,
        };
    }
    match least_of(cond) {
        Some(number) => by_high_order(known, narrow, word, number).wanted(outcome),
        None => Answer::No.wanted(outcome),
    }
}

/// By the low half of its argument, whether a condition without a mask holds. Its high half is known to be the one that
/// is asked for.
pub(crate) fn by_low<K: Knowledge>(known: &Told<'_, K>, cond: &Cond) -> Answer {
    let word = low_word(cond);
    let number = halves(least_of(cond).unwrap_or(cond.value)).1;
    let is = if is_equality(cond) {
        answer_to_bits(known, word, u32::MAX, number)
    } else {
        is_at_least(known, word, number)
    };
    match is {
        Some(is) => Answer::of(is).wanted(outcome_of(cond)),
        None => Answer::Open,
    }
}

/// By all that is known, whether a condition holds.
pub(crate) fn by_all<K: Knowledge>(known: &Told<'_, K>, narrow: bool, cond: &Cond) -> Answer {
    if cond.op == Op::MaskedEq {
        return by_bits(known, narrow, cond);
    }
    match by_high(known, narrow, cond) {
        Answer::Low => by_low(known, cond),
        answer => answer,
    }
}

// A cut, if none of the two literals is known already.
fn if_open(known: &Words, cut: Cut) -> Option<Cut> {
    if known.entail(cut.0) || known.entail(cut.1) {
        return None;
    }
    Some(cut)
}

/// A word is cut in front of a number.
pub(crate) fn below(known: &Words, word: u8, number: u32) -> Option<Cut> {
    if_open(known, cut_below(word, number)?)
}

/// A word is cut in front of a number, or else behind it.
pub(crate) fn beside(known: &Words, word: u8, number: u32) -> Option<Cut> {
    match below(known, word, number) {
        Some(cut) => Some(cut),
        None => below(known, word, number.checked_add(1)?),
    }
}

/// A word has these bits, or has them not.
pub(crate) fn told_apart(known: &Words, word: u8, mask: u32, datum: u32) -> Option<Cut> {
    let whole = listed(&known.whole);
    if answer_to_bits(&known.told(&whole), word, mask, datum).is_some() {
        return None;
    }
    if_open(known, cut_of_bits(word, mask, datum))
}

// Where bits of a half are told apart for a condition. No word has a bit outside the mask.
fn cut_of_half_bits(known: &Words, cond: &Cond, is_high: bool) -> Option<Cut> {
    let low = low_word(cond);
    let word = if is_high { low + 1 } else { low };
    let (mask, datum) = bits_of(cond, is_high);
    if datum & mask == datum {
        return told_apart(known, word, mask, datum);
    }
    None
}

// Where a half is cut of which a condition asks that asks for no bits under a mask.
fn cut_of_half(known: &Words, cond: &Cond, is_high: bool) -> Option<Cut> {
    if is_equality(cond) {
        return cut_of_half_bits(known, cond, is_high);
    }
    let (high, low) = halves(least_of(cond)?);
    if is_high {
        return beside(known, low_word(cond) + 1, high);
    }
    below(known, low_word(cond), low)
}

/// Where the argument of a condition is cut that is not settled: at the half that decides. That is the low one of a narrow argument.
pub(crate) fn cut_of(known: &Words, narrow: bool, cond: &Cond, is_low: bool) -> Option<Cut> {
    if cond.op != Op::MaskedEq {
        return cut_of_half(known, cond, !narrow && !is_low);
    }
    if !narrow && let Some(cut) = cut_of_half_bits(known, cond, true) {
        return Some(cut);
    }
    cut_of_half_bits(known, cond, false)
}

/// Where the argument of a condition is cut that is not settled: at the half that decides, if something is known of
/// that half.
pub(crate) fn cut_where_known(
    known: &Words,
    narrow: bool,
    cond: &Cond,
    is_low: bool,
) -> Option<Cut> {
    let low = low_word(cond);
    let is_low = narrow || is_low;
    let has_high = !narrow && known.have(low + 1, bits_of(cond, true).0);
    let has_low = known.have(low, bits_of(cond, false).0);
    if cond.op != Op::MaskedEq {
        if is_low && has_low || !is_low && has_high {
            return cut_of_half(known, cond, !is_low);
        }
        return None;
    }
    if has_high && let Some(cut) = cut_of_half_bits(known, cond, true) {
        return Some(cut);
    }
    if has_low {
        return cut_of_half_bits(known, cond, false);
    }
    None
}
