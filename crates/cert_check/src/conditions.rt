//! Whether what is known of a record settles a condition on an argument.
ghost use Rattle.std.specs.Prelude.{◌≡◌, ◌↔◌, ◌<◌, ◌≤◌, ◌+◌, ◌*◌, ◌/◌, ◌%◌, ◌^◌, ◌⊎◌, IsTrue, MatchOption, length, true, false};
ghost use Rattle.cert_state.specs.Points.{HasNoPoint};
ghost use Rattle.cert_check.specs.inner.Claimed.{mets_of};
ghost use Rattle.cert_check.specs.Agree.{AllAreYes, AtBothEnds, HasAbove, HasBits, IsNo, IsRangeAbove, IsYes, LacksAbove, LacksBits, OneIsNo};
ghost use Rattle.cert_check.specs.Judged.{IsJudged};
ghost use Rattle.cert_check.specs.inner.Judged.{AreEnds, IsNoNorMet, IsOrder, IsYesOrMet};

use crate::claims::Mets;
use crate::judged::Judged;
use call_record::halves;
use cert_state::{Knowledge, Lit};
use profile::{Cond, Op};

// The word of the low half of an argument. The high half is the word after it.
const fn low_word(index: u8) -> u8
    requires { index < 6 }
    ensures { result ≡ 4 + 2 * index }
{
    4 + 2 * index
}

// Whether the high half of an argument is known to have these bits under a mask. That of a narrow one counts as 0.
#[inline(always)]
fn has_above<K: Knowledge>(known: &K, narrow: bool, index: u8, mask: u32, datum: u32) -> bool
    requires { index < 6 }
    ensures { IsTrue result ↔ HasAbove narrow (K.known known.now) index mask datum }
{
    if narrow {
        return datum == 0;
    }
    known.entails(&Lit::Bits(low_word(index) + 1, mask, datum))
}

// Whether it is known to have others.
#[inline(always)]
fn lacks_above<K: Knowledge>(known: &K, narrow: bool, index: u8, mask: u32, datum: u32) -> bool
    requires { index < 6 }
    ensures { IsTrue result ↔ LacksAbove narrow (K.known known.now) index mask datum }
{
    if narrow {
        return datum != 0;
    }
    known.entails(&Lit::NotBits(low_word(index) + 1, mask, datum))
}

// Whether an argument is known to have these bits under a mask.
#[inline(always)]
fn has_bits<K: Knowledge>(known: &K, narrow: bool, index: u8, mask: u64, datum: u64) -> bool
    requires { index < 6 }
    ensures { IsTrue result ↔ HasBits narrow (K.known known.now) index mask datum }
{
    let (mask, mask_above) = halves(mask);
    let (datum, datum_above) = halves(datum);
    if !known.entails(&Lit::Bits(low_word(index), mask, datum)) {
        return false;
    }
    has_above(known, narrow, index, mask_above, datum_above)
}

// Whether it is known to have others.
#[inline(always)]
fn lacks_bits<K: Knowledge>(known: &K, narrow: bool, index: u8, mask: u64, datum: u64) -> bool
    requires { index < 6 }
    ensures { IsTrue result ↔ LacksBits narrow (K.known known.now) index mask datum }
{
    let (mask, mask_above) = halves(mask);
    let (datum, datum_above) = halves(datum);
    if known.entails(&Lit::NotBits(low_word(index), mask, datum)) {
        return true;
    }
    lacks_above(known, narrow, index, mask_above, datum_above)
}

// Whether an argument is known to have these bits under a mask, and not to have others as well.
#[inline(always)]
fn only_has_bits<K: Knowledge>(known: &K, narrow: bool, index: u8, mask: u64, datum: u64) -> bool
    requires { index < 6 }
    ensures { let told = K.known known.now in IsTrue result
        ↔ (HasBits narrow told index mask datum × (LacksBits narrow told index mask datum → ⊥)) }
{
    if !has_bits(known, narrow, index, mask, datum) {
        return false;
    }
    !lacks_bits(known, narrow, index, mask, datum)
}

// Whether it is known to have others, and not these as well.
#[inline(always)]
fn only_lacks_bits<K: Knowledge>(known: &K, narrow: bool, index: u8, mask: u64, datum: u64) -> bool
    requires { index < 6 }
    ensures { let told = K.known known.now in IsTrue result
        ↔ (LacksBits narrow told index mask datum × (HasBits narrow told index mask datum → ⊥)) }
{
    if !lacks_bits(known, narrow, index, mask, datum) {
        return false;
    }
    !has_bits(known, narrow, index, mask, datum)
}

// The least and the greatest number that the high half of an argument may be. That of a narrow one counts as 0.
fn ends_above<K: Knowledge>(known: &K, narrow: bool, index: u8) -> Option<(u32, u32)>
    requires { index < 6 }
    ensures { let told = K.known known.now in MatchOption result
        ((narrow ≡ false) × HasNoPoint told (5 + 2 * index))
        (λ ends. IsRangeAbove narrow told index ends.0 ends.1) }
{
    if narrow {
        return Some((0, 0));
    }
    known.range(low_word(index) + 1)
}

// The least and the greatest number that an argument may be.
fn ends<K: Knowledge>(known: &K, narrow: bool, index: u8) -> Option<(u64, u64)>
    requires { index < 6 }
    ensures { let told = K.known known.now in MatchOption result
        (HasNoPoint told (4 + 2 * index) ⊎ ((narrow ≡ false) × HasNoPoint told (5 + 2 * index)))
        (λ ends. AreEnds narrow told index ends.0 ends.1) }
{
    let Some((least, greatest)) = known.range(low_word(index)) else {
        return None;
    };
    let Some((least_above, greatest_above)) = ends_above(known, narrow, index) else {
        return None;
    };
    let low = u64::from(least) + (1 << 32) * u64::from(least_above);
    let high = u64::from(greatest) + (1 << 32) * u64::from(greatest_above);
    Some((low, high))
}

// Whether a comparison by order has one answer at both ends.
fn judge_order<K: Knowledge>(known: &K, narrow: bool, cond: &Cond) -> Judged
    requires { IsOrder cond.now.op }
    ensures { let told = K.known known.now in IsJudged (AtBothEnds narrow told cond.now.index cond.now.op cond.now.value true)
        (AtBothEnds narrow told cond.now.index cond.now.op cond.now.value false
        × (AtBothEnds narrow told cond.now.index cond.now.op cond.now.value true → ⊥)) result }
{
    let Some((low, high)) = ends(known, narrow, cond.index) else {
        return Judged::Open;
    };
    if cond.holds(low) {
        if cond.holds(high) {
            Judged::Yes
        } else {
            Judged::Open
        }
    } else if cond.holds(high) {
        Judged::Open
    } else {
        Judged::No
    }
}

// Whether a comparison by order is yes.
fn is_order_yes<K: Knowledge>(known: &K, narrow: bool, cond: &Cond) -> bool
    requires { IsOrder cond.now.op }
    ensures { IsTrue result ↔ AtBothEnds narrow (K.known known.now) cond.now.index cond.now.op cond.now.value true }
{
    match judge_order(known, narrow, cond) {
        Judged::Yes => true,
        Judged::No => false,
        Judged::Open => false,
    }
}

// Whether a comparison by order is no.
fn is_order_no<K: Knowledge>(known: &K, narrow: bool, cond: &Cond) -> bool
    requires { IsOrder cond.now.op }
    ensures { let told = K.known known.now in IsTrue result
        ↔ (AtBothEnds narrow told cond.now.index cond.now.op cond.now.value false
        × (AtBothEnds narrow told cond.now.index cond.now.op cond.now.value true → ⊥)) }
{
    match judge_order(known, narrow, cond) {
        Judged::No => true,
        Judged::Yes => false,
        Judged::Open => false,
    }
}

/// Whether a condition is yes, of an argument that is narrow or is not, by what is known of the record.
#[inline(always)]
pub(crate) fn is_yes<K: Knowledge>(known: &K, narrow: bool, cond: &Cond) -> bool
    ensures { IsTrue result ↔ IsYes narrow (K.known known.now) cond.now }
{
    let Cond {
        index,
        op,
        value,
        datum,
        ..
    } = *cond;
    match op {
        Op::Eq => has_bits(known, narrow, index, u64::MAX, value),
        Op::MaskedEq => has_bits(known, narrow, index, value, datum),
        Op::Ne => lacks_bits(known, narrow, index, u64::MAX, value),
        Op::Lt | Op::Le | Op::Ge | Op::Gt => is_order_yes(known, narrow, cond),
    }
}

/// Whether it is no.
#[inline(always)]
pub(crate) fn is_no<K: Knowledge>(known: &K, narrow: bool, cond: &Cond) -> bool
    ensures { IsTrue result ↔ IsNo narrow (K.known known.now) cond.now }
{
    let Cond {
        index,
        op,
        value,
        datum,
        ..
    } = *cond;
    match op {
        Op::Eq => only_lacks_bits(known, narrow, index, u64::MAX, value),
        Op::MaskedEq => only_lacks_bits(known, narrow, index, value, datum),
        Op::Ne => only_has_bits(known, narrow, index, u64::MAX, value),
        Op::Lt | Op::Le | Op::Ge | Op::Gt => is_order_no(known, narrow, cond),
    }
}

/// Whether a condition is met, of an argument that is narrow or is not, by what is known of the record.
pub fn judge_condition<K: Knowledge>(known: &K, narrow: bool, cond: &Cond) -> Judged
    ensures { let told = K.known known.now in IsJudged (IsYes narrow told cond.now) (IsNo narrow told cond.now) result }
{
    if is_yes(known, narrow, cond) {
        return Judged::Yes;
    }
    if is_no(known, narrow, cond) {
        return Judged::No;
    }
    Judged::Open
}

// Whether a condition of the rule at a place is yes, or is said to be met.
#[inline(always)]
fn is_yes_or_met<K: Knowledge>(
    known: &K,
    mets: &Mets<'_, '_>,
    place: usize,
    own: usize,
    narrow: bool,
    cond: &Cond,
) -> bool
    requires place { place < 8192 }
    requires own { own < 6 }
    ensures { IsTrue result ↔ IsYesOrMet narrow (mets_of mets.now.node) (K.known known.now) place own cond.now }
{
    if mets.has(place, own) {
        return true;
    }
    is_yes(known, narrow, cond)
}

// Whether it is no, and is not said to be met.
#[inline(always)]
fn is_no_nor_met<K: Knowledge>(
    known: &K,
    mets: &Mets<'_, '_>,
    place: usize,
    own: usize,
    narrow: bool,
    cond: &Cond,
) -> bool
    requires place { place < 8192 }
    requires own { own < 6 }
    ensures { IsTrue result ↔ IsNoNorMet narrow (mets_of mets.now.node) (K.known known.now) place own cond.now }
{
    if mets.has(place, own) {
        return false;
    }
    is_no(known, narrow, cond)
}

// Whether one of the conditions of the rule at a place stands here that is neither yes nor said to be met.
#[inline(always)]
fn is_open_at<K: Knowledge>(
    known: &K,
    mets: &Mets<'_, '_>,
    place: usize,
    narrow: bool,
    conds: &[Cond],
    own: usize,
) -> bool
    requires place { place < 8192 }
    requires few { length conds.now ≤ 6 }
    ensures { IsTrue result → AllAreYes narrow (mets_of mets.now.node) (K.known known.now) place conds.now → ⊥ }
{
    if own >= conds.len() {
        return false;
    }
    !is_yes_or_met(known, mets, place, own, narrow, &conds[own])
}

// Whether one stands here that is no.
#[inline(always)]
fn is_no_at<K: Knowledge>(
    known: &K,
    mets: &Mets<'_, '_>,
    place: usize,
    narrow: bool,
    conds: &[Cond],
    own: usize,
) -> bool
    requires place { place < 8192 }
    requires few { length conds.now ≤ 6 }
    ensures { IsTrue result → OneIsNo narrow (mets_of mets.now.node) (K.known known.now) place conds.now }
{
    if own >= conds.len() {
        return false;
    }
    is_no_nor_met(known, mets, place, own, narrow, &conds[own])
}

/// The place of a condition of the rule at a place that is neither yes nor said to be met, if there is one. The
/// conditions at two likely places are asked first.
pub(crate) fn one_open<K: Knowledge>(
    known: &K,
    mets: &Mets<'_, '_>,
    place: usize,
    narrow: bool,
    conds: &[Cond],
    likely: (usize, usize),
) -> Option<usize>
    requires place { place < 8192 }
    requires few { length conds.now ≤ 6 }
    ensures { let all = AllAreYes narrow (mets_of mets.now.node) (K.known known.now) place conds.now in
        MatchOption result all (λ _. all → ⊥) }
{
    if is_open_at(known, mets, place, narrow, conds, likely.0) {
        return Some(likely.0);
    }
    if is_open_at(known, mets, place, narrow, conds, likely.1) {
        return Some(likely.1);
    }
    for own in 0..conds.len() {
        if !is_yes_or_met(known, mets, place, own, narrow, &conds[own]) {
            return Some(own);
        }
    }
    None
}

/// The index of a condition known to be false, if there is one.
pub(crate) fn one_no<K: Knowledge>(
    known: &K,
    mets: &Mets<'_, '_>,
    place: usize,
    narrow: bool,
    conds: &[Cond],
    likely: (usize, usize),
) -> Option<usize>
    requires place { place < 8192 }
    requires few { length conds.now ≤ 6 }
    ensures { let fails = OneIsNo narrow (mets_of mets.now.node) (K.known known.now) place conds.now in
        MatchOption result (fails → ⊥) (λ _. fails) }
{
    if is_no_at(known, mets, place, narrow, conds, likely.0) {
        return Some(likely.0);
    }
    if is_no_at(known, mets, place, narrow, conds, likely.1) {
        return Some(likely.1);
    }
    for own in 0..conds.len() {
        if is_no_nor_met(known, mets, place, own, narrow, &conds[own]) {
            return Some(own);
        }
    }
    None
}
