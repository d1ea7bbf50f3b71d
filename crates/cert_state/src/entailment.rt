//! What follows from what is known, and what can not be so.
ghost use Rattle.std.specs.Prelude.{◌≡◌, ◌↔◌, ◌≤◌, ℕ, IsTrue, Contains, bit_and};
ghost use Rattle.cert_state.specs.Points.{NoneBetween};
ghost use Rattle.cert_state.specs.Entailment.{Entails, IsDead, IsDeadAt, IsExcluded};
ghost use Rattle.cert_state.specs.inner.Exclusion.{IsSuch};

use crate::gathered::{briefly_of, gives};
use crate::literal::Lit;
use crate::points::range_by;
use crate::searched::InTurn;
use crate::state::State;
use crate::summary::summarize;
use call_record::least_below;

// Whether a literal is stated.
pub(crate) fn is_stated<S: State>(state: &S, wanted: &Lit) -> bool
    ensures { IsTrue result ↔ Contains (S.known state.now) wanted.now }
{
    let mut at = state.start();
    while let Some((literal, next)) = state.next(at) {
        if literal == *wanted {
            return true;
        }
        at = next;
    }
    false
}

// Whether a literal excludes a datum under a mask.
fn excludes(literal: Lit, word: u8, mask: u32, datum: u32) -> bool
    ensures { IsTrue result ↔ IsSuch word mask datum literal }
{
    match literal {
        Lit::NotBits(w, m, d) => datum & m == d && m & mask == m && w == word,
        _ => false,
    }
}

// Whether a literal of the state excludes a datum under a mask.
pub(crate) fn is_excluded<S: State>(state: &S, word: u8, mask: u32, datum: u32) -> bool
    ensures { IsTrue result ↔ IsExcluded (S.known state.now) word mask datum }
{
    let mut at = state.start();
    while let Some((literal, next)) = state.next(at) {
        if excludes(literal, word, mask, datum) {
            return true;
        }
        at = next;
    }
    false
}

// The bits from the highest one of a number down.
fn downwards(number: u32) -> u32 {
    let pairs = number | number >> 1;
    let fours = pairs | pairs >> 2;
    let bytes = fours | fours >> 4;
    let halves = bytes | bytes >> 8;
    halves | halves >> 16
}

// What is likely the least number from `low` on with the datum under the mask. The free bits are those of `low` above the
// highest bit where the datum differs, or one of them is raised. All free bits below are clear.
fn likely(low: u32, mask: u32, datum: u32) -> u32 {
    let free = u32::MAX ^ mask;
    let first = low & free | datum;
    let below = downwards(first ^ low);
    if first >= low {
        return first & (u32::MAX ^ free & below);
    }
    let open = free & (u32::MAX ^ (low | below));
    let raised = open & open.wrapping_neg();
    let under = raised.wrapping_sub(1);
    low & free & (u32::MAX ^ under) | raised | datum
}

// Whether a number from `low` to `high` has the datum under the mask.
fn is_one_of(number: u32, low: u32, high: u32, mask: u32, datum: u32) -> bool
    ensures { IsTrue result ↔ (low ≤ number) × (number ≤ high) × (bit_and number mask ≡ datum) }
{
    low <= number && number <= high && number & mask == datum
}

// Whether no number from `low` to `high` has the datum under the mask. It is always a call: what is asked more often stays short.
#[inline(never)]
pub(crate) fn none_between(low: u32, high: u32, mask: u32, datum: u32) -> bool
    ensures { IsTrue result ↔ NoneBetween low high mask datum }
{
    if is_one_of(likely(low, mask, datum), low, high, mask, datum) {
        return false;
    }
    match least_below(32, low as u64, mask as u64, datum as u64) {
        Some(least) => least > high as u64,
        None => true,
    }
}

/// Whether a literal follows from those of a state: it is stated, or the others of its word give it.
// It is always a call, too: `Facts` needs it only for a state that it has no room for.
#[inline(never)]
pub fn entails<S: State>(state: &S, literal: &Lit) -> bool
    ensures { IsTrue result ↔ Entails (S.known state.now) literal.now }
{
    gives(
        &InTurn { state },
        &briefly_of(state, literal.word()),
        literal,
    )
}

/// Whether the literals of a word can not all be true.
pub fn is_dead_at<S: State>(state: &S, word: u8) -> bool
    ensures { IsTrue result ↔ IsDeadAt (S.known state.now) word }
{
    let summary = summarize(state, word);
    if summary.ones & summary.zeros != 0 {
        return true;
    }
    if is_excluded(state, word, summary.mask, summary.datum) {
        return true;
    }
    match range_by(state, word, &summary) {
        Some((low, high)) => none_between(low, high, summary.mask, summary.datum),
        None => true,
    }
}

/// Whether the literals of a state can not all be true.
pub fn dead<S: State>(state: &S) -> bool
    ensures { IsTrue result ↔ IsDead (S.known state.now) }
{
    for word in 0..16 {
        if is_dead_at(state, word) {
            return true;
        }
    }
    false
}
