//! The least and the greatest point of a word, without memory.
//!
//! Where excluded numbers crowd at an end, each walk over the literals steps past 64 of them.
ghost use Rattle.std.specs.Prelude.{◌≡◌, ◌↔◌, ◌<◌, ◌≤◌, ◌^◌, ℕ, MatchOption};
ghost use Rattle.std.specs.Int.{bit_at};
ghost use Rattle.cert_state.specs.Points.{HasNoPoint, IsRange};
ghost use Rattle.cert_state.specs.inner.Summary.{summary_of, unknown};
ghost use Rattle.cert_state.specs.inner.Window.{ExcludedBy, Excludes, ExcludesAt, IsAt};

use crate::literal::Lit;
use crate::state::State;
use crate::summary::{Summary, summarize};

// How far a number is above another one, or below it, where that is less than 64.
fn distance(up: bool, from: u32, number: u32) -> Option<u32>
    ensures { MatchOption result ((k : ℕ) → k < 64 → ¬ IsAt up from k number) (λ k. (k < 64) × IsAt up from k number) }
{
    let distance = if up {
        number.checked_sub(from)
    } else {
        from.checked_sub(number)
    };
    distance.filter(|k| *k < 64)
}

// How far from a number the one is that a literal excludes, where that is less than 64.
fn near(literal: Lit, word: u8, up: bool, from: u32) -> Option<u32>
    ensures { MatchOption result
        ((k : ℕ) → k < 64 → ¬ ExcludedBy literal word up from k)
        (λ k. (k < 64) × ExcludedBy literal word up from k) }
{
    match literal {
        Lit::NotBits(w, u32::MAX, number) if w == word => distance(up, from, number),
        _ => None,
    }
}

// Which of a number and the next 63, upward or downward, are excluded; the first is the lowest bit.
fn excluded_near<S: State>(state: &S, word: u8, up: bool, from: u32) -> u64
    ensures { (k : ℕ) → k < 64 → (bit_at result k ≡ 1) ↔ ExcludesAt (S.known state.now) word up from k }
{
    let mut seen = 0;
    let mut at = state.start();
    while let Some((literal, next)) = state.next(at) {
        if let Some(k) = near(literal, word, up, from) {
            seen |= 1u64 << k;
        }
        at = next;
    }
    seen
}

// How many of them are excluded in a row.
fn excluded_run<S: State>(state: &S, word: u8, up: bool, from: u32) -> u32
    ensures within { result ≤ 64 }
    ensures all { (k d : ℕ) → k < result → IsAt up from k d → Excludes (S.known state.now) word d }
    ensures next { result < 64 → (d : ℕ) → IsAt up from result d → ¬ Excludes (S.known state.now) word d }
{
    excluded_near(state, word, up, from).trailing_ones()
}

// The first number from `low` on that is not excluded, or one above `high`.
fn first_free<S: State>(state: &S, word: u8, low: u32, high: u32) -> u64
    ensures from { low ≤ result }
    ensures all { (u : ℕ) → low ≤ u → u < result → Excludes (S.known state.now) word u }
    ensures free { result ≤ high → ¬ Excludes (S.known state.now) word result }
{
    let mut at = low as u64;
    while at <= high as u64 {
        let run = excluded_run(state, word, true, at as u32);
        at += run as u64;
        if run < 64 {
            return at;
        }
    }
    at
}

// The last number down to `low` that is not excluded.
fn last_free<S: State>(state: &S, word: u8, low: u32, high: u32) -> u32
    requires some { low ≤ high }
    requires free { ¬ Excludes (S.known state.now) word low }
    ensures from { low ≤ result }
    ensures to { result ≤ high }
    ensures all { (u : ℕ) → result < u → u ≤ high → Excludes (S.known state.now) word u }
    ensures free { ¬ Excludes (S.known state.now) word result }
{
    let mut end = high;
    loop {
        let run = excluded_run(state, word, false, end);
        end -= run;
        if run < 64 {
            return end;
        }
    }
}

/// The least and the greatest point of a word that has this summary, if it has one.
pub(crate) fn range_by<S: State>(state: &S, word: u8, summary: &Summary) -> Option<(u32, u32)>
    requires { summary.now ≡ summary_of (S.known state.now) word unknown }
    ensures { MatchOption result (HasNoPoint (S.known state.now) word) (λ p. IsRange (S.known state.now) word p.0 p.1) }
{
    let low = summary.low;
    let high = summary.high;
    let least = first_free(state, word, low, high);
    if least > high as u64 {
        return None;
    }
    let least = least as u32;
    Some((least, last_free(state, word, least, high)))
}

/// The least and the greatest point of a word, if it has one.
pub fn range<S: State>(state: &S, word: u8) -> Option<(u32, u32)>
    ensures { MatchOption result (HasNoPoint (S.known state.now) word) (λ p. IsRange (S.known state.now) word p.0 p.1) }
{
    range_by(state, word, &summarize(state, word))
}
