//! A walk through the bits of a call's arguments, the high ones first.
ghost use Rattle.std.specs.Prelude.{◌≡◌, ◌+◌, ℕ, true, false, ◌<◌, ◌≤◌, ◌^◌, IfOk, IfErr, IfSome, IfNone, length, slice_index, slice_set};
ghost use Rattle.differ.specs.Direction as spec;
ghost use Rattle.differ.specs.Left.{AreNeverUnlike, AreUnlikeAt, IsWithout, side_says};
ghost use Rattle.differ.specs.OnCall.{bits_of};
ghost use Rattle.differ.specs.inner.Walk.{IsStopped};

use crate::bounded::is_bounded;
use crate::direction::{Direction, tells};
use crate::end::at_end;
use crate::known::{Known, Question};
use crate::left::{Side, ask_of, side_with};
use crate::listed::Unlisted;
use crate::memory::{Memory, is_known, keep, number_for, spend};
use crate::same::are_same;
use machines::is_narrow;
use std::alloc::Global;

/// How many bits are compared of an argument.
pub fn bits_of(token: u32) -> u32
    ensures is { result ≡ bits_of token }
    ensures few { result ≤ 64 }
{
    if is_narrow(token) { 32 } else { 64 }
}

// Arguments with a bit more.
fn with_bit(args: [u64; 6], index: usize, place: u32) -> [u64; 6]
    requires index { index < 6 }
    requires place { place < 64 }
    requires small { slice_index args index < 2 ^ place }
    ensures within { index < length args }
    ensures is { result ≡ slice_set args index (slice_index args index + 2 ^ place) }
{
    let mut more = args;
    more[index] += 1u64 << place;
    more
}

fn are_empty(one: &Side, other: &Side) -> bool
    ensures { result ≡ true → (a : ℕ → ℕ) → (side_says one.now a ≡ one.now.last) × (side_says other.now a ≡ other.now.last) }
{
    if !one.rules.is_empty() {
        return false;
    }
    other.rules.is_empty()
}

// Whether the verdicts of both sides are known, and not unlike.
fn are_settled(direction: Direction, one: &Side, other: &Side) -> bool
    ensures { result ≡ true → (a : ℕ → ℕ) → spec.tells direction (side_says one.now a) (side_says other.now a) ≡ false }
{
    if are_same(one, other) {
        return true;
    }
    if is_bounded(direction, one, other) {
        return true;
    }
    if !are_empty(one, other) {
        return false;
    }
    !tells(direction, one.last, other.last)
}

// Whether nothing more is asked of an argument.
fn is_passed(one: &Side, other: &Side, index: usize, rest: u32) -> bool
    ensures some { result ≡ false → 0 < rest }
    ensures one { result ≡ true → (a b : ℕ → ℕ) → IsWithout index rest a b → side_says one.now b ≡ side_says one.now a }
    ensures other { result ≡ true → (a b : ℕ → ℕ) → IsWithout index rest a b → side_says other.now b ≡ side_says other.now a }
{
    if rest == 0 {
        return true;
    }
    if ask_of(&one.rules, index) {
        return false;
    }
    !ask_of(&other.rules, index)
}

/// Arguments for which two sides say verdicts that are unlike in a direction; `None` where there are none. The first arguments are 0,
/// one has so many bits, and later ones have all.
pub fn unlike_at(
    alloc: Global,
    direction: Direction,
    one: Side,
    other: Side,
    index: usize,
    rest: u32,
    bits: u32,
    memory: &mut Memory,
) -> Result<Option<[u64; 6]>, Unlisted>
    requires within { index ≤ 6 }
    requires some { rest ≤ bits }
    requires few { bits ≤ 64 }
    ensures found { IfOk result (λ found. IfSome found (λ args. AreUnlikeAt direction bits index rest one other (slice_index args))) }
    ensures none { IfOk result (λ found. IfNone found (AreNeverUnlike direction bits index rest one other)) }
    ensures stopped { IfErr result (IsStopped memory.old.limited) }
    ensures limited { memory.new.limited ≡ memory.old.limited }
{
    spend(memory, &one, &other)?;
    if are_settled(direction, &one, &other) {
        return Ok(None);
    }
    if index == 6 {
        return Ok(at_end(direction, &one, &other));
    }
    if is_passed(&one, &other, index, rest) {
        return unlike_at(alloc, direction, one, other, index + 1, bits, bits, memory);
    }
    let at = Question {
        direction,
        bits,
        index,
        rest,
    };
    let number = number_for(at, &one, &other);
    if is_known(memory, number, at, &one, &other) {
        return Ok(None);
    }
    let place = rest - 1;
    let these = side_with(alloc, &one.rules, one.last, index, place, 0)?;
    let those = side_with(alloc, &other.rules, other.last, index, place, 0)?;
    if let Some(found) = unlike_at(alloc, direction, these, those, index, place, bits, memory)? {
        return Ok(Some(found));
    }
    let these = side_with(alloc, &one.rules, one.last, index, place, 1)?;
    let those = side_with(alloc, &other.rules, other.last, index, place, 1)?;
    if let Some(found) = unlike_at(alloc, direction, these, those, index, place, bits, memory)? {
        return Ok(Some(with_bit(found, index, place)));
    }
    let known = Known {
        direction,
        bits,
        index,
        rest,
        one,
        other,
    };
    keep(memory, number, known)?;
    Ok(None)
}
