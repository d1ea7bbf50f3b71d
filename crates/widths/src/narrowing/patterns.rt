//! Bits that a number has under a mask, in place of a comparison of its lowest bits.
ghost use Rattle.std.specs.Prelude.{◌≡◌, ◌<◌, ◌≤◌, ◌^◌, IfOk};
ghost use Rattle.widths.specs.Patterns as spec;

use std::alloc::{AllocError, Global};

/// Bits that a number has under a mask.
#[derive(Clone, Copy)]
pub(crate) struct Pattern {
    pub(crate) mask: u64,
    pub(crate) datum: u64,
}

/// A power of two.
pub(crate) fn power_of_two(place: u32) -> u64
    requires { place < 64 }
    ensures { result ≡ 2 ^ place }
{
    1 << place
}

// The numbers of so many bits that turn up or down from a value at a place. They have its bits above, and there the other one.
fn turn_at(bits: u32, value: u64, up: bool, down: bool, place: u32) -> Option<Pattern>
    requires small { bits ≤ 32 }
    requires within { place < bits }
    requires fits { value < 2 ^ bits }
    ensures { result ≡ spec.turn_at bits value up down place }
{
    let power = power_of_two(place);
    let mask = power_of_two(bits) - power;
    let high = value - value % power;
    if value / power % 2 == 0 {
        if up {
            let datum = high + power;
            return Some(Pattern { mask, datum });
        }
        return None;
    }
    if down {
        let datum = high.saturating_sub(power);
        return Some(Pattern { mask, datum });
    }
    None
}

/// The patterns of numbers of so many bits that are above a value, or below it, or both. There is one for each place at which
/// they turn.
#[tactic(auto, unfolding(crate::specs::Patterns::turns))]
pub(crate) fn turns(
    alloc: Global,
    bits: u32,
    value: u64,
    up: bool,
    down: bool,
) -> Result<Vec<Pattern>, AllocError>
    requires small { bits ≤ 32 }
    requires fits { value < 2 ^ bits }
    ensures { IfOk result (λ list. list.items ≡ spec.turns bits value up down) }
{
    let mut list = Vec::new(alloc);
    for place in 0..bits {
        if let Some(pattern) = turn_at(bits, value, up, down, place) {
            list.push(pattern)?;
        }
    }
    Ok(list)
}

/// One pattern, or none.
pub(crate) fn one(alloc: Global, mask: u64, datum: u64) -> Result<Vec<Pattern>, AllocError>
    ensures { IfOk result (λ list. list.items ≡ spec.one mask datum) }
{
    let mut list = Vec::new(alloc);
    list.push(Pattern { mask, datum })?;
    Ok(list)
}
