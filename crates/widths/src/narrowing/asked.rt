//! The patterns that stand for a condition on the lowest bits of its argument.
ghost use Rattle.std.specs.Prelude.{◌≡◌, ◌≢◌, ◌<◌, ◌≤◌, bit_and, max, IfOk};
ghost use Rattle.profile.specs.Condition.{Meets};
ghost use Rattle.widths.specs.Counts.{most_by};
ghost use Rattle.widths.specs.Parts.{ArePatterns};

use crate::narrowing::patterns::{Pattern, one, power_of_two, turns};
use profile::{Cond, Op};
use std::alloc::{AllocError, Global};

fn greater(alloc: Global, bits: u32, value: u64) -> Result<Vec<Pattern>, AllocError>
    requires { bits ≤ 32 }
    ensures { IfOk result (λ list. ArePatterns bits (max 1 bits) (λ w. value < w) list.items) }
{
    if value < power_of_two(bits) {
        return turns(alloc, bits, value, true, false);
    }
    Ok(Vec::new(alloc))
}

fn lesser(alloc: Global, bits: u32, value: u64) -> Result<Vec<Pattern>, AllocError>
    requires { bits ≤ 32 }
    ensures { IfOk result (λ list. ArePatterns bits (max 1 bits) (λ w. w < value) list.items) }
{
    if value < power_of_two(bits) {
        return turns(alloc, bits, value, false, true);
    }
    one(alloc, 0, 0)
}

fn unlike(alloc: Global, bits: u32, value: u64) -> Result<Vec<Pattern>, AllocError>
    requires { bits ≤ 32 }
    ensures { IfOk result (λ list. ArePatterns bits (max 1 bits) (λ w. w ≢ value) list.items) }
{
    if value < power_of_two(bits) {
        return turns(alloc, bits, value, true, true);
    }
    one(alloc, 0, 0)
}

fn equal(alloc: Global, bits: u32, value: u64) -> Result<Vec<Pattern>, AllocError>
    requires { bits ≤ 32 }
    ensures { IfOk result (λ list. ArePatterns bits 1 (λ w. w ≡ value) list.items) }
{
    let limit = power_of_two(bits);
    if value < limit {
        return one(alloc, limit - 1, value);
    }
    Ok(Vec::new(alloc))
}

fn masked(alloc: Global, bits: u32, mask: u64, datum: u64) -> Result<Vec<Pattern>, AllocError>
    requires { bits ≤ 32 }
    ensures { IfOk result (λ list. ArePatterns bits 1 (λ w. bit_and w mask ≡ datum) list.items) }
{
    let limit = power_of_two(bits);
    if datum < limit {
        return one(alloc, mask % limit, datum);
    }
    Ok(Vec::new(alloc))
}

fn at_least(alloc: Global, bits: u32, value: u64) -> Result<Vec<Pattern>, AllocError>
    requires { bits ≤ 32 }
    ensures { IfOk result (λ list. ArePatterns bits (max 1 bits) (λ w. value ≤ w) list.items) }
{
    if value == 0 {
        return one(alloc, 0, 0);
    }
    greater(alloc, bits, value - 1)
}

fn at_most(alloc: Global, bits: u32, value: u64) -> Result<Vec<Pattern>, AllocError>
    requires { bits ≤ 32 }
    ensures { IfOk result (λ list. ArePatterns bits (max 1 bits) (λ w. w ≤ value) list.items) }
{
    if value < power_of_two(bits) {
        return lesser(alloc, bits, value + 1);
    }
    one(alloc, 0, 0)
}

/// The patterns of the numbers whose lowest bits meet a condition.
pub(crate) fn patterns(alloc: Global, cond: &Cond, bits: u32) -> Result<Vec<Pattern>, AllocError>
    requires { bits ≤ 32 }
    ensures { IfOk result (λ list. ArePatterns bits (most_by bits cond.now.op) (Meets cond.now) list.items) }
{
    match cond.op {
        Op::Ne => unlike(alloc, bits, cond.value),
        Op::Lt => lesser(alloc, bits, cond.value),
        Op::Le => at_most(alloc, bits, cond.value),
        Op::Eq => equal(alloc, bits, cond.value),
        Op::Ge => at_least(alloc, bits, cond.value),
        Op::Gt => greater(alloc, bits, cond.value),
        Op::MaskedEq => masked(alloc, bits, cond.value, cond.datum),
    }
}
