//! In how many ways the arguments of a call are answered.
ghost use Rattle.std.specs.Prelude.{◌≡◌, ◌==◌, ◌*◌, ◌+◌, ◌≤◌, ◌<◌, ◌&&◌, not, true, filter, length, IfOk, if◌then◌else◌};
ghost use Rattle.std.specs.List.{list_any};
ghost use Rattle.differ.specs.OnCall.{AreCrowded, all_rules, comparisons, has_bit, is_masked, masks, rules_for, ways_by_masks, ways_on};

use crate::opened::{Open, conditions_at};
use profile::{Cond, Op, Profile};
use std::alloc::{AllocError, Global};

/// How many combinations are looked at.
pub const MOST_COMBINATIONS: usize = 1_048_576;

/// How many ways, each with all rules, are walked through, however long that takes.
pub const MOST_WAYS: usize = 4_194_304;

fn is_masked(op: Op) -> bool
    ensures { result ≡ is_masked op }
{
    match op {
        Op::Ne => false,
        Op::Lt => false,
        Op::Le => false,
        Op::Eq => false,
        Op::Ge => false,
        Op::Gt => false,
        Op::MaskedEq => true,
    }
}

fn has_bit(cond: &Cond, place: u32) -> bool
    requires { place < 64 }
    ensures { result ≡ has_bit place cond.now }
{
    is_masked(cond.op) && cond.value >> place & 1 == 1
}

fn have_bit(conds: &[Cond], place: u32) -> bool
    requires { place < 64 }
    ensures { result ≡ list_any (has_bit place) conds.now }
{
    conds.iter().any(|cond| has_bit(cond, place))
}

fn factor(is_asked: bool) -> usize
    ensures { result ≡ (if is_asked then 2 else 1) }
{
    if is_asked { 2 } else { 1 }
}

// At most the ways by masks.
fn ways_by_masks(conds: &[Cond]) -> usize
    ensures { result ≤ ways_by_masks conds.now 64 }
{
    let mut ways: usize = 1;
    for place in 0..64 {
        ways = ways.saturating_mul(factor(have_bit(conds, place)));
    }
    ways
}

// At most so many conditions compare a number with another.
fn comparisons(conds: &[Cond]) -> usize
    ensures { result ≤ comparisons conds.now }
{
    let mut count: usize = 0;
    for cond in conds {
        if !is_masked(cond.op) {
            count += 1;
        }
    }
    count
}

// At most so many conditions are under a mask.
fn masks(conds: &[Cond]) -> usize
    ensures { result ≤ masks conds.now }
{
    let mut count: usize = 0;
    for cond in conds {
        if is_masked(cond.op) {
            count += 1;
        }
    }
    count
}

// At most the ways of one argument.
fn ways_on(conds: &[Cond]) -> usize
    ensures { result ≤ ways_on conds.now }
{
    let compared = comparisons(conds).saturating_mul(64).saturating_add(1);
    let masked = masks(conds).saturating_add(1);
    compared.saturating_mul(masked.saturating_mul(ways_by_masks(conds)))
}

// At most as many rules as two profiles have.
fn all_rules(first: &Profile, second: &Profile) -> usize
    ensures { result ≤ all_rules first.now second.now }
{
    first.rules().len().saturating_add(second.rules().len())
}

/// Whether the arguments of a call are answered in more ways than are walked through without a limit.
pub(crate) fn are_crowded(
    alloc: Global,
    first: &Profile,
    second: &Profile,
    held: &Open,
    token: u32,
    nr: u32,
) -> Result<bool, AllocError>
    requires first { held.now.first.items ≡ rules_for token nr first.now.rules }
    requires second { held.now.second.items ≡ rules_for token nr second.now.rules }
    ensures { IfOk result (λ crowded. crowded ≡ true → AreCrowded first.now second.now token nr) }
{
    let mut ways: usize = 1;
    for index in 0..6 {
        let conds = conditions_at(alloc, held, index)?;
        ways = ways_on(&conds).saturating_mul(ways);
    }
    let all = ways.saturating_mul(all_rules(first, second));
    Ok(all > MOST_WAYS)
}
