//! Whether one rule matches all that another matches.
ghost use Rattle.std.specs.Prelude.{◌≡◌, ◌≤◌, ◌↔◌, ℕ, List, IfSome, IsTrue};
ghost use Rattle.profile.specs.Condition.{Meets};
ghost use Rattle.engines.specs.Settled.{AreMet, Covers, IsImpliedBy, IsMet};

use profile::{Cond, Op, Rule};

// Whether two operators are the same one.
fn is_same_op(a: Op, b: Op) -> bool
    ensures { IsTrue result ↔ (a ≡ b) }
{
    a == b
}

// Whether two conditions are the same one.
fn is_same(a: &Cond, b: &Cond) -> bool
    ensures { IsTrue result → a.now ≡ b.now }
{
    if !is_same_op(a.op, b.op) {
        return false;
    }
    if a.index != b.index {
        return false;
    }
    if a.value != b.value {
        return false;
    }
    a.datum == b.datum
}

// A number that is no greater than any that meets the condition.
fn least_of(cond: &Cond) -> u64
    ensures { (u : ℕ) → Meets cond.now u → result ≤ u }
{
    match cond.op {
        Op::Eq | Op::Ge => cond.value,
        Op::Gt => cond.value.saturating_add(1),
        Op::MaskedEq => cond.datum,
        Op::Ne | Op::Lt | Op::Le => 0,
    }
}

// A number that is no less than any that meets the condition, if the condition says one.
fn greatest_of(cond: &Cond) -> Option<u64>
    ensures { IfSome result (λ greatest. (u : ℕ) → Meets cond.now u → u ≤ greatest) }
{
    match cond.op {
        Op::Eq | Op::Le => Some(cond.value),
        Op::Lt => Some(cond.value.saturating_sub(1)),
        Op::Ne | Op::Ge | Op::Gt | Op::MaskedEq => None,
    }
}

// The number that alone may meet the condition, if there is one.
fn only_of(cond: &Cond) -> Option<u64>
    ensures { IfSome result (λ only. (u : ℕ) → Meets cond.now u → u ≡ only) }
{
    let least = least_of(cond);
    match greatest_of(cond) {
        Some(greatest) if greatest == least => Some(least),
        _ => None,
    }
}

// Whether a condition holds of a number and of all that are greater.
fn holds_from(cond: &Cond, least: u64) -> bool
    ensures { IsTrue result → (u : ℕ) → least ≤ u → Meets cond.now u }
{
    match cond.op {
        Op::Ge | Op::Gt => cond.holds(least),
        _ => false,
    }
}

// Whether a condition holds of a number and of all that are less.
fn holds_to(cond: &Cond, greatest: u64) -> bool
    ensures { IsTrue result → (u : ℕ) → u ≤ greatest → Meets cond.now u }
{
    match cond.op {
        Op::Lt | Op::Le => cond.holds(greatest),
        _ => false,
    }
}

// Whether a condition that sets a limit holds of the least or of the greatest number that meets another, and so of all of them.
fn is_within(a: &Cond, b: &Cond) -> bool
    ensures { IsTrue result → IsImpliedBy a.now b.now }
{
    if holds_from(a, least_of(b)) {
        return true;
    }
    match greatest_of(b) {
        Some(greatest) => holds_to(a, greatest),
        None => false,
    }
}

// Whether a condition excludes one number, and another one excludes it, too.
fn excludes_less(a: &Cond, b: &Cond) -> bool
    ensures { IsTrue result → IsImpliedBy a.now b.now }
{
    if !is_same_op(a.op, Op::Ne) {
        return false;
    }
    !b.holds(a.value)
}

// Whether both ask for bits, the first for some of those of the second, and for the same ones there.
fn asks_fewer_bits(a: &Cond, b: &Cond) -> bool
    ensures { IsTrue result → IsImpliedBy a.now b.now }
{
    if !is_same_op(a.op, Op::MaskedEq) {
        return false;
    }
    if !is_same_op(b.op, Op::MaskedEq) {
        return false;
    }
    if b.value & a.value != a.value {
        return false;
    }
    b.datum & a.value == a.datum
}

// Whether a condition holds of each number that meets another one, which may be met by several.
fn is_met_by_all(a: &Cond, b: &Cond) -> bool
    ensures { IsTrue result → IsImpliedBy a.now b.now }
{
    if is_within(a, b) {
        return true;
    }
    if excludes_less(a, b) {
        return true;
    }
    asks_fewer_bits(a, b)
}

// Whether both are conditions on one argument, and each number that meets the second one meets the first.
fn is_weaker(a: &Cond, b: &Cond) -> bool
    ensures { IsTrue result → (a.now.index ≡ b.now.index) × IsImpliedBy a.now b.now }
{
    if a.index != b.index {
        return false;
    }
    if is_same(a, b) {
        return true;
    }
    match only_of(b) {
        Some(only) => a.holds(only),
        None => is_met_by_all(a, b),
    }
}

// Whether a record that meets all of some conditions meets one more.
fn is_implied(cond: &Cond, conds: &[Cond]) -> bool
    ensures { IsTrue result → (r : List ℕ) → AreMet r conds.now → IsMet r cond.now }
{
    for other in conds {
        if is_weaker(cond, other) {
            return true;
        }
    }
    false
}

/// Whether a record that meets all of some conditions meets all of others.
pub(crate) fn are_implied(all: &[Cond], conds: &[Cond]) -> bool
    ensures { IsTrue result → (r : List ℕ) → AreMet r conds.now → AreMet r all.now }
{
    for cond in all {
        if !is_implied(cond, conds) {
            return false;
        }
    }
    true
}

/// Whether the first of two rules matches all that the second matches. It does if each of its conditions holds of all numbers that meet one
/// of the second's.
pub(crate) fn covers(a: &Rule, b: &Rule) -> bool
    ensures { IsTrue result → Covers a.now b.now }
{
    if a.arch.token() != b.arch.token() {
        return false;
    }
    if a.nr != b.nr {
        return false;
    }
    are_implied(a.conds.as_slice(), b.conds.as_slice())
}
