//! Whether one number meets two conditions.
ghost use Rattle.std.specs.Prelude.{◌≡◌, ◌+◌, ◌↔◌, IsTrue, false, bit_or};
ghost use Rattle.profile.specs.Operator.{mask_of};
ghost use Rattle.profile.specs.inner.Meeting as spec;
ghost use Rattle.profile.specs.inner.Meeting.{HaveCommon, BothMeet, least_of, greatest_of};

use crate::conditions::{Cond, Op};

/// The greatest number that may be compared of an argument.
const fn greatest(narrow: bool) -> u64
    ensures { result ≡ spec.greatest narrow }
{
    if narrow { 0xffff_ffff } else { u64::MAX }
}

/// Whether one number that may be compared meets both conditions.
///
/// Only one number meets an equation. Any other condition that holds of a number holds of all below
/// it with the same bits under the mask, or of all above. So if some number meets both, one of these does: the
/// least or the greatest with the bits of both, a number that the conditions compare with, or the one after it.
pub(crate) fn meet(narrow: bool, a: &Cond, b: &Cond) -> bool
    ensures { IsTrue result ↔ HaveCommon narrow a.now b.now }
{
    if a.op == Op::Eq {
        return both_meet(narrow, a, b, a.value);
    }
    if b.op == Op::Eq {
        return both_meet(narrow, a, b, b.value);
    }
    if meet_at_an_end(narrow, a, b, a.op.mask(a.value) | b.op.mask(b.value)) {
        return true;
    }
    if meet_near(narrow, a, b, a.value) {
        return true;
    }
    meet_near(narrow, a, b, b.value)
}

// Whether the least or the greatest number with the bits of both meets both.
fn meet_at_an_end(narrow: bool, a: &Cond, b: &Cond, mask: u64) -> bool
    requires { mask ≡ bit_or (mask_of a.now.op a.now.value) (mask_of b.now.op b.now.value) }
    ensures found { IsTrue result → HaveCommon narrow a.now b.now }
    ensures least { result ≡ false → ¬ BothMeet narrow a.now b.now (least_of a.now b.now) }
    ensures greatest { result ≡ false → ¬ BothMeet narrow a.now b.now (greatest_of narrow a.now b.now) }
{
    let least = a.datum | b.datum;
    if both_meet(narrow, a, b, least) {
        return true;
    }
    both_meet(narrow, a, b, least | greatest(narrow) & !mask)
}

// Whether the number or the one after it meets both.
fn meet_near(narrow: bool, a: &Cond, b: &Cond, number: u64) -> bool
    ensures found { IsTrue result → HaveCommon narrow a.now b.now }
    ensures here { result ≡ false → ¬ BothMeet narrow a.now b.now number }
    ensures after { result ≡ false → ¬ BothMeet narrow a.now b.now (number + 1) }
{
    if both_meet(narrow, a, b, number) {
        return true;
    }
    if number == u64::MAX {
        return false;
    }
    both_meet(narrow, a, b, number + 1)
}

fn both_meet(narrow: bool, a: &Cond, b: &Cond, number: u64) -> bool
    ensures found { IsTrue result → HaveCommon narrow a.now b.now }
    ensures holds { IsTrue result ↔ BothMeet narrow a.now b.now number }
{
    if number > greatest(narrow) {
        return false;
    }
    if !a.holds(number) {
        return false;
    }
    b.holds(number)
}
