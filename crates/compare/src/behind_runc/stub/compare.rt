//! How numbers compare, all at once.
ghost use Rattle.std.specs.Prelude.{◌≡◌, ◌≤◌, ◌<◌, ℕ, MatchOption, min};
ghost use Rattle.bpf_insn.specs.Machine.{holds};
ghost use Rattle.bpf_insn.specs.declared.code.Test.TheVariants.{Equal, Greater, AtLeast, AnyBit};
ghost use Rattle.machines.specs.Numbers.{IsWithin};
ghost use Rattle.compare.specs.inner.Path.{IsPart};

use bpf_insn::Test;
use machines::{LEAST_X32_NUMBER, Numbers};

// Keeps no number above this one.
fn cap(numbers: &mut Numbers, most: u32)
    requires some { numbers.old.first ≤ numbers.old.last }
    requires within { numbers.old.first ≤ most }
    ensures part { IsPart numbers.new numbers.old }
    ensures capped { numbers.new.last ≤ most }
{
    if most < numbers.last {
        numbers.last = most;
    }
}

// Whether the first of the numbers is this one, and so all that are kept.
fn are_equal(numbers: &mut Numbers, k: u32) -> bool
    requires { numbers.old.first ≤ numbers.old.last }
    ensures part { IsPart numbers.new numbers.old }
    ensures same { (n : ℕ) → IsWithin n numbers.new → holds Equal n k ≡ result }
{
    let first = numbers.first;
    if first == k {
        cap(numbers, first);
        return true;
    }
    if first < k {
        cap(numbers, k - 1);
    }
    false
}

// Whether the first of the numbers is greater than this one, and so all that are kept.
fn are_greater(numbers: &mut Numbers, k: u32) -> bool
    requires { numbers.old.first ≤ numbers.old.last }
    ensures part { IsPart numbers.new numbers.old }
    ensures same { (n : ℕ) → IsWithin n numbers.new → holds Greater n k ≡ result }
{
    if numbers.first > k {
        return true;
    }
    cap(numbers, k);
    false
}

// Whether the first of the numbers is at least this one, and so all that are kept.
fn are_at_least(numbers: &mut Numbers, k: u32) -> bool
    requires { numbers.old.first ≤ numbers.old.last }
    ensures part { IsPart numbers.new numbers.old }
    ensures same { (n : ℕ) → IsWithin n numbers.new → holds AtLeast n k ≡ result }
{
    if numbers.first >= k {
        return true;
    }
    cap(numbers, k - 1);
    false
}

// Whether the first of the numbers has the bit of x32 calls, and so all that are kept.
fn have_x32_bit(numbers: &mut Numbers) -> bool
    requires { numbers.old.first ≤ numbers.old.last }
    ensures part { IsPart numbers.new numbers.old }
    ensures same { (n : ℕ) → IsWithin n numbers.new → holds AnyBit n 0x40000000 ≡ result }
{
    let quarter = numbers.first / LEAST_X32_NUMBER;
    cap(numbers, quarter * LEAST_X32_NUMBER + (LEAST_X32_NUMBER - 1));
    quarter % 2 == 1
}

/// How a comparison comes out for the first of the numbers. Of the others those are kept, up to the first for which it comes out
/// otherwise. A test of bits is told for the bit of x32 calls alone.
pub(crate) fn compare(test: Test, numbers: &mut Numbers, k: u32) -> Option<bool>
    requires { numbers.old.first ≤ numbers.old.last }
    ensures part { IsPart numbers.new numbers.old }
    ensures same { MatchOption result
        (Unit {0})
        (λ out. (n : ℕ) → IsWithin n numbers.new → holds test n k ≡ out) }
{
    match test {
        Test::Equal => Some(are_equal(numbers, k)),
        Test::Greater => Some(are_greater(numbers, k)),
        Test::AtLeast => Some(are_at_least(numbers, k)),
        Test::AnyBit => {
            if k == LEAST_X32_NUMBER {
                Some(have_x32_bit(numbers))
            } else {
                None
            }
        }
    }
}
