//! Whether one record matches two rules.
ghost use Rattle.std.specs.Prelude.{◌≡◌, ◌↔◌, Bool as TheBool, IsTrue};
ghost use Rattle.profile.specs.Rule.{Overlap};
ghost use Rattle.profile.specs.inner.Meeting.{AllHaveCommon, CanOverlap, HasCommon, HaveCommon};

use crate::conditions::{Cond, Op};
use crate::meets::meet;
use crate::rules::Rule;

/// Whether some record matches both rules.
pub fn overlap(a: &Rule, b: &Rule) -> bool
    ensures { IsTrue result ↔ Overlap a.now b.now }
{
    can_overlap(a, b)
}

// Whether the rules are for one call, and on each argument the conditions of both can be met.
fn can_overlap(a: &Rule, b: &Rule) -> bool
    ensures { IsTrue result ↔ CanOverlap a.now b.now }
{
    if a.nr != b.nr {
        return false;
    }
    if a.arch.token() != b.arch.token() {
        return false;
    }
    let narrow = a.is_narrow();
    let first = a.conds.as_slice();
    let second = b.conds.as_slice();
    if ask_unlike(first, second) {
        return false;
    }
    if !all_meet(narrow, first, second) {
        return false;
    }
    if !all_meet(narrow, first, first) {
        return false;
    }
    all_meet(narrow, second, second)
}

// Whether conditions at one place ask for unlike numbers: this alone tells most rules for one call apart.
fn ask_unlike(a: &[Cond], b: &[Cond]) -> bool
    ensures { (narrow : TheBool) → IsTrue result → ¬ AllHaveCommon narrow a.now b.now }
{
    for place in 0..a.len().min(b.len()) {
        if are_unlike(&a[place], &b[place]) {
            return true;
        }
    }
    false
}

fn are_unlike(a: &Cond, b: &Cond) -> bool
    ensures { IsTrue result → (a.now.index ≡ b.now.index) × ((narrow : TheBool) → ¬ HaveCommon narrow a.now b.now) }
{
    if a.index != b.index {
        return false;
    }
    if a.op != Op::Eq {
        return false;
    }
    if b.op != Op::Eq {
        return false;
    }
    a.value != b.value
}

fn all_meet(narrow: bool, a: &[Cond], b: &[Cond]) -> bool
    ensures { IsTrue result ↔ AllHaveCommon narrow a.now b.now }
{
    a.iter().all(|c| meets_each(narrow, c, b))
}

#[tactic(auto, unfolding(crate::specs::inner::Meeting::HasCommon))]
fn meets_each(narrow: bool, cond: &Cond, others: &[Cond]) -> bool
    ensures { IsTrue result ↔ HasCommon narrow others.now cond.now }
{
    others.iter().all(|other| cond.index != other.index || meet(narrow, cond, other))
}
