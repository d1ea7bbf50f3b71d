//! To how many bits the arguments of a rule are cut.
ghost use Rattle.std.specs.Prelude.{◌≡◌, IsTrue, All, slice_index};
ghost use Rattle.widths.specs.Counts as counts;
ghost use Rattle.widths.specs.Parts.{IsLow};
ghost use Rattle.widths.specs.Cutting.{IsCutPlan, Suits, SuitsAt};

use crate::arguments::{cut_bits, is_all_read, read_bits};
use crate::narrowing::parts::WIDEST;
use crate::narrowing::patterns::power_of_two;
use profile::{Cond, Op, Rule};

/// To how many bits each argument is cut; above 32 it is left whole.
pub type Plan = [u32; 6];

/// An argument that is left whole.
pub const WHOLE: u32 = 64;

/// Whether a condition looks at so many of the lowest bits alone.
pub fn sees_low(cond: &Cond, bits: u32) -> bool
    ensures { IsTrue result → IsLow bits cond.now }
{
    if bits > WIDEST {
        return false;
    }
    if cond.op != Op::MaskedEq {
        return false;
    }
    cond.value < power_of_two(bits)
}

// Whether the argument of a condition of a call may be cut to so many bits.
fn suits_at(token: u32, nr: u32, bits: u32, cond: &Cond) -> bool
    ensures { IsTrue result → SuitsAt token nr bits cond.now }
{
    let read = read_bits(token, nr, cond.index as usize);
    if bits == read {
        return true;
    }
    if bits <= WIDEST {
        return false;
    }
    if is_all_read(token, nr, cond.index as usize) {
        return true;
    }
    sees_low(cond, read)
}

/// Whether the arguments of a call may be cut so under these conditions. Each is cut to what is read of it, or not at all if no condition
/// sees more.
pub fn suit_call(token: u32, nr: u32, conds: &[Cond], plan: &[u32; 6]) -> bool
    ensures { IsTrue result → All (λ c. SuitsAt token nr (slice_index plan.now c.index) c) conds.now }
{
    for cond in conds {
        if !suits_at(token, nr, plan[cond.index as usize], cond) {
            return false;
        }
    }
    true
}

/// Whether the arguments of a rule may be cut so.
pub fn suits(rule: &Rule, plan: &[u32; 6]) -> bool
    ensures { IsTrue result → Suits plan.now rule.now }
{
    suit_call(rule.arch.token(), rule.nr, rule.conds.as_slice(), plan)
}

// To how many bits each argument of a call is cut.
fn cut_plan(token: u32, nr: u32) -> [u32; 6]
    ensures cuts { IsCutPlan token nr result }
    ensures exact { result ≡ counts.cut_plan token nr }
{
    [
        cut_bits(token, nr, 0),
        cut_bits(token, nr, 1),
        cut_bits(token, nr, 2),
        cut_bits(token, nr, 3),
        cut_bits(token, nr, 4),
        cut_bits(token, nr, 5),
    ]
}

/// To how many bits each argument of a rule's call is cut: to those that are read, unless no more is compared.
pub fn own_plan(rule: &Rule) -> [u32; 6]
    ensures suits { Suits result rule.now }
    ensures exact { result ≡ counts.own_plan rule.now }
{
    cut_plan(rule.arch.token(), rule.nr)
}
