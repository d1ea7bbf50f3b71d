//! Rules whose conditions compare with numbers that their arguments cannot have.
ghost use Rattle.std.specs.Prelude.{◌≡◌, ◌↔◌, ◌<◌, ◌≤◌, true, IsTrue, IfOk, IfSome, None};
ghost use Rattle.std.specs.List.{AllZip};
ghost use Rattle.machines.specs.Arch.{token_of};
ghost use Rattle.widths.specs.Lowered as spec;

use crate::arguments::{is_all_read, read_bits};
use crate::narrowing::parts::WIDEST;
use crate::narrowing::patterns::power_of_two;
use crate::narrowing::suiting::Plan;
use arrayvec::ArrayVec;
use profile::{Cond, Op, Rule};
use std::alloc::AllocError;

// What an argument, or what stands under the mask, is compared with.
fn number_of(cond: &Cond) -> u64
    ensures { result ≡ spec.number_of cond.now.op cond.now.value cond.now.datum }
{
    match cond.op {
        Op::MaskedEq => cond.datum,
        Op::Ne => cond.value,
        Op::Lt => cond.value,
        Op::Le => cond.value,
        Op::Eq => cond.value,
        Op::Ge => cond.value,
        Op::Gt => cond.value,
    }
}

/// Whether an argument of so many bits can have the number with which a condition compares it.
pub fn fits_in(cond: &Cond, bits: u32) -> bool
    ensures fits { IsTrue result ↔ spec.FitsIn bits cond.now }
    ensures wide { 64 ≤ bits → IsTrue result }
{
    let number = number_of(cond);
    if bits >= 64 {
        return true;
    }
    number < power_of_two(bits)
}

// Whether the argument of a call can have that number.
fn fits(token: u32, nr: u32, cond: &Cond) -> bool
    ensures { IsTrue result ↔ spec.Fits token nr cond.now }
{
    fits_in(cond, read_bits(token, nr, cond.index as usize))
}

// Whether the arguments of a rule's call can have all its numbers.
fn rule_fits(rule: &Rule) -> bool
    ensures { IsTrue result ↔ spec.RuleFits rule.now }
{
    let token = rule.arch.token();
    rule.conds
        .as_slice()
        .iter()
        .all(|cond| fits(token, rule.nr, cond))
}

fn is_order(op: Op) -> bool
    ensures { result ≡ spec.is_order op }
{
    match op {
        Op::Lt => true,
        Op::Le => true,
        Op::Ge => true,
        Op::Gt => true,
        Op::Eq => false,
        Op::Ne => false,
        Op::MaskedEq => false,
    }
}

/// The condition with the lowest bits alone of its numbers; of an order there is none.
pub fn cut_to(cond: &Cond, bits: u32) -> Option<Cond>
    requires { bits < 64 }
    ensures cut { IfSome result (spec.IsCutTo bits cond.now) }
    ensures none { result ≡ None → spec.is_order cond.now.op ≡ true }
{
    if is_order(cond.op) {
        return None;
    }
    let limit = power_of_two(bits);
    Cond::new(cond.index, cond.op, cond.value % limit, cond.datum % limit)
}

// The condition that stands for one of a call, where its machine's arguments are cut, or may be left.
fn stand_in(token: u32, nr: u32, is_cut: bool, cond: &Cond) -> Option<Cond>
    ensures stands { IfSome result (λ lower. spec.StandsFor token nr lower cond.now) }
    ensures none { result ≡ None → spec.IsUnfitOrder token nr cond.now }
{
    let bits = read_bits(token, nr, cond.index as usize);
    if fits_in(cond, bits) {
        return Some(*cond);
    }
    if !is_cut && is_all_read(token, nr, cond.index as usize) {
        return Some(*cond);
    }
    cut_to(cond, bits)
}

// A condition for each that stands for one of a rule, unless one of them has none.
fn stand_ins(rule: &Rule, plan: &Plan) -> Option<ArrayVec<Cond, 6>>
    ensures none { result ≡ None → spec.HasUnfitOrder rule.now }
    ensures stand { IfSome result (λ lower. AllZip (spec.StandsFor (token_of rule.now.arch) rule.now.nr) lower.items rule.now.conds.items) }
{
    let token = rule.arch.token();
    let mut lower = ArrayVec::new();
    for cond in rule.conds.as_slice() {
        let is_cut = plan[cond.index as usize] <= WIDEST;
        let Some(stand_in) = stand_in(token, rule.nr, is_cut, cond) else {
            return None;
        };
        lower.push(stand_in);
    }
    Some(lower)
}

/// The lowered rule, where arguments are cut so, unless it has an order with a number that does not fit.
pub fn lowered_rule(rule: &Rule, plan: &Plan) -> Result<Option<Rule>, AllocError>
    ensures lowered { IfOk result (λ found. IfSome found (λ lower. spec.IsLowered lower rule.now)) }
    ensures none { IfOk result (λ found. found ≡ None → spec.HasUnfitOrder rule.now) }
{
    if rule_fits(rule) {
        return Ok(Some(rule.clone()?));
    }
    match stand_ins(rule, plan) {
        Some(conds) => Ok(Rule::new(rule.arch, rule.nr, conds, rule.word)),
        None => Ok(None),
    }
}

/// Where the arguments can have all numbers, the lowered rules are the rules.
pub fn fitting_stay()
    ensures { spec.FittingStay }
{}
