//! Conditions that were added, as those of a profile.
ghost use Rattle.std.specs.Prelude.{◌≡◌, ◌<◌, ◌≤◌, IfSome, IfNone, map, length, false};
ghost use Rattle.std.specs.List.{Any, Contains};
ghost use Rattle.profile.specs.Operator.{are_distinct};
ghost use Rattle.filter_c.specs.Parts.{added_condition, added_rule, kept_condition, kept_rule, operator_with};
ghost use Rattle.filter_c.specs.Refusal.{IsNoCondition, IsNoRule};

use crate::added::given::{AddedCondition, AddedRule};
use crate::added::machine::machine_with;
use arrayvec::ArrayVec;
use call_record::Word;
use profile::{Cond, Op, Rule};

// The operator with this number.
#[tactic(auto, unfolding(crate::specs::Parts::operator_with))]
fn operator_with(number: u32) -> Option<Op>
    ensures { result ≡ operator_with number }
{
    match number {
        1 => Some(Op::Ne),
        2 => Some(Op::Lt),
        3 => Some(Op::Le),
        4 => Some(Op::Eq),
        5 => Some(Op::Ge),
        6 => Some(Op::Gt),
        7 => Some(Op::MaskedEq),
        _ => None,
    }
}

// The condition of these parts, if they are one.
fn condition_of(given: AddedCondition) -> Option<Cond>
    ensures some { IfSome result (λ cond. kept_condition cond ≡ added_condition given) }
    ensures none { IfNone result (IsNoCondition given) }
{
    let Some(op) = operator_with(given.operator) else {
        return None;
    };
    if given.argument > 5 {
        return None;
    }
    Cond::new(given.argument as u8, op, given.value, given.datum)
}

// The conditions of these parts, if each is one.
fn conditions_of(given: &[AddedCondition]) -> Option<ArrayVec<Cond, 6>>
    requires { length given.now ≤ 6 }
    ensures some { IfSome result (λ conds. map kept_condition conds.items ≡ map added_condition given.now) }
    ensures none { IfNone result (Any IsNoCondition given.now) }
{
    let mut conds = ArrayVec::new();
    for part in given {
        let Some(cond) = condition_of(*part) else {
            return None;
        };
        conds.push(cond);
    }
    Some(conds)
}

/// The rule of these parts, if they are one.
pub(crate) fn rule_of(given: AddedRule) -> Option<Rule>
    ensures some { IfSome result (λ rule. kept_rule rule ≡ added_rule given) }
    ensures none { IfNone result (IsNoRule given) }
{
    let Some(arch) = machine_with(given.machine) else {
        return None;
    };
    if given.count > 6 {
        return None;
    }
    let Some(conds) = conditions_of(&given.conditions[..given.count as usize]) else {
        return None;
    };
    Rule::new(arch, given.number, conds, Word(given.action))
}
