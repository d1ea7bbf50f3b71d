//! What rules weigh.
ghost use Rattle.std.specs.Prelude.{◌≡◌, slice_get};
ghost use Rattle.cert_work.specs.Work as work;
ghost use Rattle.cert_work.specs.Work.{Pays};

use profile::Rule;

// What a rule weighs: 1, and 1 for each of its conditions.
fn weight(rule: &Rule) -> u64
    ensures { result ≡ work.weight rule.now }
{
    1 + rule.conds.len() as u64
}

/// The weight of the rule at a place, or 1 where no rule is.
pub(crate) fn weight_at(rules: &[Rule], place: u32) -> u64
    ensures { result ≡ work.weight_at (slice_get rules.now place) }
{
    match rules.get(place as usize) {
        Some(rule) => weight(rule),
        None => 1,
    }
}

// The weight of a rule whose number lies between two numbers.
fn weight_between(rule: &Rule, range: (u32, u32)) -> u64
    ensures { result ≡ work.weight_between range.0 range.1 rule.now }
{
    if range.0 <= rule.nr && rule.nr <= range.1 {
        weight(rule)
    } else {
        0
    }
}

/// Pays for the rules whose numbers lie between two numbers.
pub(crate) fn pay_between(rules: &[Rule], range: (u32, u32), budget: u64) -> Option<u64>
    ensures { Pays budget (work.weights_between range.0 range.1 rules.now) result }
{
    let mut left = budget;
    for rule in rules {
        let Some(rest) = left.checked_sub(weight_between(rule, range)) else {
            return None;
        };
        left = rest;
    }
    Some(left)
}
