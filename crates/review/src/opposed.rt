//! The profile that refuses just the records that are asked about: what another lets through of these, the two differ on.
ghost use Rattle.std.specs.Prelude.{◌≡◌, IfOk, IfSome, [], ◌∷◌};
ghost use Rattle.review.specs.Judged as spec;

use crate::asked::Asked;
use crate::groups::Part;
use arrayvec::ArrayVec;
use call_record::Word;
use profile::{Cond, Op, Profile, Rule};
use std::alloc::{AllocError, Global};

// The condition that a part is.
fn condition_of(part: Part) -> Option<Cond>
    ensures { IfSome result (spec.IsConditionOf part.entry) }
{
    let (_, index, mask, value) = part;
    Cond::new(index, Op::MaskedEq, mask, value)
}

// One condition as a list.
fn only(cond: Cond) -> ArrayVec<Cond, 6>
    ensures { result.items ≡ cond ∷ [] }
{
    let mut conds = ArrayVec::new();
    conds.push(cond);
    conds
}

// The rule of one condition that refuses a call.
fn rule_with(asked: &Asked, cond: Cond) -> Option<Rule>
    requires { spec.IsConditionOf asked.now.part cond }
    ensures { IfSome result (spec.IsRuleOf asked.now) }
{
    match Rule::new(asked.arch, asked.nr, only(cond), Word::KILL_THREAD) {
        Some(rule) => Some(rule),
        None => None,
    }
}

/// The rule that refuses just these records; `None` where the part is no condition.
pub(crate) fn rule_of(asked: &Asked) -> Option<Rule>
    ensures { IfSome result (spec.IsRuleOf asked.now) }
{
    match condition_of(asked.part) {
        Some(cond) => rule_with(asked, cond),
        None => None,
    }
}

/// The profile of the rule that refuses them.
pub(crate) fn opposed(alloc: Global, asked: &Asked, rule: &Rule) -> Result<Profile, AllocError>
    requires { spec.IsRuleOf asked.now rule.now }
    ensures { IfOk result (λ q. spec.IsOpposedBy asked.now rule.now q) }
{
    let mut rules = Vec::new(alloc);
    rules.push(rule.clone()?)?;
    match Profile::build(alloc, asked.arch, &[asked.arch], Word::ALLOW, rules) {
        Ok(profile) => Ok(profile),
        Err(_) => Err(AllocError),
    }
}
