//! The profile that allows calls alone.
ghost use Rattle.std.specs.Prelude.{◌≡◌, ◌∷◌, [], IfOk, IfSome};
ghost use Rattle.profile.specs.Policy.{IsProfile};
ghost use Rattle.allow_groups.specs.Allowing as spec;

use crate::calls::MachineCall;
use arrayvec::ArrayVec;
use call_record::Word;
use profile::{Cond, Profile, Rule};
use std::alloc::{AllocError, Global};

// No conditions.
fn no_conditions() -> ArrayVec<Cond, 6>
    ensures { result.items ≡ [] }
{
    ArrayVec::new()
}

// The rule that allows a call whatever its arguments.
fn rule_of(call: &MachineCall) -> Option<Rule>
    ensures call { IfSome result (λ rule. spec.call_of rule ≡ call.now) }
    ensures allows { IfSome result spec.AllowsAll }
{
    match Rule::new(call.arch, call.nr, no_conditions(), Word::ALLOW) {
        Some(rule) => Some(rule),
        None => None,
    }
}

// The rule that allows a call whatever its arguments. Each call has one.
fn allowed(call: &MachineCall) -> Result<Rule, AllocError>
    ensures call { IfOk result (λ rule. spec.call_of rule ≡ call.now) }
    ensures allows { IfOk result spec.AllowsAll }
{
    match rule_of(call) {
        Some(rule) => Ok(rule),
        None => Err(AllocError),
    }
}

// A rule for each of these calls.
fn rules_of(alloc: Global, calls: &[MachineCall]) -> Result<Vec<Rule>, AllocError>
    ensures { IfOk result (λ rules. spec.AreRulesOf calls.now rules.items) }
{
    let mut rules = Vec::new(alloc);
    for call in calls {
        let rule = allowed(call)?;
        rules.push(rule)?;
    }
    Ok(rules)
}

/// The profile for the machines of another one that allows these calls, and ends the process at each other one.
pub(crate) fn allowing(
    alloc: Global,
    profile: &Profile,
    calls: &[MachineCall],
) -> Result<Profile, AllocError>
    ensures { IfOk result (spec.IsAllowing profile.now calls.now) }
{
    let rules = rules_of(alloc, calls)?;
    let machines = profile.machines();
    match Profile::build(alloc, profile.native(), machines, Word::KILL_PROCESS, rules) {
        Ok(allowing) => Ok(allowing),
        Err(_) => Err(AllocError),
    }
}
