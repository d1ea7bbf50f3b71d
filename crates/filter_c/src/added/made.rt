//! The profile of the rules that were added.
ghost use Rattle.std.specs.Prelude.{◌≡◌, ℕ, List, Some, None, IfOk, IfErr, IsErrOf, map, slice_get};
ghost use Rattle.filter_c.specs.declared.added.given.AddedRule.{AddedRule as TheRule};
ghost use Rattle.profile.specs.Policy.{IsClear, IsProfile};
ghost use Rattle.filter_c.specs.declared.added.fault.AddedError.TheVariants as error;
ghost use Rattle.filter_c.specs.Machine as spec;
ghost use Rattle.filter_c.specs.Parts.{added_rule, kept_rule};
ghost use Rattle.filter_c.specs.Refusal.{IsCause};
ghost use Rattle.filter_c.specs.Rules.{IsBuiltOfAdded};
ghost use Rattle.filter_c.specs.Saying.{SaysWhatWasAdded};

use crate::added::condition::rule_of;
use crate::added::fault::AddedError;
use crate::added::given::AddedRule;
use crate::added::machine::machine_with;
use call_record::Word;
use machines::Arch;
use profile::{BuildError, Profile, Rule};
use std::alloc::Global;

// The machines with these numbers.
fn machines_with(alloc: Global, numbers: &[u32]) -> Result<Vec<Arch>, AddedError>
    ensures ok { IfOk result (λ archs. map (λ a. Some a) archs.items ≡ map spec.machine_with numbers.now) }
    ensures err { (native : ℕ) (rules : List TheRule) → IfErr result (IsCause native numbers.now rules) }
{
    let mut archs = Vec::new(alloc);
    for (place, number) in numbers.iter().enumerate() {
        let Some(arch) = machine_with(*number) else {
            return Err(AddedError::NoMachine(place));
        };
        archs.push(arch)?;
    }
    Ok(archs)
}

// The rules of these parts.
fn rules_of(alloc: Global, given: &[AddedRule]) -> Result<Vec<Rule>, AddedError>
    ensures ok { IfOk result (λ rules. map kept_rule rules.items ≡ map added_rule given.now) }
    ensures err { (native : ℕ) (machines : List ℕ) → IfErr result (IsCause native machines given.now) }
{
    let mut rules = Vec::new(alloc);
    for (place, part) in given.iter().enumerate() {
        let Some(rule) = rule_of(*part) else {
            return Err(AddedError::NoRule(place));
        };
        rules.push(rule)?;
    }
    Ok(rules)
}

/// The profile for these machines, by their numbers, that says of each call record what the rules say. The native machine is
/// one of them. The causes of an error are looked for in order, and the first is reported. The order is: the native machine,
/// the machines, the rules one by one. Then come whether all their machines are listed, how many there are, and which of them
/// overlap.
pub fn profile_of(
    alloc: Global,
    native: u32,
    machines: &[u32],
    default_action: u32,
    rules: &[AddedRule],
) -> Result<Profile, AddedError>
    ensures ok { IfOk result (SaysWhatWasAdded machines.now default_action rules.now) }
    ensures clear { IfOk result (λ profile. IsClear profile.rules) }
    ensures built { IfOk result (IsBuiltOfAdded native machines.now default_action rules.now) }
    ensures err { IfErr result (IsCause native machines.now rules.now) }
    ensures native { spec.machine_with native ≡ None → IsErrOf result error.NoNative }
{
    let Some(arch) = machine_with(native) else {
        return Err(AddedError::NoNative);
    };
    let archs = match machines_with(alloc, machines) {
        Ok(archs) => archs,
        Err(error) => return Err(error),
    };
    let kept = match rules_of(alloc, rules) {
        Ok(kept) => kept,
        Err(error) => return Err(error),
    };
    match Profile::build(alloc, arch, &archs, Word(default_action), kept) {
        Ok(profile) => Ok(profile),
        Err(BuildError::NativeMissing) => Err(AddedError::NativeMissing),
        Err(BuildError::ForeignRule(place)) => Err(AddedError::ForeignRule(place)),
        Err(BuildError::TooMany) => Err(AddedError::TooMany),
        Err(BuildError::Overlap(first, second)) => Err(AddedError::Overlap(first, second)),
        Err(BuildError::OutOfMemory) => Err(AddedError::OutOfMemory),
        Err(BuildError::MixedFamilies) => unreachable!(),
    }
}
