//! The rules of a bundle, entry by entry.
ghost use Rattle.std.specs.Prelude.{◌≡◌, map, IfErr, IfOk, IfSome};
ghost use Rattle.machines.specs.Arch.{family_of};
ghost use Rattle.profile.specs.Machines.{in_order};
ghost use Rattle.profile_json.specs.Breaks.{Breaks};
ghost use Rattle.profile_json.specs.ByEntry.{AreRulesOf};
ghost use Rattle.profile_json.specs.Fault.{fault_of};
ghost use Rattle.profile_json.specs.Parts.{rule_parts};
ghost use Rattle.profile_json.specs.Rules as spec;
ghost use Rattle.profile_json.specs.Rules.{ends_after};
ghost use Rattle.profile_json.specs.inner.View.{entry_parts};

use crate::bundle::value_of;
use crate::contents::Contents;
use crate::fault::ProfileError;
use crate::place::said_of;
use crate::root::root_of;
use crate::rules::rules_of;
use machines::Arch;
use profile::{Rule, in_order};
use std::alloc::{AllocError, Global};

/// The rules that a bundle says, in the order of its entries; an equal one may stand there again.
#[derive(Drop)]
pub struct EntryRules {
    pub rules: Vec<Rule>,
    /// For each entry how many rules there are up to its end.
    pub ends: Vec<usize>,
}

impl EntryRules {
    ghost use Rattle.std.specs.Prelude.{◌≡◌, nat_lt, position};

    /// The place of the entry that has the rule at a place.
    pub fn entry_of(&self, place: usize) -> Option<usize>
        ensures { result ≡ position (λ end. nat_lt place end) self.now.ends.items }
    {
        self.ends.iter().position(|end| place < *end)
    }
}

// The rules that entries say on the listed machines.
pub(crate) fn rules_said(
    alloc: Global,
    said: &Contents,
    native: Arch,
) -> Result<EntryRules, AllocError>
    ensures rules { IfOk result (λ all. map rule_parts all.rules.items
        ≡ spec.rules_of (in_order (family_of native) said.now.archs.items) (map entry_parts said.now.entries.items)) }
    ensures ends { IfOk result (λ all. all.ends.items
        ≡ ends_after 0 (in_order (family_of native) said.now.archs.items) (map entry_parts said.now.entries.items)) }
{
    let machines = in_order(native.family(), &said.archs);
    let all = rules_of(alloc, &said.entries, machines.as_slice())?;
    Ok(EntryRules {
        rules: all.list,
        ends: all.ends,
    })
}

/// Reads the rules that the entries of a bundle say on its machines.
pub fn rules_by_entry(alloc: Global, text: &[u8], native: Arch) -> Result<EntryRules, ProfileError>
    ensures ok { IfOk result (λ all. AreRulesOf native text.now all.rules.items all.ends.items) }

    // Unless memory ran out, the fault stands in the text.
    ensures err { IfErr result (λ e. IfSome (fault_of e) (Breaks text.now native)) }
{
    let value = value_of(alloc, text, native)?;
    let seccomp = root_of(&value, native)?;
    let said = match said_of(alloc, seccomp, native) {
        Ok(said) => said,
        Err(told) => return Err(told.error),
    };
    Ok(rules_said(alloc, &said, native)?)
}
