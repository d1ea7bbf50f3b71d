//! The rules that entries say: one for each entry, name and listed machine that has the name.
ghost use Rattle.std.specs.Prelude.{◌≡◌, ◌++◌, map, IfOk, option_map};
ghost use Rattle.call_tables.specs.Tables.{table_of};
ghost use Rattle.call_tables.specs.Table.{number_in};
ghost use Rattle.profile_json.specs.inner.View.{entry_parts};
ghost use Rattle.profile_json.specs.Parts.{rule_parts};
ghost use Rattle.profile_json.specs.Rules as spec;
ghost use Rattle.profile_json.specs.Rules.{ends_after};

use crate::entry::Entry;
use call_tables::call_number;
use machines::Arch;
use profile::Rule;
use std::alloc::{AllocError, Global};

/// The rules of entries in order, and for each entry how many there are up to its end.
#[derive(Drop)]
pub(crate) struct Rules {
    pub(crate) list: Vec<Rule>,
    pub(crate) ends: Vec<usize>,
}

/// The rule of an entry for one call of one machine.
pub(crate) fn rule_of(entry: &Entry, arch: Arch, nr: u32) -> Rule
    ensures { rule_parts result ≡ spec.rule_of (entry_parts entry.now) arch nr }
{
    Rule::new(arch, nr, entry.conds.clone().unwrap(), entry.word).unwrap()
}

/// Adds the rules of one name, x86-64 first.
fn add_name(
    rules: &mut Vec<Rule>,
    entry: &Entry,
    name: &str,
    machines: &[Arch],
) -> Result<(), AllocError>
    ensures { IfOk result (λ _. map rule_parts rules.new.items
        ≡ map rule_parts rules.old.items ++ spec.rules_under machines.now (entry_parts entry.now) name.now) }
{
    for arch in machines {
        if let Some(nr) = call_number(*arch, name) {
            rules.push(rule_of(entry, *arch, nr))?;
        }
    }
    Ok(())
}

/// Adds the rules of one entry, name by name.
fn add_entry(rules: &mut Vec<Rule>, entry: &Entry, machines: &[Arch]) -> Result<(), AllocError>
    ensures { IfOk result (λ _. map rule_parts rules.new.items
        ≡ map rule_parts rules.old.items ++ spec.rules_of_entry machines.now (entry_parts entry.now)) }
{
    for name in &entry.names {
        add_name(rules, entry, name, machines)?;
    }
    Ok(())
}

/// The rules of the entries, entry by entry.
pub(crate) fn rules_of(
    alloc: Global,
    entries: &[Entry],
    machines: &[Arch],
) -> Result<Rules, AllocError>
    ensures said { IfOk result (λ r. map rule_parts r.list.items ≡ spec.rules_of machines.now (map entry_parts entries.now)) }
    ensures ends { IfOk result (λ r. r.ends.items ≡ ends_after 0 machines.now (map entry_parts entries.now)) }
{
    let mut list = Vec::new(alloc);
    let mut ends = Vec::new(alloc);
    for entry in entries {
        add_entry(&mut list, entry, machines)?;
        ends.push(list.len())?;
    }
    Ok(Rules { list, ends })
}
