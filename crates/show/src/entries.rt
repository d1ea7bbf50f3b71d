//! What a bundle means, a line an entry.
ghost use Rattle.std.specs.Prelude.{◌≡◌, ◌++◌, ◌-◌, ◌∷◌, ℕ, List, [], IfOk, codes, drop, string_bytes, take};
ghost use Rattle.std.specs.List.{flat_map};
ghost use Rattle.machines.specs.Arch.{machine_name};
ghost use Rattle.profile.specs.declared.rules.Rule.{Rule as TheRule};
ghost use Rattle.wording.specs.Phrases.{condition_text};
ghost use Rattle.show.specs.Read as spec;

use call_record::Word;
use call_tables::call_name;
use machines::Arch;
use profile::{Cond, Profile, Rule};
use profile_json::EntryRules;
use std::alloc::AllocError;
use std::fmt::Write;
use wording::{ActionText, ConditionText};

// Adds the names of machines, each behind a space.
fn put_machine_names(text: &mut String, machines: &[Arch]) -> Result<(), AllocError>
    ensures { IfOk result (λ _. string_bytes text.new
        ≡ string_bytes text.old ++ flat_map (λ arch. codes " " ++ machine_name arch) machines.now) }
{
    for arch in machines {
        let machine = arch.machine_name();
        write!(text, " {machine}")?;
    }
    Ok(())
}

// Adds the line of the machines that a bundle is for.
fn put_machines(text: &mut String, machines: &[Arch]) -> Result<(), AllocError>
    ensures { IfOk result (λ _. string_bytes text.new ≡ string_bytes text.old ++ spec.machines_line machines.now) }
{
    text.push_str("machines")?;
    put_machine_names(text, machines)?;
    text.push_str("\n")
}

// Adds the line of what is said of calls that no entry matches.
fn put_default(text: &mut String, word: Word) -> Result<(), AllocError>
    ensures { IfOk result (λ _. string_bytes text.new ≡ string_bytes text.old ++ spec.default_line word) }
{
    let action = ActionText(word);
    writeln!(text, "default {action}")
}

// The name of a rule's call.
fn name_of(rule: &Rule) -> &'static str
    ensures { result.now ≡ spec.name_of rule.now }
{
    match call_name(rule.arch, rule.nr) {
        Some(name) => name,
        None => "",
    }
}

// Adds the name of a rule's call, unless it is the one that was added last. Returns the name that is the last one then.
fn put_name(text: &mut String, last: &'static str, rule: &Rule) -> Result<&'static str, AllocError>
    ensures { (more : List TheRule) → IfOk result (λ now. string_bytes text.new ++ spec.names_behind now.now more
        ≡ string_bytes text.old ++ spec.names_behind last.now (rule.now ∷ more)) }
{
    let name = name_of(rule);
    if name == last {
        return Ok(last);
    }
    write!(text, " {name}")?;
    Ok(name)
}

// Adds the names of an entry's calls, each once where its rules follow one another.
fn put_names(text: &mut String, rules: &[Rule]) -> Result<(), AllocError>
    ensures { IfOk result (λ _. string_bytes text.new ≡ string_bytes text.old ++ spec.names_behind [] rules.now) }
{
    let mut last = "";
    for rule in rules {
        last = put_name(text, last, rule)?;
    }
    Ok(())
}

// Adds conditions behind another one.
fn put_further(text: &mut String, conds: &[Cond]) -> Result<(), AllocError>
    ensures { IfOk result (λ _. string_bytes text.new
        ≡ string_bytes text.old ++ flat_map (λ c. codes " and " ++ condition_text c) conds.now) }
{
    for cond in conds {
        let condition = ConditionText(cond);
        write!(text, " and {condition}")?;
    }
    Ok(())
}

// Adds the conditions of an entry.
fn put_conditions(text: &mut String, conds: &[Cond]) -> Result<(), AllocError>
    ensures { IfOk result (λ _. string_bytes text.new ≡ string_bytes text.old ++ spec.conditions_text conds.now) }
{
    let [first, others @ ..] = conds else {
        return Ok(());
    };
    let condition = ConditionText(first);
    write!(text, " if {condition}")?;
    put_further(text, others)
}

// Adds the line of an entry with rules, by the verdict and the conditions of one of them.
fn put_rules(text: &mut String, entry: usize, one: &Rule, rules: &[Rule]) -> Result<(), AllocError>
    ensures { IfOk result (λ _. string_bytes text.new ≡ string_bytes text.old ++ spec.rules_line entry one.now rules.now) }
{
    let action = ActionText(one.word);
    write!(text, "entry {entry} {action}:")?;
    put_names(text, rules)?;
    put_conditions(text, one.conds.as_slice())?;
    text.push_str("\n")
}

// Adds the line of an entry by its rules, of which there may be none.
fn put_entry(text: &mut String, entry: usize, rules: &[Rule]) -> Result<(), AllocError>
    ensures { IfOk result (λ _. string_bytes text.new ≡ string_bytes text.old ++ spec.entry_text entry rules.now) }
{
    match rules {
        [] => writeln!(text, "entry {entry} names no call of these machines"),
        [one, ..] => put_rules(text, entry, one, rules),
    }
}

// The rules from a place up to another.
fn part_of(rules: &[Rule], start: usize, end: usize) -> &[Rule]
    ensures { result.now ≡ take (end - start) (drop start rules.now) }
{
    let from = start.min(rules.len());
    let rest = &rules[from..];
    let count = end.saturating_sub(start).min(rest.len());
    &rest[..count]
}

// Adds the line of an entry that has the rules between two places.
fn put_part(
    text: &mut String,
    entry: usize,
    rules: &[Rule],
    start: usize,
    end: usize,
) -> Result<(), AllocError>
    ensures { IfOk result (λ _. string_bytes text.new
        ≡ string_bytes text.old ++ spec.entry_text entry (take (end - start) (drop start rules.now))) }
{
    put_entry(text, entry, part_of(rules, start, end))
}

// Adds the lines of entries, of which each has the rules from the end of the one before it to its own end.
fn put_entries(text: &mut String, rules: &[Rule], ends: &[usize]) -> Result<(), AllocError>
    ensures { IfOk result (λ _. string_bytes text.new ≡ string_bytes text.old ++ spec.entries_text rules.now 0 0 ends.now) }
{
    let mut start = 0;
    for (entry, end) in ends.iter().enumerate() {
        put_part(text, entry, rules, start, *end)?;
        start = *end;
    }
    Ok(())
}

/// Adds what a bundle means: its machines, what it says of calls that no entry matches, and each entry.
pub(crate) fn put_bundle(
    text: &mut String,
    profile: &Profile,
    all: &EntryRules,
) -> Result<(), AllocError>
    ensures { IfOk result (λ _. string_bytes text.new ≡ string_bytes text.old
        ++ spec.bundle_text profile.now all.now.rules.items all.now.ends.items) }
{
    put_machines(text, profile.machines())?;
    put_default(text, profile.default_word())?;
    put_entries(text, &all.rules, all.ends.as_slice())
}
