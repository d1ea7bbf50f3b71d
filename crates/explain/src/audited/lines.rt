//! The rules of a bundle for a call, told whatever the arguments.
ghost use Rattle.std.specs.Prelude.{◌≡◌, ◌+◌, ◌++◌, ◌∷◌, List, codes, IfOk, Some, None, string_bytes};
ghost use Rattle.std.specs.List.{list_any};
ghost use Rattle.machines.specs.Numbers.{has_call};
ghost use Rattle.wording.specs.Phrases as phrases;
ghost use Rattle.profile.specs.declared.rules.Rule.{Rule as TheRule};
ghost use Rattle.explain.specs.Any as spec;

use call_tables::call_name;
use machines::{Arch, Family};
use profile::{Cond, Profile, Rule, are_for};
use profile_json::EntryRules;
use std::alloc::AllocError;
use std::fmt::Write;
use wording::{ActionText, ConditionText, entry_at, machine_with};

// Adds the line of a machine's call.
fn put_call(text: &mut String, arch: Arch, nr: u32) -> Result<(), AllocError>
    ensures { IfOk result (λ _. string_bytes text.new ≡ string_bytes text.old ++ phrases.call_on (Some arch) 0 nr) }
{
    let machine = arch.machine_name();
    match call_name(arch, nr) {
        Some(name) => writeln!(text, "call {name}, number {nr} of {machine}"),
        None => writeln!(text, "call {nr} of {machine}"),
    }
}

/// Adds the line of a call, by its machine's token.
pub(crate) fn put_number(
    text: &mut String,
    family: Family,
    token: u32,
    nr: u32,
) -> Result<(), AllocError>
    ensures { IfOk result (λ _. string_bytes text.new ≡ string_bytes text.old ++ phrases.call_on (phrases.machine_with family token nr) token nr) }
{
    match machine_with(family, token, nr) {
        Some(arch) => put_call(text, arch, nr),
        None => writeln!(text, "call {nr} of 0x{token:x}"),
    }
}

// Adds conditions behind the first, each behind `and`.
fn put_more(text: &mut String, conds: &[Cond]) -> Result<(), AllocError>
    ensures { IfOk result (λ _. string_bytes text.new ≡ string_bytes text.old ++ spec.conditions_text (codes "and") conds.now) }
{
    for cond in conds {
        let told = ConditionText(cond);
        write!(text, " and {told}")?;
    }
    Ok(())
}

// Adds conditions, the first behind `if` and the others behind `and`.
fn put_conditions(text: &mut String, conds: &[Cond]) -> Result<(), AllocError>
    ensures { IfOk result (λ _. string_bytes text.new ≡ string_bytes text.old ++ spec.conditions_text (codes "if") conds.now) }
{
    match conds {
        [] => Ok(()),
        [first, more @ ..] => {
            let told = ConditionText(first);
            write!(text, " if {told}")?;
            put_more(text, more)
        }
    }
}

// Adds the line of a rule of an entry.
fn put_rule(text: &mut String, entry: usize, rule: &Rule) -> Result<(), AllocError>
    ensures { IfOk result (λ _. string_bytes text.new ≡ string_bytes text.old ++ spec.rule_line entry rule.now) }
{
    let action = ActionText(rule.word);
    write!(text, "entry {entry} {action}")?;
    put_conditions(text, rule.conds.as_slice())?;
    text.push_str("\n")
}

/// Whether a rule is for a call.
pub(crate) fn is_of(rule: &Rule, token: u32, nr: u32) -> bool
    ensures { result ≡ spec.is_of rule.now token nr }
{
    if rule.arch.token() != token {
        return false;
    }
    rule.nr == nr
}

// Adds the line of the rule at a place, if it is for a call and its entry was not the last one told. Returns the entry that is the last one
// then.
fn put_if_of(
    text: &mut String,
    all: &EntryRules,
    last: Option<usize>,
    place: usize,
    rule: &Rule,
    token: u32,
    nr: u32,
) -> Result<Option<usize>, AllocError>
    ensures { (more : List TheRule) → IfOk result (λ now. string_bytes text.new
        ++ spec.lines_from now (place + 1) more all.now.ends.items token nr
        ≡ string_bytes text.old ++ spec.lines_from last place (rule.now ∷ more) all.now.ends.items token nr) }
{
    let entry = entry_at(all, place);
    if is_of(rule, token, nr) && last != Some(entry) {
        put_rule(text, entry, rule)?;
        return Ok(Some(entry));
    }
    Ok(last)
}

// Adds the lines of the entries that have a rule for a call.
fn put_rules(text: &mut String, all: &EntryRules, token: u32, nr: u32) -> Result<(), AllocError>
    ensures { IfOk result (λ _. string_bytes text.new ≡ string_bytes text.old
        ++ spec.lines_from None 0 all.now.rules.items all.now.ends.items token nr) }
{
    let mut last = None;
    for (place, rule) in all.rules.as_slice().iter().enumerate() {
        last = put_if_of(text, all, last, place, rule, token, nr)?;
    }
    Ok(())
}

// Adds the line of the default.
fn put_default(text: &mut String, profile: &Profile) -> Result<(), AllocError>
    ensures { IfOk result (λ _. string_bytes text.new ≡ string_bytes text.old ++ spec.default_line profile.now) }
{
    let action = ActionText(profile.default_word());
    writeln!(text, "default {action}")
}

/// Whether a call is one of the profile's machines.
pub(crate) fn is_native(profile: &Profile, token: u32, nr: u32) -> bool
    ensures { result ≡ list_any (has_call token nr) profile.now.machines }
{
    are_for(profile.machines(), token, nr)
}

/// Adds the rules for a call and the default, or that it is no call of the profile's machines.
pub(crate) fn put_said(
    text: &mut String,
    profile: &Profile,
    all: &EntryRules,
    token: u32,
    nr: u32,
) -> Result<(), AllocError>
    ensures { IfOk result (λ _. string_bytes text.new ≡ string_bytes text.old
        ++ spec.said_lines profile.now all.now.rules.items all.now.ends.items token nr) }
{
    if !is_native(profile, token, nr) {
        return text.push_str("foreign KILL_THREAD\n");
    }
    put_rules(text, all, token, nr)?;
    put_default(text, profile)
}
