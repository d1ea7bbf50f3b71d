//! What of a bundle calls of logs do not use.
ghost use Rattle.std.specs.Prelude.{◌≡◌, ◌-◌, ◌++◌, ◌∷◌, ℕ, List, [], Option, IfOk};
ghost use Rattle.std.specs.Prelude.{codes, drop, if◌then◌else◌, is_some, map, not, string_bytes, take, unwrap_or};
ghost use Rattle.std.specs.List.{list_all, list_any};
ghost use Rattle.std.specs.Option.{option_map};
ghost use Rattle.call_tables.specs.Tables.{table_of};
ghost use Rattle.call_tables.specs.Table.{name_in};
ghost use Rattle.strace_logs.specs.Unused as spec;
ghost use Rattle.strace_logs.specs.inner.Views.{all_logged, names_now, use_now, uses_now};

use crate::logged::LogCall;
use call_tables::call_name;
use profile::Rule;
use profile_json::EntryRules;
use std::alloc::{AllocError, Global};
use std::fmt::Write;
use wording::is_match;

// Whether a rule matches a call of the logs.
fn is_used(calls: &[LogCall<'_>], rule: &Rule) -> bool
    ensures { result ≡ spec.is_used (all_logged calls.now) rule.now }
{
    for call in calls {
        if is_match(rule, &call.record) {
            return true;
        }
    }
    false
}

// The name of a rule's call.
fn name_of(rule: &Rule) -> &'static str
    ensures { result.now ≡ unwrap_or (name_in (table_of rule.now.arch) rule.now.nr) [] }
{
    match call_name(rule.arch, rule.nr) {
        Some(name) => name,
        None => "",
    }
}

// The name of a rule's call, and whether the rule matches a call of the logs.
#[derive(Clone, Copy)]
pub(crate) struct Use {
    pub(crate) name: &'static str,
    pub(crate) is_used: bool,
}

fn use_of(calls: &[LogCall<'_>], rule: &Rule) -> Use
    ensures { use_now result ≡ spec.use_of (all_logged calls.now) rule.now }
{
    Use {
        name: name_of(rule),
        is_used: is_used(calls, rule),
    }
}

// For each rule, the name of its call, and whether it matches a call of the logs.
fn uses_of(alloc: Global, calls: &[LogCall<'_>], rules: &[Rule]) -> Result<Vec<Use>, AllocError>
    ensures { IfOk result (λ uses. uses_now uses.items ≡ map (spec.use_of (all_logged calls.now)) rules.now) }
{
    let mut uses = Vec::new(alloc);
    for rule in rules {
        uses.push(use_of(calls, rule))?;
    }
    Ok(uses)
}

// Whether a rule of this name is used, of whatever machine.
fn is_name_used(uses: &[Use], name: &str) -> bool
    ensures { result ≡ spec.is_name_used (uses_now uses.now) name.now }
{
    for one in uses {
        if one.is_used && one.name == name {
            return true;
        }
    }
    false
}

// The name of a rule of an entry, if none of the entry's rules of that name is used.
fn unused_name(uses: &[Use], one: &Use) -> Option<&'static str>
    ensures { option_map (λ name. name.now) result ≡ spec.unused_name (uses_now uses.now) (use_now one.now) }
{
    if is_name_used(uses, one.name) {
        return None;
    }
    Some(one.name)
}

// The names of an entry's rules that are not used.
fn unused_names(alloc: Global, uses: &[Use]) -> Result<Vec<Option<&'static str>>, AllocError>
    ensures { IfOk result (λ names. names_now names.items ≡ spec.unused_names (uses_now uses.now)) }
{
    let mut names = Vec::new(alloc);
    for one in uses {
        names.push(unused_name(uses, one))?;
    }
    Ok(names)
}

// Adds a name, unless it is the one that was added last, and gives the name that is the last one then.
fn put_name(
    text: &mut String,
    last: &'static str,
    name: &Option<&'static str>,
) -> Result<&'static str, AllocError>
    ensures { (more : List (Option (List ℕ))) → IfOk result (λ now. string_bytes text.new ++ spec.names_behind now.now more
        ≡ string_bytes text.old ++ spec.names_behind last.now (option_map (λ one. one.now) name.now ∷ more)) }
{
    match *name {
        None => Ok(last),
        Some(name) => {
            if name == last {
                return Ok(last);
            }
            write!(text, " {name}")?;
            Ok(name)
        }
    }
}

// Adds names, each behind a space.
fn put_names(text: &mut String, names: &[Option<&'static str>]) -> Result<(), AllocError>
    ensures { IfOk result (λ _. string_bytes text.new ≡ string_bytes text.old ++ spec.names_behind [] (names_now names.now)) }
{
    let mut last = "";
    for name in names {
        last = put_name(text, last, name)?;
    }
    Ok(())
}

// Whether all rules of an entry are used.
fn are_used(names: &[Option<&'static str>]) -> bool
    ensures { result ≡ list_all (λ name. not (is_some name)) (names_now names.now) }
{
    for name in names {
        if name.is_some() {
            return false;
        }
    }
    true
}

// Whether an entry has rules, and all of them are used.
fn is_whole(names: &[Option<&'static str>]) -> bool
    ensures { result ≡ spec.is_whole (names_now names.now) }
{
    if names.is_empty() {
        return false;
    }
    are_used(names)
}

// Whether a rule of an entry is used.
fn is_part_used(names: &[Option<&'static str>]) -> bool
    ensures { result ≡ list_any (λ name. not (is_some name)) (names_now names.now) }
{
    for name in names {
        if name.is_none() {
            return true;
        }
    }
    false
}

fn what_of(is_part_used: bool) -> &'static str
    ensures { result.now ≡ (if is_part_used then codes "partly used" else codes "unused") }
{
    if is_part_used {
        "partly used"
    } else {
        "unused"
    }
}

// Adds the line of an entry, unless all of it is used.
fn put_entry(
    text: &mut String,
    entry: usize,
    names: &[Option<&'static str>],
) -> Result<(), AllocError>
    ensures { IfOk result (λ _. string_bytes text.new ≡ string_bytes text.old ++ spec.entry_text entry (names_now names.now)) }
{
    if is_whole(names) {
        return Ok(());
    }
    let what = what_of(is_part_used(names));
    write!(text, "{what} entry {entry}:")?;
    put_names(text, names)?;
    text.push_str("\n")
}

// The uses from a place up to another.
fn part_of(uses: &[Use], start: usize, end: usize) -> &[Use]
    ensures { result.now ≡ take (end - start) (drop start uses.now) }
{
    let from = start.min(uses.len());
    let rest = &uses[from..];
    let count = end.saturating_sub(start).min(rest.len());
    &rest[..count]
}

// Adds the line of an entry that has the rules between two places.
fn put_part(
    alloc: Global,
    text: &mut String,
    entry: usize,
    uses: &[Use],
    start: usize,
    end: usize,
) -> Result<(), AllocError>
    ensures { IfOk result (λ _. string_bytes text.new
        ≡ string_bytes text.old ++ spec.entry_text entry (spec.unused_names (take (end - start) (drop start (uses_now uses.now))))) }
{
    let names = unused_names(alloc, part_of(uses, start, end))?;
    put_entry(text, entry, &names)
}

// Adds the lines of entries, by where the rules of each end.
fn put_entries(
    alloc: Global,
    text: &mut String,
    uses: &[Use],
    ends: &[usize],
) -> Result<(), AllocError>
    ensures { IfOk result (λ _. string_bytes text.new ≡ string_bytes text.old ++ spec.entries_text (uses_now uses.now) 0 0 ends.now) }
{
    let mut start = 0;
    for (entry, end) in ends.iter().enumerate() {
        put_part(alloc, text, entry, uses, start, *end)?;
        start = *end;
    }
    Ok(())
}

/// Adds a line for each entry that names calls of which no rule, on any machine, matches a call of the logs: `unused entry` where
/// none of its rules does, else `partly used entry`; and these names.
pub(crate) fn put_unused(
    alloc: Global,
    text: &mut String,
    all: &EntryRules,
    calls: &[LogCall<'_>],
) -> Result<(), AllocError>
    ensures { IfOk result (λ _. string_bytes text.new ≡ string_bytes text.old
        ++ spec.unused_text all.now.rules.items all.now.ends.items (all_logged calls.now)) }
{
    let uses = uses_of(alloc, calls, &all.rules)?;
    put_entries(alloc, text, &uses, all.ends.as_slice())
}
