//! Two entries that give unlike verdicts to one call.
use crate::bundle::Bundle;
use crate::changes::Changes;
use crate::place::{Place, put_place};
use crate::text::Text;
use call_tables::call_name;
use machines::Arch;
use profile::{Cond, Rule};
use profile_json::{EntryRules, rules_by_entry};
use std::alloc::Global;
use wording::{ActionText, ConditionText};

// Whether a rule is for a call of this name.
fn is_of(rule: &Rule, name: &str) -> bool {
    call_name(rule.arch, rule.nr) == Some(name)
}

// The first of these rules for a call of this name.
fn first_of<'a>(rules: &'a [Rule], name: &str) -> Option<&'a Rule> {
    for rule in rules {
        if is_of(rule, name) {
            return Some(rule);
        }
    }
    None
}

// The first rule of an entry for a call of this name.
fn rule_of<'a>(all: &'a EntryRules, entry: usize, name: &str) -> Option<&'a Rule> {
    let end = *all.ends.get(entry)?;
    let start = match entry.checked_sub(1) {
        Some(before) => *all.ends.get(before)?,
        None => 0,
    };
    let rules = all.rules.get(start..end)?;
    first_of(rules, name)
}

// Adds conditions.
fn put_conditions(text: &mut Text, conds: &[Cond]) {
    let mut joined_by = "if";
    for cond in conds {
        let condition = ConditionText(cond);
        text.put(format_args!(" {joined_by} {condition}"));
        joined_by = "and";
    }
}

// Adds the line of what an entry says of a call by its name, at the place where it stood in the configuration.
fn put_side(text: &mut Text, all: &EntryRules, entry: usize, place: Place<'_>, name: &str) {
    if let Some(rule) = rule_of(all, entry, name) {
        let action = ActionText(rule.word);
        put_place(text, place);
        text.put(format_args!(": {name} gets {action}"));
        put_conditions(text, rule.conds.as_slice());
        text.put("\n");
    }
}

/// Adds what both of two entries say of a call by its name.
pub(crate) fn put_sides(
    changes: &mut Changes,
    alloc: Global,
    native: Arch,
    bundle: &Bundle,
    (top, name): (&'static str, &str),
    sides: [usize; 2],
) {
    let Ok(all) = rules_by_entry(alloc, bundle.text.as_bytes(), native) else {
        return;
    };
    for side in sides {
        let place = bundle.part_of(side).place(top);
        put_side(&mut changes.lines, &all, side, place, name);
    }
}
