//! The rules for a call, told beside a record.
ghost use Rattle.std.specs.Prelude.{◌≡◌, ◌++◌, [], if◌then◌else◌, IfOk, slice_index, string_bytes};
ghost use Rattle.std.specs.List.{flat_map};
ghost use Rattle.machines.specs.Width as width;
ghost use Rattle.profile.specs.Said.{meets};
ghost use Rattle.explain.specs.Explanation as spec;
ghost use Rattle.wording.specs.Reason.{entry_at};

use call_record::Record;
use machines::compared;
use profile::{Cond, Rule};
use profile_json::EntryRules;
use std::alloc::AllocError;
use std::fmt::Write;
use wording::{ActionText, ConditionText, entry_at, is_match};

// Whether a condition holds of what is compared of its argument.
fn holds(cond: &Cond, narrow: bool, args: &[u64; 6]) -> bool
    ensures { result ≡ meets cond.now (width.compared narrow (slice_index args.now cond.now.index)) }
{
    cond.holds(compared(narrow, args[cond.index as usize]))
}

fn holding(holds: bool) -> &'static str
    ensures { result.now ≡ spec.holding holds }
{
    if holds { "holds" } else { "does not hold" }
}

fn matching(matches: bool) -> &'static str
    ensures { result.now ≡ spec.matching matches }
{
    if matches { "matches" } else { "does not match" }
}

// Adds the line of a condition.
fn put_condition(
    text: &mut String,
    cond: &Cond,
    narrow: bool,
    args: &[u64; 6],
) -> Result<(), AllocError>
    ensures { IfOk result (λ _. string_bytes text.new ≡ string_bytes text.old ++ spec.condition_line narrow args.now cond.now) }
{
    let told = ConditionText(cond);
    let holding = holding(holds(cond, narrow, args));
    writeln!(text, "  {told} {holding}")
}

// Adds the lines of conditions.
fn put_conditions(
    text: &mut String,
    conds: &[Cond],
    narrow: bool,
    args: &[u64; 6],
) -> Result<(), AllocError>
    ensures { IfOk result (λ _. string_bytes text.new ≡ string_bytes text.old ++ flat_map (spec.condition_line narrow args.now) conds.now) }
{
    for cond in conds {
        put_condition(text, cond, narrow, args)?;
    }
    Ok(())
}

// Adds the lines of a rule of an entry.
fn put_rule(text: &mut String, entry: usize, rule: &Rule, call: &Record) -> Result<(), AllocError>
    ensures { IfOk result (λ _. string_bytes text.new ≡ string_bytes text.old ++ spec.rule_lines entry rule.now call.now) }
{
    let action = ActionText(rule.word);
    let matching = matching(is_match(rule, call));
    writeln!(text, "entry {entry} {action} {matching}")?;
    put_conditions(text, rule.conds.as_slice(), rule.is_narrow(), &call.args)
}

// Whether a rule is for the record's call.
fn is_of(rule: &Rule, call: &Record) -> bool
    ensures { result ≡ spec.is_of rule.now call.now }
{
    if rule.arch.token() != call.arch {
        return false;
    }
    rule.nr == call.nr
}

// Adds the lines of the rule at a place, if it is for the record's call.
fn put_if_of(
    text: &mut String,
    all: &EntryRules,
    place: usize,
    rule: &Rule,
    call: &Record,
) -> Result<(), AllocError>
    ensures { IfOk result (λ _. string_bytes text.new ≡ string_bytes text.old
        ++ (if spec.is_of rule.now call.now then spec.rule_lines (entry_at all.now.ends.items place) rule.now call.now else [])) }
{
    if is_of(rule, call) {
        return put_rule(text, entry_at(all, place), rule, call);
    }
    Ok(())
}

/// Adds the lines of all rules that are for the record's call.
pub(crate) fn put_rules(
    text: &mut String,
    all: &EntryRules,
    call: &Record,
) -> Result<(), AllocError>
    ensures { IfOk result (λ _. string_bytes text.new ≡ string_bytes text.old
        ++ spec.lines_from 0 all.now.rules.items all.now.ends.items call.now) }
{
    for (place, rule) in all.rules.as_slice().iter().enumerate() {
        put_if_of(text, all, place, rule, call)?;
    }
    Ok(())
}
