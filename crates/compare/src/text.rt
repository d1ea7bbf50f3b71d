//! How two profiles compare, as a text.
ghost use Rattle.std.specs.Prelude.{◌≡◌, ◌++◌, false, IfOk, length, string_bytes};
ghost use Rattle.std.specs.List.{flat_map};
ghost use Rattle.call_tables.specs.Tables.{table_of};
ghost use Rattle.call_tables.specs.Table.{name_in};
ghost use Rattle.compare.specs.Difference.{name_of, named};
ghost use Rattle.compare.specs.Outcome as spec;

use crate::change::Change;
use crate::difference::Difference;
use crate::outcome::Comparison;
use crate::search::Crowded;
use crate::sides::Sides;
use call_record::Word;
use call_tables::call_name;
use machines::Arch;
use std::alloc::{AllocError, Global};
use std::fmt::Write;
use wording::ActionText;

// Adds the name of a machine's call, or else its number.
fn put_name(text: &mut String, arch: Arch, nr: u32) -> Result<(), AllocError>
    ensures { IfOk result (λ _. string_bytes text.new ≡ string_bytes text.old ++ named (name_in (table_of arch) nr) nr) }
{
    match call_name(arch, nr) {
        Some(name) => text.push_str(name),
        None => write!(text, "{nr}"),
    }
}

// Adds the name of a call, or else its number.
fn put_call(text: &mut String, arch: Option<Arch>, nr: u32) -> Result<(), AllocError>
    ensures { IfOk result (λ _. string_bytes text.new ≡ string_bytes text.old ++ name_of arch nr) }
{
    match arch {
        Some(arch) => put_name(text, arch, nr),
        None => write!(text, "{nr}"),
    }
}

// The name of a machine.
fn machine_of(arch: Option<Arch>) -> &'static str
    ensures { result.now ≡ spec.machine_of arch }
{
    match arch {
        Some(arch) => arch.machine_name(),
        None => "no machine",
    }
}

// Adds further machines.
fn put_others(text: &mut String, others: &[Difference]) -> Result<(), AllocError>
    ensures { IfOk result (λ _. string_bytes text.new ≡ string_bytes text.old ++ flat_map spec.machine_after others.now) }
{
    for other in others {
        text.push_str(", ")?;
        text.push_str(machine_of(other.arch))?;
    }
    Ok(())
}

// The word in front of an argument.
fn word_of(begun: bool) -> &'static str
    ensures { result.now ≡ spec.word_of begun }
{
    if begun { " and" } else { " where" }
}

// Adds an argument.
fn put_argument(text: &mut String, begun: bool, index: u32, value: u64) -> Result<(), AllocError>
    ensures { IfOk result (λ _. string_bytes text.new ≡ string_bytes text.old ++ spec.argument_text begun index value) }
{
    let word = word_of(begun);
    write!(text, "{word} arg{index} = {value}")
}

// Adds the arguments that are asked for, or are not 0.
fn put_arguments(text: &mut String, mut asked: &[bool], mut args: &[u64]) -> Result<(), AllocError>
    requires { length args.now ≡ 6 }
    ensures { IfOk result (λ _. string_bytes text.new ≡ string_bytes text.old
        ++ spec.arguments_from false 0 asked.entry.now args.entry.now) }
{
    let mut begun = false;
    let mut index = 0;
    while let [value, rest @ ..] = args {
        let [is_asked, more @ ..] = asked else {
            return Ok(());
        };
        if *is_asked || *value != 0 {
            put_argument(text, begun, index, *value)?;
            begun = true;
        }
        index += 1;
        asked = more;
        args = rest;
    }
    Ok(())
}

// Adds both verdicts.
fn put_verdicts(text: &mut String, first: Word, second: Word) -> Result<(), AllocError>
    ensures { IfOk result (λ _. string_bytes text.new ≡ string_bytes text.old ++ spec.verdicts_text first second) }
{
    let first = ActionText(first);
    let second = ActionText(second);
    writeln!(text, ": {first}, {second}")
}

// Adds the call and its machines.
fn put_calls(text: &mut String, change: &Change) -> Result<(), AllocError>
    ensures { IfOk result (λ _. string_bytes text.new ≡ string_bytes text.old ++ spec.calls_text change.now) }
{
    put_call(text, change.first.arch, change.first.nr)?;
    text.push_str(" of ")?;
    text.push_str(machine_of(change.first.arch))?;
    put_others(text, &change.others)
}

// Adds the line of a change.
fn put_change(text: &mut String, change: &Change) -> Result<(), AllocError>
    ensures { IfOk result (λ _. string_bytes text.new ≡ string_bytes text.old ++ spec.line_of change.now) }
{
    put_calls(text, change)?;
    put_arguments(text, &change.first.asked, &change.first.args)?;
    put_verdicts(text, change.first.first, change.first.second)
}

// Adds the lines of changes.
fn put_changes(text: &mut String, changes: &[Change]) -> Result<(), AllocError>
    ensures { IfOk result (λ _. string_bytes text.new ≡ string_bytes text.old ++ flat_map spec.line_of changes.now) }
{
    for change in changes {
        put_change(text, change)?;
    }
    Ok(())
}

/// The lines of changes.
pub fn lines_of(alloc: Global, changes: &[Change]) -> Result<String, AllocError>
    ensures { IfOk result (λ text. string_bytes text ≡ flat_map spec.line_of changes.now) }
{
    let mut text = String::new(alloc);
    put_changes(&mut text, changes)?;
    Ok(text)
}

// The line that says what the second profile allows beside the first.
fn sides_text(sides: Sides) -> &'static str
    ensures { result.now ≡ spec.sides_text sides }
{
    match sides {
        Sides::Alike => "allows no more and no less\n",
        Sides::NoMore => "allows no more\n",
        Sides::NoLess => "allows no less\n",
        Sides::MoreAndLess => "allows more and less\n",
    }
}

// Adds a call that is not decided, with its machine.
fn put_crowded_call(text: &mut String, call: &Crowded) -> Result<(), AllocError>
    ensures { IfOk result (λ _. string_bytes text.new ≡ string_bytes text.old ++ spec.crowded_call call.now) }
{
    put_call(text, call.arch, call.nr)?;
    text.push_str(" of ")?;
    text.push_str(machine_of(call.arch))
}

// Adds its line.
fn put_crowded(text: &mut String, call: &Crowded) -> Result<(), AllocError>
    ensures { IfOk result (λ _. string_bytes text.new ≡ string_bytes text.old ++ spec.crowded_line call.now) }
{
    text.push_str("undecided 2 TooLarge ")?;
    put_crowded_call(text, call)?;
    text.push_str("\n")?;
    Ok(())
}

// Adds the lines of calls that are not decided.
fn put_all_crowded(text: &mut String, calls: &[Crowded]) -> Result<(), AllocError>
    ensures { IfOk result (λ _. string_bytes text.new ≡ string_bytes text.old ++ flat_map spec.crowded_line calls.now) }
{
    for call in calls {
        put_crowded(text, call)?;
    }
    Ok(())
}

// Adds the lines of changes, and what they come to.
fn put_list(text: &mut String, changes: &[Change], sides: Sides) -> Result<(), AllocError>
    ensures { IfOk result (λ _. string_bytes text.new ≡ string_bytes text.old
        ++ flat_map spec.line_of changes.now ++ spec.sides_text sides) }
{
    put_changes(text, changes)?;
    text.push_str(sides_text(sides))
}

// Adds the lines of changes, and of calls that are not decided.
fn put_undecided(
    text: &mut String,
    changes: &[Change],
    crowded: &[Crowded],
) -> Result<(), AllocError>
    ensures { IfOk result (λ _. string_bytes text.new ≡ string_bytes text.old
        ++ flat_map spec.line_of changes.now ++ flat_map spec.crowded_line crowded.now) }
{
    put_changes(text, changes)?;
    put_all_crowded(text, crowded)
}

// Adds how two profiles compare.
fn put_comparison(text: &mut String, comparison: &Comparison) -> Result<(), AllocError>
    ensures { IfOk result (λ _. string_bytes text.new ≡ string_bytes text.old ++ spec.text_of comparison.now) }
{
    match comparison {
        Comparison::Same => text.push_str("same\n"),
        Comparison::Differ(changes, sides) => put_list(text, changes, *sides),
        Comparison::Undecided(changes, crowded) => put_undecided(text, changes, crowded),
    }
}

/// How two profiles compare, as a text.
pub(crate) fn text_of(alloc: Global, comparison: &Comparison) -> Result<String, AllocError>
    ensures { IfOk result (λ text. string_bytes text ≡ spec.text_of comparison.now) }
{
    let mut text = String::new(alloc);
    put_comparison(&mut text, comparison)?;
    Ok(text)
}

// Whether nothing is let through that was refused.
fn is_no_more(sides: Sides) -> bool
    ensures { result ≡ spec.is_no_more sides }
{
    match sides {
        Sides::Alike => true,
        Sides::NoMore => true,
        Sides::NoLess => false,
        Sides::MoreAndLess => false,
    }
}

/// Whether the second profile says the same; where that is asked, whether it allows no more.
pub(crate) fn is_done(atmost: bool, comparison: &Comparison) -> bool
    ensures { result ≡ spec.is_done atmost comparison.now }
{
    match comparison {
        Comparison::Same => true,
        Comparison::Differ(_, sides) => { if atmost { is_no_more(*sides) } else { false } }
        Comparison::Undecided(_, _) => false,
    }
}
