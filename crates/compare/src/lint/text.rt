//! The lines that tell what gets past and what is stopped.
ghost use Rattle.std.specs.Prelude.{◌≡◌, ◌++◌, length, IfOk, string_bytes};
ghost use Rattle.std.specs.List.{flat_map};
ghost use Rattle.hex.specs.Hex.{encode_lower};
ghost use Rattle.call_record.specs.Record.{words};
ghost use Rattle.call_record.specs.Words.{words_of};
ghost use Rattle.call_tables.specs.Tables.{table_of};
ghost use Rattle.call_tables.specs.Table.{name_in};
ghost use Rattle.profile_json.specs.ByEntry.{AreRulesOf};
ghost use Rattle.compare.specs.LintTold as spec;
ghost use Rattle.compare.specs.declared.lint.past.Way.TheVariants.{GetsPast, IsStopped};

use crate::lint::arguments::put_arguments;
use crate::lint::past::{Finding, Past, Way};
use crate::lint::places::place_of;
use crate::lint::remarks::remarks_of;
use crate::search::Crowded;
use call_record::{Record, Word};
use call_tables::call_name;
use machines::{Arch, Family};
use profile_json::{Bundle, Document, EntryRules};
use std::alloc::{AllocError, Global};
use std::fmt::Write;
use wording::{ActionText, machine_with};

// Adds the call of a machine by its name, if it has one, and the machine.
fn put_call_on(text: &mut String, arch: Arch, nr: u32) -> Result<(), AllocError>
    ensures { IfOk result (λ _. string_bytes text.new ≡ string_bytes text.old ++ spec.call_on (name_in (table_of arch) nr) arch nr) }
{
    let machine = arch.machine_name();
    match call_name(arch, nr) {
        Some(name) => write!(text, "{name} of {machine}"),
        None => write!(text, "call {nr} of {machine}"),
    }
}

// Adds a call by its name, if it has one, and its machine.
fn put_call(text: &mut String, arch: Option<Arch>, nr: u32) -> Result<(), AllocError>
    ensures { IfOk result (λ _. string_bytes text.new ≡ string_bytes text.old ++ spec.call_text arch nr) }
{
    match arch {
        Some(arch) => put_call_on(text, arch, nr),
        None => write!(text, "call {nr}"),
    }
}

// The bytes of a record.
fn are_bytes(bytes: &[u8], call: &Record)
    requires size { length bytes.now ≡ 64 }
    requires same { words_of bytes.now ≡ words call.now }
    ensures { bytes.now ≡ spec.bytes_of call.now }
{}

// Adds the line of a record by its digits, and of its verdict.
fn put_digits(text: &mut String, word: Word, digits: &str) -> Result<(), AllocError>
    ensures { IfOk result (λ _. string_bytes text.new ≡ string_bytes text.old ++ spec.digits_line word digits.now) }
{
    let action = ActionText(word);
    writeln!(text, "  {action}, record {digits}")
}

// Adds the line of a record by its bytes, and of its verdict.
fn put_bytes(alloc: Global, text: &mut String, word: Word, bytes: &[u8]) -> Result<(), AllocError>
    ensures { IfOk result (λ _. string_bytes text.new ≡ string_bytes text.old ++ spec.digits_line word (encode_lower bytes.now)) }
{
    let digits = hex::encode(alloc, bytes)?;
    put_digits(text, word, digits.as_str())
}

// Adds the line of a record, and of its verdict.
fn put_record(alloc: Global, text: &mut String, word: Word, call: &Record) -> Result<(), AllocError>
    ensures { IfOk result (λ _. string_bytes text.new ≡ string_bytes text.old ++ spec.record_line word call.now) }
{
    let bytes = call.to_bytes();
    are_bytes(&bytes, call);
    put_bytes(alloc, text, word, &bytes)
}

// Adds the place of an entry, if there is one.
fn put_place(text: &mut String, place: Option<usize>) -> Result<(), AllocError>
    ensures { IfOk result (λ _. string_bytes text.new ≡ string_bytes text.old ++ spec.place_text place) }
{
    match place {
        Some(entry) => write!(text, "linux.seccomp.syscalls[{entry}]: "),
        None => Ok(()),
    }
}

// Adds where a call is answered, the call and its unlike arguments.
fn put_unlike(
    text: &mut String,
    way: Way,
    family: Family,
    all: &EntryRules,
    past: &Past,
) -> Result<(), AllocError>
    ensures { IfOk result (λ _. string_bytes text.new ≡ string_bytes text.old
        ++ spec.unlike_text way family all.now.rules.items all.now.ends.items past.now) }
{
    let call = &past.call;
    put_place(text, place_of(all, call, &past.cleared))?;
    put_call(text, machine_with(family, call.arch, call.nr), call.nr)?;
    put_arguments(text, way, past, &call.args, &past.cleared.args)
}

// Adds the line of these.
fn put_line(
    text: &mut String,
    way: Way,
    family: Family,
    all: &EntryRules,
    past: &Past,
) -> Result<(), AllocError>
    ensures { IfOk result (λ _. string_bytes text.new ≡ string_bytes text.old
        ++ spec.unlike_line way family all.now.rules.items all.now.ends.items past.now) }
{
    put_unlike(text, way, family, all, past)?;
    text.push_str("\n")?;
    Ok(())
}

// Adds the lines of two records.
fn put_pair(
    alloc: Global,
    text: &mut String,
    first_word: Word,
    first: &Record,
    second_word: Word,
    second: &Record,
) -> Result<(), AllocError>
    ensures { IfOk result (λ _. string_bytes text.new ≡ string_bytes text.old
        ++ spec.record_line first_word first.now ++ spec.record_line second_word second.now) }
{
    put_record(alloc, text, first_word, first)?;
    put_record(alloc, text, second_word, second)
}

// Adds the lines of both records, the one first that goes less far.
fn put_records(alloc: Global, text: &mut String, way: Way, past: &Past) -> Result<(), AllocError>
    ensures { IfOk result (λ _. string_bytes text.new ≡ string_bytes text.old ++ spec.records_text way past.now) }
{
    match way {
        Way::GetsPast => put_pair(
            alloc,
            text,
            past.cleared_word,
            &past.cleared,
            past.word,
            &past.call,
        ),
        Way::IsStopped => put_pair(
            alloc,
            text,
            past.word,
            &past.call,
            past.cleared_word,
            &past.cleared,
        ),
    }
}

// Adds the lines of a call.
fn put_past(
    alloc: Global,
    text: &mut String,
    way: Way,
    family: Family,
    all: &EntryRules,
    past: &Past,
) -> Result<(), AllocError>
    ensures { IfOk result (λ _. string_bytes text.new ≡ string_bytes text.old
        ++ spec.past_lines way family all.now.rules.items all.now.ends.items past.now) }
{
    put_line(text, way, family, all, past)?;
    put_records(alloc, text, way, past)
}

// Adds the lines of all of a way.
fn put_all(
    alloc: Global,
    text: &mut String,
    way: Way,
    family: Family,
    all: &EntryRules,
    list: &[Past],
) -> Result<(), AllocError>
    ensures { IfOk result (λ _. string_bytes text.new ≡ string_bytes text.old
        ++ flat_map (spec.past_lines way family all.now.rules.items all.now.ends.items) list.now) }
{
    for past in list {
        put_past(alloc, text, way, family, all, past)?;
    }
    Ok(())
}

// What stands behind how many there are.
fn count_text(way: Way, count: usize) -> &'static str
    ensures { result.now ≡ spec.count_text way count }
{
    match (way, count == 1) {
        (Way::GetsPast, true) => " call gets past\n",
        (Way::GetsPast, false) => " calls get past\n",
        (Way::IsStopped, true) => " call is stopped by bits that Linux does not read\n",
        (Way::IsStopped, false) => " calls are stopped by bits that Linux does not read\n",
    }
}

// Adds the line of how many there are.
fn put_count(text: &mut String, way: Way, count: usize) -> Result<(), AllocError>
    ensures { IfOk result (λ _. string_bytes text.new ≡ string_bytes text.old ++ spec.count_line way count) }
{
    let calls = count_text(way, count);
    write!(text, "{count}{calls}")
}

// Adds the lines of all of a way, and of how many there are, if there are any.
fn put_list(
    alloc: Global,
    text: &mut String,
    way: Way,
    family: Family,
    all: &EntryRules,
    list: &[Past],
) -> Result<(), AllocError>
    ensures { IfOk result (λ _. string_bytes text.new ≡ string_bytes text.old
        ++ spec.list_text way family all.now.rules.items all.now.ends.items list.now) }
{
    if list.is_empty() {
        return Ok(());
    }
    put_all(alloc, text, way, family, all, list)?;
    put_count(text, way, list.len())
}

// Adds the lines of those that get past, and of those that are stopped.
fn put_both(
    alloc: Global,
    text: &mut String,
    family: Family,
    all: &EntryRules,
    past: &[Past],
    stopped: &[Past],
) -> Result<(), AllocError>
    ensures { IfOk result (λ _. string_bytes text.new ≡ string_bytes text.old
        ++ spec.list_text GetsPast family all.now.rules.items all.now.ends.items past.now
        ++ spec.list_text IsStopped family all.now.rules.items all.now.ends.items stopped.now) }
{
    put_list(alloc, text, Way::GetsPast, family, all, past)?;
    put_list(alloc, text, Way::IsStopped, family, all, stopped)
}

// Adds the line of a call that is not decided.
fn put_crowded(text: &mut String, call: &Crowded) -> Result<(), AllocError>
    ensures { IfOk result (λ _. string_bytes text.new ≡ string_bytes text.old ++ spec.crowded_line call.now) }
{
    text.push_str("undecided TooLarge ")?;
    put_call(text, call.arch, call.nr)?;
    text.push_str("\n")?;
    Ok(())
}

// Adds the lines of calls that are not decided.
fn put_all_crowded(text: &mut String, calls: &[Crowded]) -> Result<(), AllocError>
    ensures { IfOk result (λ _. string_bytes text.new ≡ string_bytes text.old ++ flat_map spec.crowded_line calls.now) }
{
    for call in calls {
        put_crowded(text, call)?;
    }
    Ok(())
}

// Adds the lines of calls that get past, of those that are stopped, and of those that are not decided.
fn put_undecided(
    alloc: Global,
    text: &mut String,
    family: Family,
    all: &EntryRules,
    past: &[Past],
    stopped: &[Past],
    crowded: &[Crowded],
) -> Result<(), AllocError>
    ensures { IfOk result (λ _. string_bytes text.new ≡ string_bytes text.old
        ++ flat_map (spec.past_lines GetsPast family all.now.rules.items all.now.ends.items) past.now
        ++ flat_map (spec.past_lines IsStopped family all.now.rules.items all.now.ends.items) stopped.now
        ++ flat_map spec.crowded_line crowded.now) }
{
    put_all(alloc, text, Way::GetsPast, family, all, past)?;
    put_all(alloc, text, Way::IsStopped, family, all, stopped)?;
    put_all_crowded(text, crowded)
}

// Adds what was found.
fn put_found(
    alloc: Global,
    text: &mut String,
    family: Family,
    all: &EntryRules,
    found: &Finding,
) -> Result<(), AllocError>
    ensures { IfOk result (λ _. string_bytes text.new ≡ string_bytes text.old
        ++ spec.found_text family all.now.rules.items all.now.ends.items found.now) }
{
    match found {
        Finding::Nothing => text.push_str("nothing gets past\n"),
        Finding::Unlike(past, stopped) => put_both(alloc, text, family, all, past, stopped),
        Finding::Undecided(past, stopped, crowded) => {
            put_undecided(alloc, text, family, all, past, stopped, crowded)
        }
    }
}

/// The text of what was found, and the remarks below it.
pub(crate) fn text_of(
    alloc: Global,
    document: &Document,
    bundle: &Bundle,
    found: &Finding,
) -> Result<String, AllocError>
    requires { AreRulesOf document.now.native document.now.bytes bundle.now.by_entry.rules.items bundle.now.by_entry.ends.items }
    ensures { IfOk result (λ text. spec.TellsFound document.now.native document.now.bytes found.now (string_bytes text)) }
{
    let mut text = String::new(alloc);
    put_found(
        alloc,
        &mut text,
        document.native().family(),
        &bundle.by_entry,
        found,
    )?;
    let remarks = remarks_of(alloc, &bundle.profile, &bundle.by_entry)?;
    text.push_str(&remarks)?;
    Ok(text)
}
