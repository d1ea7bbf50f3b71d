//! The lines that tell what is open.
ghost use Rattle.std.specs.Prelude.{◌≡◌, ◌++◌, ◌∷◌, [], IfOk, List, codes, string_bytes};
ghost use Rattle.std.specs.List.{list_all, list_any};
ghost use Rattle.call_record.specs.Record.{words};
ghost use Rattle.call_tables.specs.Tables.{table_of};
ghost use Rattle.call_tables.specs.Table.{name_in};
ghost use Rattle.review.specs.Told as spec;
ghost use Rattle.review.specs.declared.judged.Judged.{Judged as TheJudged};
ghost use Rattle.review.specs.inner.Lines.{texts_of};

use crate::asked::{Asked, whole};
use crate::groups::Group;
use crate::judged::{Answer, Judged};
use call_record::Record;
use call_tables::call_name;
use machines::Arch;
use profile::{Cond, Profile, Rule};
use profile_json::EntryRules;
use std::alloc::{AllocError, Global};
use std::fmt::Write;
use wording::{ActionText, ConditionText, entry_at, is_match};

// Adds conditions behind the first, each behind `and`.
fn put_more(text: &mut String, conds: &[Cond]) -> Result<(), AllocError>
    ensures { IfOk result (λ _. string_bytes text.new ≡ string_bytes text.old ++ spec.conditions_text (codes "and") conds.now) }
{
    for cond in conds {
        let told = ConditionText(cond);
        write!(text, " and {told}")?;
    }
    Ok(())
}

// Adds conditions, the first behind `if` and the others behind `and`.
fn put_conditions(text: &mut String, conds: &[Cond]) -> Result<(), AllocError>
    ensures { IfOk result (λ _. string_bytes text.new ≡ string_bytes text.old ++ spec.conditions_text (codes "if") conds.now) }
{
    match conds {
        [] => Ok(()),
        [first, more @ ..] => {
            let told = ConditionText(first);
            write!(text, " if {told}")?;
            put_more(text, more)
        }
    }
}

// Adds a rule of an entry.
fn put_rule(text: &mut String, entry: usize, rule: &Rule) -> Result<(), AllocError>
    ensures { IfOk result (λ _. string_bytes text.new ≡ string_bytes text.old ++ spec.rule_text entry rule.now) }
{
    let action = ActionText(rule.word);
    write!(text, "entry {entry} {action}")?;
    put_conditions(text, rule.conds.as_slice())
}

// Adds the default.
fn put_default(text: &mut String, profile: &Profile) -> Result<(), AllocError>
    ensures { IfOk result (λ _. string_bytes text.new ≡ string_bytes text.old ++ spec.default_text profile.now) }
{
    let action = ActionText(profile.default_word());
    write!(text, "default {action}")
}

// Adds the first rule that matches a record, or else the default.
fn put_reason(
    text: &mut String,
    profile: &Profile,
    all: &EntryRules,
    call: &Record,
) -> Result<(), AllocError>
    ensures { IfOk result (λ _. string_bytes text.new ≡ string_bytes text.old
        ++ spec.reason_from profile.now 0 all.now.rules.items all.now.ends.items (words call.now)) }
{
    for (place, rule) in all.rules.as_slice().iter().enumerate() {
        if is_match(rule, call) {
            return put_rule(text, entry_at(all, place), rule);
        }
    }
    put_default(text, profile)
}

// Adds the name of a machine's call, or else its number.
fn put_name(text: &mut String, arch: Arch, nr: u32) -> Result<(), AllocError>
    ensures { IfOk result (λ _. string_bytes text.new ≡ string_bytes text.old ++ spec.name_text (name_in (table_of arch) nr) nr) }
{
    match call_name(arch, nr) {
        Some(name) => text.push_str(name),
        None => write!(text, "call {nr}"),
    }
}

// Adds what is asked about.
fn put_asked(text: &mut String, asked: &Asked) -> Result<(), AllocError>
    ensures { IfOk result (λ _. string_bytes text.new ≡ string_bytes text.old ++ spec.asked_text asked.now) }
{
    put_name(text, whole(asked.arch), asked.nr)?;
    let part = asked.part.0;
    write!(text, " {part} of ")
}

// Adds what stands in a line before its machines.
fn put_front(text: &mut String, judged: &Judged) -> Result<(), AllocError>
    ensures { IfOk result (λ _. string_bytes text.new ≡ string_bytes text.old ++ spec.front_of judged.now.asked judged.now.answer) }
{
    match &judged.answer {
        Answer::Refused => Ok(()),
        Answer::Open(_) => {
            text.push_str("  open ")?;
            put_asked(text, &judged.asked)
        }
        Answer::Undecided => {
            text.push_str("  undecided TooLarge ")?;
            put_asked(text, &judged.asked)
        }
    }
}

// Adds what stands in a line behind its machines.
fn put_end(
    text: &mut String,
    profile: &Profile,
    all: &EntryRules,
    judged: &Judged,
) -> Result<(), AllocError>
    ensures { IfOk result (λ _. string_bytes text.new ≡ string_bytes text.old
        ++ spec.end_of profile.now all.now.rules.items all.now.ends.items judged.now.answer) }
{
    match &judged.answer {
        Answer::Refused => Ok(()),
        Answer::Open(call) => {
            text.push_str(": ")?;
            put_reason(text, profile, all, call)?;
            text.push_str("\n")
        }
        Answer::Undecided => text.push_str("\n"),
    }
}

/// A line without its machines: what stands before them, and what stands behind them.
#[derive(Drop)]
pub(crate) struct Line {
    pub(crate) front: String,
    pub(crate) end: String,
}

// The line of an answer.
fn line_of(
    alloc: Global,
    profile: &Profile,
    all: &EntryRules,
    judged: &Judged,
) -> Result<Line, AllocError>
    ensures { IfOk result (λ line. texts_of line ≡ spec.line_of profile.now all.now.rules.items all.now.ends.items judged.now) }
{
    let mut front = String::new(alloc);
    put_front(&mut front, judged)?;
    let mut end = String::new(alloc);
    put_end(&mut end, profile, all, judged)?;
    Ok(Line { front, end })
}

// Whether two lines are alike but for their machines.
fn is_alike(a: &Line, b: &Line) -> bool
    ensures { result ≡ spec.is_alike (texts_of a.now) (texts_of b.now) }
{
    if *a.front != *b.front {
        return false;
    }
    *a.end == *b.end
}

// Ends a line and begins another, or goes on with the line that is begun.
fn put_begun(text: &mut String, last: &Line, line: &Line, machine: &str) -> Result<(), AllocError>
    ensures { IfOk result (λ _. string_bytes text.new ≡ string_bytes text.old ++ spec.begun (texts_of last.now) (texts_of line.now) machine.now) }
{
    if is_alike(last, line) {
        text.push_str(", ")?;
        return text.push_str(machine);
    }
    text.push_str(&last.end)?;
    text.push_str(&line.front)?;
    text.push_str(machine)
}

// Adds an answer behind a line that is begun.
fn put_answer(
    alloc: Global,
    text: &mut String,
    profile: &Profile,
    all: &EntryRules,
    judged: &Judged,
    last: Line,
) -> Result<Line, AllocError>
    ensures { (more : List TheJudged) → IfOk result (λ line. string_bytes text.new
        ++ spec.lines_from profile.now all.now.rules.items all.now.ends.items (texts_of line) more
        ≡ string_bytes text.old ++ spec.lines_from profile.now all.now.rules.items all.now.ends.items (texts_of last) (judged.now ∷ more)) }
{
    if is_refused(judged) {
        return Ok(last);
    }
    let line = line_of(alloc, profile, all, judged)?;
    put_begun(text, &last, &line, judged.asked.arch.machine_name())?;
    Ok(line)
}

// A line that is not begun.
fn no_line(alloc: Global) -> Line
    ensures { texts_of result ≡ ([], []) }
{
    Line {
        front: String::new(alloc),
        end: String::new(alloc),
    }
}

// Adds the lines of answers.
fn put_answers(
    alloc: Global,
    text: &mut String,
    profile: &Profile,
    all: &EntryRules,
    list: &[Judged],
) -> Result<(), AllocError>
    ensures { IfOk result (λ _. string_bytes text.new ≡ string_bytes text.old
        ++ spec.lines_from profile.now all.now.rules.items all.now.ends.items ([], []) list.now) }
{
    let mut last = no_line(alloc);
    for judged in list {
        last = put_answer(alloc, text, profile, all, judged, last)?;
    }
    text.push_str(&last.end)
}

fn is_refused(judged: &Judged) -> bool
    ensures { result ≡ spec.is_refused judged.now.answer }
{
    match judged.answer {
        Answer::Refused => true,
        Answer::Open(_) => false,
        Answer::Undecided => false,
    }
}

fn is_open(judged: &Judged) -> bool
    ensures { result ≡ spec.is_open judged.now.answer }
{
    match judged.answer {
        Answer::Refused => false,
        Answer::Open(_) => true,
        Answer::Undecided => false,
    }
}

/// Whether all is refused.
pub(crate) fn all_refused(list: &[Judged]) -> bool
    ensures { result ≡ list_all (λ j. spec.is_refused j.answer) list.now }
{
    list.iter().all(|judged| is_refused(judged))
}

fn all_open(list: &[Judged]) -> bool
    ensures { result ≡ list_all (λ j. spec.is_open j.answer) list.now }
{
    list.iter().all(|judged| is_open(judged))
}

/// Whether something is let through.
pub(crate) fn some_open(list: &[Judged]) -> bool
    ensures { result ≡ list_any (λ j. spec.is_open j.answer) list.now }
{
    list.iter().any(|judged| is_open(judged))
}

// The state of a group, by the answers of its calls.
fn state_of(list: &[Judged]) -> &'static str
    ensures { result.now ≡ spec.state_of list.now }
{
    if all_refused(list) {
        return "refused";
    }
    if all_open(list) {
        return "open";
    }
    if some_open(list) {
        "in part"
    } else {
        "undecided"
    }
}

// Adds the first line of a group.
fn put_head(text: &mut String, group: &Group, list: &[Judged]) -> Result<(), AllocError>
    ensures { IfOk result (λ _. string_bytes text.new ≡ string_bytes text.old ++ spec.head_line group.now list.now) }
{
    let (name, why, _) = *group;
    let state = state_of(list);
    writeln!(text, "group {name}: {state}; {why}")
}

/// Adds the lines of a group.
pub(crate) fn put_group(
    alloc: Global,
    text: &mut String,
    profile: &Profile,
    all: &EntryRules,
    group: &Group,
    list: &[Judged],
) -> Result<(), AllocError>
    ensures { IfOk result (λ _. string_bytes text.new ≡ string_bytes text.old
        ++ spec.group_text profile.now all.now.rules.items all.now.ends.items group.now list.now) }
{
    put_head(text, group, list)?;
    put_answers(alloc, text, profile, all, list)
}
