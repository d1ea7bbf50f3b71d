//! The bundle of entries.
ghost use Rattle.std.specs.Prelude.{◌≡◌, is_some};
ghost use Rattle.recover.specs.Unsaid.{can_be_said, has_action, takes_data};

use crate::entries::Entry;
use crate::machine_branches::Listed;
use call_record::Word;
use profile::{Cond, Op};
use profile_json::{key, operator_name};
use std::alloc::{AllocError, Global};

// The name of a verdict's action in a section.
fn action_name(word: Word) -> Option<&'static str>
    ensures { is_some result ≡ has_action word }
{
    match word.action() {
        Word::KILL_PROCESS => Some(key::KILL_PROCESS),
        Word::KILL_THREAD => Some(key::KILL),
        Word::TRAP => Some(key::TRAP),
        Word::ERRNO => Some(key::ERRNO),
        Word::USER_NOTIF => Some(key::NOTIFY),
        Word::TRACE => Some(key::TRACE),
        Word::LOG => Some(key::LOG),
        Word::ALLOW => Some(key::ALLOW),
        _ => None,
    }
}

// Whether a verdict's action takes data.
fn takes_data(word: Word) -> bool
    ensures { result ≡ takes_data word }
{
    match word.action() {
        Word::ERRNO | Word::TRACE => true,
        _ => false,
    }
}

/// Whether a section can give a verdict.
pub(crate) fn is_given(word: Word) -> bool
    ensures { result ≡ can_be_said word }
{
    if action_name(word).is_none() {
        return false;
    }
    if takes_data(word) {
        return word.data() <= 4095;
    }
    word.data() == 0
}

// Adds a verdict, under these keys.
fn put_verdict(
    text: &mut String,
    action_key: &str,
    data_key: &str,
    word: Word,
) -> Result<(), AllocError> {
    let name = action_name(word).unwrap_or("");
    write!(text, "\"{action_key}\": \"{name}\"")?;
    if takes_data(word) {
        let number = word.data();
        write!(text, ", \"{data_key}\": {number}")?;
    }
    Ok(())
}

// Adds a condition.
fn put_condition(text: &mut String, cond: &Cond) -> Result<(), AllocError> {
    let Cond {
        index,
        op,
        value,
        datum,
    } = *cond;
    write!(text, "{{\"index\": {index}, \"value\": {value}")?;
    if let Op::MaskedEq = op {
        write!(text, ", \"valueTwo\": {datum}")?;
    }
    let name = operator_name(op);
    write!(text, ", \"op\": \"{name}\"}}")
}

// Adds what separates a member from the one before it.
fn separate(text: &mut String, place: usize, separator: &str) -> Result<(), AllocError> {
    if place > 0 {
        text.push_str(separator)?;
    }
    Ok(())
}

// Adds the names of an entry.
fn put_names(text: &mut String, names: &[&'static str]) -> Result<(), AllocError> {
    for (place, name) in names.iter().enumerate() {
        separate(text, place, ", ")?;
        write!(text, "\"{name}\"")?;
    }
    Ok(())
}

// Adds the conditions of an entry, if it has some.
fn put_conditions(text: &mut String, conds: &[Cond]) -> Result<(), AllocError> {
    if conds.is_empty() {
        return Ok(());
    }
    text.push_str(", \"args\": [")?;
    for (place, cond) in conds.iter().enumerate() {
        separate(text, place, ", ")?;
        put_condition(text, cond)?;
    }
    text.push_str("]")
}

// Adds the action of an entry.
fn put_action(text: &mut String, word: u32) -> Result<(), AllocError> {
    put_verdict(text, "action", "errnoRet", Word(word))
}

// Adds an entry.
fn put_entry(text: &mut String, entry: &Entry) -> Result<(), AllocError> {
    text.push_str("{\"names\": [")?;
    put_names(text, &entry.names)?;
    text.push_str("], ")?;
    put_action(text, entry.said.word)?;
    put_conditions(text, &entry.said.conds)?;
    text.push_str("}")
}

// Adds the list of machines.
fn put_machines(text: &mut String, machines: &[Listed]) -> Result<(), AllocError> {
    text.push_str(", \"architectures\": [")?;
    for (place, machine) in machines.iter().enumerate() {
        separate(text, place, ", ")?;
        let name = machine.arch.scmp();
        write!(text, "\"{name}\"")?;
    }
    text.push_str("]")
}

const HEAD: &str = "{\n  \"ociVersion\": \"1.0.2\",\n  \"linux\": {\n    \"seccomp\": {\n      ";

const TAIL: &str = "\n      ]\n    }\n  }\n}\n";

/// The bundle with this default verdict, these machines and entries.
pub(crate) fn bundle_of(
    alloc: Global,
    default: Word,
    machines: &[Listed],
    entries: &[Entry],
) -> Result<String, AllocError> {
    let mut text = String::new(alloc);
    text.push_str(HEAD)?;
    put_verdict(&mut text, "defaultAction", "defaultErrnoRet", default)?;
    put_machines(&mut text, machines)?;
    text.push_str(",\n      \"syscalls\": [")?;
    for (place, entry) in entries.iter().enumerate() {
        separate(&mut text, place, ",")?;
        text.push_str("\n        ")?;
        put_entry(&mut text, entry)?;
    }
    text.push_str(TAIL)?;
    Ok(text)
}
