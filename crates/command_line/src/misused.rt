//! What is told of wrong arguments behind the name of a command of our own.
ghost use Rattle.std.specs.Prelude.{◌≡◌, IfOk, IfSome};
ghost use Rattle.command_line.specs.Lines as spec;
ghost use Rattle.command_line.specs.Lines.{IsOurs, IsRowOfOurs, row_called, texts};
ghost use Rattle.command_line.specs.Table.{rows};

use crate::prose::Command;
use crate::reading::{called, is_word};
use crate::table::{Entry, Part, commands};
use call_groups::{is_group, is_known};
use std::alloc::{AllocError, Global};
use std::fmt::Write;

// Whether a command is ours: of the four others the line that they are no command stands alone.
fn is_ours(command: Command) -> bool
    ensures { result ≡ spec.is_ours command }
{
    match command {
        Command::Verdict => false,
        Command::Check => false,
        Command::Export => false,
        Command::Run => false,
        _ => true,
    }
}

// The command of that name, if it is ours.
fn ours_called(name: &str) -> Option<Entry>
    ensures { IfSome result (λ _. IsRowOfOurs (row_called name.now rows)) }
{
    let entry = called(commands(), name)?;
    if is_ours(entry.4) {
        return Some(entry);
    }
    None
}

// The command of our own that the arguments begin with.
fn ours(arguments: &[&str]) -> Option<Entry>
    ensures { IfSome result (λ _. IsOurs (texts arguments.now)) }
{
    match arguments {
        [name, ..] => ours_called(name),
        _ => None,
    }
}

// Adds words, as a choice.
fn put_words(text: &mut String, words: &[&str]) -> Result<(), AllocError> {
    for (place, word) in words.iter().enumerate() {
        if place > 0 {
            let last = place.saturating_add(1) == words.len();
            text.push_str(if last { " or " } else { ", " })?;
        }
        text.push_str(word)?;
    }
    Ok(())
}

// Adds what is wrong with the first argument that may not stand for its part, or begins with `-`. Returns whether one is.
fn put_wrong(text: &mut String, parts: &[Part], words: &[&str]) -> Result<bool, AllocError> {
    for word in words {
        if word.starts_with('-') {
            write!(text, "{word} begins with '-'; of a file write ./{word}")?;
            return Ok(true);
        }
    }
    for (part, word) in parts.iter().zip(words) {
        if !is_word(part, word) {
            write!(text, "{word} is no {}: ", part.0)?;
            put_words(text, part.1.words())?;
            return Ok(true);
        }
    }
    Ok(false)
}

// What may stand behind words of `adapt` and `learn`.
const ENGINES: &[&str] = &["docker", "podman", "containerd"];

const CAPABILITIES: &[&str] = &["all", "names as CAP_SYS_ADMIN"];

const KERNELS: &[&str] = &["two numbers as 6.12"];

const RUNTIMES: &[&str] = &["crun", "runc", "bwrap", "docker", "podman"];

const OTHERWISE: &[&str] = &["errno", "enosys", "log", "kill"];

const KEPT: &[&str] = &["a call and its arguments as socket:0,1"];

// The words that stand behind the file of `adapt`, but for those behind one of these.
const ADAPTS: &[&str] = &[
    "widen",
    "first",
    "looser",
    "stricter",
    "like-libseccomp",
    "narrow",
    "log",
    "for",
    "cap",
    "kernel",
    "bundle",
];

// What may stand behind a word of `adapt`.
fn behind_of_adapt(before: &str) -> Option<&'static [&'static str]> {
    if before == "for" {
        return Some(ENGINES);
    }
    if before == "cap" {
        return Some(CAPABILITIES);
    }
    if before == "kernel" {
        return Some(KERNELS);
    }
    None
}

// What may stand behind a word of `learn`.
fn behind_of_learn(before: &str) -> Option<&'static [&'static str]> {
    if before == "for" {
        return Some(RUNTIMES);
    }
    if before == "else" {
        return Some(OTHERWISE);
    }
    if before == "keep" {
        return Some(KEPT);
    }
    None
}

// What may stand behind a word of a command.
fn behind(name: &str, before: &str) -> Option<&'static [&'static str]> {
    if name == "adapt" {
        return behind_of_adapt(before);
    }
    if name == "learn" {
        return behind_of_learn(before);
    }
    None
}

// Whether a word is one of these.
fn is_one(words: &[&str], word: &str) -> bool {
    for one in words {
        if *one == word {
            return true;
        }
    }
    false
}

// Whether a word is a value as that of a capability, a kernel or a call's arguments, or names a group of calls.
fn is_value(word: &str) -> bool {
    word.starts_with("CAP_") || word.contains('.') || word.contains(':') || is_group(word)
}

// Adds what may stand behind a word, if this one may not. Returns whether it may not.
fn put_choice(
    text: &mut String,
    before: &str,
    word: &str,
    choices: &[&str],
) -> Result<bool, AllocError> {
    if is_one(choices, word) || is_value(word) {
        return Ok(false);
    }
    write!(text, "{word} is nothing behind {before}: ")?;
    put_words(text, choices)?;
    Ok(true)
}

// Adds what a word is no one of, if it is no word of `adapt`. Returns whether it is none.
fn put_word(text: &mut String, word: &str) -> Result<bool, AllocError> {
    if is_one(ADAPTS, word) || is_value(word) {
        return Ok(false);
    }
    write!(text, "{word} is no WORD: ")?;
    put_words(text, ADAPTS)?;
    Ok(true)
}

// The words of `learn` that stand once.
const ONCE: &[&str] = &["for", "else"];

// Adds that a word stands twice, if it is one of these that stand once. Returns whether it does.
fn put_twice(
    text: &mut String,
    once: &[&str],
    before: &[&str],
    word: &str,
) -> Result<bool, AllocError> {
    if !is_one(once, word) || !is_one(before, word) {
        return Ok(false);
    }
    write!(text, "{word} stands twice")?;
    Ok(true)
}

// Adds what is wrong with a word of `adapt` or `learn` behind others, if it is known to be. Returns whether it is.
fn put_behind(
    text: &mut String,
    name: &str,
    words: &[&str],
    word: &str,
) -> Result<bool, AllocError> {
    if name == "learn" {
        return put_twice(text, ONCE, words, word);
    }
    if name != "adapt" || words.len() < 2 {
        return Ok(false);
    }
    if put_word(text, word)? {
        return Ok(true);
    }
    put_twice(text, ADAPTS, words, word)
}

// Adds what is wrong with the first word that asks for nothing, if one is known to. Returns whether one is.
fn put_unknown(text: &mut String, name: &str, words: &[&str]) -> Result<bool, AllocError> {
    for place in 1..words.len() {
        let before = words[place.saturating_sub(1)];
        let choices = behind(name, before);
        let told = match choices {
            Some(choices) => put_choice(text, before, words[place], choices)?,
            None => put_behind(text, name, &words[..place], words[place])?,
        };
        if told {
            return Ok(true);
        }
    }
    Ok(false)
}

// Whether words of a command may name groups of calls.
fn takes_groups(name: &str) -> bool {
    name == "adapt" || name == "learn"
}

// Adds that a word names no group of calls that there is, if it does. Returns whether it does.
fn put_no_group(alloc: Global, text: &mut String, word: &str) -> Result<bool, AllocError> {
    if !is_group(word) || is_known(alloc, word)? {
        return Ok(false);
    }
    write!(text, "{word} is no group of calls: names as @basic-io")?;
    Ok(true)
}

// Adds that one of the words of a command does. Returns whether one does.
fn put_unknown_group(
    alloc: Global,
    text: &mut String,
    name: &str,
    words: &[&str],
) -> Result<bool, AllocError> {
    if !takes_groups(name) {
        return Ok(false);
    }
    for word in words {
        if put_no_group(alloc, text, word)? {
            return Ok(true);
        }
    }
    Ok(false)
}

// Adds what is wrong with an argument, if one is known to be wrong. Returns whether one is.
fn put_known(
    alloc: Global,
    text: &mut String,
    entry: &Entry,
    words: &[&str],
) -> Result<bool, AllocError> {
    if put_wrong(text, entry.2, words)? {
        return Ok(true);
    }
    if put_unknown(text, entry.0, words)? {
        return Ok(true);
    }
    put_unknown_group(alloc, text, entry.0, words)
}

// Adds that a page is asked for of no command, or that the words ask for nothing.
fn put_nothing(text: &mut String, entry: &Entry, words: &[&str]) -> Result<(), AllocError> {
    match (entry.4, words) {
        (Command::Manual, [word, ..]) => write!(text, "{word} is no COMMAND"),
        (Command::Review, [_, _, word]) => write!(text, "html is missing behind {word}"),
        (Command::Join | Command::Meet, [_, _]) => text.push_str("a second PROFILE is missing"),
        _ => text.push_str("these words ask for nothing"),
    }
}

// Adds that an argument is missing, or is one too many, or that the words ask for nothing.
fn put_count(text: &mut String, entry: &Entry, words: &[&str]) -> Result<(), AllocError> {
    let (least, most) = entry.1;
    if words.len() < least {
        if let Some(missing) = entry.2.get(words.len()) {
            return write!(text, "{} is missing", missing.0);
        }
    }
    match words.get(most) {
        Some(more) => write!(text, "{more} is one argument too many"),
        None => put_nothing(text, entry, words),
    }
}

// The line that says what is wrong with the arguments of a command.
fn line_of(alloc: Global, entry: &Entry, words: &[&str]) -> Result<String, AllocError> {
    let mut text = String::from_str(alloc, "ccell: ")?;
    if !put_known(alloc, &mut text, entry, words)? {
        put_count(&mut text, entry, words)?;
    }
    writeln!(text, " (ccell manual {})", entry.0)?;
    Ok(text)
}

// The command behind `json` and its arguments, if it is one that `json` takes.
fn behind_json<'a>(entry: &Entry, words: &'a [&'a str]) -> Option<(Entry, &'a [&'a str])> {
    let Command::Json = entry.4 else {
        return None;
    };
    let [name, rest @ ..] = words else {
        return None;
    };
    let inner = called(commands(), name)?;
    if is_word(entry.2.first()?, name) {
        return Some((inner, rest));
    }
    None
}

// The line that says what is wrong with the arguments of a command, or of the one behind `json`.
fn line_on(alloc: Global, entry: &Entry, words: &[&str]) -> Result<String, AllocError> {
    match behind_json(entry, words) {
        Some((inner, rest)) => line_of(alloc, &inner, rest),
        None => line_of(alloc, entry, words),
    }
}

/// A line about wrong arguments, if they begin with the name of a command of our own.
pub fn advice(alloc: Global, arguments: &[&str]) -> Result<Option<String>, AllocError>
    ensures { IfOk result (λ told. IfSome told (λ _. IsOurs (texts arguments.now))) }
{
    match ours(arguments) {
        Some(entry) => {
            let words = &arguments[arguments.len().min(1)..];
            Ok(Some(line_on(alloc, &entry, words)?))
        }
        None => Ok(None),
    }
}
