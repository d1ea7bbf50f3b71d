//! Which command arguments are, as clap reads them by the names of the table, and as their row says.
ghost use Rattle.std.specs.Prelude.{◌≡◌, ◌↔◌, Any, Err, IsErr, IsTrue, find, map, option_map};
ghost use Rattle.std.specs.List.{list_all, list_any, zip};
ghost use Rattle.std.specs.Str.{bytes_eq};
ghost use Rattle.command_line.specs.Lines as spec;
ghost use Rattle.command_line.specs.Lines.{Given, IsCommandLine, IsDashed, NoCommandLine, Reads, given, texts};
ghost use Rattle.command_line.specs.Table.{row};
ghost use Rattle.command_line.specs.inner.Misused.{misuse_by};
ghost use Rattle.command_line.specs.declared.reading.Misuse.TheVariants.{Usage};

use crate::grammar::grammar;
use crate::prose::Command;
use crate::table::{Entry, Part, commands};
use clap::error::ErrorKind;
use std::alloc::Global;

/// A command, and the arguments that stand for its parts.
#[derive(Clone, Copy)]
pub struct CommandLine<'a> {
    /// Which command it is.
    pub command: Command,
    /// As many arguments as its row says, in order.
    pub parts: &'a [&'a str],
}

/// Why arguments are no command.
#[derive(Clone, Copy, Debug, PartialEq, Eq)]
pub enum Misuse {
    /// They are no command, or one of them begins with `-`.
    Usage,
    /// There is not enough memory to read them.
    OutOfMemory,
}

// Whether an argument begins with `-`.
fn is_dashed(argument: &str) -> bool
    ensures { IsTrue result ↔ IsDashed argument.now }
{
    argument.as_bytes().first() == Some(&b'-')
}

fn has_dashed(arguments: &[&str]) -> bool
    ensures { IsTrue result ↔ Any (λ a. IsDashed a.now) arguments.now }
{
    arguments.iter().any(|argument| is_dashed(argument))
}

/// The command of that name.
pub(crate) fn called(entries: &[Entry], name: &str) -> Option<Entry>
    ensures { result ≡ find (λ entry. bytes_eq entry.0.now name.now) entries.now }
{
    entries.iter().copied().find(|entry| entry.0 == name)
}

// Whether one of these words is this.
fn contain(words: &[&str], word: &str) -> bool
    ensures { result ≡ list_any (λ w. bytes_eq w.now word.now) words.now }
{
    words.iter().any(|one| *one == word)
}

/// Whether an argument may stand for a part.
pub(crate) fn is_word(part: &Part, word: &str) -> bool
    ensures { result ≡ spec.is_word (part.now.1, word.now) }
{
    let words = part.1.words();
    words.is_empty() || contain(words, word)
}

// Whether each argument may stand for its part.
fn are_words(parts: &[Part], words: &[&str]) -> bool
    ensures { result ≡ list_all spec.is_word (zip (map (λ part. part.1) parts.now) (texts words.now)) }
{
    for place in 0..parts.len().min(words.len()) {
        if !is_word(&parts[place], words[place]) {
            return false;
        }
    }
    true
}

// Whether the row takes these arguments.
fn takes(entry: &Entry, words: &[&str]) -> bool
    ensures { result ≡ spec.takes (row entry.now) (texts words.now) }
{
    let (least, most) = entry.1;
    let count = words.len();
    least <= count && count <= most && are_words(entry.2, words)
}

// The command of that name with these arguments, if the table has it.
fn line_called<'a>(name: &str, parts: &'a [&'a str]) -> Option<CommandLine<'a>>
    ensures { option_map given result ≡ spec.command_called name.now (texts parts.entry.now) }
{
    let entry = called(commands(), name)?;
    if takes(&entry, parts) {
        let command = entry.4;
        return Some(CommandLine { command, parts });
    }
    None
}

// The command that arguments are by the table.
fn line_of<'a>(arguments: &'a [&'a str]) -> Option<CommandLine<'a>>
    ensures { option_map given result ≡ spec.command_of (texts arguments.entry.now) }
{
    match arguments {
        [name, parts @ ..] => line_called(name, parts),
        _ => None,
    }
}

// What clap's fault is: a call for help is no command either.
fn misuse_of(kind: ErrorKind) -> Misuse
    ensures { result ≡ misuse_by kind }
{
    match kind {
        ErrorKind::OutOfMemory => Misuse::OutOfMemory,
        _ => Misuse::Usage,
    }
}

/// The command that arguments are: its name first, and its parts behind it, each an argument. One that begins with `-` is
/// never part of a command.
pub fn read_arguments<'a>(
    alloc: Global,
    arguments: &'a [&'a str],
) -> Result<CommandLine<'a>, Misuse>
    // Arguments that are a command are read as it, unless memory is refused.
    ensures command { (g : Given) → IsCommandLine arguments.entry.now g → Reads g result }
    // Arguments that are none are refused; where one begins with a hyphen, no memory is needed for that.
    ensures none { NoCommandLine arguments.entry.now → IsErr result }
    ensures dashed { Any (λ a. IsDashed a.now) arguments.entry.now → result ≡ Err Usage }
{
    if has_dashed(arguments) {
        return Err(Misuse::Usage);
    }
    let Ok(grammar) = grammar(alloc, commands()) else {
        return Err(Misuse::OutOfMemory);
    };
    match grammar.try_get_matches_from(&*arguments) {
        Ok(_matches) => match line_of(arguments) {
            Some(line) => Ok(line),
            None => Err(Misuse::Usage),
        },
        Err(error) => Err(misuse_of(error.kind())),
    }
}
