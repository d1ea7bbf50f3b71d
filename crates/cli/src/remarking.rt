//! What is said behind a no or a refusal of files that are read as bundles: what they are, or at which place they are wrong.
ghost use Rattle.std.specs.Prelude.{◌≡◌, take};
ghost use Rattle.command_line.specs.Lines.{Given, IsCommandLine, texts};
ghost use Rattle.cli.specs.Parts.{read};
ghost use Rattle.cli.specs.Remarked as spec;
ghost use Rattle.cli.specs.Remarked.{MayRemark, RemarksOf, RemarksOn};

use crate::files::Files;
use crate::parts::{Parts, parts_of};
use crate::widening::from_in;
use command_line::{Command, read_arguments};
use machines::{Arch, Family};
use std::alloc::Global;
use texts::{Sink, write_all};

// So many words, if there are as many.
fn first<'a>(words: &'a [&'a str], count: usize) -> &'a [&'a str]
    ensures { texts result.now ≡ take count (texts words.entry.now) }
{
    &words[..count.min(words.len())]
}

// The names of the files that a command reads as bundles.
fn bundle_names<'a>(command: Command, parts: &Parts<'a>) -> &'a [&'a str]
    ensures { texts result.now ≡ spec.bundle_names command (read parts.now) }
{
    match command {
        Command::Certify
        | Command::Check
        | Command::Explain
        | Command::Export
        | Command::Lint
        | Command::Read
        | Command::Replay => first(parts.from_two, 1),
        Command::Compare => {
            if parts.four == "filters" {
                return first(parts.from_two, 0);
            }
            first(parts.from_two, 2)
        }
        Command::Review => {
            if parts.four == "html" {
                return first(parts.from_two, 2);
            }
            first(parts.from_two, 1)
        }
        Command::Join | Command::Meet | Command::Run => parts.from_two,
        Command::Learn => match from_in(parts.from_two) {
            Some(_) => first(parts.from_three, 1),
            None => first(parts.from_two, 0),
        },
        _ => first(parts.from_two, 0),
    }
}

// Whether the answer of a command has told the place of a fault itself.
fn has_told(command: Command) -> bool {
    matches!(command, Command::Read)
}

// Writes what is told of the file of a name, if it can be read once more.
fn remark<F: Files, E: Sink>(
    alloc: Global,
    command: Command,
    native: Arch,
    name: &str,
    files: &mut F,
    err: &mut E,
)
    ensures { MayRemark E.held E.failures native name.now err.old err.new }
{
    let Ok(bytes) = files.read(alloc, name) else {
        return;
    };
    if let Ok(text) = show::remark_on(alloc, native, name, bytes, has_told(command)) {
        let _ = write_all(&text, err);
    }
}

// Writes, for each name in order, what is told of its file, if that can be read once more.
fn remark_each<F: Files, E: Sink>(
    alloc: Global,
    command: Command,
    native: Arch,
    names: &[&str],
    files: &mut F,
    err: &mut E,
)
    ensures { RemarksOn E.held E.failures native (texts names.now) err.old err.new }
{
    match names {
        [name, others @ ..] => {
            remark(alloc, command, native, name, files, err);
            remark_each(alloc, command, native, others, files, err);
        }
        [] => {}
    }
}

/// Writes what is told of each file that the command of these arguments reads as a bundle, and that is none or is wrong. For the
/// machines of the chosen lists no file is read, and nothing is written.
pub(crate) fn remark_on<F: Files, E: Sink>(
    alloc: Global,
    arguments: &[&str],
    files: &mut F,
    err: &mut E,
)
    ensures { (command : Given) → IsCommandLine arguments.entry.now command → RemarksOf E.held E.failures command err.old err.new }
{
    let Ok(line) = read_arguments(alloc, arguments) else {
        return;
    };
    let parts = parts_of(line.parts);
    match parts.native.family() {
        Family::Chosen => {}
        Family::Whole => {
            let names = bundle_names(line.command, &parts);
            remark_each(alloc, line.command, parts.native, names, files, err);
        }
    }
}
