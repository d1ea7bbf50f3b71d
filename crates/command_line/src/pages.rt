//! How the commands are used: the list of them, and the page of each, made of the one table.
ghost use Rattle.std.specs.Prelude.{◌≡◌, ◌++◌, IfOk, OnOk, find, map, option_map, string_bytes};
ghost use Rattle.std.specs.Str.{bytes_eq};
ghost use Rattle.command_line.specs.Lines.{row_called};
ghost use Rattle.command_line.specs.Manual.{IsPage, line_of, list_of};
ghost use Rattle.command_line.specs.Prose.{prose_text};
ghost use Rattle.command_line.specs.Table.{Text, row, rows};

use crate::reading::called;
use crate::table::{Entry, Part, commands};
use clap::{Arg, Command};
use std::alloc::{AllocError, Global};

// How wide the names are in the list.
const COLUMNS: usize = 10;

// Writes the line of a command: its name, and what it is for.
fn push_line(told: &mut String, alloc: Global, entry: &Entry) -> Result<(), AllocError>
    ensures { OnOk result (string_bytes told.new ≡ string_bytes told.old ++ line_of (row entry.now)) }
{
    let blanks = " ".repeat(alloc, COLUMNS.saturating_sub(entry.0.len()))?;
    told.push_str(entry.0)?;
    told.push_str(blanks.as_str())?;
    told.push_str(entry.3)?;
    told.push_str("\n")
}

// The list of the commands.
fn list(alloc: Global, entries: &[Entry]) -> Result<String, AllocError>
    ensures { IfOk result (λ told. string_bytes told ≡ list_of (map row entries.now)) }
{
    let mut told = String::new(alloc);
    for entry in entries {
        push_line(&mut told, alloc, entry)?;
    }
    Ok(told)
}

// A part of a command, as clap tells it: the last may be left out or stand for several arguments, by the count.
fn part_of<'a>(alloc: Global, entry: &'a Entry, place: usize, part: &'a Part) -> Arg<'a> {
    let (least, most) = entry.1;
    let last = place.saturating_add(1) == entry.2.len();
    let many = if last { most.saturating_sub(place) } else { 1 };
    Arg::new(alloc, part.0)
        .help(part.1.text())
        .required(place < least)
        .num_args(1..=many)
}

// A command with its parts, as clap tells it.
fn usage_of<'a>(alloc: Global, entry: &'a Entry) -> Result<Command<'a>, AllocError> {
    let mut command = Command::new(alloc, entry.0).about(entry.3);
    for (place, part) in entry.2.iter().enumerate() {
        command = command.arg(part_of(alloc, entry, place, part))?;
    }
    Ok(command)
}

// The page of a command: what it is for, its usage and its parts as clap tells them, and its prose.
fn page(alloc: Global, entry: &Entry) -> Result<String, AllocError>
    ensures { IfOk result (λ told. (head : Text) × (string_bytes told ≡ head ++ prose_text entry.now.4)) }
{
    let name = entry.0;
    let spelled = format!(in alloc; "ccell {name}")?;
    let command = usage_of(alloc, entry)?.disable_help_flag(true);
    let mut told = command.bin_name(spelled.as_str())?.render_help()?;
    told.push_str("\n")?;
    told.push_str(entry.4.prose())?;
    Ok(told)
}

/// How a command is used, or a line for each command where none is named. `None` where there is no command of that name.
pub fn manual(alloc: Global, command: Option<&str>) -> Result<Option<String>, AllocError>
    ensures list { command.entry ≡ None → IfOk result (λ told. option_map string_bytes told ≡ Some (list_of rows)) }
    // A name has a page just where the table has a command of that name.
    ensures page { (name : Text) → option_map (λ n. n.now) command.entry ≡ Some name
        → IfOk result (λ told. IsPage (row_called name rows) (option_map string_bytes told)) }
{
    let Some(name) = command else {
        return Ok(Some(list(alloc, commands())?));
    };
    match called(commands(), name) {
        Some(entry) => Ok(Some(page(alloc, &entry)?)),
        None => Ok(None),
    }
}
