//! The names of the table as the grammar by which clap reads arguments.
ghost use Rattle.std.specs.Prelude.{◌≡◌, false, IfOk, map};
ghost use Rattle.clap.specs.Words.{app_of, rule_of};
ghost use Rattle.clap.specs.declared.builder.command.Command.TheViews.{out-Command as fields_of};
ghost use Rattle.command_line.specs.Table.{row};
ghost use Rattle.command_line.specs.inner.Grammar.{IsGrammarOf, IsLeafOf, parts_rule, top};

use crate::table::Entry;
use clap::{Arg, Command};
use std::alloc::{AllocError, Global};

// The arguments behind the name of a command.
fn parts<'a>(alloc: Global) -> Arg<'a>
    ensures rule { rule_of result ≡ parts_rule }
    ensures own { result.global ≡ false }
{
    Arg::new(alloc, "PARTS").num_args(1..=usize::MAX)
}

// The grammar of the command of that name.
fn command_called<'a>(alloc: Global, name: &'a str) -> Result<Command<'a>, AllocError>
    ensures { IfOk result (IsLeafOf name.entry.now) }
{
    Command::new(alloc, name).arg(parts(alloc))
}

// The program before its commands.
fn program<'a>(alloc: Global) -> Command<'a>
    ensures app { app_of result ≡ top }
    ensures own { (fields_of result).has_globals ≡ false }
{
    Command::new(alloc, "ccell")
        .no_binary_name(true)
        .subcommand_required(true)
        .disable_help_flag(true)
        .disable_help_subcommand(true)
        .disable_version_flag(true)
}

/// The grammar of the program with these commands.
pub(crate) fn grammar<'a>(alloc: Global, entries: &'a [Entry]) -> Result<Command<'a>, AllocError>
    ensures { IfOk result (IsGrammarOf (map row entries.entry.now)) }
{
    let mut program = program(alloc);
    for entry in entries {
        program = program.subcommand(command_called(alloc, entry.0)?)?;
    }
    Ok(program)
}
