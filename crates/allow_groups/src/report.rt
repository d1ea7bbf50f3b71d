//! The lines that tell which calls of groups are allowed.
ghost use Rattle.std.specs.Prelude.{◌≡◌, ◌++◌, IfOk, map, string_bytes};
ghost use Rattle.std.specs.List.{flat_map};
ghost use Rattle.allow_groups.specs.Report as spec;
ghost use Rattle.call_groups.specs.Groups.{now_of};

use crate::lists::{having, lacking};
use call_groups::calls_of;
use machines::Arch;
use std::alloc::{AllocError, Global};

// Adds each name behind a space.
fn put_names(text: &mut String, names: &[&'static str]) -> Result<(), AllocError>
    ensures { IfOk result (λ _. string_bytes text.new ≡ string_bytes text.old ++ flat_map spec.spaced (map now_of names.now)) }
{
    for name in names {
        text.push_str(" ")?;
        text.push_str(name)?;
    }
    Ok(())
}

// Adds the line of a group, if there are names.
fn put_line(
    text: &mut String,
    group: &str,
    words: &str,
    names: &[&'static str],
) -> Result<(), AllocError>
    ensures { IfOk result (λ _. string_bytes text.new ≡ string_bytes text.old ++ spec.line_of group.now words.now (map now_of names.now)) }
{
    match names {
        [] => Ok(()),
        [_, ..] => {
            text.push_str(group)?;
            text.push_str(words)?;
            put_names(text, names)?;
            text.push_str("\n")
        }
    }
}

// Adds the lines of a group.
fn put_group(
    alloc: Global,
    text: &mut String,
    machines: &[Arch],
    group: &str,
) -> Result<(), AllocError>
    ensures { IfOk result (λ _. string_bytes text.new ≡ string_bytes text.old ++ spec.group_report machines.now group.now) }
{
    let calls = calls_of(alloc, group)?;
    let had = having(alloc, machines, &calls)?;
    let lacked = lacking(alloc, machines, &calls)?;
    put_line(text, group, " allows", &had)?;
    put_line(text, group, " has, and no machine of the profile:", &lacked)?;
    Ok(())
}

/// The lines of groups.
pub(crate) fn report(
    alloc: Global,
    machines: &[Arch],
    groups: &[&str],
) -> Result<String, AllocError>
    ensures { IfOk result (λ text. string_bytes text ≡ spec.report machines.now (map now_of groups.now)) }
{
    let mut text = String::new(alloc);
    for group in groups {
        put_group(alloc, &mut text, machines, group)?;
    }
    Ok(text)
}
