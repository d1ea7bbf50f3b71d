//! The lines that tell what is open of systemd's groups.
ghost use Rattle.std.specs.Prelude.{◌≡◌, ◌++◌, codes, IfOk, map, string_bytes};
ghost use Rattle.std.specs.List.{flat_map, list_all, list_any};
ghost use Rattle.call_groups.specs.Groups.{now_of};
ghost use Rattle.review.specs.SystemdTold as spec;

use crate::member::{Member, Standing};
use std::alloc::{AllocError, Global};
use std::fmt::Write;

fn is_refused(member: &Member) -> bool
    ensures { result ≡ spec.is_refused member.now.standing }
{
    match member.standing {
        Standing::Refused => true,
        Standing::Open => false,
        Standing::Undecided => false,
    }
}

fn is_open(member: &Member) -> bool
    ensures { result ≡ spec.is_open member.now.standing }
{
    match member.standing {
        Standing::Refused => false,
        Standing::Open => true,
        Standing::Undecided => false,
    }
}

fn is_undecided(member: &Member) -> bool
    ensures { result ≡ spec.is_undecided member.now.standing }
{
    match member.standing {
        Standing::Refused => false,
        Standing::Open => false,
        Standing::Undecided => true,
    }
}

fn all_refused(list: &[Member]) -> bool
    ensures { result ≡ list_all (λ m. spec.is_refused m.standing) list.now }
{
    list.iter().all(|member| is_refused(member))
}

fn all_open(list: &[Member]) -> bool
    ensures { result ≡ list_all (λ m. spec.is_open m.standing) list.now }
{
    list.iter().all(|member| is_open(member))
}

fn some_open(list: &[Member]) -> bool
    ensures { result ≡ list_any (λ m. spec.is_open m.standing) list.now }
{
    list.iter().any(|member| is_open(member))
}

// The state of a group, by its calls.
fn state_of(list: &[Member]) -> &'static str
    ensures { result.now ≡ spec.state_of list.now }
{
    if all_refused(list) {
        return "refused";
    }
    if all_open(list) {
        return "open";
    }
    if some_open(list) {
        "in part"
    } else {
        "undecided"
    }
}

// Adds the first line of a group.
fn put_head(text: &mut String, group: &str, list: &[Member]) -> Result<(), AllocError>
    ensures { IfOk result (λ _. string_bytes text.new ≡ string_bytes text.old ++ spec.head_line group.now list.now) }
{
    let state = state_of(list);
    writeln!(text, "group {group}: {state}; systemd's group of this name")
}

// The calls that are refused.
fn refused_names(alloc: Global, list: &[Member]) -> Result<Vec<&'static str>, AllocError>
    ensures { IfOk result (λ names. map now_of names.items ≡ spec.refused_names list.now) }
{
    let mut names = Vec::new(alloc);
    for member in list {
        if is_refused(member) {
            names.push(member.name)?;
        }
    }
    Ok(names)
}

// Those of which a record is let through.
fn open_names(alloc: Global, list: &[Member]) -> Result<Vec<&'static str>, AllocError>
    ensures { IfOk result (λ names. map now_of names.items ≡ spec.open_names list.now) }
{
    let mut names = Vec::new(alloc);
    for member in list {
        if is_open(member) {
            names.push(member.name)?;
        }
    }
    Ok(names)
}

// Those of which that is not decided.
fn undecided_names(alloc: Global, list: &[Member]) -> Result<Vec<&'static str>, AllocError>
    ensures { IfOk result (λ names. map now_of names.items ≡ spec.undecided_names list.now) }
{
    let mut names = Vec::new(alloc);
    for member in list {
        if is_undecided(member) {
            names.push(member.name)?;
        }
    }
    Ok(names)
}

// Adds names behind the first.
fn put_further(text: &mut String, names: &[&'static str]) -> Result<(), AllocError>
    ensures { IfOk result (λ _. string_bytes text.new ≡ string_bytes text.old ++ flat_map spec.further (map now_of names.now)) }
{
    for name in names {
        text.push_str(", ")?;
        text.push_str(name)?;
    }
    Ok(())
}

// Adds the line of a word and names, if there are names.
fn put_names(text: &mut String, word: &str, names: &[&'static str]) -> Result<(), AllocError>
    ensures { IfOk result (λ _. string_bytes text.new ≡ string_bytes text.old ++ spec.names_line word.now (map now_of names.now)) }
{
    match names {
        [] => Ok(()),
        [first, more @ ..] => {
            write!(text, "  {word}: {first}")?;
            put_further(text, more)?;
            text.push_str("\n")
        }
    }
}

// Adds the line of the calls that are refused, or of those that are let through if these are no more.
fn put_fewer(
    text: &mut String,
    refused: &[&'static str],
    through: &[&'static str],
) -> Result<(), AllocError>
    ensures { IfOk result (λ _. string_bytes text.new
        ≡ string_bytes text.old ++ spec.fewer_line (map now_of refused.now) (map now_of through.now)) }
{
    if refused.len() < through.len() {
        put_names(text, "refused", refused)
    } else {
        put_names(text, "open", through)
    }
}

/// Adds the lines of a group.
pub(crate) fn put_systemd(
    alloc: Global,
    text: &mut String,
    group: &str,
    list: &[Member],
) -> Result<(), AllocError>
    ensures { IfOk result (λ _. string_bytes text.new ≡ string_bytes text.old ++ spec.group_text group.now list.now) }
{
    let refused = refused_names(alloc, list)?;
    let through = open_names(alloc, list)?;
    let undecided = undecided_names(alloc, list)?;
    put_head(text, group, list)?;
    put_fewer(text, &refused, &through)?;
    put_names(text, "undecided", &undecided)?;
    Ok(())
}
