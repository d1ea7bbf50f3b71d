//! The calls of systemd's groups that a profile's machines have.
ghost use Rattle.std.specs.Prelude.{◌≡◌, [], IfOk, filter, map};
ghost use Rattle.std.specs.List.{list_any};
ghost use Rattle.std.specs.Str.{bytes_eq};
ghost use Rattle.call_groups.specs.Groups.{now_of};
ghost use Rattle.review.specs.Systemd as spec;

use crate::asked::whole;
use call_groups::calls_of;
use call_tables::call_number;
use machines::Arch;
use std::alloc::{AllocError, Global};

// Whether a machine has a call of that name.
fn has_on(arch: Arch, name: &str) -> bool
    ensures { result ≡ spec.has_on name.now arch }
{
    call_number(whole(arch), name).is_some()
}

// Whether one of these machines has a call of that name.
fn has(machines: &[Arch], name: &str) -> bool
    ensures { result ≡ spec.has machines.now name.now }
{
    for arch in machines {
        if has_on(*arch, name) {
            return true;
        }
    }
    false
}

// No names.
fn no_names(alloc: Global) -> Vec<&'static str>
    ensures { map now_of result.items ≡ spec.none }
{
    Vec::new(alloc)
}

// Those of the names that one of the machines has.
fn having(
    alloc: Global,
    machines: &[Arch],
    names: &[&'static str],
) -> Result<Vec<&'static str>, AllocError>
    ensures { IfOk result (λ list. map now_of list.items ≡ filter (spec.has machines.now) (map now_of names.now)) }
{
    let mut list = no_names(alloc);
    for name in names {
        if has(machines, name) {
            list.push(*name)?;
        }
    }
    Ok(list)
}

// Whether a name is among others.
fn is_among(names: &[&'static str], name: &str) -> bool
    ensures { result ≡ list_any (bytes_eq name.now) (map now_of names.now) }
{
    for other in names {
        if name == *other {
            return true;
        }
    }
    false
}

// Adds a name that is not there yet.
fn put_once(names: &mut Vec<&'static str>, name: &'static str) -> Result<(), AllocError>
    ensures { IfOk result (λ _. map now_of names.new.items ≡ spec.with_name (map now_of names.old.items) name.now) }
{
    if is_among(names, name) {
        return Ok(());
    }
    names.push(name)?;
    Ok(())
}

// Each of the names once.
fn once(alloc: Global, names: &[&'static str]) -> Result<Vec<&'static str>, AllocError>
    ensures { IfOk result (λ list. map now_of list.items ≡ spec.once (map now_of names.now)) }
{
    let mut list = no_names(alloc);
    for name in names {
        put_once(&mut list, *name)?;
    }
    Ok(list)
}

/// The names of a group's calls that one of the machines has, each once.
pub(crate) fn members_of(
    alloc: Global,
    machines: &[Arch],
    group: &str,
) -> Result<Vec<&'static str>, AllocError>
    ensures { IfOk result (λ names. map now_of names.items ≡ spec.members machines.now group.now) }
{
    let calls = calls_of(alloc, group)?;
    let had = having(alloc, machines, &calls)?;
    let names = once(alloc, &had)?;
    Ok(names)
}
