//! The calls of groups.
ghost use Rattle.std.specs.Prelude.{◌≡◌, ◌++◌, IfOk, map};
ghost use Rattle.call_groups.specs.Groups as spec;

use crate::own::{no_names, own_names, put_names, put_own};
use std::alloc::{AllocError, Global};

/// Whether a name stands for a group: it begins with an `@`.
pub fn is_group(name: &str) -> bool
    ensures { result ≡ spec.is_group name.now }
{
    name.as_bytes().starts_with(b"@")
}

// Adds a name, or what stands for the group that it names.
fn put_written_out(names: &mut Vec<&'static str>, name: &'static str) -> Result<(), AllocError>
    ensures { IfOk result (λ _. map spec.now_of names.new.items ≡ map spec.now_of names.old.items ++ spec.written_out name.now) }
{
    if is_group(name) {
        return put_own(names, name);
    }
    names.push(name)?;
    Ok(())
}

// Names, with what stands for the groups among them in their place.
fn all_written_out(alloc: Global, names: &[&'static str]) -> Result<Vec<&'static str>, AllocError>
    ensures { IfOk result (λ all. map spec.now_of all.items ≡ spec.all_written_out (map spec.now_of names.now)) }
{
    let mut all = no_names(alloc);
    for name in names {
        put_written_out(&mut all, *name)?;
    }
    Ok(all)
}

/// The names of the calls of a group, those of the groups in it at their places: none, if there is no such group.
pub fn calls_of(alloc: Global, group: &str) -> Result<Vec<&'static str>, AllocError>
    ensures { IfOk result (λ calls. map spec.now_of calls.items ≡ spec.calls_of group.now) }
{
    let own = own_names(alloc, group)?;
    let outer = all_written_out(alloc, &own)?;
    let all = all_written_out(alloc, &outer)?;
    Ok(all)
}

// Adds the names of the calls of a group.
fn put_calls(alloc: Global, names: &mut Vec<&'static str>, group: &str) -> Result<(), AllocError>
    ensures { IfOk result (λ _. map spec.now_of names.new.items ≡ map spec.now_of names.old.items ++ spec.calls_of group.now) }
{
    let calls = calls_of(alloc, group)?;
    put_names(names, &calls)
}

/// Those of several groups, one behind the other.
pub fn calls_of_all(alloc: Global, groups: &[&str]) -> Result<Vec<&'static str>, AllocError>
    ensures { IfOk result (λ calls. map spec.now_of calls.items ≡ spec.calls_of_all (map spec.now_of groups.now)) }
{
    let mut names = no_names(alloc);
    for group in groups {
        put_calls(alloc, &mut names, group)?;
    }
    Ok(names)
}
