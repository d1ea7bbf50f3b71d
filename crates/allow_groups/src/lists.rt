//! Which of several names machines have.
ghost use Rattle.std.specs.Prelude.{◌≡◌, IfOk, filter, map, not};
ghost use Rattle.std.specs.List.{list_any};
ghost use Rattle.allow_groups.specs.Report as spec;
ghost use Rattle.call_groups.specs.Groups.{now_of};

use call_tables::call_number;
use machines::Arch;
use std::alloc::{AllocError, Global};

// Whether a machine has a call of that name.
fn has_on(arch: Arch, name: &str) -> bool
    ensures { result ≡ spec.has_on name.now arch }
{
    call_number(arch, name).is_some()
}

/// Whether one of these machines has a call of that name.
pub(crate) fn has(machines: &[Arch], name: &str) -> bool
    ensures { result ≡ spec.has machines.now name.now }
{
    for arch in machines {
        if has_on(*arch, name) {
            return true;
        }
    }
    false
}

/// No names.
pub(crate) fn no_names(alloc: Global) -> Vec<&'static str>
    ensures { map now_of result.items ≡ spec.none }
{
    Vec::new(alloc)
}

/// Those of the names that one of the machines has.
pub(crate) fn having(
    alloc: Global,
    machines: &[Arch],
    names: &[&'static str],
) -> Result<Vec<&'static str>, AllocError>
    ensures { IfOk result (λ list. map now_of list.items ≡ filter (spec.has machines.now) (map now_of names.now)) }
{
    let mut list = no_names(alloc);
    for name in names {
        if has(machines, name) {
            list.push(*name)?;
        }
    }
    Ok(list)
}

/// Those that no machine has.
pub(crate) fn lacking(
    alloc: Global,
    machines: &[Arch],
    names: &[&'static str],
) -> Result<Vec<&'static str>, AllocError>
    ensures { IfOk result (λ list. map now_of list.items ≡ filter (spec.lacks machines.now) (map now_of names.now)) }
{
    let mut list = no_names(alloc);
    for name in names {
        if !has(machines, name) {
            list.push(*name)?;
        }
    }
    Ok(list)
}
