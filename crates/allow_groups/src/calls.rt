//! The calls that machines have under names.
ghost use Rattle.std.specs.Prelude.{◌≡◌, ◌++◌, IfOk};
ghost use Rattle.allow_groups.specs.Calls as spec;
ghost use Rattle.call_groups.specs.Groups.{now_of};
ghost use Rattle.std.specs.Prelude.{map};

use call_tables::call_number;
use machines::Arch;
use std::alloc::{AllocError, Global};

/// A call of a machine, by its number.
#[derive(Clone, Copy)]
pub struct MachineCall {
    pub arch: Arch,
    pub nr: u32,
}

// Adds a call of a machine, if the machine has it.
fn put_on(list: &mut Vec<MachineCall>, arch: Arch, name: &str) -> Result<(), AllocError>
    ensures { IfOk result (λ _. list.new.items ≡ list.old.items ++ spec.call_on name.now arch) }
{
    match call_number(arch, name) {
        Some(nr) => {
            list.push(MachineCall { arch, nr })?;
            Ok(())
        }
        None => Ok(()),
    }
}

// Adds a call of machines.
fn put_call(list: &mut Vec<MachineCall>, machines: &[Arch], name: &str) -> Result<(), AllocError>
    ensures { IfOk result (λ _. list.new.items ≡ list.old.items ++ spec.calls_by machines.now name.now) }
{
    for arch in machines {
        put_on(list, *arch, name)?;
    }
    Ok(())
}

/// The calls that machines have under names.
pub(crate) fn calls_on(
    alloc: Global,
    machines: &[Arch],
    names: &[&'static str],
) -> Result<Vec<MachineCall>, AllocError>
    ensures { IfOk result (λ list. list.items ≡ spec.calls_on machines.now (map now_of names.now)) }
{
    let mut list = Vec::new(alloc);
    for name in names {
        put_call(&mut list, machines, name)?;
    }
    Ok(list)
}
