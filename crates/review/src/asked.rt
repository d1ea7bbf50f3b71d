//! The calls of machines that rows of a group ask about.
ghost use Rattle.std.specs.Prelude.{◌≡◌, ◌++◌, IfOk};
ghost use Rattle.review.specs.Asked as spec;

use crate::groups::{Part, Row};
use call_tables::call_number;
use machines::Arch;
use std::alloc::{AllocError, Global};

/// Some records of a call of a machine.
#[derive(Clone, Copy)]
pub struct Asked {
    pub arch: Arch,
    /// The number of the call.
    pub nr: u32,
    pub part: Part,
}

/// The machine of the whole tables that has the same calls. The chosen lists leave out most calls of the groups.
pub(crate) fn whole(arch: Arch) -> Arch
    ensures { result ≡ spec.whole arch }
{
    match arch {
        Arch::X86_64 => Arch::LinuxX86_64,
        Arch::Aarch64 => Arch::LinuxAarch64,
        Arch::LinuxX86_64
        | Arch::LinuxX32
        | Arch::LinuxX86
        | Arch::LinuxAarch64
        | Arch::LinuxArm
        | Arch::LinuxRiscv64
        | Arch::LinuxPpc64le
        | Arch::LinuxLoongarch64
        | Arch::LinuxS390x
        | Arch::LinuxS390 => arch,
    }
}

// The part of a call on a machine. The flags of clone, the first argument elsewhere, are the second one on s390x and s390
// (clone(2), C library/kernel differences).
fn part_on(arch: Arch, name: &str, part: Part) -> Part
    ensures { result ≡ spec.part_on arch name.now part.entry }
{
    if !arch.is_big_endian() || name != "clone" {
        return part;
    }
    let (title, _, mask, bits) = part;
    (title, 1, mask, bits)
}

// Adds a call of a machine, if the machine has it.
fn add_on(list: &mut Vec<Asked>, arch: Arch, name: &str, part: Part) -> Result<(), AllocError>
    ensures { IfOk result (λ _. list.new.items ≡ list.old.items ++ spec.asked_on part.entry name.now arch) }
{
    let part = part_on(arch, name, part);
    match call_number(whole(arch), name) {
        Some(nr) => {
            list.push(Asked { arch, nr, part })?;
            Ok(())
        }
        None => Ok(()),
    }
}

// Adds a call of machines.
fn add_call(
    list: &mut Vec<Asked>,
    machines: &[Arch],
    name: &str,
    part: Part,
) -> Result<(), AllocError>
    ensures { IfOk result (λ _. list.new.items ≡ list.old.items ++ spec.asked_by machines.now part.entry name.now) }
{
    for arch in machines {
        add_on(list, *arch, name, part)?;
    }
    Ok(())
}

/// A call of machines.
pub(crate) fn asked_by(
    alloc: Global,
    machines: &[Arch],
    name: &str,
    part: Part,
) -> Result<Vec<Asked>, AllocError>
    ensures { IfOk result (λ list. list.items ≡ spec.asked_by machines.now part.entry name.now) }
{
    let mut list = Vec::new(alloc);
    add_call(&mut list, machines, name, part)?;
    Ok(list)
}

// Adds the calls of a row.
fn add_row(list: &mut Vec<Asked>, machines: &[Arch], row: &Row) -> Result<(), AllocError>
    ensures { IfOk result (λ _. list.new.items ≡ list.old.items ++ spec.asked_in machines.now row.now) }
{
    let (names, part) = *row;
    for name in names {
        add_call(list, machines, name, part)?;
    }
    Ok(())
}

/// What the rows of a group ask about on machines.
pub(crate) fn asked_of(
    alloc: Global,
    machines: &[Arch],
    rows: &[Row],
) -> Result<Vec<Asked>, AllocError>
    ensures { IfOk result (λ list. list.items ≡ spec.asked_of machines.now rows.now) }
{
    let mut list = Vec::new(alloc);
    for row in rows {
        add_row(&mut list, machines, row)?;
    }
    Ok(list)
}
