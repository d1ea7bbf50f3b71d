//! The calls of each machine, by name and by number.
ghost use Rattle.std.specs.Prelude.{◌≡◌, option_copied};
ghost use Rattle.call_tables.specs.Table.{entries, number_in, name_in, IsInverse};
ghost use Rattle.call_tables.specs.Tables as spec;
ghost use Rattle.call_tables.specs.Tables.{table_of};

use crate::calls::{AARCH64_CALLS, X86_64_CALLS};
use crate::linux::{linux_name, linux_number};
use crate::table::{find_name, find_number};
use machines::Arch;

// Each of the next two is the one place where a table is spelled out as code; those of Linux are in `linux`.

#[tactic(auto, unfolding(crate::specs::Tables::x86_64_table))]
fn x86_64_calls() -> &'static [(&'static str, u32)]
    ensures { entries result.now ≡ spec.x86_64_table }
{
    X86_64_CALLS
}

#[tactic(auto, unfolding(crate::specs::Tables::aarch64_table))]
fn aarch64_calls() -> &'static [(&'static str, u32)]
    ensures { entries result.now ≡ spec.aarch64_table }
{
    AARCH64_CALLS
}

/// The number of the call of that name, or `None` where the machine has no such call.
#[tactic(auto, unfolding(crate::specs::Tables::linux_x86_64_table, crate::specs::Tables::linux_x86_table, crate::specs::Tables::linux_x32_table, crate::specs::Tables::linux_aarch64_table, crate::specs::Tables::linux_arm_table, crate::specs::Tables::linux_riscv64_table, crate::specs::Tables::linux_ppc64le_table, crate::specs::Tables::linux_loongarch64_table, crate::specs::Tables::linux_s390x_table, crate::specs::Tables::linux_s390_table))]
pub fn call_number(arch: Arch, name: &str) -> Option<u32>
    ensures { result ≡ number_in (table_of arch) name.now }
{
    match arch {
        Arch::X86_64 => find_number(x86_64_calls(), name),
        Arch::Aarch64 => find_number(aarch64_calls(), name),
        Arch::LinuxX86_64 => linux_number(0, name),
        Arch::LinuxX86 => linux_number(1, name),
        Arch::LinuxX32 => linux_number(2, name),
        Arch::LinuxAarch64 => linux_number(3, name),
        Arch::LinuxArm => linux_number(4, name),
        Arch::LinuxRiscv64 => linux_number(5, name),
        Arch::LinuxPpc64le => linux_number(6, name),
        Arch::LinuxLoongarch64 => linux_number(7, name),
        Arch::LinuxS390x => linux_number(8, name),
        Arch::LinuxS390 => linux_number(9, name),
    }
}

/// The name of the call of that number, or `None` where the machine has no such call.
#[tactic(auto, unfolding(crate::specs::Tables::linux_x86_64_table, crate::specs::Tables::linux_x86_table, crate::specs::Tables::linux_x32_table, crate::specs::Tables::linux_aarch64_table, crate::specs::Tables::linux_arm_table, crate::specs::Tables::linux_riscv64_table, crate::specs::Tables::linux_ppc64le_table, crate::specs::Tables::linux_loongarch64_table, crate::specs::Tables::linux_s390x_table, crate::specs::Tables::linux_s390_table))]
pub fn call_name(arch: Arch, number: u32) -> Option<&'static str>
    ensures { option_copied result ≡ name_in (table_of arch) number }
{
    match arch {
        Arch::X86_64 => find_name(x86_64_calls(), number),
        Arch::Aarch64 => find_name(aarch64_calls(), number),
        Arch::LinuxX86_64 => linux_name(0, number),
        Arch::LinuxX86 => linux_name(1, number),
        Arch::LinuxX32 => linux_name(2, number),
        Arch::LinuxAarch64 => linux_name(3, number),
        Arch::LinuxArm => linux_name(4, number),
        Arch::LinuxRiscv64 => linux_name(5, number),
        Arch::LinuxPpc64le => linux_name(6, number),
        Arch::LinuxLoongarch64 => linux_name(7, number),
        Arch::LinuxS390x => linux_name(8, number),
        Arch::LinuxS390 => linux_name(9, number),
    }
}

/// On each machine the look-up of a name and the look-up of a number undo each other.
pub fn look_ups_are_inverse(arch: Arch)
    ensures { IsInverse (table_of arch) }
{}
