//! Machines by the numbers that libseccomp has for them.
ghost use Rattle.std.specs.Prelude.{◌≡◌, ◌<◌, Some, None, IfOk, IfErr, map, length, slice_get};
ghost use Rattle.filter_c.specs.Machine.{machine_with};

use machines::Arch;
use std::alloc::{AllocError, Global};

/// The machine with this number, in which x32 differs from x86-64.
#[tactic(auto, unfolding(crate::specs::Machine::machine_with))]
pub fn machine_with(number: u32) -> Option<Arch>
    ensures { result ≡ machine_with number }
{
    match number {
        0xc000_003e => Some(Arch::LinuxX86_64),
        0x4000_0003 => Some(Arch::LinuxX86),
        0x4000_003e => Some(Arch::LinuxX32),
        0xc000_00b7 => Some(Arch::LinuxAarch64),
        0x4000_0028 => Some(Arch::LinuxArm),
        0xc000_00f3 => Some(Arch::LinuxRiscv64),
        0xc000_0015 => Some(Arch::LinuxPpc64le),
        0xc000_0102 => Some(Arch::LinuxLoongarch64),
        _ => None,
    }
}
