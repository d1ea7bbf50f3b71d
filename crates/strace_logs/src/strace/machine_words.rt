//! The machines whose calls a kernel runs.
ghost use Rattle.std.specs.Prelude.{◌≡◌};
ghost use Rattle.strace_logs.specs.Line as spec;

use call_tables::call_number;
use machines::Arch;

/// The machines whose calls one kernel runs, the native one first.
pub fn machines_run(native: Arch) -> &'static [Arch]
    ensures { result.now ≡ spec.machines_run native }
{
    match native {
        Arch::X86_64 => &[Arch::X86_64],
        Arch::Aarch64 => &[Arch::Aarch64],
        Arch::LinuxX86_64 => &[Arch::LinuxX86_64, Arch::LinuxX86, Arch::LinuxX32],
        Arch::LinuxX86 => &[Arch::LinuxX86],
        Arch::LinuxX32 => &[Arch::LinuxX32],
        Arch::LinuxAarch64 => &[Arch::LinuxAarch64, Arch::LinuxArm],
        Arch::LinuxArm => &[Arch::LinuxArm],
        Arch::LinuxRiscv64 => &[Arch::LinuxRiscv64],
        Arch::LinuxPpc64le => &[Arch::LinuxPpc64le],
        Arch::LinuxLoongarch64 => &[Arch::LinuxLoongarch64],
        Arch::LinuxS390x => &[Arch::LinuxS390x, Arch::LinuxS390],
        Arch::LinuxS390 => &[Arch::LinuxS390],
    }
}

// Whether the call of this name has this number on a machine.
fn has_call(arch: Arch, name: &str, nr: u32) -> bool
    ensures { result ≡ spec.has_call arch name.now nr }
{
    match call_number(arch, name) {
        Some(own) => own == nr,
        None => false,
    }
}

/// The machine on which the call of this name has this number.
pub(crate) fn machine_of(native: Arch, name: &str, nr: u32) -> Option<Arch>
    ensures { result ≡ spec.machine_of native name.now nr }
{
    machines_run(native)
        .iter()
        .copied()
        .find(|arch| has_call(*arch, name, nr))
}
