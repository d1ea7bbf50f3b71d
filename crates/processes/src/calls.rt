//! The calls that the kernel tells from one another, and their numbers on each machine.
ghost use Rattle.std.specs.Prelude.{◌≡◌};
ghost use Rattle.call_tables.specs.Tables.{table_of};
ghost use Rattle.processes.specs.Calls.{named_calls};
ghost use Rattle.processes.specs.inner.Numbers.{call_at, numbers_in};

use machines::Arch;

/// The calls that the kernel tells from one another.
#[derive(Clone, Copy)]
pub enum Call {
    /// fork and vfork.
    Fork,
    /// clone.
    Clone,
    /// execve.
    Execve,
    /// exit.
    Exit,
    /// exit_group.
    ExitGroup,
    /// kill.
    Kill,
    /// getpid.
    GetPid,
    /// gettid.
    GetTid,
    /// getppid.
    GetParent,
    /// seccomp.
    Seccomp,
    /// prctl.
    Prctl,
    /// A call that the kernel lacks, though the machine's table has it.
    Lacking,
    /// Any other call that the machine has.
    Plain,
}

impl Call {
    ghost use Rattle.std.specs.Prelude.{◌≡◌, ℕ, List, Some};
    ghost use Rattle.call_tables.specs.Tables.{table_of};
    ghost use Rattle.call_tables.specs.Table.{name_in};
    ghost use Rattle.processes.specs.Calls.{call_beside, named_calls};

    /// The call of a number that the machine has.
    pub(crate) fn numbered(native: Arch, number: u32) -> Call
        ensures { (name : List ℕ) → name_in (table_of native) number ≡ Some name
            → result ≡ call_beside named_calls name }
    {
        find_call(numbers_of(native), number)
    }
}

/// The numbers of these calls on x86-64.
pub(crate) const X86_64_NUMBERS: &[(u32, Call)] = &[
    (57, Call::Fork),
    (58, Call::Fork),
    (56, Call::Clone),
    (59, Call::Execve),
    (60, Call::Exit),
    (231, Call::ExitGroup),
    (62, Call::Kill),
    (39, Call::GetPid),
    (186, Call::GetTid),
    (110, Call::GetParent),
    (317, Call::Seccomp),
    (157, Call::Prctl),
    (435, Call::Lacking),
];

/// The numbers of these calls on AArch64, riscv64 and loongarch64, which have neither fork nor vfork.
pub(crate) const AARCH64_NUMBERS: &[(u32, Call)] = &[
    (220, Call::Clone),
    (221, Call::Execve),
    (93, Call::Exit),
    (94, Call::ExitGroup),
    (129, Call::Kill),
    (172, Call::GetPid),
    (178, Call::GetTid),
    (173, Call::GetParent),
    (277, Call::Seccomp),
    (167, Call::Prctl),
    (435, Call::Lacking),
];

/// The numbers of these calls on x86.
pub(crate) const X86_NUMBERS: &[(u32, Call)] = &[
    (2, Call::Fork),
    (190, Call::Fork),
    (120, Call::Clone),
    (11, Call::Execve),
    (1, Call::Exit),
    (252, Call::ExitGroup),
    (37, Call::Kill),
    (20, Call::GetPid),
    (224, Call::GetTid),
    (64, Call::GetParent),
    (354, Call::Seccomp),
    (172, Call::Prctl),
    (435, Call::Lacking),
];

/// The numbers of these calls on x32, with the bit that tells them from those of x86-64.
pub(crate) const X32_NUMBERS: &[(u32, Call)] = &[
    (0x4000_0039, Call::Fork),
    (0x4000_003a, Call::Fork),
    (0x4000_0038, Call::Clone),
    (0x4000_0208, Call::Execve),
    (0x4000_003c, Call::Exit),
    (0x4000_00e7, Call::ExitGroup),
    (0x4000_003e, Call::Kill),
    (0x4000_0027, Call::GetPid),
    (0x4000_00ba, Call::GetTid),
    (0x4000_006e, Call::GetParent),
    (0x4000_013d, Call::Seccomp),
    (0x4000_009d, Call::Prctl),
    (0x4000_01b3, Call::Lacking),
];

/// The numbers of these calls on ARM.
pub(crate) const ARM_NUMBERS: &[(u32, Call)] = &[
    (2, Call::Fork),
    (190, Call::Fork),
    (120, Call::Clone),
    (11, Call::Execve),
    (1, Call::Exit),
    (248, Call::ExitGroup),
    (37, Call::Kill),
    (20, Call::GetPid),
    (224, Call::GetTid),
    (64, Call::GetParent),
    (383, Call::Seccomp),
    (172, Call::Prctl),
    (435, Call::Lacking),
];

/// The numbers of these calls on ppc64le.
pub(crate) const PPC64LE_NUMBERS: &[(u32, Call)] = &[
    (2, Call::Fork),
    (189, Call::Fork),
    (120, Call::Clone),
    (11, Call::Execve),
    (1, Call::Exit),
    (234, Call::ExitGroup),
    (37, Call::Kill),
    (20, Call::GetPid),
    (207, Call::GetTid),
    (64, Call::GetParent),
    (358, Call::Seccomp),
    (171, Call::Prctl),
    (435, Call::Lacking),
];

/// The numbers of these calls on s390x and s390.
pub(crate) const S390_NUMBERS: &[(u32, Call)] = &[
    (2, Call::Fork),
    (190, Call::Fork),
    (120, Call::Clone),
    (11, Call::Execve),
    (1, Call::Exit),
    (248, Call::ExitGroup),
    (37, Call::Kill),
    (20, Call::GetPid),
    (236, Call::GetTid),
    (64, Call::GetParent),
    (348, Call::Seccomp),
    (172, Call::Prctl),
    (435, Call::Lacking),
];

// The numbers of these calls on a machine.
fn numbers_of(native: Arch) -> &'static [(u32, Call)]
    ensures { result.now ≡ numbers_in (table_of native) named_calls }
{
    match native {
        Arch::X86_64 => X86_64_NUMBERS,
        Arch::Aarch64 => AARCH64_NUMBERS,
        Arch::LinuxX86_64 => X86_64_NUMBERS,
        Arch::LinuxX32 => X32_NUMBERS,
        Arch::LinuxX86 => X86_NUMBERS,
        Arch::LinuxAarch64 => AARCH64_NUMBERS,
        Arch::LinuxArm => ARM_NUMBERS,
        Arch::LinuxRiscv64 => AARCH64_NUMBERS,
        Arch::LinuxPpc64le => PPC64LE_NUMBERS,
        Arch::LinuxLoongarch64 => AARCH64_NUMBERS,
        Arch::LinuxS390x => S390_NUMBERS,
        Arch::LinuxS390 => S390_NUMBERS,
    }
}

// The call beside the first such number.
fn find_call(numbers: &[(u32, Call)], number: u32) -> Call
    ensures { result ≡ call_at numbers.now number }
{
    for entry in numbers {
        if entry.0 == number {
            return entry.1;
        }
    }
    Call::Plain
}
