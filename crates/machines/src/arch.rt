//! Machines as values, by name and by token.
ghost use Rattle.std.specs.Prelude.{◌≡◌};

use crate::numbers::{
    ALL, ARM_CALLS, BELOW_X32, CALLS, FROM_X32, LINUX_X32, LINUX_X86_64, Numbers, X32_CALLS,
};

// Values of the kernel's `AUDIT_ARCH_` constants.

pub(crate) const X86_64_TOKEN: u32 = 0xc000_003e;

pub(crate) const AARCH64_TOKEN: u32 = 0xc000_00b7;

pub(crate) const X86_TOKEN: u32 = 0x4000_0003;

pub(crate) const ARM_TOKEN: u32 = 0x4000_0028;

pub(crate) const RISCV64_TOKEN: u32 = 0xc000_00f3;

pub(crate) const PPC64LE_TOKEN: u32 = 0xc000_0015;

pub(crate) const LOONGARCH64_TOKEN: u32 = 0xc000_0102;

pub(crate) const S390X_TOKEN: u32 = 0x8000_0016;

pub(crate) const S390_TOKEN: u32 = 0x16;

/// A machine as a value.
#[derive(Clone, Copy, Debug, PartialEq, Eq)]
pub enum Arch {
    X86_64,
    Aarch64,
    LinuxX86_64,
    LinuxX32,
    LinuxX86,
    LinuxAarch64,
    LinuxArm,
    LinuxRiscv64,
    LinuxPpc64le,
    LinuxLoongarch64,
    LinuxS390x,
    LinuxS390,
}

/// What machines share that may stand in one profile: the extent of their tables.
#[derive(Clone, Copy, Debug, PartialEq, Eq)]
pub enum Family {
    /// The lists that this project chose.
    Chosen,
    /// All calls of Linux.
    Whole,
}

impl Family {
    ghost use Rattle.machines.specs.Arch.{machines_of};

    /// The machines of the family, x86-64 first. Machines with one token stand side by side.
    pub fn machines(self) -> &'static [Arch]
        ensures { result.now ≡ machines_of self }
    {
        match self {
            Family::Chosen => &[Arch::X86_64, Arch::Aarch64],
            Family::Whole => &[
                Arch::LinuxX86_64,
                Arch::LinuxX32,
                Arch::LinuxX86,
                Arch::LinuxAarch64,
                Arch::LinuxArm,
                Arch::LinuxRiscv64,
                Arch::LinuxPpc64le,
                Arch::LinuxLoongarch64,
                Arch::LinuxS390x,
                Arch::LinuxS390,
            ],
        }
    }
}

/// What stands in a list of machines where none does.
impl Default for Arch {
    fn default() -> Arch {
        Arch::X86_64
    }
}

impl Arch {
    ghost use Rattle.std.specs.Prelude.{◌↔◌, IsTrue};
    ghost use Rattle.machines.specs.Arch.{token_of, is_big_endian, scmp_of, machine_name, machine_called, native_called, family_of};
    ghost use Rattle.machines.specs.Numbers.{own_numbers, other_numbers, call_numbers, IsOwn};

    /// All machines, family by family, in the order in which lists of machines name them.
    pub const ALL: [Arch; 12] = [
        Arch::X86_64,
        Arch::Aarch64,
        Arch::LinuxX86_64,
        Arch::LinuxX32,
        Arch::LinuxX86,
        Arch::LinuxAarch64,
        Arch::LinuxArm,
        Arch::LinuxRiscv64,
        Arch::LinuxPpc64le,
        Arch::LinuxLoongarch64,
        Arch::LinuxS390x,
        Arch::LinuxS390,
    ];

    /// Which tables the machine's is one of.
    pub fn family(self) -> Family
        ensures { result ≡ family_of self }
    {
        match self {
            Arch::X86_64 | Arch::Aarch64 => Family::Chosen,
            Arch::LinuxX86_64
            | Arch::LinuxX86
            | Arch::LinuxX32
            | Arch::LinuxAarch64
            | Arch::LinuxArm
            | Arch::LinuxRiscv64
            | Arch::LinuxPpc64le
            | Arch::LinuxLoongarch64
            | Arch::LinuxS390x
            | Arch::LinuxS390 => Family::Whole,
        }
    }

    /// The machine's token in the `arch` field of `struct seccomp_data`.
    pub fn token(self) -> u32
        ensures { result ≡ token_of self }
    {
        match self {
            Arch::X86_64 => X86_64_TOKEN,
            Arch::Aarch64 => AARCH64_TOKEN,
            Arch::LinuxX86_64 => X86_64_TOKEN,
            Arch::LinuxX86 => X86_TOKEN,
            Arch::LinuxX32 => X86_64_TOKEN,
            Arch::LinuxAarch64 => AARCH64_TOKEN,
            Arch::LinuxArm => ARM_TOKEN,
            Arch::LinuxRiscv64 => RISCV64_TOKEN,
            Arch::LinuxPpc64le => PPC64LE_TOKEN,
            Arch::LinuxLoongarch64 => LOONGARCH64_TOKEN,
            Arch::LinuxS390x => S390X_TOKEN,
            Arch::LinuxS390 => S390_TOKEN,
        }
    }

    /// Whether the machine's kernel stores the upper half of a number before the lower one: in call records, and in
    /// instructions of filters.
    pub fn is_big_endian(self) -> bool
        ensures { result ≡ is_big_endian self }
    {
        match self {
            Arch::LinuxS390x | Arch::LinuxS390 => true,
            Arch::X86_64
            | Arch::Aarch64
            | Arch::LinuxX86_64
            | Arch::LinuxX86
            | Arch::LinuxX32
            | Arch::LinuxAarch64
            | Arch::LinuxArm
            | Arch::LinuxRiscv64
            | Arch::LinuxPpc64le
            | Arch::LinuxLoongarch64 => false,
        }
    }

    /// The numbers of calls that are the machine's own, in order. Machines of one family with one token have none in
    /// common.
    pub fn own_numbers(self) -> &'static [Numbers]
        ensures { result.now ≡ own_numbers self }
    {
        match self {
            Arch::X86_64 => BELOW_X32,
            Arch::LinuxX86_64 => LINUX_X86_64,
            Arch::LinuxX32 => LINUX_X32,
            Arch::Aarch64
            | Arch::LinuxX86
            | Arch::LinuxAarch64
            | Arch::LinuxArm
            | Arch::LinuxRiscv64
            | Arch::LinuxPpc64le
            | Arch::LinuxLoongarch64
            | Arch::LinuxS390x
            | Arch::LinuxS390 => ALL,
        }
    }

    /// The numbers of calls that are not, in order.
    pub fn other_numbers(self) -> &'static [Numbers]
        ensures { result.now ≡ other_numbers self }
    {
        match self {
            Arch::X86_64 => FROM_X32,
            Arch::LinuxX86_64 => LINUX_X32,
            Arch::LinuxX32 => LINUX_X86_64,
            Arch::Aarch64
            | Arch::LinuxX86
            | Arch::LinuxAarch64
            | Arch::LinuxArm
            | Arch::LinuxRiscv64
            | Arch::LinuxPpc64le
            | Arch::LinuxLoongarch64
            | Arch::LinuxS390x
            | Arch::LinuxS390 => &[],
        }
    }

    /// Whether a number is the machine's own.
    pub fn has_number(self, number: u32) -> bool
        ensures { IsTrue result ↔ IsOwn self number }
    {
        self.own_numbers()
            .iter()
            .any(|numbers| numbers.contain(number))
    }

    /// The machine's name in the list `architectures` of a bundle.
    pub fn scmp(self) -> &'static str
        ensures { result.now ≡ scmp_of self }
    {
        match self {
            Arch::X86_64 => "SCMP_ARCH_X86_64",
            Arch::Aarch64 => "SCMP_ARCH_AARCH64",
            Arch::LinuxX86_64 => "SCMP_ARCH_X86_64",
            Arch::LinuxX86 => "SCMP_ARCH_X86",
            Arch::LinuxX32 => "SCMP_ARCH_X32",
            Arch::LinuxAarch64 => "SCMP_ARCH_AARCH64",
            Arch::LinuxArm => "SCMP_ARCH_ARM",
            Arch::LinuxRiscv64 => "SCMP_ARCH_RISCV64",
            Arch::LinuxPpc64le => "SCMP_ARCH_PPC64LE",
            Arch::LinuxLoongarch64 => "SCMP_ARCH_LOONGARCH64",
            Arch::LinuxS390x => "SCMP_ARCH_S390X",
            Arch::LinuxS390 => "SCMP_ARCH_S390",
        }
    }

    /// The name by which a user of the program calls the machine.
    pub fn machine_name(self) -> &'static str
        ensures { result.now ≡ machine_name self }
    {
        match self {
            Arch::X86_64 => "x86-64",
            Arch::Aarch64 => "aarch64",
            Arch::LinuxX86_64 => "linux-x86-64",
            Arch::LinuxX86 => "linux-x86",
            Arch::LinuxX32 => "linux-x32",
            Arch::LinuxAarch64 => "linux-aarch64",
            Arch::LinuxArm => "linux-arm",
            Arch::LinuxRiscv64 => "linux-riscv64",
            Arch::LinuxPpc64le => "linux-ppc64le",
            Arch::LinuxLoongarch64 => "linux-loongarch64",
            Arch::LinuxS390x => "linux-s390x",
            Arch::LinuxS390 => "linux-s390",
        }
    }

    /// The machine with this name, of those that a container may be for.
    ///
    /// A kernel of x86-64 runs the calls of x86 and x32 too. One of AArch64 runs those of ARM, and one of s390x those of
    /// s390 (up to Linux 6).
    #[tactic(auto, unfolding(crate::specs::Arch::native_called))]
    pub fn native_called(name: &str) -> Option<Arch>
        ensures { result ≡ native_called name.now }
    {
        if name == "x86-64" {
            return Some(Arch::X86_64);
        }
        if name == "aarch64" {
            return Some(Arch::Aarch64);
        }
        if name == "linux-x86-64" {
            return Some(Arch::LinuxX86_64);
        }
        if name == "linux-aarch64" {
            return Some(Arch::LinuxAarch64);
        }
        if name == "linux-riscv64" {
            return Some(Arch::LinuxRiscv64);
        }
        if name == "linux-ppc64le" {
            return Some(Arch::LinuxPpc64le);
        }
        if name == "linux-loongarch64" {
            return Some(Arch::LinuxLoongarch64);
        }
        if name == "linux-s390x" {
            return Some(Arch::LinuxS390x);
        }
        None
    }

    /// The machine with this name.
    #[tactic(auto, unfolding(crate::specs::Arch::machine_called))]
    pub fn called(name: &str) -> Option<Arch>
        ensures { result ≡ machine_called name.now }
    {
        if name == "linux-x86" {
            return Some(Arch::LinuxX86);
        }
        if name == "linux-x32" {
            return Some(Arch::LinuxX32);
        }
        if name == "linux-arm" {
            return Some(Arch::LinuxArm);
        }
        if name == "linux-s390" {
            return Some(Arch::LinuxS390);
        }
        Arch::native_called(name)
    }

    /// Numbers of the machine, in order, among which those of all its calls are.
    pub fn call_numbers(self) -> &'static [Numbers]
        ensures { result.now ≡ call_numbers self }
    {
        match self {
            Arch::LinuxX32 => X32_CALLS,
            Arch::LinuxArm => ARM_CALLS,
            Arch::X86_64
            | Arch::Aarch64
            | Arch::LinuxX86_64
            | Arch::LinuxX86
            | Arch::LinuxAarch64
            | Arch::LinuxRiscv64
            | Arch::LinuxPpc64le
            | Arch::LinuxLoongarch64
            | Arch::LinuxS390x
            | Arch::LinuxS390 => CALLS,
        }
    }
}
