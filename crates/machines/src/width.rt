//! How much of an argument is compared.
ghost use Rattle.std.specs.Prelude.{◌≡◌};
ghost use Rattle.machines.specs.Width as spec;

use crate::arch::{ARM_TOKEN, S390_TOKEN, X86_TOKEN};

/// Whether arguments have 32 bits in the calls with a token: of x86, ARM and s390 a kernel carries out the low halves
/// alone.
pub fn is_narrow(token: u32) -> bool
    ensures { result ≡ spec.is_narrow token }
{
    token == X86_TOKEN || token == ARM_TOKEN || token == S390_TOKEN
}

/// What is compared of an argument: its low half where it is narrow.
pub const fn compared(narrow: bool, argument: u64) -> u64
    ensures { result ≡ spec.compared narrow argument }
{
    if narrow {
        argument % (1 << 32)
    } else {
        argument
    }
}
