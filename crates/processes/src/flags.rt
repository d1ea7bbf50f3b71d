//! The flags of seccomp(2) with a filter.
ghost use Rattle.std.specs.Prelude.{⊤, ◌≡◌, [], ◌∷◌, codes};
ghost use Rattle.machines.specs.Arch.{family_of};
ghost use Rattle.processes.specs.Calls.{known_flags};

use bitflags::{Flag, Flags, bitflag_items};
use machines::{Arch, Family};

/// The flags that the kernel knows.
#[derive(Clone, Copy)]
pub(crate) struct FilterFlags(u64);

bitflag_items! {
    impl FilterFlags: u64 {
        /// The filter is for all tasks of the caller's group.
        const TSYNC = 1;
        /// The filter gets a listener, which is told of the calls that it notifies.
        const NEW_LISTENER = 8;
        /// What TSYNC cannot do is told by an error.
        const TSYNC_ESRCH = 16;
    }
}

impl Flags for FilterFlags {
    type Bits = u64;

    ghost exact = { ⊤ };

    ghost table = { (codes "TSYNC", 1) ∷ (codes "NEW_LISTENER", 8) ∷ (codes "TSYNC_ESRCH", 16) ∷ [] };

    ghost set_of = { λ flags. flags.0 };

    fn flags<'a>() -> &'a [Flag<FilterFlags>] {
        FilterFlags::FLAGS
    }

    fn bits(&self) -> u64 {
        self.0
    }

    fn from_bits_retain(bits: u64) -> FilterFlags {
        FilterFlags(bits)
    }
}

/// The bits of the flags that the kernel of a machine knows.
pub(crate) fn known_flags(native: Arch) -> u64
    ensures { result ≡ known_flags (family_of native) }
{
    match native.family() {
        Family::Chosen => 1,
        Family::Whole => 25,
    }
}
