//! Which numbers of calls are a machine's own.
ghost use Rattle.std.specs.Prelude.{◌↔◌, IsTrue};
ghost use Rattle.machines.specs.Numbers.{IsWithin};

/// Numbers of calls, from the first to the last.
#[derive(Clone, Copy, Debug, PartialEq, Eq)]
pub struct Numbers {
    pub first: u32,
    pub last: u32,
}

impl Numbers {
    /// Whether a number is one of these.
    pub fn contain(&self, number: u32) -> bool
        ensures { IsTrue result ↔ IsWithin number self.now }
    {
        if number < self.first {
            return false;
        }
        number <= self.last
    }
}

/// The least number of an x32 call. These calls carry the token of x86-64.
pub const LEAST_X32_NUMBER: u32 = 0x4000_0000;

/// All numbers.
pub(crate) const ALL: &[Numbers] = &[Numbers {
    first: 0,
    last: u32::MAX,
}];

/// Those below the x32 calls.
pub(crate) const BELOW_X32: &[Numbers] = &[Numbers {
    first: 0,
    last: LEAST_X32_NUMBER - 1,
}];

/// Those from the x32 calls on.
pub(crate) const FROM_X32: &[Numbers] = &[Numbers {
    first: LEAST_X32_NUMBER,
    last: u32::MAX,
}];

/// Those of x86-64 on Linux. The kernel writes the greatest number where a tracer skips a call, and takes it for none
/// of x32.
pub(crate) const LINUX_X86_64: &[Numbers] = &[
    Numbers {
        first: 0,
        last: LEAST_X32_NUMBER - 1,
    },
    Numbers {
        first: u32::MAX,
        last: u32::MAX,
    },
];

/// Those of x32 on Linux.
pub(crate) const LINUX_X32: &[Numbers] = &[Numbers {
    first: LEAST_X32_NUMBER,
    last: u32::MAX - 1,
}];

/// Where the numbers of calls are, of most machines.
pub(crate) const CALLS: &[Numbers] = &[Numbers {
    first: 0,
    last: 511,
}];

/// Where those of x32 are.
pub(crate) const X32_CALLS: &[Numbers] = &[Numbers {
    first: LEAST_X32_NUMBER,
    last: LEAST_X32_NUMBER + 1023,
}];

/// Where those of ARM are: the last ones are private to it.
pub(crate) const ARM_CALLS: &[Numbers] = &[
    Numbers {
        first: 0,
        last: 511,
    },
    Numbers {
        first: 0xf_0000,
        last: 0xf_000f,
    },
];
