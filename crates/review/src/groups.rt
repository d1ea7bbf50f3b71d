//! Groups of calls that profiles are written for.

/// Some records of a call: its name, the place of an argument, a mask, and the bits that the argument has under it.
pub type Part = (&'static str, u8, u64, u64);

/// Calls, and which of their records are asked about.
pub type Row = (&'static [&'static str], Part);

/// Calls that open the same part of the kernel: a name, why it matters, and the calls.
pub type Group = (&'static str, &'static str, &'static [Row]);
