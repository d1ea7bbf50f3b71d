//! Where the words of a call record stand, in bytes from its start (seccomp(2), `struct
//! seccomp_data`).

/// The number of the call.
pub const NUMBER: u32 = 0;

/// The token of the machine.
pub const MACHINE: u32 = 4;

/// The instruction pointer, its low word first.
pub const POINTER: u32 = 8;

/// The first of the six arguments, each of which has a low word and after it a high one.
pub const ARGUMENTS: u32 = 16;
