//! What each function answers with.

/// It is done, and what was asked for is written.
pub const DONE: u32 = 0;
/// It was refused, and the line that says why is written.
pub const REFUSED: u32 = 1;
/// There is no room for what is written.
pub const NO_ROOM: u32 = 2;
/// Memory was refused.
pub const NO_MEMORY: u32 = 3;
/// No machine has the number of the native one.
pub const NO_NATIVE: u32 = 4;
/// No machine has the number at the first place.
pub const NO_MACHINE: u32 = 5;
/// No rule stands at the first place.
pub const NO_RULE: u32 = 6;
/// The native machine is not listed.
pub const NATIVE_MISSING: u32 = 7;
/// The rule at the first place is for a machine that is not listed.
pub const FOREIGN_RULE: u32 = 8;
/// More rules are different than there may be.
pub const TOO_MANY: u32 = 9;
/// The rules at both places contradict each other.
pub const OVERLAP: u32 = 10;
/// The filter would be longer than a kernel takes, or its certificate larger than one may be.
pub const NO_FILTER: u32 = 11;
/// The record does not have 64 bytes.
pub const NO_RECORD: u32 = 12;
/// The filter's bytes are no program.
pub const NO_PROGRAM: u32 = 13;
/// The kernel refuses the filter.
pub const KERNEL_REFUSES: u32 = 14;
/// There is no such call.
pub const NO_CALL: u32 = 15;
/// The name of a call is no UTF-8.
pub const NO_TEXT: u32 = 16;

/// How many bytes are written, or would be, and the places that a refusal names.
#[repr(C)]
#[derive(Clone, Copy, Debug)]
pub struct Told {
    pub count: usize,
    pub first: usize,
    pub second: usize,
}
