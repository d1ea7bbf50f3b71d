//! The system calls of machines: their names in a bundle and their numbers in a call record.
//!
//! A table holds each name and each number once. So looking up a name and looking up a number undo each other.
//!
//! x86-64 and AArch64 stand here twice: with a list of calls that this project chose, and with all
//! calls of Linux. Beside the latter stand x86, x32 and ARM, whose calls the same kernels run, and further machines,
//! s390x, which is big-endian, with s390.
#![tactic(auto)]

mod calls;
mod linux;
mod linux_calls;
mod linux_calls_later;
mod look_ups;
mod rows;
mod table;

pub use look_ups::{call_name, call_number, look_ups_are_inverse};
