//! The machines that a bundle may be for: what a kernel and a bundle call them, and which numbers of calls are theirs.
//!
//! Each has a token, as a call record carries it, and a name, as a bundle lists it. Machines of one [`Family`] may stand
//! in one profile. Of machines with one token each has its own numbers. Of an argument all bits are compared, or the low
//! half alone where a kernel carries out no more ([`is_narrow`]). The calls of machines, by name and number, stand in
//! `call_tables`.
#![tactic(auto)]

mod arch;
mod numbers;
mod width;

pub use arch::{Arch, Family};
pub use numbers::{LEAST_X32_NUMBER, Numbers};
pub use width::{compared, is_narrow};
