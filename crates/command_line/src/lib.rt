//! The command line of `ccell`: the one table of its commands, which of them arguments are, and how they are used.
#![tactic(auto)]

mod grammar;
mod meanings;
mod misused;
mod pages;
mod prose;
mod reading;
mod said;
mod table;

pub use meanings::Meaning;
pub use misused::advice;
pub use pages::manual;
pub use prose::Command;
pub use reading::{CommandLine, Misuse, read_arguments};
pub use table::{COMMANDS, Count, Entry, Part};
