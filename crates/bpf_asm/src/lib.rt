//! The listing of a program as text, and the program that a listing spells.
//!
//! A line stands for an instruction and ends by a line feed: `ld [4]`, `jeq #0xc000003e,1,0`, `ret #0x0`.
//! An instruction that has no such form, as one with a code that is not listed, stands as
//! `raw CODE,JT,JF,K`. No two programs have one listing.
#![tactic(auto)]

mod arguments;
mod assembling;
mod fault;
mod laws;
mod line;
mod listing;
mod mnemonic;

pub use assembling::assemble;
pub use fault::{AsmError, LineFault};
pub use laws::{faults_are_one, faults_exclude_programs, listings_differ, programs_differ};
pub use listing::disassemble;
