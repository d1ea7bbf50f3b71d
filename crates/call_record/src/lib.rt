//! The record of one call, as a filter sees it, and the verdict that a filter answers (seccomp(2)).
//!
//! A `Record` is sixteen words of 32 bits, and 64 bytes. A `Word` says what becomes of the call;
//! `strictest` picks the verdict that counts where a task has several filters, and `Word::ends` says
//! what ends by a verdict. `least_below` finds the least number with given bits under a mask, which
//! decides whether conditions on an argument can be met together.
#![tactic(auto)]

mod bits;
mod effect;
mod fate;
mod laws;
mod layout;
mod little;
pub mod offset;
mod strictness;
mod text;
mod verdict;

pub use bits::least_below;
pub use effect::Ends;
pub use fate::Fate;
pub use laws::{refusal_stands, same_bytes, same_record, words_are_a_record};
pub use layout::{Record, halves};
pub use strictness::{stricter, strictest, strictest_in_turn};
pub use verdict::{Word, lets_through};
