//! Texts: digits and the numbers that they write, lines that take no memory, and where bytes come from and where they go.
#![tactic(auto)]

mod line;
mod numbers;
mod parts;
mod streams;

pub use line::{Line, put, put_label, put_number};
pub use numbers::{decimal, hexadecimal, is_decimal, is_hexadecimal};
pub use parts::split;
pub use streams::{Failed, FromRead, Sink, Source, ToWrite, WriteFault, write_all};
