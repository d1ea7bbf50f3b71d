//! Scripts: which lines are which commands. `session` carries them out, and the words by which `ccell` is told of a call are those of a line.
#![tactic(auto)]

mod digits;
mod fields;
mod law;
mod numbers;
mod reading;
mod request;
mod what;

pub use digits::Hex;
pub use law::{one_command, one_reading};
pub use reading::{MAX_LINE, read_line};
pub use request::Request;
