//! Filters and call records as machines have them that store the upper half of a number first.
//!
//! Everything else in `ccell` knows them with the lower half first. A filter of a big-endian machine is turned where its file is read,
//! and one for it where the file is written. Proved: the kernel of such a machine accepts the one where the other is accepted, and the
//! verdicts are the same ([`filters_mean_the_same`]).
#![tactic(auto)]

mod insns;
mod law;
mod turned;

pub use law::filters_mean_the_same;
pub use turned::{each_read_as, read_as, written_as};
