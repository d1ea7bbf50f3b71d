//! One filter that answers as a stack of filters.
//!
//! A process can have several filters. The kernel asks each of them, the newest first, and the strictest verdict counts. Here the filters
//! are put above one another. Where a newer filter returns, the older ones go on, and what they return gives way to what it returned.
#![tactic(auto)]

mod above;
mod flattened;
mod insns;
mod places;
mod plain;
mod telling;
mod turns;
mod unflat;

pub use flattened::flatten;
pub use insns::{is_return, return_of};
pub use plain::plain_insns;
pub use telling::line_of;
pub use unflat::Unflat;
