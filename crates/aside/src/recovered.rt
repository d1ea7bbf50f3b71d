//! What profile does a filter have, but for some calls? Where no section says all that a filter does, calls that matter to no one are
//! left aside and reported. They are those of x32, numbers that no table has, and those that runc's stub answers.
//!
//! A section is drafted that passes these calls over. None of that is trusted. It is judged with the filter, and handed out only if the
//! filter is right but for the calls that are reported.
mod recovering;
mod told;

pub use recovering::{RecoveredBundle, recover_but};
pub use told::{RecoveredBut, recover_told};
