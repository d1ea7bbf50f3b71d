//! Runs an accepted filter on the record of a call.
//!
//! [`verdict`] answers the filter's verdict, and [`verdict_counted`] also how many instructions were run.
//! The kernel's check has shown that every load is of a word of the record, or of a scratch word that is
//! written by then. It has also shown that every step leads on to a later instruction, so each run ends.
#![tactic(auto)]

mod fixed;
mod run;
mod step;

pub use fixed::{fixed_allow, fixed_is_the_verdict};
pub use run::{verdict, verdict_counted};
