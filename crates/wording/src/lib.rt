//! The words that commands share. They tell how an action, a condition and a call are written, why a profile answers as it does,
//! and what a command tells.
#![tactic(auto)]

mod calls;
mod lines;
mod phrases;
mod reason;
mod told;

pub use calls::{machine_of, machine_with, put_record};
pub use lines::split_line;
pub use phrases::{ActionText, ConditionText};
pub use reason::{Reason, entry_at, is_match, reason_of};
pub use told::{End, Told, refused_profile};
