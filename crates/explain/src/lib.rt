//! Why a profile answers a call record as it does, in words; records asked for in words; and events of the audit log explained.
#![tactic(auto)]

mod asked;
mod audited;
mod refused;
mod rules;
mod telling;
mod told;

pub use audited::{audit, explain_any};
pub use telling::explanation;
pub use told::{assembled, explain, record, version};
