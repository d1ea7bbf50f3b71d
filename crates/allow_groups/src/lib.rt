//! Bundles to which the calls of groups are added, as `@basic-io` of systemd: each call record is answered as before, but those calls are
//! allowed. What is written is read again, and handed out only if `together` finds that its profile says so.
#![tactic(auto)]

mod allowing;
mod calls;
mod draft;
mod grown;
mod lists;
mod report;

pub use calls::MachineCall;
pub use grown::{Grown, allow_groups};
