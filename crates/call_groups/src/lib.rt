//! Groups of calls by the names that systemd has for them, as `@basic-io`.
#![tactic(auto)]

mod calls;
mod later_names;
mod names;
mod own;
mod row;
mod tables;

pub use calls::{calls_of, calls_of_all, is_group};
pub use own::is_known;
