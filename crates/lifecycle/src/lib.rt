//! The lifecycle of containers (OCI Runtime Specification, Runtime and Lifecycle), and whole runs of commands and events.
//!
//! A [`Runtime`] creates, starts, signals and deletes containers over any [`Kernel`](processes::Kernel) that keeps the
//! kernel's laws. Each container has a filter that was checked against its profile. Whatever commands and events come, in
//! any order, the replies are those of the modelled kernel in which the profiles themselves decide.
#![tactic(auto)]

mod command;
mod entry;
mod fault;
mod law;
mod register;
mod run;
mod runtime;
mod start;

pub use command::{Command, Reply, Status};
pub use fault::Refusal;
pub use law::{
    containers_are_isolated, first_filter_is_oldest, first_is_given, loads_tell_filters,
    old_filters_stay, one_first_judge, refused_is_not_carried_out, replies_are_steps,
};
pub use runtime::Runtime;
